//! The program on an input, and on its streams.
ghost use Rattle.std.specs.Prelude.{◌≡◌, ◌≢◌, ◌⊎◌, ◌<◌, ◌≤◌, None, Some, IfOk, IfSome, OnErr, OnOk, false};
ghost use Rattle.std.specs.Io.KnownBytes.{Appends, Keeps};
ghost use Rattle.clap.specs.Words.{kind_of};
ghost use Rattle.recordings.specs.Recordings.{recording_of};
ghost use Rattle.shot.specs.Shots.{chosen, profile_for, shots_for};
ghost use Rattle.shot.specs.Sinks.{AppendsUnlessClosed};
ghost use Rattle.shot.specs.Words.{fault_left, kind_in};
ghost use Rattle.terminal.specs.Shown.{AppendsPrefix};

use crate::error::ShotError;
use crate::options::{BadWords, Options};
use crate::shots::write_shots;
use crate::sink::Sink;
use clap::Error;
use clap::error::ErrorKind;
use recordings::{BadLine, Fault, Recording, Size, read_recording};
use std::alloc::Global;
use std::io;
use std::io::{Read, Write};
use terminal::{Profile, TerminalError};

const FAULT: u8 = 1;

const BAD_WORDS: u8 = 2;

/// Writes a line with a fault, and returns the status 1. If the line can't be written, that is ignored.
pub fn report<F: Write>(faults: &mut F, fault: &str) -> u8
    ensures { result ≡ FAULT }
{
    let _ = write_text(faults, &["shot: ", fault, "\n"]);
    FAULT
}

// Writes some texts, one after another, and flushes.
fn write_text<F: Write>(faults: &mut F, texts: &[&str]) -> io::Result<()> {
    for text in texts {
        faults.write_all(text.as_bytes())?;
    }
    faults.flush()
}

/// Writes why the words are refused, and returns the status 2. If this can't be written, that is ignored.
pub fn refuse<F: Write>(faults: &mut F, texts: &[&str]) -> u8
    ensures { result ≡ BAD_WORDS }
{
    let _ = write_text(faults, texts);
    BAD_WORDS
}

fn fault_of(error: ShotError) -> &'static str {
    match error {
        ShotError::Write => "cannot write",
        ShotError::Terminal(TerminalError::Number) => "numbers used up",
        ShotError::Terminal(TerminalError::Memory) => "out of memory",
        ShotError::Terminal(TerminalError::Failed) => "out of memory",
    }
}

// Writes help or the version to `writer`, and a mistake in the words to `faults`.
fn explain<T: Sink, F: Write>(alloc: Global, error: &Error, writer: &mut T, faults: &mut F) -> u8
    ensures status { result ≤ 2 }
    ensures memory { kind_of error.now ≡ ErrorKind.OutOfMemory → result ≡ FAULT }
    ensures asked { result ≡ 0
        → (kind_of error.now ≡ ErrorKind.DisplayHelp) ⊎ (kind_of error.now ≡ ErrorKind.DisplayVersion) }
    ensures shown { (kind_of error.now ≡ ErrorKind.DisplayHelp) ⊎ (kind_of error.now ≡ ErrorKind.DisplayVersion)
        → result ≢ BAD_WORDS }
    ensures quiet { result ≡ 0 → Keeps (F.contents faults.old) (F.contents faults.new) }
    ensures nothing { kind_of error.now ≡ ErrorKind.OutOfMemory
        → Keeps (T.contents writer.old) (T.contents writer.new) }
    ensures refused { result ≡ BAD_WORDS → Keeps (T.contents writer.old) (T.contents writer.new) }
{
    if error.kind() == ErrorKind::OutOfMemory {
        return report(faults, "out of memory");
    }
    let Ok(text) = error.to_string(alloc) else {
        return report(faults, "out of memory");
    };
    if error.use_stderr() {
        return refuse(faults, &[text.as_str()]);
    }
    let is_shown = writer.write_screen(0, "", &text).is_ok() && writer.finish().is_ok();
    if is_shown || writer.is_closed() {
        return 0;
    }
    report(faults, "cannot write")
}

/// Writes why the words are refused to `faults`, or help or the version to `writer`; returns the status.
pub fn explain_words<T: Sink, F: Write>(
    alloc: Global,
    words: &BadWords,
    writer: &mut T,
    faults: &mut F,
) -> u8
    ensures status { result ≤ 2 }
    ensures memory { kind_in words.now ≡ Some ErrorKind.OutOfMemory → result ≡ FAULT }
    // Status 0 is only for words that ask for help or for the version, and status 2 is not for these.
    ensures asked { result ≡ 0
        → (kind_in words.now ≡ Some ErrorKind.DisplayHelp) ⊎ (kind_in words.now ≡ Some ErrorKind.DisplayVersion) }
    ensures shown { (kind_in words.now ≡ Some ErrorKind.DisplayHelp)
        ⊎ (kind_in words.now ≡ Some ErrorKind.DisplayVersion) → result ≢ BAD_WORDS }
    ensures seconds { kind_in words.now ≡ None → result ≡ BAD_WORDS }
    ensures quiet { result ≡ 0 → Keeps (F.contents faults.old) (F.contents faults.new) }
    ensures nothing { kind_in words.now ≡ Some ErrorKind.OutOfMemory
        → Keeps (T.contents writer.old) (T.contents writer.new) }
    ensures refused { result ≡ BAD_WORDS → Keeps (T.contents writer.old) (T.contents writer.new) }
{
    match words {
        BadWords::Command(error) => explain(alloc, error, writer, faults),
        BadWords::Output => refuse(
            faults,
            &[
                "error: the value of '--output <NAME>' has no place for a number, as %04d\n\n",
                "For more information, try '--help'.\n",
            ],
        ),
        BadWords::Seconds(name) => refuse(
            faults,
            &[
                "error: the value of '--",
                *name,
                " <SECONDS>' is no decimal number of seconds from 0 on, or too large, or a step of none\n\n",
                "For more information, try '--help'.\n",
            ],
        ),
    }
}

// The number `given`, if it is from 1 to 4096, or else `other`.
fn chosen(other: usize, given: Option<u32>) -> usize
    requires { (0 < other) × (other ≤ 4096) }
    ensures range { (0 < result) × (result ≤ 4096) }
    ensures choice { result ≡ chosen other given }
{
    match given {
        Some(given) if 0 < given && given <= 4096 => given as usize,
        _ => other,
    }
}

// The profile `given`, or else that of a recording's TERM.
fn profile_for(given: Option<Profile>, has_own_term: bool) -> Profile
    ensures { result ≡ profile_for given has_own_term }
{
    match given {
        Some(profile) => profile,
        None if has_own_term => Profile::Plain,
        None => Profile::Xterm,
    }
}

// The fault that is left of a recording's under `--partial`, or without it.
fn fault_left(is_partial: bool, fault: Option<BadLine>) -> Option<BadLine>
    ensures { result ≡ fault_left is_partial fault }
{
    match fault {
        Some(
            BadLine {
                fault: Fault::CutOff,
                ..
            },
        ) if is_partial => None,
        _ => fault,
    }
}

const USUAL: Size = Size {
    width: 80,
    height: 24,
};

/// Writes the requested screens of an input, and returns the line of the input that is wrong, if one is; then it writes
/// only the screens that no later line could have changed, or under `--partial` all where the input is cut off. After
/// an error a prefix of the screens' bytes is written.
#[tactic(auto, using(crate::proofs::WriteLemmas::prefix_none))]
pub fn shoot<T: Sink>(
    alloc: Global,
    options: Options<'_>,
    input: &[u8],
    writer: &mut T,
) -> Result<Option<BadLine>, ShotError>
    ensures writes { OnOk result (Appends (T.contents writer.old) (T.contents writer.new)
        (shots_for options.entry (recording_of 80 24 input.now))) }
    ensures part { OnErr result (AppendsPrefix (T.contents writer.old) (T.contents writer.new)
        (shots_for options.entry (recording_of 80 24 input.now))) }
    ensures fault { IfOk result (λ fault. fault ≡ (recording_of 80 24 input.now).fault) }
{
    let Recording {
        size,
        has_own_term,
        events,
        fault,
    } = read_recording(alloc, USUAL, input)?;
    let size = Size {
        width: chosen(size.width, options.width),
        height: chosen(size.height, options.height),
    };
    let recording = Recording {
        size,
        has_own_term,
        events,
        fault: fault_left(options.is_partial, fault),
    };
    let profile = profile_for(options.profile, has_own_term);
    write_shots(alloc, &recording, options.asked, profile, writer)?;
    Ok(fault)
}

// What the report of a wrong line says besides: what `--partial` does, or can do.
fn hint_of(fault: Fault, is_partial: bool) -> &'static str {
    match fault {
        Fault::CutOff if is_partial => "; what came before is shown",
        Fault::CutOff => "; --partial shows what came before",
        _ => "",
    }
}

// Reports which line of a file is wrong, and returns the status, 0 where no fault is left under `--partial`.
fn tell_line<F: Write>(
    alloc: Global,
    name: &str,
    bad: BadLine,
    is_partial: bool,
    faults: &mut F,
) -> u8
    ensures status { result ≤ 1 }
    ensures left { result ≡ 0 → fault_left is_partial (Some bad) ≡ None }
{
    let BadLine { line, fault } = bad;
    let hint = hint_of(fault, is_partial);
    match format!(in alloc; "{name}:{line}: {fault}{hint}") {
        Ok(text) => {
            let status = report(faults, &text);
            match fault_left(is_partial, Some(bad)) {
                Some(_) => status,
                None => 0,
            }
        }
        Err(_) => report(faults, "out of memory"),
    }
}

// Reports that a file, or a stream without a name, can't be written.
fn tell_write<F: Write>(alloc: Global, file: &str, faults: &mut F) -> u8
    ensures { result ≡ FAULT }
{
    if file.is_empty() {
        return report(faults, "cannot write");
    }
    match format!(in alloc; "{file}: cannot write") {
        Ok(text) => report(faults, &text),
        Err(_) => report(faults, "out of memory"),
    }
}

// Writes the requested screens of an input, and hands them on.
#[tactic(auto, using(crate::proofs::WriteLemmas::prefix_all, terminal::proofs::AppendLemmas::appends_kept))]
fn show<T: Sink>(
    alloc: Global,
    options: Options<'_>,
    input: &[u8],
    writer: &mut T,
) -> Result<Option<BadLine>, ShotError>
    ensures writes { OnOk result (Appends (T.contents writer.old) (T.contents writer.new)
        (shots_for options.entry (recording_of 80 24 input.now))) }
    ensures part { OnErr result (AppendsPrefix (T.contents writer.old) (T.contents writer.new)
        (shots_for options.entry (recording_of 80 24 input.now))) }
    ensures fault { IfOk result (λ fault. fault ≡ (recording_of 80 24 input.now).fault) }
{
    let fault = shoot(alloc, options, input, writer)?;
    writer.finish()?;
    Ok(fault)
}

// Writes the requested screens of an input that was read.
#[tactic(auto, using(crate::proofs::WriteLemmas::written_unless_closed, crate::proofs::WriteLemmas::part_if_closed))]
fn answer<T: Sink, F: Write>(
    alloc: Global,
    options: Options<'_>,
    name: &str,
    input: &[u8],
    writer: &mut T,
    faults: &mut F,
) -> u8
    requires { T.is_closed writer.old ≡ false }
    ensures status { result ≤ 1 }
    ensures quiet { result ≡ 0 → options.entry.is_partial ≡ false
        → Keeps (F.contents faults.old) (F.contents faults.new) }
    ensures untold { result ≡ 0 → (recording_of 80 24 input.now).fault ≡ None
        → Keeps (F.contents faults.old) (F.contents faults.new) }
    ensures whole { result ≡ 0 → T.is_closed writer.new ≡ false
        → fault_left options.entry.is_partial (recording_of 80 24 input.now).fault ≡ None }
    ensures shows { result ≡ 0
        → AppendsUnlessClosed (T.is_closed writer.new) (T.contents writer.old) (T.contents writer.new)
        (shots_for options.entry (recording_of 80 24 input.now)) }
{
    match show(alloc, options, input, writer) {
        Ok(None) => 0,
        Ok(Some(bad)) => tell_line(alloc, name, bad, options.is_partial, faults),
        Err(ShotError::Write) if writer.is_closed() => 0,
        Err(ShotError::Write) => tell_write(alloc, writer.file(), faults),
        Err(error) => report(faults, fault_of(error)),
    }
}

/// Reads the input `name` to its end, and writes the requested screens of it. It returns the status: 0, under
/// `--partial` with one line on `faults` where the input is cut off; or 1 with one line on `faults`, where the input
/// can't be read or a line of it is wrong, or where writing or memory failed; the output written before that stays.
/// Where nobody reads the output any more, that is no fault.
pub fn serve<R: Read, T: Sink, F: Write>(
    alloc: Global,
    options: Options<'_>,
    name: &str,
    reader: &mut R,
    writer: &mut T,
    faults: &mut F,
) -> u8
    requires { T.is_closed writer.old ≡ false }
    ensures status { result ≤ 1 }
    // Status 0 is quiet, except under `--partial` where a line is wrong.
    ensures quiet { result ≡ 0 → options.entry.is_partial ≡ false
        → Keeps (F.contents faults.old) (F.contents faults.new) }
    ensures untold { result ≡ 0
        → IfSome (R.remaining reader.old)
        (λ input. (recording_of 80 24 input).fault ≡ None → Keeps (F.contents faults.old) (F.contents faults.new)) }
    ensures whole { result ≡ 0 → T.is_closed writer.new ≡ false
        → IfSome (R.remaining reader.old)
        (λ input. fault_left options.entry.is_partial (recording_of 80 24 input).fault ≡ None) }
    ensures shows { result ≡ 0
        → IfSome (R.remaining reader.old)
        (λ input. AppendsUnlessClosed (T.is_closed writer.new) (T.contents writer.old) (T.contents writer.new)
        (shots_for options.entry (recording_of 80 24 input))) }
{
    let mut input = Vec::new(alloc);
    if reader.read_to_end(&mut input).is_err() {
        return refuse_input(alloc, name, faults);
    }
    answer(alloc, options, name, &input, writer, faults)
}

/// Reports that an input can't be read.
pub fn refuse_input<F: Write>(alloc: Global, name: &str, faults: &mut F) -> u8
    ensures { result ≡ FAULT }
{
    match format!(in alloc; "{name}: cannot read") {
        Ok(text) => report(faults, &text),
        Err(_) => report(faults, "out of memory"),
    }
}
