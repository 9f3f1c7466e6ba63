//! The program on its words and streams.
ghost use Rattle.std.specs.Prelude.{false, true, ℕ, ◌≡◌, ◌≢◌, ◌⊎◌, ◌↔◌, ◌||◌, ◌++◌, ◌≤◌, ◌^◌, [], codes, is_err, map};
ghost use Rattle.std.specs.Prelude.{IfSome, IsErr, IsErrOf, IsTrue, OnOk, OnErr};
ghost use Rattle.std.specs.Io.KnownBytes.{Appends, Keeps};
ghost use Rattle.terminal.specs.Shown.{AppendsPrefix};
ghost use Rattle.terminal.specs.Watched.{IsUnread};
ghost use Rattle.clap.specs.Words.{IsAmong, kind_of};
ghost use Rattle.relay.specs.CommandLine.{HasMistake, asked_in, faults_in, kind_in, live_in};
ghost use Rattle.relay.specs.Faults.{IsReported, fault_line, fault_text};
ghost use Rattle.relay.specs.Live.{EndsLive, EndsLiveOn, IsLive, RunsLive};
ghost use Rattle.relay.specs.Output.{MemoryRunsOut, NumbersRunOut, asked_of, written, written_in};
ghost use Rattle.relay.specs.Reports.{EndsWithFault, ReportsFault};

use crate::lent::Lent;
use crate::options;
use crate::options::{BadWords, Options};
use clap::Error;
use clap::error::ErrorKind;
use std::alloc::Global;
use std::convert::AsStr;
use std::io::{Read, Write};
use terminal::{
    ProgramWidth, RunError, Terminal, TerminalError, Watched, run_live_on, run_on, show_on,
};

const FAULT: u8 = 1;

const BAD_WORDS: u8 = 2;

// Writes the line that reports a fault.
#[tactic(auto, using(crate::proofs::FaultLemmas::line_parts))]
fn write_line<F: Write>(faults: &mut Watched<F>, fault: &str) -> Result<(), RunError>
    ensures ok { OnOk result
        (Appends (F.contents faults.old.inner) (F.contents faults.new.inner) (fault_line fault.now)) }
    ensures err { OnErr result
        (AppendsPrefix (F.contents faults.old.inner) (F.contents faults.new.inner) (fault_line fault.now)) }
    ensures only { IsErr result → IsErrOf result RunError.Write }
    ensures failed { faults.new.has_failed ≡ (faults.old.has_failed || is_err result) }
{
    faults.write_all(b"relay: ")?;
    faults.write_all(fault.as_bytes())?;
    faults.write_all(b"\n")
}

/// Writes a line with a fault, and returns the status 1. If the line can't be written, that is ignored.
pub fn report<F: Write>(faults: &mut Watched<F>, fault: &str) -> u8
    ensures status { result ≡ FAULT }
    ensures reported { IsReported (λ f. F.contents f) faults.old faults.new (fault_line fault.now) }
    ensures written { AppendsPrefix (F.contents faults.old.inner) (F.contents faults.new.inner) (fault_line fault.now) }
{
    if write_line(faults, fault).is_ok() {
        let _ = faults.flush();
    }
    FAULT
}

const ILL_FORMED: &str = "\
error: invalid UTF-8 was detected in one or more arguments

Usage: relay [OPTIONS]

For more information, try '--help'.
";

/// Reports that a word of the command line is not UTF-8, and returns the status 2. If this can't be written, that is
/// ignored.
pub fn refuse_ill_formed<F: Write>(faults: &mut Watched<F>) -> u8
    ensures status { result ≡ BAD_WORDS }
    ensures reported { IsReported (λ f. F.contents f) faults.old faults.new ILL_FORMED.now }
{
    refuse(faults, ILL_FORMED)
}

// Writes why the words are refused, and returns the status 2. If this can't be written, that is ignored.
fn refuse<F: Write>(faults: &mut Watched<F>, text: &str) -> u8
    ensures status { result ≡ BAD_WORDS }
    ensures reported { IsReported (λ f. F.contents f) faults.old faults.new text.now }
{
    let _ = faults.write_all(text.as_bytes());
    let _ = faults.flush();
    BAD_WORDS
}

const PROFILES: &str = "\
' for '--terminal <NAME>'
  [possible values: plain, xterm]

For more information, try '--help'.
";

// Writes that a terminal has a name that is no profile's.
fn write_refusal<F: Write>(faults: &mut Watched<F>, name: &str) -> Result<(), RunError>
    ensures ok { OnOk result (Appends (F.contents faults.old.inner) (F.contents faults.new.inner)
        (codes "error: invalid value '" ++ (name.now ++ PROFILES.now))) }
    ensures failed { faults.new.has_failed ≡ (faults.old.has_failed || is_err result) }
{
    faults.write_all(b"error: invalid value '")?;
    faults.write_all(name.as_bytes())?;
    faults.write_all(PROFILES.as_bytes())
}

// Writes that a terminal has a name that is no profile's, and returns the status 2. If this can't be written, that is
// ignored.
fn refuse_terminal<F: Write>(faults: &mut Watched<F>, name: &str) -> u8
    ensures status { result ≡ BAD_WORDS }
    ensures reported { IsReported (λ f. F.contents f) faults.old faults.new
        (codes "error: invalid value '" ++ (name.now ++ PROFILES.now)) }
{
    if write_refusal(faults, name).is_ok() {
        let _ = faults.flush();
    }
    BAD_WORDS
}

fn fault_of(error: RunError) -> &'static str
    ensures { result.now ≡ fault_text error }
{
    match error {
        RunError::Read => "cannot read",
        RunError::Write => "cannot write",
        RunError::TooLong => "input too long",
        RunError::Terminal(TerminalError::Number) => "numbers used up",
        RunError::Terminal(TerminalError::Memory) => "out of memory",
        RunError::Terminal(TerminalError::Failed) => "out of memory",
    }
}

// Writes help or the version to `writer`, and a mistake in the words to `faults`.
fn explain<T: Write, F: Write>(
    alloc: Global,
    error: &Error,
    writer: &mut Watched<T>,
    faults: &mut Watched<F>,
) -> u8
    requires { writer.old.has_failed ≡ false }
    ensures status { result ≤ 2 }
    ensures memory { kind_of error.now ≡ ErrorKind.OutOfMemory → result ≡ FAULT }
    ensures asked { result ≡ 0
        → (kind_of error.now ≡ ErrorKind.DisplayHelp) ⊎ (kind_of error.now ≡ ErrorKind.DisplayVersion) }
    ensures shown { (kind_of error.now ≡ ErrorKind.DisplayHelp) ⊎ (kind_of error.now ≡ ErrorKind.DisplayVersion)
        → result ≢ BAD_WORDS }
    ensures flushed { result ≡ 0 → IsTrue writer.new.is_flushed }
    ensures quiet { result ≡ 0 → Keeps (F.contents faults.old.inner) (F.contents faults.new.inner) }
    ensures nothing { kind_of error.now ≡ ErrorKind.OutOfMemory
        → Keeps (T.contents writer.old.inner) (T.contents writer.new.inner) }
    ensures unused { kind_of error.now ≡ ErrorKind.OutOfMemory → writer.new.has_failed ≡ false }
    ensures refused { result ≡ BAD_WORDS → Keeps (T.contents writer.old.inner) (T.contents writer.new.inner) }
    ensures written { kind_of error.now ≡ ErrorKind.OutOfMemory → AppendsPrefix (F.contents faults.old.inner)
        (F.contents faults.new.inner) (fault_line (codes "out of memory")) }
    ensures unwritten { IsTrue writer.new.has_failed → (result ≡ FAULT)
        × IsReported (λ f. F.contents f) faults.old faults.new (fault_line (codes "cannot write")) }
    ensures unrendered { result ≡ FAULT → writer.new.has_failed ≡ false
        → IsReported (λ f. F.contents f) faults.old faults.new (fault_line (codes "out of memory")) }
{
    if error.kind() == ErrorKind::OutOfMemory {
        return report(faults, "out of memory");
    }
    let Ok(text) = error.to_string(alloc) else {
        return report(faults, "out of memory");
    };
    if error.use_stderr() {
        return refuse(faults, text.as_str());
    }
    if writer.write_all(text.as_bytes()).is_err() || writer.flush().is_err() {
        return report(faults, "cannot write");
    }
    0
}

const CONFLICT: &str = "\
error: the argument '--live' cannot be used with '--every <N>' or '--show'

Usage: relay [OPTIONS]

For more information, try '--help'.
";

// Writes why the words are refused to `faults`, or help or the version to `writer`.
fn explain_words<T: Write, F: Write>(
    alloc: Global,
    words: &BadWords<'_>,
    writer: &mut Watched<T>,
    faults: &mut Watched<F>,
) -> u8
    requires { writer.old.has_failed ≡ false }
    ensures status { result ≤ 2 }
    ensures memory { kind_in words.now ≡ ErrorKind.OutOfMemory → result ≡ FAULT }
    ensures asked { result ≡ 0
        → (kind_in words.now ≡ ErrorKind.DisplayHelp) ⊎ (kind_in words.now ≡ ErrorKind.DisplayVersion) }
    ensures shown { (kind_in words.now ≡ ErrorKind.DisplayHelp) ⊎ (kind_in words.now ≡ ErrorKind.DisplayVersion)
        → result ≢ BAD_WORDS }
    ensures flushed { result ≡ 0 → IsTrue writer.new.is_flushed }
    ensures quiet { result ≡ 0 → Keeps (F.contents faults.old.inner) (F.contents faults.new.inner) }
    ensures nothing { kind_in words.now ≡ ErrorKind.OutOfMemory
        → Keeps (T.contents writer.old.inner) (T.contents writer.new.inner) }
    ensures unused { kind_in words.now ≡ ErrorKind.OutOfMemory → writer.new.has_failed ≡ false }
    ensures refused { result ≡ BAD_WORDS → Keeps (T.contents writer.old.inner) (T.contents writer.new.inner) }
    ensures written { kind_in words.now ≡ ErrorKind.OutOfMemory → AppendsPrefix (F.contents faults.old.inner)
        (F.contents faults.new.inner) (fault_line (codes "out of memory")) }
    ensures unwritten { IsTrue writer.new.has_failed → (result ≡ FAULT)
        × IsReported (λ f. F.contents f) faults.old faults.new (fault_line (codes "cannot write")) }
    ensures unrendered { result ≡ FAULT → writer.new.has_failed ≡ false
        → IsReported (λ f. F.contents f) faults.old faults.new (fault_line (codes "out of memory")) }
{
    match words {
        BadWords::Command(error) => explain(alloc, error, writer, faults),
        BadWords::Terminal(name) => refuse_terminal(faults, name),
        BadWords::Conflict => refuse(faults, CONFLICT),
    }
}

// Writes the output that the options ask for of the reader's input: the rows, or the updates, live or not.
fn answer<R: Read, T: Write>(
    alloc: Global,
    options: Options,
    reader: &mut Watched<R>,
    writer: &mut Watched<T>,
) -> Result<(), RunError>
    requires reader { IsUnread reader.old }
    requires writer { writer.old.has_failed ≡ false }
    ensures ok { options.is_live ≡ false → OnOk result
        (IfSome (R.remaining reader.old.inner)
        (λ input. Appends (T.contents writer.old.inner) (T.contents writer.new.inner)
        (written (asked_of options) input))) }
    ensures err { options.is_live ≡ false → OnErr result
        (IfSome (R.remaining reader.old.inner)
        (λ input. AppendsPrefix (T.contents writer.old.inner) (T.contents writer.new.inner)
        (written (asked_of options) input))) }
    ensures live { IsTrue options.is_live → RunsLive (asked_of options) (λ r. R.remaining r) (λ t. T.contents t) result
        reader.old reader.new writer.old writer.new }
    ensures read { IsErrOf result RunError.Read ↔ IsTrue reader.new.has_failed }
    ensures write { IsErrOf result RunError.Write ↔ IsTrue writer.new.has_failed }
    ensures too_long { IsErrOf result RunError.TooLong → reader.new.reads ≡ 2 ^ 48 }
    ensures failed { IsErrOf result (RunError.Terminal TerminalError.Failed) → ⊥ }
    ensures number { options.is_live ≡ false → IsErrOf result (RunError.Terminal TerminalError.Number)
        → IfSome (R.remaining reader.old.inner) (NumbersRunOut (asked_of options)) }
    ensures memory { options.is_live ≡ false → IsErrOf result (RunError.Terminal TerminalError.Memory)
        → IfSome (R.remaining reader.old.inner)
        (MemoryRunsOut (asked_of options) (R.remaining reader.new.inner)) }
    // After a fault of the reader or the writer the one that failed isn't called again.
    ensures ends_reads { reader.new.has_gone_on ≡ reader.old.has_gone_on }
    ensures ends_writes { writer.new.has_gone_on ≡ writer.old.has_gone_on }
{
    let Options {
        width,
        height,
        profile,
        every,
        is_show,
        is_live,
    } = options;
    let mut terminal = Terminal::with_profile(alloc, width, height, ProgramWidth, profile)?;
    if is_live {
        run_live_on(&mut terminal, reader, writer)
    } else if is_show {
        show_on(&mut terminal, reader, writer)
    } else {
        run_on(&mut terminal, reader, writer, every)
    }
}

// Reports the fault with which a run ended, and returns the status 1; but leaves one of the writer with `--live` to the
// caller, and returns the status 0.
fn report_end<F: Write>(error: RunError, is_live: bool, faults: &mut Watched<F>) -> u8
    ensures most { result ≤ 1 }
    ensures quiet { result ≡ 0 → Keeps (F.contents faults.old.inner) (F.contents faults.new.inner) }
    ensures left { error ≡ RunError.Write → IsTrue is_live → result ≡ 0 }
    ensures status { (error ≡ RunError.Write → is_live ≡ false) → result ≡ FAULT }
    ensures reported { (error ≡ RunError.Write → is_live ≡ false)
        → IsReported (λ f. F.contents f) faults.old faults.new (fault_line (fault_text error)) }
    ensures written { (error ≡ RunError.Write → is_live ≡ false)
        → AppendsPrefix (F.contents faults.old.inner) (F.contents faults.new.inner) (fault_line (fault_text error)) }
{
    match error {
        RunError::Write if is_live => 0,
        _ => report(faults, fault_of(error)),
    }
}

// Runs the command line, and reports a fault, but for one of the writer with `--live`: then the status is 0.
fn relay<S: AsStr, R: Read, T: Write, F: Write>(
    alloc: Global,
    words: &[S],
    reader: &mut Watched<R>,
    writer: &mut Watched<T>,
    faults: &mut Watched<F>,
) -> u8
    requires reader { IsUnread reader.old }
    requires writer { writer.old.has_failed ≡ false }
    ensures status { result ≤ 2 }
    ensures runs { faults_in (map S.text words.now) ≡ [] → result ≤ 1 }
    ensures asked { result ≡ 0 → faults_in (map S.text words.now) ≢ []
        → IsAmong ErrorKind.DisplayHelp (faults_in (map S.text words.now))
        ⊎ IsAmong ErrorKind.DisplayVersion (faults_in (map S.text words.now)) }
    ensures quiet { result ≡ 0 → Keeps (F.contents faults.old.inner) (F.contents faults.new.inner) }
    ensures mistaken { result ≡ BAD_WORDS → HasMistake (faults_in (map S.text words.now)) }
    ensures refused { result ≡ BAD_WORDS → Keeps (T.contents writer.old.inner) (T.contents writer.new.inner) }
    ensures shows { faults_in (map S.text words.now) ≡ [] → live_in (map S.text words.now) ≡ false → result ≡ 0
        → IfSome (R.remaining reader.old.inner) (λ input. Appends (T.contents writer.old.inner)
        (T.contents writer.new.inner) (written_in (map S.text words.now) input)) }
    ensures part { faults_in (map S.text words.now) ≡ [] → live_in (map S.text words.now) ≡ false → result ≢ 0
        → IfSome (R.remaining reader.old.inner) (λ input. AppendsPrefix (T.contents writer.old.inner)
        (T.contents writer.new.inner) (written_in (map S.text words.now) input)) }
    ensures read { IsTrue reader.new.has_failed → (result ≡ FAULT)
        × IsReported (λ f. F.contents f) faults.old faults.new (fault_line (codes "cannot read")) }
    ensures write { (IsLive (map S.text words.now) → ⊥) → IsTrue writer.new.has_failed → (result ≡ FAULT)
        × IsReported (λ f. F.contents f) faults.old faults.new (fault_line (codes "cannot write")) }
    ensures fault { faults_in (map S.text words.now) ≡ [] → live_in (map S.text words.now) ≡ false → result ≢ 0
        → IfSome (R.remaining reader.old.inner)
        (ReportsFault (map S.text words.now) (R.remaining reader.new.inner) (F.contents faults.old.inner)
        (F.contents faults.new.inner)) }
    ensures live { IsLive (map S.text words.now) → EndsLive (asked_in (map S.text words.now)) (λ r. R.remaining r)
        (λ t. T.contents t) true result reader.old reader.new writer.old writer.new (F.contents faults.old.inner)
        (F.contents faults.new.inner) }
{
    let options = match options::read(alloc, words) {
        Ok(options) => options,
        Err(bad) => return explain_words(alloc, &bad, writer, faults),
    };
    match answer(alloc, options, reader, writer) {
        Ok(()) => 0,
        Err(error) => report_end(error, options.is_live, faults),
    }
}

// Reports a fault of the writer that `relay` left to its caller, but for a broken pipe, and returns the status.
fn conclude<F: Write>(status: u8, has_failed: bool, is_broken: bool, faults: &mut Watched<F>) -> u8
    ensures kept { (status ≡ 0 → IsTrue has_failed → IsTrue is_broken)
        → (result ≡ status) × (faults.new ≡ faults.old) }
    ensures told { status ≡ 0 → IsTrue has_failed → is_broken ≡ false → (result ≡ FAULT)
        × AppendsPrefix (F.contents faults.old.inner) (F.contents faults.new.inner)
        (fault_line (codes "cannot write")) }
    ensures other { status ≢ 0 → (result ≡ status) × (faults.new ≡ faults.old) }
    ensures zero { result ≡ 0 → (status ≡ 0) × (faults.new ≡ faults.old) }
    ensures most { (n : ℕ) → 1 ≤ n → status ≤ n → result ≤ n }
{
    if status == 0 && has_failed && !is_broken {
        return report(faults, "cannot write");
    }
    status
}

/// The program on its words, of which the first is its name, and on its streams. The output that the words
/// ask for is written to `writer`: the updates of the reader's input on a terminal of the profile `--terminal`, one
/// after each `--every` bytes and one at the end, or with `--live` one after each read that brings bytes, before the
/// next read; or with `--show` the rows of the screen at the end; or help, or the version.
///
/// It returns the status: 0; or 1 with one line on `faults`, where reading, writing, memory or numbers
/// failed or the input was too long, and then a prefix of the output may have been written; or 2 with a
/// text on `faults` for a bad command line, and then no output was written. With `--live` a broken pipe, which a
/// writer reports by `BrokenPipe`, is no fault: the status is 0.
#[tactic(auto, using(crate::proofs::OutputLemmas::lent_reports))]
pub fn serve<S: AsStr, R: Read, T: Write, F: Write>(
    alloc: Global,
    words: &[S],
    reader: &mut R,
    writer: &mut T,
    faults: &mut F,
) -> u8
    ensures status { result ≤ 2 }
    // A command line that can be run is never refused.
    ensures runs { faults_in (map S.text words.now) ≡ [] → result ≤ 1 }
    // Other words have status 0 only where they ask for help or for the version.
    ensures asked { result ≡ 0 → faults_in (map S.text words.now) ≢ []
        → IsAmong ErrorKind.DisplayHelp (faults_in (map S.text words.now))
        ⊎ IsAmong ErrorKind.DisplayVersion (faults_in (map S.text words.now)) }
    ensures quiet { result ≡ 0 → Keeps (F.contents faults.old) (F.contents faults.new) }
    // Status 2 is for a mistake, and not for words that only ask for help or for the version.
    ensures mistaken { result ≡ BAD_WORDS → HasMistake (faults_in (map S.text words.now)) }
    // After a bad command line nothing was written.
    ensures refused { result ≡ BAD_WORDS → Keeps (T.contents writer.old) (T.contents writer.new) }
    // A command line that can be run, without `--live`, writes the updates of the input, or with `--show` the rows, on
    // a screen of its size, where the status is 0, and else a prefix of them.
    ensures shows { faults_in (map S.text words.now) ≡ [] → live_in (map S.text words.now) ≡ false → result ≡ 0
        → IfSome (R.remaining reader.old) (λ input.
        Appends (T.contents writer.old) (T.contents writer.new) (written_in (map S.text words.now) input)) }
    ensures part { faults_in (map S.text words.now) ≡ [] → live_in (map S.text words.now) ≡ false → result ≢ 0
        → IfSome (R.remaining reader.old) (λ input.
        AppendsPrefix (T.contents writer.old) (T.contents writer.new) (written_in (map S.text words.now) input)) }
    // With another status `faults` gets the line of a fault with which such a run may end, or a prefix of the line.
    ensures fault { faults_in (map S.text words.now) ≡ [] → live_in (map S.text words.now) ≡ false → result ≢ 0
        → IfSome (R.remaining reader.old)
        (EndsWithFault (map S.text words.now) (F.contents faults.old) (F.contents faults.new)) }
    // With `--live` it writes the updates of the pieces that reads brought, or where a write fails, or the terminal
    // refuses, all but a part of the last one; a fault has its status and its line, but for a broken pipe.
    ensures live { IsLive (map S.text words.now) → EndsLiveOn (map S.text words.now) result (R.remaining reader.old)
        (T.contents writer.old) (T.contents writer.new) (F.contents faults.old) (F.contents faults.new) }
{
    let mut reader = Watched::new(reader);
    let mut writer = Watched::new(Lent {
        inner: writer,
        is_broken: false,
    });
    let mut faults = Watched::new(Lent {
        inner: faults,
        is_broken: false,
    });
    let status = relay(alloc, words, &mut reader, &mut writer, &mut faults);
    let has_failed = writer.failed();
    let Lent { inner, is_broken } = writer.into_inner();
    let _ = &*inner;
    let status = conclude(status, has_failed, is_broken, &mut faults);
    let Lent {
        inner,
        is_broken: _,
    } = faults.into_inner();
    let _ = &*inner;
    status
}
