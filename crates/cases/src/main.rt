//! Runs tables of cases: calls, their arguments and the answers that they must have.
//!
//! - `actions`: actions as rows write them, in words close to their `Debug`.
//! - `attributes`: attributes as rows write them: a word for each one that isn't plain, as `italic`,
//!   `underline=Curly`, `background=1` (a colour of the palette), `link=URI`, `found_link=URI` (one that was
//!   found in a text).
//! - `call`: the calls that are made of a line, as a row writes them.
//! - `changes`: changes, as rows write them: a text in quotes, all attributes by their words, a position as `to
//!   X Y`, where `3` is counted from the start, `<1` from the end, and `+1` and `-1` from the cursor; a colour
//!   as `Default` or its number in the palette; a row's size and the cursor's shape by their names.
//! - `codes`: codes by number and by name.
//! - `commands`: commands of the operating system (OSC), selections and links.
//! - `edits`: calls that edit the line: their arguments are in the order of the Rust call, the number is last.
//! - `escapes`: bytes as a table writes them, both ways: `\x1b` is a byte, `\u{304b}` a character, `\n` and
//!   `\r` are LF and CR, `\s` is a space, `\\` is `\`, and `<<128 of 1;>>` is the text `1;` 128 times.
//! - `fault`: why a row can't be run.
//! - `framing`: events of streams.
//! - `keeping`: how a line is kept while calls are made of it.
//! - `kinds`: what runs a case, by the name of its kind.
//! - `lines`: lines that are made, edited and asked.
//! - `makers`: calls that make the line another one.
//! - `questions`: queries of a line.
//! - `row`: the arguments of a case, as a line has them between bars.
//! - `run`: a text of cases, run line by line.
//! - `runs`: columns of a line in a range that it has.
//! - `screens`: screens of a terminal that has read some bytes.
//! - `sequences`: control sequences and ESC pairs.
//! - `sequences_of_changes`: lists of changes that know where they leave the cursor.
//! - `sessions`: a terminal sends updates and patches to a viewer, and that viewer to a second one.
//! - `sheet`: what a call answered, as a row writes it: words in columns.
//! - `steps`: changes that steps of a surface name.
//! - `stored`: what a line keeps, as rows write it.
//! - `streams`: streams that are read, and lists of actions that are joined, written and read again.
//! - `surfaces`: surfaces that are changed and asked by steps.
//! - `tally`: how many cases ran, by kind.
//! - `terminals`: terminals after chunks and calls.
//! - `updates`: updates and patches: of a terminal, which a viewer reads, and of an input that is run; and the
//!   encodings of changes.
//! - `values`: colours, widths and cells.
#![tactic(auto)]

mod actions;
mod attributes;
mod call;
mod changes;
mod codes;
mod commands;
mod edits;
mod escapes;
mod fault;
mod framing;
mod keeping;
mod kinds;
mod lines;
mod makers;
mod questions;
mod row;
mod run;
mod runs;
mod screens;
mod sequences;
mod sequences_of_changes;
mod sessions;
mod sheet;
mod steps;
mod stored;
mod streams;
mod surfaces;
mod tally;
mod terminals;
mod updates;
mod values;

use fault::Fault;
use std::io::Write;
use std::process::ExitCode;
use std::rt::{Env, Files};
use std::{fs, io};
use tally::Tally;

// Runs the cases of standard input.
fn run_input<R: Input + AllocGlobal, W: Write>(
    rt: &R,
    tally: &mut Tally,
    out: &mut W,
) -> io::Result<()> {
    let text = io::read_to_string(rt.alloc(), rt.reader())?;
    in_io(run::run(rt.alloc(), "input", text.as_str(), tally, out))
}

// Runs the cases of a file.
fn run_file<R: Files + AllocGlobal, W: Write>(
    rt: &R,
    file: &str,
    tally: &mut Tally,
    out: &mut W,
) -> io::Result<()> {
    let text = fs::read_to_string(rt, file)?;
    in_io(run::run(rt.alloc(), file, text.as_str(), tally, out))
}

// A fault that ends the run.
fn in_io(outcome: Result<(), Fault>) -> io::Result<()> {
    match outcome {
        Ok(()) => Ok(()),
        Err(Fault::Memory) => Err(io::Error::from(io::ErrorKind::OutOfMemory)),
        Err(_) => Err(io::Error::from(io::ErrorKind::WriteZero)),
    }
}

// Runs the cases of the files that the words name after the first, or of standard input where there is none.
fn run_all<R: Files + Input + Env + AllocGlobal, W: Write>(
    rt: &R,
    out: &mut W,
) -> io::Result<bool> {
    let mut tally = Tally::new(rt.alloc());
    let words: Vec<String> = std::env::args(rt)?.skip(1).collect(rt.alloc())?;
    if words.is_empty() {
        run_input(rt, &mut tally, out)?;
    }
    for file in &words {
        run_file(rt, file.as_str(), &mut tally, out)?;
    }
    in_io(tally.report(out))?;
    Ok(tally.is_right())
}

fn main(rt: HostRuntime) -> io::Result<ExitCode> {
    let mut out = rt.stdout();
    if run_all(&rt, &mut out)? {
        Ok(ExitCode::from(0))
    } else {
        Ok(ExitCode::from(1))
    }
}
