//! Makes calls that take memory, and prints `ok` where each did what it must: either it returned the right result, or
//! it was refused memory, returned the error of its own type, and left the state that must follow a refusal. To be run
//! with each request for memory refused in turn.
//!
//! With the argument `calls` it makes only values and then those calls that need no memory, and with `values` only
//! these values. The first run should make no more requests than the second: it is to be run with every request refused
//! after those of the second.
//!
//! - `cells`: cells, attributes, links and colours.
//! - `changes`: changes, and sequences of them that know where they leave the cursor.
//! - `commands`: commands of the operating system (OSC), read and written.
//! - `copies`: copies of cells, attributes and changes: what was to become a copy and is refused stays as it
//!   was.
//! - `edits`: edits of lines: a refused one leaves a lawful line with its number.
//! - `lines`: makers and queries of lines.
//! - `outcome`: the outcome of a check.
//! - `runs`: `run` and `show`: where the terminal is refused memory, what was written is a prefix of the whole.
//! - `script`: whole scripts: each answer before a refusal is that of the run without one.
//! - `sequences`: control sequences: after a refusal the actions of a list end.
//! - `sink`: a writer that takes no memory.
//! - `streams`: parsers, which have failed once they were refused memory, and lists of actions.
//! - `surfaces`: a changing call that is refused memory leaves a surface that has failed, any other an
//!   unchanged one.
//! - `tally`: which checks were wrong.
//! - `terminals`: terminals that are refused memory: for bytes, a look or a size, and then they have failed; or
//!   for an answer, and then they are as after a look.
//! - `unrefused`: calls that take no memory, on values that are made before: after these every request may be
//!   refused.
//! - `unrefused_screens`: calls of lines, surfaces, terminals and watched readers that take no memory.
//! - `unrefused_values`: calls of colours, attributes, widths, cells and control sequences that take no memory.
#![tactic(auto)]

mod cells;
mod changes;
mod commands;
mod copies;
mod edits;
mod lines;
mod outcome;
mod runs;
mod script;
mod sequences;
mod sink;
mod streams;
mod surfaces;
mod tally;
mod terminals;
mod unrefused;
mod unrefused_screens;
mod unrefused_values;

use std::alloc::Global;
use std::env;
use std::io::Write;
use std::process::ExitCode;
use tally::Tally;

// Makes all calls that take memory, and then those that take none.
fn check_all<W: Write>(alloc: Global, tally: &mut Tally<W>) {
    cells::check(alloc, tally);
    copies::check(alloc, tally);
    lines::check(alloc, tally);
    edits::check(alloc, tally);
    changes::check(alloc, tally);
    surfaces::check(alloc, tally);
    sequences::check(alloc, tally);
    commands::check(alloc, tally);
    streams::check(alloc, tally);
    terminals::check(alloc, tally);
    runs::check(alloc, tally);
    script::check(alloc, tally);
    unrefused::check(alloc, tally);
}

fn main(rt: HostRuntime) -> ExitCode {
    let alloc = rt.alloc();
    let mut tally = Tally::new(rt.stdout());
    let word = match env::args(&rt) {
        Ok(mut words) => words.nth(1),
        Err(_) => None,
    };
    match word.as_deref() {
        Some("calls") => unrefused::check(alloc, &mut tally),
        Some("values") => unrefused::make(alloc, &mut tally),
        _ => check_all(alloc, &mut tally),
    }
    ExitCode::from(tally.end())
}
