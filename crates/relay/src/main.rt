//! A filter that keeps the screen of an application from the bytes on its standard input.
//!
//! - `flushes`: the program on writers whose flush fails, and on words that are not UTF-8.
//! - `laws`: laws of the definitions: the options of command lines.
//! - `lent`: a writer that is lent, about which contracts can state that it is still the same writer, and which
//!   remembers whether its pipe is broken.
//! - `live`: the program with `--live`: when it reads, writes and flushes, and how it ends.
//! - `options`: the options of a command line.
//! - `service`: the program on its words and streams.
//! - `tests`: the program on readers and writers that give and take a few bytes at a time, and fail.
#![tactic(auto)]

#[cfg(test)]
mod flushes;
mod laws;
mod lent;
#[cfg(test)]
mod live;
mod options;
mod service;
#[cfg(test)]
mod tests;

pub use service::serve;
use service::{refuse_ill_formed, report};
use std::env;
use std::io::ErrorKind;
use std::process::ExitCode;
use terminal::Watched;

fn main(rt: HostRuntime) -> ExitCode {
    let alloc = rt.alloc();
    let mut reader = rt.stdin();
    let mut writer = rt.stdout();
    let mut faults = rt.stderr();
    let words: Vec<String> = match env::args(&rt) {
        Ok(words) => match words.collect(alloc) {
            Ok(words) => words,
            Err(_) => return ExitCode::from(report(&mut Watched::new(faults), "out of memory")),
        },
        Err(error) if error.kind() == ErrorKind::OutOfMemory => {
            return ExitCode::from(report(&mut Watched::new(faults), "out of memory"));
        }
        Err(_) => return ExitCode::from(refuse_ill_formed(&mut Watched::new(faults))),
    };
    ExitCode::from(serve(
        alloc,
        words.as_slice(),
        &mut reader,
        &mut writer,
        &mut faults,
    ))
}
