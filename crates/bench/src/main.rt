//! Runs one part of the stack over standard input, to be measured, and prints a number that depends on all its results.
//!
//! - `lists`: control sequences, read and written repeatedly.
//! - `parts`: the parts of the stack that can be measured.
//! - `resizes`: a terminal that is resized repeatedly.
//! - `surfaces`: surfaces that are changed.
#![tactic(auto)]

mod lists;
mod parts;
mod resizes;
mod surfaces;

use parts::{NAMES, Part};
use std::io::Read;
use std::process::ExitCode;
use std::{env, io};

// How often a part is run: the second argument, or once.
fn count_in(words: &[String]) -> u32 {
    match words.get(2) {
        None => 1,
        Some(word) => word.as_str().parse::<u32>().unwrap_or(1),
    }
}

// The part of the stack that the first argument names.
fn part_in(words: &[String]) -> Option<Part> {
    Part::named(words.get(1)?.as_str())
}

fn main(rt: HostRuntime) -> io::Result<ExitCode> {
    let words: Vec<String> = env::args(&rt)?.collect(rt.alloc())?;
    let Some(part) = part_in(&words) else {
        println!(rt; "{NAMES}")?;
        return Ok(ExitCode::from(2));
    };
    let mut input = Vec::new(rt.alloc());
    rt.stdin().read_to_end(&mut input)?;
    match part.run(rt.alloc(), &input, count_in(&words)) {
        None => Ok(ExitCode::from(1)),
        Some(sum) => {
            println!(rt; "{sum}")?;
            Ok(ExitCode::from(0))
        }
    }
}
