//! Examples of the library. Each module is one, and prints a section.
//!
//! - `recorder`: after each chunk of a program's output it keeps the bytes that bring a viewer up to date, where
//!   the viewer has read all bytes kept before.
//! - `screen_test`: feeds a program's output to a terminal, and compares the screen with what it should be.
//! - `viewers`: a chain of two viewers: the first reads a terminal's updates, and the second reads patches from
//!   the first.
//! - `widths`: custom widths: in an East Asian font many characters take two columns that take one in other
//!   fonts.
#![tactic(auto)]

mod recorder;
mod screen_test;
mod viewers;
mod widths;

use std::alloc::Global;
use std::process::ExitCode;
use terminal::{RunError, TerminalError};

// The sections of all examples.
fn sections(alloc: Global) -> Result<String, TerminalError> {
    let mut page = String::new(alloc);
    screen_test::example(alloc, &mut page)?;
    recorder::example(alloc, &mut page)?;
    viewers::example(alloc, &mut page)?;
    widths::example(alloc, &mut page)?;
    Ok(page)
}

fn run(rt: &(impl Print + AllocGlobal)) -> Result<(), RunError> {
    let page = sections(rt.alloc())?;
    print!(rt; "{page}").map_err(|_| RunError::Write)
}

fn main(rt: HostRuntime) -> ExitCode {
    match run(&rt) {
        Ok(()) => ExitCode::SUCCESS,
        Err(error) => {
            // A failure to write this message is ignored.
            let _ = eprintln!(rt; "examples: {error}");
            ExitCode::FAILURE
        }
    }
}
