//! Which checks were wrong. Nothing here takes memory.
use crate::outcome::{Outcome, Stop};
use std::io::Write;

/// The checks so far: how many were refused memory, and whether one was wrong, whose name is written at once.
#[derive(Drop)]
pub struct Tally<W> {
    out: W,
    refused: u32,
    is_wrong: bool,
}

impl<W: Write> Tally<W> {
    /// No check.
    pub fn new(out: W) -> Tally<W> {
        Tally {
            out,
            refused: 0,
            is_wrong: false,
        }
    }

    // Writes a line; the run is wrong where the line can't be written.
    fn write_line(&mut self, line: &str) {
        let is_written = self.out.write_all(line.as_bytes()).is_ok()
            && self.out.write_all(b"\n").is_ok();
        if !is_written {
            self.is_wrong = true;
        }
    }

    /// Counts a check.
    pub fn take(&mut self, name: &str, outcome: Outcome) {
        match outcome {
            Ok(true) => {}
            Err(Stop::Memory) => self.refused = self.refused.saturating_add(1),
            _ => {
                self.is_wrong = true;
                self.write_line(name);
            }
        }
    }

    /// Writes `ok` where no check was wrong, and returns the exit status. One request is refused in a run, so no more
    /// than one check may be refused memory.
    pub fn end(&mut self) -> u8 {
        if self.refused > 1 {
            self.is_wrong = true;
            self.write_line("more than one check was refused memory");
        }
        if !self.is_wrong {
            self.write_line("ok");
        }
        u8::from(self.is_wrong)
    }
}
