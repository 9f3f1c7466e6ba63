//! `run` and `show`: where the terminal is refused memory, what was written is a prefix of the whole.
use crate::outcome::{Outcome, Stop, refused};
use crate::sink::Sink;
use crate::tally::Tally;
use std::alloc::Global;
use std::io::Write;
use terminal::{ProgramWidth, RunError, Watched, run, show};

const LETTERS: &[u8] = b"abc";

// The updates of three letters with a look after two of them.
const UPDATES: &[u8] =
    b"\x1b[?25l\x1b[0m\x1b]8;;\x1b\\\x1b[2J\x1b[1;1H\x1b]2;\x1b\\ab\0\x1b[1;3H\x1b[?25hc\0";

const INPUT: &[u8] = b"w00tfoobaarbaz";

const ROWS: &[u8] = b"foob\naarb\naz  \n";

// Whether a run wrote all of its output, or a prefix of it and was refused memory.
fn compared(ran: Result<(), RunError>, taken: &[u8], whole: &[u8]) -> Outcome {
    match ran {
        Ok(()) => Ok(taken == whole),
        Err(error) => refused(Stop::from(error), whole.starts_with(taken)),
    }
}

// The updates of a stream.
fn updates(alloc: Global) -> Outcome {
    let mut input = LETTERS;
    let mut sink = Sink::new();
    let ran = {
        let mut reader = Watched::new(&mut input);
        let mut writer = Watched::new(&mut sink);
        run(alloc, &mut reader, &mut writer, 4, 1, 2, ProgramWidth)
    };
    compared(ran, sink.taken(), UPDATES)
}

// The rows of a stream.
fn rows(alloc: Global) -> Outcome {
    let mut input = INPUT;
    let mut sink = Sink::new();
    let ran = {
        let mut reader = Watched::new(&mut input);
        let mut writer = Watched::new(&mut sink);
        show(alloc, &mut reader, &mut writer, 4, 3, ProgramWidth)
    };
    compared(ran, sink.taken(), ROWS)
}

/// Checks `run` and `show`.
pub fn check<W: Write>(alloc: Global, tally: &mut Tally<W>) {
    tally.take("run", updates(alloc));
    tally.take("show", rows(alloc));
}
