//! Terminals that are refused memory: for bytes, a look or a size, and then they have failed; or for an answer, and
//! then they are as after a look.
use crate::changes::{CHANGES, change_of};
use crate::outcome::{Outcome, Stop, all, hold, refused};
use crate::tally::Tally;
use std::alloc::Global;
use std::io::Write;
use terminal::{
    ProgramWidth, RenderError, SequenceNo, Step, Terminal, TerminalError, play, render,
};

/// A terminal of the program's widths.
pub type Plain = Terminal<ProgramWidth>;

// Texts, colours, a link, a request, a title, a scroll, a character of two columns and a held run.
const STREAM: &[u8] =
    b"ab\x1b[1;31mc\x1b]8;id=1;u\x1b\\d\x1b[6n\x1b]2;t\x1b\\\r\n\n\n\xe3\x81\x8b\x1b[48;5;9m\x1b[Kx\x1b7yz";

const ROWS: &str = "    \n\u{304b}xy\nz   \n";

const REPLIES: &[u8] = b"\x1b[1;4R";

/// A number, and the bytes of an update or a patch.
pub type Encoded = (SequenceNo, Vec<u8>);

/// What `update` and `patch` return.
pub type Answer = Result<Encoded, TerminalError>;

/// A patch from another terminal of the same size; `Number` where the sizes differ.
pub fn patched(terminal: &mut Plain, shown: &Plain) -> Answer {
    let (width, height) = terminal.surface().dimensions();
    let (other_width, other_height) = shown.surface().dimensions();
    let is_same = !shown.is_failed() && other_width == width && other_height == height;
    if is_same {
        terminal.patch(shown)
    } else {
        Err(TerminalError::Number)
    }
}

/// Whether the rows have this text.
pub fn shows(terminal: &Plain, rows: &str) -> Outcome {
    Ok(terminal.surface().screen_chars_to_string()?.as_str() == rows)
}

// Whether a result is `Failed`.
fn is_failed<T: Drop>(answer: Result<T, TerminalError>) -> bool {
    matches!(answer, Err(TerminalError::Failed))
}

/// Whether each call of a terminal that can be refused returns `Failed`, also a feed of no bytes.
pub fn has_failed(terminal: &mut Plain) -> bool {
    hold(&[
        terminal.is_failed(),
        is_failed(terminal.feed(b"")),
        is_failed(terminal.feed(b"x")),
        is_failed(terminal.settle()),
        is_failed(terminal.update(0)),
        is_failed(terminal.resize(2, 2)),
        terminal.is_failed(),
    ])
}

// Whether a patch of a terminal returns `Failed`.
fn patch_has_failed(alloc: Global, terminal: &mut Plain) -> Outcome {
    let (width, height) = terminal.surface().dimensions();
    if width < 1 || 10 < width || height < 1 || 10 < height {
        return Ok(false);
    }
    let other = Terminal::new(alloc, width, height, ProgramWidth)?;
    Ok(is_failed(patched(terminal, &other)))
}

/// What follows a feed, a look or another size that was refused.
pub fn ended(alloc: Global, error: TerminalError, terminal: &mut Plain) -> Outcome {
    let stands = has_failed(terminal) && patch_has_failed(alloc, terminal)?;
    refused(Stop::from(error), stands)
}

// A terminal of 4x3 that was fed the stream.
fn fed(alloc: Global) -> Result<Plain, Stop> {
    let mut terminal = Terminal::new(alloc, 4, 3, ProgramWidth)?;
    terminal.feed(STREAM)?;
    Ok(terminal)
}

// Feeds chunks to a terminal.
fn feed_all(alloc: Global, terminal: &mut Plain, chunks: &[&[u8]]) -> Outcome {
    for chunk in chunks {
        if let Err(error) = terminal.feed(chunk) {
            return ended(alloc, error, terminal);
        }
    }
    Ok(true)
}

// The stream, and its end in parts.
fn feeds(alloc: Global) -> Outcome {
    let mut terminal = Terminal::new(alloc, 4, 3, ProgramWidth)?;
    let chunks: [&[u8]; 4] = [STREAM, b"", b"\x1b8\x1b[1", b"m\x1b[?25l"];
    let is_fed = feed_all(alloc, &mut terminal, &chunks);
    let replies = terminal.take_replies();
    let is_right = terminal.surface().title() == "t" && replies.as_slice() == REPLIES;
    all(&[is_fed, Ok(is_right)])
}

// Feeds the stream to a terminal in chunks of one byte.
fn feed_bytes(alloc: Global, terminal: &mut Plain) -> Outcome {
    for byte in STREAM {
        if let Err(error) = terminal.feed(&[*byte]) {
            return ended(alloc, error, terminal);
        }
    }
    Ok(terminal.current_number() > 9)
}

// The stream in chunks of one byte.
fn fed_bytes(alloc: Global) -> Outcome {
    let mut terminal = Terminal::new(alloc, 4, 3, ProgramWidth)?;
    feed_bytes(alloc, &mut terminal)
}

// A look, and a second one, which has nothing to do.
fn looks(alloc: Global) -> Outcome {
    let mut terminal = fed(alloc)?;
    if let Err(error) = terminal.settle() {
        return ended(alloc, error, &mut terminal);
    }
    Ok(terminal.settle().is_ok() && terminal.surface().cursor_position() == (1, 2))
}

// Another size.
fn resized(alloc: Global) -> Outcome {
    let mut terminal = fed(alloc)?;
    match terminal.resize(5, 4) {
        Ok(()) => Ok(terminal.surface().dimensions() == (5, 4)),
        Err(error) => ended(alloc, error, &mut terminal),
    }
}

// Whether two answers have the same number and bytes.
fn is_same(answer: &Encoded, other: &Encoded) -> bool {
    answer.0 == other.0 && answer.1.as_slice() == other.1.as_slice()
}

// Whether a terminal is the one of the stream after a look.
fn is_settled(terminal: &mut Plain) -> Outcome {
    let replies = terminal.take_replies();
    all(&[
        Ok(!terminal.is_failed()),
        Ok(terminal.surface().cursor_position() == (1, 2)),
        Ok(replies.as_slice() == REPLIES),
        shows(terminal, ROWS),
    ])
}

/// An update for a number, or a patch from what another terminal shows.
pub fn ask(terminal: &mut Plain, shown: &Plain, number: SequenceNo, is_patch: bool) -> Answer {
    if is_patch {
        patched(terminal, shown)
    } else {
        terminal.update(number)
    }
}

// The answer of a terminal that was fed the stream.
fn whole(
    alloc: Global,
    shown: &Plain,
    number: SequenceNo,
    is_patch: bool,
) -> Result<Encoded, Stop> {
    let mut terminal = fed(alloc)?;
    Ok(ask(&mut terminal, shown, number, is_patch)?)
}

// What follows an answer that was refused: where its bytes were refused memory, a second call returns them.
fn again(error: TerminalError, terminal: &mut Plain, answer: Answer, whole: &Encoded) -> Outcome {
    let is_whole = is_same(&answer?, whole);
    refused(Stop::from(error), is_whole && is_settled(terminal)?)
}

// An answer on the stream, of a terminal that was fed it.
fn answered(
    alloc: Global,
    terminal: &mut Plain,
    shown: &Plain,
    number: SequenceNo,
    is_patch: bool,
) -> Outcome {
    let whole = whole(alloc, shown, number, is_patch)?;
    match ask(terminal, shown, number, is_patch) {
        Ok(answer) => Ok(is_same(&answer, &whole) && is_settled(terminal)?),
        Err(error) => {
            if terminal.is_failed() {
                return ended(alloc, error, terminal);
            }
            let answer = ask(terminal, shown, number, is_patch);
            again(error, terminal, answer, &whole)
        }
    }
}

// An answer on the stream.
fn asked(alloc: Global, number: SequenceNo, is_patch: bool) -> Outcome {
    let shown = Terminal::new(alloc, 4, 3, ProgramWidth)?;
    let mut terminal = fed(alloc)?;
    answered(alloc, &mut terminal, &shown, number, is_patch)
}

// Steps that are played.
fn plays(alloc: Global) -> Outcome {
    let steps = [Step::Feed(b"ab"), Step::Settle, Step::Resize(3, 2)];
    let terminal = play(alloc, &steps, 4, 2, ProgramWidth)?;
    let is_moved = terminal.surface().cursor_position() == (2, 0);
    all(&[Ok(is_moved), shows(&terminal, "ab \n   \n")])
}

// The bytes of each change. The changes of a row's size, of the cursor's colour and of its shape have none, also where
// memory is refused.
fn renderings(alloc: Global) -> Outcome {
    for kind in 0..CHANGES {
        let is_spelled = !matches!(kind, 4 | 9 | 10);
        match render(alloc, &change_of(alloc, kind)?, 4, 3) {
            Ok(_) if is_spelled => {}
            Err(RenderError::NoSpelling) if !is_spelled => {}
            Ok(_) => return Ok(false),
            Err(error) => return refused(Stop::from(error), is_spelled),
        }
    }
    Ok(true)
}

// Whether calls that take no memory succeed.
fn is_refused_nothing(terminal: &mut Plain) -> bool {
    let is_done = terminal.feed(b"").is_ok() && terminal.settle().is_ok();
    terminal.forget_before(terminal.current_number());
    let is_replied = terminal.take_replies().as_slice() == REPLIES;
    let is_taken = terminal.take_replies().is_empty();
    hold(&[is_done, is_replied, is_taken, !terminal.is_failed()])
}

// Calls that take no memory.
fn without_memory(alloc: Global) -> Outcome {
    let mut terminal = fed(alloc)?;
    terminal.settle()?;
    Ok(is_refused_nothing(&mut terminal))
}

/// Checks terminals.
pub fn check<W: Write>(alloc: Global, tally: &mut Tally<W>) {
    tally.take("feeds", feeds(alloc));
    tally.take("feeds of one byte", fed_bytes(alloc));
    tally.take("looks", looks(alloc));
    tally.take("other sizes of a terminal", resized(alloc));
    tally.take("updates of the whole screen", asked(alloc, 0, false));
    tally.take("updates from a number on", asked(alloc, 3, false));
    tally.take("patches", asked(alloc, 0, true));
    tally.take("steps that are played", plays(alloc));
    tally.take("bytes of changes", renderings(alloc));
    tally.take("terminals without memory", without_memory(alloc));
}
