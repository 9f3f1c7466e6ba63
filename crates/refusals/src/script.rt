//! Whole scripts: each answer before a refusal is that of the run without one.
use crate::outcome::{Outcome, Stop, all, hold, refused};
use crate::tally::Tally;
use crate::terminals::{Plain, ask, ended, shows};
use cell_surface::Surface;
use std::alloc::Global;
use std::io::Write;
use terminal::{ProgramWidth, SequenceNo, Terminal, TerminalError};

// The answers of the short script's terminal: the update of its whole screen, and the patch from a new terminal.
const UPDATE: &[u8] =
    b"\x1b[?25l\x1b[0m\x1b]8;;\x1b\\\x1b[2J\x1b[1;1H\x1b]2;\x1b\\a\0\x1b[0m\x1b]8;id=1;u\x1b\\b \0\x1b[1;3H\x1b[?25h";

const PATCH: &[u8] = b"\
\x1b]2;\x1b\\\x1b[1;1H\x1b[0m\x1b]8;;\x1b\\a\0\x1b[0m\x1b]8;id=1;u\x1b\\b\0\x1b[0m\x1b[1m\x1b]8;id=1;u\x1b\\c\0\
\x1b[1;3H\x1b[0m\x1b[1m\x1b]8;id=1;u\x1b\\c\0\x1b[0m\x1b[1m\x1b]8;id=1;u\x1b\\\x1b[?25h";

// The reply of the terminal to the first feed.
const REPLY: &[u8] = b"\x1b[1;3R";

// An answer of the short script: the request, and the expected answer, after what is shown.
#[derive(Clone, Copy)]
struct Wanted {
    since: SequenceNo,
    is_patch: bool,
    number: SequenceNo,
    bytes: &'static [u8],
    rows: &'static str,
    replies: &'static [u8],
}

// What follows an answer whose bytes were refused memory: the terminal is as it is after a look, and a second request
// returns the answer.
fn again(terminal: &mut Plain, shown: &Plain, wanted: &Wanted) -> Outcome {
    let stands = shows(terminal, wanted.rows)? && terminal.current_number() == wanted.number;
    let (number, bytes) = ask(terminal, shown, wanted.since, wanted.is_patch)?;
    let is_whole = number == wanted.number && bytes.as_slice() == wanted.bytes;
    let replies = terminal.take_replies();
    Ok(stands && is_whole && replies.as_slice() == wanted.replies)
}

// An answer is as it should be, or was refused, and then the terminal is as it should be.
fn answered(alloc: Global, terminal: &mut Plain, shown: &Plain, wanted: &Wanted) -> Outcome {
    match ask(terminal, shown, wanted.since, wanted.is_patch) {
        Ok((number, sent)) => Ok(number == wanted.number && sent.as_slice() == wanted.bytes),
        Err(error) if terminal.is_failed() => ended(alloc, error, terminal),
        Err(error) => refused(Stop::from(error), again(terminal, shown, wanted)?),
    }
}

// A feed, a look and another size.
fn go_on(terminal: &mut Plain) -> Result<(), TerminalError> {
    terminal.feed(b"\xe3\x81\x8b")?;
    terminal.settle()?;
    terminal.resize(3, 2)
}

// The replies that are left, which are all, or none where they were taken before.
fn replies_left(is_early: bool) -> &'static [u8] {
    if is_early { b"" } else { REPLY }
}

// The end of the short script: an update, a feed, and a patch from a new terminal.
fn end(alloc: Global, terminal: &mut Plain, shown: &Plain, is_early: bool) -> Outcome {
    let update = Wanted {
        since: 0,
        is_patch: false,
        number: 5,
        bytes: UPDATE,
        rows: "ab \n   \n",
        replies: replies_left(is_early),
    };
    if !answered(alloc, terminal, shown, &update)? {
        return Ok(false);
    }
    if let Err(error) = terminal.feed(b"\x1b[1mc") {
        return ended(alloc, error, terminal);
    }
    let patch = Wanted {
        since: 0,
        is_patch: true,
        number: 7,
        bytes: PATCH,
        rows: "abc\n   \n",
        replies: replies_left(is_early),
    };
    let is_right = answered(alloc, terminal, shown, &patch)?;
    let replies = terminal.take_replies();
    Ok(is_right && replies.as_slice() == replies_left(is_early))
}

// The short script on a new terminal. The replies are taken after the first feed, or at the end.
fn play_short(alloc: Global, terminal: &mut Plain, shown: &Plain, is_early: bool) -> Outcome {
    if let Err(error) = terminal.feed(b"a\x1b]8;id=1;u\x1b\\b\x1b[6n") {
        return ended(alloc, error, terminal);
    }
    if is_early && terminal.take_replies().as_slice() != REPLY {
        return Ok(false);
    }
    if let Err(error) = go_on(terminal) {
        return ended(alloc, error, terminal);
    }
    end(alloc, terminal, shown, is_early)
}

// The short script.
fn short(alloc: Global, is_early: bool) -> Outcome {
    let shown = Terminal::new(alloc, 3, 2, ProgramWidth)?;
    let mut terminal = Terminal::new(alloc, 4, 2, ProgramWidth)?;
    play_short(alloc, &mut terminal, &shown, is_early)
}

// How many chunks the long script has.
const CHUNKS: usize = 8;

// A chunk of the long script.
fn chunk(index: usize) -> &'static [u8] {
    match index {
        0 => b"\x1b]2;first\x1b\\one\r\ntwo",
        1 => b"\x1b[1;38;5;9mred\x1b[m\x1b]8;;http://example.com\x1b\\link",
        2 => b"\xe3\x81\x8b\xe3\x81\x8be\xcc\x81\x1b[2;3H\x1b[K",
        3 => b"\x1b[48:2::1:2:3m\x1b[J\x1b]8;;\x1b\\x\x1b[5n",
        4 => b"\r\n\n\n\nlast\x1b[?25l\x1b7",
        5 => b"\x1b[H\x1bM\x1bMtop\x1b8\x1b[4:3mend of it",
        6 => b"\x1b]0;second\x07\x1b[5n\x1b[?25h\x1b[2J\x1b[5n\x1b[3;8Hab",
        _ => b"\x1bc\x1b[1;8Hy\xe3\x81\x8b",
    }
}

// The replies that a chunk of the long script requests.
fn replies_to(index: usize) -> &'static [u8] {
    match index {
        3 => b"\x1b[0n",
        6 => b"\x1b[0n\x1b[0n",
        _ => b"",
    }
}

// Whether both have the same rows.
fn has_same_rows(one: &Surface<ProgramWidth>, other: &Surface<ProgramWidth>) -> Outcome {
    let rows = one.screen_chars_to_string()?;
    Ok(rows.as_str() == other.screen_chars_to_string()?.as_str())
}

// Whether both have the same cells.
fn has_same_cells(one: &Surface<ProgramWidth>, other: &Surface<ProgramWidth>) -> Outcome {
    Ok(one.diff_screens(other)?.is_empty())
}

// Whether both show the same rows, cursor, title and pen.
fn shows_same(terminal: &Plain, viewer: &Plain) -> Outcome {
    let (one, other) = (terminal.surface(), viewer.surface());
    let has_same_state = hold(&[
        one.cursor_position() == other.cursor_position(),
        one.cursor_visibility() == other.cursor_visibility(),
        one.title() == other.title(),
        one.pen() == other.pen(),
    ]);
    all(&[
        Ok(has_same_state),
        has_same_rows(one, other),
        has_same_cells(one, other),
    ])
}

// What a refused answer leaves: a terminal whose calls return `Failed`, or one that answers a second request.
fn asked_again(
    alloc: Global,
    error: TerminalError,
    pair: (&mut Plain, &mut Plain),
    number: SequenceNo,
    is_patch: bool,
) -> Outcome {
    let (terminal, viewer) = pair;
    if terminal.is_failed() {
        return ended(alloc, error, terminal);
    }
    let (_, bytes) = ask(terminal, viewer, number, is_patch)?;
    viewer.feed(&bytes)?;
    refused(Stop::from(error), shows_same(terminal, viewer)?)
}

// One more answer, which the viewer reads.
fn answer(
    alloc: Global,
    terminal: &mut Plain,
    viewer: &mut Plain,
    number: SequenceNo,
    is_patch: bool,
) -> Result<SequenceNo, Stop> {
    match ask(terminal, viewer, number, is_patch) {
        Ok((now, bytes)) => {
            read(alloc, viewer, &bytes)?;
            go_on_if_right(shows_same(terminal, viewer))?;
            Ok(now)
        }
        Err(error) => {
            go_on_if_right(asked_again(alloc, error, (terminal, viewer), number, is_patch))?;
            Err(Stop::Other)
        }
    }
}

// Ends a script where an outcome is not right.
fn go_on_if_right(outcome: Outcome) -> Result<(), Stop> {
    if outcome? { Ok(()) } else { Err(Stop::Other) }
}

// A terminal reads bytes; where it is refused memory, its calls then return `Failed`.
fn read(alloc: Global, terminal: &mut Plain, bytes: &[u8]) -> Result<(), Stop> {
    match terminal.feed(bytes) {
        Ok(()) => Ok(()),
        Err(error) => {
            go_on_if_right(ended(alloc, error, terminal))?;
            Err(Stop::Other)
        }
    }
}

// A terminal becomes narrower.
fn resize(alloc: Global, terminal: &mut Plain) -> Result<(), Stop> {
    match terminal.resize(9, 3) {
        Ok(()) => Ok(()),
        Err(error) => {
            go_on_if_right(ended(alloc, error, terminal))?;
            Err(Stop::Other)
        }
    }
}

// A chunk of the long script, and an answer that the viewer reads; both become narrower after the fifth.
fn step(
    alloc: Global,
    terminal: &mut Plain,
    viewer: &mut Plain,
    number: SequenceNo,
    index: usize,
) -> Result<SequenceNo, Stop> {
    read(alloc, terminal, chunk(index))?;
    let number = answer(alloc, terminal, viewer, number, matches!(index, 1 | 4 | 7))?;
    go_on_if_right(Ok(terminal.take_replies().as_slice() == replies_to(index)))?;
    if index == 4 {
        resize(alloc, terminal)?;
        resize(alloc, viewer)?;
    }
    terminal.forget_before(number);
    Ok(number)
}

// The long script on two new terminals.
fn play_long(alloc: Global, terminal: &mut Plain, viewer: &mut Plain) -> Outcome {
    let mut number = 0;
    for index in 0..CHUNKS {
        number = step(alloc, terminal, viewer, number, index)?;
    }
    Ok(true)
}

// The long script.
fn long(alloc: Global) -> Outcome {
    let mut terminal = Terminal::new(alloc, 10, 3, ProgramWidth)?;
    let mut viewer = Terminal::new(alloc, 10, 3, ProgramWidth)?;
    play_long(alloc, &mut terminal, &mut viewer)
}

/// Checks whole scripts.
pub fn check<W: Write>(alloc: Global, tally: &mut Tally<W>) {
    tally.take("the short script", short(alloc, false));
    tally.take("the short script, replies taken early", short(alloc, true));
    tally.take("the long script", long(alloc));
}
