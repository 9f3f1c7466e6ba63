//! Terminals after chunks and calls.
use crate::call::Call;
use crate::fault::Fault;
use crate::row::{Row, number_up_to};
use crate::sheet::Sheet;
use crate::updates::{Pair, shows_same};
use crate::{escapes, surfaces};
use std::alloc::Global;
use terminal::{Profile, ProgramWidth, Terminal};

type Plain = Terminal<ProgramWidth>;

/// A terminal of a profile, and of the width and height that two words give, each at most 4,096.
pub fn terminal_with(alloc: Global, size: &str, profile: Profile) -> Result<Plain, Fault> {
    let (width, height) = size.split_once(' ').ok_or(Fault::Number)?;
    let width = number_up_to(4096, width)?;
    let height = number_up_to(4096, height)?;
    Ok(Terminal::with_profile(alloc, width, height, ProgramWidth, profile)?)
}

/// A plain terminal of such a size.
pub fn terminal_of(alloc: Global, size: &str) -> Result<Plain, Fault> {
    terminal_with(alloc, size, Profile::Plain)
}

// A call that changes the terminal; whether the word names one.
fn change(pair: &mut Pair, call: &Call<'_>, sheet: &mut Sheet) -> Result<bool, Fault> {
    match call.word(0) {
        "settle" => pair.terminal.settle()?,
        "resize" => {
            let width = number_up_to(4096, call.word(1))?;
            let height = number_up_to(4096, call.word(2))?;
            pair.resize(width, height)?;
        }
        "forget" => pair.terminal.forget_before(call.number(1, sheet)),
        "view" => {
            let bytes = escapes::read(call.alloc(), call.word(1))?;
            pair.view(&bytes)?;
        }
        _ => return Ok(false),
    }
    Ok(true)
}

// Answers a query of the terminal, or of its surface.
fn ask(pair: &mut Pair, call: &Call<'_>, sheet: &mut Sheet) -> Result<(), Fault> {
    match call.word(0) {
        "replies" => {
            let replies = pair.terminal.take_replies();
            sheet.quoted_bytes(&replies);
        }
        "update" => pair.say_update(call.number(1, sheet), sheet)?,
        "send" => pair.say_read_update(call.number(1, sheet), sheet)?,
        "patch" => pair.say_patch(sheet)?,
        _ => {
            if !surfaces::ask_surface(pair.terminal.surface(), call, sheet)? {
                return Err(Fault::Word);
            }
        }
    }
    Ok(())
}

// Feeds a chunk, or makes a call.
fn take_step(alloc: Global, pair: &mut Pair, step: &str, sheet: &mut Sheet) -> Result<(), Fault> {
    let inner = step
        .strip_prefix('<')
        .and_then(|words| words.strip_suffix('>'));
    match inner {
        Some(words) if !words.starts_with('<') => {
            let call = Call::read(alloc, words)?;
            if !change(pair, &call, sheet)? {
                ask(pair, &call, sheet)?;
            }
        }
        _ => {
            let bytes = escapes::read(alloc, step)?;
            pair.terminal.feed(&bytes)?;
        }
    }
    Ok(())
}

// What a new terminal of a profile answers.
fn answers_of(profile: Profile, row: &Row<'_>, sheet: &mut Sheet) -> Result<(), Fault> {
    let mut pair = Pair::new(row.alloc(), row.column(0), profile)?;
    for step in row.column(1).split(" + ") {
        take_step(row.alloc(), &mut pair, step.trim(), sheet)?;
    }
    Ok(())
}

/// `WIDTH HEIGHT | STEPS => ANSWERS`: what a new terminal answers after chunks and calls with ` + ` between them; a
/// call is in `<>`.
pub fn terminal(row: &Row<'_>, sheet: &mut Sheet) -> Result<(), Fault> {
    answers_of(Profile::Plain, row, sheet)
}

/// `WIDTH HEIGHT | STEPS => ANSWERS`, as `terminal`, of a terminal of the profile xterm; its viewer is a plain
/// terminal.
pub fn xterm(row: &Row<'_>, sheet: &mut Sheet) -> Result<(), Fault> {
    answers_of(Profile::Xterm, row, sheet)
}

/// Feeds chunks of one byte.
pub fn feed_each(terminal: &mut Plain, bytes: &[u8]) -> Result<(), Fault> {
    for byte in bytes {
        terminal.feed(&[*byte])?;
    }
    Ok(())
}

/// A terminal that was fed and settled, its replies, and the update that paints its screen.
#[derive(Drop)]
pub struct Seen {
    pub terminal: Plain,
    replies: Vec<u8>,
    update: Vec<u8>,
}

impl Seen {
    // A look after all that the terminal was fed.
    fn settled(mut terminal: Plain) -> Result<Seen, Fault> {
        terminal.settle()?;
        let replies = terminal.take_replies();
        let (_, update) = terminal.update(0)?;
        Ok(Seen {
            terminal,
            replies,
            update,
        })
    }

    /// After two chunks, the first of `count` bytes.
    pub fn in_two(alloc: Global, size: &str, bytes: &[u8], count: usize) -> Result<Seen, Fault> {
        let (prefix, after) = bytes.split_at(count.min(bytes.len()));
        let mut terminal = terminal_of(alloc, size)?;
        terminal.feed(prefix)?;
        terminal.feed(after)?;
        Seen::settled(terminal)
    }

    /// After chunks of one byte.
    pub fn byte_by_byte(alloc: Global, size: &str, bytes: &[u8]) -> Result<Seen, Fault> {
        let mut terminal = terminal_of(alloc, size)?;
        feed_each(&mut terminal, bytes)?;
        Seen::settled(terminal)
    }

    /// Whether both show the same screen, and have the same number, replies and update.
    pub fn is_same(&self, other: &Seen) -> Result<bool, Fault> {
        Ok(
            shows_same(&self.terminal, &other.terminal)?
                && self.terminal.current_number() == other.terminal.current_number()
                && self.replies.as_slice() == other.replies.as_slice()
                && self.update.as_slice() == other.update.as_slice(),
        )
    }

    /// Whether a new terminal shows the same screen that reads the update byte by byte.
    pub fn is_viewed(&self, alloc: Global, size: &str) -> Result<bool, Fault> {
        let mut viewer = terminal_of(alloc, size)?;
        feed_each(&mut viewer, &self.update)?;
        shows_same(&self.terminal, &viewer)
    }
}

// The bytes are cut in two at their first positions only, so that many take no longer.
const MOST_CUTS: usize = 400;

/// Writes for which chunks the bytes lead to another screen, number, reply or update; returns whether there are none.
pub fn say_torn(
    alloc: Global,
    size: &str,
    bytes: &[u8],
    whole: &Seen,
    sheet: &mut Sheet,
) -> Result<bool, Fault> {
    let mut all_same = true;
    for count in 0..bytes.len().min(MOST_CUTS) {
        if !Seen::in_two(alloc, size, bytes, count)?.is_same(whole)? {
            sheet.word("but another if cut at");
            sheet.show(&count);
            all_same = false;
        }
    }
    let is_same = Seen::byte_by_byte(alloc, size, bytes)?.is_same(whole)?;
    sheet.word_if(!is_same, "but another byte by byte");
    Ok(all_same && is_same)
}

// Writes for which chunks the bytes lead to another result on a terminal of this size, and whether its viewer shows
// another screen; returns whether neither is so.
fn say_independent(
    alloc: Global,
    size: &str,
    bytes: &[u8],
    sheet: &mut Sheet,
) -> Result<bool, Fault> {
    let whole = Seen::in_two(alloc, size, bytes, 0)?;
    let is_viewed = whole.is_viewed(alloc, size)?;
    sheet.word_if(!is_viewed, "but another at a viewer");
    Ok(say_torn(alloc, size, bytes, &whole, sheet)? && is_viewed)
}

/// `BYTES => same`: whether terminals of several sizes show the same, and have the same updates, if the bytes are cut
/// in two at each position, and byte by byte; and whether a new viewer that reads the update for 0 byte by byte shows
/// the screen.
pub fn torn(row: &Row<'_>, sheet: &mut Sheet) -> Result<(), Fault> {
    let bytes = row.bytes(0)?;
    let mut all_same = true;
    for size in ["1 1", "1 2", "3 1", "4 3", "8 1"] {
        if !say_independent(row.alloc(), size, &bytes, sheet)? {
            sheet.word(size);
            all_same = false;
        }
    }
    sheet.word_if(all_same, "same");
    Ok(())
}
