//! Streams that are read, and lists of actions that are joined, written and read again.
use crate::actions::{say_action, say_actions};
use crate::escapes;
use crate::fault::Fault;
use crate::row::Row;
use crate::sheet::Sheet;
use escape_stream::{Action, DeviceControlMode, ParseError, Parser, Piece, encode};
use std::alloc::Global;

// A stream is cut in two at its first positions only, so that a long one takes no longer.
const MOST_CUTS: usize = 1000;

/// By which call of a parser a stream is read.
#[derive(Clone, Copy)]
enum Way {
    Collected,
    Called,
    Lent,
}

// Reads the bytes by `parse_as_vec`, and joins their actions with those that were read before.
fn collected_on(
    parser: &mut Parser,
    bytes: &[u8],
    actions: &mut Vec<Action>,
) -> Result<(), ParseError> {
    for action in parser.parse_as_vec(bytes)? {
        action.append_to(actions)?;
    }
    Ok(())
}

// Reads the bytes by `parse`, and joins the actions that the callback gets with those that were read before.
fn called_on(
    parser: &mut Parser,
    bytes: &[u8],
    actions: &mut Vec<Action>,
) -> Result<(), ParseError> {
    let mut refused = false;
    parser.parse(bytes, |action| {
        if action.append_to(actions).is_err() {
            refused = true;
        }
    })?;
    if refused {
        Err(ParseError::Memory)
    } else {
        Ok(())
    }
}

// Joins the prints of a text's characters with the actions before.
fn append_text(text: &str, actions: &mut Vec<Action>) -> Result<(), ParseError> {
    for character in text.chars() {
        Action::Print(character).append_to(actions)?;
    }
    Ok(())
}

// Reads the bytes by `pieces`, and joins the actions of what it lends with those that were read before.
fn lent_on(parser: &mut Parser, bytes: &[u8], actions: &mut Vec<Action>) -> Result<(), ParseError> {
    for piece in parser.pieces(bytes) {
        match piece? {
            Piece::Text(text) => append_text(text, actions)?,
            Piece::Action(action) => action.append_to(actions)?,
        }
    }
    Ok(())
}

impl Way {
    // Reads the bytes, and joins their actions with those that were read before.
    fn read_on(
        self,
        parser: &mut Parser,
        bytes: &[u8],
        actions: &mut Vec<Action>,
    ) -> Result<(), ParseError> {
        match self {
            Way::Collected => collected_on(parser, bytes, actions),
            Way::Called => called_on(parser, bytes, actions),
            Way::Lent => lent_on(parser, bytes, actions),
        }
    }

    // Whether the bytes have these actions, handed in as two chunks, the first of `count` bytes.
    fn is_read_in_two(
        self,
        alloc: Global,
        bytes: &[u8],
        count: usize,
        whole: &[Action],
    ) -> Result<bool, Fault> {
        let (prefix, after) = bytes.split_at(count.min(bytes.len()));
        let mut parser = Parser::new(alloc);
        let mut actions = Vec::new(alloc);
        self.read_on(&mut parser, prefix, &mut actions)?;
        self.read_on(&mut parser, after, &mut actions)?;
        Ok(actions.as_slice() == whole)
    }

    // Whether the bytes have these actions, handed in one by one.
    fn is_read_byte_by_byte(
        self,
        alloc: Global,
        bytes: &[u8],
        whole: &[Action],
    ) -> Result<bool, Fault> {
        let mut parser = Parser::new(alloc);
        let mut actions = Vec::new(alloc);
        for byte in bytes {
            self.read_on(&mut parser, &[*byte], &mut actions)?;
        }
        Ok(actions.as_slice() == whole)
    }
}

// Whether the bytes have these actions, cut in two there, by each call.
fn is_read_at(alloc: Global, bytes: &[u8], count: usize, whole: &[Action]) -> Result<bool, Fault> {
    let collected = Way::Collected.is_read_in_two(alloc, bytes, count, whole)?;
    let called = Way::Called.is_read_in_two(alloc, bytes, count, whole)?;
    let lent = Way::Lent.is_read_in_two(alloc, bytes, count, whole)?;
    Ok(collected && called && lent)
}

// Writes at which cuts the bytes don't have these actions.
fn say_torn(alloc: Global, bytes: &[u8], whole: &[Action], sheet: &mut Sheet) -> Result<(), Fault> {
    for count in 0..bytes.len().min(MOST_CUTS) {
        if !is_read_at(alloc, bytes, count, whole)? {
            sheet.word("but others if cut at");
            sheet.show(&count);
        }
    }
    let is_collected = Way::Collected.is_read_byte_by_byte(alloc, bytes, whole)?;
    sheet.word_if(!is_collected, "but others byte by byte");
    let is_called = Way::Called.is_read_byte_by_byte(alloc, bytes, whole)?;
    sheet.word_if(!is_called, "but parse calls at others byte by byte");
    let is_lent = Way::Lent.is_read_byte_by_byte(alloc, bytes, whole)?;
    sheet.word_if(!is_lent, "but pieces lends others byte by byte");
    Ok(())
}

// Says the actions of some bytes, which they have in any chunks.
fn say_stream(alloc: Global, bytes: &[u8], sheet: &mut Sheet) -> Result<(), Fault> {
    let whole = Parser::new(alloc).parse_as_vec(bytes)?;
    say_actions(alloc, &whole, sheet);
    say_torn(alloc, bytes, &whole, sheet)
}

/// `BYTES => ACTIONS`: a stream, whole, byte by byte and cut in two at each position, by `parse_as_vec`, by `parse`
/// and by `pieces`.
pub fn stream(row: &Row<'_>, sheet: &mut Sheet) -> Result<(), Fault> {
    let bytes = row.bytes(0)?;
    say_stream(row.alloc(), &bytes, sheet)
}

// The text in `<text ..>`.
fn text_in(piece: &str) -> Option<&str> {
    piece.strip_prefix("<text ")?.strip_suffix('>')
}

// The actions of bytes that are read by themselves.
fn push_read(alloc: Global, piece: &str, all: &mut Vec<Action>) -> Result<(), Fault> {
    let bytes = escapes::read(alloc, piece)?;
    for action in Parser::new(alloc).parse_as_vec(&bytes)? {
        all.push(action)?;
    }
    Ok(())
}

// The actions of a piece, read by itself; `<exit>` is the end of a device control string, `<text a>` prints a text.
fn push_piece(alloc: Global, piece: &str, all: &mut Vec<Action>) -> Result<(), Fault> {
    if piece == "<exit>" {
        all.push(Action::DeviceControl(DeviceControlMode::Exit))?;
        Ok(())
    } else if let Some(text) = text_in(piece) {
        all.push(Action::PrintString(escapes::read_text(alloc, text)?))?;
        Ok(())
    } else {
        push_read(alloc, piece, all)
    }
}

// The actions of the parts of a column between ` + `, each read by itself, in order.
fn list_of(row: &Row<'_>) -> Result<Vec<Action>, Fault> {
    let mut all = Vec::new(row.alloc());
    for piece in row.column(0).split(" + ") {
        push_piece(row.alloc(), piece.trim(), &mut all)?;
    }
    Ok(all)
}

// Says where an action isn't equal to its copy.
fn say_copies(alloc: Global, actions: &[Action], sheet: &mut Sheet) -> Result<(), Fault> {
    for action in actions {
        let copy = action.try_clone(alloc)?;
        sheet.word_if(copy != *action, "(a copy differs)");
    }
    Ok(())
}

/// `PIECES => ACTIONS | BYTES | ACTIONS`: the actions of streams that are each read by themselves, what `encode` writes
/// for the list of them, and what that is read as, in any chunks.
pub fn list(row: &Row<'_>, sheet: &mut Sheet) -> Result<(), Fault> {
    let actions = list_of(row)?;
    say_actions(row.alloc(), &actions, sheet);
    say_copies(row.alloc(), &actions, sheet)?;
    let bytes = encode(row.alloc(), &actions)?;
    sheet.column();
    sheet.add(&bytes);
    sheet.column();
    say_stream(row.alloc(), &bytes, sheet)
}

// The actions, joined one by one.
fn joined_of(alloc: Global, actions: Vec<Action>) -> Result<Vec<Action>, Fault> {
    let mut all = Vec::new(alloc);
    for action in actions {
        action.append_to(&mut all)?;
    }
    Ok(all)
}

/// `PIECES => ACTIONS`: the same actions, joined by `append_to`.
pub fn joined(row: &Row<'_>, sheet: &mut Sheet) -> Result<(), Fault> {
    let all = joined_of(row.alloc(), list_of(row)?)?;
    say_actions(row.alloc(), &all, sheet);
    Ok(())
}

// What `parse_first` answers.
fn say_first(alloc: Global, found: Option<(Action, usize)>, sheet: &mut Sheet) {
    match found {
        Some((action, count)) => {
            say_action(alloc, &action, sheet);
            sheet.show(&count);
        }
        None => sheet.word("none"),
    }
    sheet.word("+");
}

/// `PIECES => ANSWERS`: what `parse_first` answers for each chunk, all handed to one parser: an action and how many
/// bytes were read, or `none`, each with a `+` after it.
pub fn first(row: &Row<'_>, sheet: &mut Sheet) -> Result<(), Fault> {
    let mut parser = Parser::new(row.alloc());
    for piece in row.column(0).split(" + ") {
        let bytes = escapes::read(row.alloc(), piece.trim())?;
        let found = parser.parse_first(&bytes)?;
        say_first(row.alloc(), found, sheet);
    }
    Ok(())
}

// What `parse_first_as_vec` answers.
fn say_settled(alloc: Global, found: Option<(Vec<Action>, usize)>, sheet: &mut Sheet) {
    match found {
        Some((actions, count)) => {
            say_actions(alloc, &actions, sheet);
            sheet.show(&count);
        }
        None => sheet.word("none"),
    }
    sheet.word("+");
}

/// `PIECES => ANSWERS`: as `first`, for `parse_first_as_vec`, which returns the actions of the shortest prefix that
/// decides one and leaves nothing unfinished.
pub fn first_settled(row: &Row<'_>, sheet: &mut Sheet) -> Result<(), Fault> {
    let mut parser = Parser::new(row.alloc());
    for piece in row.column(0).split(" + ") {
        let bytes = escapes::read(row.alloc(), piece.trim())?;
        let found = parser.parse_first_as_vec(&bytes)?;
        say_settled(row.alloc(), found, sheet);
    }
    Ok(())
}

// What `pieces` lends of some bytes: texts between quotes, and the actions between them.
fn say_pieces(
    alloc: Global,
    parser: &mut Parser,
    bytes: &[u8],
    sheet: &mut Sheet,
) -> Result<(), Fault> {
    for piece in parser.pieces(bytes) {
        match piece? {
            Piece::Text(text) => sheet.quoted(text),
            Piece::Action(action) => say_action(alloc, &action, sheet),
        }
    }
    sheet.word("+");
    Ok(())
}

/// `PIECES => ITEMS`: what `pieces` lends of each chunk, all handed to one parser: texts between quotes and the actions
/// between them, with a `+` after the items of each chunk.
pub fn pieces(row: &Row<'_>, sheet: &mut Sheet) -> Result<(), Fault> {
    let mut parser = Parser::new(row.alloc());
    for piece in row.column(0).split(" + ") {
        let bytes = escapes::read(row.alloc(), piece.trim())?;
        say_pieces(row.alloc(), &mut parser, &bytes, sheet)?;
    }
    Ok(())
}
