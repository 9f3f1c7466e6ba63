//! Parsers, which have failed once they were refused memory, and lists of actions.
use crate::outcome::{Outcome, Stop, all, hold, refused};
use crate::tally::Tally;
use escape_framing::Framer;
use escape_stream::{Action, ControlCode, ParseError, Parser, Piece, encode};
use std::alloc::Global;
use std::io::Write;

// Texts, a list with a rest, a request, a command, a device control string and pairs; each is written as it is.
const STREAM: &[u8] =
    b"ab\xe3\x81\x8b\x1b[1m\x1b[255;255m\x1b[5n\x1b]8;id=1;u\x1b\\c\x1bP1$qm\x1b\\\x1b]0;t\x1b\\\x08\x1bc\x1b(0z";

// How many actions the stream has, prints joined.
const ACTIONS: usize = 17;

// How many it has, each print by itself.
const CALLS: usize = 19;

// Whether each call of a parser returns `Failed`; its pieces are this one item.
fn has_failed(parser: &mut Parser) -> bool {
    hold(&[
        parser.is_failed(),
        matches!(parser.parse(b"x", |_| {}), Err(ParseError::Failed)),
        matches!(parser.parse_as_vec(b"x"), Err(ParseError::Failed)),
        matches!(parser.parse_first(b"x"), Err(ParseError::Failed)),
        matches!(parser.parse_first_as_vec(b"x"), Err(ParseError::Failed)),
        pieces_have_failed(parser),
    ])
}

// Whether `Failed` is the only item of a parser's pieces.
fn pieces_have_failed(parser: &mut Parser) -> bool {
    let mut pieces = parser.pieces(b"x");
    let is_first = matches!(pieces.next(), Some(Err(ParseError::Failed)));
    is_first && pieces.next().is_none()
}

// What follows a call that was refused.
fn ended(error: ParseError, parser: &mut Parser) -> Outcome {
    refused(Stop::from(error), has_failed(parser))
}

// The actions of the stream, their copies, and their bytes.
fn lists(alloc: Global) -> Outcome {
    let mut parser = Parser::new(alloc);
    let actions = match parser.parse_as_vec(STREAM) {
        Ok(actions) => actions,
        Err(error) => return ended(error, &mut parser),
    };
    for action in &actions {
        if action.try_clone(alloc)? != *action {
            return Ok(false);
        }
    }
    let bytes = encode(alloc, &actions)?;
    Ok(bytes.as_slice() == STREAM && actions.len() == ACTIONS)
}

// The stream in chunks of one byte.
fn bytes(alloc: Global) -> Outcome {
    let mut parser = Parser::new(alloc);
    let mut actions = Vec::new(alloc);
    for byte in STREAM {
        match parser.parse_as_vec(&[*byte]) {
            Ok(more) => append(&mut actions, more)?,
            Err(error) => return ended(error, &mut parser),
        }
    }
    Ok(actions.len() == ACTIONS)
}

// Appends actions to others.
fn append(actions: &mut Vec<Action>, more: Vec<Action>) -> Result<(), Stop> {
    for action in more {
        action.append_to(actions)?;
    }
    Ok(())
}

// The stream by a callback.
fn callbacks(alloc: Global) -> Outcome {
    let mut parser = Parser::new(alloc);
    let mut count = 0usize;
    match parser.parse(STREAM, |_| count = count.saturating_add(1)) {
        Ok(()) => Ok(count == CALLS && !parser.is_failed()),
        Err(error) => ended(error, &mut parser),
    }
}

// What the pieces of a stream come to: whether the text was lent, or why they ended, and whether nothing followed.
fn walk(parser: &mut Parser) -> Result<bool, (ParseError, bool)> {
    let mut pieces = parser.pieces(STREAM);
    let mut is_lent = false;
    while let Some(item) = pieces.next() {
        match item {
            Ok(Piece::Text(text)) => is_lent = is_lent || text == "ab\u{304b}",
            Ok(Piece::Action(_)) => {}
            Err(error) => return Err((error, pieces.next().is_none())),
        }
    }
    Ok(is_lent && pieces.next().is_none())
}

// The pieces of the stream; after a refusal none comes.
fn pieces(alloc: Global) -> Outcome {
    let mut parser = Parser::new(alloc);
    match walk(&mut parser) {
        Ok(is_right) => Ok(is_right && !parser.is_failed()),
        Err((error, is_end)) => Ok(is_end && ended(error, &mut parser)?),
    }
}

// The first actions of a stream.
fn first_actions(alloc: Global) -> Outcome {
    let mut parser = Parser::new(alloc);
    match parser.parse_first(b"\x1b[255;255m\x1b[1;3m") {
        Ok(found) => Ok(matches!(found, Some((Action::CSI(_), 10)))),
        Err(error) => ended(error, &mut parser),
    }
}

// The first actions of a stream after which nothing is unfinished.
fn first_lists(alloc: Global) -> Outcome {
    let mut parser = Parser::new(alloc);
    match parser.parse_first_as_vec(b"\x1b]8;;u\x1b\\\x1b[1m") {
        Ok(Some((actions, count))) => Ok(actions.len() == 2 && count == 8),
        Ok(None) => Ok(false),
        Err(error) => ended(error, &mut parser),
    }
}

// A list of a control or a print.
fn list_of(alloc: Global, action: Action) -> Result<Vec<Action>, Stop> {
    let mut list = Vec::new(alloc);
    list.push(action)?;
    Ok(list)
}

// Whether a list is one print.
fn is_one_print(list: &[Action]) -> bool {
    list.len() == 1 && matches!(list.first(), Some(Action::Print('a')))
}

// An action after a print; where it is refused the list is as it was.
fn appended(alloc: Global, action: Action, count: usize) -> Outcome {
    let mut list = list_of(alloc, Action::Print('a'))?;
    match action.append_to(&mut list) {
        Ok(()) => Ok(list.len() == count),
        Err(error) => refused(Stop::from(error), is_one_print(&list)),
    }
}

// Prints and others after a print.
fn joined(alloc: Global) -> Outcome {
    let text = String::from_str(alloc, "hellotherehellotherehellothere")?;
    all(&[
        appended(alloc, Action::Print('b'), 1),
        appended(alloc, Action::PrintString(text), 1),
        appended(alloc, Action::Control(ControlCode::Bell), 2),
    ])
}

// A framer, which returns an error where it is refused memory.
fn framers(alloc: Global) -> Outcome {
    let mut framer = Framer::new(alloc);
    for byte in b"\x1b]2;hellotherehellothere\x1b\\" {
        framer.next(&[*byte])?;
    }
    Ok(framer.body().len() == 22)
}

/// Checks parsers and lists of actions.
pub fn check<W: Write>(alloc: Global, tally: &mut Tally<W>) {
    tally.take("framers", framers(alloc));
    tally.take("actions of a stream", lists(alloc));
    tally.take("actions byte by byte", bytes(alloc));
    tally.take("actions by a callback", callbacks(alloc));
    tally.take("pieces of a stream", pieces(alloc));
    tally.take("first actions", first_actions(alloc));
    tally.take("first lists of actions", first_lists(alloc));
    tally.take("actions that are appended", joined(alloc));
}
