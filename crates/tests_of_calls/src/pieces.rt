//! Texts that are lent and actions between them, pieces that are left before their end, and parsers that have failed.
use escape_stream::{Action, ControlCode, ParseError, Parser, Piece};

// Whether the bytes give this text as their only piece.
fn gives_text(parser: &mut Parser, bytes: &[u8], text: &str) -> bool {
    let mut pieces = parser.pieces(bytes);
    let first = matches!(pieces.next(), Some(Ok(Piece::Text(shown))) if shown == text);
    first && pieces.next().is_none()
}

// Whether the bytes give no piece.
fn gives_nothing(parser: &mut Parser, bytes: &[u8]) -> bool {
    parser.pieces(bytes).next().is_none()
}

// Takes one piece, and drops the rest.
fn takes_one(parser: &mut Parser, bytes: &[u8]) -> bool {
    parser.pieces(bytes).next().is_some()
}

// Whether the bytes give the refusal of a parser that has failed, and then no piece.
fn is_refused(parser: &mut Parser, bytes: &[u8]) -> bool {
    let mut pieces = parser.pieces(bytes);
    let refused = matches!(pieces.next(), Some(Err(ParseError::Failed)));
    refused && pieces.next().is_none()
}

// Whether the bytes give a print of é, and then a text.
fn gives_print_and_text(parser: &mut Parser, bytes: &[u8], text: &str) -> bool {
    let mut pieces = parser.pieces(bytes);
    let first = matches!(
        pieces.next(),
        Some(Ok(Piece::Action(Action::Print('\u{e9}'))))
    );
    let second = matches!(pieces.next(), Some(Ok(Piece::Text(shown))) if shown == text);
    first && second
}

#[test]
fn texts_and_actions(rt: HostRuntime) {
    let mut parser = Parser::new(rt.alloc());
    let mut pieces = parser.pieces(b"ab\x7fc");
    assert!(rt; matches!(pieces.next(), Some(Ok(Piece::Text("ab")))));
    assert!(rt;
        matches!(
            pieces.next(),
            Some(Ok(Piece::Action(Action::Control(ControlCode::Delete))))
        )
    );
    assert!(rt; matches!(pieces.next(), Some(Ok(Piece::Text("c")))));
    assert!(rt; pieces.next().is_none());
    assert!(rt; pieces.next().is_none());
}

#[test]
fn a_character_in_two_calls(rt: HostRuntime) {
    let mut parser = Parser::new(rt.alloc());
    assert!(rt; gives_nothing(&mut parser, b"\xc3"));
    assert!(rt; gives_print_and_text(&mut parser, b"\xa9x", "x"));
}

#[test]
fn left_before_the_end(rt: HostRuntime) {
    let mut parser = Parser::new(rt.alloc());
    assert!(rt; gives_text(&mut parser, b"ab", "ab"));
    assert!(rt; takes_one(&mut parser, b"ab\x1b[1m"));
    assert!(rt; parser.is_failed());
    assert!(rt; is_refused(&mut parser, b"x"));
}
