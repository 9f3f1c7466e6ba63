//! Parsers whose pieces were dropped before their end.
use escape_stream::{ParseError, Parser};

// Takes one piece of a text and a sequence, and drops the rest.
fn leaves_pieces(parser: &mut Parser) -> bool {
    parser.pieces(b"ab\x1b[1m").next().is_some()
}

#[test]
fn callbacks_after_pieces_that_were_dropped(rt: HostRuntime) {
    let mut parser = Parser::new(rt.alloc());
    assert!(rt; leaves_pieces(&mut parser));
    let mut count = 0u64;
    let answer = parser.parse(b"x", |_| count = count.wrapping_add(1));
    assert!(rt; matches!(answer, Err(ParseError::Failed)));
    assert_eq!(rt; count, 0);
    assert!(rt; parser.is_failed());
}

#[test]
fn lists_after_pieces_that_were_dropped(rt: HostRuntime) {
    let mut parser = Parser::new(rt.alloc());
    assert!(rt; leaves_pieces(&mut parser));
    assert!(rt; matches!(parser.parse_as_vec(b"x"), Err(ParseError::Failed)));
    assert!(rt; matches!(parser.parse_first(b"x"), Err(ParseError::Failed)));
    assert!(rt; matches!(parser.parse_first_as_vec(b"x"), Err(ParseError::Failed)));
}
