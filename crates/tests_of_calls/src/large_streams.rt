//! Large inputs of parsers and lists, and of `run` and `show`.
use crate::large::{fed, long_line, rows_of_long_lines, times};
use csi_codec::{CSI, Cracked, CsiParam, read_csi};
use escape_stream::{Action, Parser, Piece, encode};
use std::process::Abort;
use terminal::{ProgramWidth, Watched, run, show};

// Whether the pieces of some bytes are one text that a parser lends, of all the bytes.
fn is_one_text(parser: &mut Parser, bytes: &[u8]) -> bool {
    let mut pieces = parser.pieces(bytes);
    let is_first = matches!(pieces.next(), Some(Ok(Piece::Text(text))) if text.as_bytes() == bytes);
    is_first && pieces.next().is_none()
}

#[test]
fn texts_of_a_megabyte(rt: HostRuntime) {
    let text = times(&rt, b"abcdefghijklmnop", 65_536);
    let mut parser = Parser::new(rt.alloc());
    assert!(rt; is_one_text(&mut parser, &text));
    let mut count = 0u64;
    let answer = parser.parse(&text, |_| count = count.wrapping_add(1));
    assert!(rt; answer.is_ok());
    assert_eq!(rt; count, 1_048_576);
    let actions = parser.parse_as_vec(&text).expect(&rt, "memory");
    assert_eq!(rt; actions.len(), 1);
    let bytes = encode(rt.alloc(), &actions).expect(&rt, "memory");
    assert!(rt; bytes.as_slice() == text.as_slice());
}

// A string with a long body is read as `count` actions, and written as it was.
fn assert_read<R: Abort + AllocGlobal>(rt: &R, prefix: &[u8], count: usize) {
    let mut bytes = times(rt, prefix, 1);
    bytes
        .extend_from_slice(&times(rt, b"long body!", 7_000))
        .expect(rt, "memory");
    bytes.extend_from_slice(b"\x1b\\").expect(rt, "memory");
    let mut parser = Parser::new(rt.alloc());
    let actions = parser.parse_as_vec(&bytes).expect(rt, "memory");
    assert_eq!(rt; actions.len(), count);
    assert!(rt; matches!(actions.last(), Some(Action::Esc(_))));
    let written = encode(rt.alloc(), &actions).expect(rt, "memory");
    assert!(rt; written.as_slice() == bytes.as_slice());
}

#[test]
fn bodies_of_70_kilobytes(rt: HostRuntime) {
    assert_read(&rt, b"\x1b]2;", 2);
    assert_read(&rt, b"\x1b]8;;", 2);
    assert_read(&rt, b"\x1b]777;", 2);
    assert_read(&rt, b"\x1bPq", 70_003);
}

// `count` numbers, each with a semicolon after it.
fn numbers<R: Abort + AllocGlobal>(rt: &R, count: usize) -> Vec<CsiParam> {
    let mut params = Vec::new(rt.alloc());
    for _ in 0..count {
        params.push(CsiParam::Integer(1)).expect(rt, "memory");
        params.push(CsiParam::P(b';')).expect(rt, "memory");
    }
    params
}

#[test]
fn lists_of_numbers(rt: HostRuntime) {
    let params = numbers(&rt, 10_000);
    let mut count = 0u64;
    for action in CSI::parse(rt.alloc(), &params, false, 'm') {
        assert!(rt; matches!(action, Ok(CSI::Sgr(_))));
        count = count.wrapping_add(1);
    }
    assert_eq!(rt; count, 10_000);
    let list = Cracked::parse(rt.alloc(), &params).expect(&rt, "list");
    assert_eq!(rt; list.len(), 10_000);
    assert!(rt; matches!(list.int(9_999), Ok(1)));
}

#[test]
fn prefixes_of_long_lists(rt: HostRuntime) {
    let mut bytes = times(&rt, b"\x1b[", 1);
    bytes
        .extend_from_slice(&times(&rt, b"1;", 10_000))
        .expect(&rt, "memory");
    bytes.extend_from_slice(b"mx").expect(&rt, "memory");
    let sequence = read_csi(rt.alloc(), &bytes).expect(&rt, "memory");
    let sequence = sequence.expect(&rt, "sequence");
    assert_eq!(rt; sequence.params.len(), 256);
    assert!(rt; sequence.truncated && sequence.control == 'm' && sequence.rest == b"x".as_slice());
}

#[test]
fn rows_of_a_megabyte(rt: HostRuntime) {
    let bytes = times(&rt, &long_line(&rt), 1024);
    let mut input = bytes.as_slice();
    let mut text = Vec::new(rt.alloc());
    let mut reader = Watched::new(&mut input);
    let mut writer = Watched::new(&mut text);
    let answer = show(rt.alloc(), &mut reader, &mut writer, 80, 3, ProgramWidth);
    assert!(rt; answer.is_ok());
    assert_eq!(rt; reader.reads(), 257);
    let expected = rows_of_long_lines(&rt);
    assert!(rt; writer.into_inner().as_slice() == expected.as_bytes());
}

// Updates after each 64 KB and at the end, and the screen of a new terminal that reads them.
#[test]
fn updates_of_a_megabyte(rt: HostRuntime) {
    let bytes = times(&rt, &long_line(&rt), 1024);
    let mut input = bytes.as_slice();
    let mut text = Vec::new(rt.alloc());
    let mut reader = Watched::new(&mut input);
    let mut writer = Watched::new(&mut text);
    let answer = run(
        rt.alloc(),
        &mut reader,
        &mut writer,
        80,
        3,
        65_536,
        ProgramWidth,
    );
    assert!(rt; answer.is_ok());
    assert_eq!(rt; writer.flushes(), 17);
    let viewer = fed(&rt, 80, 3, writer.into_inner());
    let rows = viewer
        .surface()
        .screen_chars_to_string()
        .expect(&rt, "memory");
    assert!(rt; rows.as_str() == rows_of_long_lines(&rt).as_str());
}
