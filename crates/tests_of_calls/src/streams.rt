//! Callbacks, copies of actions, the bytes that are controls, and framers that have not failed.
use escape_framing::{Framer, Read};
use escape_stream::{Action, ControlCode, Parser};
use std::process::Abort;

#[test]
fn callbacks_are_called(rt: HostRuntime) {
    let mut parser = Parser::new(rt.alloc());
    let mut count = 0u64;
    let whole = parser.parse(b"\x1b[1;3mb", |_| count = count.wrapping_add(1));
    assert!(rt; whole.is_ok());
    assert_eq!(rt; count, 3);
    for byte in b"\x1b[1;3mb" {
        let one = parser.parse(&[*byte], |_| count = count.wrapping_add(1));
        assert!(rt; one.is_ok());
    }
    assert_eq!(rt; count, 6);
    assert!(rt; !parser.is_failed());
}

#[test]
fn copies_of_controls(rt: HostRuntime) {
    let escape = Action::Control(ControlCode::Escape);
    let copy = escape.try_clone(rt.alloc()).expect(&rt, "memory");
    assert!(rt; copy == escape);
    assert!(rt; copy != Action::Control(ControlCode::Null));
}

#[test]
fn bytes_that_are_controls(rt: HostRuntime) {
    for byte in 0..=255u8 {
        let code = ControlCode::from_u8(byte);
        assert_eq!(rt; code.is_some(), byte < 0x20 || byte == 0x7f);
        assert!(rt; code.is_none_or(|known| known.to_u8() == byte));
    }
}

// Reads a byte of a control sequence, which is not refused.
fn feed<R: Abort>(rt: &R, framer: &mut Framer, byte: u8) {
    assert!(rt; matches!(framer.next(&[byte]), Ok(Read::Bytes { count: 1, .. })));
}

#[test]
fn framers_count_tokens(rt: HostRuntime) {
    let mut framer = Framer::new(rt.alloc());
    feed(&rt, &mut framer, 0x1b);
    feed(&rt, &mut framer, b'[');
    for _ in 0..130 {
        feed(&rt, &mut framer, b'1');
        feed(&rt, &mut framer, b';');
    }
    feed(&rt, &mut framer, b'm');
    assert_eq!(rt; framer.parameters().len(), 256);
    assert!(rt; framer.parameters_truncated());
    assert!(rt; framer.is_idle());
}
