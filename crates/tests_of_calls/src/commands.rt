//! Commands without parts, commands that are appended to other bytes, commands that differ, and all selections.
use bitflags::Flags;
use escape_osc::{OperatingSystemCommand, Selection};
use std::process::Abort;

#[test]
fn no_parts(rt: HostRuntime) {
    let none = OperatingSystemCommand::parse(rt.alloc(), &[]).expect(&rt, "memory");
    let text = none.to_string(rt.alloc()).expect(&rt, "memory");
    assert_eq!(rt; text.as_str(), "\x1b]\x1b\\");
}

#[test]
fn bytes_after_others(rt: HostRuntime) {
    let parts: [&[u8]; 3] = [b"2", b"a\xff", b"\xe3\x81"];
    let command = OperatingSystemCommand::parse(rt.alloc(), &parts).expect(&rt, "memory");
    let mut bytes = b"x".to_vec(rt.alloc()).expect(&rt, "memory");
    assert!(rt; command.append_bytes_to(&mut bytes).is_ok());
    assert_eq!(rt;
        bytes.as_slice(),
        b"x\x1b]2;a\xff;\xe3\x81\x1b\\".as_slice()
    );
}

// Two commands differ.
fn assert_differ<R: Abort + AllocGlobal>(rt: &R, parts: &[&[u8]], other_parts: &[&[u8]]) {
    let command = OperatingSystemCommand::parse(rt.alloc(), parts).expect(rt, "memory");
    let other = OperatingSystemCommand::parse(rt.alloc(), other_parts).expect(rt, "memory");
    assert!(rt; command != other);
}

#[test]
fn commands_that_differ(rt: HostRuntime) {
    assert_differ(&rt, &[b"1", b"b"], &[b"2", b"b"]);
    assert_differ(&rt, &[b"8", b"id=1", b"u"], &[b"8", b"", b"u"]);
}

#[test]
fn all_selections(rt: HostRuntime) {
    let mut all = Selection::empty();
    for bit in 1..=13u16 {
        let selection = Selection::from_bits(1 << bit);
        assert!(rt; selection.is_some());
        all.insert(selection.unwrap_or(Selection::empty()));
    }
    assert!(rt; all == Selection::all());
    assert_eq!(rt; Selection::from_bits(1), None);
}
