//! Copies of the control sequence at the start of some bytes.
use csi_codec::{CsiParam, read_csi};

#[test]
fn copies_of_prefixes(rt: HostRuntime) {
    let sequence = read_csi(rt.alloc(), b"\x1b[2;5Hx").expect(&rt, "memory");
    let sequence = sequence.expect(&rt, "a sequence");
    let copy = sequence.try_clone().expect(&rt, "memory");
    assert!(rt; copy == sequence);
    assert_eq!(rt; copy.control, 'H');
    assert!(rt; !copy.truncated);
    assert_eq!(rt; copy.rest, b"x".as_slice());
    assert_eq!(rt; copy.params.len(), 3);
    assert_eq!(rt; copy.params[2], CsiParam::Integer(5));
}
