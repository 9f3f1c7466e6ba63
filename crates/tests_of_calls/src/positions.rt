//! Positions in a list of parameters: copied, and taken to another list.
use csi_codec::{CsiParam, ParamCursor};

#[test]
fn a_copied_position_goes_on_by_itself(rt: HostRuntime) {
    let params = [
        CsiParam::Integer(1),
        CsiParam::P(b';'),
        CsiParam::Integer(3),
    ];
    let mut position = ParamCursor::start();
    assert!(rt; position.next(rt.alloc(), &params, false, 'm').is_some());
    let mut copy = position;
    assert!(rt; position.next(rt.alloc(), &params, false, 'm').is_some());
    assert!(rt; position.next(rt.alloc(), &params, false, 'm').is_none());
    assert!(rt; copy.next(rt.alloc(), &params, false, 'm').is_some());
    assert!(rt; copy.next(rt.alloc(), &params, false, 'm').is_none());
}

#[test]
fn a_position_past_a_shorter_list_is_its_end(rt: HostRuntime) {
    let params = [CsiParam::P(b'?'), CsiParam::Integer(25)];
    let mut position = ParamCursor::start();
    assert!(rt; position.next(rt.alloc(), &params, false, 'h').is_some());
    assert!(rt; position.next(rt.alloc(), &[], false, 'h').is_none());
}
