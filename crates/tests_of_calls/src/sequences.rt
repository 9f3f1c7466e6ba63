//! Iterators at their end, defaults and equality of control sequences.
use csi_codec::{CSI, CsiParam, CursorStyle, OneBased};

#[test]
fn nothing_comes_after_the_last_action(rt: HostRuntime) {
    let params = [
        CsiParam::Integer(1),
        CsiParam::P(b';'),
        CsiParam::Integer(3),
    ];
    let mut reader = CSI::parse(rt.alloc(), &params, false, 'm');
    assert!(rt; reader.next().is_some());
    assert!(rt; reader.next().is_some());
    assert!(rt; reader.next().is_none());
    assert!(rt; reader.next().is_none());
}

#[test]
fn positions_from_0_and_from_1(rt: HostRuntime) {
    let third = OneBased::from_zero_based(2);
    assert_eq!(rt; third.as_zero_based(), 2);
    assert_eq!(rt; third, OneBased::new(3));
}

#[test]
fn the_default_shape_has_number_0(rt: HostRuntime) {
    assert_eq!(rt; CursorStyle::default().to_u16(), 0);
}
