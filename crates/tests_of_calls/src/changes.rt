//! Changes: conversions, copies and equality; lists of them that write cells with other changes between; and
//! prefixes of texts. か has width 2.
use cell_base::{
    AttributeChange, CellAttributes, ColorAttribute, Intensity, LineAttribute, Position,
};
use screen_change::{CellWriter, Change};
use std::process::Abort;
use text_clusters::{split_first_cluster, split_plain};

fn text_of<R: Abort + AllocGlobal>(rt: &R, text: &str) -> Change {
    Change::from(String::from_str(rt.alloc(), text).expect(rt, "memory"))
}

#[test]
fn conversions(rt: HostRuntime) {
    let text = text_of(&rt, "ab");
    assert!(rt; text.is_text());
    assert_eq!(rt; text.text(), "ab");
    let bold = Change::from(AttributeChange::Intensity(Intensity::Bold));
    assert!(rt; !bold.is_text());
    assert!(rt; bold == Change::Attribute(AttributeChange::Intensity(Intensity::Bold)));
    let wide = Change::from(LineAttribute::DoubleWidthLine);
    assert!(rt; wide == Change::LineAttribute(LineAttribute::DoubleWidthLine));
}

// Whether a copy is equal, and another change isn't.
fn is_copied<R: Abort>(rt: &R, change: &Change, other: &Change) -> bool {
    let copy = change.try_clone().expect(rt, "memory");
    copy == *change && copy != *other
}

#[test]
fn copies(rt: HostRuntime) {
    let text = text_of(&rt, "ab");
    let scroll = Change::ScrollRegionUp {
        first_row: 1,
        region_size: 2,
        scroll_count: 3,
    };
    let position = Change::CursorPosition {
        x: Position::Absolute(1),
        y: Position::Relative(-2),
    };
    assert!(rt; is_copied(&rt, &text, &text_of(&rt, "ac")));
    assert!(rt; is_copied(&rt, &scroll, &position));
    assert!(rt; is_copied(&rt, &position, &scroll));
    assert!(rt; is_copied(&rt, &Change::ClearScreen(ColorAttribute::Default), &text));
}

// Whether the change is this text.
fn is_text(change: Option<&Change>, text: &str) -> bool {
    match change {
        Some(Change::Text(found)) => found.as_str() == text,
        _ => false,
    }
}

#[test]
fn cells_with_a_change_between(rt: HostRuntime) {
    let plain = CellAttributes::blank();
    let mut writer = CellWriter::new(rt.alloc(), &plain);
    writer.push_cell("a", &plain).expect(&rt, "memory");
    writer.push_cell("\u{304b}", &plain).expect(&rt, "memory");
    let clear = Change::ClearToEndOfLine(ColorAttribute::Default);
    writer.push_change(clear).expect(&rt, "memory");
    writer.push_cell("b", &plain).expect(&rt, "memory");
    let changes = writer.finish().expect(&rt, "memory");
    assert_eq!(rt; changes.len(), 3);
    assert!(rt; is_text(changes.get(0), "a\u{304b}"));
    assert!(rt; is_text(changes.get(2), "b"));
}

#[test]
fn prefixes_of_texts(rt: HostRuntime) {
    assert_eq!(rt; split_plain("ab", 9), ("ab", ""));
    assert_eq!(rt; split_plain("abc", 2), ("ab", "c"));
    assert_eq!(rt; split_plain("abe\u{301}", 9), ("ab", "e\u{301}"));
    assert_eq!(rt; split_plain("\u{304b}", 9), ("", "\u{304b}"));
    assert_eq!(rt; split_first_cluster("e\u{301}f"), Some(("e\u{301}", "f")));
    assert_eq!(rt; split_first_cluster(""), None);
}
