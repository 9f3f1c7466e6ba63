//! The bytes that are written for a change.
use cell_base::{
    AttributeChange, CellAttributes, ColorAttribute, CursorVisibility, Hyperlink, Intensity,
    Position, SrgbaTuple,
};
use escape_stream::encode;
use screen_change::Change;
use std::process::Abort;
use std::rc::Rc;
use terminal_render::{RenderError, has_encoding, render};

// Whether these bytes are written for a change.
fn writes<R: Abort + AllocGlobal>(rt: &R, change: &Change, bytes: &str) -> bool {
    match render(rt.alloc(), change, 4, 3) {
        Ok(actions) => {
            let written = encode(rt.alloc(), actions.as_slice()).expect(rt, "memory");
            written.as_slice() == bytes.as_bytes() && has_encoding(change, 4, 3)
        }
        Err(_) => false,
    }
}

// Whether a change has no encoding.
fn is_refused<R: Abort + AllocGlobal>(rt: &R, change: &Change) -> bool {
    let rendered = render(rt.alloc(), change, 4, 3);
    matches!(rendered, Err(RenderError::NoSpelling)) && !has_encoding(change, 4, 3)
}

fn text<R: Abort + AllocGlobal>(rt: &R, text: &str) -> String {
    String::from_str(rt.alloc(), text).expect(rt, "memory")
}

fn position(x: Position, y: Position) -> Change {
    Change::CursorPosition { x, y }
}

fn scroll(region_size: usize, scroll_count: usize) -> Change {
    Change::ScrollRegionUp {
        first_row: 0,
        region_size,
        scroll_count,
    }
}

const PLAIN: &str = "\x1b[0m\x1b]8;;\x1b\\";

#[test]
fn texts_and_titles(rt: HostRuntime) {
    let words = Change::Text(text(&rt, "a\r\nb\tc"));
    assert!(rt; writes(&rt, &words, "a\0\r\nb\0 \0c\0"));
    let c1 = Change::Text(text(&rt, "a\u{9b}"));
    assert!(rt; is_refused(&rt, &c1));
    let title = Change::Title(text(&rt, "hi"));
    assert!(rt; writes(&rt, &title, "\x1b]2;hi\x1b\\"));
    let tab = Change::Title(text(&rt, "a\tb"));
    assert!(rt; is_refused(&rt, &tab));
}

#[test]
fn clears(rt: HostRuntime) {
    let line = Change::ClearToEndOfLine(ColorAttribute::PaletteIndex(1));
    assert!(rt; writes(&rt, &line, "\x1b[0m\x1b]8;;\x1b\\\x1b[41m\x1b[K"));
    let screen = Change::ClearScreen(ColorAttribute::Default);
    assert!(rt; writes(&rt, &screen, "\x1b[0m\x1b]8;;\x1b\\\x1b[2J\x1b[1;1H"));
    let below = Change::ClearToEndOfScreen(ColorAttribute::Default);
    assert!(rt; writes(&rt, &below, "\x1b[0m\x1b]8;;\x1b\\\x1b[J"));
}

#[test]
fn scrolls(rt: HostRuntime) {
    assert!(rt; writes(&rt, &scroll(3, 0), ""));
    assert!(rt; writes(&rt, &scroll(3, 2), "\x1b[2S"));
    assert!(rt; writes(&rt, &scroll(3, 9), "\x1b[3S"));
    assert!(rt; is_refused(&rt, &scroll(2, 1)));
    let down = Change::ScrollRegionDown {
        first_row: 0,
        region_size: 3,
        scroll_count: 1,
    };
    assert!(rt; writes(&rt, &down, "\x1b[T"));
}

#[test]
fn positions(rt: HostRuntime) {
    let next = position(Position::Absolute(0), Position::Relative(1));
    assert!(rt; writes(&rt, &next, "\x1b[B\x1b[1G"));
    let up = position(Position::Relative(0), Position::Relative(-2));
    assert!(rt; writes(&rt, &up, "\x1b[2A"));
    let nothing = position(Position::Relative(0), Position::Relative(0));
    assert!(rt; is_refused(&rt, &nothing));
    let last = position(Position::EndRelative(1), Position::Absolute(2));
    assert!(rt; writes(&rt, &last, "\x1b[3;4H"));
    let past = position(Position::Absolute(0), Position::Absolute(9));
    assert!(rt; writes(&rt, &past, "\x1b[3;1H"));
    let pending = position(Position::Absolute(4), Position::Absolute(0));
    assert!(rt; is_refused(&rt, &pending));
    let column = position(Position::Absolute(3), Position::Absolute(0));
    assert!(rt; writes(&rt, &column, "\x1b[1;4H"));
}

#[test]
fn attributes(rt: HostRuntime) {
    let plain = Change::AllAttributes(CellAttributes::blank());
    assert!(rt; writes(&rt, &plain, PLAIN));
    let bold = Change::Attribute(AttributeChange::Intensity(Intensity::Bold));
    assert!(rt; writes(&rt, &bold, "\x1b[1m"));
    let mut pen = CellAttributes::blank();
    pen.set_foreground(ColorAttribute::TrueColorWithDefaultFallback(SrgbaTuple(1, 2, 3, 4)));
    let colour = Change::AllAttributes(pen);
    assert!(rt; writes(&rt, &colour, "\x1b[0m\x1b[38:6::1:2:3:4m\x1b]8;;\x1b\\"));
    let hidden = Change::CursorVisibility(CursorVisibility::Hidden);
    assert!(rt; writes(&rt, &hidden, "\x1b[?25l"));
    let cursor = Change::CursorColor(ColorAttribute::Default);
    assert!(rt; is_refused(&rt, &cursor));
}

#[test]
fn links(rt: HostRuntime) {
    let link = Hyperlink::new(rt.alloc(), "http://example.com").expect(&rt, "memory");
    let mut pen = CellAttributes::blank();
    pen.set_hyperlink(Some(Rc::new(rt.alloc(), link).expect(&rt, "memory")));
    let linked = Change::AllAttributes(pen);
    assert!(rt; writes(&rt, &linked, "\x1b[0m\x1b]8;;http://example.com\x1b\\"));
    let found = Hyperlink::new_implicit(rt.alloc(), "u").expect(&rt, "memory");
    let found = Rc::new(rt.alloc(), found).expect(&rt, "memory");
    let implicit = Change::Attribute(AttributeChange::Hyperlink(Some(found)));
    assert!(rt; is_refused(&rt, &implicit));
}
