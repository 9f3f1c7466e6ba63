//! Surfaces and sequences of changes: queries of them, copies, and lists that are added.
use cell_surface::{
    Change, ChangeSequence, ColorAttribute, CursorShape, LineAttribute, Position, ProgramWidth,
    Surface,
};
use std::process::Abort;

type Plain = Surface<ProgramWidth>;

fn text_of<R: Abort + AllocGlobal>(rt: &R, text: &str) -> Change {
    Change::Text(String::from_str(rt.alloc(), text).expect(rt, "memory"))
}

fn surface_of<R: Abort + AllocGlobal>(rt: &R) -> Plain {
    Surface::new(rt.alloc(), 4, 3, ProgramWidth).expect(rt, "memory")
}

fn add<R: Abort>(rt: &R, surface: &mut Plain, change: Change) {
    surface.add_change(change).expect(rt, "memory");
}

// Whether the rows, each with a line feed, have this text.
fn shows<R: Abort>(rt: &R, surface: &Plain, rows: &str) -> bool {
    let shown = surface.screen_chars_to_string().expect(rt, "memory");
    shown.as_str() == rows
}

#[test]
fn what_is_asked_of_a_surface(rt: HostRuntime) {
    let mut surface = surface_of(&rt);
    assert_eq!(rt; surface.dimensions(), (4, 3));
    assert_eq!(rt; surface.cursor_shape(), None);
    assert!(rt; !surface.has_changes(0));
    assert!(rt; surface.has_changes(1));
    add(
        &rt,
        &mut surface,
        Change::CursorShape(CursorShape::SteadyBar),
    );
    assert_eq!(rt; surface.cursor_shape(), Some(CursorShape::SteadyBar));
    assert!(rt; surface.has_changes(0));
    assert!(rt; !surface.has_changes(1));
    assert!(rt; surface.has_changes(2));
    assert!(rt; !surface.is_failed());
    surface.resize(2, 5).expect(&rt, "memory");
    assert_eq!(rt; surface.dimensions(), (2, 5));
}

#[test]
fn lines_of_a_surface(rt: HostRuntime) {
    let mut surface = surface_of(&rt);
    add(&rt, &mut surface, text_of(&rt, "ab\r\ncd"));
    add(
        &rt,
        &mut surface,
        Change::LineAttribute(LineAttribute::DoubleWidthLine),
    );
    let lines = surface.screen_lines();
    assert_eq!(rt; lines.len(), 3);
    assert!(rt; lines[0].is_single_width());
    assert!(rt; lines[1].is_double_width());
    assert_eq!(rt; lines[1].len(), 4);
    assert_eq!(rt; lines[1].current_seqno(), 0);
    assert_eq!(rt; &*lines[1].as_str().expect(&rt, "memory"), "cd  ");
}

#[test]
fn copies_of_surfaces(rt: HostRuntime) {
    let mut surface = surface_of(&rt);
    add(&rt, &mut surface, text_of(&rt, "ab"));
    add(
        &rt,
        &mut surface,
        Change::ClearToEndOfLine(ColorAttribute::PaletteIndex(1)),
    );
    let mut copy = surface.try_clone().expect(&rt, "memory");
    add(&rt, &mut copy, text_of(&rt, "c"));
    assert!(rt; shows(&rt, &surface, "ab  \n    \n    \n"));
    assert!(rt; shows(&rt, &copy, "abc \n    \n    \n"));
    assert_eq!(rt; surface.current_seqno(), 2);
    assert_eq!(rt; copy.current_seqno(), 3);
    assert_eq!(rt; copy.cursor_position(), (3, 0));
}

#[test]
fn changes_of_a_copy(rt: HostRuntime) {
    let mut surface = surface_of(&rt);
    add(&rt, &mut surface, text_of(&rt, "ab"));
    add(&rt, &mut surface, text_of(&rt, "c"));
    let copy = surface.try_clone().expect(&rt, "memory");
    let (number, changes) = copy.get_changes(1).expect(&rt, "memory");
    assert_eq!(rt; number, 2);
    assert_eq!(rt; changes.len(), 1);
}

#[test]
fn lists_of_changes_are_added_to_a_sequence(rt: HostRuntime) {
    let mut sequence = ChangeSequence::new(rt.alloc(), 3, 4, ProgramWidth);
    let mut changes = Vec::new(rt.alloc());
    changes.push(text_of(&rt, "abcde")).expect(&rt, "memory");
    changes
        .push(Change::CursorPosition {
            x: Position::Relative(2),
            y: Position::Relative(1),
        })
        .expect(&rt, "memory");
    sequence.add_changes(changes).expect(&rt, "memory");
    assert_eq!(rt; sequence.current_cursor_position(), (3, 2));
    assert_eq!(rt; sequence.render_height(), 2);
    assert_eq!(rt; sequence.consume().len(), 2);
}
