//! Screens of 300 columns and 100 rows: updates, patches, a new size, and long lines.
use crate::large::{Plain, fed, times};
use cell_base::{CellAttributes, ProgramWidth};
use cell_line::Line;
use std::process::Abort;

// The update of a letter in line 50 and column 150, counted from 1, for a viewer that has seen all changes before it.
const LETTER: &[u8] = b"\x1b[50;150Hx\0";

// The patch of that letter: the title, the letter, the cursor's position, the pen and the cursor.
const PATCH: &[u8] =
    b"\x1b]2;\x1b\\\x1b[50;150H\x1b[0m\x1b]8;;\x1b\\x\0\x1b[50;151H\x1b[0m\x1b]8;;\x1b\\\x1b[?25h";

// Both show the same rows, with the cursor at the same position.
fn assert_same<R: Abort + AllocGlobal>(rt: &R, terminal: &Plain, viewer: &Plain) {
    let rows = terminal
        .surface()
        .screen_chars_to_string()
        .expect(rt, "memory");
    let shown = viewer
        .surface()
        .screen_chars_to_string()
        .expect(rt, "memory");
    assert!(rt; rows.as_str() == shown.as_str());
    let position = terminal.surface().cursor_position();
    assert_eq!(rt; viewer.surface().cursor_position(), position);
}

// A terminal of 300 columns and 100 rows full of letters, with the cursor at home.
fn full<R: Abort + AllocGlobal>(rt: &R) -> Plain {
    let mut text = times(rt, b"abcdefghijklmno", 2_000);
    text.extend_from_slice(b"\x1b[H").expect(rt, "memory");
    fed(rt, 300, 100, &text)
}

// A viewer that reads the bytes of an update or a patch shows the terminal's rows and cursor.
fn assert_read<R: Abort + AllocGlobal>(rt: &R, terminal: &Plain, viewer: &mut Plain, bytes: &[u8]) {
    assert!(rt; viewer.feed(bytes).is_ok());
    assert_same(rt, terminal, viewer);
}

// The update for a viewer that has seen the changes before `since` has the number `number`, and brings the viewer up
// to date.
fn take_update<R: Abort + AllocGlobal>(
    rt: &R,
    terminal: &mut Plain,
    viewer: &mut Plain,
    since: usize,
    number: usize,
) -> Vec<u8> {
    let (now, bytes) = terminal.update(since).expect(rt, "memory");
    assert_eq!(rt; now, number);
    assert_read(rt, terminal, viewer, &bytes);
    bytes
}

#[test]
fn updates_of_a_large_screen(rt: HostRuntime) {
    let mut terminal = full(&rt);
    let mut viewer = fed(&rt, 300, 100, b"");
    let whole = take_update(&rt, &mut terminal, &mut viewer, 0, 2);
    assert!(rt; whole.len() < 40_000);
    assert!(rt; terminal.feed(b"\x1b[50;150Hx").is_ok());
    let letter = take_update(&rt, &mut terminal, &mut viewer, 2, 4);
    assert!(rt; letter.as_slice() == LETTER);
}

// The patch from the screen of a viewer of the same size brings it up to date.
fn take_patch<R: Abort + AllocGlobal>(rt: &R, terminal: &mut Plain, viewer: &mut Plain) -> Vec<u8> {
    let (width, height) = terminal.surface().dimensions();
    let (other_width, other_height) = viewer.surface().dimensions();
    let is_same = !viewer.is_failed() && other_width == width && other_height == height;
    assert!(rt; is_same);
    let (_, bytes) = terminal.patch(&*viewer).expect(rt, "memory");
    assert_read(rt, terminal, viewer, &bytes);
    bytes
}

// A patch of a letter in a full screen.
#[test]
fn patches_of_a_large_screen(rt: HostRuntime) {
    let mut terminal = full(&rt);
    let mut viewer = full(&rt);
    assert!(rt; terminal.feed(b"\x1b[50;150Hx").is_ok());
    let letter = take_patch(&rt, &mut terminal, &mut viewer);
    assert!(rt; letter.as_slice() == PATCH);
}

// The patch from a blank screen to a full one prints each cell once.
#[test]
fn patches_of_a_whole_screen(rt: HostRuntime) {
    let mut terminal = full(&rt);
    let mut viewer = fed(&rt, 300, 100, b"");
    let whole = take_patch(&rt, &mut terminal, &mut viewer);
    assert!(rt; whole.len() < 40_000);
}

#[test]
fn large_screens_of_another_size(rt: HostRuntime) {
    let mut terminal = full(&rt);
    let mut viewer = full(&rt);
    assert!(rt; terminal.resize(200, 120).is_ok());
    assert!(rt; viewer.resize(200, 120).is_ok());
    assert_same(&rt, &terminal, &viewer);
    assert_eq!(rt; terminal.surface().dimensions(), (200, 120));
    let blank = take_patch(&rt, &mut terminal, &mut viewer);
    assert!(rt; blank.len() < 40);
}

#[test]
fn lines_of_70_000_columns(rt: HostRuntime) {
    let bytes = times(&rt, b"abcdefg", 10_000);
    let text = String::from_utf8(bytes).expect(&rt, "text");
    let attrs = CellAttributes::blank();
    let line = Line::from_text(rt.alloc(), text.as_str(), &attrs, 1, &ProgramWidth).expect(
        &rt, "memory",
    );
    assert_eq!(rt; line.len(), 70_000);
    assert!(rt; line.as_str().expect(&rt, "memory").as_str() == text.as_str());
    assert!(rt; line.get_cell(69_999).is_some_and(|cell| cell.str() == "g"));
    let lines = line.wrap(300, 2).expect(&rt, "memory");
    assert_eq!(rt; lines.len(), 234);
}
