//! Large inputs of a terminal: chunks of 5 KB and 1 MB in one call, a held run, a command, replies and a list as long.
ghost use Rattle.cell_base.specs.ScreenSize.{IsScreenSize};

use cell_base::Intensity;
use std::process::Abort;
use terminal::{ProgramWidth, Terminal};

/// A terminal of the program's widths.
pub type Plain = Terminal<ProgramWidth>;

/// A text `count` times.
pub fn times<R: Abort + AllocGlobal>(rt: &R, text: &[u8], count: usize) -> Vec<u8> {
    let mut bytes = Vec::new(rt.alloc());
    for _ in 0..count {
        bytes.extend_from_slice(text).expect(rt, "memory");
    }
    bytes
}

/// A terminal that was fed bytes in one chunk.
pub fn fed<R: Abort + AllocGlobal>(rt: &R, width: usize, height: usize, bytes: &[u8]) -> Plain
    requires size { IsScreenSize width height }
{
    let mut terminal = Terminal::new(rt.alloc(), width, height, ProgramWidth).expect(rt, "memory");
    assert!(rt; terminal.feed(bytes).is_ok());
    terminal
}

// A terminal that was fed bytes in chunks of 4,096.
fn fed_in_chunks<R: Abort + AllocGlobal>(rt: &R, width: usize, height: usize, bytes: &[u8]) -> Plain
    requires size { IsScreenSize width height }
{
    let mut terminal = Terminal::new(rt.alloc(), width, height, ProgramWidth).expect(rt, "memory");
    for chunk in bytes.chunks(4096) {
        assert!(rt; terminal.feed(chunk).is_ok());
    }
    terminal
}

/// The terminal shows these rows, its cursor is in this position, and `number` changes led there.
pub fn assert_shows<R: Abort + AllocGlobal>(
    rt: &R,
    terminal: &Plain,
    rows: &str,
    position: (usize, usize),
    number: usize,
) {
    let shown = terminal
        .surface()
        .screen_chars_to_string()
        .expect(rt, "memory");
    assert!(rt; shown.as_str() == rows);
    assert_eq!(rt; terminal.surface().cursor_position(), position);
    assert_eq!(rt; terminal.current_number(), number);
}

// A row of 80 columns with a text at its start.
fn row<R: Abort + AllocGlobal>(rt: &R, text: &[u8]) -> Vec<u8> {
    let mut row = times(rt, text, 1);
    let blanks = 80usize.saturating_sub(text.len());
    row.extend_from_slice(&times(rt, b" ", blanks))
        .expect(rt, "memory");
    row.push(b'\n').expect(rt, "memory");
    row
}

/// Three rows of 80 columns with these texts at their start, and the third one blank.
pub fn rows<R: Abort + AllocGlobal>(rt: &R, first: &[u8], second: &[u8]) -> String {
    let mut rows = row(rt, first);
    rows.extend_from_slice(&row(rt, second))
        .expect(rt, "memory");
    rows.extend_from_slice(&row(rt, b"")).expect(rt, "memory");
    String::from_utf8(rows).expect(rt, "text")
}

// The update for number 0 of a terminal, which must show these rows.
fn update_of<R: Abort + AllocGlobal>(
    rt: &R,
    mut terminal: Plain,
    rows: &str,
    number: usize,
) -> Vec<u8> {
    assert_shows(rt, &terminal, rows, (0, 2), number);
    terminal.update(0).expect(rt, "memory").1
}

// A text of `count` lines, each of three changes, leads to these rows, in one chunk and in several.
fn assert_scrolls<R: Abort + AllocGlobal>(rt: &R, line: &[u8], count: usize, rows: &str) {
    let bytes = times(rt, line, count);
    let number = count.saturating_mul(3);
    let update = update_of(rt, fed(rt, 80, 3, &bytes), rows, number);
    let other = update_of(rt, fed_in_chunks(rt, 80, 3, &bytes), rows, number);
    assert!(rt; update.as_slice() == other.as_slice());
}

#[test]
fn chunks_of_5_kilobytes(rt: HostRuntime) {
    assert_scrolls(&rt, b"abc\r\n", 1024, rows(&rt, b"abc", b"abc").as_str());
}

/// A line of 1,022 letters and its end: 12 rows of 80 columns, and 62 columns.
pub fn long_line<R: Abort + AllocGlobal>(rt: &R) -> Vec<u8> {
    let mut line = times(rt, b"abcdefghij", 102);
    line.extend_from_slice(b"ab\r\n").expect(rt, "memory");
    line
}

/// The rows after long lines on 80 columns and 3 rows.
pub fn rows_of_long_lines<R: Abort + AllocGlobal>(rt: &R) -> String {
    let full = times(rt, b"abcdefghij", 8);
    let last = times(
        rt,
        b"abcdefghijabcdefghijabcdefghijabcdefghijabcdefghijabcdefghijab",
        1,
    );
    rows(rt, &full, &last)
}

#[test]
fn chunks_of_a_megabyte(rt: HostRuntime) {
    let expected = rows_of_long_lines(&rt);
    assert_scrolls(&rt, &long_line(&rt), 1024, expected.as_str());
}

// A run of 1,048,576 characters fills 13,107 rows of 80 columns and 16 columns of the next one.
fn rows_of_run<R: Abort + AllocGlobal>(rt: &R) -> String {
    let mut full = times(rt, b"abcdefghijklmnop", 5);
    full.push(b'\n').expect(rt, "memory");
    let mut rows = times(rt, &full, 23);
    rows.extend_from_slice(&row(rt, b"abcdefghijklmnop"))
        .expect(rt, "memory");
    String::from_utf8(rows).expect(rt, "text")
}

// A run is held, and is one change once it is ended.
fn assert_held<R: Abort + AllocGlobal>(rt: &R, mut terminal: Plain, rows: &str) {
    assert_eq!(rt; terminal.current_number(), 0);
    assert_eq!(rt; terminal.surface().cursor_position(), (0, 0));
    assert!(rt; terminal.settle().is_ok());
    assert_shows(rt, &terminal, rows, (16, 23), 1);
}

#[test]
fn runs_of_a_megabyte(rt: HostRuntime) {
    let run = times(&rt, b"abcdefghijklmnop", 65_536);
    let rows = rows_of_run(&rt);
    assert_held(&rt, fed(&rt, 80, 24, &run), rows.as_str());
    assert_held(&rt, fed_in_chunks(&rt, 80, 24, &run), rows.as_str());
}

// A title in its command.
fn command_of<R: Abort + AllocGlobal>(rt: &R, title: &[u8]) -> Vec<u8> {
    let mut command = times(rt, b"\x1b]2;", 1);
    command.extend_from_slice(title).expect(rt, "memory");
    command.extend_from_slice(b"\x1b\\").expect(rt, "memory");
    command
}

// The terminal has this title, and so has a viewer that reads its update.
fn assert_titled<R: Abort + AllocGlobal>(rt: &R, mut terminal: Plain, title: &[u8]) {
    assert!(rt; terminal.surface().title().as_bytes() == title);
    let (_, update) = terminal.update(0).expect(rt, "memory");
    let viewer = fed(rt, 4, 1, &update);
    assert!(rt; viewer.surface().title().as_bytes() == title);
}

#[test]
fn titles_of_70_kilobytes(rt: HostRuntime) {
    let title = times(&rt, b"long title", 7_000);
    let command = command_of(&rt, &title);
    assert_titled(&rt, fed(&rt, 4, 1, &command), &title);
    assert_titled(&rt, fed_in_chunks(&rt, 4, 1, &command), &title);
}

#[test]
fn replies_of_66_kilobytes(rt: HostRuntime) {
    let requests = times(&rt, b"\x1b[6n", 11_000);
    let mut terminal = fed(&rt, 4, 1, &requests);
    let replies = terminal.take_replies();
    assert!(rt; replies.as_slice() == times(&rt, b"\x1b[1;1R", 11_000).as_slice());
    assert!(rt; terminal.take_replies().is_empty());
    assert_eq!(rt; terminal.current_number(), 0);
}

// Of a list the first 256 parts are kept: 128 numbers, each of which makes the pen bold.
#[test]
fn lists_of_10_000_numbers(rt: HostRuntime) {
    let mut bytes = times(&rt, b"\x1b[", 1);
    bytes
        .extend_from_slice(&times(&rt, b"1;", 10_000))
        .expect(&rt, "memory");
    bytes.extend_from_slice(b"mx").expect(&rt, "memory");
    let mut terminal = fed(&rt, 3, 1, &bytes);
    assert!(rt; terminal.settle().is_ok());
    assert_shows(&rt, &terminal, "x  \n", (1, 0), 129);
    assert_eq!(rt; terminal.surface().pen().intensity(), Intensity::Bold);
}
