//! Calls of lines, surfaces, terminals and watched readers that take no memory. か takes two columns.
use crate::sink::Sink;
use crate::terminals::Plain;
use cell_base::{CellAttributes, CursorVisibility, ProgramWidth};
use cell_line::{CellRef, Line};
use cell_surface::Surface;
use std::io::Write as _;
use terminal::Watched;

// Whether a cell begins in that column, has that width and text, and plain attributes.
fn is_cell(cell: Option<CellRef<'_>>, column: usize, width: usize, text: &str) -> bool {
    let Some(cell) = cell else {
        return false;
    };
    let plain = CellAttributes::blank();
    cell.cell_index() == column
        && cell.width() == width
        && cell.str() == text
        && *cell.attrs() == plain
}

// Whether the cells of `aかb` are lent in turn, and end.
fn are_texts_lent(line: &Line) -> bool {
    let mut cells = line.visible_cells();
    is_cell(cells.next(), 0, 1, "a")
        && is_cell(cells.next(), 1, 2, "\u{304b}")
        && is_cell(cells.next(), 3, 1, "b")
        && cells.next().is_none()
        && cells.next().is_none()
}

// Whether the cells of `かか` are lent in turn, and end.
fn are_cells_lent(line: &Line) -> bool {
    let mut cells = line.visible_cells();
    is_cell(cells.next(), 0, 2, "\u{304b}")
        && is_cell(cells.next(), 2, 2, "\u{304b}")
        && cells.next().is_none()
}

/// The cells of a line of texts and of one of cells, and whether they show the same.
pub fn are_lines_asked(line: &Line, cells: &Line) -> bool {
    let (Some(one), Some(other)) = (line.get_cell(1), cells.get_cell(2)) else {
        return false;
    };
    let Some(first) = line.get_cell(0) else {
        return false;
    };
    are_texts_lent(line)
        && are_cells_lent(cells)
        && one.same_contents(&other)
        && !one.same_contents(&first)
        && line.current_seqno() == 3
}

// Whether it is the surface of the text `abcdef`.
fn is_surface(surface: &Surface<ProgramWidth>) -> bool {
    let plain = CellAttributes::blank();
    let is_shown = surface.dimensions() == (4, 3)
        && surface.cursor_position() == (2, 1)
        && surface.cursor_shape().is_none()
        && surface.cursor_visibility() == CursorVisibility::Visible;
    is_shown
        && surface.title() == ""
        && *surface.pen() == plain
        && surface.current_seqno() == 1
        && surface.screen_lines().len() == 3
}

/// Calls on a surface, also after changes that are dropped.
pub fn is_surface_asked(surface: &mut Surface<ProgramWidth>) -> bool {
    let is_right = is_surface(surface) && surface.has_changes(0) && !surface.has_changes(1);
    surface.flush_changes_older_than(9);
    surface.flush_changes_older_than(1);
    is_right && is_surface(surface) && !surface.is_failed()
}

/// Calls on a terminal with nothing held that has a reply.
pub fn is_terminal_asked(terminal: &mut Plain) -> bool {
    let is_done = terminal.feed(b"").is_ok() && terminal.settle().is_ok();
    terminal.forget_before(1);
    let replies = terminal.take_replies();
    let none = terminal.take_replies();
    let is_replied = replies.as_slice() == b"\x1b[1;3R".as_slice() && none.is_empty();
    let is_shown = terminal.surface().cursor_position() == (2, 0);
    is_done && is_replied && is_shown && terminal.current_number() == 1 && !terminal.is_failed()
}

/// A reader and a writer that are watched.
pub fn is_watched(sink: Sink) -> bool {
    let mut bytes = b"ab".as_slice();
    let mut reader = Watched::new(&mut bytes);
    let mut buffer = [0u8; 4];
    let is_new = !reader.failed() && reader.reads() == 0;
    let is_read = matches!(reader.read(&mut buffer), Ok(2)) && reader.reads() == 1;
    let mut writer = Watched::new(sink);
    let is_written = writer.write(b"a").is_ok() && !writer.failed() && writer.reads() == 0;
    is_new && is_read && !reader.failed() && is_written
}
