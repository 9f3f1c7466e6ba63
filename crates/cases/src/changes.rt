//! Changes, as rows write them: a text in quotes, all attributes by their words, a position as `to X Y`, where `3` is
//! counted from the start, `<1` from the end, and `+1` and `-1` from the cursor; a colour as `Default` or its number in
//! the palette; a row's size and the cursor's shape by their names.
use crate::attributes;
use crate::fault::Fault;
use crate::sheet::Sheet;
use cell_base::{CellAttributes, ColorAttribute, CursorVisibility, Position};
use cell_line::Line;
use screen_change::Change;

fn say_color(name: &str, color: &ColorAttribute, sheet: &mut Sheet) {
    sheet.word(name);
    sheet.debug(color);
}

fn say_position(position: &Position, sheet: &mut Sheet) {
    sheet.word("");
    match position {
        Position::Absolute(at) => sheet.add_shown(at),
        Position::EndRelative(back) => {
            sheet.add(b"<");
            sheet.add_shown(back);
        }
        Position::Relative(way) => {
            if *way >= 0 {
                sheet.add(b"+");
            }
            sheet.add_shown(way);
        }
    }
}

fn say_positions(x: &Position, y: &Position, sheet: &mut Sheet) {
    sheet.word("to");
    say_position(x, sheet);
    say_position(y, sheet);
}

fn say_visibility(visibility: CursorVisibility, sheet: &mut Sheet) {
    sheet.word(match visibility {
        CursorVisibility::Hidden => "hide",
        CursorVisibility::Visible => "show",
    });
}

// A region of rows and how far they move.
fn say_scroll(name: &str, first_row: usize, size: usize, count: usize, sheet: &mut Sheet) {
    sheet.word(name);
    sheet.show(&first_row);
    sheet.show(&size);
    sheet.show(&count);
}

fn say_change(change: &Change, sheet: &mut Sheet) {
    match change {
        Change::Text(text) => sheet.quoted(text.as_str()),
        Change::Title(text) => {
            sheet.word("title");
            sheet.quoted(text.as_str());
        }
        Change::Attribute(attribute) => sheet.debug(attribute),
        Change::AllAttributes(attrs) => attributes::say(attrs, sheet),
        Change::ClearScreen(color) => say_color("clear_screen", color, sheet),
        Change::ClearToEndOfLine(color) => say_color("clear", color, sheet),
        Change::ClearToEndOfScreen(color) => say_color("clear_below", color, sheet),
        Change::CursorPosition { x, y } => say_positions(x, y, sheet),
        Change::CursorVisibility(visibility) => say_visibility(*visibility, sheet),
        Change::CursorShape(shape) => sheet.debug(shape),
        Change::CursorColor(color) => say_color("cursor_color", color, sheet),
        Change::LineAttribute(size) => sheet.debug(size),
        Change::ScrollRegionUp {
            first_row,
            region_size,
            scroll_count,
        } => say_scroll("scroll_up", *first_row, *region_size, *scroll_count, sheet),
        Change::ScrollRegionDown {
            first_row,
            region_size,
            scroll_count,
        } => say_scroll(
            "scroll_down",
            *first_row,
            *region_size,
            *scroll_count,
            sheet,
        ),
    }
}

/// Changes in turn.
pub fn say_all(changes: &[Change], sheet: &mut Sheet) {
    for change in changes {
        say_change(change, sheet);
    }
}

/// The changes that write the line where a pen has these attributes.
pub fn say(line: &Line, pen: &CellAttributes, sheet: &mut Sheet) -> Result<(), Fault> {
    let changes = line.changes(pen)?;
    say_all(changes.as_slice(), sheet);
    Ok(())
}
