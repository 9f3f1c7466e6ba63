//! Edits of lines: a refused one leaves a lawful line with its number. か takes two columns.
use crate::cells::{LONG, linked};
use crate::lines::{is_line, line_of};
use crate::outcome::{Outcome, Stop, all, refused};
use crate::tally::Tally;
use cell_base::{Cell, CellAttributes, Hyperlink, ProgramWidth};
use cell_line::Line;
use cell_line::row_writing::{set_blanks, set_text};
use std::alloc::{AllocError, Global};
use std::io::Write;

// What each edit leaves of `aかb`.
const LEFT: [&str; 14] = [
    "a\u{304b}b  ",
    "  ",
    "a\u{304b}b     x",
    "x\u{304b}b",
    "ax b",
    "a\u{304b}bxyzxyz",
    "ax\u{304b}b",
    "\u{304b}b ",
    "\u{304b}b",
    "\u{304b}b ",
    "axxb",
    "a\u{304b}b",
    "a\u{304b}bxyzxyz",
    "a\u{304b}b",
];

const NUMBER: usize = 3;

const NEXT: usize = 5;

// Whether the visible cells of a line end, and each takes one column or two, up to the last.
fn is_lawful(line: &Line) -> bool {
    let mut column = 0usize;
    for cell in line.visible_cells() {
        if cell.cell_index() != column || cell.width() < 1 || 2 < cell.width() {
            return false;
        }
        column = column.saturating_add(cell.width());
    }
    column == line.len()
}

// Edits that are given a cell.
fn edit_by_cell(line: &mut Line, step: usize, cell: Cell) -> Result<(), AllocError> {
    match step {
        2 => line.set_cell(9, cell, NEXT),
        3 => line.set_cell_clearing_image_placements(0, cell, NEXT),
        6 => line.insert_cell(1, cell, 8, NEXT),
        _ => line.fill_range(1..3, &cell, NEXT),
    }
}

// Edits that are given attributes, and a text or none.
fn edit_by_text(line: &mut Line, step: usize) -> Result<(), AllocError> {
    let attrs = CellAttributes::blank();
    match step {
        1 => line.resize_and_clear(2, NEXT, attrs),
        4 => line.set_cell_grapheme(1, "x", 1, attrs, NEXT),
        5 => line.overlay_text_with_attribute(4, "xyzxyz", attrs, NEXT, &ProgramWidth),
        _ => line.erase_cell_with_margin(0, 4, NEXT, attrs),
    }
}

// Edits that are given numbers, and one that is given nothing.
fn edit_by_numbers(line: &mut Line, step: usize) -> Result<(), AllocError> {
    match step {
        0 => line.resize(6, NEXT),
        7 => line.erase_cell(0, NEXT),
        8 => line.remove_cell(0, NEXT),
        11 => line.set_last_cell_was_wrapped(true, NEXT),
        _ => line.compress_for_scrollback(),
    }
}

// One of the edits of a line; the last takes no number.
fn edit(alloc: Global, line: &mut Line, step: usize) -> Result<Result<(), AllocError>, Stop> {
    Ok(match step {
        2 | 3 | 6 | 10 => {
            let cell = Cell::new(alloc, 'x', CellAttributes::blank(), &ProgramWidth)?;
            edit_by_cell(line, step, cell)
        }
        1 | 4 | 5 | 9 => edit_by_text(line, step),
        12 => line.append_line(line_of(alloc, "xyzxyz", NUMBER)?, NEXT),
        _ => edit_by_numbers(line, step),
    })
}

// Whether a line is lawful, with the number that it had.
fn stands(line: &Line) -> bool {
    is_lawful(line) && line.current_seqno() == NUMBER
}

// Whether an edit leaves a line of that text.
fn is_edited(alloc: Global, step: usize, text: &str) -> Outcome {
    let mut line = line_of(alloc, "a\u{304b}b", NUMBER)?;
    if edit(alloc, &mut line, step)?.is_err() {
        return refused(Stop::Memory, stands(&line));
    }
    is_line(&line, text, if step == 13 { NUMBER } else { NEXT })
}

// Each edit of a line.
fn edits(alloc: Global) -> Outcome {
    for (step, text) in LEFT.iter().enumerate() {
        if !is_edited(alloc, step, text)? {
            return Ok(false);
        }
    }
    Ok(true)
}

// A long text in a cell.
fn long_texts(alloc: Global) -> Outcome {
    let mut line = line_of(alloc, "abc", NUMBER)?;
    let attrs = CellAttributes::blank();
    let done = line.overlay_text_with_attribute(1, LONG, attrs, NEXT, &ProgramWidth);
    if done.is_err() {
        return refused(Stop::Memory, stands(&line));
    }
    is_line(
        &line,
        "a\u{1f469}\u{1f3ff}\u{200d}\u{1f91d}\u{200d}\u{1f469}\u{1f3fc}",
        NEXT,
    )
}

// A line in two.
fn split(alloc: Global) -> Outcome {
    let mut line = line_of(alloc, "a\u{304b}b", NUMBER)?;
    match line.split_off(2, NEXT) {
        Ok(rest) => all(&[is_line(&line, "a ", NUMBER), is_line(&rest, " b", NEXT)]),
        Err(_) => refused(Stop::Memory, stands(&line)),
    }
}

// A text in some columns, and blanks.
fn columns(alloc: Global) -> Outcome {
    let mut line = line_of(alloc, "abcdef", NUMBER)?;
    if line.len() != 6 {
        return Ok(false);
    }
    let attrs = CellAttributes::blank();
    match set_text(&mut line, 1..5, LONG, &attrs, &ProgramWidth) {
        Ok((column, left)) => Ok(column == 3 && left.is_empty() && is_lawful(&line)),
        Err(_) => refused(Stop::Memory, stands(&line)),
    }
}

// Blanks and blanks at the end.
fn blanks(alloc: Global) -> Outcome {
    let mut line = line_of(alloc, "abc   ", NUMBER)?;
    if line.len() != 6 {
        return Ok(false);
    }
    let attrs = CellAttributes::blank();
    let blank = set_blanks(&mut line, 1..2, &attrs).is_ok();
    if !blank || line.prune_trailing_blanks(NEXT).is_err() {
        return refused(Stop::Memory, stands(&line));
    }
    is_line(&line, "a c", NEXT)
}

// How many cells a line lends.
fn lent(line: &mut Line) -> Result<usize, AllocError> {
    let cells = line.cells_mut()?;
    Ok(cells.len())
}

// How many cells a line lends for changes of attributes.
fn lent_for_attributes(line: &mut Line) -> Result<usize, AllocError> {
    let cells = line.cells_mut_for_attr_changes_only()?;
    Ok(cells.len())
}

// Cells that are lent to be written.
fn lent_cells(alloc: Global) -> Outcome {
    let mut line = line_of(alloc, "a\u{304b}b", NUMBER)?;
    let (Ok(count), Ok(other_count)) = (lent(&mut line), lent_for_attributes(&mut line)) else {
        return refused(Stop::Memory, stands(&line));
    };
    Ok(count == 4 && other_count == 4)
}

// Links of a line that were found in its text.
fn found_links(alloc: Global) -> Outcome {
    let attrs = linked(alloc, Hyperlink::new_implicit(alloc, "u")?)?;
    let mut line = Line::from_text(alloc, "ab", &attrs, NUMBER, &ProgramWidth)?;
    let had_link = line.has_hyperlink();
    if line.invalidate_implicit_hyperlinks(NEXT).is_err() {
        return refused(Stop::Memory, stands(&line));
    }
    all(&[
        Ok(had_link && !line.has_hyperlink()),
        is_line(&line, "ab", NEXT),
    ])
}

/// Checks edits of lines.
pub fn check<W: Write>(alloc: Global, tally: &mut Tally<W>) {
    tally.take("edits of lines", edits(alloc));
    tally.take("long texts in lines", long_texts(alloc));
    tally.take("lines in two", split(alloc));
    tally.take("texts in columns", columns(alloc));
    tally.take("blanks in lines", blanks(alloc));
    tally.take("cells that are lent to be written", lent_cells(alloc));
    tally.take("links that were found", found_links(alloc));
}
