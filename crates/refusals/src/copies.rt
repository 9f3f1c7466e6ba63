//! Copies of cells, attributes and changes: what was to become a copy and is refused stays as it was.
use crate::cells::{LONG, linked};
use crate::changes::{all_changes, are_equal};
use crate::outcome::{Outcome, Stop, refused};
use crate::tally::Tally;
use cell_base::{Cell, CellAttributes, Hyperlink, ProgramWidth};
use cell_line::Line;
use screen_change::cloned_changes;
use std::alloc::Global;
use std::io::Write;

// Attributes that become those with a link, which is shared: that takes no memory.
fn attributes(alloc: Global) -> Outcome {
    let attrs = linked(alloc, Hyperlink::new(alloc, "u")?)?;
    let mut copy = CellAttributes::blank();
    let is_made = copy.copy_from(&attrs).is_ok();
    Ok(is_made && copy == attrs)
}

// A cell that becomes one of a long text.
fn long_texts(alloc: Global) -> Outcome {
    let attrs = linked(alloc, Hyperlink::new(alloc, "u")?)?;
    let mut cell = Cell::new(alloc, 'a', CellAttributes::blank(), &ProgramWidth)?;
    match cell.set_grapheme_with_width(alloc, LONG, 2, &attrs) {
        Ok(()) => Ok(cell.str() == LONG && cell.width() == 2 && *cell.attrs() == attrs),
        Err(_) => {
            let stands = cell.str() == "a" && cell.width() == 1;
            refused(Stop::Memory, stands && cell.attrs().hyperlink().is_none())
        }
    }
}

// A cell that becomes one of a text of 15 bytes, which takes no memory.
fn short_texts(alloc: Global) -> Outcome {
    let mut cell = Cell::new_grapheme(alloc, LONG, CellAttributes::blank(), &ProgramWidth)?;
    let attrs = CellAttributes::blank();
    let text = "hellotherehello";
    let is_made = cell.set_grapheme_with_width(alloc, text, 1, &attrs).is_ok();
    Ok(is_made && cell.str() == text && cell.width() == 1)
}

// Whether a cell is the long text with these attributes.
fn is_long(cell: &Cell, attrs: &CellAttributes) -> bool {
    cell.str() == LONG && cell.width() == 2 && cell.attrs() == attrs
}

// A copy of the first cell of a line, a long text with a link.
fn is_lent(alloc: Global, line: &Line) -> Outcome {
    let Some(lent) = line.get_cell(0) else {
        return Ok(false);
    };
    match lent.as_cell(alloc) {
        Ok(copy) => Ok(is_long(&copy, lent.attrs())),
        Err(_) => refused(Stop::Memory, lent.str() == LONG && line.len() == 2),
    }
}

// A copy of a cell that a line of a text lends.
fn cells_of_texts(alloc: Global) -> Outcome {
    let attrs = linked(alloc, Hyperlink::new(alloc, "u")?)?;
    let line = Line::from_text(alloc, LONG, &attrs, 0, &ProgramWidth)?;
    is_lent(alloc, &line)
}

// A copy of a cell that a line of cells lends.
fn cells_of_lines(alloc: Global) -> Outcome {
    let attrs = linked(alloc, Hyperlink::new(alloc, "u")?)?;
    let cell = Cell::new_grapheme(alloc, LONG, attrs, &ProgramWidth)?;
    let line = Line::with_width_and_cell(alloc, 2, cell, 0)?;
    is_lent(alloc, &line)
}

// Copies of a change of each kind.
fn changes(alloc: Global) -> Outcome {
    let changes = all_changes(alloc)?;
    let copies = cloned_changes(alloc, &changes)?;
    Ok(are_equal(&copies, &changes))
}

/// Checks copies.
pub fn check<W: Write>(alloc: Global, tally: &mut Tally<W>) {
    tally.take("copied attributes", attributes(alloc));
    tally.take("cells that become long texts", long_texts(alloc));
    tally.take("cells that become short texts", short_texts(alloc));
    tally.take("copies of cells of texts", cells_of_texts(alloc));
    tally.take("copies of cells of lines", cells_of_lines(alloc));
    tally.take("copied changes", changes(alloc));
}
