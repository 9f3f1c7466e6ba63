//! Calls that edit the line: their arguments are in the order of the Rust call, the number is last.
use crate::call::Call;
use crate::fault::Fault;
use crate::lines::say_outcome;
use crate::sheet::Sheet;
use cell_base::{Cell, CellAttributes, ProgramWidth};
use cell_line::Line;

// Calls that take a cell.
fn edit_by_cell(line: &mut Line, call: &Call<'_>, cell: Cell, sheet: &mut Sheet) {
    let number = call.last_number(sheet);
    let at = call.number(1, sheet);
    match call.word(0) {
        "set_cell" => say_outcome(line.set_cell(at, cell, number), sheet),
        "insert_cell" => {
            let margin = call.number_from_one(3, sheet);
            say_outcome(line.insert_cell(at, cell, margin, number), sheet);
        }
        _ => say_outcome(
            line.set_cell_clearing_image_placements(at, cell, number),
            sheet,
        ),
    }
}

// Calls that take attributes, and a text or none.
fn edit_by_attributes(
    line: &mut Line,
    call: &Call<'_>,
    text: &str,
    attrs: CellAttributes,
    sheet: &mut Sheet,
) {
    let number = call.last_number(sheet);
    let at = call.number(1, sheet);
    match call.word(0) {
        "set_cell_grapheme" => {
            let width = call.number_from_one(3, sheet).min(2);
            say_outcome(
                line.set_cell_grapheme(at, text, width, attrs, number),
                sheet,
            );
        }
        "overlay_text_with_attribute" => {
            let done = line.overlay_text_with_attribute(at, text, attrs, number, &ProgramWidth);
            say_outcome(done, sheet);
        }
        "erase_cell_with_margin" => {
            let margin = call.number_from_one(2, sheet);
            say_outcome(
                line.erase_cell_with_margin(at, margin, number, attrs),
                sheet,
            );
        }
        _ => say_outcome(line.resize_and_clear(at, number, attrs), sheet),
    }
}

// Calls that take numbers alone.
fn edit_by_numbers(line: &mut Line, call: &Call<'_>, sheet: &mut Sheet) -> bool {
    let number = call.last_number(sheet);
    match call.word(0) {
        "resize" => say_outcome(line.resize(call.number(1, sheet), number), sheet),
        "erase_cell" => say_outcome(line.erase_cell(call.number(1, sheet), number), sheet),
        "remove_cell" => say_outcome(line.remove_cell(call.number(1, sheet), number), sheet),
        "prune_trailing_blanks" => say_outcome(line.prune_trailing_blanks(number), sheet),
        "invalidate_implicit_hyperlinks" => {
            say_outcome(line.invalidate_implicit_hyperlinks(number), sheet);
        }
        _ => {
            let wrapped = call.word(1) == "true";
            say_outcome(line.set_last_cell_was_wrapped(wrapped, number), sheet);
        }
    }
    true
}

// Calls that set the line's number or its bits.
fn set_bits(line: &mut Line, call: &Call<'_>, sheet: &mut Sheet) -> bool {
    let number = call.last_number(sheet);
    match call.word(0) {
        "update_last_change_seqno" => line.update_last_change_seqno(number),
        "set_single_width" => line.set_single_width(number),
        "set_double_width" => line.set_double_width(number),
        "set_double_height_top" => line.set_double_height_top(number),
        _ => line.set_double_height_bottom(number),
    }
    true
}

// Appends the line of a text to the line.
fn append(line: &mut Line, call: &Call<'_>, sheet: &mut Sheet) -> Result<(), Fault> {
    let text = call.text(1)?;
    let other = Line::try_from_text(call.alloc(), text.as_str(), &ProgramWidth)?;
    say_outcome(line.append_line(other, call.last_number(sheet)), sheet);
    Ok(())
}

// Writes one of the cells that the line lends, and writes to the sheet how many cells it lends.
fn write_lent(line: &mut Line, at: usize, cell: Cell, sheet: &mut Sheet) -> Result<(), Fault> {
    let cells = line.cells_mut()?;
    sheet.show(&cells.len());
    match cells.get_mut(at) {
        Some(lent) => *lent = cell,
        None => sheet.fail(Fault::Number),
    }
    Ok(())
}

// Makes one of the cells italic that the line lends for changes of attributes, and writes to the sheet how many cells
// it lends.
fn slant_lent(line: &mut Line, at: usize, sheet: &mut Sheet) -> Result<(), Fault> {
    let cells = line.cells_mut_for_attr_changes_only()?;
    sheet.show(&cells.len());
    if let Some(lent) = cells.get_mut(at) {
        lent.attrs_mut().set_italic(true);
    }
    Ok(())
}

/// Makes a call that edits the line, by its name: its arguments in order, the number last. `cells_mut INDEX CELL`
/// writes a cell that is lent, `cells_mut_for_attr_changes_only INDEX` makes one italic; both write how many cells are
/// lent. Returns whether it is one of these calls.
pub fn edit(
    line: &mut Line,
    call: &Call<'_>,
    pen: &CellAttributes,
    sheet: &mut Sheet,
) -> Result<bool, Fault> {
    match call.word(0) {
        "compress_for_scrollback" => say_outcome(line.compress_for_scrollback(), sheet),
        "append_line" => append(line, call, sheet)?,
        "cells_mut" => write_lent(line, call.number(1, sheet), call.cell(2, pen)?, sheet)?,
        "cells_mut_for_attr_changes_only" => slant_lent(line, call.number(1, sheet), sheet)?,
        "fill_range" => {
            let columns = call.number(1, sheet)..call.number(2, sheet);
            let cell = call.cell(3, pen)?;
            say_outcome(
                line.fill_range(columns, &cell, call.last_number(sheet)),
                sheet,
            );
        }
        _ => return edit_more(line, call, pen, sheet),
    }
    Ok(true)
}

// The remaining calls, grouped by the arguments that they take.
fn edit_more(
    line: &mut Line,
    call: &Call<'_>,
    pen: &CellAttributes,
    sheet: &mut Sheet,
) -> Result<bool, Fault> {
    match call.word(0) {
        "resize"
        | "erase_cell"
        | "remove_cell"
        | "prune_trailing_blanks"
        | "invalidate_implicit_hyperlinks"
        | "set_last_cell_was_wrapped" => { Ok(edit_by_numbers(line, call, sheet)) }
        "update_last_change_seqno"
        | "set_single_width"
        | "set_double_width"
        | "set_double_height_top"
        | "set_double_height_bottom" => Ok(set_bits(line, call, sheet)),
        "set_cell" | "insert_cell" | "set_cell_clearing_image_placements" => {
            edit_by_cell(line, call, call.cell(2, pen)?, sheet);
            Ok(true)
        }
        "set_cell_grapheme"
        | "overlay_text_with_attribute"
        | "erase_cell_with_margin"
        | "resize_and_clear" => {
            let text = call.text(2)?;
            edit_by_attributes(line, call, text.as_str(), pen.try_clone()?, sheet);
            Ok(true)
        }
        _ => Ok(false),
    }
}
