//! Calls that make the line another one.
use crate::attributes;
use crate::call::{Call, cell_of};
use crate::fault::Fault;
use crate::lines::Page;
use crate::sheet::Sheet;
use cell_base::{Cell, CellAttributes, ProgramWidth};
use cell_line::Line;
use std::mem;

// The cells of the words from a position on.
fn cells_from(call: &Call<'_>, index: usize, attrs: &CellAttributes) -> Result<Vec<Cell>, Fault> {
    let mut cells = Vec::new(call.alloc());
    for word in call.words_from(index) {
        cells.push(cell_of(call.alloc(), word, attrs)?)?;
    }
    Ok(cells)
}

// The line of a text.
fn line_of_text(call: &Call<'_>, pen: &CellAttributes, number: usize) -> Result<Line, Fault> {
    let text = call.text(1)?;
    let made = if call.word(0) == "from_text" {
        Line::from_text(call.alloc(), text.as_str(), pen, number, &ProgramWidth)
    } else {
        let text = text.as_str();
        Line::from_text_with_wrapped_last_col(call.alloc(), text, pen, number, &ProgramWidth)
    };
    Ok(made?)
}

// The line that a maker makes of its arguments.
fn made(call: &Call<'_>, pen: &CellAttributes, sheet: &mut Sheet) -> Result<Line, Fault> {
    let alloc = call.alloc();
    let first = call.number(1, sheet);
    match call.word(0) {
        "new" => Ok(Line::new(alloc, first)),
        "with_width" => Ok(Line::with_width(alloc, first, call.last_number(sheet))?),
        "from_cells" => Ok(Line::from_cells(alloc, cells_from(call, 2, pen)?, first)),
        _ => {
            let cell = call.cell(2, pen)?;
            Ok(Line::with_width_and_cell(alloc, first, cell, call.last_number(sheet))?)
        }
    }
}

// The attributes of the words after the name.
fn pen_of(call: &Call<'_>) -> Result<CellAttributes, Fault> {
    let mut pen = CellAttributes::blank();
    for word in call.words_from(1) {
        attributes::set(call.alloc(), word, &mut pen)?;
    }
    Ok(pen)
}

// Says a row's text, and whether it goes on in the next.
fn say_row(row: &Line, sheet: &mut Sheet) -> Result<(), Fault> {
    sheet.quoted(row.as_str()?.as_str());
    sheet.word_if(row.last_cell_was_wrapped(), "wrapped");
    Ok(())
}

// The rows of a line that is wrapped.
fn wrap(page: &mut Page, call: &Call<'_>, sheet: &mut Sheet) -> Result<(), Fault> {
    let line = mem::replace(&mut page.line, Line::new(call.alloc(), 0));
    page.rows = line.wrap(call.number(1, sheet), call.number(2, sheet))?;
    for row in &page.rows {
        say_row(row, sheet)?;
    }
    Ok(())
}

// One of the lines that were cut off.
fn picked(page: &Page, index: usize) -> Result<Line, Fault> {
    match page.rows.get(index) {
        Some(row) => Ok(row.try_clone()?),
        None => Err(Fault::Number),
    }
}

// Cuts the line, and keeps the part after the cut.
fn split_off(page: &mut Page, call: &Call<'_>, sheet: &mut Sheet) -> Result<(), Fault> {
    let after = page
        .line
        .split_off(call.number(1, sheet), call.number(2, sheet))?;
    page.rows.push(after)?;
    Ok(())
}

/// Makes a call that gives another line or other attributes: the makers of lines by their names; `pen WORDS` for the
/// attributes of cells and texts that later calls are given; `columns_as_line START END`; `wrap WIDTH NUMBER`, which
/// writes the rows, and `split_off COLUMN NUMBER`: after either, `row INDEX` makes one of its lines the line. Returns
/// whether it is one of these calls.
pub fn make(page: &mut Page, call: &Call<'_>, sheet: &mut Sheet) -> Result<bool, Fault> {
    match call.word(0) {
        "pen" => page.pen = pen_of(call)?,
        "wrap" => wrap(page, call, sheet)?,
        "row" => page.line = picked(page, call.number(1, sheet))?,
        "split_off" => split_off(page, call, sheet)?,
        "columns_as_line" => {
            let columns = call.number(1, sheet)..call.number(2, sheet);
            page.line = page.line.columns_as_line(columns)?;
        }
        "from_text" | "from_text_with_wrapped_last_col" => {
            page.line = line_of_text(call, &page.pen, call.last_number(sheet))?;
        }
        "new" | "with_width" | "with_width_and_cell" | "from_cells" => {
            page.line = made(call, &page.pen, sheet)?;
        }
        _ => return Ok(false),
    }
    Ok(true)
}
