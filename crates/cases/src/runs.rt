//! Columns of a line in a range that it has.
ghost use Rattle.std.specs.Prelude.{◌≤◌, length, IfOk};

use crate::call::Call;
use crate::fault::Fault;
use crate::lines::say_outcome;
use crate::questions::say_cell;
use crate::sheet::Sheet;
use cell_base::{CellAttributes, ProgramWidth};
use cell_line::Line;
use cell_line::row_writing::{set_blanks, set_plain, set_text};
use std::ops::Range;
use text_clusters::split_plain;

// The range of columns of a call's first two arguments, if the line has these columns.
fn columns_of(line: &Line, call: &Call<'_>, sheet: &mut Sheet) -> Result<Range<usize>, Fault>
    ensures order { IfOk result (λ columns. columns.start ≤ columns.end) }
    ensures within { IfOk result (λ columns. columns.end ≤ length line.now.columns) }
{
    let start = call.number(1, sheet);
    let end = call.number(2, sheet);
    if end < start || line.len() < end {
        return Err(Fault::Number);
    }
    Ok(start..end)
}

/// `set_blanks START END` sets blanks with the pen's attributes; `set_text START END TEXT` sets a text with them,
/// `set_plain START END TEXT` the printable ASCII characters at its start, and both write the rest of the text.
pub fn set(
    line: &mut Line,
    call: &Call<'_>,
    pen: &CellAttributes,
    sheet: &mut Sheet,
) -> Result<(), Fault> {
    let columns = columns_of(line, call, sheet)?;
    if call.word(0) == "set_blanks" {
        say_outcome(set_blanks(line, columns, pen), sheet);
        return Ok(());
    }
    let text = call.text(3)?;
    if call.word(0) == "set_plain" {
        let (prefix, left) = split_plain(text.as_str(), columns.end - columns.start);
        set_plain(line, columns.start, prefix, pen)?;
        sheet.quoted(left);
        return Ok(());
    }
    let (_, left) = set_text(line, columns, text.as_str(), pen, &ProgramWidth)?;
    sheet.quoted(left);
    Ok(())
}

/// `visible_cells_between START END`: the cells that can be seen in a range of columns.
pub fn say_between(line: &Line, call: &Call<'_>, sheet: &mut Sheet) -> Result<(), Fault> {
    let columns = columns_of(line, call, sheet)?;
    for cell in line.visible_cells_between(columns) {
        say_cell(&cell, call, sheet)?;
    }
    Ok(())
}
