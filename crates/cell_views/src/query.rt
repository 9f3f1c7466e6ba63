//! Queries on the cells of a row.
ghost use Rattle.std.specs.Prelude.{◌≡◌, ◌≤◌, ◌↔◌, ◌++◌, length, drop, not, IsTrue, OnOk, filter, string_bytes};
ghost use Rattle.std.specs.List.{list_any, list_all};
ghost use Rattle.std.specs.Str.{bytes_eq};
ghost use Rattle.std.specs.Option.{option_map};
ghost use Rattle.cell_base.specs.Attributes.{plain};
ghost use Rattle.cell_base.specs.CellContent.{row_of_cells};
ghost use Rattle.cell_base.specs.Row.{space};
ghost use Rattle.cell_base.specs.SameAttributes.{same_attributes};
ghost use Rattle.cell_base.specs.WholeRow.{IsWhole};
ghost use Rattle.cell_edits.specs.VisibleCells.{visible_cells, visible_from, first_of, contents, cell_at};
ghost use Rattle.cell_edits.specs.VisibleCells.{cells_between, texts_joined, has_link, is_whitespace_row, ends_wrapped};
ghost use Rattle.cell_views.specs.CellRefView.{shown_by};
ghost use Rattle.cell_edits.specs.Links.{has_implicit_link};
ghost use Rattle.cell_views.specs.StoredCells.{stored_row};

use crate::cell_ref::CellRef;
use crate::stored_cells::StoredCells;
use crate::visible_cells::VisibleCellIter;
use cell_base::Cell;
use cell_edits::row::{has_implicit, is_split, last_read};
use clustered_row::ClusteredRow;
use std::alloc::AllocError;

/// Whether the text is one space.
pub fn is_space(text: &str) -> bool
    ensures { result ≡ bytes_eq text.now space }
{
    text == " "
}

// The first visible cell from a column on.
fn first_from(cells: &[Cell], column: usize) -> Option<CellRef<'_>>
    requires { column ≤ length cells.now }
    ensures { option_map shown_by result ≡ first_of (visible_from column (row_of_cells (drop column cells.now))) }
{
    VisibleCellIter::from_column(&cells[column..], column).next()
}

// The cell that begins at the column, of cells that are read from the left. Of the cells before it,
// the function reads only the wide ones right before it.
fn cell_read_at(cells: &[Cell], column: usize) -> Option<CellRef<'_>>
    ensures { option_map shown_by result ≡ cell_at column (row_of_cells cells.now) }
{
    if cells.len() <= column {
        return None;
    }
    if is_split(cells, column) {
        return None;
    }
    first_from(cells, column)
}

// The cell that begins at the column, of a clustered row.
fn clustered_cell_at(row: &ClusteredRow, column: usize) -> Option<CellRef<'_>>
    ensures { option_map shown_by result ≡ cell_at column row.now }
{
    match row.cell_at(column) {
        None => None,
        Some(cell) => Some(CellRef::from_clustered(&cell)),
    }
}

/// The cell that begins at the column.
pub fn cell_at(cells: StoredCells<'_>, column: usize) -> Option<CellRef<'_>>
    ensures { option_map shown_by result ≡ cell_at column (stored_row cells.entry) }
{
    match cells {
        StoredCells::Cells(cells) => cell_read_at(cells, column),
        StoredCells::Clustered(row) => clustered_cell_at(row, column),
    }
}

/// Appends the texts of the cells that begin from `start` on and before `end` to the text.
pub fn push_texts(
    text: &mut String,
    cells: StoredCells<'_>,
    start: usize,
    end: usize,
) -> Result<(), AllocError>
    ensures { OnOk result
        (string_bytes text.new
        ≡ string_bytes text.old ++ texts_joined (cells_between start end (stored_row cells.entry))) }
{
    for cell in VisibleCellIter::new(cells) {
        let column = cell.cell_index();
        if start <= column && column < end {
            text.push_str(cell.str())?;
        }
    }
    Ok(())
}

/// Appends the texts of the cells to the text.
pub fn push_all_texts(text: &mut String, cells: StoredCells<'_>) -> Result<(), AllocError>
    ensures { OnOk result
        (string_bytes text.new ≡ string_bytes text.old ++ texts_joined (visible_cells (stored_row cells.entry))) }
{
    for cell in VisibleCellIter::new(cells) {
        text.push_str(cell.str())?;
    }
    Ok(())
}

/// Whether a cell has a link.
pub fn has_link(cells: StoredCells<'_>) -> bool
    ensures { result ≡ has_link (stored_row cells.entry) }
{
    for cell in VisibleCellIter::new(cells) {
        if cell.attrs().hyperlink().is_some() {
            return true;
        }
    }
    false
}

/// Whether a cell has a link that was found in a text.
pub fn has_implicit_link(cells: StoredCells<'_>) -> bool
    ensures { result ≡ has_implicit_link (stored_row cells.entry) }
{
    for cell in VisibleCellIter::new(cells) {
        if has_implicit(cell.attrs()) {
            return true;
        }
    }
    false
}

/// Whether each text is one space.
pub fn is_whitespace(cells: StoredCells<'_>) -> bool
    ensures { result ≡ is_whitespace_row (stored_row cells.entry) }
{
    for cell in VisibleCellIter::new(cells) {
        if !is_space(cell.str()) {
            return false;
        }
    }
    true
}

// Whether the line goes on after the cell that is read last.
fn reads_on(cells: &[Cell]) -> bool
    ensures { result ≡ ends_wrapped (visible_cells (row_of_cells cells.now)) }
{
    !cells.is_empty() && cells[last_read(cells)].attrs().wrapped()
}

/// Whether the line goes on after the last cell.
pub fn ends_wrapped(cells: StoredCells<'_>) -> bool
    ensures { result ≡ ends_wrapped (visible_cells (stored_row cells.entry)) }
{
    match cells {
        StoredCells::Cells(cells) => reads_on(cells),
        StoredCells::Clustered(row) => row.ends_wrapped(),
    }
}

// Whether the visible cells have the same contents, each in turn.
fn same_contents(cells: StoredCells<'_>, other: StoredCells<'_>) -> bool
    ensures value { IsTrue result
        ↔ (contents (visible_cells (stored_row cells.entry)) ≡ contents (visible_cells (stored_row other.entry))) }
    ensures whole { IsWhole (stored_row cells.entry) }
    ensures other_whole { IsWhole (stored_row other.entry) }
{
    let mut theirs = VisibleCellIter::new(other);
    for cell in VisibleCellIter::new(cells) {
        match theirs.next() {
            None => return false,
            Some(their_cell) => {
                if !cell.same_contents(&their_cell) {
                    return false;
                }
            }
        }
    }
    match theirs.next() {
        None => true,
        Some(_) => false,
    }
}

/// Whether the columns are the same.
pub fn same_columns(cells: StoredCells<'_>, other: StoredCells<'_>) -> bool
    ensures { IsTrue result ↔ (stored_row cells.entry ≡ stored_row other.entry) }
{
    same_contents(cells, other)
}
