//! Parts of a line: its cells in a range, and its cells in rows of a width.
ghost use Rattle.std.specs.Prelude.{◌≡◌, ◌++◌, [], ◌∷◌, length, map, false, true, vec_len, IfOk, OnOk, filter};
ghost use Rattle.std.specs.Prelude.{if◌then◌else◌};
ghost use Rattle.cell_base.specs.CellContent.{row_of_cells};
ghost use Rattle.cell_base.specs.Row.{blank};
ghost use Rattle.cell_edits.specs.CellList.{ends_split, cell_columns};
ghost use Rattle.cell_line.specs.LineContent.{line_of};
ghost use Rattle.cell_edits.specs.VisibleCells.{visible_cells, cells_between, row_of_visible, row_end_wrapped};
ghost use Rattle.cell_edits.specs.VisibleCells.{contents};
ghost use Rattle.cell_views.specs.StoredCells.{stored_row};
ghost use Rattle.cell_line.specs.OpenRows.{breaks, rows_from, last_text, texts_up_to};

use crate::line::Line;
use crate::taken_cells::TakenCells;
use cell_base::{Cell, SequenceNo};
use cell_edits::row::{close_end, column_count, is_split, push_cell, set_end_wrapped};
use cell_views::query::is_space;
use cell_views::zones::is_kept;
use cell_views::{ReadCells, StoredCells, VisibleCellIter};
use std::alloc::{AllocError, Global};
use std::mem;

// The cells that begin from `start` on and before `end`.
pub(crate) fn between(
    alloc: Global,
    cells: StoredCells<'_>,
    start: usize,
    end: usize,
) -> Result<Vec<Cell>, AllocError>
    ensures { IfOk result
        (λ kept. row_of_cells kept.items ≡ row_of_visible (cells_between start end (stored_row cells.entry))) }
{
    match cells {
        StoredCells::Cells(cells) => read_between(alloc, cells, start, end),
        StoredCells::Clustered(row) => {
            let cells = row.to_cells(alloc)?;
            read_between(alloc, &cells, start, end)
        }
    }
}

// The cells between two columns, which are read from the left.
fn read_between(
    alloc: Global,
    cells: &[Cell],
    start: usize,
    end: usize,
) -> Result<Vec<Cell>, AllocError>
    ensures { IfOk result
        (λ kept. row_of_cells kept.items ≡ row_of_visible (cells_between start end (row_of_cells cells.now))) }
{
    if !is_split(cells, cells.len()) {
        return copy_between(alloc, cells, start, end);
    }
    let last = cells.len() - 1;
    let mut kept = copy_between(alloc, &cells[..last], start, end)?;
    if start <= last && last < end {
        push_blank_for(&mut kept, &cells[last])?;
    }
    Ok(kept)
}

// Appends a blank with the cell's attributes.
fn push_blank_for(cells: &mut Vec<Cell>, cell: &Cell) -> Result<(), AllocError>
    requires { ends_split cells.old.items ≡ false }
    ensures { OnOk result
        (row_of_cells cells.new.items ≡ row_of_cells cells.old.items ++ blank cell.now.attributes ∷ []) }
{
    push_cell(cells, Cell::blank_with_attrs(cell.attrs().try_clone()?))?;
    Ok(())
}

// Copies the cells between two columns, where no wide cell is stored last.
fn copy_between(
    alloc: Global,
    cells: &[Cell],
    start: usize,
    end: usize,
) -> Result<Vec<Cell>, AllocError>
    requires { ends_split cells.now ≡ false }
    ensures row { IfOk result
        (λ kept. row_of_cells kept.items ≡ row_of_visible (cells_between start end (row_of_cells cells.now))) }
    ensures whole { IfOk result (λ kept. ends_split kept.items ≡ false) }
{
    let mut kept = Vec::new(alloc);
    for (column, cell) in ReadCells::new(cells) {
        if start <= column && column < end {
            push_cell(&mut kept, cell.try_clone()?)?;
        }
    }
    Ok(kept)
}

// The column of the last cell whose text isn't one space.
fn last_text(cells: &[Cell]) -> Option<usize>
    ensures { result ≡ last_text (visible_cells (row_of_cells cells.now)) }
{
    let mut last = None;
    for cell in VisibleCellIter::new(StoredCells::Cells(cells)) {
        if !is_space(cell.str()) {
            last = Some(cell.cell_index());
        }
    }
    last
}

// Whether the cell doesn't fit in a row that has `there` columns already.
fn breaks(width: usize, there: usize, cell: &Cell) -> bool
    ensures { result ≡ breaks width there cell.now }
{
    there > 0 && there as u128 + column_count(cell) as u128 > width as u128
}

// Makes the open row a line that goes on in the next one, and begins an empty row.
fn close_row(
    alloc: Global,
    lines: &mut Vec<Line>,
    row: &mut Vec<Cell>,
    seqno: SequenceNo,
) -> Result<(), AllocError>
    ensures lines { OnOk result
        (lines.new.items ≡ lines.old.items ++ line_of seqno (row_end_wrapped true (row_of_cells row.old.items)) ∷ []) }
    ensures row { OnOk result (row.new.items ≡ []) }
{
    let mut full = mem::replace(row, Vec::new(alloc));
    set_end_wrapped(&mut full, true);
    lines.push(Line::from_cells(alloc, full, seqno))?;
    Ok(())
}

// Appends the cell to the open row, or begins a new row with it where it doesn't fit.
fn append_cell(
    alloc: Global,
    lines: &mut Vec<Line>,
    row: &mut Vec<Cell>,
    cell: Cell,
    width: usize,
    seqno: SequenceNo,
) -> Result<(), AllocError>
    requires { ends_split row.old.items ≡ false }
    ensures whole { OnOk result (ends_split row.new.items ≡ false) }
    ensures lines { OnOk result
        (lines.new.items
        ≡ (if breaks width (vec_len row.old) cell
        then lines.old.items ++ line_of seqno (row_end_wrapped true (row_of_cells row.old.items)) ∷ []
        else lines.old.items)) }
    ensures row { OnOk result
        (row_of_cells row.new.items
        ≡ (if breaks width (vec_len row.old) cell then cell_columns cell
        else row_of_cells row.old.items ++ cell_columns cell)) }
{
    if breaks(width, row.len(), &cell) {
        close_row(alloc, lines, row, seqno)?;
        push_cell(row, cell)?;
        return Ok(());
    }
    push_cell(row, cell)?;
    Ok(())
}

// The cells up to the last that isn't one space, in rows of a width.
pub(crate) fn rows(
    alloc: Global,
    mut cells: Vec<Cell>,
    width: usize,
    seqno: SequenceNo,
) -> Result<Vec<Line>, AllocError>
    ensures { IfOk result
        (λ lines. lines.items
        ≡ map (line_of seqno)
        (rows_from width [] (contents (texts_up_to (visible_cells (row_of_cells cells.items)))))) }
{
    close_end(&mut cells)?;
    fill_rows(alloc, cells, width, seqno)
}

fn fill_rows(
    alloc: Global,
    cells: Vec<Cell>,
    width: usize,
    seqno: SequenceNo,
) -> Result<Vec<Line>, AllocError>
    requires { ends_split cells.items ≡ false }
    ensures { IfOk result
        (λ lines. lines.items
        ≡ map (line_of seqno)
        (rows_from width [] (contents (texts_up_to (visible_cells (row_of_cells cells.items)))))) }
{
    let last = last_text(&cells);
    let mut lines = Vec::new(alloc);
    let mut open = Vec::new(alloc);
    for (column, cell) in TakenCells::new(cells) {
        if is_kept(last, column) {
            append_cell(alloc, &mut lines, &mut open, cell, width, seqno)?;
        }
    }
    lines.push(Line::from_cells(alloc, open, seqno))?;
    Ok(lines)
}
