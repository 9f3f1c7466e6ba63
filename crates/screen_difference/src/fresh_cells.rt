//! Cells that are compared with old ones, and written where these don't show them.
ghost use Rattle.std.specs.Prelude.{◌≡◌, ◌+◌, ◌<◌, ◌^◌, [], ◌∷◌, length, IfOk, OnOk};
ghost use Rattle.cell_views.specs.CellRefView.{shown_by};
ghost use Rattle.cell_views.specs.Region.{region_left};
ghost use Rattle.screen_difference.specs.Drawing.{with_all};
ghost use Rattle.screen_difference.specs.FreshCells.{placed};
ghost use Rattle.screen_difference.specs.ShownCells.{from_column, passed_fresh, shown_left, side_by_side, Fits};
ghost use Rattle.screen_difference.specs.ShownCells.{HaveRoom};

use crate::difference_writer::DifferenceWriter;
use crate::fast::write_plain;
use crate::shown_cells::ShownCells;
use cell_line::{CellRef, RegionIter};
use std::alloc::AllocError;

/// Writes a cell, unless the old cells show it.
pub(crate) fn write_cell<'a>(
    writer: &mut DifferenceWriter<'a>,
    row: usize,
    column: usize,
    olds: &mut ShownCells<'_>,
    cell: &CellRef<'a>,
) -> Result<(), AllocError>
    requires fits { Fits olds.old }
    requires room { column + (shown_by cell.now).cell.width < 2 ^ 64 }
    ensures written { OnOk result (writer.new ≡ with_all writer.old (placed row (
        passed_fresh (shown_left olds.old) (record (shown_by cell.now) { column = column } ∷ [])))) }
    ensures passed { shown_left olds.new ≡ from_column (column + 1) (shown_left olds.old) }
    ensures fits { Fits olds.new }
{
    if olds.shows(column, cell) {
        return Ok(());
    }
    writer.push(row, column, cell)
}

// Writes the fresh cells among the next new cells: a run of plain cells, or one other cell. Returns how many columns
// the compared cells take; 0 where no new cell is left.
fn write_next<'a>(
    writer: &mut DifferenceWriter<'a>,
    row: usize,
    column: usize,
    olds: &mut ShownCells<'_>,
    news: &mut RegionIter<'a>,
) -> Result<usize, AllocError>
    requires room { HaveRoom column (region_left news.old) }
    requires fits { Fits olds.old }
    ensures written { IfOk result (λ count.
        with_all writer.new (placed row (
        passed_fresh (shown_left olds.new) (side_by_side (column + count) (region_left news.new))))
        ≡ with_all writer.old (placed row (
        passed_fresh (shown_left olds.old) (side_by_side column (region_left news.old))))) }
    ensures room { IfOk result (λ count. HaveRoom (column + count) (region_left news.new)) }
    ensures small { IfOk result (λ count. 0 < count → column + count < 2 ^ 64) }
    ensures fewer { IfOk result (λ count.
        0 < count → length (region_left news.new) < length (region_left news.old)) }
    ensures none { IfOk result (λ count. count ≡ 0 → region_left news.new ≡ []) }
    ensures fits { Fits olds.new }
{
    if let Some(count) = write_plain(writer, row, column, olds, news)? {
        return Ok(count);
    }
    let Some(cell) = news.next() else {
        return Ok(0);
    };
    write_cell(writer, row, column, olds, &cell)?;
    Ok(cell.width())
}

/// Writes those of the new cells that the old cells don't show. The new cells are side by side from a column on.
pub(crate) fn write_cells<'a>(
    writer: &mut DifferenceWriter<'a>,
    row: usize,
    mut column: usize,
    mut olds: ShownCells<'_>,
    mut news: RegionIter<'a>,
) -> Result<(), AllocError>
    requires room { HaveRoom column (region_left news) }
    requires fits { Fits olds }
    ensures { OnOk result (writer.new ≡ with_all writer.old (placed row (
        passed_fresh (shown_left olds.entry) (side_by_side column (region_left news.entry))))) }
{
    loop {
        let count = write_next(writer, row, column, &mut olds, &mut news)?;
        if count == 0 {
            return Ok(());
        }
        column += count;
    }
}
