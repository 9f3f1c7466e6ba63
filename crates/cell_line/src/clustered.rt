//! Cells that are set on a clustered row.
ghost use Rattle.std.specs.Prelude.{◌≡◌, ◌≤◌, [], length, OnOk};
ghost use Rattle.cell_base.specs.CellContent.{cell_of};
ghost use Rattle.cell_edits.specs.RowEdits.{padded, with_cell};

use cell_base::for_rows::columns_for;
use cell_base::{Cell, CellAttributes};
use clustered_row::ClusteredRow;
use std::alloc::{AllocError, Global};

// Drops all columns, and their memory.
pub(crate) fn forget(alloc: Global, row: &mut ClusteredRow)
    ensures { row.new ≡ [] }
{
    *row = ClusteredRow::new(alloc, 0);
}

// Appends plain blanks up to `width` columns, where the row has fewer.
#[inline(always)]
fn pad(row: &mut ClusteredRow, width: usize) -> Result<(), AllocError>
    ensures row { OnOk result (row.new ≡ padded width row.old) }
    ensures len { OnOk result (width ≤ length row.new) }
{
    if row.len() < width {
        row.resize(width)?;
    }
    Ok(())
}

// Sets the cell of a cluster of `width` columns at column `at`; pads a row that ends before the cell's end.
#[inline(always)]
pub(crate) fn set_cluster(
    row: &mut ClusteredRow,
    at: usize,
    text: &str,
    width: usize,
    attrs: &CellAttributes,
) -> Result<(), AllocError>
    requires { width ≤ 2 }
    ensures { OnOk result (row.new ≡ with_cell row.old at (cell_of text.now width attrs.now)) }
{
    let Some(end) = at.checked_add(columns_for(text, width)) else {
        return Err(AllocError);
    };
    pad(row, end)?;
    row.set_cell(at, text, width, attrs)?;
    Ok(())
}

// Sets a cell at column `at`; pads a row that ends before the cell's end.
pub(crate) fn set_cell(row: &mut ClusteredRow, at: usize, cell: &Cell) -> Result<(), AllocError>
    ensures { OnOk result (row.new ≡ with_cell row.old at cell.now) }
{
    set_cluster(row, at, cell.str(), cell.width(), cell.attrs())?;
    Ok(())
}
