//! Rows made of cells, and cells made of rows.
ghost use Rattle.std.specs.Prelude.{◌≡◌, ◌+◌, ◌-◌, ◌<◌, ◌++◌, length, IfOk, OnOk};
ghost use Rattle.cell_base.specs.CellContent.{row_of_cells};
ghost use Rattle.cell_base.specs.Row.{set_columns};
ghost use Rattle.cell_edits.specs.CellList.{cell_columns};
ghost use Rattle.cell_edits.specs.ShownCells.{lent_cells};
ghost use Rattle.clustered_row.specs.FirstCells.{first_columns};
ghost use Rattle.clustered_row.specs.VisibleCells.{shown_by};

use crate::row::ClusteredRow;
use crate::visible::ClusteredCell;
use cell_base::Cell;
use std::alloc::{AllocError, Global};

// Appends a visible cell, and after a wide one a blank with its attributes.
fn push_cell(
    alloc: Global,
    cells: &mut Vec<Cell>,
    cell: &ClusteredCell<'_>,
) -> Result<(), AllocError>
    ensures { OnOk result
        (cells.new.items ≡ cells.old.items ++ lent_cells (cell_columns (shown_by cell.now).cell)) }
{
    let attributes = cell.attributes.try_clone()?;
    cells.push(Cell::new_grapheme_with_width(alloc, cell.text, cell.width(), attributes)?)?;
    if !cell.is_wide {
        return Ok(());
    }
    cells.push(Cell::blank_with_attrs(cell.attributes.try_clone()?))?;
    Ok(())
}

impl ClusteredRow {
    /// The row of cells, read from the left: the cell stored after a wide one is ignored, and a wide cell with none
    /// after it is a blank with its attributes.
    pub fn from_cells(alloc: Global, cells: &[Cell]) -> Result<ClusteredRow, AllocError>
        ensures { IfOk result (λ row. row ≡ row_of_cells cells.now) }
    {
        let mut row = ClusteredRow::new(alloc, cells.len());
        let mut at = 0;
        while at < cells.len() {
            at = row.put(at, &cells[at])?;
        }
        Ok(row)
    }

    // Sets a cell's columns from `at` on, as far as they are there. Returns the column after them.
    fn put(&mut self, at: usize, cell: &Cell) -> Result<usize, AllocError>
        requires { at < length self.old }
        ensures len { length self.new ≡ length self.old }
        ensures row { IfOk result
            (λ next. self.new ≡ set_columns self.old at (first_columns cell.now (length self.old - at))) }
        ensures next { IfOk result (λ next. next ≡ at + length (first_columns cell.now (length self.old - at))) }
    {
        let columns = cell.width();
        if self.width - at < columns {
            self.set_plain_elsewhere(at, " ", cell.attrs())?;
            return Ok(at + 1);
        }
        self.set_cell(at, cell.str(), columns, cell.attrs())?;
        Ok(at + columns)
    }

    /// The cells of the row, one for each column: after each wide one comes a blank with its attributes.
    pub fn to_cells(&self, alloc: Global) -> Result<Vec<Cell>, AllocError>
        ensures cells { IfOk result (λ cells. cells.items ≡ lent_cells self.now) }
        ensures row { IfOk result (λ cells. row_of_cells cells.items ≡ self.now) }
    {
        let mut cells = Vec::new(alloc);
        for cell in self.visible_cells() {
            push_cell(alloc, &mut cells, &cell)?;
        }
        Ok(cells)
    }
}
