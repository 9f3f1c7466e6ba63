//! How a line keeps its columns: as cells, or clustered.
ghost use Rattle.std.specs.Prelude.{◌≡◌, true, length, vec_len, if◌then◌else◌, IfOk, OnOk, OnErr};
ghost use Rattle.cell_base.specs.CellContent.{row_of_cells};
ghost use Rattle.cell_edits.specs.ShownCells.{lent_cells};
ghost use Rattle.cell_views.specs.StoredCells.{stored_row};
ghost use Rattle.cell_line.specs.LineContent.{IsRefused};
ghost use Rattle.cell_line.specs.LineCalls.{compress_for_scrollback};
ghost use Rattle.cell_line.specs.StoredLines.{IsKept};

use crate::line::Line;
use crate::stored_line::StoredLine;
use cell_base::Cell;
use cell_edits::row::settle as settle_cells;
use cell_views::StoredCells;
use clustered_row::ClusteredRow;
use std::alloc::{AllocError, Global};
use std::mem;

// Sets the cells to the cells that the columns show, one for each: of a clustered line the cells of its row. A refusal
// doesn't change what they show.
pub(crate) fn settle(
    alloc: Global,
    is_clustered: bool,
    row: &ClusteredRow,
    cells: &mut Vec<Cell>,
) -> Result<(), AllocError>
    ensures done { OnOk result
        (cells.new.items ≡ lent_cells (if is_clustered then row.now else row_of_cells cells.old.items)) }
    ensures row { OnOk result
        (row_of_cells cells.new.items ≡ (if is_clustered then row.now else row_of_cells cells.old.items)) }
    ensures refused { OnErr result (row_of_cells cells.new.items ≡ row_of_cells cells.old.items) }
    ensures clustered { OnErr result (is_clustered ≡ true → cells.new.items ≡ cells.old.items) }
{
    if is_clustered {
        *cells = row.to_cells(alloc)?;
        return Ok(());
    }
    settle_cells(cells)?;
    Ok(())
}

impl Line {
    // The stored form of the columns.
    #[inline(always)]
    pub(crate) fn stored_cells(&self) -> StoredCells<'_>
        ensures { stored_row result ≡ self.now.columns }
    {
        if self.is_clustered {
            StoredCells::Clustered(&self.row)
        } else {
            StoredCells::Cells(&self.cells)
        }
    }

    /// The stored form of the columns, and whether the line is clustered.
    pub fn stored(&self) -> StoredLine<'_>
        ensures { IsKept self.now.clustered self.now.columns result }
    {
        if self.is_clustered {
            StoredLine::Clustered(self.row.stored())
        } else {
            StoredLine::Cells(&self.cells)
        }
    }

    // Takes the columns out as cells. A clustered line stays as it is.
    pub(crate) fn open(&mut self) -> Result<Vec<Cell>, AllocError>
        ensures cells { IfOk result (λ cells. row_of_cells cells.items ≡ self.old.columns) }
        ensures len { IfOk result (λ cells. vec_len cells ≡ length self.old.columns) }
        ensures rest { self.new ≡ record self.old { columns = self.new.columns } }
    {
        if self.is_clustered {
            return self.row.to_cells(self.alloc);
        }
        Ok(mem::replace(&mut self.cells, Vec::new(self.alloc)))
    }

    // Replaces the columns by cells. A clustered line stays clustered.
    pub(crate) fn close(&mut self, cells: Vec<Cell>) -> Result<(), AllocError>
        ensures done { OnOk result (self.new ≡ record self.old { columns = row_of_cells cells.items }) }
        ensures refused { OnErr result (IsRefused self.old self.new) }
    {
        if self.is_clustered {
            self.row = ClusteredRow::from_cells(self.alloc, &cells)?;
            return Ok(());
        }
        self.cells = cells;
        Ok(())
    }

    /// Makes the line clustered, for the scrollback; see `stored`. It shows the same as before.
    pub fn compress_for_scrollback(&mut self) -> Result<(), AllocError>
        ensures done { OnOk result (self.new ≡ compress_for_scrollback self.old) }
        ensures refused { OnErr result (IsRefused self.old self.new) }
    {
        if self.is_clustered {
            return Ok(());
        }
        self.row = ClusteredRow::from_cells(self.alloc, &self.cells)?;
        self.is_clustered = true;
        self.cells = Vec::new(self.alloc);
        Ok(())
    }
}
