//! The stored form of a row.
ghost use Rattle.std.specs.Prelude.{◌≡◌, length};
ghost use Rattle.cell_base.specs.WholeRow.{IsWhole};
ghost use Rattle.cell_views.specs.StoredCells.{stored_row};

use cell_base::Cell;
use clustered_row::ClusteredRow;

/// The stored form of a line's row: cells, or one text and runs of equal attributes.
#[derive(Clone, Copy)]
pub enum StoredCells<'a> {
    /// Read from the left: the cell stored after a wide one is ignored, and a wide cell with none
    /// after it is a blank with its attributes.
    Cells(&'a [Cell]),
    /// A clustered row: one text and runs of equal attributes.
    Clustered(&'a ClusteredRow),
}

impl<'a> StoredCells<'a> {
    /// How many columns the row has. `whole` is a law of each stored row: after the first column of a wide cell comes
    /// its second one, with the same attributes, and there is no other second column.
    #[inline(always)]
    pub fn len(&self) -> usize
        ensures value { result ≡ length (stored_row self.now) }
        ensures whole { IsWhole (stored_row self.now) }
    {
        match self {
            StoredCells::Cells(cells) => cells.len(),
            StoredCells::Clustered(row) => row.len(),
        }
    }
}
