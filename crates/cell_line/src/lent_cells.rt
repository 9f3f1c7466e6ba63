//! The cells that a line lends.
ghost use Rattle.std.specs.Prelude.{◌≡◌};
ghost use Rattle.std.specs.Borrow.{sem};
ghost use Rattle.cell_line.specs.LentCells.{LendsItems};

use cell_base::Cell;

// A mutable borrow of all cells.
pub(crate) fn slice_of(cells: &mut Vec<Cell>) -> &mut [Cell]
    ensures* writes_back { sem 𝓛 (LendsItems cells.entry result) }
    ensures value { result.now ≡ cells.old.items }
{
    cells.as_mut_slice()
}
