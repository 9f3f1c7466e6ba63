//! The sizes of cells that are set.
ghost use Rattle.std.specs.Prelude.{◌≡◌, ◌≤◌, ◌==◌, true, length, OnOk};
ghost use Rattle.std.specs.List.{list_all};
ghost use Rattle.clustered_row.specs.Sizes.{is_plain};

use crate::cell_size::{CellSize, PLAIN};
use std::alloc::AllocError;

// The size of a cell of `len` bytes, which takes `columns` columns, one or two.
#[inline(always)]
pub(crate) fn size_of(len: usize, columns: usize) -> CellSize
    requires { 1 ≤ len }
    ensures len { result.len ≡ len }
    ensures wide { result.is_wide ≡ (columns == 2) }
{
    CellSize {
        len,
        is_wide: columns == 2,
    }
}

// Sets the list to the sizes of `count` plain cells.
pub(crate) fn fill_plain(sizes: &mut Vec<CellSize>, count: usize) -> Result<(), AllocError>
    ensures plain { OnOk result (list_all is_plain sizes.new.items ≡ true) }
    ensures count { OnOk result (length sizes.new.items ≡ count) }
{
    sizes.clear();
    sizes.resize(count, PLAIN)?;
    Ok(())
}
