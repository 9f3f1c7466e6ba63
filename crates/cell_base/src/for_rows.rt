//! Functions of cells that rows need. For the crates that keep rows, not for users.
ghost use Rattle.std.specs.Prelude.{◌≡◌, ◌≤◌, None, OnOk, IsOk, OnErr};
ghost use Rattle.cell_base.specs.Attributes.{Attributes};
ghost use Rattle.cell_base.specs.CellContent.{cell_of, blank_cell};

use crate::cell::{Cell, is_wide};
use crate::cell_attributes::CellAttributes;
use std::alloc::AllocError;

/// The columns that the cell of a cluster of `width` columns takes: 1 or 2.
#[inline(always)]
pub fn columns_for(text: &str, width: usize) -> usize
    requires { width ≤ 2 }
    ensures value { (attributes : Attributes) → result ≡ (cell_of text.now width attributes).width }
    ensures some { 1 ≤ result }
    ensures most { result ≤ 2 }
{
    if is_wide(text, width) { 2 } else { 1 }
}

/// Makes the cell a space with attributes. It is refused only where these have a link, and the cell stays as it was
/// then.
pub fn set_blank(cell: &mut Cell, attrs: &CellAttributes) -> Result<(), AllocError>
    ensures done { OnOk result (cell.new ≡ blank_cell attrs.now) }
    ensures succeeds { attrs.now.hyperlink ≡ None → IsOk result }
    ensures refused { OnErr result (cell.new ≡ cell.old) }
{
    cell.set_ascii(b' ', attrs)
}
