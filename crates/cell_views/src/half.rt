//! What an edge leaves of a wide cell that it cuts.
ghost use Rattle.std.specs.Prelude.{◌≡◌, ◌+◌, ◌<◌, ◌^◌};

use crate::cell_ref::CellRef;
use cell_base::CellAttributes;

// A blank with the attributes of the wide cell, in the column that is left of it.
#[derive(Clone, Copy)]
pub(crate) struct Half<'a> {
    pub(crate) cell_index: usize,
    pub(crate) attrs: &'a CellAttributes,
    ghost within: { cell_index + 1 < 2 ^ 64 },
}

impl<'a> Half<'a> {
    ghost use Rattle.cell_views.specs.CellRefView.{shown_by};
    ghost use Rattle.cell_views.specs.Halves.{half_cell};

    // The blank as a visible cell.
    #[inline(always)]
    pub(crate) fn as_cell_ref(&self) -> CellRef<'a>
        ensures { shown_by result ≡ half_cell self.now }
    {
        CellRef::ClusterRef {
            cell_index: self.cell_index,
            text: " ",
            width: 1,
            attrs: self.attrs,
        }
    }
}
