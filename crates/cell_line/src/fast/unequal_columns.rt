//! Columns in which two lines differ.
ghost use Rattle.std.specs.Prelude.{IfSome};
ghost use Rattle.clustered_row.specs.EqualColumns.{AreEqualAround};

use crate::line::Line;

/// The range of columns outside of which two clustered lines show the same: its first column, and the column after its
/// last. No cell is cut at either. For lines that are stored alike it is empty; lines that are stored otherwise may
/// show the same in some of its columns. `None`: one is a line of cells, so take the general way.
pub fn unequal_columns(old: &Line, new: &Line) -> Option<(usize, usize)>
    ensures { IfSome result (λ columns. AreEqualAround columns.0 columns.1 old.now.columns new.now.columns) }
{
    if old.is_clustered && new.is_clustered {
        return Some(old.row.unequal_columns(&new.row));
    }
    None
}
