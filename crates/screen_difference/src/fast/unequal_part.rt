//! Equal columns at both ends of a part of two lines, which need not be compared cell by cell.
ghost use Rattle.std.specs.Prelude.{◌≡◌, ◌+◌, ◌≤◌, length, IfSome};
ghost use Rattle.screen_difference.specs.ShownCells.{columns_fresh};

use cell_line::Line;
use cell_line::fast::unequal_columns::unequal_columns;

// How many of the first columns of a part the caller skips, and how many it then compares: in all other columns of the
// part both lines show the same. `None`, also where the parts begin in different columns: take the general way, which
// compares all `count` columns.
pub(crate) fn unequal_part(
    x: usize,
    old: &Line,
    other_x: usize,
    new: &Line,
    count: usize,
) -> Option<(usize, usize)>
    requires within { x + count ≤ length old.now.columns }
    requires other_within { other_x + count ≤ length new.now.columns }
    ensures part { IfSome result (λ part. part.0 + part.1 ≤ count) }
    ensures fresh { IfSome result (λ part.
        columns_fresh (x + part.0) (other_x + part.0) part.1 old.now.columns new.now.columns
        ≡ columns_fresh x other_x count old.now.columns new.now.columns) }
{
    if x != other_x {
        return None;
    }
    let (start, stop) = unequal_columns(old, new)?;
    let passed = start.saturating_sub(x).min(count);
    let after = stop.saturating_sub(x).min(count);
    Some((passed, after - passed))
}
