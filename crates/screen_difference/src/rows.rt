//! Rows that are compared.
ghost use Rattle.std.specs.Prelude.{◌≡◌, ◌+◌, ◌<◌, ◌≤◌, ◌^◌, length, OnOk};
ghost use Rattle.cell_base.specs.WholeRow.{IsWhole};
ghost use Rattle.screen_difference.specs.Drawing.{with_all};
ghost use Rattle.screen_difference.specs.FreshCells.{placed, row_fresh};
ghost use Rattle.screen_difference.specs.ShownCells.{columns_fresh};

use crate::difference_writer::DifferenceWriter;
use crate::fast::unequal_part;
use crate::fresh_cells::write_cells;
use crate::shown_cells::ShownCells;
use cell_line::Line;
use std::alloc::AllocError;

// Writes the fresh cells of `count` columns of a line, from `other_x` on, against the old line's from `x` on.
fn write_columns<'a>(
    writer: &mut DifferenceWriter<'a>,
    row: usize,
    x: usize,
    old: &Line,
    other_x: usize,
    new: &'a Line,
    count: usize,
) -> Result<(), AllocError>
    requires within { x + count ≤ length old.now.columns }
    requires other_within { other_x + count ≤ length new.now.columns }
    requires small { x + count < 2 ^ 64 }
    requires other_small { other_x + count < 2 ^ 64 }
    requires whole { IsWhole old.now.columns }
    requires other_whole { IsWhole new.now.columns }
    ensures { OnOk result
        (writer.new
        ≡ with_all writer.old (placed row (columns_fresh x other_x count old.now.columns new.now.columns))) }
{
    if count == 0 {
        return Ok(());
    }
    let olds = ShownCells::new(x, old.visible_cells_between(x..x + count));
    let news = new.visible_cells_between(other_x..other_x + count);
    write_cells(writer, row, x, olds, news)?;
    Ok(())
}

/// Writes the fresh cells of some columns of a line, from `other_x` on, against the cells of the old
/// line from `x` on.
pub(crate) fn write_row<'a>(
    writer: &mut DifferenceWriter<'a>,
    row: usize,
    x: usize,
    old: &Line,
    other_x: usize,
    new: &'a Line,
    width: usize,
) -> Result<(), AllocError>
    ensures { OnOk result
        (writer.new ≡ with_all writer.old (placed row (row_fresh x other_x width old.now.columns new.now.columns))) }
{
    let count = width
        .min(old.len().saturating_sub(x))
        .min(new.len().saturating_sub(other_x));
    if count == 0 {
        return Ok(());
    }
    if let Some((passed, left)) = unequal_part(x, old, other_x, new, count) {
        return write_columns(writer, row, x + passed, old, other_x + passed, new, left);
    }
    write_columns(writer, row, x, old, other_x, new, count)
}
