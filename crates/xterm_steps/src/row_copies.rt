//! Edited copies of the cursor's line.
ghost use Rattle.std.specs.Prelude.{◌≡◌, ◌≤◌, ◌<◌, ◌+◌, ◌-◌, ◌++◌, false, IfOk, min};
ghost use Rattle.cell_base.specs.Attributes.{blank_of};
ghost use Rattle.cell_base.specs.Row.{set_columns};
ghost use Rattle.cell_edits.specs.RowEdits.{cut, cut_prefix, inserted};
ghost use Rattle.cell_surface.specs.Surface.{shown_by};
ghost use Rattle.screen_effects.specs.Effect.{cursor_row};
ghost use Rattle.xterm_table.specs.RowEdits.{active_column, blanks};

use cell_base::{CellAttributes, ColorAttribute, SEQ_ZERO, Widths};
use cell_line::Line;
use cell_line::row_writing::set_blanks;
use cell_surface::Surface;
use std::alloc::AllocError;

// Plain attributes with a background colour.
fn blank_attributes(color: ColorAttribute) -> CellAttributes
    ensures { result ≡ blank_of color }
{
    let mut attributes = CellAttributes::blank();
    attributes.set_background(color);
    attributes
}

/// The cursor's column; where a wrap is pending, the last one.
pub(crate) fn active_column<W: Widths + Drop>(surface: &Surface<W>) -> usize
    ensures { result ≡ active_column (shown_by surface.now).screen }
{
    let (width, _) = surface.dimensions();
    let (column, _) = surface.cursor_position();
    column.min(width.saturating_sub(1))
}

// The cursor's line.
fn cursor_line<W: Widths + Drop>(surface: &Surface<W>) -> &Line
    requires { surface.now.is_failed ≡ false }
    ensures { result.now.columns ≡ cursor_row (shown_by surface.now).screen }
{
    let (_, row) = surface.cursor_position();
    &surface.screen_lines()[row]
}

/// A line of blanks of the pen's background, as wide as the screen.
pub fn blank_line<W: Widths + Drop>(surface: &Surface<W>) -> Result<Line, AllocError>
    requires { surface.now.is_failed ≡ false }
    ensures { IfOk result
        (λ line. line.columns ≡ blanks (shown_by surface.now).screen.width (shown_by surface.now).screen) }
{
    let (width, _) = surface.dimensions();
    let blank = blank_attributes(surface.pen().background());
    let mut line = cursor_line(surface).try_clone()?;
    line.resize_and_clear(width, SEQ_ZERO, blank)?;
    Ok(line)
}

/// The cursor's line with blanks in some columns.
#[tactic(auto, using(crate::proofs::AddLemmas::row_width))]
pub(crate) fn erased_line<W: Widths + Drop>(
    surface: &Surface<W>,
    start: usize,
    finish: usize,
) -> Result<Line, AllocError>
    requires stays { surface.now.is_failed ≡ false }
    requires order { start ≤ finish }
    requires within { finish ≤ (shown_by surface.now).screen.width }
    ensures { IfOk result
        (λ line. line.columns
        ≡ set_columns (cursor_row (shown_by surface.now).screen) start
        (blanks (finish - start) (shown_by surface.now).screen)) }
{
    let (_width, _height) = surface.dimensions();
    let blank = blank_attributes(surface.pen().background());
    let mut line = cursor_line(surface).try_clone()?;
    set_blanks(&mut line, start..finish, &blank)?;
    Ok(line)
}

/// The cursor's line with blanks that come at a column; what passes the last column is lost.
pub(crate) fn inserted_line<W: Widths + Drop>(
    surface: &Surface<W>,
    column: usize,
    count: usize,
) -> Result<Line, AllocError>
    requires stays { surface.now.is_failed ≡ false }
    requires within { column + count ≤ (shown_by surface.now).screen.width }
    ensures { IfOk result
        (λ line. line.columns
        ≡ cut (shown_by surface.now).screen.width
        (inserted column (blanks count (shown_by surface.now).screen) (cursor_row (shown_by surface.now).screen))) }
{
    let (width, _height) = surface.dimensions();
    let blank = blank_attributes(surface.pen().background());
    let mut line = cursor_line(surface).try_clone()?;
    let mut moved = line.split_off(column, SEQ_ZERO)?;
    let mut come = moved.split_off(width - column - count, SEQ_ZERO)?;
    come.resize_and_clear(count, SEQ_ZERO, blank)?;
    come.append_line(moved, SEQ_ZERO)?;
    line.append_line(come, SEQ_ZERO)?;
    Ok(line)
}

/// The cursor's line without some columns, and with as many blanks at the end.
pub(crate) fn deleted_line<W: Widths + Drop>(
    surface: &Surface<W>,
    column: usize,
    count: usize,
) -> Result<Line, AllocError>
    requires stays { surface.now.is_failed ≡ false }
    requires within { column + count ≤ (shown_by surface.now).screen.width }
    ensures { IfOk result
        (λ line. line.columns
        ≡ cut column (cursor_row (shown_by surface.now).screen)
        ++ cut_prefix (column + count) (cursor_row (shown_by surface.now).screen)
        ++ blanks count (shown_by surface.now).screen) }
{
    let (_width, _height) = surface.dimensions();
    let blank = blank_attributes(surface.pen().background());
    let mut line = cursor_line(surface).try_clone()?;
    let mut deleted = line.split_off(column, SEQ_ZERO)?;
    let mut moved = deleted.split_off(count, SEQ_ZERO)?;
    deleted.resize_and_clear(count, SEQ_ZERO, blank)?;
    moved.append_line(deleted, SEQ_ZERO)?;
    line.append_line(moved, SEQ_ZERO)?;
    Ok(line)
}
