//! Erasures (ED, EL), scrolls (SU, SD) and the reverse index (RI).
ghost use Rattle.std.specs.Prelude.{◌≡◌, None, IfOk, [], ◌∷◌};
ghost use Rattle.screen_change.specs.ValueOf.{value_of};
ghost use Rattle.cell_surface.specs.Surface.{shown_by};
ghost use Rattle.terminal_table.specs.Changes.{changes, same_position};
ghost use Rattle.terminal_table.specs.Functions as table;
ghost use Rattle.xterm_steps.specs.Additions.{Adds, CopiesAndAdds};
ghost use Rattle.terminal_steps.specs.Cursor.{position_change};

use crate::changes::{add, add_cursor, add_line_end, add_pen, add_position};
use crate::cursor::{CellPosition, Pen};
use crate::cursor_moves::{current_column, move_position, position_at};
use crate::function::Move;
use cell_base::Widths;
use cell_surface::{Surface, SurfaceError};
use screen_change::Change;
use std::alloc::AllocError;

// A copy of the pen, to be set again: a change that erases makes the pen plain, with the background that it erases
// with.
fn current_pen<W: Widths + Drop>(surface: &Surface<W>) -> Result<Pen, AllocError>
    ensures { IfOk result (λ pen. pen.attributes ≡ (shown_by surface.now).screen.pen) }
{
    Ok(Pen {
        attributes: surface.pen().try_clone()?,
    })
}

/// EL 0 (CSI K): the columns from the cursor to the end of its row become blanks.
pub(crate) fn erase_to_end_of_line<W: Widths + Drop>(
    surface: &mut Surface<W>,
) -> Result<(), SurfaceError>
    ensures { CopiesAndAdds (λ w. W.width_of w) surface.old
        (changes table.EraseToEndOfLine None (shown_by surface.old).screen) result surface.new }
{
    let pen = current_pen(surface)?;
    add_line_end(surface, pen.line_end())?;
    add_pen(surface, pen)?;
    Ok(())
}

/// ED 0 (CSI J): the columns from the cursor to the end of its row, and all rows below, become blanks.
pub(crate) fn erase_to_end_of_display<W: Widths + Drop>(
    surface: &mut Surface<W>,
) -> Result<(), SurfaceError>
    ensures { CopiesAndAdds (λ w. W.width_of w) surface.old
        (changes table.EraseToEndOfDisplay None (shown_by surface.old).screen) result surface.new }
{
    let pen = current_pen(surface)?;
    add(surface, Change::ClearToEndOfScreen(pen.background()))?;
    add_pen(surface, pen)?;
    Ok(())
}

// The cursor's position; where a wrap is pending, that of the last column.
fn same_position<W: Widths + Drop>(surface: &Surface<W>) -> CellPosition
    ensures { position_change result ≡ same_position (shown_by surface.now).screen }
{
    let (_, row) = surface.cursor_position();
    position_at(surface, current_column(surface), row)
}

/// ED 2 (CSI 2 J): the whole screen becomes blanks.
pub(crate) fn erase_display<W: Widths + Drop>(surface: &mut Surface<W>) -> Result<(), SurfaceError>
    ensures { CopiesAndAdds (λ w. W.width_of w) surface.old
        (changes table.EraseDisplay None (shown_by surface.old).screen) result surface.new }
{
    let pen = current_pen(surface)?;
    let here = same_position(surface);
    add(surface, Change::ClearScreen(pen.background()))?;
    add_cursor(surface, here, pen)?;
    Ok(())
}

/// EL 2 (CSI 2 K): the cursor's row becomes blanks.
pub(crate) fn erase_line<W: Widths + Drop>(surface: &mut Surface<W>) -> Result<(), SurfaceError>
    ensures { CopiesAndAdds (λ w. W.width_of w) surface.old
        (changes table.EraseLine None (shown_by surface.old).screen) result surface.new }
{
    let pen = current_pen(surface)?;
    let (_, row) = surface.cursor_position();
    let start = position_at(surface, 0, row);
    let destination = same_position(surface);
    add_position(surface, start)?;
    add_line_end(surface, pen.line_end())?;
    add_cursor(surface, destination, pen)?;
    Ok(())
}

/// SU (CSI S): all rows move up by `count`, at most the height.
pub(crate) fn scroll_up<W: Widths + Drop>(
    surface: &mut Surface<W>,
    count: u32,
) -> Result<(), SurfaceError>
    ensures { Adds (λ w. W.width_of w) surface.old
        (changes (table.ScrollUp count) None (shown_by surface.old).screen) result surface.new }
{
    let (_, height) = surface.dimensions();
    let scroll_count = height.min(count as usize);
    add(
        surface,
        Change::ScrollRegionUp {
            first_row: 0,
            region_size: height,
            scroll_count,
        },
    )
}

/// SD (CSI T): all rows move down by `count`, at most the height.
pub(crate) fn scroll_down<W: Widths + Drop>(
    surface: &mut Surface<W>,
    count: u32,
) -> Result<(), SurfaceError>
    ensures { Adds (λ w. W.width_of w) surface.old
        (changes (table.ScrollDown count) None (shown_by surface.old).screen) result surface.new }
{
    let (_, height) = surface.dimensions();
    let scroll_count = height.min(count as usize);
    add(
        surface,
        Change::ScrollRegionDown {
            first_row: 0,
            region_size: height,
            scroll_count,
        },
    )
}

// The change of RI: the cursor moves to the row above; at the first row all rows move down by one.
fn reverse_change<W: Widths + Drop>(surface: &Surface<W>) -> Change
    ensures { value_of result ∷ [] ≡ changes table.ReverseIndex None (shown_by surface.now).screen }
{
    let (_, height) = surface.dimensions();
    let (_, row) = surface.cursor_position();
    if row == 0 {
        Change::ScrollRegionDown {
            first_row: 0,
            region_size: height,
            scroll_count: 1,
        }
    } else {
        Change::from(move_position(surface, Move::Up(1)))
    }
}

/// RI (ESC M): the cursor moves to the row above; at the first row all rows move down by one.
pub(crate) fn reverse_index<W: Widths + Drop>(surface: &mut Surface<W>) -> Result<(), SurfaceError>
    ensures { Adds (λ w. W.width_of w) surface.old
        (changes table.ReverseIndex None (shown_by surface.old).screen) result surface.new }
{
    let change = reverse_change(surface);
    add(surface, change)
}
