//! Saved cursors (DECSC, DECRC, SCOSC, SCORC) and the full reset (RIS).
ghost use Rattle.std.specs.Prelude.{◌≡◌, [], Some, None, IfOk};
ghost use Rattle.cell_surface.specs.Surface.{shown_by};
ghost use Rattle.terminal_table.specs.Changes.{changes};
ghost use Rattle.terminal_table.specs.Functions as table;
ghost use Rattle.terminal_table.specs.State.{cursor_of};
ghost use Rattle.terminal_table.specs.Steps.{cursor_to_restore};
ghost use Rattle.xterm_steps.specs.Additions.{Adds, CopiesAndAdds};

use crate::changes::{add, add_cursor, add_nothing};
use crate::cursor::Pen;
use crate::cursor_moves::position_at;
use cell_base::{CellAttributes, ColorAttribute, CursorVisibility, Widths};
use cell_surface::{Surface, SurfaceError};
use screen_change::Change;
use std::alloc::AllocError;
use std::marker::Model;

/// A cursor that was saved: its column (the width, where a wrap was pending), its row, both counted from
/// 0, and the pen.
#[derive(Debug, Drop)]
pub struct SavedCursor {
    pub(crate) column: usize,
    pub(crate) row: usize,
    pub(crate) pen: CellAttributes,
}

impl Model for SavedCursor {
    ghost use Rattle.terminal_table.specs.Modes.{SavedCursor as Value_of};

    ghost Value = { Value_of };

    ghost use Rattle.terminal_steps.specs.SavedView.{saved_of};

    ghost view = { saved_of };
}

// The cursor of a surface, to be saved.
fn cursor_of<W: Widths + Drop>(surface: &Surface<W>) -> Result<SavedCursor, AllocError>
    ensures { IfOk result (λ cursor. cursor ≡ cursor_of (shown_by surface.now).screen) }
{
    let (column, row) = surface.cursor_position();
    let pen = surface.pen().try_clone()?;
    Ok(SavedCursor { column, row, pen })
}

/// DECSC (ESC 7), SCOSC (CSI s): saves the cursor, which adds no change.
pub(crate) fn save_cursor<W: Widths + Drop>(
    surface: &mut Surface<W>,
    saved: &mut Option<SavedCursor>,
) -> Result<(), SurfaceError>
    ensures added { CopiesAndAdds (λ w. W.width_of w) surface.old [] result surface.new }
    ensures saved { IfOk result (λ _. saved.new ≡ Some (cursor_of (shown_by surface.old).screen)) }
{
    let cursor = cursor_of(surface)?;
    add_nothing(surface)?;
    *saved = Some(cursor);
    Ok(())
}

/// A cursor that is restored; one at home with a plain pen, where none was saved.
pub(crate) fn cursor_to_restore(saved: &Option<SavedCursor>) -> Result<SavedCursor, AllocError>
    ensures { IfOk result (λ cursor. cursor ≡ cursor_to_restore saved.now) }
{
    match saved {
        Some(cursor) => Ok(SavedCursor {
            column: cursor.column,
            row: cursor.row,
            pen: cursor.pen.try_clone()?,
        }),
        None => Ok(SavedCursor {
            column: 0,
            row: 0,
            pen: CellAttributes::blank(),
        }),
    }
}

/// DECRC (ESC 8), SCORC (CSI u): the cursor goes back to where it was saved, with its pen.
pub(crate) fn restore_cursor<W: Widths + Drop>(
    surface: &mut Surface<W>,
    saved: &Option<SavedCursor>,
) -> Result<(), SurfaceError>
    ensures { CopiesAndAdds (λ w. W.width_of w) surface.old
        (changes table.RestoreCursor saved.now (shown_by surface.old).screen) result surface.new }
{
    let SavedCursor { column, row, pen } = cursor_to_restore(saved)?;
    let destination = position_at(surface, column, row);
    add_cursor(surface, destination, Pen { attributes: pen })
}

/// RIS (ESC c): a full reset, which leaves the title alone and drops the saved cursor.
pub(crate) fn full_reset<W: Widths + Drop>(
    surface: &mut Surface<W>,
    saved: &mut Option<SavedCursor>,
) -> Result<(), SurfaceError>
    ensures added { Adds (λ w. W.width_of w) surface.old
        (changes table.FullReset None (shown_by surface.old).screen) result surface.new }
    ensures saved { IfOk result (λ _. saved.new ≡ None) }
{
    add(surface, Change::ClearScreen(ColorAttribute::Default))?;
    add(surface, Change::CursorVisibility(CursorVisibility::Visible))?;
    *saved = None;
    Ok(())
}
