//! Functions that edit the cursor's row: ECH, EL, ICH and DCH.
ghost use Rattle.std.specs.Prelude.{◌≡◌, ◌≤◌, ◌+◌, false, map, IfOk, OnErr, IsErrOf};
ghost use Rattle.cell_surface.specs.Surface.{shown_by};
ghost use Rattle.screen_change.specs.ValueOf.{value_of};
ghost use Rattle.terminal_table.specs.Led.{led};
ghost use Rattle.xterm_table.specs.Follows.{Follows};
ghost use Rattle.xterm_table.specs.RowEdits.{characters_deleted, characters_erased, characters_inserted};
ghost use Rattle.xterm_table.specs.RowEdits.{columns_erased, columns_within, line_end_erased};
ghost use Rattle.xterm_table.specs.RowEdits.{line_start_erased, with_row};
ghost use Rattle.xterm_steps.specs.Becomes.{Becomes};

use crate::additions::{push_cursor, show};
use crate::row_copies::{active_column, deleted_line, erased_line, inserted_line};
use cell_base::Widths;
use cell_line::Line;
use cell_surface::laws::surfaces_stay_lawful;
use cell_surface::{Surface, SurfaceError};
use screen_change::Change;
use xterm_table::laws::{column_moves_follow, erasures_follow};

// The changes that make the cursor's row show a line.
fn row_changes<W: Widths + Drop>(
    surface: &Surface<W>,
    line: &Line,
) -> Result<Vec<Change>, SurfaceError>
    requires stays { surface.now.is_failed ≡ false }
    requires follows { Follows (W.width_of surface.now.grid.widths) (shown_by surface.now).screen
        (with_row line.now.columns (shown_by surface.now).screen) }
    ensures changes { IfOk result
        (λ changes. map value_of changes.items
        ≡ led (shown_by surface.now).screen (with_row line.now.columns (shown_by surface.now).screen)) }
    ensures refused { OnErr result (IsErrOf result SurfaceError.Memory) }
{
    let column = active_column(surface);
    let (_, row) = surface.cursor_position();
    let mut changes = surface.diff_against_numbered_line(row, line)?;
    push_cursor(&mut changes, column, row, surface.pen())?;
    Ok(changes)
}

// The cursor's row becomes a line of its width, and a pending wrap ends.
fn replace_row<W: Widths + Drop>(surface: &mut Surface<W>, line: &Line) -> Result<(), SurfaceError>
    requires stays { surface.old.is_failed ≡ false }
    requires follows { Follows (W.width_of surface.old.grid.widths) (shown_by surface.old).screen
        (with_row line.now.columns (shown_by surface.old).screen) }
    ensures { Becomes (λ w. W.width_of w) surface.old (with_row line.now.columns (shown_by surface.old).screen) result
        surface.new }
{
    let changes = row_changes(surface, line)?;
    show(surface, changes)
}

// Columns of the cursor's row become blanks of the pen's background.
fn erase_columns<W: Widths + Drop>(
    surface: &mut Surface<W>,
    start: usize,
    finish: usize,
) -> Result<(), SurfaceError>
    requires stays { surface.old.is_failed ≡ false }
    requires order { start ≤ finish }
    requires within { finish ≤ (shown_by surface.old).screen.width }
    ensures { Becomes (λ w. W.width_of w) surface.old (columns_erased start finish (shown_by surface.old).screen) result
        surface.new }
{
    surfaces_stay_lawful(surface);
    erasures_follow();
    let line = erased_line(surface, start, finish)?;
    replace_row(surface, &line)
}

/// ECH (CSI X): `count` columns from the cursor on, as far as there are any, become blanks of the pen's background.
pub fn erase_characters<W: Widths + Drop>(
    surface: &mut Surface<W>,
    count: usize,
) -> Result<(), SurfaceError>
    ensures { Becomes (λ w. W.width_of w) surface.old (characters_erased count (shown_by surface.old).screen) result
        surface.new }
{
    if surface.is_failed() {
        return Err(SurfaceError::Failed);
    }
    let (width, _) = surface.dimensions();
    let start = active_column(surface);
    let finish = start.saturating_add(count).min(width);
    erase_columns(surface, start, finish)
}

/// EL 0 (CSI K): the columns from the cursor on become blanks.
pub fn erase_line_end<W: Widths + Drop>(surface: &mut Surface<W>) -> Result<(), SurfaceError>
    ensures { Becomes (λ w. W.width_of w) surface.old (line_end_erased (shown_by surface.old).screen) result
        surface.new }
{
    if surface.is_failed() {
        return Err(SurfaceError::Failed);
    }
    let (width, _) = surface.dimensions();
    let start = active_column(surface);
    erase_columns(surface, start, width)
}

/// EL 1 (CSI 1 K): the columns up to the cursor's, which is one of them, become blanks.
pub fn erase_line_start<W: Widths + Drop>(surface: &mut Surface<W>) -> Result<(), SurfaceError>
    ensures { Becomes (λ w. W.width_of w) surface.old (line_start_erased (shown_by surface.old).screen) result
        surface.new }
{
    if surface.is_failed() {
        return Err(SurfaceError::Failed);
    }
    let (_width, _) = surface.dimensions();
    let finish = active_column(surface) + 1;
    erase_columns(surface, 0, finish)
}

// How many of some columns there are from the cursor on.
fn columns_within<W: Widths + Drop>(surface: &Surface<W>, count: usize) -> usize
    ensures { result ≡ columns_within count (shown_by surface.now).screen }
{
    let (width, _) = surface.dimensions();
    count.min(width.saturating_sub(active_column(surface)))
}

/// ICH (CSI @): `count` blanks come at the cursor, and what passes the last column is lost.
pub fn insert_characters<W: Widths + Drop>(
    surface: &mut Surface<W>,
    count: usize,
) -> Result<(), SurfaceError>
    ensures { Becomes (λ w. W.width_of w) surface.old (characters_inserted count (shown_by surface.old).screen) result
        surface.new }
{
    if surface.is_failed() {
        return Err(SurfaceError::Failed);
    }
    surfaces_stay_lawful(surface);
    column_moves_follow();
    let column = active_column(surface);
    let inserted = columns_within(surface, count);
    let line = inserted_line(surface, column, inserted)?;
    replace_row(surface, &line)
}

/// DCH (CSI P): `count` columns from the cursor on, as far as there are any, go, and blanks come at the end.
pub fn delete_characters<W: Widths + Drop>(
    surface: &mut Surface<W>,
    count: usize,
) -> Result<(), SurfaceError>
    ensures { Becomes (λ w. W.width_of w) surface.old (characters_deleted count (shown_by surface.old).screen) result
        surface.new }
{
    if surface.is_failed() {
        return Err(SurfaceError::Failed);
    }
    surfaces_stay_lawful(surface);
    column_moves_follow();
    let column = active_column(surface);
    let deleted = columns_within(surface, count);
    let line = deleted_line(surface, column, deleted)?;
    replace_row(surface, &line)
}
