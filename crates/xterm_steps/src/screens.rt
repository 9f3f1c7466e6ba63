//! Screens that are given by the screen after the function: its cursor and pen, and its rows as lines.
ghost use Rattle.std.specs.Prelude.{◌≡◌, ◌≤◌, ◌<◌, ◌++◌, [], false, length, map, slice_index_or};
ghost use Rattle.std.specs.Prelude.{IfOk, OnErr, IsErrOf};
ghost use Rattle.cell_base.specs.Screen.{Screen, height};
ghost use Rattle.cell_surface.specs.Surface.{shown_by};
ghost use Rattle.screen_change.specs.ValueOf.{value_of};
ghost use Rattle.screen_difference.specs.Difference.{difference};
ghost use Rattle.screen_difference.specs.FreshCells.{lines_fresh, rows_of};
ghost use Rattle.xterm_table.specs.Follows.{Follows};
ghost use Rattle.xterm_steps.specs.Becomes.{Becomes};
ghost use Rattle.xterm_steps.specs.Place.{place_and_pen};

use crate::additions::show;
use crate::place::push_place;
use crate::row_moves::push_lines;
use cell_base::{CellAttributes, Widths};
use cell_line::Line;
use cell_surface::laws::surfaces_stay_lawful;
use cell_surface::{Surface, SurfaceError};
use screen_change::Change;
use std::alloc::{AllocError, Global};

/// The changes that make all rows show lines, put the cursor into a column and a row, and set the pen.
pub(crate) fn screen_changes<W: Widths + Drop>(
    alloc: Global,
    surface: &Surface<W>,
    news: Vec<&Line>,
    column: usize,
    row: usize,
    pen: &CellAttributes,
) -> Result<Vec<Change>, SurfaceError>
    requires stays { surface.now.is_failed ≡ false }
    requires row { row < length news.items }
    ensures changes { IfOk result
        (λ changes. map value_of changes.items
        ≡ difference
        (lines_fresh (shown_by surface.now).screen.rows 0 (rows_of (map (λ line. line.now) news.entry.items)))
        ++ place_and_pen (shown_by surface.now).screen.width column row pen.now
        (slice_index_or (rows_of (map (λ line. line.now) news.entry.items)) row [])) }
    ensures refused { OnErr result (IsErrOf result SurfaceError.Memory) }
{
    let (width, _) = surface.dimensions();
    let line = news[row];
    let mut changes = surface.diff_lines(news)?;
    push_place(alloc, &mut changes, width, column, row, pen, line)?;
    Ok(changes)
}

/// The surface shows other rows, with the cursor at a column (the width, where a wrap is pending) and a row, counted
/// from 0, and with a pen; where they make a screen that can follow.
pub fn show_screen<W: Widths + Drop>(
    alloc: Global,
    surface: &mut Surface<W>,
    lines: &[Line],
    column: usize,
    row: usize,
    pen: &CellAttributes,
) -> Result<(), SurfaceError>
    requires stays { surface.old.is_failed ≡ false }
    ensures { (screen : Screen)
        → screen
        ≡ record (shown_by surface.old).screen { rows = rows_of lines.now; column = column; row = row; pen = pen.now }
        → Follows (W.width_of surface.old.grid.widths) (shown_by surface.old).screen screen
        → Becomes (λ w. W.width_of w) surface.old screen result surface.new }
{
    if row >= lines.len() {
        return Ok(());
    }
    let mut news = Vec::new(alloc);
    push_lines(&mut news, lines)?;
    let changes = screen_changes(alloc, surface, news, column, row, pen)?;
    show(surface, changes)
}

// The changes that put the cursor into a column and a row, and set the pen.
fn cursor_changes<W: Widths + Drop>(
    alloc: Global,
    surface: &Surface<W>,
    column: usize,
    row: usize,
    pen: &CellAttributes,
) -> Result<Vec<Change>, AllocError>
    requires stays { surface.now.is_failed ≡ false }
    requires row { row < height (shown_by surface.now).screen }
    ensures { IfOk result
        (λ changes. map value_of changes.items
        ≡ place_and_pen (shown_by surface.now).screen.width column row pen.now
        (slice_index_or (shown_by surface.now).screen.rows row [])) }
{
    let (width, _height) = surface.dimensions();
    let mut changes = Vec::new(alloc);
    push_place(
        alloc,
        &mut changes,
        width,
        column,
        row,
        pen,
        &surface.screen_lines()[row],
    )?;
    Ok(changes)
}

/// The cursor goes to a column (the width, where a wrap is pending) and a row, counted from 0, and the pen becomes
/// another one.
pub fn place_with_pen<W: Widths + Drop>(
    alloc: Global,
    surface: &mut Surface<W>,
    column: usize,
    row: usize,
    pen: &CellAttributes,
) -> Result<(), SurfaceError>
    requires stays { surface.old.is_failed ≡ false }
    requires column { column ≤ (shown_by surface.old).screen.width }
    requires row { row < height (shown_by surface.old).screen }
    ensures { Becomes (λ w. W.width_of w) surface.old
        (record (shown_by surface.old).screen { column = column; row = row; pen = pen.now }) result surface.new }
{
    surfaces_stay_lawful(surface);
    let changes = cursor_changes(alloc, surface, column, row, pen)?;
    show(surface, changes)
}
