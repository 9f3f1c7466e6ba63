//! ED: the cursor's row is erased on one side of the cursor, and all rows on that side of it.
ghost use Rattle.std.specs.Prelude.{◌≡◌, ◌≤◌, ◌<◌, ◌+◌, ◌⊎◌, false, map, IfOk, OnErr, IsErrOf};
ghost use Rattle.cell_base.specs.Screen.{height};
ghost use Rattle.cell_surface.specs.Surface.{shown_by};
ghost use Rattle.screen_change.specs.ValueOf.{value_of};
ghost use Rattle.terminal_table.specs.Led.{led};
ghost use Rattle.xterm_table.specs.Displays.{display_end_erased, display_start_erased, rows_erased};
ghost use Rattle.xterm_table.specs.Follows.{Follows};
ghost use Rattle.xterm_table.specs.RowEdits.{blanks, columns_erased, with_row};
ghost use Rattle.xterm_steps.specs.Becomes.{Becomes};

use crate::additions::show;
use crate::row_copies::{active_column, blank_line, erased_line};
use crate::row_moves::{lines_changes, lines_up};
use cell_base::Widths;
use cell_line::Line;
use cell_surface::laws::surfaces_stay_lawful;
use cell_surface::{Surface, SurfaceError};
use screen_change::Change;
use std::alloc::Global;
use xterm_table::laws::{erasures_follow, row_moves_follow};

// The changes that make the cursor's row show a line, and `size` other rows, from row `first` on, a line of blanks.
fn erased_changes<'a, W: Widths + Drop>(
    alloc: Global,
    surface: &'a Surface<W>,
    line: &'a Line,
    blank: &'a Line,
    first: usize,
    size: usize,
) -> Result<Vec<Change>, SurfaceError>
    requires stays { surface.now.is_failed ≡ false }
    requires blank { blank.now.columns ≡ blanks (shown_by surface.now).screen.width (shown_by surface.now).screen }
    requires within { first + size ≤ height (shown_by surface.now).screen }
    requires other { (shown_by surface.now).screen.row < first ⊎ first + size ≤ (shown_by surface.now).screen.row }
    requires follows { Follows (W.width_of surface.now.grid.widths) (shown_by surface.now).screen
        (rows_erased first size (with_row line.now.columns (shown_by surface.now).screen)) }
    ensures changes { IfOk result
        (λ changes. map value_of changes.items
        ≡ led (shown_by surface.now).screen
        (rows_erased first size (with_row line.now.columns (shown_by surface.now).screen))) }
    ensures refused { OnErr result (IsErrOf result SurfaceError.Memory) }
{
    let column = active_column(surface);
    let (_, row) = surface.cursor_position();
    let lines = surface.screen_lines();
    let mut news = lines_up(alloc, lines, blank, first, size, size)?;
    news[row] = line;
    let changes = lines_changes(alloc, surface, news, column)?;
    Ok(changes)
}

// Columns of the cursor's row become blanks of the pen's background, and `size` other rows, from row `first` on.
fn erase_rows<W: Widths + Drop>(
    alloc: Global,
    surface: &mut Surface<W>,
    start: usize,
    finish: usize,
    first: usize,
    size: usize,
) -> Result<(), SurfaceError>
    requires stays { surface.old.is_failed ≡ false }
    requires order { start ≤ finish }
    requires columns { finish ≤ (shown_by surface.old).screen.width }
    requires rows { first + size ≤ height (shown_by surface.old).screen }
    requires other { (shown_by surface.old).screen.row < first ⊎ first + size ≤ (shown_by surface.old).screen.row }
    ensures { Becomes (λ w. W.width_of w) surface.old
        (rows_erased first size (columns_erased start finish (shown_by surface.old).screen)) result surface.new }
{
    surfaces_stay_lawful(surface);
    erasures_follow();
    row_moves_follow();
    let line = erased_line(surface, start, finish)?;
    let blank = blank_line(surface)?;
    let changes = erased_changes(alloc, surface, &line, &blank, first, size)?;
    show(surface, changes)
}

/// ED 0 (CSI J): the columns from the cursor on and the rows below become blanks of the pen's background.
pub fn erase_display_end<W: Widths + Drop>(
    alloc: Global,
    surface: &mut Surface<W>,
) -> Result<(), SurfaceError>
    ensures { Becomes (λ w. W.width_of w) surface.old (display_end_erased (shown_by surface.old).screen) result
        surface.new }
{
    if surface.is_failed() {
        return Err(SurfaceError::Failed);
    }
    let (width, height) = surface.dimensions();
    let (_, row) = surface.cursor_position();
    let start = active_column(surface);
    erase_rows(alloc, surface, start, width, row + 1, height - (row + 1))
}

/// ED 1 (CSI 1 J): the rows above and the columns up to the cursor's, which is one of them, become blanks.
pub fn erase_display_start<W: Widths + Drop>(
    alloc: Global,
    surface: &mut Surface<W>,
) -> Result<(), SurfaceError>
    ensures { Becomes (λ w. W.width_of w) surface.old (display_start_erased (shown_by surface.old).screen) result
        surface.new }
{
    if surface.is_failed() {
        return Err(SurfaceError::Failed);
    }
    let (_width, _height) = surface.dimensions();
    let (_, row) = surface.cursor_position();
    let finish = active_column(surface) + 1;
    erase_rows(alloc, surface, 0, finish, 0, row)
}
