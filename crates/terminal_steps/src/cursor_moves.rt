//! Moves of the cursor: where CUU, CUD, CUB, CUF, CNL, CPL, CHA, VPA, CUP and HT lead.
ghost use Rattle.std.specs.Prelude.{◌≡◌, None, min};
ghost use Rattle.cell_surface.specs.Surface.{shown_by};
ghost use Rattle.terminal_table.specs.Changes.{changes, move_change, position};
ghost use Rattle.terminal_table.specs.Functions as table;
ghost use Rattle.terminal_table.specs.Steps.{active_column, target};
ghost use Rattle.xterm_steps.specs.Additions.{Adds};
ghost use Rattle.terminal_steps.specs.Cursor.{position_change};
ghost use Rattle.terminal_steps.specs.FunctionView.{move_of};

use crate::changes::add_position;
use crate::cursor::CellPosition;
use crate::function::Move;
use cell_base::Widths;
use cell_surface::{Surface, SurfaceError};

/// The cursor's column; where a wrap is pending, the last one.
pub(crate) fn current_column<W: Widths + Drop>(surface: &Surface<W>) -> usize
    ensures { result ≡ active_column (shown_by surface.now).screen }
{
    let (width, _) = surface.dimensions();
    let (column, _) = surface.cursor_position();
    column.min(width.saturating_sub(1))
}

/// The position at a column and a row, at most the last ones.
pub(crate) fn position_at<W: Widths + Drop>(
    surface: &Surface<W>,
    column: usize,
    row: usize,
) -> CellPosition
    ensures { position_change result ≡ position (column, row) (shown_by surface.now).screen }
{
    let (width, height) = surface.dimensions();
    CellPosition {
        column: column.min(width.saturating_sub(1)),
        row: row.min(height.saturating_sub(1)),
    }
}

// Where a move leads from a column and a row: at most to the last ones.
fn position_of(
    movement: Move,
    column: usize,
    row: usize,
    last_column: usize,
    last_row: usize,
) -> (usize, usize)
    ensures column { result.0 ≡ min (target (move_of movement) column row).0 last_column }
    ensures row { result.1 ≡ min (target (move_of movement) column row).1 last_row }
{
    let (column, row) = match movement {
        Move::Up(n) => (column, row.saturating_sub(n as usize)),
        Move::Down(n) => (column, row.saturating_add(n as usize)),
        Move::Left(n) => (column.saturating_sub(n as usize), row),
        Move::Right(n) => (column.saturating_add(n as usize), row),
        Move::NextTab => ((column / 8 + 1).saturating_mul(8), row),
        Move::NextLine(n) => (0, row.saturating_add(n as usize)),
        Move::PrecedingLine(n) => (0, row.saturating_sub(n as usize)),
        Move::ToColumn(name) => (name.saturating_sub(1), row),
        Move::ToLine(name) => (column, name.saturating_sub(1)),
        Move::ToPosition(line, name) => ((name as usize).saturating_sub(1), line.saturating_sub(1)),
    };
    (column.min(last_column), row.min(last_row))
}

/// Where a move leads.
pub(crate) fn move_position<W: Widths + Drop>(surface: &Surface<W>, movement: Move) -> CellPosition
    ensures { position_change result ≡ move_change (move_of movement) (shown_by surface.now).screen }
{
    let (width, height) = surface.dimensions();
    let (_, row) = surface.cursor_position();
    let (column, row) = position_of(
        movement,
        current_column(surface),
        row,
        width.saturating_sub(1),
        height.saturating_sub(1),
    );
    CellPosition { column, row }
}

/// A move of the cursor.
pub(crate) fn move_cursor<W: Widths + Drop>(
    surface: &mut Surface<W>,
    movement: Move,
) -> Result<(), SurfaceError>
    ensures { Adds (λ w. W.width_of w) surface.old
        (changes (table.Moves (move_of movement)) None (shown_by surface.old).screen) result surface.new }
{
    let destination = move_position(surface, movement);
    add_position(surface, destination)
}
