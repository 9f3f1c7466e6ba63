//! The changes that put the cursor at its place and set the pen, and a move of the cursor.
ghost use Rattle.std.specs.Prelude.{◌≡◌, ◌<◌, ◌++◌, false, map, IfOk, OnOk};
ghost use Rattle.std.specs.Option.{option_map};
ghost use Rattle.cell_base.specs.Screen.{height};
ghost use Rattle.cell_surface.specs.Surface.{shown_by};
ghost use Rattle.cell_views.specs.CellRefView.{shown_by as cell_shown};
ghost use Rattle.screen_change.specs.ValueOf.{value_of};
ghost use Rattle.terminal_table.specs.Led.{last_cell, led};
ghost use Rattle.xterm_steps.specs.Becomes.{Becomes};
ghost use Rattle.xterm_steps.specs.Place.{place_and_pen};

use crate::additions::{push_cursor, show};
use cell_base::{CellAttributes, Widths};
use cell_line::{CellRef, Line};
use cell_surface::laws::surfaces_stay_lawful;
use cell_surface::{Surface, SurfaceError};
use screen_change::Change;
use std::alloc::{AllocError, Global};

// The last visible cell of a line, if there is one.
fn last_cell(line: &Line) -> Option<CellRef<'_>>
    ensures { option_map cell_shown result ≡ last_cell line.now.columns }
{
    let mut last = None;
    for cell in line.visible_cells() {
        last = Some(cell);
    }
    last
}

/// Appends the changes that put the cursor into a row that shows a line, and set the pen.
pub(crate) fn push_place(
    alloc: Global,
    changes: &mut Vec<Change>,
    width: usize,
    column: usize,
    row: usize,
    pen: &CellAttributes,
    line: &Line,
) -> Result<(), AllocError>
    ensures { OnOk result
        (map value_of changes.new.items
        ≡ map value_of changes.old.items ++ place_and_pen width column row pen.now line.now.columns) }
{
    if column != width {
        return push_cursor(changes, column, row, pen);
    }
    let Some(cell) = last_cell(line) else {
        return Ok(());
    };
    let attributes = cell.attrs().try_clone()?;
    let text = String::from_str(alloc, cell.str())?;
    push_cursor(changes, cell.cell_index(), row, &attributes)?;
    changes.push(Change::Text(text))?;
    changes.push(Change::AllAttributes(pen.try_clone()?))?;
    Ok(())
}

// The changes that put the cursor at a column, which is none past the last one, and a row.
fn place_changes<W: Widths + Drop>(
    alloc: Global,
    surface: &Surface<W>,
    column: usize,
    row: usize,
) -> Result<Vec<Change>, AllocError>
    requires stays { surface.now.is_failed ≡ false }
    requires column { column < (shown_by surface.now).screen.width }
    ensures { IfOk result
        (λ changes. map value_of changes.items
        ≡ led (shown_by surface.now).screen (record (shown_by surface.now).screen { column = column; row = row })) }
{
    let mut changes = Vec::new(alloc);
    push_cursor(&mut changes, column, row, surface.pen())?;
    Ok(changes)
}

/// The cursor goes to a column and a row of the screen.
pub(crate) fn place_cursor<W: Widths + Drop>(
    alloc: Global,
    surface: &mut Surface<W>,
    column: usize,
    row: usize,
) -> Result<(), SurfaceError>
    requires stays { surface.old.is_failed ≡ false }
    requires column { column < (shown_by surface.old).screen.width }
    requires row { row < height (shown_by surface.old).screen }
    ensures { Becomes (λ w. W.width_of w) surface.old
        (record (shown_by surface.old).screen { column = column; row = row }) result surface.new }
{
    surfaces_stay_lawful(surface);
    let changes = place_changes(alloc, surface, column, row)?;
    show(surface, changes)
}
