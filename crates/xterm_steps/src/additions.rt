//! Changes that are added, so that a surface shows another screen.
ghost use Rattle.std.specs.Prelude.{◌≡◌, ◌++◌, [], ◌∷◌, false, map, OnOk};
ghost use Rattle.cell_base.specs.declared.attributes.Position.TheVariants.{Absolute};
ghost use Rattle.cell_base.specs.Screen.{Screen};
ghost use Rattle.cell_surface.specs.Surface.{shown_by};
ghost use Rattle.screen_change.specs.ChangeValue.{AllAttributes, CursorPosition};
ghost use Rattle.screen_change.specs.ValueOf.{value_of};
ghost use Rattle.terminal_table.specs.Led.{led};
ghost use Rattle.xterm_table.specs.Follows.{Follows};
ghost use Rattle.xterm_steps.specs.Becomes.{Becomes};

use cell_base::{CellAttributes, Position, Widths};
use cell_surface::laws::surfaces_stay_lawful;
use cell_surface::{Surface, SurfaceError};
use screen_change::Change;
use std::alloc::AllocError;
use terminal_table::led_laws::logged_differences_lead_to_the_screen;

/// Adds the changes that lead to a screen.
pub(crate) fn show<W: Widths + Drop>(
    surface: &mut Surface<W>,
    changes: Vec<Change>,
) -> Result<(), SurfaceError>
    requires stays { surface.old.is_failed ≡ false }
    ensures { (screen : Screen) → map value_of changes.items ≡ led (shown_by surface.old).screen screen
        → Follows (W.width_of surface.old.grid.widths) (shown_by surface.old).screen screen
        → screen.title ≡ (shown_by surface.old).screen.title
        → Becomes (λ w. W.width_of w) surface.old screen result surface.new }
{
    surfaces_stay_lawful(surface);
    logged_differences_lead_to_the_screen();
    let _number = surface.current_seqno();
    surface.add_changes(changes)?;
    Ok(())
}

/// Appends the changes that set the cursor's position and the pen.
pub(crate) fn push_cursor(
    changes: &mut Vec<Change>,
    column: usize,
    row: usize,
    pen: &CellAttributes,
) -> Result<(), AllocError>
    ensures { OnOk result
        (map value_of changes.new.items
        ≡ map value_of changes.old.items
        ++ CursorPosition (Absolute column) (Absolute row) ∷ AllAttributes pen.now ∷ []) }
{
    let pen = pen.try_clone()?;
    changes.push(Change::CursorPosition {
        x: Position::Absolute(column),
        y: Position::Absolute(row),
    })?;
    changes.push(Change::AllAttributes(pen))?;
    Ok(())
}
