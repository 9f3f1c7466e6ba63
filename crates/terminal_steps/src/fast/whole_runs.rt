//! A shortcut of `print_xterm`.
ghost use Rattle.std.specs.Prelude.{◌≡◌, ◌≢◌, ◌∷◌, [], false, IsTrue};
ghost use Rattle.cell_surface.specs.Surface.{shown_by};
ghost use Rattle.terminal_table.specs.Changes.{run_change};
ghost use Rattle.terminal_table.specs.Modes.{Modes as TableModes};
ghost use Rattle.terminal_table.specs.Runs.{run_done};
ghost use Rattle.terminal_steps.specs.RunView.{CanBePut, IsFrame};

use crate::runs::Frame;
use cell_base::Widths;
use cell_surface::Surface;

/// Whether a run is put plainly as a whole: it scrolls as on a plain terminal, or the cursor's row has two columns for
/// each byte. `false`: put it cluster by cluster.
pub(crate) fn is_put_as_one<W: Widths + Drop>(
    frame: &Frame,
    surface: &Surface<W>,
    text: &str,
) -> bool
    requires { text.now ≢ [] }
    ensures { IsTrue result → (modes : TableModes) → IsFrame modes (shown_by surface.now).screen frame.now
        → CanBePut (λ w. W.width_of w) surface.now text.now
        → (run_done modes (W.width_of surface.now.grid.widths) (shown_by surface.now).screen text.now).changes
        ≡ run_change text.now ∷ [] }
{
    if frame.insert {
        return false;
    }
    if frame.autowrap && frame.scrolls_plainly {
        return true;
    }
    let (column, _) = surface.cursor_position();
    text.len() <= frame.width.saturating_sub(column) / 2
}
