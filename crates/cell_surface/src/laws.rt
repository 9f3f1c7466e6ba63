//! Laws of surfaces: each is the contract of a function that does nothing. The laws of the layers
//! below are here too: of the changes that are due, of repaints, and of differences.
ghost use Rattle.std.specs.Prelude.{◌≡◌, ◌*◌, ◌≤◌, false, length, All};
ghost use Rattle.cell_line.specs.LineContent.{IsClustered};
ghost use Rattle.cell_surface.specs.Surface.{number_of, shown_by};
ghost use Rattle.screen_log.specs.Log.{most_due};
ghost use Rattle.screen_effects.specs.Display.{IsDisplay};
ghost use Rattle.screen_effects.specs.WrittenCells.{IsSoundDisplay};

use crate::surface::Surface;
use cell_base::Widths;
pub use screen_difference::laws::{
    differences_draw_their_cells, differences_print_their_cells, differences_show_the_new_side,
};
use screen_log::laws::kept_changes_are_counted;
pub use screen_log::laws::{
    another_change_is_due_last, forgotten_changes_are_not_due, nothing_due_is_lost,
    other_sizes_empty_the_log,
};
pub use screen_repaint::laws::repaints_show_the_display;

/// A surface that hasn't failed shows a lawful screen: its rows are whole and as wide as the screen,
/// the cursor is in it, each cell's text is by itself one cluster (UAX 29) without C0 controls and
/// DEL, in the columns that it takes; each line is kept as one text and runs of equal attributes;
/// and its log keeps as many changes as may be due. Each change that the log keeps has a number, and no more are kept
/// than may be due.
pub fn surfaces_stay_lawful<W: Widths + Drop>(surface: &Surface<W>)
    ensures lawful { surface.now.is_failed ≡ false → IsDisplay (shown_by surface.now) }
    ensures cells { surface.now.is_failed ≡ false
        → IsSoundDisplay (W.width_of surface.now.grid.widths) (shown_by surface.now) }
    ensures clustered { surface.now.is_failed ≡ false → All IsClustered surface.now.grid.lines }
    ensures log { surface.now.is_failed ≡ false
        → surface.now.log.most ≡ most_due surface.now.grid.width (length surface.now.grid.lines) }
    ensures kept { surface.now.is_failed ≡ false
        → length surface.now.log.log.entries ≤ most_due surface.now.grid.width (length surface.now.grid.lines) }
    ensures counted { length surface.now.log.log.entries ≤ number_of surface.now }
    ensures bounded { length surface.now.log.log.entries ≤ surface.now.log.most }
{
    let _grid = &surface.grid;
    kept_changes_are_counted(&surface.log);
}
