//! The changes of a surface that `terminal_viewers` encodes. For that crate alone: users call `Surface::get_changes`.
ghost use Rattle.std.specs.Prelude.{◌≡◌, ◌∷◌, [], false, map, IfOk};
ghost use Rattle.std.specs.Option.{option_map};
ghost use Rattle.screen_change.specs.ChangeValue.{Title};
ghost use Rattle.screen_change.specs.ValueOf.{value_of};
ghost use Rattle.cell_surface.specs.Surface.{shown_by};
ghost use Rattle.screen_log.specs.Log.{due};
ghost use Rattle.screen_repaint.specs.Repaint.{repaint_with};

use crate::surface::Surface;
use cell_base::{SequenceNo, Widths};
use screen_change::Change;
use std::alloc::AllocError;

/// The changes that are due from a number on, as `get_changes` borrows them; `None` where it returns a repaint.
pub fn due_changes<W: Widths + Drop>(surface: &Surface<W>, seq: SequenceNo) -> Option<&[Change]>
    ensures { option_map (λ changes. map value_of changes.now) result
        ≡ due surface.now.log.most surface.now.log.log seq }
{
    surface.log.due(seq)
}

/// The changes that paint the screen on any screen of its size, as the repaint of `get_changes`, except that they set
/// the title also where it is empty. It fails only where memory is refused.
pub fn repaint_with_title<W: Widths + Drop>(surface: &Surface<W>) -> Result<Vec<Change>, AllocError>
    requires { surface.now.is_failed ≡ false }
    ensures { IfOk result (λ changes. map value_of changes.items
        ≡ repaint_with (Title (shown_by surface.now).screen.title ∷ []) (shown_by surface.now)) }
{
    screen_repaint::repaint_with_title(surface.alloc, &surface.grid)
}
