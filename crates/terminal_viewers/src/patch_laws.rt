//! Laws of patches: they lead to the screen, and print the fresh cells. Each is the contract of a function that does
//! nothing.
ghost use Rattle.std.specs.Prelude.{◌≡◌, ℕ, List, length};
ghost use Rattle.cell_base.specs.Row.{space};
ghost use Rattle.cell_base.specs.Screen.{Screen, height};
ghost use Rattle.screen_effects.specs.Display.{IsDisplay};
ghost use Rattle.screen_effects.specs.WrittenCells.{IsSoundDisplay};
ghost use Rattle.terminal_viewers.specs.Patch.{patch_changes};
ghost use Rattle.terminal_viewers.specs.Reading.{PatchesAreShown, PatchesArePlain, PatchesLeaveIdle};
ghost use Rattle.terminal_viewers.specs.Reading.{PatchesPrintFreshCells};
ghost use Rattle.terminal_render.specs.Spelling.{HaveEncodings, IsSpelledScreen};
ghost use Rattle.terminal_viewers.specs.Shows.{replayed_on};
ghost use Rattle.terminal_viewers.specs.Update.{display_on};

use escape_framing::laws::idle_streams;
use escape_stream::encoding_laws::writable_lists_read_on;
use screen_difference::laws::{differences_draw_their_cells, differences_show_the_new_side};
use screen_difference::print_laws::{differences_print_the_fresh_cells, prints_join};
use terminal_render::encoding_laws::spelled_changes_are_writable;
use terminal_render::laws::lists_have_the_effect;

/// The changes of a patch from a screen to another one of its size, replayed on the first, leave the second: its
/// rows, its cursor with a wrap that may be pending, the cursor's visibility, its pen and its title. A space takes
/// one column, and each cell of the second has a text that is by itself one cluster (UAX 29) without C0 controls
/// and DEL, and the columns that this text takes.
pub fn patches_lead_to_the_screen()
    ensures { (width_of : List ℕ → ℕ) (old : Screen) (new : Screen) → width_of space ≡ 1 → IsDisplay (display_on old)
        → IsDisplay (display_on new) → IsSoundDisplay width_of (display_on new) → old.width ≡ new.width
        → height old ≡ height new → replayed_on width_of old (patch_changes old new) ≡ new }
{
    differences_draw_their_cells();
    differences_show_the_new_side();
}

/// Each change of a patch between two screens of one size has an encoding at that size, where the cells, the pen
/// and the title of the second have one.
pub fn patches_have_encodings()
    ensures { (old : Screen) (new : Screen) → IsDisplay (display_on old) → IsDisplay (display_on new)
        → old.width ≡ new.width → height old ≡ height new → IsSpelledScreen new
        → HaveEncodings new.width (height new) (patch_changes old new) }
{}

/// A viewer of a screen's size that is ready for changes and has nothing unfinished shows the screen once it is
/// fed the patch from the screen that it shows: its saved cursor and its replies stay, nothing is unfinished and
/// no run is held. The screen's cells are sound, and they have an encoding.
pub fn viewers_read_patches()
    ensures shown { PatchesAreShown }
    ensures idle { PatchesLeaveIdle }
{
    lists_have_the_effect();
    spelled_changes_are_writable();
    patches_have_encodings();
    patches_lead_to_the_screen();
}

/// A patch that such a viewer reads prints the cells that it doesn't show, each once, in turn and at its position, and
/// after them, exactly where a wrap is pending on the screen, the last visible cell of the cursor's row. Nothing
/// else that the viewer reads changes its rows, and nothing scrolls.
pub fn patches_print_the_fresh_cells()
    ensures prints { PatchesPrintFreshCells }
    ensures plain { PatchesArePlain }
{
    differences_draw_their_cells();
    differences_show_the_new_side();
    differences_print_the_fresh_cells();
    prints_join();
    idle_streams();
    writable_lists_read_on();
    spelled_changes_are_writable();
    patches_have_encodings();
    patches_lead_to_the_screen();
    viewers_read_patches();
}
