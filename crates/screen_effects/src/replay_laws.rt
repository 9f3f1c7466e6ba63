//! Laws of what changes that write cells do to a display; repaints and differences build on them. Each is the contract
//! of a function that does nothing.
ghost use Rattle.std.specs.Prelude.{◌≡◌, ℕ, ◌+◌, ◌<◌, ◌≤◌, List, length};
ghost use Rattle.cell_base.specs.CellContent.{CellContent};
ghost use Rattle.screen_change.specs.CellChanges.{cells_written};
ghost use Rattle.cell_base.specs.Row.{space};
ghost use Rattle.screen_change.specs.ChangeValue.{ChangeValue};
ghost use Rattle.screen_effects.specs.Display.{Display, IsDisplay, new_display};
ghost use Rattle.screen_effects.specs.Effect.{effect, replay};
ghost use Rattle.screen_effects.specs.Resize.{resized};
ghost use Rattle.screen_effects.specs.WrittenCells.{AreSound, HasUtf8, IsSoundDisplay, joined_columns, with_cells};

/// The changes that write some cells, which fit in the cursor's row, set their columns from the
/// cursor on and leave the cursor after them; the pen then has the last cell's attributes.
pub fn written_cells_are_shown()
    ensures { (width_of : List ℕ → ℕ) (display : Display) (cells : List CellContent) → IsDisplay display
        → AreSound width_of cells → 0 < length cells
        → display.screen.column + length (joined_columns cells) ≤ display.screen.width
        → replay width_of display (cells_written display.screen.pen cells) ≡ with_cells cells display }
{}

/// Each cell of a screen has a text that is by itself one cluster (UAX 29), without C0 controls and
/// DEL, and the columns that it takes: this holds for the cells of a new screen, and changes and other
/// sizes keep it. A space takes one column.
pub fn cells_stay_sound()
    ensures new { (width_of : List ℕ → ℕ) (width : ℕ) (height : ℕ) → width_of space ≡ 1
        → IsSoundDisplay width_of (new_display width height) }
    ensures effect { (width_of : List ℕ → ℕ) (display : Display) (change : ChangeValue) → width_of space ≡ 1
        → IsDisplay display → HasUtf8 change → IsSoundDisplay width_of display
        → IsSoundDisplay width_of (effect width_of display change) }
    ensures resized { (width_of : List ℕ → ℕ) (width : ℕ) (height : ℕ) (display : Display) → width_of space ≡ 1
        → IsSoundDisplay width_of display → IsSoundDisplay width_of (resized width height display) }
{}
