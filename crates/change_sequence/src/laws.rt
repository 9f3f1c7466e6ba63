//! Laws of sequences: each is the contract of a function that does nothing.
ghost use Rattle.std.specs.Prelude.{◌≡◌, ℕ, List};
ghost use Rattle.change_sequence.specs.Sequence.{CellPosition, text_moved};
ghost use Rattle.screen_effects.specs.Display.{Display};
ghost use Rattle.screen_effects.specs.Strokes.{text_done};

/// After a text the column is that of the cursor on a screen of the same width, where both were at the same column
/// before. This holds whether the screen scrolls or not, and where a wrap is pending.
pub fn texts_move_as_on_a_screen()
    ensures { (width_of : List ℕ → ℕ) (display : Display) (position : CellPosition) (text : List ℕ)
        → position.column ≡ display.screen.column
        → (text_moved width_of display.screen.width position text).column
        ≡ (text_done width_of display text).screen.column }
{}
