//! The law of repaints: the contract of a function that does nothing.
ghost use Rattle.std.specs.Prelude.{◌≡◌, ℕ, List, [], ◌∷◌};
ghost use Rattle.screen_change.specs.ChangeValue.{ChangeValue, Title};
ghost use Rattle.screen_effects.specs.Display.{Display};
ghost use Rattle.screen_effects.specs.Effect.{replay};
ghost use Rattle.screen_repaint.specs.Repaint.{repaint, repaint_with};
ghost use Rattle.screen_repaint.specs.Shown.{AreTitles, CanBePainted, shown_on, title_left, title_or};

/// Any display of the same size on which a repaint is played shows what the painted display shows:
/// its rows, its cursor's position, whether that is visible, and its pen. The title is the one that the
/// repaint sets, or else stays; sizes of rows stay, and so does the cursor's shape where the painted
/// display shows none. A space takes one column, and each cell of that display is taken to have a
/// text that is by itself one cluster (UAX 29) without C0 controls and DEL, in as many columns as it
/// takes, as all cells have that changes write.
pub fn repaints_show_the_display()
    ensures shown { (width_of : List ℕ → ℕ) (other : Display) (display : Display) (titles : List ChangeValue)
        → CanBePainted width_of other display → AreTitles titles
        → replay width_of other (repaint_with titles display)
        ≡ shown_on other (title_left other.screen.title titles) display }
    ensures titled { (width_of : List ℕ → ℕ) (other : Display) (display : Display) (title : List ℕ)
        → CanBePainted width_of other display
        → replay width_of other (repaint_with (Title title ∷ []) display) ≡ shown_on other title display }
    ensures repainted { (width_of : List ℕ → ℕ) (other : Display) (display : Display)
        → CanBePainted width_of other display
        → replay width_of other (repaint display)
        ≡ shown_on other (title_or display.screen.title other.screen.title) display }
{}
