//! Laws of effects: displays stay lawful. Each is the contract of a function that does nothing.
ghost use Rattle.std.specs.Prelude.{◌≡◌, ℕ, ◌<◌, List};
ghost use Rattle.screen_change.specs.ChangeValue.{ChangeValue};
ghost use Rattle.screen_effects.specs.Display.{Display, IsDisplay, new_display};
ghost use Rattle.screen_effects.specs.Effect.{effect, replay};
ghost use Rattle.screen_effects.specs.Resize.{resized};

/// A new display is lawful, and changes and other sizes keep a lawful display lawful.
pub fn displays_stay_lawful()
    ensures new { (width : ℕ) (height : ℕ) → 0 < width → 0 < height → IsDisplay (new_display width height) }
    ensures effect { (width_of : List ℕ → ℕ) (display : Display) (change : ChangeValue) → IsDisplay display
        → IsDisplay (effect width_of display change) }
    ensures replay { (width_of : List ℕ → ℕ) (changes : List ChangeValue) (display : Display) → IsDisplay display
        → IsDisplay (replay width_of display changes) }
    ensures resized { (width : ℕ) (height : ℕ) (display : Display) → 0 < width → 0 < height → IsDisplay display
        → IsDisplay (resized width height display) }
{}
