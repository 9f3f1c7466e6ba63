//! Laws of repaints: their changes have encodings. Each is the contract of a function that does nothing.
ghost use Rattle.std.specs.Prelude.{◌≡◌, ◌<◌, None};
ghost use Rattle.cell_base.specs.Screen.{height};
ghost use Rattle.screen_effects.specs.Display.{Display, IsDisplay};
ghost use Rattle.screen_repaint.specs.Repaint.{repaint};
ghost use Rattle.terminal_render.specs.Spelling.{HaveOtherEncodings, HaveEncodings, IsSpelledScreen};

/// Each change of a repaint of a display whose screen has an encoding has one at the display's size, except the
/// position of a pending wrap and a shape of the cursor: so all changes have one where no wrap is pending and no shape
/// was set.
pub fn repaints_have_encodings()
    ensures remaining { (display : Display) → IsDisplay display → IsSpelledScreen display.screen
        → HaveOtherEncodings display.screen (repaint display) }
    ensures all { (display : Display) → IsDisplay display → IsSpelledScreen display.screen
        → display.screen.column < display.screen.width → display.shape ≡ None
        → HaveEncodings display.screen.width (height display.screen) (repaint display) }
{}
