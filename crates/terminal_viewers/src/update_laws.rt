//! Laws of updates: they paint the screen or have the changes that are due, and have encodings. Each is the contract
//! of a function that does nothing.
ghost use Rattle.std.specs.Prelude.{◌≡◌, ℕ, ◌+◌, ◌*◌, ◌≤◌, List, [], length, Some, None};
ghost use Rattle.cell_base.specs.Row.{space};
ghost use Rattle.cell_base.specs.Screen.{IsScreen, Screen, height};
ghost use Rattle.screen_change.specs.ChangeValue.{ChangeValue};
ghost use Rattle.screen_log.specs.Log.{due, most_due};
ghost use Rattle.screen_log.specs.LogSteps.{Sized};
ghost use Rattle.screen_effects.specs.Display.{Display, IsDisplay};
ghost use Rattle.screen_effects.specs.Effect.{replay};
ghost use Rattle.screen_effects.specs.WrittenCells.{IsSoundDisplay};
ghost use Rattle.terminal_render.specs.Spelling.{HaveEncodings, IsSpelledScreen};
ghost use Rattle.terminal_viewers.specs.Update.{display_on, painted_anew, update_changes, update_of};

/// Any display of the same size on which the changes that paint a screen anew are replayed shows that
/// screen: its rows, its cursor with a wrap that may be pending, its pen, and its title, also an empty
/// one. A space takes one column, and each cell of the screen has a text that is by itself one cluster
/// (UAX 29) without C0 controls and DEL, and the columns that this text takes, as all cells have that
/// changes write.
pub fn updates_paint_the_screen()
    ensures { (width_of : List ℕ → ℕ) (other : Display) (screen : Screen) → width_of space ≡ 1
        → IsDisplay (display_on screen) → IsSoundDisplay width_of (display_on screen) → IsDisplay other
        → other.screen.width ≡ screen.width → length other.screen.rows ≡ length screen.rows
        → (replay width_of other (painted_anew screen)).screen ≡ screen }
{}

/// Where a screen has an encoding, each change that paints it anew has one at the screen's size, and so has each
/// change of an update if the changes that the log keeps have one.
pub fn updates_have_encodings()
    ensures painted { (screen : Screen) → IsDisplay (display_on screen) → IsSpelledScreen screen
        → HaveEncodings screen.width (height screen) (painted_anew screen) }
    ensures update { (screen : Screen) (log : Sized) (number : ℕ) → IsDisplay (display_on screen)
        → IsSpelledScreen screen → HaveEncodings screen.width (height screen) log.log.entries
        → HaveEncodings screen.width (height screen) (update_changes screen log number) }
{}

/// At most 2wh + 2h + 11 changes paint a screen of w columns and h rows anew, and an update has no more,
/// where at most as many changes are due as the log of a screen of that size allows. Each change that the log
/// keeps has a number, as in all logs.
pub fn updates_are_counted()
    ensures painted { (screen : Screen) → IsScreen screen
        → length (painted_anew screen) ≤ 2 * screen.width * height screen + 2 * height screen + 11 }
    ensures update { (screen : Screen) (log : Sized) (number : ℕ) → IsScreen screen
        → length log.log.entries ≤ log.log.number → log.most ≡ most_due screen.width (height screen)
        → length (update_changes screen log number) ≤ 2 * screen.width * height screen + 2 * height screen + 11 }
{}

/// An update has the changes that are due where the log has these, and else those that paint the screen anew;
/// and where the list of due changes is empty it has no bytes.
pub fn updates_are_what_is_due()
    ensures due { (screen : Screen) (log : Sized) (number : ℕ) (changes : List ChangeValue)
        → due log.most log.log number ≡ Some changes → update_changes screen log number ≡ changes }
    ensures painted { (screen : Screen) (log : Sized) (number : ℕ) → due log.most log.log number ≡ None
        → update_changes screen log number ≡ painted_anew screen }
    ensures nothing { (screen : Screen) (log : Sized) (number : ℕ) → due log.most log.log number ≡ Some []
        → update_of screen log number ≡ [] }
{}
