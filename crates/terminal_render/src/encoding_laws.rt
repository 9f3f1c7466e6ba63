//! Laws of which changes have an encoding: all that a terminal makes. Each is the contract of a function that does
//! nothing.
ghost use Rattle.std.specs.Prelude.{◌≡◌, ◌≢◌, ◌↔◌, ℕ, List, Option, None, Some, IfSome, fold};
ghost use Rattle.cell_base.specs.Attributes.{Attributes};
ghost use Rattle.cell_base.specs.Screen.{Screen, IsScreen, height};
ghost use Rattle.cell_base.specs.ScreenSize.{IsScreenSize};
ghost use Rattle.screen_change.specs.ChangeValue.{ChangeValue};
ghost use Rattle.screen_log.specs.Log.{Log, due};
ghost use Rattle.screen_log.specs.LogSteps.{Sized, step_of_kept};
ghost use Rattle.escape_stream.specs.StreamAction.{StreamAction};
ghost use Rattle.escape_stream.specs.StreamWritable.{IsWritable};
ghost use Rattle.screen_effects.specs.Display.{Display, IsDisplay, new_display};
ghost use Rattle.screen_effects.specs.Effect.{effect};
ghost use Rattle.screen_effects.specs.Resize.{resized};
ghost use Rattle.terminal_render.specs.Carried.{HaveColors};
ghost use Rattle.terminal_render.specs.Lists.{all_rendered};
ghost use Rattle.terminal_render.specs.Pen.{pen_rendering};
ghost use Rattle.terminal_table.specs.Functions.{ControlFunction};
ghost use Rattle.terminal_table.specs.History.{Event, History, events};
ghost use Rattle.terminal_table.specs.Led.{led, led_behind, led_with_title};
ghost use Rattle.xterm_table.specs.Follows.{Follows};
ghost use Rattle.terminal_table.specs.Logged.{event_logged, log_after};
ghost use Rattle.terminal_table.specs.Meaning.{View, new_view, new_view_with, after, event_done};
ghost use Rattle.terminal_table.specs.Modes.{AreNew, Modes};
ghost use Rattle.terminal_table.specs.State.{State, IsState};
ghost use Rattle.terminal_table.specs.Steps.{step};
ghost use Rattle.terminal_table.specs.Turns.{AreSizes, IsView, IsEvent, changes_in};
ghost use Rattle.terminal_render.specs.Spelling.{ActionsHaveEncodings, AreSpelledEvents, HaveEncodings};
ghost use Rattle.terminal_render.specs.Spelling.{IsSpelledChange, IsSpelledEvent};
ghost use Rattle.terminal_render.specs.Spelling.{IsSpelledFunction, IsSpelledPen, IsSpelledScreen, IsSpelledState};
ghost use Rattle.terminal_render.specs.Spelling.{IsSpelledView};

use crate::laws::{lists_join, renderings_are_writable};
use escape_framing::laws::one_cut;

/// Attributes whose colours have bytes for components have an encoding exactly where SGR and OSC 8 set them:
/// not `wrapped`, of semantic type output, with a link that OSC 8 carries, and with no true colour that has a
/// palette fallback.
pub fn spelled_pens_are_rendered()
    ensures { (pen : Attributes) → HaveColors pen → (IsSpelledPen pen ↔ (pen_rendering pen ≢ None)) }
{}

/// The cells, the pen and the title of a new display have an encoding, and so have they after changes that
/// have an encoding themselves, and after a new size.
pub fn displays_stay_spelled()
    ensures new { (width : ℕ) (height : ℕ) → IsSpelledScreen (new_display width height).screen }
    ensures effect { (width_of : List ℕ → ℕ) (display : Display) (change : ChangeValue) → IsDisplay display
        → IsSpelledChange change → IsSpelledScreen display.screen
        → IsSpelledScreen (effect width_of display change).screen }
    ensures resized { (width : ℕ) (height : ℕ) (display : Display) → IsSpelledScreen display.screen
        → IsSpelledScreen (resized width height display).screen }
{}

/// The cells, pens and titles of a new terminal, and the run that it holds, have an encoding, and so have they
/// after events that have an encoding themselves.
pub fn views_stay_spelled()
    ensures new { (width : ℕ) (height : ℕ) → IsSpelledView (new_view width height) }
    ensures modes { (modes : Option Modes) (width : ℕ) (height : ℕ) → AreNew modes
        → IsSpelledView (new_view_with modes width height) }
    ensures event { (width_of : List ℕ → ℕ) (view : View) (event : Event) → IsView width_of view → IsEvent event
        → IsSpelledView view → IsSpelledEvent event → IsSpelledView (event_done width_of view event) }
{}

/// Each change that a terminal logs for an event with an encoding has one at the size of the screen before it.
pub fn logged_changes_have_encodings()
    ensures { (width_of : List ℕ → ℕ) (view : View) (event : Event) → IsView width_of view → IsSpelledView view
        → IsSpelledEvent event
        → HaveEncodings view.state.screen.width (height view.state.screen)
        (changes_in (event_logged width_of view event)) }
{}

/// The changes that a terminal of any profile logs for an action that asks for something with an encoding have one
/// themselves. With `actions_are_logged` of `terminal_table` this is all that the laws of viewers ask of its table.
pub fn actions_have_encodings()
    ensures { ActionsHaveEncodings }
{}

/// Each change that leads from one screen to another one of its size, also behind a control function, has an encoding
/// at that size, where the cells, the pen and the title of the second have one, and the function and the state too.
pub fn logged_differences_have_encodings()
    ensures led { (width_of : List ℕ → ℕ) (before : Screen) (after : Screen) → IsScreen before
        → Follows width_of before after → IsSpelledScreen after
        → HaveEncodings after.width (height after) (led before after) }
    ensures titled { (width_of : List ℕ → ℕ) (before : Screen) (after : Screen) → IsScreen before
        → Follows width_of before after → IsSpelledScreen after
        → HaveEncodings after.width (height after) (led_with_title before after) }
    ensures behind { (width_of : List ℕ → ℕ) (function : ControlFunction) (state : State) (after : Screen)
        → IsState width_of state → Follows width_of (step function state).screen after → IsSpelledFunction function
        → IsSpelledState state → IsSpelledScreen after
        → HaveEncodings after.width (height after) (led_behind function state.saved state.screen after) }
{}

/// A stream prints no U+0080 to U+009F, and the SGRs, links and titles that it asks for have an encoding.
pub fn events_are_spelled()
    ensures { (stream : List ℕ) (history : History) → AreSpelledEvents (events stream history) }
{
    one_cut();
}

/// So the cells, pens and titles of a terminal, and the run that it holds, have an encoding after any history.
pub fn histories_stay_spelled()
    ensures { (width_of : List ℕ → ℕ) (view : View) (history : History) → IsView width_of view → AreSizes history
        → IsSpelledView view → IsSpelledView (after width_of view history) }
{
    one_cut();
}

/// Each change that a log keeps has an encoding at the present size of the screen, after any history, and so
/// has each change that is due.
pub fn kept_changes_have_encodings()
    ensures event { (width_of : List ℕ → ℕ) (view : View) (event : Event) (log : Sized) → IsView width_of view
        → IsSpelledView view → IsSpelledEvent event
        → HaveEncodings view.state.screen.width (height view.state.screen) log.log.entries
        → HaveEncodings (event_done width_of view event).state.screen.width
        (height (event_done width_of view event).state.screen)
        (fold step_of_kept log (event_logged width_of view event)).log.entries }
    ensures history { (width_of : List ℕ → ℕ) (view : View) (history : History) (log : Sized) → IsView width_of view
        → AreSizes history → IsSpelledView view
        → HaveEncodings view.state.screen.width (height view.state.screen) log.log.entries
        → HaveEncodings (after width_of view history).state.screen.width
        (height (after width_of view history).state.screen) (log_after width_of view log history).log.entries }
    ensures due { (width : ℕ) (height : ℕ) (most : ℕ) (log : Log) (number : ℕ) → HaveEncodings width height log.entries
        → IfSome (due most log number) (HaveEncodings width height) }
{
    one_cut();
}

/// So a list of changes that have encodings has an encoding.
pub fn spelled_changes_are_rendered()
    ensures { (width : ℕ) (height : ℕ) (changes : List ChangeValue) → HaveEncodings width height changes
        → all_rendered changes width height ≢ None }
{}

/// The encoding of a list of such changes for a terminal of less than 2^32 columns and rows reads back from
/// its bytes.
pub fn spelled_changes_are_writable()
    ensures { (width : ℕ) (height : ℕ) (changes : List ChangeValue) (actions : List StreamAction)
        → IsScreenSize width height → HaveEncodings width height changes
        → all_rendered changes width height ≡ Some actions → IsWritable actions }
{
    renderings_are_writable();
    lists_join();
}
