//! Laws of the table: each is the contract of a function that does nothing.
ghost use Rattle.std.specs.Prelude.{false, ◌≡◌, ℕ, ◌<◌, List, ◌∷◌, ◌++◌, Option, None, []};
ghost use Rattle.cell_base.specs.Row.{space};
ghost use Rattle.screen_effects.specs.Display.{Display, IsDisplay};
ghost use Rattle.screen_effects.specs.Effect.{replay};
ghost use Rattle.escape_stream.specs.StreamWritable.{IsWritable};
ghost use Rattle.terminal_table.specs.Alone.{IsIdle, alone, row_done, row_logged};
ghost use Rattle.terminal_table.specs.Facts.{ActionsAreLogged, ActionsKeepStates, PlainTerminalsStay};
ghost use Rattle.terminal_table.specs.Functions.{ControlFunction, function_of};
ghost use Rattle.escape_framing.specs.Held.{held_of};
ghost use Rattle.escape_stream.specs.StreamAction.{StreamAction, is_print};
ghost use Rattle.escape_stream.specs.StreamActions.{newly_decided_actions};
ghost use Rattle.terminal_table.specs.History.{History, Piece, Forget, Event, Act, events};
ghost use Rattle.terminal_table.specs.Logged.{run_logged, event_logged, logged};
ghost use Rattle.terminal_table.specs.Meaning.{View, settled, event_done, after, with_size};
ghost use Rattle.terminal_table.specs.Replies.{with_taken, without_replies};
ghost use Rattle.terminal_table.specs.Modes.{AreNew, Modes};
ghost use Rattle.terminal_table.specs.Requests.{AsksForNothing, acted, acted_changes, without_last};
ghost use Rattle.terminal_table.specs.State.{State, IsState, new_state, new_state_with};
ghost use Rattle.terminal_table.specs.Steps.{step, step_of};
ghost use Rattle.terminal_table.specs.Runs.{run_changes_of, run_step};
ghost use Rattle.terminal_table.specs.Changes.{changes, changes_of};
ghost use Rattle.terminal_table.specs.RunText.{IsRunText};
ghost use Rattle.terminal_table.specs.Turns.{Turns, IsView, AreSizes, IsEvent, AreEvents, DecideAlike};
ghost use Rattle.terminal_table.specs.Turns.{replayed, all_replayed};

use escape_framing::laws::{held_is_enough, idle_streams, one_cut};
use escape_stream::action_laws::actions_of_chunks_join;
use escape_stream::encoding_laws::writable_lists_read_on;

/// The changes that are logged for a control function, for an action and for a run have on a display
/// the effect of the table's step: they turn a display that shows the state's screen into one that shows
/// the screen after the step.
pub fn changes_have_the_effect_of_steps()
    ensures functions { (width_of : List ℕ → ℕ) (function : ControlFunction) (state : State) (display : Display)
        → IsState width_of state → IsDisplay display → display.screen ≡ state.screen
        → Turns display (replay width_of display (changes function state.saved state.screen))
        (step function state).screen }
    ensures actions { (width_of : List ℕ → ℕ) (action : StreamAction) (state : State) (display : Display)
        → IsState width_of state → IsDisplay display → display.screen ≡ state.screen
        → Turns display (replay width_of display (changes_of (function_of action) state))
        (step_of (function_of action) state).screen }
    ensures runs { (width_of : List ℕ → ℕ) (text : List ℕ) (state : State) (display : Display) → IsRunText text
        → IsState width_of state → IsDisplay display → display.screen ≡ state.screen
        → Turns display (replay width_of display (run_changes_of width_of text state))
        (run_step width_of text state).screen }
{}

/// What all that stands above asks of the table, for each profile: the changes that are logged for an action turn a
/// display of the screen before it into one of the screen after it, and states stay lawful. The third fact is a law of
/// the crate `terminal_render`: each change that is logged has an encoding.
pub fn actions_are_logged()
    ensures logged { ActionsAreLogged }
    ensures states { ActionsKeepStates }
{}

/// On a plain terminal an action has the step, and the changes, of the control function of the table that it asks for;
/// and a plain terminal stays one.
pub fn plain_terminals_have_the_table()
    ensures state { (width_of : List ℕ → ℕ) (action : StreamAction) (state : State) → state.modes ≡ None
        → acted width_of action state ≡ step_of (function_of action) state }
    ensures changes { (width_of : List ℕ → ℕ) (action : StreamAction) (state : State) → state.modes ≡ None
        → acted_changes width_of action state ≡ changes_of (function_of action) state }
    ensures stays { PlainTerminalsStay }
{}

/// A new terminal's state is lawful, where a space takes one column, and a lawful state stays lawful after a step, a
/// run or a new size: so each cell of its screen stays a text that is by itself one cluster (UAX 29), without C0
/// controls and DEL, in the columns that it takes.
pub fn states_stay_lawful()
    ensures new { (width_of : List ℕ → ℕ) (width : ℕ) (height : ℕ) → width_of space ≡ 1 → 0 < width → 0 < height
        → IsState width_of (new_state width height) }
    ensures modes { (width_of : List ℕ → ℕ) (modes : Option Modes) (width : ℕ) (height : ℕ) → AreNew modes
        → width_of space ≡ 1 → 0 < width → 0 < height → IsState width_of (new_state_with modes width height) }
    ensures steps { (width_of : List ℕ → ℕ) (function : ControlFunction) (state : State) → IsState width_of state
        → IsState width_of (step function state) }
    ensures runs { (width_of : List ℕ → ℕ) (text : List ℕ) (state : State) → IsRunText text → IsState width_of state
        → IsState width_of (run_step width_of text state) }
    ensures sizes { (width_of : List ℕ → ℕ) (width : ℕ) (height : ℕ) (state : State) → 0 < width → 0 < height
        → IsState width_of state → IsState width_of (with_size width height state) }
{}

/// A stream prints UTF-8 without controls.
pub fn prints_hold_no_controls()
    ensures { (stream : List ℕ) (history : History) → AreSizes history → AreEvents (events stream history) }
{
    one_cut();
}

/// An action for which the table has no control function leaves the state as it is, with the screen,
/// its pen and title, the saved cursor and the replies, and has no changes. One that asks for nothing in the
/// terminal's profile, and is no print, ends a run, and nothing else; but that no run is then the one before.
pub fn other_actions_end_runs()
    ensures state { (action : StreamAction) (state : State) → function_of action ≡ None
        → step_of (function_of action) state ≡ state }
    ensures changes { (action : StreamAction) (state : State) → function_of action ≡ None
        → changes_of (function_of action) state ≡ [] }
    ensures view { (width_of : List ℕ → ℕ) (view : View) (action : StreamAction) → is_print action ≡ false
        → AsksForNothing view.state.modes action
        → event_done width_of view (Act action)
        ≡ record (settled width_of view) { state = without_last (settled width_of view).state } }
    ensures logged { (width_of : List ℕ → ℕ) (view : View) (action : StreamAction) → is_print action ≡ false
        → AsksForNothing view.state.modes action → event_logged width_of view (Act action)
        ≡ run_logged width_of view }
{}

/// Histories leave lawful views, if each size has a column and a row.
pub fn views_stay_lawful()
    ensures event { (width_of : List ℕ → ℕ) (view : View) (event : Event) → IsView width_of view → IsEvent event
        → IsView width_of (event_done width_of view event) }
    ensures history { (width_of : List ℕ → ℕ) (view : View) (history : History) → IsView width_of view
        → AreSizes history → IsView width_of (after width_of view history) }
{
    one_cut();
}

/// The changes that are logged for an event, and for a history, have on a display the effect of the table:
/// replayed on a display that shows the screen before, they leave one that shows the screen after.
pub fn logged_changes_show_the_meaning()
    ensures event { (width_of : List ℕ → ℕ) (view : View) (event : Event) (display : Display) → IsView width_of view
        → IsEvent event → IsDisplay display → display.screen ≡ view.state.screen
        → Turns display (replayed width_of view event display) (event_done width_of view event).state.screen }
    ensures history { (width_of : List ℕ → ℕ) (view : View) (history : History) (display : Display)
        → IsView width_of view → AreSizes history → IsDisplay display → display.screen ≡ view.state.screen
        → Turns display (all_replayed width_of view (events view.stream history) display)
        (after width_of view history).state.screen }
{
    one_cut();
}

/// One history and then another show and log the same as both of them joined; and a chunk may be cut
/// in two.
pub fn histories_join()
    ensures after { (width_of : List ℕ → ℕ) (view : View) (first : History) (second : History)
        → after width_of view (first ++ second) ≡ after width_of (after width_of view first) second }
    ensures logged { (width_of : List ℕ → ℕ) (view : View) (first : History) (second : History)
        → logged width_of view (first ++ second)
        ≡ logged width_of view first ++ logged width_of (after width_of view first) second }
    ensures cut { (width_of : List ℕ → ℕ) (view : View) (x : List ℕ) (y : List ℕ) (history : History)
        → after width_of view (Piece x ∷ Piece y ∷ history) ≡ after width_of view (Piece (x ++ y) ∷ history) }
    ensures cut_logged { (width_of : List ℕ → ℕ) (view : View) (x : List ℕ) (y : List ℕ) (history : History)
        → logged width_of view (Piece x ∷ Piece y ∷ history) ≡ logged width_of view (Piece (x ++ y) ∷ history) }
{
    actions_of_chunks_join();
}

/// Taking the replies changes nothing else, then and later: a history that goes on from there shows, saves, holds and
/// logs the same, and has the same new replies, which follow those that were taken.
pub fn replies_are_separate()
    ensures after { (width_of : List ℕ → ℕ) (view : View) (history : History)
        → after width_of view history ≡ with_taken view.state.replies (after width_of (without_replies view) history) }
    ensures logged { (width_of : List ℕ → ℕ) (view : View) (history : History)
        → logged width_of (without_replies view) history ≡ logged width_of view history }
{}

/// A run that is held goes on where the log forgets changes between two steps, and where bytes decide no action.
pub fn runs_go_on()
    ensures forgets { (width_of : List ℕ → ℕ) (view : View) (first : History) (second : History) (number : ℕ)
        → after width_of view (first ++ Forget number ∷ second) ≡ after width_of view (first ++ second) }
    ensures undecided { (width_of : List ℕ → ℕ) (view : View) (bytes : List ℕ)
        → newly_decided_actions view.stream bytes ≡ []
        → after width_of view (Piece bytes ∷ []) ≡ record view { stream = view.stream ++ bytes } }
{}

/// Of the stream so far only its unfinished end matters: views go on alike where every continuation of
/// their streams has the same further actions; and streams with the same unfinished end have these.
pub fn unfinished_ends_matter()
    ensures held { (one : List ℕ) (other : List ℕ) → held_of one ≡ held_of other → DecideAlike one other }
    ensures state { (width_of : List ℕ → ℕ) (view : View) (other : List ℕ) (history : History)
        → DecideAlike view.stream other
        → (after width_of (record view { stream = other }) history).state ≡ (after width_of view history).state }
    ensures run { (width_of : List ℕ → ℕ) (view : View) (other : List ℕ) (history : History)
        → DecideAlike view.stream other
        → (after width_of (record view { stream = other }) history).held ≡ (after width_of view history).held }
    ensures logged { (width_of : List ℕ → ℕ) (view : View) (other : List ℕ) (history : History)
        → DecideAlike view.stream other
        → logged width_of (record view { stream = other }) history ≡ logged width_of view history }
{
    held_is_enough();
    actions_of_chunks_join();
}

/// The text of one action that is writable by itself and then a look, where nothing is unfinished and no run
/// is held, have the step and the changes of the action's row of the table; and nothing is unfinished after
/// them.
pub fn single_actions_are_their_rows()
    ensures state { (width_of : List ℕ → ℕ) (view : View) (action : StreamAction) → IsIdle view
        → IsWritable (action ∷ []) → (after width_of view (alone action)).state ≡ row_done width_of action view.state }
    ensures logged { (width_of : List ℕ → ℕ) (view : View) (action : StreamAction) → IsIdle view
        → IsWritable (action ∷ []) → logged width_of view (alone action) ≡ row_logged width_of action view.state }
    ensures idle { (width_of : List ℕ → ℕ) (view : View) (action : StreamAction) → IsIdle view
        → IsWritable (action ∷ []) → IsIdle (after width_of view (alone action)) }
{
    idle_streams();
    writable_lists_read_on();
}
