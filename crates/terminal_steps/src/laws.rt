//! The law that the texts and actions of a call have the meaning of its bytes.
ghost use Rattle.std.specs.Prelude.{◌≡◌, ℕ, List, [], ◌∷◌, fold};
ghost use Rattle.escape_stream.specs.Items.{items};
ghost use Rattle.terminal_table.specs.History.{Piece};
ghost use Rattle.terminal_table.specs.Logged.{events_logged, logged};
ghost use Rattle.terminal_table.specs.Meaning.{View, after, event_done};
ghost use Rattle.terminal_table.specs.Turns.{AreEvents};
ghost use Rattle.terminal_steps.specs.Items.{item_events};

use escape_framing::laws::{chunks_join, one_cut};
use escape_stream::action_laws::pieces_are_actions;

/// The texts and actions of a call have the meaning that the table gives the bytes of the call after a stream, and log
/// the same; and they print no control.
pub fn pieces_have_the_meaning_of_bytes()
    ensures state { (width_of : List ℕ → ℕ) (view : View) (bytes : List ℕ)
        → (fold (event_done width_of) view (item_events (items view.stream bytes))).state
        ≡ (after width_of view (Piece bytes ∷ [])).state }
    ensures run { (width_of : List ℕ → ℕ) (view : View) (bytes : List ℕ)
        → (fold (event_done width_of) view (item_events (items view.stream bytes))).held
        ≡ (after width_of view (Piece bytes ∷ [])).held }
    ensures logged { (width_of : List ℕ → ℕ) (view : View) (bytes : List ℕ)
        → events_logged width_of view (item_events (items view.stream bytes))
        ≡ logged width_of view (Piece bytes ∷ []) }
    ensures events { (stream : List ℕ) (bytes : List ℕ) → AreEvents (item_events (items stream bytes)) }
{
    one_cut();
    chunks_join();
    pieces_are_actions();
}
