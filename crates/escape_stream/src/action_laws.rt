//! Laws of the actions of a stream: functions that do nothing, each ensuring one or more.
ghost use Rattle.std.specs.Prelude.{◌≡◌, ℕ, List, ◌++◌, Some, length, map, filter, nat_lt};
ghost use Rattle.std.specs.List.{slice_get};
ghost use Rattle.escape_stream.specs.StreamAction.{StreamAction};
ghost use Rattle.escape_framing.specs.Dispatch.{Dispatch};
ghost use Rattle.escape_framing.specs.Placed.{placed_from};
ghost use Rattle.escape_stream.specs.Pieces.{pieces, Spells, actions_of_pieces, AreSeparate};
ghost use Rattle.escape_stream.specs.StreamActions.{actions_of, stream_actions, newly_decided_actions, placed_actions};
ghost use Rattle.escape_stream.specs.StreamActions.{IsPlacedAction, IsUndecidedAction};

/// The placed actions are the stream's actions, in order, each with the least count of bytes that decides it however
/// the stream goes on. Bytes after a stream newly decide the actions whose positions lie in them.
pub fn action_offsets()
    ensures placed { (stream : List ℕ) (index offset : ℕ) (action : StreamAction)
        → slice_get (placed_actions stream) index ≡ Some (offset, action) → IsPlacedAction stream index offset action }
    ensures all { (stream : List ℕ)
        → map (λ (p : ℕ × StreamAction). p.1) (placed_actions stream) ≡ stream_actions stream }
    ensures in_chunks { (stream more : List ℕ)
        → newly_decided_actions stream more
        ≡ map (λ (p : ℕ × StreamAction). p.1)
        (filter (λ (p : ℕ × StreamAction). nat_lt (length stream) p.0) (placed_actions (stream ++ more))) }
{}

/// An action comes as soon as the bytes so far decide it, since after the actions that a stream decides, two
/// continuations of the stream have different next actions.
pub fn actions_as_soon_as_decided()
    ensures { (stream : List ℕ) → IsUndecidedAction stream }
{}

/// Chunks decide what their concatenation decides, in the same order.
pub fn actions_of_chunks_join()
    ensures { (stream x y : List ℕ)
        → newly_decided_actions stream (x ++ y)
        ≡ newly_decided_actions stream x ++ newly_decided_actions (stream ++ x) y }
{}

/// The pieces of a call, with each text as the prints of its characters, are the actions of the dispatches whose
/// offsets lie in the call, in order, and so the actions that its bytes newly decide. No text is empty, and two texts
/// are adjacent only where a segment of the stream without an action lies between them.
pub fn pieces_are_actions()
    ensures placed { (stream bytes : List ℕ)
        → Spells (pieces stream bytes) (actions_of (map (λ (p : ℕ × Dispatch). p.1) (placed_from stream bytes))) }
    ensures decided { (stream bytes : List ℕ)
        → actions_of_pieces (pieces stream bytes) ≡ newly_decided_actions stream bytes }
    ensures separate { (stream bytes : List ℕ) → AreSeparate (stream ++ bytes) (pieces stream bytes) }
{}
