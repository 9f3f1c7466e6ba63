//! Laws of recordings, as the contracts of functions that do nothing.
ghost use Rattle.std.specs.Prelude.{ℕ, List};
ghost use Rattle.recordings.specs.Order.{AreFrom};
ghost use Rattle.recordings.specs.Recordings.{recording_of};

/// No event of a recording is before the one before it.
pub fn events_are_in_order()
    ensures { (width : ℕ) (height : ℕ) (input : List ℕ) → AreFrom 0 (recording_of width height input).events }
{}
