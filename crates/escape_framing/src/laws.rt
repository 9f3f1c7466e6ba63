//! Laws of the definitions: a stream has one cut, each dispatch has its offset, and chunks join.
ghost use Rattle.std.specs.Prelude.{◌≡◌, ◌≢◌, ◌+◌, ℕ, Some, List, [], ◌∷◌, ◌++◌, length, map, take, drop};
ghost use Rattle.std.specs.List.{slice_get};
ghost use Rattle.escape_framing.specs.SevenBit.{seven_bit};
ghost use Rattle.escape_framing.specs.Segment.{Segment, Tail, Begun, bytes_of, IsCut};
ghost use Rattle.escape_framing.specs.Lengthened.{IsOpen, IsLengthened};
ghost use Rattle.escape_framing.specs.Dispatch.{Dispatch, dispatches_of};
ghost use Rattle.escape_framing.specs.Cut.{the_cut, tail_of, dispatches, newly_decided};
ghost use Rattle.escape_framing.specs.Held.{nothing_held, hand_out, held_of};
ghost use Rattle.escape_framing.specs.Undecided.{IsUndecided};
ghost use Rattle.escape_framing.specs.Placed.{IsPlaced, placed_from, placed_dispatches};
ghost use Rattle.escape_framing.specs.Framed.{Framed, Text, framed, placed_after, Spells, AreSeparate};
ghost use Rattle.escape_framing.specs.PlacedSegments.{placed_segments, LiesBetween};

/// A law, which needs no call: each stream has exactly one cut, which is `the_cut`.
pub fn one_cut()
    ensures cut { (stream : List ℕ) → IsCut stream (the_cut stream).segments (tail_of stream) }
    ensures only { (stream : List ℕ) (segments : List Segment) (tail : Tail) → IsCut stream segments tail
        → (segments ≡ (the_cut stream).segments) × (tail ≡ tail_of stream) }
{}

/// A law, which needs no call: bytes are open, as the last bytes of a stream can be, exactly where there are none, or
/// some continuation makes a longer segment of them.
pub fn open_bytes()
    ensures lengthened { (bytes : List ℕ) → IsLengthened bytes → IsOpen bytes }
    ensures open_ones { (bytes : List ℕ) → bytes ≢ [] → IsOpen bytes → IsLengthened bytes }
{}

/// A law, which needs no call: the placed dispatches are the stream's dispatches, each with the least count of bytes
/// that decides it however the stream goes on.
pub fn offsets()
    ensures placed { (stream : List ℕ) (index offset : ℕ) (dispatch : Dispatch)
        → slice_get (placed_dispatches stream) index ≡ Some (offset, dispatch) → IsPlaced stream index offset dispatch }
    ensures all { (stream : List ℕ) → map (λ (p : ℕ × Dispatch). p.1) (placed_dispatches stream) ≡ dispatches stream }
{}

/// A law, which needs no call: chunks decide what their concatenation decides, in the same order.
pub fn chunks_join()
    ensures { (stream x y : List ℕ)
        → newly_decided stream (x ++ y) ≡ newly_decided stream x ++ newly_decided (stream ++ x) y }
{}

/// A law, which needs no call: what is held of a stream, and no more of it, decides what more bytes hand out.
pub fn held_is_enough()
    ensures decides { (stream more : List ℕ) → newly_decided stream more ≡ (hand_out (held_of stream) more).dispatches }
    ensures goes_on { (stream more : List ℕ) → held_of (stream ++ more) ≡ (hand_out (held_of stream) more).held }
{}

/// A law, which needs no call: a dispatch comes as soon as the bytes so far decide it, since after the dispatches that
/// a stream decides, two continuations of the stream have different next dispatches.
pub fn as_soon_as_decided()
    ensures { (stream : List ℕ) → IsUndecided stream }
{}

/// A law, which needs no call: nothing is held of a stream exactly where its segments contain all of its bytes.
pub fn idle_streams()
    ensures idle { (stream : List ℕ) → held_of stream ≡ nothing_held → tail_of stream ≡ Begun [] }
    ensures whole { (stream : List ℕ) → tail_of stream ≡ Begun [] → held_of stream ≡ nothing_held }
{}

/// A law, which needs no call: the texts of a call, character by character, and the dispatches between them are its
/// placed dispatches; no text is empty, and other bytes lie between two adjacent ones.
pub fn texts_and_dispatches()
    ensures spelled { (start : ℕ) (placed : List (ℕ × Dispatch))
        → Spells (framed start placed) (map (λ (p : ℕ × Dispatch). p.1) placed) }
    ensures separate { (start : ℕ) (placed : List (ℕ × Dispatch)) → AreSeparate (framed start placed) }
    ensures held { (stream bytes : List ℕ)
        → placed_after (length stream) (held_of stream) bytes ≡ placed_from stream bytes }
{}

/// A law, which needs no call: the placed segments are those of the cut, in order, and the bytes of each are at its
/// offset in the seven-bit form of the stream, which has as many bytes as the stream.
pub fn segment_offsets()
    ensures all { (stream : List ℕ)
        → map (λ (p : ℕ × Segment). p.1) (placed_segments stream) ≡ (the_cut stream).segments }
    ensures placed { (stream : List ℕ) (index offset : ℕ) (segment : Segment)
        → slice_get (placed_segments stream) index ≡ Some (offset, segment)
        → take (length (bytes_of segment)) (drop offset (seven_bit stream)) ≡ bytes_of segment }
    ensures same_length { (stream : List ℕ) → length (seven_bit stream) ≡ length stream }
{}

/// A law, which needs no call: between two adjacent texts of a call lies a segment that hands nothing out.
pub fn texts_separate()
    ensures { (stream bytes : List ℕ) (before after : List Framed) (from next : ℕ) (text more : List ℕ)
        → framed (length stream) (placed_from stream bytes) ≡ before ++ Text from text ∷ Text next more ∷ after
        → (segment : Segment) × LiesBetween (stream ++ bytes) (from + length text) next segment
        × (dispatches_of segment ≡ []) }
{}
