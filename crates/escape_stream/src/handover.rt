//! `Parser::hand_to`: hands what is read to a performer.
ghost use Rattle.std.specs.Prelude.{◌≡◌, ◌↔◌, ℕ, true, IfErr, OnOk, IsErrOf, List, ◌++◌, is_err};
ghost use Rattle.std.specs.List.{FoldsTo};
ghost use Rattle.escape_framing.specs.Held.{held_of};
ghost use Rattle.escape_stream.specs.Items.{items, items_of};
ghost use Rattle.escape_stream.specs.Performing.{HaltsAt};
ghost use Rattle.escape_stream.specs.PiecesView.{items_to_come, lender_of, AsksMemoryLater, BytesTakeMemory, parser_of};
ghost use Rattle.escape_stream.specs.PiecesView.{open_pieces, held_at_end, HadFailed, IsOpen, IsOver, IsGoing, IsReady};
ghost use Rattle.escape_stream.specs.PiecesView.{PerformsUpToMemory};
ghost use Rattle.escape_stream.specs.Walking.{WalksSome};

use crate::parser::Parser;
use crate::perform::{Halted, Perform};
use crate::pieces::{Reading, Stage};

impl<'p, 'a> Reading<'p, 'a> {
    // Hands the remaining pieces to the performer, where the stage is open.
    fn hand_open<P: Perform<'a>>(&mut self, performer: &mut P) -> Result<(), Halted<P::Refusal>>
        requires going { IsGoing self.old }
        requires ready { P.ready performer.old }
        ensures same { lender_of self.new ≡ lender_of self.old }
        ensures ready { OnOk result (P.ready performer.new) }
        ensures done { OnOk result
            ((start : ℕ) → FoldsTo P.does performer.old (items_of (open_pieces start self.old)) performer.new) }
        ensures halted { IfErr result
            (λ halted. (start : ℕ)
            → HaltsAt P.does P.refuses performer.old (items_of (open_pieces start self.old)) halted performer.new) }
        ensures early { IsErrOf result Halted.Memory → WalksSome P.does self.old performer.old performer.new }
        ensures held { OnOk result ((parser_of self.new).held ≡ held_at_end self.old) }
        ensures failed { (parser_of self.new).failed ≡ is_err result }
        ensures known { IsErrOf result Halted.Failed → ⊥ }
    {
        match self.walk(performer) {
            Ok(()) => {
                self.parser.go_on();
                Ok(())
            }
            Err(halted) => Err(halted),
        }
    }

    /// Hands the remaining pieces to the performer, as `next` would return them; none remains then. Where the
    /// performer refuses one, or the parser is refused memory, the parser has failed.
    pub fn hand_to<P: Perform<'a>>(&mut self, performer: &mut P) -> Result<(), Halted<P::Refusal>>
        requires ready { IsReady self.old }
        requires performer { P.ready performer.old }
        // The pieces borrow the same parser as before.
        ensures same { lender_of self.new ≡ lender_of self.old }
        ensures over { IsOver self.new }
        ensures performer { OnOk result (P.ready performer.new) }
        // The performer performed all items in order, or those before the one where it halted.
        ensures done { OnOk result (FoldsTo P.does performer.old (items_to_come self.old) performer.new) }
        ensures halted { IfErr result
            (λ halted. HaltsAt P.does P.refuses performer.old (items_to_come self.old) halted performer.new) }
        // `Memory` comes only where a body, a header or an action takes memory.
        ensures memory { IsErrOf result Halted.Memory → AsksMemoryLater self.old }
        // The performer has then performed the items before that.
        ensures early { IsErrOf result Halted.Memory → WalksSome P.does self.old performer.old performer.new }
        // All bytes have then been read.
        ensures held { OnOk result (IsOpen self.old → (parser_of self.new).held ≡ held_at_end self.old) }
        ensures failed { IsErrOf result Halted.Failed ↔ HadFailed self.old }
        ensures after { IsOpen self.old → (parser_of self.new).failed ≡ is_err result }
        ensures stays { (IsOpen self.old → ⊥) → parser_of self.new ≡ parser_of self.old }
    {
        match self.stage {
            Stage::Open => {
                let result = self.hand_open(performer);
                self.stage = Stage::Over;
                result
            }
            Stage::Over => Ok(()),
            Stage::Failed => {
                self.stage = Stage::Over;
                Err(Halted::Failed)
            }
        }
    }
}

impl Parser {
    /// Reads bytes, and hands the texts and actions that they decide after those that were read before to the
    /// performer, in order. Where the performer refuses one, or the parser is refused memory, those before it were
    /// performed, and the parser has failed; each later call returns `Failed`, without reading.
    pub fn hand_to<'b, P: Perform<'b>>(
        &mut self,
        bytes: &'b [u8],
        performer: &mut P,
    ) -> Result<(), Halted<P::Refusal>>
        requires { P.ready performer.old }
        ensures ready { OnOk result (P.ready performer.new) }
        // Where a stream has been read, in any chunks, the performer performed the items that these bytes hand out
        // after it, or the first of them.
        ensures done { OnOk result
            ((stream : List ℕ) → self.old.held ≡ held_of stream
            → FoldsTo P.does performer.old (items stream bytes.now) performer.new) }
        ensures halted { IfErr result
            (λ halted. (stream : List ℕ) → self.old.held ≡ held_of stream
            → HaltsAt P.does P.refuses performer.old (items stream bytes.now) halted performer.new) }
        // `Memory` comes only where these bytes take memory.
        ensures memory { IsErrOf result Halted.Memory → (stream : List ℕ) → self.old.held ≡ held_of stream
            → BytesTakeMemory stream bytes.now }
        // The performer has then performed the items before that.
        ensures early { IsErrOf result Halted.Memory → (stream : List ℕ) → self.old.held ≡ held_of stream
            → PerformsUpToMemory P.does performer.old stream bytes.now performer.new }
        // The bytes have then been read too.
        ensures held { OnOk result
            ((stream : List ℕ) → self.old.held ≡ held_of stream → self.new.held ≡ held_of (stream ++ bytes.now)) }
        // A call returns `Failed` exactly where an earlier one ended early; it then performs nothing.
        ensures failed { IsErrOf result Halted.Failed ↔ (self.old.failed ≡ true) }
        ensures nothing { self.old.failed ≡ true → performer.new ≡ performer.old }
        // A parser has failed once a call ended early.
        ensures after { self.new.failed ≡ is_err result }
    {
        if self.is_failed() {
            return Err(Halted::Failed);
        }
        let mut pieces = self.reading(bytes);
        let result = pieces.hand_open(performer);
        let _ = &*pieces.into_parser();
        result
    }
}
