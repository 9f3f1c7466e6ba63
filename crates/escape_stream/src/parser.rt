//! `Parser`: reads a stream of bytes as actions.
ghost use Rattle.std.specs.Prelude.{◌≡◌, ◌↔◌, ◌+◌, ℕ, true, false, IfOk, IfSome, OnErr, IsTrue, List, [], ◌++◌, length};
ghost use Rattle.std.specs.Prelude.{Some, None};
ghost use Rattle.escape_framing.specs.Framed.{IsReached};
ghost use Rattle.escape_framing.specs.Held.{TakesMemory, held_of, nothing_held};
ghost use Rattle.csi_codec.specs.Tokens.{parameters_of};
ghost use Rattle.escape_framing.specs.Read.{ReadsEvent};
ghost use Rattle.escape_osc.specs.Parts.{parts_of};
ghost use Rattle.escape_osc.specs.Reading.{osc_reading};
ghost use Rattle.escape_stream.specs.ParserShown.{lending_in};
ghost use Rattle.escape_stream.specs.Pieces.{pieces};
ghost use Rattle.escape_stream.specs.PiecesView.{lender_of, parser_of, open_pieces};
ghost use Rattle.escape_stream.specs.PiecesView.{held_at_end, IsAtStart, IsUnderWay, IsOpen, HadFailed, IsReady};
ghost use Rattle.escape_stream.specs.Sequences.{FirstTakes, Gives, actions_left, optional_action, own_actions};
ghost use Rattle.escape_stream.specs.StreamAction.{command};
ghost use Rattle.escape_stream.specs.StreamActionView.{value_of};

use crate::action::Action;
use crate::event_actions::{command_action, event_action};
use crate::pieces::{Pieces, Reading, Stage};
use crate::sequence::Sequence;
use escape_framing::{Event, Framer, Read};
use std::alloc::{AllocError, Global};
use std::marker::Model;

/// Reads a stream of bytes, in any chunks, and hands out its actions as soon as the bytes decide them. It keeps only
/// what is unfinished. Memory is taken for the bodies of operating system commands, the headers of device control
/// strings, and the actions that hold these, a request or the unread rest of a control sequence; once it was refused,
/// the parser has failed.
#[derive(Drop)]
pub struct Parser {
    alloc: Global,
    framer: Framer,
    failed: bool,
}

// Clauses see what is held of the stream, what the framer lends, and whether the parser has failed.
impl Model for Parser {
    ghost use Rattle.escape_stream.specs.ParserShown.{Parsing};

    ghost Value = { Parsing };

    ghost use Rattle.escape_stream.specs.ParserView.{parsing_of, HoldsStream};

    ghost view = { parsing_of };

    ghost invariant = { HoldsStream };
}

impl Parser {
    /// A parser at a stream's start; it takes no memory.
    pub fn new(alloc: Global) -> Parser
        ensures held { result.held ≡ held_of [] }
        ensures failed { result.failed ≡ false }
    {
        Parser {
            alloc,
            framer: Framer::new(alloc),
            failed: false,
        }
    }

    // The allocator.
    pub(crate) fn alloc(&self) -> Global {
        self.alloc
    }

    /// Whether the parser has failed: a call was refused memory or by its performer, or its pieces were not taken to
    /// their end.
    pub fn is_failed(&self) -> bool
        ensures { result ≡ self.now.failed }
    {
        self.failed
    }

    // The framer, which reads the stream.
    #[inline(always)]
    pub(crate) fn framer(&self) -> &Framer
        ensures { result.now ≡ lending_in self.now }
    {
        &self.framer
    }

    // Marks the parser as failed, as it is until the pieces of a call end.
    fn fail(&mut self)
        ensures { self.new ≡ record self.old { failed = true } }
    {
        self.failed = true;
    }

    // Reads the start of the bytes for an iterator of pieces, whose parser counts as failed until the pieces end.
    #[inline(always)]
    pub(crate) fn read(&mut self, bytes: &[u8]) -> Result<Read, AllocError>
        requires { self.old.failed ≡ true }
        ensures reads { IfOk result (λ r. ReadsEvent self.old.held bytes.now r (lending_in self.new)) }
        ensures failed { self.new.failed ≡ true }
        ensures memory { OnErr result (TakesMemory self.old.held.kept) }
    {
        self.framer.next(bytes)
    }

    // Keeps parameter bytes as those of the control sequence that was read last.
    pub(crate) fn keep_parameters(&mut self, list: &[u8])
        requires { self.old.held ≡ nothing_held }
        ensures { self.new ≡ record self.old { parameters = parameters_of list.now } }
    {
        self.framer.keep_parameters(list);
    }

    // The action of the operating system command with this body.
    pub(crate) fn command_action(&self, body: &[u8]) -> Result<Action, AllocError>
        ensures { IfOk result (λ action. value_of action ≡ command (osc_reading (parts_of body.now))) }
    {
        command_action(self.alloc, body)
    }

    // The action of the last event that was read, unless it is a control sequence, or a control without a name. Frees
    // the memory of the body that was lent for it.
    pub(crate) fn action_of(&mut self, event: Event) -> Result<Option<Action>, AllocError>
        ensures action { IfOk result (λ action. optional_action action ≡ own_actions (lending_in self.old) event) }
        ensures remaining { self.new ≡ record self.old { body = self.new.body } }
        ensures memory { OnErr result (FirstTakes (own_actions (lending_in self.old) event)) }
    {
        let action = event_action(self.alloc, event, self.framer.body())?;
        if matches!(event, Event::OperatingSystemCommand | Event::Enter(_)) {
            self.framer.release_body(self.alloc);
        }
        Ok(action)
    }

    // The next action of the control sequence that was read last, if one is left.
    #[inline(always)]
    pub(crate) fn next_of(
        &self,
        sequence: &mut Option<Sequence>,
    ) -> Result<Option<Action>, AllocError>
        ensures gives { IfOk result
            (λ next. Gives (actions_left self.now.parameters sequence.old) next
            (actions_left self.now.parameters sequence.new)) }
        ensures over { IfOk result (λ next. next ≡ None → sequence.new ≡ None) }
        ensures memory { OnErr result (FirstTakes (actions_left self.now.parameters sequence.old)) }
    {
        let Some(left) = sequence else {
            return Ok(None);
        };
        let parameters = self.framer.parameters();
        let truncated = self.framer.parameters_truncated();
        let action = left.next(self.alloc, parameters, truncated)?;
        if action.is_none() || left.is_over(parameters) {
            *sequence = None;
        }
        Ok(action)
    }

    // Marks the parser as not failed, after the caller took the pieces of a call to their end.
    pub(crate) fn go_on(&mut self)
        requires { IsReached self.old.held }
        ensures { self.new ≡ record self.old { failed = false } }
    {
        self.failed = false;
    }

    // The pieces that the bytes decide after those that were read before.
    pub(crate) fn reading<'p, 'b>(&'p mut self, bytes: &'b [u8]) -> Reading<'p, 'b>
        ensures same { lender_of result ≡ self.entry.ghost_name }
        ensures pieces { (stream : List ℕ) → self.old.held ≡ held_of stream
            → IsUnderWay result × (open_pieces (length stream) result ≡ pieces stream bytes.now)
            × (held_at_end result ≡ held_of (stream ++ bytes.now)) }
        ensures ready { IsReady result }
        ensures failed { HadFailed result ↔ (self.old.failed ≡ true) }
        ensures open { IsOpen result ↔ (self.old.failed ≡ false) }
        ensures parser { (parser_of result).failed ≡ true }
        ensures begins { IsAtStart self.old.held bytes.now result }
    {
        let stage = if self.failed {
            Stage::Failed
        } else {
            Stage::Open
        };
        self.fail();
        Reading {
            parser: self,
            bytes,
            count: 0,
            sequence: None,
            stage,
        }
    }

    /// Returns the texts and actions that the bytes decide after those that were read before, in order; texts are lent
    /// from `bytes`. The parser counts as failed until its pieces are taken to their first `None`. Where it had failed
    /// before, the only item is `Failed`.
    pub fn pieces<'a>(&'a mut self, bytes: &'a [u8]) -> Pieces<'a>
        ensures same { lender_of result ≡ self.entry.ghost_name }
        // Where a stream has been read, in any chunks, the pieces are those that these bytes hand out after it.
        ensures pieces { (stream : List ℕ) → self.old.held ≡ held_of stream
            → IsUnderWay result × (open_pieces (length stream) result ≡ pieces stream bytes.now)
            × (held_at_end result ≡ held_of (stream ++ bytes.now)) }
        // `next` may be called.
        ensures ready { IsReady result }
        // The pieces of a parser that had failed report it; others are open, and their parser counts as failed until
        // they end.
        ensures failed { HadFailed result ↔ (self.old.failed ≡ true) }
        ensures open { IsOpen result ↔ (self.old.failed ≡ false) }
        ensures parser { (parser_of result).failed ≡ true }
    {
        self.reading(bytes)
    }
}
