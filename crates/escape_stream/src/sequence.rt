//! The actions of a control sequence, one by one.
ghost use Rattle.std.specs.Prelude.{◌≡◌, IsTrue, IfOk, OnErr, Some, []};
ghost use Rattle.csi_codec.specs.Tokens.{Parameters};
ghost use Rattle.escape_framing.specs.Lending.{Lending};
ghost use Rattle.escape_framing.specs.declared.event.Event.TheVariants as event;
ghost use Rattle.escape_stream.specs.Sequences.{FirstTakes, Gives, actions_left, event_actions};

use crate::action::Action;
use csi_codec::{CsiParam, ParamCursor};
use std::alloc::{AllocError, Global};

/// A control sequence, and how far its actions were read.
#[derive(Clone, Copy)]
pub(crate) struct Sequence {
    offset: ParamCursor,
    control: u8,
}

impl Sequence {
    /// A control sequence with this final byte, of which nothing was read.
    #[inline(always)]
    pub(crate) fn start(control: u8) -> Sequence
        ensures { (l : Lending)
            → actions_left l.parameters (Some result) ≡ event_actions l (event.ControlSequence control) }
    {
        Sequence {
            offset: ParamCursor::start(),
            control,
        }
    }

    /// A control sequence with this final byte, whose actions were read up to a position.
    #[inline(always)]
    pub(crate) fn at(offset: ParamCursor, control: u8) -> Sequence
        ensures offset { result.offset ≡ offset }
        ensures control { result.control ≡ control }
    {
        Sequence { offset, control }
    }

    /// The next action, if there is one, with the parameters of the sequence.
    #[inline(always)]
    pub(crate) fn next(
        &mut self,
        alloc: Global,
        parameters: &[CsiParam],
        truncated: bool,
    ) -> Result<Option<Action>, AllocError>
        ensures gives { (p : Parameters) → p.tokens ≡ parameters.now → p.truncated ≡ truncated
            → IfOk result (λ next. Gives (actions_left p (Some self.old)) next (actions_left p (Some self.new))) }
        ensures memory { (p : Parameters) → p.tokens ≡ parameters.now → p.truncated ≡ truncated
            → OnErr result (FirstTakes (actions_left p (Some self.old))) }
    {
        let control = char::from(self.control);
        match self.offset.next(alloc, parameters, truncated, control) {
            Some(Ok(csi)) => Ok(Some(Action::CSI(csi))),
            Some(Err(error)) => Err(error),
            None => Ok(None),
        }
    }

    /// Whether all its actions were read.
    #[inline(always)]
    pub(crate) fn is_over(&self, parameters: &[CsiParam]) -> bool
        ensures { (p : Parameters) → p.tokens ≡ parameters.now → IsTrue result → actions_left p (Some self.now) ≡ [] }
    {
        self.offset.is_end(parameters)
    }
}
