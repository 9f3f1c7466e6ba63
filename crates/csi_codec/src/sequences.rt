//! CSI sequences: what a list of parameters before a final byte means, action by action.
ghost use Rattle.std.specs.Prelude.{◌≡◌, ◌<◌, ◌≤◌, ◌++◌, IfNone, IfOk, IfSome, OnErr, OnOk, Some, length, max};
ghost use Rattle.csi_codec.specs.Actions.{device, csi_reading, unspecified};
ghost use Rattle.csi_codec.specs.Laws.{KeepsRests};
ghost use Rattle.csi_codec.specs.Sequences.{action_of, csi_text, NeedsMemory, rest_of};

use crate::cursors::Cursor;
use crate::devices::Device;
use crate::edits::Edit;
use crate::modes::Mode;
use crate::param_cursor::ParamCursor;
use crate::parameters::{CsiParam, Unspecified};
use crate::rendition::Sgr;
use crate::spelling::ControlSequence;
use crate::text::SequenceText;
use std::alloc::{AllocError, Global};
use std::fmt;
use std::marker::Model;

/// One action of a CSI sequence (ECMA-48 5.4).
#[derive(Debug, PartialEq, Eq, Drop)]
pub enum CSI {
    Sgr(Sgr),
    Cursor(Cursor),
    Edit(Edit),
    Mode(Mode),
    Device(Box<Device>),
    Unspecified(Box<Unspecified>),
}

impl fmt::Display for CSI {
    ghost output = { λ csi. Some (csi_text (action_of csi)) };

    fn fmt<W: fmt::Write>(&self, f: &mut fmt::Formatter<W>) -> fmt::Result {
        let mut text = SequenceText::new();
        match self.put_text(&mut text) {
            None => f.write_str(text.as_str()),
            Some(rest) => {
                f.write_str("\x1b[")?;
                rest.fmt(f)
            }
        }
    }
}

impl CSI {
    /// Appends the bytes of the action's text. Where memory is refused, `bytes` stay as they were.
    pub fn append_bytes_to(&self, bytes: &mut Vec<u8>) -> Result<(), AllocError>
        ensures ok { OnOk result (bytes.new.items ≡ bytes.old.items ++ csi_text (action_of self.now)) }
        ensures err { OnErr result (bytes.new.items ≡ bytes.old.items) }
    {
        let mut text = SequenceText::new();
        match self.put_text(&mut text) {
            None => bytes.extend_from_slice(text.as_bytes()),
            Some(rest) => rest.append_bytes_to(bytes),
        }
    }

    /// Sets `text` to the text of the action; for the rest of a list it returns that rest instead.
    #[inline(always)]
    fn put_text(&self, text: &mut SequenceText) -> Option<&Unspecified>
        ensures text { IfNone result (text.new ≡ csi_text (action_of self.now)) }
        ensures rest { IfSome result (λ rest. action_of self.now ≡ rest_of rest.now) }
    {
        match self {
            CSI::Sgr(value) => value.put_text(text),
            CSI::Cursor(value) => value.put_text(text),
            CSI::Edit(value) => value.put_text(text),
            CSI::Mode(value) => value.put_text(text),
            CSI::Device(value) => value.put_text(text),
            CSI::Unspecified(rest) => return Some(rest),
        }
        None
    }

    /// Reads a list of parameters before a final byte. The flag says that parameters were dropped; it changes no
    /// reading, and the rest keeps it. Nothing is allocated until the caller takes an action from the iterator.
    pub fn parse<'a>(
        alloc: Global,
        params: &'a [CsiParam],
        parameters_truncated: bool,
        control: char,
    ) -> CSIParser<'a>
        ensures actions { result ≡ csi_reading params.now parameters_truncated control }

        // At least one action, and at most as many as there are tokens, or one.
        ensures some { 0 < length result }
        ensures bounded { length result ≤ max 1 (length params.now) }

        // The rest is a suffix of the list, keeps the flag and the final byte, and comes last.
        ensures rests { KeepsRests params.now parameters_truncated control result }
    {
        CSIParser {
            alloc,
            params,
            truncated: parameters_truncated,
            control,
            position: ParamCursor::start(),
        }
    }

    /// A copy. Only a request and the rest of a list take memory, and so can be refused.
    pub fn try_clone(&self, alloc: Global) -> Result<Self, AllocError>
        ensures copy { IfOk result (λ copy. action_of copy ≡ action_of self.now) }
        ensures refused { OnErr result (NeedsMemory (action_of self.now)) }
    {
        match self {
            CSI::Sgr(value) => Ok(CSI::Sgr(*value)),
            CSI::Cursor(value) => Ok(CSI::Cursor(*value)),
            CSI::Edit(value) => Ok(CSI::Edit(*value)),
            CSI::Mode(value) => Ok(CSI::Mode(*value)),
            CSI::Device(value) => request(alloc, **value),
            CSI::Unspecified(rest) => {
                let copy = rest.try_clone()?;
                Ok(CSI::Unspecified(Box::new(alloc, copy)?))
            }
        }
    }
}

/// The actions of a list, in order. After a refusal of memory, and after the last action, it returns `None`.
#[derive(Drop)]
pub struct CSIParser<'a> {
    alloc: Global,
    params: &'a [CsiParam],
    truncated: bool,
    control: char,
    position: ParamCursor,
}

impl<'a> Model for CSIParser<'a> {
    ghost use Rattle.std.specs.Prelude.{List};
    ghost use Rattle.csi_codec.specs.Actions.{Action};

    ghost Value = { List Action };

    ghost use Rattle.csi_codec.specs.Parsing.{actions_from};

    ghost view = { λ s. actions_from s.position s.params.now s.truncated s.control };
}

impl<'a> Iterator for CSIParser<'a> {
    ghost use Rattle.std.specs.Prelude.{length};
    ghost use Rattle.std.specs.Iterator.{at_most};
    ghost use Rattle.csi_codec.specs.Sequences.{HandsOut};

    type Item = Result<CSI, AllocError>;

    ghost next_gives = { HandsOut };

    ghost remaining = { λ s. at_most (length s) };

    #[inline(always)]
    fn next(&mut self) -> Option<Result<CSI, AllocError>> {
        self.position
            .next(self.alloc, self.params, self.truncated, self.control)
    }
}

/// A request as a `CSI` value, which boxes it.
#[inline(never)]
pub(crate) fn request(alloc: Global, value: Device) -> Result<CSI, AllocError>
    ensures { IfOk result (λ sequence. action_of sequence ≡ device value) }
{
    Ok(CSI::Device(Box::new(alloc, value)?))
}

/// A list that encodes no known action, as a `CSI` value.
#[inline(never)]
pub(crate) fn unspecified(
    alloc: Global,
    params: &[CsiParam],
    truncated: bool,
    control: char,
) -> Result<CSI, AllocError>
    ensures { IfOk result (λ value. action_of value ≡ unspecified params.now truncated control) }
{
    let rest = Unspecified {
        params: Vec::from_slice(alloc, params)?,
        parameters_truncated: truncated,
        control,
    };
    Ok(CSI::Unspecified(Box::new(alloc, rest)?))
}
