//! `ParamCursor`: reads the actions of a parameter list, one at a time.
ghost use Rattle.std.specs.Prelude.{◌≡◌, ◌≢◌, ◌<◌, ◌≤◌, ℕ, Bool, true, false, IfNone, IfSome, ◌∷◌, [], drop, length};
ghost use Rattle.std.specs.Prelude.{max};
ghost use Rattle.csi_codec.specs.Actions.{single_or, modes_or, sgr, unspecified};
ghost use Rattle.csi_codec.specs.Parsing.{HasNoSetting, IsNext, IsStart, actions_from, kind_of, list_kind};
ghost use Rattle.csi_codec.specs.Sequences.{HandsOut};

use crate::cursors::cursor_reading;
use crate::devices::device_reading;
use crate::edits::edit_reading;
use crate::groups::{Kind, all_sgr_tokens, mode_group};
use crate::parameters::{CsiParam, after};
use crate::rendition::Sgr;
use crate::sequences::{CSI, request, unspecified};
use crate::sgr_reading::read_group;
use std::alloc::{AllocError, Global};

/// A cursor in a list of parameters before a final byte: how far its actions were read. It borrows nothing, so it can
/// be kept beside the list.
#[derive(Clone, Copy, Debug, PartialEq, Eq)]
pub struct ParamCursor {
    index: usize,
}

impl ParamCursor {
    /// The start of any list.
    #[tactic(auto, unfolding(crate::specs::Parsing::actions_after))]
    pub fn start() -> Self
        ensures { IsStart result }
    {
        ParamCursor { index: 0 }
    }

    /// Returns the action at this position of a list, and moves to the next position. The list, its flag and its final
    /// byte must be the same at each call. After a refusal of memory, and after the last action, it returns `None`.
    #[inline(always)]
    pub fn next(
        &mut self,
        alloc: Global,
        params: &[CsiParam],
        parameters_truncated: bool,
        control: char,
    ) -> Option<Result<CSI, AllocError>>
        ensures { HandsOut (actions_from self.old params.now parameters_truncated control) result
            (actions_from self.new params.now parameters_truncated control) }
    {
        let (read, truncated) = (self.index, parameters_truncated);
        if read >= params.len().max(1) {
            return None;
        }
        match params {
            _ if control == 'm' => self.setting(alloc, params, truncated),
            [CsiParam::P(b'?'), ..] => {
                let start = read.max(1);
                self.mode(Kind::PrivateModes, start, alloc, params, truncated, control)
            }
            _ if read > 0 || matches!(control, 'h' | 'l') => {
                self.mode(Kind::StandardModes, read, alloc, params, truncated, control)
            }
            _ => {
                self.index = params.len().max(1);
                single(alloc, params, truncated, control)
            }
        }
    }

    /// Whether no action of a list remains at this position.
    #[inline(always)]
    pub fn is_end(&self, params: &[CsiParam]) -> bool
        ensures done { result ≡ true → (truncated : Bool) (control : ℕ)
            → actions_from self.now params.now truncated control ≡ [] }
        ensures more { result ≡ false → (truncated : Bool) (control : ℕ)
            → actions_from self.now params.now truncated control ≢ [] }
    {
        let read = self.index;
        if read == 0 {
            return false;
        }
        read >= params.len()
    }

    /// The setting at this position of an SGR list, or else the rest of the list.
    #[inline(always)]
    fn setting(
        &mut self,
        alloc: Global,
        params: &[CsiParam],
        truncated: bool,
    ) -> Option<Result<CSI, AllocError>>
        requires { self.old.index < max (length params.now) 1 }
        ensures { HandsOut (actions_from self.old params.now truncated 109) result
            (actions_from self.new params.now truncated 109) }
    {
        match setting_at(self.index, params) {
            Some((value, end)) => {
                self.index = end;
                Some(Ok(CSI::Sgr(value)))
            }
            None => self.rest(alloc, params, truncated, 'm'),
        }
    }

    /// The mode at this position of a list whose modes begin after the first `start` tokens, or else the rest of it.
    #[inline(always)]
    fn mode(
        &mut self,
        kind: Kind,
        start: usize,
        alloc: Global,
        params: &[CsiParam],
        truncated: bool,
        control: char,
    ) -> Option<Result<CSI, AllocError>>
        requires within { start ≤ length params.now }
        requires position { self.old.index ≤ start }
        requires kind { list_kind control params.now ≡ kind_of kind }
        requires modes { actions_from self.old params.now truncated control
            ≡ modes_or (kind_of kind) truncated control (drop start params.now) (drop self.old.index params.now) }
        ensures { HandsOut (actions_from self.old params.now truncated control) result
            (actions_from self.new params.now truncated control) }
    {
        match mode_group(kind, after(params, start), control) {
            Some((value, len)) => {
                self.index = start + len;
                Some(Ok(CSI::Mode(value)))
            }
            None => self.rest(alloc, params, truncated, control),
        }
    }

    /// The rest of the list from this position on, as the last action.
    #[inline(always)]
    fn rest(
        &mut self,
        alloc: Global,
        params: &[CsiParam],
        truncated: bool,
        control: char,
    ) -> Option<Result<CSI, AllocError>>
        requires within { self.old.index ≤ length params.now }
        requires last { actions_from self.old params.now truncated control
            ≡ unspecified (drop self.old.index params.now) truncated control ∷ [] }
        ensures { HandsOut (actions_from self.old params.now truncated control) result
            (actions_from self.new params.now truncated control) }
    {
        let left = after(params, self.index);
        self.index = params.len().max(1);
        Some(unspecified(alloc, left, truncated, control))
    }
}

/// The setting at position `read` of an SGR list, which is not its end, and the position after the setting. The empty
/// list is a reset. The first setting is read only where all tokens after that setting are tokens of SGR.
#[inline(never)]
fn setting_at(read: usize, params: &[CsiParam]) -> Option<(Sgr, usize)>
    requires { read < max (length params.now) 1 }
    ensures found { IfSome result (λ found. IsNext read params.now 109 (sgr found.0) found.1) }
    ensures none { IfNone result (HasNoSetting read params.now) }
{
    if params.is_empty() {
        return Some((Sgr::Reset, 1));
    }
    let (value, rest) = read_group(after(params, read))?;
    if read > 0 || all_sgr_tokens(rest) {
        Some((value, params.len() - rest.len()))
    } else {
        None
    }
}

/// The one action that a whole list encodes, or the list unread.
fn single(
    alloc: Global,
    params: &[CsiParam],
    truncated: bool,
    control: char,
) -> Option<Result<CSI, AllocError>>
    ensures { HandsOut (single_or truncated control params.now) result [] }
{
    if let Some(value) = cursor_reading(params, control) {
        return Some(Ok(CSI::Cursor(value)));
    }
    if let Some(value) = edit_reading(params, control) {
        return Some(Ok(CSI::Edit(value)));
    }
    match device_reading(params, control) {
        Some(value) => Some(request(alloc, value)),
        None => Some(unspecified(alloc, params, truncated, control)),
    }
}
