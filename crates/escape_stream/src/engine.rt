//! The walk over the bytes of a call, which finds each text and each action and hands it to a performer.
ghost use Rattle.std.specs.Prelude.{◌≡◌, ◌<◌, ◌≢◌, ◌||◌, ◌==◌, true, false, IsTrue, None, Some, IfOk, OnErr, OnOk};
ghost use Rattle.std.specs.Prelude.{length};
ghost use Rattle.escape_stream.specs.PiecesView.{item_handed, lender_of, parser_of, steps_left, AsksMemory, Begins};
ghost use Rattle.escape_stream.specs.PiecesView.{FindsHere, HandsOutOf, IsGoing};
ghost use Rattle.escape_stream.specs.Walking.{with_list, Finds, KeepsList, LeavesSettings, Performs, StepsTo, WalksTo};
ghost use Rattle.csi_codec.specs.Parsing.{IsStart};
ghost use Rattle.csi_codec.specs.Sources.{IsSgrList};
ghost use Rattle.escape_framing.specs.Held.{nothing_held};
ghost use Rattle.escape_framing.specs.Prefixes.{IsShortList};

use crate::action::Action;
use crate::device::DeviceControlMode;
use crate::perform::{Halted, Perform};
use crate::pieces::{Piece, Reading};
use crate::sequence::Sequence;
use csi_codec::{CSI, ParamCursor, RawParameters, cursor_reading, edit_reading, next_setting};
use escape_framing::{Event, Read};
use std::alloc::AllocError;

// Hands a piece to the performer.
#[inline(always)]
fn perform<'a, P: Perform<'a>>(
    piece: Piece<'a>,
    performer: &mut P,
) -> Result<bool, Halted<P::Refusal>>
    requires { P.ready performer.old }
    ensures ready { OnOk result (P.ready performer.new) }
    ensures performs { Performs P.does P.refuses performer.old (item_handed piece.entry) result performer.new }
{
    let performed = match piece {
        Piece::Text(text) => performer.text(text),
        Piece::Action(action) => performer.action(action),
    };
    match performed {
        Ok(()) => Ok(false),
        Err(refusal) => Err(Halted::Refused(refusal)),
    }
}

// Hands a piece to the performer, out of the way of the pieces whose kinds are known.
#[inline(never)]
fn perform_other<'a, P: Perform<'a>>(
    piece: Piece<'a>,
    performer: &mut P,
) -> Result<bool, Halted<P::Refusal>>
    requires { P.ready performer.old }
    ensures ready { OnOk result (P.ready performer.new) }
    ensures performs { Performs P.does P.refuses performer.old (item_handed piece.entry) result performer.new }
{
    perform(piece, performer)
}

// Whether the list of a control sequence with this final byte, other than SGR's, is at most one action: no modes.
#[inline(always)]
fn is_single(control: u8) -> bool
    ensures { IsTrue result → (control == 104 || control == 108) ≡ false }
{
    !matches!(control, b'h' | b'l')
}

impl<'p, 'a> Reading<'p, 'a> {
    // The next action of the control sequence that was read last, if there is one.
    #[inline(always)]
    fn next_of_sequence(&mut self) -> Result<Option<Action>, AllocError>
        ensures { HandsOutOf self.old self.old.sequence result self.new }
    {
        self.parser.next_of(&mut self.sequence)
    }

    // The first action of an event that was read last, if there is one.
    #[inline(always)]
    fn begin(&mut self, event: Event) -> Result<Option<Action>, AllocError>
        requires over { self.old.sequence ≡ None }
        ensures { Begins self.old event result self.new }
    {
        match event {
            Event::ControlSequence(control) => {
                self.sequence = Some(Sequence::start(control));
                self.next_of_sequence()
            }
            _ => self.parser.action_of(event),
        }
    }

    // Reads the start of the remaining bytes, as the framer does: a piece, or bytes that hand nothing out yet.
    #[inline(always)]
    fn read_event(&mut self) -> Result<Option<Piece<'a>>, AllocError>
        requires going { IsGoing self.old }
        requires over { self.old.sequence ≡ None }
        requires some { self.old.count ≢ length self.old.bytes.now }
        ensures same { lender_of self.new ≡ lender_of self.old }
        ensures stage { self.new.stage ≡ self.old.stage }
        ensures failed { (parser_of self.new).failed ≡ true }
        ensures finds { IfOk result (λ piece. FindsHere self.old piece self.new) }
        ensures closer { IfOk result (λ piece. steps_left self.new < steps_left self.old) }
        ensures memory { OnErr result (AsksMemory self.old) }
    {
        let before = self.count;
        let bytes = self.rest();
        match self.parser.read(bytes)? {
            Read::Text(len) => {
                self.count = before + len;
                Ok(Some(Piece::Text(self.text_at(before, len))))
            }
            Read::Bytes { event, count } => {
                self.count = before + count;
                let Some(event) = event else {
                    return Ok(None);
                };
                match self.begin(event)? {
                    Some(action) => Ok(Some(Piece::Action(action))),
                    None => Ok(None),
                }
            }
        }
    }

    // Reads the start of the remaining bytes, by a shortcut where one applies.
    #[inline(always)]
    fn read(&mut self) -> Result<Option<Piece<'a>>, AllocError>
        requires going { IsGoing self.old }
        requires over { self.old.sequence ≡ None }
        requires some { self.old.count ≢ length self.old.bytes.now }
        ensures same { lender_of self.new ≡ lender_of self.old }
        ensures stage { self.new.stage ≡ self.old.stage }
        ensures failed { (parser_of self.new).failed ≡ true }
        ensures finds { IfOk result (λ piece. FindsHere self.old piece self.new) }
        ensures closer { IfOk result (λ piece. steps_left self.new < steps_left self.old) }
        ensures memory { OnErr result (AsksMemory self.old) }
    {
        match self.read_command() {
            Some(Ok(action)) => Ok(Some(Piece::Action(action))),
            Some(Err(error)) => Err(error),
            None => self.read_event(),
        }
    }

    // The next piece, if there is one.
    #[inline(always)]
    pub(crate) fn find(&mut self) -> Result<Option<Piece<'a>>, AllocError>
        requires { IsGoing self.old }
        ensures { Finds self.old result self.new }
    {
        loop {
            let action = self.next_of_sequence()?;
            if let Some(action) = action {
                return Ok(Some(Piece::Action(action)));
            }
            if self.count == self.bytes.len() {
                return Ok(None);
            }
            let piece = self.read()?;
            if piece.is_some() {
                return Ok(piece);
            }
        }
    }

    // Whether nothing of the stream is unfinished, and all actions of the last control sequence were handed out.
    #[inline(always)]
    fn is_between(&self) -> bool
        ensures over { IsTrue result → self.now.sequence ≡ None }
        ensures idle { IsTrue result → (parser_of self.now).held ≡ nothing_held }
    {
        if self.sequence.is_some() {
            return false;
        }
        self.parser.framer().is_idle()
    }

    // Hands the next piece to the performer by the general way. Returns whether there was none.
    #[inline(always)]
    fn step_generally<P: Perform<'a>>(
        &mut self,
        performer: &mut P,
    ) -> Result<bool, Halted<P::Refusal>>
        requires going { IsGoing self.old }
        requires ready { P.ready performer.old }
        ensures same { lender_of self.new ≡ lender_of self.old }
        ensures stage { self.new.stage ≡ self.old.stage }
        ensures failed { (parser_of self.new).failed ≡ true }
        ensures ready { OnOk result (P.ready performer.new) }
        ensures steps { StepsTo P.does P.refuses self.old performer.old result self.new performer.new }
    {
        let Ok(found) = self.find() else {
            return Err(Halted::Memory);
        };
        match found {
            Some(piece) => perform(piece, performer),
            None => Ok(true),
        }
    }

    // Hands the next piece to the performer, where something is unfinished, or the general way is to be taken. Returns
    // whether there was none.
    #[inline(never)]
    fn step_open<P: Perform<'a>>(&mut self, performer: &mut P) -> Result<bool, Halted<P::Refusal>>
        requires going { IsGoing self.old }
        requires ready { P.ready performer.old }
        ensures same { lender_of self.new ≡ lender_of self.old }
        ensures stage { self.new.stage ≡ self.old.stage }
        ensures failed { (parser_of self.new).failed ≡ true }
        ensures ready { OnOk result (P.ready performer.new) }
        ensures steps { StepsTo P.does P.refuses self.old performer.old result self.new performer.new }
    {
        if self.sequence.is_none()
            && let Some(byte) = self.read_data()
        {
            let data = DeviceControlMode::Data(byte);
            return perform(Piece::Action(Action::DeviceControl(data)), performer);
        }
        self.step_generally(performer)
    }

    // Keeps parameter bytes and a final byte, whose actions the general way then hands out.
    fn keep(&mut self, start: ParamCursor, list: &[u8], control: u8)
        requires { (parser_of self.old).held ≡ nothing_held }
        ensures { KeepsList self.old start list.now control self.new }
    {
        self.parser.keep_parameters(list);
        self.sequence = Some(Sequence::at(start, control));
    }

    // Keeps what is left of an SGR list after a setting, where anything is.
    fn keep_settings(&mut self, start: ParamCursor, rest: &[u8])
        requires begins { IsStart start }
        requires list { IsSgrList rest.now }
        requires over { self.old.sequence ≡ None }
        requires idle { (parser_of self.old).held ≡ nothing_held }
        ensures { LeavesSettings self.old rest.now self.new }
    {
        if !rest.is_empty() {
            self.keep(start, rest, b'm');
        }
    }

    // Hands the next action of a control sequence to the performer by the general way.
    #[tactic(auto, using(crate::proofs::SequenceLemmas::kept_going))]
    fn hand_rest<P: Perform<'a>>(
        &mut self,
        start: ParamCursor,
        list: &[u8],
        control: u8,
        performer: &mut P,
    ) -> Result<bool, Halted<P::Refusal>>
        requires going { IsGoing self.old }
        requires idle { (parser_of self.old).held ≡ nothing_held }
        requires ready { P.ready performer.old }
        ensures same { lender_of self.new ≡ lender_of self.old }
        ensures stage { self.new.stage ≡ self.old.stage }
        ensures failed { (parser_of self.new).failed ≡ true }
        ensures ready { OnOk result (P.ready performer.new) }
        ensures steps { StepsTo P.does P.refuses
            (with_list self.old start list.now control) performer.old result self.new performer.new }
    {
        self.keep(start, list, control);
        self.step_open(performer)
    }

    // Hands the settings of an SGR list to the performer; what is no setting, and all after it, by the general way.
    #[inline(always)]
    fn hand_settings<P: Perform<'a>>(
        &mut self,
        start: ParamCursor,
        list: &'a [u8],
        performer: &mut P,
    ) -> Result<bool, Halted<P::Refusal>>
        requires begins { IsStart start }
        requires list { IsShortList list.now }
        requires going { IsGoing self.old }
        requires over { self.old.sequence ≡ None }
        requires idle { (parser_of self.old).held ≡ nothing_held }
        requires ready { P.ready performer.old }
        ensures same { lender_of self.new ≡ lender_of self.old }
        ensures stage { self.new.stage ≡ self.old.stage }
        ensures failed { (parser_of self.new).failed ≡ true }
        ensures ready { OnOk result (P.ready performer.new) }
        ensures steps { StepsTo P.does P.refuses
            (with_list self.old start list.now 109) performer.old result self.new performer.new }
    {
        let mut left = list;
        loop {
            let Some((value, rest)) = next_setting(left) else {
                return self.hand_rest(start, left, b'm', performer);
            };
            if let Err(halted) = perform(Piece::Action(Action::CSI(CSI::Sgr(value))), performer) {
                self.keep_settings(start, rest);
                return Err(halted);
            }
            if rest.is_empty() {
                return Ok(false);
            }
            left = rest;
        }
    }

    // Hands the actions of a control sequence of a list of numbers to the performer.
    #[inline(always)]
    fn hand_list<P: Perform<'a>>(
        &mut self,
        start: ParamCursor,
        list: &'a [u8],
        control: u8,
        performer: &mut P,
    ) -> Result<bool, Halted<P::Refusal>>
        requires begins { IsStart start }
        requires list { IsShortList list.now }
        requires going { IsGoing self.old }
        requires over { self.old.sequence ≡ None }
        requires idle { (parser_of self.old).held ≡ nothing_held }
        requires ready { P.ready performer.old }
        ensures same { lender_of self.new ≡ lender_of self.old }
        ensures stage { self.new.stage ≡ self.old.stage }
        ensures failed { (parser_of self.new).failed ≡ true }
        ensures ready { OnOk result (P.ready performer.new) }
        ensures steps { StepsTo P.does P.refuses
            (with_list self.old start list.now control) performer.old result self.new performer.new }
    {
        if control == b'm' {
            return self.hand_settings(start, list, performer);
        }
        let parameters = RawParameters { bytes: list };
        if is_single(control) {
            if let Some(value) = cursor_reading(parameters, char::from(control)) {
                return perform(Piece::Action(Action::CSI(CSI::Cursor(value))), performer);
            }
            if let Some(value) = edit_reading(parameters, char::from(control)) {
                return perform(Piece::Action(Action::CSI(CSI::Edit(value))), performer);
            }
        }
        self.hand_rest(start, list, control, performer)
    }

    // Hands what ESC begins to the performer: a control sequence of a list of numbers, a pair, a command, or else what
    // the general way finds.
    #[inline(always)]
    fn step_escape<P: Perform<'a>>(&mut self, performer: &mut P) -> Result<bool, Halted<P::Refusal>>
        requires going { IsGoing self.old }
        requires over { self.old.sequence ≡ None }
        requires idle { (parser_of self.old).held ≡ nothing_held }
        requires some { self.old.count ≢ length self.old.bytes.now }
        requires ready { P.ready performer.old }
        ensures same { lender_of self.new ≡ lender_of self.old }
        ensures stage { self.new.stage ≡ self.old.stage }
        ensures failed { (parser_of self.new).failed ≡ true }
        ensures ready { OnOk result (P.ready performer.new) }
        ensures steps { StepsTo P.does P.refuses self.old performer.old result self.new performer.new }
    {
        if let Some((list, control)) = self.read_list() {
            return self.hand_list(ParamCursor::start(), list, control, performer);
        }
        if let Some(pair) = self.read_escape() {
            return perform_other(Piece::Action(Action::Esc(pair)), performer);
        }
        match self.read_command() {
            Some(Ok(action)) => perform_other(Piece::Action(action), performer),
            Some(Err(_)) => Err(Halted::Memory),
            None => self.step_open(performer),
        }
    }

    // Hands a text to the performer, or U+FFFD for bytes that are no character, or else goes the general way.
    #[inline(always)]
    fn step_characters<P: Perform<'a>>(
        &mut self,
        performer: &mut P,
    ) -> Result<bool, Halted<P::Refusal>>
        requires going { IsGoing self.old }
        requires over { self.old.sequence ≡ None }
        requires idle { (parser_of self.old).held ≡ nothing_held }
        requires ready { P.ready performer.old }
        ensures same { lender_of self.new ≡ lender_of self.old }
        ensures stage { self.new.stage ≡ self.old.stage }
        ensures failed { (parser_of self.new).failed ≡ true }
        ensures ready { OnOk result (P.ready performer.new) }
        ensures steps { StepsTo P.does P.refuses self.old performer.old result self.new performer.new }
    {
        if let Some(text) = self.read_text() {
            return perform(Piece::Text(text), performer);
        }
        match self.read_stray() {
            Some(character) => perform(Piece::Action(Action::Print(character)), performer),
            None => self.step_open(performer),
        }
    }

    // Hands the next pieces to the performer, where nothing is unfinished and a byte is left, by that byte. Returns
    // whether there was none.
    #[inline(always)]
    fn step_between<P: Perform<'a>>(
        &mut self,
        performer: &mut P,
    ) -> Result<bool, Halted<P::Refusal>>
        requires going { IsGoing self.old }
        requires over { self.old.sequence ≡ None }
        requires idle { (parser_of self.old).held ≡ nothing_held }
        requires some { self.old.count ≢ length self.old.bytes.now }
        requires ready { P.ready performer.old }
        ensures same { lender_of self.new ≡ lender_of self.old }
        ensures stage { self.new.stage ≡ self.old.stage }
        ensures failed { (parser_of self.new).failed ≡ true }
        ensures ready { OnOk result (P.ready performer.new) }
        ensures steps { StepsTo P.does P.refuses self.old performer.old result self.new performer.new }
    {
        if self.bytes[self.count] == 0x1b {
            return self.step_escape(performer);
        }
        match self.read_control() {
            Some(code) => perform(Piece::Action(Action::Control(code)), performer),
            None => self.step_characters(performer),
        }
    }

    // Hands the next pieces to the performer. Returns whether there was none.
    #[inline(always)]
    fn step<P: Perform<'a>>(&mut self, performer: &mut P) -> Result<bool, Halted<P::Refusal>>
        requires going { IsGoing self.old }
        requires ready { P.ready performer.old }
        ensures same { lender_of self.new ≡ lender_of self.old }
        ensures stage { self.new.stage ≡ self.old.stage }
        ensures failed { (parser_of self.new).failed ≡ true }
        ensures ready { OnOk result (P.ready performer.new) }
        ensures steps { StepsTo P.does P.refuses self.old performer.old result self.new performer.new }
    {
        if !self.is_between() {
            return self.step_open(performer);
        }
        if self.count == self.bytes.len() {
            return Ok(true);
        }
        self.step_between(performer)
    }

    // Hands the remaining pieces to the performer, up to the end or up to the first that it refuses, which then counts
    // as read.
    #[inline(never)]
    pub(crate) fn walk<P: Perform<'a>>(
        &mut self,
        performer: &mut P,
    ) -> Result<(), Halted<P::Refusal>>
        requires going { IsGoing self.old }
        requires ready { P.ready performer.old }
        ensures same { lender_of self.new ≡ lender_of self.old }
        ensures stage { self.new.stage ≡ self.old.stage }
        ensures failed { (parser_of self.new).failed ≡ true }
        ensures ready { OnOk result (P.ready performer.new) }
        ensures walks { WalksTo P.does P.refuses self.old performer.old result self.new performer.new }
    {
        loop {
            match self.step(performer) {
                Ok(false) => {}
                Ok(true) => return Ok(()),
                Err(halted) => return Err(halted),
            }
        }
    }
}
