//! The states of a framer: what a byte of the seven-bit form does after what is open.
ghost use Rattle.std.specs.Prelude.{◌≡◌, ◌<◌, not, ℕ, true, false, IfOk, OnErr, List, [], ◌∷◌, ◌++◌, Some, None, take};
ghost use Rattle.escape_framing.specs.Bytes.{is_stop as in_stops, is_cut as in_cuts};
ghost use Rattle.escape_framing.specs.Dispatch.{controls_in};
ghost use Rattle.escape_framing.specs.Held.{InCharacter, InEscape, InControlSequence, InCommand, InHeader, InDevice};
ghost use Rattle.escape_framing.specs.Held.{InString, escape_step, final_step, opened, control_sequence_step};
ghost use Rattle.escape_framing.specs.Held.{command_step, header_step, device_step, string_step, kept_step, steps};
ghost use Rattle.escape_framing.specs.Held.{TakesMemory};
ghost use Rattle.escape_framing.specs.Characters.{own_dispatches};
ghost use Rattle.escape_framing.specs.FramerView.{bytes_in};
ghost use Rattle.escape_framing.specs.Lending.{Lending};
ghost use Rattle.escape_framing.specs.Event.{handed_out, GoesOn};
ghost use Rattle.escape_framing.specs.Stepping.{as_stepped, Closes};
ghost use Rattle.escape_framing.specs.declared.event.Event.TheVariants as event;

use crate::bytes::{BEL, ESCAPE, is_cut, is_embedded, is_intermediate, is_opener, is_stop};
use crate::characters::{Characters, Own};
use crate::event::Event;
use crate::framer::Framer;
use csi_codec::is_parameter;
use std::alloc::AllocError;

/// The intermediate bytes of an escape sequence, of which the first two are kept.
#[derive(Clone, Copy)]
pub(crate) enum Intermediates {
    Zero,
    One(u8),
    More(u8, u8),
}

/// What is open: characters, or a sequence or a string that ESC has begun.
#[derive(Clone, Copy)]
pub(crate) enum State {
    Characters,
    Escape(Intermediates),
    ControlSequence,
    Command,
    Header,
    Device,
    String,
}

// The intermediate bytes with one more byte.
fn with_intermediate(intermediates: Intermediates, byte: u8) -> Intermediates
    ensures { bytes_in result ≡ take 2 (bytes_in intermediates ++ byte ∷ []) }
{
    match intermediates {
        Intermediates::Zero => Intermediates::One(byte),
        Intermediates::One(first) => Intermediates::More(first, byte),
        Intermediates::More(first, second) => Intermediates::More(first, second),
    }
}

/// What a byte hands out, and whether it was read: a byte that cuts something off is left unread, for the next segment.
#[derive(Clone, Copy)]
pub(crate) struct Stepped {
    pub event: Option<Event>,
    pub is_read: bool,
}

// A byte that was read.
pub(crate) fn read(event: Option<Event>) -> Stepped
    ensures { result ≡ record { event = event; is_read = true } }
{
    Stepped {
        event,
        is_read: true,
    }
}

// A byte that was left.
pub(crate) fn left(event: Option<Event>) -> Stepped
    ensures { result ≡ record { event = event; is_read = false } }
{
    Stepped {
        event,
        is_read: false,
    }
}

// A control within a sequence; DEL does nothing there.
fn embedded(byte: u8) -> Option<Event>
    ensures { (l : Lending) → handed_out l result ≡ controls_in (byte ∷ []) }
{
    if byte < 0x20 {
        Some(Event::Control(byte))
    } else {
        None
    }
}

fn own_event(own: Own) -> Option<Event>
    ensures { (l : Lending) → handed_out l result ≡ own_dispatches own }
{
    match own {
        Own::Waits | Own::Escape => None,
        Own::Print(c) => Some(Event::Print(c)),
        Own::Control(byte) => Some(Event::Control(byte)),
        Own::Stray => Some(Event::Print('\u{fffd}')),
    }
}

impl Framer {
    // Closes what is open.
    pub(crate) fn close(&mut self)
        ensures { self.new ≡ record self.old { held = record self.old.held { kept = InCharacter [] } } }
    {
        self.state = State::Characters;
        self.characters = Characters::new();
    }

    // A byte after the first ones of a character, or after nothing.
    fn in_character(&mut self, byte: u8) -> Stepped
        requires { (bytes : List ℕ) × (self.old.held.kept ≡ InCharacter bytes) }
        ensures steps { kept_step self.old.held.kept byte ≡ as_stepped self.new result byte }
        ensures left { Closes self.old result self.new }
        ensures goes { result.is_read ≡ true → GoesOn self.old.held.kept byte }
        ensures waiting { self.new.held.waiting ≡ self.old.held.waiting }
    {
        match self.characters.next(byte) {
            None => left(Some(Event::Print('\u{fffd}'))),
            Some(own) => {
                if let Own::Escape = own {
                    self.state = State::Escape(Intermediates::Zero);
                }
                read(own_event(own))
            }
        }
    }

    // A byte that cuts off a sequence, which hands nothing out.
    fn cut_off(&mut self) -> Stepped
        ensures cut { result ≡ record { event = None; is_read = false } }
        ensures new { self.new ≡ record self.old { held = record self.old.held { kept = InCharacter [] } } }
    {
        self.close();
        left(None)
    }

    // A byte that opens something after ESC.
    #[tactic(auto, unfolding(crate::specs::Held::opened))]
    fn open(&mut self, byte: u8)
        ensures held { self.new.held ≡ record self.old.held { kept = opened byte } }
    {
        match byte {
            b'[' => {
                self.parameters.clear();
                self.state = State::ControlSequence;
            }
            b']' => {
                self.body.clear();
                self.state = State::Command;
            }
            b'P' => {
                self.body.clear();
                self.state = State::Header;
            }
            _ => self.state = State::String,
        }
    }

    // The final byte of an escape sequence, or a byte that opens something longer.
    #[tactic(auto, unfolding(crate::specs::Dispatch::escape_dispatch))]
    fn in_escape_final(&mut self, intermediates: Intermediates, byte: u8) -> Option<Event>
        ensures is { final_step (bytes_in intermediates) byte ≡ steps (handed_out self.new result) self.new.held.kept }
        ensures waiting { self.new.held.waiting ≡ self.old.held.waiting }
    {
        match intermediates {
            Intermediates::Zero if is_opener(byte) => {
                self.open(byte);
                None
            }
            Intermediates::Zero => {
                self.close();
                Some(Event::Escape {
                    intermediate: None,
                    control: byte,
                })
            }
            Intermediates::One(first) => {
                self.close();
                Some(Event::Escape {
                    intermediate: Some(first),
                    control: byte,
                })
            }
            Intermediates::More(_, _) => {
                self.close();
                None
            }
        }
    }

    // A byte after ESC and intermediate bytes.
    #[tactic(auto, unfolding(crate::specs::Held::escape_step))]
    pub(crate) fn in_escape(&mut self, intermediates: Intermediates, byte: u8) -> Stepped
        requires { self.old.held.kept ≡ InEscape (bytes_in intermediates) }
        ensures steps { escape_step (bytes_in intermediates) byte ≡ as_stepped self.new result byte }
        ensures left { Closes self.old result self.new }
        ensures read { result.is_read ≡ not (in_cuts byte) }
        ensures waiting { self.new.held.waiting ≡ self.old.held.waiting }
    {
        if is_cut(byte) {
            self.cut_off()
        } else if is_embedded(byte) {
            read(embedded(byte))
        } else if is_intermediate(byte) {
            self.state = State::Escape(with_intermediate(intermediates, byte));
            read(None)
        } else {
            read(self.in_escape_final(intermediates, byte))
        }
    }

    // A byte after ESC [ and parameter bytes.
    #[tactic(auto, unfolding(crate::specs::Held::control_sequence_step))]
    fn in_control_sequence(&mut self, byte: u8) -> Stepped
        requires { self.old.held.kept ≡ InControlSequence self.old.parameters }
        ensures steps { control_sequence_step self.old.parameters byte ≡ as_stepped self.new result byte }
        ensures left { Closes self.old result self.new }
        ensures read { result.is_read ≡ not (in_cuts byte) }
        ensures waiting { self.new.held.waiting ≡ self.old.held.waiting }
    {
        if is_cut(byte) {
            self.cut_off()
        } else if is_embedded(byte) {
            read(embedded(byte))
        } else if is_parameter(byte) {
            self.parameters.push(byte);
            read(None)
        } else {
            self.close();
            read(Some(Event::ControlSequence(byte)))
        }
    }

    // A byte of an operating system command.
    #[tactic(auto, unfolding(crate::specs::Held::command_step))]
    fn in_command(&mut self, byte: u8) -> Result<Stepped, AllocError>
        requires { self.old.held.kept ≡ InCommand self.old.body }
        ensures steps { IfOk result (λ s. command_step self.old.body byte ≡ as_stepped self.new s byte) }
        ensures left { IfOk result (λ s. Closes self.old s self.new) }
        ensures read { IfOk result (λ s. s.is_read ≡ not (in_stops byte)) }
        ensures waiting { IfOk result (λ s. self.new.held.waiting ≡ self.old.held.waiting) }
    {
        if byte == BEL {
            self.close();
            Ok(read(Some(Event::OperatingSystemCommand)))
        } else if byte == ESCAPE {
            self.close();
            Ok(left(Some(Event::OperatingSystemCommand)))
        } else if is_stop(byte) {
            Ok(self.cut_off())
        } else if byte.is_ascii_control() {
            Ok(read(None))
        } else {
            self.body.push(byte)?;
            Ok(read(None))
        }
    }

    // A byte of the header of a device control string.
    #[tactic(auto, unfolding(crate::specs::Held::header_step))]
    fn in_header(&mut self, byte: u8) -> Result<Stepped, AllocError>
        requires { self.old.held.kept ≡ InHeader self.old.body }
        ensures steps { IfOk result (λ s. header_step self.old.body byte ≡ as_stepped self.new s byte) }
        ensures left { IfOk result (λ s. Closes self.old s self.new) }
        ensures read { IfOk result (λ s. s.is_read ≡ not (in_cuts byte)) }
        ensures waiting { IfOk result (λ s. self.new.held.waiting ≡ self.old.held.waiting) }
    {
        if is_cut(byte) {
            Ok(self.cut_off())
        } else if is_embedded(byte) {
            Ok(read(None))
        } else if is_parameter(byte) {
            self.body.push(byte)?;
            Ok(read(None))
        } else {
            self.state = State::Device;
            Ok(read(Some(Event::Enter(byte))))
        }
    }

    // A byte of the data of a device control string.
    #[tactic(auto, unfolding(crate::specs::Held::device_step))]
    fn in_device(&mut self, byte: u8) -> Stepped
        requires { self.old.held.kept ≡ InDevice }
        ensures steps { device_step byte ≡ as_stepped self.new result byte }
        ensures left { Closes self.old result self.new }
        ensures read { result.is_read ≡ not (in_stops byte) }
        ensures waiting { self.new.held.waiting ≡ self.old.held.waiting }
    {
        if is_stop(byte) {
            self.close();
            left(Some(Event::Exit))
        } else {
            read(Some(Event::Data(byte)))
        }
    }

    // A byte of a string that does nothing.
    #[tactic(auto, unfolding(crate::specs::Held::string_step))]
    fn in_string(&mut self, byte: u8) -> Stepped
        requires { self.old.held.kept ≡ InString }
        ensures steps { string_step byte ≡ as_stepped self.new result byte }
        ensures left { Closes self.old result self.new }
        ensures read { result.is_read ≡ not (in_stops byte) }
        ensures waiting { self.new.held.waiting ≡ self.old.held.waiting }
    {
        if is_stop(byte) {
            self.cut_off()
        } else {
            read(None)
        }
    }

    // A byte of the seven-bit form.
    pub(crate) fn step(&mut self, byte: u8) -> Result<Stepped, AllocError>
        ensures steps { IfOk result (λ s. kept_step self.old.held.kept byte ≡ as_stepped self.new s byte) }
        ensures left { IfOk result (λ s. Closes self.old s self.new) }
        ensures goes { IfOk result (λ s. s.is_read ≡ true → GoesOn self.old.held.kept byte) }
        ensures waiting { IfOk result (λ s. self.new.held.waiting ≡ self.old.held.waiting) }
        ensures memory { OnErr result (TakesMemory self.old.held.kept) }
    {
        match self.state {
            State::Characters => Ok(self.in_character(byte)),
            State::Escape(intermediates) => Ok(self.in_escape(intermediates, byte)),
            State::ControlSequence => Ok(self.in_control_sequence(byte)),
            State::Command => self.in_command(byte),
            State::Header => self.in_header(byte),
            State::Device => Ok(self.in_device(byte)),
            State::String => Ok(self.in_string(byte)),
        }
    }
}
