//! `Framer`: reads the bytes of a call as events: texts, runs, whole control sequences or single bytes.
ghost use Rattle.std.specs.Prelude.{◌≡◌, ◌≢◌, ◌↔◌, ◌<◌, ℕ, true, false, IsTrue, List, [], ◌∷◌};
ghost use Rattle.std.specs.Prelude.{IfOk, IfSome, OnErr, Some, None};
ghost use Rattle.text_clusters.specs.Controls.{is_c1 as in_c1s};
ghost use Rattle.csi_codec.specs.Tokens.{no_parameters};
ghost use Rattle.escape_framing.specs.Held.{TakesMemory, interrupted, fresh_step, held_step, nothing_held, steps};
ghost use Rattle.escape_framing.specs.Framed.{takes_text, begun_bytes, IsTextLen, BeginsNoText};
ghost use Rattle.escape_framing.specs.Lending.{Lending};
ghost use Rattle.escape_framing.specs.Event.{handed_out};
ghost use Rattle.escape_framing.specs.Stepping.{as_advanced, Leaves};
ghost use Rattle.escape_framing.specs.Read.{ReadsEvent};
ghost use Rattle.escape_framing.specs.declared.event.Event.TheVariants as event;
ghost use Rattle.escape_framing.specs.declared.event.Read.TheVariants as read_as;

use crate::bytes::{C1_LEAD, ESCAPE};
use crate::characters::Characters;
use crate::event::{Event, Read};
use crate::states::{Intermediates, State, Stepped, left, read};
use crate::texts::text_len;
use csi_codec::{CsiParam, Parameters};
use std::alloc::{AllocError, Global};
use std::marker::Model;
use text_clusters::is_c1;

/// Reads a stream of bytes, in any chunks, and hands out one event at a time, as soon as the bytes decide it. It keeps
/// only what is unfinished, and lends the parameters or the body of the last event until the next call.
#[derive(Drop)]
pub struct Framer {
    pub(crate) state: State,
    pub(crate) waiting: bool,
    pub(crate) characters: Characters,
    pub(crate) parameters: Parameters,
    pub(crate) body: Vec<u8>,
}

// Clauses see the held state of the stream, and the parameters and the body that the framer lends.
impl Model for Framer {
    ghost use Rattle.escape_framing.specs.Lending.{Lending};

    ghost Value = { Lending };

    ghost use Rattle.escape_framing.specs.FramerView.{lending_of};

    ghost view = { lending_of };
}

impl Framer {
    /// A framer at a stream's start; it takes no memory.
    pub fn new(alloc: Global) -> Framer
        ensures held { result.held ≡ nothing_held }
        ensures parameters { result.parameters ≡ no_parameters }
    {
        Framer {
            state: State::Characters,
            waiting: false,
            characters: Characters::new(),
            parameters: Parameters::new(),
            body: Vec::new(alloc),
        }
    }

    /// The tokens of the last control sequence, at most 256, until the next call of `next`.
    pub fn parameters(&self) -> &[CsiParam]
        ensures { result.now ≡ self.now.parameters.tokens }
    {
        self.parameters.tokens()
    }

    /// Whether the last control sequence had more tokens.
    pub fn parameters_truncated(&self) -> bool
        ensures { result ≡ self.now.parameters.truncated }
    {
        self.parameters.is_truncated()
    }

    /// The body of the last operating system command, or the header of the last device control string, until the next
    /// call of `next`.
    pub fn body(&self) -> &[u8]
        ensures { result.now ≡ self.now.body }
    {
        self.body.as_slice()
    }

    /// Frees the memory of the last body, which the framer no longer lends.
    pub fn release_body(&mut self, alloc: Global)
        ensures held { self.new.held ≡ self.old.held }
        ensures parameters { self.new.parameters ≡ self.old.parameters }
    {
        match self.state {
            State::Command | State::Header => {}
            _ => self.body = Vec::new(alloc),
        }
    }

    /// Whether nothing is unfinished: every byte that was read belongs to a whole segment.
    pub fn is_idle(&self) -> bool
        ensures { IsTrue result ↔ (self.now.held ≡ nothing_held) }
    {
        let between = matches!(self.state, State::Characters);
        between && self.characters.is_empty() && !self.waiting
    }

    // ---- A byte of the stream

    // A C2 ends a character that has begun.
    fn interrupt(&mut self) -> Option<Event>
        ensures steps { interrupted self.old.held.kept ≡ steps (handed_out self.new result) self.new.held.kept }
        ensures waiting { self.new.held.waiting ≡ self.old.held.waiting }
    {
        match self.state {
            State::Characters if !self.characters.is_empty() => {
                self.close();
                Some(Event::Print('\u{fffd}'))
            }
            _ => None,
        }
    }

    // A byte where no C2 waits.
    #[tactic(auto, unfolding(crate::specs::Held::fresh_step), using(crate::proofs::EventLemmas::fresh_byte))]
    fn fresh(&mut self, byte: u8) -> Result<Stepped, AllocError>
        requires { self.old.held.waiting ≡ false }
        ensures steps { IfOk result (λ s. fresh_step self.old.held.kept byte ≡ as_advanced self.new s byte) }
        ensures left { IfOk result (λ s. Leaves self.old byte s self.new) }
        ensures memory { OnErr result (TakesMemory self.old.held.kept) }
    {
        if byte == C1_LEAD {
            self.waiting = true;
            Ok(read(self.interrupt()))
        } else {
            let stepped = self.step(byte)?;
            Ok(stepped)
        }
    }

    // The second byte of a C1 control after its C2, as ESC and the byte 40h below: ESC ends what is open, and the byte
    // after it opens what the control opens.
    fn after_c1(&mut self, byte: u8) -> Result<Stepped, AllocError>
        requires waiting { self.old.held.waiting ≡ true }
        requires half { in_c1s 0xC2 byte ≡ true }
        ensures steps { IfOk result (λ s. held_step self.old.held byte ≡ as_advanced self.new s byte) }
        ensures left { IfOk result (λ s. Leaves self.old byte s self.new) }
        ensures memory { OnErr result (TakesMemory self.old.held.kept) }
    {
        let first = self.step(ESCAPE)?;
        if !first.is_read {
            return Ok(first);
        }
        self.waiting = false;
        Ok(self.in_escape(Intermediates::Zero, byte - 0x40))
    }

    // A byte that makes no C1 control with the C2 before it. The C2 is read first; within data it is handed out.
    fn after_lead(&mut self, byte: u8) -> Result<Stepped, AllocError>
        requires waiting { self.old.held.waiting ≡ true }
        requires plain { in_c1s 0xC2 byte ≡ false }
        ensures steps { IfOk result (λ s. held_step self.old.held byte ≡ as_advanced self.new s byte) }
        ensures left { IfOk result (λ s. Leaves self.old byte s self.new) }
        ensures memory { OnErr result (TakesMemory self.old.held.kept) }
    {
        let first = self.step(C1_LEAD)?;
        if !first.is_read {
            return Ok(first);
        }
        self.waiting = false;
        match first.event {
            Some(event) => Ok(left(Some(event))),
            None => {
                let second = self.fresh(byte)?;
                Ok(second)
            }
        }
    }

    // A byte of the stream.
    #[tactic(auto, unfolding(crate::specs::Held::held_step))]
    fn advance(&mut self, byte: u8) -> Result<Stepped, AllocError>
        ensures steps { IfOk result (λ s. held_step self.old.held byte ≡ as_advanced self.new s byte) }
        ensures left { IfOk result (λ s. Leaves self.old byte s self.new) }
        ensures memory { OnErr result (TakesMemory self.old.held.kept) }
    {
        if !self.waiting {
            self.fresh(byte)
        } else if is_c1(C1_LEAD, byte) {
            self.after_c1(byte)
        } else {
            self.after_lead(byte)
        }
    }

    // ---- Bytes of a call

    // Whether a character at the start can be one of a text: no body is open, and its first byte is no byte of an open
    // sequence.
    fn takes_text(&self, byte: u8) -> bool
        ensures { result ≡ takes_text self.now.held byte }
    {
        match self.state {
            State::Characters => true,
            State::Escape(_) | State::ControlSequence | State::Header => self.waiting
                || 0x80 <= byte,
            State::Command | State::Device | State::String => false,
        }
    }

    // Whether the first bytes of a character are held.
    fn has_begun(&self) -> bool
        ensures { IsTrue result ↔ (begun_bytes self.now.held ≢ []) }
    {
        match self.state {
            State::Characters => self.waiting || !self.characters.is_empty(),
            State::Escape(_) | State::ControlSequence | State::Header => self.waiting,
            State::Command | State::Device | State::String => false,
        }
    }

    // How many bytes the text at the start of `bytes` has; 0 where no text can begin there.
    fn text_at(&self, byte: u8, bytes: &[u8]) -> usize
        ensures text { 0 < result → IsTextLen bytes.now result }
        ensures takes { 0 < result → takes_text self.now.held byte ≡ true }
        ensures none { result ≡ 0 → takes_text self.now.held byte ≡ true → BeginsNoText bytes.now }
    {
        if self.takes_text(byte) {
            text_len(bytes)
        } else {
            0
        }
    }

    // Forgets all that is held.
    fn clear(&mut self)
        ensures { self.new.held ≡ nothing_held }
    {
        self.waiting = false;
        self.close();
    }

    // Reads a text of `text` bytes. Where the text breaks off a character that has begun, U+FFFD is handed out first,
    // and the text isn't read yet.
    fn read_text(&mut self, text: usize) -> Read
        ensures held { self.new.held ≡ nothing_held }
        ensures broken { begun_bytes self.old.held ≢ [] → result ≡ read_as.Bytes (Some (event.Print 0xFFFD)) 0 }
        ensures whole { begun_bytes self.old.held ≡ [] → result ≡ read_as.Text text }
    {
        let broken = self.has_begun();
        self.clear();
        if broken {
            Read::Bytes {
                event: Some(Event::Print('\u{fffd}')),
                count: 0,
            }
        } else {
            Read::Text(text)
        }
    }

    // Reads a run of bytes that hand nothing out, or one byte.
    fn read_bytes(&mut self, byte: u8, bytes: &[u8]) -> Result<Read, AllocError>
        requires prefix { (rest : List ℕ) × (bytes.now ≡ byte ∷ rest) }
        requires none { takes_text self.old.held byte ≡ true → BeginsNoText bytes.now }
        ensures reads { IfOk result (λ r. ReadsEvent self.old.held bytes.now r self.new) }
        ensures memory { OnErr result (TakesMemory self.old.held.kept) }
    {
        if let Some(count) = self.read_run(bytes)? {
            return Ok(Read::Bytes { event: None, count });
        }
        let stepped = self.advance(byte)?;
        let count = if stepped.is_read { 1 } else { 0 };
        Ok(Read::Bytes {
            event: stepped.event,
            count,
        })
    }

    /// Reads bytes at the start of `bytes`: a text, a run that hands nothing out, or the bytes of one event. It reads
    /// no byte where `bytes` is empty, or where the first byte ends something that is open, as a text ends a character
    /// that it breaks off: at most three calls in a row read no byte of `bytes` that aren't empty. A text is made of
    /// printable characters, U+0020 to U+007E and from U+00A0 on, except U+FFFD. Memory is taken only for the body of
    /// an operating system command and the header of a device control string. A framer that was refused memory must not
    /// be used again.
    pub fn next(&mut self, bytes: &[u8]) -> Result<Read, AllocError>
        ensures reads { IfOk result (λ r. ReadsEvent self.old.held bytes.now r self.new) }
        ensures memory { OnErr result (TakesMemory self.old.held.kept) }
    {
        let Some((byte, _)) = bytes.split_first() else {
            return Ok(Read::Bytes {
                event: None,
                count: 0,
            });
        };
        let text = self.text_at(*byte, bytes);
        if text != 0 {
            return Ok(self.read_text(text));
        }
        if let Some((control, count)) = self.read_sequence(bytes) {
            return Ok(Read::Bytes {
                event: Some(Event::ControlSequence(control)),
                count,
            });
        }
        self.read_bytes(*byte, bytes)
    }
}
