//! What is whole at the start of the bytes, by its first byte, where nothing is unfinished; and data of a device
//! control string.
ghost use Rattle.std.specs.Prelude.{◌≡◌, IfSome, IsTrue};
ghost use Rattle.escape_framing.specs.Held.{nothing_held};
ghost use Rattle.escape_framing.specs.Prefixes.{IsPair};
ghost use Rattle.escape_framing.specs.Read.{whole_control, whole_data, whole_escape, whole_stray, ReadsEvent};
ghost use Rattle.escape_framing.specs.Segment.{IsControl};
ghost use Rattle.escape_framing.specs.declared.event.Read.TheVariants as read_as;

use crate::bytes::{C1_LEAD, ESCAPE, is_opener, is_stop};
use crate::fast::after_escape;
use crate::framer::Framer;
use crate::states::State;
use crate::texts::text_len;
use std::str;

// Whether a byte is a control by itself: C0 but ESC, or DEL.
#[inline(always)]
fn is_lone_control(byte: u8) -> bool
    ensures { IsTrue result → IsControl byte }
{
    if byte < 0x20 {
        byte != ESCAPE
    } else {
        byte == 0x7f
    }
}

// Whether a byte makes a pair with the ESC before it: a final byte that opens nothing.
#[inline(always)]
#[tactic(auto, unfolding(crate::specs::Bytes::is_opener, crate::specs::Bytes::is_string_opener))]
fn is_pair(byte: u8) -> bool
    ensures { IsTrue result → IsPair byte }
{
    matches!(byte, 0x30..=0x7e) && !is_opener(byte)
}

impl Framer {
    /// The control at the start of some bytes of one call, where nothing is unfinished: C0 but ESC, or DEL. The framer
    /// needs no change for it: the caller goes on after this byte. `None`: take the general way.
    #[inline(always)]
    pub fn whole_control(&self, bytes: &[u8]) -> Option<u8>
        requires { self.now.held ≡ nothing_held }
        ensures { IfSome result (λ b. ReadsEvent self.now.held bytes.now (whole_control b) self.now) }
    {
        let (byte, _) = bytes.split_first()?;
        if !is_lone_control(*byte) {
            return None;
        }
        Some(*byte)
    }

    /// How many bytes the text at the start of some bytes of one call has, where nothing is unfinished. The framer
    /// needs no change for it: the caller goes on after these bytes. `None`: take the general way.
    #[inline(always)]
    pub fn whole_text(&self, bytes: &[u8]) -> Option<usize>
        requires { self.now.held ≡ nothing_held }
        ensures { IfSome result (λ n. ReadsEvent self.now.held bytes.now (read_as.Text n) self.now) }
    {
        let (byte, _) = bytes.split_first()?;
        if *byte < 0x20 {
            return None;
        }
        let len = text_len(bytes);
        if len == 0 {
            return None;
        }
        Some(len)
    }

    /// The final byte of the ESC pair at the start of some bytes of one call, where nothing is unfinished. The framer
    /// needs no change for it: the caller goes on after these two bytes. `None`: take the general way.
    #[inline(always)]
    pub fn whole_escape(&self, bytes: &[u8]) -> Option<u8>
        requires { self.now.held ≡ nothing_held }
        ensures { IfSome result (λ b. ReadsEvent self.now.held bytes.now (whole_escape b) self.now) }
    {
        let (byte, _) = after_escape(bytes)?;
        if is_pair(byte) { Some(byte) } else { None }
    }

    /// How many bytes at the start of some bytes of one call U+FFFD stands for, where nothing is unfinished: one that
    /// is part of no character, or those of a character that the byte after them breaks off. The framer needs no change
    /// for them: the caller goes on after these bytes. `None`: take the general way, as for a C2, which may be half of
    /// a C1 control.
    #[inline(always)]
    pub fn whole_stray(&self, bytes: &[u8]) -> Option<usize>
        requires { self.now.held ≡ nothing_held }
        ensures { IfSome result (λ n. ReadsEvent self.now.held bytes.now (whole_stray n) self.now) }
    {
        let (byte, _) = bytes.split_first()?;
        if *byte == C1_LEAD {
            return None;
        }
        match str::from_utf8(&bytes[..bytes.len().min(4)]) {
            Err(error) if error.valid_up_to() == 0 => error.error_len(),
            _ => None,
        }
    }

    /// The byte of a device control string at the start of some bytes of one call, where one is open. The framer needs
    /// no change for it: the caller goes on after this byte. `None`: take the general way.
    #[inline(always)]
    pub fn whole_data(&self, bytes: &[u8]) -> Option<u8>
        ensures { IfSome result (λ b. ReadsEvent self.now.held bytes.now (whole_data b) self.now) }
    {
        match self.state {
            State::Device if !self.waiting => {
                let (byte, _) = bytes.split_first()?;
                if is_stop(*byte) || *byte == C1_LEAD {
                    None
                } else {
                    Some(*byte)
                }
            }
            _ => None,
        }
    }
}
