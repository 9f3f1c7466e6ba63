//! Control sequences that are whole at the start of the bytes: their parameters are read at once, or where they stand.
ghost use Rattle.std.specs.Prelude.{◌≡◌, ◌≤◌, ◌+◌, length, take, IfSome};
ghost use Rattle.std.specs.List.{prefix_len};
ghost use Rattle.csi_codec.specs.Sources.{is_list_byte as in_lists};
ghost use Rattle.csi_codec.specs.Tokens.{parameters_of};
ghost use Rattle.escape_framing.specs.Bytes.{is_final as in_finals};
ghost use Rattle.escape_framing.specs.Held.{nothing_held};
ghost use Rattle.escape_framing.specs.Prefixes.{IsLastAt, IsShortList};
ghost use Rattle.escape_framing.specs.Read.{whole_sequence, ReadsEvent};

use crate::fast::after_introducer;
use crate::framer::Framer;
use crate::texts::after;
use csi_codec::is_list_byte;

/// How many bytes a list of numbers has at most that is read where it stands: as many as tokens are kept of one.
const MOST_BYTES: usize = 256;

// The final byte of a control sequence.
#[inline(always)]
#[tactic(auto, unfolding(crate::specs::Bytes::is_final))]
fn is_final(byte: u8) -> bool
    ensures { result ≡ in_finals byte }
{
    matches!(byte, 0x40..=0x7e)
}

// The byte after the first `count` bytes, if it is the final byte of a control sequence.
#[inline(always)]
fn last_at(bytes: &[u8], count: usize) -> Option<u8>
    requires { count ≤ length bytes.now }
    ensures { IsLastAt bytes.now count result }
{
    let (byte, _) = after(bytes, count).split_first()?;
    if is_final(*byte) { Some(*byte) } else { None }
}

// How many bytes at the start are those of a list of numbers.
#[inline(always)]
fn list_len(bytes: &[u8]) -> usize
    ensures { result ≡ prefix_len in_lists bytes.now }
{
    bytes.iter().take_while(|byte| is_list_byte(**byte)).count()
}

// The bytes at the start that are those of a list of numbers.
#[inline(always)]
fn list_of(bytes: &[u8]) -> &[u8]
    ensures { result.now ≡ take (prefix_len in_lists bytes.now) bytes.now }
{
    let count = list_len(bytes);
    &bytes[..count]
}

impl Framer {
    // Reads the control sequence at the start, where nothing is unfinished and the sequence is whole: its final byte,
    // and how many bytes it has. `None`: take the general way.
    pub(crate) fn read_sequence(&mut self, bytes: &[u8]) -> Option<(u8, usize)>
        ensures some { IfSome result (λ s. ReadsEvent self.old.held bytes.now (whole_sequence s.0 s.1) self.new) }
        ensures held { self.new.held ≡ self.old.held }
    {
        let remaining = after_introducer(bytes, b'[')?;
        if !self.is_idle() {
            return None;
        }
        let count = self.parameters.read(remaining);
        let control = last_at(remaining, count)?;
        Some((control, count + 3))
    }

    /// The control sequence at the start of some bytes of one call, where nothing is unfinished, the sequence is whole,
    /// and its parameters are at most 256 digits, `:` and `;`: these bytes, and its final byte. The framer needs no
    /// change for it: the caller goes on after the final byte. `None`: take the general way.
    #[inline(always)]
    pub fn whole_sequence<'a>(&self, bytes: &'a [u8]) -> Option<(&'a [u8], u8)>
        requires { self.now.held ≡ nothing_held }
        ensures reads { IfSome result
            (λ s. ReadsEvent self.now.held bytes.now (whole_sequence s.1 (length s.0.now + 3))
            (record self.now { parameters = parameters_of s.0.now })) }
        ensures list { IfSome result (λ s. IsShortList s.0.now) }
    {
        let remaining = after_introducer(bytes, b'[')?;
        let list = list_of(remaining);
        let control = last_at(remaining, list.len())?;
        if list.len() > MOST_BYTES {
            return None;
        }
        Some((list, control))
    }

    /// Keeps parameter bytes, where nothing is unfinished, so that their tokens are lent as those of the last control
    /// sequence.
    pub fn keep_parameters(&mut self, list: &[u8])
        requires { self.old.held ≡ nothing_held }
        ensures { self.new ≡ record self.old { parameters = parameters_of list.now } }
    {
        self.parameters.set(list);
    }
}
