//! Classes of bytes (ECMA-48, 5).
ghost use Rattle.std.specs.Prelude.{◌≡◌};
ghost use Rattle.escape_framing.specs.Bytes.{is_stop as in_stops, is_embedded as in_embedded};
ghost use Rattle.escape_framing.specs.Bytes.{is_intermediate as in_intermediates, is_opener as in_openers};
ghost use Rattle.escape_framing.specs.Bytes.{is_cut as in_cuts};

pub(crate) const BEL: u8 = 0x07;

const CANCEL: u8 = 0x18;

const SUBSTITUTE: u8 = 0x1a;

pub(crate) const ESCAPE: u8 = 0x1b;

/// The first byte of the UTF-8 of a C1 control.
pub(crate) const C1_LEAD: u8 = 0xc2;

#[tactic(auto, unfolding(crate::specs::Bytes::is_stop))]
pub(crate) fn is_stop(byte: u8) -> bool
    ensures { result ≡ in_stops byte }
{
    byte == CANCEL || byte == SUBSTITUTE || byte == ESCAPE
}

#[tactic(auto, unfolding(crate::specs::Bytes::is_embedded))]
pub(crate) fn is_embedded(byte: u8) -> bool
    ensures { result ≡ in_embedded byte }
{
    byte.is_ascii_control() && !is_stop(byte)
}

#[tactic(auto, unfolding(crate::specs::Bytes::is_intermediate))]
pub(crate) fn is_intermediate(byte: u8) -> bool
    ensures { result ≡ in_intermediates byte }
{
    matches!(byte, 0x20..=0x2f)
}

#[tactic(auto, unfolding(crate::specs::Bytes::is_cut))]
pub(crate) fn is_cut(byte: u8) -> bool
    ensures { result ≡ in_cuts byte }
{
    is_stop(byte) || 0x80 <= byte
}

#[tactic(auto, unfolding(crate::specs::Bytes::is_opener, crate::specs::Bytes::is_string_opener))]
pub(crate) fn is_opener(byte: u8) -> bool
    ensures { result ≡ in_openers byte }
{
    byte == b'[' || byte == b']' || byte == b'P' || byte == b'X' || byte == b'^' || byte == b'_'
}
