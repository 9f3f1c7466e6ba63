//! Bodies of commands and strings: how many bytes at the start are literal.
ghost use Rattle.std.specs.Prelude.{◌≡◌, take};
ghost use Rattle.std.specs.List.{prefix_len};
ghost use Rattle.escape_framing.specs.Prefixes.{is_body_byte as in_bodies, is_string_byte as in_strings};

use crate::bytes::{C1_LEAD, is_stop};
use crate::texts::after;
use text_clusters::printable_len;

// A literal byte of a string: none that ends the string, and no C2, which may be half of a control that does.
#[inline(always)]
fn is_string_byte(byte: u8) -> bool
    ensures { result ≡ in_strings byte }
{
    !is_stop(byte) && byte != C1_LEAD
}

/// How many bytes at the start are literal bytes of a string.
pub(crate) fn string_len(bytes: &[u8]) -> usize
    ensures { result ≡ prefix_len in_strings bytes.now }
{
    bytes
        .iter()
        .take_while(|byte| is_string_byte(**byte))
        .count()
}

// A literal byte of a command's body.
#[inline(always)]
#[tactic(auto, unfolding(crate::specs::Prefixes::is_body_byte))]
fn is_body_byte(byte: u8) -> bool
    ensures { result ≡ in_bodies byte }
{
    !byte.is_ascii_control() && byte != C1_LEAD
}

// How many bytes at the start are literal bytes of a body, counted one by one.
fn short_len(bytes: &[u8]) -> usize
    ensures { result ≡ prefix_len in_bodies bytes.now }
{
    bytes.iter().take_while(|byte| is_body_byte(**byte)).count()
}

// The count of `short_len`, where printable ASCII characters at the start are counted in runs.
fn body_len(bytes: &[u8]) -> usize
    ensures { result ≡ prefix_len in_bodies bytes.now }
{
    let plain = printable_len(bytes);
    plain + short_len(after(bytes, plain))
}

/// The bytes at the start that are literal bytes of the body of a command.
pub(crate) fn body_of(bytes: &[u8]) -> &[u8]
    ensures { result.now ≡ take (prefix_len in_bodies bytes.now) bytes.now }
{
    let count = body_len(bytes);
    &bytes[..count]
}
