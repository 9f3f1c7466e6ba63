//! Texts: the characters at the start of some bytes that the framer lends without a copy.
ghost use Rattle.std.specs.Prelude.{◌≡◌, ◌≢◌, ◌↔◌, IsTrue, ◌≤◌, length, drop};
ghost use Rattle.escape_framing.specs.Segment.{IsPrintable};
ghost use Rattle.escape_framing.specs.Framed.{IsCharacterLen, IsRunLen, IsTextLen};

use bstr::decode_utf8;
use text_clusters::{is_printable, printable_len};

// Whether a text can hold a character: it is no control, and not U+FFFD, which also replaces ill-formed bytes.
#[inline(always)]
fn is_lendable(c: char) -> bool
    ensures { IsTrue result ↔ (IsPrintable c × (c ≢ 0xFFFD)) }
{
    !c.is_control() && c != '\u{fffd}'
}

// How many bytes the character at the start has; 0 where no text can hold it.
fn character_len(bytes: &[u8]) -> usize
    ensures { IsCharacterLen bytes.now result }
{
    match decode_utf8(bytes) {
        (Some(c), len) => if is_lendable(c) { len } else { 0 },
        (None, _) => 0,
    }
}

// How many bytes the printable ASCII characters at the start have, or the character there; 0 where no text can hold it.
fn run_len(bytes: &[u8]) -> usize
    ensures { IsRunLen bytes.now result }
{
    match bytes.split_first() {
        Some((byte, _)) if is_printable(*byte) => printable_len(bytes),
        Some((byte, _)) if *byte < 0xc2 => 0,
        _ => character_len(bytes),
    }
}

/// The suffix after the first `count` bytes.
#[inline(always)]
pub(crate) fn after(bytes: &[u8], count: usize) -> &[u8]
    requires { count ≤ length bytes.now }
    ensures { result.now ≡ drop count bytes.now }
{
    &bytes[count..]
}

/// How many bytes the longest text at the start has.
pub(crate) fn text_len(bytes: &[u8]) -> usize
    ensures { IsTextLen bytes.now result }
{
    let mut rest = bytes;
    let mut len = 0;
    loop {
        let count = run_len(rest);
        if count == 0 {
            return len;
        }
        rest = after(rest, count);
        len += count;
    }
}
