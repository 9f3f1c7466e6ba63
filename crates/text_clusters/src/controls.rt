//! Controls in bytes: C0 and DEL, looked for sixteen bytes at a time, and C1 in UTF-8.
ghost use Rattle.std.specs.Prelude.{◌≡◌, ◌≤◌, length, take};
ghost use Rattle.text_clusters.specs.Controls.{is_c1, holds_c1, len_before_ascii_control};

use crate::lanes::{LANES, after, first_set};
use std::simd::prelude::*;

// The number of bytes before the first control among the first sixteen bytes.
#[inline(always)]
fn block_len(bytes: &[u8]) -> usize
    requires { LANES ≤ length bytes.now }
    ensures { result ≡ len_before_ascii_control (take LANES bytes.now) }
{
    let block = u8x16::from_slice(bytes);
    let below = u8x16::splat(0x1f).simd_ge(block);
    let delete = block.simd_eq(u8x16::splat(0x7f));
    first_set((below | delete).to_bitmask(), LANES)
}

// The number of bytes before the first control; it tests one byte at a time.
fn partial_block_len(bytes: &[u8]) -> usize
    ensures { result ≡ len_before_ascii_control bytes.now }
{
    bytes
        .iter()
        .take_while(|byte| !byte.is_ascii_control())
        .count()
}

/// The number of bytes before the first C0 control or DEL.
pub fn len_before_ascii_control(bytes: &[u8]) -> usize
    ensures { result ≡ len_before_ascii_control bytes.now }
{
    let mut rest = bytes;
    while LANES <= rest.len() {
        let run = block_len(rest);
        if run < LANES {
            return bytes.len() - (rest.len() - run);
        }
        rest = after(rest, LANES);
    }
    let short = partial_block_len(rest);
    bytes.len() - (rest.len() - short)
}

/// Whether two bytes are a control of C1 (ECMA-48, 5.3) in UTF-8, U+0080 to U+009F: C2 and then 80 to 9F.
#[inline(always)]
pub fn is_c1(lead: u8, next: u8) -> bool
    ensures { result ≡ is_c1 lead next }
{
    lead == 0xc2 && matches!(next, 0x80..=0x9f)
}

/// Whether the bytes contain a C1 control in UTF-8; they needn't be UTF-8 as a whole.
#[tactic(auto, using(crate::proofs::ControlLemmas::c1_steps))]
pub fn holds_c1(bytes: &[u8]) -> bool
    ensures { result ≡ holds_c1 bytes.now }
{
    for i in 1..bytes.len() {
        if is_c1(bytes[i - 1], bytes[i]) {
            return true;
        }
    }
    false
}
