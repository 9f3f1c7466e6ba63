//! Printable characters at the start of some bytes, looked for sixteen bytes at a time, then eight, then four.
ghost use Rattle.std.specs.Prelude.{◌≡◌, ◌≤◌, length, take};
ghost use Rattle.std.specs.List.{list_all, prefix_len};
ghost use Rattle.text_clusters.specs.Plain.{is_printable};

use crate::lanes::{LANES, after, first_set};
use std::simd::prelude::*;

/// Whether a byte is a printable ASCII character (20h to 7Eh).
#[inline(always)]
pub fn is_printable(byte: u8) -> bool
    ensures { result ≡ is_printable byte }
{
    32 <= byte && byte < 127
}

// The length of the printable prefix of the first sixteen bytes.
#[inline(always)]
fn block_len(bytes: &[u8]) -> usize
    requires { LANES ≤ length bytes.now }
    ensures { result ≡ prefix_len is_printable (take LANES bytes.now) }
{
    let from_space = u8x16::from_slice(bytes) - u8x16::splat(0x20);
    let stops = from_space.simd_ge(u8x16::splat(0x5f));
    first_set(stops.to_bitmask(), LANES)
}

// The length of the printable prefix of the first eight bytes.
#[inline(always)]
fn half_block_len(bytes: &[u8]) -> usize
    requires { 8 ≤ length bytes.now }
    ensures { result ≡ prefix_len is_printable (take 8 bytes.now) }
{
    let from_space = u8x8::from_slice(bytes) - u8x8::splat(0x20);
    let stops = from_space.simd_ge(u8x8::splat(0x5f));
    first_set(stops.to_bitmask(), 8)
}

// The length of the printable prefix of the first four bytes.
#[inline(always)]
fn quarter_block_len(bytes: &[u8]) -> usize
    requires { 4 ≤ length bytes.now }
    ensures { result ≡ prefix_len is_printable (take 4 bytes.now) }
{
    let from_space = u8x4::from_slice(bytes) - u8x4::splat(0x20);
    let stops = from_space.simd_ge(u8x4::splat(0x5f));
    first_set(stops.to_bitmask(), 4)
}

// The length of the printable prefix of a few bytes; it tests one byte at a time.
#[inline(always)]
fn short_len(bytes: &[u8]) -> usize
    ensures { result ≡ prefix_len is_printable bytes.now }
{
    bytes.iter().take_while(|byte| is_printable(**byte)).count()
}

// The length of the printable prefix of at most eight bytes: of four or more, it tests the first four, then the last.
#[inline(always)]
fn partial_half_block_len(bytes: &[u8]) -> usize
    requires { length bytes.now ≤ 8 }
    ensures { result ≡ prefix_len is_printable bytes.now }
{
    if bytes.len() < 4 {
        return short_len(bytes);
    }
    let run = quarter_block_len(bytes);
    if run < 4 {
        return run;
    }
    let last = bytes.len() - 4;
    last + quarter_block_len(after(bytes, last))
}

// The length of the printable prefix of at most sixteen bytes: of eight or more, it tests the first eight, then the
// last eight.
#[inline(always)]
fn partial_block_len(bytes: &[u8]) -> usize
    requires { length bytes.now ≤ LANES }
    ensures { result ≡ prefix_len is_printable bytes.now }
{
    if bytes.len() < 8 {
        return partial_half_block_len(bytes);
    }
    let run = half_block_len(bytes);
    if run < 8 {
        return run;
    }
    let last = bytes.len() - 8;
    last + half_block_len(after(bytes, last))
}

/// The length of the prefix of printable ASCII characters (20h to 7Eh).
pub fn printable_len(bytes: &[u8]) -> usize
    ensures { result ≡ prefix_len is_printable bytes.now }
{
    if bytes.len() < LANES {
        return partial_block_len(bytes);
    }
    let mut rest = bytes;
    while LANES <= rest.len() {
        let run = block_len(rest);
        if run < LANES {
            return bytes.len() - (rest.len() - run);
        }
        rest = after(rest, LANES);
    }
    // The last block, which may overlap the one before it.
    let last = bytes.len() - LANES;
    last + block_len(after(bytes, last))
}

// Whether at most eight bytes are printable: of four or more, it tests the first four and the last four.
#[inline(always)]
fn eight_are_printable(bytes: &[u8]) -> bool
    requires { length bytes.now ≤ 8 }
    ensures { result ≡ list_all is_printable bytes.now }
{
    if bytes.len() < 4 {
        return short_len(bytes) == bytes.len();
    }
    let last = after(bytes, bytes.len() - 4);
    (quarter_block_len(bytes) == 4) & (quarter_block_len(last) == 4)
}

// Whether at most sixteen bytes are printable: of eight or more, it tests the first eight and the last eight.
#[inline(always)]
fn sixteen_are_printable(bytes: &[u8]) -> bool
    requires { length bytes.now ≤ LANES }
    ensures { result ≡ list_all is_printable bytes.now }
{
    if bytes.len() < 8 {
        return eight_are_printable(bytes);
    }
    let last = after(bytes, bytes.len() - 8);
    (half_block_len(bytes) == 8) & (half_block_len(last) == 8)
}

/// Whether all bytes are printable ASCII characters (20h to 7Eh).
#[inline(always)]
pub fn are_printable(bytes: &[u8]) -> bool
    ensures { result ≡ list_all is_printable bytes.now }
{
    if bytes.len() < LANES {
        sixteen_are_printable(bytes)
    } else {
        printable_len(bytes) == bytes.len()
    }
}
