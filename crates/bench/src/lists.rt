//! Control sequences, read and written repeatedly.
use csi_codec::{CSI, CsiFront, CsiParam, read_csi};
use std::alloc::Global;
use std::fmt::Write;

fn prefix(alloc: Global, input: &[u8]) -> Option<CsiFront<'_>> {
    read_csi(alloc, input).ok()?
}

// Reads a list `count` times, and counts its actions. A function of its own, so that no other loop takes its registers.
#[inline(never)]
fn read_over(
    alloc: Global,
    params: &[CsiParam],
    truncated: bool,
    control: char,
    count: u32,
) -> Option<u64> {
    let mut sum = 0u64;
    for _ in 0..count {
        for action in CSI::parse(alloc, params, truncated, control) {
            let _ = action.ok()?;
            sum = sum.wrapping_add(1);
        }
    }
    Some(sum)
}

/// Reads the list of the control sequence at the start of the input `count` times, and counts its actions.
pub fn read(alloc: Global, input: &[u8], count: u32) -> Option<u64> {
    let prefix = prefix(alloc, input)?;
    read_over(
        alloc,
        &prefix.params,
        prefix.truncated,
        prefix.control,
        count,
    )
}

// Writes an action `count` times, and counts the bytes, in a function of its own too.
#[inline(never)]
fn write_over(alloc: Global, action: &CSI, count: u32) -> Option<u64> {
    let mut text = String::new(alloc);
    let mut sum = 0u64;
    for _ in 0..count {
        text.clear();
        write!(text, "{action}").ok()?;
        sum = sum.wrapping_add(text.len() as u64);
    }
    Some(sum)
}

/// Writes the first action of the control sequence at the start of the input `count` times, and counts the bytes.
pub fn write(alloc: Global, input: &[u8], count: u32) -> Option<u64> {
    let prefix = prefix(alloc, input)?;
    let mut actions = CSI::parse(alloc, &prefix.params, prefix.truncated, prefix.control);
    let action = actions.next()?.ok()?;
    write_over(alloc, &action, count)
}
