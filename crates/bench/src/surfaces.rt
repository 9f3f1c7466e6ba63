//! Surfaces that are changed.
use cell_surface::{AttributeChange, ColorAttribute, ProgramWidth, Surface};
use std::alloc::Global;
use std::str;

type Plain = Surface<ProgramWidth>;

fn surface_of(alloc: Global, width: usize, height: usize) -> Option<Plain> {
    if width < 1 || 4096 < width || height < 1 || 4096 < height {
        return None;
    }
    Surface::new(alloc, width, height, ProgramWidth).ok()
}

// The parts of a text, each with the separator that ends it.
fn split_inclusive<'a>(alloc: Global, input: &'a [u8], separator: &str) -> Option<Vec<&'a str>> {
    let mut parts = Vec::new(alloc);
    for part in str::from_utf8(input).ok()?.split_inclusive(separator) {
        parts.push(part).ok()?;
    }
    Some(parts)
}

// The parts of a text between separators.
fn split<'a>(alloc: Global, input: &'a [u8], separator: &str) -> Option<Vec<&'a str>> {
    let mut parts = Vec::new(alloc);
    for part in str::from_utf8(input).ok()?.split(separator) {
        parts.push(part).ok()?;
    }
    Some(parts)
}

// Adds a text to the surface.
fn add_text(surface: &mut Plain, text: &str) -> Option<()> {
    let mut own = surface.pooled_text();
    own.push_str(text).ok()?;
    surface.add_change(own).ok()?;
    Some(())
}

fn add_lines(surface: &mut Plain, lines: &[&str]) -> Option<()> {
    for line in lines {
        add_text(surface, line)?;
    }
    Some(())
}

/// Adds each line of the input, with the CR LF that ends it, to a surface of 80 columns and 24 rows, `count` times.
pub fn lines(alloc: Global, input: &[u8], count: u32) -> Option<u64> {
    let lines = split_inclusive(alloc, input, "\n")?;
    let mut surface = surface_of(alloc, 80, 24)?;
    for _ in 0..count {
        add_lines(&mut surface, &lines)?;
    }
    Some(surface.current_seqno() as u64)
}

fn add_words(surface: &mut Plain, words: &[&str]) -> Option<()> {
    let mut color = 0u8;
    for word in words {
        add_text(surface, word)?;
        color = color.wrapping_add(1);
        let change = AttributeChange::Foreground(ColorAttribute::PaletteIndex(color));
        surface.add_change(change).ok()?;
    }
    Some(())
}

/// Adds each word of the input with the space that ends it, and after it an attribute, to a surface of 80 columns and
/// 24 rows, `count` times.
pub fn words(alloc: Global, input: &[u8], count: u32) -> Option<u64> {
    let words = split_inclusive(alloc, input, " ")?;
    let mut surface = surface_of(alloc, 80, 24)?;
    for _ in 0..count {
        add_words(&mut surface, &words)?;
    }
    Some(surface.current_seqno() as u64)
}

fn add_and_take(surface: &mut Plain, lines: &[&str]) -> Option<u64> {
    let mut sum = 0u64;
    for line in lines {
        let number = surface.current_seqno();
        add_text(surface, line)?;
        let (_, changes) = surface.get_changes(number).ok()?;
        sum = sum.wrapping_add(changes.len() as u64);
    }
    Some(sum)
}

/// Adds each line of the input, which ends in CR LF, to a surface of this size without the LF, so that nothing scrolls,
/// and takes the changes after each, `count` times.
pub fn due(alloc: Global, input: &[u8], width: usize, height: usize, count: u32) -> Option<u64> {
    let lines = split(alloc, input, "\n")?;
    let mut surface = surface_of(alloc, width, height)?;
    let mut sum = 0u64;
    for _ in 0..count {
        sum = sum.wrapping_add(add_and_take(&mut surface, &lines)?);
    }
    Some(sum)
}

/// Makes two surfaces of 2000 columns and 500 rows, fills one, and takes its difference from the other and its repaint.
pub fn large(alloc: Global, input: &[u8]) -> Option<u64> {
    let mut surface = surface_of(alloc, 2000, 500)?;
    let other = surface_of(alloc, 2000, 500)?;
    let text = str::from_utf8(input).ok()?;
    for _ in 0..500 {
        add_text(&mut surface, text)?;
    }
    let difference = other.diff_screens(&surface).ok()?;
    let (_, repaint) = surface.get_changes(0).ok()?;
    Some(difference.len() as u64 + repaint.len() as u64)
}

/// Makes two surfaces of 80 columns and 24 rows that show the input, of which one has one letter more, and takes the
/// difference of the two, `count` times.
pub fn patch(alloc: Global, input: &[u8], count: u32) -> Option<u64> {
    let lines = split_inclusive(alloc, input, "\n")?;
    let mut surface = surface_of(alloc, 80, 24)?;
    add_lines(&mut surface, &lines)?;
    let mut other = surface_of(alloc, 80, 24)?;
    add_lines(&mut other, &lines)?;
    add_text(&mut other, "x")?;
    let mut sum = 0u64;
    for _ in 0..count {
        sum = sum.wrapping_add(surface.diff_screens(&other).ok()?.len() as u64);
    }
    Some(sum)
}
