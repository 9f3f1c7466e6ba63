//! Cells at the start of a text that are one character each.
ghost use Rattle.std.specs.Prelude.{◌≡◌, true, drop, IfOk, IfSome};
ghost use Rattle.std.specs.Str.{IsCharBoundary};
ghost use Rattle.clustered_row.specs.SingleText.{BeginsSingle, begins_alone, stands_alone};
ghost use Rattle.clustered_row.specs.Walk.{IsWalked};

use crate::cell_size::CellSize;
use crate::text_cells::size_of;
use cell_base::Widths;
use std::alloc::AllocError;
use text_clusters::{begins_independent, begins_printable, first_character, is_independent};

// Whether a character stands alone: it is independent, or U+FFFD, of which bytes that aren't UTF-8 make many.
#[inline(always)]
fn stands_alone(character: char) -> bool
    ensures { result ≡ stands_alone character }
{
    is_independent(character) || character == '\u{fffd}'
}

// The first character of a text, where it stands alone: its length in bytes, and the columns that it takes by itself,
// where 0 counts as 1.
#[inline(always)]
fn first_single<W: Widths>(text: &str, w: &W) -> Option<(usize, usize)>
    ensures single { IfSome result (λ first. BeginsSingle (W.width_of w.now) text.now first.0 first.1) }
    ensures cut { IfSome result (λ first. IsCharBoundary text.now first.0) }
    ensures alone { IfSome result (λ first. begins_alone text.now ≡ true) }
{
    if begins_printable(text) && w.has_narrow_ascii() {
        return Some((1, 1));
    }
    let (character, len) = first_character(text)?;
    if let Some(columns) = w.letter_columns(character) {
        return Some((len, usize::from(columns)));
    }
    if stands_alone(character) {
        return Some((len, usize::from(w.character_width(character)).max(1)));
    }
    None
}

// The text after `len` bytes.
#[inline(always)]
fn after(text: &str, len: usize) -> &str
    requires { IsCharBoundary text.now len }
    ensures { result.now ≡ drop len text.now }
{
    let (_, rest) = text.split_at(len);
    rest
}

// Writes the sizes of the cells at the start of a text, each of one character that is a cluster by itself, as far as
// they fit in `room` columns. Returns how many columns they take, and the rest of the text. Each character is
// decoded once.
pub(crate) fn single_cells<'a, W: Widths>(
    sizes: &mut Vec<CellSize>,
    room: usize,
    text: &'a str,
    w: &W,
) -> Result<(usize, &'a str), AllocError>
    ensures { IfOk result (λ r. IsWalked (W.width_of w.now) room text.now sizes.new.items r.0 r.1.now) }
{
    sizes.clear();
    let Some(one) = first_single(text, w) else {
        return Ok((0, text));
    };
    let mut columns = 0;
    let mut left = text;
    let mut first = one;
    let mut rest = after(left, first.0);
    while let Some(next) = first_single(rest, w) {
        if room - columns < first.1 {
            return Ok((columns, left));
        }
        sizes.push(size_of(first.0, first.1))?;
        columns += first.1;
        left = rest;
        first = next;
        rest = after(left, first.0);
    }
    if !begins_independent(rest) {
        return Ok((columns, left));
    }
    if room - columns < first.1 {
        return Ok((columns, left));
    }
    sizes.push(size_of(first.0, first.1))?;
    Ok((columns + first.1, rest))
}
