//! Texts of the cells that an iteration has not passed yet.
ghost use Rattle.std.specs.Prelude.{◌≡◌, ◌≤◌, ◌++◌, ◌↔◌, true, false, [], length, take, drop, IsTrue, MatchOption};
ghost use Rattle.std.specs.List.{list_all, prefix_len};
ghost use Rattle.text_clusters.specs.Plain.{is_printable};
ghost use Rattle.clustered_row.specs.Faces.{cell_faces, plain_faces, starts_right};
ghost use Rattle.clustered_row.specs.Position.{IsBefore};
ghost use Rattle.clustered_row.specs.Sizes.{bytes_of, is_cut, is_plain};

use crate::cell_size::CellSize;
use crate::cut_text::CutText;
use crate::lent_text::LentText;
use crate::position::{Position, START};
use crate::texts::Texts;
use std::str;

// Cells with these sizes at the start of a text, and one for each byte after them.
#[derive(Drop)]
pub(crate) struct TextsLeft<'a> {
    pub(crate) text: &'a [u8],
    pub(crate) sizes: &'a [CellSize],
    ghost bytes: { bytes_of sizes.now ≤ length text.now },
    ghost parts: { is_cut text.now sizes.now ≡ true },
}

// How many sizes at the start are those of plain cells.
fn plain_sizes(sizes: &[CellSize]) -> usize
    ensures { result ≡ prefix_len is_plain sizes.now }
{
    sizes.iter().take_while(|size| size.is_plain()).count()
}

impl<'a> TextsLeft<'a> {
    ghost use Rattle.clustered_row.specs.VisibleTexts.{faces_left};

    // Takes the next cell.
    #[inline(always)]
    pub(crate) fn pass(&mut self) -> Option<LentText<'a>>
        ensures { MatchOption result ((faces_left self.old ≡ []) × (faces_left self.new ≡ [])) (λ cell.
            faces_left self.old ≡ cell_faces cell.is_wide cell.text.now ++ faces_left self.new) }
    {
        if let Some((size, sizes)) = self.sizes.split_first() {
            let len = size.len;
            let text = &self.text[..len];
            self.text = &self.text[len..];
            self.sizes = sizes;
            return Some(LentText {
                text: unsafe { str::from_utf8_unchecked(text) },
                is_wide: size.is_wide,
            });
        }
        if self.text.is_empty() {
            return None;
        }
        let text = &self.text[..1];
        self.text = &self.text[1..];
        Some(LentText {
            text: unsafe { str::from_utf8_unchecked(text) },
            is_wide: false,
        })
    }

    // Whether no cell is left.
    pub(crate) fn is_empty(&self) -> bool
        ensures { IsTrue result ↔ (faces_left self.now ≡ []) }
    {
        self.text.is_empty()
    }

    // How many plain cells come next, at most `most`.
    fn plain_len(&self, most: usize) -> usize
        ensures most { result ≤ most }
        ensures within { result ≤ length self.now.text.now }
        ensures plain { list_all is_plain (take result self.now.sizes.now) ≡ true }
    {
        let sizes = &self.sizes[..most.min(self.sizes.len())];
        let plain = plain_sizes(sizes);
        if plain < sizes.len() {
            return plain;
        }
        most.min(self.text.len())
    }

    // Takes the next plain cells, at most `most`, and returns their texts.
    pub(crate) fn pass_plain(&mut self, most: usize) -> &'a str
        ensures left { faces_left self.old ≡ plain_faces result.now ++ faces_left self.new }
        ensures most { length result.now ≤ most }
        ensures printable { list_all is_printable result.now ≡ true }
    {
        let count = self.plain_len(most);
        let text = &self.text[..count];
        self.text = &self.text[count..];
        self.sizes = &self.sizes[count.min(self.sizes.len())..];
        unsafe { str::from_utf8_unchecked(text) }
    }
}

impl CutText {
    ghost use Rattle.clustered_row.specs.CutTexts.{shown};
    ghost use Rattle.clustered_row.specs.VisibleTexts.{faces_left};

    // All cells.
    #[inline(always)]
    pub(crate) fn left(&self) -> TextsLeft<'_>
        ensures { faces_left result ≡ shown self.now }
    {
        TextsLeft {
            text: &self.text,
            sizes: &self.sizes,
        }
    }

    // The position of column `at`, which cuts no cell, searched from `from` on.
    fn position_before(&self, from: Position, at: usize) -> Position
        requires from { IsBefore self.now.text.items self.now.sizes.items from }
        requires order { from.columns ≤ at }
        requires within { at ≤ length (shown self.now) }
        requires whole { starts_right (drop at (shown self.now)) ≡ false }
        ensures position { IsBefore self.now.text.items self.now.sizes.items result }
        ensures column { result.columns ≡ at }
        ensures index { from.index ≤ result.index }
        ensures bytes { from.bytes ≤ result.bytes }
    {
        if self.sized_columns <= at {
            return Position {
                index: self.sizes.len(),
                bytes: self.plain_byte(at),
                columns: at,
            };
        }
        self.position(from, at)
    }

    // The cells from a column on and before another, at which no cell is cut.
    pub(crate) fn between(&self, from: usize, to: usize) -> TextsLeft<'_>
        requires order { from ≤ to }
        requires within { to ≤ length (shown self.now) }
        requires first { starts_right (drop from (shown self.now)) ≡ false }
        requires last { starts_right (drop to (shown self.now)) ≡ false }
        ensures { faces_left result ≡ drop from (take to (shown self.now)) }
    {
        let first = self.position_before(START, from);
        let last = self.position_before(first, to);
        TextsLeft {
            text: &self.text[first.bytes..last.bytes],
            sizes: &self.sizes[first.index..last.index],
        }
    }
}

impl Texts {
    ghost use Rattle.clustered_row.specs.TextsShown.{faces};
    ghost use Rattle.clustered_row.specs.VisibleTexts.{faces_left};

    // All cells.
    #[inline(always)]
    pub(crate) fn left(&self) -> TextsLeft<'_>
        ensures { faces_left result ≡ faces self.now }
    {
        self.cut.left()
    }

    // The cells from a column on and before another, at which no cell is cut.
    pub(crate) fn between(&self, from: usize, to: usize) -> TextsLeft<'_>
        requires order { from ≤ to }
        requires within { to ≤ length (faces self.now) }
        requires first { starts_right (drop from (faces self.now)) ≡ false }
        requires last { starts_right (drop to (faces self.now)) ≡ false }
        ensures { faces_left result ≡ drop from (take to (faces self.now)) }
    {
        self.cut.between(from, to)
    }
}
