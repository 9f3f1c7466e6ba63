//! The texts by which cells are written.
ghost use Rattle.std.specs.Prelude.{◌≡◌, ◌==◌, ◌≤◌, ℕ, List, ◌∷◌, ◌++◌, true, false, length, map, take, drop, IfSome};
ghost use Rattle.std.specs.Prelude.{IsNone, OnOk};
ghost use Rattle.std.specs.List.{list_all, prefix_len};
ghost use Rattle.std.specs.Str.{is_utf8};
ghost use Rattle.unicode_segmentation.specs.Grapheme.{graphemes};
ghost use Rattle.text_clusters.specs.Plain.{each};
ghost use Rattle.screen_change.specs.ChangeValue.{Text};
ghost use Rattle.screen_change.specs.Cuts.{cut_at, bytes_of};
ghost use Rattle.screen_change.specs.Texts.{same_texts};
ghost use Rattle.screen_change.specs.ValueOf.{value_of};

use crate::change::Change;
use std::alloc::{AllocError, Global};
use text_clusters::{split_first_cluster, split_plain};

// The text after its first cluster, where this cluster has `len` bytes.
fn after_cluster(text: &str, len: usize) -> Option<&str>
    requires { len ≤ length text.now }
    ensures rest { IfSome result (λ rest. rest.now ≡ drop len text.now) }
    ensures clusters { IfSome result (λ rest. graphemes true text.now ≡ take len text.now ∷ graphemes true rest.now) }
    ensures none { IsNone result → (cells : List (List ℕ))
        → same_texts (graphemes true text.now) (take len text.now ∷ cells) ≡ false }
{
    let (cluster, rest) = split_first_cluster(text)?;
    if cluster.len() == len {
        Some(rest)
    } else {
        None
    }
}

// Whether each byte of a text is a cluster.
fn are_bytes(text: &str) -> bool
    ensures { result ≡ same_texts (graphemes true text.now) (each text.now) }
{
    let (_, mut rest) = split_plain(text, text.len());
    while !rest.is_empty() {
        match after_cluster(rest, 1) {
            None => return false,
            Some(after) => rest = after,
        }
    }
    true
}

// The largest number of cells tested together.
const TESTED: usize = 32;

// The first `TESTED` lengths, or all if there are fewer.
#[tactic(auto, using(std::proofs::lemmas::List::take_min))]
fn first_tested(lens: &[usize]) -> &[usize]
    ensures { result.now ≡ take TESTED lens.now }
{
    &lens[..TESTED.min(lens.len())]
}

// How many of the first lengths are 1.
fn ones(lens: &[usize]) -> usize
    ensures { result ≡ prefix_len (λ len. len == 1) lens.now }
{
    lens.iter().take_while(|len| **len == 1).count()
}

// Drops plain cells at the start of a text, at most `TESTED` of them, and their lengths; returns the rest of both.
fn after_plain<'a>(text: &'a str, lens: &'a [usize]) -> (&'a str, &'a [usize])
    requires { bytes_of lens.now ≤ length text.now }
    ensures fewer { length result.1.now ≤ length lens.now }
    ensures within { bytes_of result.1.now ≤ length result.0.now }
    ensures same { same_texts (graphemes true result.0.now) (cut_at result.1.now result.0.now)
        ≡ same_texts (graphemes true text.now) (cut_at lens.now text.now) }
{
    let (prefix, rest) = split_plain(text, ones(first_tested(lens)));
    let (_, left) = lens.split_at(prefix.len());
    (rest, left)
}

// Whether the clusters of a text are its cells: the first cells have the lengths `lens`, and after them each byte is
// one.
pub(crate) fn has_clusters(text: &str, lens: &[usize]) -> bool
    requires { bytes_of lens.now ≤ length text.now }
    ensures { result ≡ same_texts (graphemes true text.now) (cut_at lens.now text.now) }
{
    let (mut rest, mut left) = after_plain(text, lens);
    while let Some((len, remaining)) = left.split_first() {
        let Some(after) = after_cluster(rest, *len) else {
            return false;
        };
        let (next_rest, next_left) = after_plain(after, remaining);
        rest = next_rest;
        left = next_left;
    }
    are_bytes(rest)
}

// Appends a `Change::Text` for each cell; `lens` are the cells' lengths in bytes.
pub(crate) fn push_each(
    alloc: Global,
    changes: &mut Vec<Change>,
    text: &str,
    lens: &[usize],
) -> Result<(), AllocError>
    requires bytes { bytes_of lens.now ≡ length text.now }
    requires parts { list_all is_utf8 (cut_at lens.now text.now) ≡ true }
    ensures { OnOk result (map value_of changes.new.items
        ≡ map value_of changes.old.items ++ map Text (cut_at lens.now text.now)) }
{
    let mut rest = text;
    for len in lens {
        let (cell, after) = rest.split_at(*len);
        changes.push(Change::Text(String::from_str(alloc, cell)?))?;
        rest = after;
    }
    Ok(())
}
