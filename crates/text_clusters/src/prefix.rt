//! The start of a text, cut off so that the clusters of the text are those of both parts.
ghost use Rattle.std.specs.Prelude.{◌≡◌, ◌↔◌, ◌++◌, ◌∷◌, ◌&&◌, ◌==◌, [], true, not, nat_lt, min, length, take, drop};
ghost use Rattle.std.specs.Prelude.{slice_index, IfSome, IsNone, IsTrue};
ghost use Rattle.std.specs.List.{list_all, prefix_len};
ghost use Rattle.unicode_segmentation.specs.Grapheme.{graphemes};
ghost use Rattle.text_clusters.specs.Independent.{independent_len, BeginsPrintable};
ghost use Rattle.text_clusters.specs.Plain.{is_printable, each, plain_len};

use crate::fast::first_cluster::split_independent;
use crate::independent::begins_independent;
use crate::printable::{is_printable, printable_len};
use unicode_segmentation::UnicodeSegmentation;

// The first `most` bytes, or all if there are fewer.
#[tactic(auto, using(crate::proofs::PlainLemmas::take_at_most))]
fn first_bytes(text: &str, most: usize) -> &[u8]
    ensures { result.now ≡ take most text.now }
{
    let bytes = text.as_bytes();
    &bytes[..most.min(bytes.len())]
}

// The length of the printable prefix of the first `most` bytes.
fn printable_run(text: &str, most: usize) -> usize
    ensures { result ≡ prefix_len is_printable (take most text.now) }
{
    printable_len(first_bytes(text, most))
}

// Whether `text` has a byte at `position`, and it isn't a printable character.
fn is_other_at(text: &str, position: usize) -> bool
    ensures { result ≡ (nat_lt position (length text.now) && not (is_printable (slice_index text.now position))) }
{
    match text.as_bytes().get(position) {
        None => false,
        Some(byte) => !is_printable(*byte),
    }
}

/// Whether the text begins with a printable ASCII character (20h to 7Eh).
#[inline(always)]
pub fn begins_printable(text: &str) -> bool
    ensures value { result ≡ nat_lt 0 (prefix_len is_printable text.now) }
    ensures first { IsTrue result → BeginsPrintable text.now }
{
    match text.as_bytes().first() {
        None => false,
        Some(byte) => is_printable(*byte),
    }
}

// The length in bytes of the plain prefix, at most `most`.
fn plain_len(text: &str, most: usize) -> usize
    ensures { result ≡ min most (plain_len text.now) }
{
    if !begins_printable(text) {
        return 0;
    }
    let run = printable_run(text, most);
    if is_other_at(text, run) {
        run.saturating_sub(1)
    } else {
        run
    }
}

/// Cuts a text after its plain prefix, or after `most` bytes of it: printable ASCII characters (20h
/// to 7Eh), each of which is a cluster by itself. The last of them goes to the rest where a character
/// that is not printable ASCII follows it, since that may join it. The function reads at most
/// `most` + 1 bytes.
pub fn split_plain(text: &str, most: usize) -> (&str, &str)
    ensures prefix { result.0.now ≡ take (min most (plain_len text.now)) text.now }
    ensures rest { result.1.now ≡ drop (min most (plain_len text.now)) text.now }
    ensures printable { list_all is_printable result.0.now ≡ true }
    ensures clusters { graphemes true text.now ≡ each result.0.now ++ graphemes true result.1.now }
{
    text.split_at(plain_len(text, most))
}

// The length in bytes of the prefix of printable characters that nothing joins, at most `most`.
#[inline(always)]
fn independent_len(text: &str, most: usize) -> usize
    ensures { result ≡ min most (independent_len text.now) }
{
    let run = printable_run(text, most);
    let (_, rest) = text.split_at(run);
    if begins_independent(rest) {
        run
    } else {
        run.saturating_sub(1)
    }
}

/// Cuts a text after the printable ASCII characters (20h to 7Eh) at its start, or after `most`
/// bytes of them: each is a cluster by itself. The last of them goes to the rest where a character
/// follows it that may join it; letters, ideographs, syllables and signs that are independent don't.
pub fn split_printable(text: &str, most: usize) -> (&str, &str)
    ensures prefix { result.0.now ≡ take (min most (independent_len text.now)) text.now }
    ensures rest { result.1.now ≡ drop (min most (independent_len text.now)) text.now }
    ensures printable { list_all is_printable result.0.now ≡ true }
    ensures clusters { graphemes true text.now ≡ each result.0.now ++ graphemes true result.1.now }
{
    text.split_at(independent_len(text, most))
}

// Cuts off the first cluster, as `split_first_cluster` does, by a walk over the text.
#[inline(never)]
fn walk_first_cluster(text: &str) -> Option<(&str, &str)>
    ensures none { IsNone result ↔ (text.now ≡ []) }
    ensures whole { IfSome result (λ parts. text.now ≡ parts.0.now ++ parts.1.now) }
    ensures clusters { IfSome result (λ parts. graphemes true text.now ≡ parts.0.now ∷ graphemes true parts.1.now) }
    ensures alone { IfSome result (λ parts. graphemes true parts.0.now ≡ parts.0.now ∷ []) }
{
    let mut clusters = text.graphemes(true);
    let first = clusters.next()?;
    Some((first, clusters.as_str()))
}

/// Cuts off the first cluster of a text; the rest has the remaining clusters. An independent first
/// character, as most letters, ideographs and syllables are, is cut off without a walk where the
/// text ends after it, or another independent character or half of a flag follows.
#[inline(always)]
pub fn split_first_cluster(text: &str) -> Option<(&str, &str)>
    ensures none { IsNone result ↔ (text.now ≡ []) }
    ensures whole { IfSome result (λ parts. text.now ≡ parts.0.now ++ parts.1.now) }
    ensures clusters { IfSome result (λ parts. graphemes true text.now ≡ parts.0.now ∷ graphemes true parts.1.now) }
    ensures alone { IfSome result (λ parts. graphemes true parts.0.now ≡ parts.0.now ∷ []) }
{
    if let Some(parts) = split_independent(text) {
        return Some(parts);
    }
    walk_first_cluster(text)
}
