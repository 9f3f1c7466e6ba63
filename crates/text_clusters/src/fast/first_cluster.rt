//! Shortcuts of `split_first_cluster`.
ghost use Rattle.std.specs.Prelude.{◌≡◌, true, [], ◌∷◌, ◌++◌, IfSome};
ghost use Rattle.unicode_segmentation.specs.Grapheme.{graphemes};

use crate::independent::{begins_independent, first_character, is_independent};

// Cuts off an independent first character where the rest meets `begins_independent`. `None`: take the general way.
#[inline(always)]
pub(crate) fn split_independent(text: &str) -> Option<(&str, &str)>
    ensures whole { IfSome result (λ parts. text.now ≡ parts.0.now ++ parts.1.now) }
    ensures clusters { IfSome result (λ parts. graphemes true text.now ≡ parts.0.now ∷ graphemes true parts.1.now) }
    ensures alone { IfSome result (λ parts. graphemes true parts.0.now ≡ parts.0.now ∷ []) }
{
    let (first, len) = first_character(text)?;
    if !is_independent(first) {
        return None;
    }
    let (cluster, rest) = text.split_at(len);
    if begins_independent(rest) {
        Some((cluster, rest))
    } else {
        None
    }
}
