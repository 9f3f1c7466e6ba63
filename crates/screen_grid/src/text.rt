//! The next cluster of a text.
ghost use Rattle.std.specs.Prelude.{◌≡◌, ◌↔◌, ◌∷◌, ◌++◌, [], true, IsNone, IfSome};
ghost use Rattle.unicode_segmentation.specs.Grapheme.{graphemes};

use text_clusters::split_first_cluster;

// Cuts off the first cluster of a text; of the empty text without a walk.
pub(crate) fn next_cluster(text: &str) -> Option<(&str, &str)>
    ensures none { IsNone result ↔ (text.now ≡ []) }
    ensures whole { IfSome result (λ parts. text.now ≡ parts.0.now ++ parts.1.now) }
    ensures clusters { IfSome result (λ parts. graphemes true text.now ≡ parts.0.now ∷ graphemes true parts.1.now) }
    ensures alone { IfSome result (λ parts. graphemes true parts.0.now ≡ parts.0.now ∷ []) }
{
    if text.is_empty() {
        return None;
    }
    split_first_cluster(text)
}
