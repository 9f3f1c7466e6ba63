//! Laws of the cut: each is the contract of a function that does nothing.
ghost use Rattle.std.specs.Prelude.{◌≡◌, ℕ, ◌<◌, [], ◌∷◌, ◌++◌, List, true, length, map, take, drop, encode_utf8};
ghost use Rattle.std.specs.List.{concat, prefix_len};
ghost use Rattle.unicode_segmentation.specs.Grapheme.{graphemes};
ghost use Rattle.text_clusters.specs.Independent.{is_independent, begins_independent};
ghost use Rattle.text_clusters.specs.Plain.{is_printable, each};

/// Each cluster of a text is by itself one cluster.
pub fn clusters_stand_alone(text: &str)
    ensures { map (graphemes true) (graphemes true text.now) ≡ map (λ cluster. cluster ∷ []) (graphemes true text.now) }
{
    let _text = text;
}

/// The clusters of a text, joined, are the text; and the text after the first `count` clusters has
/// the remaining clusters as its own.
pub fn clusters_after_clusters(text: &str)
    ensures joined { concat (graphemes true text.now) ≡ text.now }
    ensures after { (count : ℕ)
        → graphemes true (concat (drop count (graphemes true text.now))) ≡ drop count (graphemes true text.now) }
{
    let _text = text;
}

/// At the start of a text, each printable ASCII character that another one follows is a cluster by
/// itself, and the clusters of the rest of the text follow. In a text of printable ASCII characters
/// only, each character is a cluster by itself.
pub fn plain_clusters()
    ensures followed { (count : ℕ) (text : List ℕ) → count < prefix_len is_printable text
        → graphemes true text ≡ each (take count text) ++ graphemes true (drop count text) }
    ensures alone { (text : List ℕ) → prefix_len is_printable text ≡ length text → graphemes true text ≡ each text }
{}

/// Letters, ideographs, syllables and signs are independent: each of these characters is a cluster by
/// itself where `begins_independent` holds for the rest of the text: the rest is empty, or begins with
/// another independent character or with half of a flag (a regional indicator).
pub fn clusters_independent(text: &str)
    ensures { (first : ℕ) (rest : List ℕ) → text.now ≡ encode_utf8 first ++ rest → is_independent first ≡ true
        → begins_independent rest ≡ true → graphemes true text.now ≡ encode_utf8 first ∷ graphemes true rest }
{
    let _text = text;
}
