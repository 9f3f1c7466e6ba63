//! The columns that a text takes, and white space.
ghost use Rattle.std.specs.Prelude.{◌≡◌, ◌^◌, ◌-◌, min, sum_by, true};
ghost use Rattle.std.specs.Char.{is_whitespace};
ghost use Rattle.std.specs.List.{list_all};
ghost use Rattle.std.specs.Str.{chars};
ghost use Rattle.unicode_segmentation.specs.Grapheme.{graphemes};

use crate::widths::Widths;
use unicode_segmentation::UnicodeSegmentation;

/// The columns of a text: the sum of the columns of its extended grapheme clusters (UAX 29), at most
/// `usize::MAX`.
pub fn unicode_column_width<W: Widths>(s: &str, w: &W) -> usize
    ensures { result ≡ min (sum_by (W.width_of w.now) (graphemes true s.now)) (2 ^ 64 - 1) }
{
    let mut columns = 0usize;
    for cluster in s.graphemes(true) {
        columns = columns.saturating_add(grapheme_column_width(cluster, w));
    }
    columns
}

/// The columns of a text that is one cluster.
pub fn grapheme_column_width<W: Widths>(s: &str, w: &W) -> usize
    ensures { result ≡ W.width_of w.now s.now }
{
    usize::from(w.width(s))
}

/// Whether the character has Unicode's property White_Space.
pub fn is_white_space_char(c: char) -> bool
    ensures { result ≡ is_whitespace c }
{
    c.is_whitespace()
}

/// Whether each character of the text has Unicode's property White_Space.
pub fn is_white_space_grapheme(g: &str) -> bool
    ensures { result ≡ list_all is_whitespace (chars g.now) }
{
    g.chars().all(|c| is_white_space_char(c))
}
