//! Parts of texts in printable ASCII.
ghost use Rattle.std.specs.Prelude.{◌≡◌, ◌-◌, ◌≤◌, true, drop, length, take};
ghost use Rattle.std.specs.List.{list_all};
ghost use Rattle.text_clusters.specs.Plain.{is_printable};

/// The characters from index `start` on.
pub(crate) fn after(text: &str, start: usize) -> &str
    requires printable { list_all is_printable text.now ≡ true }
    requires within { start ≤ length text.now }
    ensures part { result.now ≡ drop start text.now }
    ensures printable { list_all is_printable result.now ≡ true }
{
    &text[start..]
}

/// The first `count` characters.
pub(crate) fn prefix(text: &str, count: usize) -> &str
    requires printable { list_all is_printable text.now ≡ true }
    requires within { count ≤ length text.now }
    ensures part { result.now ≡ take count text.now }
    ensures printable { list_all is_printable result.now ≡ true }
{
    &text[..count]
}

/// The characters from index `start` on and before index `stop`.
pub(crate) fn part(text: &str, start: usize, stop: usize) -> &str
    requires printable { list_all is_printable text.now ≡ true }
    requires order { start ≤ stop }
    requires within { stop ≤ length text.now }
    ensures part { result.now ≡ take (stop - start) (drop start text.now) }
    ensures printable { list_all is_printable result.now ≡ true }
{
    prefix(after(text, start), stop - start)
}
