//! Texts cut at their controls.
ghost use Rattle.std.specs.Prelude.{◌≡◌, ◌≤◌, ◌∷◌, ◌++◌, [], true, length, IfNone, IsUtf8, IfSome};
ghost use Rattle.text_clusters.specs.Controls.{len_before_ascii_control};
ghost use Rattle.cell_base.specs.Cluster.{clusters};
ghost use Rattle.screen_effects.specs.Parts.{stand, IsAtControl, plain_part};
ghost use Rattle.screen_effects.specs.Strokes.{Control, text_parts};

use text_clusters::len_before_ascii_control;

// The number of bytes before the first control.
fn plain_len(text: &str) -> usize
    ensures { result ≡ len_before_ascii_control text.now }
{
    len_before_ascii_control(text.as_bytes())
}

/// Cuts a text before its first C0 control or DEL.
pub fn split_at_control(text: &str) -> (&str, &str)
    ensures parts { text_parts text.now ≡ plain_part result.0.now ++ text_parts result.1.now }
    ensures stands { stand (clusters result.0.now) ≡ true }
    ensures control { IsAtControl result.1.now }
    ensures len { length result.1.now ≤ length text.now }
    ensures utf8 { IsUtf8 result.1.now }
{
    text.split_at(plain_len(text))
}

/// Cuts off the control at the start; `None` of the empty text.
pub fn split_control(text: &str) -> Option<(u8, &str)>
    requires { IsAtControl text.now }
    ensures none { IfNone result (text.now ≡ []) }
    ensures parts { IfSome result (λ parts. text_parts text.now ≡ Control parts.0 ∷ text_parts parts.1.now) }
    ensures len { IfSome result (λ parts. text.now ≡ parts.0 ∷ parts.1.now) }
{
    let control = *text.as_bytes().first()?;
    let (_, after) = text.split_at(1);
    Some((control, after))
}
