//! A text that is one control, as most line feeds are.
ghost use Rattle.std.specs.Prelude.{◌≡◌, ◌∷◌, [], IfSome};
ghost use Rattle.screen_effects.specs.Strokes.{Control, text_parts};

/// The C0 control or DEL that a text consists of, if it is one.
#[inline(always)]
pub(crate) fn single_control(text: &str) -> Option<u8>
    ensures { IfSome result (λ control. text_parts text.now ≡ Control control ∷ []) }
{
    match text.as_bytes() {
        [byte] if byte.is_ascii_control() => Some(*byte),
        _ => None,
    }
}
