//! Shortcuts: they read a whole sequence or a run at the start of the bytes of a call at once. A reader may skip this
//! module: each shortcut returns what the general way does, or `None`, which leaves all to the general way.
ghost use Rattle.std.specs.Prelude.{◌≡◌, ◌∷◌, IfSome};

mod command;
mod runs;
mod sequence;
mod starts;

// The byte after ESC, and the bytes after it, if `bytes` begin with these two.
#[inline(always)]
fn after_escape(bytes: &[u8]) -> Option<(u8, &[u8])>
    ensures { IfSome result (λ found. bytes.now ≡ 0x1B ∷ found.0 ∷ found.1.now) }
{
    match bytes {
        [0x1b, byte, remaining @ ..] => Some((*byte, remaining)),
        _ => None,
    }
}

// The bytes after ESC and `introducer`, if `bytes` begin with these two.
#[inline(always)]
fn after_introducer(bytes: &[u8], introducer: u8) -> Option<&[u8]>
    ensures { IfSome result (λ remaining. bytes.now ≡ 0x1B ∷ introducer ∷ remaining.now) }
{
    let (byte, remaining) = after_escape(bytes)?;
    if byte == introducer {
        Some(remaining)
    } else {
        None
    }
}
