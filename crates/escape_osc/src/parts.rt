//! The parts of a command's body: joining them, copying them, and finding C1 controls in them.

ghost use Rattle.std.specs.Prelude.{◌≡◌, ◌++◌, IfOk, OnOk, length, map, take};
ghost use Rattle.escape_osc.specs.Parts.{any_holds_c1, joined};

use std::alloc::{AllocError, Global};
use std::convert::AsSlice;
use text_clusters::holds_c1;

// Whether some part holds a control from U+0080 to U+009F.
#[tactic(auto, using(crate::proofs::PartsLemmas::any_c1_next, crate::proofs::PartsLemmas::any_c1_end))]
pub(crate) fn any_holds_c1(parts: &[&[u8]]) -> bool
    ensures { result ≡ any_holds_c1 (map (λ p. p.now) parts.now) }
{
    for part in parts {
        if holds_c1(part) {
            return true;
        }
    }
    false
}

// Appends the parts, joined by `;`. Where memory is refused, what was appended before stays.
#[tactic(auto, using(crate::proofs::PartsLemmas::joined_steps, crate::proofs::AppendLemmas::kept))]
pub(crate) fn append_joined<P: AsSlice<u8>>(
    parts: &[P],
    dest: &mut Vec<u8>,
) -> Result<(), AllocError>
    ensures ok { OnOk result (dest.new.items ≡ dest.old.items ++ joined (map P.items parts.now)) }
    ensures err { take (length dest.old.items) dest.new.items ≡ dest.old.items }
{
    let Some((first, rest)) = parts.split_first() else {
        return Ok(());
    };
    dest.extend_from_slice(first.as_slice())?;
    for part in rest {
        dest.push(b';')?;
        dest.extend_from_slice(part.as_slice())?;
    }
    Ok(())
}

// A copy of each part.
#[tactic(auto, using(crate::proofs::PartsLemmas::copied_next, crate::proofs::PartsLemmas::copied_end))]
pub(crate) fn copied(alloc: Global, parts: &[&[u8]]) -> Result<Vec<Vec<u8>>, AllocError>
    ensures { IfOk result (λ v. map (λ p. p.items) v.items ≡ map (λ p. p.now) parts.now) }
{
    let mut copies = Vec::new(alloc);
    for part in parts {
        copies.push(Vec::from_slice(alloc, part)?)?;
    }
    Ok(copies)
}
