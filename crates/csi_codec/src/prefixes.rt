//! A control sequence at the start of some bytes (ECMA-48 5.4).
ghost use Rattle.std.specs.Prelude.{◌≡◌, ◌≤◌, ◌↔◌, IsTrue, ℕ, List, ◌∷◌, IfNone, IfOk, IfSome, OnErr};
ghost use Rattle.csi_codec.specs.Prefixes.{Prefix, HasPrefix, HasNoPrefix, prefix_of};

use crate::parameters::CsiParam;
use crate::tokens::Parameters;
use std::alloc::{AllocError, Global};

/// A control sequence at the start of some bytes, and the bytes after it.
#[derive(Debug, PartialEq, Eq, Drop)]
pub struct CsiFront<'a> {
    /// The tokens between `ESC [` and the final byte, the first 256 of them: a run of digits is one number, cut at
    /// `i64::MAX`, and every other byte is itself.
    pub params: Vec<CsiParam>,
    /// Whether there were more than 256 tokens.
    pub truncated: bool,
    /// The final byte, from `@` to `~`.
    pub control: char,
    /// The bytes after the final byte.
    pub rest: &'a [u8],
}

impl<'a> CsiFront<'a> {
    /// A copy, which borrows the same `rest`.
    pub fn try_clone(&self) -> Result<CsiFront<'a>, AllocError>
        ensures { IfOk result (λ copy. prefix_of copy ≡ prefix_of self.now) }
    {
        Ok(CsiFront {
            params: self.params.clone()?,
            truncated: self.truncated,
            control: self.control,
            rest: self.rest,
        })
    }
}

/// Reads the control sequence at the start of `bytes`: `ESC [`, bytes 20h to 3Fh, and a final byte 40h to 7Eh. Returns
/// `None`, without allocating, where `bytes` begin with something else or the sequence is not whole.
pub fn read_csi<'a>(alloc: Global, bytes: &'a [u8]) -> Result<Option<CsiFront<'a>>, AllocError>
    ensures some { IfOk result (λ found. IfSome found (λ prefix. HasPrefix bytes.now (prefix_of prefix))) }
    ensures none { IfOk result (λ found. IfNone found (HasNoPrefix bytes.now)) }
    ensures refused { OnErr result ((prefix : Prefix) × HasPrefix bytes.now prefix) }
{
    let Some(after) = after_introducer(bytes) else {
        return Ok(None);
    };
    let mut parameters = Parameters::new();
    let len = parameters.push_all(after);
    let Some((control, rest)) = after[len..].split_first() else {
        return Ok(None);
    };
    if !is_final(*control) {
        return Ok(None);
    }
    let params = Vec::from_slice(alloc, parameters.tokens())?;
    Ok(Some(CsiFront {
        params,
        truncated: parameters.is_truncated(),
        control: char::from(*control),
        rest,
    }))
}

/// Whether a byte ends a control sequence: 40h to 7Eh.
fn is_final(byte: u8) -> bool
    ensures { IsTrue result ↔ ((64 ≤ byte) × (byte ≤ 126)) }
{
    matches!(byte, 0x40..=0x7e)
}

/// The bytes after `ESC [`, if `bytes` begin with it.
fn after_introducer(bytes: &[u8]) -> Option<&[u8]>
    ensures some { IfSome result (λ after. bytes.now ≡ 27 ∷ 91 ∷ after.now) }
    ensures none { IfNone result ((after : List ℕ) → bytes.now ≡ 27 ∷ 91 ∷ after → ⊥) }
{
    match bytes {
        [0x1b, b'[', after @ ..] => Some(after),
        _ => None,
    }
}
