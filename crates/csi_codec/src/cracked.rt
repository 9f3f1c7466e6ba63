//! `Cracked`: a list of parameters as entries, each a number or absent.
ghost use Rattle.std.specs.Prelude.{◌≡◌, ◌↔◌, IfOk, IsErrOf, IsTrue, false, length, ok_or, option_copied, slice_get};
ghost use Rattle.std.specs.Option.{option_flatten};
ghost use Rattle.csi_codec.specs.Cracked.{all_crackable, cracked, entries_of, entry_number};

use crate::parameters::{CrackError, CsiParam};
use std::alloc::{AllocError, Global};

/// A list of parameters as entries, each a number or absent.
#[derive(Debug, PartialEq, Eq, Drop)]
pub struct Cracked {
    entries: Vec<Option<CsiParam>>,
}

impl Cracked {
    /// The entries of a list of numbers and `;`: a number is an entry, a `;` right after a number separates, any
    /// other `;` is an absent entry. A list with another byte is refused with `NotASpelling` before memory is
    /// allocated.
    pub fn parse(alloc: Global, params: &[CsiParam]) -> Result<Self, CrackError>
        ensures entries { IfOk result (λ c. entries_of c ≡ cracked params.now) }
        ensures refused { IsErrOf result CrackError.NotASpelling ↔ (all_crackable params.now ≡ false) }
    {
        if !all_crackable(params) {
            return Err(CrackError::NotASpelling);
        }
        match entries_of(alloc, params) {
            Ok(entries) => Ok(Cracked { entries }),
            Err(_) => Err(CrackError::Memory),
        }
    }

    /// The parameter of an entry; `None` for an absent entry, and past the end.
    pub fn get(&self, idx: usize) -> Option<&CsiParam>
        ensures { option_copied result ≡ option_flatten (slice_get (entries_of self.now) idx) }
    {
        self.entries.get(idx)?.as_ref()
    }

    /// The number of an entry, if there is one.
    pub fn opt_int(&self, idx: usize) -> Option<i64>
        ensures { result ≡ entry_number (slice_get (entries_of self.now) idx) }
    {
        match self.get(idx) {
            Some(CsiParam::Integer(value)) => Some(*value),
            _ => None,
        }
    }

    /// The number of an entry; `NotASpelling` where it is absent, and past the end.
    pub fn int(&self, idx: usize) -> Result<i64, CrackError>
        ensures { result ≡ ok_or (entry_number (slice_get (entries_of self.now) idx)) CrackError.NotASpelling }
    {
        self.opt_int(idx).ok_or(CrackError::NotASpelling)
    }

    /// A copy.
    pub fn try_clone(&self) -> Result<Self, AllocError>
        ensures { IfOk result (λ copy. entries_of copy ≡ entries_of self.now) }
    {
        Ok(Cracked {
            entries: self.entries.clone()?,
        })
    }

    /// How many entries there are, the absent ones too.
    pub fn len(&self) -> usize
        ensures { result ≡ length (entries_of self.now) }
    {
        self.entries.len()
    }

    /// Whether there is no entry.
    pub fn is_empty(&self) -> bool
        ensures { IsTrue result ↔ (length (entries_of self.now) ≡ 0) }
    {
        self.entries.is_empty()
    }
}

/// Whether a list has only numbers and `;`.
fn all_crackable(params: &[CsiParam]) -> bool
    ensures { result ≡ all_crackable params.now }
{
    params.iter().all(|param| matches!(param, CsiParam::Integer(_) | CsiParam::P(b';')))
}

fn entries_of(alloc: Global, params: &[CsiParam]) -> Result<Vec<Option<CsiParam>>, AllocError>
    ensures { IfOk result (λ v. v.items ≡ cracked params.now) }
{
    let mut entries = Vec::new(alloc);
    let mut after_number = false;
    for param in params {
        match *param {
            CsiParam::Integer(value) => {
                entries.push(Some(CsiParam::Integer(value)))?;
                after_number = true;
            }
            CsiParam::P(_) => {
                if !after_number {
                    entries.push(None)?;
                }
                after_number = false;
            }
        }
    }
    Ok(entries)
}
