//! The names of files with a screen each.
ghost use Rattle.std.specs.Prelude.{◌≡◌, IfOk, option_map};
ghost use Rattle.std.specs.String.{string_bytes};
ghost use Rattle.shot.specs.Names.{digits_in, file_name, numbered_in, numbered_of, placed_in};

use std::alloc::{AllocError, Global};

/// A name with a place for a number.
#[derive(Clone, Copy, Debug, PartialEq, Eq)]
pub struct Numbered<'a> {
    /// What comes before the place.
    pub front: &'a str,
    /// The least number of digits, from 1 to 9.
    pub digits: usize,
    /// What comes after the place.
    pub back: &'a str,
}

// The least number of digits that a text like 04 asks for.
fn digits_in(text: &str) -> Option<usize>
    ensures { result ≡ digits_in text.now }
{
    match text.as_bytes() {
        [b'0', digit @ b'1'..=b'9'] => Some((*digit - b'0') as usize),
        _ => None,
    }
}

#[tactic(auto, unfolding(crate::specs::Names::placed_in))]
fn placed_in<'a>(front: &'a str, rest: &'a str) -> Option<Numbered<'a>>
    ensures { option_map numbered_of result ≡ placed_in front.entry.now rest.entry.now }
{
    let (digits, back) = rest.split_once('d')?;
    let digits = digits_in(digits)?;
    Some(Numbered {
        front,
        digits,
        back,
    })
}

/// A name whose first `%` begins a place for a number, as %04d.
#[tactic(auto, unfolding(crate::specs::Names::numbered_in))]
pub fn numbered_in(name: &str) -> Option<Numbered<'_>>
    ensures { option_map numbered_of result ≡ numbered_in name.entry.now }
{
    let (front, rest) = name.split_once('%')?;
    placed_in(front, rest)
}

/// The name with a number in its place.
#[tactic(auto, unfolding(crate::specs::Names::file_name))]
pub fn file_name(alloc: Global, name: Numbered<'_>, number: u64) -> Result<String, AllocError>
    ensures { IfOk result (λ text. string_bytes text ≡ file_name (numbered_of name.entry) number) }
{
    let decimal = format!(in alloc; "{number}")?;
    let zeros = "0".repeat(alloc, name.digits.saturating_sub(decimal.len()))?;
    let (front, back) = (name.front, name.back);
    let text = format!(in alloc; "{front}{zeros}{decimal}{back}")?;
    Ok(text)
}
