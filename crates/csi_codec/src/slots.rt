//! The numbers and positions that a list of few tokens can have.
ghost use Rattle.std.specs.Prelude.{◌≡◌, ◌≤◌, option_map};
ghost use Rattle.csi_codec.specs.Parameters.{one_slot, two_slots, slot_and_space, slot_number, count, coordinate_pair};

use crate::one_based::OneBased;
use crate::parameters::CsiParam::{Integer, P};
use crate::parameters::position;
use crate::sources::TokenSource;

/// The number of a list that is empty or one number, where an absent one is 0.
#[inline(always)]
pub(crate) fn one_number<S: TokenSource>(source: S) -> Option<i64>
    ensures { result ≡ option_map slot_number (one_slot (S.tokens source)) }
{
    match source.split() {
        None => Some(0),
        Some((Integer(value), rest)) if rest.split().is_none() => Some(value),
        _ => None,
    }
}

/// The number of a list that is at most one number, and a space after it, where an absent one is 0.
pub(crate) fn number_and_space<S: TokenSource>(source: S) -> Option<i64>
    ensures { result ≡ option_map slot_number (slot_and_space (S.tokens source)) }
{
    match source.split()? {
        (P(b' '), rest) if rest.split().is_none() => Some(0),
        (Integer(value), rest) => match rest.split()? {
            (P(b' '), rest) if rest.split().is_none() => Some(value),
            _ => None,
        },
        _ => None,
    }
}

/// The position of a list that is empty or one number, where an absent one and 0 are 1.
pub(crate) fn one_coordinate<S: TokenSource>(source: S) -> Option<OneBased>
    ensures { result ≡ count (S.tokens source) }
{
    position(1, one_number(source)?)
}

/// The count of a list that is empty or one number, where an absent one and 0 are 1.
pub(crate) fn count<S: TokenSource>(source: S) -> Option<u32>
    ensures { result ≡ count (S.tokens source) }
{
    Some(one_coordinate(source)?.as_one_based())
}

/// The two numbers of a list with at most one on each side of a `;`, where an absent one is 0.
#[inline(always)]
fn two_numbers<S: TokenSource>(source: S) -> Option<(i64, i64)>
    ensures { result ≡ option_map (λ slots. (slot_number slots.0, slot_number slots.1)) (two_slots (S.tokens source)) }
{
    match source.split() {
        None => Some((0, 0)),
        Some((P(b';'), rest)) => Some((0, one_number(rest)?)),
        Some((Integer(first), rest)) => match rest.split() {
            None => Some((first, 0)),
            Some((P(b';'), rest)) => Some((first, one_number(rest)?)),
            _ => None,
        },
        _ => None,
    }
}

/// The two positions of a list with at most one number on each side of a `;`. An absent one and 0 are 1 for the first
/// position and `default` for the second.
#[inline(always)]
pub(crate) fn coordinate_pair<S: TokenSource>(
    default: u32,
    source: S,
) -> Option<(OneBased, OneBased)>
    requires { 1 ≤ default }
    ensures { result ≡ coordinate_pair default (S.tokens source) }
{
    let (a, b) = two_numbers(source)?;
    Some((position(1, a)?, position(default, b)?))
}
