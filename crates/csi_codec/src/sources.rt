//! `TokenSource`: the tokens of a list, read where they stand: a list that is kept, or the bytes of a sequence.
ghost use Rattle.std.specs.Prelude.{◌≡◌, ◌≤◌, ◌∷◌, [], List, IfNone, IfSome, Some, None, false};
ghost use Rattle.std.specs.Char.{is_ascii_digit};
ghost use Rattle.csi_codec.specs.Sources.{after, first_number, number_after};
ghost use Rattle.csi_codec.specs.Sources.{is_list_byte as in_lists};
ghost use Rattle.csi_codec.specs.Texts.{largest_number, tokens_after, tokens_of};
ghost use Rattle.csi_codec.specs.declared.parameters.CsiParam.{CsiParam};
ghost use Rattle.csi_codec.specs.declared.parameters.CsiParam.TheVariants.{Integer, P};

use crate::parameters::CsiParam;
use crate::tokens::next_number;

/// A digit, `:` or `;`: the parameter bytes of which lists of numbers are made (ECMA-48 5.4.2).
#[inline(always)]
#[tactic(auto, unfolding(crate::specs::Sources::is_list_byte))]
pub fn is_list_byte(byte: u8) -> bool
    ensures { result ≡ in_lists byte }
{
    matches!(byte, 0x30..=0x3b)
}

/// The tokens of a list from some position on, wherever they stand.
pub trait TokenSource: Copy {
    // the tokens that this value stands for
    ghost tokens: { Self → List CsiParam };

    /// The first token, and the tokens after it.
    fn split(self) -> Option<(CsiParam, Self)>
        ensures some { IfSome result (λ found. tokens self ≡ found.0 ∷ tokens found.1) }
        ensures none { IfNone result (tokens self ≡ []) };

    /// The tokens after a sign, which is no digit, where it comes first.
    fn past(self, sign: u8) -> Option<Self>
        requires { is_ascii_digit sign ≡ false }
        ensures some { IfSome result (λ rest. tokens self ≡ P sign ∷ tokens rest) }
        ensures none { IfNone result (after sign (tokens self) ≡ None) };

    /// The number that comes first, and the tokens after it.
    fn number(self) -> Option<(i64, Self)>
        ensures some { IfSome result (λ found. tokens self ≡ Integer found.0 ∷ tokens found.1) }
        ensures none { IfNone result (first_number (tokens self) ≡ None) };

    /// The number after a separator, which is no digit, where the two come first, and the tokens after it.
    fn number_after(self, separator: u8) -> Option<(i64, Self)>
        requires { is_ascii_digit separator ≡ false }
        ensures some { IfSome result (λ found. tokens self ≡ P separator ∷ Integer found.0 ∷ tokens found.1) }
        ensures none { IfNone result (number_after separator (tokens self) ≡ None) };
}

impl<'a> TokenSource for &'a [CsiParam] {
    ghost tokens = { λ s. s.now };

    #[inline(always)]
    fn split(self) -> Option<(CsiParam, Self)> {
        let (first, rest) = self.split_first()?;
        Some((*first, rest))
    }

    #[inline(always)]
    fn past(self, sign: u8) -> Option<Self> {
        match self {
            [CsiParam::P(first), rest @ ..] if *first == sign => Some(rest),
            _ => None,
        }
    }

    #[inline(always)]
    fn number(self) -> Option<(i64, Self)> {
        match self {
            [CsiParam::Integer(number), rest @ ..] => Some((*number, rest)),
            _ => None,
        }
    }

    #[inline(always)]
    fn number_after(self, separator: u8) -> Option<(i64, Self)> {
        match self {
            [CsiParam::P(first), CsiParam::Integer(number), rest @ ..] if *first == separator => {
                Some((*number, rest))
            }
            _ => None,
        }
    }
}

/// Parameter bytes as they stand in a sequence: each run of digits is a number, every other byte itself.
#[derive(Clone, Copy)]
pub struct RawParameters<'a> {
    pub bytes: &'a [u8],
}

impl<'a> TokenSource for RawParameters<'a> {
    ghost tokens = { λ s. tokens_of s.bytes.now };

    #[inline(always)]
    fn split(self) -> Option<(CsiParam, Self)> {
        let (first, rest) = self.bytes.split_first()?;
        if !first.is_ascii_digit() {
            return Some((CsiParam::P(*first), RawParameters { bytes: rest }));
        }
        let (number, rest) = number(u64::from(*first - b'0'), rest);
        Some((CsiParam::Integer(number), RawParameters { bytes: rest }))
    }

    #[inline(always)]
    #[tactic(auto, using(crate::proofs::SignLemmas::other_first))]
    fn past(self, sign: u8) -> Option<Self> {
        let (first, rest) = self.bytes.split_first()?;
        if *first != sign {
            return None;
        }
        Some(RawParameters { bytes: rest })
    }

    #[inline(always)]
    fn number(self) -> Option<(i64, Self)> {
        let (first, rest) = self.bytes.split_first()?;
        if !first.is_ascii_digit() {
            return None;
        }
        let (number, rest) = number(u64::from(*first - b'0'), rest);
        Some((number, RawParameters { bytes: rest }))
    }

    #[inline(always)]
    fn number_after(self, separator: u8) -> Option<(i64, Self)> {
        self.past(separator)?.number()
    }
}

/// The number that begins with the digits of `begun` and goes on with those at the start of `bytes`, and the bytes
/// after it.
#[inline(always)]
#[tactic(auto, using(crate::proofs::DigitLemmas::digit_more))]
fn number(begun: u64, bytes: &[u8]) -> (i64, &[u8])
    requires { begun ≤ largest_number }
    ensures { tokens_after (Some begun) bytes.now ≡ Integer result.0 ∷ tokens_of result.1.now }
{
    let mut number = begun;
    let mut left = bytes;
    while let Some((byte, rest)) = left.split_first()
        && byte.is_ascii_digit()
    {
        number = next_number(Some(number), *byte);
        left = rest;
    }
    (number as i64, left)
}
