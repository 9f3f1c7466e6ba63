//! The tokens of a control sequence, as its bytes come.
ghost use Rattle.std.specs.Prelude.{◌≡◌, ◌≤◌, IsSome, fold, take};
ghost use Rattle.std.specs.List.{prefix_len};
ghost use Rattle.std.specs.Char.{IsAsciiDigit};
ghost use Rattle.csi_codec.specs.Tokens.{is_parameter as in_parameters, no_parameters, with_token, with_number};
ghost use Rattle.csi_codec.specs.Tokens.{parameters_of, with_byte};
ghost use Rattle.csi_codec.specs.Tokens.{next_number as number_after};

use crate::parameters::CsiParam;
use std::marker::Model;

/// How many tokens of a control sequence are kept.
const MOST_TOKENS: usize = 256;

/// The largest number of a token.
const LARGEST_NUMBER: u64 = i64::MAX as u64;

/// A parameter byte or an intermediate byte (ECMA-48 5.4): 20h to 3Fh.
#[inline(always)]
#[tactic(auto, unfolding(crate::specs::Tokens::is_parameter))]
pub fn is_parameter(byte: u8) -> bool
    ensures { result ≡ in_parameters byte }
{
    matches!(byte, 0x20..=0x3f)
}

/// The number after one more digit, where `number` is that of the digits before, if any. It is cut at the largest.
#[inline(always)]
pub(crate) fn next_number(number: Option<u64>, byte: u8) -> u64
    requires { IsAsciiDigit byte }
    ensures { result ≡ number_after number byte }
{
    let begun = number.unwrap_or(0);
    let digit = u64::from(byte - b'0');
    if begun < LARGEST_NUMBER / 10 {
        begun * 10 + digit
    } else {
        begun
            .saturating_mul(10)
            .saturating_add(digit)
            .min(LARGEST_NUMBER)
    }
}

/// The first 256 tokens of a control sequence, as its bytes come.
#[derive(Drop)]
pub struct Parameters {
    tokens: [CsiParam; 256],
    count: usize,
    truncated: bool,
    number: Option<u64>,
}

// Clauses see the tokens that are kept, whether there were more, and the number whose digits have begun.
impl Model for Parameters {
    ghost use Rattle.std.specs.Prelude.{◌≡◌, ◌<◌, ◌≤◌, IsSome, false, take};
    ghost use Rattle.csi_codec.specs.Tokens.{Parameters as Shown};

    ghost Value = { Shown };

    ghost view = { λ p. record { tokens = take p.count p.tokens; truncated = p.truncated; number = p.number } };

    ghost invariant = { λ p. (p.count ≤ 256) × (IsSome p.number → p.truncated ≡ false → 0 < p.count) };
}

impl Parameters {
    /// No tokens.
    pub fn new() -> Parameters
        ensures { result ≡ no_parameters }
    {
        Parameters {
            tokens: [CsiParam::P(0); 256],
            count: 0,
            truncated: false,
            number: None,
        }
    }

    /// Forgets all tokens.
    pub fn clear(&mut self)
        ensures { self.new ≡ no_parameters }
    {
        self.count = 0;
        self.truncated = false;
        self.number = None;
    }

    /// The tokens that are kept, at most 256.
    pub fn tokens(&self) -> &[CsiParam]
        ensures { result.now ≡ self.now.tokens }
    {
        &self.tokens[..self.count]
    }

    /// Whether there were more tokens.
    pub fn is_truncated(&self) -> bool
        ensures { result ≡ self.now.truncated }
    {
        self.truncated
    }

    /// Appends a token if there is room, and otherwise sets `truncated`.
    #[inline(always)]
    fn add(&mut self, token: CsiParam, number: Option<u64>)
        ensures { self.new ≡ with_token self.old token number }
    {
        if self.count < MOST_TOKENS {
            self.tokens[self.count] = token;
            self.count += 1;
        } else {
            self.truncated = true;
        }
        self.number = number;
    }

    /// Replaces the last token by another number, if that token was kept.
    #[inline(always)]
    fn renumber(&mut self, number: u64)
        requires begun { IsSome self.old.number }
        requires fits { number ≤ LARGEST_NUMBER }
        ensures { self.new ≡ with_number self.old number }
    {
        if !self.truncated {
            self.tokens[self.count - 1] = CsiParam::Integer(number as i64);
        }
        self.number = Some(number);
    }

    /// Reads one parameter byte.
    #[inline(always)]
    #[tactic(auto, unfolding(crate::specs::Tokens::with_byte))]
    pub fn push(&mut self, byte: u8)
        ensures { self.new ≡ with_byte self.old byte }
    {
        if byte.is_ascii_digit() {
            let number = next_number(self.number, byte);
            if self.number.is_some() {
                self.renumber(number);
            } else {
                self.add(CsiParam::Integer(number as i64), Some(number));
            }
        } else {
            self.add(CsiParam::P(byte), None);
        }
    }

    /// Forgets all tokens, and reads parameter bytes.
    pub fn set(&mut self, bytes: &[u8])
        ensures { self.new ≡ parameters_of bytes.now }
    {
        self.clear();
        for byte in bytes {
            self.push(*byte);
        }
    }

    /// Forgets all tokens, reads the parameter bytes at the start of `bytes`, and returns how many there are.
    #[inline(always)]
    pub fn read(&mut self, bytes: &[u8]) -> usize
        ensures count { result ≡ prefix_len in_parameters bytes.now }
        ensures tokens { self.new ≡ fold with_byte no_parameters (take result bytes.now) }
    {
        self.clear();
        self.push_all(bytes)
    }

    /// Reads the parameter bytes at the start of `bytes`, and returns how many there are.
    #[inline(always)]
    pub fn push_all(&mut self, bytes: &[u8]) -> usize
        ensures count { result ≡ prefix_len in_parameters bytes.now }
        ensures tokens { self.new ≡ fold with_byte self.old (take result bytes.now) }
    {
        let mut count = 0;
        for byte in bytes {
            if !is_parameter(*byte) {
                return count;
            }
            self.push(*byte);
            count += 1;
        }
        count
    }
}
