//! Tokens of a CSI list, and how they are written.
ghost use Rattle.std.specs.Prelude.{◌≡◌, ◌≤◌, ◌++◌, Some, IfOk, OnErr, OnOk, drop, length, take};
ghost use Rattle.std.specs.Fmt.{signed_decimal};
ghost use Rattle.csi_codec.specs.Parameters.{number_within, position, semicolon_at};
ghost use Rattle.csi_codec.specs.Parameters.{token_text, sequence_text, spelled, spelled_text};
ghost use Rattle.csi_codec.specs.Sequences.{IsSameRest};

use crate::one_based::OneBased;
use crate::text::SequenceText;
use std::alloc::AllocError;
use std::fmt;
use thiserror::Error;

/// One token of the list between `ESC [` and the final byte: a run of digits, or any other byte.
#[derive(Clone, Copy, Debug, PartialEq, Eq)]
pub enum CsiParam {
    Integer(i64),
    P(u8),
}

impl fmt::Display for CsiParam {
    ghost output = { λ token. Some (token_text token) };

    fn fmt<W: fmt::Write>(&self, f: &mut fmt::Formatter<W>) -> fmt::Result {
        f.write_str(self.text().as_str())
    }
}

impl CsiParam {
    /// The text of this token.
    fn text(self) -> SequenceText
        ensures { result ≡ token_text self }
    {
        match self {
            CsiParam::Integer(number) => signed_text(number),
            CsiParam::P(byte) => {
                let mut text = SequenceText::new();
                text.push_character(byte);
                text
            }
        }
    }
}

/// A number in decimal.
fn signed_text(number: i64) -> SequenceText
    ensures { result ≡ signed_decimal number }
{
    let size = number.unsigned_abs();
    let mut text = SequenceText::new();
    if number < 0 {
        text.push_sign(b'-');
    }
    text.push_large_number(size);
    text
}

/// The rest of a list that encodes no known action, with the flag and the final byte of the list.
#[derive(Debug, PartialEq, Eq, Drop)]
pub struct Unspecified {
    pub params: Vec<CsiParam>,
    pub parameters_truncated: bool,
    pub control: char,
}

impl fmt::Display for Unspecified {
    ghost output = { λ rest. Some (spelled_text (spelled rest.params.items rest.control)) };

    fn fmt<W: fmt::Write>(&self, f: &mut fmt::Formatter<W>) -> fmt::Result {
        for token in self.params.iter() {
            token.fmt(f)?;
        }
        f.write_char(self.control)
    }
}

impl Unspecified {
    /// Appends the bytes of `ESC [`, the parameters and the final byte. Refused memory leaves `bytes` as it was.
    pub(crate) fn append_bytes_to(&self, bytes: &mut Vec<u8>) -> Result<(), AllocError>
        ensures ok { OnOk result (bytes.new.items
            ≡ bytes.old.items ++ sequence_text (spelled self.now.params.items self.now.control)) }
        ensures err { OnErr result (bytes.new.items ≡ bytes.old.items) }
    {
        let len = bytes.len();
        let result = self.append_parts_to(bytes);
        if result.is_err() {
            bytes.truncate(len);
        }
        result
    }

    /// Appends the same bytes part by part. Where memory is refused, the parts appended before stay.
    fn append_parts_to(&self, bytes: &mut Vec<u8>) -> Result<(), AllocError>
        ensures ok { OnOk result (bytes.new.items
            ≡ bytes.old.items ++ sequence_text (spelled self.now.params.items self.now.control)) }
        ensures err { take (length bytes.old.items) bytes.new.items ≡ bytes.old.items }
    {
        bytes.extend_from_slice(b"\x1b[")?;
        for token in self.params.iter() {
            bytes.extend_from_slice(token.text().as_bytes())?;
        }
        let mut buffer = [0; 4];
        bytes.extend_from_slice(self.control.encode_utf8(&mut buffer).as_bytes())
    }

    /// A copy.
    pub fn try_clone(&self) -> Result<Self, AllocError>
        ensures { IfOk result (λ copy. IsSameRest copy self.now) }
    {
        Ok(Unspecified {
            params: self.params.clone()?,
            parameters_truncated: self.parameters_truncated,
            control: self.control,
        })
    }
}

/// Why a list of parameters is refused.
#[derive(Clone, Copy, Debug, PartialEq, Eq, Error)]
pub enum CrackError {
    /// The parameters do not encode a value of the requested kind.
    #[error("not a spelling")]
    NotASpelling,
    /// Memory was refused.
    #[error("out of memory")]
    Memory,
}

/// The number if it is from 0 to `top`.
#[inline(always)]
pub(crate) fn number_within(top: u32, value: i64) -> Option<u32>
    ensures { result ≡ number_within top value }
{
    if 0 <= value && value <= i64::from(top) {
        Some(value as u32)
    } else {
        None
    }
}

/// The position `value`, or `default` for 0; `None` where `value` is not 0 to `u32::MAX`.
#[inline(always)]
pub(crate) fn position(default: u32, value: i64) -> Option<OneBased>
    requires { 1 ≤ default }
    ensures { result ≡ position default (Some value) }
{
    match number_within(u32::MAX, value)? {
        0 => Some(OneBased::new(default)),
        number => Some(OneBased::new(number)),
    }
}

/// 1 where the token at `position` is `;`, else 0.
#[inline(always)]
pub(crate) fn semicolon_at(params: &[CsiParam], position: usize) -> usize
    ensures same { result ≡ semicolon_at params.now position }
    ensures small { result ≤ 1 }
{
    match params.get(position) {
        Some(CsiParam::P(b';')) => 1,
        _ => 0,
    }
}

/// The tokens after the first `len` ones.
#[inline(always)]
pub(crate) fn after(params: &[CsiParam], len: usize) -> &[CsiParam]
    requires { len ≤ length params.now }
    ensures { result.now ≡ drop len params.now }
{
    &params[len..]
}
