//! Lines and columns as sequences count them.
ghost use Rattle.std.specs.Prelude.{◌≡◌, ◌+◌, ◌<◌, ◌≤◌, ℕ, Some, decimal, option_copied};

use crate::parameters::{CrackError, CsiParam, position};
use std::fmt;
use std::marker::Model;

/// A line or column as sequences count it: 1 to `u32::MAX`.
#[derive(Clone, Copy, Debug, PartialEq, Eq)]
pub struct OneBased {
    value: u32,
}

impl Model for OneBased {
    ghost Value = { ℕ };

    ghost view = { λ o. o.value };

    ghost invariant = { λ o. 1 ≤ o.value };

    ghost inverse = { λ n. record { value = n } };
}

impl fmt::Display for OneBased {
    ghost output = { λ position. Some (decimal position) };

    fn fmt<W: fmt::Write>(&self, f: &mut fmt::Formatter<W>) -> fmt::Result {
        let value = self.as_one_based();
        write!(f, "{value}")
    }
}

impl OneBased {
    ghost use Rattle.csi_codec.specs.Parameters.{one_based, optional_one_based, word_max};

    /// The position `value`, counted from 1.
    pub fn new(value: u32) -> Self
        requires { 1 ≤ value }
        ensures { result ≡ value }
    {
        OneBased { value }
    }

    /// The position `value`, counted from 0.
    pub fn from_zero_based(value: u32) -> Self
        requires { value < u32.MAX }
        ensures { result ≡ value + 1 }
    {
        OneBased { value: value + 1 }
    }

    /// The position that a parameter names, where 0 is the first. A byte, a negative number and one above
    /// `u32::MAX` are refused with `NotASpelling`.
    pub fn from_esc_param(param: &CsiParam) -> Result<Self, CrackError>
        ensures { result ≡ one_based 1 param.now }
    {
        Self::from_param(1, *param)
    }

    /// The position that a parameter names; 0 is `u32::MAX`, the last there is. Refuses as `from_esc_param` does.
    pub fn from_esc_param_with_big_default(param: &CsiParam) -> Result<Self, CrackError>
        ensures { result ≡ one_based word_max param.now }
    {
        Self::from_param(u32::MAX, *param)
    }

    /// The position that a parameter names; 0 and an absent one are the first. Refuses as `from_esc_param` does.
    pub fn from_optional_esc_param(param: Option<&CsiParam>) -> Result<Self, CrackError>
        ensures { result ≡ optional_one_based (option_copied param.entry) }
    {
        match param {
            None => Ok(OneBased::new(1)),
            Some(param) => Self::from_esc_param(param),
        }
    }

    fn from_param(default: u32, param: CsiParam) -> Result<Self, CrackError>
        requires { 1 ≤ default }
        ensures { result ≡ one_based default param }
    {
        match param {
            CsiParam::Integer(value) => position(default, value).ok_or(CrackError::NotASpelling),
            CsiParam::P(_) => Err(CrackError::NotASpelling),
        }
    }

    /// The count from 0.
    pub fn as_zero_based(self) -> u32
        ensures { result + 1 ≡ self }
    {
        self.as_one_based() - 1
    }

    /// The count from 1.
    pub fn as_one_based(self) -> u32
        ensures same { result ≡ self }
        ensures counted { 1 ≤ result }
    {
        self.value
    }
}
