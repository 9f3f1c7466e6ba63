//! Texts that lie in a cell itself.
ghost use Rattle.std.specs.Prelude.{◌≡◌, ◌≤◌, ◌<◌, [], ◌∷◌, take, length, false};
ghost use Rattle.std.specs.Str.{IsUtf8};

use std::str;

// A text of at most 15 bytes, and whether it takes two columns.
#[derive(Debug, Clone, Copy)]
pub(crate) struct InlineText {
    pub(crate) bytes: [u8; 15],
    pub(crate) len: u8,
    pub(crate) is_wide: bool,
    ghost fits: { len ≤ 15 },
    ghost text: { ∥ IsUtf8 (take len bytes) ∥₁ },
}

impl InlineText {
    pub(crate) fn new(text: &str, is_wide: bool) -> InlineText
        requires { length text.now ≤ 15 }
        ensures text { take result.len result.bytes ≡ text.now }
        ensures width { result.is_wide ≡ is_wide }
    {
        InlineText {
            bytes: padded(text.as_bytes()),
            len: text.len() as u8,
            is_wide,
        }
    }

    // The text of one ASCII character of one column.
    pub(crate) fn of_ascii(byte: u8) -> InlineText
        requires { byte < 128 }
        ensures text { take result.len result.bytes ≡ byte ∷ [] }
        ensures width { result.is_wide ≡ false }
    {
        InlineText {
            bytes: [byte, 0, 0, 0, 0, 0, 0, 0, 0, 0, 0, 0, 0, 0, 0],
            len: 1,
            is_wide: false,
        }
    }

    fn as_bytes(&self) -> &[u8]
        ensures { result.now ≡ take self.now.len self.now.bytes }
    {
        &self.bytes[..self.len as usize]
    }

    pub(crate) fn as_str(&self) -> &str
        ensures { result.now ≡ take self.now.len self.now.bytes }
    {
        unsafe { str::from_utf8_unchecked(self.as_bytes()) }
    }
}

// The bytes, and zeros after them.
fn padded(bytes: &[u8]) -> [u8; 15]
    requires { length bytes.now ≤ 15 }
    ensures { take (length bytes.now) result ≡ bytes.now }
{
    let mut all = [0; 15];
    all[..bytes.len()].copy_from_slice(bytes);
    all
}
