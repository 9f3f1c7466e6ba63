//! The bytes of a sequence, as they are written.
ghost use Rattle.std.specs.Prelude.{◌≡◌, ◌+◌, ◌<◌, ◌≤◌, ◌∷◌, ◌++◌, [], ℕ, List, drop, encode_utf8, length, IsTrue};
ghost use Rattle.std.specs.Fmt.{decimal};
ghost use Rattle.csi_codec.specs.Writing.{are_digits};

use std::marker::Model;
use std::str;

/// The most bytes that a text has room for: more than `ESC [`, two positions and a final byte take.
const ROOM: usize = 32;

/// The numbers 0 to 255, each in three bytes, the digits first.
static NUMBERS: [u8; 768] = *b"\
        0  1  2  3  4  5  6  7  8  9  10 11 12 13 14 15 16 17 18 19 20 21 22 23 24 25 26 27 28 29 30 31 \
        32 33 34 35 36 37 38 39 40 41 42 43 44 45 46 47 48 49 50 51 52 53 54 55 56 57 58 59 60 61 62 63 \
        64 65 66 67 68 69 70 71 72 73 74 75 76 77 78 79 80 81 82 83 84 85 86 87 88 89 90 91 92 93 94 95 \
        96 97 98 99 100101102103104105106107108109110111112113114115116117118119120121122123124125126127\
        128129130131132133134135136137138139140141142143144145146147148149150151152153154155156157158159\
        160161162163164165166167168169170171172173174175176177178179180181182183184185186187188189190191\
        192193194195196197198199200201202203204205206207208209210211212213214215216217218219220221222223\
        224225226227228229230231232233234235236237238239240241242243244245246247248249250251252253254255";

/// A text of at most 32 bytes, which lie in the value itself.
#[derive(Drop)]
pub(crate) struct SequenceText {
    bytes: [u8; ROOM],
    len: usize,
}

impl Model for SequenceText {
    ghost use Rattle.std.specs.Prelude.{List, ℕ, take, ◌≤◌};
    ghost use Rattle.std.specs.Str.{IsUtf8};

    ghost Value = { List ℕ };

    ghost view = { λ text. take text.len text.bytes };

    ghost invariant = { λ text. (text.len ≤ 32) × ∥ IsUtf8 (take text.len text.bytes) ∥₁ };
}

impl SequenceText {
    /// No bytes.
    #[inline(always)]
    pub(crate) fn new() -> Self
        ensures { result ≡ [] }
    {
        SequenceText {
            bytes: [0; ROOM],
            len: 0,
        }
    }

    /// `ESC [`.
    #[inline(always)]
    pub(crate) fn opened() -> Self
        ensures { result ≡ 27 ∷ 91 ∷ [] }
    {
        let mut text = SequenceText::new();
        text.push_sign(0x1b);
        text.push_sign(b'[');
        text
    }

    /// Appends the character of a byte that isn't ASCII.
    fn push_pair(&mut self, byte: u8)
        requires room { length self.old + 2 ≤ 32 }
        requires wide { 128 ≤ byte }
        ensures { self.new ≡ self.old ++ encode_utf8 byte }
    {
        self.bytes[self.len] = 0xc0 + byte / 64;
        self.bytes[self.len + 1] = 0x80 + byte % 64;
        self.len += 2;
    }

    /// Appends a character of ASCII.
    #[inline(always)]
    pub(crate) fn push_sign(&mut self, byte: u8)
        requires room { length self.old < 32 }
        requires ascii { byte < 128 }
        ensures byte { self.new ≡ self.old ++ byte ∷ [] }
        ensures text { self.new ≡ self.old ++ encode_utf8 byte }
        ensures short { length self.new ≤ length self.old + 1 }
    {
        self.bytes[self.len] = byte;
        self.len += 1;
    }

    /// Appends the character of a byte.
    #[inline(always)]
    pub(crate) fn push_character(&mut self, byte: u8)
        requires { length self.old + 2 ≤ 32 }
        ensures text { self.new ≡ self.old ++ encode_utf8 byte }
        ensures short { length self.new ≤ length self.old + 2 }
    {
        if byte < 128 {
            self.push_sign(byte);
        } else {
            self.push_pair(byte);
        }
    }

    /// Appends a number of one byte.
    #[inline(always)]
    pub(crate) fn push_small_number(&mut self, number: u8)
        requires { length self.old + 3 ≤ 32 }
        ensures text { self.new ≡ self.old ++ decimal number }
        ensures short { length self.new ≤ length self.old + 3 }
    {
        let (first, second, third) = digits(number);
        let at = self.len;
        self.bytes[at] = first;
        self.bytes[at + 1] = second;
        self.bytes[at + 2] = third;
        self.len = at + digit_count(number);
    }

    /// Appends a number.
    #[inline(always)]
    pub(crate) fn push_number(&mut self, number: u32)
        requires { length self.old + 12 ≤ 32 }
        ensures text { self.new ≡ self.old ++ decimal number }
        ensures short { length self.new ≤ length self.old + 10 }
    {
        if number < 256 {
            self.push_small_number(number as u8);
        } else {
            self.push_large_number(number as u64);
        }
    }

    /// Appends a number of up to twenty digits.
    pub(crate) fn push_large_number(&mut self, number: u64)
        requires { length self.old + length (decimal number) + 2 ≤ 32 }
        ensures { self.new ≡ self.old ++ decimal number }
    {
        if number < 256 {
            self.push_small_number(number as u8);
        } else {
            self.push_large_number(number / 10);
            self.push_sign(b'0' + (number % 10) as u8);
        }
    }

    /// The text.
    #[inline(always)]
    pub(crate) fn as_str(&self) -> &str
        ensures { result.now ≡ self.now }
    {
        // SAFETY: a text is UTF-8.
        unsafe { str::from_utf8_unchecked(&self.bytes[..self.len]) }
    }

    /// The text after `ESC [`.
    #[inline(always)]
    pub(crate) fn parameters(&self) -> &str
        requires { (parameters : List ℕ) × (self.now ≡ 27 ∷ 91 ∷ parameters) }
        ensures { result.now ≡ drop 2 self.now }
    {
        // SAFETY: the text after two ASCII characters is UTF-8.
        unsafe { str::from_utf8_unchecked(&self.bytes[2..self.len]) }
    }

    /// The bytes of the text.
    #[inline(always)]
    pub(crate) fn as_bytes(&self) -> &[u8]
        ensures { result.now ≡ self.now }
    {
        &self.bytes[..self.len]
    }
}

/// The digits of a number, and spaces after them.
#[inline(always)]
fn digits(number: u8) -> (u8, u8, u8)
    ensures { IsTrue (are_digits number result.0 result.1 result.2) }
{
    let from = 3 * number as usize;
    (NUMBERS[from], NUMBERS[from + 1], NUMBERS[from + 2])
}

/// How many digits a number has.
#[inline(always)]
fn digit_count(number: u8) -> usize
    ensures same { result ≡ length (decimal number) }
    ensures short { result ≤ 3 }
{
    if number < 10 {
        1
    } else if number < 100 {
        2
    } else {
        3
    }
}
