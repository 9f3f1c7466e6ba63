//! How many columns texts take.
ghost use Rattle.std.specs.Prelude.{◌≡◌, ℕ, ◌<◌, ◌≤◌, false, true, List, [], ◌∷◌, min, encode_utf8, IfSome, IsTrue};
ghost use Rattle.std.specs.Str.{chars};
ghost use Rattle.unicode_width.specs.Width.{str_width};
ghost use Rattle.std.proofs.Common.{arith};
ghost use Rattle.cell_base.specs.Cluster.{program_width, program_width_le, program_width-space};
ghost use Rattle.cell_base.specs.KnownWidths.{is_eastern_letter, is_western_letter};
ghost use Rattle.std.specs.Int.{is_in_range};
ghost use Rattle.text_clusters.specs.Independent.{is_independent};
ghost use Rattle.text_clusters.specs.Plain.{is_printable};

use unicode_width::{UnicodeWidthChar, UnicodeWidthStr};

/// How many columns of a terminal a text takes. Two values are equivalent where they give every
/// text the same width.
pub trait Widths {
    /// The columns of a text.
    ghost width_of: { Self → List ℕ → ℕ };

    /// The columns of a cluster: 0, 1 or 2.
    fn width(&self, cluster: &str) -> u8
        ensures { result ≡ width_of self.now cluster.now };

    /// The columns of a cluster of one character.
    fn character_width(&self, character: char) -> u8
        ensures { result ≡ width_of self.now (encode_utf8 character) }
    {
        let mut buffer = [0u8; 4];
        self.width(character.encode_utf8(&mut buffer))
    }

    /// The columns of a character by itself, if they are known without a table and the character is independent: a
    /// boundary of clusters lies between any two independent characters. An implementation may answer `None` for any
    /// character.
    fn letter_columns(&self, character: char) -> Option<u8>
        ensures value { IfSome result (λ columns. columns ≡ width_of self.now (encode_utf8 character)) }
        ensures some { IfSome result (λ columns. 1 ≤ columns) }
        ensures independent { IfSome result (λ columns. is_independent character ≡ true) }
    {
        let _character = character;
        None
    }

    /// Whether it is known that each printable ASCII character (20h to 7Eh) by itself takes one
    /// column; runs of them are then set without being measured one by one. To answer `false` is
    /// never wrong.
    fn has_narrow_ascii(&self) -> bool
        ensures { IsTrue result → (byte : ℕ) → is_printable byte ≡ true → width_of self.now (byte ∷ []) ≡ 1 }
    {
        false
    }

    /// No text takes more than two columns.
    ghost at_most_two: { (widths : Self) (text : List ℕ) → width_of widths text ≤ 2 };

    /// A space takes one column.
    ghost space_is_one: { (widths : Self) → width_of widths (32 ∷ []) ≡ 1 };
}

/// The columns that the crate `unicode_width` gives a text, cut at 2.
#[derive(Clone, Copy, Debug, PartialEq, Eq)]
pub struct ProgramWidth;

impl Widths for ProgramWidth {
    ghost width_of = { λ _ text. program_width text };

    ghost at_most_two = { λ _ text. program_width_le text };

    ghost space_is_one = { λ _. program_width-space };

    #[inline(always)]
    fn width(&self, cluster: &str) -> u8
        ensures { result ≡ program_width cluster.now }
    {
        match single_character(cluster) {
            Some(character) => character_columns(character),
            None => text_columns(cluster),
        }
    }

    #[inline(always)]
    fn character_width(&self, character: char) -> u8
        ensures { result ≡ program_width (encode_utf8 character) }
    {
        match known_columns(character) {
            Some(columns) => columns,
            None => single_columns(character),
        }
    }

    #[inline(always)]
    fn letter_columns(&self, character: char) -> Option<u8>
        ensures value { IfSome result (λ columns. columns ≡ program_width (encode_utf8 character)) }
        ensures some { IfSome result (λ columns. 1 ≤ columns) }
        ensures independent { IfSome result (λ columns. is_independent character ≡ true) }
    {
        known_columns(character)
    }

    fn has_narrow_ascii(&self) -> bool
        ensures narrow { (byte : ℕ) → is_printable byte ≡ true → program_width (byte ∷ []) ≡ 1 }
        ensures known { IsTrue result }
    {
        true
    }
}

// The one character of a text, if it lies above U+00A0.
#[inline(always)]
fn single_character(text: &str) -> Option<char>
    ensures { IfSome result (λ character. (chars text.now ≡ character ∷ []) × (0xA0 < character)) }
{
    let mut characters = text.chars();
    let first = characters.next()?;
    if first > '\u{a0}' && characters.as_str().is_empty() {
        return Some(first);
    }
    None
}

// The columns of a character by itself.
#[inline(always)]
fn character_columns(character: char) -> u8
    requires { 0xA0 < character }
    ensures { result ≡ min (str_width false (character ∷ [])) 2 }
{
    character.width().unwrap_or(0).min(2) as u8
}

// Whether a character is a kana, an ideograph or a Hangul syllable, each of which takes two columns.
#[inline(always)]
fn is_eastern_letter(code: u32) -> bool
    ensures { result ≡ is_eastern_letter code }
{
    is_in(code, 0x3041, 0x3096)
        || is_in(code, 0x30a0, 0x30ff)
        || is_in(code, 0x4e00, 0x9fff)
        || is_in(code, 0xac00, 0xd7a3)
}

// Whether a character is a letter of Latin, or of Cyrillic, each of which takes one column.
#[inline(always)]
fn is_western_letter(code: u32) -> bool
    ensures { result ≡ is_western_letter code }
{
    is_in(code, 0xc0, 0x2af) || is_in(code, 0x400, 0x481)
}

// Whether `code` lies in `first..=last`.
#[inline(always)]
fn is_in(code: u32, first: u32, last: u32) -> bool
    ensures { result ≡ is_in_range first last code }
{
    (first <= code) & (code <= last)
}

// The columns of a character where they are known without the table: of most letters.
#[inline(always)]
fn known_columns(character: char) -> Option<u8>
    ensures value { IfSome result (λ columns. columns ≡ program_width (encode_utf8 character)) }
    ensures some { IfSome result (λ columns. 1 ≤ columns) }
    ensures independent { IfSome result (λ columns. is_independent character ≡ true) }
{
    let code = character as u32;
    if is_eastern_letter(code) {
        return Some(2);
    }
    if is_western_letter(code) {
        return Some(1);
    }
    None
}

// The columns of any character.
#[inline(always)]
fn single_columns(character: char) -> u8
    ensures { result ≡ program_width (encode_utf8 character) }
{
    if character > '\u{a0}' {
        character_columns(character)
    } else {
        low_columns(character)
    }
}

// The columns of a character as a text.
#[inline(never)]
fn low_columns(character: char) -> u8
    ensures { result ≡ program_width (encode_utf8 character) }
{
    let mut buffer = [0u8; 4];
    text_columns(character.encode_utf8(&mut buffer))
}

// The columns of a text.
#[inline(never)]
#[tactic(auto, unfolding(crate::specs::Cluster::program_width))]
fn text_columns(text: &str) -> u8
    ensures { result ≡ program_width text.now }
{
    text.width().min(2) as u8
}
