//! Character sets of the profile xterm (ISO 2022, DEC STD 070): which characters are printed for those of a run.
ghost use Rattle.std.specs.Prelude.{◌≡◌, ◌<◌, IfOk, encode_utf8_all, map, slice_index_or};
ghost use Rattle.std.specs.Str.{chars};
ghost use Rattle.std.specs.String.{string_bytes};
ghost use Rattle.terminal_steps.specs.ProfileView.{charset_in, charsets_in};
ghost use Rattle.terminal_table.specs.Charsets.{character_in, charset_in_use, graphics, initial_charsets, text_in};

use std::alloc::{AllocError, Global};

/// A set that is designated as G0 or G1.
#[derive(Clone, Copy, Debug)]
pub(crate) enum Charset {
    Ascii,
    /// DEC special graphics: lines and symbols.
    Graphics,
    /// The British set, which has a pound sign.
    British,
}

/// The sets G0 and G1.
#[derive(Clone, Copy, Debug)]
pub(crate) struct Charsets {
    pub(crate) g0: Charset,
    pub(crate) g1: Charset,
    /// Whether G1 is in use (SO), or G0 (SI).
    pub(crate) shifted: bool,
}

// DEC special graphics, from 5F to 7E.
const GRAPHICS: [char; 32] = [
    ' ', '\u{25C6}', '\u{2592}', '\u{2409}', '\u{240C}', '\u{240D}', '\u{240A}', '\u{B0}',
    '\u{B1}', '\u{2424}', '\u{240B}', '\u{2518}', '\u{2510}', '\u{250C}', '\u{2514}', '\u{253C}',
    '\u{23BA}', '\u{23BB}', '\u{2500}', '\u{23BC}', '\u{23BD}', '\u{251C}', '\u{2524}', '\u{2534}',
    '\u{252C}', '\u{2502}', '\u{2264}', '\u{2265}', '\u{3C0}', '\u{2260}', '\u{A3}', '\u{B7}',
];

/// The sets of a new terminal.
pub(crate) fn initial_charsets() -> Charsets
    ensures { charsets_in result ≡ initial_charsets }
{
    Charsets {
        g0: Charset::Ascii,
        g1: Charset::Ascii,
        shifted: false,
    }
}

/// The set that is in use.
pub(crate) fn charset_in_use(charsets: Charsets) -> Charset
    ensures { charset_in result ≡ charset_in_use (charsets_in charsets) }
{
    if charsets.shifted {
        charsets.g1
    } else {
        charsets.g0
    }
}

// One of the graphics.
fn graphics_at(index: usize) -> char
    requires { index < 32 }
    ensures { result ≡ slice_index_or graphics index 0x20 }
{
    GRAPHICS[index]
}

// The character of a set for a character of a run.
fn character_in(charset: Charset, character: char) -> char
    ensures { result ≡ character_in (charset_in charset) character }
{
    match charset {
        Charset::Ascii => character,
        Charset::Graphics => {
            if '\u{5F}' <= character && character <= '\u{7E}' {
                graphics_at(character as usize - 0x5F)
            } else {
                character
            }
        }
        Charset::British => {
            if character == '#' {
                '\u{A3}'
            } else {
                character
            }
        }
    }
}

// The characters of a set for those of a text.
fn map_text(alloc: Global, charset: Charset, text: &str) -> Result<String, AllocError>
    ensures { IfOk result
        (λ mapped. string_bytes mapped ≡ encode_utf8_all (map (character_in (charset_in charset)) (chars text.now))) }
{
    let mut mapped = String::new(alloc);
    for character in text.chars() {
        mapped.push(character_in(charset, character))?;
    }
    Ok(mapped)
}

/// The text of a run as a set has it.
pub(crate) fn text_in(alloc: Global, charset: Charset, text: String) -> Result<String, AllocError>
    ensures { IfOk result (λ mapped. string_bytes mapped ≡ text_in (charset_in charset) (string_bytes text)) }
{
    match charset {
        Charset::Ascii => Ok(text),
        Charset::Graphics | Charset::British => map_text(alloc, charset, &text),
    }
}
