//! Texts escaped for HTML and for XML.
ghost use Rattle.std.specs.Prelude.{◌≡◌, ◌++◌, OnOk};
ghost use Rattle.std.specs.Char.{encode_utf8};
ghost use Rattle.std.specs.Option.{option_map};
ghost use Rattle.std.specs.String.{string_bytes};
ghost use Rattle.screen_formats.specs.Escape.{can_hold, entity_of, escaped, escaped_char, held};

use std::alloc::AllocError;

/// What a text is escaped for.
#[derive(Debug, Clone, Copy, PartialEq, Eq)]
pub enum Markup {
    /// HTML, which can hold every character except NUL.
    Html,
    /// XML 1.0, which can hold no C0 control except HT, LF and CR, and neither U+FFFE nor U+FFFF.
    Xml,
}

// Whether the markup can hold a character.
fn can_hold(markup: Markup, c: char) -> bool
    ensures { result ≡ can_hold markup c }
{
    match markup {
        Markup::Html => c != '\0',
        Markup::Xml => matches!(c, '\t' | '\n' | '\r' | '\u{20}'..='\u{FFFD}' | '\u{10000}'..),
    }
}

// The character, or U+FFFD in place of one that the markup can't hold.
fn held(markup: Markup, c: char) -> char
    ensures { result ≡ held markup c }
{
    if can_hold(markup, c) { c } else { '\u{FFFD}' }
}

// The character reference that is written for a character, if one is.
fn entity(c: char) -> Option<&'static str>
    ensures { option_map (λ e. e.now) result ≡ entity_of c }
{
    match c {
        '&' => Some("&amp;"),
        '<' => Some("&lt;"),
        '>' => Some("&gt;"),
        '"' => Some("&quot;"),
        '\'' => Some("&#39;"),
        '\r' => Some("&#13;"),
        _ => None,
    }
}

// Writes a character that the markup can hold, by a character reference if it has one.
fn push_char(out: &mut String, c: char) -> Result<(), AllocError>
    ensures { OnOk result (string_bytes out.new ≡ string_bytes out.old ++ escaped_char c) }
{
    match entity(c) {
        Some(entity) => out.push_str(entity)?,
        None => out.push(c)?,
    }
    Ok(())
}

/// Writes a text escaped for a place between tags, and for a quoted value of an attribute: `&`, `<`, `>`, `"`, `'` and
/// CR as character references, U+FFFD in place of a character that the markup can't hold, and any other as it is.
pub fn push_escaped(out: &mut String, text: &str, markup: Markup) -> Result<(), AllocError>
    ensures { OnOk result (string_bytes out.new ≡ string_bytes out.old ++ escaped markup text.now) }
{
    for c in text.chars() {
        push_char(out, held(markup, c))?;
    }
    Ok(())
}
