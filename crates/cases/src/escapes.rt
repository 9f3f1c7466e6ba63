//! Bytes as a table writes them, both ways: `\x1b` is a byte, `\u{304b}` a character, `\n` and `\r` are LF and CR, `\s`
//! is a space, `\\` is `\`, and `<<128 of 1;>>` is the text `1;` 128 times.
ghost use Rattle.std.specs.Prelude.{◌<◌, IfOk};

use crate::fault::Fault;
use std::alloc::Global;

// The value of a hexadecimal digit.
fn hex_value(digit: u8) -> Result<u8, Fault>
    ensures { IfOk result (λ n. n < 16) }
{
    match digit {
        b'0'..=b'9' => Ok(digit - b'0'),
        b'a'..=b'f' => Ok(digit - b'a' + 10),
        b'A'..=b'F' => Ok(digit - b'A' + 10),
        _ => Err(Fault::Escape),
    }
}

// A byte by its two digits.
fn hex_byte(high: u8, low: u8) -> Result<u8, Fault> {
    let high = hex_value(high)?;
    let low = hex_value(low)?;
    Ok(high * 16 + low)
}

// A byte, and then literal bytes.
fn push_with(bytes: &mut Vec<u8>, byte: u8, after: &[u8]) -> Result<(), Fault> {
    bytes.push(byte)?;
    bytes.extend_from_slice(after)?;
    Ok(())
}

// A character by its number before a `}`, and then literal text.
fn push_character(bytes: &mut Vec<u8>, text: &str) -> Result<(), Fault> {
    let (digits, after) = text.split_once('}').ok_or(Fault::Escape)?;
    let number = u32::from_str_radix(digits, 16).ok().ok_or(Fault::Escape)?;
    let character = char::from_u32(number).ok_or(Fault::Escape)?;
    let mut buffer = [0u8; 4];
    bytes.extend_from_slice(character.encode_utf8(&mut buffer).as_bytes())?;
    bytes.extend_from_slice(after.as_bytes())?;
    Ok(())
}

// Appends the bytes of an escape and the literal text after it, where `text` follows a `\`, up to the next `\`.
fn push_escape(bytes: &mut Vec<u8>, text: &str) -> Result<(), Fault> {
    if let Some(number) = text.strip_prefix("u{") {
        return push_character(bytes, number);
    }
    match text.as_bytes() {
        [b'x', high, low, after @ ..] => push_with(bytes, hex_byte(*high, *low)?, after),
        [b'n', after @ ..] => push_with(bytes, b'\n', after),
        [b'r', after @ ..] => push_with(bytes, b'\r', after),
        [b's', after @ ..] => push_with(bytes, b' ', after),
        _ => Err(Fault::Escape),
    }
}

// `COUNT of TEXT` before `>>`: the text that many times, at most 9,999; and then literal text.
fn push_copies(all: &mut String, text: &str) -> Result<(), Fault> {
    let (digits, after) = text.split_once(" of ").ok_or(Fault::Escape)?;
    let (copied, after) = after.split_once(">>").ok_or(Fault::Escape)?;
    let count = digits.parse::<u16>().ok().ok_or(Fault::Escape)?;
    for _ in 0..count.min(9999) {
        all.push_str(copied)?;
    }
    all.push_str(after)?;
    Ok(())
}

// A text with its copies written out.
fn with_copies(alloc: Global, text: &str) -> Result<String, Fault> {
    let mut all = String::new(alloc);
    let mut is_first = true;
    for piece in text.split("<<") {
        if is_first {
            all.push_str(piece)?;
        } else {
            push_copies(&mut all, piece)?;
        }
        is_first = false;
    }
    Ok(all)
}

/// The bytes of a text, with its escapes read.
pub fn read(alloc: Global, text: &str) -> Result<Vec<u8>, Fault> {
    let whole = with_copies(alloc, text)?;
    let mut bytes = Vec::new(alloc);
    let mut literal = true;
    for piece in whole.as_str().split('\\') {
        if literal {
            bytes.extend_from_slice(piece.as_bytes())?;
            literal = false;
        } else if piece.is_empty() {
            bytes.push(b'\\')?;
            literal = true;
        } else {
            push_escape(&mut bytes, piece)?;
        }
    }
    if literal {
        Err(Fault::Escape)
    } else {
        Ok(bytes)
    }
}

/// A text with its escapes read.
pub fn read_text(alloc: Global, text: &str) -> Result<String, Fault> {
    match String::from_utf8(read(alloc, text)?) {
        Ok(read) => Ok(read),
        Err(_) => Err(Fault::Utf8),
    }
}

// A character, as itself where it is printable ASCII other than `\`.
fn push_shown(text: &mut String, character: char) -> Result<(), Fault> {
    let number = u32::from(character);
    match character {
        '\\' => text.push_str("\\\\")?,
        ' '..='~' => text.push(character)?,
        '\0'..='\u{7f}' => write!(text, "\\x{number:02x}")?,
        _ => write!(text, "\\u{{{number:x}}}")?,
    }
    Ok(())
}

// A byte, as itself where it is printable ASCII other than `\`.
fn push_byte(text: &mut String, byte: u8) -> Result<(), Fault> {
    if byte.is_ascii() {
        return push_shown(text, char::from(byte));
    }
    write!(text, "\\x{byte:02x}")?;
    Ok(())
}

/// A text that reads as these bytes.
pub fn written(alloc: Global, bytes: &[u8]) -> Result<String, Fault> {
    let mut text = String::new(alloc);
    if let Ok(whole) = str::from_utf8(bytes) {
        for character in whole.chars() {
            push_shown(&mut text, character)?;
        }
        return Ok(text);
    }
    for byte in bytes {
        push_byte(&mut text, *byte)?;
    }
    Ok(text)
}
