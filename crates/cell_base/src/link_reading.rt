//! Reading a link from the parts of an OSC 8.
ghost use Rattle.std.specs.Prelude.{◌≡◌, ◌<◌, ◌==◌, ◌&&◌, true, length, map, is_some, IfSome, IfOk, OnOk};
ghost use Rattle.std.specs.List.{before_first, after_first, list_all, list_any, join_with_byte};
ghost use Rattle.std.specs.Str.{is_utf8};
ghost use Rattle.std.specs.String.{string_bytes};
ghost use Rattle.cell_base.specs.Link.{texts_of};
ghost use Rattle.cell_base.specs.LinkText.{is_key_text, is_param, is_value_text, is_writable, param_of, param_fields};
ghost use Rattle.cell_base.specs.LinkText.{params_of, put_param};

use std::alloc::{AllocError, Global};
use std::collections::BTreeMap;
use std::str;

// Whether both texts are empty.
pub(crate) fn are_empty(params: &[u8], uri: &[&[u8]]) -> bool
    requires { 0 < length uri.now }
    ensures { result ≡ (length params.now == 0
        && length (join_with_byte 59 (map (λ p. p.now) uri.now)) == 0) }
{
    params.is_empty() && is_no_text(uri)
}

// Whether the parts, joined, have no byte.
fn is_no_text(parts: &[&[u8]]) -> bool
    requires { 0 < length parts.now }
    ensures { result ≡ (length (join_with_byte 59 (map (λ p. p.now) parts.now)) == 0) }
{
    parts.len() == 1 && parts[0].is_empty()
}

// The parameters' text, if it and the URI are UTF-8.
pub(crate) fn as_texts<'a>(params: &'a [u8], uri: &[&[u8]]) -> Option<&'a str>
    ensures value { IfSome result (λ s. s.now ≡ params.now) }
    ensures variant { is_some result
        ≡ (is_utf8 params.now && is_utf8 (join_with_byte 59 (map (λ p. p.now) uri.now))) }
{
    let Ok(text) = str::from_utf8(params) else {
        return None;
    };
    if are_texts(uri) { Some(text) } else { None }
}

// Whether the parts, joined, are UTF-8: whether each of them is.
fn are_texts(parts: &[&[u8]]) -> bool
    ensures { result ≡ is_utf8 (join_with_byte 59 (map (λ p. p.now) parts.now)) }
{
    parts.iter().all(|part| is_text(part))
}

fn is_text(part: &[u8]) -> bool
    ensures { result ≡ is_utf8 part.now }
{
    str::from_utf8(part).is_ok()
}

fn has_equals(pair: &str) -> bool
    ensures { result ≡ is_param pair.now }
{
    pair.contains('=')
}

fn has_colon(text: &str) -> bool
    ensures { result ≡ list_any (λ b. b == 58) text.now }
{
    text.contains(':')
}

fn has_semicolon(text: &str) -> bool
    ensures { result ≡ list_any (λ b. b == 59) text.now }
{
    text.contains(';')
}

// Whether a link's text can hold a text unchanged: as a value, as a key, both.
fn is_value(text: &str) -> bool
    ensures { result ≡ is_value_text text.now }
{
    !has_colon(text) && !has_semicolon(text)
}

fn is_key(text: &str) -> bool
    ensures { result ≡ is_key_text text.now }
{
    !has_equals(text) && is_value(text)
}

pub(crate) fn is_writable(key: &str, value: &str) -> bool
    ensures { result ≡ is_writable (key.now, value.now) }
{
    is_key(key) && is_value(value)
}

// Whether each pair of the text has a `=`.
pub(crate) fn are_params(text: &str) -> bool
    ensures { result ≡ list_all is_param (param_fields text.now) }
{
    text.is_empty() || text.split(':').all(|pair| has_equals(pair))
}

// A pair, cut at its first `=`.
fn cut_param(pair: &str) -> (&str, &str)
    ensures key { result.0.now ≡ before_first (λ b. b == 61) pair.now }
    ensures value { result.1.now ≡ after_first (λ b. b == 61) pair.now }
{
    pair.split_once('=').unwrap_or((pair, ""))
}

// Puts a pair among the parameters.
fn put_pair(
    alloc: Global,
    params: &mut BTreeMap<String, String>,
    pair: &str,
) -> Result<(), AllocError>
    ensures { OnOk result (texts_of params.new.entries
        ≡ put_param (texts_of params.old.entries) (param_of pair.now)) }
{
    let (key, value) = cut_param(pair);
    params.insert(
        String::from_str(alloc, key)?,
        String::from_str(alloc, value)?,
    )?;
    Ok(())
}

// The parameters of a text.
pub(crate) fn read_params(alloc: Global, text: &str) -> Result<BTreeMap<String, String>, AllocError>
    ensures { IfOk result (λ m. texts_of m.entries ≡ params_of text.now) }
{
    let mut params = BTreeMap::new(alloc);
    if text.is_empty() {
        return Ok(params);
    }
    for pair in text.split(':') {
        put_pair(alloc, &mut params, pair)?;
    }
    Ok(params)
}

// The parts, joined by `;`.
pub(crate) fn join_parts(alloc: Global, parts: &[&[u8]]) -> Result<String, AllocError>
    requires { is_utf8 (join_with_byte 59 (map (λ p. p.now) parts.now)) ≡ true }
    ensures { IfOk result (λ s. string_bytes s ≡ join_with_byte 59 (map (λ p. p.now) parts.now)) }
{
    let mut joined = Vec::new(alloc);
    for (index, part) in parts.iter().enumerate() {
        if index > 0 {
            joined.push(b';')?;
        }
        joined.extend_from_slice(part)?;
    }
    // SAFETY: the joined parts are UTF-8, as `requires` states.
    Ok(unsafe { String::from_utf8_unchecked(joined) })
}
