//! The header of a recording.
ghost use Rattle.std.specs.Prelude.{◌≡◌, ◌<◌, ◌≤◌, IfOk, IfSome, Some, codes, option_and_then, option_map};
ghost use Rattle.json.specs.Find.{get};
ghost use Rattle.json.specs.Value.{value_view};
ghost use Rattle.recordings.specs.Numerals.{count_of, size_of};
ghost use Rattle.recordings.specs.HeadView.{head_value};
ghost use Rattle.recordings.specs.Recordings.{flat_head, head_by, head_in, head_of, head_of_size, is_own_term};
ghost use Rattle.recordings.specs.Recordings.{member_of, term_head, text_in, whole_head};

use crate::entry::json_of;
use crate::fault::Fault;
use crate::numerals::{count_of, size_of};
use crate::size::Size;
use json::{Scratch, Value};
use std::alloc::{AllocError, Global};

/// A version of asciicast.
#[derive(Clone, Copy, Debug, PartialEq, Eq)]
pub(crate) enum Version {
    /// One object has all; times are from the event before.
    One,
    /// Times are from the beginning.
    Two,
    /// Times are from the event before, and lines that begin with `#` are comments.
    Three,
}

/// The first line of an input.
#[derive(Clone, Copy, Debug, PartialEq, Eq)]
pub(crate) enum Head {
    /// No header: the input is the bytes of an application.
    Bytes,
    /// A header that is wrong.
    Bad(Fault),
    /// The header of a version, with its size, and whether its TERM is the project's own.
    Recorded(Version, Size, bool),
}

// The member of a name that is a number of columns or rows.
fn size_in(value: &Value<'_>, name: &str) -> Option<usize>
    ensures size { result ≡ member_of size_of name.now (value_view value.now) }
    ensures range { IfSome result (λ n. (0 < n) × (n ≤ 4096)) }
{
    size_of(value.get(name)?.as_number()?)
}

// The text of the member of a name.
fn text_in<'a>(value: &Value<'a>, name: &str) -> Option<&'a str>
    ensures { option_map (λ t. t.now) result ≡ text_in name.now (value_view value.now) }
{
    value.get(name)?.as_str()
}

// The TERM in the environment of a header of version 1 or 2.
fn env_term<'a>(header: &Value<'a>) -> Option<&'a str>
    ensures { option_map (λ t. t.now) result
        ≡ option_and_then (text_in (codes "TERM")) (get (codes "env") (value_view header.now)) }
{
    text_in(header.get("env")?, "TERM")
}

// Whether the TERM of an application is the name of the project's own terminal description.
fn is_own_term(term: Option<&str>) -> bool
    ensures { result ≡ is_own_term (option_map (λ t. t.now) term.entry) }
{
    match term {
        Some(term) => term == "rilqamyn",
        None => false,
    }
}

fn head_of_size(
    version: Version,
    term: Option<&str>,
    width: Option<usize>,
    height: Option<usize>,
) -> Head
    requires width { IfSome width (λ n. (0 < n) × (n ≤ 4096)) }
    requires height { IfSome height (λ n. (0 < n) × (n ≤ 4096)) }
    ensures { head_value result ≡ head_of_size version (option_map (λ t. t.now) term.entry) width height }
{
    match (width, height) {
        (Some(width), Some(height)) => {
            Head::Recorded(version, Size { width, height }, is_own_term(term))
        }
        _ => Head::Bad(Fault::HeaderSize),
    }
}

// Versions 1 and 2 have the size in `width` and `height`, and the TERM in `TERM` of the member `env`.
fn flat_head(version: Version, header: &Value<'_>) -> Head
    ensures { head_value result ≡ flat_head version (value_view header.now) }
{
    let width = size_in(header, "width");
    let height = size_in(header, "height");
    head_of_size(version, env_term(header), width, height)
}

// Version 3 has the size in `cols` and `rows` of the member `term`, and the TERM in its `type`.
fn third_head(header: &Value<'_>) -> Head
    ensures { head_value result ≡ term_head (get (codes "term") (value_view header.now)) }
{
    let Some(term) = header.get("term") else {
        return Head::Bad(Fault::HeaderSize);
    };
    let width = size_in(term, "cols");
    let height = size_in(term, "rows");
    head_of_size(Version::Three, text_in(term, "type"), width, height)
}

// The number of a header's version.
fn version_in(header: &Value<'_>) -> Option<u64>
    ensures { result ≡ member_of count_of (codes "version") (value_view header.now) }
{
    count_of(header.get("version")?.as_number()?)
}

fn head_in(header: &Value<'_>) -> Head
    ensures { head_value result ≡ head_in (Some (value_view header.now)) }
{
    match version_in(header) {
        Some(1) => Head::Bad(Fault::NotWhole),
        Some(2) => flat_head(Version::Two, header),
        Some(3) => third_head(header),
        Some(_) => Head::Bad(Fault::Version),
        None => Head::Bytes,
    }
}

/// Reads a first line: it is a header where it is an object of JSON with a member `version` that is a number.
#[tactic(auto, unfolding(crate::specs::Recordings::head_of))]
pub(crate) fn read_head(alloc: Global, line: &[u8]) -> Result<Head, AllocError>
    ensures { IfOk result (λ head. head_value head ≡ head_of line.now) }
{
    let mut scratch = Scratch::new(alloc);
    match json_of(alloc, line, &mut scratch)? {
        Some(header) => Ok(head_in(&header)),
        None => Ok(Head::Bytes),
    }
}

/// The header of an input that is one object: a header is only one of version 1.
pub(crate) fn whole_head(whole: &Value<'_>) -> Head
    ensures { head_value result ≡ whole_head (member_of count_of (codes "version") (value_view whole.now))
        (value_view whole.now) }
{
    match version_in(whole) {
        Some(1) => flat_head(Version::One, whole),
        _ => Head::Bytes,
    }
}
