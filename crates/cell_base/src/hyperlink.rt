//! Links: a URI with parameters, as OSC 8 carries them.
ghost use Rattle.std.specs.Prelude.{◌≡◌, ◌↔◌, [], ◌∷◌, ◌<◌, length, map, IfOk, IsTrue, IfErr, Some, Ok, Err, false};
ghost use Rattle.std.specs.Prelude.{true, codes};
ghost use Rattle.std.specs.Fmt.{WritesOnOk};
ghost use Rattle.std.specs.List.{join_with_byte, list_all};
ghost use Rattle.std.specs.Cmp.Lexicographic.{slice_cmp};
ghost use Rattle.std.specs.List.Sorted.{IsStrictlySortedBy};
ghost use Rattle.std.specs.Map.{keys_of};
ghost use Rattle.std.specs.Ordering.{nat_cmp};
ghost use Rattle.std.specs.Str.{is_utf8};
ghost use Rattle.std.specs.String.{string_bytes};
ghost use Rattle.cell_base.specs.LinkText.{link_text, link_reading, params_of, params_text, texts_reading};
ghost use Rattle.cell_base.specs.LinkText.{is_empty_link, is_writable, IsReadBack, IsUnlessMemory};
ghost use Rattle.cell_base.specs.Link.{texts_of};

use crate::link_error::LinkError;
use crate::link_reading::{are_empty, are_params, as_texts, is_writable, join_parts, read_params};
use std::alloc::{AllocError, Global};
use std::collections::BTreeMap;
use std::fmt;
use std::marker::Model;

/// A link: its URI, its parameters in the order of their keys, and whether it was found in a text
/// rather than given by a program.
#[derive(Debug, Drop)]
pub struct Hyperlink {
    params: BTreeMap<String, String>,
    uri: String,
    implicit: bool,
}

impl Model for Hyperlink {
    ghost use Rattle.cell_base.specs.Link.{Link};

    ghost Value = { Link };

    ghost use Rattle.cell_base.specs.LinkView.{link_of};

    ghost view = { link_of };
}

impl Hyperlink {
    /// A link to a URI.
    pub fn new(alloc: Global, uri: &str) -> Result<Hyperlink, AllocError>
        ensures { IfOk result (λ l. l ≡ record { params = []; uri = uri.now; implicit = false }) }
    {
        let uri = String::from_str(alloc, uri)?;
        Ok(Hyperlink::given(uri, BTreeMap::new(alloc)))
    }

    /// A link that was found in a text.
    pub fn new_implicit(alloc: Global, uri: &str) -> Result<Hyperlink, AllocError>
        ensures { IfOk result (λ l. l ≡ record { params = []; uri = uri.now; implicit = true }) }
    {
        let uri = String::from_str(alloc, uri)?;
        let params = BTreeMap::new(alloc);
        Ok(Hyperlink {
            params,
            uri,
            implicit: true,
        })
    }

    /// A link to a URI with the one parameter `id`, by which a terminal tells apart or joins the
    /// positions that show it.
    pub fn new_with_id(alloc: Global, uri: &str, id: &str) -> Result<Hyperlink, AllocError>
        ensures { IfOk result (λ l. l ≡ record {
          params = (codes "id", id.now) ∷ [];
          uri = uri.now;
          implicit = false;
        }) }
    {
        let uri = String::from_str(alloc, uri)?;
        let mut params = BTreeMap::new(alloc);
        params.insert(String::from_str(alloc, "id")?, String::from_str(alloc, id)?)?;
        Ok(Hyperlink::given(uri, params))
    }

    /// A link to a URI with parameters.
    pub fn new_with_params(
        alloc: Global,
        uri: &str,
        params: BTreeMap<String, String>,
    ) -> Result<Hyperlink, AllocError>
        ensures { IfOk result (λ l. l ≡ record {
          params = texts_of params.entries;
          uri = uri.now;
          implicit = false;
        }) }
    {
        let uri = String::from_str(alloc, uri)?;
        Ok(Hyperlink::given(uri, params))
    }

    // A link that was given.
    fn given(uri: String, params: BTreeMap<String, String>) -> Hyperlink
        ensures { result ≡ record {
          params = texts_of params.entries;
          uri = string_bytes uri;
          implicit = false;
        } }
    {
        Hyperlink {
            params,
            uri,
            implicit: false,
        }
    }

    /// Reads a link from the parts of an OSC 8: the first part is ignored, the second holds the
    /// parameters, and the parts from the third on are the URI, joined by `;`. Where both texts are
    /// empty, there is no link. An error other than `Memory` doesn't depend on the memory: it is the
    /// first of `PartCount`, `Utf8` and `Params` that applies.
    pub fn parse(alloc: Global, parts: &[&[u8]]) -> Result<Option<Hyperlink>, LinkError>
        ensures { IsUnlessMemory (link_reading (map (λ p. p.now) parts.now)) result }
    {
        if parts.len() < 3 {
            return Err(LinkError::PartCount);
        }
        Hyperlink::from_texts(alloc, parts[1], &parts[2..])
    }

    // The link of the parameters' text and of the URI's parts.
    fn from_texts(
        alloc: Global,
        params: &[u8],
        uri: &[&[u8]],
    ) -> Result<Option<Hyperlink>, LinkError>
        requires { 0 < length uri.now }
        ensures { IsUnlessMemory
            (texts_reading params.now (join_with_byte 59 (map (λ p. p.now) uri.now))) result }
    {
        if are_empty(params, uri) {
            return Ok(None);
        }
        let Some(params) = as_texts(params, uri) else {
            return Err(LinkError::Utf8);
        };
        if !are_params(params) {
            return Err(LinkError::Params);
        }
        Ok(Some(Hyperlink::build(alloc, params, uri)?))
    }

    fn build(alloc: Global, params: &str, uri: &[&[u8]]) -> Result<Hyperlink, AllocError>
        requires { is_utf8 (join_with_byte 59 (map (λ p. p.now) uri.now)) ≡ true }
        ensures { IfOk result (λ l. l ≡ record {
          params = params_of params.now;
          uri = join_with_byte 59 (map (λ p. p.now) uri.now);
          implicit = false;
        }) }
    {
        let uri = join_parts(alloc, uri)?;
        let params = read_params(alloc, params)?;
        Ok(Hyperlink::given(uri, params))
    }

    /// Whether an OSC 8 of the link's text reads back as the link. It does where the link was given by
    /// a program and has a URI or parameters, no key holds `=`, `:` or `;`, and no value `:` or `;`.
    /// Takes no memory.
    pub fn reads_back(&self) -> bool
        ensures { IsTrue result ↔ IsReadBack self.now }
    {
        if self.implicit {
            return false;
        }
        if self.is_empty() {
            return false;
        }
        are_writable(&self.params)
    }

    // Whether there are neither parameters nor a URI.
    fn is_empty(&self) -> bool
        ensures { result ≡ is_empty_link self.now }
    {
        self.params.is_empty() && self.uri.is_empty()
    }

    // Whether the texts are the same, and whether both are implicit or neither.
    #[inline(never)]
    fn is_same(&self, other: &Hyperlink) -> bool
        ensures { IsTrue result ↔ (self.now ≡ other.now) }
    {
        self.implicit == other.implicit
            && self.uri == other.uri
            && same_params(&self.params, &other.params)
    }

    /// A copy.
    pub fn try_clone(&self) -> Result<Hyperlink, AllocError>
        ensures { IfOk result (λ copy. copy ≡ self.now) }
    {
        Ok(Hyperlink {
            params: self.params.clone()?,
            uri: self.uri.clone()?,
            implicit: self.implicit,
        })
    }

    /// The URI.
    pub fn uri(&self) -> &str
        ensures { result.now ≡ self.now.uri }
    {
        self.uri.as_str()
    }

    /// The parameters, in the order of their keys' bytes.
    pub fn params(&self) -> &BTreeMap<String, String>
        ensures { texts_of result.now.entries ≡ self.now.params }
    {
        &self.params
    }

    /// Whether the link was found in a text rather than given by a program.
    pub fn is_implicit(&self) -> bool
        ensures { result ≡ self.now.implicit }
    {
        self.implicit
    }
}

impl PartialEq for Hyperlink {
    ghost use Rattle.std.specs.Prelude.{◌≡◌, ◌↔◌, IsTrue};
    ghost use Rattle.std.specs.Cmp.{partial_equiv_from_equiv};
    ghost use Rattle.cell_base.specs.SameLink.{same_link, same_link_equivalence};

    ghost eq = { same_link };

    ghost laws = { partial_equiv_from_equiv same_link_equivalence };

    fn eq(&self, other: &Hyperlink) -> bool
        ensures same { result ≡ same_link self.now other.now }
        ensures by_value { IsTrue result ↔ (self.now ≡ other.now) }
    {
        self.is_same(other)
    }
}

impl Eq for Hyperlink {
    ghost use Rattle.cell_base.specs.SameLink.{same_link_equivalence};

    ghost laws = { same_link_equivalence };
}

impl fmt::Display for Hyperlink {
    ghost output = { λ l. Some (link_text l) };

    #[tactic(auto, unfolding(crate::specs::LinkText::link_text))]
    fn fmt<W: fmt::Write>(&self, f: &mut fmt::Formatter<W>) -> fmt::Result {
        let params = ParamsText(&self.params);
        let uri = self.uri.as_str();
        write!(f, "8;{params};{uri}")
    }
}

// The parameters as a link's text has them.
#[derive(Drop)]
struct ParamsText<'a>(&'a BTreeMap<String, String>);

impl fmt::Display for ParamsText<'_> {
    ghost output = { λ p. Some (params_text (texts_of p.0.now.entries)) };

    fn fmt<W: fmt::Write>(&self, f: &mut fmt::Formatter<W>) -> fmt::Result {
        let mut separator = "";
        for (key, value) in self.0 {
            write!(f, "{separator}{key}={value}")?;
            separator = ":";
        }
        Ok(())
    }
}

// Whether keys and values are the same.
fn same_params(a: &BTreeMap<String, String>, b: &BTreeMap<String, String>) -> bool
    ensures { IsTrue result ↔ (texts_of a.now.entries ≡ texts_of b.now.entries) }
{
    *a == *b
}

// Whether a link's text can hold each key and each value unchanged. The keys are in the order of their bytes.
fn are_writable(params: &BTreeMap<String, String>) -> bool
    ensures value { result ≡ list_all is_writable (texts_of params.now.entries) }
    ensures order { IsStrictlySortedBy (slice_cmp nat_cmp) (keys_of (texts_of params.now.entries)) }
{
    for (key, value) in params {
        if !is_writable(key.as_str(), value.as_str()) {
            return false;
        }
    }
    true
}
