//! Texts that a stream carries as they are, and links that OSC 8 carries.
ghost use Rattle.std.specs.Prelude.{◌≡◌, option_map};
ghost use Rattle.std.specs.List.{list_all, list_any};
ghost use Rattle.std.specs.Char.{is_ascii_control};
ghost use Rattle.cell_base.specs.Link.{texts_of};
ghost use Rattle.terminal_render.specs.Links.{has_plain_texts, is_carried, is_plain_param, is_plain_text, reads_back};

use cell_base::Hyperlink;
use std::collections::BTreeMap;
use std::rc::Rc;
use text_clusters::holds_c1;

// Whether a text holds a C0 control or DEL.
fn holds_control(text: &str) -> bool
    ensures { result ≡ list_any is_ascii_control text.now }
{
    text.as_bytes().iter().any(u8::is_ascii_control)
}

/// Whether a text holds no control of any kind.
pub(crate) fn is_plain_text(text: &str) -> bool
    ensures { result ≡ is_plain_text text.now }
{
    !holds_control(text) && !holds_c1(text.as_bytes())
}

// Whether keys and values hold no control of any kind.
fn have_plain_texts(params: &BTreeMap<String, String>) -> bool
    ensures { result ≡ list_all is_plain_param (texts_of params.now.entries) }
{
    for (key, value) in params {
        if !is_plain_param(key.as_str(), value.as_str()) {
            return false;
        }
    }
    true
}

// Whether a key and a value hold no control of any kind.
fn is_plain_param(key: &str, value: &str) -> bool
    ensures { result ≡ is_plain_param (key.now, value.now) }
{
    is_plain_text(key) && is_plain_text(value)
}

// Whether the texts of a link hold no control of any kind.
fn has_plain_texts(link: &Hyperlink) -> bool
    ensures { result ≡ has_plain_texts link.now }
{
    have_plain_texts(link.params()) && is_plain_text(link.uri())
}

// Whether OSC 8 with the link's text is read as the link.
fn reads_back(link: &Hyperlink) -> bool
    ensures { result ≡ reads_back link.now }
{
    link.reads_back()
}

/// Whether OSC 8 carries a link; it always carries the end of a link.
#[tactic(auto, unfolding(crate::specs::Links::is_carried))]
pub(crate) fn is_carried(link: Option<&Rc<Hyperlink>>) -> bool
    ensures { result ≡ is_carried (option_map (λ l. l.now.value) link.entry) }
{
    match link {
        Some(link) => reads_back(link) && has_plain_texts(link),
        None => true,
    }
}
