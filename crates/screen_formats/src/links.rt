//! The links that are written.
ghost use Rattle.std.specs.Prelude.{◌≡◌, ◌||◌, nat_eq, codes};
ghost use Rattle.std.specs.List.{starts_with};
ghost use Rattle.screen_formats.specs.Links.{has_scheme, link_uri};

use cell_base::CellAttributes;

// Whether a URI has the scheme http or https.
fn is_page(uri: &[u8]) -> bool
    ensures { result ≡ (starts_with nat_eq uri.now (codes "http:") || starts_with nat_eq uri.now (codes "https:")) }
{
    uri.starts_with(b"http:") || uri.starts_with(b"https:")
}

// Whether a URI has the scheme mailto or file.
fn is_address_or_file(uri: &[u8]) -> bool
    ensures { result ≡ (starts_with nat_eq uri.now (codes "mailto:") || starts_with nat_eq uri.now (codes "file:")) }
{
    uri.starts_with(b"mailto:") || uri.starts_with(b"file:")
}

// Whether a link to a URI is written: its scheme is http, https, mailto or file, in small letters.
fn has_scheme(uri: &[u8]) -> bool
    ensures { result ≡ has_scheme uri.now }
{
    is_page(uri) || is_address_or_file(uri)
}

/// The URI of a cell's link; empty where the cell has no link, and where its scheme isn't http, https, mailto or file,
/// in small letters.
pub fn link_uri(attrs: &CellAttributes) -> &str
    ensures { result.now ≡ link_uri attrs.now }
{
    match attrs.hyperlink() {
        Some(link) if has_scheme(link.uri().as_bytes()) => link.uri(),
        _ => "",
    }
}
