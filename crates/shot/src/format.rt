//! A screen in one of five forms.
ghost use Rattle.std.specs.Prelude.{◌≡◌, IfOk};
ghost use Rattle.std.specs.String.{string_bytes};
ghost use Rattle.cell_surface.specs.Surface.{shown_by};
ghost use Rattle.shot.specs.Pictures.{between, picture};

use cell_base::Widths;
use cell_surface::Surface;
use screen_formats::{write_ansi, write_html, write_json, write_svg, write_text};
use std::alloc::{AllocError, Global};

/// The form that a screen is written in.
#[derive(Clone, Copy, Debug, PartialEq, Eq)]
pub enum Format {
    /// The rows.
    Text,
    /// The rows with control sequences (SGR and OSC 8).
    Ansi,
    /// A page of HTML.
    Html,
    /// A picture.
    Svg,
    /// An object of JSON, in one line.
    Json,
}

/// What parts a screen from the one before it, where screens come one after another: an empty line, where they are rows
/// of text.
pub fn between(format: Format) -> &'static str
    ensures { result.now ≡ between format }
{
    match format {
        Format::Text | Format::Ansi => "\n",
        Format::Html | Format::Svg | Format::Json => "",
    }
}

/// A screen in a form.
#[tactic(auto, unfolding(crate::specs::Pictures::picture))]
pub fn picture<W: Widths + Drop>(
    alloc: Global,
    format: Format,
    surface: &Surface<W>,
) -> Result<String, AllocError>
    ensures { IfOk result (λ text. string_bytes text ≡ picture format (shown_by surface.now).screen) }
{
    let mut text = String::new(alloc);
    match format {
        Format::Text => write_text(&mut text, surface)?,
        Format::Ansi => write_ansi(alloc, &mut text, surface)?,
        Format::Html => {
            text.push_str("<!doctype html><meta charset=\"utf-8\">\n")?;
            write_html(alloc, &mut text, surface)?;
        }
        Format::Svg => write_svg(alloc, &mut text, surface)?,
        Format::Json => {
            write_json(alloc, &mut text, surface)?;
            text.push('\n')?;
        }
    }
    Ok(text)
}
