//! The screen in the formats of files.
ghost use Rattle.std.specs.Prelude.{◌≡◌, IfOk};
ghost use Rattle.std.specs.String.{string_bytes};
ghost use Rattle.cell_surface.specs.Surface.{shown_by};
ghost use Rattle.terminal_c.specs.Formats.{format_count, screen_in};

use screen_formats::{write_ansi, write_html, write_json, write_svg};
use std::alloc::{AllocError, Global};
use terminal::{ProgramWidth, Surface};

/// How many formats there are.
pub(crate) const FORMAT_COUNT: u32 = 4;

/// A screen in the format of a number: 0 rows with control sequences, 1 HTML, 2 SVG, 3 JSON.
#[tactic(auto, unfolding(crate::specs::Formats::screen_in))]
pub(crate) fn screen_in(
    alloc: Global,
    surface: &Surface<ProgramWidth>,
    format: u32,
) -> Result<String, AllocError>
    ensures { IfOk result (λ text. string_bytes text ≡ screen_in format (shown_by surface.now).screen) }
{
    let mut text = String::new(alloc);
    match format {
        0 => write_ansi(alloc, &mut text, surface)?,
        1 => write_html(alloc, &mut text, surface)?,
        2 => write_svg(alloc, &mut text, surface)?,
        _ => write_json(alloc, &mut text, surface)?,
    }
    Ok(text)
}
