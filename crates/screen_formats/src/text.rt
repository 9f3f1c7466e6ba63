//! A screen as plain rows.
ghost use Rattle.std.specs.Prelude.{◌≡◌, ◌++◌, OnOk};
ghost use Rattle.std.specs.String.{string_bytes};
ghost use Rattle.cell_base.specs.Screen.{screen_text};
ghost use Rattle.cell_surface.specs.Surface.{shown_by};

use cell_base::Widths;
use cell_surface::Surface;
use std::alloc::AllocError;

/// Writes the texts of a screen's rows, each with a line feed after it.
pub fn write_text<W: Widths + Drop>(
    out: &mut String,
    surface: &Surface<W>,
) -> Result<(), AllocError>
    ensures { OnOk result (string_bytes out.new ≡ string_bytes out.old ++ screen_text (shown_by surface.now).screen) }
{
    out.push_str(&surface.screen_chars_to_string()?)?;
    Ok(())
}
