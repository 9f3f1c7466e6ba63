//! The colours of cells: those of xterm's palette of 256, direct ones, and those shown for the default ones.
ghost use Rattle.std.specs.Prelude.{◌≡◌, ◌<◌, slice_index_or, IfOk};
ghost use Rattle.std.specs.String.{string_bytes};
ghost use Rattle.screen_formats.specs.Colors.{color_of, default_background, default_foreground, foreground_color, grey};
ghost use Rattle.screen_formats.specs.Colors.{background_color, has_background, hex_color, level, midway};
ghost use Rattle.screen_formats.specs.Colors.{palette_color, text_color};
ghost use Rattle.screen_formats.specs.Colors.{system_color};

use cell_base::{CellAttributes, ColorAttribute, Intensity};
use std::alloc::{AllocError, Global};

/// Red, green and blue, each from 0 to 255.
pub type Rgb = (u8, u8, u8);

// The first sixteen colours of the palette, as xterm has them.
const SYSTEM: [Rgb; 16] = [
    (0, 0, 0),
    (205, 0, 0),
    (0, 205, 0),
    (205, 205, 0),
    (0, 0, 238),
    (205, 0, 205),
    (0, 205, 205),
    (229, 229, 229),
    (127, 127, 127),
    (255, 0, 0),
    (0, 255, 0),
    (255, 255, 0),
    (92, 92, 255),
    (255, 0, 255),
    (0, 255, 255),
    (255, 255, 255),
];

/// The colour shown for the default foreground.
pub const DEFAULT_FOREGROUND: Rgb = (229, 229, 229);

/// The colour shown for the default background.
pub const DEFAULT_BACKGROUND: Rgb = (0, 0, 0);

// One of the six levels of the colour cube.
fn level(step: u8) -> u8
    requires { step < 6 }
    ensures { result ≡ level step }
{
    if step == 0 { 0 } else { 55 + 40 * step }
}

// One of the 24 greys.
fn grey(step: u8) -> u8
    requires { step < 24 }
    ensures { result ≡ grey step }
{
    8 + 10 * step
}

/// A colour of xterm's palette: sixteen named ones, a cube of six levels for each of red, green and blue, and 24 greys.
pub fn palette_color(index: u8) -> Rgb
    ensures { result ≡ palette_color index }
{
    if index < 16 {
        return SYSTEM[index as usize];
    }
    if index < 232 {
        let position = index - 16;
        return (
            level(position / 36),
            level(position / 6 % 6),
            level(position % 6),
        );
    }
    let shade = grey(index - 232);
    (shade, shade, shade)
}

// A colour as it is shown, with `default` for the default.
pub(crate) fn color_of(default: Rgb, color: ColorAttribute) -> Rgb
    ensures { result ≡ color_of default color }
{
    match color {
        ColorAttribute::Default => default,
        ColorAttribute::PaletteIndex(index) => palette_color(index),
        ColorAttribute::TrueColorWithDefaultFallback(tuple)
        | ColorAttribute::TrueColorWithPaletteFallback(tuple, _) => (tuple.0, tuple.1, tuple.2),
    }
}

// The colour in the middle of two.
fn midway(one: Rgb, other: Rgb) -> Rgb
    ensures { result ≡ midway one other }
{
    (
        one.0.midpoint(other.0),
        one.1.midpoint(other.1),
        one.2.midpoint(other.2),
    )
}

// The foreground colour, which reverse video swaps with the background colour; intensity and `invisible` are left out.
fn foreground_color(attrs: &CellAttributes) -> Rgb
    ensures { result ≡ foreground_color attrs.now }
{
    if attrs.reverse() {
        color_of(DEFAULT_BACKGROUND, attrs.background())
    } else {
        color_of(DEFAULT_FOREGROUND, attrs.foreground())
    }
}

/// The background colour; reverse video swaps it with the foreground colour.
pub fn background_color(attrs: &CellAttributes) -> Rgb
    ensures { result ≡ background_color attrs.now }
{
    if attrs.reverse() {
        color_of(DEFAULT_FOREGROUND, attrs.foreground())
    } else {
        color_of(DEFAULT_BACKGROUND, attrs.background())
    }
}

/// The colour in which a text is drawn: the foreground colour; midway to the background colour at half intensity; and
/// the background colour where the text is invisible.
pub fn text_color(attrs: &CellAttributes) -> Rgb
    ensures { result ≡ text_color attrs.now }
{
    if attrs.invisible() {
        return background_color(attrs);
    }
    if attrs.intensity() == Intensity::Half {
        return midway(foreground_color(attrs), background_color(attrs));
    }
    foreground_color(attrs)
}

// Whether a background is drawn: one is set, or reverse video swaps both colours.
pub(crate) fn has_background(attrs: &CellAttributes) -> bool
    ensures { result ≡ has_background attrs.now }
{
    attrs.reverse() || attrs.background() != ColorAttribute::Default
}

// A colour as `#` and two hex digits for each channel.
#[tactic(auto, unfolding(crate::specs::Colors::hex_color))]
pub(crate) fn hex_color(alloc: Global, color: Rgb) -> Result<String, AllocError>
    ensures { IfOk result (λ text. string_bytes text ≡ hex_color color) }
{
    let (red, green, blue) = color;
    let text = format!(in alloc; "#{red:02x}{green:02x}{blue:02x}")?;
    Ok(text)
}
