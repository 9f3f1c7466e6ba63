//! Colours: the sixteen named ones, the palette, and true colours.
ghost use Rattle.std.specs.Prelude.{◌≡◌, IfOk};
ghost use Rattle.std.specs.Option.{option_map};
ghost use Rattle.std.specs.String.{string_bytes};
ghost use Rattle.cell_base.specs.ColorText.{rgb_reading, rgb_text, x11_text};
ghost use Rattle.cell_base.specs.Color.{number_of, channels, opaque, without_alpha, attribute_of};
ghost use Rattle.cell_base.specs.declared.color.ColorSpec.TheVariants.{PaletteIndex as indexed, TrueColor};
ghost use Rattle.cell_base.specs.declared.color.ColorAttribute.TheVariants.{PaletteIndex as indexed_attribute};

use crate::color_reading::{read_sharp, read_x11};
use std::alloc::{AllocError, Global};

/// The first sixteen colours of the palette, by their numbers 0 to 15.
#[derive(Debug, Clone, Copy, PartialEq, Eq)]
pub enum AnsiColor {
    Black,
    Maroon,
    Green,
    Olive,
    Navy,
    Purple,
    Teal,
    Silver,
    Grey,
    Red,
    Lime,
    Yellow,
    Blue,
    Fuchsia,
    Aqua,
    White,
}

impl From<AnsiColor> for u8 {
    ghost from_gives = { λ color number. number ≡ number_of color };

    fn from(color: AnsiColor) -> u8 {
        color as u8
    }
}

/// An sRGB colour with alpha: red, green, blue and alpha, each 0 to 255.
#[derive(Debug, Clone, Copy, PartialEq, Eq, Hash, Default)]
pub struct SrgbaTuple(pub u8, pub u8, pub u8, pub u8);

/// An sRGB colour of three channels, each 0 to 255.
#[derive(Debug, Clone, Copy, PartialEq, Eq, Hash, Default)]
pub struct RgbColor {
    red: u8,
    green: u8,
    blue: u8,
}

impl RgbColor {
    /// The colour of these channels.
    pub fn new_8bpc(red: u8, green: u8, blue: u8) -> RgbColor
        ensures { channels result ≡ (red, green, blue) }
    {
        RgbColor { red, green, blue }
    }

    /// Red, green and blue.
    pub fn to_tuple_rgb8(self) -> (u8, u8, u8)
        ensures { result ≡ channels self }
    {
        (self.red, self.green, self.blue)
    }

    /// Red, green and blue, and an alpha of 255.
    pub fn to_tuple_rgba(self) -> SrgbaTuple
        ensures { result ≡ opaque self }
    {
        self.into()
    }

    /// Reads `#` and 3, 6, 9 or 12 hex digits, of which each channel's upper eight bits count (of one digit d these are
    /// d0h), or `rgb:` and three parts of 1 to 4 hex digits joined by `/`, each scaled to 0 to 255 (XParseColor).
    /// Letters may be capital or small. `None` for any other text.
    pub fn from_rgb_str(s: &str) -> Option<RgbColor>
        ensures { option_map channels result ≡ rgb_reading s.now }
    {
        let bytes = s.as_bytes();
        if bytes.starts_with(b"#") {
            return read_sharp(&bytes[1..]);
        }
        let rest = s.strip_prefix("rgb:")?;
        read_x11(rest)
    }

    /// `#` and two hex digits for each channel, in small letters.
    pub fn to_rgb_string(self, alloc: Global) -> Result<String, AllocError>
        ensures { IfOk result (λ s. string_bytes s ≡ rgb_text self) }
    {
        let (red, green, blue) = self.to_tuple_rgb8();
        format!(in alloc; "#{red:02x}{green:02x}{blue:02x}")
    }

    /// `rgb:` and four hex digits for each channel, which are its two digits twice, joined by `/`.
    pub fn to_x11_16bit_rgb_string(self, alloc: Global) -> Result<String, AllocError>
        ensures { IfOk result (λ s. string_bytes s ≡ x11_text self) }
    {
        let (red, green, blue) = self.to_tuple_rgb8();
        format!(in alloc; "rgb:{red:02x}{red:02x}/{green:02x}{green:02x}/{blue:02x}{blue:02x}")
    }
}

impl From<RgbColor> for SrgbaTuple {
    ghost from_gives = { λ color tuple. tuple ≡ opaque color };

    fn from(color: RgbColor) -> SrgbaTuple {
        SrgbaTuple(color.red, color.green, color.blue, 255)
    }
}

impl From<SrgbaTuple> for RgbColor {
    ghost from_gives = { λ tuple color. color ≡ without_alpha tuple };

    fn from(tuple: SrgbaTuple) -> RgbColor {
        let SrgbaTuple(red, green, blue, _) = tuple;
        RgbColor::new_8bpc(red, green, blue)
    }
}

/// An index into the palette of 256 colours.
pub type PaletteIndex = u8;

/// A colour without a fallback: the default, a palette index, or a true colour.
#[derive(Debug, Clone, Copy, PartialEq, Eq, Default)]
pub enum ColorSpec {
    #[default]
    Default,
    PaletteIndex(PaletteIndex),
    TrueColor(SrgbaTuple),
}

impl From<AnsiColor> for ColorSpec {
    ghost from_gives = { λ color spec. spec ≡ indexed (number_of color) };

    fn from(color: AnsiColor) -> ColorSpec {
        ColorSpec::PaletteIndex(color.into())
    }
}

impl From<RgbColor> for ColorSpec {
    ghost from_gives = { λ color spec. spec ≡ TrueColor (opaque color) };

    fn from(color: RgbColor) -> ColorSpec {
        ColorSpec::TrueColor(color.into())
    }
}

impl From<SrgbaTuple> for ColorSpec {
    ghost from_gives = { λ color spec. spec ≡ TrueColor color };

    fn from(color: SrgbaTuple) -> ColorSpec {
        ColorSpec::TrueColor(color)
    }
}

/// A colour of a cell. A true colour falls back to the default or to a palette index on a terminal without true colour.
#[derive(Debug, Clone, Copy, PartialEq, Eq, Hash, Default)]
pub enum ColorAttribute {
    #[default]
    Default,
    PaletteIndex(PaletteIndex),
    TrueColorWithDefaultFallback(SrgbaTuple),
    TrueColorWithPaletteFallback(SrgbaTuple, PaletteIndex),
}

impl From<AnsiColor> for ColorAttribute {
    ghost from_gives = { λ color attribute. attribute ≡ indexed_attribute (number_of color) };

    fn from(color: AnsiColor) -> ColorAttribute {
        ColorAttribute::PaletteIndex(color.into())
    }
}

impl From<ColorSpec> for ColorAttribute {
    ghost from_gives = { λ spec attribute. attribute ≡ attribute_of spec };

    fn from(spec: ColorSpec) -> ColorAttribute {
        match spec {
            ColorSpec::Default => ColorAttribute::Default,
            ColorSpec::PaletteIndex(index) => ColorAttribute::PaletteIndex(index),
            ColorSpec::TrueColor(color) => ColorAttribute::TrueColorWithDefaultFallback(color),
        }
    }
}
