//! SGR: how characters look from now on.
ghost use Rattle.std.specs.Prelude.{Some};
ghost use Rattle.csi_codec.specs.Parameters.{spelled_text};
ghost use Rattle.csi_codec.specs.Rendition.{sgr_spelling};

use crate::spelling::write_parameters;
use cell_base::{Blink, ColorSpec, Intensity, Underline, VerticalAlign};
use std::fmt;

/// A font: the default one, or alternate 1 to 9.
#[derive(Clone, Copy, Debug, PartialEq, Eq)]
pub enum Font {
    Default,
    Alternate(u8),
}

/// One setting of how characters look (ECMA-48 8.3.117 SGR).
#[derive(Clone, Copy, Debug, PartialEq, Eq)]
pub enum Sgr {
    Reset,
    Intensity(Intensity),
    Underline(Underline),
    UnderlineColor(ColorSpec),
    Blink(Blink),
    Italic(bool),
    Inverse(bool),
    Invisible(bool),
    StrikeThrough(bool),
    Font(Font),
    Foreground(ColorSpec),
    Background(ColorSpec),
    Overline(bool),
    VerticalAlign(VerticalAlign),
}

impl fmt::Display for Sgr {
    ghost output = { λ sgr. Some (spelled_text (sgr_spelling sgr)) };

    fn fmt<W: fmt::Write>(&self, f: &mut fmt::Formatter<W>) -> fmt::Result {
        write_parameters(self, f)
    }
}
