//! Colours as a cell stores them.
ghost use Rattle.std.specs.Prelude.{◌≡◌};
ghost use Rattle.cell_base.specs.ColorBytes.{channels_of, color_with, index_of, kind_byte};

use crate::color::{ColorAttribute, PaletteIndex, SrgbaTuple};

// Which parts of a stored colour count: none, the index, the channels, or both.
#[derive(Debug, Clone, Copy)]
pub(crate) enum ColorKind {
    Unset,
    Indexed,
    Direct,
    DirectOrIndexed,
}

// A colour in six bytes. The bytes that its kind doesn't use are 0, so equal colours are equal bytes.
#[derive(Debug, Clone, Copy)]
pub(crate) struct StoredColor {
    pub(crate) kind: ColorKind,
    pub(crate) channels: SrgbaTuple,
    pub(crate) index: PaletteIndex,
    ghost channels_count: { channels_of (color_with kind channels index) ≡ channels },
    ghost index_counts: { index_of (color_with kind channels index) ≡ index },
}

impl StoredColor {
    ghost use Rattle.cell_base.specs.RenditionView.{color_of};

    pub(crate) fn new(color: ColorAttribute) -> StoredColor
        ensures { color_of result ≡ color }
    {
        let (kind, channels, index) = match color {
            ColorAttribute::Default => (ColorKind::Unset, NO_CHANNELS, 0),
            ColorAttribute::PaletteIndex(index) => (ColorKind::Indexed, NO_CHANNELS, index),
            ColorAttribute::TrueColorWithDefaultFallback(channels) => (
                ColorKind::Direct,
                channels,
                0,
            ),
            ColorAttribute::TrueColorWithPaletteFallback(channels, index) => {
                (ColorKind::DirectOrIndexed, channels, index)
            }
        };
        StoredColor {
            kind,
            channels,
            index,
        }
    }

    pub(crate) fn color(&self) -> ColorAttribute
        ensures { result ≡ color_of self.now }
    {
        match self.kind {
            ColorKind::Unset => ColorAttribute::Default,
            ColorKind::Indexed => ColorAttribute::PaletteIndex(self.index),
            ColorKind::Direct => ColorAttribute::TrueColorWithDefaultFallback(self.channels),
            ColorKind::DirectOrIndexed => {
                ColorAttribute::TrueColorWithPaletteFallback(self.channels, self.index)
            }
        }
    }

    pub(crate) fn kind_byte(&self) -> u8
        ensures { result ≡ kind_byte self.now.kind }
    {
        self.kind as u8
    }
}

const NO_CHANNELS: SrgbaTuple = SrgbaTuple(0, 0, 0, 0);
