//! The attributes of a cell except its link.
ghost use Rattle.std.specs.Prelude.{◌≡◌, ◌↔◌, [], ◌∷◌, IsTrue};
ghost use Rattle.cell_base.specs.Attributes.{style_of};
ghost use Rattle.cell_base.specs.RenditionBytes.{align_byte, blink_byte, flag_byte, intensity_byte, semantic_byte};
ghost use Rattle.cell_base.specs.RenditionBytes.{rendition_bytes, underline_byte};

use crate::attributes::{Blink, Intensity, SemanticType, Underline, VerticalAlign};
use crate::color::ColorAttribute;
use crate::stored_color::StoredColor;

// The attributes that are on or off.
#[derive(Debug, Clone, Copy)]
pub(crate) struct Flags {
    pub(crate) italic: bool,
    pub(crate) reverse: bool,
    pub(crate) strikethrough: bool,
    pub(crate) invisible: bool,
    pub(crate) wrapped: bool,
    pub(crate) overline: bool,
}

// Intensity, underline and blink.
#[derive(Debug, Clone, Copy)]
pub(crate) struct Marks {
    pub(crate) intensity: Intensity,
    pub(crate) underline: Underline,
    pub(crate) blink: Blink,
}

// The attributes less colours and link.
#[derive(Debug, Clone, Copy)]
pub(crate) struct Style {
    pub(crate) marks: Marks,
    pub(crate) flags: Flags,
    pub(crate) semantic_type: SemanticType,
    pub(crate) vertical_align: VerticalAlign,
}

// The attributes less the link. They are copied and compared as one value of 32 bytes, which two moves copy.
#[derive(Debug, Clone, Copy)]
pub(crate) struct Rendition {
    pub(crate) style: Style,
    pub(crate) foreground: StoredColor,
    pub(crate) background: StoredColor,
    pub(crate) underline_color: StoredColor,
    pub(crate) padding: [u8; 3],
    ghost padded: { padding ≡ 0 ∷ 0 ∷ 0 ∷ [] },
}

impl Rendition {
    ghost use Rattle.cell_base.specs.RenditionView.{attributes_without_link};

    // Whether each attribute is the same.
    #[inline(always)]
    pub(crate) fn is_same(&self, other: &Rendition) -> bool
        ensures { IsTrue result ↔ (attributes_without_link self.now ≡ attributes_without_link other.now) }
    {
        self.bytes() == other.bytes()
    }

    // The attributes with no colour set.
    pub(crate) fn without_colors(&self) -> Rendition
        ensures { attributes_without_link result ≡ style_of (attributes_without_link self.now) }
    {
        let unset = StoredColor::new(ColorAttribute::Default);
        Rendition {
            style: self.style,
            foreground: unset,
            background: unset,
            underline_color: unset,
            padding: self.padding,
        }
    }

    // The bytes in the order in which they lie, so that they are read as a few words.
    fn bytes(&self) -> [u8; 32]
        ensures { result ≡ rendition_bytes (attributes_without_link self.now) }
    {
        let Style { marks, flags, .. } = &self.style;
        [
            intensity_byte(marks.intensity),
            underline_byte(marks.underline),
            blink_byte(marks.blink),
            flag_byte(flags.italic),
            flag_byte(flags.reverse),
            flag_byte(flags.strikethrough),
            flag_byte(flags.invisible),
            flag_byte(flags.wrapped),
            flag_byte(flags.overline),
            semantic_byte(self.style.semantic_type),
            align_byte(self.style.vertical_align),
            self.foreground.kind_byte(),
            self.foreground.channels.0,
            self.foreground.channels.1,
            self.foreground.channels.2,
            self.foreground.channels.3,
            self.foreground.index,
            self.background.kind_byte(),
            self.background.channels.0,
            self.background.channels.1,
            self.background.channels.2,
            self.background.channels.3,
            self.background.index,
            self.underline_color.kind_byte(),
            self.underline_color.channels.0,
            self.underline_color.channels.1,
            self.underline_color.channels.2,
            self.underline_color.channels.3,
            self.underline_color.index,
            self.padding[0],
            self.padding[1],
            self.padding[2],
        ]
    }
}

fn intensity_byte(intensity: Intensity) -> u8
    ensures { result ≡ intensity_byte intensity }
{
    intensity as u8
}

fn underline_byte(underline: Underline) -> u8
    ensures { result ≡ underline_byte underline }
{
    underline as u8
}

fn blink_byte(blink: Blink) -> u8
    ensures { result ≡ blink_byte blink }
{
    blink as u8
}

fn flag_byte(flag: bool) -> u8
    ensures { result ≡ flag_byte flag }
{
    flag as u8
}

fn semantic_byte(semantic_type: SemanticType) -> u8
    ensures { result ≡ semantic_byte semantic_type }
{
    semantic_type as u8
}

fn align_byte(align: VerticalAlign) -> u8
    ensures { result ≡ align_byte align }
{
    align as u8
}
