//! The attributes of a cell.
ghost use Rattle.std.specs.Prelude.{◌≡◌, ◌↔◌, false, None, IfOk, IsOk, OnOk, OnErr, IsTrue};
ghost use Rattle.std.specs.Option.{option_map};
ghost use Rattle.cell_base.specs.Attributes.{plain, sgr_only, style_of};
ghost use Rattle.cell_base.specs.AttributeChange.{changed_by};
ghost use Rattle.cell_base.specs.declared.color.ColorAttribute.{ColorAttribute};

use crate::attribute_change::AttributeChange;
use crate::attributes::{Blink, Intensity, SemanticType, Underline, VerticalAlign};
use crate::color::ColorAttribute;
use crate::hyperlink::Hyperlink;
use crate::rendition::{Flags, Marks, Rendition, Style};
use crate::stored_color::StoredColor;
use std::alloc::AllocError;
use std::marker::Model;
use std::rc::Rc;

/// The attributes of a cell, compared by value, its link too.
#[derive(Debug, Drop)]
pub struct CellAttributes {
    rendition: Rendition,
    hyperlink: Option<Rc<Hyperlink>>,
}

impl Model for CellAttributes {
    ghost use Rattle.cell_base.specs.Attributes.{Attributes};

    ghost Value = { Attributes };

    ghost use Rattle.cell_base.specs.AttributesView.{attributes_of};

    ghost view = { attributes_of };
}

impl CellAttributes {
    /// Plain attributes: normal, no colour set, no link.
    pub fn blank() -> CellAttributes
        ensures { result ≡ plain }
    {
        CellAttributes {
            rendition: Rendition {
                style: Style {
                    marks: Marks {
                        intensity: Intensity::Normal,
                        underline: Underline::None,
                        blink: Blink::None,
                    },
                    flags: Flags {
                        italic: false,
                        reverse: false,
                        strikethrough: false,
                        invisible: false,
                        wrapped: false,
                        overline: false,
                    },
                    semantic_type: SemanticType::Output,
                    vertical_align: VerticalAlign::BaseLine,
                },
                foreground: StoredColor::new(ColorAttribute::Default),
                background: StoredColor::new(ColorAttribute::Default),
                underline_color: StoredColor::new(ColorAttribute::Default),
                padding: [0; 3],
            },
            hyperlink: None,
        }
    }

    /// How bold the text is.
    pub fn intensity(&self) -> Intensity
        ensures { result ≡ self.now.intensity }
    {
        self.rendition.style.marks.intensity
    }

    /// Sets how bold the text is, and returns `self`.
    pub fn set_intensity(&mut self, value: Intensity) -> &mut CellAttributes
        ensures chains { result.ghost_name ≡ self.entry.ghost_name }
        ensures set { result.now ≡ record self.old { intensity = value } }
    {
        self.rendition.style.marks.intensity = value;
        self
    }

    /// How the text is underlined.
    pub fn underline(&self) -> Underline
        ensures { result ≡ self.now.underline }
    {
        self.rendition.style.marks.underline
    }

    /// Sets how the text is underlined, and returns `self`.
    pub fn set_underline(&mut self, value: Underline) -> &mut CellAttributes
        ensures chains { result.ghost_name ≡ self.entry.ghost_name }
        ensures set { result.now ≡ record self.old { underline = value } }
    {
        self.rendition.style.marks.underline = value;
        self
    }

    /// How the text blinks.
    pub fn blink(&self) -> Blink
        ensures { result ≡ self.now.blink }
    {
        self.rendition.style.marks.blink
    }

    /// Sets how the text blinks, and returns `self`.
    pub fn set_blink(&mut self, value: Blink) -> &mut CellAttributes
        ensures chains { result.ghost_name ≡ self.entry.ghost_name }
        ensures set { result.now ≡ record self.old { blink = value } }
    {
        self.rendition.style.marks.blink = value;
        self
    }

    /// Whether the text is italic.
    pub fn italic(&self) -> bool
        ensures { result ≡ self.now.italic }
    {
        self.rendition.style.flags.italic
    }

    /// Sets whether the text is italic, and returns `self`.
    pub fn set_italic(&mut self, value: bool) -> &mut CellAttributes
        ensures chains { result.ghost_name ≡ self.entry.ghost_name }
        ensures set { result.now ≡ record self.old { italic = value } }
    {
        self.rendition.style.flags.italic = value;
        self
    }

    /// Whether foreground and background are swapped (reverse video).
    pub fn reverse(&self) -> bool
        ensures { result ≡ self.now.reverse }
    {
        self.rendition.style.flags.reverse
    }

    /// Sets whether foreground and background are swapped, and returns `self`.
    pub fn set_reverse(&mut self, value: bool) -> &mut CellAttributes
        ensures chains { result.ghost_name ≡ self.entry.ghost_name }
        ensures set { result.now ≡ record self.old { reverse = value } }
    {
        self.rendition.style.flags.reverse = value;
        self
    }

    /// Whether the text is struck through.
    pub fn strikethrough(&self) -> bool
        ensures { result ≡ self.now.strikethrough }
    {
        self.rendition.style.flags.strikethrough
    }

    /// Sets whether the text is struck through, and returns `self`.
    pub fn set_strikethrough(&mut self, value: bool) -> &mut CellAttributes
        ensures chains { result.ghost_name ≡ self.entry.ghost_name }
        ensures set { result.now ≡ record self.old { strikethrough = value } }
    {
        self.rendition.style.flags.strikethrough = value;
        self
    }

    /// Whether the text is hidden.
    pub fn invisible(&self) -> bool
        ensures { result ≡ self.now.invisible }
    {
        self.rendition.style.flags.invisible
    }

    /// Sets whether the text is hidden, and returns `self`.
    pub fn set_invisible(&mut self, value: bool) -> &mut CellAttributes
        ensures chains { result.ghost_name ≡ self.entry.ghost_name }
        ensures set { result.now ≡ record self.old { invisible = value } }
    {
        self.rendition.style.flags.invisible = value;
        self
    }

    /// Whether the line goes on in the next row after this cell.
    pub fn wrapped(&self) -> bool
        ensures { result ≡ self.now.wrapped }
    {
        self.rendition.style.flags.wrapped
    }

    /// Sets whether the line goes on in the next row after this cell, and returns `self`.
    pub fn set_wrapped(&mut self, value: bool) -> &mut CellAttributes
        ensures chains { result.ghost_name ≡ self.entry.ghost_name }
        ensures set { result.now ≡ record self.old { wrapped = value } }
    {
        self.rendition.style.flags.wrapped = value;
        self
    }

    /// Whether the text has a line above it.
    pub fn overline(&self) -> bool
        ensures { result ≡ self.now.overline }
    {
        self.rendition.style.flags.overline
    }

    /// Sets whether the text has a line above it, and returns `self`.
    pub fn set_overline(&mut self, value: bool) -> &mut CellAttributes
        ensures chains { result.ghost_name ≡ self.entry.ghost_name }
        ensures set { result.now ≡ record self.old { overline = value } }
    {
        self.rendition.style.flags.overline = value;
        self
    }

    /// The semantic type of the text: output, input or prompt.
    pub fn semantic_type(&self) -> SemanticType
        ensures { result ≡ self.now.semantic_type }
    {
        self.rendition.style.semantic_type
    }

    /// Sets the semantic type of the text, and returns `self`.
    pub fn set_semantic_type(&mut self, value: SemanticType) -> &mut CellAttributes
        ensures chains { result.ghost_name ≡ self.entry.ghost_name }
        ensures set { result.now ≡ record self.old { semantic_type = value } }
    {
        self.rendition.style.semantic_type = value;
        self
    }

    /// The vertical alignment of the text.
    pub fn vertical_align(&self) -> VerticalAlign
        ensures { result ≡ self.now.vertical_align }
    {
        self.rendition.style.vertical_align
    }

    /// Sets the vertical alignment of the text, and returns `self`.
    pub fn set_vertical_align(&mut self, value: VerticalAlign) -> &mut CellAttributes
        ensures chains { result.ghost_name ≡ self.entry.ghost_name }
        ensures set { result.now ≡ record self.old { vertical_align = value } }
    {
        self.rendition.style.vertical_align = value;
        self
    }

    /// The colour of the text.
    pub fn foreground(&self) -> ColorAttribute
        ensures { result ≡ self.now.foreground }
    {
        self.rendition.foreground.color()
    }

    /// Sets the colour of the text, and returns `self`.
    pub fn set_foreground<C: Into<ColorAttribute>>(&mut self, color: C) -> &mut CellAttributes
        ensures chains { result.ghost_name ≡ self.entry.ghost_name }
        ensures set { (c : ColorAttribute) × C.converts color c
            × (result.now ≡ record self.old { foreground = c }) }
    {
        self.rendition.foreground = StoredColor::new(color.into());
        self
    }

    /// The background colour.
    pub fn background(&self) -> ColorAttribute
        ensures { result ≡ self.now.background }
    {
        self.rendition.background.color()
    }

    /// Sets the background colour, and returns `self`.
    pub fn set_background<C: Into<ColorAttribute>>(&mut self, color: C) -> &mut CellAttributes
        ensures chains { result.ghost_name ≡ self.entry.ghost_name }
        ensures set { (c : ColorAttribute) × C.converts color c
            × (result.now ≡ record self.old { background = c }) }
    {
        self.rendition.background = StoredColor::new(color.into());
        self
    }

    /// The colour of the underline; `Default` is that of the text.
    pub fn underline_color(&self) -> ColorAttribute
        ensures { result ≡ self.now.underline_color }
    {
        self.rendition.underline_color.color()
    }

    /// Sets the colour of the underline, and returns `self`.
    pub fn set_underline_color<C: Into<ColorAttribute>>(&mut self, color: C) -> &mut CellAttributes
        ensures chains { result.ghost_name ≡ self.entry.ghost_name }
        ensures set { (c : ColorAttribute) × C.converts color c
            × (result.now ≡ record self.old { underline_color = c }) }
    {
        self.rendition.underline_color = StoredColor::new(color.into());
        self
    }

    /// The link, if the cell has one.
    pub fn hyperlink(&self) -> Option<&Rc<Hyperlink>>
        ensures { option_map (λ link. link.now.value) result ≡ self.now.hyperlink }
    {
        self.hyperlink.as_ref()
    }

    /// Sets or drops the link, and returns `self`.
    pub fn set_hyperlink(&mut self, link: Option<Rc<Hyperlink>>) -> &mut CellAttributes
        ensures chains { result.ghost_name ≡ self.entry.ghost_name }
        ensures set { result.now ≡ record self.old { hyperlink = option_map (λ l. l.value) link } }
    {
        self.hyperlink = link;
        self
    }

    /// Whether the attributes are equal, except colours and link.
    pub fn attribute_bits_equal(&self, other: &CellAttributes) -> bool
        ensures { IsTrue result ↔ (style_of self.now ≡ style_of other.now) }
    {
        self.rendition
            .without_colors()
            .is_same(&other.rendition.without_colors())
    }

    /// Makes the attributes plain.
    pub fn clear(&mut self)
        ensures { self.new ≡ plain }
    {
        *self = CellAttributes::blank();
    }

    /// A copy without semantic type, underline, overline, strikethrough and link: the attributes of
    /// a blank that fills an erased position.
    pub fn clone_sgr_only(&self) -> CellAttributes
        ensures { result ≡ sgr_only self.now }
    {
        let mut rendition = self.rendition;
        rendition.style.semantic_type = SemanticType::Output;
        rendition.style.marks.underline = Underline::None;
        rendition.style.flags.overline = false;
        rendition.style.flags.strikethrough = false;
        CellAttributes {
            rendition,
            hyperlink: None,
        }
    }

    /// Applies one change, and drops what it replaces.
    pub fn apply_change(&mut self, change: AttributeChange)
        ensures { self.new ≡ changed_by self.old change }
    {
        match change {
            AttributeChange::Intensity(value) => self.rendition.style.marks.intensity = value,
            AttributeChange::Underline(value) => self.rendition.style.marks.underline = value,
            AttributeChange::Italic(value) => self.rendition.style.flags.italic = value,
            AttributeChange::Blink(value) => self.rendition.style.marks.blink = value,
            AttributeChange::Reverse(value) => self.rendition.style.flags.reverse = value,
            AttributeChange::StrikeThrough(value) => self.rendition.style.flags.strikethrough =
                value,
            AttributeChange::Invisible(value) => self.rendition.style.flags.invisible = value,
            AttributeChange::Foreground(value) => self.rendition.foreground = StoredColor::new(
                value,
            ),
            AttributeChange::Background(value) => self.rendition.background = StoredColor::new(
                value,
            ),
            AttributeChange::Hyperlink(value) => self.hyperlink = value,
        }
    }

    // Whether each attribute is the same.
    fn is_same(&self, other: &CellAttributes) -> bool
        ensures { IsTrue result ↔ (self.now ≡ other.now) }
    {
        self.rendition.is_same(&other.rendition)
            && same_hyperlink(self.hyperlink(), other.hyperlink())
    }

    // Shares the link of other attributes, or drops its own where they have none.
    #[inline(always)]
    fn share_link(&mut self, other: &CellAttributes) -> Result<(), AllocError>
        ensures done { OnOk result (self.new ≡ record self.old { hyperlink = other.now.hyperlink }) }
        ensures succeeds { other.now.hyperlink ≡ None → IsOk result }
        ensures refused { OnErr result (self.new ≡ self.old) }
    {
        if self.hyperlink.is_none() && other.hyperlink.is_none() {
            return Ok(());
        }
        self.take_link(other)?;
        Ok(())
    }

    // Shares the link of other attributes, or drops its own, where one of both has a link.
    #[inline(never)]
    fn take_link(&mut self, other: &CellAttributes) -> Result<(), AllocError>
        ensures done { OnOk result (self.new ≡ record self.old { hyperlink = other.now.hyperlink }) }
        ensures succeeds { other.now.hyperlink ≡ None → IsOk result }
        ensures refused { OnErr result (self.new ≡ self.old) }
    {
        self.hyperlink = other.shared_link()?;
        Ok(())
    }

    // The link, shared.
    #[inline(always)]
    fn shared_link(&self) -> Result<Option<Rc<Hyperlink>>, AllocError>
        ensures shared { IfOk result (λ link. option_map (λ r. r.value) link ≡ self.now.hyperlink) }
        ensures succeeds { self.now.hyperlink ≡ None → IsOk result }
    {
        match &self.hyperlink {
            None => Ok(None),
            Some(link) => Ok(Some(link.clone()?)),
        }
    }

    /// Becomes a copy of `other` that shares its link. It is refused only where `other` has a link, and `self` stays as
    /// it was then.
    #[inline(always)]
    pub fn copy_from(&mut self, other: &CellAttributes) -> Result<(), AllocError>
        ensures done { OnOk result (self.new ≡ other.now) }
        ensures succeeds { other.now.hyperlink ≡ None → IsOk result }
        ensures refused { OnErr result (self.new ≡ self.old) }
    {
        self.share_link(other)?;
        self.rendition = other.rendition;
        Ok(())
    }

    /// A copy that shares the link; it is refused only where there is one.
    pub fn try_clone(&self) -> Result<CellAttributes, AllocError>
        ensures copy { IfOk result (λ copy. copy ≡ self.now) }
        ensures succeeds { self.now.hyperlink ≡ None → IsOk result }
    {
        let hyperlink = self.shared_link()?;
        Ok(CellAttributes {
            rendition: self.rendition,
            hyperlink,
        })
    }
}

impl PartialEq for CellAttributes {
    ghost use Rattle.std.specs.Prelude.{◌≡◌, ◌↔◌, IsTrue};
    ghost use Rattle.std.specs.Cmp.{partial_equiv_from_equiv};
    ghost use Rattle.cell_base.specs.SameAttributes.{same_attributes, same_attributes_equivalence};

    ghost eq = { same_attributes };

    ghost laws = { partial_equiv_from_equiv same_attributes_equivalence };

    fn eq(&self, other: &CellAttributes) -> bool
        ensures same { result ≡ same_attributes self.now other.now }
        ensures by_value { IsTrue result ↔ (self.now ≡ other.now) }
    {
        self.is_same(other)
    }
}

impl Eq for CellAttributes {
    ghost use Rattle.cell_base.specs.SameAttributes.{same_attributes_equivalence};

    ghost laws = { same_attributes_equivalence };
}

impl Default for CellAttributes {
    ghost use Rattle.std.specs.Prelude.{◌≡◌};
    ghost use Rattle.cell_base.specs.Attributes.{plain};

    ghost is_default = { λ a. a ≡ plain };

    fn default() -> CellAttributes {
        CellAttributes::blank()
    }
}

fn same_hyperlink(a: Option<&Rc<Hyperlink>>, b: Option<&Rc<Hyperlink>>) -> bool
    ensures { IsTrue result
        ↔ (option_map (λ l. l.now.value) a.entry ≡ option_map (λ l. l.now.value) b.entry) }
{
    match (a, b) {
        (None, None) => true,
        (Some(a), Some(b)) => **a == **b,
        _ => false,
    }
}
