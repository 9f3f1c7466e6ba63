//! Cells: a text of one cluster with its width and attributes.
ghost use Rattle.std.specs.Prelude.{◌≡◌, ◌≤◌, ◌↔◌, ◌==◌, ◌&&◌, true, false, not, None, [], ◌∷◌, encode_utf8};
ghost use Rattle.std.specs.Prelude.{IfOk, IsOk, OnOk, OnErr, IsTrue};
ghost use Rattle.std.specs.Borrow.{sem};
ghost use Rattle.cell_base.specs.Attributes.{plain};
ghost use Rattle.cell_base.specs.CellContent.{cell_of, blank_cell, shows_as_space};
ghost use Rattle.cell_base.specs.CellText.{cell_with, text_bytes};
ghost use Rattle.cell_base.specs.InlineText.{LiesInline};
ghost use Rattle.cell_base.specs.LawfulCell.{IsCell};
ghost use Rattle.text_clusters.specs.Plain.{is_printable};

use crate::cell_attributes::CellAttributes;
use crate::cell_text::{CellText, shows_as_space};
use crate::widths::Widths;
use std::alloc::{AllocError, Global};
use std::marker::Model;

/// A cell: a text, which is a space or one cluster, the one or two columns that it takes, and its
/// attributes. It holds a space of width 1 for the empty text, a single C0 control or DEL, and CR LF.
#[derive(Debug, Drop)]
pub struct Cell {
    text: CellText,
    attributes: CellAttributes,
}

impl Model for Cell {
    ghost use Rattle.cell_base.specs.CellContent.{CellContent};

    ghost Value = { CellContent };

    ghost use Rattle.cell_base.specs.CellView.{content_of};
    ghost use Rattle.cell_base.specs.LawfulCell.{IsCell};

    ghost view = { content_of };

    ghost invariant = { λ c. IsCell (content_of c) };
}

impl Cell {
    ghost use Rattle.cell_base.specs.CellLent.{LendsAttributes};

    /// The cell of a character, with the width that `w` gives its text. It takes no memory.
    pub fn new<W: Widths>(
        alloc: Global,
        text: char,
        attrs: CellAttributes,
        w: &W,
    ) -> Result<Cell, AllocError>
        ensures cell { IfOk result
            (λ c. c ≡ cell_of (encode_utf8 text) (W.width_of w.now (encode_utf8 text)) attrs) }
        ensures succeeds { IsOk result }
    {
        let mut buffer = [0u8; 4];
        let text: &str = text.encode_utf8(&mut buffer);
        Cell::new_grapheme(alloc, text, attrs, w)
    }

    /// The cell of a cluster, with the width that `w` gives it. One of at most 15 bytes takes no memory.
    pub fn new_grapheme<W: Widths>(
        alloc: Global,
        text: &str,
        attrs: CellAttributes,
        w: &W,
    ) -> Result<Cell, AllocError>
        ensures cell { IfOk result (λ c. c ≡ cell_of text.now (W.width_of w.now text.now) attrs) }
        ensures succeeds { LiesInline text.now → IsOk result }
    {
        let width = usize::from(w.width(text)).max(1);
        Cell::new_grapheme_with_width(alloc, text, width, attrs)
    }

    /// The cell of a cluster that takes `width` columns. One of at most 15 bytes takes no memory.
    pub fn new_grapheme_with_width(
        alloc: Global,
        text: &str,
        width: usize,
        attrs: CellAttributes,
    ) -> Result<Cell, AllocError>
        requires some { 1 ≤ width }
        requires most { width ≤ 2 }
        ensures cell { IfOk result (λ c. c ≡ cell_of text.now width attrs) }
        ensures succeeds { LiesInline text.now → IsOk result }
    {
        let text = CellText::new(alloc, text, is_wide(text, width))?;
        Ok(Cell {
            text,
            attributes: attrs,
        })
    }

    /// The cell of a printable ASCII character (20h to 7Eh), of one column.
    pub fn new_ascii(character: u8, attrs: CellAttributes) -> Cell
        requires { is_printable character ≡ true }
        ensures { result ≡ cell_of (character ∷ []) 1 attrs }
    {
        Cell {
            text: CellText::of_ascii(character),
            attributes: attrs,
        }
    }

    /// Becomes the cell of a printable ASCII character (20h to 7Eh), of one column. It is refused only where the
    /// attributes have a link, and stays as it was then.
    pub fn set_ascii(&mut self, character: u8, attrs: &CellAttributes) -> Result<(), AllocError>
        requires { is_printable character ≡ true }
        ensures done { OnOk result (self.new ≡ cell_of (character ∷ []) 1 attrs.now) }
        ensures succeeds { attrs.now.hyperlink ≡ None → IsOk result }
        ensures refused { OnErr result (self.new ≡ self.old) }
    {
        self.set(CellText::of_ascii(character), attrs)
    }

    /// Becomes the cell of a cluster of `width` columns, where 0 counts as 1; where this is refused, the
    /// cell stays as it was. It is not refused where the text has at most 15 bytes and the attributes no link.
    pub fn set_grapheme_with_width(
        &mut self,
        alloc: Global,
        text: &str,
        width: usize,
        attrs: &CellAttributes,
    ) -> Result<(), AllocError>
        requires { width ≤ 2 }
        ensures done { OnOk result (self.new ≡ cell_of text.now width attrs.now) }
        ensures refused { OnErr result (self.new ≡ self.old) }
        ensures succeeds { LiesInline text.now → attrs.now.hyperlink ≡ None → IsOk result }
    {
        let text = CellText::new(alloc, text, is_wide(text, width))?;
        self.set(text, attrs)
    }

    // Takes over a text, and a copy of attributes.
    fn set(&mut self, text: CellText, attrs: &CellAttributes) -> Result<(), AllocError>
        requires { shows_as_space (text_bytes text) ≡ false }
        ensures done { OnOk result (self.new ≡ cell_with text attrs.now) }
        ensures succeeds { attrs.now.hyperlink ≡ None → IsOk result }
        ensures refused { OnErr result (self.new ≡ self.old) }
    {
        self.attributes.copy_from(attrs)?;
        self.text = text;
        Ok(())
    }

    /// A space with plain attributes.
    pub fn blank() -> Cell
        ensures { result ≡ blank_cell plain }
    {
        Cell::blank_with_attrs(CellAttributes::blank())
    }

    /// A space with attributes.
    pub fn blank_with_attrs(attrs: CellAttributes) -> Cell
        ensures { result ≡ blank_cell attrs }
    {
        Cell {
            text: CellText::of_ascii(b' '),
            attributes: attrs,
        }
    }

    /// The text.
    pub fn str(&self) -> &str
        ensures { result.now ≡ self.now.text }
    {
        self.text.as_str()
    }

    /// The columns that the cell takes: 1 or 2. `lawful` is the invariant of every cell.
    pub fn width(&self) -> usize
        ensures value { result ≡ self.now.width }
        ensures some { 1 ≤ result }
        ensures most { result ≤ 2 }
        ensures lawful { IsCell self.now }
    {
        self.text.columns()
    }

    /// The attributes.
    pub fn attrs(&self) -> &CellAttributes
        ensures { result.now ≡ self.now.attributes }
    {
        &self.attributes
    }

    /// A mutable borrow of the attributes.
    pub fn attrs_mut(&mut self) -> &mut CellAttributes
        ensures* writes_back { sem 𝓛 (LendsAttributes self.entry result) }
        ensures value { result.now ≡ self.old.attributes }
    {
        &mut self.attributes
    }

    // Whether text, width and attributes are the same.
    fn is_same(&self, other: &Cell) -> bool
        ensures { IsTrue result ↔ (self.now ≡ other.now) }
    {
        self.str() == other.str()
            && self.width() == other.width()
            && self.attributes == other.attributes
    }

    /// A copy that shares the link. It is refused only where there is one, or where the text has more than 15 bytes.
    /// `lawful` is the invariant of every cell.
    pub fn try_clone(&self) -> Result<Cell, AllocError>
        ensures copy { IfOk result (λ copy. copy ≡ self.now) }
        ensures succeeds { LiesInline self.now.text → self.now.attributes.hyperlink ≡ None → IsOk result }
        ensures lawful { IsCell self.now }
    {
        Ok(Cell {
            text: self.text.try_clone()?,
            attributes: self.attributes.try_clone()?,
        })
    }
}

// Whether the cell of a cluster of `width` columns takes two.
#[inline(always)]
pub(crate) fn is_wide(text: &str, width: usize) -> bool
    ensures { result ≡ (width == 2 && not (shows_as_space text.now)) }
{
    width == 2 && !shows_as_space(text)
}

impl PartialEq for Cell {
    ghost use Rattle.std.specs.Prelude.{◌≡◌, ◌↔◌, IsTrue};
    ghost use Rattle.std.specs.Cmp.{partial_equiv_from_equiv};
    ghost use Rattle.cell_base.specs.SameCell.{same_cell, same_cell_equivalence};

    ghost eq = { same_cell };

    ghost laws = { partial_equiv_from_equiv same_cell_equivalence };

    fn eq(&self, other: &Cell) -> bool
        ensures same { result ≡ same_cell self.now other.now }
        ensures by_value { IsTrue result ↔ (self.now ≡ other.now) }
    {
        self.is_same(other)
    }
}

impl Eq for Cell {
    ghost use Rattle.cell_base.specs.SameCell.{same_cell_equivalence};

    ghost laws = { same_cell_equivalence };
}

impl Default for Cell {
    ghost use Rattle.std.specs.Prelude.{◌≡◌};
    ghost use Rattle.cell_base.specs.Attributes.{plain};
    ghost use Rattle.cell_base.specs.CellContent.{blank_cell};

    ghost is_default = { λ c. c ≡ blank_cell plain };

    fn default() -> Cell {
        Cell::blank()
    }
}
