//! The text of a cell.
ghost use Rattle.std.specs.Prelude.{◌≡◌, ◌<◌, true, false, [], ◌∷◌, IfOk, IsOk, if◌then◌else◌};
ghost use Rattle.cell_base.specs.CellContent.{cell_text, shows_as_space};
ghost use Rattle.cell_base.specs.CellText.{columns_of, text_bytes};
ghost use Rattle.cell_base.specs.InlineText.{LiesInline};

use crate::inline_text::InlineText;
use crate::long_text::LongText;
use std::alloc::{AllocError, Global};

// A text and its columns. One of at most 15 bytes lies in the value itself, a longer one on the heap.
#[derive(Debug, Drop)]
pub(crate) enum CellText {
    Inline(InlineText),
    Long(LongText),
}

impl CellText {
    // The cell's text for `text`: a space where no cell holds it as it is.
    pub(crate) fn new(alloc: Global, text: &str, is_wide: bool) -> Result<CellText, AllocError>
        requires { is_wide ≡ true → shows_as_space text.now ≡ false }
        ensures text { IfOk result (λ t. text_bytes t ≡ cell_text text.now) }
        ensures columns { IfOk result (λ t. columns_of t ≡ (if is_wide then 2 else 1)) }
        ensures succeeds { LiesInline text.now → IsOk result }
    {
        if shows_as_space(text) {
            return Ok(CellText::of_ascii(b' '));
        }
        if text.len() <= 15 {
            return Ok(CellText::Inline(InlineText::new(text, is_wide)));
        }
        Ok(CellText::Long(LongText::new(alloc, text, is_wide)?))
    }

    // The text of one ASCII character of one column.
    pub(crate) fn of_ascii(byte: u8) -> CellText
        requires { byte < 128 }
        ensures text { text_bytes result ≡ byte ∷ [] }
        ensures columns { columns_of result ≡ 1 }
    {
        CellText::Inline(InlineText::of_ascii(byte))
    }

    // How many columns the text takes.
    pub(crate) fn columns(&self) -> usize
        ensures { result ≡ columns_of self.now }
    {
        let is_wide = match self {
            CellText::Inline(text) => text.is_wide,
            CellText::Long(text) => text.is_wide,
        };
        if is_wide { 2 } else { 1 }
    }

    pub(crate) fn as_str(&self) -> &str
        ensures { result.now ≡ text_bytes self.now }
    {
        match self {
            CellText::Inline(text) => text.as_str(),
            CellText::Long(text) => text.as_str(),
        }
    }

    pub(crate) fn try_clone(&self) -> Result<CellText, AllocError>
        ensures text { IfOk result (λ copy. text_bytes copy ≡ text_bytes self.now) }
        ensures columns { IfOk result (λ copy. columns_of copy ≡ columns_of self.now) }
        ensures succeeds { LiesInline (text_bytes self.now) → IsOk result }
    {
        Ok(match self {
            CellText::Inline(text) => CellText::Inline(*text),
            CellText::Long(text) => CellText::Long(text.try_clone()?),
        })
    }
}

// Whether the text is one that no cell holds as it is.
#[inline(always)]
pub(crate) fn shows_as_space(text: &str) -> bool
    ensures { result ≡ shows_as_space text.now }
{
    match text.as_bytes() {
        [] => true,
        [byte] => byte.is_ascii_control(),
        [first, second] => *first == b'\r' && *second == b'\n',
        _ => false,
    }
}
