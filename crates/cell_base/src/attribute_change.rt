//! A change of one attribute.
ghost use Rattle.std.specs.Prelude.{◌≡◌, true, IfOk, IsErr};
ghost use Rattle.cell_base.specs.Attributes.{Attributes};

use crate::attributes::{Blink, Intensity, Underline};
use crate::color::ColorAttribute;
use crate::hyperlink::Hyperlink;
use std::alloc::AllocError;
use std::rc::Rc;

/// A change of one attribute: each variant holds the argument of the setter of its name.
#[derive(Debug, Drop, PartialEq, Eq)]
pub enum AttributeChange {
    Intensity(Intensity),
    Underline(Underline),
    Italic(bool),
    Blink(Blink),
    Reverse(bool),
    StrikeThrough(bool),
    Invisible(bool),
    Foreground(ColorAttribute),
    Background(ColorAttribute),
    Hyperlink(Option<Rc<Hyperlink>>),
}

impl AttributeChange {
    ghost use Rattle.cell_base.specs.AttributeChange.{changed_by};
    ghost use Rattle.cell_base.specs.AttributeValue.{holds_link};
    ghost use Rattle.cell_base.specs.AttributeValueOf.{attribute_value};

    /// A copy that shares the link; it is refused only where there is one.
    pub fn try_clone(&self) -> Result<AttributeChange, AllocError>
        ensures effect { IfOk result
            (λ copy. (a : Attributes) → changed_by a copy ≡ changed_by a self.now) }
        ensures value { IfOk result (λ copy. attribute_value copy ≡ attribute_value self.now) }
        ensures refused { IsErr result → holds_link (attribute_value self.now) ≡ true }
    {
        Ok(match self {
            AttributeChange::Intensity(value) => AttributeChange::Intensity(*value),
            AttributeChange::Underline(value) => AttributeChange::Underline(*value),
            AttributeChange::Italic(value) => AttributeChange::Italic(*value),
            AttributeChange::Blink(value) => AttributeChange::Blink(*value),
            AttributeChange::Reverse(value) => AttributeChange::Reverse(*value),
            AttributeChange::StrikeThrough(value) => AttributeChange::StrikeThrough(*value),
            AttributeChange::Invisible(value) => AttributeChange::Invisible(*value),
            AttributeChange::Foreground(value) => AttributeChange::Foreground(*value),
            AttributeChange::Background(value) => AttributeChange::Background(*value),
            AttributeChange::Hyperlink(None) => AttributeChange::Hyperlink(None),
            AttributeChange::Hyperlink(Some(link)) => AttributeChange::Hyperlink(Some(
                link.clone()?,
            )),
        })
    }
}
