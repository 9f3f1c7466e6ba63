//! A change of a screen.
ghost use Rattle.std.specs.Prelude.{◌≡◌, ◌↔◌, true, map, IfOk, IsTrue, string_bytes};
ghost use Rattle.screen_change.specs.ValueOf.{value_of};
ghost use Rattle.screen_change.specs.ChangeValue.{Attribute, LineAttribute, Text, is_text};

use cell_base::{
    AttributeChange, CellAttributes, ColorAttribute, CursorShape, CursorVisibility, LineAttribute,
    Position,
};
use std::alloc::{AllocError, Global};

/// A change of a screen. Columns and rows count from 0; the colour of a clear is the background of
/// the blanks that it leaves.
#[derive(Debug, Drop, PartialEq, Eq)]
pub enum Change {
    /// One attribute of the pen.
    Attribute(AttributeChange),
    /// All attributes of the pen.
    AllAttributes(CellAttributes),
    /// A text at the cursor, with the pen's attributes; CR and LF move the cursor.
    Text(String),
    /// The whole screen becomes blanks, the cursor goes home, and the pen becomes plain with that
    /// background.
    ClearScreen(ColorAttribute),
    /// The columns from the cursor to the end of its row become blanks, none where a wrap is pending,
    /// and the pen becomes plain with that background.
    ClearToEndOfLine(ColorAttribute),
    /// The columns from the cursor to the end of its row, none where a wrap is pending, and all rows
    /// below become blanks, and the pen becomes plain with that background.
    ClearToEndOfScreen(ColorAttribute),
    /// The cursor's position.
    CursorPosition {
        x: Position,
        y: Position,
    },
    /// The cursor's colour.
    CursorColor(ColorAttribute),
    /// The cursor's shape.
    CursorShape(CursorShape),
    /// Whether the cursor is shown.
    CursorVisibility(CursorVisibility),
    /// The size of the cursor's row.
    LineAttribute(LineAttribute),
    /// Rows of a region move up, and plain rows come below.
    ScrollRegionUp {
        /// The region's first row, counted from 0.
        first_row: usize,
        /// The number of rows of the region; rows below the screen's last row are ignored.
        region_size: usize,
        /// By how many rows they move, at most by all of them.
        scroll_count: usize,
    },
    /// Rows of a region move down, and plain rows come above.
    ScrollRegionDown {
        /// The region's first row, counted from 0.
        first_row: usize,
        /// The number of rows of the region; rows below the screen's last row are ignored.
        region_size: usize,
        /// By how many rows they move, at most by all of them.
        scroll_count: usize,
    },
    /// The title of the screen.
    Title(String),
}

impl Change {
    ghost use Rattle.screen_change.specs.ValueOf.{value_of};

    /// Whether the change is a text at the cursor.
    pub fn is_text(&self) -> bool
        ensures { result ≡ is_text (value_of self.now) }
    {
        matches!(self, Change::Text(_))
    }

    /// The text of a change that is one.
    pub fn text(&self) -> &str
        requires { is_text (value_of self.now) ≡ true }
        ensures { value_of self.now ≡ Text result.now }
    {
        match self {
            Change::Text(text) => text.as_str(),
            _ => unreachable!(),
        }
    }

    /// A copy that shares links.
    pub fn try_clone(&self) -> Result<Change, AllocError>
        ensures { IfOk result (λ copy. value_of copy ≡ value_of self.now) }
    {
        match self {
            Change::Attribute(change) => Ok(Change::Attribute(change.try_clone()?)),
            Change::AllAttributes(attributes) => Ok(Change::AllAttributes(attributes.try_clone()?)),
            Change::Text(text) => Ok(Change::Text(text.clone()?)),
            Change::ClearScreen(color) => Ok(Change::ClearScreen(*color)),
            Change::ClearToEndOfLine(color) => Ok(Change::ClearToEndOfLine(*color)),
            Change::ClearToEndOfScreen(color) => Ok(Change::ClearToEndOfScreen(*color)),
            Change::CursorPosition { x, y } => Ok(Change::CursorPosition { x: *x, y: *y }),
            Change::CursorColor(color) => Ok(Change::CursorColor(*color)),
            Change::CursorShape(shape) => Ok(Change::CursorShape(*shape)),
            Change::CursorVisibility(visibility) => Ok(Change::CursorVisibility(*visibility)),
            Change::LineAttribute(kind) => Ok(Change::LineAttribute(*kind)),
            Change::ScrollRegionUp {
                first_row,
                region_size,
                scroll_count,
            } => Ok(Change::ScrollRegionUp {
                first_row: *first_row,
                region_size: *region_size,
                scroll_count: *scroll_count,
            }),
            Change::ScrollRegionDown {
                first_row,
                region_size,
                scroll_count,
            } => Ok(Change::ScrollRegionDown {
                first_row: *first_row,
                region_size: *region_size,
                scroll_count: *scroll_count,
            }),
            Change::Title(text) => Ok(Change::Title(text.clone()?)),
        }
    }
}

impl From<String> for Change {
    ghost use Rattle.std.specs.Prelude.{◌≡◌, string_bytes};
    ghost use Rattle.screen_change.specs.ChangeValue.{Text};
    ghost use Rattle.screen_change.specs.ValueOf.{value_of};

    ghost from_gives = { λ text change. value_of change ≡ Text (string_bytes text) };

    fn from(text: String) -> Change {
        Change::Text(text)
    }
}

impl From<AttributeChange> for Change {
    ghost use Rattle.std.specs.Prelude.{◌≡◌};
    ghost use Rattle.screen_change.specs.ChangeValue.{Attribute};
    ghost use Rattle.cell_base.specs.AttributeValueOf.{attribute_value};
    ghost use Rattle.screen_change.specs.ValueOf.{value_of};

    ghost from_gives = { λ attribute change. value_of change ≡ Attribute (attribute_value attribute) };

    fn from(change: AttributeChange) -> Change {
        Change::Attribute(change)
    }
}

impl From<LineAttribute> for Change {
    ghost use Rattle.std.specs.Prelude.{◌≡◌};
    ghost use Rattle.screen_change.specs.ChangeValue.{LineAttribute};
    ghost use Rattle.screen_change.specs.ValueOf.{value_of};

    ghost from_gives = { λ kind change. value_of change ≡ LineAttribute kind };

    fn from(kind: LineAttribute) -> Change {
        Change::LineAttribute(kind)
    }
}

/// Copies of changes.
pub fn cloned_changes(alloc: Global, changes: &[Change]) -> Result<Vec<Change>, AllocError>
    ensures { IfOk result (λ copies. map value_of copies.items ≡ map value_of changes.now) }
{
    let mut copies = Vec::new(alloc);
    for change in changes {
        copies.push(change.try_clone()?)?;
    }
    Ok(copies)
}
