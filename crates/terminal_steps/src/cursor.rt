//! The changes that set the cursor's position and the pen, and the one that erases to the end of a row. Each has a
//! type of its own, so that a surface adds it without a match on the kind of change.
ghost use Rattle.std.specs.Prelude.{◌≡◌};

use cell_base::{CellAttributes, ColorAttribute, Position};
use screen_change::Change;

/// A column and a row, counted from 0, to which the cursor goes.
#[derive(Clone, Copy)]
pub(crate) struct CellPosition {
    pub(crate) column: usize,
    pub(crate) row: usize,
}

impl From<CellPosition> for Change {
    ghost use Rattle.std.specs.Prelude.{◌≡◌};
    ghost use Rattle.screen_change.specs.ValueOf.{value_of};
    ghost use Rattle.terminal_steps.specs.Cursor.{position_change};

    ghost from_gives = { λ destination change. value_of change ≡ position_change destination };

    fn from(destination: CellPosition) -> Change {
        Change::CursorPosition {
            x: Position::Absolute(destination.column),
            y: Position::Absolute(destination.row),
        }
    }
}

/// All attributes of a pen.
#[derive(Drop)]
pub(crate) struct Pen {
    pub(crate) attributes: CellAttributes,
}

impl Pen {
    /// The pen's background.
    pub(crate) fn background(&self) -> ColorAttribute
        ensures { result ≡ self.now.attributes.background }
    {
        self.attributes.background()
    }

    /// The erasure to the end of the cursor's row that leaves blanks of the pen's background.
    pub(crate) fn line_end(&self) -> LineEnd
        ensures { result.background ≡ self.now.attributes.background }
    {
        LineEnd {
            background: self.background(),
        }
    }
}

impl From<Pen> for Change {
    ghost use Rattle.std.specs.Prelude.{◌≡◌};
    ghost use Rattle.screen_change.specs.ValueOf.{value_of};
    ghost use Rattle.terminal_steps.specs.Cursor.{pen_change};

    ghost from_gives = { λ pen change. value_of change ≡ pen_change pen };

    fn from(pen: Pen) -> Change {
        Change::AllAttributes(pen.attributes)
    }
}

/// The columns from the cursor to the end of its row become blanks of a colour.
#[derive(Clone, Copy)]
pub(crate) struct LineEnd {
    pub(crate) background: ColorAttribute,
}

impl From<LineEnd> for Change {
    ghost use Rattle.std.specs.Prelude.{◌≡◌};
    ghost use Rattle.screen_change.specs.ValueOf.{value_of};
    ghost use Rattle.terminal_steps.specs.Cursor.{line_end_change};

    ghost from_gives = { λ end change. value_of change ≡ line_end_change end };

    fn from(end: LineEnd) -> Change {
        Change::ClearToEndOfLine(end.background)
    }
}
