//! Moves of the cursor, with their numbers.
ghost use Rattle.std.specs.Prelude.{◌≡◌};
ghost use Rattle.terminal_render.specs.PositionsView.{move_cursor};

use crate::coordinate::Coordinate;
use csi_codec::{Cursor, OneBased};

/// A move of the cursor: to a line and a column, to one of them, or by a count.
#[derive(Clone, Copy)]
pub(crate) enum Move {
    To(Coordinate, Coordinate),
    ToColumn(Coordinate),
    ToLine(u32),
    Up(u32),
    Down(u32),
    Right(u32),
}

impl Move {
    /// The move's control sequence: CUP, CHA, VPA, CUU, CUD or CUF.
    pub(crate) fn cursor(self) -> Cursor
        ensures { result ≡ move_cursor self }
    {
        match self {
            Move::To(line, col) => Cursor::Position {
                line: OneBased::new(line.number),
                col: OneBased::new(col.number),
            },
            Move::ToColumn(col) => Cursor::CharacterAbsolute(OneBased::new(col.number)),
            Move::ToLine(line) => Cursor::LinePositionAbsolute(line),
            Move::Up(rows) => Cursor::Up(rows),
            Move::Down(rows) => Cursor::Down(rows),
            Move::Right(columns) => Cursor::Right(columns),
        }
    }
}
