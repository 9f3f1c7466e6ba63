//! Sequences that erase, insert, delete, scroll and repeat.
ghost use Rattle.std.specs.Prelude.{◌≡◌, Some};
ghost use Rattle.csi_codec.specs.Edits.{
  erase_in_line_named,
  erase_in_line_number,
  erase_in_display_named,
  erase_in_display_number,
  edit_reading,
  edit_spelling,
};
ghost use Rattle.csi_codec.specs.Parameters.{spelled_text};

use crate::slots::{count, one_number};
use crate::sources::TokenSource;
use crate::spelling::{ControlSequence, put_count, put_extent, write_parameters};
use crate::text::SequenceText;
use std::fmt;

/// How much of its line EL erases (ECMA-48 8.3.41).
#[derive(Clone, Copy, Debug, PartialEq, Eq)]
pub enum EraseInLine {
    /// EL 0: from the cursor to the end of the line.
    EraseToEndOfLine = 0,
    /// EL 1: from the start of the line to the cursor.
    EraseToStartOfLine = 1,
    /// EL 2: the whole line.
    EraseLine = 2,
}

impl EraseInLine {
    /// The extent of this number (0 to 2), if there is one.
    pub fn from_i64(value: i64) -> Option<Self>
        ensures { result ≡ erase_in_line_named value }
    {
        match value {
            0 => Some(Self::EraseToEndOfLine),
            1 => Some(Self::EraseToStartOfLine),
            2 => Some(Self::EraseLine),
            _ => None,
        }
    }

    /// The number of this extent.
    pub fn to_u16(self) -> u16
        ensures { result ≡ erase_in_line_number self }
    {
        self as u16
    }
}

/// How much of the display ED erases (ECMA-48 8.3.39; 3 is xterm's).
#[derive(Clone, Copy, Debug, PartialEq, Eq)]
pub enum EraseInDisplay {
    /// ED 0: from the cursor to the end of the display.
    EraseToEndOfDisplay = 0,
    /// ED 1: from the start of the display to the cursor.
    EraseToStartOfDisplay = 1,
    /// ED 2: the whole display.
    EraseDisplay = 2,
    /// ED 3: the lines that have scrolled off the display.
    EraseScrollback = 3,
}

impl EraseInDisplay {
    /// The extent of this number (0 to 3), if there is one.
    pub fn from_i64(value: i64) -> Option<Self>
        ensures { result ≡ erase_in_display_named value }
    {
        match value {
            0 => Some(Self::EraseToEndOfDisplay),
            1 => Some(Self::EraseToStartOfDisplay),
            2 => Some(Self::EraseDisplay),
            3 => Some(Self::EraseScrollback),
            _ => None,
        }
    }

    /// The number of this extent.
    pub fn to_u16(self) -> u16
        ensures { result ≡ erase_in_display_number self }
    {
        self as u16
    }
}

/// An edit of what is shown. Counts are of characters, lines or rows.
#[derive(Clone, Copy, Debug, PartialEq, Eq)]
pub enum Edit {
    /// ICH (CSI @): inserts this many blank characters at the cursor.
    InsertCharacter(u32),
    /// DCH (CSI P): deletes this many characters from the cursor on.
    DeleteCharacter(u32),
    /// IL (CSI L): inserts this many blank lines at the cursor's line.
    InsertLine(u32),
    /// DL (CSI M): deletes this many lines from the cursor's line on.
    DeleteLine(u32),
    /// ECH (CSI X): erases this many characters from the cursor on.
    EraseCharacter(u32),
    /// SU (CSI S): scrolls up by this many rows.
    ScrollUp(u32),
    /// SD (CSI T): scrolls down by this many rows.
    ScrollDown(u32),
    /// REP (CSI b): repeats the preceding character this many times.
    Repeat(u32),
    /// ED (CSI J): erases part of the display, or all of it.
    EraseInDisplay(EraseInDisplay),
    /// EL (CSI K): erases part of the cursor's line, or all of it.
    EraseInLine(EraseInLine),
}

impl fmt::Display for Edit {
    ghost output = { λ edit. Some (spelled_text (edit_spelling edit)) };

    fn fmt<W: fmt::Write>(&self, f: &mut fmt::Formatter<W>) -> fmt::Result {
        write_parameters(self, f)
    }
}

impl ControlSequence for Edit {
    ghost spelling = { edit_spelling };

    #[tactic(auto, unfolding(crate::specs::Edits::edit_spelling))]
    #[inline(never)]
    fn put_text(&self, text: &mut SequenceText) {
        match *self {
            Edit::InsertCharacter(n) => put_count(n, b'@', text),
            Edit::DeleteCharacter(n) => put_count(n, b'P', text),
            Edit::InsertLine(n) => put_count(n, b'L', text),
            Edit::DeleteLine(n) => put_count(n, b'M', text),
            Edit::EraseCharacter(n) => put_count(n, b'X', text),
            Edit::ScrollUp(n) => put_count(n, b'S', text),
            Edit::ScrollDown(n) => put_count(n, b'T', text),
            Edit::Repeat(n) => put_count(n, b'b', text),
            Edit::EraseInDisplay(extent) => put_extent(extent.to_u16(), b'J', text),
            Edit::EraseInLine(extent) => put_extent(extent.to_u16(), b'K', text),
        }
    }
}

/// The edit that a whole list before a final byte encodes, if there is one.
#[tactic(auto, unfolding(crate::specs::Edits::edit_reading))]
#[inline(always)]
pub fn edit_reading<S: TokenSource>(params: S, control: char) -> Option<Edit>
    ensures { result ≡ edit_reading control (S.tokens params) }
{
    match control {
        '@' => Some(Edit::InsertCharacter(count(params)?)),
        'P' => Some(Edit::DeleteCharacter(count(params)?)),
        'L' => Some(Edit::InsertLine(count(params)?)),
        'M' => Some(Edit::DeleteLine(count(params)?)),
        'X' => Some(Edit::EraseCharacter(count(params)?)),
        'S' => Some(Edit::ScrollUp(count(params)?)),
        'T' => Some(Edit::ScrollDown(count(params)?)),
        'b' => Some(Edit::Repeat(count(params)?)),
        'J' => Some(Edit::EraseInDisplay(EraseInDisplay::from_i64(one_number(params)?)?)),
        'K' => Some(Edit::EraseInLine(EraseInLine::from_i64(one_number(params)?)?)),
        _ => None,
    }
}
