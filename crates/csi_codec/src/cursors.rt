//! Sequences that move the cursor, set tab stops and margins, and report or save a position.
ghost use Rattle.std.specs.Prelude.{◌≡◌, Some, option_and_then};
ghost use Rattle.csi_codec.specs.Cursors.{
  cursor_style_named,
  cursor_style_number,
  tabulation_clear_named,
  tabulation_clear_number,
  tabulation_control_named,
  tabulation_control_number,
  cursor_reading,
  cursor_spelling,
  position_request,
  save_or_margins,
};
ghost use Rattle.csi_codec.specs.Parameters.{one_slot, sequence_text, slot_number, spelled_text};

use crate::one_based::OneBased;
use crate::parameters::CsiParam;
use crate::slots::{coordinate_pair, count, number_and_space, one_coordinate, one_number};
use crate::sources::TokenSource;
use crate::spelling::{
    ControlSequence, put_count, put_final, put_number, put_pair, write_parameters,
};
use crate::text::SequenceText;
use std::fmt;

/// The shape of the cursor, and whether it blinks (DECSCUSR of xterm's control sequences).
#[derive(Clone, Copy, Debug, PartialEq, Eq, Default)]
pub enum CursorStyle {
    #[default]
    Default = 0,
    BlinkingBlock = 1,
    SteadyBlock = 2,
    BlinkingUnderline = 3,
    SteadyUnderline = 4,
    BlinkingBar = 5,
    SteadyBar = 6,
}

impl CursorStyle {
    /// The style of this number (0 to 6), if there is one.
    pub fn from_i64(value: i64) -> Option<Self>
        ensures { result ≡ cursor_style_named value }
    {
        match value {
            0 => Some(Self::Default),
            1 => Some(Self::BlinkingBlock),
            2 => Some(Self::SteadyBlock),
            3 => Some(Self::BlinkingUnderline),
            4 => Some(Self::SteadyUnderline),
            5 => Some(Self::BlinkingBar),
            6 => Some(Self::SteadyBar),
            _ => None,
        }
    }

    /// The number of this style.
    pub fn to_u16(self) -> u16
        ensures { result ≡ cursor_style_number self }
    {
        self as u16
    }
}

/// Which tab stops TBC clears (ECMA-48 8.3.154).
#[derive(Clone, Copy, Debug, PartialEq, Eq)]
pub enum TabulationClear {
    ClearCharacterTabStopAtActivePosition = 0,
    ClearLineTabStopAtActiveLine = 1,
    ClearCharacterTabStopsAtActiveLine = 2,
    ClearAllCharacterTabStops = 3,
    ClearAllLineTabStops = 4,
    ClearAllTabStops = 5,
}

impl TabulationClear {
    /// The extent of this number (0 to 5), if there is one.
    pub fn from_i64(value: i64) -> Option<Self>
        ensures { result ≡ tabulation_clear_named value }
    {
        match value {
            0 => Some(Self::ClearCharacterTabStopAtActivePosition),
            1 => Some(Self::ClearLineTabStopAtActiveLine),
            2 => Some(Self::ClearCharacterTabStopsAtActiveLine),
            3 => Some(Self::ClearAllCharacterTabStops),
            4 => Some(Self::ClearAllLineTabStops),
            5 => Some(Self::ClearAllTabStops),
            _ => None,
        }
    }

    /// The number of this extent.
    pub fn to_u16(self) -> u16
        ensures { result ≡ tabulation_clear_number self }
    {
        self as u16
    }
}

/// What CTC does to tab stops (ECMA-48 8.3.17).
#[derive(Clone, Copy, Debug, PartialEq, Eq)]
pub enum CursorTabulationControl {
    SetCharacterTabStopAtActivePosition = 0,
    SetLineTabStopAtActiveLine = 1,
    ClearCharacterTabStopAtActivePosition = 2,
    ClearLineTabstopAtActiveLine = 3,
    ClearAllCharacterTabStopsAtActiveLine = 4,
    ClearAllCharacterTabStops = 5,
    ClearAllLineTabStops = 6,
}

impl CursorTabulationControl {
    /// The control of this number (0 to 6), if there is one.
    pub fn from_i64(value: i64) -> Option<Self>
        ensures { result ≡ tabulation_control_named value }
    {
        match value {
            0 => Some(Self::SetCharacterTabStopAtActivePosition),
            1 => Some(Self::SetLineTabStopAtActiveLine),
            2 => Some(Self::ClearCharacterTabStopAtActivePosition),
            3 => Some(Self::ClearLineTabstopAtActiveLine),
            4 => Some(Self::ClearAllCharacterTabStopsAtActiveLine),
            5 => Some(Self::ClearAllCharacterTabStops),
            6 => Some(Self::ClearAllLineTabStops),
            _ => None,
        }
    }

    /// The number of this control.
    pub fn to_u16(self) -> u16
        ensures { result ≡ tabulation_control_number self }
    {
        self as u16
    }
}

/// A cursor sequence, with ECMA-48's or xterm's mnemonic. A count that is read is at least 1; positions count from 1.
#[derive(Clone, Copy, Debug, PartialEq, Eq)]
pub enum Cursor {
    /// CUU (CSI A): moves the cursor up by this many rows.
    Up(u32),
    /// CUD (CSI B): moves the cursor down by this many rows.
    Down(u32),
    /// CUF (CSI C): moves the cursor right by this many columns.
    Right(u32),
    /// CUB (CSI D): moves the cursor left by this many columns.
    Left(u32),
    /// CNL (CSI E): moves the cursor to the first column, this many rows down.
    NextLine(u32),
    /// CPL (CSI F): moves the cursor to the first column, this many rows up.
    PrecedingLine(u32),
    /// CHA (CSI G): moves the cursor to this column.
    CharacterAbsolute(OneBased),
    /// HPA (CSI and a backquote): moves the cursor to this column.
    CharacterPositionAbsolute(OneBased),
    /// VPA (CSI d): moves the cursor to this line.
    LinePositionAbsolute(u32),
    /// HPR (CSI a): moves the cursor right by this many columns.
    CharacterPositionForward(u32),
    /// HPB (CSI j): moves the cursor left by this many columns.
    CharacterPositionBackward(u32),
    /// VPR (CSI e): moves the cursor down by this many rows.
    LinePositionForward(u32),
    /// VPB (CSI k): moves the cursor up by this many rows.
    LinePositionBackward(u32),
    /// CUP (CSI H): moves the cursor to this line and column.
    Position { line: OneBased, col: OneBased },
    /// HVP (CSI f): moves the cursor to this line and column.
    CharacterAndLinePosition { line: OneBased, col: OneBased },
    /// CPR (CSI R): reports the cursor's line and column.
    ActivePositionReport { line: OneBased, col: OneBased },
    /// CHT (CSI I): moves the cursor forward by this many tab stops.
    ForwardTabulation(u32),
    /// CBT (CSI Z): moves the cursor backward by this many tab stops.
    BackwardTabulation(u32),
    /// CVT (CSI Y): moves the cursor down by this many line tab stops.
    LineTabulation(u32),
    /// TBC (CSI g): clears tab stops.
    TabulationClear(TabulationClear),
    /// CTC (CSI W): sets or clears tab stops.
    TabulationControl(CursorTabulationControl),
    /// DECSTBM (CSI r): sets the top and the bottom margin.
    SetTopAndBottomMargins { top: OneBased, bottom: OneBased },
    /// DECSLRM (CSI s with parameters): sets the left and the right margin.
    SetLeftAndRightMargins { left: OneBased, right: OneBased },
    /// SCOSC (CSI s without parameters): saves the cursor.
    SaveCursor,
    /// SCORC (CSI u): restores the saved cursor.
    RestoreCursor,
    /// DSR 6 (CSI 6 n): requests a report of the cursor's position.
    RequestActivePositionReport,
    /// DECSCUSR (CSI SP q): sets the shape of the cursor.
    CursorStyle(CursorStyle),
}

impl fmt::Display for Cursor {
    ghost output = { λ cursor. Some (spelled_text (cursor_spelling cursor)) };

    fn fmt<W: fmt::Write>(&self, f: &mut fmt::Formatter<W>) -> fmt::Result {
        write_parameters(self, f)
    }
}

impl ControlSequence for Cursor {
    ghost spelling = { cursor_spelling };

    #[tactic(auto, unfolding(crate::specs::Cursors::cursor_spelling))]
    #[inline(never)]
    fn put_text(&self, text: &mut SequenceText) {
        match *self {
            Cursor::Up(n) => put_count(n, b'A', text),
            Cursor::Down(n) => put_count(n, b'B', text),
            Cursor::Right(n) => put_count(n, b'C', text),
            Cursor::Left(n) => put_count(n, b'D', text),
            Cursor::NextLine(n) => put_count(n, b'E', text),
            Cursor::PrecedingLine(n) => put_count(n, b'F', text),
            Cursor::CharacterAbsolute(n) => put_number(n.as_one_based(), b'G', text),
            Cursor::CharacterPositionAbsolute(n) => put_number(n.as_one_based(), b'`', text),
            Cursor::LinePositionAbsolute(n) => put_number(n, b'd', text),
            Cursor::CharacterPositionForward(n) => put_count(n, b'a', text),
            Cursor::CharacterPositionBackward(n) => put_count(n, b'j', text),
            Cursor::LinePositionForward(n) => put_count(n, b'e', text),
            Cursor::LinePositionBackward(n) => put_count(n, b'k', text),
            Cursor::Position { line, col } => put_pair(line, col, b'H', text),
            Cursor::CharacterAndLinePosition { line, col } => put_pair(line, col, b'f', text),
            Cursor::ActivePositionReport { line, col } => put_pair(line, col, b'R', text),
            Cursor::ForwardTabulation(n) => put_count(n, b'I', text),
            Cursor::BackwardTabulation(n) => put_count(n, b'Z', text),
            Cursor::LineTabulation(n) => put_count(n, b'Y', text),
            Cursor::TabulationClear(known) => put_number(u32::from(known.to_u16()), b'g', text),
            Cursor::TabulationControl(known) => put_number(u32::from(known.to_u16()), b'W', text),
            Cursor::SetTopAndBottomMargins { top, bottom } => put_pair(top, bottom, b'r', text),
            Cursor::SetLeftAndRightMargins { left, right } => put_pair(left, right, b's', text),
            Cursor::SaveCursor => put_final(b's', text),
            Cursor::RestoreCursor => put_final(b'u', text),
            Cursor::RequestActivePositionReport => put_number(6, b'n', text),
            Cursor::CursorStyle(style) => put_style(style, text),
        }
    }
}

/// Sets `text` to DECSCUSR: `ESC [`, the number of the style, a space and `q`.
#[tactic(auto, unfolding(crate::specs::Cursors::cursor_spelling))]
fn put_style(style: CursorStyle, text: &mut SequenceText)
    ensures { text.new ≡ sequence_text (cursor_spelling (Cursor.CursorStyle style)) }
{
    let mut built = SequenceText::opened();
    built.push_number(style.to_u16() as u32);
    built.push_sign(b' ');
    built.push_sign(b'q');
    *text = built;
}

/// The cursor sequence that a whole list before a final byte encodes, if there is one.
#[tactic(auto, unfolding(crate::specs::Cursors::cursor_reading))]
#[inline(always)]
pub fn cursor_reading<S: TokenSource>(params: S, control: char) -> Option<Cursor>
    ensures { result ≡ cursor_reading control (S.tokens params) }
{
    match control {
        'A' => Some(Cursor::Up(count(params)?)),
        'B' => Some(Cursor::Down(count(params)?)),
        'C' => Some(Cursor::Right(count(params)?)),
        'D' => Some(Cursor::Left(count(params)?)),
        'E' => Some(Cursor::NextLine(count(params)?)),
        'F' => Some(Cursor::PrecedingLine(count(params)?)),
        'G' => Some(Cursor::CharacterAbsolute(one_coordinate(params)?)),
        '`' => Some(Cursor::CharacterPositionAbsolute(one_coordinate(params)?)),
        'd' => Some(Cursor::LinePositionAbsolute(count(params)?)),
        'a' => Some(Cursor::CharacterPositionForward(count(params)?)),
        'j' => Some(Cursor::CharacterPositionBackward(count(params)?)),
        'e' => Some(Cursor::LinePositionForward(count(params)?)),
        'k' => Some(Cursor::LinePositionBackward(count(params)?)),
        'H' => coordinate_pair(1, params).map(|(line, col)| Cursor::Position { line, col }),
        'f' => coordinate_pair(1, params).map(|(line, col)| Cursor::CharacterAndLinePosition {
            line,
            col,
        }),
        'R' => coordinate_pair(1, params).map(|(line, col)| Cursor::ActivePositionReport {
            line,
            col,
        }),
        'I' => Some(Cursor::ForwardTabulation(count(params)?)),
        'Z' => Some(Cursor::BackwardTabulation(count(params)?)),
        'Y' => Some(Cursor::LineTabulation(count(params)?)),
        'g' => Some(Cursor::TabulationClear(TabulationClear::from_i64(one_number(params)?)?)),
        'W' => Some(Cursor::TabulationControl(tabulation_control(params)?)),
        'r' => coordinate_pair(u32::MAX, params).map(|(
            top,
            bottom,
        )| Cursor::SetTopAndBottomMargins { top, bottom }),
        's' => save_or_margins(params),
        'u' if params.split().is_none() => Some(Cursor::RestoreCursor),
        'n' => position_request(params),
        'q' => Some(Cursor::CursorStyle(CursorStyle::from_i64(number_and_space(params)?)?)),
        _ => None,
    }
}

fn tabulation_control<S: TokenSource>(params: S) -> Option<CursorTabulationControl>
    ensures { result
        ≡ option_and_then (λ slot. tabulation_control_named (slot_number slot)) (one_slot (S.tokens params)) }
{
    CursorTabulationControl::from_i64(one_number(params)?)
}

fn save_or_margins<S: TokenSource>(params: S) -> Option<Cursor>
    ensures { result ≡ save_or_margins (S.tokens params) }
{
    if params.split().is_none() {
        return Some(Cursor::SaveCursor);
    }
    let (left, right) = coordinate_pair(u32::MAX, params)?;
    Some(Cursor::SetLeftAndRightMargins { left, right })
}

fn position_request<S: TokenSource>(params: S) -> Option<Cursor>
    ensures { result ≡ position_request (S.tokens params) }
{
    match params.split()? {
        (CsiParam::Integer(6), rest) if rest.split().is_none() => {
            Some(Cursor::RequestActivePositionReport)
        }
        _ => None,
    }
}
