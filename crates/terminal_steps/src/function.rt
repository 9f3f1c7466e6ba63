//! The control functions of a terminal, with their mnemonics.
ghost use Rattle.std.specs.Prelude.{◌≡◌};
ghost use Rattle.terminal_steps.specs.FunctionView.{table_function};
ghost use Rattle.terminal_steps.specs.Memory.{copies, copies_pen};

use cell_base::Hyperlink;
use csi_codec::Sgr;
use std::rc::Rc;

/// Where a move of the cursor leads. Line and column numbers count from 1.
#[derive(Clone, Copy)]
pub(crate) enum Move {
    /// CUU (CSI A), VPB (CSI k): moves the cursor up by this many rows.
    Up(u32),
    /// CUD (CSI B), VPR (CSI e): moves the cursor down by this many rows.
    Down(u32),
    /// CUB (CSI D), HPB (CSI j), and BS by 1: moves the cursor left by this many columns.
    Left(u32),
    /// CUF (CSI C), HPR (CSI a): moves the cursor right by this many columns.
    Right(u32),
    /// HT: moves the cursor to the next column, counted from 0, that 8 divides.
    NextTab,
    /// CNL (CSI E): moves the cursor to the first column of the row that is this many rows below.
    NextLine(u32),
    /// CPL (CSI F): moves the cursor to the first column of the row that is this many rows above.
    PrecedingLine(u32),
    /// CHA (CSI G), HPA (CSI and a backquote): moves the cursor to a column.
    ToColumn(usize),
    /// VPA (CSI d): moves the cursor to a line.
    ToLine(usize),
    /// CUP (CSI H), HVP (CSI f): moves the cursor to a line and a column.
    ToPosition(usize, u32),
}

/// A control function, with its counts, texts and other parameters.
#[derive(Drop)]
pub(crate) enum ControlFunction {
    /// CUU, CUD, CUB, CUF, CNL, CPL, CHA, HPA, VPA, CUP, HVP, HPB, HPR, VPB, VPR, BS and HT: moves the cursor.
    Moves(Move),
    /// LF, VT, FF, IND (ESC D): moves the cursor to the next row; at the last row all rows move up by one.
    LineFeed,
    /// CR: moves the cursor to the first column of its row.
    CarriageReturn,
    /// NEL (ESC E): CR and LF.
    NextRow,
    /// RI (ESC M): moves the cursor to the row above; at the first row all rows move down by one.
    ReverseIndex,
    /// ED 0 (CSI J): erases from the cursor to the end of the screen.
    EraseToEndOfDisplay,
    /// ED 2 (CSI 2 J): erases the whole screen.
    EraseDisplay,
    /// EL 0 (CSI K): erases from the cursor to the end of its row.
    EraseToEndOfLine,
    /// EL 2 (CSI 2 K): erases the cursor's row.
    EraseLine,
    /// SU (CSI S): moves all rows up by this many rows.
    ScrollUp(u32),
    /// SD (CSI T): moves all rows down by this many rows.
    ScrollDown(u32),
    /// SGR (CSI m): sets attributes of the pen.
    Rendition(Sgr),
    /// OSC 8: sets the pen's link; `None` removes it.
    Hyperlink(Option<Rc<Hyperlink>>),
    /// OSC 0, OSC 2: sets the title.
    Title(String),
    /// DECTCEM (CSI ? 25 h, CSI ? 25 l): shows or hides the cursor.
    ShowCursor(bool),
    /// DECSC (ESC 7), SCOSC (CSI s): saves the cursor's position and the pen.
    SaveCursor,
    /// DECRC (ESC 8), SCORC (CSI u): restores the saved position and pen.
    RestoreCursor,
    /// RIS (ESC c): makes the screen a new one, which keeps its title, and drops the saved cursor.
    FullReset,
    /// DSR 5 (CSI 5 n): replies that the terminal is ready.
    ReportStatus,
    /// DSR 6 (CSI 6 n): replies with CPR, the cursor's line and column.
    ReportPosition,
}

impl ControlFunction {
    /// Whether a text or a pen is copied for its changes.
    pub(crate) fn copies(&self) -> bool
        ensures { result ≡ copies (table_function self.now) }
    {
        match self {
            ControlFunction::LineFeed
            | ControlFunction::CarriageReturn
            | ControlFunction::NextRow
            | ControlFunction::EraseToEndOfDisplay
            | ControlFunction::EraseDisplay
            | ControlFunction::EraseToEndOfLine
            | ControlFunction::EraseLine
            | ControlFunction::RestoreCursor => true,
            ControlFunction::Rendition(value) => copies_pen(value),
            _ => false,
        }
    }
}

// Whether SGR sets the pen as a whole, from a copy.
fn copies_pen(value: &Sgr) -> bool
    ensures { result ≡ copies_pen value.now }
{
    matches!(
        value,
        Sgr::Reset | Sgr::UnderlineColor(_) | Sgr::Overline(_) | Sgr::VerticalAlign(_)
    )
}
