//! Which control function an action asks for.
ghost use Rattle.std.specs.Prelude.{◌≡◌};
ghost use Rattle.csi_codec.specs.Sequences.{action_of};
ghost use Rattle.escape_osc.specs.CommandView.{command_of};
ghost use Rattle.escape_stream.specs.Controls.{control_number};
ghost use Rattle.escape_stream.specs.StreamActionView.{value_of};
ghost use Rattle.terminal_steps.specs.FunctionView.{table_functions};
ghost use Rattle.terminal_table.specs.Functions.{command_function, control_function, cursor_function, edit_function};
ghost use Rattle.terminal_table.specs.Functions.{escape_function, function_of, mode_function, sequence_function};

use crate::function::{ControlFunction, Move};
use csi_codec::{
    CSI, Cursor, DecPrivateMode, DecPrivateModeCode, Device, Edit, EraseInDisplay, EraseInLine,
    Esc, EscCode, Mode, Sgr,
};
use escape_osc::OperatingSystemCommand;
use escape_stream::{Action, ControlCode};

// Of a control character: BS, HT, LF, VT, FF and CR.
#[inline(always)]
fn of_control(code: ControlCode) -> Option<ControlFunction>
    ensures { table_functions result ≡ control_function (control_number code) }
{
    match code {
        ControlCode::Backspace => Some(ControlFunction::Moves(Move::Left(1))),
        ControlCode::HorizontalTab => Some(ControlFunction::Moves(Move::NextTab)),
        ControlCode::LineFeed | ControlCode::VerticalTab | ControlCode::FormFeed => {
            Some(ControlFunction::LineFeed)
        }
        ControlCode::CarriageReturn => Some(ControlFunction::CarriageReturn),
        _ => None,
    }
}

// Of an ESC pair: IND, NEL, RI, RIS, DECSC and DECRC.
#[inline(always)]
fn of_escape(code: EscCode) -> Option<ControlFunction>
    ensures { table_functions result ≡ escape_function code }
{
    match code {
        EscCode::Index => Some(ControlFunction::LineFeed),
        EscCode::NextLine => Some(ControlFunction::NextRow),
        EscCode::ReverseIndex => Some(ControlFunction::ReverseIndex),
        EscCode::FullReset => Some(ControlFunction::FullReset),
        EscCode::DecSaveCursorPosition => Some(ControlFunction::SaveCursor),
        EscCode::DecRestoreCursorPosition => Some(ControlFunction::RestoreCursor),
        _ => None,
    }
}

// Of a cursor sequence: CUU, CUD, CUB, CUF, VPB, VPR, HPB, HPR, CNL, CPL, CHA, HPA, VPA, CUP, HVP, SCOSC, SCORC and
// DSR 6.
#[inline(always)]
fn of_cursor(cursor: Cursor) -> Option<ControlFunction>
    ensures { table_functions result ≡ cursor_function cursor }
{
    let movement = match cursor {
        Cursor::Up(n) | Cursor::LinePositionBackward(n) => Move::Up(n),
        Cursor::Down(n) | Cursor::LinePositionForward(n) => Move::Down(n),
        Cursor::Left(n) | Cursor::CharacterPositionBackward(n) => Move::Left(n),
        Cursor::Right(n) | Cursor::CharacterPositionForward(n) => Move::Right(n),
        Cursor::NextLine(n) => Move::NextLine(n),
        Cursor::PrecedingLine(n) => Move::PrecedingLine(n),
        Cursor::CharacterAbsolute(column) | Cursor::CharacterPositionAbsolute(column) => {
            Move::ToColumn(column.as_one_based() as usize)
        }
        Cursor::LinePositionAbsolute(line) => Move::ToLine(line as usize),
        Cursor::Position { line, col } | Cursor::CharacterAndLinePosition { line, col } => {
            Move::ToPosition(line.as_one_based() as usize, col.as_one_based())
        }
        Cursor::SaveCursor => return Some(ControlFunction::SaveCursor),
        Cursor::RestoreCursor => return Some(ControlFunction::RestoreCursor),
        Cursor::RequestActivePositionReport => return Some(ControlFunction::ReportPosition),
        _ => return None,
    };
    Some(ControlFunction::Moves(movement))
}

// Of an edit: ED 0, ED 2, EL 0, EL 2, SU and SD.
#[inline(always)]
fn of_edit(edit: Edit) -> Option<ControlFunction>
    ensures { table_functions result ≡ edit_function edit }
{
    match edit {
        Edit::EraseInDisplay(EraseInDisplay::EraseToEndOfDisplay) => {
            Some(ControlFunction::EraseToEndOfDisplay)
        }
        Edit::EraseInDisplay(EraseInDisplay::EraseDisplay) => Some(ControlFunction::EraseDisplay),
        Edit::EraseInLine(EraseInLine::EraseToEndOfLine) => Some(ControlFunction::EraseToEndOfLine),
        Edit::EraseInLine(EraseInLine::EraseLine) => Some(ControlFunction::EraseLine),
        Edit::ScrollUp(n) => Some(ControlFunction::ScrollUp(n)),
        Edit::ScrollDown(n) => Some(ControlFunction::ScrollDown(n)),
        _ => None,
    }
}

// Of a mode: DECTCEM, set and reset.
#[inline(always)]
fn of_mode(mode: Mode) -> Option<ControlFunction>
    ensures { table_functions result ≡ mode_function mode }
{
    match mode {
        Mode::SetDecPrivateMode(DecPrivateMode::Code(DecPrivateModeCode::ShowCursor)) => {
            Some(ControlFunction::ShowCursor(true))
        }
        Mode::ResetDecPrivateMode(DecPrivateMode::Code(DecPrivateModeCode::ShowCursor)) => {
            Some(ControlFunction::ShowCursor(false))
        }
        _ => None,
    }
}

// Of a CSI sequence: SGR except fonts, DSR 5, and those above.
#[inline(always)]
fn of_sequence(sequence: CSI) -> Option<ControlFunction>
    ensures { table_functions result ≡ sequence_function (action_of sequence) }
{
    match sequence {
        CSI::Sgr(Sgr::Font(_)) => None,
        CSI::Sgr(value) => Some(ControlFunction::Rendition(value)),
        CSI::Cursor(cursor) => of_cursor(cursor),
        CSI::Edit(edit) => of_edit(edit),
        CSI::Mode(mode) => of_mode(mode),
        CSI::Device(device) => match *device {
            Device::StatusReport => Some(ControlFunction::ReportStatus),
            _ => None,
        },
        CSI::Unspecified(_) => None,
    }
}

// Of an operating system command: OSC 0, OSC 2 and OSC 8.
fn of_command(command: OperatingSystemCommand) -> Option<ControlFunction>
    ensures { table_functions result ≡ command_function (command_of command) }
{
    match command {
        OperatingSystemCommand::SetIconNameAndWindowTitle(text)
        | OperatingSystemCommand::SetWindowTitle(text) => Some(ControlFunction::Title(text)),
        OperatingSystemCommand::SetHyperlink(link) => Some(ControlFunction::Hyperlink(link)),
        _ => None,
    }
}

/// The control function that an action asks for; none for a print.
#[tactic(auto, unfolding(terminal_table::specs::Functions::function_of))]
#[inline(always)]
pub(crate) fn control_function_of(action: Action) -> Option<ControlFunction>
    ensures { table_functions result ≡ function_of (value_of action) }
{
    match action {
        Action::Control(code) => of_control(code),
        Action::Esc(Esc::Code(code)) => of_escape(code),
        Action::CSI(sequence) => of_sequence(sequence),
        Action::OperatingSystemCommand(command) => of_command(Box::into_inner(command)),
        _ => None,
    }
}
