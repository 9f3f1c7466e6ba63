//! Replies to the application.
ghost use Rattle.std.specs.Prelude.{◌≡◌, ◌++◌, ◌+◌, IfOk, decimal, OnOk};
ghost use Rattle.cell_surface.specs.Surface.{shown_by};
ghost use Rattle.terminal_steps.specs.FunctionView.{reply_text};
ghost use Rattle.terminal_table.specs.OtherRequests.{
  extended_position_text,
  mode_report,
  private_report,
  state_digit,
};
ghost use Rattle.terminal_table.specs.Steps.{position_reply, position_text, status_reply};

use crate::cursor_moves::current_column;
use cell_base::Widths;
use cell_surface::Surface;
use std::alloc::AllocError;

/// A reply of the profile xterm.
#[derive(Clone, Copy)]
pub(crate) enum Reply {
    /// CPR (CSI R): the line and the column of a row and a column, which count from 0.
    Position(usize, usize),
    /// DECXCPR (CSI ? R): likewise.
    ExtendedPosition(usize, usize),
    /// To DA (CSI c) and DECID (ESC Z): a VT220 with colours.
    PrimaryAttributes,
    /// To the secondary DA (CSI > c): a VT220 of the version 100.
    SecondaryAttributes,
    /// DECRPM (CSI $ y): whether a mode of the standard is set; none, where the terminal hasn't it.
    Mode(u16, Option<bool>),
    /// DECRPM (CSI ? $ y): whether a private mode is set.
    PrivateMode(u16, Option<bool>),
}

/// The reply to DSR 5 (CSI 5 n): CSI 0 n, the terminal is ready.
pub(crate) fn report_status(replies: &mut Vec<u8>) -> Result<(), AllocError>
    ensures { OnOk result (replies.new.items ≡ replies.old.items ++ status_reply) }
{
    replies.extend_from_slice(b"\x1b[0n")
}

// CPR (CSI R): the line and the column of a row and a column, which count from 0.
fn report(row: usize, column: usize, replies: &mut Vec<u8>) -> Result<(), AllocError>
    ensures { OnOk result (replies.new.items ≡ replies.old.items ++ position_text row column) }
{
    let line = row as u128 + 1;
    let column = column as u128 + 1;
    let text = format!(in *replies.allocator(); "\x1b[{line};{column}R")?;
    replies.extend_from_slice(text.as_bytes())
}

// DECXCPR (CSI ? R): likewise.
fn report_extended(row: usize, column: usize, replies: &mut Vec<u8>) -> Result<(), AllocError>
    ensures { OnOk result (replies.new.items ≡ replies.old.items ++ extended_position_text row column) }
{
    let line = row as u128 + 1;
    let column = column as u128 + 1;
    let text = format!(in *replies.allocator(); "\x1b[?{line};{column}R")?;
    replies.extend_from_slice(text.as_bytes())
}

// Whether a mode is set, as DECRPM has it.
fn state_digit(state: Option<bool>) -> char
    ensures { result ≡ state_digit state }
{
    match state {
        None => '0',
        Some(true) => '1',
        Some(false) => '2',
    }
}

// DECRPM (CSI $ y).
fn report_mode(number: u16, state: Option<bool>, replies: &mut Vec<u8>) -> Result<(), AllocError>
    ensures { OnOk result (replies.new.items ≡ replies.old.items ++ mode_report number state) }
{
    let digit = state_digit(state);
    let text = format!(in *replies.allocator(); "\x1b[{number};{digit}$y")?;
    replies.extend_from_slice(text.as_bytes())
}

// DECRPM (CSI ? $ y).
fn report_private(number: u16, state: Option<bool>, replies: &mut Vec<u8>) -> Result<(), AllocError>
    ensures { OnOk result (replies.new.items ≡ replies.old.items ++ private_report number state) }
{
    let digit = state_digit(state);
    let text = format!(in *replies.allocator(); "\x1b[?{number};{digit}$y")?;
    replies.extend_from_slice(text.as_bytes())
}

/// Appends a reply.
pub(crate) fn send(reply: Reply, replies: &mut Vec<u8>) -> Result<(), AllocError>
    ensures { OnOk result (replies.new.items ≡ replies.old.items ++ reply_text reply) }
{
    match reply {
        Reply::Position(row, column) => report(row, column, replies),
        Reply::ExtendedPosition(row, column) => report_extended(row, column, replies),
        Reply::PrimaryAttributes => replies.extend_from_slice(b"\x1b[?62;22c"),
        Reply::SecondaryAttributes => replies.extend_from_slice(b"\x1b[>1;100;0c"),
        Reply::Mode(number, state) => report_mode(number, state, replies),
        Reply::PrivateMode(number, state) => report_private(number, state, replies),
    }
}

/// The reply to DSR 6 (CSI 6 n): CPR, the cursor's line and column.
pub(crate) fn report_position<W: Widths + Drop>(
    surface: &Surface<W>,
    replies: &mut Vec<u8>,
) -> Result<(), AllocError>
    ensures { OnOk result (replies.new.items ≡ replies.old.items ++ position_reply (shown_by surface.now).screen) }
{
    let (_, row) = surface.cursor_position();
    report(row, current_column(surface), replies)
}
