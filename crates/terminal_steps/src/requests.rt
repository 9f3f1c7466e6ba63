//! What the profile xterm has for an action, where that differs from the table.
ghost use Rattle.std.specs.Prelude.{◌≡◌, ◌≤◌, ◌<◌, ◌+◌, ◌^◌, ℕ, false, not};
ghost use Rattle.cell_base.specs.Screen.{height};
ghost use Rattle.cell_surface.specs.Surface.{shown_by};
ghost use Rattle.escape_stream.specs.Controls.{control_number};
ghost use Rattle.escape_stream.specs.StreamActionView.{value_of};
ghost use Rattle.terminal_steps.specs.FunctionView.{asked_for, maybe_asked};
ghost use Rattle.terminal_steps.specs.ProfileView.{modes_in};
ghost use Rattle.terminal_table.specs.Feeds.{
  feeds_plainly,
  is_default,
  line_feed_request,
  next_line_request,
  scrolls_plainly,
};
ghost use Rattle.terminal_table.specs.Modes.{Region as TableRegion, region_on};
ghost use Rattle.terminal_table.specs.Screens.{is_pending};
ghost use Rattle.terminal_table.specs.XtermRequests.{
  clear_request,
  control_request,
  cursor_request,
  designation_request,
  edit_request,
  escape_request,
  line_request,
  line_within,
  lock_request,
  margins_request,
  other_escape,
  position_request,
  repeat_request,
  report_request,
  reverse_index_request,
  rows_above,
  rows_below,
  rows_request,
  scroll_down_request,
  scroll_up_request,
  tab_back_request,
  tab_request,
  where_between,
  where_origin,
  xterm_request,
};

use crate::charsets::Charset;
use crate::cursor_moves::current_column;
use crate::function::{ControlFunction, Move};
use crate::mode_requests::{home, of_mode};
use crate::other_requests::{of_device, of_other};
use crate::profile::{Modes, Region};
use crate::replies::Reply;
use crate::screens::ScreenFunction;
use crate::tab_stops::{stops_back, stops_on};
use crate::xterm::XtermFunction;
use cell_base::{ColorAttribute, Widths};
use cell_surface::Surface;
use csi_codec::{
    CSI, Cursor, CursorStyle, Edit, EraseInDisplay, EraseInLine, Esc, EscCode, TabulationClear,
};
use escape_stream::{Action, ControlCode};
use terminal_table::flags::{Flag, MouseProtocolEncoding, MouseProtocolMode};

/// How the modes become others.
#[derive(Clone, Copy)]
pub(crate) enum Setting {
    /// As those of a new terminal, but for the titles.
    Reset,
    /// With a region from one row to another, counted from 0.
    Region(usize, usize),
    /// With lines that count from the region's top, or from the screen's.
    Origin(bool),
    /// With insertion (IRM), or without.
    Insert(bool),
    /// With autowrap (DECAWM), or without.
    Autowrap(bool),
    /// With new lines by LF (LNM), or without.
    Newline(bool),
    /// With a tab stop at a column, or without.
    Stop(usize, bool),
    /// Without the tab stops of so many columns.
    NoStops(usize),
    /// With another set as G0.
    First(Charset),
    /// With another set as G1.
    Second(Charset),
    /// With G1 in use, or G0.
    Shift(bool),
    /// With a flag, or without.
    Flag(Flag, bool),
    /// With another protocol of the mouse.
    Mouse(MouseProtocolMode),
    /// With an encoding of the mouse.
    Encoding(MouseProtocolEncoding),
    /// Without an encoding of the mouse.
    WithoutEncoding(MouseProtocolEncoding),
    /// With another style of the cursor.
    Style(CursorStyle),
}

/// What a terminal of the profile xterm is asked for.
#[derive(Drop)]
pub(crate) enum Request {
    /// A control function of the table.
    Table(ControlFunction),
    /// A function that only xterm has.
    Xterm(XtermFunction),
    /// A control function of the table, with which the modes become others.
    Sets(Setting, ControlFunction),
    /// The modes alone become others.
    SetsAlone(Setting),
    /// A function of the two screens.
    Switches(ScreenFunction),
    /// REP (CSI b): the last cluster of the run before is put so many times more.
    Repeats(usize),
    /// DECALN (ESC # 8).
    Aligns,
    /// A reply.
    Reply(Reply),
    /// Nothing, where the table has something.
    Nothing,
}

// Whether a colour is the default.
fn is_default(color: ColorAttribute) -> bool
    ensures { result ≡ is_default color }
{
    match color {
        ColorAttribute::Default => true,
        _ => false,
    }
}

/// Whether a wrap is pending.
pub(crate) fn is_pending<W: Widths + Drop>(surface: &Surface<W>) -> bool
    requires { surface.now.is_failed ≡ false }
    ensures { result ≡ is_pending (shown_by surface.now).screen }
{
    let (width, _) = surface.dimensions();
    let (column, _) = surface.cursor_position();
    column == width
}

/// Whether a scroll of the region is one of the table.
pub(crate) fn scrolls_plainly<W: Widths + Drop>(region: Region, surface: &Surface<W>) -> bool
    requires { surface.now.is_failed ≡ false }
    ensures { result ≡ scrolls_plainly region (shown_by surface.now).screen }
{
    let (_, height) = surface.dimensions();
    region.top == 0 && region.bottom == height - 1 && is_default(surface.pen().background())
}

/// Whether the table's move to the next row leads to the same one.
pub(crate) fn feeds_plainly<W: Widths + Drop>(region: Region, surface: &Surface<W>) -> bool
    requires { surface.now.is_failed ≡ false }
    ensures { result ≡ feeds_plainly region (shown_by surface.now).screen }
{
    let (_, height) = surface.dimensions();
    let (_, row) = surface.cursor_position();
    if row == region.bottom {
        scrolls_plainly(region, surface)
    } else {
        row < height - 1
    }
}

// LF, VT, FF and IND.
fn line_feed<W: Widths + Drop>(region: Region, surface: &Surface<W>) -> Request
    requires { surface.now.is_failed ≡ false }
    ensures { asked_for region result ≡ line_feed_request region (shown_by surface.now).screen }
{
    if !is_pending(surface) && feeds_plainly(region, surface) {
        Request::Table(ControlFunction::LineFeed)
    } else {
        Request::Xterm(XtermFunction::LineFeed)
    }
}

// NEL.
fn next_line<W: Widths + Drop>(region: Region, surface: &Surface<W>) -> Request
    requires { surface.now.is_failed ≡ false }
    ensures { asked_for region result ≡ next_line_request region (shown_by surface.now).screen }
{
    if feeds_plainly(region, surface) {
        Request::Table(ControlFunction::NextRow)
    } else {
        Request::Xterm(XtermFunction::NextLine)
    }
}

// RI.
fn reverse_index<W: Widths + Drop>(region: Region, surface: &Surface<W>) -> Request
    requires { surface.now.is_failed ≡ false }
    ensures { asked_for region result ≡ reverse_index_request region (shown_by surface.now).screen }
{
    let (_, row) = surface.cursor_position();
    if row != region.top {
        Request::Table(ControlFunction::Moves(Move::Up(1)))
    } else if !is_pending(surface) && scrolls_plainly(region, surface) {
        Request::Table(ControlFunction::ReverseIndex)
    } else {
        Request::Xterm(XtermFunction::ReverseIndex)
    }
}

// HT and CHT: nothing, where a wrap is pending.
fn tab<W: Widths + Drop>(modes: &Modes, surface: &Surface<W>, count: u32) -> Request
    requires { surface.now.is_failed ≡ false }
    ensures { (region : TableRegion) → asked_for region result
        ≡ tab_request (modes_in modes.now) (shown_by surface.now).screen count }
{
    let (width, _) = surface.dimensions();
    let (column, _) = surface.cursor_position();
    if column == width {
        return Request::Nothing;
    }
    let column = stops_on(&modes.stops, width, column, count);
    Request::Table(ControlFunction::Moves(Move::ToColumn(column + 1)))
}

// CBT.
fn tab_back<W: Widths + Drop>(modes: &Modes, surface: &Surface<W>, count: u32) -> Request
    requires { surface.now.is_failed ≡ false }
    ensures { (region : TableRegion) → asked_for region result
        ≡ tab_back_request (modes_in modes.now) (shown_by surface.now).screen count }
{
    let (_width, _) = surface.dimensions();
    let column = stops_back(&modes.stops, current_column(surface), count);
    Request::Table(ControlFunction::Moves(Move::ToColumn(column + 1)))
}

// TBC.
fn clear<W: Widths + Drop>(
    region: Region,
    surface: &Surface<W>,
    which: TabulationClear,
) -> Option<Request>
    requires { surface.now.is_failed ≡ false }
    ensures { maybe_asked region result ≡ clear_request (shown_by surface.now).screen which }
{
    match which {
        TabulationClear::ClearCharacterTabStopAtActivePosition => {
            let setting = Setting::Stop(current_column(surface), false);
            Some(Request::SetsAlone(setting))
        }
        TabulationClear::ClearAllCharacterTabStops => {
            let (width, _) = surface.dimensions();
            Some(Request::SetsAlone(Setting::NoStops(width)))
        }
        _ => None,
    }
}

// SU.
fn scroll_up<W: Widths + Drop>(region: Region, surface: &Surface<W>, count: u32) -> Request
    requires { surface.now.is_failed ≡ false }
    ensures { asked_for region result ≡ scroll_up_request region (shown_by surface.now).screen count }
{
    if scrolls_plainly(region, surface) {
        Request::Table(ControlFunction::ScrollUp(count))
    } else {
        Request::Xterm(XtermFunction::ScrollUp(count))
    }
}

// SD.
fn scroll_down<W: Widths + Drop>(region: Region, surface: &Surface<W>, count: u32) -> Request
    requires { surface.now.is_failed ≡ false }
    ensures { asked_for region result ≡ scroll_down_request region (shown_by surface.now).screen count }
{
    if scrolls_plainly(region, surface) {
        Request::Table(ControlFunction::ScrollDown(count))
    } else {
        Request::Xterm(XtermFunction::ScrollDown(count))
    }
}

// IL and DL: nothing outside of the region.
fn where_between<W: Widths + Drop>(
    region: Region,
    surface: &Surface<W>,
    function: XtermFunction,
) -> Option<Request>
    requires { surface.now.is_failed ≡ false }
    ensures { maybe_asked region result
        ≡ where_between region (shown_by surface.now).screen (asked_for region (Request.Xterm function)) }
{
    let (_, row) = surface.cursor_position();
    if region.top <= row && row <= region.bottom {
        Some(Request::Xterm(function))
    } else {
        None
    }
}

// How far the cursor moves up by a count of rows.
fn rows_above<W: Widths + Drop>(region: Region, surface: &Surface<W>, count: u32) -> u32
    requires { surface.now.is_failed ≡ false }
    ensures { result ≡ rows_above region (shown_by surface.now).screen count }
{
    let (_, row) = surface.cursor_position();
    if region.top <= row {
        (count as usize).min(row - region.top) as u32
    } else {
        count
    }
}

// How far it moves down.
fn rows_below<W: Widths + Drop>(region: Region, surface: &Surface<W>, count: u32) -> u32
    requires { surface.now.is_failed ≡ false }
    ensures { result ≡ rows_below region (shown_by surface.now).screen count }
{
    let (_, row) = surface.cursor_position();
    if row <= region.bottom {
        (count as usize).min(region.bottom - row) as u32
    } else {
        count
    }
}

// What is asked for where lines count from the region's top.
fn where_origin(modes: &Modes, region: Region, request: Request) -> Option<Request>
    ensures { maybe_asked region result ≡ where_origin modes.now.origin (asked_for region request) }
{
    if modes.origin { Some(request) } else { None }
}

// The line of the screen, counted from 1, that a line of the region is.
fn line_within<W: Widths + Drop>(region: Region, surface: &Surface<W>, line: u32) -> usize
    requires stays { surface.now.is_failed ≡ false }
    requires order { region.top ≤ region.bottom }
    requires within { region.bottom < height (shown_by surface.now).screen }
    ensures { result ≡ line_within region line }
{
    let (_, _height) = surface.dimensions();
    region
        .top
        .saturating_add(line as usize)
        .min(region.bottom + 1)
}

// CUP and HVP.
fn position<W: Widths + Drop>(
    modes: &Modes,
    region: Region,
    surface: &Surface<W>,
    line: u32,
    column: u32,
) -> Option<Request>
    requires stays { surface.now.is_failed ≡ false }
    requires order { region.top ≤ region.bottom }
    requires within { region.bottom < height (shown_by surface.now).screen }
    ensures { maybe_asked region result ≡ position_request (modes_in modes.now) region line column }
{
    let movement = Move::ToPosition(line_within(region, surface, line), column);
    where_origin(
        modes,
        region,
        Request::Table(ControlFunction::Moves(movement)),
    )
}

// VPA.
fn line_position<W: Widths + Drop>(
    modes: &Modes,
    region: Region,
    surface: &Surface<W>,
    line: u32,
) -> Option<Request>
    requires stays { surface.now.is_failed ≡ false }
    requires order { region.top ≤ region.bottom }
    requires within { region.bottom < height (shown_by surface.now).screen }
    ensures { maybe_asked region result ≡ line_request (modes_in modes.now) region line }
{
    let movement = Move::ToLine(line_within(region, surface, line));
    where_origin(
        modes,
        region,
        Request::Table(ControlFunction::Moves(movement)),
    )
}

// DSR 6.
fn report<W: Widths + Drop>(modes: &Modes, region: Region, surface: &Surface<W>) -> Option<Request>
    requires stays { surface.now.is_failed ≡ false }
    ensures { maybe_asked region result
        ≡ report_request (modes_in modes.now) region (shown_by surface.now).screen }
{
    let (_, row) = surface.cursor_position();
    let column = current_column(surface);
    where_origin(
        modes,
        region,
        Request::Reply(Reply::Position(row.saturating_sub(region.top), column)),
    )
}

// DECSTBM, with lines counted from 1.
fn margins<W: Widths + Drop>(
    modes: &Modes,
    region: Region,
    surface: &Surface<W>,
    top: u32,
    bottom: u32,
) -> Option<Request>
    requires stays { surface.now.is_failed ≡ false }
    requires first { 1 ≤ top }
    ensures { maybe_asked region result
        ≡ margins_request (modes_in modes.now) (shown_by surface.now).screen top bottom }
{
    let (_, height) = surface.dimensions();
    let top = top as usize;
    let last = (bottom as usize).min(height);
    if top < last {
        let setting = Setting::Region(top - 1, last - 1);
        Some(Request::Sets(setting, home(modes.origin, top - 1)))
    } else {
        None
    }
}

// Of a control character: HT, LF, VT, FF, SO and SI.
fn of_control<W: Widths + Drop>(
    modes: &Modes,
    region: Region,
    surface: &Surface<W>,
    code: ControlCode,
) -> Option<Request>
    requires { surface.now.is_failed ≡ false }
    ensures { maybe_asked region result
        ≡ control_request (modes_in modes.now) region (shown_by surface.now).screen (control_number code) }
{
    match code {
        ControlCode::HorizontalTab => Some(tab(modes, surface, 1)),
        ControlCode::LineFeed | ControlCode::VerticalTab | ControlCode::FormFeed => {
            if modes.newline {
                Some(next_line(region, surface))
            } else {
                Some(line_feed(region, surface))
            }
        }
        ControlCode::ShiftOut => Some(Request::SetsAlone(Setting::Shift(true))),
        ControlCode::ShiftIn => Some(Request::SetsAlone(Setting::Shift(false))),
        _ => None,
    }
}

// Of a designation of G0 or G1.
fn of_designation(region: Region, code: EscCode) -> Option<Request>
    ensures { maybe_asked region result ≡ designation_request code }
{
    let setting = match code {
        EscCode::DecLineDrawingG0 => Setting::First(Charset::Graphics),
        EscCode::UkCharacterSetG0 => Setting::First(Charset::British),
        EscCode::AsciiCharacterSetG0 => Setting::First(Charset::Ascii),
        EscCode::DecLineDrawingG1 => Setting::Second(Charset::Graphics),
        EscCode::UkCharacterSetG1 => Setting::Second(Charset::British),
        EscCode::AsciiCharacterSetG1 => Setting::Second(Charset::Ascii),
        _ => return None,
    };
    Some(Request::SetsAlone(setting))
}

// Memory lock.
fn lock<W: Widths + Drop>(region: Region, surface: &Surface<W>, code: u8) -> Option<Request>
    requires { surface.now.is_failed ≡ false }
    ensures { maybe_asked region result ≡ lock_request region (shown_by surface.now).screen code }
{
    let (_, row) = surface.cursor_position();
    let top = match code {
        b'l' if row < region.bottom => row,
        b'm' => 0,
        _ => return None,
    };
    Some(Request::SetsAlone(Setting::Region(top, region.bottom)))
}

// Of an ESC pair without a name: memory lock; or another set, which is taken for ASCII, after ESC ( or ESC ).
fn of_other_escape<W: Widths + Drop>(
    region: Region,
    surface: &Surface<W>,
    intermediate: Option<u8>,
    code: u8,
) -> Option<Request>
    requires { surface.now.is_failed ≡ false }
    ensures { maybe_asked region result ≡ other_escape region (shown_by surface.now).screen intermediate code }
{
    match intermediate {
        None => lock(region, surface, code),
        Some(b'(') => Some(Request::SetsAlone(Setting::First(Charset::Ascii))),
        Some(b')') => Some(Request::SetsAlone(Setting::Second(Charset::Ascii))),
        _ => None,
    }
}

// Of an ESC pair: IND, NEL, HTS, RI, RIS, DECSC, DECRC, DECALN, DECKPAM, DECKPNM, DECID, and designations.
fn of_escape<W: Widths + Drop>(
    region: Region,
    surface: &Surface<W>,
    code: EscCode,
) -> Option<Request>
    requires { surface.now.is_failed ≡ false }
    ensures { maybe_asked region result ≡ escape_request region (shown_by surface.now).screen code }
{
    match code {
        EscCode::Index => Some(line_feed(region, surface)),
        EscCode::NextLine => Some(next_line(region, surface)),
        EscCode::ReverseIndex => Some(reverse_index(region, surface)),
        EscCode::HorizontalTabSet => {
            let setting = Setting::Stop(current_column(surface), true);
            Some(Request::SetsAlone(setting))
        }
        EscCode::FullReset => Some(Request::Sets(Setting::Reset, ControlFunction::FullReset)),
        EscCode::DecSaveCursorPosition => Some(Request::Switches(ScreenFunction::SaveCursor)),
        EscCode::DecRestoreCursorPosition => Some(Request::Switches(ScreenFunction::RestoreCursor)),
        EscCode::DecScreenAlignmentDisplay => Some(Request::Aligns),
        EscCode::DecApplicationKeyPad => {
            Some(Request::SetsAlone(Setting::Flag(Flag::ApplicationKeypad, true)))
        }
        EscCode::DecNormalKeyPad => {
            Some(Request::SetsAlone(Setting::Flag(Flag::ApplicationKeypad, false)))
        }
        EscCode::ReturnTerminalId => Some(Request::Reply(Reply::PrimaryAttributes)),
        other => of_designation(region, other),
    }
}

// Of a move by rows that stops at a margin.
fn of_rows<W: Widths + Drop>(
    modes: &Modes,
    region: Region,
    surface: &Surface<W>,
    cursor: Cursor,
) -> Option<Request>
    requires { surface.now.is_failed ≡ false }
    ensures { maybe_asked region result
        ≡ rows_request (modes_in modes.now) region (shown_by surface.now).screen cursor }
{
    let movement = match cursor {
        Cursor::Up(count) => Move::Up(rows_above(region, surface, count)),
        Cursor::Down(count) => Move::Down(rows_below(region, surface, count)),
        Cursor::PrecedingLine(count) => Move::PrecedingLine(rows_above(region, surface, count)),
        Cursor::NextLine(count) => Move::NextLine(rows_below(region, surface, count)),
        Cursor::LinePositionBackward(count) if modes.origin => {
            Move::Up(rows_above(region, surface, count))
        }
        Cursor::LinePositionForward(count) if modes.origin => {
            Move::Down(rows_below(region, surface, count))
        }
        _ => return None,
    };
    Some(Request::Table(ControlFunction::Moves(movement)))
}

// Of a cursor sequence.
fn of_cursor<W: Widths + Drop>(
    modes: &Modes,
    region: Region,
    surface: &Surface<W>,
    cursor: Cursor,
) -> Option<Request>
    requires stays { surface.now.is_failed ≡ false }
    requires order { region.top ≤ region.bottom }
    requires within { region.bottom < height (shown_by surface.now).screen }
    ensures { maybe_asked region result
        ≡ cursor_request (modes_in modes.now) region (shown_by surface.now).screen cursor }
{
    match cursor {
        Cursor::LinePositionAbsolute(line) => line_position(modes, region, surface, line),
        Cursor::Position { line, col } | Cursor::CharacterAndLinePosition { line, col } => {
            position(
                modes,
                region,
                surface,
                line.as_one_based(),
                col.as_one_based(),
            )
        }
        Cursor::SetTopAndBottomMargins { top, bottom } => margins(
            modes,
            region,
            surface,
            top.as_one_based(),
            bottom.as_one_based(),
        ),
        Cursor::SaveCursor => Some(Request::Switches(ScreenFunction::SaveCursor)),
        Cursor::RestoreCursor => Some(Request::Switches(ScreenFunction::RestoreCursor)),
        Cursor::RequestActivePositionReport => report(modes, region, surface),
        Cursor::ForwardTabulation(count) => Some(tab(modes, surface, count)),
        Cursor::BackwardTabulation(count) => Some(tab_back(modes, surface, count)),
        Cursor::TabulationClear(which) => clear(region, surface, which),
        Cursor::CursorStyle(style) => Some(Request::SetsAlone(Setting::Style(style))),
        other => of_rows(modes, region, surface, other),
    }
}

// REP: the last cluster of the run before, if there is one, as often as the screen has columns at most.
fn repeat<W: Widths + Drop>(
    modes: &Modes,
    region: Region,
    surface: &Surface<W>,
    count: u32,
) -> Option<Request>
    requires { surface.now.is_failed ≡ false }
    ensures { maybe_asked region result ≡ repeat_request (modes_in modes.now) (shown_by surface.now).screen count }
{
    if modes.last.is_empty() {
        return None;
    }
    let (width, height) = surface.dimensions();
    Some(Request::Repeats((count as usize).min(width.saturating_mul(height))))
}

// Of an edit: ECH, ICH, DCH, EL 0 and ED 0 at a pending wrap, EL 1, ED 1, SU, SD, IL, DL and REP.
fn of_edit<W: Widths + Drop>(
    modes: &Modes,
    region: Region,
    surface: &Surface<W>,
    edit: Edit,
) -> Option<Request>
    requires { surface.now.is_failed ≡ false }
    ensures { maybe_asked region result
        ≡ edit_request (modes_in modes.now) region (shown_by surface.now).screen edit }
{
    let function = match edit {
        Edit::EraseCharacter(count) => XtermFunction::EraseCharacters(count),
        Edit::InsertCharacter(count) => XtermFunction::InsertCharacters(count),
        Edit::DeleteCharacter(count) => XtermFunction::DeleteCharacters(count),
        Edit::EraseInLine(EraseInLine::EraseToStartOfLine) => XtermFunction::EraseToStartOfLine,
        Edit::EraseInLine(EraseInLine::EraseToEndOfLine) if is_pending(surface) => {
            XtermFunction::EraseToEndOfLine
        }
        Edit::EraseInDisplay(EraseInDisplay::EraseToStartOfDisplay) => {
            XtermFunction::EraseToStartOfDisplay
        }
        Edit::EraseInDisplay(EraseInDisplay::EraseToEndOfDisplay) if is_pending(surface) => {
            XtermFunction::EraseToEndOfDisplay
        }
        Edit::ScrollUp(count) => return Some(scroll_up(region, surface, count)),
        Edit::ScrollDown(count) => return Some(scroll_down(region, surface, count)),
        Edit::InsertLine(count) => {
            return where_between(region, surface, XtermFunction::InsertLines(count));
        }
        Edit::DeleteLine(count) => {
            return where_between(region, surface, XtermFunction::DeleteLines(count));
        }
        Edit::Repeat(count) => return repeat(modes, region, surface, count),
        _ => return None,
    };
    Some(Request::Xterm(function))
}

/// What an action asks for, if the table alone doesn't say it, on a surface that hasn't failed and where a region
/// scrolls.
#[tactic(auto, unfolding(terminal_table::specs::XtermRequests::xterm_request))]
pub(crate) fn xterm_request<W: Widths + Drop>(
    modes: &Modes,
    region: Region,
    surface: &Surface<W>,
    action: &Action,
) -> Option<Request>
    requires stays { surface.now.is_failed ≡ false }
    requires region { region ≡ region_on (modes_in modes.now) (shown_by surface.now).screen }
    requires order { region.top ≤ region.bottom }
    requires within { region.bottom < height (shown_by surface.now).screen }
    ensures { maybe_asked region result
        ≡ xterm_request (modes_in modes.now) (shown_by surface.now).screen (value_of action.now) }
{
    match action {
        Action::Control(code) => of_control(modes, region, surface, *code),
        Action::Esc(Esc::Code(code)) => of_escape(region, surface, *code),
        Action::Esc(
            Esc::Unspecified {
                intermediate,
                control,
            },
        ) => of_other_escape(region, surface, *intermediate, *control),
        Action::CSI(CSI::Cursor(cursor)) => of_cursor(modes, region, surface, *cursor),
        Action::CSI(CSI::Edit(edit)) => of_edit(modes, region, surface, *edit),
        Action::CSI(CSI::Mode(mode)) => of_mode(modes, region, surface, *mode),
        Action::CSI(CSI::Device(device)) => of_device(region, **device),
        Action::CSI(CSI::Unspecified(rest)) => of_other(modes, region, surface, rest),
        _ => None,
    }
}
