//! What the profile xterm has for modes: DECSET and DECRST, SM and RM, and whether a mode is set, for DECRQM.
ghost use Rattle.std.specs.Prelude.{◌≡◌, ◌≤◌, ◌<◌, ◌+◌, ◌^◌, ℕ, false, option_map};
ghost use Rattle.cell_base.specs.Screen.{height};
ghost use Rattle.cell_surface.specs.Surface.{shown_by};
ghost use Rattle.terminal_steps.specs.FunctionView.{
  asked_for,
  maybe_asked,
  screen_function,
  setting_of,
  table_function,
};
ghost use Rattle.terminal_steps.specs.ProfileView.{modes_in};
ghost use Rattle.terminal_table.specs.ModeRequests.{
  alternate_function,
  encoding_setting,
  flag_setting,
  home_function,
  mode_request,
  mouse_setting,
  normal_function,
  origin_request,
  private_request,
  private_state,
  reset_request,
  screen_state,
  set_request,
  standard_request,
  standard_state,
  where_shown,
};
ghost use Rattle.terminal_table.specs.Request as request;

use crate::flags::{encoding_of, flag_of, is_on, is_same_encoding, is_same_mouse, mouse_of};
use crate::function::{ControlFunction, Move};
use crate::profile::{Modes, Region};
use crate::requests::{Request, Setting};
use crate::screens::ScreenFunction;
use cell_base::{CursorVisibility, Widths};
use cell_surface::Surface;
use csi_codec::{DecPrivateMode, DecPrivateModeCode, Mode, TerminalMode, TerminalModeCode};
use terminal_table::flags::{MouseProtocolEncoding, MouseProtocolMode};

/// The cursor at home: in the row `top` where lines count from it, else in the screen's first row.
pub(crate) fn home(origin: bool, top: usize) -> ControlFunction
    requires { top + 1 < 2 ^ 64 }
    ensures { (bottom : ℕ) → table_function result
        ≡ home_function origin (record { top = top; bottom = bottom }) }
{
    let line = if origin { top + 1 } else { 1 };
    ControlFunction::Moves(Move::ToPosition(line, 1))
}

// DECSET 6 and DECRST 6.
fn set_origin<W: Widths + Drop>(region: Region, surface: &Surface<W>, origin: bool) -> Request
    requires stays { surface.now.is_failed ≡ false }
    requires order { region.top ≤ region.bottom }
    requires within { region.bottom < height (shown_by surface.now).screen }
    ensures { asked_for region result ≡ origin_request origin region }
{
    let (_, _height) = surface.dimensions();
    Request::Sets(Setting::Origin(origin), home(origin, region.top))
}

// What is asked of the two screens, if anything is.
fn where_shown(region: Region, shown: bool, function: ScreenFunction) -> Option<Request>
    ensures { maybe_asked region result ≡ where_shown shown (screen_function function) }
{
    if shown {
        Some(Request::Switches(function))
    } else {
        None
    }
}

// DECSET 1049.
fn alternate_function(alternate: bool) -> ScreenFunction
    ensures { screen_function result ≡ alternate_function alternate }
{
    if alternate {
        ScreenFunction::SaveAndClear
    } else {
        ScreenFunction::SaveAndShowCleared
    }
}

// DECRST 1049.
fn normal_function(alternate: bool) -> ScreenFunction
    ensures { screen_function result ≡ normal_function alternate }
{
    if alternate {
        ScreenFunction::ShowAndRestore
    } else {
        ScreenFunction::RestoreCursor
    }
}

// Of a mode that is set.
fn of_set<W: Widths + Drop>(
    modes: &Modes,
    region: Region,
    surface: &Surface<W>,
    code: DecPrivateModeCode,
) -> Option<Request>
    requires stays { surface.now.is_failed ≡ false }
    requires order { region.top ≤ region.bottom }
    requires within { region.bottom < height (shown_by surface.now).screen }
    ensures { maybe_asked region result ≡ set_request (modes_in modes.now) region code }
{
    match code {
        DecPrivateModeCode::OriginMode => Some(set_origin(region, surface, true)),
        DecPrivateModeCode::AutoWrap => Some(Request::SetsAlone(Setting::Autowrap(true))),
        DecPrivateModeCode::EnableAlternateScreen | DecPrivateModeCode::OptEnableAlternateScreen =>
            { where_shown(region, !modes.alternate, ScreenFunction::ShowOther) }
        DecPrivateModeCode::SaveCursor => Some(Request::Switches(ScreenFunction::SaveCursor)),
        DecPrivateModeCode::ClearAndEnableAlternateScreen => {
            Some(Request::Switches(alternate_function(modes.alternate)))
        }
        _ => None,
    }
}

// Of a mode that is reset.
fn of_reset<W: Widths + Drop>(
    modes: &Modes,
    region: Region,
    surface: &Surface<W>,
    code: DecPrivateModeCode,
) -> Option<Request>
    requires stays { surface.now.is_failed ≡ false }
    requires order { region.top ≤ region.bottom }
    requires within { region.bottom < height (shown_by surface.now).screen }
    ensures { maybe_asked region result ≡ reset_request (modes_in modes.now) region code }
{
    match code {
        DecPrivateModeCode::OriginMode => Some(set_origin(region, surface, false)),
        DecPrivateModeCode::AutoWrap => Some(Request::SetsAlone(Setting::Autowrap(false))),
        DecPrivateModeCode::EnableAlternateScreen => {
            where_shown(region, modes.alternate, ScreenFunction::ShowOther)
        }
        DecPrivateModeCode::OptEnableAlternateScreen => {
            where_shown(region, modes.alternate, ScreenFunction::ClearAndShowOther)
        }
        DecPrivateModeCode::SaveCursor => Some(Request::Switches(ScreenFunction::RestoreCursor)),
        DecPrivateModeCode::ClearAndEnableAlternateScreen => {
            Some(Request::Switches(normal_function(modes.alternate)))
        }
        _ => None,
    }
}

// Of a protocol of the mouse that is set or reset.
fn mouse_setting(on: bool, protocol: MouseProtocolMode) -> Setting
    ensures { setting_of result ≡ mouse_setting on protocol }
{
    if on {
        Setting::Mouse(protocol)
    } else {
        Setting::Mouse(MouseProtocolMode::None)
    }
}

// Of an encoding of the mouse that is set or reset.
fn encoding_setting(on: bool, encoding: MouseProtocolEncoding) -> Setting
    ensures { setting_of result ≡ encoding_setting on encoding }
{
    if on {
        Setting::Encoding(encoding)
    } else {
        Setting::WithoutEncoding(encoding)
    }
}

// Of a mode that is kept for the program around the terminal, if it is one.
fn flag_setting(on: bool, mode: DecPrivateMode) -> Option<Setting>
    ensures { option_map setting_of result ≡ flag_setting on mode }
{
    if let Some(flag) = flag_of(mode) {
        return Some(Setting::Flag(flag, on));
    }
    if let Some(protocol) = mouse_of(mode) {
        return Some(mouse_setting(on, protocol));
    }
    match encoding_of(mode) {
        Some(encoding) => Some(encoding_setting(on, encoding)),
        None => None,
    }
}

// The modes alone become others, if they do.
fn alone(region: Region, setting: Option<Setting>) -> Option<Request>
    ensures { maybe_asked region result ≡ option_map request.SetsAlone (option_map setting_of setting) }
{
    match setting {
        Some(setting) => Some(Request::SetsAlone(setting)),
        None => None,
    }
}

// Of a private mode that is set or reset.
fn of_private<W: Widths + Drop>(
    on: bool,
    modes: &Modes,
    region: Region,
    surface: &Surface<W>,
    mode: DecPrivateMode,
) -> Option<Request>
    requires stays { surface.now.is_failed ≡ false }
    requires order { region.top ≤ region.bottom }
    requires within { region.bottom < height (shown_by surface.now).screen }
    ensures { maybe_asked region result ≡ private_request on (modes_in modes.now) region mode }
{
    let own = match mode {
        DecPrivateMode::Code(code) if on => of_set(modes, region, surface, code),
        DecPrivateMode::Code(code) => of_reset(modes, region, surface, code),
        DecPrivateMode::Unspecified(_) => None,
    };
    match own {
        Some(request) => Some(request),
        None => alone(region, flag_setting(on, mode)),
    }
}

// Of a mode of the standard that is set or reset: IRM and LNM.
fn of_standard(on: bool, region: Region, mode: TerminalMode) -> Option<Request>
    ensures { maybe_asked region result ≡ standard_request on mode }
{
    match mode {
        TerminalMode::Code(TerminalModeCode::Insert) => {
            Some(Request::SetsAlone(Setting::Insert(on)))
        }
        TerminalMode::Code(TerminalModeCode::AutomaticNewline) => {
            Some(Request::SetsAlone(Setting::Newline(on)))
        }
        _ => None,
    }
}

/// What a change of a mode asks for.
pub(crate) fn of_mode<W: Widths + Drop>(
    modes: &Modes,
    region: Region,
    surface: &Surface<W>,
    mode: Mode,
) -> Option<Request>
    requires stays { surface.now.is_failed ≡ false }
    requires order { region.top ≤ region.bottom }
    requires within { region.bottom < height (shown_by surface.now).screen }
    ensures { maybe_asked region result ≡ mode_request (modes_in modes.now) region mode }
{
    match mode {
        Mode::SetDecPrivateMode(code) => of_private(true, modes, region, surface, code),
        Mode::ResetDecPrivateMode(code) => of_private(false, modes, region, surface, code),
        Mode::SetMode(code) => of_standard(true, region, code),
        Mode::ResetMode(code) => of_standard(false, region, code),
        _ => None,
    }
}

// Whether a mode of the screen is set, if it is one.
fn screen_state<W: Widths + Drop>(
    modes: &Modes,
    surface: &Surface<W>,
    mode: DecPrivateMode,
) -> Option<bool>
    requires { surface.now.is_failed ≡ false }
    ensures { result ≡ screen_state (modes_in modes.now) (shown_by surface.now).screen mode }
{
    match mode {
        DecPrivateMode::Code(DecPrivateModeCode::OriginMode) => Some(modes.origin),
        DecPrivateMode::Code(DecPrivateModeCode::AutoWrap) => Some(modes.autowrap),
        DecPrivateMode::Code(DecPrivateModeCode::ShowCursor) => {
            Some(matches!(surface.cursor_visibility(), CursorVisibility::Visible))
        }
        DecPrivateMode::Code(
            DecPrivateModeCode::EnableAlternateScreen
            | DecPrivateModeCode::OptEnableAlternateScreen
            | DecPrivateModeCode::ClearAndEnableAlternateScreen,
        ) => Some(modes.alternate),
        _ => None,
    }
}

/// Whether a private mode is set, if the terminal has it.
pub(crate) fn private_state<W: Widths + Drop>(
    modes: &Modes,
    surface: &Surface<W>,
    mode: DecPrivateMode,
) -> Option<bool>
    requires { surface.now.is_failed ≡ false }
    ensures { result ≡ private_state (modes_in modes.now) (shown_by surface.now).screen mode }
{
    if let Some(state) = screen_state(modes, surface, mode) {
        return Some(state);
    }
    if let Some(flag) = flag_of(mode) {
        return Some(is_on(modes.flags, flag));
    }
    if let Some(protocol) = mouse_of(mode) {
        return Some(is_same_mouse(protocol, modes.flags.mouse_protocol_mode));
    }
    match encoding_of(mode) {
        Some(encoding) => Some(is_same_encoding(encoding, modes.flags.mouse_protocol_encoding)),
        None => None,
    }
}

/// Whether a mode of the standard is set, if the terminal has it.
pub(crate) fn standard_state(modes: &Modes, mode: TerminalMode) -> Option<bool>
    ensures { result ≡ standard_state (modes_in modes.now) mode }
{
    match mode {
        TerminalMode::Code(TerminalModeCode::Insert) => Some(modes.insert),
        TerminalMode::Code(TerminalModeCode::AutomaticNewline) => Some(modes.newline),
        _ => None,
    }
}
