//! What the profile xterm has for device attributes, reports of modes and of the position, and titles that are pushed.
ghost use Rattle.std.specs.Prelude.{◌≡◌, false, None, option_map, if◌then◌else◌};
ghost use Rattle.cell_surface.specs.Surface.{shown_by};
ghost use Rattle.csi_codec.specs.Modes.{ansi_mode_of, dec_mode_of};
ghost use Rattle.csi_codec.specs.Parameters.{number_within};
ghost use Rattle.terminal_steps.specs.FunctionView.{maybe_asked, screen_function};
ghost use Rattle.terminal_steps.specs.ProfileView.{modes_in};
ghost use Rattle.terminal_table.specs.ModeRequests.{private_state, standard_state};
ghost use Rattle.terminal_table.specs.OtherRequests.{
  device_request,
  extended_position_request,
  is_title,
  mode_report,
  mode_report_request,
  other_request,
  private_report,
  reported_row,
  secondary_request,
  title_function,
  title_request,
};
ghost use Rattle.terminal_table.specs.Request.{Replies};

use crate::cursor_moves::current_column;
use crate::mode_requests::{private_state, standard_state};
use crate::profile::{Modes, Region};
use crate::replies::Reply;
use crate::requests::Request;
use crate::screens::ScreenFunction;
use cell_base::Widths;
use cell_surface::Surface;
use csi_codec::{
    CsiParam, DecPrivateMode, DecPrivateModeCode, Device, TerminalMode, TerminalModeCode,
    Unspecified,
};

/// What a request to the terminal asks for: DA and DECSTR.
pub(crate) fn of_device(region: Region, device: Device) -> Option<Request>
    ensures { maybe_asked region result ≡ device_request device }
{
    match device {
        Device::SoftReset => Some(Request::Switches(ScreenFunction::SoftReset)),
        Device::RequestPrimaryDeviceAttributes => Some(Request::Reply(Reply::PrimaryAttributes)),
        Device::StatusReport => None,
    }
}

// The secondary DA.
fn of_secondary(region: Region, params: &[CsiParam]) -> Option<Request>
    ensures { maybe_asked region result ≡ secondary_request params.now }
{
    match params {
        [CsiParam::P(b'>')] | [CsiParam::P(b'>'), CsiParam::Integer(0)] => {
            Some(Request::Reply(Reply::SecondaryAttributes))
        }
        _ => None,
    }
}

// The number of a mode.
fn mode_number(number: i64) -> Option<u16>
    ensures { result ≡ number_within 65535 number }
{
    if 0 <= number && number <= 65535 {
        Some(number as u16)
    } else {
        None
    }
}

// A private mode by its number.
fn private_mode(number: u16) -> DecPrivateMode
    ensures { result ≡ dec_mode_of number }
{
    let named = DecPrivateModeCode::from_i64(i64::from(number));
    named.map_or(DecPrivateMode::Unspecified(number), DecPrivateMode::Code)
}

// A mode of the standard by its number.
fn standard_mode(number: u16) -> TerminalMode
    ensures { result ≡ ansi_mode_of number }
{
    let named = TerminalModeCode::from_i64(i64::from(number));
    named.map_or(TerminalMode::Unspecified(number), TerminalMode::Code)
}

// DECRQM of a mode of the standard.
fn of_standard_report(modes: &Modes, region: Region, number: i64) -> Option<Request>
    ensures { maybe_asked region result
        ≡ option_map (λ n. Replies (mode_report n (standard_state (modes_in modes.now) (ansi_mode_of n))))
        (number_within 65535 number) }
{
    let number = mode_number(number)?;
    let state = standard_state(modes, standard_mode(number));
    Some(Request::Reply(Reply::Mode(number, state)))
}

// DECRQM of a private mode.
fn of_private_report<W: Widths + Drop>(
    modes: &Modes,
    region: Region,
    surface: &Surface<W>,
    number: i64,
) -> Option<Request>
    requires { surface.now.is_failed ≡ false }
    ensures { maybe_asked region result
        ≡ option_map
        (λ n. Replies
        (private_report n (private_state (modes_in modes.now) (shown_by surface.now).screen (dec_mode_of n))))
        (number_within 65535 number) }
{
    let number = mode_number(number)?;
    let state = private_state(modes, surface, private_mode(number));
    Some(Request::Reply(Reply::PrivateMode(number, state)))
}

// DECRQM.
fn of_mode_report<W: Widths + Drop>(
    modes: &Modes,
    region: Region,
    surface: &Surface<W>,
    params: &[CsiParam],
) -> Option<Request>
    requires { surface.now.is_failed ≡ false }
    ensures { maybe_asked region result
        ≡ mode_report_request (modes_in modes.now) (shown_by surface.now).screen params.now }
{
    match params {
        [CsiParam::Integer(number), CsiParam::P(b'$')] => {
            of_standard_report(modes, region, *number)
        }
        [
            CsiParam::P(b'?'),
            CsiParam::Integer(number),
            CsiParam::P(b'$'),
        ] => { of_private_report(modes, region, surface, *number) }
        _ => None,
    }
}

// The cursor's row, from the region's top where lines count from it.
fn reported_row<W: Widths + Drop>(modes: &Modes, region: Region, surface: &Surface<W>) -> usize
    requires { surface.now.is_failed ≡ false }
    ensures { result ≡ reported_row modes.now.origin region (shown_by surface.now).screen }
{
    let (_, row) = surface.cursor_position();
    if modes.origin {
        row.saturating_sub(region.top)
    } else {
        row
    }
}

// DSR ? 6.
fn of_extended_position<W: Widths + Drop>(
    modes: &Modes,
    region: Region,
    surface: &Surface<W>,
    params: &[CsiParam],
) -> Option<Request>
    requires { surface.now.is_failed ≡ false }
    ensures { maybe_asked region result
        ≡ extended_position_request (modes_in modes.now) region (shown_by surface.now).screen params.now }
{
    match params {
        [CsiParam::P(b'?'), CsiParam::Integer(6)] => {
            let row = reported_row(modes, region, surface);
            let column = current_column(surface);
            Some(Request::Reply(Reply::ExtendedPosition(row, column)))
        }
        _ => None,
    }
}

// What an operation does to the titles that are pushed, if it is one on them.
fn title_function(operation: i64) -> Option<ScreenFunction>
    ensures { option_map screen_function result ≡ title_function operation }
{
    match operation {
        22 => Some(ScreenFunction::PushTitle),
        23 => Some(ScreenFunction::PopTitle),
        _ => None,
    }
}

// Titles that are pushed: both, or the window's.
fn of_title(region: Region, params: &[CsiParam]) -> Option<Request>
    ensures { maybe_asked region result ≡ title_request params.now }
{
    let operation = match params {
        [CsiParam::Integer(operation)] => *operation,
        [
            CsiParam::Integer(operation),
            CsiParam::P(b';'),
            CsiParam::Integer(0 | 2),
        ] => *operation,
        [
            CsiParam::Integer(operation),
            CsiParam::P(b';'),
            CsiParam::Integer(0 | 2),
            CsiParam::P(b';'),
            CsiParam::Integer(_),
        ] => *operation,
        _ => return None,
    };
    Some(Request::Switches(title_function(operation)?))
}

/// What a control sequence asks for that the codec doesn't name.
pub(crate) fn of_other<W: Widths + Drop>(
    modes: &Modes,
    region: Region,
    surface: &Surface<W>,
    rest: &Unspecified,
) -> Option<Request>
    requires { surface.now.is_failed ≡ false }
    ensures { maybe_asked region result
        ≡ (if rest.now.parameters_truncated then None
        else other_request (modes_in modes.now) region (shown_by surface.now).screen rest.now.control
        rest.now.params.items) }
{
    if rest.parameters_truncated {
        return None;
    }
    match rest.control {
        'c' => of_secondary(region, &rest.params),
        'n' => of_extended_position(modes, region, surface, &rest.params),
        'p' => of_mode_report(modes, region, surface, &rest.params),
        't' => of_title(region, &rest.params),
        _ => None,
    }
}
