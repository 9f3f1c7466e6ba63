//! Flags, and what else a terminal of the profile xterm keeps for the program around it.
ghost use Rattle.std.specs.Prelude.{◌≡◌};
ghost use Rattle.terminal_table.specs.Flags.{
  encoding_of,
  flag_of,
  initial_flags,
  is_on,
  is_same_encoding,
  is_same_mouse,
  mouse_of,
  with_flag,
  without_encoding,
};

use csi_codec::{CursorStyle, DecPrivateMode, DecPrivateModeCode};
use terminal_table::flags::{Flag, Flags, MouseProtocolEncoding, MouseProtocolMode};

/// The flags of a new terminal.
pub(crate) fn initial_flags() -> Flags
    ensures { result ≡ initial_flags }
{
    Flags {
        application_cursor: false,
        application_keypad: false,
        reverse_video: false,
        blinking_cursor: false,
        focus_tracking: false,
        alternate_scroll: false,
        bracketed_paste: false,
        synchronized_output: false,
        mouse_protocol_mode: MouseProtocolMode::None,
        mouse_protocol_encoding: MouseProtocolEncoding::Default,
        cursor_style: CursorStyle::Default,
    }
}

/// A flag is set or reset.
pub(crate) fn set_flag(flags: &mut Flags, flag: Flag, on: bool)
    ensures { flags.new ≡ with_flag flag on flags.old }
{
    match flag {
        Flag::ApplicationCursor => flags.application_cursor = on,
        Flag::ApplicationKeypad => flags.application_keypad = on,
        Flag::ReverseVideo => flags.reverse_video = on,
        Flag::BlinkingCursor => flags.blinking_cursor = on,
        Flag::FocusTracking => flags.focus_tracking = on,
        Flag::AlternateScroll => flags.alternate_scroll = on,
        Flag::BracketedPaste => flags.bracketed_paste = on,
        Flag::SynchronizedOutput => flags.synchronized_output = on,
    }
}

/// Whether a flag is on.
pub(crate) fn is_on(flags: Flags, flag: Flag) -> bool
    ensures { result ≡ is_on flag flags }
{
    match flag {
        Flag::ApplicationCursor => flags.application_cursor,
        Flag::ApplicationKeypad => flags.application_keypad,
        Flag::ReverseVideo => flags.reverse_video,
        Flag::BlinkingCursor => flags.blinking_cursor,
        Flag::FocusTracking => flags.focus_tracking,
        Flag::AlternateScroll => flags.alternate_scroll,
        Flag::BracketedPaste => flags.bracketed_paste,
        Flag::SynchronizedOutput => flags.synchronized_output,
    }
}

/// Whether two protocols of the mouse are the same.
pub(crate) fn is_same_mouse(one: MouseProtocolMode, other: MouseProtocolMode) -> bool
    ensures { result ≡ is_same_mouse one other }
{
    match (one, other) {
        (MouseProtocolMode::None, MouseProtocolMode::None)
        | (MouseProtocolMode::Press, MouseProtocolMode::Press)
        | (MouseProtocolMode::PressRelease, MouseProtocolMode::PressRelease)
        | (MouseProtocolMode::ButtonMotion, MouseProtocolMode::ButtonMotion)
        | (MouseProtocolMode::AnyMotion, MouseProtocolMode::AnyMotion) => true,
        _ => false,
    }
}

/// Whether two encodings of the mouse are the same.
pub(crate) fn is_same_encoding(one: MouseProtocolEncoding, other: MouseProtocolEncoding) -> bool
    ensures { result ≡ is_same_encoding one other }
{
    match (one, other) {
        (MouseProtocolEncoding::Default, MouseProtocolEncoding::Default)
        | (MouseProtocolEncoding::Utf8, MouseProtocolEncoding::Utf8)
        | (MouseProtocolEncoding::Sgr, MouseProtocolEncoding::Sgr)
        | (MouseProtocolEncoding::Urxvt, MouseProtocolEncoding::Urxvt)
        | (MouseProtocolEncoding::SgrPixels, MouseProtocolEncoding::SgrPixels) => true,
        _ => false,
    }
}

/// An encoding of the mouse that is reset ends where it is in use.
pub(crate) fn end_encoding(flags: &mut Flags, reset: MouseProtocolEncoding)
    ensures { flags.new
        ≡ record flags.old { mouse_protocol_encoding = without_encoding reset flags.old.mouse_protocol_encoding } }
{
    if is_same_encoding(reset, flags.mouse_protocol_encoding) {
        flags.mouse_protocol_encoding = MouseProtocolEncoding::Default;
    }
}

/// The flag that a mode is, if it is one.
pub(crate) fn flag_of(mode: DecPrivateMode) -> Option<Flag>
    ensures { result ≡ flag_of mode }
{
    match mode {
        DecPrivateMode::Code(DecPrivateModeCode::ApplicationCursorKeys) => {
            Some(Flag::ApplicationCursor)
        }
        DecPrivateMode::Code(DecPrivateModeCode::ReverseVideo) => Some(Flag::ReverseVideo),
        DecPrivateMode::Code(DecPrivateModeCode::StartBlinkingCursor) => Some(Flag::BlinkingCursor),
        DecPrivateMode::Code(DecPrivateModeCode::FocusTracking) => Some(Flag::FocusTracking),
        DecPrivateMode::Code(DecPrivateModeCode::BracketedPaste) => Some(Flag::BracketedPaste),
        DecPrivateMode::Code(DecPrivateModeCode::SynchronizedOutput) => {
            Some(Flag::SynchronizedOutput)
        }
        DecPrivateMode::Unspecified(66) => Some(Flag::ApplicationKeypad),
        DecPrivateMode::Unspecified(1007) => Some(Flag::AlternateScroll),
        _ => None,
    }
}

/// The protocol of the mouse that a mode is, if it is one.
pub(crate) fn mouse_of(mode: DecPrivateMode) -> Option<MouseProtocolMode>
    ensures { result ≡ mouse_of mode }
{
    match mode {
        DecPrivateMode::Code(DecPrivateModeCode::MouseTracking) => {
            Some(MouseProtocolMode::PressRelease)
        }
        DecPrivateMode::Code(DecPrivateModeCode::ButtonEventMouse) => {
            Some(MouseProtocolMode::ButtonMotion)
        }
        DecPrivateMode::Code(DecPrivateModeCode::AnyEventMouse) => {
            Some(MouseProtocolMode::AnyMotion)
        }
        DecPrivateMode::Unspecified(9) => Some(MouseProtocolMode::Press),
        _ => None,
    }
}

/// The encoding of the mouse that a mode is, if it is one.
pub(crate) fn encoding_of(mode: DecPrivateMode) -> Option<MouseProtocolEncoding>
    ensures { result ≡ encoding_of mode }
{
    match mode {
        DecPrivateMode::Code(DecPrivateModeCode::Utf8Mouse) => Some(MouseProtocolEncoding::Utf8),
        DecPrivateMode::Code(DecPrivateModeCode::SGRMouse) => Some(MouseProtocolEncoding::Sgr),
        DecPrivateMode::Code(DecPrivateModeCode::SGRPixelsMouse) => {
            Some(MouseProtocolEncoding::SgrPixels)
        }
        DecPrivateMode::Unspecified(1015) => Some(MouseProtocolEncoding::Urxvt),
        _ => None,
    }
}
