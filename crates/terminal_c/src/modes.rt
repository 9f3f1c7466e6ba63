//! The modes of the profile xterm, told to C.
ghost use Rattle.std.specs.Prelude.{◌≡◌};
ghost use Rattle.csi_codec.specs.Cursors.{cursor_style_number};
ghost use Rattle.terminal_c.specs.ToldModes.{encoding_number, modes_told, mouse_number};
ghost use Rattle.terminal_steps.specs.ProfileView.{modes_in};

use terminal::{CursorStyle, Modes, MouseProtocolEncoding, MouseProtocolMode};

/// The modes of the profile xterm that the program around the terminal asks for.
#[repr(C)]
#[derive(Clone, Copy)]
pub struct ToldModes {
    /// Whether cursor keys send application sequences.
    pub application_cursor: bool,
    /// Whether the keypad sends application sequences.
    pub application_keypad: bool,
    /// Whether foreground and background change places.
    pub reverse_video: bool,
    /// Whether the cursor blinks.
    pub blinking_cursor: bool,
    /// Whether focus is reported.
    pub focus_tracking: bool,
    /// Whether the wheel sends cursor keys on the alternate screen.
    pub alternate_scroll: bool,
    /// Whether what is pasted stands between brackets.
    pub bracketed_paste: bool,
    /// Whether updates are to be shown at once when this ends.
    pub synchronized_output: bool,
    /// 0 no event of the mouse is reported, 1 presses, 2 releases too, 3 motion with a button held too, 4 all motion.
    pub mouse_protocol_mode: u8,
    /// 0 coordinates are bytes, 1 characters in UTF-8, 2 as SGR, 3 as urxvt, 4 as SGR in pixels.
    pub mouse_protocol_encoding: u8,
    /// The number of the cursor's style for DECSCUSR.
    pub cursor_style: u8,
    /// Whether the alternate screen is shown.
    pub alternate_screen: bool,
}

// The number of the events of the mouse that are reported.
fn mouse_number(mode: MouseProtocolMode) -> u8
    ensures { result ≡ mouse_number mode }
{
    match mode {
        MouseProtocolMode::None => 0,
        MouseProtocolMode::Press => 1,
        MouseProtocolMode::PressRelease => 2,
        MouseProtocolMode::ButtonMotion => 3,
        MouseProtocolMode::AnyMotion => 4,
    }
}

// The number of the way in which events of the mouse are written.
fn encoding_number(encoding: MouseProtocolEncoding) -> u8
    ensures { result ≡ encoding_number encoding }
{
    match encoding {
        MouseProtocolEncoding::Default => 0,
        MouseProtocolEncoding::Utf8 => 1,
        MouseProtocolEncoding::Sgr => 2,
        MouseProtocolEncoding::Urxvt => 3,
        MouseProtocolEncoding::SgrPixels => 4,
    }
}

// The number of a cursor's style for DECSCUSR.
fn style_number(style: CursorStyle) -> u8
    ensures { result ≡ cursor_style_number style }
{
    match style {
        CursorStyle::Default => 0,
        CursorStyle::BlinkingBlock => 1,
        CursorStyle::SteadyBlock => 2,
        CursorStyle::BlinkingUnderline => 3,
        CursorStyle::SteadyUnderline => 4,
        CursorStyle::BlinkingBar => 5,
        CursorStyle::SteadyBar => 6,
    }
}

/// The modes as C gets them.
pub(crate) fn modes_told(modes: &Modes) -> ToldModes
    ensures { result ≡ modes_told (modes_in modes.now) }
{
    ToldModes {
        application_cursor: modes.application_cursor(),
        application_keypad: modes.application_keypad(),
        reverse_video: modes.reverse_video(),
        blinking_cursor: modes.blinking_cursor(),
        focus_tracking: modes.focus_tracking(),
        alternate_scroll: modes.alternate_scroll(),
        bracketed_paste: modes.bracketed_paste(),
        synchronized_output: modes.synchronized_output(),
        mouse_protocol_mode: mouse_number(modes.mouse_protocol_mode()),
        mouse_protocol_encoding: encoding_number(modes.mouse_protocol_encoding()),
        cursor_style: style_number(modes.cursor_style()),
        alternate_screen: modes.alternate_screen(),
    }
}
