//! What a terminal of the profile xterm keeps for the program around it: no screen depends on it.
use csi_codec::CursorStyle;

/// Which events of the mouse are reported; one at most is on (xterm: Mouse Tracking).
#[derive(Clone, Copy, Debug, PartialEq, Eq)]
pub enum MouseProtocolMode {
    /// No event.
    None,
    /// Presses of a button (DEC mode 9).
    Press,
    /// Presses and releases (1000).
    PressRelease,
    /// And motion while a button is held (1002).
    ButtonMotion,
    /// And all motion (1003).
    AnyMotion,
}

/// How an event of the mouse is written (xterm: Extended coordinates).
#[derive(Clone, Copy, Debug, PartialEq, Eq)]
pub enum MouseProtocolEncoding {
    /// Coordinates are bytes.
    Default,
    /// Coordinates are characters in UTF-8 (DEC mode 1005).
    Utf8,
    /// Coordinates are decimal numbers (1006).
    Sgr,
    /// Coordinates are decimal numbers, after CSI alone (1015).
    Urxvt,
    /// As `Sgr`, in pixels (1016).
    SgrPixels,
}

/// A flag, which is on or off.
#[derive(Clone, Copy, Debug, PartialEq, Eq)]
pub enum Flag {
    /// Cursor keys send application sequences (DECCKM, DEC mode 1).
    ApplicationCursor,
    /// The keypad sends application sequences (DECKPAM, DECNKM, 66).
    ApplicationKeypad,
    /// Foreground and background change places (DECSCNM, 5).
    ReverseVideo,
    /// The cursor blinks (12).
    BlinkingCursor,
    /// Focus is reported (1004).
    FocusTracking,
    /// On the alternate screen the wheel sends cursor keys (1007).
    AlternateScroll,
    /// What is pasted stands between brackets (2004).
    BracketedPaste,
    /// Updates are to be shown at once when this ends (2026).
    SynchronizedOutput,
}

/// The flags of a terminal, and what else it keeps for the program around it.
#[derive(Clone, Copy, Debug, PartialEq, Eq)]
pub struct Flags {
    pub application_cursor: bool,
    pub application_keypad: bool,
    pub reverse_video: bool,
    pub blinking_cursor: bool,
    pub focus_tracking: bool,
    pub alternate_scroll: bool,
    pub bracketed_paste: bool,
    pub synchronized_output: bool,
    pub mouse_protocol_mode: MouseProtocolMode,
    pub mouse_protocol_encoding: MouseProtocolEncoding,
    /// DECSCUSR.
    pub cursor_style: CursorStyle,
}
