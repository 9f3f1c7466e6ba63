//! What the modes of the profile xterm tell the program around the terminal. No screen depends on these but the one
//! that is shown.
ghost use Rattle.std.specs.Prelude.{◌≡◌};
ghost use Rattle.terminal_steps.specs.ProfileView.{modes_in};

use crate::profile::Modes;
use csi_codec::CursorStyle;
use terminal_table::flags::{MouseProtocolEncoding, MouseProtocolMode};

impl Modes {
    /// Whether the alternate screen is shown (DEC modes 47, 1047 and 1049).
    pub fn alternate_screen(&self) -> bool
        ensures { result ≡ (modes_in self.now).alternate }
    {
        self.alternate
    }

    /// Whether cursor keys send application sequences (DECCKM, DEC mode 1).
    pub fn application_cursor(&self) -> bool
        ensures { result ≡ (modes_in self.now).flags.application_cursor }
    {
        self.flags.application_cursor
    }

    /// Whether the keypad sends application sequences (DECKPAM, DECNKM, DEC mode 66).
    pub fn application_keypad(&self) -> bool
        ensures { result ≡ (modes_in self.now).flags.application_keypad }
    {
        self.flags.application_keypad
    }

    /// Whether foreground and background change places (DECSCNM, DEC mode 5).
    pub fn reverse_video(&self) -> bool
        ensures { result ≡ (modes_in self.now).flags.reverse_video }
    {
        self.flags.reverse_video
    }

    /// Whether the cursor blinks (DEC mode 12).
    pub fn blinking_cursor(&self) -> bool
        ensures { result ≡ (modes_in self.now).flags.blinking_cursor }
    {
        self.flags.blinking_cursor
    }

    /// Whether focus is reported (DEC mode 1004).
    pub fn focus_tracking(&self) -> bool
        ensures { result ≡ (modes_in self.now).flags.focus_tracking }
    {
        self.flags.focus_tracking
    }

    /// Whether the wheel sends cursor keys on the alternate screen (DEC mode 1007).
    pub fn alternate_scroll(&self) -> bool
        ensures { result ≡ (modes_in self.now).flags.alternate_scroll }
    {
        self.flags.alternate_scroll
    }

    /// Whether what is pasted stands between brackets (DEC mode 2004).
    pub fn bracketed_paste(&self) -> bool
        ensures { result ≡ (modes_in self.now).flags.bracketed_paste }
    {
        self.flags.bracketed_paste
    }

    /// Whether updates are to be shown at once when this ends (DEC mode 2026).
    pub fn synchronized_output(&self) -> bool
        ensures { result ≡ (modes_in self.now).flags.synchronized_output }
    {
        self.flags.synchronized_output
    }

    /// Which events of the mouse are reported.
    pub fn mouse_protocol_mode(&self) -> MouseProtocolMode
        ensures { result ≡ (modes_in self.now).flags.mouse_protocol_mode }
    {
        self.flags.mouse_protocol_mode
    }

    /// How an event of the mouse is written.
    pub fn mouse_protocol_encoding(&self) -> MouseProtocolEncoding
        ensures { result ≡ (modes_in self.now).flags.mouse_protocol_encoding }
    {
        self.flags.mouse_protocol_encoding
    }

    /// The style of the cursor (DECSCUSR).
    pub fn cursor_style(&self) -> CursorStyle
        ensures { result ≡ (modes_in self.now).flags.cursor_style }
    {
        self.flags.cursor_style
    }
}
