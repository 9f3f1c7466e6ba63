//! Modes by number, and the sequences that set, reset, save and restore them.
ghost use Rattle.std.specs.Prelude.{◌≡◌, ◌<◌, Some};
ghost use Rattle.csi_codec.specs.Modes.{
  dec_private_mode_named,
  dec_private_mode_number,
  terminal_mode_named,
  terminal_mode_number,
  dec_mode_code,
  ansi_mode_code,
  private_mode_reading,
  mode_reading,
  mode_spelling,
};
ghost use Rattle.csi_codec.specs.Parameters.{private_tokens, sequence_text, spelled, spelled_text};

use crate::parameters::number_within;
use crate::spelling::{ControlSequence, put_number, write_parameters};
use crate::text::SequenceText;
use std::fmt;

/// A private mode that has a name (xterm: DECSET, DECRST).
#[derive(Clone, Copy, Debug, PartialEq, Eq)]
pub enum DecPrivateModeCode {
    /// DECCKM.
    ApplicationCursorKeys = 1,
    /// DECANM.
    DecAnsiMode = 2,
    /// DECCOLM.
    Select132Columns = 3,
    /// DECSCLM.
    SmoothScroll = 4,
    /// DECSCNM.
    ReverseVideo = 5,
    /// DECOM.
    OriginMode = 6,
    /// DECAWM.
    AutoWrap = 7,
    /// DECARM.
    AutoRepeat = 8,
    StartBlinkingCursor = 12,
    /// DECTCEM.
    ShowCursor = 25,
    ReverseWraparound = 45,
    EnableAlternateScreen = 47,
    /// DECLRMM.
    LeftRightMarginMode = 69,
    /// DECSDM.
    SixelDisplayMode = 80,
    MouseTracking = 1000,
    HighlightMouseTracking = 1001,
    ButtonEventMouse = 1002,
    AnyEventMouse = 1003,
    FocusTracking = 1004,
    Utf8Mouse = 1005,
    SGRMouse = 1006,
    SGRPixelsMouse = 1016,
    XTermMetaSendsEscape = 1036,
    XTermAltSendsEscape = 1039,
    OptEnableAlternateScreen = 1047,
    SaveCursor = 1048,
    ClearAndEnableAlternateScreen = 1049,
    UsePrivateColorRegistersForEachGraphic = 1070,
    BracketedPaste = 2004,
    SynchronizedOutput = 2026,
    GraphemeClustering = 2027,
    MinTTYApplicationEscapeKeyMode = 7727,
    SixelScrollsRight = 8452,
    Win32InputMode = 9001,
}

impl DecPrivateModeCode {
    /// The private mode of this number (after the `?`), if there is one.
    #[inline(never)]
    pub fn from_i64(value: i64) -> Option<Self>
        ensures { result ≡ dec_private_mode_named value }
    {
        match value {
            1 => Some(Self::ApplicationCursorKeys),
            2 => Some(Self::DecAnsiMode),
            3 => Some(Self::Select132Columns),
            4 => Some(Self::SmoothScroll),
            5 => Some(Self::ReverseVideo),
            6 => Some(Self::OriginMode),
            7 => Some(Self::AutoWrap),
            8 => Some(Self::AutoRepeat),
            12 => Some(Self::StartBlinkingCursor),
            25 => Some(Self::ShowCursor),
            45 => Some(Self::ReverseWraparound),
            47 => Some(Self::EnableAlternateScreen),
            69 => Some(Self::LeftRightMarginMode),
            80 => Some(Self::SixelDisplayMode),
            1000 => Some(Self::MouseTracking),
            1001 => Some(Self::HighlightMouseTracking),
            1002 => Some(Self::ButtonEventMouse),
            1003 => Some(Self::AnyEventMouse),
            1004 => Some(Self::FocusTracking),
            1005 => Some(Self::Utf8Mouse),
            1006 => Some(Self::SGRMouse),
            1016 => Some(Self::SGRPixelsMouse),
            1036 => Some(Self::XTermMetaSendsEscape),
            1039 => Some(Self::XTermAltSendsEscape),
            1047 => Some(Self::OptEnableAlternateScreen),
            1048 => Some(Self::SaveCursor),
            1049 => Some(Self::ClearAndEnableAlternateScreen),
            1070 => Some(Self::UsePrivateColorRegistersForEachGraphic),
            2004 => Some(Self::BracketedPaste),
            2026 => Some(Self::SynchronizedOutput),
            2027 => Some(Self::GraphemeClustering),
            7727 => Some(Self::MinTTYApplicationEscapeKeyMode),
            8452 => Some(Self::SixelScrollsRight),
            9001 => Some(Self::Win32InputMode),
            _ => None,
        }
    }

    /// The number of this private mode.
    pub fn to_u16(self) -> u16
        ensures { result ≡ dec_private_mode_number self }
    {
        self as u16
    }
}

/// A mode of the standard that has a name (ECMA-48 7, and 8.3.125 SM).
#[derive(Clone, Copy, Debug, PartialEq, Eq)]
pub enum TerminalModeCode {
    /// KAM.
    KeyboardAction = 2,
    /// IRM.
    Insert = 4,
    /// BDSM.
    BiDirectionalSupportMode = 8,
    /// SRM.
    SendReceive = 12,
    /// LNM.
    AutomaticNewline = 20,
    ShowCursor = 25,
}

impl TerminalModeCode {
    /// The mode of this number (without a `?`), if there is one.
    pub fn from_i64(value: i64) -> Option<Self>
        ensures { result ≡ terminal_mode_named value }
    {
        match value {
            2 => Some(Self::KeyboardAction),
            4 => Some(Self::Insert),
            8 => Some(Self::BiDirectionalSupportMode),
            12 => Some(Self::SendReceive),
            20 => Some(Self::AutomaticNewline),
            25 => Some(Self::ShowCursor),
            _ => None,
        }
    }

    /// The number of this mode.
    pub fn to_u16(self) -> u16
        ensures { result ≡ terminal_mode_number self }
    {
        self as u16
    }
}

/// A private mode: by its name, or by a number that has none.
#[derive(Clone, Copy, Debug, PartialEq, Eq)]
pub enum DecPrivateMode {
    Code(DecPrivateModeCode),
    Unspecified(u16),
}

/// A mode of the standard: by its name, or by a number that has none.
#[derive(Clone, Copy, Debug, PartialEq, Eq)]
pub enum TerminalMode {
    Code(TerminalModeCode),
    Unspecified(u16),
}

/// A change of a mode: it is set, reset, saved or restored.
#[derive(Clone, Copy, Debug, PartialEq, Eq)]
pub enum Mode {
    /// DECSET.
    SetDecPrivateMode(DecPrivateMode),
    /// DECRST.
    ResetDecPrivateMode(DecPrivateMode),
    /// XTSAVE.
    SaveDecPrivateMode(DecPrivateMode),
    /// XTRESTORE.
    RestoreDecPrivateMode(DecPrivateMode),
    /// SM.
    SetMode(TerminalMode),
    /// RM.
    ResetMode(TerminalMode),
}

impl fmt::Display for Mode {
    ghost output = { λ mode. Some (spelled_text (mode_spelling mode)) };

    fn fmt<W: fmt::Write>(&self, f: &mut fmt::Formatter<W>) -> fmt::Result {
        write_parameters(self, f)
    }
}

impl ControlSequence for Mode {
    ghost spelling = { mode_spelling };

    #[tactic(auto, unfolding(crate::specs::Modes::mode_spelling))]
    #[inline(never)]
    fn put_text(&self, text: &mut SequenceText) {
        match *self {
            Mode::SetDecPrivateMode(mode) => put_private(mode, b'h', text),
            Mode::ResetDecPrivateMode(mode) => put_private(mode, b'l', text),
            Mode::SaveDecPrivateMode(mode) => put_private(mode, b's', text),
            Mode::RestoreDecPrivateMode(mode) => put_private(mode, b'r', text),
            Mode::SetMode(mode) => put_number(u32::from(mode.number()), b'h', text),
            Mode::ResetMode(mode) => put_number(u32::from(mode.number()), b'l', text),
        }
    }
}

/// Sets `text` to a sequence of `?`, the number of a private mode and a final byte.
fn put_private(mode: DecPrivateMode, control: u8, text: &mut SequenceText)
    requires { control < 128 }
    ensures { text.new ≡ sequence_text (spelled (private_tokens (dec_mode_code mode)) control) }
{
    let mut built = SequenceText::opened();
    built.push_sign(b'?');
    built.push_number(mode.number() as u32);
    built.push_sign(control);
    *text = built;
}

impl DecPrivateMode {
    /// The number of this private mode.
    fn number(self) -> u16
        ensures { result ≡ dec_mode_code self }
    {
        match self {
            DecPrivateMode::Code(code) => code.to_u16(),
            DecPrivateMode::Unspecified(number) => number,
        }
    }
}

impl TerminalMode {
    /// The number of this mode.
    fn number(self) -> u16
        ensures { result ≡ ansi_mode_code self }
    {
        match self {
            TerminalMode::Code(code) => code.to_u16(),
            TerminalMode::Unspecified(number) => number,
        }
    }
}

/// The change of a private mode that a number after `?` and a final byte encode, if there is one.
#[tactic(auto, unfolding(crate::specs::Modes::private_mode_reading))]
pub(crate) fn private_mode_reading(value: i64, control: char) -> Option<Mode>
    ensures { result ≡ private_mode_reading control value }
{
    let number = number_within(65535, value)? as u16;
    let named = DecPrivateModeCode::from_i64(i64::from(number));
    let mode = named.map_or(DecPrivateMode::Unspecified(number), DecPrivateMode::Code);
    match control {
        'h' => Some(Mode::SetDecPrivateMode(mode)),
        'l' => Some(Mode::ResetDecPrivateMode(mode)),
        's' => Some(Mode::SaveDecPrivateMode(mode)),
        'r' => Some(Mode::RestoreDecPrivateMode(mode)),
        _ => None,
    }
}

/// The change of a mode of the standard that a number and a final byte encode, if there is one.
#[tactic(auto, unfolding(crate::specs::Modes::mode_reading))]
pub(crate) fn mode_reading(value: i64, control: char) -> Option<Mode>
    ensures { result ≡ mode_reading control value }
{
    let number = number_within(65535, value)? as u16;
    let named = TerminalModeCode::from_i64(i64::from(number));
    let mode = named.map_or(TerminalMode::Unspecified(number), TerminalMode::Code);
    match control {
        'h' => Some(Mode::SetMode(mode)),
        'l' => Some(Mode::ResetMode(mode)),
        _ => None,
    }
}
