//! ESC pairs: an ESC, at most one intermediate byte, and a final byte.
ghost use Rattle.std.specs.Prelude.{◌≡◌, ◌++◌, OnErr, OnOk, Some};
ghost use Rattle.csi_codec.specs.Escapes.{bytes_of_pair, esc_code_bytes, esc_reading, esc_text, known_code};

use crate::text::SequenceText;
use std::alloc::AllocError;
use std::fmt;

/// An ESC pair that has a name (ECMA-48 5.3 and xterm's control sequences).
#[derive(Clone, Copy, Debug, PartialEq, Eq)]
pub enum EscCode {
    /// RIS (ESC c): resets the terminal.
    FullReset,
    /// IND (ESC D): moves the cursor to the next row, and scrolls at the last one.
    Index,
    /// NEL (ESC E): moves the cursor to the first column of the next row, and scrolls at the last one.
    NextLine,
    /// ESC F: moves the cursor to the lower left corner.
    CursorPositionLowerLeft,
    /// HTS (ESC H): sets a tab stop at the cursor's column.
    HorizontalTabSet,
    /// RI (ESC M): moves the cursor to the row above, and scrolls at the first one.
    ReverseIndex,
    /// SS2 (ESC N): takes the next character from G2.
    SingleShiftG2,
    /// SS3 (ESC O): takes the next character from G3.
    SingleShiftG3,
    /// SPA (ESC V): begins a guarded area.
    StartOfGuardedArea,
    /// EPA (ESC W): ends a guarded area.
    EndOfGuardedArea,
    /// SOS (ESC X): begins a string.
    StartOfString,
    /// DECID (ESC Z): requests the terminal's identity.
    ReturnTerminalId,
    /// ST (ESC and a backslash): ends a string.
    StringTerminator,
    /// PM (ESC ^): begins a privacy message.
    PrivacyMessage,
    /// APC (ESC _): begins an application program command.
    ApplicationProgramCommand,
    /// ESC k: begins a title of tmux and screen.
    TmuxTitle,
    /// DECBI (ESC 6): moves the cursor left, and scrolls at the first column.
    DecBackIndex,
    /// DECSC (ESC 7): saves the cursor.
    DecSaveCursorPosition,
    /// DECRC (ESC 8): restores the saved cursor.
    DecRestoreCursorPosition,
    /// DECKPAM (ESC =): the keypad sends application sequences.
    DecApplicationKeyPad,
    /// DECKPNM (ESC >): the keypad sends characters.
    DecNormalKeyPad,
    /// SCS (ESC ( 0): makes DEC's line drawing characters G0.
    DecLineDrawingG0,
    /// SCS (ESC ( A): makes the UK character set G0.
    UkCharacterSetG0,
    /// SCS (ESC ( B): makes ASCII G0.
    AsciiCharacterSetG0,
    /// SCS (ESC ) 0): makes DEC's line drawing characters G1.
    DecLineDrawingG1,
    /// SCS (ESC ) A): makes the UK character set G1.
    UkCharacterSetG1,
    /// SCS (ESC ) B): makes ASCII G1.
    AsciiCharacterSetG1,
    /// DECALN (ESC # 8): fills the screen with `E`.
    DecScreenAlignmentDisplay,
    /// DECDHL (ESC # 3): the cursor's line is the top half of a line of double height.
    DecDoubleHeightTopHalfLine,
    /// DECDHL (ESC # 4): the cursor's line is the bottom half of a line of double height.
    DecDoubleHeightBottomHalfLine,
    /// DECSWL (ESC # 5): the cursor's line has single width.
    DecSingleWidthLine,
    /// DECDWL (ESC # 6): the cursor's line has double width.
    DecDoubleWidthLine,
}

/// An ESC pair: by its name, or by the bytes after ESC.
#[derive(Clone, Copy, Debug, PartialEq, Eq)]
pub enum Esc {
    Code(EscCode),
    Unspecified {
        intermediate: Option<u8>,
        control: u8,
    },
}

impl EscCode {
    /// The byte between ESC and the final byte, if there is one, and the final byte.
    fn bytes(self) -> (Option<u8>, u8)
        ensures { result ≡ esc_code_bytes self }
    {
        match self {
            EscCode::FullReset => (None, b'c'),
            EscCode::Index => (None, b'D'),
            EscCode::NextLine => (None, b'E'),
            EscCode::CursorPositionLowerLeft => (None, b'F'),
            EscCode::HorizontalTabSet => (None, b'H'),
            EscCode::ReverseIndex => (None, b'M'),
            EscCode::SingleShiftG2 => (None, b'N'),
            EscCode::SingleShiftG3 => (None, b'O'),
            EscCode::StartOfGuardedArea => (None, b'V'),
            EscCode::EndOfGuardedArea => (None, b'W'),
            EscCode::StartOfString => (None, b'X'),
            EscCode::ReturnTerminalId => (None, b'Z'),
            EscCode::StringTerminator => (None, b'\\'),
            EscCode::PrivacyMessage => (None, b'^'),
            EscCode::ApplicationProgramCommand => (None, b'_'),
            EscCode::TmuxTitle => (None, b'k'),
            EscCode::DecBackIndex => (None, b'6'),
            EscCode::DecSaveCursorPosition => (None, b'7'),
            EscCode::DecRestoreCursorPosition => (None, b'8'),
            EscCode::DecApplicationKeyPad => (None, b'='),
            EscCode::DecNormalKeyPad => (None, b'>'),
            EscCode::DecLineDrawingG0 => (Some(b'('), b'0'),
            EscCode::UkCharacterSetG0 => (Some(b'('), b'A'),
            EscCode::AsciiCharacterSetG0 => (Some(b'('), b'B'),
            EscCode::DecLineDrawingG1 => (Some(b')'), b'0'),
            EscCode::UkCharacterSetG1 => (Some(b')'), b'A'),
            EscCode::AsciiCharacterSetG1 => (Some(b')'), b'B'),
            EscCode::DecScreenAlignmentDisplay => (Some(b'#'), b'8'),
            EscCode::DecDoubleHeightTopHalfLine => (Some(b'#'), b'3'),
            EscCode::DecDoubleHeightBottomHalfLine => (Some(b'#'), b'4'),
            EscCode::DecSingleWidthLine => (Some(b'#'), b'5'),
            EscCode::DecDoubleWidthLine => (Some(b'#'), b'6'),
        }
    }

    /// The code that has these bytes, if there is one. An intermediate byte of 0 counts as none.
    #[tactic(auto, unfolding(crate::specs::Escapes::known_code))]
    fn of_bytes(intermediate: Option<u8>, control: u8) -> Option<Self>
        ensures { result ≡ known_code intermediate control }
    {
        match (intermediate.unwrap_or(0), control) {
            (0, b'c') => Some(EscCode::FullReset),
            (0, b'D') => Some(EscCode::Index),
            (0, b'E') => Some(EscCode::NextLine),
            (0, b'F') => Some(EscCode::CursorPositionLowerLeft),
            (0, b'H') => Some(EscCode::HorizontalTabSet),
            (0, b'M') => Some(EscCode::ReverseIndex),
            (0, b'N') => Some(EscCode::SingleShiftG2),
            (0, b'O') => Some(EscCode::SingleShiftG3),
            (0, b'V') => Some(EscCode::StartOfGuardedArea),
            (0, b'W') => Some(EscCode::EndOfGuardedArea),
            (0, b'X') => Some(EscCode::StartOfString),
            (0, b'Z') => Some(EscCode::ReturnTerminalId),
            (0, b'\\') => Some(EscCode::StringTerminator),
            (0, b'^') => Some(EscCode::PrivacyMessage),
            (0, b'_') => Some(EscCode::ApplicationProgramCommand),
            (0, b'k') => Some(EscCode::TmuxTitle),
            (0, b'6') => Some(EscCode::DecBackIndex),
            (0, b'7') => Some(EscCode::DecSaveCursorPosition),
            (0, b'8') => Some(EscCode::DecRestoreCursorPosition),
            (0, b'=') => Some(EscCode::DecApplicationKeyPad),
            (0, b'>') => Some(EscCode::DecNormalKeyPad),
            (b'(', b'0') => Some(EscCode::DecLineDrawingG0),
            (b'(', b'A') => Some(EscCode::UkCharacterSetG0),
            (b'(', b'B') => Some(EscCode::AsciiCharacterSetG0),
            (b')', b'0') => Some(EscCode::DecLineDrawingG1),
            (b')', b'A') => Some(EscCode::UkCharacterSetG1),
            (b')', b'B') => Some(EscCode::AsciiCharacterSetG1),
            (b'#', b'8') => Some(EscCode::DecScreenAlignmentDisplay),
            (b'#', b'3') => Some(EscCode::DecDoubleHeightTopHalfLine),
            (b'#', b'4') => Some(EscCode::DecDoubleHeightBottomHalfLine),
            (b'#', b'5') => Some(EscCode::DecSingleWidthLine),
            (b'#', b'6') => Some(EscCode::DecDoubleWidthLine),
            _ => None,
        }
    }
}

impl fmt::Display for Esc {
    ghost output = { λ esc. Some (esc_text esc) };

    fn fmt<W: fmt::Write>(&self, f: &mut fmt::Formatter<W>) -> fmt::Result {
        let mut text = SequenceText::new();
        self.put_text(&mut text);
        f.write_str(text.as_str())
    }
}

impl Esc {
    /// Appends the bytes of the pair's text. Where memory is refused, `bytes` stay as they were.
    pub fn append_bytes_to(&self, bytes: &mut Vec<u8>) -> Result<(), AllocError>
        ensures ok { OnOk result (bytes.new.items ≡ bytes.old.items ++ esc_text self.now) }
        ensures err { OnErr result (bytes.new.items ≡ bytes.old.items) }
    {
        let mut text = SequenceText::new();
        self.put_text(&mut text);
        bytes.extend_from_slice(text.as_bytes())
    }

    /// Sets `text` to the text of the ESC pair.
    fn put_text(&self, text: &mut SequenceText)
        ensures { text.new ≡ esc_text self.now }
    {
        let (intermediate, control) = self.bytes();
        let mut built = SequenceText::new();
        built.push_sign(0x1b);
        match intermediate {
            Some(byte) => {
                built.push_character(byte);
                built.push_character(control);
            }
            None => built.push_character(control),
        }
        *text = built;
    }

    /// The byte between ESC and the final byte, if there is one, and the final byte.
    fn bytes(self) -> (Option<u8>, u8)
        ensures { result ≡ bytes_of_pair self }
    {
        match self {
            Esc::Code(code) => code.bytes(),
            Esc::Unspecified {
                intermediate,
                control,
            } => (intermediate, control),
        }
    }

    /// The ESC pair with these bytes. It allocates nothing. An intermediate byte of 0 before the final byte of a code
    /// that has no intermediate byte counts as none.
    pub fn parse(intermediate: Option<u8>, control: u8) -> Self
        ensures { result ≡ esc_reading intermediate control }
    {
        match EscCode::of_bytes(intermediate, control) {
            Some(code) => Esc::Code(code),
            None => Esc::Unspecified {
                intermediate,
                control,
            },
        }
    }
}
