//! Control characters by name.
ghost use Rattle.std.specs.Prelude.{◌≡◌};
ghost use Rattle.escape_stream.specs.Controls.{control_named, control_number};

/// A C0 control character, 00h to 1Fh (ECMA-48 5.2), or DEL, 7Fh.
#[derive(Clone, Copy, Debug, PartialEq, Eq)]
pub enum ControlCode {
    /// NUL.
    Null = 0,
    /// SOH.
    StartOfHeading = 1,
    /// STX.
    StartOfText = 2,
    /// ETX.
    EndOfText = 3,
    /// EOT.
    EndOfTransmission = 4,
    /// ENQ.
    Enquiry = 5,
    /// ACK.
    Acknowledge = 6,
    /// BEL.
    Bell = 7,
    /// BS.
    Backspace = 8,
    /// HT.
    HorizontalTab = 9,
    /// LF.
    LineFeed = 10,
    /// VT.
    VerticalTab = 11,
    /// FF.
    FormFeed = 12,
    /// CR.
    CarriageReturn = 13,
    /// SO.
    ShiftOut = 14,
    /// SI.
    ShiftIn = 15,
    /// DLE.
    DataLinkEscape = 16,
    /// DC1.
    DeviceControlOne = 17,
    /// DC2.
    DeviceControlTwo = 18,
    /// DC3.
    DeviceControlThree = 19,
    /// DC4.
    DeviceControlFour = 20,
    /// NAK.
    NegativeAcknowledge = 21,
    /// SYN.
    SynchronousIdle = 22,
    /// ETB.
    EndOfTransmissionBlock = 23,
    /// CAN.
    Cancel = 24,
    /// EM.
    EndOfMedium = 25,
    /// SUB.
    Substitute = 26,
    /// ESC.
    Escape = 27,
    /// IS4.
    FileSeparator = 28,
    /// IS3.
    GroupSeparator = 29,
    /// IS2.
    RecordSeparator = 30,
    /// IS1.
    UnitSeparator = 31,
    /// DEL.
    Delete = 127,
}

impl ControlCode {
    /// The control character of this byte, if there is one.
    #[inline(always)]
    pub fn from_u8(byte: u8) -> Option<Self>
        ensures { result ≡ control_named byte }
    {
        match byte {
            0 => Some(Self::Null),
            1 => Some(Self::StartOfHeading),
            2 => Some(Self::StartOfText),
            3 => Some(Self::EndOfText),
            4 => Some(Self::EndOfTransmission),
            5 => Some(Self::Enquiry),
            6 => Some(Self::Acknowledge),
            7 => Some(Self::Bell),
            8 => Some(Self::Backspace),
            9 => Some(Self::HorizontalTab),
            10 => Some(Self::LineFeed),
            11 => Some(Self::VerticalTab),
            12 => Some(Self::FormFeed),
            13 => Some(Self::CarriageReturn),
            14 => Some(Self::ShiftOut),
            15 => Some(Self::ShiftIn),
            16 => Some(Self::DataLinkEscape),
            17 => Some(Self::DeviceControlOne),
            18 => Some(Self::DeviceControlTwo),
            19 => Some(Self::DeviceControlThree),
            20 => Some(Self::DeviceControlFour),
            21 => Some(Self::NegativeAcknowledge),
            22 => Some(Self::SynchronousIdle),
            23 => Some(Self::EndOfTransmissionBlock),
            24 => Some(Self::Cancel),
            25 => Some(Self::EndOfMedium),
            26 => Some(Self::Substitute),
            27 => Some(Self::Escape),
            28 => Some(Self::FileSeparator),
            29 => Some(Self::GroupSeparator),
            30 => Some(Self::RecordSeparator),
            31 => Some(Self::UnitSeparator),
            127 => Some(Self::Delete),
            _ => None,
        }
    }

    /// The byte of this control character.
    pub fn to_u8(self) -> u8
        ensures { result ≡ control_number self }
    {
        self as u8
    }
}
