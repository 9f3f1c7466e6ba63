//! Events: what a framer hands out, one at a time.

/// What the bytes of a stream do, before their sequences are read into actions.
#[derive(Clone, Copy, Debug, PartialEq, Eq)]
pub enum Event {
    /// A character; U+FFFD replaces bytes that are ill-formed.
    Print(char),
    /// A C0 control or DEL, 00h to 1Fh or 7Fh.
    Control(u8),
    /// An escape sequence with one intermediate byte, 20h to 2Fh, or none, and its final byte, 30h to 7Eh
    /// (ECMA-48, 5.3.1 and 13). One with more intermediate bytes is no event.
    Escape {
        intermediate: Option<u8>,
        control: u8,
    },
    /// A control sequence with this final byte, 40h to 7Eh (ECMA-48, 5.4). The framer lends its parameters.
    ControlSequence(u8),
    /// An operating system command (ECMA-48, 8.3.89). The framer lends its body, without C0 controls and DEL.
    OperatingSystemCommand,
    /// The begin of a device control string (ECMA-48, 8.3.27) with this final byte, 40h to 7Eh. The framer lends the
    /// bytes 20h to 3Fh before it.
    Enter(u8),
    /// A byte of a device control string.
    Data(u8),
    /// The end of a device control string.
    Exit,
}

/// What a framer has read at the start of some bytes.
#[derive(Clone, Copy, Debug, PartialEq, Eq)]
pub enum Read {
    /// A text of this many bytes.
    Text(usize),
    /// `count` bytes, and the event that they hand out, if any.
    Bytes { event: Option<Event>, count: usize },
}
