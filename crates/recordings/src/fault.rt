//! Faults of a recording.
use thiserror::Error;

/// The fault of a line, or of a recording of version 1.
#[derive(Clone, Copy, Debug, PartialEq, Eq, Error)]
pub enum Fault {
    /// The header's version is none from 1 to 3.
    #[error("a version of asciicast that is not 1, 2 or 3")]
    Version,
    /// The header is one of version 1, and more follows it.
    #[error("a recording of version 1, but not one object alone")]
    NotWhole,
    /// A recording of version 1 has no list `stdout`.
    #[error("a recording of version 1 without a list of outputs")]
    Outputs,
    /// The header has no number of columns or of rows from 1 to 4096.
    #[error("a header without a size from 1 to 4096 columns and rows")]
    HeaderSize,
    /// The line is not UTF-8, or no JSON.
    #[error("not a line of JSON")]
    NotJson,
    /// The last line is not UTF-8, or no JSON, and no line feed follows it.
    #[error("cut off")]
    CutOff,
    /// The first item is no decimal number of seconds from 0 on.
    #[error("not an event: a list that begins with a number of seconds from 0 on")]
    Time,
    /// The second item is no text.
    #[error("an event without a code")]
    Code,
    /// The third item of an output, or the second one in version 1, is no text.
    #[error("an output without a text")]
    Data,
    /// The third item of a resize is no size.
    #[error("a resize without a size such as 80x24, from 1 to 4096 columns and rows")]
    Size,
    /// In version 2 an output or a resize is earlier than the one before it.
    #[error("earlier than the event before it")]
    Back,
    /// In version 1 or 3 the times come to 2^63 microseconds or more.
    #[error("too late: some 290,000 years after the beginning")]
    Late,
}

/// A line that is wrong.
#[derive(Clone, Copy, Debug, PartialEq, Eq)]
pub struct BadLine {
    /// The line's number, counted from 1; in version 1 it is 1.
    pub line: usize,
    /// The line's fault.
    pub fault: Fault,
}
