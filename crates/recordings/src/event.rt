//! `Event`: an output of the application or a resize of the terminal, and its time.
use crate::size::Size;

/// An output of the application, or a resize.
#[derive(Debug, Drop)]
pub enum Act {
    /// The application writes bytes.
    Output(Vec<u8>),
    /// The terminal has another size from then on.
    Resize(Size),
}

/// An act at a time.
#[derive(Debug, Drop)]
pub struct Event {
    /// Microseconds from the beginning, below 2^63.
    pub time: u64,
    /// The output or the resize.
    pub act: Act,
}
