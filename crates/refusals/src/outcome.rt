//! The outcome of a check.
use cell_base::LinkError;
use cell_surface::SurfaceError;
use csi_codec::CrackError;
use escape_stream::ParseError;
use std::alloc::{AllocError, AllocFailed};
use std::fmt;
use terminal::{RenderError, RunError, TerminalError};

/// Why a check ended early.
#[derive(Clone, Copy)]
pub enum Stop {
    /// A call was refused memory, and returned the error of its own type.
    Memory,
    /// A call failed for another reason.
    Other,
}

/// Whether all that a check saw was right, or why it ended early.
pub type Outcome = Result<bool, Stop>;

/// A refusal: the stop where `stands` says that the state after it is right, else `false`.
pub fn refused(stop: Stop, stands: bool) -> Outcome {
    if stands { Err(stop) } else { Ok(false) }
}

/// Whether all outcomes are right; the first that is not decides. Every check has been made, whatever the outcomes
/// before it are.
pub fn all(outcomes: &[Outcome]) -> Outcome {
    for outcome in outcomes {
        if !(*outcome)? {
            return Ok(false);
        }
    }
    Ok(true)
}

/// Whether all answers are true.
pub fn hold(answers: &[bool]) -> bool {
    !answers.contains(&false)
}

impl From<AllocError> for Stop {
    fn from(_error: AllocError) -> Stop {
        Stop::Memory
    }
}

impl<T: Drop> From<AllocFailed<T>> for Stop {
    fn from(_error: AllocFailed<T>) -> Stop {
        Stop::Memory
    }
}

// Formatting into a `String` fails only where memory is refused.
impl From<fmt::Error> for Stop {
    fn from(_error: fmt::Error) -> Stop {
        Stop::Memory
    }
}

impl From<LinkError> for Stop {
    fn from(error: LinkError) -> Stop {
        match error {
            LinkError::Memory => Stop::Memory,
            _ => Stop::Other,
        }
    }
}

impl From<CrackError> for Stop {
    fn from(error: CrackError) -> Stop {
        match error {
            CrackError::Memory => Stop::Memory,
            _ => Stop::Other,
        }
    }
}

impl From<ParseError> for Stop {
    fn from(error: ParseError) -> Stop {
        match error {
            ParseError::Memory => Stop::Memory,
            _ => Stop::Other,
        }
    }
}

impl From<SurfaceError> for Stop {
    fn from(error: SurfaceError) -> Stop {
        match error {
            SurfaceError::Memory => Stop::Memory,
            _ => Stop::Other,
        }
    }
}

impl From<RenderError> for Stop {
    fn from(error: RenderError) -> Stop {
        match error {
            RenderError::Memory => Stop::Memory,
            _ => Stop::Other,
        }
    }
}

impl From<TerminalError> for Stop {
    fn from(error: TerminalError) -> Stop {
        match error {
            TerminalError::Memory => Stop::Memory,
            _ => Stop::Other,
        }
    }
}

impl From<RunError> for Stop {
    fn from(error: RunError) -> Stop {
        match error {
            RunError::Terminal(inner) => Stop::from(inner),
            _ => Stop::Other,
        }
    }
}
