//! Why `show` or `run` ended early.
ghost use Rattle.std.specs.Prelude.{◌≡◌};
ghost use Rattle.terminal.specs.declared.error.RunError.TheVariants.{Terminal};
ghost use Rattle.terminal_steps.specs.declared.error.TerminalError.TheVariants.{Memory};

use std::alloc::AllocError;
use terminal_steps::TerminalError;
use thiserror::Error;

/// Why `show` or `run` ended early.
#[derive(Clone, Copy, Debug, PartialEq, Eq, Error)]
pub enum RunError {
    /// A read failed.
    #[error("cannot read")]
    Read,
    /// A write or a flush failed, or a write took none of at least one byte.
    #[error("cannot write")]
    Write,
    /// The terminal refused what was read.
    #[error("{0}")]
    Terminal(TerminalError),
    /// After 2^48 reads the input hadn't ended.
    #[error("the input is too long")]
    TooLong,
}

impl From<TerminalError> for RunError {
    ghost from_gives = { λ error e. e ≡ Terminal error };

    fn from(error: TerminalError) -> RunError {
        RunError::Terminal(error)
    }
}

impl From<AllocError> for RunError {
    ghost from_gives = { λ _ e. e ≡ Terminal Memory };

    fn from(_error: AllocError) -> RunError {
        RunError::Terminal(TerminalError::Memory)
    }
}
