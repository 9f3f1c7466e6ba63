//! Why no more screens are written.
ghost use Rattle.std.specs.Prelude.{◌≡◌};
ghost use Rattle.shot.specs.declared.error.ShotError.TheVariants.{Terminal};
ghost use Rattle.terminal_steps.specs.declared.error.TerminalError.TheVariants.{Memory};

use std::alloc::AllocError;
use terminal::TerminalError;
use thiserror::Error;

/// Why no more screens are written.
#[derive(Clone, Copy, Debug, PartialEq, Eq, Error)]
pub enum ShotError {
    /// The terminal refused an event that was played to it, or there was no memory.
    #[error("{0}")]
    Terminal(TerminalError),
    /// A write failed.
    #[error("cannot write")]
    Write,
}

impl From<TerminalError> for ShotError {
    ghost from_gives = { λ error e. e ≡ Terminal error };

    fn from(error: TerminalError) -> ShotError {
        ShotError::Terminal(error)
    }
}

impl From<AllocError> for ShotError {
    ghost from_gives = { λ _ e. e ≡ Terminal Memory };

    fn from(_error: AllocError) -> ShotError {
        ShotError::Terminal(TerminalError::Memory)
    }
}
