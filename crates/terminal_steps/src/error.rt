//! Why a call of a terminal was refused.
ghost use Rattle.std.specs.Prelude.{◌≡◌};
ghost use Rattle.terminal_steps.specs.declared.error.TerminalError.TheVariants.{Memory};
ghost use Rattle.terminal_steps.specs.Refusals.{of_surface};

use cell_surface::SurfaceError;
use escape_stream::Halted;
use std::alloc::AllocError;
use thiserror::Error;

/// Why a call of a terminal was refused.
#[derive(Clone, Copy, Debug, PartialEq, Eq, Error)]
pub enum TerminalError {
    /// An earlier call was refused.
    #[error("the terminal has failed")]
    Failed,
    /// The number of changes would pass `usize::MAX`.
    #[error("the numbers are used up")]
    Number,
    /// There was no memory.
    #[error("out of memory")]
    Memory,
}

impl From<AllocError> for TerminalError {
    ghost from_gives = { λ _ e. e ≡ Memory };

    fn from(_error: AllocError) -> TerminalError {
        TerminalError::Memory
    }
}

impl From<SurfaceError> for TerminalError {
    ghost from_gives = { λ refusal e. e ≡ of_surface refusal };

    fn from(error: SurfaceError) -> TerminalError {
        match error {
            SurfaceError::Failed => TerminalError::Failed,
            SurfaceError::Number => TerminalError::Number,
            SurfaceError::Memory => TerminalError::Memory,
        }
    }
}

impl From<Halted<SurfaceError>> for TerminalError {
    ghost use Rattle.terminal_steps.specs.Refusals.{of_halted};

    ghost from_gives = { λ halted e. e ≡ of_halted halted };

    fn from(halted: Halted<SurfaceError>) -> TerminalError {
        match halted {
            Halted::Failed => TerminalError::Failed,
            Halted::Memory => TerminalError::Memory,
            Halted::Refused(error) => TerminalError::from(error),
        }
    }
}
