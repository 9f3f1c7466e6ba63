//! Why a change was not rendered.
ghost use Rattle.std.specs.Prelude.{◌≡◌};
ghost use Rattle.terminal_render.specs.declared.error.RenderError.TheVariants.{Memory};

use std::alloc::AllocError;
use thiserror::Error;

/// Why a change was not rendered.
#[derive(Clone, Copy, Debug, PartialEq, Eq, Error)]
pub enum RenderError {
    /// The change has no encoding: no actions have its effect.
    #[error("the change has no spelling")]
    NoSpelling,
    /// There was no memory.
    #[error("out of memory")]
    Memory,
}

impl From<AllocError> for RenderError {
    ghost from_gives = { λ _ e. e ≡ Memory };

    fn from(_error: AllocError) -> RenderError {
        RenderError::Memory
    }
}
