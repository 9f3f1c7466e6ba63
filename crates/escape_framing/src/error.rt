//! Refusals of a framer, and of a parser over one.
ghost use Rattle.std.specs.Prelude.{◌≡◌};
ghost use Rattle.escape_framing.specs.declared.error.ParseError.TheVariants as refusal;

use std::alloc::AllocError;
use thiserror::Error;

/// Why nothing was handed out.
#[derive(Clone, Copy, Debug, PartialEq, Eq, Error)]
pub enum ParseError {
    /// An earlier call ended early: memory or a piece was refused, or its pieces were dropped before their end.
    #[error("the parser has failed")]
    Failed,
    /// Memory was refused; each later call returns `Failed`.
    #[error("out of memory")]
    Memory,
}

impl From<AllocError> for ParseError {
    ghost from_gives = { λ _ result. result ≡ refusal.Memory };

    fn from(_error: AllocError) -> Self {
        ParseError::Memory
    }
}
