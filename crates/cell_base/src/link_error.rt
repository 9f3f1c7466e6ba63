//! Why a text is no link.
ghost use Rattle.std.specs.Prelude.{◌≡◌};
ghost use Rattle.cell_base.specs.declared.link_error.LinkError.TheVariants.{Memory};

use std::alloc::AllocError;
use thiserror::Error;

/// Why the parts of an OSC 8 give no link, in the order in which it is found out.
#[derive(Debug, Clone, Copy, PartialEq, Eq, Error)]
pub enum LinkError {
    #[error("a link has at least three parts")]
    PartCount,
    #[error("a part of the link is not UTF-8")]
    Utf8,
    #[error("a parameter of the link has no `=`")]
    Params,
    #[error("out of memory")]
    Memory,
}

impl From<AllocError> for LinkError {
    ghost from_gives = { λ _ e. e ≡ Memory };

    fn from(_error: AllocError) -> LinkError {
        LinkError::Memory
    }
}
