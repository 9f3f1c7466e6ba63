//! Why a call of a surface was refused.
ghost use Rattle.std.specs.Prelude.{◌≡◌};
ghost use Rattle.cell_surface.specs.declared.error.SurfaceError.TheVariants.{Memory};

use std::alloc::AllocError;
use thiserror::Error;

/// Why a call of a surface was refused. Where several of these apply, the call returns the first of
/// them, except that `draw_from_screen` and `copy_region` return `Memory` and not `Number` where memory is
/// refused while they make their difference.
#[derive(Clone, Copy, Debug, PartialEq, Eq, Error)]
pub enum SurfaceError {
    /// An earlier call that changes the surface was refused memory. Nothing was changed; every call that
    /// changes the surface, and `get_changes`, returns this from then on.
    #[error("the surface has failed")]
    Failed,
    /// The number of changes would pass `usize::MAX`. Nothing was changed.
    #[error("the numbers are used up")]
    Number,
    /// There was no memory. A surface that the call would have changed has failed, and its cells are
    /// unspecified; any other surface is as it was.
    #[error("out of memory")]
    Memory,
}

impl From<AllocError> for SurfaceError {
    ghost from_gives = { λ _ e. e ≡ Memory };

    fn from(_error: AllocError) -> SurfaceError {
        SurfaceError::Memory
    }
}
