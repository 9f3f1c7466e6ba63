//! Why a row can't be run.
ghost use Rattle.std.specs.Prelude.{◌≡◌};
ghost use Rattle.cases.specs.declared.fault.Fault.TheVariants.{Memory, Write};

use cell_surface::SurfaceError;
use escape_stream::ParseError;
use std::alloc::{AllocError, AllocFailed};
use std::io;
use terminal::{RunError, TerminalError};
use thiserror::Error;

/// Why a row can't be run.
#[derive(Clone, Copy, Debug, Error)]
pub enum Fault {
    /// There was no memory.
    #[error("out of memory")]
    Memory,
    /// A report could not be written.
    #[error("cannot write")]
    Write,
    /// No heading above the rows names a kind.
    #[error("no such kind of case")]
    Kind,
    /// There is no arrow between the arguments and the answer.
    #[error("no ` => `")]
    Arrow,
    /// The kind takes a different number of arguments.
    #[error("another number of arguments is wanted")]
    Columns,
    /// A `\` and what follows it begin no escape.
    #[error("no such escape")]
    Escape,
    /// A text was expected, and these bytes are not UTF-8.
    #[error("not UTF-8")]
    Utf8,
    /// A number was expected, or a number in another range.
    #[error("not a number that can stand here")]
    Number,
    /// A word names no call, attribute or type.
    #[error("no such word")]
    Word,
}

impl From<AllocError> for Fault {
    ghost from_gives = { λ _ e. e ≡ Memory };

    fn from(_error: AllocError) -> Fault {
        Fault::Memory
    }
}

impl<T: Drop> From<AllocFailed<T>> for Fault {
    ghost from_gives = { λ _ e. e ≡ Memory };

    fn from(_error: AllocFailed<T>) -> Fault {
        Fault::Memory
    }
}

impl From<ParseError> for Fault {
    ghost from_gives = { λ _ e. e ≡ Memory };

    fn from(_error: ParseError) -> Fault {
        Fault::Memory
    }
}

impl From<TerminalError> for Fault {
    ghost from_gives = { λ _ e. e ≡ Memory };

    fn from(_error: TerminalError) -> Fault {
        Fault::Memory
    }
}

impl From<RunError> for Fault {
    ghost from_gives = { λ _ e. e ≡ Memory };

    fn from(_error: RunError) -> Fault {
        Fault::Memory
    }
}

impl From<SurfaceError> for Fault {
    ghost from_gives = { λ _ e. e ≡ Memory };

    fn from(_error: SurfaceError) -> Fault {
        Fault::Memory
    }
}

impl From<io::Error> for Fault {
    ghost from_gives = { λ _ e. e ≡ Write };

    fn from(_error: io::Error) -> Fault {
        Fault::Write
    }
}
