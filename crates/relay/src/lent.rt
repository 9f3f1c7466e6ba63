//! A writer that is lent, about which contracts can state that it is still the same writer, and which remembers whether
//! its pipe is broken.
ghost use Rattle.std.specs.Prelude.{◌≡◌, ◌⊎◌, ◌↔◌, IsErrAnd, IsTrue};
ghost use Rattle.std.specs.Io.{WritesAtMost};
ghost use Rattle.std.specs.Io.KnownBytes.{Keeps, WriteAppends};
ghost use Rattle.std.specs.IoError.{error_kind};
ghost use Rattle.relay.specs.Lent.{named};

use std::io;
use std::io::{ErrorKind, Write};

/// A lent writer. Its contents, for contracts, are the name of the reference and then the writer's bytes. So a call
/// whose contract says that it only appends to the contents hasn't replaced the reference by another one.
pub struct Lent<'a, T> {
    pub inner: &'a mut T,
    /// Whether a write or a flush has failed because nobody reads the pipe any more.
    pub is_broken: bool,
}

// Whether a write or a flush failed because nobody reads the pipe any more.
fn is_broken_pipe(error: &io::Error) -> bool
    ensures { IsTrue result ↔ (error_kind error.now ≡ ErrorKind.BrokenPipe) }
{
    error.kind() == ErrorKind::BrokenPipe
}

impl<T: Write> Write for Lent<'_, T> {
    ghost contents = { λ lent. named lent.inner.ghost_name (T.contents lent.inner.now) };

    fn write(&mut self, bytes: &[u8]) -> io::Result<usize>
        ensures bound { WritesAtMost result bytes.now }
        ensures bytes { WriteAppends (named self.old.inner.ghost_name (T.contents self.old.inner.now))
            (named self.new.inner.ghost_name (T.contents self.new.inner.now)) result bytes.now }
        ensures broken { IsTrue self.new.is_broken
            ↔ (IsTrue self.old.is_broken ⊎ IsErrAnd result (λ error. error_kind error ≡ ErrorKind.BrokenPipe)) }
    {
        let result = self.inner.write(bytes);
        if let Err(error) = &result {
            self.is_broken = self.is_broken || is_broken_pipe(error);
        }
        result
    }

    fn flush(&mut self) -> io::Result<()>
        ensures bytes { Keeps (named self.old.inner.ghost_name (T.contents self.old.inner.now))
            (named self.new.inner.ghost_name (T.contents self.new.inner.now)) }
        ensures broken { IsTrue self.new.is_broken
            ↔ (IsTrue self.old.is_broken ⊎ IsErrAnd result (λ error. error_kind error ≡ ErrorKind.BrokenPipe)) }
    {
        let result = self.inner.flush();
        if let Err(error) = &result {
            self.is_broken = self.is_broken || is_broken_pipe(error);
        }
        result
    }
}
