//! Where screens are written.
ghost use Rattle.std.specs.Prelude.{◌≡◌, ◌++◌, ℕ, Bool, List, None, Option, true, false, IsErrAnd, OnErr, OnOk};
ghost use Rattle.std.specs.Io.{WritesAtMost};
ghost use Rattle.std.specs.Io.KnownBytes.{Appends, Keeps, WriteAppends};
ghost use Rattle.std.specs.IoError.{error_kind};
ghost use Rattle.terminal.specs.Shown.{AppendsPrefix};
ghost use Rattle.shot.specs.Sinks.{lead};

use crate::error::ShotError;
use crate::names::{Numbered, file_name};
use std::alloc::Global;
use std::io::{ErrorKind, Write};
use std::rt::Files;
use std::{fs, io};

/// Where screens are written.
pub trait Sink {
    // The bytes that were written, where they are known.
    ghost contents: { Self → Option (List ℕ) };

    // Whether nobody reads them any more.
    ghost is_closed: { Self → Bool };

    /// Writes a screen after `number` other ones; `between` parts them where they come one after another.
    fn write_screen(&mut self, number: u64, between: &str, text: &str) -> Result<(), ShotError>
        ensures ok { OnOk result
            (Appends (contents self.old) (contents self.new) (lead number between.now ++ text.now)) }
        ensures err { OnErr result
            (AppendsPrefix (contents self.old) (contents self.new) (lead number between.now ++ text.now)) };

    /// Hands on what was written.
    fn finish(&mut self) -> Result<(), ShotError>
        ensures { Keeps (contents self.old) (contents self.new) };

    /// Whether nobody reads any more what is written.
    fn is_closed(&self) -> bool
        ensures { result ≡ is_closed self.now };

    /// The name of the file that was written last, or an empty text.
    fn file(&self) -> &str;
}

/// A stream of screens one after another, which remembers whether its reader has gone.
#[derive(Drop)]
pub struct Stream<T> {
    inner: T,
    is_closed: bool,
}

impl<T: Write> Stream<T> {
    /// A stream that is read, as far as is known.
    pub fn new(inner: T) -> Stream<T>
        ensures inner { result.inner ≡ inner }
        ensures open { result.is_closed ≡ false }
    {
        Stream {
            inner,
            is_closed: false,
        }
    }

    // Notes whether a call was refused since the reader has gone.
    fn note(&mut self, error: &io::Error)
        ensures inner { self.new.inner ≡ self.old.inner }
        ensures closes { error_kind error.now ≡ ErrorKind.BrokenPipe → self.new.is_closed ≡ true }
        ensures stays { self.old.is_closed ≡ true → self.new.is_closed ≡ true }
        ensures only { self.old.is_closed ≡ false → self.new.is_closed ≡ true
            → error_kind error.now ≡ ErrorKind.BrokenPipe }
    {
        if error.kind() == ErrorKind::BrokenPipe {
            self.is_closed = true;
        }
    }

    // Writes as the writer does.
    fn write(&mut self, bytes: &[u8]) -> io::Result<usize>
        ensures bound { WritesAtMost result bytes.now }
        ensures bytes { WriteAppends (T.contents self.old.inner) (T.contents self.new.inner) result bytes.now }
        ensures closed { self.old.is_closed ≡ false → self.new.is_closed ≡ true
            → IsErrAnd result (λ error. error_kind error ≡ ErrorKind.BrokenPipe) }
        ensures closes { IsErrAnd result (λ error. error_kind error ≡ ErrorKind.BrokenPipe)
            → self.new.is_closed ≡ true }
    {
        let result = self.inner.write(bytes);
        if let Err(error) = &result {
            self.note(error);
        }
        result
    }

    // Writes all the bytes; each write may take a part of them. The first fault ends it.
    fn write_all(&mut self, bytes: &[u8]) -> Result<(), ShotError>
        ensures ok { OnOk result (Appends (T.contents self.old.inner) (T.contents self.new.inner) bytes.now) }
        ensures err { OnErr result (AppendsPrefix (T.contents self.old.inner) (T.contents self.new.inner) bytes.now) }
    {
        let mut written = 0;
        while written < bytes.len() {
            match self.write(&bytes[written..]) {
                Ok(0) => return Err(ShotError::Write),
                Ok(count) => written += count,
                Err(_) => return Err(ShotError::Write),
            }
        }
        Ok(())
    }
}

// What is written before a screen after `number` other ones.
fn lead(number: u64, between: &str) -> &str
    ensures { result.now ≡ lead number between.now }
{
    if number == 0 { "" } else { between }
}

impl<T: Write> Sink for Stream<T> {
    ghost contents = { λ stream. T.contents stream.inner };

    ghost is_closed = { λ stream. stream.is_closed };

    #[tactic(auto, using(crate::proofs::WriteLemmas::prefix_then, crate::proofs::WriteLemmas::prefix_stops))]
    fn write_screen(&mut self, number: u64, between: &str, text: &str) -> Result<(), ShotError> {
        self.write_all(lead(number, between).as_bytes())?;
        self.write_all(text.as_bytes())
    }

    fn finish(&mut self) -> Result<(), ShotError> {
        match self.inner.flush() {
            Ok(()) => Ok(()),
            Err(error) => {
                self.note(&error);
                Err(ShotError::Write)
            }
        }
    }

    fn is_closed(&self) -> bool {
        self.is_closed
    }

    fn file(&self) -> &str {
        ""
    }
}

/// Files with a screen each.
#[derive(Drop)]
pub struct NumberedFiles<'a, R> {
    rt: &'a R,
    alloc: Global,
    name: Numbered<'a>,
    file: String,
}

impl<'a, R> NumberedFiles<'a, R> {
    /// Files of a name.
    pub fn new(rt: &'a R, alloc: Global, name: Numbered<'a>) -> NumberedFiles<'a, R> {
        NumberedFiles {
            rt,
            alloc,
            name,
            file: String::new(alloc),
        }
    }
}

impl<R: Files> Sink for NumberedFiles<'_, R> {
    ghost contents = { λ _. None };

    ghost is_closed = { λ _. false };

    #[tactic(auto, using(crate::proofs::WriteLemmas::prefix_none))]
    fn write_screen(&mut self, number: u64, _between: &str, text: &str) -> Result<(), ShotError> {
        self.file = file_name(self.alloc, self.name, number.saturating_add(1))?;
        let Ok(mut file) = fs::create(self.rt, self.file.as_str()) else {
            return Err(ShotError::Write);
        };
        if file.write_all(text.as_bytes()).is_err() || file.flush().is_err() {
            return Err(ShotError::Write);
        }
        Ok(())
    }

    fn finish(&mut self) -> Result<(), ShotError> {
        Ok(())
    }

    fn is_closed(&self) -> bool {
        false
    }

    fn file(&self) -> &str {
        &self.file
    }
}
