//! Readers and writers whose failures are seen.
ghost use Rattle.std.specs.Prelude.{◌≡◌, ◌==◌, ◌||◌, ◌&&◌, false, length, is_err, is_ok};
ghost use Rattle.std.specs.Prelude.{IsErr, IsErrOf, OnOk, OnErr};
ghost use Rattle.std.specs.Io.{ReadsAtMost, WritesAtMost};
ghost use Rattle.std.specs.Io.KnownBytes.{ReadConsumes, WriteAppends, Appends, Keeps};
ghost use Rattle.terminal.specs.Shown.{AppendsPrefix};
ghost use Rattle.terminal.specs.Watched.{counted, is_fault};

use crate::error::RunError;
use std::io;
use std::io::{Read, Write};
use std::marker::Model;

/// A reader or a writer that remembers whether it has failed and whether it was called after that, how
/// often it was read and how often it was flushed, and whether the last write or flush was a flush that
/// was no fault.
#[derive(Drop)]
pub struct Watched<T> {
    inner: T,
    has_failed: bool,
    has_gone_on: bool,
    reads: u64,
    flushes: u64,
    is_flushed: bool,
}

impl<T> Model for Watched<T> {
    ghost use Rattle.terminal.specs.Watched.{Watched as Value_of};

    ghost Value = { Value_of T };

    ghost use Rattle.terminal.specs.WatchedView.{watched_of};

    ghost view = { watched_of };
}

impl<T> Watched<T> {
    /// Watches a reader or a writer.
    pub fn new(inner: T) -> Watched<T>
        ensures { result ≡ record {
          inner = inner;
          has_failed = false;
          has_gone_on = false;
          reads = 0;
          flushes = 0;
          is_flushed = false;
        } }
    {
        Watched {
            inner,
            has_failed: false,
            has_gone_on: false,
            reads: 0,
            flushes: 0,
            is_flushed: false,
        }
    }

    /// Whether a read, a write or a flush was a fault. A write that takes none of at least one byte
    /// is one.
    pub fn failed(&self) -> bool
        ensures { result ≡ self.now.has_failed }
    {
        self.has_failed
    }

    /// Whether it was read, written or flushed after a fault.
    pub fn has_gone_on(&self) -> bool
        ensures { result ≡ self.now.has_gone_on }
    {
        self.has_gone_on
    }

    /// The reader or writer itself.
    pub fn into_inner(self) -> T
        ensures { result ≡ self.inner }
    {
        self.inner
    }

    /// How often it was read, up to `u64::MAX`.
    pub fn reads(&self) -> u64
        ensures { result ≡ self.now.reads }
    {
        self.reads
    }

    /// How often it was flushed, up to `u64::MAX`.
    pub fn flushes(&self) -> u64
        ensures { result ≡ self.now.flushes }
    {
        self.flushes
    }

    /// Whether the last call of `write` or `flush` was a flush that was no fault. At first it is false.
    pub fn is_flushed(&self) -> bool
        ensures { result ≡ self.now.is_flushed }
    {
        self.is_flushed
    }
}

impl<T: Read> Watched<T> {
    /// Reads as the reader does.
    pub fn read(&mut self, buffer: &mut [u8]) -> io::Result<usize>
        ensures bound { ReadsAtMost result buffer.new }
        ensures bytes { ReadConsumes (T.remaining self.old.inner) (T.remaining self.new.inner) result buffer.new }
        ensures failed { self.new.has_failed ≡ (self.old.has_failed || is_err result) }
        ensures reads { self.new.reads ≡ counted self.old.reads }
        ensures gone_on { self.new.has_gone_on ≡ (self.old.has_failed || self.old.has_gone_on) }
        ensures flushes { self.new.flushes ≡ self.old.flushes }
        ensures flushed { self.new.is_flushed ≡ self.old.is_flushed }
    {
        self.has_gone_on = self.has_failed || self.has_gone_on;
        self.reads = self.reads.saturating_add(1);
        let result = self.inner.read(buffer);
        if result.is_err() {
            self.has_failed = true;
        }
        result
    }
}

impl<T: Write> Watched<T> {
    /// Writes as the writer does.
    pub fn write(&mut self, bytes: &[u8]) -> io::Result<usize>
        ensures bound { WritesAtMost result bytes.now }
        ensures bytes { WriteAppends (T.contents self.old.inner) (T.contents self.new.inner) result bytes.now }
        ensures failed { self.new.has_failed ≡ (self.old.has_failed || is_fault bytes.now result) }
        ensures reads { self.new.reads ≡ self.old.reads }
        ensures gone_on { self.new.has_gone_on ≡ (self.old.has_failed || self.old.has_gone_on) }
        ensures flushes { self.new.flushes ≡ self.old.flushes }
        ensures flushed { self.new.is_flushed ≡ false }
    {
        self.has_gone_on = self.has_failed || self.has_gone_on;
        self.is_flushed = false;
        let result = self.inner.write(bytes);
        let is_fault = match result {
            Ok(count) => count == 0 && !bytes.is_empty(),
            Err(_) => true,
        };
        if is_fault {
            self.has_failed = true;
        }
        result
    }

    /// Writes all the bytes; each write may take a part of them. The first fault ends the call with the error
    /// `Write`.
    pub fn write_all(&mut self, bytes: &[u8]) -> Result<(), RunError>
        ensures ok { OnOk result (Appends (T.contents self.old.inner) (T.contents self.new.inner) bytes.now) }
        ensures err { OnErr result (AppendsPrefix (T.contents self.old.inner) (T.contents self.new.inner) bytes.now) }
        ensures only { IsErr result → IsErrOf result RunError.Write }
        ensures failed { self.new.has_failed ≡ (self.old.has_failed || is_err result) }
        ensures reads { self.new.reads ≡ self.old.reads }
        ensures gone_on { self.old.has_failed ≡ false → self.new.has_gone_on ≡ self.old.has_gone_on }
        ensures flushes { self.new.flushes ≡ self.old.flushes }
        ensures flushed { self.new.is_flushed ≡ ((length bytes.now == 0) && self.old.is_flushed) }
    {
        let mut written = 0;
        while written < bytes.len() {
            match self.write(&bytes[written..]) {
                Ok(0) => return Err(RunError::Write),
                Ok(count) => written += count,
                Err(_) => return Err(RunError::Write),
            }
        }
        Ok(())
    }

    /// Flushes the writer.
    pub fn flush(&mut self) -> io::Result<()>
        ensures bytes { Keeps (T.contents self.old.inner) (T.contents self.new.inner) }
        ensures failed { self.new.has_failed ≡ (self.old.has_failed || is_err result) }
        ensures reads { self.new.reads ≡ self.old.reads }
        ensures gone_on { self.new.has_gone_on ≡ (self.old.has_failed || self.old.has_gone_on) }
        ensures flushes { self.new.flushes ≡ counted self.old.flushes }
        ensures flushed { self.new.is_flushed ≡ is_ok result }
    {
        self.has_gone_on = self.has_failed || self.has_gone_on;
        self.flushes = self.flushes.saturating_add(1);
        let result = self.inner.flush();
        self.is_flushed = result.is_ok();
        if result.is_err() {
            self.has_failed = true;
        }
        result
    }
}
