//! Readers and writers that give and take a few bytes at a time, and fail.
use std::alloc::Global;
use std::io;
use std::io::{ErrorKind, Read, Write};

/// Gives its bytes a few at a time, and fails at one read, or where one asks for more than 4,096
/// bytes.
#[derive(Drop)]
pub struct Chunks {
    pub bytes: &'static [u8],
    pub most: usize,
    pub reads_left: usize,
}

impl Read for Chunks {
    fn read(&mut self, buf: &mut [u8]) -> io::Result<usize> {
        if self.reads_left == 0 || buf.len() > 4096 {
            self.reads_left = usize::MAX;
            return Err(io::Error::from(ErrorKind::UnexpectedEof));
        }
        self.reads_left -= 1;
        let wanted = buf.len().min(self.most);
        self.bytes.read(&mut buf[..wanted])
    }
}

/// Takes a few bytes at a time, and fails at one write, or at one flush.
#[derive(Drop)]
pub struct Sink {
    pub text: Vec<u8>,
    pub most: usize,
    pub writes_left: usize,
    pub flushes_left: usize,
}

impl Write for Sink {
    fn write(&mut self, buf: &[u8]) -> io::Result<usize> {
        if self.writes_left == 0 {
            self.writes_left = usize::MAX;
            return Err(io::Error::from(ErrorKind::BrokenPipe));
        }
        self.writes_left -= 1;
        let count = buf.len().min(self.most);
        self.text.extend_from_slice(&buf[..count])?;
        Ok(count)
    }

    fn flush(&mut self) -> io::Result<()> {
        if self.flushes_left == 0 {
            self.flushes_left = usize::MAX;
            return Err(io::Error::from(ErrorKind::TimedOut));
        }
        self.flushes_left -= 1;
        Ok(())
    }
}

/// A writer of `most` bytes at a time that fails after `writes_left` writes, or after `flushes_left` flushes.
pub fn sink_of(alloc: Global, most: usize, writes_left: usize, flushes_left: usize) -> Sink {
    Sink {
        text: Vec::new(alloc),
        most,
        writes_left,
        flushes_left,
    }
}
