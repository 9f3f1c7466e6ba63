//! A writer that takes no memory.
use std::io;
use std::io::{ErrorKind, Write};

/// A writer that takes up to 256 bytes.
#[derive(Drop)]
pub struct Sink {
    bytes: [u8; 256],
    count: usize,
}

impl Sink {
    /// A sink without bytes.
    pub fn new() -> Sink {
        Sink {
            bytes: [0u8; 256],
            count: 0,
        }
    }

    /// What it has taken.
    pub fn taken(&self) -> &[u8] {
        self.bytes.get(..self.count).unwrap_or(&[])
    }
}

impl Write for Sink {
    fn write(&mut self, buf: &[u8]) -> io::Result<usize> {
        for byte in buf {
            match self.bytes.get_mut(self.count) {
                Some(position) => *position = *byte,
                None => return Err(io::Error::from(ErrorKind::Other)),
            }
            self.count = self.count.saturating_add(1);
        }
        Ok(buf.len())
    }

    fn flush(&mut self) -> io::Result<()> {
        Ok(())
    }
}
