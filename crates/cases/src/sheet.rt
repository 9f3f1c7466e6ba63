//! What a call answered, as a row writes it: words in columns.
use crate::fault::Fault;
use std::alloc::Global;
use std::fmt::{Debug, Display};

/// The columns of an answer, with ` | ` between them, and the words of each with a space between them. What goes wrong
/// while it is written is kept, and returned at its end.
#[derive(Drop)]
pub struct Sheet {
    alloc: Global,
    bytes: Vec<u8>,
    begun: bool,
    fault: Option<Fault>,
}

impl Sheet {
    /// One column without a word.
    pub fn new(alloc: Global) -> Sheet {
        Sheet {
            alloc,
            bytes: Vec::new(alloc),
            begun: false,
            fault: None,
        }
    }

    /// Keeps what went wrong, if nothing has before.
    pub fn fail(&mut self, fault: Fault) {
        if self.fault.is_none() {
            self.fault = Some(fault);
        }
    }

    /// What was written, or what went wrong first.
    pub fn finish(self) -> Result<Vec<u8>, Fault> {
        let Sheet { bytes, fault, .. } = self;
        match fault {
            None => Ok(bytes),
            Some(fault) => Err(fault),
        }
    }

    /// Whether the same was written.
    pub fn is_as(&self, other: &Sheet) -> bool {
        self.bytes.as_slice() == other.bytes.as_slice()
    }

    /// Begins the next column.
    pub fn column(&mut self) {
        self.add(b" | ");
        self.begun = false;
    }

    /// Goes on with the word that was begun, with any bytes.
    pub fn add(&mut self, bytes: &[u8]) {
        self.begun = true;
        if self.bytes.extend_from_slice(bytes).is_err() {
            self.fail(Fault::Memory);
        }
    }

    /// Writes a word.
    pub fn word(&mut self, text: &str) {
        if self.begun {
            self.add(b" ");
        }
        self.add(text.as_bytes());
    }

    /// Writes a word where something holds.
    pub fn word_if(&mut self, holds: bool, text: &str) {
        if holds {
            self.word(text);
        }
    }

    /// Writes bytes between quotes as a word.
    pub fn quoted_bytes(&mut self, bytes: &[u8]) {
        self.word("\"");
        self.add(bytes);
        self.add(b"\"");
    }

    /// Writes a text between quotes as a word.
    pub fn quoted(&mut self, text: &str) {
        self.quoted_bytes(text.as_bytes());
    }

    /// Goes on with a value.
    pub fn add_shown<T: Display>(&mut self, value: &T) {
        match value.to_string(self.alloc) {
            Ok(text) => self.add(text.as_bytes()),
            Err(_) => self.fail(Fault::Memory),
        }
    }

    /// Goes on with a byte by its two digits.
    pub fn add_hex(&mut self, byte: u8) {
        match format!(in self.alloc; "{byte:02x}") {
            Ok(text) => self.add(text.as_bytes()),
            Err(_) => self.fail(Fault::Memory),
        }
    }

    /// Goes on with a value's `Debug`.
    pub fn add_debug<T: Debug>(&mut self, value: &T) {
        match format!(in self.alloc; "{value:?}") {
            Ok(text) => self.add(text.as_bytes()),
            Err(_) => self.fail(Fault::Memory),
        }
    }

    /// Writes a value as a word.
    pub fn show<T: Display>(&mut self, value: &T) {
        self.word("");
        self.add_shown(value);
    }

    /// Writes a value's `Debug` as a word.
    pub fn debug<T: Debug>(&mut self, value: &T) {
        self.word("");
        self.add_debug(value);
    }
}
