//! The memory of dropped texts, kept for later ones.
ghost use Rattle.std.specs.Prelude.{◌≡◌, ◌≤◌, []};
ghost use Rattle.std.specs.String.{string_bytes};

use std::alloc::{AllocError, Global};
use std::marker::Model;

// The most texts whose memory is kept, and the most bytes that are kept of one text.
const MOST_TEXTS: usize = 4096;

const MOST_BYTES: usize = 1024;

/// The most bytes of memory that are kept.
pub(crate) const MOST_POOLED: usize = 65536;

/// Texts whose memory is kept. In contracts the value of a pool is their capacity in bytes, summed.
#[derive(Drop)]
pub(crate) struct TextPool {
    texts: Vec<String>,
    bytes: usize,
}

impl Model for TextPool {
    ghost use Rattle.std.specs.Prelude.{ℕ};
    ghost use Rattle.screen_log.specs.TextPoolView.{pooled_bytes, AreCounted};

    ghost Value = { ℕ };

    ghost view = { λ s. pooled_bytes s.texts.items };

    ghost invariant = { λ s. AreCounted s.texts.items s.bytes };
}

impl TextPool {
    /// An empty pool.
    pub(crate) fn new(alloc: Global) -> TextPool
        ensures { result ≤ MOST_POOLED }
    {
        TextPool {
            texts: Vec::new(alloc),
            bytes: 0,
        }
    }

    /// Makes room to keep the memory of `count` more texts, as far as it would be kept.
    #[inline(always)]
    pub(crate) fn reserve(&mut self, count: usize) -> Result<(), AllocError>
        ensures { self.new ≡ self.old }
    {
        let most = MOST_TEXTS - self.texts.len();
        self.texts.reserve(count.min(most))
    }

    /// Keeps the memory of a text, unless it is more than `MOST_BYTES`, all kept memory would exceed `MOST_POOLED`, or
    /// there is no slot for one more text. It asks for no memory.
    #[inline(always)]
    pub(crate) fn put(&mut self, text: String)
        ensures { self.new ≤ MOST_POOLED }
    {
        let bytes = text.capacity();
        let most = self.texts.capacity().min(MOST_TEXTS);
        if MOST_BYTES < bytes || MOST_POOLED - self.bytes < bytes || most <= self.texts.len() {
            return;
        }
        self.texts.push_reserved(text);
        self.bytes += bytes;
    }

    /// An empty text, with memory that is kept, where there is some.
    #[inline(always)]
    pub(crate) fn take(&mut self, alloc: Global) -> String
        ensures empty { string_bytes result ≡ [] }
        ensures bounded { self.new ≤ MOST_POOLED }
    {
        let Some(mut text) = self.texts.pop() else {
            return String::new(alloc);
        };
        self.bytes -= text.capacity();
        text.clear();
        text
    }
}
