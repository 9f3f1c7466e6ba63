//! Texts that lie on the heap.
ghost use Rattle.std.specs.Prelude.{◌≡◌, ◌<◌, length, IfOk};
ghost use Rattle.std.specs.String.{string_bytes};

use std::alloc::{AllocError, Global};

// A text of more than 15 bytes, and whether it takes two columns. Its `String` is boxed, so that a cell is small.
#[derive(Debug, Drop)]
pub(crate) struct LongText {
    pub(crate) text: Box<String>,
    pub(crate) is_wide: bool,
    ghost longer: { 15 < length (string_bytes text.value) },
}

impl LongText {
    pub(crate) fn new(alloc: Global, text: &str, is_wide: bool) -> Result<LongText, AllocError>
        requires { 15 < length text.now }
        ensures text { IfOk result (λ long. string_bytes long.text.value ≡ text.now) }
        ensures width { IfOk result (λ long. long.is_wide ≡ is_wide) }
    {
        let text = String::from_str(alloc, text)?;
        let text = Box::new(alloc, text)?;
        Ok(LongText { text, is_wide })
    }

    pub(crate) fn as_str(&self) -> &str
        ensures { result.now ≡ string_bytes self.now.text.value }
    {
        self.text.as_str()
    }

    pub(crate) fn try_clone(&self) -> Result<LongText, AllocError>
        ensures text { IfOk result (λ copy. string_bytes copy.text.value ≡ string_bytes self.now.text.value) }
        ensures width { IfOk result (λ copy. copy.is_wide ≡ self.now.is_wide) }
    {
        let alloc = *self.text.allocator();
        LongText::new(alloc, self.as_str(), self.is_wide)
    }
}
