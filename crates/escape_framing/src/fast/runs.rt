//! Runs of bytes that hand nothing out, read at once.
ghost use Rattle.std.specs.Prelude.{◌≡◌, ◌<◌, IfNone, IfOk, IfSome, None, OnErr};
ghost use Rattle.escape_framing.specs.Held.{TakesMemory};
ghost use Rattle.escape_framing.specs.Read.{ReadsEvent};
ghost use Rattle.escape_framing.specs.declared.event.Read.TheVariants as read_as;

use crate::bodies::{body_of, string_len};
use crate::framer::Framer;
use crate::states::State;
use std::alloc::AllocError;

// A count, unless it is 0.
#[inline(always)]
fn some_count(count: usize) -> Option<usize>
    ensures some { IfSome result (λ n. (0 < n) × (n ≡ count)) }
    ensures none { IfNone result (count ≡ 0) }
{
    if count == 0 { None } else { Some(count) }
}

impl Framer {
    // Reads the bytes at the start that hand nothing out and leave no character begun: parameter bytes, and the literal
    // bytes of a body or of a string that does nothing, up to one that may end it or be no byte of it. Returns how many
    // they are. `None`: take the general way.
    pub(crate) fn read_run(&mut self, bytes: &[u8]) -> Result<Option<usize>, AllocError>
        ensures some { IfOk result
            (λ run. IfSome run (λ n. ReadsEvent self.old.held bytes.now (read_as.Bytes None n) self.new)) }
        ensures none { IfOk result (λ run. IfNone run (self.new.held ≡ self.old.held)) }
        ensures memory { OnErr result (TakesMemory self.old.held.kept) }
    {
        match self.state {
            State::ControlSequence if !self.waiting => {
                Ok(some_count(self.parameters.push_all(bytes)))
            }
            State::Command if !self.waiting => {
                let run = body_of(bytes);
                self.body.extend_from_slice(run)?;
                Ok(some_count(run.len()))
            }
            State::String if !self.waiting => Ok(some_count(string_len(bytes))),
            _ => Ok(None),
        }
    }
}
