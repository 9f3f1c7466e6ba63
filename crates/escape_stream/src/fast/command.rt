//! Operating system commands that are whole at the start of the bytes: their body is lent from the bytes of the call.
ghost use Rattle.std.specs.Prelude.{◌≡◌, ◌≢◌, None, length};
ghost use Rattle.escape_stream.specs.PiecesView.{IsGoing};
ghost use Rattle.escape_stream.specs.Walking.{FindsWhole};

use crate::action::Action;
use crate::pieces::Reading;
use std::alloc::AllocError;

impl<'p, 'a> Reading<'p, 'a> {
    // Reads the operating system command at the start of the remaining bytes, if it is whole. `None`: take the general
    // way.
    #[inline(always)]
    pub(crate) fn read_command(&mut self) -> Option<Result<Action, AllocError>>
        requires going { IsGoing self.old }
        requires over { self.old.sequence ≡ None }
        requires some { self.old.count ≢ length self.old.bytes.now }
        ensures { FindsWhole self.old result self.new }
    {
        let before = self.count;
        let bytes = self.rest();
        let (body, count) = self.parser.framer().whole_command(bytes)?;
        self.count = before + count;
        Some(self.parser.command_action(body))
    }
}
