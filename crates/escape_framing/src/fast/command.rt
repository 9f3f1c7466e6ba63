//! Operating system commands that are whole at the start of the bytes, whose body is lent and not copied.
ghost use Rattle.std.specs.Prelude.{IfSome};
ghost use Rattle.escape_framing.specs.Read.{whole_command, ReadsEvent};

use crate::bodies::body_of;
use crate::bytes::{BEL, ESCAPE};
use crate::fast::after_introducer;
use crate::framer::Framer;
use crate::texts::after;

impl Framer {
    /// The operating system command at the start of some bytes of one call, where nothing is unfinished, the bytes
    /// decide it, and no byte of it is a control or a C2: its body, and how many bytes `next` would have read at its
    /// event, without an ESC that ends it. The framer needs no change for this command: the caller goes on after these
    /// bytes. `None`: take the general way.
    #[inline(always)]
    pub fn whole_command<'a>(&self, bytes: &'a [u8]) -> Option<(&'a [u8], usize)>
        ensures { IfSome result
            (λ c. ReadsEvent self.now.held bytes.now (whole_command c.1) (record self.now { body = c.0.now })) }
    {
        let remaining = after_introducer(bytes, b']')?;
        if !self.is_idle() {
            return None;
        }
        let body = body_of(remaining);
        let (byte, _) = after(remaining, body.len()).split_first()?;
        match *byte {
            BEL => Some((body, body.len() + 3)),
            ESCAPE => Some((body, body.len() + 2)),
            _ => None,
        }
    }
}
