//! Laws of sessions of a terminal and its viewers: a viewer shows the screen of the one that answered it. Each is the
//! contract of a function that does nothing.
ghost use Rattle.terminal_viewers.specs.Showing.{AnswersAreShown, RepliesAreSeparate, RoundsAreShown};
ghost use Rattle.terminal_viewers.specs.Showing.{TerminalsGoTheirWay, ViewersStay};

use crate::patch_laws::viewers_read_patches;
use crate::viewers::viewers_read_updates;
use escape_framing::laws::one_cut;

/// In every session, with updates, patches, resizes and forgotten changes in any mix, a viewer that repeats the
/// resizes and reads each answer to its end shows then the screen of the terminal or viewer that answered it.
/// Where the viewers of a chain are answered one after another, each shows the terminal's screen.
pub fn sessions_show_the_screen()
    ensures answers { AnswersAreShown }
    ensures rounds { RoundsAreShown }
{
    one_cut();
    viewers_read_updates();
    viewers_read_patches();
}

/// The terminal of a session goes through its steps, and a look for each answer to its viewer, and through nothing
/// else; there are as many viewers as at first; and taking replies from the terminal, at any time, changes nothing
/// else of the session.
pub fn sessions_go_on()
    ensures terminal { TerminalsGoTheirWay }
    ensures viewers { ViewersStay }
    ensures replies { RepliesAreSeparate }
{}
