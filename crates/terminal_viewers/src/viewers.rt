//! Laws of viewers: which screen a viewer shows that reads updates. Each is the contract of a function that does
//! nothing.
ghost use Rattle.terminal_viewers.specs.Viewers.{ScreensShowThemselves, UpdatesAreShown, UpdatesLeaveIdle};
ghost use Rattle.terminal_viewers.specs.Viewers.{UpdatesLeaveNewViewersIdle, UpdatesShowTheInput, ViewersGoOnShowing};

use crate::update_laws::{updates_have_encodings, updates_paint_the_screen};
use escape_framing::laws::one_cut;
use escape_stream::action_laws::actions_of_chunks_join;
use terminal_render::encoding_laws::spelled_changes_are_writable;
use terminal_render::laws::lists_have_the_effect;

/// A screen that shows a terminal's screen at a number goes on to show it at that number, whatever bytes the
/// terminal reads, wherever it takes a look and whatever its log forgets, if the screen repeats the terminal's
/// resizes in turn: where changes are due from that number on, they turn the one screen into the other. And
/// each screen shows itself at the number of its log.
pub fn viewers_go_on_showing()
    ensures history { ViewersGoOnShowing }
    ensures seen { ScreensShowThemselves }
{
    one_cut();
}

/// A viewer of a screen's size that shows the screen at a number, is ready for changes and has nothing
/// unfinished, shows the screen once it is fed the update for that number: its saved cursor and its
/// replies stay, nothing is unfinished and no run is held. The screen's cells are sound, and they and the
/// changes that its log keeps have an encoding.
pub fn viewers_read_updates()
    ensures shown { UpdatesAreShown }
    ensures idle { UpdatesLeaveIdle }
{
    lists_have_the_effect();
    spelled_changes_are_writable();
    updates_have_encodings();
    updates_paint_the_screen();
}

/// A new viewer that is fed all updates of an input shows the terminal's screen in the end, and is idle.
pub fn updates_show_the_input()
    ensures shown { UpdatesShowTheInput }
    ensures idle { UpdatesLeaveNewViewersIdle }
{
    one_cut();
    actions_of_chunks_join();
    viewers_read_updates();
}
