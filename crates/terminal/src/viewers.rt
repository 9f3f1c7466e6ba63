//! Laws of viewers, as the contracts of functions that do nothing.
ghost use Rattle.std.specs.Prelude.{◌≡◌, ℕ, ◌+◌, ◌*◌, ◌++◌, All, map, take, ◌≤◌, false, List, [], ◌∷◌};
ghost use Rattle.std.specs.Prelude.{length, Some};
ghost use Rattle.cell_base.specs.Screen.{Screen, height};
ghost use Rattle.cell_base.specs.ScreenSize.{IsScreenSize};
ghost use Rattle.screen_change.specs.ChangeValue.{ChangeValue};
ghost use Rattle.cell_surface.specs.Surface.{number_of};
ghost use Rattle.escape_stream.specs.StreamAction.{StreamAction};
ghost use Rattle.escape_stream.specs.StreamText.{stream_text};
ghost use Rattle.escape_stream.specs.StreamWritable.{IsWritable};
ghost use Rattle.screen_effects.specs.Display.{IsDisplay};
ghost use Rattle.screen_effects.specs.Effect.{effect};
ghost use Rattle.terminal.specs.Headline.{StandsAt, GoesBy, PatchesPrintFresh, ViewersShow};
ghost use Rattle.terminal.specs.Terminal.{Terminal, IsIdle, state_in};
ghost use Rattle.terminal.specs.Viewing.{CanReadFrom, CanReadSince, ShowsAt, changes_for, patch_from, standing_of};
ghost use Rattle.terminal.specs.Viewing.{update_for, update_prints};
ghost use Rattle.terminal_table.specs.Prints.{IsPlain};
ghost use Rattle.terminal_render.specs.Rendering.{rendering};
ghost use Rattle.terminal_viewers.specs.Sessions.{Answer, Turn, new_chain, round, session};
ghost use Rattle.terminal_viewers.specs.Showing.{AllShow, IsTurn};
ghost use Rattle.terminal_render.specs.EncodedSizes.{AreShort, all_encoded_size, runs_in};
ghost use Rattle.terminal_table.specs.History.{History, Piece, Forget};
ghost use Rattle.terminal_table.specs.Meaning.{View, new_view};
ghost use Rattle.terminal_table.specs.Turns.{AreSizes};
ghost use Rattle.terminal_viewers.specs.Update.{display_on};
ghost use Rattle.terminal_viewers.specs.Updates.{updated, updates};
ghost use Rattle.terminal_viewers.specs.Viewers.{repeated};

use crate::terminal::Terminal;
use cell_base::Widths;
use cell_surface::laws::{forgotten_changes_are_not_due, surfaces_stay_lawful};
use escape_stream::encoding_laws::writable_lists_read_back;
use terminal_render::encoding_laws::{spelled_changes_are_rendered, spelled_changes_are_writable};
use terminal_render::laws::rendered_texts_have_the_effect;
use terminal_render::sizes::{
    deltas_print_each_run_once, encoded_changes_are_short, encoded_lists_are_short,
};
pub use terminal_table::print_laws::plain_streams_print_what_is_fresh;
use terminal_viewers::patch_laws::viewers_read_patches;
use terminal_viewers::update_laws::{updates_are_counted, updates_have_encodings};
use terminal_viewers::viewers::{
    updates_show_the_input, viewers_go_on_showing, viewers_read_updates,
};

/// An update for a number, fed to an idle viewer, a plain terminal that measures widths as the terminal does and shows
/// the terminal at that number, leaves a viewer that shows the terminal's screen, with its own saved cursor and replies
/// as they were, and that is idle.
pub fn updates_are_shown<W: Widths + Drop>(terminal: &Terminal<W>, viewer: &Terminal<W>)
    ensures shown { (number : ℕ) (after : Terminal W)
        → CanReadSince (λ w. W.width_of w) terminal.now viewer.now number
        → GoesBy (λ w. W.width_of w) viewer.now after (Piece (update_for terminal.now number) ∷ [])
        → state_in after ≡ record (state_in viewer.now) { screen = (state_in terminal.now).screen } }
    ensures idle { (number : ℕ) (after : Terminal W)
        → CanReadSince (λ w. W.width_of w) terminal.now viewer.now number
        → GoesBy (λ w. W.width_of w) viewer.now after (Piece (update_for terminal.now number) ∷ []) → IsIdle after }
{
    terminal.stands();
    viewer.stands();
    viewers_read_updates();
}

/// A patch from the screen of a terminal `shown`, fed to an idle viewer, a plain terminal that shows that screen, has
/// the terminal's size and measures widths as it does, leaves a viewer that shows the terminal's screen, with its own
/// saved cursor and replies as they were, and that is idle.
pub fn patches_are_shown<W: Widths + Drop>(terminal: &Terminal<W>, viewer: &Terminal<W>)
    ensures shown { (shown : Terminal W) (after : Terminal W)
        → CanReadFrom (λ w. W.width_of w) terminal.now viewer.now shown
        → GoesBy (λ w. W.width_of w) viewer.now after (Piece (patch_from terminal.now shown) ∷ [])
        → state_in after ≡ record (state_in viewer.now) { screen = (state_in terminal.now).screen } }
    ensures idle { (shown : Terminal W) (after : Terminal W)
        → CanReadFrom (λ w. W.width_of w) terminal.now viewer.now shown
        → GoesBy (λ w. W.width_of w) viewer.now after (Piece (patch_from terminal.now shown) ∷ []) → IsIdle after }
{
    terminal.stands();
    viewer.stands();
    viewers_read_patches();
}

/// A viewer that can read a patch prints from it the cells that it doesn't show yet, each once, row by row, and after
/// them, exactly where a wrap is pending on the terminal, the last visible cell of the cursor's row; nothing else that
/// it reads changes its rows, and nothing scrolls.
pub fn patches_print_the_fresh_cells<W: Widths + Drop>(terminal: &Terminal<W>, viewer: &Terminal<W>)
    ensures prints { PatchesPrintFresh (λ w. W.width_of w) terminal.now viewer.now }
    ensures plain { (shown : Terminal W) (view : View) → CanReadFrom (λ w. W.width_of w) terminal.now viewer.now shown
        → StandsAt viewer.now view
        → IsPlain (W.width_of viewer.now.surface.grid.widths) view (patch_from terminal.now shown) }
{
    terminal.stands();
    viewer.stands();
    terminal_viewers::patch_laws::patches_print_the_fresh_cells();
}

/// In every session that begins at a terminal, with new viewers of its size, updates, patches, resizes and forgotten
/// changes in any mix, a viewer that repeats the resizes and reads each answer to its end shows then the screen of
/// the terminal or viewer that answered it. Where the viewers are answered one after another, each shows the
/// terminal's screen.
pub fn sessions_show_the_screen<W: Widths + Drop>(terminal: &Terminal<W>)
    ensures answers { ViewersShow (λ w. W.width_of w) terminal.now }
    ensures rounds { (view : View) (count : ℕ) (turns : List Turn) (answers : List Answer)
        → terminal.now.is_failed ≡ false → StandsAt terminal.now view → All IsTurn turns
        → let chain = session (W.width_of terminal.now.surface.grid.widths)
        (new_chain (standing_of terminal.now view) count) (turns ++ round 0 answers)
        in AllShow chain.terminal.view.state.screen (take (length answers) chain.viewers) }
{
    terminal.stands();
    surfaces_stay_lawful(terminal.surface());
    terminal_viewers::session_laws::sessions_show_the_screen();
}

/// A screen that shows a terminal at a number, not above the current one, goes on to show it at that number,
/// whatever bytes the terminal reads, wherever it takes a look and whatever it forgets, if the screen repeats its
/// resizes. And a terminal's own screen shows it at its current number.
pub fn terminals_go_on_being_shown<W: Widths + Drop>(terminal: &Terminal<W>)
    ensures history { (shown : Screen) (number : ℕ) (now : Terminal W) (history : History)
        → terminal.now.is_failed ≡ false → AreSizes history → IsDisplay (display_on shown)
        → number ≤ number_of terminal.now.surface → ShowsAt (λ w. W.width_of w) shown number terminal.now
        → GoesBy (λ w. W.width_of w) terminal.now now history
        → ShowsAt (λ w. W.width_of w) (repeated history shown) number now }
    ensures seen { terminal.now.is_failed ≡ false
        → ShowsAt (λ w. W.width_of w) (state_in terminal.now).screen (number_of terminal.now.surface) terminal.now }
{
    terminal.stands();
    surfaces_stay_lawful(terminal.surface());
    viewers_go_on_showing();
}

/// Forgetting the changes before a number changes neither the screen nor the update for that number or a
/// later one.
pub fn forgotten_changes_are_not_missed<W: Widths + Drop>(terminal: &Terminal<W>)
    ensures state { (before : ℕ) (now : Terminal W) → terminal.now.is_failed ≡ false
        → GoesBy (λ w. W.width_of w) terminal.now now (Forget before ∷ []) → state_in now ≡ state_in terminal.now }
    ensures update { (before : ℕ) (number : ℕ) (now : Terminal W) → terminal.now.is_failed ≡ false
        → GoesBy (λ w. W.width_of w) terminal.now now (Forget before ∷ []) → before ≤ number
        → update_for now number ≡ update_for terminal.now number }
{
    terminal.stands();
    surfaces_stay_lawful(terminal.surface());
    forgotten_changes_are_not_due();
}

/// Two terminals of one size and the same widths whose updates for number 0 have the same bytes show the same
/// screen.
pub fn first_updates_tell_screens<W: Widths + Drop>(one: &Terminal<W>, other: &Terminal<W>)
    ensures { one.now.is_failed ≡ false → other.now.is_failed ≡ false
        → W.width_of one.now.surface.grid.widths ≡ W.width_of other.now.surface.grid.widths
        → (state_in one.now).screen.width ≡ (state_in other.now).screen.width
        → height (state_in one.now).screen ≡ height (state_in other.now).screen
        → update_for one.now 0 ≡ update_for other.now 0 → (state_in one.now).screen ≡ (state_in other.now).screen }
{
    one.stands();
    other.stands();
    viewers_read_updates();
}

/// An update has at most 2wh + 2h + 11 changes on a screen of w columns and h rows. At most 320 bytes encode
/// each change besides its text, its title, or its link's parameters and URI; and the update is no longer than
/// the sum of `encoded_size` of its changes. A terminal that reads the update prints the texts of its changes,
/// each once and in turn, and nothing else.
pub fn updates_are_small<W: Widths + Drop>(terminal: &Terminal<W>)
    ensures count { (number : ℕ) → terminal.now.is_failed ≡ false
        → length (changes_for terminal.now number)
        ≤ 2 * (state_in terminal.now).screen.width * height (state_in terminal.now).screen
        + 2 * height (state_in terminal.now).screen + 11 }
    ensures each { (number : ℕ) → terminal.now.is_failed ≡ false
        → AreShort (state_in terminal.now).screen.width (height (state_in terminal.now).screen)
        (changes_for terminal.now number) }
    ensures bytes { (number : ℕ) → terminal.now.is_failed ≡ false
        → length (update_for terminal.now number) ≤ all_encoded_size (changes_for terminal.now number) }
    ensures printed { (number : ℕ) → terminal.now.is_failed ≡ false
        → update_prints terminal.now number ≡ runs_in (changes_for terminal.now number) }
{
    terminal.stands();
    surfaces_stay_lawful(terminal.surface());
    updates_are_counted();
    updates_have_encodings();
    spelled_changes_are_rendered();
    spelled_changes_are_writable();
    writable_lists_read_back();
    encoded_changes_are_short();
    encoded_lists_are_short();
    deltas_print_each_run_once();
}

/// The actions that `render` returns for a change, fed as bytes to an idle plain terminal of that size, have the
/// change's effect on its screen, leave its saved cursor and its replies as they were, and leave it idle.
pub fn renderings_are_shown<W: Widths + Drop>(viewer: &Terminal<W>)
    ensures shown { (change : ChangeValue) (actions : List StreamAction) (after : Terminal W)
        → viewer.now.is_failed ≡ false → IsIdle viewer.now → viewer.now.modes ≡ None
        → rendering change (state_in viewer.now).screen.width (height (state_in viewer.now).screen) ≡ Some actions
        → IsWritable actions → GoesBy (λ w. W.width_of w) viewer.now after (Piece (stream_text actions) ∷ [])
        → state_in after
        ≡ record (state_in viewer.now) {
          screen
              = (effect (W.width_of viewer.now.surface.grid.widths) (display_on (state_in viewer.now).screen)
              change).screen;
        } }
    ensures idle { (change : ChangeValue) (actions : List StreamAction) (after : Terminal W)
        → viewer.now.is_failed ≡ false → IsIdle viewer.now → viewer.now.modes ≡ None
        → rendering change (state_in viewer.now).screen.width (height (state_in viewer.now).screen) ≡ Some actions
        → IsWritable actions → GoesBy (λ w. W.width_of w) viewer.now after (Piece (stream_text actions) ∷ [])
        → IsIdle after }
{
    viewer.stands();
    rendered_texts_have_the_effect();
}

/// A new terminal that reads the updates of an input, as `run` writes them, shows the screen of a terminal that
/// reads the input and takes a look after each chunk of `every` bytes and at the end; and it is idle.
pub fn new_viewers_show_the_input<W: Widths>()
    ensures shown { (widths : W) (width : ℕ) (height : ℕ) (every : ℕ) (input : List ℕ) (new : Terminal W)
        (after : Terminal W) → IsScreenSize width height → StandsAt new (new_view width height)
        → new.surface.grid.widths ≡ widths
        → GoesBy (λ w. W.width_of w) new after (Piece (updates (W.width_of widths) width height every input) ∷ [])
        → (state_in after).screen ≡ (updated (W.width_of widths) width height every input).state.screen }
    ensures idle { (widths : W) (width : ℕ) (height : ℕ) (every : ℕ) (input : List ℕ) (new : Terminal W)
        (after : Terminal W) → IsScreenSize width height → StandsAt new (new_view width height)
        → new.surface.grid.widths ≡ widths
        → GoesBy (λ w. W.width_of w) new after (Piece (updates (W.width_of widths) width height every input) ∷ [])
        → IsIdle after }
{
    updates_show_the_input();
}
