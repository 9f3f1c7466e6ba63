//! Laws of terminals, as the contracts of functions that do nothing.
ghost use Rattle.std.specs.Prelude.{◌≡◌, ℕ, false, List, [], ◌∷◌, ◌++◌, fold};
ghost use Rattle.std.specs.List.{AllByRecursion};
ghost use Rattle.cell_base.specs.CellContent.{CellContent};
ghost use Rattle.screen_change.specs.CellRuns.{CellRun, cell_runs};
ghost use Rattle.screen_log.specs.LogSteps.{step_of_kept};
ghost use Rattle.escape_stream.specs.Items.{items};
ghost use Rattle.escape_stream.specs.PiecesView.{BytesTakeMemory};
ghost use Rattle.escape_stream.specs.StreamAction.{StreamAction};
ghost use Rattle.escape_stream.specs.StreamWritable.{IsWritable};
ghost use Rattle.screen_difference.specs.Difference.{Stretch, stretches};
ghost use Rattle.screen_difference.specs.FreshCells.{PlacedCell};
ghost use Rattle.terminal.specs.Groups.{AreRunsOf, AreStretchesOf};
ghost use Rattle.terminal.specs.Calls.{Call, GoesThrough, history_in, taken_in, with_taken};
ghost use Rattle.terminal.specs.Headline.{StandsAt, GoesBy, PiecesJoin};
ghost use Rattle.terminal.specs.Refusals.{NeedsMemory};
ghost use Rattle.terminal.specs.Terminal.{Terminal, IsIdle, IsAlike, IsSpelled, state_in};
ghost use Rattle.terminal_steps.specs.Items.{AsksNothing};
ghost use Rattle.terminal_table.specs.Alone.{alone, row_done, row_logged};
ghost use Rattle.terminal_table.specs.History.{History, Look, Piece};
ghost use Rattle.terminal_table.specs.Meaning.{View};
ghost use Rattle.terminal_table.specs.Turns.{IsView};

use crate::terminal::Terminal;
use cell_base::Widths;
use terminal_table::laws::single_actions_are_their_rows;

/// Each terminal that hasn't failed stands at a view (`StandsAt`), with a lawful state, each of whose cells has a text
/// that is by itself one cluster (UAX 29), and a run without controls; and its screen, the saved pen, the run and each
/// change that its log keeps have an encoding, so that viewers can get them.
pub fn terminals_stand<W: Widths + Drop>(terminal: &Terminal<W>)
    ensures stands { terminal.now.is_failed ≡ false
        → (view : View) × StandsAt terminal.now view × IsView (W.width_of terminal.now.surface.grid.widths) view }
    ensures spelled { terminal.now.is_failed ≡ false → IsSpelled terminal.now }
{
    terminal.stands();
}

/// Going on by one history and then by another is going on by both joined; and feeding two chunks is
/// feeding their bytes joined. So between two looks only the joined bytes count.
pub fn histories_join<W: Widths>()
    ensures in_turn { (first : Terminal W) (between : Terminal W) (last : Terminal W) (one : History) (other : History)
        → GoesBy (λ w. W.width_of w) first between one → GoesBy (λ w. W.width_of w) between last other
        → GoesBy (λ w. W.width_of w) first last (one ++ other) }
    ensures pieces { PiecesJoin (λ w. W.width_of w) }
{}

/// Two terminals that have gone on from the same terminal by the same history show the same, have the same
/// replies and log, hold the same run, and go on alike.
pub fn histories_decide<W: Widths>()
    ensures { (before : Terminal W) (one : Terminal W) (other : Terminal W) (history : History) (view : View)
        → StandsAt before view → GoesBy (λ w. W.width_of w) before one history
        → GoesBy (λ w. W.width_of w) before other history → IsAlike one other }
{}

/// Taking the replies on the way changes nothing else. If the replies that were taken are put before those that the
/// terminal still has, it has gone on by the whole history: its screen, its log and all its replies are those of the
/// history.
pub fn replies_are_separate<W: Widths>()
    ensures { (before : Terminal W) (now : Terminal W) (calls : List Call) → before.is_failed ≡ false
        → GoesThrough (λ w. W.width_of w) before calls now
        → GoesBy (λ w. W.width_of w) before (with_taken (taken_in calls) now) (history_in calls) }
{}

/// The text of one action that is writable by itself, fed to an idle terminal that then settles, has the step
/// and the changes of the action's row of the table; and it leaves the terminal idle.
pub fn single_actions<W: Widths>()
    ensures state { (before : Terminal W) (now : Terminal W) (view : View) (action : StreamAction) → IsIdle before
        → StandsAt before view → IsWritable (action ∷ []) → GoesBy (λ w. W.width_of w) before now (alone action)
        → state_in now ≡ row_done (W.width_of before.surface.grid.widths) action (state_in before) }
    ensures log { (before : Terminal W) (now : Terminal W) (view : View) (action : StreamAction) → IsIdle before
        → StandsAt before view → IsWritable (action ∷ []) → GoesBy (λ w. W.width_of w) before now (alone action)
        → now.surface.log
        ≡ fold step_of_kept before.surface.log
        (row_logged (W.width_of before.surface.grid.widths) action (state_in before)) }
    ensures idle { (before : Terminal W) (now : Terminal W) (view : View) (action : StreamAction) → IsIdle before
        → StandsAt before view → IsWritable (action ∷ []) → GoesBy (λ w. W.width_of w) before now (alone action)
        → IsIdle now }
{
    single_actions_are_their_rows();
}

/// Where no run is held a look changes nothing: so `update` and `patch`, called again after their bytes were refused
/// memory, return what they would have returned.
pub fn settled_terminals_stay<W: Widths>()
    ensures { (before : Terminal W) (now : Terminal W) (view : View) → StandsAt before view → before.run ≡ []
        → GoesBy (λ w. W.width_of w) before now (Look ∷ []) → IsAlike now before }
{}

/// Bytes that ask for nothing, such as NUL and sequences that are ignored, are refused memory only where the parser
/// takes some to read them, if no run is held.
pub fn bytes_that_ask_for_nothing<W: Widths>()
    ensures { (before : Terminal W) (now : Terminal W) (view : View) (bytes : List ℕ)
        → StandsAt before view → before.run ≡ []
        → AllByRecursion (AsksNothing before.modes) (items view.stream bytes)
        → NeedsMemory (λ w. W.width_of w) before bytes now → BytesTakeMemory view.stream bytes }
{}

/// `cell_runs` groups cells in runs of equal attributes, and `stretches` groups placed cells in stretches of adjacent
/// cells, each as long as possible; and no other grouping does this.
pub fn written_cells_have_one_cut()
    ensures runs { (cells : List CellContent) → AreRunsOf cells (cell_runs cells) }
    ensures one_run { (cells : List CellContent) (cut : List CellRun) → AreRunsOf cells cut → cut ≡ cell_runs cells }
    ensures stretches { (cells : List PlacedCell) → AreStretchesOf cells (stretches cells) }
    ensures one_stretch { (cells : List PlacedCell) (cut : List Stretch) → AreStretchesOf cells cut
        → cut ≡ stretches cells }
{}
