//! Steps of a terminal, played on a new one.
ghost use Rattle.std.specs.Prelude.{◌≡◌, ◌≤◌, ◌^◌, false, ◌∷◌, [], IfOk, OnOk, OnErr, IsErrOf};
ghost use Rattle.cell_base.specs.ScreenSize.{IsScreenSize};
ghost use Rattle.terminal.specs.Played.{played, history_of, AreStepSizes};
ghost use Rattle.terminal.specs.Headline.{StandsAt, GoesBy};
ghost use Rattle.terminal.specs.Refusals.{NeedsNumber};
ghost use Rattle.terminal_table.specs.Logged.{log_of};
ghost use Rattle.terminal_table.specs.Meaning.{meaning};

use crate::terminal::Terminal;
use cell_base::Widths;
use std::alloc::Global;
use terminal_steps::TerminalError;

/// A call of a terminal.
#[derive(Clone, Copy, Debug, PartialEq, Eq)]
pub enum Step<'a> {
    /// `Terminal::feed` of these bytes.
    Feed(&'a [u8]),
    /// `Terminal::settle`.
    Settle,
    /// `Terminal::resize` to a width and a height, each from 1 to 2^32 - 1.
    Resize(usize, usize),
}

// Does one step.
fn take_step<W: Widths + Drop>(
    terminal: &mut Terminal<W>,
    step: Step<'_>,
) -> Result<(), TerminalError>
    requires { AreStepSizes (step ∷ []) }
    ensures done { OnOk result (GoesBy (λ w. W.width_of w) terminal.old terminal.new (played step.entry ∷ [])) }
    ensures failed { IsErrOf result TerminalError.Failed → terminal.old.is_failed ≡ false → ⊥ }
    ensures number { IsErrOf result TerminalError.Number
        → NeedsNumber (λ w. W.width_of w) terminal.old (played step.entry ∷ []) }
{
    match step {
        Step::Feed(piece) => terminal.feed(piece),
        Step::Settle => terminal.settle(),
        Step::Resize(width, height) => terminal.resize(width, height),
    }
}

/// A new terminal of this many columns and rows, each from 1 to 2^32 - 1, after some steps in turn.
///
/// Refuses as the first step that is refused does, and with `Memory` where the new terminal is refused memory.
pub fn play<W: Widths + Drop>(
    alloc: Global,
    steps: &[Step<'_>],
    width: usize,
    height: usize,
    widths: W,
) -> Result<Terminal<W>, TerminalError>
    requires size { IsScreenSize width height }
    requires sizes { AreStepSizes steps.now }
    ensures stands { IfOk result (λ t. StandsAt t (meaning (W.width_of widths) width height (history_of steps.now))) }
    ensures log { IfOk result (λ t. t.surface.log ≡ log_of (W.width_of widths) width height (history_of steps.now)) }
    ensures widths { IfOk result (λ t. t.surface.grid.widths ≡ widths) }
    ensures sound { IfOk result (λ t. t.is_failed ≡ false) }
    ensures failed { IsErrOf result TerminalError.Failed → ⊥ }
    ensures number { IsErrOf result TerminalError.Number
        → 2 ^ 64 ≤ (log_of (W.width_of widths) width height (history_of steps.now)).log.number }
{
    let mut terminal = Terminal::new(alloc, width, height, widths)?;
    for step in steps {
        take_step(&mut terminal, *step)?;
    }
    Ok(terminal)
}
