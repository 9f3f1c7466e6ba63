//! Runs of text, and the performer that the parser calls: a text joins the held run, and other actions end it.
use crate::state::TerminalState;
use cell_base::Widths;
use cell_surface::SurfaceError;
use escape_stream::{Action, Perform};

// A text joins the run, and so does a print; every other action ends it. Refuses as the surface does, and for want of
// memory; the contract doesn't determine the state after a refusal.
impl<'t, W: Widths + Drop> Perform<'t> for TerminalState<W> {
    ghost use Rattle.std.specs.Prelude.{⊤};
    ghost use Rattle.terminal_steps.specs.Items.{DoesItem, RefusesItem};

    type Refusal = SurfaceError;

    ghost ready = { λ state. ⊤ };

    ghost does = { DoesItem (λ w. W.width_of w) };

    ghost refuses = { RefusesItem (λ w. W.width_of w) };

    #[inline(always)]
    fn text(&mut self, text: &'t str) -> Result<(), SurfaceError> {
        self.held.push_str(text)?;
        Ok(())
    }

    #[inline(always)]
    fn action(&mut self, action: Action) -> Result<(), SurfaceError> {
        match action {
            Action::Print(character) => {
                self.held.push(character)?;
                Ok(())
            }
            Action::PrintString(text) => {
                self.held.push_str(&text)?;
                Ok(())
            }
            other => self.apply(other),
        }
    }
}
