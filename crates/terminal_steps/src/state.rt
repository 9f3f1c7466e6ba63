//! The state that a terminal keeps beside its parser, and its changes by events.
ghost use Rattle.std.specs.Prelude.{◌≡◌, ◌<◌, ◌+◌, ◌^◌, true, false, IsOk, IfOk, OnOk, IsErrOf, None, []};
ghost use Rattle.std.specs.Prelude.{◌∷◌, option_map};
ghost use Rattle.cell_base.specs.ScreenSize.{IsScreenSize};
ghost use Rattle.escape_stream.specs.StreamAction.{is_print};
ghost use Rattle.escape_stream.specs.StreamActionView.{value_of};
ghost use Rattle.cell_surface.specs.Surface.{number_of, shown_by};
ghost use Rattle.screen_log.specs.Log.{new_log};
ghost use Rattle.terminal_table.specs.Meaning.{new_view_with};
ghost use Rattle.terminal_table.specs.History.{Act, Forgot, Looked, Resized};
ghost use Rattle.terminal_steps.specs.Events.{Does, IsReady, NeedsNumber, surface_in, view_of};
ghost use Rattle.terminal_steps.specs.Memory.{NeedsMemory};
ghost use Rattle.terminal_steps.specs.ProfileView.{modes_in, modes_of};
ghost use Rattle.terminal_table.specs.Replies.{without_replies};

use crate::actions::{apply, print};
use crate::profile::{Modes, Profile, modes_of, resize_modes};
use crate::runs::print_xterm;
use crate::saved::SavedCursor;
use cell_base::{SequenceNo, Widths};
use cell_surface::{Surface, SurfaceError};
use escape_stream::Action;
use std::alloc::{AllocError, Global};
use std::mem;

/// The state that a terminal keeps beside its parser: a surface, the cursor that was saved, the replies that
/// were not yet taken, the run of printed characters that nothing has ended, and the modes of its profile.
///
/// A call that is refused may have done a part of its work.
#[derive(Drop)]
pub struct TerminalState<W: Widths> {
    pub(crate) surface: Surface<W>,
    pub(crate) saved: Option<SavedCursor>,
    pub(crate) replies: Vec<u8>,
    pub(crate) held: String,
    pub(crate) modes: Option<Modes>,
}

impl<W: Widths + Drop> TerminalState<W> {
    /// Blanks of this many columns and rows, each from 1 to 2^32 - 1, with the cursor at home and a plain
    /// pen, no saved cursor, no reply and no run, of a profile.
    pub fn with_profile(
        alloc: Global,
        width: usize,
        height: usize,
        widths: W,
        profile: Profile,
    ) -> Result<TerminalState<W>, AllocError>
        requires size { IsScreenSize width height }
        ensures view { IfOk result (λ t. view_of t ≡ new_view_with (modes_of profile) width height) }
        ensures shape { IfOk result (λ t. (shown_by (surface_in t)).shape ≡ None) }
        ensures log { IfOk result (λ t. (surface_in t).log.log ≡ new_log) }
        ensures widths { IfOk result (λ t. (surface_in t).grid.widths ≡ widths) }
        ensures ready { IfOk result (λ t. IsReady (λ w. W.width_of w) t) }
    {
        let surface = Surface::new(alloc, width, height, widths)?;
        Ok(TerminalState {
            surface,
            saved: None,
            replies: Vec::new(alloc),
            held: String::new(alloc),
            modes: modes_of(alloc, profile),
        })
    }

    /// The surface, without the run that is still held.
    pub fn surface(&self) -> &Surface<W>
        ensures { result.now ≡ surface_in self.now }
    {
        &self.surface
    }

    /// The modes of the profile xterm; none on a plain terminal.
    pub fn modes(&self) -> Option<&Modes>
        ensures { option_map (λ modes. modes_in modes.now) result ≡ (view_of self.now).state.modes }
    {
        self.modes.as_ref()
    }

    /// Hands out the replies, and keeps none.
    pub fn take_replies(&mut self) -> Vec<u8>
        ensures replies { result.items ≡ (view_of self.old).state.replies }
        ensures none { view_of self.new ≡ without_replies (view_of self.old) }
        ensures surface { surface_in self.new ≡ surface_in self.old }
    {
        let none = Vec::new(*self.replies.allocator());
        mem::replace(&mut self.replies, none)
    }

    /// The log forgets the changes before a number; none where it lies above the current one. No run ends.
    pub fn forget_before(&mut self, number: SequenceNo)
        ensures { Does (λ w. W.width_of w) self.old self.new (Forgot number ∷ []) }
    {
        self.surface.flush_changes_older_than(number);
    }

    /// The held run ends: it becomes one change, or several under the profile xterm, which the surface may refuse.
    pub fn settle(&mut self) -> Result<(), SurfaceError>
        ensures done { OnOk result (Does (λ w. W.width_of w) self.old self.new (Looked ∷ [])) }
        ensures failed { IsErrOf result SurfaceError.Failed → IsReady (λ w. W.width_of w) self.old → ⊥ }
        ensures numbers { IsErrOf result SurfaceError.Number → NeedsNumber (λ w. W.width_of w) self.old (Looked ∷ []) }
        ensures memory { IsErrOf result SurfaceError.Memory → (surface_in self.new).is_failed ≡ true }
        ensures numbered { IsErrOf result SurfaceError.Memory → number_of (surface_in self.old) + 1 < 2 ^ 64 }
        ensures refused { IsErrOf result SurfaceError.Memory
            → NeedsMemory (λ w. W.width_of w) self.old Looked self.new }
        ensures nothing { (view_of self.old).held ≡ [] → IsOk result }
    {
        if self.held.is_empty() {
            return Ok(());
        }
        let next = self.surface.pooled_text();
        let text = mem::replace(&mut self.held, next);
        let alloc = *self.replies.allocator();
        match &mut self.modes {
            None => print(&mut self.surface, text),
            Some(modes) => print_xterm(alloc, &mut self.surface, modes, text),
        }
    }

    /// Becomes `width` columns wide and `height` rows high, each from 1 to 2^32 - 1. The held run ends first; saved
    /// cursors stay as they are, and all rows scroll. Refuses as the surface does; where the rows of the screen that is
    /// not shown are refused memory the surface has failed, too.
    pub fn resize(&mut self, width: usize, height: usize) -> Result<(), SurfaceError>
        requires size { IsScreenSize width height }
        ensures done { OnOk result (Does (λ w. W.width_of w) self.old self.new (Resized width height ∷ [])) }
        ensures failed { IsErrOf result SurfaceError.Failed → IsReady (λ w. W.width_of w) self.old → ⊥ }
        ensures numbers { IsErrOf result SurfaceError.Number
            → NeedsNumber (λ w. W.width_of w) self.old (Resized width height ∷ []) }
        ensures memory { IsErrOf result SurfaceError.Memory → (surface_in self.new).is_failed ≡ true }
    {
        self.settle()?;
        self.surface.resize(width, height)?;
        let alloc = *self.replies.allocator();
        match resize_modes(alloc, &mut self.modes, width, height) {
            Ok(()) => Ok(()),
            Err(_) => {
                self.surface.fail();
                Err(SurfaceError::Memory)
            }
        }
    }

    // An action that is no print ends the run, and is applied.
    #[tactic(auto, using(crate::proofs::NumberLemmas::looked_past, crate::proofs::NumberLemmas::acted_past))]
    #[inline(always)]
    pub(crate) fn apply(&mut self, action: Action) -> Result<(), SurfaceError>
        requires { is_print (value_of action) ≡ false }
        ensures done { OnOk result (Does (λ w. W.width_of w) self.old self.new (Act (value_of action) ∷ [])) }
        ensures failed { IsErrOf result SurfaceError.Failed → IsReady (λ w. W.width_of w) self.old → ⊥ }
        ensures numbers { IsErrOf result SurfaceError.Number
            → NeedsNumber (λ w. W.width_of w) self.old (Act (value_of action) ∷ []) }
        ensures memory { IsErrOf result SurfaceError.Memory
            → NeedsMemory (λ w. W.width_of w) self.old (Act (value_of action)) self.new }
    {
        self.settle()?;
        apply(
            &mut self.surface,
            &mut self.saved,
            &mut self.replies,
            &mut self.modes,
            action,
        )?;
        Ok(())
    }
}
