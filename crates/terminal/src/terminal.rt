//! The terminal.
ghost use Rattle.std.specs.Prelude.{◌≡◌, ◌↔◌, true, false, [], ◌∷◌, length, IsTrue, IsOk, IfOk, OnOk, OnErr};
ghost use Rattle.std.specs.Prelude.{IsErrOf, option_map};
ghost use Rattle.cell_base.specs.ScreenSize.{IsScreenSize};
ghost use Rattle.screen_log.specs.Log.{most_due, new_log};
ghost use Rattle.cell_surface.specs.Surface.{number_of};
ghost use Rattle.terminal.specs.Headline.{StandsAt, GoesBy};
ghost use Rattle.terminal.specs.Refusals.{HasNumbersToLook, NeedsMemory, NeedsNumber};
ghost use Rattle.terminal.specs.Terminal.{IsSpelled};
ghost use Rattle.terminal.specs.Viewing.{patch_from, update_for};
ghost use Rattle.terminal_steps.specs.ProfileView.{modes_in, modes_of};
ghost use Rattle.terminal_table.specs.History.{Piece, Look, Resize, Forget};
ghost use Rattle.terminal_table.specs.Meaning.{View, new_view, new_view_with};
ghost use Rattle.terminal_table.specs.Turns.{IsView};

use cell_base::{SequenceNo, Widths};
use cell_surface::Surface;
use escape_stream::Parser;
use std::alloc::{AllocError, Global};
use std::marker::Model;
use terminal_steps::{Modes, Profile, TerminalError, TerminalState};
use terminal_viewers::patch::patch;
use terminal_viewers::update::update;

/// A terminal that keeps the screen which an application's bytes lead to, and the replies that they ask for.
///
/// A `feed`, `settle` or `resize` that is refused leaves a terminal that has failed, and so may an `update` or a
/// `patch`: `is_failed` says whether it has.
#[derive(Drop)]
pub struct Terminal<W: Widths> {
    alloc: Global,
    parser: Parser,
    state: TerminalState<W>,
    is_failed: bool,
}

impl<W: Widths> Model for Terminal<W> {
    ghost use Rattle.terminal.specs.Terminal.{Terminal as Value_of};

    ghost Value = { Value_of W };

    ghost use Rattle.terminal.specs.TerminalView.{terminal_of, IsSound};

    ghost view = { terminal_of };

    ghost invariant = { IsSound (λ w. W.width_of w) };
}

impl<W: Widths + Drop> Terminal<W> {
    /// A terminal of blanks of this many columns and rows, each from 1 to 2^32 - 1, with the cursor at
    /// home and a plain pen.
    pub fn new(
        alloc: Global,
        width: usize,
        height: usize,
        widths: W,
    ) -> Result<Terminal<W>, AllocError>
        requires size { IsScreenSize width height }
        ensures stands { IfOk result (λ t. StandsAt t (new_view width height)) }
        ensures log { IfOk result (λ t. t.surface.log ≡ record { most = most_due width height; log = new_log }) }
        ensures widths { IfOk result (λ t. t.surface.grid.widths ≡ widths) }
        ensures sound { IfOk result (λ t. t.is_failed ≡ false) }
    {
        Terminal::with_profile(alloc, width, height, widths, Profile::Plain)
    }

    /// A terminal as `new` makes it, but of a profile. A viewer is a plain terminal, whatever the profile of the one
    /// that answers it.
    pub fn with_profile(
        alloc: Global,
        width: usize,
        height: usize,
        widths: W,
        profile: Profile,
    ) -> Result<Terminal<W>, AllocError>
        requires size { IsScreenSize width height }
        ensures stands { IfOk result (λ t. StandsAt t (new_view_with (modes_of profile) width height)) }
        ensures log { IfOk result (λ t. t.surface.log ≡ record { most = most_due width height; log = new_log }) }
        ensures widths { IfOk result (λ t. t.surface.grid.widths ≡ widths) }
        ensures sound { IfOk result (λ t. t.is_failed ≡ false) }
    {
        let state = TerminalState::with_profile(alloc, width, height, widths, profile)?;
        Ok(Terminal {
            alloc,
            parser: Parser::new(alloc),
            state,
            is_failed: false,
        })
    }

    /// Appends bytes to the stream, and does each action as soon as its bytes decide it. A run of printed
    /// characters that nothing has ended is held. Feeding no bytes takes no memory.
    ///
    /// Refuses, in this order, with `Failed` on a failed terminal, and with `Number` or `Memory` as the
    /// first change that is refused does; then the terminal has failed. `Memory` is the error only where the
    /// bytes, or the actions that they ask for, take some, and a change that has no number isn't refused with it.
    pub fn feed(&mut self, piece: &[u8]) -> Result<(), TerminalError>
        ensures done { OnOk result (GoesBy (λ w. W.width_of w) self.old self.new (Piece piece.now ∷ [])) }
        ensures failed { IsErrOf result TerminalError.Failed ↔ IsTrue self.old.is_failed }
        ensures number { IsErrOf result TerminalError.Number
            → NeedsNumber (λ w. W.width_of w) self.old (Piece piece.now ∷ []) }
        ensures memory { IsErrOf result TerminalError.Memory
            → NeedsMemory (λ w. W.width_of w) self.old piece.now self.new }
        ensures err { OnErr result (IsTrue self.new.is_failed) }
        ensures nothing { piece.now ≡ [] → self.old.is_failed ≡ false → IsOk result }
    {
        if self.is_failed {
            return Err(TerminalError::Failed);
        }
        if piece.is_empty() {
            return Ok(());
        }
        self.is_failed = true;
        self.parser.hand_to(piece, &mut self.state)?;
        self.is_failed = false;
        Ok(())
    }

    /// Ends the held run. With nothing held it takes no memory. Refuses as `feed` does.
    pub fn settle(&mut self) -> Result<(), TerminalError>
        ensures done { OnOk result (GoesBy (λ w. W.width_of w) self.old self.new (Look ∷ [])) }
        ensures failed { IsErrOf result TerminalError.Failed ↔ IsTrue self.old.is_failed }
        ensures number { IsErrOf result TerminalError.Number → NeedsNumber (λ w. W.width_of w) self.old (Look ∷ []) }
        ensures memory { IsErrOf result TerminalError.Memory → self.new.surface.is_failed ≡ true }
        ensures numbered { (IsErrOf result TerminalError.Number → ⊥) → self.old.is_failed ≡ false
            → HasNumbersToLook (λ w. W.width_of w) self.old self.new.is_failed }
        ensures err { OnErr result (IsTrue self.new.is_failed) }
        ensures nothing { self.old.run ≡ [] → self.old.is_failed ≡ false → IsOk result }
        ensures width { OnOk result (self.new.surface.grid.width ≡ self.old.surface.grid.width) }
        ensures height { OnOk result
            (length self.new.surface.grid.lines ≡ length self.old.surface.grid.lines) }
    {
        if self.is_failed {
            return Err(TerminalError::Failed);
        }
        self.is_failed = true;
        self.state.settle()?;
        self.is_failed = false;
        Ok(())
    }

    /// Becomes `width` columns wide and `height` rows high, each from 1 to 2^32 - 1, as `Surface::resize` does; the
    /// held run ends first. A saved cursor stays as it is, and DECRC restores it within the screen.
    /// Refuses as `feed` does.
    pub fn resize(&mut self, width: usize, height: usize) -> Result<(), TerminalError>
        requires size { IsScreenSize width height }
        ensures done { OnOk result (GoesBy (λ w. W.width_of w) self.old self.new (Resize width height ∷ [])) }
        ensures failed { IsErrOf result TerminalError.Failed ↔ IsTrue self.old.is_failed }
        ensures number { IsErrOf result TerminalError.Number
            → NeedsNumber (λ w. W.width_of w) self.old (Resize width height ∷ []) }
        ensures memory { IsErrOf result TerminalError.Memory → self.new.surface.is_failed ≡ true }
        ensures err { OnErr result (IsTrue self.new.is_failed) }
    {
        if self.is_failed {
            return Err(TerminalError::Failed);
        }
        self.is_failed = true;
        self.state.resize(width, height)?;
        self.is_failed = false;
        Ok(())
    }

    // The bytes that bring a viewer up to date that has seen the changes before a number.
    fn update_for(&self, number: SequenceNo) -> Result<Vec<u8>, AllocError>
        requires { self.now.is_failed ≡ false }
        ensures { IfOk result (λ bytes. bytes.items ≡ update_for self.now number) }
    {
        update(self.alloc, self.state.surface(), number)
    }

    /// Settles, and returns the number of changes so far and the bytes that bring a viewer up to date that has seen
    /// every change before a number: the changes since then, encoded as control sequences of ECMA-48 and xterm, or
    /// the whole screen painted anew, with its title, where the log doesn't keep them all, at number 0, and above
    /// the current number. At the current number, unless that is 0, these are no bytes. Fed to an idle terminal of
    /// this size and these widths that showed this one's screen at that number, they leave it idle with this one's
    /// screen. The position of a pending wrap is encoded as the last cell of its row once more.
    ///
    /// Refuses as `feed` does. Where the bytes are refused memory the terminal hasn't failed: it is as after
    /// `settle`, and the same call, made again, returns what it would have returned.
    pub fn update(&mut self, number: SequenceNo) -> Result<(SequenceNo, Vec<u8>), TerminalError>
        ensures settled { OnOk result (GoesBy (λ w. W.width_of w) self.old self.new (Look ∷ [])) }
        ensures answer { IfOk result (λ r. r.0 ≡ number_of self.new.surface) }
        ensures bytes { IfOk result (λ r. r.1.items ≡ update_for self.new number) }
        ensures failed { IsErrOf result TerminalError.Failed ↔ IsTrue self.old.is_failed }
        ensures number { IsErrOf result TerminalError.Number → NeedsNumber (λ w. W.width_of w) self.old (Look ∷ []) }
        ensures err { OnErr result
            (self.new.is_failed ≡ false → GoesBy (λ w. W.width_of w) self.old self.new (Look ∷ [])) }
        ensures fails { IsErrOf result TerminalError.Number → IsTrue self.new.is_failed }
        ensures memory { IsErrOf result TerminalError.Memory → self.new.is_failed ≡ true
            → self.new.surface.is_failed ≡ true }
        ensures numbered { (IsErrOf result TerminalError.Number → ⊥) → self.old.is_failed ≡ false
            → HasNumbersToLook (λ w. W.width_of w) self.old self.new.is_failed }
        ensures stays { IsTrue self.old.is_failed → IsTrue self.new.is_failed }
        ensures nothing { self.old.run ≡ [] → self.old.is_failed ≡ false → self.new.is_failed ≡ false }
    {
        self.settle()?;
        let bytes = self.update_for(number)?;
        Ok((self.current_number(), bytes))
    }

    // The bytes that bring a viewer up to date that shows the screen of another terminal.
    fn patch_from(&self, shown: &Terminal<W>) -> Result<Vec<u8>, AllocError>
        requires sound { self.now.is_failed ≡ false }
        requires shown { shown.now.is_failed ≡ false }
        requires width { shown.now.surface.grid.width ≡ self.now.surface.grid.width }
        requires height { length shown.now.surface.grid.lines ≡ length self.now.surface.grid.lines }
        ensures { IfOk result (λ bytes. bytes.items ≡ patch_from self.now shown.now) }
    {
        patch(self.alloc, self.state.surface(), shown.state.surface())
    }

    /// Settles, and returns the number of changes so far and the bytes that bring a viewer up to date that shows the
    /// screen of another terminal, of this size and these widths, that hasn't failed: the title, the cells that
    /// aren't shown yet, each once, the cursor's position, the pen, and whether the cursor is visible. Fed to an idle
    /// terminal of this size and these widths that shows the other one's screen, they leave it idle with this one's
    /// screen. The position of a pending wrap is encoded as the last cell of its row once more.
    ///
    /// Refuses as `feed` does. Where the bytes are refused memory the terminal hasn't failed: it is as after
    /// `settle`, and the same call, made again, returns what it would have returned.
    pub fn patch(&mut self, shown: &Terminal<W>) -> Result<(SequenceNo, Vec<u8>), TerminalError>
        requires shown { shown.now.is_failed ≡ false }
        requires width { shown.now.surface.grid.width ≡ self.old.surface.grid.width }
        requires height { length shown.now.surface.grid.lines ≡ length self.old.surface.grid.lines }
        ensures settled { OnOk result (GoesBy (λ w. W.width_of w) self.old self.new (Look ∷ [])) }
        ensures answer { IfOk result (λ r. r.0 ≡ number_of self.new.surface) }
        ensures bytes { IfOk result (λ r. r.1.items ≡ patch_from self.new shown.now) }
        ensures failed { IsErrOf result TerminalError.Failed ↔ IsTrue self.old.is_failed }
        ensures number { IsErrOf result TerminalError.Number → NeedsNumber (λ w. W.width_of w) self.old (Look ∷ []) }
        ensures err { OnErr result
            (self.new.is_failed ≡ false → GoesBy (λ w. W.width_of w) self.old self.new (Look ∷ [])) }
        ensures fails { IsErrOf result TerminalError.Number → IsTrue self.new.is_failed }
        ensures memory { IsErrOf result TerminalError.Memory → self.new.is_failed ≡ true
            → self.new.surface.is_failed ≡ true }
        ensures numbered { (IsErrOf result TerminalError.Number → ⊥) → self.old.is_failed ≡ false
            → HasNumbersToLook (λ w. W.width_of w) self.old self.new.is_failed }
        ensures stays { IsTrue self.old.is_failed → IsTrue self.new.is_failed }
        ensures nothing { self.old.run ≡ [] → self.old.is_failed ≡ false → self.new.is_failed ≡ false }
    {
        self.settle()?;
        let bytes = self.patch_from(shown)?;
        Ok((self.current_number(), bytes))
    }

    /// The modes of the profile xterm, as the bytes so far have set them; none on a plain terminal.
    pub fn modes(&self) -> Option<&Modes>
        ensures { option_map (λ modes. modes_in modes.now) result ≡ self.now.modes }
    {
        self.state.modes()
    }

    /// Hands out the replies that were not yet taken, and leaves none.
    pub fn take_replies(&mut self) -> Vec<u8>
        ensures replies { result.items ≡ self.old.replies }
        ensures none { self.new ≡ record self.old { replies = [] } }
    {
        self.state.take_replies()
    }

    /// Drops the changes before a number from the log; none where it lies above the current one. A failed
    /// terminal stays as it is.
    pub fn forget_before(&mut self, number: SequenceNo)
        ensures done { self.old.is_failed ≡ false → GoesBy (λ w. W.width_of w) self.old self.new (Forget number ∷ []) }
        ensures failed { self.old.is_failed ≡ true → self.new ≡ self.old }
    {
        if !self.is_failed {
            self.state.forget_before(number);
        }
    }

    /// The screen, without the run that is still held.
    pub fn surface(&self) -> &Surface<W>
        ensures { result.now ≡ self.now.surface }
    {
        self.state.surface()
    }

    /// The log's number: how many changes led to the screen. A resize that drops logged changes counts as one.
    pub fn current_number(&self) -> SequenceNo
        ensures { result ≡ number_of self.now.surface }
    {
        self.state.surface().current_seqno()
    }

    // A terminal that hasn't failed stands at a view, and each of its changes has an encoding.
    pub(crate) fn stands(&self)
        ensures stands { self.now.is_failed ≡ false
            → (view : View) × StandsAt self.now view × IsView (W.width_of self.now.surface.grid.widths) view }
        ensures spelled { self.now.is_failed ≡ false → IsSpelled self.now }
    {
        // For the contract: the invariant of the terminal is known once a field is read.
        let _ = &self.parser;
    }

    /// Whether the terminal has failed: then each call that can be refused returns `Failed`.
    pub fn is_failed(&self) -> bool
        ensures { result ≡ self.now.is_failed }
    {
        self.is_failed
    }
}
