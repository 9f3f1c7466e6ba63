//! `Surface`: a screen with numbered changes.
ghost use Rattle.std.specs.Prelude.{◌≡◌, ◌≢◌, ◌≤◌, [], None, OnOk, OnErr, ◌+◌, ◌-◌, ◌<◌, ◌^◌, ◌↔◌, ◌==◌, All, false};
ghost use Rattle.std.specs.Prelude.{true, length, map, not, IsErrOf, IfOk};
ghost use Rattle.std.specs.String.{string_bytes};
ghost use Rattle.cell_base.specs.ScreenSize.{IsScreenSize};
ghost use Rattle.screen_change.specs.ValueOf.{value_of};
ghost use Rattle.cell_line.specs.LineContent.{IsClustered};
ghost use Rattle.cell_surface.specs.Surface.{Adds, AddsAll, Answers, IsSound, Resizes, number_of, shown_by};
ghost use Rattle.screen_log.specs.Log.{due, most_due, new_log};
ghost use Rattle.screen_log.specs.LogSteps.{Forgotten, step_of_kept};
ghost use Rattle.screen_effects.specs.Effect.{is_visible};
ghost use Rattle.screen_grid.specs.Grid.{IsDrawn};
ghost use Rattle.screen_effects.specs.Display.{new_display, IsDisplay};
ghost use Rattle.screen_repaint.specs.Repaint.{repaint};

use crate::error::SurfaceError;
use cell_base::{CellAttributes, CursorShape, CursorVisibility, SequenceNo, Widths};
use cell_line::Line;
use screen_change::Change;
use screen_grid::Grid;
use screen_log::ChangeLog;
use screen_repaint::repaint;
use std::alloc::{AllocError, Global};
use std::borrow::CowSlice;
use std::marker::Model;

/// A screen of cells with a cursor, a pen and a title, whose changes are numbered. The last of them
/// are kept in a log. Columns and rows count from 0.
///
/// A call that changes a surface and is refused memory leaves one that has failed: every call that changes it
/// then returns `Failed`, and its cells are unspecified.
#[derive(Drop)]
pub struct Surface<W: Widths> {
    pub(crate) alloc: Global,
    pub(crate) grid: Grid<W>,
    pub(crate) log: ChangeLog,
    pub(crate) is_failed: bool,
}

impl<W: Widths> Model for Surface<W> {
    ghost use Rattle.cell_surface.specs.Surface.{Surface as Value_of};

    ghost Value = { Value_of W };

    ghost use Rattle.cell_surface.specs.SurfaceView.{surface_of};

    ghost view = { surface_of };

    ghost use Rattle.cell_surface.specs.Surface.{IsSound};

    ghost invariant = { λ s. IsSound (W.width_of s.grid.widths) (surface_of s) };
}

// How many changes may be due on a screen of this size.
fn most_due(width: usize, height: usize) -> usize
    requires width { width < 2 ^ 32 }
    requires height { height < 2 ^ 32 }
    ensures { result ≡ most_due width height }
{
    let most = 3 + 6 * width as u128 * height as u128 / 5;
    most.min(usize::MAX as u128) as usize
}

impl<W: Widths + Drop> Surface<W> {
    /// Blanks of this many columns and rows, each from 1 to 2^32 - 1, with a plain pen, the cursor at
    /// home and shown, number 0 and an empty log.
    pub fn new(alloc: Global, width: usize, height: usize, widths: W) -> Result<Self, AllocError>
        requires size { IsScreenSize width height }
        ensures shown { IfOk result (λ s. shown_by s ≡ new_display width height) }
        ensures widths { IfOk result (λ s. s.grid.widths ≡ widths) }
        ensures log { IfOk result (λ s. s.log.log ≡ new_log) }
        ensures stays { IfOk result (λ s. s.is_failed ≡ false) }
    {
        let grid = Grid::new(alloc, width, height, widths)?;
        Ok(Surface {
            alloc,
            grid,
            log: ChangeLog::new(alloc, most_due(width, height)),
            is_failed: false,
        })
    }

    /// How many columns and rows the screen has. The screen is lawful while the surface hasn't failed.
    pub fn dimensions(&self) -> (usize, usize)
        ensures width { result.0 ≡ self.now.grid.width }
        ensures height { result.1 ≡ length self.now.grid.lines }
        ensures lawful { self.now.is_failed ≡ false → IsDisplay (shown_by self.now) }
    {
        self.grid.dimensions()
    }

    /// The cursor's column and row, which are on the screen. The column is the width while a wrap is pending.
    pub fn cursor_position(&self) -> (usize, usize)
        ensures column { result.0 ≡ (shown_by self.now).screen.column }
        ensures row { result.1 ≡ (shown_by self.now).screen.row }
        ensures within { self.now.is_failed ≡ false → result.1 < length (shown_by self.now).screen.rows }
    {
        self.grid.cursor_position()
    }

    /// The cursor's shape, if one was set.
    pub fn cursor_shape(&self) -> Option<CursorShape>
        ensures { result ≡ (shown_by self.now).shape }
    {
        self.grid.cursor_shape()
    }

    /// Whether the cursor is shown.
    pub fn cursor_visibility(&self) -> CursorVisibility
        ensures { is_visible result ≡ (shown_by self.now).screen.visible }
    {
        self.grid.cursor_visibility()
    }

    /// The title; empty at first.
    pub fn title(&self) -> &str
        ensures { result.now ≡ (shown_by self.now).screen.title }
    {
        self.grid.title()
    }

    /// How many columns texts take.
    pub fn widths(&self) -> &W
        ensures { result.now ≡ self.now.grid.widths }
    {
        self.grid.widths()
    }

    /// The attributes that the next text gets.
    pub fn pen(&self) -> &CellAttributes
        ensures { result.now ≡ (shown_by self.now).screen.pen }
    {
        self.grid.pen()
    }

    /// The rows as lines, from the top. While the surface hasn't failed each is kept as one text and runs of equal
    /// attributes, which its `stored` lends.
    pub fn screen_lines(&self) -> &[Line]
        ensures rows { map (λ l. l.columns) result.now ≡ (shown_by self.now).screen.rows }
        ensures sizes { map (λ l. l.bits) result.now ≡ (shown_by self.now).sizes }
        ensures numbers { self.now.is_failed ≡ false → All (λ l. l.number ≡ 0) result.now }
        ensures clustered { self.now.is_failed ≡ false → All IsClustered result.now }
    {
        self.grid.lines()
    }

    /// Whether the number of changes differs from `seq`.
    pub fn has_changes(&self, seq: SequenceNo) -> bool
        ensures { result ≡ not (number_of self.now == seq) }
    {
        self.log.number() != seq
    }

    /// Whether a call that changes the surface was refused memory, so that calls that change it and
    /// `get_changes` return `Failed`.
    pub fn is_failed(&self) -> bool
        ensures { result ≡ self.now.is_failed }
    {
        self.is_failed
    }

    /// The surface has failed from now on: for who keeps more beside it, and was refused memory for that.
    pub fn fail(&mut self)
        ensures { self.new ≡ record self.old { is_failed = true } }
    {
        self.is_failed = true;
    }

    /// Drops the changes before the number `seq` from the log; none where `seq` is above the current number.
    pub fn flush_changes_older_than(&mut self, seq: SequenceNo)
        ensures flushed { self.old.is_failed ≡ false
            → self.new ≡ record self.old { log = step_of_kept self.old.log (Forgotten seq) } }
        ensures failed { self.old.is_failed ≡ true → self.new ≡ self.old }
    {
        if !self.is_failed {
            self.log.forget_before(seq);
        }
    }

    /// The number of changes so far.
    pub fn current_seqno(&self) -> SequenceNo
        ensures { result ≡ number_of self.now }
    {
        self.log.number()
    }

    /// Adds a change, which raises the number by one and joins the log; returns the number before it.
    #[inline(always)]
    pub fn add_change<C: Into<Change> + Drop>(
        &mut self,
        change: C,
    ) -> Result<SequenceNo, SurfaceError>
        ensures number { IfOk result (λ n. n ≡ number_of self.old) }
        ensures added { IfOk result
            (λ n. (c : Change) × C.converts change c
            × Adds (W.width_of self.old.grid.widths) self.old self.new (value_of c)) }
        ensures failed { IsErrOf result SurfaceError.Failed ↔ (self.old.is_failed ≡ true) }
        ensures numbers { IsErrOf result SurfaceError.Number
            ↔ ((self.old.is_failed ≡ false) × (number_of self.old ≡ 2 ^ 64 - 1)) }
        ensures unchanged { IsErrOf result SurfaceError.Number → self.new ≡ self.old }
        ensures still_failed { IsErrOf result SurfaceError.Failed → self.new ≡ self.old }
        ensures memory { IsErrOf result SurfaceError.Memory → self.new.is_failed ≡ true }
        ensures numbered { IsErrOf result SurfaceError.Memory → number_of self.old + 1 < 2 ^ 64 }
        ensures fits { OnOk result (number_of self.new < 2 ^ 64) }
    {
        if self.is_failed {
            return Err(SurfaceError::Failed);
        }
        let number = self.log.number();
        if number == usize::MAX {
            return Err(SurfaceError::Number);
        }
        self.push(change.into())?;
        Ok(number)
    }

    /// An empty text, with the memory of a text that was added and then dropped from the log, where there is some: a
    /// text written into it and added again takes none then.
    pub fn pooled_text(&mut self) -> String
        ensures empty { string_bytes result ≡ [] }
        ensures same { self.new ≡ self.old }
    {
        self.log.pooled_text()
    }

    // Applies a change, and appends it to the log.
    #[inline(always)]
    pub(crate) fn push(&mut self, change: Change) -> Result<(), AllocError>
        requires stays { self.old.is_failed ≡ false }
        requires number { number_of self.old + 1 < 2 ^ 64 }
        ensures done { OnOk result (Adds (W.width_of self.old.grid.widths) self.old self.new (value_of change)) }
        ensures refused { OnErr result (self.new.is_failed ≡ true) }
    {
        self.is_failed = true;
        self.grid.apply(&change)?;
        self.log.push(change)?;
        self.is_failed = false;
        Ok(())
    }

    // Applies and logs changes in turn. Where the number would pass `usize::MAX` nothing is changed.
    pub(crate) fn push_all(&mut self, changes: Vec<Change>) -> Result<SequenceNo, SurfaceError>
        requires { self.old.is_failed ≡ false }
        ensures number { IfOk result (λ n. n ≡ number_of self.old - 1 + length changes.items) }
        ensures added { OnOk result
            (AddsAll (W.width_of self.old.grid.widths) self.old self.new (map value_of changes.items)) }
        ensures never { IsErrOf result SurfaceError.Failed → ⊥ }
        ensures numbers { IsErrOf result SurfaceError.Number ↔ (2 ^ 64 ≤ number_of self.old + length changes.items) }
        ensures unchanged { IsErrOf result SurfaceError.Number → self.new ≡ self.old }
        ensures memory { IsErrOf result SurfaceError.Memory → self.new.is_failed ≡ true }
    {
        let number = self.log.number();
        let count = changes.len();
        if count > usize::MAX - number {
            return Err(SurfaceError::Number);
        }
        for change in changes {
            self.push(change)?;
        }
        Ok(number.saturating_sub(1) + count)
    }

    /// Adds changes in turn. Returns the number before them less one, but at least 0, plus how many changes
    /// there are; so for no changes at all the number less one, or 0.
    ///
    /// Where the number would pass `usize::MAX` before the last of them, none is made. Where one of them
    /// is refused memory the surface has failed, and the changes after it are dropped.
    pub fn add_changes(&mut self, changes: Vec<Change>) -> Result<SequenceNo, SurfaceError>
        ensures number { IfOk result (λ n. n ≡ number_of self.old - 1 + length changes.items) }
        ensures added { OnOk result
            (AddsAll (W.width_of self.old.grid.widths) self.old self.new (map value_of changes.items)) }
        ensures failed { IsErrOf result SurfaceError.Failed ↔ (self.old.is_failed ≡ true) }
        ensures numbers { IsErrOf result SurfaceError.Number
            ↔ ((self.old.is_failed ≡ false) × (2 ^ 64 ≤ number_of self.old + length changes.items)) }
        ensures unchanged { IsErrOf result SurfaceError.Number → self.new ≡ self.old }
        ensures still_failed { IsErrOf result SurfaceError.Failed → self.new ≡ self.old }
        ensures memory { IsErrOf result SurfaceError.Memory → self.new.is_failed ≡ true }
    {
        if self.is_failed {
            return Err(SurfaceError::Failed);
        }
        self.push_all(changes)
    }

    /// Becomes `width` columns wide and `height` rows high, each from 1 to 2^32 - 1. The top left stays, and
    /// plain blanks come at the right and below; a wide cell that the edge cuts becomes a blank with its
    /// attributes. The cursor stays within the last column and row, so that no wrap is pending. Where
    /// the log isn't empty the number rises by one and the log is emptied.
    pub fn resize(&mut self, width: usize, height: usize) -> Result<(), SurfaceError>
        requires size { IsScreenSize width height }
        ensures resized { OnOk result (Resizes width height self.old self.new) }
        ensures failed { IsErrOf result SurfaceError.Failed ↔ (self.old.is_failed ≡ true) }
        ensures numbers { IsErrOf result SurfaceError.Number
            ↔ ((self.old.is_failed ≡ false) × (number_of self.old ≡ 2 ^ 64 - 1) × (self.old.log.log.entries ≢ [])) }
        ensures unchanged { IsErrOf result SurfaceError.Number → self.new ≡ self.old }
        ensures still_failed { IsErrOf result SurfaceError.Failed → self.new ≡ self.old }
        ensures memory { IsErrOf result SurfaceError.Memory → self.new.is_failed ≡ true }
    {
        if self.is_failed {
            return Err(SurfaceError::Failed);
        }
        if !self.log.is_empty() && self.log.number() == usize::MAX {
            return Err(SurfaceError::Number);
        }
        self.is_failed = true;
        self.grid.resize(width, height)?;
        self.log.resize(most_due(width, height));
        self.is_failed = false;
        Ok(())
    }

    /// The current number, and the changes from a number on, borrowed from the log; or, at 0, before the
    /// first change of the log, above the current number, while that is 0, and where more than
    /// 3 + 6wh/5 changes (rounded down, of w columns and h rows) are due, the repaint: changes which
    /// paint this screen on any screen of its size. At the current number no change is due. Borrowed changes take no
    /// memory.
    pub fn get_changes(
        &self,
        seq: SequenceNo,
    ) -> Result<(SequenceNo, CowSlice<'_, Change>), SurfaceError>
        ensures number { IfOk result (λ r. r.0 ≡ number_of self.now) }
        ensures changes { IfOk result
            (λ r. Answers (due self.now.log.most self.now.log.log seq) (repaint (shown_by self.now)) r.1) }
        ensures failed { IsErrOf result SurfaceError.Failed ↔ (self.now.is_failed ≡ true) }
        ensures numbers { IsErrOf result SurfaceError.Number → ⊥ }
        ensures memory { IsErrOf result SurfaceError.Memory → due self.now.log.most self.now.log.log seq ≡ None }
    {
        if self.is_failed {
            return Err(SurfaceError::Failed);
        }
        let number = self.log.number();
        if let Some(changes) = self.log.due(seq) {
            return Ok((number, CowSlice::Borrowed(changes)));
        }
        let changes = repaint(self.alloc, &self.grid)?;
        Ok((number, CowSlice::Owned(changes)))
    }
}

impl<W: Widths + Copy + Drop> Surface<W> {
    /// A copy, with the same log and number.
    pub fn try_clone(&self) -> Result<Surface<W>, AllocError>
        ensures { IfOk result (λ surface. surface ≡ self.now) }
    {
        Ok(Surface {
            alloc: self.alloc,
            grid: self.grid.try_clone()?,
            log: self.log.try_clone(self.alloc)?,
            is_failed: self.is_failed,
        })
    }
}
