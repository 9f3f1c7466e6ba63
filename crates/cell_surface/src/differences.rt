//! Differences between surfaces and lines.
ghost use Rattle.std.specs.Prelude.{◌≡◌, ◌+◌, ◌-◌, ◌≤◌, ◌^◌, ◌↔◌, [], ◌∷◌, true, false, length, map, IfOk, OnOk, OnErr};
ghost use Rattle.std.specs.Prelude.{IsErrOf};
ghost use Rattle.screen_change.specs.ValueOf.{value_of};
ghost use Rattle.cell_surface.specs.Surface.{AddsAll, number_of, shown_by};
ghost use Rattle.cell_surface.specs.Differences.{brought_back, drawn, regions_difference, lines_difference};
ghost use Rattle.screen_difference.specs.FreshCells.{rows_of};
ghost use Rattle.screen_effects.specs.Display.{IsDisplay};

use crate::error::SurfaceError;
use crate::surface::Surface;
use cell_base::{Position, SequenceNo, Widths};
use cell_line::Line;
use screen_change::Change;
use std::alloc::AllocError;

impl<W: Widths + Drop> Surface<W> {
    /// The changes that make a region of this surface, whose top left is at column `x` and row `y`,
    /// show what the other one shows from `other_x` and `other_y` on: the cells that this one doesn't
    /// show yet, where each run of adjacent cells follows a change that moves the cursor to it. Columns and
    /// rows that either side lacks are left out, and a wide cell that the region's edge cuts counts as a blank
    /// with its attributes.
    pub fn diff_region(
        &self,
        x: usize,
        y: usize,
        width: usize,
        height: usize,
        other: &Surface<W>,
        other_x: usize,
        other_y: usize,
    ) -> Result<Vec<Change>, SurfaceError>
        ensures changes { IfOk result
            (λ changes. map value_of changes.items
            ≡ regions_difference (shown_by self.now) x y width height (shown_by other.now) other_x other_y) }
        ensures refused { OnErr result (IsErrOf result SurfaceError.Memory) }
    {
        let changes = screen_difference::diff_region(
            self.alloc,
            self.grid.lines(),
            x,
            y,
            width,
            height,
            other.grid.lines(),
            other_x,
            other_y,
        )?;
        Ok(changes)
    }

    /// The changes that make the rows of this surface, from the top, show these lines; rows that
    /// either side lacks are left out.
    pub fn diff_lines(&self, other_lines: Vec<&Line>) -> Result<Vec<Change>, SurfaceError>
        ensures changes { IfOk result
            (λ changes. map value_of changes.items
            ≡ lines_difference (shown_by self.now) 0 (rows_of (map (λ line. line.now) other_lines.entry.items))) }
        ensures refused { OnErr result (IsErrOf result SurfaceError.Memory) }
    {
        let changes = screen_difference::diff_lines(
            self.alloc,
            self.grid.lines(),
            other_lines.as_slice(),
        )?;
        Ok(changes)
    }

    /// The changes that make row `row_num` of this surface show a line; none where there is no such row.
    pub fn diff_against_numbered_line(
        &self,
        row_num: usize,
        other_line: &Line,
    ) -> Result<Vec<Change>, SurfaceError>
        ensures changes { IfOk result
            (λ changes. map value_of changes.items
            ≡ lines_difference (shown_by self.now) row_num (rows_of (other_line.now ∷ []))) }
        ensures refused { OnErr result (IsErrOf result SurfaceError.Memory) }
    {
        let changes = screen_difference::diff_against_numbered_line(
            self.alloc,
            self.grid.lines(),
            row_num,
            other_line,
        )?;
        Ok(changes)
    }

    /// The changes that make this surface show what another one shows, in the columns and rows that both have. The
    /// screen of this surface is lawful while it hasn't failed.
    pub fn diff_screens(&self, other: &Surface<W>) -> Result<Vec<Change>, SurfaceError>
        ensures changes { IfOk result
            (λ changes. map value_of changes.items
            ≡ regions_difference (shown_by self.now) 0 0 (shown_by self.now).screen.width
            (length (shown_by self.now).screen.rows) (shown_by other.now) 0 0) }
        ensures refused { OnErr result (IsErrOf result SurfaceError.Memory) }
        ensures lawful { self.now.is_failed ≡ false → IsDisplay (shown_by self.now) }
    {
        let (width, _height) = self.grid.dimensions();
        let changes = screen_difference::diff_screens(
            self.alloc,
            width,
            self.grid.lines(),
            other.grid.lines(),
        )?;
        Ok(changes)
    }

    /// Draws another surface with its top left at column `x` and row `y`: adds the difference there, and
    /// then the cursor's position and the pen as they were. Columns and rows that this surface lacks are left
    /// out. Returns what `add_changes` of the whole list returns.
    pub fn draw_from_screen(
        &mut self,
        other: &Surface<W>,
        x: usize,
        y: usize,
    ) -> Result<SequenceNo, SurfaceError>
        ensures number { IfOk result
            (λ n. n ≡ number_of self.old - 1 + length (drawn (shown_by self.old) (shown_by other.now) x y)) }
        ensures added { OnOk result
            (AddsAll (W.width_of self.old.grid.widths) self.old self.new
            (drawn (shown_by self.old) (shown_by other.now) x y)) }
        ensures failed { IsErrOf result SurfaceError.Failed ↔ (self.old.is_failed ≡ true) }
        ensures still_failed { IsErrOf result SurfaceError.Failed → self.new ≡ self.old }
        ensures numbers { IsErrOf result SurfaceError.Number
            → (2 ^ 64 ≤ number_of self.old + length (drawn (shown_by self.old) (shown_by other.now) x y))
            × (self.new ≡ self.old) }
        ensures memory { IsErrOf result SurfaceError.Memory → self.new.is_failed ≡ true }
    {
        if self.is_failed {
            return Err(SurfaceError::Failed);
        }
        self.is_failed = true;
        let changes = self.drawing(other, x, y)?;
        self.is_failed = false;
        self.push_all(changes)
    }

    // The difference where another surface is drawn, and the cursor's position and the pen as they are.
    fn drawing(&self, other: &Surface<W>, x: usize, y: usize) -> Result<Vec<Change>, AllocError>
        ensures { IfOk result
            (λ changes. map value_of changes.items ≡ drawn (shown_by self.now) (shown_by other.now) x y) }
    {
        let (width, height) = other.grid.dimensions();
        let mut changes = screen_difference::diff_region(
            self.alloc,
            self.grid.lines(),
            x,
            y,
            width,
            height,
            other.grid.lines(),
            0,
            0,
        )?;
        let (column, row) = self.grid.cursor_position();
        changes.push(Change::CursorPosition {
            x: Position::Absolute(column),
            y: Position::Absolute(row),
        })?;
        changes.push(Change::AllAttributes(self.grid.pen().try_clone()?))?;
        Ok(changes)
    }

    /// Copies a region, whose top left is at column `src_x` and row `src_y`, so that its top left is at
    /// column `dest_x` and row `dest_y`: adds the difference there, and returns what `add_changes` of it does.
    /// Columns and rows that the surface lacks at either position are left out; the cursor and the pen are
    /// where the difference leaves them. What is copied is what was shown before, also where both positions
    /// share cells.
    pub fn copy_region(
        &mut self,
        src_x: usize,
        src_y: usize,
        width: usize,
        height: usize,
        dest_x: usize,
        dest_y: usize,
    ) -> Result<SequenceNo, SurfaceError>
        ensures number { IfOk result
            (λ n. n
            ≡ number_of self.old - 1
            + length
            (regions_difference (shown_by self.old) dest_x dest_y width height (shown_by self.old) src_x
            src_y)) }
        ensures added { OnOk result
            (AddsAll (W.width_of self.old.grid.widths) self.old self.new
            (regions_difference (shown_by self.old) dest_x dest_y width height (shown_by self.old) src_x src_y)) }
        ensures failed { IsErrOf result SurfaceError.Failed ↔ (self.old.is_failed ≡ true) }
        ensures still_failed { IsErrOf result SurfaceError.Failed → self.new ≡ self.old }
        ensures numbers { IsErrOf result SurfaceError.Number
            → (2 ^ 64
            ≤ number_of self.old
            + length
            (regions_difference (shown_by self.old) dest_x dest_y width height (shown_by self.old) src_x
            src_y)) × (self.new ≡ self.old) }
        ensures memory { IsErrOf result SurfaceError.Memory → self.new.is_failed ≡ true }
    {
        if self.is_failed {
            return Err(SurfaceError::Failed);
        }
        self.is_failed = true;
        let changes = screen_difference::diff_region(
            self.alloc,
            self.grid.lines(),
            dest_x,
            dest_y,
            width,
            height,
            self.grid.lines(),
            src_x,
            src_y,
        )?;
        self.is_failed = false;
        self.push_all(changes)
    }
}
