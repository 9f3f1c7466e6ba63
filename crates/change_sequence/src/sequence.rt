//! `ChangeSequence`: a list of changes that knows where it leaves the cursor.
ghost use Rattle.std.specs.Prelude.{◌≡◌, ◌≤◌, ◌<◌, ◌-ℤ◌, [], pos, map, unsigned_abs, IfOk, OnOk, OnErr};
ghost use Rattle.std.specs.Int.{saturate_signed, w64};
ghost use Rattle.screen_change.specs.ValueOf.{value_of};
ghost use Rattle.change_sequence.specs.Positions.{position_of};
ghost use Rattle.change_sequence.specs.Sequence.{HasSome, change_moved, home, is_drawn, move_to, with_change};
ghost use Rattle.change_sequence.specs.Sequence.{with_changes};

use crate::moves::{CellPosition, after_text, as_row, column_of, row_of};
use cell_base::{Position, Widths};
use screen_change::{Change, cloned_changes};
use std::alloc::{AllocError, Global};
use std::marker::Model;

/// Changes in turn, and where they leave the cursor of a screen of `rows` rows and `columns` columns
/// that doesn't scroll. Columns count from 0, and rows from the cursor's row before the first change,
/// so that a row may be negative.
#[derive(Drop)]
pub struct ChangeSequence<W> {
    widths: W,
    rows: usize,
    columns: usize,
    column: usize,
    row: isize,
    lowest: isize,
    highest: isize,
    changes: Vec<Change>,
    alloc: Global,
}

impl<W> Model for ChangeSequence<W> {
    ghost use Rattle.change_sequence.specs.Sequence.{Sequence};

    ghost Value = { Sequence W };

    ghost use Rattle.change_sequence.specs.SequenceView.{sequence_of, IsWithin};

    ghost view = { sequence_of };

    ghost invariant = { IsWithin };
}

// Whether the row after the change counts for the height.
fn is_drawn(change: &Change) -> bool
    ensures { result ≡ is_drawn (value_of change.now) }
{
    matches!(change, Change::Text(_) | Change::CursorPosition { .. })
}

// Where a change leaves the cursor.
fn after<W: Widths>(
    widths: &W,
    columns: usize,
    rows: usize,
    position: CellPosition,
    change: &Change,
) -> CellPosition
    requires within { position.0 ≤ columns }
    requires some_columns { 0 < columns }
    requires some_rows { 0 < rows }
    ensures moved { position_of result
        ≡ change_moved (W.width_of widths.now) columns rows (position_of position) (value_of change.now) }
    ensures within { result.0 ≤ columns }
{
    match change {
        Change::Text(text) => after_text(widths, columns, position, text.as_str()),
        Change::CursorPosition { x, y } => {
            (
                column_of(columns, position.0, *x),
                row_of(rows, position.1, *y),
            )
        }
        Change::ClearScreen(_) => (0, 0),
        Change::ScrollRegionUp { .. } => (0, 0),
        Change::ScrollRegionDown { .. } => (0, 0),
        _ => position,
    }
}

impl<W: Widths + Drop> ChangeSequence<W> {
    /// No changes, for a screen of `rows` rows and `cols` columns, each at least 1.
    pub fn new(alloc: Global, rows: usize, cols: usize, widths: W) -> ChangeSequence<W>
        requires rows { 0 < rows }
        requires cols { 0 < cols }
        ensures { result
            ≡ record {
              widths = widths;
              columns = cols;
              rows = rows;
              position = home;
              lowest = pos 0;
              highest = pos 0;
              changes = [];
            } }
    {
        ChangeSequence {
            widths,
            rows,
            columns: cols,
            column: 0,
            row: 0,
            lowest: 0,
            highest: 0,
            changes: Vec::new(alloc),
            alloc,
        }
    }

    /// The changes.
    pub fn consume(self) -> Vec<Change>
        ensures { map value_of result.items ≡ self.changes }
    {
        let ChangeSequence { changes, .. } = self;
        changes
    }

    /// The column and the row where the changes leave the cursor.
    pub fn current_cursor_position(&self) -> (usize, isize)
        ensures { position_of result ≡ self.now.position }
    {
        (self.column, self.row)
    }

    /// The distance between the least and the greatest of row 0 and the rows after texts and cursor positions.
    pub fn render_height(&self) -> usize
        ensures { result ≡ unsigned_abs (self.now.highest -ℤ self.now.lowest) }
    {
        self.highest.abs_diff(self.lowest)
    }

    /// Adds a change; a text moves the cursor as on a screen, except that nothing scrolls. A refused call
    /// changes nothing, and drops the change.
    pub fn add<C: Into<Change> + Drop>(&mut self, change: C) -> Result<(), AllocError>
        ensures added { OnOk result
            ((c : Change) × C.converts change c
            × (self.new ≡ with_change (W.width_of self.old.widths) self.old (value_of c))) }
        ensures refused { OnErr result (self.new ≡ self.old) }
    {
        self.push(change.into())
    }

    // Adds a change.
    fn push(&mut self, change: Change) -> Result<(), AllocError>
        ensures added { OnOk result (self.new ≡ with_change (W.width_of self.old.widths) self.old (value_of change)) }
        ensures refused { OnErr result (self.new ≡ self.old) }
    {
        let position = (self.column, self.row);
        let (column, row) = after(&self.widths, self.columns, self.rows, position, &change);
        let is_drawn = is_drawn(&change);
        self.changes.push(change)?;
        self.column = column;
        self.row = row;
        if is_drawn {
            self.lowest = self.lowest.min(row);
            self.highest = self.highest.max(row);
        }
        Ok(())
    }

    /// Adds changes in turn. Where memory is refused, the changes before the refused one are added.
    pub fn add_changes(&mut self, changes: Vec<Change>) -> Result<(), AllocError>
        ensures added { OnOk result
            (self.new ≡ with_changes (W.width_of self.old.widths) self.old (map value_of changes.items)) }
        ensures refused { OnErr result
            (HasSome (W.width_of self.old.widths) self.old self.new (map value_of changes.items)) }
    {
        self.push_all(changes)
    }

    // Adds changes in turn.
    #[tactic(auto, using(crate::proofs::AddLemmas::one_added))]
    fn push_all(&mut self, changes: Vec<Change>) -> Result<(), AllocError>
        ensures added { OnOk result
            (self.new ≡ with_changes (W.width_of self.old.widths) self.old (map value_of changes.items)) }
        ensures refused { OnErr result
            (HasSome (W.width_of self.old.widths) self.old self.new (map value_of changes.items)) }
    {
        for change in changes {
            self.push(change)?;
        }
        Ok(())
    }

    /// Adds the relative cursor position that leads from the current position to `position`, a column and a
    /// row. Each distance is limited to an `isize`.
    pub fn move_to(&mut self, position: (usize, isize)) -> Result<(), AllocError>
        ensures added { OnOk result
            (self.new ≡ with_change (W.width_of self.old.widths) self.old
            (move_to self.old.position position.0 position.1)) }
        ensures refused { OnErr result (self.new ≡ self.old) }
    {
        let x = way(self.column, position.0);
        let y = position.1.saturating_sub(self.row);
        self.push(Change::CursorPosition {
            x: Position::Relative(x),
            y: Position::Relative(y),
        })
    }
}

impl<W: Widths + Copy + Drop> ChangeSequence<W> {
    /// A copy.
    pub fn try_clone(&self) -> Result<ChangeSequence<W>, AllocError>
        ensures { IfOk result (λ copy. copy ≡ self.now) }
    {
        let changes = cloned_changes(self.alloc, self.changes.as_slice())?;
        Ok(ChangeSequence {
            widths: self.widths,
            rows: self.rows,
            columns: self.columns,
            column: self.column,
            row: self.row,
            lowest: self.lowest,
            highest: self.highest,
            changes,
            alloc: self.alloc,
        })
    }
}

// The signed distance from one column to another, limited to an `isize`.
fn way(from: usize, to: usize) -> isize
    ensures { result ≡ saturate_signed w64 (pos to -ℤ pos from) }
{
    if to < from {
        0isize.saturating_sub_unsigned(from - to)
    } else {
        as_row(to - from)
    }
}
