//! Ends of rows: the blanks of one background there, and how many cells come before them.
ghost use Rattle.std.specs.Prelude.{◌≡◌, ◌+◌, ◌<◌, ◌^◌, ◌&&◌, [], length, MatchOption};
ghost use Rattle.std.specs.Option.{option_map};
ghost use Rattle.std.specs.Str.{bytes_eq};
ghost use Rattle.cell_base.specs.Attributes.{blank_of as attributes_of};
ghost use Rattle.cell_base.specs.Row.{space};
ghost use Rattle.cell_base.specs.SameAttributes.{same_attributes};
ghost use Rattle.screen_change.specs.CellRuns.{is_blank_of};
ghost use Rattle.cell_views.specs.CellRefView.{cells_left, shown_by};
ghost use Rattle.screen_repaint.specs.PaintedRows.{AreFilled, IsTail, rows_of};
ghost use Rattle.screen_repaint.specs.Repaint.{row_cells};
ghost use Rattle.screen_repaint.specs.Ends.{PassesOn, PassesSpaces, are_blanks_with, end_of, ends_in};
ghost use Rattle.screen_repaint.specs.Ends.{passing_at_end, with_blanks, with_filled};

use crate::fast::pass_plain_spaces;
use cell_base::CellAttributes;
use cell_line::{CellRef, Line, VisibleCellIter};
use screen_grid::blank_of;
use std::marker::Model;

/// How many cells a row has, how many of them come before the blanks of one background at its end,
/// and the attributes of these blanks.
#[derive(Drop)]
pub(crate) struct RowEnd<'a> {
    cells: usize,
    kept: usize,
    blanks: Option<&'a CellAttributes>,
}

impl<'a> Model for RowEnd<'a> {
    ghost use Rattle.screen_repaint.specs.Ends.{End};

    ghost Value = { End };

    ghost use Rattle.screen_repaint.specs.EndView.{end_shown};

    ghost view = { end_shown };
}

// Whether the attributes are plain except for the background.
pub(crate) fn is_plain(attrs: &CellAttributes) -> bool
    ensures { result ≡ same_attributes attrs.now (attributes_of attrs.now.background) }
{
    *attrs == blank_of(attrs.background())
}

// Whether the cell is one space, plain except for its background.
#[tactic(auto, unfolding(screen_change::specs::CellRuns::is_blank_of))]
fn is_blank(cell: &CellRef<'_>) -> bool
    ensures { result ≡ is_blank_of (shown_by cell.now).cell.attributes.background (shown_by cell.now).cell }
{
    cell.str() == " " && is_plain(cell.attrs())
}

// Whether there are blanks, and they have these attributes.
pub(crate) fn ends_in(blanks: Option<&CellAttributes>, attrs: &CellAttributes) -> bool
    ensures { result ≡ ends_in (option_map (λ a. a.now) blanks.entry) attrs.now }
{
    match blanks {
        None => false,
        Some(blanks) => *blanks == *attrs,
    }
}

impl<'a> RowEnd<'a> {
    // The number of cells before the blanks.
    pub(crate) fn kept(&self) -> usize
        ensures { result ≡ self.now.kept }
    {
        self.kept
    }

    // The attributes of the blanks.
    pub(crate) fn blanks(&self) -> Option<&'a CellAttributes>
        ensures { option_map (λ a. a.now) result ≡ self.now.blanks }
    {
        self.blanks
    }

    // Adds `filled` cells that are no blanks, and then `blanks` blanks with these attributes.
    pub(crate) fn push(&mut self, filled: usize, blanks: usize, attrs: &'a CellAttributes)
        requires { self.old.cells + (filled + blanks) < 2 ^ 64 }
        ensures { self.new ≡ with_blanks blanks attrs.now (with_filled filled self.old) }
    {
        if filled > 0 {
            self.cells += filled;
            self.kept = self.cells;
            self.blanks = None;
        }
        if blanks == 0 {
            return;
        }
        if !ends_in(self.blanks, attrs) {
            self.kept = self.cells;
            self.blanks = Some(attrs);
        }
        self.cells += blanks;
    }

    // Adds the next of the remaining cells: as many as can be passed as one text (`pass_plain`), or else one. Returns
    // whether any was left.
    fn push_next(&mut self, cells: &mut VisibleCellIter<'a>) -> bool
        requires { self.old.cells + length (cells_left cells.old) < 2 ^ 64 }
        ensures { PassesOn self.old (cells_left cells.old) self.new (cells_left cells.new) result }
    {
        if self.push_plain(cells).is_some() {
            return true;
        }
        let Some(cell) = cells.next() else {
            return false;
        };
        let blanks = usize::from(is_blank(&cell));
        self.push(1 - blanks, blanks, cell.attrs());
        true
    }
}

// How a line ends.
pub(crate) fn row_end(line: &Line) -> RowEnd<'_>
    ensures { result ≡ end_of (row_cells line.now.columns) }
{
    let len = line.len();
    let mut end = RowEnd {
        cells: 0,
        kept: 0,
        blanks: None,
    };
    let mut cells = line.visible_cells();
    while end.push_next(&mut cells) {}
    end
}

// Whether the cell is a space with these attributes.
fn is_space_with(cell: &CellRef<'_>, attrs: &CellAttributes) -> bool
    ensures { result
        ≡ (bytes_eq (shown_by cell.now).cell.text space
        && same_attributes (shown_by cell.now).cell.attributes attrs.now) }
{
    cell.str() == " " && *cell.attrs() == *attrs
}

// Passes the next of the remaining cells: as many as can be passed as one text (`pass_plain`), or else one. Returns
// whether they are spaces with these attributes. `None`: none is left.
fn pass_spaces(cells: &mut VisibleCellIter<'_>, attrs: &CellAttributes) -> Option<bool>
    ensures { MatchOption result (cells_left cells.old ≡ [])
        (λ are. PassesSpaces attrs.now (cells_left cells.old) (cells_left cells.new) are) }
{
    if let Some(are_spaces) = pass_plain_spaces(cells, attrs) {
        return Some(are_spaces);
    }
    let cell = cells.next()?;
    Some(is_space_with(&cell, attrs))
}

// Whether all cells of a line are spaces with these attributes.
pub(crate) fn is_blank_with(line: &Line, attrs: &CellAttributes) -> bool
    ensures { result ≡ are_blanks_with attrs.now (row_cells line.now.columns) }
{
    let mut cells = line.visible_cells();
    while let Some(are_spaces) = pass_spaces(&mut cells, attrs) {
        if !are_spaces {
            return false;
        }
    }
    true
}

// How many lines at the end have spaces with these attributes and nothing else.
pub(crate) fn blank_lines_at_end(lines: &[Line], attrs: &CellAttributes) -> usize
    ensures { result
        ≡ passing_at_end (λ l. are_blanks_with attrs.now (row_cells l.columns)) (length lines.now) lines.now }
{
    let mut count = lines.len();
    let mut left = lines;
    while let Some((line, below)) = left.split_first() {
        if !is_blank_with(line, attrs) {
            count = below.len();
        }
        left = below;
    }
    count
}

/// How many lines at the end have blanks of one colour and nothing else, and the attributes of the
/// blanks at the end of the last line.
pub(crate) fn blank_tail(lines: &[Line]) -> (usize, Option<&CellAttributes>)
    ensures { AreFilled (rows_of lines.now) → IsTail result.0 (option_map (λ a. a.now) result.1) (rows_of lines.now) }
{
    let Some(last) = lines.last() else {
        return (0, None);
    };
    let Some(attrs) = row_end(last).blanks() else {
        return (0, None);
    };
    (blank_lines_at_end(lines, attrs), Some(attrs))
}
