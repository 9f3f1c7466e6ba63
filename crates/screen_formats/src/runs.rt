//! A line as runs: neighbouring cells that look alike.
ghost use Rattle.std.specs.Prelude.{◌≡◌, [], ◌∷◌, ◌++◌, filter, IfOk, OnOk, if◌then◌else◌};
ghost use Rattle.cell_edits.specs.VisibleCells.{visible_cells};
ghost use Rattle.cell_views.specs.CellRefView.{shown_by};
ghost use Rattle.screen_formats.specs.Runs.{goes_on, is_in, run_of, runs_of};
ghost use Rattle.screen_formats.specs.RunSteps.{grown, with_cell};

use cell_base::CellAttributes;
use cell_line::{CellRef, Line};
use std::alloc::{AllocError, Global};
use std::marker::Model;

/// Visible cells side by side, of the same attributes and the same width.
#[derive(Debug, Drop)]
pub struct Run<'a> {
    /// The attributes of each cell.
    pub attrs: &'a CellAttributes,
    /// How many columns each cell takes: 1 or 2.
    pub width: usize,
    /// The first column of the first cell, counted from 0.
    pub column: usize,
    /// How many columns the cells take.
    pub columns: usize,
    /// The texts of the cells, joined.
    pub text: String,
}

impl<'a> Model for Run<'a> {
    ghost use Rattle.screen_formats.specs.Runs.{Run as Value_of};

    ghost Value = { Value_of };

    ghost use Rattle.screen_formats.specs.RunView.{content_of};

    ghost view = { content_of };
}

impl<'a> Run<'a> {
    // The run of one cell.
    fn of_cell(alloc: Global, cell: &CellRef<'a>) -> Result<Run<'a>, AllocError>
        ensures { IfOk result (λ run. run ≡ run_of (shown_by cell.now ∷ [])) }
    {
        Ok(Run {
            attrs: cell.attrs(),
            width: cell.width(),
            column: cell.cell_index(),
            columns: cell.width(),
            text: String::from_str(alloc, cell.str())?,
        })
    }

    // Whether the cell has the attributes and the width of the run's cells.
    fn goes_on(&self, cell: &CellRef<'_>) -> bool
        ensures { result ≡ goes_on self.now (shown_by cell.now) }
    {
        *self.attrs == *cell.attrs() && self.width == cell.width()
    }

    // Appends the cell to the run.
    fn grow(&mut self, cell: &CellRef<'_>) -> Result<(), AllocError>
        ensures { OnOk result (self.new ≡ grown self.old (shown_by cell.now)) }
    {
        let columns = self.columns.checked_add(cell.width()).ok_or(AllocError)?;
        self.text.push_str(cell.str())?;
        self.columns = columns;
        Ok(())
    }
}

// Appends the last run with the cell in it, or the last run and a new one that begins with the cell.
fn push_after<'a>(
    alloc: Global,
    runs: &mut Vec<Run<'a>>,
    mut last: Run<'a>,
    cell: &CellRef<'a>,
) -> Result<(), AllocError>
    ensures { OnOk result (runs.new.items ≡ runs.old.items ++ with_cell (last.entry ∷ []) (shown_by cell.now)) }
{
    if last.goes_on(cell) {
        last.grow(cell)?;
        runs.push(last)?;
    } else {
        runs.push(last)?;
        runs.push(Run::of_cell(alloc, cell)?)?;
    }
    Ok(())
}

// The cell joins the last run, or begins one.
#[tactic(auto, using(crate::proofs::RunLemmas::with_cell_last))]
fn push_cell<'a>(
    alloc: Global,
    runs: &mut Vec<Run<'a>>,
    cell: &CellRef<'a>,
) -> Result<(), AllocError>
    ensures { OnOk result (runs.new.items ≡ with_cell runs.old.items (shown_by cell.now)) }
{
    match runs.pop() {
        Some(last) => push_after(alloc, runs, last, cell)?,
        None => runs.push(Run::of_cell(alloc, cell)?)?,
    }
    Ok(())
}

/// Cells before, at or after a column.
#[derive(Clone, Copy, Debug)]
pub(crate) enum Part {
    Before(usize),
    At(usize),
    After(usize),
}

fn is_in(part: Part, cell: &CellRef<'_>) -> bool
    ensures { result ≡ is_in part (shown_by cell.now) }
{
    let first = cell.cell_index();
    let end = first as u128 + cell.width() as u128;
    match part {
        Part::Before(column) => end <= column as u128,
        Part::At(column) => first <= column && (column as u128) < end,
        Part::After(column) => column < first,
    }
}

// The cell joins the last run, or begins one, if it is wanted.
fn push_if<'a>(
    alloc: Global,
    runs: &mut Vec<Run<'a>>,
    cell: &CellRef<'a>,
    is_wanted: bool,
) -> Result<(), AllocError>
    ensures { OnOk result
        (runs.new.items ≡ (if is_wanted then with_cell runs.old.items (shown_by cell.now) else runs.old.items)) }
{
    if is_wanted {
        push_cell(alloc, runs, cell)?;
    }
    Ok(())
}

/// The runs of the cells of a line that are before, at or after a column, each as long as possible, in order.
pub(crate) fn part_runs(alloc: Global, line: &Line, part: Part) -> Result<Vec<Run<'_>>, AllocError>
    ensures { IfOk result (λ runs. runs.items ≡ runs_of (filter (is_in part) (visible_cells line.now.columns))) }
{
    let mut runs = Vec::new(alloc);
    for cell in line.visible_cells() {
        push_if(alloc, &mut runs, &cell, is_in(part, &cell))?;
    }
    Ok(runs)
}

/// The runs of a line, each as long as possible, in order. Takes memory in proportion to the line.
pub fn line_runs(alloc: Global, line: &Line) -> Result<Vec<Run<'_>>, AllocError>
    ensures { IfOk result (λ runs. runs.items ≡ runs_of (visible_cells line.now.columns)) }
{
    let mut runs = Vec::new(alloc);
    for cell in line.visible_cells() {
        push_cell(alloc, &mut runs, &cell)?;
    }
    Ok(runs)
}
