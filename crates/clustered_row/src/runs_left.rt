//! Attributes of the columns that an iteration has not passed yet.
ghost use Rattle.std.specs.Prelude.{◌≡◌, ◌<◌, ◌≤◌, ◌∷◌, ◌++◌, true, length, drop, replicate, slice_index_or};
ghost use Rattle.clustered_row.specs.Runs.{is_begun};
ghost use Rattle.clustered_row.specs.Sizes.{width_of};

use crate::run::Run;
use crate::run_steps;
use crate::runs::Runs;
use cell_base::CellAttributes;

// The attributes of the columns of `runs`, except the first `used`; the first run has more than `used`.
#[derive(Drop)]
pub(crate) struct RunsLeft<'a> {
    pub(crate) runs: &'a [Run],
    pub(crate) used: usize,
    ghost begun: { is_begun used runs.now ≡ true },
}

impl<'a> RunsLeft<'a> {
    ghost use Rattle.clustered_row.specs.VisibleRuns.{attributes_left, run_left};

    // How many columns of the next run are left; none where no run is.
    pub(crate) fn run_len(&self) -> usize
        ensures { result ≡ run_left self.now }
    {
        match self.runs.first() {
            None => 0,
            Some(run) => run.count as usize - self.used,
        }
    }

    // Takes `count` columns of the next run, and returns their attributes.
    #[inline(always)]
    pub(crate) fn pass_columns(&mut self, count: usize) -> &'a CellAttributes
        requires some { 0 < count }
        requires within { count ≤ run_left self.old }
        ensures { attributes_left self.old ≡ replicate count result.now ++ attributes_left self.new }
    {
        let run = &self.runs[0];
        let columns = run.count;
        let used = self.used + count;
        if used < columns as usize {
            self.used = used;
            return &run.attributes;
        }
        self.runs = &self.runs[1..];
        self.used = 0;
        &run.attributes
    }

    // Takes the next column, and returns its attributes.
    #[inline(always)]
    fn pass(&mut self) -> &'a CellAttributes
        requires { 0 < length (attributes_left self.old) }
        ensures { attributes_left self.old ≡ result.now ∷ attributes_left self.new }
    {
        self.pass_columns(1)
    }

    // Takes the next cell's columns, and returns the first one's attributes.
    #[inline(always)]
    pub(crate) fn pass_cell(&mut self, is_wide: bool) -> &'a CellAttributes
        requires { width_of is_wide ≤ length (attributes_left self.old) }
        ensures first { result.now ≡ slice_index_or (attributes_left self.old) 0 result.now }
        ensures left { attributes_left self.new ≡ drop (width_of is_wide) (attributes_left self.old) }
    {
        let attributes = self.pass();
        if is_wide {
            let _second = self.pass();
        }
        attributes
    }
}

impl Runs {
    ghost use Rattle.clustered_row.specs.VisibleRuns.{attributes_left};

    // All columns.
    #[inline(always)]
    pub(crate) fn left(&self) -> RunsLeft<'_>
        ensures { attributes_left result ≡ self.now }
    {
        RunsLeft {
            runs: &self.runs,
            used: 0,
        }
    }

    // The columns from `column` on.
    pub(crate) fn left_from(&self, column: usize) -> RunsLeft<'_>
        requires { column ≤ length self.now }
        ensures { attributes_left result ≡ drop column self.now }
    {
        let position = run_steps::position_from(&self.runs, 0, column);
        RunsLeft {
            runs: &self.runs[position.index..],
            used: position.offset,
        }
    }
}
