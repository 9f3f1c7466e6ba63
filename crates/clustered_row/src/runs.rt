//! The attributes of columns.
ghost use Rattle.std.specs.Prelude.{◌≡◌, [], ◌++◌, ◌+◌, ◌-◌, ◌<◌, ◌≤◌, ◌^◌, length, take, drop, replicate};
ghost use Rattle.std.specs.Prelude.{slice_index_or, IfOk, OnOk, OnErr};
ghost use Rattle.clustered_row.specs.Runs.{spread, attributes_set};

use crate::run::Run;
use crate::run_steps;
use cell_base::CellAttributes;
use std::alloc::{AllocError, Global};
use std::marker::Model;

// The most columns that one run can count.
const FULL: usize = u32::MAX as usize;

/// The attributes of columns, which count from 0, kept as runs of equal attributes.
///
/// A call that is refused memory leaves the columns' attributes as they were.
#[derive(Debug, Drop)]
pub struct Runs {
    pub(crate) runs: Vec<Run>,
    pub(crate) columns: usize,
}

impl Model for Runs {
    ghost use Rattle.std.specs.Prelude.{List};
    ghost use Rattle.cell_base.specs.Attributes.{Attributes};

    ghost Value = { List Attributes };

    ghost use Rattle.clustered_row.specs.RunsView.{columns_shown, AreRuns};

    ghost view = { columns_shown };

    ghost invariant = { AreRuns };
}

impl Runs {
    /// No columns.
    pub fn new(alloc: Global) -> Runs
        ensures { result ≡ [] }
    {
        Runs {
            runs: Vec::new(alloc),
            columns: 0,
        }
    }

    /// How many columns there are.
    pub fn len(&self) -> usize
        ensures { result ≡ length self.now }
    {
        self.columns
    }

    /// The attributes of a column.
    pub fn at(&self, column: usize) -> &CellAttributes
        requires { column < length self.now }
        ensures { result.now ≡ slice_index_or self.now column result.now }
    {
        run_steps::at(&self.runs, self.columns, column)
    }

    /// Adds columns with these attributes after the last. They are counted to the last run where it has them.
    #[inline(always)]
    pub fn push(&mut self, count: usize, attributes: &CellAttributes) -> Result<(), AllocError>
        requires { length self.old + count < 2 ^ 64 }
        ensures done { OnOk result (self.new ≡ self.old ++ replicate count attributes.now) }
        ensures refused { OnErr result (self.new ≡ self.old) }
    {
        if count > FULL {
            return self.push_more(count, attributes);
        }
        self.push_some(count as u32, attributes)
    }

    // Adds `count` columns, which one run can count.
    #[inline(always)]
    fn push_some(&mut self, count: u32, attributes: &CellAttributes) -> Result<(), AllocError>
        requires { length self.old + count < 2 ^ 64 }
        ensures done { OnOk result (self.new ≡ self.old ++ replicate count attributes.now) }
        ensures refused { OnErr result (self.new ≡ self.old) }
    {
        run_steps::push(&mut self.runs, count, attributes)?;
        self.columns += count as usize;
        Ok(())
    }

    // Adds more columns than a run can count.
    #[cold]
    #[inline(never)]
    fn push_more(&mut self, count: usize, attributes: &CellAttributes) -> Result<(), AllocError>
        requires { length self.old + count < 2 ^ 64 }
        ensures done { OnOk result (self.new ≡ self.old ++ replicate count attributes.now) }
        ensures refused { OnErr result (self.new ≡ self.old) }
    {
        let columns = self.len();
        let mut left = count;
        while left > 0 {
            let part = left.min(FULL);
            if let Err(refused) = self.push_some(part as u32, attributes) {
                self.cut(columns);
                return Err(refused);
            }
            left -= part;
        }
        Ok(())
    }

    /// Drops the columns from `at` on.
    pub fn cut(&mut self, at: usize)
        ensures { self.new ≡ take at self.old }
    {
        if at < self.columns {
            run_steps::cut(&mut self.runs, self.columns, at);
            self.columns = at;
        }
    }

    /// Drops all columns, and keeps the memory of their runs.
    pub fn clear(&mut self)
        ensures { self.new ≡ [] }
    {
        self.runs.clear();
        self.columns = 0;
    }

    /// Gives the columns from `a` on, before `b`, these attributes.
    #[inline(always)]
    pub fn set(&mut self, a: usize, b: usize, attributes: &CellAttributes) -> Result<(), AllocError>
        requires order { a ≤ b }
        requires within { b ≤ length self.old }
        ensures done { OnOk result (self.new ≡ attributes_set a b attributes.now self.old) }
        ensures refused { OnErr result (self.new ≡ self.old) }
    {
        if a == b {
            return Ok(());
        }
        if self.columns > FULL {
            return self.set_in_copy(a, b, attributes);
        }
        run_steps::set(&mut self.runs, self.columns, a, b, attributes)?;
        Ok(())
    }

    // More columns than a run can count are so rare that they are set in a copy, whose runs `push` alone fills.
    #[cold]
    #[inline(never)]
    fn set_in_copy(
        &mut self,
        a: usize,
        b: usize,
        attributes: &CellAttributes,
    ) -> Result<(), AllocError>
        requires order { a ≤ b }
        requires within { b ≤ length self.old }
        ensures done { OnOk result (self.new ≡ attributes_set a b attributes.now self.old) }
        ensures refused { OnErr result (self.new ≡ self.old) }
    {
        let mut copy = Runs::new(*self.runs.allocator());
        copy.push_columns(&self.runs, 0, a)?;
        copy.push(b - a, attributes)?;
        copy.push_columns(&self.runs, b, self.columns - b)?;
        *self = copy;
        Ok(())
    }

    // Adds `count` of the columns of these runs, after the first `skip` ones.
    fn push_columns(&mut self, runs: &[Run], skip: usize, count: usize) -> Result<(), AllocError>
        requires { length self.old + count < 2 ^ 64 }
        ensures { OnOk result (self.new ≡ self.old ++ take count (drop skip (spread runs.now))) }
    {
        let mut skip = skip;
        let mut count = count;
        for run in runs {
            let columns = run.count as usize;
            let skipped = skip.min(columns);
            let part = count.min(columns - skipped);
            self.push(part, &run.attributes)?;
            skip -= skipped;
            count -= part;
        }
        Ok(())
    }

    /// A copy that shares links.
    pub fn try_clone(&self) -> Result<Runs, AllocError>
        ensures { IfOk result (λ copy. copy ≡ self.now) }
    {
        Ok(Runs {
            runs: run_steps::copy(*self.runs.allocator(), &self.runs)?,
            columns: self.columns,
        })
    }
}
