//! `StoredRow`: what a row stores, borrowed.
ghost use Rattle.std.specs.Prelude.{◌≡◌, false, true, length};
ghost use Rattle.clustered_row.specs.Faces.{row_of};
ghost use Rattle.clustered_row.specs.Runs.{spread, AreMaximal};
ghost use Rattle.clustered_row.specs.TextsShown.{faces};

use crate::cell_size::CellSize;
use crate::columns::Columns;
use crate::row::ClusteredRow;
use crate::run::Run;
use crate::runs::Runs;
use crate::texts::Texts;
use cell_base::CellAttributes;

/// The stored columns of a row: one text, the sizes of its cells, runs of equal attributes, and blanks after them.
#[derive(Debug, Clone, Copy)]
pub struct StoredRow<'a> {
    /// The texts of the cells that were written, side by side.
    pub text: &'a str,
    /// The sizes of the first cells, up to the last one that isn't plain. Each byte after these cells is a plain one:
    /// a printable ASCII character in one column.
    pub sizes: &'a [CellSize],
    /// The attributes of these columns.
    pub runs: &'a [Run],
    /// How many blanks follow them.
    pub blanks: usize,
    /// The attributes of the blanks.
    pub rest: &'a CellAttributes,
}

impl Runs {
    /// The runs.
    #[inline(always)]
    pub fn stored(&self) -> &[Run]
        ensures shown { spread result.now ≡ self.now }
        ensures maximal { AreMaximal result.now }
    {
        &self.runs
    }
}

impl Columns {
    // The texts, and the runs of their attributes.
    #[inline(always)]
    fn stored(&self) -> (&Texts, &[Run])
        ensures shown { row_of (faces result.0.now) (spread result.1.now) ≡ self.now }
        ensures even { length (spread result.1.now) ≡ length (faces result.0.now) }
        ensures maximal { AreMaximal result.1.now }
    {
        (&self.texts, self.runs.stored())
    }
}

impl ClusteredRow {
    ghost use Rattle.clustered_row.specs.StoredRows.{IsStored};

    /// The stored columns of the row.
    pub fn stored(&self) -> StoredRow<'_>
        ensures { IsStored result self.now }
    {
        let (texts, runs) = self.columns.stored();
        StoredRow {
            text: texts.text(),
            sizes: texts.sizes(),
            runs,
            blanks: self.width - self.columns.len(),
            rest: &self.rest,
        }
    }
}
