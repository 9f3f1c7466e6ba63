//! Columns at the end in which two rows are the same.
ghost use Rattle.std.specs.Prelude.{◌≡◌, ◌-◌, ◌<◌, ◌≤◌, ◌^◌, false, length, drop};
ghost use Rattle.clustered_row.specs.CutTexts.{shown};
ghost use Rattle.clustered_row.specs.Faces.{starts_right};
ghost use Rattle.clustered_row.specs.Runs.{spread};
ghost use Rattle.clustered_row.specs.TextsShown.{faces};
ghost use Rattle.clustered_row.specs.VisibleColumns.{is_split};

use crate::columns::Columns;
use crate::cut_text::CutText;
use crate::fast::equal_columns::{equal_part, same_run};
use crate::run::Run;
use crate::runs::Runs;
use crate::texts::Texts;

// The length of the common suffix of both, at most `most`.
fn equal_bytes_at_end(bytes: &[u8], other: &[u8], most: usize) -> usize
    requires within { most ≤ length bytes.now }
    requires other_within { most ≤ length other.now }
    ensures most { result ≤ most }
    ensures equal { drop (length bytes.now - result) bytes.now ≡ drop (length other.now - result) other.now }
{
    for count in 0..most {
        if bytes[bytes.len() - 1 - count] != other[other.len() - 1 - count] {
            return count;
        }
    }
    most
}

// How many columns at the end of both have the same attributes.
fn equal_runs_at_end(runs: &[Run], other_runs: &[Run]) -> usize
    requires small { length (spread runs.now) < 2 ^ 64 }
    ensures within { result ≤ length (spread runs.now) }
    ensures other_within { result ≤ length (spread other_runs.now) }
    ensures equal { drop (length (spread runs.now) - result) (spread runs.now)
        ≡ drop (length (spread other_runs.now) - result) (spread other_runs.now) }
{
    let mut columns = 0;
    for count in 0..runs.len().min(other_runs.len()) {
        let at = runs.len() - 1 - count;
        let other_at = other_runs.len() - 1 - count;
        let run = &runs[at];
        let other = &other_runs[other_at];
        if !same_run(run, other) {
            return columns + equal_part(run, other);
        }
        columns += run.count as usize;
    }
    columns
}

impl Runs {
    // How many columns at the end of both have the same attributes.
    fn equal_columns_at_end(&self, other: &Runs) -> usize
        ensures within { result ≤ length self.now }
        ensures other_within { result ≤ length other.now }
        ensures equal { drop (length self.now - result) self.now ≡ drop (length other.now - result) other.now }
    {
        let _fits = self.len();
        equal_runs_at_end(&self.runs, &other.runs)
    }
}

impl CutText {
    // The number of cells at the end of both that are the same plain ones, at most `most`.
    fn equal_plain_at_end(&self, other: &CutText, most: usize) -> usize
        ensures most { result ≤ most }
        ensures equal { drop (length (shown self.now) - result) (shown self.now)
            ≡ drop (length (shown other.now) - result) (shown other.now) }
        ensures whole { starts_right (drop (length (shown self.now) - result) (shown self.now)) ≡ false }
        ensures other_whole { starts_right (drop (length (shown other.now) - result) (shown other.now)) ≡ false }
    {
        let plain = self.text.len() - self.sized_bytes;
        let other_plain = other.text.len() - other.sized_bytes;
        equal_bytes_at_end(&self.text, &other.text, most.min(plain).min(other_plain))
    }
}

impl Texts {
    // The number of cells at the end of both that are the same plain ones, at most `most`.
    fn equal_columns_at_end(&self, other: &Texts, most: usize) -> usize
        ensures most { result ≤ most }
        ensures equal { drop (length (faces self.now) - result) (faces self.now)
            ≡ drop (length (faces other.now) - result) (faces other.now) }
        ensures whole { starts_right (drop (length (faces self.now) - result) (faces self.now)) ≡ false }
        ensures other_whole { starts_right (drop (length (faces other.now) - result) (faces other.now)) ≡ false }
    {
        self.cut.equal_plain_at_end(&other.cut, most)
    }
}

impl Columns {
    // The number of columns at the end of both that are the same, at most `most`; no cell is cut before them. The
    // function compares only columns of plain cells.
    pub(crate) fn equal_columns_at_end(&self, other: &Columns, most: usize) -> usize
        ensures most { result ≤ most }
        ensures equal { drop (length self.now - result) self.now ≡ drop (length other.now - result) other.now }
        ensures whole { is_split (length self.now - result) self.now ≡ false }
        ensures other_whole { is_split (length other.now - result) other.now ≡ false }
    {
        let runs = self.runs.equal_columns_at_end(&other.runs);
        self.texts
            .equal_columns_at_end(&other.texts, most.min(runs))
    }
}
