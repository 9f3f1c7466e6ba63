//! Rows of lines that are made and written without the number of a change, for screens, which number their changes
//! themselves. Callers that edit lines of their own use the calls of `Line`.
ghost use Rattle.std.specs.Prelude.{◌≡◌, ◌≤◌, ◌+◌, true, length, drop, IfOk, OnOk, OnErr};
ghost use Rattle.std.specs.List.{list_all};
ghost use Rattle.text_clusters.specs.Plain.{is_printable};
ghost use Rattle.cell_base.specs.Cluster.{clusters};
ghost use Rattle.cell_base.specs.Row.{plain_row};
ghost use Rattle.cell_edits.specs.TextRuns.{text_after};
ghost use Rattle.cell_line.specs.LineContent.{IsRefused};
ghost use Rattle.cell_line.specs.LineCalls.{set_blanks, set_plain, set_text, set_clusters, set_text_end};
ghost use Rattle.cell_line.specs.LineCalls.{with_width_clustered};

use crate::line::Line;
use crate::line_bits::LineBits;
use cell_base::{CellAttributes, LineAttribute, SEQ_ZERO, SequenceNo, Widths};
use cell_edits::runs;
use clustered_row::ClusteredRow;
use std::alloc::{AllocError, Global};
use std::ops::Range;

/// A line of plain blanks, clustered. It asks for no memory.
pub fn with_width_clustered(alloc: Global, width: usize, seqno: SequenceNo) -> Line
    ensures { result ≡ with_width_clustered width seqno }
{
    Line {
        alloc,
        number: seqno,
        bits: LineBits::new(LineAttribute::SingleWidthLine),
        is_clustered: true,
        cells: Vec::new(alloc),
        row: ClusteredRow::new(alloc, width),
    }
}

// Makes a row `width` plain blanks. A row that is as wide keeps its memory.
#[inline(always)]
fn reset_row(alloc: Global, row: &mut ClusteredRow, width: usize)
    ensures { row.new ≡ plain_row width }
{
    if row.len() == width {
        row.clear();
        return;
    }
    *row = ClusteredRow::new(alloc, width);
}

/// Makes any line one of `width` plain blanks, clustered, with number 0 and at normal size. It asks for no memory; a
/// clustered line that has this width already keeps its memory for what is written next.
#[inline(always)]
pub fn reset(line: &mut Line, width: usize)
    ensures { line.new ≡ with_width_clustered width 0 }
{
    reset_row(line.alloc, &mut line.row, width);
    line.number = SEQ_ZERO;
    line.bits = LineBits::new(LineAttribute::SingleWidthLine);
    if line.is_clustered {
        return;
    }
    line.is_clustered = true;
    line.cells = Vec::new(line.alloc);
}

/// Makes the columns of a range blanks with these attributes. A half of a wide cell that is left
/// alone on either side becomes a blank with that cell's attributes, also where the range is
/// empty. Number and bits stay.
pub fn set_blanks(
    line: &mut Line,
    cols: Range<usize>,
    attrs: &CellAttributes,
) -> Result<(), AllocError>
    requires order { cols.start ≤ cols.end }
    requires within { cols.end ≤ length line.old.columns }
    ensures done { OnOk result (line.new ≡ set_blanks line.old cols.start cols.end attrs.now) }
    ensures refused { OnErr result (IsRefused line.old line.new) }
{
    if line.is_clustered {
        line.row.set_blanks(cols.start, cols.end, attrs)?;
        return Ok(());
    }
    runs::set_blanks(&mut line.cells, cols.start, cols.end, attrs)?;
    Ok(())
}

/// Sets a cell for each cluster of a text, as UAX 29 cuts it, side by side from the start of a
/// range on, up to the first that doesn't fit before its end. Returns the column after them, and
/// the rest of the text, whose clusters are the ones that weren't set. Number, bits and the count
/// of columns stay.
pub fn set_text<'a, W: Widths>(
    line: &mut Line,
    cols: Range<usize>,
    text: &'a str,
    attrs: &CellAttributes,
    w: &W,
) -> Result<(usize, &'a str), AllocError>
    requires order { cols.start ≤ cols.end }
    requires within { cols.end ≤ length line.old.columns }
    ensures done { OnOk result
        (line.new ≡ set_text line.old cols.start cols.end text.now attrs.now (W.width_of w.now)) }
    ensures after { IfOk result (λ r. r.0 ≡ set_text_end cols.start cols.end text.now attrs.now (W.width_of w.now)) }
    ensures left { IfOk result
        (λ r. r.1.now ≡ text_after (set_clusters cols.start cols.end text.now attrs.now (W.width_of w.now)) text.now) }
    ensures rest { IfOk result
        (λ r. clusters r.1.now
        ≡ drop (set_clusters cols.start cols.end text.now attrs.now (W.width_of w.now)) (clusters text.now)) }
    ensures refused { OnErr result (IsRefused line.old line.new) }
{
    if line.is_clustered {
        let (at, left) = line.row.set_text(cols.start, cols.end, text, attrs, w)?;
        return Ok((at, left));
    }
    let (at, left) = runs::set_text(
        line.alloc,
        &mut line.cells,
        cols.start,
        cols.end,
        text,
        attrs,
        w,
    )?;
    Ok((at, left))
}

/// Sets printable ASCII characters (20h to 7Eh) from a column on, each as a cell of one column.
#[inline(always)]
pub fn set_plain(
    line: &mut Line,
    at: usize,
    text: &str,
    attrs: &CellAttributes,
) -> Result<(), AllocError>
    requires printable { list_all is_printable text.now ≡ true }
    requires within { at + length text.now ≤ length line.old.columns }
    ensures done { OnOk result (line.new ≡ set_plain line.old at text.now attrs.now) }
    ensures refused { OnErr result (IsRefused line.old line.new) }
{
    if line.is_clustered {
        line.row.set_ascii_text(at, text, attrs)?;
        return Ok(());
    }
    runs::set_plain(&mut line.cells, at, text, attrs)?;
    Ok(())
}
