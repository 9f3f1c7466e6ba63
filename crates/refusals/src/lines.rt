//! Lines: makers, and queries of lines. か takes two columns.
use crate::cells::LONG;
use crate::outcome::{Outcome, Stop, all};
use crate::tally::Tally;
use cell_base::{Cell, CellAttributes, ProgramWidth, SemanticType};
use cell_line::{CellCluster, Line};
use std::alloc::Global;
use std::io::Write;

/// The line of a text.
pub fn line_of(alloc: Global, text: &str, number: usize) -> Result<Line, Stop> {
    let attrs = CellAttributes::blank();
    Ok(Line::from_text(alloc, text, &attrs, number, &ProgramWidth)?)
}

/// Whether the line has that text and number.
pub fn is_line(line: &Line, text: &str, number: usize) -> Outcome {
    Ok(line.as_str()?.as_str() == text && line.current_seqno() == number)
}

// Makers of lines of cells.
fn makers(alloc: Global) -> Outcome {
    let cell = Cell::new_grapheme(alloc, LONG, CellAttributes::blank(), &ProgramWidth)?;
    let wide = Line::with_width_and_cell(alloc, 2, cell, 1)?;
    let blanks = Line::with_width(alloc, 3, 1)?;
    all(&[is_line(&wide, LONG, 1), is_line(&blanks, "   ", 1)])
}

// Lines of texts.
fn texts(alloc: Global) -> Outcome {
    let attrs = CellAttributes::blank();
    let wrapped = Line::from_text_with_wrapped_last_col(alloc, "ab", &attrs, 1, &ProgramWidth)?;
    let plain = Line::try_from_text(alloc, LONG, &ProgramWidth)?;
    all(&[
        is_line(&wrapped, "ab", 1),
        Ok(wrapped.last_cell_was_wrapped()),
        is_line(&plain, LONG, 0),
    ])
}

// A line of cells that are given.
fn given_cells(alloc: Global) -> Outcome {
    let mut cells = Vec::new(alloc);
    for _ in 0..3 {
        cells.push(Cell::new(alloc, 'x', CellAttributes::blank(), &ProgramWidth)?)?;
    }
    is_line(&Line::from_cells(alloc, cells, 2), "xxx", 2)
}

// Whether a copy of the line equals it.
fn has_copy(line: &Line) -> Outcome {
    Ok(line.try_clone()? == *line)
}

// Whether columns 1 to 3 are those of `bか`.
fn has_part(line: &Line) -> Outcome {
    is_line(&line.columns_as_line(1..4)?, "b\u{304b}", 2)
}

// Whether columns 2 to 4 have the text `かc`.
fn has_text(line: &Line) -> Outcome {
    Ok(line.columns_as_str(2..5)?.as_str() == "\u{304b}c")
}

// A copy, and parts of a line.
fn parts(alloc: Global) -> Outcome {
    let line = line_of(alloc, "ab\u{304b}c", 2)?;
    all(&[
        has_copy(&line),
        has_part(&line),
        has_text(&line),
        is_line(&line, "ab\u{304b}c", 2),
    ])
}

// How many columns a copy of a cluster has; its text is that of the cluster.
fn copied_width(cluster: &CellCluster) -> Result<usize, Stop> {
    let copy = cluster.try_clone()?;
    if copy.text.as_str() == cluster.text.as_str() {
        Ok(copy.width)
    } else {
        Err(Stop::Other)
    }
}

// Whether there are two clusters, whose copies have six columns in all.
fn are_two(clusters: &[CellCluster]) -> Outcome {
    let mut width = 0usize;
    for cluster in clusters {
        width = width.saturating_add(copied_width(cluster)?);
    }
    Ok(clusters.len() == 2 && width == 6)
}

// The clusters of a line, and their copies.
fn clusters(alloc: Global) -> Outcome {
    let line = line_of(alloc, "ab c\u{304b}", 2)?;
    let clusters = line.cluster()?;
    let made = CellCluster::make_cluster(alloc, 8, line.visible_cells())?;
    all(&[
        are_two(&clusters),
        are_two(&made),
        is_line(&line, "ab c\u{304b}", 2),
    ])
}

// Copies of cells that are lent.
fn lent_cells(alloc: Global) -> Outcome {
    let line = line_of(alloc, LONG, 0)?;
    let Some(lent) = line.get_cell(0) else {
        return Ok(false);
    };
    let copy = lent.as_cell(alloc)?;
    Ok(copy.str() == LONG && copy.width() == 2 && line.get_cell(1).is_none())
}

// Whether two changes write the line, and it has one zone.
fn has_changes_and_a_zone(line: &Line) -> Outcome {
    let changes = line.changes(&CellAttributes::blank())?;
    let zones = line.semantic_zone_ranges()?;
    Ok(changes.len() == 2 && zones.len() == 1)
}

// The changes that write a line, and its zones.
fn changes_and_zones(alloc: Global) -> Outcome {
    let mut attrs = CellAttributes::blank();
    attrs.set_semantic_type(SemanticType::Input);
    let line = Line::from_text(alloc, "ab", &attrs, 0, &ProgramWidth)?;
    all(&[has_changes_and_a_zone(&line), is_line(&line, "ab", 0)])
}

// The texts of lines, each with `|` after it.
fn texts_of(alloc: Global, lines: &[Line]) -> Result<String, Stop> {
    let mut text = String::new(alloc);
    for line in lines {
        text.push_str(line.as_str()?.as_str())?;
        text.push('|')?;
    }
    Ok(text)
}

// A line that is wrapped; a refused one is dropped.
fn wrapped(alloc: Global) -> Outcome {
    let lines = line_of(alloc, "abcde\u{304b}f  ", 2)?.wrap(3, 4)?;
    Ok(texts_of(alloc, &lines)?.as_str() == "abc|de|\u{304b}f|")
}

// A line of blanks, which is wrapped to itself.
fn wrapped_blanks(alloc: Global) -> Outcome {
    let lines = line_of(alloc, "    ", 2)?.wrap(3, 4)?;
    match lines.first() {
        Some(line) => Ok(lines.len() == 1 && is_line(line, "    ", 2)?),
        None => Ok(false),
    }
}

/// Checks makers of lines, and queries of lines.
pub fn check<W: Write>(alloc: Global, tally: &mut Tally<W>) {
    tally.take("makers of lines", makers(alloc));
    tally.take("lines of texts", texts(alloc));
    tally.take("lines of cells", given_cells(alloc));
    tally.take("parts of lines", parts(alloc));
    tally.take("clusters of lines", clusters(alloc));
    tally.take("cells that are lent", lent_cells(alloc));
    tally.take("changes and zones of lines", changes_and_zones(alloc));
    tally.take("wrapped lines", wrapped(alloc));
    tally.take("wrapped blanks", wrapped_blanks(alloc));
}
