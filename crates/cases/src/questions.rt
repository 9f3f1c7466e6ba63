//! Queries of a line.
use crate::call::Call;
use crate::fault::Fault;
use crate::sheet::Sheet;
use crate::{attributes, stored};
use cell_line::{CellCluster, CellRef, Line};

// Questions that are answered by yes or no.
fn yes_or_no(line: &Line, call: &Call<'_>, sheet: &mut Sheet) -> bool {
    match call.word(0) {
        "changed_since" => line.changed_since(call.number(1, sheet)),
        "is_single_width" => line.is_single_width(),
        "is_double_width" => line.is_double_width(),
        "is_double_height_top" => line.is_double_height_top(),
        "is_double_height_bottom" => line.is_double_height_bottom(),
        "is_whitespace" => line.is_whitespace(),
        "last_cell_was_wrapped" => line.last_cell_was_wrapped(),
        "has_hyperlink" => line.has_hyperlink(),
        _ => {
            sheet.fail(Fault::Word);
            false
        }
    }
}

/// Writes a cell: its first column, its width and its text, which must also be the text of its copy.
pub fn say_cell(cell: &CellRef<'_>, call: &Call<'_>, sheet: &mut Sheet) -> Result<(), Fault> {
    sheet.show(&cell.cell_index());
    sheet.show(&cell.width());
    sheet.quoted(cell.str());
    let copy = cell.as_cell(call.alloc())?;
    let is_other = copy.width() != cell.width() || copy.str() != cell.str();
    sheet.word_if(is_other, "(as a cell another)");
    Ok(())
}

// The cell that begins at a column, or its attributes, or that none does.
fn say_cell_at(line: &Line, call: &Call<'_>, sheet: &mut Sheet) -> Result<(), Fault> {
    match line.get_cell(call.number(1, sheet)) {
        Some(cell) if call.word(0) == "get_cell" => say_cell(&cell, call, sheet)?,
        Some(cell) => attributes::say(cell.attrs(), sheet),
        None => sheet.word("none"),
    }
    Ok(())
}

// The zones, each with its columns.
fn say_zones(line: &Line, sheet: &mut Sheet) -> Result<(), Fault> {
    for zone in &line.semantic_zone_ranges()? {
        sheet.debug(&zone.semantic_type);
        sheet.debug(&zone.range);
    }
    Ok(())
}

// A cluster: its text, width, first column and attributes; and for each byte of its text the first column and the width
// of its cell.
fn say_cluster(cluster: &CellCluster, sheet: &mut Sheet) {
    sheet.quoted(cluster.text.as_str());
    sheet.show(&cluster.width);
    sheet.show(&cluster.first_cell_idx);
    attributes::say(&cluster.attrs, sheet);
    for byte in 0..cluster.text.len() {
        sheet.show(&cluster.byte_to_cell_idx(byte));
        sheet.add(b":");
        sheet.add_shown(&cluster.byte_to_cell_width(byte));
    }
}

// The texts of all clusters, or one of them.
fn say_clusters(line: &Line, call: &Call<'_>, sheet: &mut Sheet) -> Result<(), Fault> {
    let clusters = line.cluster()?;
    if call.word(1).is_empty() {
        for cluster in &clusters {
            sheet.quoted(cluster.text.as_str());
        }
        return Ok(());
    }
    match clusters.get(call.number(1, sheet)) {
        Some(cluster) => say_cluster(cluster, sheet),
        None => sheet.word("none"),
    }
    Ok(())
}

// The cells that can be seen.
fn say_cells(line: &Line, call: &Call<'_>, sheet: &mut Sheet) -> Result<(), Fault> {
    for cell in line.visible_cells() {
        say_cell(&cell, call, sheet)?;
    }
    Ok(())
}

// The text of columns, or of all.
fn say_text(line: &Line, call: &Call<'_>, sheet: &mut Sheet) -> Result<(), Fault> {
    if call.word(0) == "as_str" {
        sheet.quoted(line.as_str()?.as_str());
    } else {
        let columns = call.number(1, sheet)..call.number(2, sheet);
        sheet.quoted(line.columns_as_str(columns)?.as_str());
    }
    Ok(())
}

// The columns of a double click, where each text except one space belongs to a word.
fn say_clicked(line: &Line, column: usize, sheet: &mut Sheet) {
    let range = line.compute_double_click_range(column, |text| text != " ");
    sheet.debug(&range);
}

/// Asks a question by the name of its call, with its arguments in order. `attrs COLUMN` asks for the attributes of the
/// cell that begins there, `cluster` for the texts of all clusters, `cluster NUMBER` for one with the offsets of its
/// bytes, and `compute_double_click_range COLUMN` takes every text except one space as part of a word.
pub fn ask(line: &Line, call: &Call<'_>, sheet: &mut Sheet) -> Result<(), Fault> {
    match call.word(0) {
        "as_str" | "columns_as_str" => say_text(line, call, sheet)?,
        "get_cell" | "attrs" => say_cell_at(line, call, sheet)?,
        "visible_cells" => say_cells(line, call, sheet)?,
        "semantic_zone_ranges" => say_zones(line, sheet)?,
        "cluster" => say_clusters(line, call, sheet)?,
        "compute_double_click_range" => say_clicked(line, call.number(1, sheet), sheet),
        "stored" => stored::say(line, sheet),
        "len" => sheet.show(&line.len()),
        "current_seqno" => sheet.show(&line.current_seqno()),
        _ => {
            let answer = yes_or_no(line, call, sheet);
            sheet.show(&answer);
        }
    }
    Ok(())
}
