//! Edits of a row against the same edits of a vector of cells.
use crate::attribute_runs::{Numbers, palette};
use cell_base::{Cell, CellAttributes, ProgramWidth};
use cell_edits::{row, runs};
use clustered_row::{ClusteredCell, ClusteredRow};
use std::alloc::Global;

// The texts that edits set: ASCII, short and long; ideographs; combining marks; joined clusters; controls, which show
// as a space; and the empty text.
fn text_at(number: usize) -> &'static str {
    match number {
        0 => "a",
        1 => "xyz",
        2 => "0123456789",
        3 => "漢",
        4 => "漢字かな",
        5 => "e\u{301}",
        6 => "ab漢e\u{301}c",
        7 => "\u{301}\u{302}",
        8 => "αβγδ",
        9 => "👨\u{200d}👩\u{200d}👧",
        10 => "abcdefghi\u{301}漢",
        11 => " 漢 ",
        12 => "\u{7}",
        13 => "\r\nq",
        14 => "각\u{1100}\u{1161}",
        _ => "",
    }
}

// Whether a visible cell is this one.
fn is_cell(
    cell: Option<ClusteredCell<'_>>,
    column: usize,
    text: &str,
    is_wide: bool,
    attributes: &CellAttributes,
) -> bool {
    let Some(cell) = cell else {
        return false;
    };
    cell.column == column
        && cell.text == text
        && cell.is_wide == is_wide
        && *cell.attributes == *attributes
}

// Whether the row shows these cells, read from the left: a wide one in the last column is a blank.
fn shows(row: &ClusteredRow, cells: &[Cell]) -> bool {
    let mut visible = row.visible_cells();
    let mut is_wide = false;
    for (column, cell) in cells.iter().enumerate() {
        if is_wide {
            is_wide = false;
        } else {
            is_wide = cell.width() == 2 && column.saturating_add(1) < cells.len();
            let is_cut = cell.width() == 2 && !is_wide;
            let text = if is_cut { " " } else { cell.str() };
            if !is_cell(visible.next(), column, text, is_wide, cell.attrs()) {
                return false;
            }
        }
    }
    visible.next().is_none() && row.len() == cells.len()
}

// Sets a text on the row and on the cells; returns whether both took it alike.
fn write(
    row: &mut ClusteredRow,
    alloc: Global,
    cells: &mut Vec<Cell>,
    start: usize,
    end: usize,
    text: &str,
    attributes: &CellAttributes,
) -> bool {
    if start > end || end > row.len() || end > cells.len() {
        return false;
    }
    let Ok((column, left)) = row.set_text(start, end, text, attributes, &ProgramWidth) else {
        return false;
    };
    let Ok((other_column, other_left)) = runs::set_text(
        alloc,
        cells,
        start,
        end,
        text,
        attributes,
        &ProgramWidth,
    ) else {
        return false;
    };
    column == other_column && left == other_left
}

// Sets blanks on the row and on the cells; returns whether both took them.
fn erase(
    row: &mut ClusteredRow,
    cells: &mut Vec<Cell>,
    start: usize,
    end: usize,
    attributes: &CellAttributes,
) -> bool {
    if start > end || end > row.len() || end > cells.len() {
        return false;
    }
    row.set_blanks(start, end, attributes).is_ok()
        && runs::set_blanks(cells, start, end, attributes).is_ok()
}

// Does a random edit of the row and of the cells; returns whether both took it.
fn edit(
    row: &mut ClusteredRow,
    alloc: Global,
    cells: &mut Vec<Cell>,
    attributes: &CellAttributes,
    numbers: &mut Numbers,
) -> bool {
    let len = row.len();
    let end = numbers.below(len.saturating_add(1));
    let start = numbers.below(end.saturating_add(1));
    match numbers.below(8) {
        0 => {
            let width = numbers.below(13);
            row.resize(width).is_ok() && row::resize(cells, width).is_ok()
        }
        1 => erase(row, cells, start, end, attributes),
        2 => erase(row, cells, start, len, attributes),
        3 => {
            let text = text_at(numbers.below(16));
            write(row, alloc, cells, start, end, text, attributes)
        }
        _ => {
            let text = text_at(numbers.below(16));
            write(row, alloc, cells, start, len, text, attributes)
        }
    }
}

// Whether both are the same cell.
fn are_same(cell: &ClusteredCell<'_>, other: &ClusteredCell<'_>) -> bool {
    cell.column == other.column
        && cell.text == other.text
        && cell.is_wide == other.is_wide
        && *cell.attributes == *other.attributes
}

// Whether a cell is this byte with these attributes.
fn is_byte(cell: &ClusteredCell<'_>, byte: u8, attributes: &CellAttributes) -> bool {
    !cell.is_wide && cell.text.as_bytes() == [byte].as_slice() && *cell.attributes == *attributes
}

// Whether `pass_plain`, and `next` between its runs of plain cells, give the cells that the row shows cell by cell.
fn passes_what_it_shows(row: &ClusteredRow, most: usize) -> bool {
    let mut remaining = row.visible_cells();
    let mut run: &[u8] = &[];
    let blank = CellAttributes::blank();
    let mut attributes = &blank;
    for cell in row.visible_cells() {
        if run.is_empty() {
            if let Some((text, of_text)) = remaining.pass_plain(most) {
                run = text.as_bytes();
                attributes = of_text;
            }
        }
        if let Some((byte, rest)) = run.split_first() {
            if !is_byte(&cell, *byte, attributes) {
                return false;
            }
            run = rest;
        } else {
            match remaining.next() {
                Some(other) if are_same(&cell, &other) => {}
                _ => return false,
            }
        }
    }
    run.is_empty() && remaining.next().is_none()
}

#[test]
fn edits_show_what_cells_show(rt: HostRuntime) {
    let palette = palette(&rt);
    let mut row = ClusteredRow::new(rt.alloc(), 0);
    let mut cells = Vec::new(rt.alloc());
    let mut numbers = Numbers { last: 7 };
    for _ in 0..6000 {
        let kind = numbers.below(palette.len());
        let taken = match palette.get(kind) {
            Some(attributes) => edit(&mut row, rt.alloc(), &mut cells, attributes, &mut numbers),
            None => false,
        };
        assert!(rt; taken);
        assert!(rt; shows(&row, &cells));
        assert!(rt; passes_what_it_shows(&row, numbers.below(5)));
    }
    let copy = ClusteredRow::from_cells(rt.alloc(), &cells).expect(&rt, "memory");
    assert!(rt; shows(&copy, &cells));
    let taken = row.to_cells(rt.alloc()).expect(&rt, "memory");
    assert!(rt; shows(&row, &taken));
    row.clear_to(9, &CellAttributes::blank())
        .expect(&rt, "memory");
    assert_eq!(rt; row.len(), 9);
}
