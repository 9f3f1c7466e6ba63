//! Equality and copies of lines, cells that are lent from texts, iterators at their end, and callbacks that are called
//! with texts. か has width 2.
ghost use Rattle.std.specs.Prelude.{◌≡◌, not};
ghost use Rattle.std.specs.Str.{bytes_eq};
ghost use Rattle.cell_base.specs.Row.{space};
ghost use Rattle.cell_views.specs.Words.{double_click_range};

use cell_base::{Cell, CellAttributes, DoubleClickRange, ProgramWidth};
use cell_line::{CellRef, Line};
use std::process::Abort;

fn line_of<R: Abort + AllocGlobal>(rt: &R, text: &str) -> Line {
    Line::try_from_text(rt.alloc(), text, &ProgramWidth).expect(rt, "memory")
}

fn cell_of<R: Abort + AllocGlobal>(rt: &R, text: &str) -> Cell {
    let attrs = CellAttributes::blank();
    Cell::new_grapheme(rt.alloc(), text, attrs, &ProgramWidth).expect(rt, "memory")
}

// A caller that knows its closure's answers can state the range in a contract.
fn range_at(line: &Line, column: usize) -> DoubleClickRange
    ensures { result ≡ double_click_range (λ text. not (bytes_eq text space)) column line.now.columns }
{
    line.compute_double_click_range(column, |text| text != " ")
}

#[test]
fn ranges_by_what_a_closure_answers(rt: HostRuntime) {
    assert_eq!(rt;
        range_at(&line_of(&rt, "ab cd"), 1),
        DoubleClickRange::Range(0..2)
    );
    assert_eq!(rt;
        range_at(&line_of(&rt, "ab cd"), 4),
        DoubleClickRange::Range(3..5)
    );
}

#[test]
fn visible_cells_end(rt: HostRuntime) {
    let line = line_of(&rt, "a\u{304b}b");
    let mut cells = line.visible_cells();
    for _ in 0..3 {
        assert!(rt; cells.next().is_some());
    }
    assert!(rt; cells.next().is_none());
    assert!(rt; cells.next().is_none());
}

// Whether the cell has this first column, width and text.
fn is_cell(cell: &CellRef<'_>, column: usize, width: usize, text: &str) -> bool {
    cell.cell_index() == column && cell.width() == width && cell.str() == text
}

// Whether a copy of the cell has this width and text.
fn copy_is<R: Abort + AllocGlobal>(rt: &R, cell: &CellRef<'_>, width: usize, text: &str) -> bool {
    let copy = cell.as_cell(rt.alloc()).expect(rt, "memory");
    copy.width() == width && copy.str() == text
}

#[test]
fn a_text_lent_as_a_cell(rt: HostRuntime) {
    let attrs = CellAttributes::blank();
    let text = CellRef::ClusterRef {
        cell_index: 5,
        text: "b",
        width: 1,
        attrs: &attrs,
    };
    assert!(rt; is_cell(&text, 5, 1, "b"));
    assert!(rt; copy_is(&rt, &text, 1, "b"));
    let line = line_of(&rt, "abc");
    assert!(rt; line.get_cell(1).expect(&rt, "cell").same_contents(&text));
    assert!(rt; !line.get_cell(0).expect(&rt, "cell").same_contents(&text));
}

#[test]
fn copied_lines(rt: HostRuntime) {
    let mut line = line_of(&rt, "a\u{304b}");
    line.set_double_width(6);
    let copy = line.try_clone().expect(&rt, "memory");
    assert!(rt; copy == line);
    assert!(rt; copy.is_double_width());
    assert_eq!(rt; copy.len(), 3);
    assert_eq!(rt; copy.current_seqno(), 6);
}

#[test]
fn copied_lines_have_their_attributes(rt: HostRuntime) {
    let mut attrs = CellAttributes::blank();
    attrs.set_italic(true);
    let line = Line::from_text(rt.alloc(), "a", &attrs, 5, &ProgramWidth).expect(&rt, "memory");
    let copy = line.try_clone().expect(&rt, "memory");
    assert!(rt; copy == line);
    assert!(rt; copy.get_cell(0).expect(&rt, "cell").attrs().italic());
}

// A line is equal to its copy after `compress_for_scrollback`.
fn assert_compressed<R: Abort + AllocGlobal>(rt: &R, text: &str) {
    let line = line_of(rt, text);
    let mut compressed = line.try_clone().expect(rt, "memory");
    assert!(rt; compressed.compress_for_scrollback().is_ok());
    assert!(rt; compressed == line);
}

#[test]
fn compressed_lines(rt: HostRuntime) {
    assert_compressed(&rt, "ab");
    assert_compressed(&rt, "a\u{304b}");
}

#[test]
fn hidden_cells_are_not_seen(rt: HostRuntime) {
    let mut cells = Vec::new(rt.alloc());
    assert!(rt; cells.push(cell_of(&rt, "a")).is_ok());
    assert!(rt; cells.push(cell_of(&rt, "\u{304b}")).is_ok());
    assert!(rt; cells.push(cell_of(&rt, "z")).is_ok());
    let line = Line::from_cells(rt.alloc(), cells, 0);
    assert!(rt; line == line_of(&rt, "a\u{304b}"));
    assert!(rt; line != line_of(&rt, "a\u{304b} "));
}

#[test]
fn lines_of_other_bits_or_numbers_differ(rt: HostRuntime) {
    let line = line_of(&rt, "a\u{304b}");
    let mut other = line_of(&rt, "a\u{304b}");
    assert!(rt; other == line);
    other.set_double_width(0);
    assert!(rt; other != line);
    other.set_single_width(1);
    assert!(rt; other != line);
}
