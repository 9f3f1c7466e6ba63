//! A line in each of its forms: of cells, clustered, and opened to cells again. か has width 2.
use cell_base::{Cell, CellAttributes, Hyperlink, ProgramWidth};
use cell_line::fast::unequal_columns::unequal_columns;
use cell_line::{Line, StoredLine};
use std::process::Abort;
use std::rc::Rc;

// A line in one of its forms.
#[derive(Clone, Copy)]
enum Form {
    Cells,
    Clustered,
    Opened,
}

const FORMS: [Form; 3] = [Form::Cells, Form::Clustered, Form::Opened];

// A copy of a line of cells in a form.
fn in_form<R: Abort + AllocGlobal>(rt: &R, line: &Line, form: Form) -> Line {
    let mut copy = line.try_clone().expect(rt, "memory");
    match form {
        Form::Cells => {}
        Form::Clustered => copy.compress_for_scrollback().expect(rt, "memory"),
        Form::Opened => open_again(rt, &mut copy),
    }
    copy
}

// The line becomes clustered, and one of cells again.
fn open_again<R: Abort + AllocGlobal>(rt: &R, line: &mut Line) {
    line.compress_for_scrollback().expect(rt, "memory");
    let cells = line.cells_mut().expect(rt, "memory");
    assert!(rt; cells.len() <= 100);
}

// Whether each form of one line is equal to each form of another, or none is.
fn are_equal<R: Abort + AllocGlobal>(rt: &R, first: &Line, second: &Line, expected: bool) -> bool {
    let mut are = true;
    for form in &FORMS {
        let one = in_form(rt, first, *form);
        are = are && equals_each(rt, &one, second, expected);
    }
    are
}

// Whether a line is equal to each form of another, or to none.
fn equals_each<R: Abort + AllocGlobal>(rt: &R, one: &Line, second: &Line, expected: bool) -> bool {
    let mut does = true;
    for form in &FORMS {
        let other = in_form(rt, second, *form);
        does = does && (*one == other) == expected && (other == *one) == expected;
    }
    does
}

fn line_of<R: Abort + AllocGlobal>(rt: &R, text: &str, attrs: &CellAttributes) -> Line {
    Line::from_text(rt.alloc(), text, attrs, 5, &ProgramWidth).expect(rt, "memory")
}

fn plain_line<R: Abort + AllocGlobal>(rt: &R, text: &str) -> Line {
    line_of(rt, text, &CellAttributes::blank())
}

// A plain line with the cells of two texts.
fn line_of_cells<R: Abort + AllocGlobal>(rt: &R, first: &str, second: &str) -> Line {
    let mut cells = Vec::new(rt.alloc());
    for text in &[first, second] {
        let attrs = CellAttributes::blank();
        let cell = Cell::new_grapheme(rt.alloc(), text, attrs, &ProgramWidth).expect(rt, "memory");
        cells.push(cell).expect(rt, "memory");
    }
    Line::from_cells(rt.alloc(), cells, 5)
}

fn italic() -> CellAttributes {
    let mut attrs = CellAttributes::blank();
    attrs.set_italic(true);
    attrs
}

fn linked<R: Abort + AllocGlobal>(rt: &R, uri: &str) -> CellAttributes {
    let link = Hyperlink::new(rt.alloc(), uri).expect(rt, "memory");
    let link = Rc::new(rt.alloc(), link).expect(rt, "memory");
    let mut attrs = CellAttributes::blank();
    attrs.set_hyperlink(Some(link));
    attrs
}

// A line of which the cells of one text have other attributes.
fn two_renditions<R: Abort + AllocGlobal>(rt: &R, text: &str, at: usize, other: &str) -> Line {
    let mut line = plain_line(rt, text);
    line.overlay_text_with_attribute(at, other, italic(), 5, &ProgramWidth)
        .expect(rt, "memory");
    line
}

#[test]
fn forms_of_a_line_are_equal(rt: HostRuntime) {
    for text in &[
        "",
        "abc",
        "a  ",
        "a\u{304b}b",
        "ae\u{301}\u{301}\u{301}\u{301}\u{301}\u{301}\u{301}b",
        "ae\u{301}\u{301}\u{301}\u{301}\u{301}\u{301}\u{20d0}b",
        "\u{304b}\u{301}\u{301}\u{301}\u{301}\u{301}\u{301}\u{301}\u{301}\u{20d0}",
        "\u{304b}\u{301}\u{301}\u{301}\u{301}\u{301}\u{301}\u{301}\u{301}\u{301}\u{301}",
    ] {
        let line = plain_line(&rt, text);
        assert!(rt; are_equal(&rt, &line, &line, true));
    }
}

#[test]
fn forms_of_a_line_of_two_renditions_are_equal(rt: HostRuntime) {
    let line = two_renditions(&rt, "a\u{304b}b", 1, "\u{304b}");
    assert!(rt;
        are_equal(
            &rt,
            &line,
            &two_renditions(&rt, "a  b", 1, "\u{304b}"),
            true
        )
    );
    let linked_line = line_of(&rt, "ab", &linked(&rt, "u"));
    assert!(rt;
        are_equal(
            &rt,
            &linked_line,
            &line_of(&rt, "ab", &linked(&rt, "u")),
            true
        )
    );
}

#[test]
fn forms_of_cells_that_stay_two_are_equal(rt: HostRuntime) {
    let line = line_of_cells(&rt, "e", "\u{301}");
    assert!(rt; are_equal(&rt, &line, &line, true));
    assert!(rt; are_equal(&rt, &line, &plain_line(&rt, "e\u{301} "), false));
}

// Whether each form of the line of a text differs from each form of another line.
fn differs<R: Abort + AllocGlobal>(rt: &R, text: &str, other: &Line) -> bool {
    are_equal(rt, &plain_line(rt, text), other, false)
}

#[test]
fn lines_of_other_texts_differ(rt: HostRuntime) {
    for text in &["abd", "ab", "abc ", "ab\u{e7}", "a\u{304b}", "ab\u{301}c"] {
        assert!(rt; differs(&rt, "abc", &plain_line(&rt, text)));
    }
}

#[test]
fn lines_of_cells_of_other_texts_differ(rt: HostRuntime) {
    let line = line_of_cells(&rt, "e\u{301}", "\u{302}");
    let other = line_of_cells(&rt, "e", "\u{301}\u{302}");
    assert!(rt; are_equal(&rt, &line, &other, false));
    assert!(rt; differs(&rt, "x ", &line_of_wide(&rt)));
}

// A line with a wide cell of an x.
fn line_of_wide<R: Abort + AllocGlobal>(rt: &R) -> Line {
    let mut line = plain_line(rt, "");
    line.set_cell_grapheme(0, "x", 2, CellAttributes::blank(), 5)
        .expect(rt, "memory");
    line
}

#[test]
fn lines_of_other_attributes_differ(rt: HostRuntime) {
    assert!(rt; differs(&rt, "abc", &line_of(&rt, "abc", &italic())));
    assert!(rt; differs(&rt, "abc", &two_renditions(&rt, "abc", 2, "c")));
    assert!(rt; differs(&rt, "abc", &line_of(&rt, "abc", &linked(&rt, "u"))));
    let linked_line = line_of(&rt, "abc", &linked(&rt, "u"));
    assert!(rt;
        are_equal(
            &rt,
            &linked_line,
            &line_of(&rt, "abc", &linked(&rt, "v")),
            false
        )
    );
}

#[test]
fn lines_of_other_numbers_or_bits_differ(rt: HostRuntime) {
    let mut other = plain_line(&rt, "a\u{304b}");
    other.update_last_change_seqno(6);
    assert!(rt; differs(&rt, "a\u{304b}", &other));
    let mut wide = plain_line(&rt, "a\u{304b}");
    wide.set_double_width(5);
    assert!(rt; differs(&rt, "a\u{304b}", &wide));
    let mut wrapped = plain_line(&rt, "a\u{304b}");
    wrapped
        .set_last_cell_was_wrapped(true, 5)
        .expect(&rt, "memory");
    assert!(rt; differs(&rt, "a\u{304b}", &wrapped));
}

// Whether the line of `first` with the line of `second` appended is the line of `whole`, in each form of both.
fn joins<R: Abort + AllocGlobal>(rt: &R, first: &str, second: &str, whole: &str) -> bool {
    let expected = plain_line(rt, whole);
    let mut does = true;
    for form in &FORMS {
        let mut line = in_form(rt, &plain_line(rt, first), *form);
        let after = in_form(rt, &plain_line(rt, second), *form);
        line.append_line(after, 5).expect(rt, "memory");
        does = does && line == expected;
    }
    does
}

#[test]
fn lines_are_appended_in_each_form(rt: HostRuntime) {
    assert!(rt; joins(&rt, "ab", "\u{304b}c", "ab\u{304b}c"));
    assert!(rt; joins(&rt, "a\u{304b}", "", "a\u{304b}"));
    assert!(rt; joins(&rt, "", "e\u{301}b", "e\u{301}b"));
}

// Whether the line is clustered.
fn is_clustered(line: &Line) -> bool {
    matches!(line.stored(), StoredLine::Clustered(_))
}

// Whether `unequal_columns` of two lines gives the columns from `start` to before `stop`.
fn differ_in(line: &Line, other: &Line, start: usize, stop: usize) -> bool {
    match unequal_columns(line, other) {
        None => false,
        Some((first, after)) => first == start && after == stop,
    }
}

#[test]
fn columns_of_copies_do_not_differ(rt: HostRuntime) {
    let line = plain_line(&rt, "a\u{304b}");
    assert!(rt; !is_clustered(&line.try_clone().expect(&rt, "memory")));
    let clustered = in_form(&rt, &line, Form::Clustered);
    let copy = clustered.try_clone().expect(&rt, "memory");
    assert!(rt; is_clustered(&copy));
    assert!(rt; differ_in(&clustered, &copy, 3, 3));
    assert!(rt; unequal_columns(&clustered, &line).is_none());
    assert!(rt; unequal_columns(&line, &line).is_none());
    let other = in_form(
        &rt,
        &two_renditions(&rt, "a\u{304b}", 0, "a"),
        Form::Clustered,
    );
    assert!(rt; differ_in(&clustered, &other, 0, 3));
}
