//! Defaults, order, conversions, copies and equality of attributes, changes, cells and ranges.
use cell_base::{
    AnsiColor, AttributeChange, Blink, Cell, CellAttributes, ColorAttribute, ColorSpec,
    CursorShape, CursorVisibility, DoubleClickRange, Hyperlink, Intensity, ProgramWidth, SEQ_ZERO,
    SemanticType, SrgbaTuple, Underline, ZoneRange,
};
use std::process::Abort;
use std::rc::Rc;

#[test]
fn defaults_and_order(rt: HostRuntime) {
    assert!(rt; SemanticType::Output < SemanticType::Input);
    assert!(rt; SemanticType::Input < SemanticType::Prompt);
    assert_eq!(rt; SemanticType::default(), SemanticType::Output);
    assert_eq!(rt; Intensity::default(), Intensity::Normal);
    assert_eq!(rt; Underline::default(), Underline::None);
    assert_eq!(rt; CursorVisibility::default(), CursorVisibility::Visible);
    assert_eq!(rt; CursorShape::default(), CursorShape::Default);
    assert_eq!(rt; SEQ_ZERO, 0);
}

#[test]
fn yes_or_no(rt: HostRuntime) {
    for (underline, want) in [(Underline::None, false), (Underline::Curly, true)] {
        assert_eq!(rt; bool::from(underline), want);
    }
    for (blink, want) in [(Blink::None, false), (Blink::Rapid, true)] {
        assert_eq!(rt; bool::from(blink), want);
    }
}

#[test]
fn shapes_that_blink(rt: HostRuntime) {
    for (shape, want) in [
        (CursorShape::Default, false),
        (CursorShape::BlinkingBlock, true),
        (CursorShape::SteadyBlock, false),
        (CursorShape::BlinkingUnderline, true),
        (CursorShape::BlinkingBar, true),
        (CursorShape::SteadyBar, false),
    ] {
        assert_eq!(rt; shape.is_blinking(), want);
    }
}

fn link_of<R: Abort + AllocGlobal>(rt: &R, uri: &str) -> Rc<Hyperlink> {
    let link = Hyperlink::new(rt.alloc(), uri).expect(rt, "memory");
    Rc::new(rt.alloc(), link).expect(rt, "memory")
}

// A red foreground, a true colour as background, an underline colour and a link.
fn colored<R: Abort + AllocGlobal>(rt: &R) -> CellAttributes {
    let mut a = CellAttributes::blank();
    a.set_foreground(AnsiColor::Red);
    a.set_background(ColorSpec::TrueColor(SrgbaTuple(1, 2, 3, 4)));
    a.set_underline_color(ColorAttribute::PaletteIndex(200));
    a.set_hyperlink(Some(link_of(rt, "u")));
    a
}

#[test]
fn set_colors_and_link(rt: HostRuntime) {
    let a = colored(&rt);
    assert_eq!(rt; a.foreground(), ColorAttribute::PaletteIndex(9));
    assert_eq!(rt;
        a.background(),
        ColorAttribute::TrueColorWithDefaultFallback(SrgbaTuple(1, 2, 3, 4))
    );
    assert_eq!(rt; a.underline_color(), ColorAttribute::PaletteIndex(200));
    assert!(rt; a.hyperlink().is_some());
}

#[test]
fn copies_of_attributes(rt: HostRuntime) {
    let mut a = colored(&rt);
    let copy = a.try_clone().expect(&rt, "memory");
    assert!(rt; copy == a);
    a.clear();
    assert!(rt; a == CellAttributes::default());
    assert!(rt; copy != a);
}

#[test]
fn same_but_for_colors_and_link(rt: HostRuntime) {
    let mut a = CellAttributes::blank();
    let b = CellAttributes::blank();
    a.set_background(AnsiColor::Navy);
    assert!(rt; a.attribute_bits_equal(&b));
    assert!(rt; a != b);
    a.set_wrapped(true);
    assert!(rt; !a.attribute_bits_equal(&b));
}

// Applies a change, which must be equal to its copy.
fn apply<R: Abort>(rt: &R, a: &mut CellAttributes, change: AttributeChange) {
    let copy = change.try_clone().expect(rt, "memory");
    assert!(rt; copy == change);
    a.apply_change(change);
}

#[test]
fn changes_of_plain_attributes(rt: HostRuntime) {
    let mut want = CellAttributes::blank();
    want.set_intensity(Intensity::Bold)
        .set_underline(Underline::Double);
    want.set_italic(true).set_blink(Blink::Rapid);
    want.set_reverse(true)
        .set_strikethrough(true)
        .set_invisible(true);
    let mut a = CellAttributes::blank();
    apply(&rt, &mut a, AttributeChange::Intensity(Intensity::Bold));
    apply(&rt, &mut a, AttributeChange::Underline(Underline::Double));
    apply(&rt, &mut a, AttributeChange::Italic(true));
    apply(&rt, &mut a, AttributeChange::Blink(Blink::Rapid));
    apply(&rt, &mut a, AttributeChange::Reverse(true));
    apply(&rt, &mut a, AttributeChange::StrikeThrough(true));
    apply(&rt, &mut a, AttributeChange::Invisible(true));
    assert!(rt; a == want);
}

#[test]
fn changes_of_colors_and_link(rt: HostRuntime) {
    let mut want = CellAttributes::blank();
    want.set_foreground(AnsiColor::Lime);
    want.set_background(AnsiColor::Teal);
    want.set_hyperlink(Some(link_of(&rt, "u")));
    let mut a = CellAttributes::blank();
    let green = ColorAttribute::PaletteIndex(10);
    let teal = ColorAttribute::PaletteIndex(6);
    apply(&rt, &mut a, AttributeChange::Foreground(green));
    apply(&rt, &mut a, AttributeChange::Background(teal));
    let link = Some(link_of(&rt, "u"));
    apply(&rt, &mut a, AttributeChange::Hyperlink(link));
    assert!(rt; a == want);
}

#[test]
fn copies_of_ranges(rt: HostRuntime) {
    let zone = ZoneRange {
        semantic_type: SemanticType::Input,
        range: 2..7,
    };
    assert!(rt; zone.try_clone().expect(&rt, "memory") == zone);
    for range in [
        DoubleClickRange::Range(1..4),
        DoubleClickRange::RangeWithWrap(0..9),
    ] {
        assert!(rt; range.try_clone().expect(&rt, "memory") == range);
    }
}

#[test]
fn cells_and_attributes(rt: HostRuntime) {
    let mut red = CellAttributes::blank();
    red.set_foreground(AnsiColor::Red);
    let attrs = red.try_clone().expect(&rt, "memory");
    let mut cell = Cell::new(rt.alloc(), 'x', attrs, &ProgramWidth).expect(&rt, "memory");
    assert!(rt; *cell.attrs() == red);
    let copy = cell.try_clone().expect(&rt, "memory");
    assert!(rt; copy == cell);
    cell.attrs_mut().set_italic(true);
    assert!(rt; copy != cell);
    assert!(rt; cell.attrs().italic());
}

#[test]
fn blank_cells(rt: HostRuntime) {
    assert!(rt; Cell::default() == Cell::blank());
    assert!(rt; Cell::blank_with_attrs(CellAttributes::blank()) == Cell::blank());
    assert_eq!(rt; Cell::blank().str(), " ");
}
