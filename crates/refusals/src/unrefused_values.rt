//! Calls of colours, attributes, widths, cells and control sequences that take no memory.
use crate::cells::LONG;
use cell_base::{
    AnsiColor, AttributeChange, Blink, Cell, CellAttributes, ColorAttribute, ColorSpec, Hyperlink,
    Intensity, ProgramWidth, RgbColor, SemanticType, SrgbaTuple, Underline, VerticalAlign,
    grapheme_column_width, is_white_space_char, is_white_space_grapheme, unicode_column_width,
};
use csi_codec::{CrackError, Cracked, CsiParam, Esc, EscCode, OneBased};
use escape_stream::Parser;
use std::alloc::Global;
use std::rc::Rc;

/// Colours that are read and turned into others.
pub fn are_colors_made() -> bool {
    let gray = RgbColor::new_8bpc(240, 240, 240);
    RgbColor::from_rgb_str("#FFF") == Some(gray)
        && RgbColor::from_rgb_str("rgb:f0f0/f0f0/f0f0") == Some(gray)
        && RgbColor::from_rgb_str("#xyxyxy").is_none()
        && gray.to_tuple_rgb8() == (240, 240, 240)
        && gray.to_tuple_rgba() == SrgbaTuple(240, 240, 240, 255)
        && ColorSpec::from(gray) == ColorSpec::TrueColor(SrgbaTuple(240, 240, 240, 255))
}

/// The columns of texts, and which are white space.
pub fn are_texts_measured() -> bool {
    unicode_column_width("x\u{3000}x", &ProgramWidth) == 4
        && unicode_column_width(LONG, &ProgramWidth) == 2
        && grapheme_column_width("\u{1f9b6}", &ProgramWidth) == 2
        && is_white_space_char('\u{2028}')
        && !is_white_space_char('x')
        && is_white_space_grapheme(" ")
        && !is_white_space_grapheme("\u{2068}")
}

// Sets all attributes except the colours and the link.
fn set_rendition(attrs: &mut CellAttributes) {
    attrs.set_intensity(Intensity::Bold).set_italic(true);
    attrs.set_underline(Underline::Curly).set_blink(Blink::Slow);
    attrs.set_reverse(true).set_strikethrough(true);
    attrs.set_invisible(true).set_wrapped(true);
    attrs
        .set_overline(true)
        .set_semantic_type(SemanticType::Prompt);
    attrs.set_vertical_align(VerticalAlign::SuperScript);
}

// Whether all attributes except the colours and the link are set.
fn has_rendition(attrs: &CellAttributes) -> bool {
    let is_text = attrs.intensity() == Intensity::Bold
        && attrs.underline() == Underline::Curly
        && attrs.blink() == Blink::Slow
        && attrs.semantic_type() == SemanticType::Prompt
        && attrs.vertical_align() == VerticalAlign::SuperScript;
    let is_shown = attrs.italic() && attrs.reverse() && attrs.strikethrough();
    is_text && is_shown && attrs.invisible() && attrs.wrapped() && attrs.overline()
}

// Sets the colours and a link.
fn set_colors(attrs: &mut CellAttributes, link: Option<Rc<Hyperlink>>) {
    attrs.set_foreground(AnsiColor::Red);
    attrs.set_background(ColorSpec::TrueColor(SrgbaTuple(1, 2, 3, 4)));
    attrs.set_underline_color(ColorAttribute::PaletteIndex(200));
    attrs.set_hyperlink(link);
}

// Whether the colours are set, and the link is that of `v`.
fn has_colors(attrs: &CellAttributes) -> bool {
    attrs.foreground() == ColorAttribute::PaletteIndex(9)
        && attrs.background()
            == ColorAttribute::TrueColorWithDefaultFallback(SrgbaTuple(1, 2, 3, 4))
        && attrs.underline_color() == ColorAttribute::PaletteIndex(200)
        && attrs
            .hyperlink()
            .is_some_and(|link| link.uri() == "v" && !link.is_implicit())
}

// Whether a copy, which shares the link, is made; what an erased position keeps of it is less.
fn is_copied(attrs: &CellAttributes) -> bool {
    let mut copy = CellAttributes::blank();
    let is_made = copy.copy_from(attrs).is_ok() && copy == *attrs;
    let erased = attrs.clone_sgr_only();
    is_made
        && erased.intensity() == Intensity::Bold
        && erased.semantic_type() == SemanticType::Output
        && erased.hyperlink().is_none()
        && !erased.overline()
}

/// Attributes by each setter and each getter, their copies, and what makes them plain again.
pub fn are_attributes_set(attrs: &mut CellAttributes, link: Option<Rc<Hyperlink>>) -> bool {
    let is_linked = attrs.hyperlink().is_some_and(|link| link.uri() == "u");
    set_rendition(attrs);
    set_colors(attrs, link);
    let is_set = has_rendition(attrs) && has_colors(attrs) && is_copied(attrs);
    attrs.apply_change(AttributeChange::Italic(false));
    attrs.apply_change(AttributeChange::Foreground(ColorAttribute::Default));
    let is_changed = !attrs.italic() && attrs.foreground() == ColorAttribute::Default;
    attrs.clear();
    let plain = CellAttributes::blank();
    is_linked && is_set && is_changed && attrs.attribute_bits_equal(&plain) && *attrs == plain
}

/// Blank cells, and a cell of a long text.
pub fn is_cell_asked(cell: &mut Cell) -> bool {
    let is_long = cell.str() == LONG && cell.width() == 2 && !cell.attrs().italic();
    cell.attrs_mut().set_italic(true);
    let blank = Cell::blank();
    let same = Cell::blank_with_attrs(CellAttributes::blank());
    is_long && cell.attrs().italic() && blank == same && blank.str() == " " && blank.width() == 1
}

// Numbers that count from 0 and from 1.
fn are_positions_made() -> bool {
    let zero = CsiParam::Integer(0);
    OneBased::new(2) == OneBased::from_zero_based(1)
        && OneBased::new(7).as_one_based() == 7
        && OneBased::new(7).as_zero_based() == 6
        && OneBased::from_esc_param(&zero) == Ok(OneBased::new(1))
        && OneBased::from_esc_param_with_big_default(&zero) == Ok(OneBased::new(u32::MAX))
        && OneBased::from_optional_esc_param(None) == Ok(OneBased::new(1))
        && OneBased::from_esc_param(&CsiParam::P(b'?')) == Err(CrackError::NotASpelling)
}

// Entries of a list.
fn are_entries_asked(list: &Cracked) -> bool {
    list.len() == 3
        && list.get(0) == Some(&CsiParam::Integer(1))
        && list.get(1).is_none()
        && list.opt_int(2) == Some(3)
        && list.opt_int(9).is_none()
        && list.int(0) == Ok(1)
        && list.int(1) == Err(CrackError::NotASpelling)
}

/// The entries of a list, positions, ESC pairs and a new parser.
pub fn is_list_asked(alloc: Global, list: &Cracked) -> bool {
    let other = Esc::Unspecified {
        intermediate: None,
        control: b'~',
    };
    are_entries_asked(list)
        && are_positions_made()
        && Esc::parse(None, b'c') == Esc::Code(EscCode::FullReset)
        && Esc::parse(None, b'~') == other
        && !Parser::new(alloc).is_failed()
}
