//! Cells, attributes, links and colours.
use crate::outcome::{Outcome, Stop};
use crate::tally::Tally;
use cell_base::{
    AttributeChange, Cell, CellAttributes, ColorAttribute, DoubleClickRange, Hyperlink, Intensity,
    LinkError, ProgramWidth, RgbColor, SemanticType, ZoneRange,
};
use std::alloc::Global;
use std::collections::BTreeMap;
use std::io::Write;
use std::rc::Rc;

/// A cluster of 26 bytes and two columns, which doesn't lie in a cell.
pub const LONG: &str = "\u{1f469}\u{1f3ff}\u{200d}\u{1f91d}\u{200d}\u{1f469}\u{1f3fc}";

/// Attributes with a link.
pub fn linked(alloc: Global, link: Hyperlink) -> Result<CellAttributes, Stop> {
    let mut attrs = CellAttributes::blank();
    attrs.set_hyperlink(Some(Rc::new(alloc, link)?));
    Ok(attrs)
}

// Cells of a character.
fn characters(alloc: Global) -> Outcome {
    let narrow = Cell::new(alloc, 'a', CellAttributes::blank(), &ProgramWidth)?;
    let wide = Cell::new(alloc, '\u{304b}', CellAttributes::blank(), &ProgramWidth)?;
    Ok(narrow.str() == "a" && narrow.width() == 1 && wide.str() == "\u{304b}" && wide.width() == 2)
}

// A cell of a long text, and its copy.
fn graphemes(alloc: Global) -> Outcome {
    let cell = Cell::new_grapheme(alloc, LONG, CellAttributes::blank(), &ProgramWidth)?;
    let copy = cell.try_clone()?;
    Ok(cell.str() == LONG && cell.width() == 2 && copy == cell && copy.width() == 2)
}

// A cell of a long text whose width is given.
fn given_widths(alloc: Global) -> Outcome {
    let text = "hellotherehellotherehellothere";
    let cell = Cell::new_grapheme_with_width(alloc, text, 1, CellAttributes::blank())?;
    Ok(cell.str() == text && cell.width() == 1)
}

// A cell with a link, and its copy.
fn linked_cells(alloc: Global) -> Outcome {
    let attrs = linked(alloc, Hyperlink::new(alloc, "u")?)?;
    let copied = attrs.try_clone()?;
    let same = copied == attrs;
    let cell = Cell::new_grapheme(alloc, LONG, attrs, &ProgramWidth)?;
    let copy = cell.try_clone()?;
    let has_link = copy
        .attrs()
        .hyperlink()
        .is_some_and(|link| link.uri() == "u");
    Ok(same && has_link && copy == cell)
}

// Whether a link has that text, and a copy that is equal.
fn is_written(alloc: Global, link: &Hyperlink, text: &str) -> Outcome {
    let written = link.to_string(alloc)?;
    let copy = link.try_clone()?;
    Ok(written.as_str() == text && copy == *link)
}

// Links of each maker.
fn links(alloc: Global) -> Outcome {
    let plain = Hyperlink::new(alloc, "u")?;
    let implicit = Hyperlink::new_implicit(alloc, "u")?;
    let with_id = Hyperlink::new_with_id(alloc, "u", "1")?;
    Ok(
        is_written(alloc, &plain, "8;;u")?
            && is_written(alloc, &with_id, "8;id=1;u")?
            && implicit.is_implicit()
            && implicit.try_clone()? == implicit,
    )
}

// A link of two parameters.
fn links_with_params(alloc: Global) -> Outcome {
    let mut params = BTreeMap::new(alloc);
    params.insert(String::from_str(alloc, "b")?, String::from_str(alloc, "2")?)?;
    params.insert(String::from_str(alloc, "a")?, String::from_str(alloc, "1")?)?;
    let link = Hyperlink::new_with_params(alloc, "u", params)?;
    is_written(alloc, &link, "8;a=1:b=2;u")
}

// Links that are read.
fn read_links(alloc: Global) -> Outcome {
    let parts: [&[u8]; 4] = [b"8", b"a=1:id=x", b"u", b"v"];
    let none: [&[u8]; 3] = [b"8", b"", b""];
    let Some(link) = Hyperlink::parse(alloc, &parts)? else {
        return Ok(false);
    };
    Ok(Hyperlink::parse(alloc, &none)?.is_none() && is_written(alloc, &link, "8;a=1:id=x;u;v")?)
}

// Parts that are no link, also where memory is refused.
fn no_links(alloc: Global) -> Outcome {
    let few: [&[u8]; 2] = [b"8", b"a=1"];
    let bad: [&[u8]; 3] = [b"8", b"a=1", b"\xff"];
    let params: [&[u8]; 3] = [b"8", b"a", b"u"];
    Ok(
        matches!(Hyperlink::parse(alloc, &few), Err(LinkError::PartCount))
            && matches!(Hyperlink::parse(alloc, &bad), Err(LinkError::Utf8))
            && matches!(Hyperlink::parse(alloc, &params), Err(LinkError::Params)),
    )
}

// Texts of a colour; reading one takes no memory.
fn colors(alloc: Global) -> Outcome {
    let color = RgbColor::new_8bpc(240, 240, 240);
    let text = color.to_rgb_string(alloc)?;
    let long = color.to_x11_16bit_rgb_string(alloc)?;
    Ok(
        text.as_str() == "#f0f0f0"
            && long.as_str() == "rgb:f0f0/f0f0/f0f0"
            && RgbColor::from_rgb_str("#f0f0f0") == Some(color),
    )
}

// Copies of changes of attributes and of ranges.
fn copies(alloc: Global) -> Outcome {
    let link = Rc::new(alloc, Hyperlink::new(alloc, "u")?)?;
    let change = AttributeChange::Hyperlink(Some(link));
    let zone = ZoneRange {
        semantic_type: SemanticType::Input,
        range: 2..7,
    };
    let range = DoubleClickRange::Range(1..4);
    Ok(change.try_clone()? == change && zone.try_clone()? == zone && range.try_clone()? == range)
}

// Calls of attributes and of blank cells, which take no memory.
fn plain_values(_alloc: Global) -> Outcome {
    let mut attrs = CellAttributes::blank();
    attrs.set_intensity(Intensity::Bold);
    attrs.apply_change(AttributeChange::Foreground(ColorAttribute::PaletteIndex(1)));
    let mut cell = Cell::blank_with_attrs(attrs.clone_sgr_only());
    let bold = cell.attrs_mut().intensity() == Intensity::Bold;
    attrs.clear();
    Ok(bold && attrs == *Cell::blank().attrs() && cell.str() == " " && cell.width() == 1)
}

/// Checks cells, attributes, links and colours.
pub fn check<W: Write>(alloc: Global, tally: &mut Tally<W>) {
    tally.take("cells of characters", characters(alloc));
    tally.take("cells of texts", graphemes(alloc));
    tally.take("cells of a width", given_widths(alloc));
    tally.take("cells with links", linked_cells(alloc));
    tally.take("links", links(alloc));
    tally.take("links with parameters", links_with_params(alloc));
    tally.take("links that are read", read_links(alloc));
    tally.take("parts that are no link", no_links(alloc));
    tally.take("texts of colours", colors(alloc));
    tally.take("copies of attributes and ranges", copies(alloc));
    tally.take("plain values", plain_values(alloc));
}
