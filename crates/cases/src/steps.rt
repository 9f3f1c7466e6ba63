//! Changes that steps of a surface name.
use crate::attributes;
use crate::call::Call;
use crate::fault::Fault;
use crate::sheet::Sheet;
use cell_base::{
    AttributeChange, CellAttributes, ColorAttribute, CursorShape, CursorVisibility, Intensity,
    LineAttribute, Position,
};
use screen_change::Change;

// A colour: `default`, or its number in the palette.
fn color_of(word: &str) -> Result<ColorAttribute, Fault> {
    if word == "default" {
        return Ok(ColorAttribute::Default);
    }
    match word.parse::<u8>() {
        Ok(index) => Ok(ColorAttribute::PaletteIndex(index)),
        Err(_) => Err(Fault::Number),
    }
}

// A position: `3`, `<1`, `+1` or `-1`.
fn position_of(word: &str) -> Result<Position, Fault> {
    if let Some(back) = word.strip_prefix('<') {
        return match back.parse::<usize>() {
            Ok(back) => Ok(Position::EndRelative(back)),
            Err(_) => Err(Fault::Number),
        };
    }
    if word.starts_with('+') || word.starts_with('-') {
        return match word.parse::<isize>() {
            Ok(way) => Ok(Position::Relative(way)),
            Err(_) => Err(Fault::Number),
        };
    }
    match word.parse::<usize>() {
        Ok(at) => Ok(Position::Absolute(at)),
        Err(_) => Err(Fault::Number),
    }
}

// The attributes of words.
fn attributes_of(call: &Call<'_>) -> Result<CellAttributes, Fault> {
    let mut attrs = CellAttributes::blank();
    for word in call.words_from(1) {
        attributes::set(call.alloc(), word, &mut attrs)?;
    }
    Ok(attrs)
}

// A change of one attribute.
fn attribute_of(word: &str) -> Result<AttributeChange, Fault> {
    match word {
        "bold" => Ok(AttributeChange::Intensity(Intensity::Bold)),
        "normal" => Ok(AttributeChange::Intensity(Intensity::Normal)),
        "italic" => Ok(AttributeChange::Italic(true)),
        _ => match word.split_once('=') {
            Some(("foreground", color)) => Ok(AttributeChange::Foreground(color_of(color)?)),
            Some(("background", color)) => Ok(AttributeChange::Background(color_of(color)?)),
            _ => Err(Fault::Word),
        },
    }
}

// The size of a row.
fn size_of(word: &str) -> Result<LineAttribute, Fault> {
    match word {
        "single_width" => Ok(LineAttribute::SingleWidthLine),
        "double_width" => Ok(LineAttribute::DoubleWidthLine),
        "top_half" => Ok(LineAttribute::DoubleHeightTopHalfLine),
        "bottom_half" => Ok(LineAttribute::DoubleHeightBottomHalfLine),
        _ => Err(Fault::Word),
    }
}

// A change of the cursor or of its row.
fn cursor_change(call: &Call<'_>) -> Result<Change, Fault> {
    match call.word(0) {
        "to" => Ok(Change::CursorPosition {
            x: position_of(call.word(1))?,
            y: position_of(call.word(2))?,
        }),
        "hide" => Ok(Change::CursorVisibility(CursorVisibility::Hidden)),
        "show" => Ok(Change::CursorVisibility(CursorVisibility::Visible)),
        "bar" => Ok(Change::CursorShape(CursorShape::SteadyBar)),
        "cursor_color" => Ok(Change::CursorColor(color_of(call.word(1))?)),
        word => Ok(Change::LineAttribute(size_of(word)?)),
    }
}

/// The change that a step names.
pub fn change_of(call: &Call<'_>, sheet: &mut Sheet) -> Result<Change, Fault> {
    match call.word(0) {
        "text" => Ok(Change::Text(call.text(1)?)),
        "title" => Ok(Change::Title(call.text(1)?)),
        "pen" => Ok(Change::AllAttributes(attributes_of(call)?)),
        "attribute" => Ok(Change::Attribute(attribute_of(call.word(1))?)),
        "clear_screen" => Ok(Change::ClearScreen(color_of(call.word(1))?)),
        "clear" => Ok(Change::ClearToEndOfLine(color_of(call.word(1))?)),
        "clear_below" => Ok(Change::ClearToEndOfScreen(color_of(call.word(1))?)),
        "scroll_up" => Ok(Change::ScrollRegionUp {
            first_row: call.number(1, sheet),
            region_size: call.number(2, sheet),
            scroll_count: call.number(3, sheet),
        }),
        "scroll_down" => Ok(Change::ScrollRegionDown {
            first_row: call.number(1, sheet),
            region_size: call.number(2, sheet),
            scroll_count: call.number(3, sheet),
        }),
        _ => cursor_change(call),
    }
}
