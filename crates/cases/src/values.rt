//! Colours, widths and cells.
ghost use Rattle.std.specs.Prelude.{◌≡◌, true};
ghost use Rattle.text_clusters.specs.Plain.{is_printable};

use crate::attributes;
use crate::fault::Fault;
use crate::row::{Row, number_up_to};
use crate::sheet::Sheet;
use cell_base::{
    Cell, CellAttributes, ProgramWidth, RgbColor, grapheme_column_width, is_white_space_char,
    is_white_space_grapheme, unicode_column_width,
};
use std::alloc::{AllocError, Global};

// A colour by its numbers and its two texts.
fn say_color(color: RgbColor, alloc: Global, sheet: &mut Sheet) -> Result<(), Fault> {
    let (red, green, blue) = color.to_tuple_rgb8();
    sheet.show(&red);
    sheet.show(&green);
    sheet.show(&blue);
    sheet.column();
    sheet.word(color.to_rgb_string(alloc)?.as_str());
    sheet.column();
    sheet.word(color.to_x11_16bit_rgb_string(alloc)?.as_str());
    Ok(())
}

/// `TEXT => RED GREEN BLUE | TEXT | TEXT`: the colour that a text names, and its two texts; `none` where it names none.
pub fn color(row: &Row<'_>, sheet: &mut Sheet) -> Result<(), Fault> {
    let text = row.text(0)?;
    match RgbColor::from_rgb_str(text.as_str()) {
        Some(color) => say_color(color, row.alloc(), sheet),
        None => {
            sheet.word("none");
            Ok(())
        }
    }
}

/// `CALL | TEXT => ANSWER`: the columns of a text, and whether it is white space.
pub fn text(row: &Row<'_>, sheet: &mut Sheet) -> Result<(), Fault> {
    let text = row.text(1)?;
    let text = text.as_str();
    let first = text.chars().next().unwrap_or(' ');
    match row.column(0) {
        "unicode_column_width" => sheet.show(&unicode_column_width(text, &ProgramWidth)),
        "grapheme_column_width" => sheet.show(&grapheme_column_width(text, &ProgramWidth)),
        "is_white_space_grapheme" => sheet.show(&is_white_space_grapheme(text)),
        "is_white_space_char" => sheet.show(&is_white_space_char(first)),
        _ => sheet.fail(Fault::Word),
    }
    Ok(())
}

// A printable character, which is the first of a text; a space where it isn't one.
fn printable_of(text: &str) -> u8
    ensures { is_printable result ≡ true }
{
    match text.bytes().next() {
        Some(byte) if 32 <= byte && byte < 127 => byte,
        _ => b' ',
    }
}

// The cell of a printable character: a new cell, or an italic cell of か that is set to the character.
fn ascii_cell(row: &Row<'_>, text: &str, attrs: CellAttributes) -> Result<Cell, AllocError> {
    let character = printable_of(text);
    if row.column(0) == "new_ascii" {
        return Ok(Cell::new_ascii(character, attrs));
    }
    let mut italic = CellAttributes::blank();
    italic.set_italic(true);
    let mut cell = Cell::new_grapheme(row.alloc(), "か", italic, &ProgramWidth)?;
    cell.set_ascii(character, &attrs)?;
    Ok(cell)
}

// The cell that a call makes of a text.
fn made_cell(row: &Row<'_>, text: &str) -> Result<Cell, Fault> {
    let alloc = row.alloc();
    let attrs = CellAttributes::blank();
    let made = match row.column(0) {
        "new" => Cell::new(
            alloc,
            text.chars().next().unwrap_or(' '),
            attrs,
            &ProgramWidth,
        ),
        "new_grapheme" => Cell::new_grapheme(alloc, text, attrs, &ProgramWidth),
        "new_ascii" | "set_ascii" => ascii_cell(row, text, attrs),
        "new_grapheme_with_width" => {
            let width = number_up_to(2, row.column(2))?;
            Cell::new_grapheme_with_width(alloc, text, width, attrs)
        }
        _ => return Err(Fault::Word),
    };
    Ok(made?)
}

/// `CALL | TEXT | WIDTH => TEXT | WIDTH`: the cell of a text, with a width where the call takes one; equal to its copy.
pub fn cell(row: &Row<'_>, sheet: &mut Sheet) -> Result<(), Fault> {
    let text = row.text(1)?;
    let cell = made_cell(row, text.as_str())?;
    sheet.quoted(cell.str());
    sheet.column();
    sheet.show(&cell.width());
    let copy = cell.try_clone()?;
    sheet.word_if(copy != cell, "(its copy differs)");
    Ok(())
}

// Attributes, equal to their copy, and what an erased position keeps of them.
fn say_attributes(attrs: &CellAttributes, sheet: &mut Sheet) -> Result<(), Fault> {
    attributes::say(attrs, sheet);
    let copy = attrs.try_clone()?;
    sheet.word_if(copy != *attrs, "(the copy differs)");
    sheet.column();
    attributes::say(&attrs.clone_sgr_only(), sheet);
    Ok(())
}

/// `WORDS => WORDS | WORDS`: attributes that are set by these words, what is then read of them, and the same of what
/// erased positions keep.
pub fn attribute(row: &Row<'_>, sheet: &mut Sheet) -> Result<(), Fault> {
    let mut attrs = CellAttributes::blank();
    for word in row.column(0).split_ascii_whitespace() {
        attributes::set(row.alloc(), word, &mut attrs)?;
    }
    say_attributes(&attrs, sheet)
}
