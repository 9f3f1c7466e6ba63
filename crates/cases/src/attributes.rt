//! Attributes as rows write them: a word for each one that isn't plain, as `italic`, `underline=Curly`, `background=1`
//! (a colour of the palette), `link=URI`, `found_link=URI` (one that was found in a text).
use crate::escapes;
use crate::fault::Fault;
use crate::sheet::Sheet;
use cell_base::{
    Blink, CellAttributes, ColorAttribute, Hyperlink, Intensity, SemanticType, Underline,
    VerticalAlign,
};
use std::alloc::Global;
use std::fmt::Debug;
use std::rc::Rc;

// Sets an attribute that is on or off; returns whether the word names one.
fn set_flag(word: &str, attrs: &mut CellAttributes) -> bool {
    match word {
        "italic" => attrs.set_italic(true),
        "reverse" => attrs.set_reverse(true),
        "strikethrough" => attrs.set_strikethrough(true),
        "invisible" => attrs.set_invisible(true),
        "wrapped" => attrs.set_wrapped(true),
        "overline" => attrs.set_overline(true),
        _ => return false,
    };
    true
}

// Sets an attribute that has one of several values; returns whether the word names one.
fn set_value(word: &str, attrs: &mut CellAttributes) -> bool {
    match word {
        "intensity=Bold" => attrs.set_intensity(Intensity::Bold),
        "intensity=Half" => attrs.set_intensity(Intensity::Half),
        "underline=Single" => attrs.set_underline(Underline::Single),
        "underline=Double" => attrs.set_underline(Underline::Double),
        "underline=Curly" => attrs.set_underline(Underline::Curly),
        "underline=Dotted" => attrs.set_underline(Underline::Dotted),
        "underline=Dashed" => attrs.set_underline(Underline::Dashed),
        "blink=Slow" => attrs.set_blink(Blink::Slow),
        "blink=Rapid" => attrs.set_blink(Blink::Rapid),
        "align=SuperScript" => attrs.set_vertical_align(VerticalAlign::SuperScript),
        "align=SubScript" => attrs.set_vertical_align(VerticalAlign::SubScript),
        "type=Input" => attrs.set_semantic_type(SemanticType::Input),
        "type=Prompt" => attrs.set_semantic_type(SemanticType::Prompt),
        _ => return false,
    };
    true
}

// A colour of the palette.
fn palette(number: &str) -> Result<ColorAttribute, Fault> {
    match number.parse::<u8>() {
        Ok(index) => Ok(ColorAttribute::PaletteIndex(index)),
        Err(_) => Err(Fault::Number),
    }
}

// Sets a colour; returns whether the name is that of a colour.
fn set_color(name: &str, value: &str, attrs: &mut CellAttributes) -> Result<bool, Fault> {
    let color = match name {
        "foreground" | "background" | "underline_color" => palette(value)?,
        _ => return Ok(false),
    };
    match name {
        "foreground" => attrs.set_foreground(color),
        "background" => attrs.set_background(color),
        _ => attrs.set_underline_color(color),
    };
    Ok(true)
}

// A link that a program gives (`link`) or that is found in a text (`found_link`).
fn link_of(alloc: Global, name: &str, value: &str) -> Result<Hyperlink, Fault> {
    let uri = escapes::read_text(alloc, value)?;
    match name {
        "link" => Ok(Hyperlink::new(alloc, uri.as_str())?),
        "found_link" => Ok(Hyperlink::new_implicit(alloc, uri.as_str())?),
        _ => Err(Fault::Word),
    }
}

/// Sets what a word names.
pub fn set(alloc: Global, word: &str, attrs: &mut CellAttributes) -> Result<(), Fault> {
    if set_flag(word, attrs) || set_value(word, attrs) {
        return Ok(());
    }
    let (name, value) = word.split_once('=').ok_or(Fault::Word)?;
    if set_color(name, value, attrs)? {
        return Ok(());
    }
    let link = Rc::new(alloc, link_of(alloc, name, value)?)?;
    attrs.set_hyperlink(Some(link));
    Ok(())
}

fn say_flags(attrs: &CellAttributes, sheet: &mut Sheet) {
    sheet.word_if(attrs.italic(), "italic");
    sheet.word_if(attrs.reverse(), "reverse");
    sheet.word_if(attrs.strikethrough(), "strikethrough");
    sheet.word_if(attrs.invisible(), "invisible");
    sheet.word_if(attrs.wrapped(), "wrapped");
    sheet.word_if(attrs.overline(), "overline");
}

// A value by the word that sets it, unless it is the plain one.
fn say_value<T: PartialEq + Debug>(name: &str, value: &T, plain: &T, sheet: &mut Sheet) {
    if value != plain {
        sheet.word(name);
        sheet.add_debug(value);
    }
}

fn say_values(attrs: &CellAttributes, sheet: &mut Sheet) {
    say_value("intensity=", &attrs.intensity(), &Intensity::Normal, sheet);
    say_value("underline=", &attrs.underline(), &Underline::None, sheet);
    say_value("blink=", &attrs.blink(), &Blink::None, sheet);
    say_value(
        "align=",
        &attrs.vertical_align(),
        &VerticalAlign::BaseLine,
        sheet,
    );
    say_value(
        "type=",
        &attrs.semantic_type(),
        &SemanticType::Output,
        sheet,
    );
}

// A colour by the word that sets it, unless it is the default.
fn say_color(name: &str, color: ColorAttribute, sheet: &mut Sheet) {
    if let ColorAttribute::PaletteIndex(index) = color {
        sheet.word(name);
        sheet.add_shown(&index);
    } else {
        say_value(name, &color, &ColorAttribute::Default, sheet);
    }
}

/// The words that set these attributes, `plain` where there is none.
pub fn say(attrs: &CellAttributes, sheet: &mut Sheet) {
    sheet.word_if(*attrs == CellAttributes::blank(), "plain");
    say_flags(attrs, sheet);
    say_values(attrs, sheet);
    say_color("foreground=", attrs.foreground(), sheet);
    say_color("background=", attrs.background(), sheet);
    say_color("underline_color=", attrs.underline_color(), sheet);
    if let Some(link) = attrs.hyperlink() {
        sheet.word(if link.is_implicit() {
            "found_link="
        } else {
            "link="
        });
        sheet.add(link.uri().as_bytes());
    }
}
