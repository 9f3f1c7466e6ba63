//! How a cell looks, as words and as declarations of CSS.
ghost use Rattle.std.specs.Prelude.{◌≡◌, ◌++◌, IfOk};
ghost use Rattle.std.specs.String.{string_bytes};
ghost use Rattle.screen_formats.specs.Colors.{hex_color};
ghost use Rattle.screen_formats.specs.Renditions.{align_rendition, blink_rendition, color_style, intensity_rendition};
ghost use Rattle.screen_formats.specs.Renditions.{lines_declared, lines_style, rendition_style, rendition_words};
ghost use Rattle.screen_formats.specs.Renditions.{text_if};
ghost use Rattle.screen_formats.specs.Renditions.{underline_color_style, underline_rendition};

use crate::colors::{Rgb, color_of, text_color};
use cell_base::{Blink, CellAttributes, ColorAttribute, Intensity, Underline, VerticalAlign};
use std::alloc::{AllocError, Global};

// The text where `holds` is true, and else the empty one.
pub(crate) fn text_if(holds: bool, text: &str) -> &str
    ensures { result.now ≡ text_if holds text.now }
{
    if holds { text } else { "" }
}

/// A rendition: its word, with a space after it; its parameter of SGR (ECMA-48 8.3.117), after a `;`; and its
/// declaration of CSS. Each is empty where there is none.
#[derive(Clone, Copy)]
pub(crate) struct Rendition {
    pub(crate) word: &'static str,
    pub(crate) code: &'static str,
    pub(crate) style: &'static str,
}

fn rendition_of(word: &'static str, code: &'static str, style: &'static str) -> Rendition
    ensures word { result.word.now ≡ word.now }
    ensures code { result.code.now ≡ code.now }
    ensures style { result.style.now ≡ style.now }
{
    Rendition { word, code, style }
}

// The rendition of an intensity.
pub(crate) fn intensity_rendition(intensity: Intensity) -> Rendition
    ensures word { result.word.now ≡ (intensity_rendition intensity).word }
    ensures code { result.code.now ≡ (intensity_rendition intensity).code }
    ensures style { result.style.now ≡ (intensity_rendition intensity).style }
{
    match intensity {
        Intensity::Normal => rendition_of("", "", ""),
        Intensity::Bold => rendition_of("bold ", ";1", "font-weight:bold;"),
        Intensity::Half => rendition_of("dim ", ";2", ""),
    }
}

// The rendition of an underline.
pub(crate) fn underline_rendition(underline: Underline) -> Rendition
    ensures word { result.word.now ≡ (underline_rendition underline).word }
    ensures code { result.code.now ≡ (underline_rendition underline).code }
    ensures style { result.style.now ≡ (underline_rendition underline).style }
{
    match underline {
        Underline::None => rendition_of("", "", ""),
        Underline::Single => rendition_of("underline ", ";4", ""),
        Underline::Double => rendition_of(
            "double-underline ",
            ";21",
            "text-decoration-style:double;",
        ),
        Underline::Curly => rendition_of("curly-underline ", ";4:3", "text-decoration-style:wavy;"),
        Underline::Dotted => rendition_of(
            "dotted-underline ",
            ";4:4",
            "text-decoration-style:dotted;",
        ),
        Underline::Dashed => rendition_of(
            "dashed-underline ",
            ";4:5",
            "text-decoration-style:dashed;",
        ),
    }
}

// The rendition of blinking.
pub(crate) fn blink_rendition(blink: Blink) -> Rendition
    ensures word { result.word.now ≡ (blink_rendition blink).word }
    ensures code { result.code.now ≡ (blink_rendition blink).code }
    ensures style { result.style.now ≡ (blink_rendition blink).style }
{
    match blink {
        Blink::None => rendition_of("", "", ""),
        Blink::Slow => rendition_of("blink ", ";5", ""),
        Blink::Rapid => rendition_of("rapid-blink ", ";6", ""),
    }
}

// The rendition of superscripts and subscripts.
pub(crate) fn align_rendition(align: VerticalAlign) -> Rendition
    ensures word { result.word.now ≡ (align_rendition align).word }
    ensures code { result.code.now ≡ (align_rendition align).code }
    ensures style { result.style.now ≡ (align_rendition align).style }
{
    match align {
        VerticalAlign::BaseLine => rendition_of("", "", ""),
        VerticalAlign::SuperScript => rendition_of("superscript ", ";73", ""),
        VerticalAlign::SubScript => rendition_of("subscript ", ";74", ""),
    }
}

/// How a text looks, as words with a space after each: `bold`, `dim`, `italic`, `underline` (or `double-underline`,
/// `curly-underline`, `dotted-underline`, `dashed-underline`), `overline`, `strikethrough`, `blink`, `rapid-blink`,
/// `reverse`, `invisible`, `superscript` and `subscript`, in this order. Nothing for a plain text.
pub fn rendition_words(alloc: Global, attrs: &CellAttributes) -> Result<String, AllocError>
    ensures { IfOk result (λ words. string_bytes words ≡ rendition_words attrs.now) }
{
    let intensity = intensity_rendition(attrs.intensity()).word;
    let italic = text_if(attrs.italic(), "italic ");
    let underline = underline_rendition(attrs.underline()).word;
    let overline = text_if(attrs.overline(), "overline ");
    let strikethrough = text_if(attrs.strikethrough(), "strikethrough ");
    let blink = blink_rendition(attrs.blink()).word;
    let reverse = text_if(attrs.reverse(), "reverse ");
    let invisible = text_if(attrs.invisible(), "invisible ");
    let align = align_rendition(attrs.vertical_align()).word;
    let text = format!(in alloc;
        "{intensity}{italic}{underline}{overline}{strikethrough}{blink}{reverse}{invisible}{align}"
    )?;
    Ok(text)
}

// The value of `text-decoration`: the lines under, above and through a text.
fn lines_style(alloc: Global, attrs: &CellAttributes) -> Result<String, AllocError>
    ensures { IfOk result (λ lines. string_bytes lines ≡ lines_style attrs.now) }
{
    let underline = text_if(attrs.underline().into(), "underline ");
    let overline = text_if(attrs.overline(), "overline ");
    let strikethrough = text_if(attrs.strikethrough(), "line-through ");
    let text = format!(in alloc; "{underline}{overline}{strikethrough}")?;
    Ok(text)
}

// The declaration of `text-decoration`, if there are any lines.
fn lines_declared(alloc: Global, lines: &str) -> Result<String, AllocError>
    ensures { IfOk result (λ style. string_bytes style ≡ lines_declared lines.now) }
{
    if lines.is_empty() {
        return Ok(String::new(alloc));
    }
    let text = format!(in alloc; "text-decoration:{lines};")?;
    Ok(text)
}

/// A declaration whose value is a colour.
#[tactic(auto, unfolding(crate::specs::Colors::hex_color))]
pub(crate) fn color_style(alloc: Global, name: &str, color: Rgb) -> Result<String, AllocError>
    ensures { IfOk result (λ style. string_bytes style ≡ color_style name.now (hex_color color)) }
{
    let (red, green, blue) = color;
    let text = format!(in alloc; "{name}:#{red:02x}{green:02x}{blue:02x};")?;
    Ok(text)
}

// The declaration of the underline colour, if one was set.
fn underline_color_style(alloc: Global, attrs: &CellAttributes) -> Result<String, AllocError>
    ensures { IfOk result (λ style. string_bytes style ≡ underline_color_style attrs.now) }
{
    let color = attrs.underline_color();
    if color == ColorAttribute::Default {
        return Ok(String::new(alloc));
    }
    let style = color_style(
        alloc,
        "text-decoration-color",
        color_of(text_color(attrs), color),
    )?;
    Ok(style)
}

/// The renditions of attributes as declarations of CSS, without the foreground and the background.
pub(crate) fn rendition_style(alloc: Global, attrs: &CellAttributes) -> Result<String, AllocError>
    ensures { IfOk result (λ style. string_bytes style ≡ rendition_style attrs.now) }
{
    let weight = intensity_rendition(attrs.intensity()).style;
    let slant = text_if(attrs.italic(), "font-style:italic;");
    let lines = lines_declared(alloc, &lines_style(alloc, attrs)?)?;
    let underline = underline_rendition(attrs.underline()).style;
    let color = underline_color_style(alloc, attrs)?;
    let text = format!(in alloc; "{weight}{slant}{lines}{underline}{color}")?;
    Ok(text)
}
