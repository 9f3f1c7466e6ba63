//! A screen as SVG.
ghost use Rattle.std.specs.Prelude.{◌≡◌, ◌++◌, ◌*◌, ◌+◌, ◌-◌, [], ◌∷◌, codes, length, map, min, IfOk, OnOk};
ghost use Rattle.std.specs.String.{string_bytes};
ghost use Rattle.std.specs.List.{flat_map};
ghost use Rattle.cell_surface.specs.Surface.{shown_by};
ghost use Rattle.screen_formats.specs.Tokens.{Closing, Words, tokens_text};
ghost use Rattle.screen_formats.specs.Svg.{base_line, column_units, link_line, placed_text, rectangle, row_units};
ghost use Rattle.screen_formats.specs.Svg.{sized_opening};
ghost use Rattle.screen_formats.specs.Svg.{svg_cursor, svg_head, svg_letters, svg_opening, svg_background, svg_part};
ghost use Rattle.screen_formats.specs.Svg.{svg_row, svg_rows, svg_runs, svg_style, svg_text, svg_text_of};
ghost use Rattle.screen_formats.specs.declared.escape.Markup.TheVariants.{Xml};

use crate::colors::{
    DEFAULT_BACKGROUND, DEFAULT_FOREGROUND, background_color, has_background, hex_color, text_color,
};
use crate::escape::Markup;
use crate::links::link_uri;
use crate::renditions::{color_style, rendition_style, rendition_words};
use crate::runs::{Run, line_runs};
use crate::tokens::{push_closing, push_element, push_opening, push_words};
use cell_base::{CellAttributes, CursorVisibility, Widths};
use cell_line::Line;
use cell_surface::Surface;
use std::alloc::{AllocError, Global};

// A number of columns, in units.
fn column_units(alloc: Global, columns: usize) -> Result<String, AllocError>
    ensures { IfOk result (λ text. string_bytes text ≡ column_units columns) }
{
    let units = 10 * columns as u128;
    let text = format!(in alloc; "{units}")?;
    Ok(text)
}

// A number of rows, in units.
fn row_units(alloc: Global, rows: usize) -> Result<String, AllocError>
    ensures { IfOk result (λ text. string_bytes text ≡ row_units rows) }
{
    let units = 18 * rows as u128;
    let text = format!(in alloc; "{units}")?;
    Ok(text)
}

// The base line of the letters of a row, in units.
fn base_line(alloc: Global, row: usize) -> Result<String, AllocError>
    ensures { IfOk result (λ text. string_bytes text ≡ base_line row) }
{
    let units = 18 * row as u128 + 14;
    let text = format!(in alloc; "{units}")?;
    Ok(text)
}

// The declaration of the line under a link, where a text has one.
fn link_line(uri: &str) -> &'static str
    ensures { result.now ≡ link_line uri.now }
{
    if uri.is_empty() {
        ""
    } else {
        "text-decoration:underline;"
    }
}

// The style of a text, as declarations of CSS.
#[tactic(auto, unfolding(crate::specs::Svg::svg_style))]
fn svg_style(alloc: Global, attrs: &CellAttributes) -> Result<String, AllocError>
    ensures { IfOk result (λ style. string_bytes style ≡ svg_style attrs.now) }
{
    let fill = color_style(alloc, "fill", text_color(attrs))?;
    let line = link_line(link_uri(attrs));
    let rendition = rendition_style(alloc, attrs)?;
    let style = format!(in alloc; "{fill}{line}{rendition}")?;
    Ok(style)
}

// Writes a rectangle.
#[tactic(auto, unfolding(crate::specs::Svg::rectangle))]
fn push_rectangle<'a>(
    out: &mut String,
    x: &'a str,
    y: &'a str,
    width: &'a str,
    height: &'a str,
    fill: &'a str,
    opacity: &'a str,
) -> Result<(), AllocError>
    ensures { OnOk result
        (string_bytes out.new ≡ string_bytes out.old
        ++ tokens_text Xml (rectangle x.now y.now width.now height.now fill.now opacity.now)) }
{
    push_element(
        out,
        Markup::Xml,
        "rect",
        &[
            ("x", x),
            ("y", y),
            ("width", width),
            ("height", height),
            ("fill", fill),
            ("fill-opacity", opacity),
        ],
        "",
    )?;
    Ok(())
}

// Writes the element of a text that is as long as its columns and keeps all its spaces.
#[tactic(auto, unfolding(crate::specs::Svg::placed_text))]
fn push_placed_text<'a>(
    out: &mut String,
    x: &'a str,
    y: &'a str,
    len: &'a str,
    words: &'a str,
    style: &'a str,
    text: &str,
) -> Result<(), AllocError>
    ensures { OnOk result
        (string_bytes out.new ≡ string_bytes out.old
        ++ tokens_text Xml (placed_text x.now y.now len.now words.now style.now text.now)) }
{
    push_element(
        out,
        Markup::Xml,
        "text",
        &[
            ("x", x),
            ("y", y),
            ("textLength", len),
            ("xml:space", "preserve"),
            ("class", words),
            ("style", style),
        ],
        text,
    )?;
    Ok(())
}

// Writes the rectangle behind a run, if it has a background.
#[tactic(auto, unfolding(crate::specs::Svg::svg_background))]
fn push_background(
    alloc: Global,
    out: &mut String,
    row: usize,
    run: &Run<'_>,
) -> Result<(), AllocError>
    ensures { OnOk result
        (string_bytes out.new ≡ string_bytes out.old ++ tokens_text Xml (svg_background row run.now)) }
{
    if !has_background(run.attrs) {
        return Ok(());
    }
    let x = column_units(alloc, run.column)?;
    let y = row_units(alloc, row)?;
    let width = column_units(alloc, run.columns)?;
    let fill = hex_color(alloc, background_color(run.attrs))?;
    push_rectangle(out, &x, &y, &width, "18", &fill, "")?;
    Ok(())
}

// Writes the letters of a run.
fn push_letters(
    alloc: Global,
    out: &mut String,
    row: usize,
    run: &Run<'_>,
) -> Result<(), AllocError>
    ensures { OnOk result (string_bytes out.new ≡ string_bytes out.old ++ tokens_text Xml (svg_letters row run.now)) }
{
    let x = column_units(alloc, run.column)?;
    let y = base_line(alloc, row)?;
    let len = column_units(alloc, run.columns)?;
    let words = rendition_words(alloc, run.attrs)?;
    let style = svg_style(alloc, run.attrs)?;
    push_placed_text(out, &x, &y, &len, &words, &style, &run.text)?;
    Ok(())
}

// Writes the text of a run, in a link where it has one.
#[tactic(auto, unfolding(crate::specs::Svg::svg_text_of))]
fn push_text(alloc: Global, out: &mut String, row: usize, run: &Run<'_>) -> Result<(), AllocError>
    ensures { OnOk result (string_bytes out.new ≡ string_bytes out.old ++ tokens_text Xml (svg_text_of row run.now)) }
{
    let uri = link_uri(run.attrs);
    if uri.is_empty() {
        push_letters(alloc, out, row, run)?;
        return Ok(());
    }
    push_opening(out, Markup::Xml, "a", &[("href", uri)])?;
    push_letters(alloc, out, row, run)?;
    push_closing(out, Markup::Xml, "a")?;
    Ok(())
}

// Writes the text of a run, or the rectangle behind it.
fn push_part(
    alloc: Global,
    out: &mut String,
    row: usize,
    run: &Run<'_>,
    is_text: bool,
) -> Result<(), AllocError>
    ensures { OnOk result
        (string_bytes out.new ≡ string_bytes out.old ++ tokens_text Xml (svg_part is_text row run.now)) }
{
    if is_text {
        push_text(alloc, out, row, run)?;
    } else {
        push_background(alloc, out, row, run)?;
    }
    Ok(())
}

// Writes the texts of runs, or the rectangles behind them.
fn push_parts(
    alloc: Global,
    out: &mut String,
    row: usize,
    runs: &[Run<'_>],
    is_text: bool,
) -> Result<(), AllocError>
    ensures { OnOk result
        (string_bytes out.new ≡ string_bytes out.old ++ tokens_text Xml (flat_map (svg_part is_text row) runs.now)) }
{
    for run in runs {
        push_part(alloc, out, row, run, is_text)?;
    }
    Ok(())
}

// Writes a row.
#[tactic(auto, unfolding(crate::specs::Svg::svg_row))]
fn push_row(alloc: Global, out: &mut String, row: usize, line: &Line) -> Result<(), AllocError>
    ensures { OnOk result
        (string_bytes out.new ≡ string_bytes out.old ++ tokens_text Xml (svg_row row line.now.columns)) }
{
    let runs = line_runs(alloc, line)?;
    push_parts(alloc, out, row, &runs, false)?;
    push_parts(alloc, out, row, &runs, true)?;
    Ok(())
}

// Writes the rows.
fn push_rows(alloc: Global, out: &mut String, lines: &[Line]) -> Result<(), AllocError>
    ensures { OnOk result
        (string_bytes out.new ≡ string_bytes out.old
        ++ tokens_text Xml (svg_rows 0 (map (λ line. line.columns) lines.now))) }
{
    for row in 0..lines.len() {
        push_row(alloc, out, row, &lines[row])?;
    }
    Ok(())
}

// Writes the cursor, if it is shown.
#[tactic(auto, unfolding(crate::specs::Svg::svg_cursor))]
fn push_cursor<W: Widths + Drop>(
    alloc: Global,
    out: &mut String,
    surface: &Surface<W>,
) -> Result<(), AllocError>
    ensures { OnOk result
        (string_bytes out.new ≡ string_bytes out.old ++ tokens_text Xml (svg_cursor (shown_by surface.now).screen)) }
{
    if surface.cursor_visibility() == CursorVisibility::Hidden {
        return Ok(());
    }
    let (column, row) = surface.cursor_position();
    let (width, _) = surface.dimensions();
    let x = column_units(alloc, column.min(width.saturating_sub(1)))?;
    let y = row_units(alloc, row)?;
    let fill = hex_color(alloc, DEFAULT_FOREGROUND)?;
    push_rectangle(out, &x, &y, "10", "18", &fill, "0.5")?;
    Ok(())
}

// Writes the tag of a picture with a size and a view box.
#[tactic(auto, unfolding(crate::specs::Svg::sized_opening))]
fn push_sized_opening<'a>(
    out: &mut String,
    width: &'a str,
    height: &'a str,
    view_box: &'a str,
) -> Result<(), AllocError>
    ensures { OnOk result
        (string_bytes out.new ≡ string_bytes out.old
        ++ tokens_text Xml (sized_opening width.now height.now view_box.now)) }
{
    push_opening(
        out,
        Markup::Xml,
        "svg",
        &[
            ("xmlns", "http://www.w3.org/2000/svg"),
            ("width", width),
            ("height", height),
            ("viewBox", view_box),
            ("font-family", "monospace"),
            ("font-size", "16.7"),
        ],
    )?;
    Ok(())
}

// Writes the tag of a picture whose view box is the whole picture.
#[tactic(auto, unfolding(crate::specs::Svg::svg_opening))]
fn push_svg_opening<'a>(
    alloc: Global,
    out: &mut String,
    width: &'a str,
    height: &'a str,
) -> Result<(), AllocError>
    ensures { OnOk result
        (string_bytes out.new ≡ string_bytes out.old ++ tokens_text Xml (svg_opening width.now height.now)) }
{
    let view_box = format!(in alloc; "0 0 {width} {height}")?;
    push_sized_opening(out, width, height, &view_box)?;
    Ok(())
}

// Writes the head, before the rows: the picture's tag, the title, and the rectangle behind all rows.
fn push_head<'a>(
    alloc: Global,
    out: &mut String,
    width: &'a str,
    height: &'a str,
    title: &str,
) -> Result<(), AllocError>
    ensures { OnOk result
        (string_bytes out.new ≡ string_bytes out.old ++ tokens_text Xml (svg_head width.now height.now title.now)) }
{
    let fill = hex_color(alloc, DEFAULT_BACKGROUND)?;
    push_svg_opening(alloc, out, width, height)?;
    push_element(out, Markup::Xml, "title", &[], title)?;
    push_rectangle(out, "0", "0", width, height, &fill, "")?;
    Ok(())
}

// Writes the end, after the rows: the closing tag and a line feed.
fn push_end(out: &mut String) -> Result<(), AllocError>
    ensures { OnOk result
        (string_bytes out.new ≡ string_bytes out.old
        ++ tokens_text Xml (Closing (codes "svg") ∷ Words (10 ∷ []) ∷ [])) }
{
    push_closing(out, Markup::Xml, "svg")?;
    push_words(out, Markup::Xml, "\n")?;
    Ok(())
}

/// Writes a screen as SVG: columns of 10 units and rows of 18, with the title, a rectangle behind each run that has a
/// background, the text of each run, as long as its columns, in a link where it has one of the scheme http, https,
/// mailto or file, and a rectangle for the cursor, if it is shown. Wide cells take two columns each. The class of a
/// text has the words of `rendition_words`, and its style draws all attributes except blinking, superscript and
/// subscript.
///
/// Of a surface that has failed the contract says only that its cells are written.
pub fn write_svg<W: Widths + Drop>(
    alloc: Global,
    out: &mut String,
    surface: &Surface<W>,
) -> Result<(), AllocError>
    ensures { OnOk result (string_bytes out.new ≡ string_bytes out.old ++ svg_text (shown_by surface.now).screen) }
{
    let (width, height) = surface.dimensions();
    let width = column_units(alloc, width)?;
    let height = row_units(alloc, height)?;
    push_head(alloc, out, &width, &height, surface.title())?;
    push_rows(alloc, out, surface.screen_lines())?;
    push_cursor(alloc, out, surface)?;
    push_end(out)?;
    Ok(())
}
