//! A screen as HTML.
ghost use Rattle.std.specs.Prelude.{◌≡◌, ◌++◌, ◌-◌, [], ◌∷◌, codes, map, min, IfOk, OnOk};
ghost use Rattle.std.specs.String.{string_bytes};
ghost use Rattle.cell_surface.specs.Surface.{shown_by};
ghost use Rattle.screen_formats.specs.Html.{background_style, cursor_style, html_cursor, html_element, html_name};
ghost use Rattle.screen_formats.specs.Html.{html_row, html_rows, html_run};
ghost use Rattle.screen_formats.specs.Html.{html_style, html_text, text_style, is_boxed, screen_style, width_style};
ghost use Rattle.screen_formats.specs.Tokens.{tokens_text};
ghost use Rattle.screen_formats.specs.declared.escape.Markup.TheVariants.{Html};

use crate::colors::{
    DEFAULT_BACKGROUND, DEFAULT_FOREGROUND, background_color, has_background, text_color,
};
use crate::escape::Markup;
use crate::links::link_uri;
use crate::renditions::{color_style, rendition_style, rendition_words};
use crate::runs::{Run, line_runs};
use crate::tokens::{push_closing, push_element, push_opening, push_words};
use cell_base::{CellAttributes, CursorVisibility, Widths};
use cell_line::Line;
use cell_surface::Surface;
use std::alloc::{AllocError, Global};
use text_clusters::are_printable;

// The declaration of the background colour, if a background is drawn.
fn background_style(alloc: Global, attrs: &CellAttributes) -> Result<String, AllocError>
    ensures { IfOk result (λ style. string_bytes style ≡ background_style attrs.now) }
{
    if !has_background(attrs) {
        return Ok(String::new(alloc));
    }
    let style = color_style(alloc, "background-color", background_color(attrs))?;
    Ok(style)
}

// Whether the cells of a run are drawn in a box of their own: where a font may draw them wider or narrower than their
// columns of digits, and where they have a background.
fn is_boxed(run: &Run<'_>) -> bool
    ensures { result ≡ is_boxed run.now }
{
    run.width == 2 || has_background(run.attrs) || !are_printable(run.text.as_bytes())
}

// The declaration of the width of some columns, if it is set.
fn width_style(alloc: Global, is_set: bool, columns: usize) -> Result<String, AllocError>
    ensures { IfOk result (λ style. string_bytes style ≡ width_style is_set columns) }
{
    if !is_set {
        return Ok(String::new(alloc));
    }
    let style = format!(in alloc; "display:inline-block;width:{columns}ch;")?;
    Ok(style)
}

// The declaration of the colour in which a text is drawn.
fn text_style(alloc: Global, attrs: &CellAttributes) -> Result<String, AllocError>
    ensures { IfOk result (λ style. string_bytes style ≡ text_style attrs.now) }
{
    let style = color_style(alloc, "color", text_color(attrs))?;
    Ok(style)
}

// The style of cells that take some columns, as declarations of CSS.
#[tactic(auto, unfolding(crate::specs::Html::html_style))]
fn html_style(
    alloc: Global,
    attrs: &CellAttributes,
    is_set: bool,
    columns: usize,
) -> Result<String, AllocError>
    ensures { IfOk result (λ style. string_bytes style ≡ html_style attrs.now is_set columns) }
{
    let color = text_style(alloc, attrs)?;
    let background = background_style(alloc, attrs)?;
    let rendition = rendition_style(alloc, attrs)?;
    let width = width_style(alloc, is_set, columns)?;
    let style = format!(in alloc; "{color}{background}{rendition}{width}")?;
    Ok(style)
}

// The name of a run's element: `a` where it has a link.
fn html_name(uri: &str) -> &'static str
    ensures { result.now ≡ html_name uri.now }
{
    if uri.is_empty() { "span" } else { "a" }
}

// Writes the element of a run.
fn push_html_element<'a>(
    out: &mut String,
    uri: &'a str,
    words: &'a str,
    style: &'a str,
    text: &str,
) -> Result<(), AllocError>
    ensures { OnOk result
        (string_bytes out.new ≡ string_bytes out.old
        ++ tokens_text Html (html_element uri.now words.now style.now text.now)) }
{
    push_element(
        out,
        Markup::Html,
        html_name(uri),
        &[("href", uri), ("class", words), ("style", style)],
        text,
    )?;
    Ok(())
}

// Writes a run.
#[tactic(auto, unfolding(crate::specs::Html::html_run))]
fn push_run(alloc: Global, out: &mut String, run: &Run<'_>) -> Result<(), AllocError>
    ensures { OnOk result (string_bytes out.new ≡ string_bytes out.old ++ tokens_text Html (html_run run.now)) }
{
    let words = rendition_words(alloc, run.attrs)?;
    let style = html_style(alloc, run.attrs, is_boxed(run), run.columns)?;
    push_html_element(out, link_uri(run.attrs), &words, &style, &run.text)?;
    Ok(())
}

// Writes the runs of a line, and a line feed.
fn push_row(alloc: Global, out: &mut String, line: &Line) -> Result<(), AllocError>
    ensures { OnOk result
        (string_bytes out.new ≡ string_bytes out.old ++ tokens_text Html (html_row line.now.columns)) }
{
    let runs = line_runs(alloc, line)?;
    for run in &runs {
        push_run(alloc, out, run)?;
    }
    push_words(out, Markup::Html, "\n")?;
    Ok(())
}

// Writes lines.
fn push_rows(alloc: Global, out: &mut String, lines: &[Line]) -> Result<(), AllocError>
    ensures { OnOk result
        (string_bytes out.new ≡ string_bytes out.old
        ++ tokens_text Html (html_rows (map (λ line. line.columns) lines.now))) }
{
    for line in lines {
        push_row(alloc, out, line)?;
    }
    Ok(())
}

// The default colours, as declarations of CSS.
#[tactic(auto, unfolding(crate::specs::Html::screen_style))]
fn screen_style(alloc: Global) -> Result<String, AllocError>
    ensures { IfOk result (λ style. string_bytes style ≡ screen_style) }
{
    let color = color_style(alloc, "color", DEFAULT_FOREGROUND)?;
    let background = color_style(alloc, "background-color", DEFAULT_BACKGROUND)?;
    let style = format!(in alloc; "{color}{background}line-height:1.25;position:relative;")?;
    Ok(style)
}

// The style of a box over a cell, as declarations of CSS.
#[tactic(auto, unfolding(crate::specs::Html::cursor_style))]
fn cursor_style(alloc: Global, column: usize, row: usize) -> Result<String, AllocError>
    ensures { IfOk result (λ style. string_bytes style ≡ cursor_style column row) }
{
    let color = color_style(alloc, "background-color", DEFAULT_FOREGROUND)?;
    let style = format!(in alloc;
        "position:absolute;left:{column}ch;top:calc(1.25em*{row});width:1ch;height:1.25em;opacity:0.5;{color}"
    )?;
    Ok(style)
}

// Writes the cursor, if it is shown.
#[tactic(auto, unfolding(crate::specs::Html::html_cursor))]
fn push_cursor<W: Widths + Drop>(
    alloc: Global,
    out: &mut String,
    surface: &Surface<W>,
) -> Result<(), AllocError>
    ensures { OnOk result
        (string_bytes out.new ≡ string_bytes out.old ++ tokens_text Html (html_cursor (shown_by surface.now).screen)) }
{
    if surface.cursor_visibility() == CursorVisibility::Hidden {
        return Ok(());
    }
    let (column, row) = surface.cursor_position();
    let (width, _) = surface.dimensions();
    let style = cursor_style(alloc, column.min(width.saturating_sub(1)), row)?;
    push_element(
        out,
        Markup::Html,
        "span",
        &[("class", "cursor"), ("style", &style)],
        "",
    )?;
    Ok(())
}

/// Writes a screen as HTML: an element `pre` of class `screen`, in which each row has a line feed after it. A run is a
/// `span`, or an `a` where it has a link of the scheme http, https, mailto or file. Its class has the words of
/// `rendition_words`, and its style draws all attributes except blinking, superscript and subscript. Cells that a font
/// may draw wider or narrower, and those with a background, are boxes with the width of their columns, as high as the
/// row. The cursor, if it is shown, is an empty `span` of class `cursor` that lies over its cell.
///
/// Of a surface that has failed the contract says only that its cells are written.
pub fn write_html<W: Widths + Drop>(
    alloc: Global,
    out: &mut String,
    surface: &Surface<W>,
) -> Result<(), AllocError>
    ensures { OnOk result (string_bytes out.new ≡ string_bytes out.old ++ html_text (shown_by surface.now).screen) }
{
    let style = screen_style(alloc)?;
    push_opening(
        out,
        Markup::Html,
        "pre",
        &[("class", "screen"), ("style", &style)],
    )?;
    push_rows(alloc, out, surface.screen_lines())?;
    push_cursor(alloc, out, surface)?;
    push_closing(out, Markup::Html, "pre")?;
    push_words(out, Markup::Html, "\n")?;
    Ok(())
}
