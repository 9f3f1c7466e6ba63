//! A screen as rows for a terminal.
ghost use Rattle.std.specs.Prelude.{◌≡◌, ◌++◌, map, IfOk, OnOk};
ghost use Rattle.std.specs.String.{string_bytes};
ghost use Rattle.std.specs.List.{flat_map};
ghost use Rattle.cell_surface.specs.Surface.{shown_by};
ghost use Rattle.screen_formats.specs.Ansi.{ansi_cursor_row, ansi_row, ansi_row_at, ansi_rows, ansi_run, ansi_text};
ghost use Rattle.screen_formats.specs.Ansi.{ansi_under, ansi_words, color_code, color_codes, cursor_in, linked_text};
ghost use Rattle.screen_formats.specs.Ansi.{printable_uri, rendition_codes, reversed, underline_color_code};

use crate::links::link_uri;
use crate::renditions::{
    align_rendition, blink_rendition, intensity_rendition, text_if, underline_rendition,
};
use crate::runs::{Part, Run, line_runs, part_runs};
use cell_base::{CellAttributes, ColorAttribute, CursorVisibility, Widths};
use cell_line::Line;
use cell_surface::Surface;
use std::alloc::{AllocError, Global};
use text_clusters::are_printable;

// The SGR parameters of the attributes without the colours.
#[tactic(auto, unfolding(crate::specs::Ansi::rendition_codes))]
fn rendition_codes(alloc: Global, attrs: &CellAttributes) -> Result<String, AllocError>
    ensures { IfOk result (λ codes. string_bytes codes ≡ rendition_codes attrs.now) }
{
    let intensity = intensity_rendition(attrs.intensity()).code;
    let italic = text_if(attrs.italic(), ";3");
    let underline = underline_rendition(attrs.underline()).code;
    let blink = blink_rendition(attrs.blink()).code;
    let reverse = text_if(attrs.reverse(), ";7");
    let invisible = text_if(attrs.invisible(), ";8");
    let strikethrough = text_if(attrs.strikethrough(), ";9");
    let overline = text_if(attrs.overline(), ";53");
    let align = align_rendition(attrs.vertical_align()).code;
    let text = format!(in alloc;
        "{intensity}{italic}{underline}{blink}{reverse}{invisible}{strikethrough}{overline}{align}"
    )?;
    Ok(text)
}

// The SGR parameters of the colour of `layer` (38 foreground, 48 background), if one was set.
#[tactic(auto, unfolding(crate::specs::Ansi::color_code))]
fn color_code(alloc: Global, layer: &str, color: ColorAttribute) -> Result<String, AllocError>
    ensures { IfOk result (λ code. string_bytes code ≡ color_code layer.now color) }
{
    match color {
        ColorAttribute::Default => Ok(String::new(alloc)),
        ColorAttribute::PaletteIndex(index) => {
            let text = format!(in alloc; ";{layer};5;{index}")?;
            Ok(text)
        }
        ColorAttribute::TrueColorWithDefaultFallback(tuple)
        | ColorAttribute::TrueColorWithPaletteFallback(tuple, _) => {
            let (red, green, blue) = (tuple.0, tuple.1, tuple.2);
            let text = format!(in alloc; ";{layer};2;{red};{green};{blue}")?;
            Ok(text)
        }
    }
}

// The SGR parameters of the underline colour, if one was set.
#[tactic(auto, unfolding(crate::specs::Ansi::underline_color_code))]
fn underline_color_code(alloc: Global, color: ColorAttribute) -> Result<String, AllocError>
    ensures { IfOk result (λ code. string_bytes code ≡ underline_color_code color) }
{
    match color {
        ColorAttribute::Default => Ok(String::new(alloc)),
        ColorAttribute::PaletteIndex(index) => {
            let text = format!(in alloc; ";58:5:{index}")?;
            Ok(text)
        }
        ColorAttribute::TrueColorWithDefaultFallback(tuple)
        | ColorAttribute::TrueColorWithPaletteFallback(tuple, _) => {
            let (red, green, blue) = (tuple.0, tuple.1, tuple.2);
            let text = format!(in alloc; ";58:2::{red}:{green}:{blue}")?;
            Ok(text)
        }
    }
}

// The SGR parameters of the foreground, the background and the underline colour.
#[tactic(auto, unfolding(crate::specs::Ansi::color_codes))]
fn color_codes(alloc: Global, attrs: &CellAttributes) -> Result<String, AllocError>
    ensures { IfOk result (λ codes. string_bytes codes ≡ color_codes attrs.now) }
{
    let foreground = color_code(alloc, "38", attrs.foreground())?;
    let background = color_code(alloc, "48", attrs.background())?;
    let underline = underline_color_code(alloc, attrs.underline_color())?;
    let text = format!(in alloc; "{foreground}{background}{underline}")?;
    Ok(text)
}

// The URI, if it holds only printable ASCII; else the empty one.
fn printable_uri(uri: &str) -> &str
    ensures { result.now ≡ printable_uri uri.now }
{
    if are_printable(uri.as_bytes()) {
        uri
    } else {
        ""
    }
}

// Writes a text, in a link (OSC 8) where the URI isn't empty.
#[tactic(auto, unfolding(crate::specs::Ansi::linked_text))]
fn push_text(out: &mut String, uri: &str, text: &str) -> Result<(), AllocError>
    ensures { OnOk result (string_bytes out.new ≡ string_bytes out.old ++ linked_text uri.now text.now) }
{
    if uri.is_empty() {
        out.push_str(text)?;
        return Ok(());
    }
    write!(out, "\x1b]8;;{uri}\x1b\\{text}\x1b]8;;\x1b\\")?;
    Ok(())
}

// Writes SGR with a reset and attributes, and a text.
#[tactic(auto, unfolding(crate::specs::Ansi::ansi_words))]
fn push_words(
    alloc: Global,
    out: &mut String,
    attrs: &CellAttributes,
    text: &str,
) -> Result<(), AllocError>
    ensures { OnOk result (string_bytes out.new ≡ string_bytes out.old ++ ansi_words attrs.now text.now) }
{
    let renditions = rendition_codes(alloc, attrs)?;
    let colors = color_codes(alloc, attrs)?;
    write!(out, "\x1b[0{renditions}{colors}m")?;
    push_text(out, printable_uri(link_uri(attrs)), text)?;
    Ok(())
}

// Writes runs.
fn push_runs(alloc: Global, out: &mut String, runs: &[Run<'_>]) -> Result<(), AllocError>
    ensures { OnOk result (string_bytes out.new ≡ string_bytes out.old ++ flat_map ansi_run runs.now) }
{
    for run in runs {
        push_words(alloc, out, run.attrs, &run.text)?;
    }
    Ok(())
}

// Attributes with foreground and background exchanged, or back where they are.
fn reversed(attrs: &CellAttributes) -> Result<CellAttributes, AllocError>
    ensures { IfOk result (λ made. made ≡ reversed attrs.now) }
{
    let mut made = attrs.try_clone()?;
    made.set_reverse(!attrs.reverse());
    Ok(made)
}

// Writes a run under the cursor.
fn push_under(alloc: Global, out: &mut String, run: &Run<'_>) -> Result<(), AllocError>
    ensures { OnOk result (string_bytes out.new ≡ string_bytes out.old ++ ansi_under run.now) }
{
    let attrs = reversed(run.attrs)?;
    push_words(alloc, out, &attrs, &run.text)?;
    Ok(())
}

// Writes the runs under the cursor.
fn push_all_under(alloc: Global, out: &mut String, runs: &[Run<'_>]) -> Result<(), AllocError>
    ensures { OnOk result (string_bytes out.new ≡ string_bytes out.old ++ flat_map ansi_under runs.now) }
{
    for run in runs {
        push_under(alloc, out, run)?;
    }
    Ok(())
}

// Writes the runs of a line, SGR 0 and a line feed.
#[tactic(auto, unfolding(crate::specs::Ansi::ansi_row))]
fn push_row(alloc: Global, out: &mut String, line: &Line) -> Result<(), AllocError>
    ensures { OnOk result (string_bytes out.new ≡ string_bytes out.old ++ ansi_row line.now.columns) }
{
    let runs = line_runs(alloc, line)?;
    push_runs(alloc, out, &runs)?;
    out.push_str("\x1b[0m\n")?;
    Ok(())
}

// Writes the runs of a line with the cursor in a column, SGR 0 and a line feed.
#[tactic(auto, unfolding(crate::specs::Ansi::ansi_cursor_row))]
fn push_cursor_row(
    alloc: Global,
    out: &mut String,
    column: usize,
    line: &Line,
) -> Result<(), AllocError>
    ensures { OnOk result
        (string_bytes out.new ≡ string_bytes out.old ++ ansi_cursor_row column line.now.columns) }
{
    let before = part_runs(alloc, line, Part::Before(column))?;
    let under = part_runs(alloc, line, Part::At(column))?;
    let after = part_runs(alloc, line, Part::After(column))?;
    push_runs(alloc, out, &before)?;
    push_all_under(alloc, out, &under)?;
    push_runs(alloc, out, &after)?;
    out.push_str("\x1b[0m\n")?;
    Ok(())
}

// Writes a line, where the cursor may be in a column.
fn push_row_at(
    alloc: Global,
    out: &mut String,
    cursor: Option<usize>,
    line: &Line,
) -> Result<(), AllocError>
    ensures { OnOk result
        (string_bytes out.new ≡ string_bytes out.old ++ ansi_row_at cursor line.now.columns) }
{
    match cursor {
        Some(column) => push_cursor_row(alloc, out, column, line),
        None => push_row(alloc, out, line),
    }
}

// The column of the cursor, where it is shown in this row.
fn cursor_in<W: Widths + Drop>(surface: &Surface<W>, at: usize) -> Option<usize>
    ensures { result ≡ cursor_in (shown_by surface.now).screen at }
{
    let (column, row) = surface.cursor_position();
    let (width, _) = surface.dimensions();
    if surface.cursor_visibility() == CursorVisibility::Visible && row == at {
        Some(column.min(width.saturating_sub(1)))
    } else {
        None
    }
}

// Writes the lines of a screen.
fn push_rows<W: Widths + Drop>(
    alloc: Global,
    out: &mut String,
    surface: &Surface<W>,
    lines: &[Line],
) -> Result<(), AllocError>
    ensures { OnOk result
        (string_bytes out.new ≡ string_bytes out.old
        ++ ansi_rows (shown_by surface.now).screen 0 (map (λ line. line.columns) lines.now)) }
{
    for row in 0..lines.len() {
        push_row_at(alloc, out, cursor_in(surface, row), &lines[row])?;
    }
    Ok(())
}

/// Writes the rows of a screen as a text that a terminal shows: each run after SGR (ECMA-48 8.3.117) for its
/// attributes, and in a link (OSC 8) where it has one whose scheme is http, https, mailto or file and whose URI is
/// printable ASCII; after each row SGR 0 and a line feed. In the cell of the cursor, if it is shown, foreground and
/// background are exchanged, once more where reverse video exchanges them.
///
/// Of a surface that has failed the contract says only that its cells are written.
pub fn write_ansi<W: Widths + Drop>(
    alloc: Global,
    out: &mut String,
    surface: &Surface<W>,
) -> Result<(), AllocError>
    ensures { OnOk result (string_bytes out.new ≡ string_bytes out.old ++ ansi_text (shown_by surface.now).screen) }
{
    push_rows(alloc, out, surface, surface.screen_lines())?;
    Ok(())
}
