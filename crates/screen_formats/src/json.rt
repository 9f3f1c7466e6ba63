//! A screen as JSON.
ghost use Rattle.std.specs.Prelude.{◌≡◌, ◌++◌, codes, map, Some, IfOk, OnOk};
ghost use Rattle.std.specs.String.{string_bytes};
ghost use Rattle.cell_edits.specs.VisibleCells.{visible_cells};
ghost use Rattle.cell_surface.specs.Surface.{shown_by};
ghost use Rattle.serde_json.specs.Data.{number, put as with_member, string, unsigned};
ghost use Rattle.serde_json.specs.Read.{read};
ghost use Rattle.serde_json.specs.View.{members_view, view};
ghost use Rattle.screen_formats.specs.Json.{attributes_data, color_text, colors_data, cursor_data, json_text, row_data};
ghost use Rattle.screen_formats.specs.Json.{rows_data, run_data, screen_data, semantic_word};

use crate::colors::hex_color;
use crate::links::link_uri;
use crate::renditions::rendition_words;
use crate::runs::{Run, line_runs};
use cell_base::{CellAttributes, ColorAttribute, CursorVisibility, SemanticType, Widths};
use cell_line::Line;
use cell_surface::Surface;
use serde_json::{Map, Value, json, put};
use std::alloc::{AllocError, Global};

// A colour: empty for the default colour, the index of a palette colour, and `#rrggbb` for any other.
#[tactic(auto, unfolding(crate::specs::Json::color_text))]
fn color_text(alloc: Global, color: ColorAttribute) -> Result<String, AllocError>
    ensures { IfOk result (λ text. string_bytes text ≡ color_text color) }
{
    match color {
        ColorAttribute::Default => Ok(String::new(alloc)),
        ColorAttribute::PaletteIndex(index) => {
            let text = format!(in alloc; "{index}")?;
            Ok(text)
        }
        ColorAttribute::TrueColorWithDefaultFallback(tuple)
        | ColorAttribute::TrueColorWithPaletteFallback(tuple, _) => {
            let text = hex_color(alloc, (tuple.0, tuple.1, tuple.2))?;
            Ok(text)
        }
    }
}

fn semantic_word(semantic: SemanticType) -> &'static str
    ensures { result.now ≡ semantic_word semantic }
{
    match semantic {
        SemanticType::Output => "output",
        SemanticType::Input => "input",
        SemanticType::Prompt => "prompt",
    }
}

// The colours of cells.
#[tactic(auto, unfolding(crate::specs::Json::colors_data))]
fn colors_value(alloc: Global, attrs: &CellAttributes) -> Result<Value, AllocError>
    ensures { IfOk result (λ value. view value ≡ colors_data attrs.now) }
{
    let background = color_text(alloc, attrs.background())?;
    let foreground = color_text(alloc, attrs.foreground())?;
    let underline = color_text(alloc, attrs.underline_color())?;
    let value = json!(in alloc; {
        "background": background,
        "foreground": foreground,
        "underline": underline
    })?;
    Ok(value)
}

// The attributes of cells.
#[tactic(auto, unfolding(crate::specs::Json::attributes_data))]
fn attributes_value(alloc: Global, attrs: &CellAttributes) -> Result<Value, AllocError>
    ensures { IfOk result (λ value. view value ≡ attributes_data attrs.now) }
{
    let colors = colors_value(alloc, attrs)?;
    let renditions = rendition_words(alloc, attrs)?;
    let semantic = semantic_word(attrs.semantic_type());
    let value = json!(in alloc; {
        "colors": colors,
        "link": link_uri(attrs),
        "looks": renditions,
        "semantic_type": semantic,
        "wrapped": attrs.wrapped()
    })?;
    Ok(value)
}

// A run as a JSON value.
#[tactic(auto, unfolding(crate::specs::Json::run_data))]
fn run_value(alloc: Global, run: &Run<'_>) -> Result<Value, AllocError>
    ensures { IfOk result (λ value. view value ≡ run_data run.now) }
{
    let attributes = attributes_value(alloc, run.attrs)?;
    let value = json!(in alloc; {
        "attributes": attributes,
        "column": run.column,
        "columns": run.columns,
        "text": &run.text,
        "width": run.width
    })?;
    Ok(value)
}

// The runs of a line.
#[tactic(auto, unfolding(crate::specs::Json::row_data))]
fn row_value(alloc: Global, line: &Line) -> Result<Value, AllocError>
    ensures { IfOk result (λ value. view value ≡ row_data line.now.columns) }
{
    let runs = line_runs(alloc, line)?;
    let mut values = Vec::new(alloc);
    for run in &runs {
        values.push(run_value(alloc, run)?)?;
    }
    Ok(Value::Array(values))
}

// The rows of a screen.
#[tactic(auto, unfolding(crate::specs::Json::rows_data))]
fn rows_value(alloc: Global, lines: &[Line]) -> Result<Value, AllocError>
    ensures { IfOk result (λ value. view value ≡ rows_data (map (λ line. line.columns) lines.now)) }
{
    let mut values = Vec::new(alloc);
    for line in lines {
        values.push(row_value(alloc, line)?)?;
    }
    Ok(Value::Array(values))
}

// The cursor: column, row and whether it is visible.
#[tactic(auto, unfolding(crate::specs::Json::cursor_data))]
fn cursor_value(
    alloc: Global,
    column: usize,
    row: usize,
    visible: bool,
) -> Result<Value, AllocError>
    ensures { IfOk result (λ value. view value ≡ cursor_data column row visible) }
{
    let value = json!(in alloc; {"column": column, "row": row, "visible": visible})?;
    Ok(value)
}

// Sets the members of a screen's size.
fn put_size(
    map: &mut Map<String, Value>,
    alloc: Global,
    width: usize,
    height: usize,
) -> Result<(), AllocError>
    ensures { OnOk result
        (members_view map.new.entries
        ≡ with_member (codes "height") (number (unsigned height))
        (with_member (codes "width") (number (unsigned width)) (members_view map.old.entries))) }
{
    put(map, alloc, "width", Value::from(width))?;
    put(map, alloc, "height", Value::from(height))?;
    Ok(())
}

// Sets the member of a screen's title.
fn put_title(map: &mut Map<String, Value>, alloc: Global, title: &str) -> Result<(), AllocError>
    ensures { OnOk result
        (members_view map.new.entries ≡ with_member (codes "title") (string title.now) (members_view map.old.entries)) }
{
    let text = String::from_str(alloc, title)?;
    put(map, alloc, "title", Value::String(text))?;
    Ok(())
}

// A screen as a JSON value.
#[tactic(auto, unfolding(crate::specs::Json::screen_object))]
fn screen_value<W: Widths + Drop>(alloc: Global, surface: &Surface<W>) -> Result<Value, AllocError>
    ensures { IfOk result (λ value. view value ≡ screen_data (shown_by surface.now).screen) }
{
    let (column, row) = surface.cursor_position();
    let visible = surface.cursor_visibility() == CursorVisibility::Visible;
    let (width, height) = surface.dimensions();
    let mut map = Map::new(alloc);
    put_size(&mut map, alloc, width, height)?;
    put_title(&mut map, alloc, surface.title())?;
    put(
        &mut map,
        alloc,
        "cursor",
        cursor_value(alloc, column, row, visible)?,
    )?;
    put(
        &mut map,
        alloc,
        "rows",
        rows_value(alloc, surface.screen_lines())?,
    )?;
    Ok(Value::Object(map))
}

/// Writes a screen as JSON, in one line:
///
/// - `width` and `height`, columns and rows; `title`;
/// - `cursor`: `column` and `row`, counted from 0, and whether it is `visible`; the column is the width while a wrap is
///   pending;
/// - `rows`, each a list of runs: `text`, the texts of its cells, joined; `column`, the first column of the first cell,
///   counted from 0; `columns`, how many columns all its cells take, and `width`, how many each cell takes; and
///   `attributes`;
/// - `attributes` has `colors`: `foreground`, `background` and `underline`, each empty for the default colour, the
///   index of a palette colour, or `#rrggbb` for any other; `looks`, the words of `rendition_words`; `link`, a URI of
///   the scheme http, https, mailto or file, or else empty; `wrapped`, whether the line goes on in the next row after
///   the cell; and `semantic_type`: `output`, `input` or `prompt`.
///
/// Of a surface that has failed the contract says only that its cells are written.
pub fn write_json<W: Widths + Drop>(
    alloc: Global,
    out: &mut String,
    surface: &Surface<W>,
) -> Result<(), AllocError>
    ensures text { OnOk result
        (string_bytes out.new ≡ string_bytes out.old ++ json_text (shown_by surface.now).screen) }
    ensures reads { OnOk result
        (read (json_text (shown_by surface.now).screen) ≡ Some (screen_data (shown_by surface.now).screen)) }
{
    let text = screen_value(alloc, surface)?.to_string(alloc)?;
    out.push_str(&text)?;
    Ok(())
}
