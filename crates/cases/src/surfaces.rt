//! Surfaces that are changed and asked by steps.
use crate::call::Call;
use crate::fault::Fault;
use crate::row::{Row, number_up_to};
use crate::sheet::Sheet;
use crate::{attributes, changes, steps, stored};
use cell_base::{CellAttributes, CursorVisibility, ProgramWidth};
use cell_line::Line;
use cell_surface::Surface;
use screen_change::Change;
use std::alloc::Global;
use std::mem;

type Plain = Surface<ProgramWidth>;

// The most columns and rows of a case.
const MOST: usize = 100_000;

// The surface that steps work on, another one, and what the last change answered.
#[derive(Drop)]
struct Stage {
    surface: Plain,
    other: Plain,
    answer: usize,
}

// A surface of the width and height in two words.
fn surface_of(alloc: Global, width: &str, height: &str) -> Result<Plain, Fault> {
    let width = number_up_to(MOST, width)?;
    let height = number_up_to(MOST, height)?;
    Ok(Surface::new(alloc, width, height, ProgramWidth)?)
}

// Texts that are added together.
fn texts_of(call: &Call<'_>) -> Result<Vec<Change>, Fault> {
    let mut texts = Vec::new(call.alloc());
    for source_line in 1..1 + call.words_from(1).len() {
        texts.push(Change::Text(call.text(source_line)?))?;
    }
    Ok(texts)
}

// A step that changes the surface.
fn change(stage: &mut Stage, call: &Call<'_>, sheet: &mut Sheet) -> Result<(), Fault> {
    match call.word(0) {
        "swap" => mem::swap(&mut stage.surface, &mut stage.other),
        "other" => stage.other = surface_of(call.alloc(), call.word(1), call.word(2))?,
        "resize" => {
            let width = number_up_to(MOST, call.word(1))?;
            let height = number_up_to(MOST, call.word(2))?;
            stage.surface.resize(width, height)?;
        }
        "flush" => stage
            .surface
            .flush_changes_older_than(call.number(1, sheet)),
        "texts" => stage.answer = stage.surface.add_changes(texts_of(call)?)?,
        "draw" => {
            let (x, y) = (call.number(1, sheet), call.number(2, sheet));
            stage.answer = stage.surface.draw_from_screen(&stage.other, x, y)?;
        }
        "copy" => {
            stage.answer = stage.surface.copy_region(
                call.number(1, sheet),
                call.number(2, sheet),
                call.number(3, sheet),
                call.number(4, sheet),
                call.number(5, sheet),
                call.number(6, sheet),
            )?;
        }
        _ => stage.answer = stage.surface.add_change(steps::change_of(call, sheet)?)?,
    }
    Ok(())
}

// The number and the changes that are due from a number on.
fn say_changes(surface: &Plain, seq: usize, sheet: &mut Sheet) -> Result<(), Fault> {
    let (number, changes) = surface.get_changes(seq)?;
    sheet.show(&number);
    changes::say_all(&changes, sheet);
    Ok(())
}

// The difference of a region of both surfaces, of all, or against lines of texts.
fn difference(stage: &Stage, call: &Call<'_>, sheet: &mut Sheet) -> Result<Vec<Change>, Fault> {
    match call.word(0) {
        "diff_screens" => Ok(stage.surface.diff_screens(&stage.other)?),
        "diff_region" => Ok(
            stage.surface.diff_region(
                call.number(1, sheet),
                call.number(2, sheet),
                call.number(3, sheet),
                call.number(4, sheet),
                &stage.other,
                call.number(5, sheet),
                call.number(6, sheet),
            )?,
        ),
        "diff_line" => {
            let text = call.text(2)?;
            let line = Line::try_from_text(call.alloc(), text.as_str(), &ProgramWidth)?;
            Ok(
                stage
                    .surface
                    .diff_against_numbered_line(call.number(1, sheet), &line)?,
            )
        }
        _ => {
            let text = call.text(1)?;
            let line = Line::try_from_text(call.alloc(), text.as_str(), &ProgramWidth)?;
            let mut lines = Vec::new(call.alloc());
            lines.push(&line)?;
            Ok(stage.surface.diff_lines(lines)?)
        }
    }
}

// The cells of each row, with the attributes of those that aren't plain.
fn say_cells(surface: &Plain, sheet: &mut Sheet) -> Result<(), Fault> {
    let rows = surface.screen_cells()?;
    for row in &rows {
        for cell in row {
            sheet.quoted(cell.str());
            if *cell.attrs() != CellAttributes::blank() {
                attributes::say(cell.attrs(), sheet);
            }
        }
    }
    Ok(())
}

// What each row keeps.
fn say_stored(surface: &Plain, sheet: &mut Sheet) {
    for line in surface.screen_lines() {
        stored::say(line, sheet);
    }
}

// The size of each row.
fn say_sizes(surface: &Plain, sheet: &mut Sheet) {
    for line in surface.screen_lines() {
        sheet.word_if(line.is_single_width(), "single_width");
        sheet.word_if(line.is_double_height_top(), "top_half");
        sheet.word_if(line.is_double_height_bottom(), "bottom_half");
        sheet.word_if(line.is_double_width(), "double_width");
    }
}

/// Answers a query of a surface by itself; returns whether the step is a query.
pub fn ask_surface(surface: &Plain, call: &Call<'_>, sheet: &mut Sheet) -> Result<bool, Fault> {
    match call.word(0) {
        "rows" => sheet.word(surface.screen_chars_to_string()?.as_str()),
        "cursor" => {
            let (column, row) = surface.cursor_position();
            sheet.show(&column);
            sheet.show(&row);
            sheet.word_if(
                surface.cursor_visibility() == CursorVisibility::Hidden,
                "hidden",
            );
        }
        "pen?" => attributes::say(surface.pen(), sheet),
        "title?" => sheet.quoted(surface.title()),
        "number" => sheet.show(&surface.current_seqno()),
        "cells" => say_cells(surface, sheet)?,
        "sizes" => say_sizes(surface, sheet),
        "stored" => say_stored(surface, sheet),
        "changes" => say_changes(surface, call.number(1, sheet), sheet)?,
        _ => return Ok(false),
    }
    Ok(true)
}

// Answers a query of the surface, or of both; returns whether the step is a query.
fn ask(stage: &Stage, call: &Call<'_>, sheet: &mut Sheet) -> Result<bool, Fault> {
    match call.word(0) {
        "answer" => sheet.show(&stage.answer),
        "diff_screens" | "diff_region" | "diff_line" | "diff_lines" => {
            let changes = difference(stage, call, sheet)?;
            changes::say_all(changes.as_slice(), sheet);
        }
        _ => return ask_surface(&stage.surface, call, sheet),
    }
    Ok(true)
}

/// `WIDTH HEIGHT | STEPS => ANSWERS`: what these steps, with `; ` between them, return on a new surface.
pub fn surface(row: &Row<'_>, sheet: &mut Sheet) -> Result<(), Fault> {
    let (width, height) = row.column(0).split_once(' ').ok_or(Fault::Number)?;
    let mut stage = Stage {
        surface: surface_of(row.alloc(), width, height)?,
        other: surface_of(row.alloc(), width, height)?,
        answer: 0,
    };
    for words in row.column(1).split(';') {
        let call = Call::read(row.alloc(), words)?;
        if !ask(&stage, &call, sheet)? {
            change(&mut stage, &call, sheet)?;
        }
    }
    Ok(())
}
