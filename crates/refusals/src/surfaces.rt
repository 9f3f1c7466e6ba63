//! Surfaces: a changing call that is refused memory leaves one that has failed, any other an unchanged one.
use crate::cells::LONG;
use crate::changes::{CHANGES, all_changes, change_of, text_of};
use crate::lines::line_of;
use crate::outcome::{Outcome, Stop, all, hold, refused};
use crate::tally::Tally;
use cell_line::Line;
use cell_surface::{Change, ProgramWidth, SequenceNo, Surface, SurfaceError};
use std::alloc::Global;
use std::io::Write;

type Plain = Surface<ProgramWidth>;

const ROWS: &str = "abcd\nef  \n    \n";

// A surface of 4x3 after a text.
fn surface_of(alloc: Global, text: &str) -> Result<Plain, Stop> {
    let mut surface = Surface::new(alloc, 4, 3, ProgramWidth)?;
    surface.add_change(text_of(alloc, text)?)?;
    Ok(surface)
}

// Whether the rows have this text.
fn shows(surface: &Plain, rows: &str) -> Outcome {
    Ok(surface.screen_chars_to_string()?.as_str() == rows)
}

// Whether a surface is the one of the text `abcdef`.
fn is_unchanged(surface: &Plain) -> Outcome {
    all(&[
        Ok(!surface.is_failed() && surface.current_seqno() == 1),
        Ok(surface.cursor_position() == (2, 1)),
        shows(surface, ROWS),
    ])
}

// Whether a result is `Failed`.
fn is_failed<T: Drop>(answer: Result<T, SurfaceError>) -> bool {
    matches!(answer, Err(SurfaceError::Failed))
}

// Whether each changing call of a surface, and `get_changes`, returns `Failed`, and dropping changes does nothing.
fn has_failed(alloc: Global, surface: &mut Plain, other: &Plain) -> bool {
    let title = Change::Title(String::new(alloc));
    let changed = hold(&[
        surface.is_failed(),
        is_failed(surface.add_change(title)),
        is_failed(surface.add_changes(Vec::new(alloc))),
        is_failed(surface.resize(2, 2)),
        is_failed(surface.draw_from_screen(other, 0, 0)),
        is_failed(surface.copy_region(0, 0, 2, 2, 1, 1)),
    ]);
    let number = surface.current_seqno();
    surface.flush_changes_older_than(number);
    changed && is_failed(surface.get_changes(0)) && surface.current_seqno() == number
}

// What follows a changing call that was refused.
fn ended(alloc: Global, error: SurfaceError, mut surface: Plain) -> Outcome {
    let other = Surface::new(alloc, 4, 3, ProgramWidth)?;
    refused(Stop::from(error), has_failed(alloc, &mut surface, &other))
}

// A new surface, and queries of it that take no memory.
fn new_surfaces(alloc: Global) -> Outcome {
    let mut surface = Surface::new(alloc, 4, 3, ProgramWidth)?;
    surface.flush_changes_older_than(0);
    let is_new = hold(&[
        surface.dimensions() == (4, 3),
        surface.title() == "",
        surface.cursor_shape().is_none(),
        !surface.has_changes(0),
        surface.screen_lines().len() == 3,
    ]);
    all(&[Ok(is_new), shows(&surface, "    \n    \n    \n")])
}

// A change of each kind.
fn changes(alloc: Global) -> Outcome {
    for kind in 0..CHANGES {
        let mut surface = surface_of(alloc, "abcdef")?;
        let change = change_of(alloc, kind)?;
        match surface.add_change(change) {
            Ok(1) if surface.current_seqno() == 2 => {}
            Ok(_) => return Ok(false),
            Err(error) => return ended(alloc, error, surface),
        }
    }
    Ok(true)
}

// A list of changes of each kind.
fn lists(alloc: Global) -> Outcome {
    let mut surface = surface_of(alloc, "abcdef")?;
    match surface.add_changes(all_changes(alloc)?) {
        Ok(number) => Ok(number == CHANGES && surface.current_seqno() == 1 + CHANGES),
        Err(error) => ended(alloc, error, surface),
    }
}

// A long text, in the memory of one that the log has dropped where there is one.
fn long_text(surface: &mut Plain) -> Result<String, Stop> {
    let mut text = surface.pooled_text();
    text.push_str("a")?;
    text.push_str(LONG)?;
    text.push_str("b\r\n")?;
    Ok(text)
}

// Long texts, which scroll.
fn long_texts(alloc: Global) -> Outcome {
    let mut surface = Surface::new(alloc, 4, 3, ProgramWidth)?;
    for _ in 0..20 {
        let text = long_text(&mut surface)?;
        if let Err(error) = surface.add_change(text) {
            return ended(alloc, error, surface);
        }
    }
    Ok(surface.cursor_position() == (0, 2) && surface.current_seqno() == 20)
}

// Another size.
fn resized(alloc: Global) -> Outcome {
    let mut surface = surface_of(alloc, "abcdef")?;
    match surface.resize(6, 4) {
        Ok(()) => shows(&surface, "abcd  \nef    \n      \n      \n"),
        Err(error) => ended(alloc, error, surface),
    }
}

// A surface on which another one is drawn.
fn drawn(alloc: Global) -> Outcome {
    let other = surface_of(alloc, "\u{304b}x")?;
    let mut surface = surface_of(alloc, "abcdef")?;
    match surface.draw_from_screen(&other, 1, 1) {
        Ok(_) => shows(&surface, "abcd\ne\u{304b}x\n    \n"),
        Err(error) => ended(alloc, error, surface),
    }
}

// A region that is copied.
fn copied(alloc: Global) -> Outcome {
    let mut surface = surface_of(alloc, "abcdef")?;
    match surface.copy_region(0, 0, 2, 2, 2, 1) {
        Ok(_) => shows(&surface, "abcd\nefab\n  ef\n"),
        Err(error) => ended(alloc, error, surface),
    }
}

// The changes from a number on, or the changes of a repaint.
fn due(surface: &Plain, number: SequenceNo, count: usize) -> Outcome {
    match surface.get_changes(number) {
        Ok((now, changes)) => Ok(now == 1 && changes.len() == count),
        Err(error) => refused(Stop::from(error), is_unchanged(surface)?),
    }
}

// Requests of changes.
fn changes_due(alloc: Global) -> Outcome {
    let surface = surface_of(alloc, "abcdef")?;
    all(&[due(&surface, 1, 0), due(&surface, 0, 7)])
}

// A difference, or what follows one that was refused.
fn is_difference(
    surface: &Plain,
    answer: Result<Vec<Change>, SurfaceError>,
    count: usize,
) -> Outcome {
    match answer {
        Ok(changes) => all(&[Ok(changes.len() == count), is_unchanged(surface)]),
        Err(error) => refused(Stop::from(error), is_unchanged(surface)?),
    }
}

// Differences of surfaces and of regions.
fn differences(alloc: Global) -> Outcome {
    let surface = surface_of(alloc, "abcdef")?;
    let other = surface_of(alloc, "abxdef\u{304b}")?;
    let screens = is_difference(&surface, surface.diff_screens(&other), 5);
    let region = surface.diff_region(1, 0, 3, 2, &other, 1, 0);
    all(&[screens, is_difference(&surface, region, 5)])
}

// The difference against a line by its number.
fn numbered_line(surface: &Plain, line: &Line) -> Outcome {
    is_difference(surface, surface.diff_against_numbered_line(0, line), 5)
}

// The difference against a list of one line.
fn listed_line(alloc: Global, surface: &Plain, line: &Line) -> Outcome {
    let mut lines = Vec::new(alloc);
    lines.push(line)?;
    is_difference(surface, surface.diff_lines(lines), 5)
}

// Differences against lines.
fn differences_of_lines(alloc: Global) -> Outcome {
    let surface = surface_of(alloc, "abcdef")?;
    let line = line_of(alloc, "axcx", 0)?;
    all(&[
        numbered_line(&surface, &line),
        listed_line(alloc, &surface, &line),
    ])
}

// Whether there are three rows of cells to copy out.
fn has_cells(surface: &Plain) -> Outcome {
    match surface.screen_cells() {
        Ok(cells) => Ok(cells.len() == 3),
        Err(_) => refused(Stop::Memory, is_unchanged(surface)?),
    }
}

// Whether a copy of the surface is equal.
fn has_copy(surface: &Plain) -> Outcome {
    match surface.try_clone() {
        Ok(copy) => is_unchanged(&copy),
        Err(_) => refused(Stop::Memory, is_unchanged(surface)?),
    }
}

// Rows and cells that are copied out, and a copy of the surface.
fn readings(alloc: Global) -> Outcome {
    let surface = surface_of(alloc, "abcdef")?;
    all(&[
        has_cells(&surface),
        has_copy(&surface),
        is_unchanged(&surface),
    ])
}

/// Checks surfaces.
pub fn check<W: Write>(alloc: Global, tally: &mut Tally<W>) {
    tally.take("new surfaces", new_surfaces(alloc));
    tally.take("changes of a surface", changes(alloc));
    tally.take("lists of changes of a surface", lists(alloc));
    tally.take("long texts of a surface", long_texts(alloc));
    tally.take("other sizes of a surface", resized(alloc));
    tally.take("surfaces that are drawn", drawn(alloc));
    tally.take("regions that are copied", copied(alloc));
    tally.take("changes that are due", changes_due(alloc));
    tally.take("differences of surfaces", differences(alloc));
    tally.take("differences against lines", differences_of_lines(alloc));
    tally.take("cells and copies of a surface", readings(alloc));
}
