//! Changes, and sequences of them that know where they leave the cursor.
use crate::cells::linked;
use crate::outcome::{Outcome, Stop, refused};
use crate::tally::Tally;
use cell_base::{
    AttributeChange, CellAttributes, ColorAttribute, CursorShape, CursorVisibility, Hyperlink,
    Intensity, LineAttribute, Position, ProgramWidth,
};
use cell_surface::{Change, ChangeSequence};
use std::alloc::Global;
use std::io::Write;

type Plain = ChangeSequence<ProgramWidth>;

/// How many changes `change_of` makes.
pub const CHANGES: usize = 14;

/// The change that is a text.
pub fn text_of(alloc: Global, text: &str) -> Result<Change, Stop> {
    Ok(Change::Text(String::from_str(alloc, text)?))
}

// Changes of texts and attributes.
fn written_change(alloc: Global, kind: usize) -> Result<Change, Stop> {
    Ok(match kind {
        0 => text_of(alloc, "\u{304b}cd\r\ne\tf")?,
        1 => Change::Title(String::from_str(alloc, "t")?),
        2 => Change::AllAttributes(linked(alloc, Hyperlink::new(alloc, "u")?)?),
        3 => Change::Attribute(AttributeChange::Intensity(Intensity::Bold)),
        _ => Change::LineAttribute(LineAttribute::DoubleWidthLine),
    })
}

// Changes of the cursor, and scrolls.
fn moving_change(kind: usize) -> Change {
    match kind {
        8 => Change::CursorPosition {
            x: Position::Absolute(1),
            y: Position::EndRelative(1),
        },
        9 => Change::CursorColor(ColorAttribute::PaletteIndex(1)),
        10 => Change::CursorShape(CursorShape::SteadyBar),
        11 => Change::CursorVisibility(CursorVisibility::Hidden),
        12 => Change::ScrollRegionUp {
            first_row: 0,
            region_size: 3,
            scroll_count: 1,
        },
        _ => Change::ScrollRegionDown {
            first_row: 0,
            region_size: 3,
            scroll_count: 1,
        },
    }
}

/// A change of each kind.
pub fn change_of(alloc: Global, kind: usize) -> Result<Change, Stop> {
    let red = ColorAttribute::PaletteIndex(1);
    Ok(match kind {
        0..=4 => written_change(alloc, kind)?,
        5 => Change::ClearScreen(red),
        6 => Change::ClearToEndOfLine(red),
        7 => Change::ClearToEndOfScreen(red),
        _ => moving_change(kind),
    })
}

/// A change of each kind, in a list.
pub fn all_changes(alloc: Global) -> Result<Vec<Change>, Stop> {
    let mut changes = Vec::new(alloc);
    for kind in 0..CHANGES {
        changes.push(change_of(alloc, kind)?)?;
    }
    Ok(changes)
}

// A copy of each change.
fn copies(alloc: Global) -> Outcome {
    for kind in 0..CHANGES {
        let change = change_of(alloc, kind)?;
        if change.try_clone()? != change {
            return Ok(false);
        }
    }
    Ok(true)
}

// A sequence after the text `abcde`.
fn sequence_of(alloc: Global) -> Result<Plain, Stop> {
    let mut sequence = ChangeSequence::new(alloc, 3, 4, ProgramWidth);
    sequence.add(text_of(alloc, "abcde")?)?;
    Ok(sequence)
}

// Whether a sequence is that of the text alone.
fn is_unchanged(sequence: &Plain) -> Outcome {
    let position = sequence.current_cursor_position();
    let copy = sequence.try_clone()?;
    Ok(position == (1, 1) && sequence.render_height() == 1 && copy.consume().len() == 1)
}

// Changes that are added one by one; a refused one changes nothing.
fn added(alloc: Global) -> Outcome {
    for kind in 0..CHANGES {
        let mut sequence = sequence_of(alloc)?;
        let change = change_of(alloc, kind)?;
        if sequence.add(change).is_err() {
            return refused(Stop::Memory, is_unchanged(&sequence)?);
        }
        if sequence.consume().len() != 2 {
            return Ok(false);
        }
    }
    Ok(true)
}

// A move, which changes nothing if it is refused.
fn moved(alloc: Global) -> Outcome {
    let mut sequence = sequence_of(alloc)?;
    if sequence.move_to((3, 2)).is_err() {
        return refused(Stop::Memory, is_unchanged(&sequence)?);
    }
    Ok(sequence.current_cursor_position() == (3, 2) && sequence.render_height() == 2)
}

/// Whether both lists have the same changes.
pub fn are_equal(changes: &[Change], others: &[Change]) -> bool {
    changes == others
}

// Whether a sequence is that of the text and of the first changes of the list.
fn has_first(alloc: Global, sequence: Plain) -> Outcome {
    let position = sequence.current_cursor_position();
    let height = sequence.render_height();
    let changes = sequence.consume();
    let mut other = sequence_of(alloc)?;
    for kind in 0..changes.len().saturating_sub(1) {
        other.add(change_of(alloc, kind)?)?;
    }
    let is_there = other.current_cursor_position() == position && other.render_height() == height;
    let others = other.consume();
    Ok(is_there && changes.len() <= CHANGES && are_equal(&changes, &others))
}

// A list that is added, and a copy; where it is refused, the changes before are added.
fn lists(alloc: Global) -> Outcome {
    let mut sequence = sequence_of(alloc)?;
    if sequence.add_changes(all_changes(alloc)?).is_err() {
        return refused(Stop::Memory, has_first(alloc, sequence)?);
    }
    let copy = sequence.try_clone()?;
    let position = sequence.current_cursor_position();
    Ok(copy.current_cursor_position() == position && copy.consume().len() == 1 + CHANGES)
}

// A change that is converted from another value.
fn converted(alloc: Global) -> Outcome {
    let mut sequence = ChangeSequence::new(alloc, 3, 4, ProgramWidth);
    sequence.add(AttributeChange::Italic(true))?;
    sequence.add(LineAttribute::SingleWidthLine)?;
    sequence.add(String::from_str(alloc, "a")?)?;
    let plain = Change::AllAttributes(CellAttributes::blank());
    sequence.add(plain)?;
    Ok(sequence.consume().len() == 4)
}

/// Checks changes and sequences of them.
pub fn check<W: Write>(alloc: Global, tally: &mut Tally<W>) {
    tally.take("copies of changes", copies(alloc));
    tally.take("changes added to a sequence", added(alloc));
    tally.take("moves added to a sequence", moved(alloc));
    tally.take("lists added to a sequence", lists(alloc));
    tally.take("values added to a sequence", converted(alloc));
}
