//! Lists of changes that know where they leave the cursor.
use crate::call::Call;
use crate::fault::Fault;
use crate::row::{Row, number_up_to};
use crate::sheet::Sheet;
use crate::{changes, steps};
use cell_base::ProgramWidth;
use cell_surface::ChangeSequence;

type Plain = ChangeSequence<ProgramWidth>;

// A row, which may be negative.
fn row_of(word: &str) -> Result<isize, Fault> {
    match word.parse::<isize>() {
        Ok(row) => Ok(row),
        Err(_) => Err(Fault::Number),
    }
}

// A step that adds a change, or asks something.
fn step(sequence: &mut Plain, call: &Call<'_>, sheet: &mut Sheet) -> Result<(), Fault> {
    match call.word(0) {
        "move_to" => {
            let source_line = (call.number(1, sheet), row_of(call.word(2))?);
            sequence.move_to(source_line)?;
        }
        "cursor" => {
            let (column, row) = sequence.current_cursor_position();
            sheet.show(&column);
            sheet.show(&row);
        }
        "height" => sheet.show(&sequence.render_height()),
        "changes" => {
            let copy = sequence.try_clone()?;
            changes::say_all(copy.consume().as_slice(), sheet);
        }
        _ => sequence.add(steps::change_of(call, sheet)?)?,
    }
    Ok(())
}

/// `ROWS COLUMNS | STEPS => ANSWERS`: what these steps, with `; ` between them, return on a new sequence.
pub fn sequence(row: &Row<'_>, sheet: &mut Sheet) -> Result<(), Fault> {
    let (rows, columns) = row.column(0).split_once(' ').ok_or(Fault::Number)?;
    let rows = number_up_to(4096, rows)?;
    let columns = number_up_to(4096, columns)?;
    let mut sequence = ChangeSequence::new(row.alloc(), rows, columns, ProgramWidth);
    for words in row.column(1).split(';') {
        let call = Call::read(row.alloc(), words)?;
        step(&mut sequence, &call, sheet)?;
    }
    Ok(())
}
