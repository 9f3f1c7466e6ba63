//! Lines that are made, edited and asked.
use crate::call::Call;
use crate::fault::Fault;
use crate::keeping::Keeping;
use crate::row::Row;
use crate::sheet::Sheet;
use crate::{changes, edits, makers, questions, runs};
use cell_base::{CellAttributes, ProgramWidth};
use cell_line::Line;
use std::alloc::{AllocError, Global};

/// What calls work on: a line, the lines that were cut off it, and the attributes of the cells and texts that calls are
/// given.
#[derive(Drop)]
pub struct Page {
    pub line: Line,
    pub rows: Vec<Line>,
    pub pen: CellAttributes,
}

/// Writes `refused` where a call was refused memory.
pub fn say_outcome(outcome: Result<(), AllocError>, sheet: &mut Sheet) {
    sheet.word_if(outcome.is_err(), "refused");
}

// Makes a call that gives another line, one that edits it, or one that asks something.
fn make_or_ask(page: &mut Page, call: &Call<'_>, sheet: &mut Sheet) -> Result<(), Fault> {
    if makers::make(page, call, sheet)? {
        Ok(())
    } else if edits::edit(&mut page.line, call, &page.pen, sheet)? {
        Ok(())
    } else {
        questions::ask(&page.line, call, sheet)
    }
}

// Makes one call.
fn make_call(page: &mut Page, call: &Call<'_>, sheet: &mut Sheet) -> Result<(), Fault> {
    match call.word(0) {
        "changes" => changes::say(&page.line, &page.pen, sheet),
        "set_blanks" | "set_plain" | "set_text" => {
            runs::set(&mut page.line, call, &page.pen, sheet)
        }
        "visible_cells_between" => runs::say_between(&page.line, call, sheet),
        _ => make_or_ask(page, call, sheet),
    }
}

// A page with the line of a text, its attributes plain and its number 0.
fn page_of(alloc: Global, text: &str) -> Result<Page, Fault> {
    Ok(Page {
        line: Line::try_from_text(alloc, text, &ProgramWidth)?,
        rows: Vec::new(alloc),
        pen: CellAttributes::blank(),
    })
}

// The page after the calls of a row, which have `; ` between them. The line is brought into the form of `keeping`
// before each call and after the last.
fn page_after(row: &Row<'_>, keeping: Keeping, sheet: &mut Sheet) -> Result<Page, Fault> {
    let text = row.text(0)?;
    let mut page = page_of(row.alloc(), text.as_str())?;
    for words in row.column(1).split(';') {
        let call = Call::read(row.alloc(), words)?;
        keeping.keep(&mut page.line)?;
        make_call(&mut page, &call, sheet)?;
    }
    keeping.keep(&mut page.line)?;
    Ok(page)
}

// The size at which the line is shown.
fn size_of(line: &Line) -> &'static str {
    if line.is_double_width() {
        "double width"
    } else if line.is_double_height_top() {
        "double height, top"
    } else if line.is_double_height_bottom() {
        "double height, bottom"
    } else {
        "single"
    }
}

// The line's text, columns, number and size.
fn say_line(line: &Line, sheet: &mut Sheet) -> Result<(), Fault> {
    let text = line.columns_as_str(0..usize::MAX)?;
    let whole = line.as_str()?;
    sheet.quoted(whole.as_str());
    sheet.word_if(text.as_str() != whole.as_str(), "(in columns another)");
    sheet.column();
    sheet.show(&line.len());
    sheet.column();
    sheet.show(&line.current_seqno());
    sheet.column();
    let size = size_of(line);
    sheet.word(size);
    sheet.word_if(line.is_single_width() != (size == "single"), "(or not)");
    Ok(())
}

// Writes what the calls of a row answer where the line is kept in this form, and, if `is_shown`, the line after them.
fn say_after(
    row: &Row<'_>,
    keeping: Keeping,
    is_shown: bool,
    sheet: &mut Sheet,
) -> Result<Page, Fault> {
    let page = page_after(row, keeping, sheet)?;
    if is_shown {
        say_line(&page.line, sheet)?;
    }
    Ok(page)
}

// Whether the answers of a row and the line after its calls are these, however the line is kept.
fn is_kept_alike(row: &Row<'_>, is_shown: bool, page: &Page, sheet: &Sheet) -> Result<bool, Fault> {
    for keeping in &[Keeping::Clustered, Keeping::Opened] {
        let mut answers = Sheet::new(row.alloc());
        let other = say_after(row, *keeping, is_shown, &mut answers)?;
        if other.line != page.line || !answers.is_as(sheet) {
            return Ok(false);
        }
    }
    Ok(true)
}

// Writes a row's answers, which must be the same however the line is kept.
fn say_each_way(row: &Row<'_>, is_shown: bool, sheet: &mut Sheet) -> Result<(), Fault> {
    let page = say_after(row, Keeping::AsMade, is_shown, sheet)?;
    let is_alike = is_kept_alike(row, is_shown, &page, sheet)?;
    sheet.word_if(!is_alike, "(kept otherwise another)");
    Ok(())
}

/// `TEXT | CALLS => TEXT | COLUMNS | NUMBER | SIZE`: the line of a text with number 0 after these calls; the same
/// where the line is made clustered before each of them, and where it is opened to cells again.
pub fn edited(row: &Row<'_>, sheet: &mut Sheet) -> Result<(), Fault> {
    say_each_way(row, true, sheet)
}

/// `TEXT | CALLS => ANSWERS`: what these calls return on the line of a text; the same where the line is made clustered
/// before each of them, and where it is opened to cells again.
pub fn asked(row: &Row<'_>, sheet: &mut Sheet) -> Result<(), Fault> {
    say_each_way(row, false, sheet)
}

/// `TEXT | CALLS => ANSWERS`: what these calls return on the line of a text, which is kept as they leave it.
pub fn kept(row: &Row<'_>, sheet: &mut Sheet) -> Result<(), Fault> {
    page_after(row, Keeping::AsMade, sheet)?;
    Ok(())
}
