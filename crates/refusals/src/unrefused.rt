//! Calls that take no memory, on values that are made before: after these every request may be refused.
use crate::cells::{LONG, linked};
use crate::lines::line_of;
use crate::outcome::Stop;
use crate::sink::Sink;
use crate::tally::Tally;
use crate::terminals::Plain;
use crate::unrefused_screens::{are_lines_asked, is_surface_asked, is_terminal_asked, is_watched};
use crate::unrefused_values::{
    are_attributes_set, are_colors_made, are_texts_measured, is_cell_asked, is_list_asked,
};
use cell_base::{Cell, CellAttributes, Hyperlink, ProgramWidth};
use cell_line::Line;
use cell_surface::{Change, Surface};
use csi_codec::{Cracked, CsiParam};
use std::alloc::Global;
use std::io::Write;
use std::rc::Rc;
use terminal::Terminal;

/// Values of which calls are made that take no memory.
#[derive(Drop)]
struct Values {
    pens: Pens,
    list: Cracked,
    screens: Screens,
}

// Attributes with a link, a link, and a cell of a long text with these attributes.
#[derive(Drop)]
struct Pens {
    attrs: CellAttributes,
    link: Option<Rc<Hyperlink>>,
    cell: Cell,
}

// A line of texts and one of cells, a surface that has changes, and a terminal that has replies.
#[derive(Drop)]
struct Screens {
    line: Line,
    cells: Line,
    surface: Surface<ProgramWidth>,
    terminal: Plain,
}

fn make_pens(alloc: Global) -> Result<Pens, Stop> {
    let attrs = linked(alloc, Hyperlink::new(alloc, "u")?)?;
    let link = Some(Rc::new(alloc, Hyperlink::new(alloc, "v")?)?);
    let cell = Cell::new_grapheme(alloc, LONG, CellAttributes::blank(), &ProgramWidth)?;
    Ok(Pens { attrs, link, cell })
}

fn make_line_of_cells(alloc: Global) -> Result<Line, Stop> {
    let cell = Cell::new(alloc, '\u{304b}', CellAttributes::blank(), &ProgramWidth)?;
    Ok(Line::with_width_and_cell(alloc, 4, cell, 3)?)
}

fn make_surface(alloc: Global) -> Result<Surface<ProgramWidth>, Stop> {
    let mut surface = Surface::new(alloc, 4, 3, ProgramWidth)?;
    surface.add_change(Change::from(String::from_str(alloc, "abcdef")?))?;
    Ok(surface)
}

fn make_terminal(alloc: Global) -> Result<Plain, Stop> {
    let mut terminal = Terminal::new(alloc, 4, 3, ProgramWidth)?;
    terminal.feed(b"ab\x1b[6n")?;
    terminal.settle()?;
    Ok(terminal)
}

fn make_screens(alloc: Global) -> Result<Screens, Stop> {
    let line = line_of(alloc, "a\u{304b}b", 3)?;
    let cells = make_line_of_cells(alloc)?;
    let surface = make_surface(alloc)?;
    let terminal = make_terminal(alloc)?;
    Ok(Screens {
        line,
        cells,
        surface,
        terminal,
    })
}

// A number, an entry that is absent, and a number.
const LIST: [CsiParam; 4] = [
    CsiParam::Integer(1),
    CsiParam::P(b';'),
    CsiParam::P(b';'),
    CsiParam::Integer(3),
];

fn make_values(alloc: Global) -> Result<Values, Stop> {
    let pens = make_pens(alloc)?;
    let list = Cracked::parse(alloc, &LIST)?;
    let screens = make_screens(alloc)?;
    Ok(Values {
        pens,
        list,
        screens,
    })
}

// The calls of attributes and cells.
fn ask_pens<W: Write>(pens: &mut Pens, tally: &mut Tally<W>) {
    let Pens { attrs, link, cell } = pens;
    tally.take(
        "attributes without memory",
        Ok(are_attributes_set(attrs, link.take())),
    );
    tally.take("cells without memory", Ok(is_cell_asked(cell)));
}

// The calls of lines, surfaces and terminals.
fn ask_screens<W: Write>(screens: &mut Screens, tally: &mut Tally<W>) {
    let Screens {
        line,
        cells,
        surface,
        terminal,
    } = screens;
    tally.take("lines without memory", Ok(are_lines_asked(line, cells)));
    tally.take("surfaces without memory", Ok(is_surface_asked(surface)));
    tally.take("terminals without memory", Ok(is_terminal_asked(terminal)));
}

// All calls.
fn ask<W: Write>(alloc: Global, values: &mut Values, tally: &mut Tally<W>) {
    let Values {
        pens,
        list,
        screens,
    } = values;
    tally.take("colours without memory", Ok(are_colors_made()));
    tally.take("widths without memory", Ok(are_texts_measured()));
    ask_pens(pens, tally);
    tally.take("lists without memory", Ok(is_list_asked(alloc, list)));
    ask_screens(screens, tally);
    tally.take("readers without memory", Ok(is_watched(Sink::new())));
}

/// Makes the values alone.
pub fn make<W: Write>(alloc: Global, tally: &mut Tally<W>) {
    tally.take("values", make_values(alloc).map(|_| true));
}

/// Makes the values, and then the calls.
pub fn check<W: Write>(alloc: Global, tally: &mut Tally<W>) {
    match make_values(alloc) {
        Ok(mut values) => ask(alloc, &mut values, tally),
        Err(stop) => tally.take("values", Err(stop)),
    }
}
