//! Random scripts of changes on a small surface, against a plain program that draws them column by column.
use cell_surface::{Change, ColorAttribute, Position, ProgramWidth, Surface};
use std::alloc::Global;

const WIDTH: usize = 5;

const HEIGHT: usize = 3;
// A character of two columns, and the mark of its second column.
const WIDE: char = '\u{304b}';

const HALF: char = '\u{0}';

// The columns row by row, and the cursor.
#[derive(Drop)]
struct Drawing {
    alloc: Global,
    columns: Vec<char>,
    column: usize,
    row: usize,
}

// The column at a distance from the start, the end or the cursor.
fn column_from(from: usize, position: Position) -> usize {
    match position {
        Position::Absolute(WIDTH) => WIDTH,
        _ => position_from(WIDTH, from, position),
    }
}

fn position_from(size: usize, from: usize, position: Position) -> usize {
    let last = size.saturating_sub(1);
    match position {
        Position::Absolute(at) => at.min(last),
        Position::EndRelative(back) => size.saturating_sub(back).min(last),
        Position::Relative(way) if way < 0 => from.saturating_sub(way.unsigned_abs()),
        Position::Relative(way) => from.saturating_add(way.unsigned_abs()).min(last),
    }
}

fn position(row: usize, column: usize) -> usize {
    row.saturating_mul(WIDTH).saturating_add(column)
}

impl Drawing {
    fn at(&self, row: usize, column: usize) -> char {
        if column < WIDTH {
            self.columns
                .get(position(row, column))
                .copied()
                .unwrap_or(' ')
        } else {
            ' '
        }
    }

    fn set(&mut self, column: usize, character: char) {
        let position = position(self.row, column);
        if column < WIDTH && position < self.columns.len() {
            self.columns[position] = character;
        }
    }

    // Where the column's left edge splits a wide character, that character becomes two blanks.
    fn cut(&mut self, column: usize) {
        if self.at(self.row, column) == HALF {
            self.set(column.saturating_sub(1), ' ');
            self.set(column, ' ');
        }
    }

    // The rows of a region move up or down, and blank rows take their place.
    fn scroll(&mut self, first: usize, size: usize, count: usize, up: bool) -> Option<()> {
        let end = first.saturating_add(size).min(HEIGHT);
        let mut columns = Vec::new(self.alloc);
        for row in 0..HEIGHT {
            let from = source(row, first, end, count, up);
            for column in 0..WIDTH {
                columns.push(self.at(from, column)).ok()?;
            }
        }
        self.columns = columns;
        Some(())
    }

    fn line_feed(&mut self) -> Option<()> {
        let next = self.row.saturating_add(1);
        if next < HEIGHT {
            self.row = next;
            return Some(());
        }
        self.scroll(0, HEIGHT, 1, true)
    }

    fn put(&mut self, character: char) -> Option<()> {
        let count = if character == WIDE { 2 } else { 1 };
        if WIDTH < self.column.saturating_add(count) {
            self.line_feed()?;
            self.column = 0;
        }
        let end = self.column.saturating_add(count);
        self.cut(self.column);
        self.cut(end);
        self.set(end.saturating_sub(1), HALF);
        self.set(self.column, character);
        self.column = end;
        Some(())
    }

    fn text(&mut self, text: &str) -> Option<()> {
        for character in text.chars() {
            match character {
                '\r' => self.column = 0,
                '\n' => self.line_feed()?,
                '\t' => self.put(' ')?,
                _ => self.put(character)?,
            }
        }
        Some(())
    }

    fn clear_row(&mut self, from: usize) {
        self.cut(from);
        for column in from..WIDTH {
            self.set(column, ' ');
        }
    }

    fn clear_below(&mut self) {
        let row = self.row;
        self.clear_row(self.column);
        for below in row.saturating_add(1)..HEIGHT {
            self.row = below;
            self.clear_row(0);
        }
        self.row = row;
    }

    fn clear(&mut self) {
        self.column = 0;
        self.row = 0;
        self.clear_below();
    }

    // Draws a change.
    fn draw(&mut self, change: &Change) -> Option<()> {
        match change {
            Change::Text(text) => self.text(text.as_str())?,
            Change::ClearScreen(_) => self.clear(),
            Change::ClearToEndOfLine(_) => self.clear_row(self.column),
            Change::ClearToEndOfScreen(_) => self.clear_below(),
            Change::CursorPosition { x, y } => {
                self.column = column_from(self.column, *x);
                self.row = position_from(HEIGHT, self.row, *y);
            }
            Change::ScrollRegionUp {
                first_row,
                region_size,
                scroll_count,
            } => self.scroll(*first_row, *region_size, *scroll_count, true)?,
            Change::ScrollRegionDown {
                first_row,
                region_size,
                scroll_count,
            } => self.scroll(*first_row, *region_size, *scroll_count, false)?,
            _ => {}
        }
        Some(())
    }

    // The rows, each with a line feed.
    fn shown(&self) -> Option<String> {
        let mut text = String::new(self.alloc);
        for row in 0..HEIGHT {
            for column in 0..WIDTH {
                let character = self.at(row, column);
                if character != HALF {
                    text.push(character).ok()?;
                }
            }
            text.push('\n').ok()?;
        }
        Some(text)
    }
}

// The row whose text moves to `row`; `HEIGHT`, past the last row, where `row` becomes blank.
fn source(row: usize, first: usize, end: usize, count: usize, up: bool) -> usize {
    let below = row.saturating_add(count);
    if row < first || end <= row {
        row
    } else if up {
        if below < end { below } else { HEIGHT }
    } else if first.saturating_add(count) <= row {
        row.saturating_sub(count)
    } else {
        HEIGHT
    }
}

// Random numbers, the same each time.
#[derive(Drop)]
struct Random {
    state: u64,
}

impl Random {
    fn next(&mut self) -> u64 {
        self.state = self
            .state
            .wrapping_mul(6_364_136_223_846_793_005)
            .wrapping_add(1_442_695_040_888_963_407);
        self.state >> 33
    }

    // A number from 0 to 7.
    fn number(&mut self) -> usize {
        (self.next() & 7) as usize
    }

    fn position(&mut self) -> Position {
        match self.next() & 3 {
            0 => Position::Relative(2),
            1 => Position::Relative(-2),
            2 => Position::EndRelative(self.number()),
            _ => Position::Absolute(self.number()),
        }
    }

    fn text(&mut self, alloc: Global) -> Option<String> {
        let mut text = String::new(alloc);
        for _ in 0..self.number().max(1) {
            let character = match self.next() & 15 {
                0 => '\r',
                1 => '\n',
                2 => '\t',
                3 | 4 | 5 => WIDE,
                6 => ' ',
                7 | 8 => 'b',
                _ => 'a',
            };
            text.push(character).ok()?;
        }
        Some(text)
    }

    fn change(&mut self, alloc: Global) -> Option<Change> {
        let color = ColorAttribute::Default;
        Some(match self.next() & 15 {
            0 => Change::ClearScreen(color),
            1 | 2 => Change::ClearToEndOfLine(color),
            3 => Change::ClearToEndOfScreen(color),
            4 => Change::ScrollRegionUp {
                first_row: self.number(),
                region_size: self.number(),
                scroll_count: self.number(),
            },
            5 | 6 => Change::ScrollRegionDown {
                first_row: self.number() & 1,
                region_size: self.number(),
                scroll_count: self.number() & 3,
            },
            7..=9 => Change::CursorPosition {
                x: self.position(),
                y: self.position(),
            },
            _ => Change::Text(self.text(alloc)?),
        })
    }
}

// Draws random changes on a surface and on a drawing; returns whether they show the same after each.
fn are_alike(alloc: Global, seed: u64, count: u32) -> Option<bool> {
    let mut random = Random { state: seed };
    let mut surface = Surface::new(alloc, WIDTH, HEIGHT, ProgramWidth).ok()?;
    let mut drawing = Drawing {
        alloc,
        columns: Vec::new(alloc),
        column: 0,
        row: 0,
    };
    drawing.scroll(0, HEIGHT, HEIGHT, true)?;
    for _ in 0..count {
        let change = random.change(alloc)?;
        drawing.draw(&change)?;
        surface.add_change(change).ok()?;
        let rows = surface.screen_chars_to_string().ok()?;
        let position = (drawing.column, drawing.row);
        if rows.as_str() != drawing.shown()?.as_str() || surface.cursor_position() != position {
            return Some(false);
        }
    }
    Some(true)
}

#[test]
fn random_scripts_show_what_is_drawn(rt: HostRuntime) {
    for seed in 0..40 {
        assert_eq!(rt; are_alike(rt.alloc(), seed, 50), Some(true));
    }
}
