//! The parts of the stack that can be measured.
use crate::{lists, resizes, surfaces};
use escape_stream::{Parser, encode};
use std::alloc::Global;
use terminal::{ProgramWidth, Terminal};

pub const NAMES: &str = "\
bench parse | pieces | collect | encode | show | read_list | write_list | lines | words | due | due_large | large \
| patch | resizes, and how often";

/// A part of the stack.
#[derive(Clone, Copy)]
pub enum Part {
    /// `Parser::parse`, with a callback that counts.
    Parse,
    /// `Parser::pieces`, to their end.
    Pieces,
    /// `Parser::parse_as_vec`.
    Collect,
    /// `Parser::parse_as_vec`, and `encode` of its actions.
    Encode,
    /// A terminal of 80 columns and 24 rows that is fed, and its rows.
    Show,
    /// The control sequence at the start, read.
    ReadList,
    /// The actions of the control sequence at the start, written.
    WriteList,
    /// Lines that are added to a surface.
    Lines,
    /// Words and attributes in turn that are added to a surface.
    Words,
    /// Lines that are added to a surface, and the changes after each.
    Due,
    /// Lines that are added to a surface of 1600 columns and 480 rows, and the changes after each.
    DueLarge,
    /// A surface of 2000 columns and 500 rows, its difference and its repaint.
    Large,
    /// Two surfaces of which one letter differs, and their difference.
    Patch,
    /// A terminal that is fed and resized in turn.
    Resizes,
}

impl Part {
    /// The part of that name.
    pub fn named(name: &str) -> Option<Part> {
        match name {
            "parse" => Some(Part::Parse),
            "pieces" => Some(Part::Pieces),
            "collect" => Some(Part::Collect),
            "encode" => Some(Part::Encode),
            "show" => Some(Part::Show),
            "read_list" => Some(Part::ReadList),
            "write_list" => Some(Part::WriteList),
            _ => Part::of_surfaces(name),
        }
    }

    // The part of that name that changes surfaces or sizes.
    fn of_surfaces(name: &str) -> Option<Part> {
        match name {
            "lines" => Some(Part::Lines),
            "words" => Some(Part::Words),
            "due" => Some(Part::Due),
            "due_large" => Some(Part::DueLarge),
            "large" => Some(Part::Large),
            "patch" => Some(Part::Patch),
            "resizes" => Some(Part::Resizes),
            _ => None,
        }
    }

    /// Runs the part over the input `count` times, and returns a number that depends on all its results.
    pub fn run(self, alloc: Global, input: &[u8], count: u32) -> Option<u64> {
        match self {
            Part::ReadList => lists::read(alloc, input, count),
            Part::WriteList => lists::write(alloc, input, count),
            Part::Lines => surfaces::lines(alloc, input, count),
            Part::Words => surfaces::words(alloc, input, count),
            Part::Due => surfaces::due(alloc, input, 80, 24, count),
            Part::DueLarge => surfaces::due(alloc, input, 1600, 480, count),
            Part::Patch => surfaces::patch(alloc, input, count),
            Part::Resizes => resizes::resizes(alloc, input, count),
            _ => self.run_on_stream(alloc, input, count),
        }
    }

    fn run_on_stream(self, alloc: Global, input: &[u8], count: u32) -> Option<u64> {
        let mut sum = 0u64;
        for _ in 0..count {
            sum = sum.wrapping_add(self.run_once(alloc, input)?);
        }
        Some(sum)
    }

    fn run_once(self, alloc: Global, input: &[u8]) -> Option<u64> {
        match self {
            Part::Parse => parse(alloc, input),
            Part::Pieces => pieces(alloc, input),
            Part::Collect => collect(alloc, input),
            Part::Encode => write(alloc, input),
            Part::Show => show(alloc, input),
            _ => surfaces::large(alloc, input),
        }
    }
}

// Each part is a function of its own, so that no other's loop takes its registers.
#[inline(never)]
fn parse(alloc: Global, input: &[u8]) -> Option<u64> {
    let mut sum = 0u64;
    let mut parser = Parser::new(alloc);
    parser.parse(input, |_| sum = sum.wrapping_add(1)).ok()?;
    Some(sum)
}

#[inline(never)]
fn pieces(alloc: Global, input: &[u8]) -> Option<u64> {
    let mut sum = 0u64;
    let mut parser = Parser::new(alloc);
    for piece in parser.pieces(input) {
        let _ = piece.ok()?;
        sum = sum.wrapping_add(1);
    }
    Some(sum)
}

#[inline(never)]
fn collect(alloc: Global, input: &[u8]) -> Option<u64> {
    let actions = Parser::new(alloc).parse_as_vec(input).ok()?;
    Some(actions.len() as u64)
}

#[inline(never)]
fn write(alloc: Global, input: &[u8]) -> Option<u64> {
    let actions = Parser::new(alloc).parse_as_vec(input).ok()?;
    let bytes = encode(alloc, &actions).ok()?;
    Some(bytes.len() as u64)
}

#[inline(never)]
fn show(alloc: Global, input: &[u8]) -> Option<u64> {
    let mut terminal = Terminal::new(alloc, 80, 24, ProgramWidth).ok()?;
    terminal.feed(input).ok()?;
    terminal.settle().ok()?;
    let rows = terminal.surface().screen_chars_to_string().ok()?;
    Some(rows.len() as u64)
}
