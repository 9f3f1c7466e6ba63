//! A text of cases, run line by line.
use crate::fault::Fault;
use crate::row::Row;
use crate::sheet::Sheet;
use crate::tally::Tally;
use crate::{escapes, kinds};
use std::alloc::Global;
use std::io::Write;

// The prefix of a case whose answer must differ from the one that is written.
const MUST_DIFFER: &str = "differs:";

/// The position of a line.
#[derive(Clone, Copy)]
struct SourceLine<'a> {
    file: &'a str,
    line: usize,
}

// The expected and the actual answer of a case.
#[derive(Drop)]
struct Outcome {
    expected: Vec<u8>,
    came: Vec<u8>,
}

// The bytes of the columns of an answer, with their escapes read, each but the first after a bar.
fn expected_of(alloc: Global, text: &str) -> Result<Vec<u8>, Fault> {
    let mut sheet = Sheet::new(alloc);
    let mut is_first = true;
    for column in text.split('|') {
        if !is_first {
            sheet.column();
        }
        is_first = false;
        sheet.add(&escapes::read(alloc, column.trim())?);
    }
    sheet.finish()
}

// Runs the case of a line.
fn outcome_of(alloc: Global, kind: &str, line: &str) -> Result<Outcome, Fault> {
    let (arguments, answer) = line.split_once(" =>").ok_or(Fault::Arrow)?;
    let row = Row::read(alloc, arguments)?;
    let expected = expected_of(alloc, answer)?;
    let mut sheet = Sheet::new(alloc);
    kinds::answer(kind, &row, &mut sheet)?;
    let came = sheet.finish()?;
    Ok(Outcome { expected, came })
}

// Writes the expected and the actual answer of a case.
fn write_outcome<W: Write>(
    alloc: Global,
    source_line: SourceLine<'_>,
    kind: &str,
    outcome: &Outcome,
    out: &mut W,
) -> Result<(), Fault> {
    let SourceLine { file, line } = source_line;
    let expected = escapes::written(alloc, &outcome.expected)?;
    let came = escapes::written(alloc, &outcome.came)?;
    let fault = if expected.as_str() == came.as_str() {
        "must differ"
    } else {
        "differs"
    };
    writeln!(
        out,
        "{file}:{line}: {kind} {fault}\n  expected  {expected}\n  came      {came}"
    )?;
    Ok(())
}

// Runs the case of a line, and writes it where the answer is not the expected one.
fn run_case<W: Write>(
    alloc: Global,
    source_line: SourceLine<'_>,
    kind: &str,
    line: &str,
    tally: &mut Tally,
    out: &mut W,
) -> Result<(), Fault> {
    let differing = line.strip_prefix(MUST_DIFFER);
    let outcome = outcome_of(alloc, kind, differing.unwrap_or(line))?;
    let is_same = outcome.expected.as_slice() == outcome.came.as_slice();
    let is_right = is_same == differing.is_none();
    tally.count(alloc, kind, is_right)?;
    if is_right {
        return Ok(());
    }
    write_outcome(alloc, source_line, kind, &outcome, out)
}

// Runs a line that holds a case, and reports it where it can't be read.
fn run_line<W: Write>(
    alloc: Global,
    source_line: SourceLine<'_>,
    kind: &str,
    line: &str,
    tally: &mut Tally,
    out: &mut W,
) -> Result<(), Fault> {
    match run_case(alloc, source_line, kind, line, tally, out) {
        Ok(()) => Ok(()),
        Err(Fault::Memory) => Err(Fault::Memory),
        Err(Fault::Write) => Err(Fault::Write),
        Err(fault) => {
            tally.count_unread();
            let SourceLine { file, line } = source_line;
            writeln!(out, "{file}:{line}: {fault}")?;
            Ok(())
        }
    }
}

// The kind that a heading names.
fn heading_of(line: &str) -> Option<&str> {
    line.strip_prefix('[')?.strip_suffix(']')
}

/// Runs the cases of a text: lines `ARGUMENTS => ANSWER` below a heading `[KIND]`. Empty lines and lines that begin
/// with `//` are ignored. Each line that can't be read and each case that differs is written to `out`.
pub fn run<W: Write>(
    alloc: Global,
    file: &str,
    text: &str,
    tally: &mut Tally,
    out: &mut W,
) -> Result<(), Fault> {
    let mut kind = "";
    let mut number = 0usize;
    for line in text.lines() {
        number = number.saturating_add(1);
        let line = line.trim_end();
        if line.is_empty() || line.starts_with("//") {
            continue;
        }
        if let Some(named) = heading_of(line) {
            kind = named;
            continue;
        }
        let source_line = SourceLine { file, line: number };
        run_line(alloc, source_line, kind, line, tally, out)?;
    }
    Ok(())
}
