//! What runs a case, by the name of its kind.
use crate::fault::Fault;
use crate::row::Row;
use crate::sheet::Sheet;
use crate::{
    codes, commands, framing, lines, screens, sequences, sequences_of_changes, sessions, streams,
    surfaces, terminals, updates, values,
};

// How many arguments a kind takes.
fn count_of(kind: &str) -> usize {
    match kind {
        "csi tokens" | "cell" | "run" => 3,
        "csi"
        | "code"
        | "esc"
        | "text"
        | "line"
        | "question"
        | "kept line"
        | "screen"
        | "settled screen"
        | "terminal"
        | "xterm"
        | "session"
        | "render"
        | "surface"
        | "sequence" => 2,
        _ => 1,
    }
}

// Runs a case of a kind of values, lines or screens.
fn answer_value(kind: &str, row: &Row<'_>, sheet: &mut Sheet) -> Result<(), Fault> {
    match kind {
        "link" => commands::link(row, sheet),
        "color" => values::color(row, sheet),
        "text" => values::text(row, sheet),
        "cell" => values::cell(row, sheet),
        "attributes" => values::attribute(row, sheet),
        "line" => lines::edited(row, sheet),
        "question" => lines::asked(row, sheet),
        "kept line" => lines::kept(row, sheet),
        "screen" => screens::screen(row, sheet),
        "settled screen" => screens::settled(row, sheet),
        "terminal" => terminals::terminal(row, sheet),
        "xterm" => terminals::xterm(row, sheet),
        "torn" => terminals::torn(row, sheet),
        "session" => sessions::session(row, sheet),
        "render" => updates::rendered(row, sheet),
        "run" => updates::run_input(row, sheet),
        "surface" => surfaces::surface(row, sheet),
        "sequence" => sequences_of_changes::sequence(row, sheet),
        _ => Err(Fault::Kind),
    }
}

// Runs a case of a kind of streams or commands.
fn answer_stream(kind: &str, row: &Row<'_>, sheet: &mut Sheet) -> Result<(), Fault> {
    match kind {
        "osc" => commands::osc(row, sheet),
        "selection" => commands::selection(row, sheet),
        "framing" => framing::framing(row, sheet),
        "framing positions" => framing::positions(row, sheet),
        "stream" => streams::stream(row, sheet),
        "list" => streams::list(row, sheet),
        "joined" => streams::joined(row, sheet),
        "first" => streams::first(row, sheet),
        "first settled" => streams::first_settled(row, sheet),
        "pieces" => streams::pieces(row, sheet),
        _ => answer_value(kind, row, sheet),
    }
}

/// Writes what the call of a kind answers for these arguments.
pub fn answer(kind: &str, row: &Row<'_>, sheet: &mut Sheet) -> Result<(), Fault> {
    if row.count() != count_of(kind) {
        return Err(Fault::Columns);
    }
    match kind {
        "csi" => sequences::csi(row, sheet),
        "csi tokens" => sequences::csi_tokens(row, sheet),
        "csi prefix" => sequences::prefix(row, sheet),
        "csi entries" => sequences::cracked(row, sheet),
        "csi position" => sequences::one_based(row, sheet),
        "code" => codes::code(row, sheet),
        "esc" => sequences::esc(row, sheet),
        _ => answer_stream(kind, row, sheet),
    }
}
