//! Codes by number and by name.
use crate::fault::Fault;
use crate::row::Row;
use crate::sheet::Sheet;
use csi_codec::{
    CursorStyle, CursorTabulationControl, DecPrivateModeCode, EraseInDisplay, EraseInLine,
    TabulationClear, TerminalModeCode,
};
use escape_stream::ControlCode;
use std::fmt::Debug;

// The name of a code and its number.
fn say_code<T: Debug>(name: &T, number: u16, sheet: &mut Sheet) -> bool {
    sheet.debug(name);
    sheet.column();
    sheet.show(&number);
    true
}

// Writes the mode or the control with this number; returns whether there is one.
fn say_mode(kind: &str, number: i64, sheet: &mut Sheet) -> bool {
    if kind == "DecPrivateModeCode" {
        if let Some(code) = DecPrivateModeCode::from_i64(number) {
            return say_code(&code, code.to_u16(), sheet);
        }
    } else if kind == "TerminalModeCode" {
        if let Some(code) = TerminalModeCode::from_i64(number) {
            return say_code(&code, code.to_u16(), sheet);
        }
    } else if kind == "ControlCode" {
        if let Some(code) = u8::try_from(number).ok().and_then(ControlCode::from_u8) {
            return say_code(&code, u16::from(code.to_u8()), sheet);
        }
    }
    false
}

// Writes the code of tab stops or of the cursor's shape with this number; returns whether there is one.
fn say_stop(kind: &str, number: i64, sheet: &mut Sheet) -> bool {
    if kind == "CursorStyle" {
        if let Some(code) = CursorStyle::from_i64(number) {
            return say_code(&code, code.to_u16(), sheet);
        }
    } else if kind == "TabulationClear" {
        if let Some(code) = TabulationClear::from_i64(number) {
            return say_code(&code, code.to_u16(), sheet);
        }
    } else if kind == "CursorTabulationControl" {
        if let Some(code) = CursorTabulationControl::from_i64(number) {
            return say_code(&code, code.to_u16(), sheet);
        }
    }
    false
}

// Writes the code of erasing with this number; returns whether there is one.
fn say_erasing(kind: &str, number: i64, sheet: &mut Sheet) -> bool {
    if kind == "EraseInLine" {
        if let Some(code) = EraseInLine::from_i64(number) {
            return say_code(&code, code.to_u16(), sheet);
        }
    } else if kind == "EraseInDisplay" {
        if let Some(code) = EraseInDisplay::from_i64(number) {
            return say_code(&code, code.to_u16(), sheet);
        }
    }
    false
}

/// `TYPE | NUMBER => NAME | NUMBER`: what a number names, and the number of that name; `none` where it names nothing.
pub fn code(row: &Row<'_>, sheet: &mut Sheet) -> Result<(), Fault> {
    let kind = row.column(0);
    let Ok(number) = row.column(1).parse::<i64>() else {
        return Err(Fault::Number);
    };
    let is_named = match kind {
        "DecPrivateModeCode" | "TerminalModeCode" | "ControlCode" => say_mode(kind, number, sheet),
        "EraseInLine" | "EraseInDisplay" => say_erasing(kind, number, sheet),
        "CursorStyle" | "TabulationClear" | "CursorTabulationControl" => {
            say_stop(kind, number, sheet)
        }
        _ => return Err(Fault::Word),
    };
    sheet.word_if(!is_named, "none");
    Ok(())
}
