//! Control sequences and ESC pairs.
use crate::actions::{say_csi, say_esc};
use crate::escapes;
use crate::fault::Fault;
use crate::row::Row;
use crate::sheet::Sheet;
use csi_codec::{CSI, CrackError, Cracked, CsiFront, CsiParam, Esc, OneBased, read_csi};
use std::alloc::Global;

/// The tokens of a text: runs of digits, and any other byte.
pub fn tokens_of(alloc: Global, text: &[u8]) -> Result<Vec<CsiParam>, Fault> {
    let mut all = Vec::new(alloc);
    let mut number: Option<i64> = None;
    for byte in text {
        if byte.is_ascii_digit() {
            let digit = i64::from(*byte - b'0');
            number = Some(number.unwrap_or(0).saturating_mul(10).saturating_add(digit));
        } else {
            if let Some(value) = number.take() {
                all.push(CsiParam::Integer(value))?;
            }
            all.push(CsiParam::P(*byte))?;
        }
    }
    if let Some(value) = number {
        all.push(CsiParam::Integer(value))?;
    }
    Ok(all)
}

// The texts of the actions of a list, joined.
fn text_of(alloc: Global, tokens: &[CsiParam], control: char) -> Result<String, Fault> {
    let mut all = String::new(alloc);
    for item in CSI::parse(alloc, tokens, false, control) {
        let action = item?;
        write!(all, "{action}")?;
    }
    Ok(all)
}

// Whether a text is one control sequence whose actions have that text again.
fn is_one_sequence(alloc: Global, text: &str) -> Result<bool, Fault> {
    let Some(prefix) = read_csi(alloc, text.as_bytes())? else {
        return Ok(false);
    };
    let again = text_of(alloc, &prefix.params, prefix.control)?;
    Ok(prefix.rest.is_empty() && again.as_str() == text)
}

// Whether a copy of an action is the action.
fn has_copy(alloc: Global, action: &CSI) -> Result<bool, Fault> {
    let copy = action.try_clone(alloc)?;
    Ok(copy == *action)
}

// The actions of a list in one column, each equal to its copy, and their joined text in the next.
fn say_list(
    alloc: Global,
    tokens: &[CsiParam],
    is_truncated: bool,
    control: char,
    sheet: &mut Sheet,
) -> Result<(), Fault> {
    let mut printed = String::new(alloc);
    for item in CSI::parse(alloc, tokens, is_truncated, control) {
        let action = item?;
        say_csi(alloc, &action, sheet);
        sheet.word_if(!has_copy(alloc, &action)?, "(its copy differs)");
        write!(printed, "{action}")?;
    }
    sheet.column();
    sheet.word(printed.as_str());
    Ok(())
}

/// `TOKENS | FINAL => ACTIONS | TEXT`: the actions of a list of tokens under a final character, each equal to its copy,
/// and their joined texts. The text of each is one sequence that has this text again.
pub fn csi(row: &Row<'_>, sheet: &mut Sheet) -> Result<(), Fault> {
    let tokens = tokens_of(row.alloc(), &row.bytes(0)?)?;
    let control = row.character(1)?;
    say_list(row.alloc(), &tokens, false, control, sheet)?;
    for item in CSI::parse(row.alloc(), &tokens, false, control) {
        let text = item?.to_string(row.alloc())?;
        let is_one = is_one_sequence(row.alloc(), text.as_str())?;
        sheet.word_if(!is_one, "(isn't one sequence)");
    }
    Ok(())
}

// A token by a word: a number, or a byte.
fn token_of(alloc: Global, word: &str) -> Result<CsiParam, Fault> {
    if let Ok(number) = word.parse::<i64>() {
        return Ok(CsiParam::Integer(number));
    }
    let bytes = escapes::read(alloc, word)?;
    match bytes.first() {
        Some(byte) => Ok(CsiParam::P(*byte)),
        None => Err(Fault::Word),
    }
}

/// `TOKENS | truncated or whole | FINAL => ACTIONS | TEXT`: as `csi`, for tokens with spaces between them, each a
/// number, also below 0, or a byte, and with or without the flag that tokens were dropped.
pub fn csi_tokens(row: &Row<'_>, sheet: &mut Sheet) -> Result<(), Fault> {
    let alloc = row.alloc();
    let written = row.text(0)?;
    let mut tokens = Vec::new(alloc);
    for word in written.as_str().split_ascii_whitespace() {
        tokens.push(token_of(alloc, word)?)?;
    }
    let is_truncated = row.column(1) == "truncated";
    say_list(alloc, &tokens, is_truncated, row.character(2)?, sheet)
}

/// `INTERMEDIATE | FINAL => CODE | TEXT`: an ESC pair, without an intermediate byte where its column is empty.
pub fn esc(row: &Row<'_>, sheet: &mut Sheet) -> Result<(), Fault> {
    let intermediate = row.bytes(0)?.first().copied();
    let control = row.bytes(1)?.first().copied();
    let pair = Esc::parse(intermediate, control.unwrap_or(0));
    say_esc(&pair, sheet);
    sheet.column();
    sheet.show(&pair);
    Ok(())
}

// Writes the control sequence at the start of some bytes, its tokens side by side, and the bytes after it.
fn say_prefix(alloc: Global, prefix: &CsiFront<'_>, sheet: &mut Sheet) -> Result<(), Fault> {
    let mut printed = String::new(alloc);
    for token in &prefix.params {
        write!(printed, "{token}")?;
    }
    let again = tokens_of(alloc, printed.as_bytes())?;
    sheet.word(printed.as_str());
    sheet.word_if(
        again.as_slice() != prefix.params.as_slice(),
        "(in other tokens)",
    );
    sheet.column();
    sheet.show(&prefix.control);
    sheet.column();
    sheet.add(prefix.rest);
    sheet.column();
    sheet.word(if prefix.truncated {
        "truncated"
    } else {
        "whole"
    });
    Ok(())
}

/// `BYTES => TOKENS | FINAL | REST | whole or truncated`: the control sequence at the start of some bytes, its tokens
/// side by side; `none` where there is none.
pub fn prefix(row: &Row<'_>, sheet: &mut Sheet) -> Result<(), Fault> {
    let bytes = row.bytes(0)?;
    match read_csi(row.alloc(), &bytes)? {
        Some(prefix) => say_prefix(row.alloc(), &prefix, sheet),
        None => {
            sheet.word("none");
            Ok(())
        }
    }
}

// An entry: its number, or why there is none.
fn say_entry(cracked: &Cracked, index: usize, sheet: &mut Sheet) {
    match cracked.int(index) {
        Ok(value) => sheet.show(&value),
        Err(error) => {
            sheet.word("(");
            sheet.add_shown(&error);
            sheet.add(b")");
        }
    }
    let number = cracked.int(index).ok();
    let is_other = cracked.opt_int(index) != number
        || cracked.get(index).is_some() != number.is_some();
    sheet.word_if(is_other, "(which the entry isn't)");
}

// The entries of a list, and one position past them; equal to their copy.
fn say_entries(cracked: &Cracked, sheet: &mut Sheet) -> Result<(), Fault> {
    sheet.show(&cracked.len());
    sheet.column();
    for index in 0..cracked.len() {
        say_entry(cracked, index, sheet);
    }
    say_entry(cracked, cracked.len(), sheet);
    let copy = cracked.try_clone()?;
    sheet.word_if(copy != *cracked, "(its copy differs)");
    sheet.word_if(cracked.is_empty() != (cracked.len() == 0), "(or is empty)");
    Ok(())
}

/// `TOKENS => COUNT | ENTRIES`: a list as entries, and one position past them, each a number or why there is none.
pub fn cracked(row: &Row<'_>, sheet: &mut Sheet) -> Result<(), Fault> {
    let tokens = tokens_of(row.alloc(), &row.bytes(0)?)?;
    match Cracked::parse(row.alloc(), &tokens) {
        Ok(cracked) => say_entries(&cracked, sheet),
        Err(error) => {
            sheet.show(&error);
            Ok(())
        }
    }
}

// A position that was read, counted from 1 and from 0, or why there is none.
fn say_one_based(read: Result<OneBased, CrackError>, sheet: &mut Sheet) {
    match read {
        Ok(number) => {
            sheet.show(&number);
            let from_zero = number.as_zero_based().checked_add(1);
            sheet.word_if(from_zero != Some(number.as_one_based()), "(from 0 another)");
        }
        Err(error) => sheet.show(&error),
    }
}

/// `TOKEN => POSITION | POSITION | POSITION`: the line or column of a parameter, where 0 is 1, where 0 is the greatest
/// position, and where the parameter may be absent (an empty column).
pub fn one_based(row: &Row<'_>, sheet: &mut Sheet) -> Result<(), Fault> {
    if row.column(0).is_empty() {
        say_one_based(OneBased::from_optional_esc_param(None), sheet);
        return Ok(());
    }
    let token = token_of(row.alloc(), row.column(0))?;
    say_one_based(OneBased::from_esc_param(&token), sheet);
    sheet.column();
    say_one_based(OneBased::from_esc_param_with_big_default(&token), sheet);
    sheet.column();
    say_one_based(OneBased::from_optional_esc_param(Some(&token)), sheet);
    Ok(())
}
