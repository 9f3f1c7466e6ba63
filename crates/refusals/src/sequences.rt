//! Control sequences: after a refusal the actions of a list end.
use crate::outcome::{Outcome, Stop, all, refused};
use crate::tally::Tally;
use csi_codec::{
    CSI, CrackError, Cracked, CsiParam, Esc, EscCode, OneBased, Unspecified, read_csi,
};
use std::alloc::Global;
use std::fmt::Write as _;
use std::io::Write;

const SEMICOLON: CsiParam = CsiParam::P(b';');

// Appends the text of an action to both; whether the action equals its copy.
fn take(alloc: Global, action: &CSI, written: &mut String, bytes: &mut Vec<u8>) -> Outcome {
    write!(written, "{action}")?;
    action.append_bytes_to(bytes)?;
    Ok(action.try_clone(alloc)? == *action)
}

// The actions of a list, equal to their copies, and their texts joined.
fn is_list(alloc: Global, params: &[CsiParam], control: char, text: &str) -> Outcome {
    let mut written = String::new(alloc);
    let mut bytes = Vec::new(alloc);
    let mut actions = CSI::parse(alloc, params, false, control);
    while let Some(item) = actions.next() {
        let Ok(action) = item else {
            return refused(Stop::Memory, actions.next().is_none());
        };
        if !take(alloc, &action, &mut written, &mut bytes)? {
            return Ok(false);
        }
    }
    Ok(written.as_str() == text && bytes.as_slice() == text.as_bytes() && actions.next().is_none())
}

// A list whose end encodes no known action.
fn lists_with_a_rest(alloc: Global) -> Outcome {
    let params = [
        CsiParam::Integer(38),
        SEMICOLON,
        CsiParam::Integer(5),
        SEMICOLON,
        CsiParam::Integer(220),
        SEMICOLON,
        CsiParam::Integer(255),
        SEMICOLON,
        CsiParam::Integer(255),
    ];
    is_list(alloc, &params, 'm', "\x1b[38:5:220m\x1b[255;255m")
}

// A list that encodes no known action.
fn lists_left_whole(alloc: Global) -> Outcome {
    let params = [CsiParam::Integer(4_294_967_296)];
    is_list(alloc, &params, 'C', "\x1b[4294967296C")
}

// Requests, modes and a position.
fn other_lists(alloc: Global) -> Outcome {
    let modes = [
        CsiParam::P(b'?'),
        CsiParam::Integer(25),
        SEMICOLON,
        CsiParam::Integer(1049),
    ];
    let position = [CsiParam::Integer(2), SEMICOLON, CsiParam::Integer(3)];
    all(&[
        is_list(alloc, &[CsiParam::Integer(5)], 'n', "\x1b[5n"),
        is_list(alloc, &modes, 'h', "\x1b[?25h\x1b[?1049h"),
        is_list(alloc, &position, 'H', "\x1b[2;3H"),
    ])
}

// The rest of a list by itself.
fn rests(alloc: Global) -> Outcome {
    let params = [CsiParam::Integer(1), SEMICOLON];
    let rest = Unspecified {
        params: params.to_vec(alloc)?,
        parameters_truncated: true,
        control: 'z',
    };
    let text = rest.to_string(alloc)?;
    Ok(rest.try_clone()? == rest && text.as_str() == "1;z")
}

// The sequence at the start of some bytes, and its copy.
fn prefixes(alloc: Global) -> Outcome {
    let Some(prefix) = read_csi(alloc, b"\x1b[1;3mx")? else {
        return Ok(false);
    };
    let copy = prefix.try_clone()?;
    let other = matches!(read_csi(alloc, b"x\x1b[1m"), Ok(None));
    Ok(other && prefix.params.len() == 3 && prefix.rest == b"x".as_slice() && copy == prefix)
}

// A list that is cracked, and its copy.
fn cracked(alloc: Global) -> Outcome {
    let params = [
        CsiParam::Integer(1),
        SEMICOLON,
        SEMICOLON,
        CsiParam::Integer(3),
    ];
    let list = Cracked::parse(alloc, &params)?;
    let copy = list.try_clone()?;
    let none = matches!(list.int(1), Err(CrackError::NotASpelling));
    Ok(copy == list && list.len() == 3 && none && matches!(list.int(2), Ok(3)))
}

// Lists that can't be cracked, also where memory is refused, and calls that take no memory.
fn without_memory(alloc: Global) -> Outcome {
    let params = [CsiParam::P(b'?')];
    let esc = Esc::parse(None, b'c');
    Ok(
        matches!(
            Cracked::parse(alloc, &params),
            Err(CrackError::NotASpelling)
        ) && esc == Esc::Code(EscCode::FullReset)
            && matches!(OneBased::from_esc_param(&CsiParam::Integer(0)), Ok(one) if one.as_one_based() == 1),
    )
}

// What is written for an ESC pair.
fn pairs(alloc: Global) -> Outcome {
    let pair = Esc::parse(Some(b'('), b'0');
    let text = pair.to_string(alloc)?;
    let mut bytes = Vec::new(alloc);
    pair.append_bytes_to(&mut bytes)?;
    Ok(text.as_str() == "\x1b(0" && bytes.as_slice() == b"\x1b(0".as_slice())
}

/// Checks control sequences and ESC pairs.
pub fn check<W: Write>(alloc: Global, tally: &mut Tally<W>) {
    tally.take("lists with a rest", lists_with_a_rest(alloc));
    tally.take("lists left whole", lists_left_whole(alloc));
    tally.take("requests, modes and positions", other_lists(alloc));
    tally.take("rests of lists", rests(alloc));
    tally.take("prefixes", prefixes(alloc));
    tally.take("cracked lists", cracked(alloc));
    tally.take("sequences without memory", without_memory(alloc));
    tally.take("ESC pairs", pairs(alloc));
}
