//! Printing the parts of a command's text that take a loop.

ghost use Rattle.std.specs.Prelude.{◌≡◌, Some};
ghost use Rattle.escape_osc.specs.ShownParts.{replacement_of, shown_base64, shown_letters, shown_part, shown_parts};

use crate::selection::Selection;
use base64::display::Base64Display;
use base64::engine::general_purpose::STANDARD;
use bitflags::Flags;
use std::fmt;

// Each letter and its selection, in the order in which letters are written.
pub(crate) const LETTERS: [(char, Selection); 13] = [
    ('c', Selection::CLIPBOARD),
    ('p', Selection::PRIMARY),
    ('s', Selection::SELECT),
    ('0', Selection::CUT0),
    ('1', Selection::CUT1),
    ('2', Selection::CUT2),
    ('3', Selection::CUT3),
    ('4', Selection::CUT4),
    ('5', Selection::CUT5),
    ('6', Selection::CUT6),
    ('7', Selection::CUT7),
    ('8', Selection::CUT8),
    ('9', Selection::CUT9),
];

// The letters of a selection, in the order of `LETTERS`.
#[derive(Clone, Copy)]
pub(crate) struct Letters(pub(crate) Selection);

impl fmt::Display for Letters {
    ghost output = { λ letters. Some (shown_letters letters) };

    fn fmt<W: fmt::Write>(&self, f: &mut fmt::Formatter<W>) -> fmt::Result {
        for (letter, selection) in &LETTERS {
            if self.0.contains(*selection) {
                f.write_char(*letter)?;
            }
        }
        Ok(())
    }
}

// Bytes in base64.
#[derive(Clone, Copy)]
pub(crate) struct Base64<'a>(pub(crate) &'a [u8]);

#[tactic(auto, unfolding(crate::specs::Text::base64_of))]
impl fmt::Display for Base64<'_> {
    ghost output = { λ bytes. Some (shown_base64 bytes) };

    fn fmt<W: fmt::Write>(&self, f: &mut fmt::Formatter<W>) -> fmt::Result {
        write!(f, "{}", Base64Display::new(self.0, &STANDARD))
    }
}

// U+FFFD in place of one or more bytes, and the empty text in place of none.
fn replacement(invalid: &[u8]) -> &'static str
    ensures { result.now ≡ replacement_of invalid.now }
{
    if invalid.is_empty() { "" } else { "\u{FFFD}" }
}

// Bytes as text, with U+FFFD in place of each ill-formed sequence.
#[derive(Clone, Copy)]
pub(crate) struct LossyPart<'a>(pub(crate) &'a [u8]);

impl fmt::Display for LossyPart<'_> {
    ghost output = { λ part. Some (shown_part part) };

    fn fmt<W: fmt::Write>(&self, f: &mut fmt::Formatter<W>) -> fmt::Result {
        for chunk in self.0.utf8_chunks() {
            f.write_str(chunk.valid())?;
            f.write_str(replacement(chunk.invalid()))?;
        }
        Ok(())
    }
}

// Parts, each shown as a `LossyPart`, joined by `;`.
#[derive(Clone, Copy)]
pub(crate) struct LossyParts<'a>(pub(crate) &'a [Vec<u8>]);

impl fmt::Display for LossyParts<'_> {
    ghost output = { λ parts. Some (shown_parts parts) };

    fn fmt<W: fmt::Write>(&self, f: &mut fmt::Formatter<W>) -> fmt::Result {
        let Some((first, rest)) = self.0.split_first() else {
            return Ok(());
        };
        write!(f, "{}", LossyPart(first))?;
        for part in rest {
            write!(f, ";{}", LossyPart(part))?;
        }
        Ok(())
    }
}
