//! The first bytes of a character in UTF-8, and the byte after them.
ghost use Rattle.std.specs.Prelude.{◌≡◌, ◌↔◌, IsTrue, IfSome, ℕ, ◌+◌, ◌≤◌, List, [], ◌∷◌, None, take};
ghost use Rattle.escape_framing.specs.Segment.{IsUnfinished, Begun};
ghost use Rattle.escape_framing.specs.Held.{InCharacter, character_step};
ghost use Rattle.escape_framing.specs.Event.{GoesOn};
ghost use Rattle.escape_framing.specs.Characters.{IsAfterBegun, IsKind, own_step, segment_step, step_of, Breaks};

use std::marker::Model;
use std::str;

/// What the first bytes of a character and one more byte make: a whole character, more of its first bytes, or neither.
#[derive(Clone, Copy)]
enum Kind {
    Whole(char),
    Begun,
    Broken,
}

/// What a byte is after the first bytes of a character, or after none.
#[derive(Clone, Copy)]
pub(crate) enum Own {
    /// More bytes of its character are to come.
    Waits,
    /// ESC.
    Escape,
    Print(char),
    Control(u8),
    /// Part of no character.
    Stray,
}

fn kind_of(bytes: &[u8]) -> Kind
    requires { IsAfterBegun bytes.now }
    ensures { IsKind bytes.now result }
{
    match str::from_utf8(bytes) {
        Ok(text) => match text.chars().next() {
            Some(c) => Kind::Whole(c),
            None => Kind::Broken,
        },
        Err(error) => match error.error_len() {
            None => Kind::Begun,
            Some(_) => Kind::Broken,
        },
    }
}

// A byte where no character has begun.
fn first(byte: u8) -> Own
    ensures { own_step result (byte ∷ []) ≡ character_step [] byte }
{
    match byte {
        0x1b => Own::Escape,
        0x20..=0x7e => Own::Print(byte as char),
        0x00..=0x1f | 0x7f => Own::Control(byte),
        0xc2..=0xf4 => Own::Waits,
        _ => Own::Stray,
    }
}

// A whole character of two bytes or more.
fn whole(c: char) -> Own
    ensures { (bytes : List ℕ) → own_step result [] ≡ segment_step bytes c }
{
    match c {
        '\u{80}'..='\u{9f}' => Own::Stray,
        '\0'..='\u{1f}' | '\u{7f}' => Own::Control(c as u8),
        _ => Own::Print(c),
    }
}

/// The first bytes of a character, or none.
#[derive(Drop)]
pub(crate) struct Characters {
    bytes: [u8; 4],
    count: usize,
}

// Clauses see the bytes.
impl Model for Characters {
    ghost Value = { List ℕ };

    ghost view = { λ d. take d.count d.bytes };

    ghost invariant = { λ d. (d.count ≤ 3) × IsUnfinished (Begun (take d.count d.bytes)) };
}

impl Characters {
    /// No bytes.
    pub fn new() -> Characters
        ensures { result ≡ [] }
    {
        Characters {
            bytes: [0; 4],
            count: 0,
        }
    }

    /// Whether there are none.
    pub fn is_empty(&self) -> bool
        ensures { IsTrue result ↔ (self.now ≡ []) }
    {
        self.count == 0
    }

    /// Reads one more byte, and returns what it is. `None`: the byte breaks off the character that has begun, and it
    /// isn't read.
    pub fn next(&mut self, byte: u8) -> Option<Own>
        ensures steps { IfSome result (λ own. step_of own self.new ≡ character_step self.old byte) }
        ensures goes { IfSome result (λ _. GoesOn (InCharacter self.old) byte) }
        ensures breaks { result ≡ None → Breaks self.old byte }
        ensures empty { result ≡ None → self.new ≡ [] }
    {
        let count = self.count;
        if count == 0 {
            let own = first(byte);
            if let Own::Waits = own {
                self.bytes[0] = byte;
                self.count = 1;
            }
            return Some(own);
        }
        self.bytes[count] = byte;
        match kind_of(&self.bytes[..count + 1]) {
            Kind::Whole(c) => {
                self.count = 0;
                Some(whole(c))
            }
            Kind::Begun => {
                self.count = count + 1;
                Some(Own::Waits)
            }
            Kind::Broken => {
                self.count = 0;
                None
            }
        }
    }
}
