//! `Perform`: the trait of performers, which act on each text and action that a parser reads.
ghost use Rattle.std.specs.Prelude.{◌≡◌, IfErr, OnOk};
ghost use Rattle.escape_stream.specs.Items.{Item, Text, Single};
ghost use Rattle.escape_stream.specs.StreamActionView.{value_of};

use crate::action::Action;
use escape_framing::ParseError;
use std::alloc::AllocError;

/// A performer: it acts on each text and each single action that a parser reads, in order.
pub trait Perform<'t> {
    /// Why a text or an action is refused.
    type Refusal: Drop;

    // what has to hold before a call, and holds after it
    ghost ready: { Self → Type 0 };

    // what is done with an item
    ghost does: { Self → Item → Self → Type 0 };

    // what is known where one is refused
    ghost refuses: { Self → Item → Self.Refusal → Self → Type 0 };

    /// Performs a text: characters to print, as those of `Piece::Text`.
    fn text(&mut self, text: &'t str) -> Result<(), Self::Refusal>
        requires { ready self.old }
        ensures ready { OnOk result (ready self.new) }
        ensures done { OnOk result (does self.old (Text text.now) self.new) }
        ensures refused { IfErr result (λ refusal. refuses self.old (Text text.now) refusal self.new) };

    /// Performs an action.
    fn action(&mut self, action: Action) -> Result<(), Self::Refusal>
        requires { ready self.old }
        ensures ready { OnOk result (ready self.new) }
        ensures done { OnOk result (does self.old (Single (value_of action)) self.new) }
        ensures refused { IfErr result (λ refusal. refuses self.old (Single (value_of action)) refusal self.new) };
}

/// Why not all texts and actions of the bytes were performed.
#[derive(Debug, Clone, Copy, PartialEq, Eq, Drop)]
pub enum Halted<R> {
    /// The parser had failed: nothing was read.
    Failed,
    /// The parser was refused memory.
    Memory,
    /// The performer refused a text or an action.
    Refused(R),
}

impl From<Halted<AllocError>> for ParseError {
    ghost use Rattle.escape_stream.specs.Performing.{parse_error};

    ghost from_gives = { λ halted error. error ≡ parse_error halted };

    fn from(halted: Halted<AllocError>) -> ParseError {
        match halted {
            Halted::Failed => ParseError::Failed,
            Halted::Memory | Halted::Refused(_) => ParseError::Memory,
        }
    }
}
