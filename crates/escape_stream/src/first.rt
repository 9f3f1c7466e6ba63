//! The first action of some bytes, or the actions of their shortest prefix that leaves nothing unfinished.
ghost use Rattle.std.specs.Prelude.{◌≡◌, ◌≢◌, ◌↔◌, ℕ, true, None, IsErrOf, IfOk, OnOk, IsTrue, List, [], ◌++◌, map};
ghost use Rattle.std.specs.Prelude.{is_err};
ghost use Rattle.std.specs.Option.{option_map};
ghost use Rattle.std.specs.Str.{chars};
ghost use Rattle.escape_framing.specs.Held.{held_of, nothing_held};
ghost use Rattle.escape_stream.specs.Parsing.{IsFirst, IsFirstSettled, bytes_read, first_of};
ghost use Rattle.escape_stream.specs.StreamAction.{print};
ghost use Rattle.escape_stream.specs.StreamActionView.{value_of};

use crate::action::Action;
use crate::parser::Parser;
use crate::perform::Perform;
use crate::pieces::part;
use escape_framing::ParseError;
use std::alloc::AllocError;

// The print of a text's first character.
fn first_print(text: &str) -> Option<Action>
    ensures { option_map value_of result ≡ first_of None (map print (chars text.now)) }
{
    match text.chars().next() {
        Some(character) => Some(Action::Print(character)),
        None => None,
    }
}

// Keeps the first action.
#[derive(Drop)]
struct First {
    action: Option<Action>,
}

impl<'t> Perform<'t> for First {
    ghost use Rattle.std.specs.Prelude.{◌≡◌, ⊤};
    ghost use Rattle.std.specs.Option.{option_map};
    ghost use Rattle.escape_stream.specs.Items.{actions_of_item};
    ghost use Rattle.escape_stream.specs.Parsing.{first_of};
    ghost use Rattle.escape_stream.specs.StreamActionView.{value_of};

    type Refusal = AllocError;

    ghost ready = { λ first. ⊤ };

    ghost does = { λ old item new. option_map value_of new.action
        ≡ first_of (option_map value_of old.action) (actions_of_item item) };

    ghost refuses = { λ old item refusal new. ⊤ };

    fn text(&mut self, text: &'t str) -> Result<(), AllocError> {
        if self.action.is_none() {
            self.action = first_print(text);
        }
        Ok(())
    }

    fn action(&mut self, action: Action) -> Result<(), AllocError> {
        if self.action.is_none() {
            self.action = Some(action);
        }
        Ok(())
    }
}

// Pushes a print of each character.
fn push_prints(actions: &mut Vec<Action>, text: &str) -> Result<(), AllocError>
    ensures { OnOk result
        (map value_of actions.new.items ≡ map value_of actions.old.items ++ map print (chars text.now)) }
{
    for character in text.chars() {
        actions.push(Action::Print(character))?;
    }
    Ok(())
}

// Keeps all actions.
#[derive(Drop)]
struct Kept {
    actions: Vec<Action>,
}

impl<'t> Perform<'t> for Kept {
    ghost use Rattle.std.specs.Prelude.{◌≡◌, ◌++◌, ⊤, map};
    ghost use Rattle.escape_stream.specs.Items.{actions_of_item};
    ghost use Rattle.escape_stream.specs.StreamActionView.{value_of};

    type Refusal = AllocError;

    ghost ready = { λ kept. ⊤ };

    ghost does = { λ old item new. map value_of new.actions.items
        ≡ map value_of old.actions.items ++ actions_of_item item };

    ghost refuses = { λ old item refusal new. ⊤ };

    fn text(&mut self, text: &'t str) -> Result<(), AllocError> {
        push_prints(&mut self.actions, text)
    }

    fn action(&mut self, action: Action) -> Result<(), AllocError> {
        self.actions.push(action)?;
        Ok(())
    }
}

impl Parser {
    /// Reads the shortest prefix of the bytes that decides an action after the bytes that were read before, and
    /// returns the first action and the prefix's length, 1 or more; further actions of that prefix are dropped. Where
    /// no prefix decides one, all bytes are read, and the result is `None`. A call that was refused memory returns
    /// `Memory`, and each later call `Failed`, without reading.
    pub fn parse_first(&mut self, bytes: &[u8]) -> Result<Option<(Action, usize)>, ParseError>
        // Where a stream has been read, in any chunks, this is the first action that the bytes newly decide.
        ensures first { IfOk result
            (λ found. (stream : List ℕ) → self.old.held ≡ held_of stream
            → IsFirst stream bytes.now (option_map (λ f. (value_of f.0, f.1)) found)) }
        // The prefix has then been read too.
        ensures held { IfOk result
            (λ found. (stream : List ℕ) → self.old.held ≡ held_of stream
            → self.new.held ≡ held_of (stream ++ bytes_read found bytes.now)) }
        // A call fails where an earlier one was refused memory, and only then is that its error.
        ensures failed { IsErrOf result ParseError.Failed ↔ (self.old.failed ≡ true) }
        // A parser has failed once it was refused memory.
        ensures after { self.new.failed ≡ is_err result }
    {
        if self.is_failed() {
            return Err(ParseError::Failed);
        }
        let mut count = 0;
        while count < bytes.len() {
            let mut first = First { action: None };
            if let Err(halted) = self.hand_to(part(bytes, count, 1), &mut first) {
                return Err(ParseError::from(halted));
            }
            count += 1;
            if let Some(action) = first.action {
                return Ok(Some((action, count)));
            }
        }
        Ok(None)
    }

    // Whether nothing is unfinished, and there is an action.
    fn is_settled(&self, actions: &[Action]) -> bool
        ensures { IsTrue result ↔ ((map value_of actions.now ≢ []) × (self.now.held ≡ nothing_held)) }
    {
        if actions.is_empty() {
            false
        } else {
            self.framer().is_idle()
        }
    }

    /// Reads the shortest prefix of the bytes that decides an action after the bytes that were read before and after
    /// which no segment is unfinished, and returns its actions and its length, 1 or more. Where there is none, it
    /// reads all bytes, drops the actions and returns `None`. A call that was refused memory returns `Memory`, and
    /// each later call `Failed`, without reading.
    pub fn parse_first_as_vec(
        &mut self,
        bytes: &[u8],
    ) -> Result<Option<(Vec<Action>, usize)>, ParseError>
        // Where a stream has been read, in any chunks, these are the actions that the prefix newly decides.
        ensures first { IfOk result
            (λ found. (stream : List ℕ) → self.old.held ≡ held_of stream
            → IsFirstSettled stream bytes.now (option_map (λ f. (map value_of f.0.items, f.1)) found)) }
        // The prefix has then been read too.
        ensures held { IfOk result
            (λ found. (stream : List ℕ) → self.old.held ≡ held_of stream
            → self.new.held ≡ held_of (stream ++ bytes_read found bytes.now)) }
        // A call fails where an earlier one was refused memory, and only then is that its error.
        ensures failed { IsErrOf result ParseError.Failed ↔ (self.old.failed ≡ true) }
        // A parser has failed once it was refused memory.
        ensures after { self.new.failed ≡ is_err result }
    {
        if self.is_failed() {
            return Err(ParseError::Failed);
        }
        let mut kept = Kept {
            actions: Vec::new(self.alloc()),
        };
        let mut count = 0;
        while count < bytes.len() {
            if let Err(halted) = self.hand_to(part(bytes, count, 1), &mut kept) {
                return Err(ParseError::from(halted));
            }
            count += 1;
            if self.is_settled(&kept.actions) {
                return Ok(Some((kept.actions, count)));
            }
        }
        Ok(None)
    }
}
