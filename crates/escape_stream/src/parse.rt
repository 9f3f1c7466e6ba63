//! The actions of bytes, handed to a callback one by one, or as a list.
ghost use Rattle.std.specs.Prelude.{◌≡◌, ◌↔◌, ℕ, true, None, IsErrOf, IfOk, IfSome, OnOk, List, [], ◌∷◌, ◌++◌, map};
ghost use Rattle.std.specs.Prelude.{fold, is_err};
ghost use Rattle.std.specs.Str.{chars};
ghost use Rattle.escape_framing.specs.Held.{held_of};
ghost use Rattle.escape_stream.specs.StreamAction.{appended, print};
ghost use Rattle.escape_stream.specs.StreamActionView.{value_of};
ghost use Rattle.escape_stream.specs.StreamActions.{newly_decided_actions};
ghost use Rattle.escape_stream.specs.Parsing.{IsCalledAt};

use crate::action::Action;
use crate::parser::Parser;
use crate::perform::Perform;
use escape_framing::ParseError;
use std::alloc::{AllocError, Global};

// Calls the callback with a print of each character. The inner loop reads all of them but the first: a call in two
// loops counts as hot, so that LLVM makes the callback part of it (full rows of ASCII: 13 instructions a byte for 33).
#[inline(never)]
fn call_at_chars<F: FnMut(Action)>(text: &str, callback: &mut F)
    requires { F.IsAlwaysCallable callback.old }
    ensures called { IsCalledAt (λ f a f'. F.step f a tt f') callback.old (map print (chars text.now)) callback.new }
    ensures callable { F.IsAlwaysCallable callback.new }
{
    let mut characters = text.chars();
    while let Some(first) = characters.next() {
        callback(Action::Print(first));
        while let Some(character) = characters.next() {
            callback(Action::Print(character));
        }
    }
}

// Calls a callback with each action.
#[derive(Drop)]
pub(crate) struct Calls<F> {
    callback: F,
}

impl<'t, F: FnMut(Action)> Perform<'t> for Calls<F> {
    ghost use Rattle.escape_stream.specs.Items.{actions_of_item};
    ghost use Rattle.escape_stream.specs.Parsing.{IsCalledAt};

    type Refusal = AllocError;

    ghost ready = { λ calls. F.IsAlwaysCallable calls.callback };

    ghost does = { λ old item new. IsCalledAt (λ f a f'. F.step f a tt f') old.callback (actions_of_item item)
        new.callback };

    ghost refuses = { λ old item refusal new. ⊥ };

    #[inline(always)]
    fn text(&mut self, text: &'t str) -> Result<(), AllocError> {
        call_at_chars(text, &mut self.callback);
        Ok(())
    }

    #[inline(never)]
    fn action(&mut self, action: Action) -> Result<(), AllocError> {
        (self.callback)(action);
        Ok(())
    }
}

// The character of a text that has exactly one.
fn first_alone(text: &str) -> Option<char>
    ensures one { IfSome result (λ c. chars text.now ≡ c ∷ []) }
    ensures remaining { result ≡ None → (c : ℕ) → chars text.now ≡ c ∷ [] → ⊥ }
{
    let mut characters = text.chars();
    let first = characters.next()?;
    match characters.next() {
        None => Some(first),
        Some(_second) => None,
    }
}

// Appends the prints of the characters of a text, each joined with a print before it.
fn append_text(alloc: Global, text: &str, actions: &mut Vec<Action>) -> Result<(), AllocError>
    ensures { IfOk result
        (λ _. map value_of actions.new.items
        ≡ fold appended (map value_of actions.old.items) (map print (chars text.now))) }
{
    if text.is_empty() {
        return Ok(());
    }
    match first_alone(text) {
        Some(character) => Action::Print(character).append_to(actions),
        None => {
            let copy = String::from_str(alloc, text)?;
            Action::PrintString(copy).append_to(actions)
        }
    }
}

// Joins actions to a list.
#[derive(Drop)]
pub(crate) struct Joined {
    actions: Vec<Action>,
}

impl<'t> Perform<'t> for Joined {
    ghost use Rattle.std.specs.Prelude.{◌≡◌, ⊤, map, fold};
    ghost use Rattle.escape_stream.specs.Items.{actions_of_item};
    ghost use Rattle.escape_stream.specs.StreamAction.{appended};
    ghost use Rattle.escape_stream.specs.StreamActionView.{value_of};

    type Refusal = AllocError;

    ghost ready = { λ joined. ⊤ };

    ghost does = { λ old item new. map value_of new.actions.items
        ≡ fold appended (map value_of old.actions.items) (actions_of_item item) };

    ghost refuses = { λ old item refusal new. ⊤ };

    fn text(&mut self, text: &'t str) -> Result<(), AllocError> {
        let alloc = *self.actions.allocator();
        append_text(alloc, text, &mut self.actions)
    }

    fn action(&mut self, action: Action) -> Result<(), AllocError> {
        action.append_to(&mut self.actions)
    }
}

impl Parser {
    /// Reads bytes, calls the callback with each action that they decide after those that were read before, in order,
    /// and returns the callback. A call that was refused memory returns `Memory`, and each later call `Failed`,
    /// without reading.
    pub fn parse_with<F: FnMut(Action)>(
        &mut self,
        bytes: &[u8],
        callback: F,
    ) -> Result<F, ParseError>
        requires { F.IsAlwaysCallable callback }
        // Where a stream has been read, in any chunks, the callback is called with each action that the bytes newly
        // decide.
        ensures called { IfOk result
            (λ last. (stream : List ℕ) → self.old.held ≡ held_of stream
            → IsCalledAt (λ f a f'. F.step f a tt f') callback (newly_decided_actions stream bytes.now) last) }
        ensures callable { IfOk result (λ last. F.IsAlwaysCallable last) }
        // The bytes have then been read too.
        ensures held { OnOk result
            ((stream : List ℕ) → self.old.held ≡ held_of stream → self.new.held ≡ held_of (stream ++ bytes.now)) }
        // A call fails where an earlier one was refused memory, and only then is that its error.
        ensures failed { IsErrOf result ParseError.Failed ↔ (self.old.failed ≡ true) }
        // A parser has failed once it was refused memory.
        ensures after { self.new.failed ≡ is_err result }
    {
        let mut calls = Calls { callback };
        match self.hand_to(bytes, &mut calls) {
            Ok(()) => Ok(calls.callback),
            Err(halted) => Err(ParseError::from(halted)),
        }
    }

    /// Reads bytes, and calls the callback with each action that they decide after those that were read before, in
    /// order. A call that was refused memory returns `Memory`, and each later call `Failed`, without reading. Nothing
    /// can be proved after the call about what the callback borrows; `parse_with` returns the callback for that.
    pub fn parse<F: FnMut(Action)>(&mut self, bytes: &[u8], callback: F) -> Result<(), ParseError>
        requires { F.IsAlwaysCallable callback }
        // Where a stream has been read, in any chunks, the callback is called with each action that the bytes newly
        // decide.
        ensures called { OnOk result
            ((stream : List ℕ) → self.old.held ≡ held_of stream
            → (last : F)
            × IsCalledAt (λ f a f'. F.step f a tt f') callback (newly_decided_actions stream bytes.now) last) }
        // The bytes have then been read too.
        ensures held { OnOk result
            ((stream : List ℕ) → self.old.held ≡ held_of stream → self.new.held ≡ held_of (stream ++ bytes.now)) }
        // A call fails where an earlier one was refused memory, and only then is that its error.
        ensures failed { IsErrOf result ParseError.Failed ↔ (self.old.failed ≡ true) }
        // A parser has failed once it was refused memory.
        ensures after { self.new.failed ≡ is_err result }
    {
        let _callback = self.parse_with(bytes, callback)?;
        Ok(())
    }

    /// Reads bytes, and returns the actions that they decide after those that were read before, joined by `append_to`.
    /// A call that was refused memory returns `Memory`, and each later call `Failed`, without reading.
    pub fn parse_as_vec(&mut self, bytes: &[u8]) -> Result<Vec<Action>, ParseError>
        // Where a stream has been read, in any chunks, these are the actions that the bytes newly decide.
        ensures actions { IfOk result
            (λ actions. (stream : List ℕ) → self.old.held ≡ held_of stream
            → map value_of actions.items ≡ fold appended [] (newly_decided_actions stream bytes.now)) }
        // The bytes have then been read too.
        ensures held { IfOk result
            (λ _. (stream : List ℕ) → self.old.held ≡ held_of stream → self.new.held ≡ held_of (stream ++ bytes.now)) }
        // A call fails where an earlier one was refused memory, and only then is that its error.
        ensures failed { IsErrOf result ParseError.Failed ↔ (self.old.failed ≡ true) }
        // A parser has failed once it was refused memory.
        ensures after { self.new.failed ≡ is_err result }
    {
        let mut joined = Joined {
            actions: Vec::new(self.alloc()),
        };
        match self.hand_to(bytes, &mut joined) {
            Ok(()) => Ok(joined.actions),
            Err(halted) => Err(ParseError::from(halted)),
        }
    }
}
