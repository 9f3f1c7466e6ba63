//! `Actions`: the actions that encode changes, gathered one after another.
ghost use Rattle.std.specs.Prelude.{◌≡◌, ◌++◌, ◌∷◌, [], length, map, take, IfOk, OnOk, option_map};
ghost use Rattle.csi_codec.specs.Actions as codec;
ghost use Rattle.escape_osc.specs.Command.{set_window_title};
ghost use Rattle.escape_stream.specs.Controls.{control_number};
ghost use Rattle.escape_stream.specs.StreamAction.{command, control, csi};
ghost use Rattle.escape_stream.specs.StreamActionView.{value_of};
ghost use Rattle.escape_stream.specs.StreamText.{stream_text};
ghost use Rattle.terminal_render.specs.Pen.{link_action, set};
ghost use Rattle.terminal_render.specs.PositionsView.{move_cursor};
ghost use Rattle.terminal_render.specs.Texts.{run_actions};

use crate::borrowed_action::BorrowedAction;
use crate::moves::Move;
use cell_base::Hyperlink;
use csi_codec::{Edit, Mode, Sgr};
use escape_stream::{Action, ControlCode};
use std::alloc::{AllocError, Global};
use std::marker::Model;
use std::rc::Rc;

/// Actions in the order in which they are written, borrowed from the changes that they encode.
#[derive(Drop)]
pub(crate) struct Actions<'a> {
    list: Vec<BorrowedAction<'a>>,
}

impl<'a> Model for Actions<'a> {
    ghost use Rattle.std.specs.Prelude.{List};
    ghost use Rattle.escape_stream.specs.StreamAction.{StreamAction};

    ghost Value = { List StreamAction };

    ghost use Rattle.terminal_render.specs.BorrowedActionView.{borrowed_values};

    ghost view = { λ actions. borrowed_values actions.list.items };
}

impl<'a> Actions<'a> {
    /// No actions.
    pub(crate) fn new(alloc: Global) -> Actions<'a>
        ensures { result ≡ [] }
    {
        Actions {
            list: Vec::new(alloc),
        }
    }

    /// Drops all actions.
    pub(crate) fn clear(&mut self)
        ensures { self.new ≡ [] }
    {
        self.list.clear();
    }

    /// Appends an SGR.
    pub(crate) fn push_sgr(&mut self, value: Sgr) -> Result<(), AllocError>
        ensures { OnOk result (self.new ≡ self.old ++ csi (codec.sgr value) ∷ []) }
    {
        self.list.push(BorrowedAction::Setting(value))?;
        Ok(())
    }

    /// Appends an SGR, if there is one.
    pub(crate) fn push_setting(&mut self, value: Option<Sgr>) -> Result<(), AllocError>
        ensures { OnOk result (self.new ≡ self.old ++ set value) }
    {
        match value {
            Some(value) => self.push_sgr(value),
            None => Ok(()),
        }
    }

    /// Appends a move of the cursor.
    pub(crate) fn push_move(&mut self, step: Move) -> Result<(), AllocError>
        ensures { OnOk result (self.new ≡ self.old ++ csi (codec.cursor (move_cursor step)) ∷ []) }
    {
        self.list.push(BorrowedAction::Move(step))?;
        Ok(())
    }

    /// Appends an edit (ED, EL, SU or SD).
    pub(crate) fn push_edit(&mut self, edit: Edit) -> Result<(), AllocError>
        ensures { OnOk result (self.new ≡ self.old ++ csi (codec.edit edit) ∷ []) }
    {
        self.list.push(BorrowedAction::Edit(edit))?;
        Ok(())
    }

    /// Appends a mode that is set or reset.
    pub(crate) fn push_mode(&mut self, mode: Mode) -> Result<(), AllocError>
        ensures { OnOk result (self.new ≡ self.old ++ csi (codec.mode mode) ∷ []) }
    {
        self.list.push(BorrowedAction::Mode(mode))?;
        Ok(())
    }

    /// Appends a control character.
    pub(crate) fn push_control(&mut self, code: ControlCode) -> Result<(), AllocError>
        ensures { OnOk result (self.new ≡ self.old ++ control (control_number code) ∷ []) }
    {
        self.list.push(BorrowedAction::Control(code))?;
        Ok(())
    }

    /// Appends a text that is printed, and NUL, which ends the run.
    pub(crate) fn push_run(&mut self, text: &'a str) -> Result<(), AllocError>
        ensures { OnOk result (self.new ≡ self.old ++ run_actions text.now) }
    {
        self.list.push(BorrowedAction::Text(text))?;
        self.push_control(ControlCode::Null)
    }

    /// Appends OSC 2.
    pub(crate) fn push_title(&mut self, title: &'a str) -> Result<(), AllocError>
        ensures { OnOk result (self.new ≡ self.old ++ command (set_window_title title.now) ∷ []) }
    {
        self.list.push(BorrowedAction::Title(title))?;
        Ok(())
    }

    /// Appends OSC 8: a link, or the end of one.
    pub(crate) fn push_link(&mut self, link: Option<&'a Rc<Hyperlink>>) -> Result<(), AllocError>
        ensures { OnOk result (self.new ≡ self.old ++ link_action (option_map (λ l. l.now.value) link.entry) ∷ []) }
    {
        self.list.push(BorrowedAction::Link(link))?;
        Ok(())
    }

    /// The actions, with copies of the texts that they borrow.
    pub(crate) fn to_vec(&self, alloc: Global) -> Result<Vec<Action>, AllocError>
        ensures { IfOk result (λ actions. map value_of actions.items ≡ self.now) }
    {
        let mut actions = Vec::new(alloc);
        for action in &self.list {
            actions.push(action.to_action(alloc)?)?;
        }
        Ok(actions)
    }

    /// Appends the bytes of the actions. Where memory is refused, some of them may have been appended.
    #[tactic(auto, using(crate::proofs::EncodedLemmas::text_next, crate::proofs::EncodedLemmas::text_end))]
    pub(crate) fn append_to(&self, bytes: &mut Vec<u8>) -> Result<(), AllocError>
        ensures ok { OnOk result (bytes.new.items ≡ bytes.old.items ++ stream_text self.now) }
        ensures prefix { take (length bytes.old.items) bytes.new.items ≡ bytes.old.items }
    {
        for action in &self.list {
            action.append_to(bytes)?;
        }
        Ok(())
    }
}
