//! Copies of commands.

ghost use Rattle.std.specs.Prelude.{◌≡◌, IfOk};
ghost use Rattle.escape_osc.specs.CommandView.{command_of};

use crate::command::OperatingSystemCommand;
use std::alloc::AllocError;

impl OperatingSystemCommand {
    /// A copy of the command. A link is shared with it.
    #[tactic(auto, using(crate::proofs::CopyLemmas::parts_cloned))]
    pub fn try_clone(&self) -> Result<OperatingSystemCommand, AllocError>
        ensures { IfOk result (λ copy. command_of copy ≡ command_of self.now) }
    {
        match self {
            OperatingSystemCommand::SetIconNameAndWindowTitle(text) => {
                Ok(OperatingSystemCommand::SetIconNameAndWindowTitle(text.clone()?))
            }
            OperatingSystemCommand::SetIconName(text) => {
                Ok(OperatingSystemCommand::SetIconName(text.clone()?))
            }
            OperatingSystemCommand::SetWindowTitle(text) => {
                Ok(OperatingSystemCommand::SetWindowTitle(text.clone()?))
            }
            OperatingSystemCommand::CurrentWorkingDirectory(text) => {
                Ok(OperatingSystemCommand::CurrentWorkingDirectory(text.clone()?))
            }
            OperatingSystemCommand::SetHyperlink(Some(link)) => {
                Ok(OperatingSystemCommand::SetHyperlink(Some(link.clone()?)))
            }
            OperatingSystemCommand::SetHyperlink(None) => {
                Ok(OperatingSystemCommand::SetHyperlink(None))
            }
            OperatingSystemCommand::SetSelection(selection, text) => {
                Ok(OperatingSystemCommand::SetSelection(*selection, text.clone()?))
            }
            OperatingSystemCommand::QuerySelection(selection) => {
                Ok(OperatingSystemCommand::QuerySelection(*selection))
            }
            OperatingSystemCommand::ClearSelection(selection) => {
                Ok(OperatingSystemCommand::ClearSelection(*selection))
            }
            OperatingSystemCommand::Unspecified(parts) => {
                Ok(OperatingSystemCommand::Unspecified(parts.clone()?))
            }
        }
    }
}
