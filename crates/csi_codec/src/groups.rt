//! Groups of parameters: the kinds of lists, and the group of a mode.
ghost use Rattle.std.specs.Prelude.{◌≡◌, option_map};
ghost use Rattle.csi_codec.specs.Actions.{all_sgr_tokens, found_mode, group_of};
ghost use Rattle.csi_codec.specs.Parsing.{kind_of};

use crate::modes::{Mode, mode_reading, private_mode_reading};
use crate::parameters::{CsiParam, semicolon_at};

/// The kind of the modes in a list: private modes, or modes of the standard.
#[derive(Clone, Copy, Debug)]
pub(crate) enum Kind {
    PrivateModes,
    StandardModes,
}

/// Whether a list has only the tokens of SGR: numbers, `;`, `:` and `?`.
pub(crate) fn all_sgr_tokens(params: &[CsiParam]) -> bool
    ensures { result ≡ all_sgr_tokens params.now }
{
    for param in params {
        match param {
            CsiParam::Integer(_) | CsiParam::P(b';' | b':' | b'?') => (),
            CsiParam::P(_) => return false,
        }
    }
    true
}

/// The mode at the start of a list, and how many tokens it takes.
#[tactic(auto, unfolding(crate::specs::Actions::mode_group))]
pub(crate) fn mode_group(kind: Kind, params: &[CsiParam], control: char) -> Option<(Mode, usize)>
    ensures { option_map found_mode result ≡ group_of (kind_of kind) control params.now }
{
    match params.first().copied()? {
        CsiParam::P(_) => None,
        CsiParam::Integer(value) => {
            let mode = match kind {
                Kind::PrivateModes => private_mode_reading(value, control)?,
                Kind::StandardModes => mode_reading(value, control)?,
            };
            Some((mode, 1 + semicolon_at(params, 1)))
        }
    }
}
