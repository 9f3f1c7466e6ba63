//! SGR lists, read setting by setting where their bytes stand.
ghost use Rattle.std.specs.Prelude.{◌≡◌, ◌∷◌, Bool, IfSome};
ghost use Rattle.csi_codec.specs.Actions.{csi_reading, sgr};
ghost use Rattle.csi_codec.specs.Sources.{settings_left, IsSgrList};
ghost use Rattle.csi_codec.specs.Texts.{tokens_of};

use crate::rendition::Sgr;
use crate::sgr_reading::read_group;
use crate::sources::RawParameters;

/// The first setting of an SGR list, given by its parameter bytes, and the bytes after it; the empty list is a reset.
/// `None`: the list begins with no setting.
#[inline(always)]
pub fn next_setting(list: &[u8]) -> Option<(Sgr, &[u8])>
    requires { IsSgrList list.now }
    ensures reads { IfSome result (λ found. (truncated : Bool) → csi_reading (tokens_of list.now) truncated 109
        ≡ sgr found.0 ∷ settings_left found.1.now truncated) }
    ensures rest { IfSome result (λ found. IsSgrList found.1.now) }
{
    if list.is_empty() {
        return Some((Sgr::Reset, list));
    }
    let (value, rest) = read_group(RawParameters { bytes: list })?;
    Some((value, rest.bytes))
}
