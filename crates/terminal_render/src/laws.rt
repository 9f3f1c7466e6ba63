//! Laws of encodings: they have the change's effect and read back, and how long they are. Each is the contract of a
//! function that does nothing but name the laws that its proof uses.
ghost use Rattle.terminal_render.specs.Carried.{RenderingsAreWritable};
ghost use Rattle.terminal_render.specs.Lists.{ListTextsHaveTheEffect, ListTextsLeaveIdle, ListsHaveTheEffect};
ghost use Rattle.terminal_render.specs.Lists.{RenderingsJoin, WritableListsJoin};
ghost use Rattle.terminal_render.specs.Sizes.{RenderingsAreShort, RunsAreShort, TextsAreShort};
ghost use Rattle.terminal_render.specs.Effects.{RenderedTextsHaveTheEffect, RenderedTextsLeaveIdle};
ghost use Rattle.terminal_render.specs.Effects.{RenderingsHaveTheEffect};

use csi_codec::laws::{writable_actions_read_back, writable_texts_are_short};
use escape_framing::laws::idle_streams;
use escape_osc::laws::text_lengths;
use escape_stream::encoding_laws::writable_lists_read_on;

/// The encoding of a change has its effect: by the terminal's table it does to a screen what the change
/// does to it, and no run is held. The saved cursor and the replies stay.
pub fn renderings_have_the_effect()
    ensures { RenderingsHaveTheEffect }
{}

/// The encoding of a change reads back from its bytes: so a parser that reads the bytes that `encode` writes of
/// it hands out these actions.
pub fn renderings_are_writable()
    ensures { RenderingsAreWritable }
{
    writable_actions_read_back();
}

/// The bytes of a change's encoding, which read back as `render` ensures, have the change's effect
/// on the screen of a terminal of that size to which they are fed while nothing is unfinished and no run
/// is held, and leave nothing unfinished or held.
pub fn rendered_texts_have_the_effect()
    ensures effect { RenderedTextsHaveTheEffect }
    ensures idle { RenderedTextsLeaveIdle }
{
    idle_streams();
    writable_lists_read_on();
}

/// At most 320 bytes encode a change besides its text, its title and its link's parameters and URI. A text
/// takes at most twice its length in bytes, and one byte more than its length where it holds no C0 control or
/// DEL.
pub fn renderings_are_short()
    ensures remaining { RenderingsAreShort }
    ensures texts { TextsAreShort }
    ensures runs { RunsAreShort }
{
    writable_texts_are_short();
    text_lengths();
}

/// The encodings of changes in turn have the effect of the changes replayed, and so have their bytes, which
/// leave nothing unfinished or held.
pub fn lists_have_the_effect()
    ensures actions { ListsHaveTheEffect }
    ensures texts { ListTextsHaveTheEffect }
    ensures idle { ListTextsLeaveIdle }
{
    idle_streams();
    writable_lists_read_on();
}

/// The encoding of one more change follows the encodings of those before it; and two lists of actions that
/// read back from their bytes also read back joined.
pub fn lists_join()
    ensures renderings { RenderingsJoin }
    ensures writable { WritableListsJoin }
{}
