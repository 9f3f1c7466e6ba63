//! Laws of the readings, as functions that do nothing and ensure them.
ghost use Rattle.csi_codec.specs.Prefixes.{OnePrefix, TextsAreSequences};
ghost use Rattle.csi_codec.specs.Laws.{ActionsReadBack, SgrListsJoin};
ghost use Rattle.csi_codec.specs.Longest.{LongestShapeDecides};
ghost use Rattle.csi_codec.specs.Sizes.{ActionsAreShort};
ghost use Rattle.csi_codec.specs.Writable.{WritableActionsReadBack, WritableTextsAreSequences};

/// The actions of an SGR list, a `;` and a second list are the actions of the first list and then those of the second.
/// Both lists have at least one token and only tokens of SGR; the first has no unread rest and does not end in `;`.
pub fn sgr_lists_join()
    ensures { SgrListsJoin }
{}

/// The parameters and the final byte written for an action of a list mean that action, under the same flag. The
/// exception is the unread rest of a list of modes after at least one mode, if it begins with `?` or its final byte is
/// `s` or `r`.
pub fn actions_read_back()
    ensures { ActionsReadBack }
{}

/// At most one sequence is a prefix of given bytes.
pub fn one_prefix()
    ensures { OnePrefix }
{}

/// The text of each action of a list is one sequence with nothing after it, and encodes the parameters and the final
/// byte that are written for the action. The list is one that bytes can encode, has at most 256 tokens, and a final
/// byte from `@` to `~`.
pub fn texts_are_sequences()
    ensures { TextsAreSequences }
{}

/// An action that can be written is the one action of the parameters and the final byte that are written for it, under
/// either flag: a cursor sequence or an edit whose counts and positions are 1 to 4294967295, every request, a mode by
/// its name or by a number to 65535 that has no name, and every SGR setting, where alternate fonts are 1 to 9. Its
/// text is one sequence of these parameters and this final byte, with nothing after it. So a program that builds and
/// writes one of these actions knows how a reader reads it.
pub fn writable_actions_read_back()
    ensures action { WritableActionsReadBack }
    ensures text { WritableTextsAreSequences }
{}

/// The text of an action that can be written has at most 24 bytes, the length of the longest SGR
/// (`ESC [38:6::255:255:255:255m`) and of the longest cursor sequence (`ESC [4294967295;4294967295H`).
pub fn writable_texts_are_short()
    ensures action { ActionsAreShort }
{}

/// The longest shape decides: no listed shape of SGR at the start of a list is longer than the one chosen there.
pub fn longest_shape_decides()
    ensures { LongestShapeDecides }
{}
