//! Laws of the texts of actions: functions that do nothing, each ensuring one.
ghost use Rattle.escape_stream.specs.StreamText.{TextsJoin};
ghost use Rattle.escape_stream.specs.StreamWritable.{ReadFormsEncodeAlike, WritableListsEndWhole};
ghost use Rattle.escape_stream.specs.StreamWritable.{WritableListsReadBack, WritableListsEndOn, WritableListsReadOn};
ghost use Rattle.escape_stream.specs.StreamWritable.{ReadSequencesAreWritable, ReadCommandsAreWritable};

/// The bytes of two joined lists of actions are the bytes of the first and then those of the second, unless the first
/// ends in an operating system command or the end of a device control string, and the second begins with a
/// `StringTerminator`.
pub fn encoded_lists_join()
    ensures { TextsJoin }
{}

/// A list of actions keeps its bytes where its prints are split into characters, and a `StringTerminator` is added
/// after each operating system command and each end of a device control string that has none. So the bytes of a list
/// do not tell the two lists apart.
pub fn read_forms_encode_alike()
    ensures { ReadFormsEncodeAlike }
{}

/// The bytes of a writable list are read as its actions, with prints split into characters and a `StringTerminator`
/// after each operating system command and each end of a device control string that has none; and no bytes of it are
/// left unfinished. So a parser that reads what `encode` wrote hands these actions out.
pub fn writable_lists_read_back()
    ensures actions { WritableListsReadBack }
    ensures whole { WritableListsEndWhole }
{}

/// After any stream that leaves no bytes unfinished: the actions that the bytes of a writable list decide, and the
/// state that they leave, do not depend on the stream. So a parser that has read such a stream, in any chunks, and
/// then reads the output of `encode` hands these actions out.
pub fn writable_lists_read_on()
    ensures actions { WritableListsReadOn }
    ensures whole { WritableListsEndOn }
{}

/// The actions of a list of at most 256 parameters that bytes can encode, with a final byte from `@` to `~`, can be
/// written: each is the one action of its own bytes. The exception is the unread rest of modes after at least one
/// mode, where the rest begins with `?` or the final byte is `s` or `r`.
pub fn read_sequences_are_writable()
    ensures { ReadSequencesAreWritable }
{
    csi_codec::laws::actions_read_back();
    csi_codec::laws::texts_are_sequences();
}

/// The operating system command that is read from a body of a stream can be written, where the body holds no C1 control
/// once its C0 controls and DEL are dropped. It can hold one only where a dropped control lay between the two bytes of
/// the C1 control.
pub fn read_commands_are_writable()
    ensures { ReadCommandsAreWritable }
{}
