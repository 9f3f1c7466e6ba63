//! Values that are written as a control sequence (`ESC [`, parameters and an ASCII final byte), and the texts that
//! several kinds of them share.
ghost use Rattle.std.specs.Prelude.{◌≡◌, ◌<◌, [], Some};
ghost use Rattle.std.specs.Fmt.{DisplaysOnOk};
ghost use Rattle.csi_codec.specs.Parameters.{Spelled, spelled, spelled_text, sequence_text, count_tokens};
ghost use Rattle.csi_codec.specs.Parameters.{number_tokens, pair_tokens, extent_tokens};

use crate::one_based::OneBased;
use crate::text::SequenceText;
use std::fmt;

/// A value that is written as a control sequence: parameters and a final byte after `ESC [`.
pub(crate) trait ControlSequence {
    ghost spelling: { Self → Spelled };

    /// Sets `text` to the text of the sequence.
    fn put_text(&self, text: &mut SequenceText)
        ensures { text.new ≡ sequence_text (spelling self.now) };
}

/// Writes the parameters and the final byte of a control sequence.
pub(crate) fn write_parameters<S: ControlSequence, W: fmt::Write>(
    sequence: &S,
    f: &mut fmt::Formatter<W>,
) -> fmt::Result
    ensures { DisplaysOnOk W.write_str_gives f.old result (Some (spelled_text (S.spelling sequence.now))) f.new }
{
    let mut text = SequenceText::new();
    sequence.put_text(&mut text);
    f.write_str(text.parameters())
}

/// Sets `text` to the sequence without parameters.
pub(crate) fn put_final(control: u8, text: &mut SequenceText)
    requires { control < 128 }
    ensures { text.new ≡ sequence_text (spelled [] control) }
{
    let mut built = SequenceText::opened();
    built.push_sign(control);
    *text = built;
}

/// Sets `text` to the sequence with one number, which is always written.
pub(crate) fn put_number(number: u32, control: u8, text: &mut SequenceText)
    requires { control < 128 }
    ensures { text.new ≡ sequence_text (spelled (number_tokens number) control) }
{
    let mut built = SequenceText::opened();
    built.push_number(number);
    built.push_sign(control);
    *text = built;
}

/// Sets `text` to the sequence with a count, which is not written where it is 1.
pub(crate) fn put_count(count: u32, control: u8, text: &mut SequenceText)
    requires { control < 128 }
    ensures { text.new ≡ sequence_text (spelled (count_tokens count) control) }
{
    if count == 1 {
        put_final(control, text);
    } else {
        put_number(count, control, text);
    }
}

/// Sets `text` to the sequence with two positions, both written.
pub(crate) fn put_pair(a: OneBased, b: OneBased, control: u8, text: &mut SequenceText)
    requires { control < 128 }
    ensures { text.new ≡ sequence_text (spelled (pair_tokens a b) control) }
{
    let mut built = SequenceText::opened();
    built.push_number(a.as_one_based());
    built.push_sign(b';');
    built.push_number(b.as_one_based());
    built.push_sign(control);
    *text = built;
}

/// Sets `text` to the sequence with the extent of an erasure, which is not written where it is 0.
pub(crate) fn put_extent(extent: u16, control: u8, text: &mut SequenceText)
    requires { control < 128 }
    ensures { text.new ≡ sequence_text (spelled (extent_tokens extent) control) }
{
    if extent == 0 {
        put_final(control, text);
    } else {
        put_number(u32::from(extent), control, text);
    }
}
