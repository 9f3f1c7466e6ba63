//! The bytes of a command, appended to a list.

ghost use Rattle.std.specs.Prelude.{◌≡◌, ◌++◌, OnErr, OnOk, length, replicate, take};
ghost use Rattle.base64.specs.Engines.{standard};
ghost use Rattle.base64.specs.GeneralPurpose.{encoded_size_of};
ghost use Rattle.cell_base.specs.Link.{texts_of};
ghost use Rattle.cell_base.specs.LinkText.{link_text, params_text};
ghost use Rattle.escape_osc.specs.CommandView.{command_of};
ghost use Rattle.escape_osc.specs.Selection.{bits_of, letters_of};
ghost use Rattle.escape_osc.specs.Text.{base64_of, text_of};

use crate::command::OperatingSystemCommand;
use crate::selection::Selection;
use crate::show::LETTERS;
use base64::encoded_len;
use base64::engine::general_purpose::STANDARD;
use bitflags::Flags;
use cell_base::Hyperlink;
use std::alloc::AllocError;
use std::collections::BTreeMap;

impl OperatingSystemCommand {
    /// Appends the bytes of the command. The parts of an `Unspecified` are appended as they are, also where
    /// they are not UTF-8. Where memory is refused, `dest` stays as it was.
    pub fn append_bytes_to(&self, dest: &mut Vec<u8>) -> Result<(), AllocError>
        ensures ok { OnOk result (dest.new.items ≡ dest.old.items ++ text_of (command_of self.now)) }
        ensures err { OnErr result (dest.new.items ≡ dest.old.items) }
    {
        let len = dest.len();
        let result = self.append_text_to(dest);
        if result.is_err() {
            dest.truncate(len);
        }
        result
    }

    // Appends the bytes of the command. Where memory is refused, the bytes appended before stay.
    #[tactic(auto, using(crate::proofs::AppendLemmas::kept))]
    fn append_text_to(&self, dest: &mut Vec<u8>) -> Result<(), AllocError>
        ensures ok { OnOk result (dest.new.items ≡ dest.old.items ++ text_of (command_of self.now)) }
        ensures err { take (length dest.old.items) dest.new.items ≡ dest.old.items }
    {
        dest.extend_from_slice(b"\x1b]")?;
        self.body().append_to(dest)?;
        dest.extend_from_slice(b"\x1b\\")
    }
}

// Appends the letters of a selection, in the order of `LETTERS`. Where memory is refused, the letters appended before
// stay.
pub(crate) fn append_letters(selection: Selection, dest: &mut Vec<u8>) -> Result<(), AllocError>
    ensures ok { OnOk result (dest.new.items ≡ dest.old.items ++ letters_of (bits_of selection)) }
    ensures err { take (length dest.old.items) dest.new.items ≡ dest.old.items }
{
    for (letter, known) in &LETTERS {
        if selection.contains(*known) {
            let mut buffer = [0; 4];
            dest.extend_from_slice(letter.encode_utf8(&mut buffer).as_bytes())?;
        }
    }
    Ok(())
}

// Appends bytes in base64. Where memory is refused, `dest` stays as it was.
pub(crate) fn append_base64(bytes: &[u8], dest: &mut Vec<u8>) -> Result<(), AllocError>
    ensures ok { OnOk result (dest.new.items ≡ dest.old.items ++ base64_of bytes.now) }
    ensures err { OnErr result (dest.new.items ≡ dest.old.items) }
{
    let count = encoded_len(bytes.len(), true).ok_or(AllocError)?;
    let len = dest.len();
    append_zeros(count, dest)?;
    write_base64(bytes, &mut dest[len..]);
    Ok(())
}

// Appends zeros. Where memory is refused, `dest` stays as it was.
fn append_zeros(count: usize, dest: &mut Vec<u8>) -> Result<(), AllocError>
    ensures ok { OnOk result (dest.new.items ≡ dest.old.items ++ replicate count 0) }
    ensures err { OnErr result (dest.new.items ≡ dest.old.items) }
{
    let len = dest.len().checked_add(count).ok_or(AllocError)?;
    dest.resize(len, 0)
}

// Writes bytes in base64 over `symbols`, which has the length of their base64.
fn write_base64(bytes: &[u8], symbols: &mut [u8])
    requires { length symbols.old ≡ encoded_size_of standard (length bytes.now) }
    ensures { symbols.new ≡ base64_of bytes.now }
{
    let _written = STANDARD.encode_slice(bytes, symbols);
}

// Appends the text of a link. Where memory is refused, what was appended before stays.
#[tactic(auto, using(crate::proofs::AppendLemmas::kept), unfolding(cell_base::specs::LinkText::link_text))]
pub(crate) fn append_link(link: &Hyperlink, dest: &mut Vec<u8>) -> Result<(), AllocError>
    ensures ok { OnOk result (dest.new.items ≡ dest.old.items ++ link_text link.now) }
    ensures err { take (length dest.old.items) dest.new.items ≡ dest.old.items }
{
    dest.extend_from_slice(b"8;")?;
    append_params(link.params(), dest)?;
    dest.push(b';')?;
    dest.extend_from_slice(link.uri().as_bytes())
}

// Appends the parameters of a link, joined by `:`. Where memory is refused, what was appended before stays.
fn append_params(params: &BTreeMap<String, String>, dest: &mut Vec<u8>) -> Result<(), AllocError>
    ensures ok { OnOk result (dest.new.items ≡ dest.old.items ++ params_text (texts_of params.now.entries)) }
    ensures err { take (length dest.old.items) dest.new.items ≡ dest.old.items }
{
    let mut separator = "";
    for (key, value) in params {
        dest.extend_from_slice(separator.as_bytes())?;
        dest.extend_from_slice(key.as_bytes())?;
        dest.push(b'=')?;
        dest.extend_from_slice(value.as_bytes())?;
        separator = ":";
    }
    Ok(())
}
