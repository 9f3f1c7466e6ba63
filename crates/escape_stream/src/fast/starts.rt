//! What is whole at the start of the remaining bytes, where nothing is unfinished, and data of a device control string.
ghost use Rattle.std.specs.Prelude.{◌≡◌, None};
ghost use Rattle.escape_framing.specs.Held.{nothing_held};
ghost use Rattle.escape_stream.specs.PiecesView.{parser_of, IsGoing};
ghost use Rattle.escape_stream.specs.Walking.{FindsPiece, ReadsList};
ghost use Rattle.escape_stream.specs.declared.action.Action.TheVariants as action;
ghost use Rattle.escape_stream.specs.declared.device.DeviceControlMode.TheVariants as part;
ghost use Rattle.escape_stream.specs.declared.pieces.Piece.TheVariants as piece;

use crate::control::ControlCode;
use crate::pieces::Reading;
use csi_codec::Esc;

impl<'p, 'a> Reading<'p, 'a> {
    // Reads the control at the start of the remaining bytes. `None`: take the general way.
    #[inline(always)]
    pub(crate) fn read_control(&mut self) -> Option<ControlCode>
        requires going { IsGoing self.old }
        requires over { self.old.sequence ≡ None }
        requires idle { (parser_of self.old).held ≡ nothing_held }
        ensures { FindsPiece (λ code. piece.Action (action.Control code)) self.old result self.new }
    {
        let before = self.count;
        let bytes = self.rest();
        let byte = self.parser.framer().whole_control(bytes)?;
        let code = ControlCode::from_u8(byte)?;
        self.count = before + 1;
        Some(code)
    }

    // Reads the text at the start of the remaining bytes. `None`: take the general way.
    #[inline(always)]
    pub(crate) fn read_text(&mut self) -> Option<&'a str>
        requires going { IsGoing self.old }
        requires over { self.old.sequence ≡ None }
        requires idle { (parser_of self.old).held ≡ nothing_held }
        ensures { FindsPiece (λ text. piece.Text text) self.old result self.new }
    {
        let before = self.count;
        let bytes = self.rest();
        let len = self.parser.framer().whole_text(bytes)?;
        self.count = before + len;
        Some(self.text_at(before, len))
    }

    // Reads the ESC pair at the start of the remaining bytes. `None`: take the general way.
    #[inline(always)]
    pub(crate) fn read_escape(&mut self) -> Option<Esc>
        requires going { IsGoing self.old }
        requires over { self.old.sequence ≡ None }
        requires idle { (parser_of self.old).held ≡ nothing_held }
        ensures { FindsPiece (λ pair. piece.Action (action.Esc pair)) self.old result self.new }
    {
        let before = self.count;
        let bytes = self.rest();
        let byte = self.parser.framer().whole_escape(bytes)?;
        self.count = before + 2;
        Some(Esc::parse(None, byte))
    }

    // Reads the bytes at the start of the remaining ones that U+FFFD stands for, as this character. `None`: take the
    // general way.
    #[inline(always)]
    pub(crate) fn read_stray(&mut self) -> Option<char>
        requires going { IsGoing self.old }
        requires over { self.old.sequence ≡ None }
        requires idle { (parser_of self.old).held ≡ nothing_held }
        ensures { FindsPiece (λ character. piece.Action (action.Print character)) self.old result self.new }
    {
        let before = self.count;
        let bytes = self.rest();
        let len = self.parser.framer().whole_stray(bytes)?;
        self.count = before + len;
        Some('\u{fffd}')
    }

    // Reads the byte of a device control string at the start of the remaining bytes. `None`: take the general way.
    #[inline(always)]
    pub(crate) fn read_data(&mut self) -> Option<u8>
        requires going { IsGoing self.old }
        requires over { self.old.sequence ≡ None }
        ensures { FindsPiece (λ byte. piece.Action (action.DeviceControl (part.Data byte))) self.old result self.new }
    {
        let before = self.count;
        let bytes = self.rest();
        let byte = self.parser.framer().whole_data(bytes)?;
        self.count = before + 1;
        Some(byte)
    }

    // Reads the control sequence of a list of numbers at the start of the remaining bytes: its parameter bytes, and its
    // final byte. `None`: take the general way.
    #[inline(always)]
    pub(crate) fn read_list(&mut self) -> Option<(&'a [u8], u8)>
        requires going { IsGoing self.old }
        requires over { self.old.sequence ≡ None }
        requires idle { (parser_of self.old).held ≡ nothing_held }
        ensures { ReadsList self.old result self.new }
    {
        let before = self.count;
        let bytes = self.rest();
        let (list, control) = self.parser.framer().whole_sequence(bytes)?;
        let count = list.len() + 3;
        self.count = before + count;
        Some((list, control))
    }
}
