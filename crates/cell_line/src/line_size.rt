//! The sizes at which a line is shown.
ghost use Rattle.std.specs.Prelude.{◌≡◌};
ghost use Rattle.cell_line.specs.LineCalls.{set_single_width, set_double_width, set_double_height_top};
ghost use Rattle.cell_line.specs.LineCalls.{set_double_height_bottom, is_single_width, is_double_width};
ghost use Rattle.cell_line.specs.LineCalls.{is_double_height_top, is_double_height_bottom};

use crate::line::Line;
use crate::line_bits::LineBits;
use cell_base::{LineAttribute, SequenceNo};

impl Line {
    /// Whether the line is shown at normal size: it has no bits.
    pub fn is_single_width(&self) -> bool
        ensures { result ≡ is_single_width self.now }
    {
        self.bits.shows(LineAttribute::SingleWidthLine)
    }

    /// Whether the line is shown at double width alone.
    pub fn is_double_width(&self) -> bool
        ensures { result ≡ is_double_width self.now }
    {
        self.bits.shows(LineAttribute::DoubleWidthLine)
    }

    /// Whether the line is the top half of one shown at double width and height.
    pub fn is_double_height_top(&self) -> bool
        ensures { result ≡ is_double_height_top self.now }
    {
        self.bits.shows(LineAttribute::DoubleHeightTopHalfLine)
    }

    /// Whether the line is the bottom half of one shown at double width and height.
    pub fn is_double_height_bottom(&self) -> bool
        ensures { result ≡ is_double_height_bottom self.now }
    {
        self.bits.shows(LineAttribute::DoubleHeightBottomHalfLine)
    }

    /// Shows the line at normal size.
    pub fn set_single_width(&mut self, seqno: SequenceNo)
        ensures { self.new ≡ set_single_width self.old seqno }
    {
        self.bits = LineBits::new(LineAttribute::SingleWidthLine);
        self.update_last_change_seqno(seqno);
    }

    /// Shows the line at double width.
    pub fn set_double_width(&mut self, seqno: SequenceNo)
        ensures { self.new ≡ set_double_width self.old seqno }
    {
        self.bits = LineBits::new(LineAttribute::DoubleWidthLine);
        self.update_last_change_seqno(seqno);
    }

    /// Shows the line as the top half of one at double width and height.
    pub fn set_double_height_top(&mut self, seqno: SequenceNo)
        ensures { self.new ≡ set_double_height_top self.old seqno }
    {
        self.bits = LineBits::new(LineAttribute::DoubleHeightTopHalfLine);
        self.update_last_change_seqno(seqno);
    }

    /// Shows the line as the bottom half of one at double width and height.
    pub fn set_double_height_bottom(&mut self, seqno: SequenceNo)
        ensures { self.new ≡ set_double_height_bottom self.old seqno }
    {
        self.bits = LineBits::new(LineAttribute::DoubleHeightBottomHalfLine);
        self.update_last_change_seqno(seqno);
    }
}
