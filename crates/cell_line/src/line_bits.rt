//! The bits of a line.
ghost use Rattle.std.specs.Prelude.{⊤, ◌≡◌, ◌↔◌, IsTrue};
ghost use Rattle.cell_line.specs.LineBits.{bits_of, bits_for, flag_table};
ghost use Rattle.cell_line.specs.LineContent.{same_bits};

use bitflags::{Flag, Flags};
use cell_base::LineAttribute;
use std::marker::Model;

// Any set of bits.
#[derive(Debug, Clone, Copy, PartialEq, Eq)]
pub(crate) struct BitSet(u8);

impl BitSet {
    // Shown at double width.
    const DOUBLE_WIDTH: BitSet = BitSet(1 << 0);

    // The top half of a line at double height.
    const DOUBLE_HEIGHT_TOP: BitSet = BitSet(1 << 1);

    // The bottom half of a line at double height.
    const DOUBLE_HEIGHT_BOTTOM: BitSet = BitSet(1 << 2);

    const FLAGS: &'static [Flag<BitSet>] = &[
        Flag {
            name: "DOUBLE_WIDTH",
            value: BitSet::DOUBLE_WIDTH,
        },
        Flag {
            name: "DOUBLE_HEIGHT_TOP",
            value: BitSet::DOUBLE_HEIGHT_TOP,
        },
        Flag {
            name: "DOUBLE_HEIGHT_BOTTOM",
            value: BitSet::DOUBLE_HEIGHT_BOTTOM,
        },
    ];

    // The bits of a line with this line attribute.
    fn shown_as(attribute: LineAttribute) -> BitSet
        ensures { bits_of result ≡ bits_for attribute }
    {
        let wide = BitSet::DOUBLE_WIDTH;
        match attribute {
            LineAttribute::SingleWidthLine => BitSet::empty(),
            LineAttribute::DoubleWidthLine => wide,
            LineAttribute::DoubleHeightTopHalfLine => wide.union(BitSet::DOUBLE_HEIGHT_TOP),
            LineAttribute::DoubleHeightBottomHalfLine => wide.union(BitSet::DOUBLE_HEIGHT_BOTTOM),
        }
    }
}

impl Flags for BitSet {
    type Bits = u8;

    ghost exact = { ⊤ };

    ghost table = { flag_table };

    ghost set_of = { bits_of };

    fn flags<'a>() -> &'a [Flag<BitSet>] {
        BitSet::FLAGS
    }

    fn bits(&self) -> u8 {
        self.0
    }

    fn from_bits_retain(bits: u8) -> BitSet {
        BitSet(bits)
    }
}

// The bits of a line: one of the four sets by which a line is shown.
#[derive(Debug, Drop)]
pub(crate) struct LineBits {
    set: BitSet,
}

impl Model for LineBits {
    ghost use Rattle.cell_base.specs.declared.attributes.LineAttribute.{LineAttribute};

    ghost Value = { LineAttribute };

    ghost use Rattle.cell_line.specs.LineBitsView.{attribute_of, IsLawful};

    ghost view = { attribute_of };

    ghost invariant = { IsLawful };
}

impl LineBits {
    // The bits of a line with this line attribute.
    pub(crate) fn new(attribute: LineAttribute) -> LineBits
        ensures { result ≡ attribute }
    {
        LineBits {
            set: BitSet::shown_as(attribute),
        }
    }

    // A copy.
    pub(crate) fn copy(&self) -> LineBits
        ensures { result ≡ self.now }
    {
        LineBits { set: self.set }
    }

    // Whether these are the bits of a line with this line attribute.
    pub(crate) fn shows(&self, attribute: LineAttribute) -> bool
        ensures { result ≡ same_bits self.now attribute }
    {
        self.set == BitSet::shown_as(attribute)
    }

    // Whether the bits are the same.
    pub(crate) fn is_same(&self, other: &LineBits) -> bool
        ensures { IsTrue result ↔ (self.now ≡ other.now) }
    {
        self.set == other.set
    }
}
