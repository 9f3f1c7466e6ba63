//! Enums of attributes, cursors, lines and positions, and the numbers of changes.
ghost use Rattle.std.specs.Prelude.{◌≡◌};
ghost use Rattle.cell_base.specs.Style.{is_underlined, is_blinking_text, is_blinking_shape};

/// The semantic type of a cell's text, in the order of `Ord`: output of a program, input of the
/// user, or the prompt.
#[derive(Debug, Clone, Copy, PartialEq, Eq, PartialOrd, Ord, Default)]
pub enum SemanticType {
    #[default]
    Output,
    Input,
    Prompt,
}

/// How bold a text is.
#[derive(Debug, Clone, Copy, PartialEq, Eq, Default)]
pub enum Intensity {
    #[default]
    Normal,
    Bold,
    Half,
}

/// How a text is underlined.
#[derive(Debug, Clone, Copy, PartialEq, Eq, Hash, Default)]
pub enum Underline {
    #[default]
    None,
    Single,
    Double,
    Curly,
    Dotted,
    Dashed,
}

impl From<Underline> for bool {
    ghost from_gives = { λ underline answer. answer ≡ is_underlined underline };

    fn from(underline: Underline) -> bool {
        underline != Underline::None
    }
}

/// How a text blinks.
#[derive(Debug, Clone, Copy, PartialEq, Eq)]
pub enum Blink {
    None,
    Slow,
    Rapid,
}

impl From<Blink> for bool {
    ghost from_gives = { λ blink answer. answer ≡ is_blinking_text blink };

    fn from(blink: Blink) -> bool {
        blink != Blink::None
    }
}

/// The vertical alignment of a text on its line.
#[derive(Debug, Clone, Copy, PartialEq, Eq)]
pub enum VerticalAlign {
    BaseLine,
    SuperScript,
    SubScript,
}

/// How wide and high the characters of a line are.
#[derive(Debug, Clone, Copy, PartialEq, Eq)]
pub enum LineAttribute {
    DoubleHeightTopHalfLine,
    DoubleHeightBottomHalfLine,
    DoubleWidthLine,
    SingleWidthLine,
}

/// A column or a row, counted from 0: as an offset from the current one, from the start, or from
/// the end.
#[derive(Debug, Clone, Copy, PartialEq, Eq)]
pub enum Position {
    Relative(isize),
    Absolute(usize),
    EndRelative(usize),
}

/// Whether the cursor shows.
#[derive(Debug, Clone, Copy, PartialEq, Eq, Hash, Default)]
pub enum CursorVisibility {
    Hidden,
    #[default]
    Visible,
}

/// The shape of the cursor, and whether it blinks.
#[derive(Debug, Clone, Copy, PartialEq, Eq, Hash, Default)]
pub enum CursorShape {
    #[default]
    Default,
    BlinkingBlock,
    SteadyBlock,
    BlinkingUnderline,
    SteadyUnderline,
    BlinkingBar,
    SteadyBar,
}

impl CursorShape {
    /// Whether the shape is one of the three that blink; `Default` isn't.
    pub fn is_blinking(self) -> bool
        ensures { result ≡ is_blinking_shape self }
    {
        matches!(
            self,
            CursorShape::BlinkingBlock | CursorShape::BlinkingUnderline | CursorShape::BlinkingBar
        )
    }
}

/// How many changes there have been; so the first change has the number 1.
pub type SequenceNo = usize;

/// The number while there has been no change.
pub const SEQ_ZERO: SequenceNo = 0;
