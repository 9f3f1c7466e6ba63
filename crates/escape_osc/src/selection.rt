//! The selections of OSC 52.

ghost use Rattle.std.specs.Prelude.{⊤, ◌≡◌, option_map, Some};
ghost use Rattle.escape_osc.specs.Selection.{bits_of, flag_table, letter_bits, letters_bits, selection_reading};

use crate::show::LETTERS;
use bitflags::{Flag, Flags};

/// A set of selections: the clipboard, the primary selection, the selection that the terminal is set to
/// use, and ten cut buffers. An OSC 52 names the set by a letter for each selection.
#[derive(Clone, Copy, Debug, PartialEq, Eq)]
pub struct Selection(u16);

impl Selection {
    /// The clipboard, letter `c`.
    pub const CLIPBOARD: Selection = Selection(1 << 1);

    /// The primary selection, letter `p`.
    pub const PRIMARY: Selection = Selection(1 << 2);

    /// The selection that the terminal is set to use, letter `s`.
    pub const SELECT: Selection = Selection(1 << 3);

    /// Cut buffer 0, letter `0`.
    pub const CUT0: Selection = Selection(1 << 4);

    /// Cut buffer 1, letter `1`.
    pub const CUT1: Selection = Selection(1 << 5);

    /// Cut buffer 2, letter `2`.
    pub const CUT2: Selection = Selection(1 << 6);

    /// Cut buffer 3, letter `3`.
    pub const CUT3: Selection = Selection(1 << 7);

    /// Cut buffer 4, letter `4`.
    pub const CUT4: Selection = Selection(1 << 8);

    /// Cut buffer 5, letter `5`.
    pub const CUT5: Selection = Selection(1 << 9);

    /// Cut buffer 6, letter `6`.
    pub const CUT6: Selection = Selection(1 << 10);

    /// Cut buffer 7, letter `7`.
    pub const CUT7: Selection = Selection(1 << 11);

    /// Cut buffer 8, letter `8`.
    pub const CUT8: Selection = Selection(1 << 12);

    /// Cut buffer 9, letter `9`.
    pub const CUT9: Selection = Selection(1 << 13);

    const FLAGS: &'static [Flag<Selection>] = &[
        Flag {
            name: "CLIPBOARD",
            value: Selection::CLIPBOARD,
        },
        Flag {
            name: "PRIMARY",
            value: Selection::PRIMARY,
        },
        Flag {
            name: "SELECT",
            value: Selection::SELECT,
        },
        Flag {
            name: "CUT0",
            value: Selection::CUT0,
        },
        Flag {
            name: "CUT1",
            value: Selection::CUT1,
        },
        Flag {
            name: "CUT2",
            value: Selection::CUT2,
        },
        Flag {
            name: "CUT3",
            value: Selection::CUT3,
        },
        Flag {
            name: "CUT4",
            value: Selection::CUT4,
        },
        Flag {
            name: "CUT5",
            value: Selection::CUT5,
        },
        Flag {
            name: "CUT6",
            value: Selection::CUT6,
        },
        Flag {
            name: "CUT7",
            value: Selection::CUT7,
        },
        Flag {
            name: "CUT8",
            value: Selection::CUT8,
        },
        Flag {
            name: "CUT9",
            value: Selection::CUT9,
        },
    ];

    // The selection of one letter.
    #[tactic(auto, using(crate::proofs::ShowLemmas::row_steps))]
    fn from_letter(letter: u8) -> Option<Selection>
        ensures { option_map bits_of result ≡ letter_bits letter }
    {
        for (known, selection) in &LETTERS {
            if *known == char::from(letter) {
                return Some(*selection);
            }
        }
        None
    }

    // The selections of the letters together; `None` where a letter has no selection.
    #[tactic(auto, using(crate::proofs::SelectionLemmas::letters_steps))]
    fn from_each_letter(letters: &[u8]) -> Option<Selection>
        ensures { option_map bits_of result ≡ letters_bits letters.now }
    {
        let mut all = Selection::empty();
        for letter in letters {
            match Selection::from_letter(*letter) {
                Some(selection) => all.insert(selection),
                None => return None,
            }
        }
        Some(all)
    }

    // The selections of the letters together, or SELECT and CUT0 where there is no letter.
    #[tactic(auto, unfolding(crate::specs::Selection::selection_reading))]
    pub(crate) fn from_letters(letters: &[u8]) -> Option<Selection>
        ensures { option_map bits_of result ≡ selection_reading letters.now }
    {
        if letters.is_empty() {
            Some(Selection::SELECT.union(Selection::CUT0))
        } else {
            Selection::from_each_letter(letters)
        }
    }
}

impl Flags for Selection {
    type Bits = u16;

    ghost exact = { ⊤ };

    ghost table = { flag_table };

    ghost set_of = { bits_of };

    fn flags<'a>() -> &'a [Flag<Selection>] {
        Selection::FLAGS
    }

    fn bits(&self) -> u16 {
        self.0
    }

    fn from_bits_retain(bits: u16) -> Selection {
        Selection(bits)
    }
}
