//! Worked examples: what a new display shows after some changes. Each is the contract of a
//! function that does nothing.
ghost use Rattle.std.specs.Prelude.{◌≡◌, pos, negsuc, [], ◌∷◌, ◌++◌, codes};
ghost use Rattle.cell_base.specs.declared.color.ColorAttribute.TheVariants.{Default};
ghost use Rattle.cell_base.specs.declared.attributes.Position.TheVariants.{Relative, EndRelative};
ghost use Rattle.cell_base.specs.Cluster.{program_width};
ghost use Rattle.screen_change.specs.ChangeValue.{Text, ClearScreen, ClearToEndOfLine, ClearToEndOfScreen};
ghost use Rattle.screen_change.specs.ChangeValue.{CursorPosition, ScrollRegionUp, ScrollRegionDown};
ghost use Rattle.screen_effects.specs.Display.{new_display};
ghost use Rattle.screen_effects.specs.Effect.{replay};
ghost use Rattle.screen_effects.specs.Resize.{resized};
ghost use Rattle.screen_effects.specs.Samples.{Seen, seen, seen_on, at, wide_letter, shrug, zero_width_between};

/// Texts go on in the next row, and scroll in the last one; CR and LF move the cursor.
pub fn texts_in_rows()
    ensures moves { seen 4 4 (Text (codes "bloo\rwat\n hey\r\nho") ∷ [])
        ≡ record { rows = codes "wato" ∷ codes "    " ∷ codes "hey " ∷ codes "ho  " ∷ []; column = 2; row = 3 } }
    ensures scrolls { seen 4 3
        (Text (codes "w00t") ∷ Text (codes "foo") ∷ Text (codes "baar") ∷ Text (codes "baz") ∷ [])
        ≡ record { rows = codes "foob" ∷ codes "aarb" ∷ codes "az  " ∷ []; column = 2; row = 2 } }
    ensures pending { seen 4 1 (Text (codes "abcd") ∷ []) ≡ record { rows = codes "abcd" ∷ []; column = 4; row = 0 } }
    ensures control { seen 4 1 (Text (97 ∷ 9 ∷ 98 ∷ []) ∷ [])
        ≡ record { rows = codes "a b " ∷ []; column = 3; row = 0 } }
    ensures kept { seen 4 2 (Text (codes "abcd\n") ∷ [])
        ≡ record { rows = codes "abcd" ∷ codes "    " ∷ []; column = 4; row = 1 } }
{}

/// Clears leave blanks: of the screen, of the end of a row, and of the rows below too; where a wrap is pending, nothing
/// of the row.
pub fn clears()
    ensures home { seen 2 2 (Text (codes "hello") ∷ [])
        ≡ record { rows = codes "ll" ∷ codes "o " ∷ []; column = 1; row = 1 } }
    ensures screen { seen 2 2 (Text (codes "hello") ∷ ClearScreen Default ∷ [])
        ≡ record { rows = codes "  " ∷ codes "  " ∷ []; column = 0; row = 0 } }
    ensures pending { seen 3 3 (Text (codes "helwowfoo") ∷ ClearToEndOfLine Default ∷ [])
        ≡ record { rows = codes "hel" ∷ codes "wow" ∷ codes "foo" ∷ []; column = 3; row = 2 } }
    ensures first { seen 3 3 (Text (codes "helwowfoo") ∷ at 0 0 ∷ ClearToEndOfLine Default ∷ [])
        ≡ record { rows = codes "   " ∷ codes "wow" ∷ codes "foo" ∷ []; column = 0; row = 0 } }
    ensures middle { seen 3 3
        (Text (codes "helwowfoo") ∷ at 0 0 ∷ ClearToEndOfLine Default ∷ at 1 1 ∷ ClearToEndOfLine Default ∷ [])
        ≡ record { rows = codes "   " ∷ codes "w  " ∷ codes "foo" ∷ []; column = 1; row = 1 } }
    ensures below { seen 3 3 (Text (codes "helwowfoo") ∷ at 1 1 ∷ ClearToEndOfScreen Default ∷ [])
        ≡ record { rows = codes "hel" ∷ codes "w  " ∷ codes "   " ∷ []; column = 1; row = 1 } }
{}

/// Positions: absolute, relative to the current position, and from the end; the cursor's column is the width while a
/// wrap is pending.
pub fn positions()
    ensures relative { seen 4 3
        (at 3 2 ∷ Text (codes "X") ∷ CursorPosition (Relative (negsuc 1)) (Relative (negsuc 0)) ∷ Text (codes "-")
        ∷ CursorPosition (Relative (pos 1)) (Relative (negsuc 0)) ∷ Text (codes "-") ∷ [])
        ≡ record { rows = codes "   -" ∷ codes "  - " ∷ codes "   X" ∷ []; column = 4; row = 0 } }
    ensures pending { seen 4 1 (at 4 0 ∷ []) ≡ record { rows = codes "    " ∷ []; column = 4; row = 0 } }
    ensures past { seen 4 2 (at 9 9 ∷ []) ≡ record { rows = codes "    " ∷ codes "    " ∷ []; column = 3; row = 1 } }
    ensures here { seen 4 1 (Text (codes "abcd") ∷ CursorPosition (Relative (pos 0)) (Relative (pos 0)) ∷ [])
        ≡ record { rows = codes "abcd" ∷ []; column = 3; row = 0 } }
    ensures from_end { seen 4 3 (CursorPosition (EndRelative 1) (EndRelative 0) ∷ [])
        ≡ record { rows = codes "    " ∷ codes "    " ∷ codes "    " ∷ []; column = 3; row = 2 } }
    ensures far { seen 4 3 (CursorPosition (EndRelative 9) (Relative (negsuc 8)) ∷ [])
        ≡ record { rows = codes "    " ∷ codes "    " ∷ codes "    " ∷ []; column = 0; row = 0 } }
{}

/// Wide cells: a half that is left alone is a blank. A wide cell that doesn't fit in a row begins the next one; on a
/// screen of one column it is a space.
pub fn wide_cells()
    ensures text { seen 4 1 (Text (shrug ++ codes "12") ∷ [])
        ≡ record { rows = (shrug ++ codes "12") ∷ []; column = 4; row = 0 } }
    ensures overwritten { seen 4 1 (Text (shrug ++ codes "12") ∷ at 1 0 ∷ Text (codes "a" ++ shrug) ∷ [])
        ≡ record { rows = (codes " a" ++ shrug) ∷ []; column = 4; row = 0 } }
    ensures halves { seen 4 1
        (Text (shrug ++ codes "12") ∷ at 1 0 ∷ Text (codes "a" ++ shrug) ∷ at 2 0 ∷ Text (codes "x") ∷ [])
        ≡ record { rows = codes " ax " ∷ []; column = 3; row = 0 } }
    ensures next_row { seen 3 1 (Text (codes "ab") ∷ Text wide_letter ∷ [])
        ≡ record { rows = (wide_letter ++ codes " ") ∷ []; column = 2; row = 0 } }
    ensures one_column { seen 1 1 (Text wide_letter ∷ []) ≡ record { rows = codes " " ∷ []; column = 1; row = 0 } }
    ensures no_columns { seen 4 1 (Text zero_width_between ∷ [])
        ≡ record { rows = (zero_width_between ++ codes " ") ∷ []; column = 3; row = 0 } }
    ensures cleared { seen 4 1 (Text wide_letter ∷ Text wide_letter ∷ at 1 0 ∷ ClearToEndOfLine Default ∷ [])
        ≡ record { rows = codes "    " ∷ []; column = 1; row = 0 } }
{}

/// Regions of rows move, as far as there are rows; the cursor stays.
pub fn scrolls()
    ensures up { seen 1 3 (Text (codes "abc") ∷ ScrollRegionUp 0 3 2 ∷ [])
        ≡ record { rows = codes "c" ∷ codes " " ∷ codes " " ∷ []; column = 1; row = 2 } }
    ensures down { seen 1 3 (Text (codes "abc") ∷ ScrollRegionDown 0 3 1 ∷ [])
        ≡ record { rows = codes " " ∷ codes "a" ∷ codes "b" ∷ []; column = 1; row = 2 } }
    ensures part_up { seen 1 3 (Text (codes "abc") ∷ ScrollRegionUp 1 9 1 ∷ [])
        ≡ record { rows = codes "a" ∷ codes "c" ∷ codes " " ∷ []; column = 1; row = 2 } }
    ensures part_down { seen 1 3 (Text (codes "abc") ∷ ScrollRegionDown 0 2 9 ∷ [])
        ≡ record { rows = codes " " ∷ codes " " ∷ codes "c" ∷ []; column = 1; row = 2 } }
    ensures past { seen 1 3 (Text (codes "abc") ∷ ScrollRegionDown 3 2 1 ∷ [])
        ≡ record { rows = codes "a" ∷ codes "b" ∷ codes "c" ∷ []; column = 1; row = 2 } }
{}

/// Another size: the top left stays, a wide cell that the edge cuts is a blank, and the cursor is
/// within the last column and row.
pub fn resized_displays()
    ensures smaller { seen_on (resized 2 2 (replay program_width (new_display 4 4) (Text (codes " a") ∷ at 3 3 ∷ [])))
        ≡ record { rows = codes " a" ∷ codes "  " ∷ []; column = 1; row = 1 } }
    ensures pending { seen_on (resized 3 2 (replay program_width (new_display 4 1) (Text (codes "abcd") ∷ [])))
        ≡ record { rows = codes "abc" ∷ codes "   " ∷ []; column = 2; row = 0 } }
    ensures cut { seen_on
        (resized 3 1 (replay program_width (new_display 4 1) (Text (wide_letter ++ wide_letter) ∷ [])))
        ≡ record { rows = (wide_letter ++ codes " ") ∷ []; column = 2; row = 0 } }
    ensures larger { seen_on (resized 3 2 (replay program_width (new_display 1 1) (Text (codes "x") ∷ [])))
        ≡ record { rows = codes "x  " ∷ codes "   " ∷ []; column = 1; row = 0 } }
{}
