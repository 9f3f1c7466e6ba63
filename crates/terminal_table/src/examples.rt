//! Worked examples: the screen of a new terminal after some bytes, and the changes that are logged. Each
//! is the contract of a function that does nothing.
ghost use Rattle.std.specs.Prelude.{◌≡◌, [], ◌∷◌, ◌++◌, codes, false, true, None, Some};
ghost use Rattle.cell_base.specs.declared.attributes.CursorVisibility.TheVariants.{Visible, Hidden};
ghost use Rattle.cell_base.specs.declared.attributes.Intensity.TheVariants.{Bold};
ghost use Rattle.cell_base.specs.declared.color.ColorAttribute.TheVariants as color;
ghost use Rattle.cell_base.specs.Attributes.{plain, blank_of};
ghost use Rattle.cell_base.specs.AttributeValue as attribute;
ghost use Rattle.cell_base.specs.Link.{Link};
ghost use Rattle.cell_base.specs.Row.{Narrow};
ghost use Rattle.screen_change.specs.ChangeValue.{Attribute, AllAttributes, Text, ClearScreen, ClearToEndOfLine};
ghost use Rattle.screen_change.specs.ChangeValue.{ClearToEndOfScreen, CursorVisibility, ScrollRegionUp};
ghost use Rattle.screen_change.specs.ChangeValue.{ScrollRegionDown, Title};
ghost use Rattle.terminal_table.specs.History.{Piece, Look, Resize, Forget};
ghost use Rattle.terminal_table.specs.Samples.{seen, shown, shown_by_byte, screen_after, replies_after, logged_after};
ghost use Rattle.terminal_table.specs.Samples.{first_column, escape, csi, osc, at, acute, wide_letter};

/// A run of prints is one change, also over two chunks; a look ends it, and so does an action that
/// has no other effect. Text wraps to the next row, and scrolls at the last row.
pub fn runs()
    ensures joined { seen 4 3 (Piece (codes "w00tfoo") ∷ Piece (codes "baarbaz") ∷ Look ∷ [])
        ≡ record { rows = codes "foob" ∷ codes "aarb" ∷ codes "az  " ∷ []; column = 2; row = 2; number = 1 } }
    ensures held { seen 3 1 (Piece (codes "e") ∷ [])
        ≡ record { rows = codes "   " ∷ []; column = 0; row = 0; number = 0 } }
    ensures looked { seen 3 1 (Piece (codes "e") ∷ Look ∷ Piece acute ∷ Look ∷ [])
        ≡ record { rows = (codes "e" ++ acute ++ codes " ") ∷ []; column = 2; row = 0; number = 2 } }
    ensures not_looked { seen 3 1 (Piece (codes "e") ∷ Piece acute ∷ Look ∷ [])
        ≡ record { rows = (codes "e" ++ acute ++ codes "  ") ∷ []; column = 1; row = 0; number = 1 } }
    ensures ended { seen 3 1 (shown (codes "e" ++ 0 ∷ acute))
        ≡ record { rows = (codes "e" ++ acute ++ codes " ") ∷ []; column = 2; row = 0; number = 2 } }
    ensures not_ended { seen 3 1 (shown (codes "e" ++ escape (codes "Xs") ++ csi (codes "1") ++ acute))
        ≡ record { rows = (codes "e" ++ acute ++ codes "  ") ∷ []; column = 1; row = 0; number = 1 } }
    ensures wide { seen 3 1 (shown (codes "ab" ++ wide_letter))
        ≡ record { rows = (wide_letter ++ codes " ") ∷ []; column = 2; row = 0; number = 1 } }
    ensures one_column { seen 1 1 (shown wide_letter)
        ≡ record { rows = codes " " ∷ []; column = 1; row = 0; number = 1 } }
    ensures halves { seen 4 1 (shown (wide_letter ++ wide_letter ++ csi (codes "1;2Hx") ++ csi (codes "1;3Hy")))
        ≡ record { rows = codes " xy " ∷ []; column = 3; row = 0; number = 5 } }
{}

/// Bytes may be cut anywhere; bytes that are ill-formed print U+FFFD, and a sequence that is cut off
/// does nothing.
pub fn pieces()
    ensures sequence { seen 4 3 (Piece (csi (codes "1")) ∷ Piece (codes ";3mb") ∷ Look ∷ [])
        ≡ record { rows = codes "b   " ∷ codes "    " ∷ codes "    " ∷ []; column = 1; row = 0; number = 3 } }
    ensures attributes { first_column (screen_after 4 3 (Piece (csi (codes "1")) ∷ Piece (codes ";3mb") ∷ Look ∷ []))
        ≡ Narrow (codes "b") (record plain { intensity = Bold; italic = true }) }
    ensures pen { (screen_after 4 3 (Piece (csi (codes "1")) ∷ Piece (codes ";3mb") ∷ Look ∷ [])).pen
        ≡ record plain { intensity = Bold; italic = true } }
    ensures by_byte { seen 8 1
        (shown_by_byte
        (osc (codes "0;a") ++ 0xC3 ∷ codes "(" ++ csi (codes "1") ++ 0x18 ∷ 0xC2 ∷ 0x9B ∷ codes "2Cx"))
        ≡ record { rows = (0xEF ∷ 0xBF ∷ 0xBD ∷ codes "(  x   ") ∷ []; column = 5; row = 0; number = 4 } }
    ensures whole { seen 8 1
        (shown (osc (codes "0;a") ++ 0xC3 ∷ codes "(" ++ csi (codes "1") ++ 0x18 ∷ 0xC2 ∷ 0x9B ∷ codes "2Cx"))
        ≡ record { rows = (0xEF ∷ 0xBF ∷ 0xBD ∷ codes "(  x   ") ∷ []; column = 5; row = 0; number = 4 } }
    ensures unfinished { seen 2 1 (shown (codes "a" ++ 0xE3 ∷ 0x81 ∷ []))
        ≡ record { rows = codes "a " ∷ []; column = 1; row = 0; number = 1 } }
{}

/// Controls that move: BS, HT, LF, VT, FF, CR, IND, NEL and RI. A line feed keeps the column of a
/// pending wrap, and so does RI on the first row.
pub fn controls()
    ensures backspace { seen 4 1 (shown (codes "abcd" ++ 8 ∷ codes "x"))
        ≡ record { rows = codes "abxd" ∷ []; column = 3; row = 0; number = 3 } }
    ensures first { seen 4 1 (shown (8 ∷ codes "x"))
        ≡ record { rows = codes "x   " ∷ []; column = 1; row = 0; number = 2 } }
    ensures tab { seen 12 1 (shown (codes "a\tb\tc"))
        ≡ record { rows = codes "a       b  c" ∷ []; column = 12; row = 0; number = 5 } }
    ensures line_feeds { seen 3 4 (shown (codes "a\nb" ++ 11 ∷ codes "c" ++ 12 ∷ codes "d"))
        ≡ record {
          rows = codes " b " ∷ codes "  c" ∷ codes "   " ∷ codes "d  " ∷ [];
          column = 1;
          row = 3;
          number = 7;
        } }
    ensures pending { seen 2 2 (shown (codes "ab\n"))
        ≡ record { rows = codes "ab" ∷ codes "  " ∷ []; column = 2; row = 1; number = 2 } }
    ensures returns { seen 3 2 (shown (codes "ab\r\nc"))
        ≡ record { rows = codes "ab " ∷ codes "c  " ∷ []; column = 1; row = 1; number = 4 } }
    ensures index { seen 3 2 (shown (codes "ab" ++ escape (codes "Dc")))
        ≡ record { rows = codes "ab " ∷ codes "  c" ∷ []; column = 3; row = 1; number = 3 } }
    ensures next_line { seen 3 2 (shown (codes "ab" ++ escape (codes "Ec")))
        ≡ record { rows = codes "ab " ∷ codes "c  " ∷ []; column = 1; row = 1; number = 3 } }
    ensures reverse { seen 2 2 (shown (codes "ab" ++ escape (codes "M")))
        ≡ record { rows = codes "  " ∷ codes "ab" ∷ []; column = 2; row = 0; number = 2 } }
    ensures reverse_up { seen 2 2 (shown (codes "abcd" ++ escape (codes "M")))
        ≡ record { rows = codes "ab" ∷ codes "cd" ∷ []; column = 1; row = 0; number = 2 } }
{}

/// Moves and positions go from the cursor, or from the last column where a wrap is pending, and stop
/// at the edges.
pub fn moves()
    ensures position { seen 4 1 (shown (codes "abcd" ++ csi (codes "1;9Hx")))
        ≡ record { rows = codes "abcx" ∷ []; column = 4; row = 0; number = 3 } }
    ensures past { logged_after 4 1 (shown (codes "abcd" ++ csi (codes "1;9Hx")))
        ≡ Text (codes "abcd") ∷ at 3 0 ∷ Text (codes "x") ∷ [] }
    ensures up_down { logged_after 4 4
        (shown (csi (codes "3;3H") ++ csi (codes "A") ++ csi (codes "9B") ++ csi (codes "2k") ++ csi (codes "e")))
        ≡ at 2 2 ∷ at 2 1 ∷ at 2 3 ∷ at 2 1 ∷ at 2 2 ∷ [] }
    ensures left_right { logged_after 4 1
        (shown (csi (codes "2C") ++ csi (codes "D") ++ csi (codes "9a") ++ csi (codes "2j")))
        ≡ at 2 0 ∷ at 1 0 ∷ at 3 0 ∷ at 1 0 ∷ [] }
    ensures from_pending { logged_after 4 1 (shown (codes "abcd" ++ csi (codes "D")))
        ≡ Text (codes "abcd") ∷ at 2 0 ∷ [] }
    ensures lines { logged_after 4 4 (shown (csi (codes "2;3H") ++ csi (codes "E") ++ csi (codes "2F")))
        ≡ at 2 1 ∷ at 0 2 ∷ at 0 0 ∷ [] }
    ensures absolute { logged_after 4 4
        (shown (csi (codes "3G") ++ csi (codes "2d") ++ csi (codes "`") ++ csi (codes "4;2f") ++ csi (codes "0d")))
        ≡ at 2 0 ∷ at 2 1 ∷ at 0 1 ∷ at 1 3 ∷ at 1 0 ∷ [] }
    ensures greatest { seen 4 1 (shown (csi (codes "4294967295Cx")))
        ≡ record { rows = codes "   x" ∷ []; column = 4; row = 0; number = 2 } }
    ensures too_great { seen 4 1 (shown (csi (codes "4294967296Cx")))
        ≡ record { rows = codes "x   " ∷ []; column = 1; row = 0; number = 1 } }
{}

/// Erasures leave blanks of the pen's background and keep the cursor and the pen. Where a wrap is
/// pending, EL 0 and ED 0 erase nothing of the cursor's row; only EL 2 and ED 2 end the pending wrap.
pub fn erasures()
    ensures pending { seen 4 1 (shown (codes "abcd" ++ csi (codes "K")))
        ≡ record { rows = codes "abcd" ∷ []; column = 4; row = 0; number = 3 } }
    ensures line_end { seen 4 1 (shown (codes "abcd" ++ csi (codes "2G") ++ csi (codes "K")))
        ≡ record { rows = codes "a   " ∷ []; column = 1; row = 0; number = 4 } }
    ensures cut { seen 4 1 (shown (wide_letter ++ codes "cd" ++ csi (codes "2G") ++ csi (codes "K")))
        ≡ record { rows = codes "    " ∷ []; column = 1; row = 0; number = 4 } }
    ensures line { seen 2 2 (shown (codes "abcd" ++ csi (codes "2K")))
        ≡ record { rows = codes "ab" ∷ codes "  " ∷ []; column = 1; row = 1; number = 5 } }
    ensures display_end { seen 2 3 (shown (codes "abcdef" ++ csi (codes "2;2H") ++ csi (codes "J")))
        ≡ record { rows = codes "ab" ∷ codes "c " ∷ codes "  " ∷ []; column = 1; row = 1; number = 4 } }
    ensures display { seen 2 2 (shown (codes "abcd" ++ csi (codes "2J")))
        ≡ record { rows = codes "  " ∷ codes "  " ∷ []; column = 1; row = 1; number = 4 } }
    ensures colour { (screen_after 1 1 (shown (csi (codes "1;41m") ++ csi (codes "2J")))).rows
        ≡ (Narrow (codes " ") (blank_of (color.PaletteIndex 1)) ∷ []) ∷ [] }
    ensures pen { (screen_after 1 1 (shown (csi (codes "1;41m") ++ csi (codes "2J")))).pen
        ≡ record plain { intensity = Bold; background = color.PaletteIndex 1 } }
    ensures logged { logged_after 8 1
        (shown (codes "abcdefgh" ++ csi (codes "2K") ++ csi (codes "2J") ++ csi (codes "J")))
        ≡ Text (codes "abcdefgh") ∷ at 0 0 ∷ ClearToEndOfLine color.Default ∷ at 7 0 ∷ AllAttributes plain
        ∷ ClearScreen color.Default ∷ at 7 0 ∷ AllAttributes plain ∷ ClearToEndOfScreen color.Default
        ∷ AllAttributes plain ∷ [] }
{}

/// SU and SD: all rows move, by at most the height; the cursor stays.
pub fn scrolls()
    ensures up { seen 1 3 (shown (codes "abc" ++ csi (codes "2S")))
        ≡ record { rows = codes "c" ∷ codes " " ∷ codes " " ∷ []; column = 1; row = 2; number = 2 } }
    ensures down { seen 1 3 (shown (codes "abc" ++ csi (codes "T")))
        ≡ record { rows = codes " " ∷ codes "a" ∷ codes "b" ∷ []; column = 1; row = 2; number = 2 } }
    ensures past { logged_after 1 3 (shown (csi (codes "9S") ++ csi (codes "4T")))
        ≡ ScrollRegionUp 0 3 3 ∷ ScrollRegionDown 0 3 3 ∷ [] }
    ensures reverse { logged_after 1 3 (shown (escape (codes "M") ++ codes "ab" ++ escape (codes "M")))
        ≡ ScrollRegionDown 0 3 1 ∷ Text (codes "ab") ∷ at 0 0 ∷ [] }
{}

/// The pen: a setting that has no change of its own is logged as a change of all attributes; a reset keeps
/// the link, which OSC 8 sets and ends; fonts do nothing.
pub fn pens()
    ensures attributes { logged_after 1 1 (shown (csi (codes "1;7;31m")))
        ≡ Attribute (attribute.Intensity Bold) ∷ Attribute (attribute.Reverse true)
        ∷ Attribute (attribute.Foreground (color.PaletteIndex 1)) ∷ [] }
    ensures overline { logged_after 1 1 (shown (csi (codes "1;53m")))
        ≡ Attribute (attribute.Intensity Bold) ∷ AllAttributes (record plain { intensity = Bold; overline = true })
        ∷ [] }
    ensures colour { (screen_after 3 1 (shown (csi (codes "38:6::1:2:3:4mx")))).pen
        ≡ record plain { foreground = color.TrueColorWithDefaultFallback (record { 0 = 1; 1 = 2; 2 = 3; 3 = 4 }) } }
    ensures reset { (screen_after 1 1 (shown (osc (codes "8;;u") ++ csi (codes "1;4;58:5:9m") ++ csi (codes "m")))).pen
        ≡ record plain { hyperlink = Some (record { params = []; uri = codes "u"; implicit = false }) } }
    ensures linked { first_column (screen_after 3 1 (shown (osc (codes "8;;u") ++ codes "x" ++ osc (codes "8;;"))))
        ≡ Narrow (codes "x")
        (record plain { hyperlink = Some (record { params = []; uri = codes "u"; implicit = false }) }) }
    ensures link_ends { logged_after 1 1 (shown (osc (codes "8;;"))) ≡ Attribute (attribute.Hyperlink None) ∷ [] }
    ensures fonts { logged_after 1 1 (shown (csi (codes "11;10m"))) ≡ [] }
{}

/// A cursor is saved with its pen, also where a wrap is pending, and restored within the screen; a
/// full reset leaves the title alone.
pub fn saved_cursors()
    ensures restored { seen 4 2
        (shown (codes "abcd" ++ escape (codes "7") ++ csi (codes "2;4H") ++ escape (codes "8e")))
        ≡ record { rows = codes "abce" ∷ codes "    " ∷ []; column = 4; row = 0; number = 5 } }
    ensures twice { logged_after 4 2
        (shown (csi (codes "1m") ++ csi (codes "s") ++ csi (codes "m") ++ csi (codes "2;4H") ++ csi (codes "u")))
        ≡ Attribute (attribute.Intensity Bold) ∷ AllAttributes plain ∷ at 3 1 ∷ at 0 0
        ∷ AllAttributes (record plain { intensity = Bold }) ∷ [] }
    ensures none_saved { logged_after 4 2 (shown (csi (codes "u"))) ≡ at 0 0 ∷ AllAttributes plain ∷ [] }
    ensures resized { logged_after 4 2
        (Piece (csi (codes "2;4H") ++ escape (codes "7")) ∷ Resize 2 1 ∷ Piece (escape (codes "8")) ∷ Look ∷ [])
        ≡ at 1 0 ∷ AllAttributes plain ∷ [] }
    ensures reset { seen 3 1 (shown (codes "ab" ++ escape (codes "cx")))
        ≡ record { rows = codes "x  " ∷ []; column = 1; row = 0; number = 4 } }
    ensures reset_logged { logged_after 3 1
        (shown (csi (codes "?25l") ++ escape (codes "7") ++ escape (codes "c") ++ escape (codes "8")))
        ≡ CursorVisibility Hidden ∷ ClearScreen color.Default ∷ CursorVisibility Visible ∷ at 0 0 ∷ AllAttributes plain
        ∷ [] }
    ensures reset_title { logged_after 4 1 (shown (27 ∷ 93 ∷ codes "2;t" ++ 7 ∷ escape (codes "c")))
        ≡ Title (codes "t") ∷ ClearScreen color.Default ∷ CursorVisibility Visible ∷ [] }
    ensures title_kept { (screen_after 4 1 (shown (27 ∷ 93 ∷ codes "2;t" ++ 7 ∷ escape (codes "c")))).title
        ≡ codes "t" }
{}

/// Titles are set by OSC 0 and OSC 2, and replies asked for by DSR.
pub fn titles_and_replies()
    ensures title { (screen_after 4 1 (shown (osc (codes "2;hi") ++ codes "ab"))).title ≡ codes "hi" }
    ensures title_logged { logged_after 4 1 (shown (osc (codes "2;hi") ++ codes "ab" ++ osc (codes "0;")))
        ≡ Title (codes "hi") ∷ Text (codes "ab") ∷ Title [] ∷ [] }
    ensures other_titles { logged_after 4 1
        (shown
        (27 ∷ 93 ∷ codes "2;a;b" ++ 7 ∷ 27 ∷ 93 ∷ codes "2" ++ 7 ∷ 27 ∷ 93 ∷ codes "2;" ++ 0xFF ∷ 7 ∷ 27 ∷ 93
        ∷ codes "1;c" ++ 7 ∷ 27 ∷ 93 ∷ codes "2;d" ++ 0x18 ∷ [])) ≡ Title (codes "a;b") ∷ [] }
    ensures home { replies_after 4 3 (shown (csi (codes "6n") ++ csi (codes "5n")))
        ≡ csi (codes "1;1R") ++ csi (codes "0n") }
    ensures pending { replies_after 4 1 (shown (codes "abcd" ++ csi (codes "6n"))) ≡ csi (codes "1;4R") }
    ensures nothing_logged { logged_after 4 3 (shown (csi (codes "6n") ++ csi (codes "5n"))) ≡ [] }
{}

/// A new size ends the run and empties the log; it counts as a change where the log wasn't
/// empty. Forgetting changes of the log ends no run.
pub fn sizes()
    ensures smaller { seen 4 2 (Piece (codes "ab") ∷ Resize 3 2 ∷ [])
        ≡ record { rows = codes "ab " ∷ codes "   " ∷ []; column = 2; row = 0; number = 2 } }
    ensures forgotten { seen 4 2 (Piece (codes "ab") ∷ Look ∷ Forget 1 ∷ Resize 3 2 ∷ [])
        ≡ record { rows = codes "ab " ∷ codes "   " ∷ []; column = 2; row = 0; number = 1 } }
    ensures no_run_ends { seen 4 1 (Piece (codes "e") ∷ Forget 0 ∷ Piece acute ∷ Look ∷ [])
        ≡ record { rows = (codes "e" ++ acute ++ codes "   ") ∷ []; column = 1; row = 0; number = 1 } }
    ensures cut { seen 4 1 (Piece (wide_letter ++ wide_letter) ∷ Resize 3 1 ∷ [])
        ≡ record { rows = (wide_letter ++ codes " ") ∷ []; column = 2; row = 0; number = 2 } }
    ensures emptied { logged_after 4 1 (Piece (codes "ab") ∷ Resize 3 1 ∷ []) ≡ [] }
{}

/// An action for which the terminal has no control function does nothing but end a run.
pub fn other_actions()
    ensures controls { logged_after 4 1 (shown (0 ∷ 7 ∷ 14 ∷ 127 ∷ [])) ≡ [] }
    ensures pairs { logged_after 4 1
        (shown (escape (codes "#8") ++ escape (codes "(0") ++ escape (codes "=") ++ escape (codes "H"))) ≡ [] }
    ensures sequences { logged_after 4 1
        (shown
        (csi (codes "3J") ++ csi (codes "1K") ++ csi (codes "P") ++ csi (codes "?7;1049h") ++ csi (codes "1 q")
        ++ csi (codes "!p") ++ csi (codes "1;2r") ++ csi (codes "5b") ++ csi (codes "[ @")))
        ≡ Text (codes " @") ∷ [] }
    ensures commands { logged_after 4 1
        (shown (osc (codes "1;c") ++ osc (codes "7;d") ++ osc (codes "52;c;?") ++ osc (codes "99;x"))) ≡ [] }
    ensures strings { logged_after 4 1
        (shown (escape (codes "P1$qm") ++ escape (codes "\\") ++ escape (codes "_G") ++ escape (codes "\\"))) ≡ [] }
{}
