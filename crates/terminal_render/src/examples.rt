//! Worked examples: the bytes of changes. Each is the contract of a function that does
//! nothing.
ghost use Rattle.std.specs.Prelude.{◌≡◌, [], ◌∷◌, ◌++◌, codes, false, None, Some, true, pos, negsuc};
ghost use Rattle.cell_base.specs.declared.attributes.CursorShape.TheVariants as shape;
ghost use Rattle.cell_base.specs.declared.attributes.CursorVisibility.TheVariants.{Visible, Hidden};
ghost use Rattle.cell_base.specs.declared.attributes.Intensity.TheVariants.{Bold};
ghost use Rattle.cell_base.specs.declared.attributes.LineAttribute.TheVariants as size;
ghost use Rattle.cell_base.specs.declared.attributes.Position.TheVariants.{Relative, Absolute, EndRelative};
ghost use Rattle.cell_base.specs.declared.attributes.SemanticType.TheVariants.{Prompt};
ghost use Rattle.cell_base.specs.declared.attributes.Underline.TheVariants.{Curly};
ghost use Rattle.cell_base.specs.declared.color.ColorAttribute.TheVariants as color;
ghost use Rattle.cell_base.specs.Attributes.{plain};
ghost use Rattle.cell_base.specs.AttributeValue as attribute;
ghost use Rattle.screen_change.specs.ChangeValue.{Attribute, AllAttributes, Text, ClearScreen, ClearToEndOfLine};
ghost use Rattle.screen_change.specs.ChangeValue.{ClearToEndOfScreen, CursorPosition, CursorColor, CursorShape};
ghost use Rattle.screen_change.specs.ChangeValue.{CursorVisibility, LineAttribute, ScrollRegionUp, ScrollRegionDown};
ghost use Rattle.screen_change.specs.ChangeValue.{Title};
ghost use Rattle.terminal_render.specs.Samples.{bytes_for, csi, osc, plain_pen, link_to};

/// A text is cut at its controls, and each part that is printed ends in NUL; a title is OSC 2. Neither
/// may hold U+0080 to U+009F, and a title no control at all.
pub fn texts()
    ensures controls { bytes_for 4 3 (Text (codes "a\r\nb\tc"))
        ≡ Some (97 ∷ 0 ∷ 13 ∷ 10 ∷ 98 ∷ 0 ∷ 32 ∷ 0 ∷ 99 ∷ 0 ∷ []) }
    ensures empty { bytes_for 4 3 (Text []) ≡ Some [] }
    ensures c1 { bytes_for 4 3 (Text (97 ∷ 0xC2 ∷ 0x9B ∷ [])) ≡ None }
    ensures no_break_space { bytes_for 4 3 (Text (0xC2 ∷ 0xA0 ∷ [])) ≡ Some (0xC2 ∷ 0xA0 ∷ 0 ∷ []) }
    ensures title { bytes_for 4 1 (Title (codes "hi")) ≡ Some (osc (codes "2;hi")) }
    ensures empty_title { bytes_for 4 1 (Title []) ≡ Some (osc (codes "2;")) }
    ensures title_with_control { bytes_for 4 1 (Title (codes "a\tb")) ≡ None }
    ensures title_with_delete { bytes_for 4 1 (Title (127 ∷ [])) ≡ None }
    ensures title_with_c1 { bytes_for 4 1 (Title (0xC2 ∷ 0x9C ∷ [])) ≡ None }
{}

/// Clears first set a plain pen whose background is their colour.
pub fn clears()
    ensures screen { bytes_for 4 3 (ClearScreen color.Default)
        ≡ Some (plain_pen ++ csi (codes "2J") ++ csi (codes "1;1H")) }
    ensures line { bytes_for 4 3 (ClearToEndOfLine (color.PaletteIndex 1))
        ≡ Some (plain_pen ++ csi (codes "41m") ++ csi (codes "K")) }
    ensures below { bytes_for 4 3 (ClearToEndOfScreen color.Default) ≡ Some (plain_pen ++ csi (codes "J")) }
    ensures fallback { bytes_for 4 3
        (ClearScreen (color.TrueColorWithPaletteFallback (record { 0 = 1; 1 = 2; 2 = 3; 3 = 255 }) 1)) ≡ None }
{}

/// Scrolls of all rows have an encoding: a region past the last row ends there, and a smaller region can't be
/// encoded.
pub fn scrolls()
    ensures none { bytes_for 4 3 (ScrollRegionUp 0 3 0) ≡ Some [] }
    ensures some { bytes_for 4 3 (ScrollRegionUp 0 3 2) ≡ Some (csi (codes "2S")) }
    ensures all { bytes_for 4 3 (ScrollRegionUp 0 3 9) ≡ Some (csi (codes "3S")) }
    ensures down { bytes_for 4 3 (ScrollRegionDown 0 9 1) ≡ Some (csi (codes "T")) }
    ensures part { bytes_for 4 3 (ScrollRegionUp 0 2 1) ≡ None }
    ensures none_of_a_part { bytes_for 4 3 (ScrollRegionUp 0 2 0) ≡ None }
    ensures lower_part { bytes_for 4 3 (ScrollRegionDown 1 2 1) ≡ None }
    ensures past { bytes_for 4 3 (ScrollRegionUp 3 1 0) ≡ None }
{}

/// Positions: a column at or past the width, a relative move to the left, and a position that moves nothing
/// have no encoding.
pub fn positions()
    ensures next_row { bytes_for 4 3 (CursorPosition (Absolute 0) (Relative (pos 1)))
        ≡ Some (csi (codes "B") ++ csi (codes "1G")) }
    ensures same_row { bytes_for 4 3 (CursorPosition (Absolute 2) (Relative (pos 0))) ≡ Some (csi (codes "3G")) }
    ensures up { bytes_for 4 3 (CursorPosition (Relative (pos 0)) (Relative (negsuc 1))) ≡ Some (csi (codes "2A")) }
    ensures nothing { bytes_for 4 3 (CursorPosition (Relative (pos 0)) (Relative (pos 0))) ≡ None }
    ensures from_end { bytes_for 4 3 (CursorPosition (EndRelative 1) (Absolute 2)) ≡ Some (csi (codes "3;4H")) }
    ensures past_last_row { bytes_for 4 3 (CursorPosition (Absolute 0) (Absolute 9)) ≡ Some (csi (codes "3;1H")) }
    ensures pending { bytes_for 4 1 (CursorPosition (Absolute 4) (Absolute 0)) ≡ None }
    ensures last_column { bytes_for 4 1 (CursorPosition (Absolute 3) (Absolute 0)) ≡ Some (csi (codes "1;4H")) }
    ensures back { bytes_for 4 3 (CursorPosition (Relative (negsuc 0)) (Absolute 0)) ≡ None }
    ensures right { bytes_for 4 3 (CursorPosition (Relative (pos 2)) (EndRelative 0))
        ≡ Some (csi (codes "2C") ++ csi (codes "3d")) }
    ensures right_and_up { bytes_for 4 3 (CursorPosition (Relative (pos 1)) (Relative (negsuc 0)))
        ≡ Some (csi (codes "C") ++ csi (codes "A")) }
    ensures far { bytes_for 4 3 (CursorPosition (Relative (pos 4294967296)) (Relative (pos 0)))
        ≡ Some (csi (codes "4294967295C")) }
{}

/// Pens, single attributes and the rest.
pub fn attributes()
    ensures plain { bytes_for 4 3 (AllAttributes plain) ≡ Some plain_pen }
    ensures bold { bytes_for 4 3 (Attribute (attribute.Intensity Bold)) ≡ Some (csi (codes "1m")) }
    ensures link { bytes_for 3 1
        (AllAttributes (record plain { hyperlink = Some (link_to (codes "http://example.com")) }))
        ≡ Some (csi (codes "0m") ++ osc (codes "8;;http://example.com")) }
    ensures colour { bytes_for 3 1
        (AllAttributes
        (record plain
        { foreground = color.TrueColorWithDefaultFallback (record { 0 = 1; 1 = 2; 2 = 3; 3 = 4 }) }))
        ≡ Some (csi (codes "0m") ++ csi (codes "38:6::1:2:3:4m") ++ osc (codes "8;;")) }
    ensures many { bytes_for 3 1
        (AllAttributes
        (record plain {
          intensity = Bold;
          underline = Curly;
          reverse = true;
          overline = true;
          background = color.PaletteIndex 9;
          underline_color = color.PaletteIndex 9;
        }))
        ≡ Some
        (csi (codes "0m") ++ csi (codes "1m") ++ csi (codes "4:3m") ++ csi (codes "7m") ++ csi (codes "53m")
        ++ csi (codes "101m") ++ csi (codes "58:5:9m") ++ osc (codes "8;;")) }
    ensures wrapped { bytes_for 3 1 (AllAttributes (record plain { wrapped = true })) ≡ None }
    ensures prompt { bytes_for 3 1 (AllAttributes (record plain { semantic_type = Prompt })) ≡ None }
    ensures implicit { bytes_for 3 1
        (Attribute (attribute.Hyperlink (Some (record { params = []; uri = codes "u"; implicit = true })))) ≡ None }
    ensures empty_link { bytes_for 3 1 (Attribute (attribute.Hyperlink (Some (link_to [])))) ≡ None }
    ensures colon { bytes_for 3 1
        (Attribute
        (attribute.Hyperlink
        (Some (record { params = (codes "id", codes "a:b") ∷ []; uri = codes "u"; implicit = false }))))
        ≡ None }
    ensures bell { bytes_for 3 1 (Attribute (attribute.Hyperlink (Some (link_to (7 ∷ []))))) ≡ None }
    ensures link_ends { bytes_for 3 1 (Attribute (attribute.Hyperlink None)) ≡ Some (osc (codes "8;;")) }
    ensures hidden { bytes_for 3 1 (CursorVisibility Hidden) ≡ Some (csi (codes "?25l")) }
    ensures visible { bytes_for 3 1 (CursorVisibility Visible) ≡ Some (csi (codes "?25h")) }
    ensures cursor_colour { bytes_for 3 1 (CursorColor color.Default) ≡ None }
    ensures cursor_shape { bytes_for 3 1 (CursorShape shape.SteadyBar) ≡ None }
    ensures line_size { bytes_for 3 1 (LineAttribute size.SingleWidthLine) ≡ None }
{}
