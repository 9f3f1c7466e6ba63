//! Worked examples: the bytes of updates and patches, and what a stream prints. Each is the contract of a function that
//! does nothing.
ghost use Rattle.std.specs.Prelude.{◌≡◌, [], ◌∷◌, ◌++◌, codes};
ghost use Rattle.cell_base.specs.Cluster.{program_width};
ghost use Rattle.terminal.specs.Samples.{painted, patch_between, printed, text_at, update_after};
ghost use Rattle.terminal_table.specs.Prints.{IsPlain, prints};
ghost use Rattle.terminal_render.specs.Samples.{plain_pen};
ghost use Rattle.terminal_table.specs.History.{Look};
ghost use Rattle.terminal_table.specs.Meaning.{new_view};
ghost use Rattle.terminal_table.specs.Samples.{csi, osc, shown};
ghost use Rattle.terminal_viewers.specs.Updates.{updates};

/// Updates: of a blank screen, of a full row, of the letter after a full row, and of two short rows. For a wrap that is
/// pending the last cell is printed once more.
pub fn encoded_updates()
    ensures blank { update_after 4 3 (Look ∷ []) 0 ≡ painted [] }
    ensures full { update_after 2 1 (shown (codes "ab")) 0
        ≡ painted (printed (codes "ab") ++ csi (codes "1;2H") ++ plain_pen ++ printed (codes "b") ++ plain_pen) }
    ensures next { update_after 2 1 (shown (codes "ab") ++ shown (codes "c")) 1 ≡ printed (codes "c") }
    ensures short { update_after 2 2 (shown (codes "a\r\nb")) 0
        ≡ painted (printed (codes "a") ++ csi (codes "B") ++ csi (codes "1G") ++ printed (codes "b")
        ++ csi (codes "2;2H")) }
{}

/// Patches: of a letter between two letters that stay, and of a letter after which a wrap is pending, so that it is
/// printed again.
pub fn encoded_patches()
    ensures middle { patch_between 3 1 (shown (codes "abc")) (shown (codes "axc" ++ csi (codes "1;2H")))
        ≡ osc (codes "2;") ++ csi (codes "1;2H") ++ plain_pen ++ printed (codes "x")
        ++ csi (codes "1;2H") ++ plain_pen ++ csi (codes "?25h") }
    ensures pending { patch_between 3 1 (shown (codes "ab")) (shown (codes "abc"))
        ≡ osc (codes "2;") ++ csi (codes "1;3H") ++ plain_pen ++ printed (codes "c")
        ++ csi (codes "1;3H") ++ plain_pen ++ printed (codes "c") ++ plain_pen ++ csi (codes "?25h") }
{}

/// The updates of three letters, with an update after every two.
pub fn written_updates()
    ensures { updates program_width 3 1 2 (codes "abc")
        ≡ painted (printed (codes "ab") ++ csi (codes "1;3H")) ++ printed (codes "c") }
{}

/// Three letters on rows of two columns: the third wraps, and scrolls where there is one row.
pub fn printed_texts()
    ensures wraps { prints program_width (new_view 2 2) (codes "abc")
        ≡ text_at 0 0 (codes "a") ∷ text_at 0 1 (codes "b") ∷ text_at 1 0 (codes "c") ∷ [] }
    ensures plain { IsPlain program_width (new_view 2 2) (codes "abc") }
    ensures scrolls { prints program_width (new_view 2 1) (codes "abc")
        ≡ text_at 0 0 (codes "a") ∷ text_at 0 1 (codes "b") ∷ text_at 0 0 (codes "c") ∷ [] }
    ensures not_plain { IsPlain program_width (new_view 2 1) (codes "abc") → ⊥ }
{}
