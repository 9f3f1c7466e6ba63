//! Laws of the definitions: the options of command lines, and the output on a plain terminal.
ghost use Rattle.std.specs.Prelude.{◌≡◌, ◌↔◌, ℕ, [], ◌∷◌, codes, drop, List, Some, true, false};
ghost use Rattle.clap.specs.Words.{Text};
ghost use Rattle.clap.specs.declared.error.kind.ErrorKind.TheVariants.{ArgumentConflict, DisplayHelp, InvalidValue};
ghost use Rattle.clap.specs.declared.error.kind.ErrorKind.TheVariants.{UnknownArgument, ValueValidation};
ghost use Rattle.cell_base.specs.Cluster.{program_width};
ghost use Rattle.relay.specs.CommandLine.{faults_in, width_in, height_in, every_in, show_in, live_in};
ghost use Rattle.relay.specs.CommandLine.{terminal_in};
ghost use Rattle.relay.specs.Output.{written};
ghost use Rattle.relay.specs.Settings.{IsCommandLine, width_given, height_given, every_given, profile_given};
ghost use Rattle.relay.specs.Settings.{live_given, show_given};
ghost use Rattle.terminal.specs.Shown.{rows_shown};
ghost use Rattle.terminal_steps.specs.declared.profile.Profile.TheVariants.{Plain, Xterm};
ghost use Rattle.terminal_viewers.specs.Updates.{updates};

/// A law, which needs no call: the words that can be run are those that give options, in any order,
/// each at most once, each number in its range, the terminal with the name of a profile, and `--live` with neither
/// `--every` nor `--show`; an option has the value that they give it, or else its default. The first word is the
/// program's name, whatever it is.
pub fn settings()
    ensures taken { (words : List Text) → (faults_in words ≡ []) ↔ IsCommandLine (drop 1 words) }
    ensures width { (words : List Text) (line : IsCommandLine (drop 1 words))
        → width_in words ≡ width_given line.settings }
    ensures height { (words : List Text) (line : IsCommandLine (drop 1 words))
        → height_in words ≡ height_given line.settings }
    ensures profile { (words : List Text) (line : IsCommandLine (drop 1 words))
        → terminal_in words ≡ Some (profile_given line.settings) }
    ensures every { (words : List Text) (line : IsCommandLine (drop 1 words))
        → every_in words ≡ every_given line.settings }
    ensures show { (words : List Text) (line : IsCommandLine (drop 1 words))
        → show_in words ≡ show_given line.settings }
    ensures live { (words : List Text) (line : IsCommandLine (drop 1 words))
        → live_in words ≡ live_given line.settings }
{}

/// A law, which needs no call: without options the screen has 80 columns and 24 rows, the terminal is
/// plain, an update is written after each 4096 bytes and none after each read, and no rows are shown.
pub fn defaults()
    ensures taken { faults_in (codes "relay" ∷ []) ≡ [] }
    ensures width { width_in (codes "relay" ∷ []) ≡ 80 }
    ensures height { height_in (codes "relay" ∷ []) ≡ 24 }
    ensures profile { terminal_in (codes "relay" ∷ []) ≡ Some Plain }
    ensures every { every_in (codes "relay" ∷ []) ≡ 4096 }
    ensures show { show_in (codes "relay" ∷ []) ≡ false }
    ensures live { live_in (codes "relay" ∷ []) ≡ false }
{}

/// A law, which needs no call: each option has the number that follows it, or its default.
pub fn numbers()
    ensures taken { faults_in
        (codes "relay" ∷ codes "--width" ∷ codes "4" ∷ codes "--height" ∷ codes "0003" ∷ codes "--show" ∷ []) ≡ [] }
    ensures width { width_in
        (codes "relay" ∷ codes "--width" ∷ codes "4" ∷ codes "--height" ∷ codes "0003" ∷ codes "--show" ∷ []) ≡ 4 }
    ensures height { height_in
        (codes "relay" ∷ codes "--width" ∷ codes "4" ∷ codes "--height" ∷ codes "0003" ∷ codes "--show" ∷ []) ≡ 3 }
    ensures every { every_in
        (codes "relay" ∷ codes "--width" ∷ codes "4" ∷ codes "--height" ∷ codes "0003" ∷ codes "--show" ∷ [])
        ≡ 4096 }
    ensures show { show_in
        (codes "relay" ∷ codes "--width" ∷ codes "4" ∷ codes "--height" ∷ codes "0003" ∷ codes "--show" ∷ [])
        ≡ true }
    ensures live { live_in
        (codes "relay" ∷ codes "--width" ∷ codes "4" ∷ codes "--height" ∷ codes "0003" ∷ codes "--show" ∷ [])
        ≡ false }
{}

/// A law, which needs no call: the terminal has the profile of the name that follows it, or that is after `=`.
pub fn names()
    ensures plain { terminal_in (codes "relay" ∷ codes "--terminal" ∷ codes "plain" ∷ []) ≡ Some Plain }
    ensures xterm { terminal_in (codes "relay" ∷ codes "--terminal=xterm" ∷ []) ≡ Some Xterm }
{}

/// A law, which needs no call: `--live` stands with other options, but with neither `--every` nor `--show`.
pub fn live()
    ensures taken { faults_in (codes "relay" ∷ codes "--live" ∷ codes "--width" ∷ codes "4" ∷ []) ≡ [] }
    ensures live { live_in (codes "relay" ∷ codes "--live" ∷ codes "--width" ∷ codes "4" ∷ []) ≡ true }
    ensures every { faults_in (codes "relay" ∷ codes "--live" ∷ codes "--every" ∷ codes "4096" ∷ [])
        ≡ ArgumentConflict ∷ [] }
    ensures show { faults_in (codes "relay" ∷ codes "--show" ∷ codes "--live" ∷ []) ≡ ArgumentConflict ∷ [] }
{}

/// A law, which needs no call: on a plain terminal the output is that of `terminal::show` and of `terminal::run`.
#[tactic(auto, unfolding(crate::specs::Output::written))]
pub fn plain_output()
    ensures rows { (width height every : ℕ) (input : List ℕ)
        → written (record {
          width = width;
          height = height;
          profile = Plain;
          every = every;
          is_show = true;
          is_live = false;
        }) input
        ≡ rows_shown program_width width height input }
    ensures updates { (width height every : ℕ) (input : List ℕ)
        → written (record {
          width = width;
          height = height;
          profile = Plain;
          every = every;
          is_show = false;
          is_live = false;
        }) input
        ≡ updates program_width width height every input }
{}

/// A law, which needs no call: `--help` displays help; a number out of its range, an unknown option and a
/// terminal's name that is no profile's are refused.
pub fn refusals()
    ensures help { faults_in (codes "relay" ∷ codes "--help" ∷ []) ≡ DisplayHelp ∷ [] }
    ensures zero { faults_in (codes "relay" ∷ codes "--width" ∷ codes "0" ∷ []) ≡ ValueValidation ∷ [] }
    ensures wide { faults_in (codes "relay" ∷ codes "--width" ∷ codes "4097" ∷ []) ≡ ValueValidation ∷ [] }
    ensures terminal { faults_in (codes "relay" ∷ codes "--terminal" ∷ codes "vt100" ∷ []) ≡ InvalidValue ∷ [] }
    ensures unknown { faults_in (codes "relay" ∷ codes "--depth" ∷ codes "4" ∷ []) ≡ UnknownArgument ∷ [] }
{}
