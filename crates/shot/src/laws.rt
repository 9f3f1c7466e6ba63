//! Laws of the definitions, as the contracts of functions that do nothing.
ghost use Rattle.std.specs.Prelude.{◌≡◌, ◌++◌, ◌∷◌, [], ℕ, List, None, Option, filter, not};
ghost use Rattle.cell_base.specs.Cluster.{program_width};
ghost use Rattle.recordings.specs.Events.{Event as RecordedEvent};
ghost use Rattle.recordings.specs.Order.{AreFrom};
ghost use Rattle.recordings.specs.Recordings.{Recording};
ghost use Rattle.shot.specs.Pictures.{picture};
ghost use Rattle.shot.specs.Play.{events_after, is_by, steps_of, until};
ghost use Rattle.shot.specs.Shots.{end_of, first_view, shots};
ghost use Rattle.shot.specs.declared.format.Format.{Format};
ghost use Rattle.terminal_table.specs.History.{Look};
ghost use Rattle.terminal_steps.specs.declared.profile.Profile.{Profile};
ghost use Rattle.terminal_table.specs.Meaning.{after};

/// The events of a recording up to a time are exactly those at that time or before it, and the rest are after it.
pub fn events_are_cut_at_a_time()
    ensures until { (time : ℕ) (events : List RecordedEvent) → AreFrom 0 events
        → until time events ≡ filter (is_by time) events }
    ensures events_after { (time : ℕ) (events : List RecordedEvent) → AreFrom 0 events
        → events_after time events ≡ filter (λ event. not (is_by time event)) events }
{}

/// Without a step the program writes one screen of a recording without a wrong line: that of a new terminal of its size
/// and of the profile after the events up to the requested time, and a look.
pub fn one_screen_is_that_of_the_time()
    ensures { (format : Format) (at : Option ℕ) (profile : Profile) (recording : Recording) → recording.fault ≡ None
        → shots format at 0 profile recording ≡ picture format (after program_width (first_view profile recording)
        (steps_of (until (end_of at recording.events) recording.events) ++ Look ∷ [])).state.screen }
{}
