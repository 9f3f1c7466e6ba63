//! Laws of logs: nothing that is due is lost, and what is kept is counted. Each is the contract of a function that
//! does nothing.
ghost use Rattle.std.specs.Prelude.{◌≡◌, ◌≢◌, ℕ, ◌+◌, ◌<◌, ◌≤◌, List, [], ◌∷◌, codes, length, replicate};
ghost use Rattle.screen_change.specs.ChangeValue.{ChangeValue, Text};
ghost use Rattle.screen_log.specs.Log.{due, due_after, most_due};
ghost use Rattle.screen_log.specs.LogSteps.{LogStep, Sized, AreSized, Forgotten, Logged, Resized, a_text, log_of_all};
ghost use Rattle.screen_log.specs.LogSteps.{log_of_kept, step_of_kept};

use crate::change_log::ChangeLog;

/// After any steps, a log that keeps only the last changes that may be due returns what a log that
/// keeps all returns: the same changes are due at each number, and the numbers are the same.
pub fn nothing_due_is_lost()
    ensures due { (most : ℕ) (steps : List LogStep) (number : ℕ) → 0 < most → AreSized steps
        → due (log_of_kept most steps).most (log_of_kept most steps).log number
        ≡ due (log_of_all most steps).most (log_of_all most steps).log number }
    ensures number { (most : ℕ) (steps : List LogStep) → 0 < most → AreSized steps
        → (log_of_kept most steps).log.number ≡ (log_of_all most steps).log.number }
{}

/// Each change that a log keeps has a number, and at most as many are kept as may be due.
pub fn kept_changes_are_counted(log: &ChangeLog)
    ensures numbered { length log.now.log.entries ≤ log.now.log.number }
    ensures most { length log.now.log.entries ≤ log.now.most }
{
    log.is_counted();
}

/// After one more change, the changes due from a number on are the ones due before it, and the change;
/// or a repaint is due instead, where it was before, or where more changes would be due than may be. To
/// a viewer who has seen the change none is due. Each change that the log keeps is taken to have a
/// number, as in all logs.
pub fn another_change_is_due_last()
    ensures due { (log : Sized) (change : ChangeValue) (number : ℕ) → length log.log.entries ≤ log.log.number
        → number ≤ log.log.number
        → due log.most (step_of_kept log (Logged change)).log number ≡ due_after log.most log.log change number }
    ensures seen { (log : Sized) (change : ChangeValue) → length log.log.entries ≤ log.log.number
        → due log.most (step_of_kept log (Logged change)).log (log.log.number + 1) ≡ Some [] }
{}

/// Another size raises the number by one and empties the log where it isn't empty; where it is empty,
/// only the number of changes that may be due is changed.
pub fn other_sizes_empty_the_log()
    ensures counted { (log : Sized) (most : ℕ) → log.log.entries ≢ []
        → step_of_kept log (Resized most)
        ≡ record { most = most; log = record { number = log.log.number + 1; entries = [] } } }
    ensures empty { (log : Sized) (most : ℕ) → log.log.entries ≡ []
        → step_of_kept log (Resized most) ≡ record log { most = most } }
{}

/// Where the changes before a number are forgotten, from that number on the same is due as before.
pub fn forgotten_changes_are_not_due()
    ensures { (log : Sized) (before : ℕ) (number : ℕ) → length log.log.entries ≤ log.log.number → before ≤ number
        → due log.most (step_of_kept log (Forgotten before)).log number ≡ due log.most log.log number }
{}

/// Worked logs of a screen of one column and row, which keep four changes: of five the last four are
/// due from number 1 on, of six nothing is, but from number 2 on four are.
pub fn worked_logs()
    ensures small { most_due 1 1 ≡ 4 }
    ensures usual { most_due 80 24 ≡ 2307 }
    ensures fifth { due 4 (log_of_kept (most_due 1 1) (replicate 5 a_text)).log 1
        ≡ Some (replicate 4 (Text (codes "a"))) }
    ensures repaint { due 4 (log_of_kept (most_due 1 1) (replicate 5 a_text)).log 0 ≡ None }
    ensures sixth { due 4 (log_of_kept (most_due 1 1) (replicate 6 a_text)).log 1 ≡ None }
    ensures later { due 4 (log_of_kept (most_due 1 1) (replicate 6 a_text)).log 2
        ≡ Some (replicate 4 (Text (codes "a"))) }
    ensures above { due 4 (log_of_kept (most_due 1 1) (replicate 6 a_text)).log 7 ≡ None }
    ensures resized { (log_of_kept 4 (a_text ∷ Resized 8 ∷ Resized 9 ∷ [])).log ≡ record { number = 2; entries = [] } }
    ensures forgotten { due 4 (log_of_kept 4 (a_text ∷ a_text ∷ Forgotten 2 ∷ [])).log 1 ≡ None }
{}
