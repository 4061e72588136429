//! What holds of a journal that is cut. The function does nothing.

ghost use Rattle.std.specs.Prelude.{◌≡◌, ◌<◌, ◌≤◌, ℕ, [], length, take};
ghost use Rattle.std.specs.declared.alloc.Global.{Global};
ghost use Rattle.fleet_trace.specs.Fits.{TraceFits};
ghost use Rattle.fleet_trace.specs.Trace.{Trace};
ghost use Rattle.fleet_journal.specs.Lines.{whole_lines};
ghost use Rattle.fleet_journal.specs.Cut.{IsCut};
ghost use Rattle.fleet_journal.specs.Text.{head_line, journal_text};

/// The text of a journal, cut after any number of bytes, tells the opening and exactly the entries whose lines are
/// whole in it; it tells nothing if not even the first line is.
pub fn journals_may_be_cut()
    ensures short { (t : Trace Global) (bytes : ℕ) → TraceFits t → bytes < length (head_line t.number t.history.opening) →
        whole_lines (take bytes (journal_text t)) ≡ [] }
    ensures cut { (t : Trace Global) (bytes : ℕ) → TraceFits t → length (head_line t.number t.history.opening) ≤ bytes →
        IsCut t bytes }
{}
