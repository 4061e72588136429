//! Laws of the page's text.

ghost use Rattle.std.specs.Prelude.{◌≡◌, true, ℕ, List};
ghost use Rattle.std.specs.declared.alloc.Global.{Global};
ghost use Rattle.fleet_map.specs.Grammar.{Map};
ghost use Rattle.fleet_map.specs.Shape.{IsMapText};
ghost use Rattle.fleet_trace.specs.Trace.{Trace};
ghost use Rattle.fleet_view.specs.Page.{chapters_text, map_text};
ghost use Rattle.fleet_view.specs.declared.verdict.ChapterVerdict.{ChapterVerdict};
ghost use Rattle.fleet_view.specs.Verdicts.{verdicts_text};
ghost use Rattle.fleet_conflicts.specs.declared.conflicts.Conflict.{Conflict};
ghost use Rattle.fleet_view.specs.Closed.{HasNoTag};
ghost use Rattle.fleet_view.specs.Logs.{is_log, log_run};
ghost use Rattle.fleet_view.specs.Pair.{trace_run};
ghost use Rattle.fleet_view.specs.Runs.{plan_run};

/// No part of the input that a page contains has the byte `<`, so that none of it ends the script element in which it
/// is.
pub fn input_ends_no_element()
    ensures rows { (bytes : List ℕ) (m : Map) → IsMapText bytes m → HasNoTag (map_text m) }
    ensures verdicts { (vs : List ChapterVerdict) → HasNoTag (verdicts_text vs) }
    ensures traces { (ts : List (Trace Global)) → HasNoTag (chapters_text ts) }
{}

/// The same of the runs that a page contains; of a log if the text is taken for one.
pub fn runs_end_no_element()
    ensures plan { (width : ℕ) (places : List (List ℕ)) (cs : List Conflict) → HasNoTag (plan_run width places cs) }
    ensures log { (text : List ℕ) → is_log text ≡ true → HasNoTag (log_run text) }
    ensures trace { (v : ChapterVerdict) (t : Trace Global) → HasNoTag (trace_run v t) }
{}
