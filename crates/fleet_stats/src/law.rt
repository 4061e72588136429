//! What holds of the figures.

ghost use Rattle.std.specs.Prelude.{ℕ, List};
ghost use Rattle.fleet_stats.specs.Report.{IsStats};
ghost use Rattle.fleet_stats.specs.Counts.{IsCounted};
ghost use Rattle.fleet_stats.specs.declared.lines.Style.TheVariants as style;
ghost use Rattle.fleet_stats.specs.declared.answer.StatsForm.TheVariants as form;

/// The figures count what the traces tell: the ticks are those of all histories, and lead from the first opening's
/// clock to the last one's; `arrivals` counts the arrivals that ticks show, `accepted` and `withdrawn` the takes with
/// these verdicts, and `unfinished` the errands that the last history leaves neither done nor withdrawn. What a chapter
/// begins with and accepts either arrives in it, or is withdrawn, or is left at its end.
pub fn figures_are_counts()
    ensures text { (map : List ℕ) (texts : List (List ℕ)) (text : List ℕ) → IsStats form.Text map texts text → IsCounted style.Text map texts text }
    ensures json { (map : List ℕ) (texts : List (List ℕ)) (text : List ℕ) → IsStats form.Json map texts text → IsCounted style.Json map texts text }
{}
