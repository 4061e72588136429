//! The figures of verdicts.

ghost use Rattle.std.specs.Prelude.{◌≡◌, ◌++◌, OnOk, string_bytes};
ghost use Rattle.std.specs.List.{flat_map};
ghost use Rattle.live_parts.specs.Figures.{counter, kind_line, verdict_line, verdicts_text};

use crate::notices::Notices;
use fleet_book::Verdict;
use std::alloc::AllocError;
use std::fmt::Write;

/// One verdict of each kind.
const VERDICTS: [Verdict; 13] = [
    Verdict::Accepted(0),
    Verdict::Closed,
    Verdict::Withdrawn,
    Verdict::ClientClosed,
    Verdict::NoRobot,
    Verdict::RobotShut,
    Verdict::NoCell,
    Verdict::Blocked,
    Verdict::Unreachable,
    Verdict::QueueFull,
    Verdict::LifeSpent,
    Verdict::NoErrand,
    Verdict::TooLate,
];

/// Adds how many verdicts of a kind were told.
fn add_verdict(text: &mut String, name: &str, count: u64) -> Result<(), AllocError>
    ensures { OnOk result (string_bytes text.new ≡ string_bytes text.old ++ verdict_line name.now count) }
{
    write!(text, "fleet_verdicts_total{{verdict=\"{name}\"}} {count}\n")?;
    Ok(())
}

/// Adds how many verdicts of this one's kind were told.
fn add_kind(text: &mut String, notices: &Notices, verdict: Verdict) -> Result<(), AllocError>
    ensures { OnOk result (string_bytes text.new ≡ string_bytes text.old ++ kind_line notices.now verdict) }
{
    add_verdict(text, verdict.name(), notices.count_of(verdict))
}

/// Adds how many verdicts of the kinds of these were told.
fn add_kinds(text: &mut String, notices: &Notices, verdicts: &[Verdict]) -> Result<(), AllocError>
    ensures { OnOk result (string_bytes text.new ≡ string_bytes text.old ++ flat_map (kind_line notices.now) verdicts.now) }
{
    for verdict in verdicts {
        add_kind(text, notices, *verdict)?;
    }
    Ok(())
}

/// Adds how many verdicts of each kind were told.
pub(crate) fn add_verdicts(text: &mut String, notices: &Notices) -> Result<(), AllocError>
    ensures { OnOk result (string_bytes text.new ≡ string_bytes text.old ++ verdicts_text notices.now) }
{
    text.push_str(
        "# HELP fleet_verdicts_total Verdicts told.\n# TYPE fleet_verdicts_total counter\n",
    )?;
    add_kinds(text, notices, &VERDICTS)
}
