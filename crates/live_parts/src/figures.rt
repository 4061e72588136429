//! The figures of a fleet, in the text form that Prometheus reads.

ghost use Rattle.std.specs.Prelude.{◌≡◌, ◌++◌, IfOk, OnOk, string_bytes};
ghost use Rattle.live_parts.specs.Figures.{counter, counters_text, figure_text, figures_text, gauge, limit_text, memory_text, period_text, queues_text, time_text, times_text, turns_text, version_text, waits_text};

use crate::histogram::seconds_text;
use crate::notices::Notices;
use crate::tally::Tally;
use crate::timing::Timing;
use crate::verdicts::add_verdicts;
use crate::waits::WaitReport;
use fleet_core::QueueReport;
use std::alloc::{AllocError, Global};
use std::fmt::Write;

/// What a fleet did since its start, and how it stands.
#[derive(Clone, Copy)]
pub struct Figures {
    pub tally: Tally,
    pub timing: Timing,
    /// The microseconds between two turns, where they come by themselves.
    pub period: Option<u32>,
    /// The notices that clients were told.
    pub notices: Notices,
    pub waits: WaitReport,
    pub queues: QueueReport,
    /// How many errands were open at the start.
    pub before: u64,
    /// How many chapters were kept.
    pub kept: u64,
    /// How many chapters wait to be kept.
    pub waiting: u64,
    /// How many bytes the distance fields take that no robot needs and that are kept for later.
    pub field_bytes: u64,
    /// When the fleet began, in microseconds since 1970.
    pub began_at: u64,
    /// When the last chapter was kept: the same, and 0 if none was.
    pub kept_at: u64,
    /// The version of the program.
    pub version: &'static str,
}

/// Adds a figure, with what it is.
fn add_figure(
    text: &mut String,
    name: &str,
    kind: &str,
    help: &str,
    value: u64,
) -> Result<(), AllocError>
    ensures { OnOk result (string_bytes text.new ≡ string_bytes text.old ++ figure_text name.now kind.now help.now value) }
{
    write!(
        text,
        "# HELP {name} {help}\n# TYPE {name} {kind}\n{name} {value}\n"
    )?;
    Ok(())
}

/// Adds a figure that never falls.
fn add_counter(text: &mut String, name: &str, help: &str, value: u64) -> Result<(), AllocError>
    ensures { OnOk result (string_bytes text.new ≡ string_bytes text.old ++ counter name.now help.now value) }
{
    add_figure(text, name, "counter", help, value)
}

/// Adds a figure that rises and falls.
fn add_gauge(text: &mut String, name: &str, help: &str, value: u64) -> Result<(), AllocError>
    ensures { OnOk result (string_bytes text.new ≡ string_bytes text.old ++ gauge name.now help.now value) }
{
    add_figure(text, name, "gauge", help, value)
}

/// Adds the limit of all waits, if there is one.
fn add_limit(text: &mut String, limit: Option<u64>) -> Result<(), AllocError>
    ensures { OnOk result (string_bytes text.new ≡ string_bytes text.old ++ limit_text limit) }
{
    match limit {
        Some(most) => add_gauge(
            text,
            "fleet_wait_limit_ticks",
            "A number that no wait reaches.",
            most,
        ),
        None => Ok(()),
    }
}

/// Adds a time that rises and falls, in seconds.
fn add_time(
    alloc: Global,
    text: &mut String,
    name: &str,
    help: &str,
    micros: u64,
) -> Result<(), AllocError>
    ensures { OnOk result (string_bytes text.new ≡ string_bytes text.old ++ time_text name.now help.now micros) }
{
    let seconds = seconds_text(alloc, micros)?;
    write!(
        text,
        "# HELP {name} {help}\n# TYPE {name} gauge\n{name} {seconds}\n"
    )?;
    Ok(())
}

/// Adds the version of the program.
fn add_version(text: &mut String, version: &str) -> Result<(), AllocError>
    ensures { OnOk result (string_bytes text.new ≡ string_bytes text.old ++ version_text version.now) }
{
    write!(
        text,
        "# HELP fleet_build_info The program.\n# TYPE fleet_build_info gauge\nfleet_build_info{{version=\"{version}\"}} 1\n"
    )?;
    Ok(())
}

/// Adds the time between two turns, if they come by themselves.
fn add_period(alloc: Global, text: &mut String, period: Option<u32>) -> Result<(), AllocError>
    ensures { OnOk result (string_bytes text.new ≡ string_bytes text.old ++ period_text period) }
{
    match period {
        Some(micros) => add_time(
            alloc,
            text,
            "fleet_period_seconds",
            "The time between two deadlines.",
            u64::from(micros),
        ),
        None => Ok(()),
    }
}

impl Figures {
    /// Adds what the keeper counts.
    fn add_counters(&self, text: &mut String) -> Result<(), AllocError>
        ensures { OnOk result (string_bytes text.new ≡ string_bytes text.old ++ counters_text self.now) }
    {
        let tally = &self.tally;
        add_counter(text, "fleet_ticks_total", "Ticks made.", tally.ticks)?;
        add_counter(text, "fleet_orders_total", "Orders judged.", tally.orders)?;
        add_counter(
            text,
            "fleet_turns_late_total",
            "Turns that began a period or more after their deadline.",
            tally.late,
        )?;
        let arrived = self.notices.arrived;
        add_counter(text, "fleet_arrivals_total", "Arrivals told.", arrived)?;
        add_counter(
            text,
            "fleet_chapters_kept_total",
            "Chapters kept.",
            self.kept,
        )
    }

    /// Adds when turns were made.
    fn add_turns(&self, alloc: Global, text: &mut String) -> Result<(), AllocError>
        ensures { OnOk result (string_bytes text.new ≡ string_bytes text.old ++ turns_text self.now) }
    {
        let timing = &self.timing;
        add_counter(
            text,
            "fleet_turns_left_out_total",
            "Deadlines that went by without a turn.",
            timing.left_out,
        )?;
        timing.lateness.add_to(
            alloc,
            text,
            "fleet_turn_lateness_seconds",
            "How long after its deadline a turn began.",
        )?;
        timing.turns.add_to(
            alloc,
            text,
            "fleet_turn_duration_seconds",
            "How long a turn took, with what was told.",
        )?;
        add_period(alloc, text, self.period)
    }

    /// Adds the version of the program, when the fleet began, and when its last chapter was kept.
    fn add_times(&self, alloc: Global, text: &mut String) -> Result<(), AllocError>
        ensures { OnOk result (string_bytes text.new ≡ string_bytes text.old ++ times_text self.now) }
    {
        add_version(text, self.version)?;
        add_time(
            alloc,
            text,
            "fleet_start_time_seconds",
            "When the fleet began, since 1970.",
            self.began_at,
        )?;
        add_time(
            alloc,
            text,
            "fleet_chapter_kept_time_seconds",
            "When the last chapter was kept, since 1970; 0 if none was.",
            self.kept_at,
        )
    }

    /// Adds how many errands are open, and how long the queues are.
    fn add_queues(&self, text: &mut String) -> Result<(), AllocError>
        ensures { OnOk result (string_bytes text.new ≡ string_bytes text.old ++ queues_text self.now) }
    {
        add_gauge(
            text,
            "fleet_errands_open",
            "Errands by a verdict that was told, without an arrival that was told.",
            self.notices.open(self.before),
        )?;
        add_gauge(
            text,
            "fleet_queued_errands",
            "Errands in the robots' queues.",
            self.queues.total,
        )?;
        add_gauge(
            text,
            "fleet_queue_longest",
            "Errands in the longest queue.",
            self.queues.longest,
        )
    }

    /// Adds the longest wait and the limit of all waits.
    fn add_waits(&self, text: &mut String) -> Result<(), AllocError>
        ensures { OnOk result (string_bytes text.new ≡ string_bytes text.old ++ waits_text self.now) }
    {
        add_gauge(
            text,
            "fleet_wait_ticks",
            "How long the robot has waited that has waited longest; 0 if none has an errand.",
            self.waits.longest.unwrap_or(0),
        )?;
        add_limit(text, self.waits.limit)
    }

    /// Adds what is held in memory besides the fleet.
    fn add_memory(&self, text: &mut String) -> Result<(), AllocError>
        ensures { OnOk result (string_bytes text.new ≡ string_bytes text.old ++ memory_text self.now) }
    {
        add_gauge(
            text,
            "fleet_chapters_waiting",
            "Chapters that could not be kept yet.",
            self.waiting,
        )?;
        add_gauge(
            text,
            "fleet_kept_field_bytes",
            "Bytes of the distance fields that are kept for later.",
            self.field_bytes,
        )
    }

    /// The text of all figures.
    pub fn text(&self, alloc: Global) -> Result<String, AllocError>
        ensures { IfOk result (λ text. string_bytes text ≡ figures_text self.now) }
    {
        let mut text = String::new(alloc);
        self.add_counters(&mut text)?;
        add_verdicts(&mut text, &self.notices)?;
        self.add_turns(alloc, &mut text)?;
        self.add_queues(&mut text)?;
        self.add_waits(&mut text)?;
        self.add_memory(&mut text)?;
        self.add_times(alloc, &mut text)?;
        Ok(text)
    }
}
