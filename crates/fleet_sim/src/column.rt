//! The columns of the table that have a mean and a deviation.

ghost use Rattle.std.specs.Prelude.{◌≡◌};
ghost use Rattle.fleet_sim.specs.Table.{quotient, counted, some_of, value_of};

use crate::run::{Run, Times};

/// A figure of a run, in thousandths.
#[derive(Clone, Copy, Debug, PartialEq, Eq)]
pub(crate) enum Column {
    /// The arrivals by the ticks.
    Throughput,
    ServiceMedian,
    ServiceNinetieth,
    ServiceNinetyNinth,
    /// The ticks beyond the distance, by the errands.
    Delay,
    /// The ticks by the distances.
    DelayRatio,
    LongestWait,
    /// In microseconds, whose thousandths are nanoseconds.
    StepMedian,
    StepNinetyNinth,
    /// The time of the ticks by that of the steps.
    Planning,
}

impl Column {
    /// Those that are the same on every machine.
    pub(crate) const FIGURES: [Column; 7] = [
        Column::Throughput,
        Column::ServiceMedian,
        Column::ServiceNinetieth,
        Column::ServiceNinetyNinth,
        Column::Delay,
        Column::DelayRatio,
        Column::LongestWait,
    ];

    /// Those of times.
    pub(crate) const TIMES: [Column; 3] = [
        Column::StepMedian,
        Column::StepNinetyNinth,
        Column::Planning,
    ];

    /// Its name.
    pub(crate) fn name(self) -> &'static str {
        match self {
            Column::Throughput => "throughput",
            Column::ServiceMedian => "service_median",
            Column::ServiceNinetieth => "service_p90",
            Column::ServiceNinetyNinth => "service_p99",
            Column::Delay => "delay",
            Column::DelayRatio => "delay_ratio",
            Column::LongestWait => "longest_wait",
            Column::StepMedian => "step_median_us",
            Column::StepNinetyNinth => "step_p99_us",
            Column::Planning => "planning",
        }
    }

    /// The figure of a run, if it has it.
    pub(crate) fn value_of(self, run: &Run) -> Option<u64>
        ensures { result ≡ value_of self run.now }
    {
        let figures = run.figures;
        let service = figures.service;
        match self {
            Column::Throughput => quotient(figures.arrivals, figures.ticks),
            Column::ServiceMedian => counted(service.count, service.median),
            Column::ServiceNinetieth => counted(service.count, service.ninetieth),
            Column::ServiceNinetyNinth => counted(service.count, service.ninety_ninth),
            Column::Delay => quotient(
                figures.travel.saturating_sub(figures.distance),
                service.count,
            ),
            Column::DelayRatio => quotient(figures.travel, figures.distance),
            Column::LongestWait => quotient(figures.waited, 1),
            Column::StepMedian => match run.times {
                Some(Times { steps, .. }) => some_of(steps.count, steps.median),
                None => None,
            },
            Column::StepNinetyNinth => match run.times {
                Some(Times { steps, .. }) => some_of(steps.count, steps.ninety_ninth),
                None => None,
            },
            Column::Planning => match run.times {
                Some(Times { steps, planning }) => quotient(planning, steps.total),
                None => None,
            },
        }
    }
}

/// The thousandths of a quotient, rounded down, at most 2^64 - 1; none by 0.
fn quotient(number: u64, by: u64) -> Option<u64>
    ensures { result ≡ quotient number by }
{
    if by == 0 {
        return None;
    }
    let parts = number as u128 * 1000 / by as u128;
    Some(parts.min(18_446_744_073_709_551_615) as u64)
}

/// A figure of some numbers; none if there are none.
fn some_of(count: u64, number: u64) -> Option<u64>
    ensures { result ≡ some_of count number }
{
    if count == 0 { None } else { Some(number) }
}

/// The thousandths of a figure of some numbers; none if there are none.
fn counted(count: u64, number: u64) -> Option<u64>
    ensures { result ≡ counted count number }
{
    if count == 0 {
        None
    } else {
        quotient(number, 1)
    }
}
