//! All figures as text.

ghost use Rattle.std.specs.Prelude.{◌≡◌, ◌-◌, ◌++◌, codes, decimal, OnOk, IfOk, string_bytes};
ghost use Rattle.fleet_book.specs.Refusals.{refusal_of};
ghost use Rattle.fleet_stats.specs.Text.{run_text, orders_text, refusal_line, refusals_below, done_text, ranks_text, delay_text, ratio_line, robot_ticks, ways_text, robots_text, fleet_text, figures_text, blank_before, comma_before, commas_from, summary_text, later_figures, later_text};

use crate::figures::{Summary, count_of, refusals_of};
use crate::later::LaterFigures;
use crate::lines::{Style, write_counted, write_option, write_ratio, write_whole};
use crate::ranks::Ranks;
use fleet_book::Verdict;
use std::alloc::{AllocError, Global};
use std::fmt::Write;

/// The sizes of the run.
fn write_run(out: &mut String, style: Style, s: &Summary) -> Result<(), AllocError>
    ensures { OnOk result (string_bytes out.new ≡ string_bytes out.old ++ run_text style s.now) }
{
    write_whole(out, style, "", "robots", s.robots)?;
    write_whole(out, style, "", "clients", s.clients)?;
    write_whole(out, style, "", "floor_cells", s.floor_cells)?;
    write_whole(out, style, "", "first_tick", s.first_tick)?;
    write_whole(out, style, "", "ticks", s.ticks)
}

/// The orders, by verdict.
fn write_orders(out: &mut String, style: Style, kinds: &[u8]) -> Result<(), AllocError>
    ensures { OnOk result (string_bytes out.new ≡ string_bytes out.old ++ orders_text style kinds.now) }
{
    write_whole(out, style, "", "orders", kinds.len() as u64)?;
    write_whole(out, style, "", "accepted", count_of(kinds, 0) as u64)?;
    write_whole(out, style, "", "closed", count_of(kinds, 11) as u64)?;
    write_whole(out, style, "", "withdrawn", count_of(kinds, 12) as u64)?;
    write_whole(out, style, "", "refused", refusals_of(kinds) as u64)
}

/// The refusals of a code.
fn write_refusal(out: &mut String, style: Style, kinds: &[u8], code: u8) -> Result<(), AllocError>
    ensures { OnOk result (string_bytes out.new ≡ string_bytes out.old ++ refusal_line style kinds.now code (refusal_of code)) }
{
    match Verdict::of_code(u64::from(code)) {
        None => Ok(()),
        Some(verdict) => {
            let count = count_of(kinds, code) as u64;
            write_whole(out, style, "refused_", verdict.name(), count)
        }
    }
}

/// The refusals, by code.
fn write_refusals(out: &mut String, style: Style, kinds: &[u8]) -> Result<(), AllocError>
    ensures { OnOk result (string_bytes out.new ≡ string_bytes out.old ++ refusals_below style kinds.now 10) }
{
    for code in 0..10u8 {
        write_refusal(out, style, kinds, code + 1)?;
    }
    Ok(())
}

/// The arrivals, and the errands that are left.
fn write_done(out: &mut String, style: Style, s: &Summary) -> Result<(), AllocError>
    ensures { OnOk result (string_bytes out.new ≡ string_bytes out.old ++ done_text style s.now) }
{
    write_whole(out, style, "", "arrivals", s.arrivals)?;
    write_ratio(out, style, "", "throughput", s.arrivals, s.ticks)?;
    write_whole(out, style, "", "unfinished", s.unfinished)?;
    write_whole(out, style, "", "errands", s.service.count)
}

/// The figures of times.
fn write_ranks(out: &mut String, style: Style, group: &str, x: &Ranks) -> Result<(), AllocError>
    ensures { OnOk result (string_bytes out.new ≡ string_bytes out.old ++ ranks_text style group.now x.now) }
{
    write_ratio(out, style, group, "_mean", x.total, x.count)?;
    write_counted(out, style, group, "_median", x.count, x.median)?;
    write_counted(out, style, group, "_p90", x.count, x.ninetieth)?;
    write_counted(out, style, group, "_p99", x.count, x.ninety_ninth)?;
    write_counted(out, style, group, "_greatest", x.count, x.greatest)
}

/// The time beyond the distances, over the errands.
fn write_late(
    out: &mut String,
    style: Style,
    travel: u64,
    distance: u64,
    errands: u64,
) -> Result<(), AllocError>
    ensures { OnOk result (string_bytes out.new ≡ string_bytes out.old ++ ratio_line style (codes "") (codes "delay") (travel - distance) errands) }
{
    let late = travel.saturating_sub(distance);
    write_ratio(out, style, "", "delay", late, errands)
}

/// The same, and the time over the distances.
fn write_delay(
    out: &mut String,
    style: Style,
    travel: u64,
    distance: u64,
    errands: u64,
) -> Result<(), AllocError>
    ensures { OnOk result (string_bytes out.new ≡ string_bytes out.old ++ delay_text style travel distance errands) }
{
    write_late(out, style, travel, distance, errands)?;
    write_ratio(out, style, "", "delay_ratio", travel, distance)
}

/// The ways to errands.
fn write_ways(out: &mut String, style: Style, s: &Summary) -> Result<(), AllocError>
    ensures { OnOk result (string_bytes out.new ≡ string_bytes out.old ++ ways_text style s.now) }
{
    write_whole(out, style, "", "steps", s.steps)?;
    write_whole(out, style, "", "distance", s.distance)?;
    write_ratio(out, style, "", "detour", s.steps, s.distance)
}

/// The share of the robots that had an errand, over all ticks.
fn write_under_way(out: &mut String, style: Style, s: &Summary) -> Result<(), AllocError>
    ensures { OnOk result (string_bytes out.new ≡ string_bytes out.old ++ ratio_line style (codes "") (codes "under_way") (robot_ticks s.now - s.now.idle) (robot_ticks s.now)) }
{
    let all = s.robots.saturating_mul(s.ticks);
    let busy = all.saturating_sub(s.idle);
    write_ratio(out, style, "", "under_way", busy, all)
}

/// The robots over all ticks.
fn write_robots(out: &mut String, style: Style, s: &Summary) -> Result<(), AllocError>
    ensures { OnOk result (string_bytes out.new ≡ string_bytes out.old ++ robots_text style s.now) }
{
    write_whole(out, style, "", "longest_wait", s.waited)?;
    write_option(out, style, "", "wait_limit", s.limit)?;
    write_ratio(out, style, "", "idle_mean", s.idle, s.ticks)?;
    write_under_way(out, style, s)?;
    write_whole(out, style, "", "moves", s.moves)?;
    write_whole(out, style, "", "stands", s.stands)
}

/// The errands that were done.
fn write_errands(out: &mut String, style: Style, s: &Summary) -> Result<(), AllocError>
    ensures { OnOk result (string_bytes out.new ≡ string_bytes out.old ++ fleet_text style s.now) }
{
    write_done(out, style, s)?;
    write_ranks(out, style, "service", &s.service)?;
    write_ranks(out, style, "travel", &s.travel)?;
    write_ways(out, style, s)?;
    write_delay(out, style, s.travel.total, s.distance, s.service.count)
}

/// All figures but those of windows.
fn write_figures(
    out: &mut String,
    style: Style,
    s: &Summary,
    kinds: &[u8],
) -> Result<(), AllocError>
    ensures { OnOk result (string_bytes out.new ≡ string_bytes out.old ++ figures_text style s.now kinds.now) }
{
    write_run(out, style, s)?;
    write_orders(out, style, kinds)?;
    write_refusals(out, style, kinds)?;
    write_errands(out, style, s)?;
    write_robots(out, style, s)
}

/// Numbers with a blank before each.
fn write_after_blanks(out: &mut String, numbers: &[u64]) -> Result<(), AllocError>
    ensures { OnOk result (string_bytes out.new ≡ string_bytes out.old ++ blank_before numbers.now) }
{
    for number in numbers {
        write!(out, " {number}")?;
    }
    Ok(())
}

/// A number, with a comma before it if it is not the first.
fn write_next(out: &mut String, place: usize, number: u64) -> Result<(), AllocError>
    ensures { OnOk result (string_bytes out.new ≡ string_bytes out.old ++ (comma_before place ++ decimal number)) }
{
    if place == 0 {
        write!(out, "{number}")
    } else {
        write!(out, ",{number}")
    }
}

/// Numbers with commas between them.
fn write_between_commas(out: &mut String, numbers: &[u64]) -> Result<(), AllocError>
    ensures { OnOk result (string_bytes out.new ≡ string_bytes out.old ++ commas_from 0 numbers.now) }
{
    for place in 0..numbers.len() {
        write_next(out, place, numbers[place])?;
    }
    Ok(())
}

/// All figures, and the arrivals in windows, as lines.
fn write_text(
    out: &mut String,
    s: &Summary,
    kinds: &[u8],
    windows: &[u64],
) -> Result<(), AllocError>
    ensures { OnOk result (string_bytes out.new ≡ string_bytes out.old ++ summary_text Style.Text s.now kinds.now windows.now) }
{
    write_figures(out, Style::Text, s, kinds)?;
    out.push_str("window_arrivals")?;
    write_after_blanks(out, windows)?;
    out.push_str("\n")
}

/// The same, as a JSON object.
fn write_json(
    out: &mut String,
    s: &Summary,
    kinds: &[u8],
    windows: &[u64],
) -> Result<(), AllocError>
    ensures { OnOk result (string_bytes out.new ≡ string_bytes out.old ++ summary_text Style.Json s.now kinds.now windows.now) }
{
    out.push_str("{")?;
    write_figures(out, Style::Json, s, kinds)?;
    out.push_str("\"window_arrivals\":[")?;
    write_between_commas(out, windows)?;
    out.push_str("]}\n")
}

/// All figures as a text.
pub(crate) fn summary_text(
    alloc: Global,
    style: Style,
    s: &Summary,
    kinds: &[u8],
    windows: &[u64],
) -> Result<String, AllocError>
    ensures { IfOk result (λ text. string_bytes text ≡ summary_text style s.now kinds.now windows.now) }
{
    let mut out = String::new(alloc);
    match style {
        Style::Text => write_text(&mut out, s, kinds, windows)?,
        Style::Json => write_json(&mut out, s, kinds, windows)?,
    }
    Ok(out)
}

/// The figures after a clock but the longest wait.
fn write_later(out: &mut String, style: Style, f: &LaterFigures) -> Result<(), AllocError>
    ensures { OnOk result (string_bytes out.new ≡ string_bytes out.old ++ later_figures style f.now) }
{
    write_whole(out, style, "", "ticks", f.ticks)?;
    write_whole(out, style, "", "arrivals", f.arrivals)?;
    write_ratio(out, style, "", "throughput", f.arrivals, f.ticks)?;
    write_whole(out, style, "", "errands", f.service.count)?;
    write_ranks(out, style, "service", &f.service)?;
    write_whole(out, style, "", "distance", f.distance)?;
    write_delay(out, style, f.travel, f.distance, f.service.count)
}

/// The figures after a clock, as lines.
fn write_later_lines(out: &mut String, f: &LaterFigures) -> Result<(), AllocError>
    ensures { OnOk result (string_bytes out.new ≡ string_bytes out.old ++ later_text Style.Text f.now) }
{
    write_later(out, Style::Text, f)?;
    let waited = f.waited;
    write!(out, "longest_wait {waited}\n")
}

/// The same, as a JSON object.
fn write_later_json(out: &mut String, f: &LaterFigures) -> Result<(), AllocError>
    ensures { OnOk result (string_bytes out.new ≡ string_bytes out.old ++ later_text Style.Json f.now) }
{
    out.push_str("{")?;
    write_later(out, Style::Json, f)?;
    let waited = f.waited;
    write!(out, "\"longest_wait\":{waited}}}\n")
}

/// The figures after a clock as a text.
pub(crate) fn later_text(
    alloc: Global,
    style: Style,
    f: &LaterFigures,
) -> Result<String, AllocError>
    ensures { IfOk result (λ text. string_bytes text ≡ later_text style f.now) }
{
    let mut out = String::new(alloc);
    match style {
        Style::Text => write_later_lines(&mut out, f)?,
        Style::Json => write_later_json(&mut out, f)?,
    }
    Ok(out)
}
