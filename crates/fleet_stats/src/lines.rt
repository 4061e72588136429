//! One figure as text.

ghost use Rattle.std.specs.Prelude.{◌≡◌, ◌++◌, ◌*◌, ◌/◌, ◌%◌, ◌<◌, OnOk, string_bytes};
ghost use Rattle.fleet_stats.specs.Text.{whole_line, none_line, parts_line, ratio_line, option_line, counted_line};

use std::alloc::AllocError;
use std::fmt::Write;

/// How figures are written. Their names have two parts.
#[derive(Clone, Copy)]
pub(crate) enum Style {
    /// Lines `NAME VALUE`.
    Text,
    /// Members of a JSON object, with a comma after each.
    Json,
}

/// A whole number.
pub(crate) fn write_whole(
    out: &mut String,
    style: Style,
    group: &str,
    name: &str,
    number: u64,
) -> Result<(), AllocError>
    ensures { OnOk result (string_bytes out.new ≡ string_bytes out.old ++ whole_line style group.now name.now number) }
{
    match style {
        Style::Text => write!(out, "{group}{name} {number}\n"),
        Style::Json => write!(out, "\"{group}{name}\":{number},"),
    }
}

/// That there is no such number.
fn write_none(out: &mut String, style: Style, group: &str, name: &str) -> Result<(), AllocError>
    ensures { OnOk result (string_bytes out.new ≡ string_bytes out.old ++ none_line style group.now name.now) }
{
    match style {
        Style::Text => write!(out, "{group}{name} none\n"),
        Style::Json => write!(out, "\"{group}{name}\":null,"),
    }
}

/// A number and its thousandths.
fn write_parts(
    out: &mut String,
    style: Style,
    group: &str,
    name: &str,
    whole: u64,
    part: u64,
) -> Result<(), AllocError>
    ensures { OnOk result (string_bytes out.new ≡ string_bytes out.old ++ parts_line style group.now name.now whole part) }
{
    let (tenths, hundredths, thousandths) = (part / 100, part / 10 % 10, part % 10);
    match style {
        Style::Text => write!(
            out,
            "{group}{name} {whole}.{tenths}{hundredths}{thousandths}\n"
        ),
        Style::Json => write!(
            out,
            "\"{group}{name}\":{whole}.{tenths}{hundredths}{thousandths},"
        ),
    }
}

/// The thousandths of a quotient beyond its whole part, rounded down.
fn thousandths(number: u64, by: u64) -> u64
    requires { 0 < by }
    ensures { result ≡ number % by * 1000 / by }
{
    let rest = (number % by) as u128 * 1000;
    (rest / by as u128) as u64
}

/// A quotient, rounded down to thousandths; none by 0.
pub(crate) fn write_ratio(
    out: &mut String,
    style: Style,
    group: &str,
    name: &str,
    number: u64,
    by: u64,
) -> Result<(), AllocError>
    ensures { OnOk result (string_bytes out.new ≡ string_bytes out.old ++ ratio_line style group.now name.now number by) }
{
    if by == 0 {
        return write_none(out, style, group, name);
    }
    write_parts(
        out,
        style,
        group,
        name,
        number / by,
        thousandths(number, by),
    )
}

/// A number, if there is one.
pub(crate) fn write_option(
    out: &mut String,
    style: Style,
    group: &str,
    name: &str,
    number: Option<u64>,
) -> Result<(), AllocError>
    ensures { OnOk result (string_bytes out.new ≡ string_bytes out.old ++ option_line style group.now name.now number) }
{
    match number {
        Some(number) => write_whole(out, style, group, name, number),
        None => write_none(out, style, group, name),
    }
}

/// A figure of numbers, if there are some.
pub(crate) fn write_counted(
    out: &mut String,
    style: Style,
    group: &str,
    name: &str,
    count: u64,
    number: u64,
) -> Result<(), AllocError>
    ensures { OnOk result (string_bytes out.new ≡ string_bytes out.old ++ counted_line style group.now name.now count number) }
{
    if count == 0 {
        return write_none(out, style, group, name);
    }
    write_whole(out, style, group, name, number)
}
