//! The word `stats`.

ghost use Rattle.std.specs.Prelude.{◌≡◌, [], map, IfOk, string_bytes};
ghost use Rattle.std.specs.Option.{option_map};
ghost use Rattle.fleet_lib.specs.Said.{said_of};
ghost use Rattle.fleet_lib.specs.Stats.{IsStatsOutcome, fault_status, fault_text, faulty, form_of, later_by, later_form, name_at, stats_form};

use crate::said::Said;
use crate::words::{Figures, Stats};
use fleet_map::text::number_up_to;
use fleet_stats::{StatsFault, StatsForm, stats};
use fleet_text::Complaint;
use std::alloc::{AllocError, Global};

/// No run has more ticks.
const MOST_WARM_UP: u64 = 281_474_976_710_656;

/// What is asked for without a warm-up.
fn form_of(figures: Figures) -> StatsForm
    ensures { result ≡ form_of figures }
{
    match figures {
        Figures::Lines => StatsForm::Text,
        Figures::Json => StatsForm::Json,
        Figures::Errands => StatsForm::Errands,
        Figures::Unfinished => StatsForm::Unfinished,
        Figures::Robots => StatsForm::Robots,
        Figures::Clients => StatsForm::Clients,
        Figures::Ticks => StatsForm::Ticks,
        Figures::Cells => StatsForm::Cells,
    }
}

/// What is asked for with a warm-up of this many ticks; `None` with a table.
fn later_form(figures: Figures, warm_up: u64) -> Option<StatsForm>
    ensures { result ≡ later_form figures warm_up }
{
    match figures {
        Figures::Lines => Some(StatsForm::TextAfter(warm_up)),
        Figures::Json => Some(StatsForm::JsonAfter(warm_up)),
        _ => None,
    }
}

/// The same, where a word says how many ticks.
fn later_by(figures: Figures, word: &[u8]) -> Option<StatsForm>
    ensures { result ≡ later_by figures word.now }
{
    let ticks = number_up_to(word, MOST_WARM_UP)?;
    later_form(figures, ticks)
}

/// What the words ask for; `None` if they name no table or a table with JSON or a warm-up, or a warm-up that is not a
/// number of ticks.
pub fn stats_form(asked: &Stats) -> Option<StatsForm>
    ensures { result ≡ stats_form asked.now.figures (option_map (λ s. string_bytes s) asked.now.warm_up) }
{
    let figures = asked.figures?;
    match &asked.warm_up {
        None => Some(form_of(figures)),
        Some(word) => later_by(figures, word.as_bytes()),
    }
}

/// The name of the file with this number, from 1; no text if there is none.
fn name_at(names: &[String], number: u64) -> &str
    ensures { result.now ≡ name_at (map (λ name. string_bytes name) names.now) number }
{
    match names.get(number.saturating_sub(1) as usize) {
        Some(name) => name.as_str(),
        None => "",
    }
}

/// How a fault is named.
fn fault_text(alloc: Global, names: &[String], fault: StatsFault) -> Result<String, AllocError>
    ensures { IfOk result (λ text. string_bytes text ≡ fault_text (map (λ name. string_bytes name) names.now) fault) }
{
    match fault {
        StatsFault::Map(fault) => {
            let complaint = Complaint::Map(fault);
            format!(in alloc; "{complaint}")
        }
        StatsFault::Trace(number, fault) => {
            let (name, complaint) = (name_at(names, number), Complaint::Trace(fault));
            format!(in alloc; "{name}: {complaint}")
        }
        StatsFault::Chapter(number) => {
            let name = name_at(names, number);
            format!(in alloc; "{name}: chapter")
        }
        StatsFault::Late(number) => {
            let name = name_at(names, number);
            format!(in alloc; "{name}: late")
        }
        StatsFault::Illegal { number, at, rule } => {
            let name = name_at(names, number);
            format!(in alloc; "{name}: illegal {at} {rule}")
        }
        StatsFault::NoMemory => String::from_str(alloc, "memory"),
    }
}

/// The status of a fault.
fn status_of(fault: StatsFault) -> u8
    ensures { result ≡ fault_status fault }
{
    match fault {
        StatsFault::Map(_) => 4,
        StatsFault::Trace(..) | StatsFault::Chapter(_) => 6,
        StatsFault::Late(_) | StatsFault::Illegal { .. } => 6,
        StatsFault::NoMemory => 7,
    }
}

/// The answer if there are no figures.
fn faulty(alloc: Global, names: &[String], fault: StatsFault) -> Result<Said, AllocError>
    ensures { IfOk result (λ s. said_of s ≡ faulty (map (λ name. string_bytes name) names.now) fault) }
{
    let text = fault_text(alloc, names, fault)?;
    Ok(Said {
        output: Vec::new(alloc),
        status: status_of(fault),
        complaint: format!(in alloc; "fleet: {text}\n")?,
    })
}

/// The answer with this text.
fn good(alloc: Global, text: &str) -> Result<Said, AllocError>
    ensures { IfOk result (λ s. said_of s ≡ record { output = text.now; status = 0; complaint = [] }) }
{
    Ok(Said {
        output: Vec::from_slice(alloc, text.as_bytes())?,
        status: 0,
        complaint: String::new(alloc),
    })
}

/// The answer to a map and to traces on it, in files of these names.
pub fn answer_stats(
    alloc: Global,
    form: StatsForm,
    names: &[String],
    bytes: &[u8],
    traces: &[Vec<u8>],
) -> Result<Said, AllocError>
    ensures { IfOk result (λ s. IsStatsOutcome form (map (λ name. string_bytes name) names.now) bytes.now (map (λ t. t.items) traces.now) (said_of s)) }
{
    match stats(alloc, form, bytes, traces) {
        Ok(text) => good(alloc, text.as_str()),
        Err(fault) => faulty(alloc, names, fault),
    }
}
