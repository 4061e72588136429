//! The word `map`.

ghost use Rattle.std.specs.Prelude.{◌≡◌, IfOk, string_bytes};
ghost use Rattle.std.specs.Option.{option_copied};
ghost use Rattle.fleet_lib.specs.Said.{said_of};
ghost use Rattle.fleet_lib.specs.Map.{IsMapOutcome, fault_text, fault_status, faulty};

use crate::check::{printed, refused};
use crate::said::Said;
pub use fleet_survey::SurveyForm as MapForm;
use fleet_survey::{SurveyFault, survey_text};
use fleet_text::Complaint;
use std::alloc::{AllocError, Global};

/// How a fault is named.
fn fault_text(alloc: Global, fault: SurveyFault) -> Result<String, AllocError>
    ensures { IfOk result (λ text. string_bytes text ≡ fault_text fault) }
{
    match fault {
        SurveyFault::Map(fault) => {
            let complaint = Complaint::Map(fault);
            format!(in alloc; "{complaint}")
        }
        SurveyFault::Cells(line) => format!(in alloc; "cells {line}"),
        SurveyFault::NoMemory => String::from_str(alloc, "memory"),
    }
}

/// The status of a fault.
fn status_of(fault: SurveyFault) -> u8
    ensures { result ≡ fault_status fault }
{
    match fault {
        SurveyFault::Map(_) => 4,
        SurveyFault::Cells(_) => 5,
        SurveyFault::NoMemory => 7,
    }
}

/// The answer if nothing is told.
fn faulty(alloc: Global, fault: SurveyFault) -> Result<Said, AllocError>
    ensures { IfOk result (λ s. said_of s ≡ faulty fault) }
{
    let text = fault_text(alloc, fault)?;
    let line = format!(in alloc; "fleet: {text}\n")?;
    Ok(refused(alloc, line, status_of(fault)))
}

/// The answer to a map, and to a list of cells, if there is one.
pub fn answer_map(
    alloc: Global,
    form: MapForm,
    robots: u32,
    map: &[u8],
    cells: Option<&[u8]>,
) -> Result<Said, AllocError>
    ensures { IfOk result (λ s. IsMapOutcome form robots map.now (option_copied cells.entry) (said_of s)) }
{
    match survey_text(alloc, form, robots, map, cells) {
        Ok(text) => printed(alloc, &text, 0),
        Err(fault) => faulty(alloc, fault),
    }
}
