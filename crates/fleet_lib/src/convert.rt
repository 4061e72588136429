//! The word `convert`.

ghost use Rattle.std.specs.Prelude.{◌≡◌, Some, IfOk};
ghost use Rattle.fleet_lib.specs.Said.{said_of};
ghost use Rattle.fleet_lib.specs.Convert.{IsConvertOutcome, fault_text, fault_status, faulty};

use crate::said::Said;
use fleet_convert::{ConvertFault, PlanForm, convert};
use fleet_text::Complaint;
use std::alloc::{AllocError, Global};
use std::fmt;

/// How a fault is named.
#[derive(Clone, Copy)]
struct FaultText(ConvertFault);

impl fmt::Display for FaultText {
    ghost output = { λ t. Some (fault_text t.0) };

    fn fmt<W: fmt::Write>(&self, f: &mut fmt::Formatter<W>) -> fmt::Result {
        match self.0 {
            ConvertFault::Map(fault) => {
                let complaint = Complaint::Map(fault);
                write!(f, "{complaint}")
            }
            ConvertFault::Trace(fault) => {
                let complaint = Complaint::Trace(fault);
                write!(f, "{complaint}")
            }
            ConvertFault::Illegal { at, rule } => write!(f, "illegal {at} {rule}"),
            ConvertFault::NoMemory => f.write_str("memory"),
        }
    }
}

/// The status of a fault.
fn status_of(fault: ConvertFault) -> u8
    ensures { result ≡ fault_status fault }
{
    match fault {
        ConvertFault::Map(_) => 4,
        ConvertFault::Trace(_) | ConvertFault::Illegal { .. } => 6,
        ConvertFault::NoMemory => 7,
    }
}

/// The answer if there is no plan.
fn faulty(alloc: Global, fault: ConvertFault) -> Result<Said, AllocError>
    ensures { IfOk result (λ s. said_of s ≡ faulty fault) }
{
    let text = FaultText(fault);
    Ok(Said {
        output: Vec::new(alloc),
        status: status_of(fault),
        complaint: format!(in alloc; "fleet: {text}\n")?,
    })
}

/// The answer to a map and a trace on it: the plan that `convert` makes of them.
pub fn answer_convert(
    alloc: Global,
    form: PlanForm,
    map: &[u8],
    trace: &[u8],
) -> Result<Said, AllocError>
    ensures { IfOk result (λ s. IsConvertOutcome form map.now trace.now (said_of s)) }
{
    match convert(alloc, form, map, trace) {
        Ok(text) => Ok(Said {
            output: Vec::from_slice(alloc, text.as_bytes())?,
            status: 0,
            complaint: String::new(alloc),
        }),
        Err(fault) => faulty(alloc, fault),
    }
}
