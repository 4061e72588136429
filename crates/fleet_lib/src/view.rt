//! The word `view`.

ghost use Rattle.std.specs.Prelude.{◌≡◌, Some, map, IfOk, IfErr, string_bytes};
ghost use Rattle.fleet_view.specs.View.{IsPicture, IsUnshown};
ghost use Rattle.fleet_lib.specs.Said.{said_of};
ghost use Rattle.fleet_lib.specs.View.{IsShown, IsViewOutcome, fault_text, fault_status, faulty};

use crate::said::Said;
use crate::words::Shown;
use fleet_plans::MOST_PLAN_BYTES;
use fleet_text::Complaint;
use fleet_view::{ViewFault, view_page, view_picture};
use std::alloc::{AllocError, Global};
use std::fmt;

/// The greatest length of a trace, in bytes: that of a plan.
pub const MOST_TRACE_BYTES: usize = MOST_PLAN_BYTES;

/// How a fault is named.
#[derive(Clone, Copy)]
struct FaultText(ViewFault);

impl fmt::Display for FaultText {
    ghost output = { λ t. Some (fault_text t.0) };

    fn fmt<W: fmt::Write>(&self, f: &mut fmt::Formatter<W>) -> fmt::Result {
        match self.0 {
            ViewFault::Map(fault) => {
                let complaint = Complaint::Map(fault);
                write!(f, "{complaint}")
            }
            ViewFault::Trace(fault) => {
                let complaint = Complaint::Trace(fault);
                write!(f, "{complaint}")
            }
            ViewFault::Chapter(number) => write!(f, "chapter {number}"),
            ViewFault::OffMap(number) => write!(f, "off-map {number}"),
            ViewFault::NoMemory => f.write_str("memory"),
        }
    }
}

/// The status of a fault.
fn status_of(fault: ViewFault) -> u8
    ensures { result ≡ fault_status fault }
{
    match fault {
        ViewFault::Map(_) => 4,
        ViewFault::Trace(_) | ViewFault::Chapter(_) | ViewFault::OffMap(_) => 6,
        ViewFault::NoMemory => 7,
    }
}

/// The answer if nothing can be shown.
pub(crate) fn faulty(alloc: Global, fault: ViewFault) -> Result<Said, AllocError>
    ensures { IfOk result (λ s. said_of s ≡ faulty fault) }
{
    let text = FaultText(fault);
    Ok(Said {
        output: Vec::new(alloc),
        status: status_of(fault),
        complaint: format!(in alloc; "fleet: {text}\n")?,
    })
}

/// The picture as bytes.
fn picture(
    alloc: Global,
    bytes: &[u8],
    traces: &[Vec<u8>],
    tick: Option<u32>,
) -> Result<Vec<u8>, ViewFault>
    ensures picture { IfOk result (λ text. IsPicture tick bytes.now (map (λ t. t.items) traces.now) text.items) }
    ensures fault { IfErr result (λ fault. IsUnshown bytes.now (map (λ t. t.items) traces.now) fault) }
{
    match view_picture(alloc, bytes, traces, tick) {
        Ok(picture) => match Vec::from_slice(alloc, picture.as_bytes()) {
            Ok(text) => Ok(text),
            Err(AllocError) => Err(ViewFault::NoMemory),
        },
        Err(fault) => Err(fault),
    }
}

/// What is to be shown of a map and of traces on it.
fn shown_text(
    alloc: Global,
    shown: Shown,
    bytes: &[u8],
    traces: &[Vec<u8>],
) -> Result<Vec<u8>, ViewFault>
    ensures text { IfOk result (λ text. IsShown shown bytes.now (map (λ t. t.items) traces.now) text.items) }
    ensures fault { IfErr result (λ fault. IsUnshown bytes.now (map (λ t. t.items) traces.now) fault) }
{
    match shown {
        Shown::Page => view_page(alloc, bytes, traces),
        Shown::Moving => picture(alloc, bytes, traces, None),
        Shown::Still(tick) => picture(alloc, bytes, traces, Some(tick)),
    }
}

/// The answer to a map and to traces on it.
pub fn answer_view(
    alloc: Global,
    shown: Shown,
    bytes: &[u8],
    traces: &[Vec<u8>],
) -> Result<Said, AllocError>
    ensures { IfOk result (λ s. IsViewOutcome shown bytes.now (map (λ t. t.items) traces.now) (said_of s)) }
{
    match shown_text(alloc, shown, bytes, traces) {
        Ok(output) => Ok(Said {
            output,
            status: 0,
            complaint: String::new(alloc),
        }),
        Err(fault) => faulty(alloc, fault),
    }
}
