//! Answers of the program, and how it names faults.

ghost use Rattle.std.specs.Prelude.{◌≡◌, ◌++◌, Some, IfOk, string_bytes};
ghost use Rattle.fleet_text.specs.Complaint.{complaint_of, complaint_text, complaint_line, status_of};
ghost use Rattle.fleet_text.specs.Outcome.{IsMapNamed, fault};
ghost use Rattle.fleet_text.specs.Said.{said};

use crate::input::InputFault;
use crate::pieces::Piece;
use crate::texts::{MapFaultText, OpenFaultText, TraceFaultText};
use fleet_map::MapFault;
use fleet_trace::TraceFault;
use fleet_world::OpenFault;
use std::alloc::{AllocError, Global};
use std::fmt;

/// A fault, as the error writer names it.
#[derive(Clone, Copy, Debug, PartialEq, Eq)]
pub enum Complaint {
    /// A file could not be opened, read or written, or is too long.
    File,
    Map(MapFault),
    /// The first line of the script that is not allowed where it is, counted from 1.
    Script(u32),
    Opening(OpenFault),
    /// The robots were to take turns, and the rooms of the map did not pass their checks.
    Rooms,
    Trace(TraceFault),
    Memory,
    /// The clock was spent or the chapter full at some event; in a serve, a lane was full, or lanes were not emptied.
    Limit,
}

impl From<InputFault> for Complaint {
    ghost use Rattle.std.specs.Prelude.{◌≡◌};
    ghost use Rattle.fleet_text.specs.Complaint.{complaint_of};

    ghost from_gives = { λ fault c. c ≡ complaint_of fault };

    fn from(fault: InputFault) -> Complaint {
        match fault {
            InputFault::File => Complaint::File,
            InputFault::NoMemory => Complaint::Memory,
        }
    }
}

impl Complaint {
    /// The status with which the program ends.
    pub fn status(self) -> u8
        ensures { result ≡ status_of self }
    {
        match self {
            Complaint::File => 3,
            Complaint::Map(_) => 4,
            Complaint::Script(_) | Complaint::Opening(_) | Complaint::Rooms => 5,
            Complaint::Trace(_) => 6,
            Complaint::Memory => 7,
            Complaint::Limit => 8,
        }
    }
}

impl fmt::Display for Complaint {
    ghost output = { λ c. Some (complaint_text c) };

    fn fmt<W: fmt::Write>(&self, f: &mut fmt::Formatter<W>) -> fmt::Result {
        match *self {
            Complaint::File => f.write_str("file"),
            Complaint::Map(fault) => {
                let text = MapFaultText(fault);
                write!(f, "map {text}")
            }
            Complaint::Script(line) => write!(f, "script {line}"),
            Complaint::Opening(fault) => {
                let text = OpenFaultText(fault);
                write!(f, "opening {text}")
            }
            Complaint::Rooms => f.write_str("opening 7 no-rooms"),
            Complaint::Trace(fault) => {
                let text = TraceFaultText(fault);
                write!(f, "trace {text}")
            }
            Complaint::Memory => f.write_str("memory"),
            Complaint::Limit => f.write_str("limit"),
        }
    }
}

/// What the program has to say, and its status.
#[derive(Drop)]
pub struct Said {
    /// The text for the output, in pieces.
    pub output: Vec<Piece>,
    pub status: u8,
    pub complaint: String,
}

/// The line for the error output.
pub fn line_of(alloc: Global, complaint: Complaint) -> Result<String, AllocError>
    ensures { IfOk result (λ line. string_bytes line ≡ complaint_line complaint) }
{
    format!(in alloc; "errands: {complaint}\n")
}

/// The line for the error output where a file failed or memory ran out. It allocates nothing.
pub fn failure_line(fault: InputFault) -> &'static str
    ensures { result.now ≡ complaint_line (complaint_of fault) }
{
    match fault {
        InputFault::File => "errands: file\n",
        InputFault::NoMemory => "errands: memory\n",
    }
}

/// An answer that has only a complaint.
pub fn faulty(alloc: Global, complaint: Complaint) -> Result<Said, AllocError>
    ensures { IfOk result (λ s. said s ≡ fault complaint) }
{
    Ok(Said {
        output: Vec::new(alloc),
        status: complaint.status(),
        complaint: line_of(alloc, complaint)?,
    })
}

/// The complaint about a map with this fault; an error if the fault is out of memory.
pub fn map_complaint(fault: MapFault) -> Result<Complaint, AllocError>
    ensures named { IfOk result (λ c. IsMapNamed fault) }
    ensures value { IfOk result (λ c. c ≡ Complaint.Map fault) }
{
    if fault == MapFault::NoMemory {
        return Err(AllocError);
    }
    Ok(Complaint::Map(fault))
}
