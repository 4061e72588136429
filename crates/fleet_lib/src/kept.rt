//! The chapter that a fleet goes on from, as a file has it.

ghost use Rattle.std.specs.Prelude.{◌≡◌, Some, IfOk, IfErr, string_bytes};
ghost use Rattle.fleet_trace.specs.Reads.{Tells};
ghost use Rattle.fleet_trace.specs.Trace.{trace_of};
ghost use Rattle.fleet_lib.specs.Kept.{ComplainsOfKept, IsKeptFault, IsReasonOf, is_illegal, is_memory, kept_line, reason_text, resume_text};

use crate::said::fail;
use fleet_explain::{Explanation, explain_trace};
use fleet_history::Chapter;
use fleet_reopen::ReopenFault;
use fleet_talk::{ResumeFault, UnroomyErrand};
use fleet_text::{InputFault, write_whole};
use fleet_trace::{TraceFault, read_trace};
use std::alloc::{AllocError, Global};
use std::fmt;
use std::io::Write;

/// The file of a chapter: its name, the chapter's number by this name, and what is in it.
#[derive(Clone, Copy, Debug)]
pub struct KeptText<'a> {
    pub name: &'a str,
    pub number: u32,
    pub text: &'a [u8],
}

/// Why a fleet does not go on from the chapter of a file.
#[derive(Clone, Copy, Debug, PartialEq, Eq)]
pub enum KeptFault {
    /// The file tells no trace.
    Trace(TraceFault),
    /// It tells the chapter with this number, and its name has another.
    Number(u32),
    /// The fleet does not go on from it, or broke off later.
    Resume(ResumeFault),
}

impl From<ResumeFault> for KeptFault {
    ghost use Rattle.std.specs.Prelude.{◌≡◌};
    ghost use Rattle.fleet_lib.specs.declared.kept.KeptFault.TheVariants.{Resume};

    ghost from_gives = { λ fault f. f ≡ Resume fault };

    fn from(fault: ResumeFault) -> KeptFault {
        KeptFault::Resume(fault)
    }
}

/// What is said of a fault.
#[derive(Clone, Copy)]
pub(crate) enum Reason {
    Explained(Explanation),
    Number(u32),
    Resume(ResumeFault),
}

/// Why a fleet does not go on from a legal chapter.
#[derive(Clone, Copy)]
struct ResumeText(ResumeFault);

impl fmt::Display for ResumeText {
    ghost output = { λ t. Some (resume_text t.0) };

    fn fmt<W: fmt::Write>(&self, f: &mut fmt::Formatter<W>) -> fmt::Result {
        let words = match self.0 {
            ResumeFault::Errand(
                UnroomyErrand {
                    client,
                    robot,
                    cell,
                },
            ) => {
                return write!(
                    f,
                    "an errand of client {client} for robot {robot} goes to cell {cell}, which is not roomy"
                );
            }
            ResumeFault::Robots => "the header lines name another number of robots",
            ResumeFault::Clients => "the header lines name another number of clients",
            ResumeFault::Chapter(ReopenFault::Limits) => "a limit is out of its range",
            ResumeFault::Chapter(ReopenFault::Illegal { .. }) => "it is not legal",
            ResumeFault::Chapter(ReopenFault::Laws) => "its robots have other closures",
            ResumeFault::Chapter(ReopenFault::Differs) => {
                "the header lines name another `queue` or `life`"
            }
            ResumeFault::Chapter(ReopenFault::Spent) => "no chapter follows within the limits",
            ResumeFault::Chapter(ReopenFault::Waits) => "a robot has waited longer than it may",
            ResumeFault::Chapter(ReopenFault::NoMemory) => "out of memory",
            ResumeFault::NoRooms => "the rooms of the map do not pass their checks",
            ResumeFault::Talk(_) => "the conversation broke off",
        };
        f.write_str(words)
    }
}

impl fmt::Display for Reason {
    ghost output = { λ r. Some (reason_text r) };

    fn fmt<W: fmt::Write>(&self, f: &mut fmt::Formatter<W>) -> fmt::Result {
        match *self {
            Reason::Explained(explanation) => write!(f, "{explanation}"),
            Reason::Number(number) => write!(f, "it is chapter {number}"),
            Reason::Resume(fault) => {
                let text = ResumeText(fault);
                write!(f, "{text}")
            }
        }
    }
}

/// The chapter of a file, or why the file has no chapter with the number in its name.
pub(crate) fn kept_chapter(alloc: Global, kept: KeptText<'_>) -> Result<Chapter, KeptFault>
    ensures ok { IfOk result (λ chapter. Tells kept.entry.text.now (trace_of chapter) × (chapter.number ≡ kept.entry.number)) }
    ensures fault { IfErr result (IsKeptFault kept.entry.text.now kept.entry.number) }
{
    match read_trace(alloc, kept.text) {
        Ok(chapter) => {
            let number = chapter.number;
            if number == kept.number {
                Ok(chapter)
            } else {
                drop(chapter);
                Err(KeptFault::Number(number))
            }
        }
        Err(fault) => Err(KeptFault::Trace(fault)),
    }
}

/// Whether the chapter was not legal.
fn is_illegal(fault: ResumeFault) -> bool
    ensures { result ≡ is_illegal fault }
{
    matches!(fault, ResumeFault::Chapter(ReopenFault::Illegal { .. }))
}

/// Whether memory ran out.
fn is_memory(fault: KeptFault) -> bool
    ensures { result ≡ is_memory fault }
{
    matches!(
        fault,
        KeptFault::Trace(TraceFault::NoMemory)
            | KeptFault::Resume(ResumeFault::Chapter(ReopenFault::NoMemory))
    )
}

/// The reason to print for a fault: for a text that tells no trace, and for a chapter that is not legal, the sentence of
/// `explain_trace`.
fn reason_of(alloc: Global, map: &[u8], text: &[u8], fault: KeptFault) -> Result<Reason, AllocError>
    ensures { IfOk result (λ reason. IsReasonOf map.now text.now fault reason) }
{
    match fault {
        KeptFault::Trace(_fault) => Ok(Reason::Explained(explain_trace(alloc, map, text)?)),
        KeptFault::Number(number) => Ok(Reason::Number(number)),
        KeptFault::Resume(fault) => {
            if is_illegal(fault) {
                Ok(Reason::Explained(explain_trace(alloc, map, text)?))
            } else {
                Ok(Reason::Resume(fault))
            }
        }
    }
}

/// The line that says why.
fn line_of(alloc: Global, name: &str, reason: Reason) -> Result<String, AllocError>
    ensures { IfOk result (λ line. string_bytes line ≡ kept_line name.now (reason_text reason)) }
{
    format!(in alloc; "fleet: file {name}: {reason}\n")
}

/// Prints on the error writer why a fleet does not go on from the chapter of a file. Returns the status: 6, or 7 out of
/// memory.
pub(crate) fn complain_of_kept<E: Write>(
    alloc: Global,
    map: &[u8],
    kept: KeptText<'_>,
    fault: KeptFault,
    error: &mut E,
) -> u8
    ensures { ComplainsOfKept map.now kept.entry.name.now kept.entry.text.now fault (E.contents error.old) (E.contents error.new) result }
{
    if is_memory(fault) {
        return fail(InputFault::NoMemory, error);
    }
    let Ok(reason) = reason_of(alloc, map, kept.text, fault) else {
        return fail(InputFault::NoMemory, error);
    };
    match line_of(alloc, kept.name, reason) {
        Ok(line) => {
            write_whole(error, line.as_bytes());
            6
        }
        Err(AllocError) => fail(InputFault::NoMemory, error),
    }
}
