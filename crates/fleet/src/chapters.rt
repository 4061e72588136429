//! The folder of chapters.

ghost use Rattle.std.specs.Prelude.{None};

use crate::files::{sync_folder, write_synced};
use crate::journal::remove_journal;
use crate::streams::Trouble;
use fleet_lib::{Chapter, ChapterSink, Door, SinkFault, trace_line, unroomy_line, write_whole};
use std::alloc::{Alloc, AllocError, Global};
use std::fs::{self, Files};
use std::io::{self, ErrorKind, Write};
use std::sync::Arc;

/// A folder for the traces of chapters, or none, and the error output.
#[derive(Drop)]
pub(crate) struct TraceFolder<R, E> {
    rt: R,
    name: Option<String>,
    /// Whether chapters have journals, which go once they are kept.
    journals: bool,
    error: E,
    /// The file that could not be written last, and why.
    fault: String,
    /// Why the folder takes no chapter now.
    trouble: Arc<Trouble>,
    /// Whether errands to cells that are not roomy may block the fleet.
    may_block: bool,
}

/// Whether a file system may have no links: it refuses each of them by this.
fn has_no_links(fault: &io::Error) -> bool {
    matches!(
        fault.kind(),
        ErrorKind::PermissionDenied | ErrorKind::Unsupported
    )
}

/// Gives a file this name, which nothing has yet, in place of its own.
fn move_to<R: Files>(rt: &R, beside: &str, name: &str) -> io::Result<()> {
    match fs::hard_link(rt, beside, name) {
        Ok(()) => {
            // The file has its name, also where its first one stays.
            let _removed = fs::remove_file(rt, beside);
            Ok(())
        }
        Err(fault) if has_no_links(&fault) => {
            if fs::symlink_metadata(rt, name).is_ok() {
                return Err(io::Error::from(ErrorKind::AlreadyExists));
            }
            fs::rename(rt, beside, name)
        }
        Err(fault) => Err(fault),
    }
}

/// Writes a new file next to its place in a folder, down to the disk, and then gives it its name, so that a file of
/// this name is always whole and none is ever written over. After a fault no part is left.
pub(crate) fn keep_text<R: Files>(
    rt: &R,
    folder: &str,
    (beside, name): (&str, &str),
    text: &[u8],
) -> io::Result<()> {
    let placed = match write_synced(rt, beside, text) {
        Ok(()) => move_to(rt, beside, name),
        Err(fault) => Err(fault),
    };
    if placed.is_err() {
        let _removed = fs::remove_file(rt, beside);
        return placed;
    }
    let listed = sync_folder(rt, folder);
    if listed.is_err() {
        // It is tried again, under the same name.
        let _removed = fs::remove_file(rt, name);
    }
    listed
}

/// Keeps the trace of a chapter in a folder.
fn keep_trace<R: Files + Alloc<A = Global>>(
    rt: &R,
    folder: &str,
    number: u32,
    trace: &[u8],
) -> io::Result<()> {
    let name = format!(in rt.alloc(); "{folder}/chapter-{number}.json")?;
    let beside = format!(in rt.alloc(); "{folder}/chapter-{number}.part")?;
    keep_text(rt, folder, (beside.as_str(), name.as_str()), trace)
}

/// Keeps the trace of a chapter in a folder, and removes its journal, which is not needed any more.
pub(crate) fn keep_chapter<R: Files + Alloc<A = Global>>(
    rt: &R,
    folder: &str,
    number: u32,
    trace: &[u8],
) -> io::Result<()> {
    keep_trace(rt, folder, number, trace)?;
    // The chapter is kept also where its journal stays.
    let _removed = remove_journal(rt, folder, number);
    Ok(())
}

/// A name of its own.
fn own_name(alloc: Global, name: Option<&str>) -> Result<Option<String>, AllocError> {
    match name {
        Some(name) => Ok(Some(String::from_str(alloc, name)?)),
        None => Ok(None),
    }
}

impl<R: Files + Alloc<A = Global> + Copy + Drop, E: Write + Drop> TraceFolder<R, E> {
    pub(crate) fn new(
        rt: &R,
        (name, journals): (Option<&str>, bool),
        trouble: Arc<Trouble>,
        error: E,
        may_block: bool,
    ) -> Result<TraceFolder<R, E>, AllocError> {
        Ok(TraceFolder {
            rt: *rt,
            name: own_name(rt.alloc(), name)?,
            journals,
            error,
            fault: String::new(rt.alloc()),
            trouble,
            may_block,
        })
    }

    /// Notes why the file of this name was not written.
    fn note(&mut self, name: &str, why: &io::Error) -> Result<(), AllocError> {
        self.trouble.note(why);
        self.fault = format!(in self.rt.alloc(); "{name} cannot be written: {why}")?;
        Ok(())
    }
}

impl<R: Files + Alloc<A = Global> + Copy + Drop, E: Write + Drop> ChapterSink
    for TraceFolder<R, E> {
    ghost use Rattle.fleet_talk.specs.Journal.{no_journal};

    ghost kept = { λ _. None };

    ghost journal = { λ _. no_journal };

    fn goes_on(&mut self, chapter: u32, tick: u64) {
        let line = format!(in self.rt.alloc();
            "fleet: goes on from chapter {chapter} at tick {tick}\n"
        );
        if let Ok(line) = line {
            write_whole(&mut self.error, line.as_bytes());
        }
    }

    fn opened(&mut self, door: &Door) {
        if !self.may_block || door.roomy || door.unroomy == 0 {
            return;
        }
        if let Ok(line) = unroomy_line(self.rt.alloc(), door) {
            write_whole(&mut self.error, line.as_bytes());
        }
    }

    fn keep(&mut self, chapter: &Chapter) -> Result<(), SinkFault> {
        let Some(folder) = &self.name else {
            return Ok(());
        };
        let (alloc, folder) = (self.rt.alloc(), folder.as_str());
        let number = chapter.number;
        let name = format!(in alloc; "{folder}/chapter-{number}.json")?;
        let trace = trace_line(alloc, chapter)?;
        let kept = if self.journals {
            keep_chapter(&self.rt, folder, number, trace.as_bytes())
        } else {
            keep_trace(&self.rt, folder, number, trace.as_bytes())
        };
        match kept {
            Ok(()) => {
                self.trouble.clear();
                Ok(())
            }
            Err(why) if why.kind() == ErrorKind::OutOfMemory => Err(SinkFault::NoMemory),
            Err(why) => {
                self.note(name.as_str(), &why)?;
                Err(SinkFault::File)
            }
        }
    }

    fn log(&mut self, _chapter: &Chapter) -> bool {
        true
    }

    fn fault(&self) -> &str {
        self.fault.as_str()
    }
}
