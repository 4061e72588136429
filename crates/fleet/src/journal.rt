//! The journal of a fleet, in the folder of its chapters.

ghost use Rattle.std.specs.Prelude.{◌≡◌};

use crate::files::{remove_old, sync_folder};
use crate::streams::Trouble;
use fleet_lib::{Chapter, Given, Journal, SinkFault, push_entries, push_head, write_whole};
use std::alloc::{Alloc, AllocError, Global};
use std::fs::{File, Files, OpenOptions};
use std::io::{self, ErrorKind, Write};
use std::sync::Arc;

/// A folder for the journals of chapters, and the error output.
#[derive(Drop)]
pub(crate) struct FolderJournal<R, E> {
    rt: R,
    folder: String,
    /// The journal that goes on.
    file: Option<File>,
    /// The last chapter whose journal has its name on the disk.
    named: Option<u32>,
    /// The lines that are written next.
    text: String,
    /// Notes that a journal could not be written, which is said here.
    trouble: Arc<Trouble>,
    error: E,
    /// What it was given: no disk tells proofs what is on it.
    given: Vec<Given>,
}

/// The name of the journal of a chapter.
pub(crate) fn journal_name(alloc: Global, folder: &str, number: u32) -> Result<String, AllocError> {
    format!(in alloc; "{folder}/chapter-{number}.journal")
}

/// Removes the journal of a chapter that was kept.
pub(crate) fn remove_journal<R: Files + Alloc<A = Global>>(
    rt: &R,
    folder: &str,
    number: u32,
) -> io::Result<()> {
    let name = journal_name(rt.alloc(), folder, number)?;
    remove_old(rt, name.as_str())?;
    sync_folder(rt, folder)
}

impl<R: Files<File = File> + Alloc<A = Global> + Copy + Drop, E: Write + Drop> FolderJournal<R, E> {
    pub(crate) fn new(
        rt: &R,
        folder: &str,
        trouble: Arc<Trouble>,
        error: E,
    ) -> Result<FolderJournal<R, E>, AllocError> {
        Ok(FolderJournal {
            rt: *rt,
            folder: String::from_str(rt.alloc(), folder)?,
            file: None,
            named: None,
            text: String::new(rt.alloc()),
            trouble,
            error,
            given: Vec::new(rt.alloc()),
        })
    }

    /// Puts the lines together for a chapter's entries from this place on: after its opening, if they are its first.
    fn put(&mut self, chapter: &Chapter, from: usize) -> Result<(), AllocError>
        ensures { self.new.given ≡ self.old.given }
    {
        let alloc = self.rt.alloc();
        self.text.clear();
        if from == 0 {
            push_head(alloc, &mut self.text, chapter.number, &chapter.opening)?;
        }
        let entries = chapter.entries.as_slice();
        push_entries(alloc, &mut self.text, &entries[from.min(entries.len())..])
    }

    /// Opens the file of a journal that begins: one that was made for it before, or a new one.
    fn open(&self, number: u32) -> io::Result<File> {
        let name = journal_name(self.rt.alloc(), self.folder.as_str(), number)?;
        if self.named == Some(number) {
            OpenOptions::new().write(true).open(&self.rt, name.as_str())
        } else {
            File::create_new(&self.rt, name.as_str())
        }
    }

    /// Makes the file of the journal after this one, and brings the names of both down to the disk. So what begins the
    /// next journal takes no more than the sync of its lines.
    fn name_next(&mut self, number: u32) -> io::Result<()>
        ensures { self.new.given ≡ self.old.given }
    {
        let next = number.checked_add(1);
        if let Some(next) = next {
            let name = journal_name(self.rt.alloc(), self.folder.as_str(), next)?;
            let _made = File::create_new(&self.rt, name.as_str())?;
        }
        sync_folder(&self.rt, self.folder.as_str())?;
        self.named = next;
        Ok(())
    }

    /// Whether the names of this journal and of the next one are to be brought down to the disk after its lines.
    fn wants_names(&self, number: u32, begins: bool) -> bool {
        match self.named {
            Some(named) => named < number || (named == number && !begins),
            None => true,
        }
    }

    /// Writes the lines down to the disk, into a file of their own if a journal begins with them.
    fn write(&mut self, number: u32, begins: bool) -> io::Result<()>
        ensures { self.new.given ≡ self.old.given }
    {
        let wants_names = self.wants_names(number, begins);
        if begins {
            self.file = Some(self.open(number)?);
        }
        let Some(file) = &mut self.file else {
            return Err(io::Error::other("it was not begun"));
        };
        file.write_all(self.text.as_bytes())?;
        file.sync_data()?;
        if wants_names {
            self.name_next(number)?;
        }
        Ok(())
    }

    /// Says why a journal could not be written.
    fn say(&mut self, name: &str, why: &io::Error)
        ensures { self.new.given ≡ self.old.given }
    {
        self.trouble.note_said();
        let line = format!(in self.rt.alloc(); "fleet: file {name} cannot be written: {why}\n");
        if let Ok(line) = line {
            write_whole(&mut self.error, line.as_bytes());
        }
    }
}

impl<R: Files<File = File> + Alloc<A = Global> + Copy + Drop, E: Write + Drop> Journal
    for FolderJournal<R, E> {
    ghost use Rattle.live_parts.specs.Given.{logged_by};

    ghost logged = { λ j. logged_by j.given.items };

    fn log(&mut self, chapter: &Chapter, from: usize) -> Result<(), SinkFault> {
        let name = journal_name(self.rt.alloc(), self.folder.as_str(), chapter.number)?;
        self.put(chapter, from)?;
        match self.write(chapter.number, from == 0) {
            Ok(()) => Ok(Given::note(&mut self.given, chapter, from)?),
            Err(why) if why.kind() == ErrorKind::OutOfMemory => Err(SinkFault::NoMemory),
            Err(why) => {
                self.say(name.as_str(), &why);
                Err(SinkFault::File)
            }
        }
    }
}
