//! What failed while a fleet was kept: standard input, standard output, the folder of chapters, or a journal.

use crate::streams::{Stream, Trouble};
use fleet_lib::{InputFault, fail, write_whole};
use std::alloc::{AllocError, Global};
use std::io::Write;
use std::sync::Arc;

/// What may fail, and why it did.
#[derive(Drop)]
pub(crate) struct Troubles {
    input: Arc<Trouble>,
    output: Arc<Trouble>,
    folder: Arc<Trouble>,
    journal: Arc<Trouble>,
}

impl Troubles {
    pub(crate) fn new(alloc: Global) -> Result<Troubles, AllocError> {
        Ok(Troubles {
            input: Trouble::none(alloc)?,
            output: Trouble::none(alloc)?,
            folder: Trouble::none(alloc)?,
            journal: Trouble::none(alloc)?,
        })
    }

    /// Standard input and standard output, which note here why they fail.
    pub(crate) fn streams<I: Drop, W: Drop, R: Copy + Drop>(
        &self,
        rt: &R,
        (input, output): (I, W),
    ) -> Result<(Stream<I, R>, Stream<W, R>), AllocError> {
        Ok((
            Stream::new(*rt, input, Arc::try_clone(&self.input)?),
            Stream::new(*rt, output, Arc::try_clone(&self.output)?),
        ))
    }

    /// What the folder's sink shares.
    pub(crate) fn folder(&self) -> Result<Arc<Trouble>, AllocError> {
        Arc::try_clone(&self.folder)
    }

    /// What the folder's journal shares.
    pub(crate) fn journal(&self) -> Result<Arc<Trouble>, AllocError> {
        Arc::try_clone(&self.journal)
    }

    /// The line for what failed, if something did.
    fn line(&self, alloc: Global, folder: &str) -> Result<Option<String>, AllocError> {
        if let Some(why) = self.input.why() {
            let line = format!(in alloc; "fleet: file standard input cannot be read: {why}\n")?;
            return Ok(Some(line));
        }
        if let Some(why) = self.output.why() {
            let line = format!(in alloc; "fleet: file standard output cannot be written: {why}\n")?;
            return Ok(Some(line));
        }
        match self.folder.why() {
            Some(why) => Ok(Some(format!(in alloc;
                "fleet: file {folder} cannot be written: {why}\n"
            )?)),
            None => Ok(None),
        }
    }

    /// Prints what was said at the end. With the status 3 that names a file, where it is known which one failed and
    /// why. Out of memory is said from no list, which may have been refused too.
    pub(crate) fn tell<E: Write>(
        &self,
        alloc: Global,
        (status, said): (u8, &[u8]),
        folder: &str,
        error: &mut E,
    ) {
        if status == 7 {
            fail(InputFault::NoMemory, error);
            return;
        }
        if status == 3 && self.journal.was_said() {
            return;
        }
        let named = if status == 3 {
            self.line(alloc, folder)
        } else {
            Ok(None)
        };
        match named {
            Ok(Some(line)) => write_whole(error, line.as_bytes()),
            _ => write_whole(error, said),
        };
    }
}
