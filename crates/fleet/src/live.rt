//! The word `live`.

ghost use Rattle.std.specs.Prelude.{◌≤◌, IfOk, vec_len};

use crate::chapters::TraceFolder;
use crate::ends::complain;
use crate::figures::{Outlet, figures_of};
use crate::folder::Found;
use crate::journal::FolderJournal;
use crate::journals::remove_blank;
use crate::recalling::past_of;
use crate::streams::{Pipe, Stream};
use crate::talk::{lent_texts, texts_of};
use crate::troubles::Troubles;
use fleet_lib::{
    ChapterSink, InputFault, Journal, Live, LiveEnds, Pipes, fail, pipe_names, run_live,
    write_whole,
};
use std::alloc::{Alloc, AllocError, Global};
use std::fs::{File, Files, OpenOptions};
use std::io::{self, Read, Write};
use std::mem;
use std::os::unix::fs::{FileTypeExt, MetadataExt};
use std::sync::Wait;
use std::thread::Threads;
use std::time::Clock;

/// Why the pipes of clients cannot be used.
#[derive(Drop)]
enum PipeFault<'a> {
    /// A word does not name two.
    NoPipes,
    /// One is named twice.
    Twice,
    /// The one with this name cannot be opened.
    File(&'a str, io::Error),
    NoMemory,
}

impl<'a> From<AllocError> for PipeFault<'a> {
    fn from(_error: AllocError) -> PipeFault<'a> {
        PipeFault::NoMemory
    }
}

/// The named pipes that were opened, each with its file's device and number.
#[derive(Drop)]
struct Opened {
    seen: Vec<(u64, u64)>,
}

impl Opened {
    /// Opens a named pipe for reading and writing. So this does not wait for a client, and clients may come and go.
    fn open<'a, R: Files<File = File>>(
        &mut self,
        rt: &R,
        name: &'a str,
    ) -> Result<File, PipeFault<'a>> {
        let opened = OpenOptions::new().read(true).write(true).open(rt, name);
        let (file, found) = match opened.and_then(|file| Ok((file.metadata()?, file))) {
            Ok((found, file)) => (file, found),
            Err(fault) => return Err(PipeFault::File(name, fault)),
        };
        if found.is_file() {
            return Err(PipeFault::File(name, io::Error::other("it is no pipe")));
        }
        if found.file_type().is_fifo() {
            let place = (found.dev(), found.ino());
            if self.seen.contains(&place) {
                return Err(PipeFault::Twice);
            }
            if self.seen.push(place).is_err() {
                return Err(PipeFault::NoMemory);
            }
        }
        Ok(file)
    }

    /// Opens a named pipe, which has its name and the error output.
    fn open_named<'a, R: Files<File = File> + Alloc<A = Global> + Copy, E: Write + Drop>(
        &mut self,
        rt: &R,
        name: &'a str,
        error: E,
    ) -> Result<Pipe<R, E>, PipeFault<'a>> {
        let file = self.open(rt, name)?;
        let name = String::from_str(rt.alloc(), name)?;
        Ok(Pipe::new(*rt, file, name, error))
    }
}

/// The pipes of a client, and of all clients.
type ClientPipes<R, E> = Pipes<Pipe<R, E>, Pipe<R, E>>;

/// The pipes of all clients that have some.
fn pipes_of<'a, R: Files<File = File> + Alloc<A = Global> + Copy + Drop, E: Write + Copy + Drop>(
    rt: &R,
    words: &'a [String],
    error: E,
) -> Result<Vec<ClientPipes<R, E>>, PipeFault<'a>> {
    let mut opened = Opened {
        seen: Vec::new(rt.alloc()),
    };
    let mut all = Vec::new(rt.alloc());
    for word in words {
        let Some((input, output)) = pipe_names(word.as_str()) else {
            return Err(PipeFault::NoPipes);
        };
        let input = opened.open_named(rt, input, error)?;
        let output = opened.open_named(rt, output, error)?;
        if all.push(Pipes { input, output }).is_err() {
            return Err(PipeFault::NoMemory);
        }
    }
    Ok(all)
}

/// The line that says why pipes cannot be used, and the status.
fn line_of(alloc: Global, fault: PipeFault<'_>) -> Result<(String, u8), AllocError> {
    match fault {
        PipeFault::NoPipes => Ok((
            String::from_str(alloc, "error: invalid value for '--client <IN,OUT>'\n")?,
            2,
        )),
        PipeFault::Twice => Ok((
            String::from_str(
                alloc,
                "error: a pipe is named twice for '--client <IN,OUT>'\n",
            )?,
            2,
        )),
        PipeFault::File(name, why) => Ok((
            format!(in alloc; "fleet: file {name} cannot be opened: {why}\n")?,
            3,
        )),
        PipeFault::NoMemory => Err(AllocError),
    }
}

/// Prints why pipes cannot be used. Returns the status.
fn complain_of_pipes<E: Write>(alloc: Global, fault: PipeFault<'_>, error: &mut E) -> u8 {
    match line_of(alloc, fault) {
        Ok((line, status)) => {
            write_whole(error, line.as_bytes());
            status
        }
        Err(AllocError) => fail(InputFault::NoMemory, error),
    }
}

/// The texts of the map and of the script that the words name. If something fails, it is said, and the error is the
/// status.
fn texts_for<R: Files<File = File> + Alloc<A = Global>, E: Write>(
    rt: &R,
    live: &Live,
    error: &mut E,
) -> Result<(Vec<u8>, Vec<u8>), u8>
    ensures { IfOk result (λ texts. vec_len texts.1 ≤ 16777216) }
{
    match texts_of(rt, live.map.as_str(), &live.script) {
        Ok(texts) => Ok(texts),
        Err(fault) => Err(complain(rt, fault, error)),
    }
}

/// Keeps a fleet in real time, or on demand, which goes on from a chapter if one is given. Returns the status, as of
/// `run_live`, or 3 where a file failed. What is wrong with the words for pipes comes first.
pub(crate) fn hold_live<
    R: Files<File = File>
        + Alloc<A = Global>
        + Clock
        + Threads
        + Sync
        + Wait
        + Copy
        + Send
        + Drop
        + 'static,
    I: Read + Send + Drop + 'static,
    W: Write + Send + Drop + 'static,
    F: Write + Send + Drop + 'static,
    E: Write + Copy + Send + Drop + 'static,
    G: Write,
    S: ChapterSink + Send + Drop + 'static,
    J: Journal + Drop,
>(
    rt: &R,
    (live, found): (&Live, Found),
    (input, output): (I, W),
    (counts, figures): (F, Option<F>),
    (error, said): (E, &mut G),
    (sink, journal): (S, Option<J>),
) -> u8 {
    if !live
        .pipes
        .iter()
        .all(|word| pipe_names(word.as_str()).is_some())
    {
        mem::drop(found);
        return complain_of_pipes(rt.alloc(), PipeFault::NoPipes, said);
    }
    let (map, script) = match texts_for(rt, live, said) {
        Ok(texts) => texts,
        Err(status) => {
            mem::drop(found);
            return status;
        }
    };
    let pipes = match pipes_of(rt, &live.pipes, error) {
        Ok(pipes) => pipes,
        Err(fault) => {
            mem::drop(found);
            return complain_of_pipes(rt.alloc(), fault, said);
        }
    };
    let (kept, recalls) = match past_of(rt, (live, map.as_slice()), found, (error, said)) {
        Ok(past) => past,
        Err(status) => return status,
    };
    let ends = LiveEnds {
        input,
        output,
        pipes,
        counts,
        figures,
        sink,
        journal,
        recalls,
    };
    let status = run_live(rt, lent_texts(&map, &script, &kept), live, ends, said);
    if live.journal {
        // One that stays is removed at the next start.
        let _removed = remove_blank(rt, live.traces.as_deref().unwrap_or(""));
    }
    status
}

/// What a fleet in real time is kept with: its streams, where its chapters and figures go, and what notes why one of
/// them failed.
pub(crate) struct Kit<I, W, R, E> {
    pub(crate) troubles: Troubles,
    pub(crate) talk: (Stream<I, R>, Stream<W, R>),
    pub(crate) told: (Outlet<E, R>, Option<Outlet<E, R>>),
    pub(crate) sink: TraceFolder<R, E>,
    pub(crate) journal: Option<FolderJournal<R, E>>,
}

/// Streams, a sink and perhaps a journal that note why they fail, and where they note it.
type Noted<I, W, R, E> = (
    Troubles,
    (Stream<I, R>, Stream<W, R>),
    (TraceFolder<R, E>, Option<FolderJournal<R, E>>),
);

/// The same, with the chapters in the folder that the words name, if they name one.
fn noted<
    R: Files<File = File> + Alloc<A = Global> + Copy + Drop,
    I: Drop,
    W: Drop,
    E: Write + Copy + Drop,
>(rt: &R, live: &Live, talk: (I, W), error: E) -> Result<Noted<I, W, R, E>, AllocError> {
    let troubles = Troubles::new(rt.alloc())?;
    let talk = troubles.streams(rt, talk)?;
    let folder = live.traces.as_deref();
    // Where robots take turns, no errand blocks the fleet.
    let may_block = live.planner.as_deref() != Some("turns");
    let sink = TraceFolder::new(
        rt,
        (folder, live.journal),
        troubles.folder()?,
        error,
        may_block,
    )?;
    let journal = match folder {
        Some(folder) if live.journal => {
            Some(FolderJournal::new(rt, folder, troubles.journal()?, error)?)
        }
        _ => None,
    };
    Ok((troubles, talk, (sink, journal)))
}

/// What the fleet of these words is kept with, its chapters in the folder that they name, if they name one. The error is
/// the status, and is said.
pub(crate) fn kit_of<
    R: Files<File = File> + Alloc<A = Global> + Copy + Drop,
    I: Drop,
    W: Drop,
    E: Write + Copy + Drop,
>(rt: &R, live: &Live, talk: (I, W), error: &mut E) -> Result<Kit<I, W, R, E>, u8> {
    let (troubles, talk, (sink, journal)) = match noted(rt, live, talk, *error) {
        Ok(noted) => noted,
        Err(AllocError) => return Err(fail(InputFault::NoMemory, error)),
    };
    let figures = figures_of(rt, &live.metrics, error)?;
    Ok(Kit {
        troubles,
        talk,
        told: (Outlet::Error(*error), figures),
        sink,
        journal,
    })
}
