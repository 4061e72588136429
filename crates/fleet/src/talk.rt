//! The word `talk`.

ghost use Rattle.std.specs.Prelude.{◌≡◌, ◌≤◌, vec_len, IfOk};

use crate::chapters::TraceFolder;
use crate::ends::{FileFault, MOST_MAP_BYTES, complain, file_bytes};
use crate::folder::{Found, Start, hold_folder, tell_start};
use crate::folder_line::complain_of_folder;
use crate::journal::FolderJournal;
use crate::journals::remove_blank;
use crate::kept_file::KeptFile;
use crate::recovering::recover;
use crate::troubles::Troubles;
use fleet_lib::{
    ChapterSink, Ends, InputFault, Journal, Journaled, Manner, Settings, SinkFault, Talk,
    TalkTexts, complain_of_talk, fail, run_talk, talk_settings,
};
use std::alloc::{Alloc, AllocError, Global};
use std::fs::{File, Files};
use std::io::{BufReader, Read, Write};
use std::sync::Wait;
use std::time::Clock;

/// The greatest number of bytes that are read at once.
const PIECE: usize = 65_536;

/// The header lines of the file that is named, and none where no file is.
fn script_bytes<'a, R: Files + Alloc<A = Global>>(
    rt: &R,
    name: Option<&'a str>,
) -> Result<Vec<u8>, FileFault<'a>>
    ensures { IfOk result (λ bytes. vec_len bytes ≤ 16777216) }
{
    match name {
        Some(name) => file_bytes(rt, name, MOST_MAP_BYTES),
        None => Ok(Vec::new(rt.alloc())),
    }
}

/// The contents of the named files, the map first.
pub(crate) fn texts_of<'a, R: Files + Alloc<A = Global>>(
    rt: &R,
    map: &'a str,
    script: &'a Option<String>,
) -> Result<(Vec<u8>, Vec<u8>), FileFault<'a>>
    ensures { IfOk result (λ texts. vec_len texts.1 ≤ 16777216) }
{
    let map = file_bytes(rt, map, MOST_MAP_BYTES)?;
    let script = match script {
        Some(name) => script_bytes(rt, Some(name.as_str()))?,
        None => script_bytes(rt, None)?,
    };
    Ok((map, script))
}

/// The texts of a conversation, lent, with the chapter that it goes on from, if there is one.
pub(crate) fn lent_texts<'a>(
    map: &'a [u8],
    script: &'a [u8],
    kept: &'a Option<KeptFile>,
) -> TalkTexts<'a>
    ensures { result.script.now ≡ script.now }
{
    let kept = match kept {
        Some(file) => Some(file.lent()),
        None => None,
    };
    TalkTexts { map, script, kept }
}

/// Holds a conversation, whose fleet goes on from a chapter if one is given. Returns the status, as of `run_talk`, or 3
/// where a file failed.
fn hold_talk<
    R: Files + Alloc<A = Global>,
    I: Read + Drop,
    W: Write + Drop,
    E: Write,
    G: Write,
    S: ChapterSink + Drop,
    J: Journal + Drop,
>(
    rt: &R,
    (talk, settings): (&Talk, Settings),
    found: Found,
    (input, output): (I, W),
    (said, error): (&mut G, &mut E),
    sink: Journaled<S, J>,
) -> u8 {
    let (map, script) = match texts_of(rt, talk.map.as_str(), &talk.script) {
        Ok(texts) => texts,
        Err(fault) => {
            drop(input);
            return complain(rt, fault, said);
        }
    };
    let folder = talk.traces.as_deref().unwrap_or("");
    let kept = match recover(rt, (map.as_slice(), folder), found, error, said) {
        Ok((kept, _site)) => kept,
        Err(status) => {
            drop(input);
            return status;
        }
    };
    let Ok(input) = BufReader::with_capacity(rt.alloc(), PIECE, input) else {
        return fail(InputFault::NoMemory, said);
    };
    let mut ends = Ends {
        input,
        output,
        sink,
    };
    let texts = lent_texts(&map, &script, &kept);
    let status = run_talk(rt, texts, settings, &mut ends, said);
    if ends.sink.journal_fault() == Some(SinkFault::NoMemory) {
        return 7;
    }
    status
}

/// The journal in the folder of the words, if they ask for one.
fn journal_of<R: Files<File = File> + Alloc<A = Global> + Copy + Drop, E: Write + Copy + Drop>(
    rt: &R,
    talk: &Talk,
    troubles: &Troubles,
    error: E,
) -> Result<Option<FolderJournal<R, E>>, AllocError> {
    match talk.traces.as_deref() {
        Some(folder) if talk.journal => Ok(Some(FolderJournal::new(
            rt,
            folder,
            troubles.journal()?,
            error,
        )?)),
        _ => Ok(None),
    }
}

/// Holds the conversation of these words, whose fleet goes on from a chapter if one is given. Returns the status.
fn talk_on<
    R: Files<File = File> + Alloc<A = Global> + Clock + Wait + Copy + Drop,
    I: Read + Drop,
    W: Write + Drop,
    E: Write + Copy + Drop,
>(
    rt: &R,
    (talk, settings): (&Talk, Settings),
    found: Found,
    ends: (I, W),
    error: &mut E,
) -> Result<u8, AllocError> {
    let alloc = rt.alloc();
    let name = talk.traces.as_deref();
    let troubles = Troubles::new(alloc)?;
    let ends = troubles.streams(rt, ends)?;
    let may_block = settings.manner == Manner::Plain;
    let journal = journal_of(rt, talk, &troubles, *error)?;
    let folder = (name, talk.journal);
    let sink = TraceFolder::new(rt, folder, troubles.folder()?, *error, may_block)?;
    let sink = Journaled::new(sink, journal);
    let mut said = Vec::new(alloc);
    let status = hold_talk(rt, (talk, settings), found, ends, (&mut said, error), sink);
    if let (true, Some(name)) = (talk.journal, name) {
        // One that stays is removed at the next start.
        let _removed = remove_blank(rt, name);
    }
    troubles.tell(alloc, (status, &said), name.unwrap_or(""), error);
    Ok(status)
}

/// Holds the conversation of these words, and keeps its chapters in the folder that they name, if they name one.
/// Returns the status.
pub(crate) fn talk_in_folder<
    R: Files<File = File> + Alloc<A = Global> + Clock + Wait + Copy + Drop,
    I: Read + Drop,
    W: Write + Drop,
    E: Write + Copy + Drop,
>(rt: &R, talk: &Talk, ends: (I, W), error: &mut E) -> u8 {
    let settings = match talk_settings(talk) {
        Ok(settings) => settings,
        Err(fault) => return complain_of_talk(fault, error),
    };
    let name = talk.traces.as_deref();
    let start = Start::of(talk.resume, talk.resume_only);
    match hold_folder(rt, name, start) {
        Ok((folder, found)) => {
            tell_start(start, &found, error);
            let status = match talk_on(rt, (talk, settings), found, ends, error) {
                Ok(status) => status,
                Err(AllocError) => fail(InputFault::NoMemory, error),
            };
            drop(folder);
            status
        }
        Err(fault) => complain_of_folder(rt, fault, name, error),
    }
}
