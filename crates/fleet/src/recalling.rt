//! What clients were told before a fleet was started again.

use crate::folder::Found;
use crate::kept_file::{KeptFile, file_of};
use crate::recovering::recover;
use fleet_lib::{InputFault, Live, Recalls, fail, recall_in, recall_trace};
use std::alloc::{Alloc, AllocError, Global};
use std::fs::Files;
use std::io::Write;

/// How many bytes of chapters are read for it, the last one of them whole.
const MOST_READ: usize = 16_777_216;

/// The notices that the last chapters of a folder tell, of each client no more than are recalled.
fn recalls_of<R: Files + Alloc<A = Global>>(
    rt: &R,
    folder: &str,
    kept: &Option<KeptFile>,
    most: usize,
) -> Result<Recalls, AllocError> {
    let alloc = rt.alloc();
    let mut recalls = Recalls::new(alloc, most);
    let Some(last) = kept else {
        return Ok(recalls);
    };
    if most == 0 {
        return Ok(recalls);
    }
    let mut read = last.text().len();
    let mut wants = recall_trace(alloc, &mut recalls, last.text())?;
    for number in (0..last.number()).rev() {
        if !wants || read >= MOST_READ {
            break;
        }
        let Ok(file) = file_of(rt, folder, number) else {
            break;
        };
        read = read.saturating_add(file.text().len());
        wants = recall_trace(alloc, &mut recalls, file.text())?;
    }
    Ok(recalls)
}

/// What the fleet of these words goes on from on the map, and what its clients were told before. The error is the
/// status, and is said.
pub(crate) fn past_of<R: Files + Alloc<A = Global>, E: Write + Drop, G: Write>(
    rt: &R,
    (live, map): (&Live, &[u8]),
    found: Found,
    (error, said): (E, &mut G),
) -> Result<(Option<KeptFile>, Recalls), u8> {
    let (folder, mut error) = (live.traces.as_deref().unwrap_or(""), error);
    let (kept, _site) = recover(rt, (map, folder), found, &mut error, said)?;
    match recalls_of(rt, folder, &kept, recall_in(live).unwrap_or(0)) {
        Ok(recalls) => Ok((kept, recalls)),
        Err(AllocError) => Err(fail(InputFault::NoMemory, said)),
    }
}
