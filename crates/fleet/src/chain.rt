//! Chapters that follow one another, across changes of their site.

use crate::change::folder_of;
use crate::folder::{FolderFault, names_in};
use crate::kept_file::{KeptFile, file_named};
use crate::sites::{site_name, site_until};
use fleet_lib::{
    Before, InputFault, Named, Said, SiteTrouble, changed_map, chapter_named, check_site, fail,
    site_line, write_whole,
};
use std::alloc::{Alloc, AllocError, Global};
use std::fs::{self, Files};
use std::io::Write;

/// Why a chapter is not looked at.
#[derive(Drop)]
pub(crate) enum Broken {
    /// What is wrong with the record of this name.
    Site(String, SiteTrouble),
    /// The record of this name cannot be read.
    Unread(String),
    NoMemory,
}

impl From<AllocError> for Broken {
    fn from(_error: AllocError) -> Broken {
        Broken::NoMemory
    }
}

/// A chapter's place: its folder and its number.
#[derive(Clone, Copy)]
struct Place<'a> {
    folder: &'a str,
    number: u32,
}

/// The place of the chapter whose file has this name, if it has that of a chapter.
fn place_of(alloc: Global, name: &str) -> Result<Option<Place<'_>>, AllocError> {
    let last = match name.rsplit_once('/') {
        Some((_, last)) => last,
        None => name,
    };
    match chapter_named(alloc, last)? {
        Named::Chapter(number) => Ok(Some(Place {
            folder: folder_of(name),
            number,
        })),
        Named::Other | Named::Unreadable => Ok(None),
    }
}

/// The chapter that was looked at last.
#[derive(Drop)]
struct Last {
    folder: String,
    number: u32,
    trace: Vec<u8>,
}

/// The map of the chapter that it came to, the record of the changes before it, and the chapter looked at last.
#[derive(Drop)]
pub(crate) struct Chain {
    pub(crate) map: Vec<u8>,
    site: Option<KeptFile>,
    last: Option<Last>,
}

/// The record of changes that a chapter begins with, if there is one.
fn site_at<R: Files + Alloc<A = Global>>(
    rt: &R,
    place: Place<'_>,
) -> Result<Option<KeptFile>, Broken> {
    let name = site_name(rt.alloc(), place.folder, place.number)?;
    if fs::symlink_metadata(rt, name.as_str()).is_err() {
        return Ok(None);
    }
    match file_named(rt, name, place.number) {
        Ok(file) => Ok(Some(file)),
        Err(fault) => Err(broken_by(rt.alloc(), place.folder, fault)?),
    }
}

/// Why a record cannot be read.
fn broken_by(alloc: Global, folder: &str, fault: FolderFault) -> Result<Broken, AllocError> {
    match fault {
        FolderFault::NoFile(name)
        | FolderFault::Unread(name)
        | FolderFault::TooLarge(name)
        | FolderFault::Hollow(name) => Ok(Broken::Unread(name)),
        FolderFault::NoMemory => Ok(Broken::NoMemory),
        _ => Ok(Broken::Unread(String::from_str(alloc, folder)?)),
    }
}

/// The record of the last changes up to the begin of a chapter, if there were any.
fn site_before<R: Files + Alloc<A = Global> + Clone + Drop>(
    rt: &R,
    place: Place<'_>,
) -> Result<Option<KeptFile>, Broken> {
    let found = match names_in(rt, place.folder) {
        Ok(names) => site_until(rt, place.folder, &names, place.number),
        Err(fault) => Err(fault),
    };
    match found {
        Ok(site) => Ok(site),
        Err(fault) => Err(broken_by(rt.alloc(), place.folder, fault)?),
    }
}

/// A chapter before changes, lent.
fn lent_before<'a>(map: &'a [u8], site: &'a Option<KeptFile>, trace: &'a [u8]) -> Before<'a> {
    let site = match site {
        Some(file) => Some(file.lent()),
        None => None,
    };
    Before { map, site, trace }
}

impl Chain {
    /// A chain that begins on this map.
    pub(crate) fn new(map: Vec<u8>) -> Chain {
        Chain {
            map,
            site: None,
            last: None,
        }
    }

    /// Whether the chapter of that place follows the last one.
    fn is_next(&self, place: Place<'_>) -> bool {
        match &self.last {
            Some(last) => {
                last.folder.as_str() == place.folder
                    && u64::from(last.number) + 1 == u64::from(place.number)
            }
            None => false,
        }
    }

    /// Begins with the chapter of that place: the map is that of the last changes before it.
    fn begin<R: Files + Alloc<A = Global> + Clone + Drop>(
        &mut self,
        rt: &R,
        place: Place<'_>,
    ) -> Result<(), Broken> {
        let site = site_before(rt, place)?;
        let trouble = match &site {
            Some(file) => match check_site(rt.alloc(), &self.map, file.lent()) {
                // What is wrong with the map is said by who judges on it.
                Ok(()) | Err(SiteTrouble::Map) => None,
                Err(trouble) => Some(trouble),
            },
            None => None,
        };
        match (site, trouble) {
            (Some(file), Some(trouble)) => Err(Broken::Site(file.into_name(), trouble)),
            (site, _) => {
                self.site = site;
                Ok(())
            }
        }
    }

    /// Goes over the changes between the last chapter and this one.
    fn change<R: Alloc<A = Global>>(
        &mut self,
        rt: &R,
        site: KeptFile,
        trace: &[u8],
    ) -> Result<(), Broken> {
        let Some(last) = &self.last else {
            return Ok(());
        };
        let before = lent_before(&self.map, &self.site, &last.trace);
        match changed_map(rt.alloc(), before, site.lent(), trace) {
            Ok(map) => {
                self.map = map.into_bytes();
                self.site = Some(site);
                Ok(())
            }
            Err(trouble) => Err(Broken::Site(site.into_name(), trouble)),
        }
    }

    /// Comes to the chapter whose trace is in the file of this name: afterwards the map is the one on which it was
    /// played. A file that does not have the name of a chapter is on the map as it is.
    pub(crate) fn come_to<R: Files + Alloc<A = Global> + Clone + Drop>(
        &mut self,
        rt: &R,
        name: &str,
        trace: &[u8],
    ) -> Result<(), Broken> {
        let Some(place) = place_of(rt.alloc(), name)? else {
            return Ok(());
        };
        if !self.is_next(place) {
            return self.begin(rt, place);
        }
        match site_at(rt, place)? {
            Some(site) => self.change(rt, site, trace),
            None => Ok(()),
        }
    }

    /// Notes the chapter that was looked at.
    pub(crate) fn leave(
        &mut self,
        alloc: Global,
        name: &str,
        trace: Vec<u8>,
    ) -> Result<(), AllocError> {
        self.last = match place_of(alloc, name)? {
            Some(place) => Some(Last {
                folder: String::from_str(alloc, place.folder)?,
                number: place.number,
                trace,
            }),
            None => None,
        };
        Ok(())
    }
}

/// The line that says why a chapter is not looked at, and the status.
fn broken_line(alloc: Global, broken: Broken) -> Result<(String, u8), AllocError> {
    match broken {
        Broken::Site(name, trouble) => Ok((site_line(alloc, name.as_str(), trouble)?, 6)),
        Broken::Unread(name) => Ok((
            format!(in alloc; "fleet: file {name}: it cannot be read\n")?,
            3,
        )),
        Broken::NoMemory => Err(AllocError),
    }
}

/// What is said where a chapter is not looked at. The status is 3 if its record cannot be read, and 6 if it is refused.
pub(crate) fn broken_said(alloc: Global, broken: Broken) -> Result<Said, AllocError> {
    let (complaint, status) = broken_line(alloc, broken)?;
    Ok(Said {
        output: Vec::new(alloc),
        status,
        complaint,
    })
}

/// Prints why a chapter is not looked at. Returns the status: that of `broken_said`, or 7 where memory ran out.
pub(crate) fn complain_of_broken<E: Write>(alloc: Global, broken: Broken, error: &mut E) -> u8 {
    match broken_said(alloc, broken) {
        Ok(said) => {
            write_whole(error, said.complaint.as_bytes());
            said.status
        }
        Err(AllocError) => fail(InputFault::NoMemory, error),
    }
}
