//! Where a fleet's counts and figures go.

use crate::files::write_new;
use fleet_lib::{InputFault, fail, write_whole};
use std::alloc::{Alloc, AllocError, Global};
use std::fs::{self, Files};
use std::io::{self, Write};

/// A file that is written anew each time: next to its place, and then renamed.
#[derive(Drop)]
pub(crate) struct FigureFile<E, R> {
    rt: R,
    name: String,
    beside: String,
    /// The error output.
    error: E,
    /// Whether it could not be written when that was tried last.
    fails: bool,
}

impl<E: Write + Drop, R: Files + Alloc<A = Global> + Copy> FigureFile<E, R> {
    pub(crate) fn new(rt: &R, name: &str, error: E) -> Result<FigureFile<E, R>, AllocError> {
        let alloc = rt.alloc();
        Ok(FigureFile {
            rt: *rt,
            name: String::from_str(alloc, name)?,
            beside: format!(in alloc; "{name}.part")?,
            error,
            fails: false,
        })
    }

    /// Writes the file anew. After an error it is as it was.
    fn put(&self, text: &[u8]) -> io::Result<()> {
        write_new(&self.rt, self.beside.as_str(), text)?;
        fs::rename(&self.rt, self.beside.as_str(), self.name.as_str())
    }

    /// The line for an error, or for its end.
    fn line(&self, put: &io::Result<()>) -> Result<String, AllocError> {
        let name = self.name.as_str();
        match put {
            Ok(()) => format!(in self.rt.alloc(); "fleet: file {name} is written again\n"),
            Err(why) => {
                format!(in self.rt.alloc(); "fleet: file {name} cannot be written: {why}\n")
            }
        }
    }

    /// Writes the file anew, and says where that fails or works again. Returns whether it was done.
    fn put_and_say(&mut self, text: &[u8]) -> Result<bool, AllocError> {
        let put = self.put(text);
        let fails = put.is_err();
        if fails != self.fails {
            let line = self.line(&put)?;
            write_whole(&mut self.error, line.as_bytes());
        }
        self.fails = fails;
        Ok(!fails)
    }
}

/// The error output, or a file of figures.
#[derive(Drop)]
pub(crate) enum Outlet<E, R> {
    Error(E),
    Figures(FigureFile<E, R>),
}

impl<E: Write + Drop, R: Files + Alloc<A = Global> + Copy> Write for Outlet<E, R> {
    fn write(&mut self, buf: &[u8]) -> io::Result<usize> {
        match self {
            Outlet::Error(error) => error.write(buf),
            Outlet::Figures(file) => {
                // Where that fails, the next figures are tried.
                let _put = file.put_and_say(buf);
                Ok(buf.len())
            }
        }
    }

    fn flush(&mut self) -> io::Result<()> {
        match self {
            Outlet::Error(error) => error.flush(),
            Outlet::Figures(_) => Ok(()),
        }
    }
}

/// Where the figures go, if a file is named. It is there from now on. The error is the status, and is said.
pub(crate) fn figures_of<E: Write + Copy + Drop, R: Files + Alloc<A = Global> + Copy>(
    rt: &R,
    name: &Option<String>,
    error: &mut E,
) -> Result<Option<Outlet<E, R>>, u8> {
    let Some(name) = name else {
        return Ok(None);
    };
    let Ok(mut file) = FigureFile::new(rt, name.as_str(), *error) else {
        return Err(fail(InputFault::NoMemory, error));
    };
    match file.put_and_say(b"") {
        Ok(true) => Ok(Some(Outlet::Figures(file))),
        Ok(false) => Err(3),
        Err(AllocError) => Err(fail(InputFault::NoMemory, error)),
    }
}
