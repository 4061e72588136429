//! One case: the program's words, its standard input, and the files that the words name.

use std::alloc::{AllocError, Global};
use test_kit::Block;

/// A file that the words of a case name.
#[derive(Drop)]
pub(crate) struct CaseFile {
    pub(crate) name: Vec<u8>,
    pub(crate) bytes: Vec<u8>,
}

/// A case.
#[derive(Drop)]
pub(crate) struct Case<'a> {
    pub(crate) name: &'a str,
    /// The program's words, its own name first.
    pub(crate) words: Vec<String>,
    pub(crate) input: Vec<u8>,
    pub(crate) files: Vec<CaseFile>,
}

impl<'a> Case<'a> {
    /// The case that a block tells.
    pub(crate) fn of(alloc: Global, block: Block<'a>) -> Result<Case<'a>, AllocError> {
        let mut case = Case {
            name: block.name,
            words: Vec::new(alloc),
            input: Vec::new(alloc),
            files: Vec::new(alloc),
        };
        case.read_all(alloc, block.text)?;
        Ok(case)
    }

    /// Takes in the program's own name and each line of the case.
    fn read_all(&mut self, alloc: Global, text: &[u8]) -> Result<(), AllocError> {
        self.add_words(alloc, b"errands")?;
        for line in text.split(|byte| *byte == b'\n') {
            self.read(alloc, line)?;
        }
        Ok(())
    }

    /// Takes in one more line of the case, which its first byte marks.
    fn read(&mut self, alloc: Global, line: &[u8]) -> Result<(), AllocError> {
        let Some((mark, text)) = line.split_first() else {
            return Ok(());
        };
        match *mark {
            b'$' => self.add_words(alloc, text),
            b'<' => self.add_file(alloc, text),
            b'|' => self.add_bytes(text, b"\n"),
            b':' => self.add_bytes(text, b""),
            _ => Ok(()),
        }
    }

    /// The words of a line, separated by blanks; only those that are UTF-8 text.
    fn add_words(&mut self, alloc: Global, text: &[u8]) -> Result<(), AllocError> {
        for word in text.split(|byte| *byte == b' ') {
            if word.is_empty() {
                continue;
            }
            if let Ok(word) = str::from_utf8(word) {
                self.words.push(String::from_str(alloc, word)?)?;
            }
        }
        Ok(())
    }

    fn add_file(&mut self, alloc: Global, text: &[u8]) -> Result<(), AllocError> {
        let name = Vec::from_slice(alloc, text.trim_ascii())?;
        let bytes = Vec::new(alloc);
        self.files.push(CaseFile { name, bytes })?;
        Ok(())
    }

    /// Bytes of the file that was begun last, or of standard input.
    fn add_bytes(&mut self, text: &[u8], end: &[u8]) -> Result<(), AllocError> {
        if let Some(file) = self.files.last_mut() {
            return append(&mut file.bytes, text, end);
        }
        append(&mut self.input, text, end)
    }

    /// The bytes of the file of this name.
    pub(crate) fn file(&self, name: &str) -> Option<&[u8]> {
        for file in &self.files {
            if file.name.as_slice() == name.as_bytes() {
                return Some(file.bytes.as_slice());
            }
        }
        None
    }
}

fn append(bytes: &mut Vec<u8>, text: &[u8], end: &[u8]) -> Result<(), AllocError> {
    bytes.extend_from_slice(text)?;
    bytes.extend_from_slice(end)
}
