//! The tables of a command line.

/// What an argument takes from the command line.
#[derive(Clone, Copy, Debug)]
pub enum Kind<'a> {
    /// A file that has to be named.
    File,
    /// One file or more.
    Files,
    /// A file that may be left out.
    OptionalFile,
    /// `--NAME`.
    Flag,
    /// `--NAME VALUE`, which may be left out. The text is the value's name in help texts, here and below.
    Value(&'a str),
    /// `--NAME VALUE`, which may be given more than once, or left out.
    Values(&'a str),
    /// `--NAME VALUE`, which has to be there.
    RequiredValue(&'a str),
    /// `--NAME N`, a number below 2^32, which may be left out.
    Number(&'a str),
}

/// An argument of a word.
#[derive(Clone, Copy, Debug)]
pub struct Argument<'a> {
    pub name: &'a str,
    pub kind: Kind<'a>,
    pub help: &'a str,
}

/// A word (subcommand) of a program, with its help text and an example.
#[derive(Clone, Copy, Debug)]
pub struct Word<'a> {
    pub name: &'a str,
    pub about: &'a str,
    pub example: &'a str,
    pub arguments: &'a [Argument<'a>],
}

/// A program with its words.
#[derive(Clone, Copy, Debug)]
pub struct Program<'a> {
    pub name: &'a str,
    pub about: &'a str,
    pub version: &'a str,
    /// What help says after the words, if anything.
    pub note: Option<&'a str>,
    /// Whether one of the words has to be given.
    pub needs_word: bool,
    pub words: &'a [Word<'a>],
}
