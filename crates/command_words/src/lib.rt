//! Command lines as tables: a program's words with their arguments are data, from which `clap`'s command is made, and
//! the values of arguments are read from what `clap` found.
#![tactic(auto)]

mod command;
mod table;
mod values;
mod words;

pub use table::{Argument, Kind, Program, Word};
pub use values::{has_flag, some_word_for, some_words_for, word_for, words_for};
pub use words::{WordFault, matches_for};
