//! The values of arguments in a command line.

ghost use Rattle.std.specs.Prelude.{◌≡◌, IfOk, Some, map, string_bytes};
ghost use Rattle.std.specs.Option.{option_map};
ghost use Rattle.clap.specs.Words.{first_of, all_of, found_of, rows_of};
ghost use Rattle.command_words.specs.Values.{has_flag, or_none};

use clap::ArgMatches;
use std::alloc::{AllocError, Global};

/// The value of a required argument.
pub fn word_for(alloc: Global, matches: &ArgMatches<'_>, name: &str) -> Result<String, AllocError>
    ensures { IfOk result (λ s. first_of name.now (rows_of (found_of matches.now)) ≡ Some (string_bytes s)) }
{
    match matches.get_str(name) {
        Some(word) => String::from_str(alloc, word),
        // `clap` has a word for each required argument, so this never runs
        None => Err(AllocError),
    }
}

/// The value of an argument that may be left out.
pub fn some_word_for(
    alloc: Global,
    matches: &ArgMatches<'_>,
    name: &str,
) -> Result<Option<String>, AllocError>
    ensures { IfOk result (λ found. first_of name.now (rows_of (found_of matches.now)) ≡ option_map (λ s. string_bytes s) found) }
{
    match matches.get_str(name) {
        Some(word) => Ok(Some(String::from_str(alloc, word)?)),
        None => Ok(None),
    }
}

/// A copy of each of these words.
fn copies(alloc: Global, words: &[&str]) -> Result<Vec<String>, AllocError>
    ensures { IfOk result (λ copies. map (λ s. string_bytes s) copies.items ≡ map (λ w. w.now) words.now) }
{
    let mut copies = Vec::new(alloc);
    for word in words {
        copies.push(String::from_str(alloc, word)?)?;
    }
    Ok(copies)
}

/// The values of an argument that may have several.
pub fn words_for(
    alloc: Global,
    matches: &ArgMatches<'_>,
    name: &str,
) -> Result<Vec<String>, AllocError>
    ensures { IfOk result (λ words. all_of name.now (rows_of (found_of matches.now)) ≡ Some (map (λ s. string_bytes s) words.items)) }
{
    match matches.get_strs(name) {
        Some(words) => copies(alloc, words),
        // `clap` has a word for each required argument, so this never runs
        None => Err(AllocError),
    }
}

/// The values of an argument that may have several, or none.
pub fn some_words_for(
    alloc: Global,
    matches: &ArgMatches<'_>,
    name: &str,
) -> Result<Vec<String>, AllocError>
    ensures { IfOk result (λ words. or_none (all_of name.now (rows_of (found_of matches.now))) ≡ map (λ s. string_bytes s) words.items) }
{
    match matches.get_strs(name) {
        None => Ok(Vec::new(alloc)),
        Some(given) => copies(alloc, given),
    }
}

/// Whether a flag was given.
pub fn has_flag(matches: &ArgMatches<'_>, name: &str) -> bool
    ensures { result ≡ has_flag name.now (rows_of (found_of matches.now)) }
{
    match matches.get_str(name) {
        Some(word) => word == "true",
        None => false,
    }
}
