//! What `clap` finds in the words of a command line.

ghost use Rattle.std.specs.Prelude.{◌≡◌, [], IfOk, IfErr, true, false, map, string_bytes};
ghost use Rattle.std.specs.List.{list_any};
ghost use Rattle.clap.specs.Words.{fault_of, is_simple, is_simple_and_free, subcommand_of, subcommand_rows_of, takes};
ghost use Rattle.clap.specs.Values.{kind_of};
ghost use Rattle.clap.specs.declared.error.kind.ErrorKind.TheVariants.{OutOfMemory};
ghost use Rattle.command_words.specs.Faults.{is_request, is_mistake, is_help, is_wrong};
ghost use Rattle.command_words.specs.Table.{program_app};
ghost use Rattle.command_words.specs.declared.words.WordFault.TheVariants.{NoMemory};

use crate::command::command_of;
use crate::table::Program;
use clap::error::ErrorKind;
use clap::{ArgMatches, Error};
use std::alloc::{AllocError, Global};

/// Why the words name no job.
#[derive(Debug, Drop)]
pub enum WordFault {
    /// What `clap` prints about words that are wrong.
    Words(String),
    /// They ask for help or for the version. This is it.
    Help(String),
    NoMemory,
}

impl From<AllocError> for WordFault {
    ghost use Rattle.std.specs.Prelude.{◌≡◌};
    ghost use Rattle.command_words.specs.declared.words.WordFault.TheVariants.{NoMemory};

    ghost from_gives = { λ _ e. e ≡ NoMemory };

    fn from(_error: AllocError) -> WordFault {
        WordFault::NoMemory
    }
}

/// Whether words with such an error ask for help or for the version.
fn is_request(kind: ErrorKind) -> bool
    ensures { result ≡ is_request kind }
{
    matches!(kind, ErrorKind::DisplayHelp | ErrorKind::DisplayVersion)
}

/// Why `clap` did not accept the words.
fn fault_from(alloc: Global, error: &Error) -> WordFault
    ensures memory { kind_of error.now ≡ OutOfMemory → result ≡ NoMemory }
    ensures help { is_help result ≡ true → is_request (kind_of error.now) ≡ true }
    ensures wrong { is_wrong result ≡ true → is_request (kind_of error.now) ≡ false }
{
    let kind = error.kind();
    if kind == ErrorKind::OutOfMemory {
        return WordFault::NoMemory;
    }
    match error.to_string(alloc) {
        Ok(text) => {
            if is_request(kind) {
                WordFault::Help(text)
            } else {
                WordFault::Words(text)
            }
        }
        Err(_) => WordFault::NoMemory,
    }
}

/// What `clap` finds in the words. The first word is the program's own name.
pub fn matches_for<'a>(
    alloc: Global,
    program: &Program<'a>,
    words: &'a [String],
) -> Result<ArgMatches<'a>, WordFault>
    // only words that `clap` takes have matches
    ensures taken { is_simple_and_free (program_app program.now) ≡ true
        → IfOk result (λ m. fault_of (program_app program.now) (map (λ w. string_bytes w) words.entry.now) ≡ []) }
    // the matches are those of the word that was given
    ensures word { is_simple (program_app program.now) ≡ true
        → IfOk result (λ m. subcommand_rows_of m ≡ subcommand_of (program_app program.now) (map (λ w. string_bytes w) words.entry.now)) }
    // only words that ask for help get it, and only words that are wrong are called so
    ensures help { is_simple_and_free (program_app program.now) ≡ true
        → IfErr result (λ f. is_help f ≡ true → list_any is_request (fault_of (program_app program.now) (map (λ w. string_bytes w) words.entry.now)) ≡ true) }
    ensures wrong { is_simple_and_free (program_app program.now) ≡ true
        → IfErr result (λ f. is_wrong f ≡ true → list_any is_mistake (fault_of (program_app program.now) (map (λ w. string_bytes w) words.entry.now)) ≡ true) }
    // words that `clap` takes are refused only where memory runs out
    ensures refused { IfErr result (λ f. takes (program_app program.now) (map (λ w. string_bytes w) words.entry.now) ≡ true → f ≡ NoMemory) }
{
    let command = command_of(alloc, program)?;
    match command.try_get_matches_from(words) {
        Ok(matches) => Ok(matches),
        Err(error) => Err(fault_from(alloc, &error)),
    }
}
