//! The depot's size, from the program's command line.

ghost use Rattle.std.specs.Prelude.{◌≡◌, ◌≤◌, IfOk};

use clap::error::ErrorKind;
use clap::{Arg, ArgAction, ArgMatches, Command, Error};
use fleet_map::text::number_up_to;
use std::alloc::{AllocError, Global};

/// How large the depot is, and how long it is kept going.
#[derive(Clone, Copy)]
pub(crate) struct Settings {
    /// 1 to 512.
    pub(crate) robots: u32,
    /// 1 to 64.
    pub(crate) clients: u32,
    /// Orders of each client, and the least number of turns that each ticker makes: 1 to 1,000,000.
    pub(crate) turns: u64,
    /// 0 to 4,294,967,295.
    pub(crate) seed: u64,
}

/// Why there are no settings.
#[derive(Drop)]
pub(crate) enum SettingsFault {
    /// What is wrong with the words, as `clap` says it. A request for help ends here too.
    Words(String),
    NoMemory,
}

impl From<AllocError> for SettingsFault {
    ghost use Rattle.std.specs.Prelude.{◌≡◌};
    ghost use Rattle.depot.specs.declared.settings.SettingsFault.TheVariants.{NoMemory};

    ghost from_gives = { λ _ e. e ≡ NoMemory };

    fn from(_error: AllocError) -> SettingsFault {
        SettingsFault::NoMemory
    }
}

/// An option that has a number.
fn option<'a>(alloc: Global, name: &'a str, help: &'a str) -> Arg<'a> {
    Arg::new(alloc, name)
        .long(name)
        .action(ArgAction::Set)
        .help(help)
}

/// The options' names, with the help text of each.
const OPTIONS: [(&str, &str); 4] = [
    ("robots", "Robots, 1 to 512 (default 8)"),
    ("clients", "Clients, 1 to 64 (default 3)"),
    (
        "turns",
        "Orders of each client, and the least turns of each ticker, 1 to 1,000,000 (default 20)",
    ),
    (
        "seed",
        "Where the random errands begin, 0 to 4,294,967,295 (default 1)",
    ),
];

/// The command `depot` with its options.
fn command<'a>(alloc: Global) -> Result<Command<'a>, AllocError> {
    let mut command = Command::new(alloc, "depot")
        .about("Keeps robots, clients and two tickers of one office going side by side")
        .bin_name("depot")?;
    for (name, help) in OPTIONS {
        command = command.arg(option(alloc, name, help))?;
    }
    Ok(command)
}

/// The least and the greatest number of an option.
type Range = (u64, u64);

/// The number of an option, or a default if it is not given.
fn number_of(
    alloc: Global,
    matches: &ArgMatches<'_>,
    name: &str,
    other: u64,
    range: Range,
) -> Result<u64, SettingsFault>
    requires other { (range.0 ≤ other) × (other ≤ range.1) }
    requires most { range.1 ≤ 4294967295 }
    ensures { IfOk result (λ n. (range.0 ≤ n) × (n ≤ range.1)) }
{
    let Some(word) = matches.get_str(name) else {
        return Ok(other);
    };
    let (least, most) = range;
    match number_up_to(word.as_bytes(), most + 1) {
        Some(number) if least <= number && number <= most => Ok(number),
        _ => Err(SettingsFault::Words(out_of_range(alloc, name, word, range)?)),
    }
}

/// The text about a word that is not a number in the range, in the form of `clap`'s own errors.
fn out_of_range(alloc: Global, name: &str, word: &str, range: Range) -> Result<String, AllocError> {
    let (least, most) = range;
    format!(in alloc;
        "error: invalid value '{word}' for '--{name} <{name}>': no whole number from {least} to {most}\n\nFor more information, try '--help'.\n"
    )
}

/// The settings that the options give.
fn settings_from(alloc: Global, matches: &ArgMatches<'_>) -> Result<Settings, SettingsFault> {
    Ok(Settings {
        robots: number_of(alloc, matches, "robots", 8, (1, 512))? as u32,
        clients: number_of(alloc, matches, "clients", 3, (1, 64))? as u32,
        turns: number_of(alloc, matches, "turns", 20, (1, 1_000_000))?,
        seed: number_of(alloc, matches, "seed", 1, (0, 4_294_967_295))?,
    })
}

/// The settings that the words name. The first word is the program's own name.
pub(crate) fn settings_of(alloc: Global, words: &[String]) -> Result<Settings, SettingsFault> {
    let command = command(alloc)?;
    match command.try_get_matches_from(words) {
        Ok(matches) => settings_from(alloc, &matches),
        Err(error) => Err(fault_from(alloc, &error)),
    }
}

/// Why `clap` did not accept the words.
fn fault_from(alloc: Global, error: &Error) -> SettingsFault {
    if error.kind() == ErrorKind::OutOfMemory {
        return SettingsFault::NoMemory;
    }
    match error.to_string(alloc) {
        Ok(text) => SettingsFault::Words(text),
        Err(_) => SettingsFault::NoMemory,
    }
}
