//! How ticks are planned, by the words.

ghost use Rattle.std.specs.Prelude.{◌≡◌, string_bytes};
ghost use Rattle.std.specs.Option.{option_map};
ghost use Rattle.fleet_lib.specs.Planner.{manner_asked, manner_named};

use fleet_talk::Manner;

/// The manner with a given name.
fn manner_named(name: &str) -> Option<Manner>
    ensures { result ≡ manner_named name.now }
{
    if name == "plain" {
        Some(Manner::Plain)
    } else if name == "turns" {
        Some(Manner::Turns)
    } else {
        None
    }
}

/// The manner that the word after `--planner` asks for, and the plain one without a word; `None` if it names none.
pub(crate) fn manner_in(word: &Option<String>) -> Option<Manner>
    ensures { result ≡ manner_asked (option_map (λ s. string_bytes s) word.now) }
{
    match word {
        None => Some(Manner::Plain),
        Some(word) => manner_named(word.as_str()),
    }
}
