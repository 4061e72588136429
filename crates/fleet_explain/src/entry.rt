//! What is at a place of a trace.

ghost use Rattle.std.specs.Prelude.{◌≡◌};
ghost use Rattle.fleet_explain.specs.Entries.{kind_of, kind_at};

use fleet_history::Entry;

/// What stands at a place of a trace.
#[derive(Clone, Copy, Debug, PartialEq, Eq)]
pub enum EntryKind {
    /// The opening.
    Opening,
    /// An order that is taken from a client.
    Take { client: u32 },
    /// All robots' step.
    Tick,
    /// A robot that refuses further errands.
    Shut { robot: u32 },
}

/// What kind of entry it is.
fn kind_of(entry: &Entry) -> EntryKind
    ensures { result ≡ kind_of entry.now }
{
    match entry {
        Entry::Take { client, .. } => EntryKind::Take { client: *client },
        Entry::Tick { .. } => EntryKind::Tick,
        Entry::Shut { robot, .. } => EntryKind::Shut { robot: *robot },
    }
}

/// What is at this place, counted from 1; at 0 the opening.
pub(crate) fn kind_at(entries: &[Entry], at: u64) -> EntryKind
    ensures { result ≡ kind_at entries.now at }
{
    if at == 0 || at > entries.len() as u64 {
        return EntryKind::Opening;
    }
    kind_of(&entries[at as usize - 1])
}
