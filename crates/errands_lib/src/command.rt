//! The command line of `errands`: its words with their arguments.

ghost use Rattle.std.specs.Prelude.{◌≡◌};
ghost use Rattle.command_words.specs.Table.{program_app};
ghost use Rattle.errands_lib.specs.Command.{errands_app};

use command_words::{Argument, Kind, Program, Word};

/// A map.
const MAP_FILE: Argument<'static> = Argument {
    name: "MAP",
    kind: Kind::File,
    help: "A map",
};

/// `map FILE`.
const MAP: Word<'static> = Word {
    name: "map",
    about: "Says how large a map is, and names its first bridge",
    example: "Example: errands map ring.map",
    arguments: &[Argument {
        name: "FILE",
        kind: Kind::File,
        help: "A map",
    }],
};

/// `run [--trace] MAP SCRIPT`.
const RUN: Word<'static> = Word {
    name: "run",
    about: "Runs a script on a map: a line for each event, arrival and farewell",
    example: "Example: errands run ring.map two_robots.script",
    arguments: &[
        Argument {
            name: "trace",
            kind: Kind::Flag,
            help: "Write the trace of the run in place of its lines",
        },
        MAP_FILE,
        Argument {
            name: "SCRIPT",
            kind: Kind::File,
            help: "The robots, the limits and the events",
        },
    ],
};

/// `judge MAP TRACE`.
const JUDGE: Word<'static> = Word {
    name: "judge",
    about: "Tells whether a trace is legal on a map, or its first illegal entry and the rule broken",
    example: "Example: errands judge ring.map two_robots.trace",
    arguments: &[
        MAP_FILE,
        Argument {
            name: "TRACE",
            kind: Kind::File,
            help: "What `errands serve` or `errands run --trace` wrote",
        },
    ],
};

/// `serve MAP SCRIPT`.
const SERVE: Word<'static> = Word {
    name: "serve",
    about: "Serves a script's clients on a map, each in a thread of its own, and writes the trace",
    example: "Example: errands serve ring.map three_clients.script",
    arguments: &[
        MAP_FILE,
        Argument {
            name: "SCRIPT",
            kind: Kind::File,
            help: "The robots, the limits and the clients' lines",
        },
    ],
};

/// The program.
const ERRANDS: Program<'static> = Program {
    name: "errands",
    about: "Moves robots over a map while clients post errands",
    version: "0.1.0",
    note: Some(
        "Without a word it reads a map, the line `script` and a script from standard input.",
    ),
    needs_word: false,
    words: &[MAP, RUN, JUDGE, SERVE],
};

/// The program with its words. Only this function names the constant, since a proof has it at each step of the
/// function.
pub(crate) fn command() -> Program<'static>
    ensures { program_app result ≡ errands_app }
{
    ERRANDS
}
