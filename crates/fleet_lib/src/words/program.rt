//! The program `fleet` and its words.

ghost use Rattle.std.specs.Prelude.{◌≡◌, map};
ghost use Rattle.command_words.specs.Table.{program_app, word_app};
ghost use Rattle.fleet_lib.specs.Command.{change_app, check_app, convert_app, execute_app, explain_app, fleet_app, judge_app, live_app, map_app, sim_app, stats_app, talk_app, vehicles_app, view_app, word_apps};

use crate::words::change::CHANGE;
use crate::words::check::CHECK;
use crate::words::convert::CONVERT;
use crate::words::execute::EXECUTE;
use crate::words::explain::EXPLAIN;
use crate::words::judge::JUDGE;
use crate::words::live::LIVE;
use crate::words::map::MAP_WORD;
use crate::words::sim::SIM;
use crate::words::stats::STATS;
use crate::words::talk::TALK;
use crate::words::vehicles::VEHICLES;
use crate::words::view::VIEW;
use command_words::{Program, Word};

/// Its version.
pub(crate) const VERSION: &str = "0.1.0";

fn view_word() -> Word<'static>
    ensures { word_app result ≡ view_app }
{
    VIEW
}

fn check_word() -> Word<'static>
    ensures { word_app result ≡ check_app }
{
    CHECK
}

fn talk_word() -> Word<'static>
    ensures { word_app result ≡ talk_app }
{
    TALK
}

fn convert_word() -> Word<'static>
    ensures { word_app result ≡ convert_app }
{
    CONVERT
}

fn explain_word() -> Word<'static>
    ensures { word_app result ≡ explain_app }
{
    EXPLAIN
}

fn live_word() -> Word<'static>
    ensures { word_app result ≡ live_app }
{
    LIVE
}

fn stats_word() -> Word<'static>
    ensures { word_app result ≡ stats_app }
{
    STATS
}

fn judge_word() -> Word<'static>
    ensures { word_app result ≡ judge_app }
{
    JUDGE
}

fn map_word() -> Word<'static>
    ensures { word_app result ≡ map_app }
{
    MAP_WORD
}

fn execute_word() -> Word<'static>
    ensures { word_app result ≡ execute_app }
{
    EXECUTE
}

fn sim_word() -> Word<'static>
    ensures { word_app result ≡ sim_app }
{
    SIM
}

fn change_word() -> Word<'static>
    ensures { word_app result ≡ change_app }
{
    CHANGE
}

fn vehicles_word() -> Word<'static>
    ensures { word_app result ≡ vehicles_app }
{
    VEHICLES
}

/// The words of the program. Each comes from a function of its own, since a proof has a constant at each step of the function
/// that names it: the table of all is too long for one.
pub(crate) fn fleet_words() -> [Word<'static>; 13]
    ensures { map word_app result ≡ word_apps }
{
    [
        view_word(),
        check_word(),
        talk_word(),
        convert_word(),
        explain_word(),
        live_word(),
        stats_word(),
        judge_word(),
        map_word(),
        execute_word(),
        sim_word(),
        change_word(),
        vehicles_word(),
    ]
}

/// The program with its words.
pub(crate) fn program<'a>(words: &'a [Word<'a>]) -> Program<'a>
    requires { map word_app words.now ≡ word_apps }
    ensures { program_app result ≡ fleet_app }
{
    Program {
        name: "fleet",
        about: "Keeps fleets of robots, shows and judges what they did, judges and executes plans",
        version: VERSION,
        note: None,
        needs_word: true,
        words,
    }
}
