//! `golden_vehicles [started] [N]` answers the lines of its input as `fleet vehicles` does. What it must print was worked
//! out by hand; `tools/live/vehicles_check` plays it next to a model.
#![tactic(auto)]

use fleet_vehicles::{Clearance, DriveRules, drive};
use std::alloc::{Alloc, Global};
use std::env::{self, Env};
use std::io::{self, BufReader};
use std::process::ExitCode;

/// How much is read at once.
const PIECE: usize = 65_536;

/// The words that the program was given, without its name.
fn words_given(rt: &(impl Env + Alloc<A = Global>)) -> io::Result<Vec<String>> {
    Ok(env::args(rt)?.skip(1).collect(rt.alloc())?)
}

/// The rules that the words say.
fn rules_of(words: &[String]) -> DriveRules {
    let mut rules = DriveRules {
        clearance: Clearance::Arrived,
        ahead: 10,
    };
    for word in words {
        if word.as_str() == "started" {
            rules.clearance = Clearance::Started;
        } else if let Ok(ahead) = word.as_str().parse::<u32>() {
            rules.ahead = ahead;
        }
    }
    rules
}

fn main(rt: HostRuntime) -> ExitCode {
    let Ok(words) = words_given(&rt) else {
        return ExitCode::from(2);
    };
    let rules = rules_of(&words);
    let Ok(mut input) = BufReader::with_capacity(rt.alloc(), PIECE, rt.stdin()) else {
        return ExitCode::from(7);
    };
    let mut output = rt.stdout();
    match drive(rt.alloc(), rules, &mut input, &mut output) {
        Ok(()) => ExitCode::from(0),
        Err(_) => ExitCode::from(3),
    }
}
