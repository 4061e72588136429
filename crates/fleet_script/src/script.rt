//! Scripts: what a fleet begins with, and the events that follow.

ghost use Rattle.std.specs.Prelude.{◌≡◌, ◌≤◌, ◌+◌, ◌<◌, ◌^◌, length, map, IfOk, IfErr, Some, Ok, Err, ℕ};
ghost use Rattle.std.specs.Option.{option_map};
ghost use Rattle.fleet_map.specs.Text.{words_of, lines_of};
ghost use Rattle.fleet_script.specs.Script.{with_header, with_events, with_words, with_line, draft_of, or_line, script_of, blank_draft, plan_from, Plan};
ghost use Rattle.fleet_script.specs.Grammar.{IsScript, IsFirstFault, lines_in};
ghost use Rattle.fleet_script.specs.Numbers.{numbers_in};
ghost use Rattle.fleet_script.specs.Runs.{runs_plan};
ghost use Rattle.fleet_script.specs.Shown.{repeated, shown, plan, Gives};
ghost use Rattle.fleet_script.specs.declared.lines.Repeat.{Repeat};
ghost use Rattle.fleet_script.specs.declared.script.ScriptFault.{ScriptFault};

use crate::header::Head;
use crate::lines::{Repeat, events_of_line};
use crate::run::Run;
use crate::runs::ScriptRuns;
use fleet_book::{Event, Limits};
use fleet_map::text::{first_line, first_word};
use std::alloc::{AllocError, Allocator, Global};
use thiserror::Error;

/// How many robots a script's fleet has at most.
const MOST_ROBOTS: usize = 16;

/// What a script says.
#[derive(Drop)]
pub struct Script<A: Allocator + Copy = Global> {
    /// The start cells of robots 0, 1, ..
    pub starts: Vec<u32, A>,
    /// The number of clients.
    pub clients: u32,
    /// The limits, with the defaults of those that it does not name.
    pub limits: Limits,
    /// Whether the southern closures rank the cells, and not the plain ones.
    pub south: bool,
    /// How many turns each ticker makes in a serve, 1 to 1,000,000, by default 16.
    pub turns: u32,
    /// The events in order, `tick N` as N ticks.
    pub events: Vec<Event, A>,
    /// The line of each event, from 1.
    pub lines: Vec<u32, A>,
}

/// Why a text is no script.
#[derive(Clone, Copy, Debug, PartialEq, Eq, Error)]
pub enum ScriptFault {
    /// The first line that is not allowed where it is, counted from 1; if `robots` is missing, the line after the last.
    #[error("line {0} may not stand where it does")]
    Line(u32),
    /// Memory ran out; this says nothing about the text.
    #[error("out of memory")]
    NoMemory,
}

impl From<AllocError> for ScriptFault {
    ghost use Rattle.std.specs.Prelude.{◌≡◌};
    ghost use Rattle.fleet_script.specs.declared.script.ScriptFault.TheVariants.{NoMemory};

    ghost from_gives = { λ _ e. e ≡ NoMemory };

    fn from(_error: AllocError) -> ScriptFault {
        ScriptFault::NoMemory
    }
}

/// A script as far as it is read.
#[derive(Drop)]
struct Draft<A: Allocator + Copy = Global> {
    head: Head<A>,
    runs: Vec<Run, A>,
}

impl<A: Allocator + Copy> Draft<A> {
    /// A script without lines.
    fn new(alloc: A) -> Draft<A>
        ensures { shown result ≡ blank_draft }
    {
        Draft {
            head: Head::new(),
            runs: Vec::new(alloc),
        }
    }

    /// Adds the events of one more line.
    fn add_events(&mut self, number: u32, more: Repeat) -> Result<(), AllocError>
        requires { 1 ≤ more.times }
        ensures { IfOk result (λ done. shown self.new ≡ with_events (shown self.old) number (repeated more)) }
    {
        self.runs.push(Run {
            event: more.event,
            times: more.times,
            line: number,
        })?;
        Ok(())
    }

    /// Adds one more header line, by its first word and the others.
    fn add_header(
        &mut self,
        alloc: A,
        number: u32,
        key: &[u8],
        words: &[u8],
    ) -> Result<(), ScriptFault>
        ensures { Gives (λ done. shown self.new) result (or_line number (with_header (shown self.old) key.now (words_of words.now))) }
    {
        if self.head.add_header(alloc, MOST_ROBOTS, key, words)? {
            Ok(())
        } else {
            Err(ScriptFault::Line(number))
        }
    }

    /// Adds one more line that has words.
    fn add_words(&mut self, alloc: A, number: u32, line: &[u8]) -> Result<(), ScriptFault>
        ensures { Gives (λ done. shown self.new) result (or_line number (with_words (shown self.old) number (words_of line.now))) }
    {
        let Some((key, words)) = first_word(line) else {
            return Ok(());
        };
        if let Some(more) = events_of_line(key, words) {
            return Ok(self.add_events(number, more)?);
        }
        if !self.runs.is_empty() {
            return Err(ScriptFault::Line(number));
        }
        self.add_header(alloc, number, key, words)
    }

    /// Adds one more line.
    fn add_line(&mut self, alloc: A, number: u32, line: &[u8]) -> Result<(), ScriptFault>
        ensures { Gives (λ done. shown self.new) result (or_line number (with_line (shown self.old) number line.now)) }
    {
        if !line.is_empty() && line[0] == b'#' {
            return Ok(());
        }
        self.add_words(alloc, number, line)
    }
}

/// The script of a draft whose lines are all read; this is the number of the line after the last.
fn finished<A: Allocator + Copy>(draft: Draft<A>, number: u32) -> Result<ScriptRuns<A>, ScriptFault>
    ensures { Gives runs_plan result (or_line number (option_map (plan_from (shown draft)) (shown draft).starts)) }
{
    let Draft { head, runs } = draft;
    let Head {
        starts,
        clients,
        south,
        turns,
        limits,
    } = head;
    match starts {
        None => Err(ScriptFault::Line(number)),
        Some(starts) => Ok(ScriptRuns {
            starts,
            clients: clients.unwrap_or(1),
            limits: limits.limits(),
            south: south.unwrap_or(false),
            turns: turns.unwrap_or(16),
            runs,
        }),
    }
}

/// The script that the bytes are, or what is first at fault in them.
pub fn read_script<A: Allocator + Copy>(alloc: A, bytes: &[u8]) -> Result<Script<A>, ScriptFault>
    requires { length bytes.now ≤ 16777216 }
    // What is read is a script: these lines say this.
    ensures found { IfOk result (λ script. IsScript (lines_in bytes.now) (plan script)) }
    // Each script is read, unless memory runs out.
    ensures only { (p : Plan) → IsScript (lines_in bytes.now) p → Gives plan result (Ok p) }
    // Where none is read, the fault is the first, unless memory ran out.
    ensures first { IfErr result (λ fault. IsFirstFault (lines_in bytes.now) fault) }
    // The first fault is the one that is named, unless memory runs out.
    ensures named { (line : ℕ) → IsFirstFault (lines_in bytes.now) (ScriptFault.Line line) → Gives plan result (Err line) }
    // What the reading of the lines gives, from the first one on.
    ensures read { Gives plan result (script_of bytes.now) }
{
    read_lines(alloc, bytes)
}

/// The script that the bytes are, with the events of its list.
fn read_lines<A: Allocator + Copy>(alloc: A, bytes: &[u8]) -> Result<Script<A>, ScriptFault>
    requires { length bytes.now ≤ 16777216 }
    ensures { Gives plan result (script_of bytes.now) }
{
    let script = read_runs(alloc, bytes)?;
    Ok(script.unrolled(alloc)?)
}

/// The script that the bytes are, as `read_script` has it, with a run for each event line in place of a list of all
/// events; or what is first at fault in them. It takes no more than some 50 bytes for each line.
#[tactic(auto, unfolding(crate::specs::Script::draft_of))]
pub fn read_runs<A: Allocator + Copy>(alloc: A, bytes: &[u8]) -> Result<ScriptRuns<A>, ScriptFault>
    requires { length bytes.now ≤ 16777216 }
    ensures { Gives runs_plan result (script_of bytes.now) }
{
    let mut draft = Draft::new(alloc);
    let mut number = 1;
    let mut rest = bytes;
    while let Some((line, after)) = first_line(rest) {
        draft.add_line(alloc, number, line)?;
        number += 1;
        rest = after;
    }
    finished(draft, number)
}
