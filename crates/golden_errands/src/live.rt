//! Fleets on a ring of eight cells, kept on demand or in real time as `fleet live` does. `tools/live/model.py --cases`
//! prints the same from an independent model.
//!
//! A case begins with a line `case: NAME`. Lines that begin with `+ ` follow: `+ script LINE` is a line of the file of
//! header lines, `+ kept N TEXT` the chapter from which the fleet goes on, with one digit N, `+ watch` lets the first
//! conversation watch, and each `+ fails` has the sink fail once more, `+ fails always` for good. The other lines are
//! those of the first conversation. What is said is written at once, since the fleet's threads own the writer.
//!
//! `+ period TIME` keeps the fleet in real time, by a clock that stands still but where a line `~ COUNT MICROS` moves it on by MICROS microseconds: when COUNT more lines were printed, and the fleet waits
//! for its next deadline. A line `~ COUNT` waits for the lines alone. Each `+ pipe LINE` is a line of client 0, which
//! then has a conversation of its own. What it is told, and the counts of each minute, are printed as they come.

mod clock;
mod spoken;
mod timed;
mod tray;

ghost use Rattle.std.specs.Prelude.{◌≤◌, length};

use crate::options::Conversation;
use clock::{Hands, Paced};
use fleet_lib::{Live, LiveEnds, Pipes, Recalls, TalkTexts, run_live, write_whole};
use spoken::{Ear, Spoken};
use std::alloc::{Alloc, AllocError, Global};
use std::io::{Stderr, Stdout};
use std::sync::{Arc, Wait};
use std::thread::Threads;
use std::time::Clock;
use test_kit::blocks_of;
use timed::Timed;
use tray::{Counts, NoJournal, Tray};

/// A hall of nine cells with a dead end of three.
const STUB: &[u8] = b"type octile\nheight 3\nwidth 6\nmap\n...@@@\n......\n...@@@\n";

const MAP: &[u8] = b"type octile\nheight 3\nwidth 3\nmap\n...\n.@.\n...\n";

/// The word of the option that begins so, if there is one.
fn word(alloc: Global, case: Conversation<'_>, start: &[u8]) -> Result<Option<String>, AllocError> {
    match case.after(start) {
        Some(told) => Ok(Some(String::from_utf8_lossy(alloc, told)?)),
        None => Ok(None),
    }
}

/// The words of a fleet of two robots and two clients.
fn words(alloc: Global, case: Conversation<'_>) -> Result<Live, AllocError> {
    let period = word(alloc, case, b"+ period ")?;
    Ok(Live {
        map: String::new(alloc),
        script: None,
        robots: Some(String::from_str(alloc, "0,8")?),
        clients: Some(String::from_str(alloc, "2")?),
        period,
        tickers: None,
        traces: None,
        resume: false,
        resume_only: false,
        keep_every: None,
        journal: false,
        recall: None,
        chapter_bytes: None,
        metrics: None,
        pipes: Vec::new(alloc),
        watch: case.has(b"+ watch"),
        service: false,
        roomy: case.has(b"+ roomy"),
        planner: None,
    })
}

/// The pipes of client 0, if the case has lines of its own for it.
fn pipes_of<R: Clock + Threads + Copy + Drop>(
    alloc: Global,
    rt: &R,
    hands: &'static Hands,
    case: Conversation<'_>,
    output: Stdout,
) -> Result<Vec<Pipes<Timed<R>, Spoken>>, AllocError> {
    let mut pipes = Vec::new(alloc);
    let lines = case.lines_after(alloc, b"+ pipe")?;
    if !lines.is_empty() {
        let input = Timed::new(Paced { rt: *rt, hands }, lines);
        let output = Spoken {
            ear: Ear::Output(output),
            hands,
        };
        pipes.push(Pipes { input, output })?;
    }
    Ok(pipes)
}

/// The ends of the conversations of a case.
fn ends_of<R: Clock + Threads + Copy + Drop>(
    alloc: Global,
    rt: &R,
    hands: &'static Hands,
    case: Conversation<'_>,
    output: (Stdout, Stderr),
    sink: Tray,
) -> Result<LiveEnds<Timed<R>, Spoken, Timed<R>, Spoken, Spoken, Tray, NoJournal>, AllocError> {
    let bytes = Vec::from_slice(alloc, case.lines)?;
    let counts = if case.after(b"+ period ").is_some() {
        Ear::Output(output.0)
    } else {
        Ear::Errors(output.1)
    };
    let pipes = pipes_of(alloc, rt, hands, case, output.0)?;
    Ok(LiveEnds {
        input: Timed::new(Paced { rt: *rt, hands }, bytes),
        output: Spoken {
            ear: Ear::Output(output.0),
            hands,
        },
        pipes,
        counts: Spoken { ear: counts, hands },
        figures: None,
        sink,
        journal: None,
        recalls: Recalls::new(alloc, 0),
    })
}

/// The header lines, if they are as short as a script may be; no case has more.
fn short(lines: &[u8]) -> &[u8]
    ensures { length result.now ≤ 16777216 }
{
    if lines.len() <= 16_777_216 {
        lines
    } else {
        &[]
    }
}

/// Keeps the fleet of a case, and prints the result.
fn tell_case<R: Alloc<A = Global> + Clock + Threads + Sync + Wait + Copy + Send + Drop + 'static>(
    rt: &R,
    case: Conversation<'_>,
    output: (Stdout, Stderr),
) -> Result<(), AllocError> {
    let alloc = rt.alloc();
    let (mut told, _) = output;
    write_whole(&mut told, b"case: ");
    write_whole(&mut told, case.name.as_bytes());
    write_whole(&mut told, b"\n");
    let script = case.script(alloc)?;
    let counts = Counts::new(alloc, case.first_chapter())?;
    let sink = Tray {
        counts: Arc::try_clone(&counts)?,
        fails: if case.has(b"+ fails always") {
            u64::MAX
        } else {
            case.count(b"+ fails")
        },
    };
    let hands = Hands::new(alloc)?;
    let ends = ends_of(alloc, rt, hands, case, output, sink)?;
    let words = words(alloc, case)?;
    let texts = TalkTexts {
        map: if case.has(b"+ map stub") { STUB } else { MAP },
        script: short(&script),
        kept: case.kept(),
    };
    let paced = Paced { rt: *rt, hands };
    let status = run_live(&paced, texts, &words, ends, &mut told);
    let line = format!(in alloc; "status {status}\n")?;
    write_whole(&mut told, line.as_bytes());
    write_whole(&mut told, counts.line(alloc)?.as_bytes());
    Ok(())
}

/// Keeps the fleet of each case, and prints the results.
pub(crate) fn tell<
    R: Alloc<A = Global> + Clock + Threads + Sync + Wait + Copy + Send + Drop + 'static,
>(rt: &R, text: &[u8], output: (Stdout, Stderr)) -> Result<(), AllocError> {
    for block in &blocks_of(rt.alloc(), text, b"case: ")? {
        tell_case(rt, Conversation::of(*block), output)?;
    }
    Ok(())
}
