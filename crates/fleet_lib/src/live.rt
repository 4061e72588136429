//! The word `live`.

ghost use Rattle.std.specs.Prelude.{◌≡◌, ◌≤◌, ◌<◌, ◌⊎◌, ◌==◌, ℕ, Some, None, if◌then◌else◌, IfOk, IfSome, IfNone, length, map, string_bytes};
ghost use Rattle.fleet_map.specs.Text.{number_of};

use crate::chapter_bytes::chapter_bytes_in;
use crate::ending::tell_end;
use crate::kept::{KeptFault, kept_chapter};
use crate::pipes::names_twice;
use crate::planner::manner_in;
use crate::recalling::recall_in;
use crate::said::fail;
use crate::talk::{TalkTexts, complain, grounds};
use crate::words::{Live, VERSION};
use fleet_grid::Grid;
use fleet_history::Chapter;
use fleet_live::{Journal, LiveEnds, LiveSettings, keep_live, read_period, resume_live};
use fleet_map::text::number_up_to;
use fleet_script::Head;
use fleet_talk::{ChapterSink, Ground, MOST_ROBOTS, ResumeFault};
use fleet_text::{InputFault, program_kit, write_whole};
use std::alloc::{Alloc, AllocError, Global};
use std::io::{Read, Write};
use std::sync::Wait;
use std::thread::Threads;
use std::time::Clock;

/// The option whose value cannot be read, or out of memory.
#[derive(Clone, Copy, Debug, PartialEq, Eq)]
enum BadWord {
    Robots,
    Clients,
    Period,
    /// `--tickers`, which programs before took.
    Tickers,
    KeepEvery,
    /// `--keep-every` without a folder to keep chapters in.
    NoFolder,
    /// `--journal` without one.
    NoJournal,
    ChapterBytes,
    Recall,
    /// `--service` without a period.
    NoPeriod,
    /// `--planner` with a word that names no planner.
    Planner,
    Pipes,
    /// A pipe is named twice.
    Twice,
    NoMemory,
}

impl From<AllocError> for BadWord {
    fn from(_error: AllocError) -> BadWord {
        BadWord::NoMemory
    }
}

/// The byte, or a blank where it is a comma.
fn blank_for_comma(byte: u8) -> u8
    ensures { result ≡ if byte == 44 then 32 else byte }
{
    if byte == b',' { b' ' } else { byte }
}

/// The words between commas, with a blank in place of each comma.
fn apart(alloc: Global, word: &[u8]) -> Result<Vec<u8>, AllocError>
    ensures { IfOk result (λ words. words.items ≡ map (λ b. if b == 44 then 32 else b) word.now) }
{
    word.iter()
        .map(|byte| blank_for_comma(*byte))
        .collect(alloc)
}

/// How many clients a word asks for: from 1 to 64.
fn clients_in(word: &[u8]) -> Option<u32>
    ensures some { IfSome result (λ n. (1 ≤ n) × (n ≤ 64) × (number_of word.now ≡ Some n)) }
    ensures none { IfNone result ((n : ℕ) → number_of word.now ≡ Some n → (n ≡ 0) ⊎ (64 < n)) }
{
    let number = number_up_to(word, 65)?;
    if 1 <= number && number <= 64 {
        Some(number as u32)
    } else {
        None
    }
}

/// How many clients the fleet has: as the head says, or the chapter that it goes on from; one if neither does.
fn client_count(head: &Head, kept: &Option<Chapter>) -> usize {
    match (head.clients, kept) {
        (Some(clients), _) => clients as usize,
        (None, Some(chapter)) => chapter.opening.clients.len(),
        (None, None) => 1,
    }
}

/// Whether each client that has pipes is there, and each pipe is named once.
fn check_pipes(pipes: &[String], clients: usize) -> Result<(), BadWord> {
    if pipes.len() > clients {
        return Err(BadWord::Pipes);
    }
    if names_twice(pipes) {
        return Err(BadWord::Twice);
    }
    Ok(())
}

/// Adds what the words say to the head.
fn add_words(alloc: Global, head: &mut Head, live: &Live) -> Result<(), BadWord> {
    if let Some(cells) = &live.robots {
        let cells = apart(alloc, cells.as_bytes())?;
        if !head.add_header(alloc, MOST_ROBOTS, b"robots", &cells)? {
            return Err(BadWord::Robots);
        }
    }
    if let Some(clients) = &live.clients {
        let count = clients.as_bytes();
        if clients_in(count).is_none() || !head.add_header(alloc, MOST_ROBOTS, b"clients", count)? {
            return Err(BadWord::Clients);
        }
    }
    Ok(())
}

/// The microseconds that a word says, if there is one. One that says no time is at fault.
fn time_in(word: &Option<String>, fault: BadWord) -> Result<Option<u32>, BadWord> {
    match word {
        None => Ok(None),
        Some(word) => match read_period(word.as_bytes()) {
            Some(micros) => Ok(Some(micros)),
            None => Err(fault),
        },
    }
}

/// How the fleet is kept.
fn settings_of(live: &Live) -> Result<LiveSettings, BadWord> {
    let period = time_in(&live.period, BadWord::Period)?;
    if live.tickers.is_some() {
        return Err(BadWord::Tickers);
    }
    let keep_every = time_in(&live.keep_every, BadWord::KeepEvery)?;
    if keep_every.is_some() && live.traces.is_none() {
        return Err(BadWord::NoFolder);
    }
    if live.journal && live.traces.is_none() {
        return Err(BadWord::NoJournal);
    }
    let Some(chapter_bytes) = chapter_bytes_in(&live.chapter_bytes) else {
        return Err(BadWord::ChapterBytes);
    };
    if recall_in(live).is_none() {
        return Err(BadWord::Recall);
    }
    if live.service && period.is_none() {
        return Err(BadWord::NoPeriod);
    }
    let Some(manner) = manner_in(&live.planner) else {
        return Err(BadWord::Planner);
    };
    Ok(LiveSettings {
        period,
        keep_every,
        chapter_bytes,
        watch: live.watch,
        service: live.service,
        roomy: live.roomy,
        manner,
        version: VERSION,
    })
}

/// Prints which option is wrong. Returns the status.
fn complain_of_word<E: Write>(word: BadWord, error: &mut E) -> u8 {
    let text = match word {
        BadWord::Robots => "error: invalid value for '--robots <CELLS>'\n",
        BadWord::Clients => "error: invalid value for '--clients <N>'\n",
        BadWord::Period => "error: invalid value for '--period <TIME>'\n",
        BadWord::Tickers => {
            "error: '--tickers' is no word any more: turns go on while a chapter is written\n"
        }
        BadWord::KeepEvery => "error: invalid value for '--keep-every <TIME>'\n",
        BadWord::NoFolder => "error: '--keep-every' needs '--traces <DIR>'\n",
        BadWord::NoJournal => "error: '--journal' needs '--traces <DIR>'\n",
        BadWord::ChapterBytes => "error: invalid value for '--chapter-bytes <N>'\n",
        BadWord::Recall => "error: invalid value for '--recall <N>'\n",
        BadWord::NoPeriod => "error: '--service' needs '--period <TIME>'\n",
        BadWord::Planner => "error: invalid value for '--planner <NAME>'\n",
        BadWord::Pipes => "error: more '--client <IN,OUT>' than clients\n",
        BadWord::Twice => "error: a pipe is named twice for '--client <IN,OUT>'\n",
        BadWord::NoMemory => return fail(InputFault::NoMemory, error),
    };
    write_whole(error, text.as_bytes());
    2
}

/// Keeps a fleet with the hooks of `errands run`, for as many robots as it may have. It goes on from the chapter, if
/// there is one.
fn keep_with_hooks<
    R: Alloc<A = Global> + Clock + Threads + Sync + Wait + Copy + Send + Drop + 'static,
    I: Read + Send + Drop + 'static,
    W: Write + Send + Drop + 'static,
    P: Read + Send + Drop + 'static,
    Q: Write + Send + Drop + 'static,
    E: Write + Send + Drop + 'static,
    S: ChapterSink + Send + Drop + 'static,
    J: Journal + Drop,
>(
    rt: &R,
    (grid, head): (Grid, Head),
    kept: Option<Chapter>,
    settings: LiveSettings,
    ends: LiveEnds<I, W, P, Q, E, S, J>,
) -> Result<bool, ResumeFault> {
    let kit = program_kit!(rt.alloc(), MOST_ROBOTS);
    let ground = Ground { grid, kit, head };
    match kept {
        Some(chapter) => resume_live(rt, ground, chapter, settings, ends),
        None => match keep_live(rt, ground, settings, ends) {
            Ok(limited) => Ok(limited),
            Err(fault) => Err(ResumeFault::Talk(fault)),
        },
    }
}

/// The chapter that a fleet goes on from, if a file is given.
fn chapter_in(alloc: Global, texts: TalkTexts<'_>) -> Result<Option<Chapter>, KeptFault> {
    match texts.kept {
        Some(kept) => Ok(Some(kept_chapter(alloc, kept)?)),
        None => Ok(None),
    }
}

/// Keeps a fleet on the map in real time, or on demand. It goes on from the chapter of a file, if one is given. Returns
/// the status: 0 good, 2 a word is wrong, 3 a line could not be read, or an answer or a chapter not written, 4 the map,
/// 5 the script or the opening, 6 the chapter to go on from is refused, 7 out of memory, 8 a limit was met.
pub fn run_live<
    R: Alloc<A = Global> + Clock + Threads + Sync + Wait + Copy + Send + Drop + 'static,
    I: Read + Send + Drop + 'static,
    W: Write + Send + Drop + 'static,
    P: Read + Send + Drop + 'static,
    Q: Write + Send + Drop + 'static,
    E: Write + Send + Drop + 'static,
    S: ChapterSink + Send + Drop + 'static,
    J: Journal + Drop,
    F: Write,
>(
    rt: &R,
    texts: TalkTexts<'_>,
    live: &Live,
    ends: LiveEnds<I, W, P, Q, E, S, J>,
    error: &mut F,
) -> u8
    requires { length texts.script.now ≤ 16777216 }
{
    let alloc = rt.alloc();
    let settings = match settings_of(live) {
        Ok(settings) => settings,
        Err(word) => return complain_of_word(word, error),
    };
    let (grid, head) = match grounds(alloc, texts) {
        Ok(grounds) => grounds,
        Err(complaint) => return complain(alloc, complaint, error),
    };
    let mut head = head;
    if let Err(word) = add_words(alloc, &mut head, live) {
        return complain_of_word(word, error);
    }
    let kept = match chapter_in(alloc, texts) {
        Ok(kept) => kept,
        Err(fault) => return tell_end(alloc, texts, Err(fault), error),
    };
    if let Err(word) = check_pipes(&live.pipes, client_count(&head, &kept)) {
        return complain_of_word(word, error);
    }
    let ended = match keep_with_hooks(rt, (grid, head), kept, settings, ends) {
        Ok(limited) => Ok(limited),
        Err(fault) => Err(KeptFault::Resume(fault)),
    };
    tell_end(alloc, texts, ended, error)
}
