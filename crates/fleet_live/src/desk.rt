//! What a fleet is kept with: its conversations, and its threads.

ghost use Rattle.std.specs.Prelude.{◌≡◌, ◌≤◌, [], IfOk};
ghost use Rattle.rtrb.specs.Ring.{sent};
ghost use Rattle.fleet_history.specs.History.{clients};
ghost use Rattle.fleet_world.specs.Keeps.{talk};
ghost use Rattle.live_fleet.specs.Party.{door_shown, stage_of};
ghost use Rattle.live_fleet.specs.Recalling.{AreBegun};
ghost use Rattle.fleet_live.specs.Begin.{AreNew, first_stage, speakers_at};
ghost use Rattle.fleet_live.specs.Logged.{log_view};

use crate::archiving::start_keeper;
use crate::batch::Batch;
use crate::conversations::{conversations_of, reports_of, speakers_of};
use crate::counts::Counts;
use crate::events::LiveEvents;
use crate::listeners::LiveListeners;
use crate::logging::Log;
use crate::pace::Pace;
use crate::report_out::ReportOut;
use crate::reports::Reports;
use crate::shelf::{Shelf, SoundChapters};
use crate::source::{Rules, Source};
use crate::text_out::TextOut;
use crate::wake::Wake;
use fleet_core::World;
use fleet_talk::{ChapterSink, Door, counted};
use fleet_world::Session;
use live_fleet::{Outboxes, Party};
use live_parts::{Archive, ChapterSize, Journal, LiveEnds, LiveSettings, Recalls};
use rtrb::RingBuffer;
use std::alloc::{Alloc, AllocError, Global};
use std::io::{Read, Write};
use std::sync::{Arc, Wait};
use std::thread::{JoinHandle, Threads};
use std::time::Clock;

/// From this many cells on fields are searched between turns. On a smaller map a turn searches a field sooner than it
/// would look through those that are kept.
const LARGE: u32 = 65_536;

/// How many chapters may be on their way to the thread that keeps them.
const MOST_CHAPTERS: usize = 16;

/// How a fleet is kept, and how many cells its map has.
#[derive(Clone, Copy)]
pub(crate) struct Site {
    pub(crate) settings: LiveSettings,
    pub(crate) cells: u32,
}

/// What a fleet is kept with, after its threads were started.
#[derive(Drop)]
pub(crate) struct Desk<S, J> {
    pub(crate) party: Party,
    pub(crate) out: Outboxes,
    pub(crate) events: LiveEvents,
    pub(crate) listeners: LiveListeners<S, J>,
    /// The thread that writes the first conversation's output.
    pub(crate) writer: Option<JoinHandle<()>>,
}

fn shared<T>(alloc: Global, value: T) -> Result<Arc<T>, AllocError>
where
    T: Drop,
{
    match Arc::new(alloc, value) {
        Ok(shared) => Ok(shared),
        Err(_) => Err(AllocError),
    }
}

/// The counts of a fleet that was just opened, or goes on.
fn counts_of(alloc: Global, world: &World, cells: u32) -> Result<Counts, AllocError> {
    let (robots, clients) = (counted(world.core.robots()), counted(world.core.clients()));
    let size = ChapterSize::new(alloc, robots, clients, cells)?;
    Ok(Counts::new(world, size))
}

/// Where the fleet's events come from.
fn source_of<R: Alloc<A = Global> + Clock>(
    rt: &R,
    world: &World,
    site: Site,
    (wake, shelf): (&Arc<Wake>, &Arc<Shelf>),
    (errors, figures): (ReportOut, Option<ReportOut>),
) -> Result<Source, AllocError> {
    let Site { settings, cells } = site;
    let counts = counts_of(rt.alloc(), world, cells)?;
    let Some(pace) = Pace::new(rt, &settings, figures.is_some()) else {
        return Err(AllocError);
    };
    Ok(Source {
        places: Vec::new(rt.alloc()),
        wake: Arc::try_clone(wake)?,
        shelf: Arc::try_clone(shelf)?,
        pace,
        counts,
        reports: Reports::new(rt, world, errors, figures, settings.version),
        rules: Rules {
            is_paced: settings.period.is_some(),
            is_service: settings.service,
            searches: settings.period.is_some() && cells >= LARGE,
            chapter_bytes: settings.chapter_bytes,
        },
        batch: Batch::FIRST,
        turn: None,
        ticks: world.clock(),
        first_tick: world.clock(),
        unkept: 0,
        stop: None,
        left_at: None,
    })
}

/// Where the events of a fleet in this world come from, what wakes the loop, and what it shares with the thread that
/// keeps chapters. Starts the threads that write reports.
fn new_source<
    R: Alloc<A = Global> + Clock + Threads + Wait + Copy + Send + Drop + 'static,
    E: Write + Send + Drop + 'static,
>(
    rt: &R,
    world: &World,
    site: Site,
    counts: E,
    figures: Option<E>,
) -> Result<(Source, Arc<Wake>, Arc<Shelf>), AllocError> {
    let alloc = rt.alloc();
    let wake = shared(alloc, Wake::new())?;
    let shelf = shared(alloc, Shelf::new(alloc))?;
    let reports = reports_of(rt, &wake, counts, figures)?;
    let source = source_of(rt, world, site, (&wake, &shelf), reports)?;
    Ok((source, wake, shelf))
}

/// How many clients a fleet has.
fn client_count(session: &Session) -> u32
    requires { 0 ≤ session.now.world.core.number }
    ensures { result ≡ clients session.now.world.core.history }
{
    // Its contract says that there are few.
    let _chapter = session.world.chapter();
    session.world.clients() as u32
}

/// The fleet with its conversations, before the first event.
pub(crate) fn party_of(
    alloc: Global,
    session: Session,
    before: (Door, Recalls),
    pipes: usize,
    settings: LiveSettings,
) -> Result<(Party, Outboxes), AllocError>
    // Of each call: only a call with a condition may hand on closures.
    requires { 0 ≤ session.world.core.number }
    ensures stage { IfOk result (λ r. stage_of r.0 r.1 ≡ first_stage (talk session) r.0.fleet.recalls (door_shown before.0) (speakers_at settings pipes session.world.core.history)) }
    ensures begun { IfOk result (λ r. AreBegun session.world.core.history before.1 r.0.fleet.recalls) }
{
    let (door, recalls) = before;
    let clients = client_count(&session);
    let paced = settings.period.is_some();
    let speakers = speakers_of(alloc, pipes, clients, paced, settings.watch)?;
    let out = Outboxes::new(alloc, speakers.len())?;
    let party = Party::new(alloc, session, speakers, door, recalls)?;
    Ok((party, out))
}

/// Where what is said goes. Starts the thread that keeps chapters.
fn listeners_of<
    R: Alloc<A = Global> + Clock + Threads + Wait + Copy + Send + Drop + 'static,
    S: ChapterSink + Send + Drop + 'static,
    J: Journal + Drop,
>(
    rt: &R,
    kept: (S, Log<J>),
    texts: Vec<TextOut>,
    wake: Arc<Wake>,
    shelf: Arc<Shelf>,
    paced: bool,
) -> Result<LiveListeners<S, J>, AllocError>
    ensures texts { IfOk result (λ l. l.texts ≡ texts) }
    ensures chapters { IfOk result (λ l. sent l.chapters ≡ []) }
    ensures log { IfOk result (λ l. l.log ≡ kept.1) }
{
    let (sink, log) = kept;
    let (chapters, end) = RingBuffer::with_protocol::<Global, SoundChapters>(
        rt.alloc(),
        MOST_CHAPTERS,
    )?;
    let keeper = start_keeper(rt, Archive::new(rt.alloc(), sink), end, &shelf, &wake)?;
    Ok(LiveListeners {
        texts,
        chapters,
        shelf,
        log,
        wake,
        keeper: Some(keeper),
        last: None,
        paced,
    })
}

/// Starts all threads of a fleet in this world. Returns the loop's two ends, and the thread that writes the first
/// conversation's output.
fn start_all<
    R: Alloc<A = Global> + Clock + Threads + Sync + Wait + Copy + Send + Drop + 'static,
    I: Read + Send + Drop + 'static,
    W: Write + Send + Drop + 'static,
    P: Read + Send + Drop + 'static,
    Q: Write + Send + Drop + 'static,
    E: Write + Send + Drop + 'static,
    S: ChapterSink + Send + Drop + 'static,
    J: Journal + Drop,
>(
    rt: &R,
    world: &World,
    site: Site,
    ends: LiveEnds<I, W, P, Q, E, S, J>,
) -> Result<(LiveEvents, LiveListeners<S, J>, Option<JoinHandle<()>>), AllocError>
    ensures texts { IfOk result (λ r. AreNew r.1.texts.items) }
    ensures chapters { IfOk result (λ r. sent r.1.chapters ≡ []) }
    ensures log { IfOk result (λ r. log_view J.logged r.1.log.journal r.1.log.number r.1.log.entries ≡ log_view J.logged ends.journal world.now.core.number 0) }
    ensures taken { IfOk result (λ r. r.0.taken.items ≡ []) }
{
    let (mut source, wake, shelf) = new_source(rt, world, site, ends.counts, ends.figures)?;
    let all = conversations_of(rt, &wake, ends.input, ends.output, ends.pipes)?;
    source.places = all.places;
    let paced = site.settings.period.is_some();
    let log = Log::new(ends.journal, world.chapter().number);
    let listeners = listeners_of(rt, (ends.sink, log), all.texts, wake, shelf, paced)?;
    let events = LiveEvents::new(rt.alloc(), source);
    Ok((events, listeners, all.first))
}

/// Starts all threads.
pub(crate) fn begin<
    R: Alloc<A = Global> + Clock + Threads + Sync + Wait + Copy + Send + Drop + 'static,
    I: Read + Send + Drop + 'static,
    W: Write + Send + Drop + 'static,
    P: Read + Send + Drop + 'static,
    Q: Write + Send + Drop + 'static,
    E: Write + Send + Drop + 'static,
    S: ChapterSink + Send + Drop + 'static,
    J: Journal + Drop,
>(
    rt: &R,
    party: Party,
    out: Outboxes,
    site: Site,
    ends: LiveEnds<I, W, P, Q, E, S, J>,
) -> Result<Desk<S, J>, AllocError>
    requires { 0 ≤ party.fleet.session.world.core.number }
    ensures stage { IfOk result (λ d. stage_of d.party d.out ≡ stage_of party out) }
    ensures texts { IfOk result (λ d. AreNew d.listeners.texts.items) }
    ensures chapters { IfOk result (λ d. sent d.listeners.chapters ≡ []) }
    ensures taken { IfOk result (λ d. d.events.taken.items ≡ []) }
    ensures log { IfOk result (λ d. log_view J.logged d.listeners.log.journal d.listeners.log.number d.listeners.log.entries ≡ log_view J.logged ends.journal party.fleet.session.world.core.number 0) }
{
    let (events, listeners, writer) = start_all(rt, &party.fleet.session.world, site, ends)?;
    Ok(Desk {
        party,
        out,
        events,
        listeners,
        writer,
    })
}
