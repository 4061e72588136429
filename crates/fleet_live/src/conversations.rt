//! The conversations of a fleet, with their threads.

ghost use Rattle.std.specs.Prelude.{◌≡◌, ◌+◌, ◌<◌, ◌^◌, [], ◌∷◌, ◌++◌, IfOk, OnOk, min};
ghost use Rattle.rtrb.specs.Ring.{sent};
ghost use Rattle.fleet_live.specs.Begin.{AreNew, IsNew, clients_between, on_pipe, operator, speakers_for};

use crate::lines_in::LinesIn;
use crate::link::Link;
use crate::place::Place;
use crate::reading::start_reader;
use crate::report_out::ReportOut;
use crate::text_out::TextOut;
use crate::wake::Wake;
use crate::writing::start_writer;
use live_fleet::{Clients, MOST_TEXT, Speaker};
use live_parts::{Pipes, Rights};
use rtrb::{Consumer, Producer, RingBuffer};
use std::alloc::{Alloc, AllocError, Global};
use std::io::{Read, Write};
use std::sync::{Arc, Wait};
use std::thread::{JoinHandle, Threads};

/// How many bytes of a conversation are written at most at once.
const PIECE: usize = 16_384;

/// The loop's ends of all conversations, and the thread that writes the first one's output.
#[derive(Drop)]
pub(crate) struct Conversations {
    pub(crate) places: Vec<Place>,
    pub(crate) texts: Vec<TextOut>,
    pub(crate) first: Option<JoinHandle<()>>,
}

fn new_link(alloc: Global) -> Result<Arc<Link>, AllocError> {
    match Arc::new(alloc, Link::new()) {
        Ok(link) => Ok(link),
        Err(_) => Err(AllocError),
    }
}

/// A ring of as many bytes as may wait for a conversation.
fn new_ring(alloc: Global) -> Result<(Producer<u8>, Consumer<u8>), AllocError>
    ensures { IfOk result (λ ring. sent ring.0 ≡ []) }
{
    RingBuffer::new(alloc, MOST_TEXT)
}

/// Starts the threads of a conversation. Returns the loop's ends, and the thread that writes.
fn start<
    R: Alloc<A = Global> + Threads + Wait + Copy + Send + Drop + 'static,
    I: Read + Send + Drop + 'static,
    W: Write + Send + Drop + 'static,
>(
    rt: &R,
    wake: &Arc<Wake>,
    input: I,
    output: W,
) -> Result<(TextOut, Place, JoinHandle<()>), AllocError>
    ensures { IfOk result (λ r. IsNew r.0) }
{
    let alloc = rt.alloc();
    let link = new_link(alloc)?;
    let (lines_end, lines) = new_ring(alloc)?;
    let (texts, texts_end) = new_ring(alloc)?;
    let writer = start_writer(rt, output, texts_end, PIECE, (&link, wake))?;
    start_reader(rt, input, lines_end, &link, wake)?;
    let own = Arc::try_clone(&link)?;
    let place = Place::new(LinesIn::new(alloc, lines, Arc::try_clone(&link)?)?, link);
    Ok((TextOut::new(alloc, texts, own), place, writer))
}

impl Conversations {
    /// None, with room for this number.
    fn new(alloc: Global, count: usize) -> Result<Conversations, AllocError>
        ensures { IfOk result (λ c. c.texts.items ≡ []) }
    {
        Ok(Conversations {
            places: Vec::with_capacity(alloc, count)?,
            texts: Vec::with_capacity(alloc, count)?,
            first: None,
        })
    }

    /// Adds a conversation whose threads were started.
    fn push(
        &mut self,
        text: TextOut,
        place: Place,
        writer: JoinHandle<()>,
    ) -> Result<(), AllocError>
        ensures { OnOk result (self.new.texts.items ≡ self.old.texts.items ++ text ∷ []) }
    {
        let Ok(()) = self.texts.push(text) else {
            return Err(AllocError);
        };
        let Ok(()) = self.places.push(place) else {
            return Err(AllocError);
        };
        if self.first.is_none() {
            self.first = Some(writer);
        }
        Ok(())
    }

    /// Adds a conversation, and starts its threads.
    fn add<
        R: Alloc<A = Global> + Threads + Wait + Copy + Send + Drop + 'static,
        I: Read + Send + Drop + 'static,
        W: Write + Send + Drop + 'static,
    >(&mut self, rt: &R, wake: &Arc<Wake>, input: I, output: W) -> Result<(), AllocError>
        requires { AreNew self.old.texts.items }
        ensures { OnOk result (AreNew self.new.texts.items) }
    {
        let (text, place, writer) = start(rt, wake, input, output)?;
        self.push(text, place, writer)
    }
}

/// Starts the thread that writes reports.
fn start_reports<
    R: Alloc<A = Global> + Threads + Wait + Copy + Send + Drop + 'static,
    E: Write + Send + Drop + 'static,
>(rt: &R, wake: &Arc<Wake>, output: E) -> Result<ReportOut, AllocError> {
    let alloc = rt.alloc();
    let link = new_link(alloc)?;
    let (ring, end) = new_ring(alloc)?;
    // A text of figures is written whole.
    let _writer = start_writer(rt, output, end, MOST_TEXT, (&link, wake))?;
    Ok(ReportOut { ring, link })
}

/// Starts the threads of all conversations.
pub(crate) fn conversations_of<
    R: Alloc<A = Global> + Threads + Wait + Copy + Send + Drop + 'static,
    I: Read + Send + Drop + 'static,
    W: Write + Send + Drop + 'static,
    P: Read + Send + Drop + 'static,
    Q: Write + Send + Drop + 'static,
>(
    rt: &R,
    wake: &Arc<Wake>,
    input: I,
    output: W,
    pipes: Vec<Pipes<P, Q>>,
) -> Result<Conversations, AllocError>
    ensures { IfOk result (λ c. AreNew c.texts.items) }
{
    let mut all = Conversations::new(rt.alloc(), pipes.len().saturating_add(1))?;
    all.add(rt, wake, input, output)?;
    for one in pipes {
        all.add(rt, wake, one.input, one.output)?;
    }
    Ok(all)
}

/// Starts the threads that write reports.
pub(crate) fn reports_of<
    R: Alloc<A = Global> + Threads + Wait + Copy + Send + Drop + 'static,
    E: Write + Send + Drop + 'static,
>(
    rt: &R,
    wake: &Arc<Wake>,
    counts: E,
    figures: Option<E>,
) -> Result<(ReportOut, Option<ReportOut>), AllocError> {
    let errors = start_reports(rt, wake, counts)?;
    match figures {
        Some(output) => Ok((errors, Some(start_reports(rt, wake, output)?))),
        None => Ok((errors, None)),
    }
}

/// The number, or the greatest that it may be.
fn up_to(number: usize, most: u32) -> u32
    ensures { result ≡ min number most }
{
    number.min(most as usize) as u32
}

/// Of this many clients, those from one number on, below another.
fn clients_between(all: u32, first: usize, end: usize) -> Clients
    ensures { result ≡ clients_between all first end }
{
    Clients {
        first: up_to(first, all),
        end: up_to(end, all),
    }
}

/// The first conversation: it speaks for the clients that have no pipes.
fn operator(pipes: usize, clients: u32, paced: bool, watch: bool) -> Speaker
    ensures { result ≡ operator pipes clients paced watch }
{
    let rights = Rights {
        is_operator: true,
        ticks: !paced,
    };
    Speaker::new(
        rights,
        clients_between(clients, pipes, clients as usize),
        watch,
    )
}

/// A conversation over pipes: it speaks for the client of its number.
fn on_pipe(clients: u32, at: usize) -> Speaker
    requires { at + 1 < 2 ^ 64 }
    ensures { result ≡ on_pipe clients at }
{
    let rights = Rights {
        is_operator: false,
        ticks: false,
    };
    Speaker::new(rights, clients_between(clients, at, at + 1), false)
}

/// Who speaks for whom: the first conversation for the clients that have no pipes, and each of the others for the one of
/// its number.
pub(crate) fn speakers_of(
    alloc: Global,
    pipes: usize,
    clients: u32,
    paced: bool,
    watch: bool,
) -> Result<Vec<Speaker>, AllocError>
    ensures { IfOk result (λ speakers. speakers.items ≡ speakers_for pipes clients paced watch) }
{
    let Some(count) = pipes.checked_add(1) else {
        return Err(AllocError);
    };
    let mut speakers = Vec::with_capacity(alloc, count)?;
    speakers.push_reserved(operator(pipes, clients, paced, watch));
    for at in 0..pipes {
        speakers.push_reserved(on_pipe(clients, at));
    }
    Ok(speakers)
}
