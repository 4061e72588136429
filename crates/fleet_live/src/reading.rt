//! A reader's thread: it splits lines, and nothing else.

use crate::link::Link;
use crate::wake::Wake;
use fleet_talk::{LineFault, MOST_LINE, read_line};
use live_parts::Stop;
use rtrb::Producer;
use std::alloc::{Alloc, AllocError, Global};
use std::io::{BufReader, Read};
use std::sync::{Arc, Wait};
use std::thread::{self, Threads};

/// The most bytes that are read at once.
const PIECE: usize = 65_536;

/// Puts a line into the ring, once there is room for it.
fn put<R: Wait>(rt: &R, ring: &mut Producer<u8>, link: &Link, line: &[u8]) {
    for _ in rt.forever() {
        if ring.push_entire_slice(line).is_ok() {
            return;
        }
        link.stall();
        if ring.push_entire_slice(line).is_ok() {
            return;
        }
        link.wait_for_room(rt);
    }
    unreachable!()
}

/// Puts all lines into the ring, each with its line feed, and returns why none follows.
fn put_all<R: Wait, I: Read>(
    rt: &R,
    alloc: Global,
    input: &mut BufReader<I>,
    ring: &mut Producer<u8>,
    (link, wake): (&Link, &Wake),
) -> Stop {
    let mut line = Vec::new(alloc);
    for _ in rt.forever() {
        match read_line(input, MOST_LINE + 1, &mut line) {
            Ok(true) => {}
            Ok(false) => return Stop::Quit,
            Err(LineFault::Read) => return Stop::Input,
            Err(LineFault::NoMemory) => return Stop::NoMemory,
        }
        if line.push(b'\n').is_err() {
            return Stop::NoMemory;
        }
        put(rt, ring, link, &line);
        wake.ring(rt);
    }
    unreachable!()
}

/// Reads lines until none follows, and says why.
fn read_all<R: Wait, I: Read + Drop>(
    rt: &R,
    alloc: Global,
    input: I,
    ring: Producer<u8>,
    (link, wake): (&Link, &Wake),
) {
    let mut ring = ring;
    let stop = match BufReader::with_capacity(alloc, PIECE, input) {
        Ok(mut input) => put_all(rt, alloc, &mut input, &mut ring, (link, wake)),
        Err(_) => Stop::NoMemory,
    };
    link.end(rt, stop);
    wake.ring(rt);
}

/// Starts the thread that reads a conversation's lines. It may be in the middle of a read when the fleet has ended, so
/// nobody waits for it.
pub(crate) fn start_reader<
    R: Alloc<A = Global> + Threads + Wait + Copy + Send + Drop + 'static,
    I: Read + Send + Drop + 'static,
>(
    rt: &R,
    input: I,
    ring: Producer<u8>,
    link: &Arc<Link>,
    wake: &Arc<Wake>,
) -> Result<(), AllocError> {
    let alloc = rt.alloc();
    let (link, wake, own) = (Arc::try_clone(link)?, Arc::try_clone(wake)?, *rt);
    match thread::spawn(
        rt,
        move || read_all(&own, alloc, input, ring, (&link, &wake)),
    ) {
        Ok(_reader) => Ok(()),
        Err(_) => Err(AllocError),
    }
}
