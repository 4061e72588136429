//! A writer's thread: it writes, and nothing else.

use crate::link::Link;
use crate::wake::Wake;
use fleet_text::write_whole;
use rtrb::Consumer;
use std::alloc::{Alloc, AllocError, Global};
use std::io::Write;
use std::sync::{Arc, Wait};
use std::thread::{self, JoinHandle, Threads};

/// Writes what is in the ring, until nothing follows. If the reader of the output went away, the text is
/// still taken.
fn write_on<R: Wait, W: Write>(
    rt: &R,
    piece: &mut [u8],
    output: &mut W,
    ring: &mut Consumer<u8>,
    (link, wake): (&Link, &Wake),
) {
    for _ in rt.forever() {
        // Before a look at the ring: if nothing more is told, the last text is there.
        let is_done = link.is_done();
        let count = ring.pop_partial_slice(piece).min(piece.len());
        if count == 0 {
            if is_done {
                return;
            }
            link.wait_for_text(rt);
        } else {
            if link.has_wanted_room() {
                wake.ring(rt);
            }
            if !link.is_gone() && !write_whole(output, &piece[..count]) {
                link.leave();
                wake.ring(rt);
            }
        }
    }
    unreachable!()
}

/// Writes all that is told, and says that it has ended.
fn write_all<R: Wait, W: Write>(
    rt: &R,
    piece: Vec<u8>,
    output: &mut W,
    ring: Consumer<u8>,
    (link, wake): (&Link, &Wake),
) {
    let (mut piece, mut ring) = (piece, ring);
    write_on(rt, &mut piece, output, &mut ring, (link, wake));
    link.note_written();
    wake.ring(rt);
}

/// Starts the thread that writes what is told, at most this many bytes at once.
pub(crate) fn start_writer<
    R: Alloc<A = Global> + Threads + Wait + Copy + Send + Drop + 'static,
    W: Write + Send + Drop + 'static,
>(
    rt: &R,
    output: W,
    ring: Consumer<u8>,
    most: usize,
    (link, wake): (&Arc<Link>, &Arc<Wake>),
) -> Result<JoinHandle<()>, AllocError> {
    let piece = vec![in rt.alloc(); 0u8; most]?;
    let (link, wake, own) = (Arc::try_clone(link)?, Arc::try_clone(wake)?, *rt);
    let writer = thread::spawn(rt, move || {
        let mut output = output;
        write_all(&own, piece, &mut output, ring, (&link, &wake))
    });
    match writer {
        Ok(writer) => Ok(writer),
        Err(_) => Err(AllocError),
    }
}
