//! What the loop shares with the threads of a conversation.

use crate::wake::Wake;
use live_parts::Stop;
use std::mem;
use std::sync::atomic::{AtomicBool, Ordering};
use std::sync::{Mutex, Wait};

/// What the loop shares with a conversation's reader and writer, besides their rings.
#[derive(Drop)]
pub(crate) struct Link {
    /// Wakes the reader, which may wait for room in its ring.
    reader: Wake,
    /// Whether the reader waits for room.
    stalls: AtomicBool,
    /// Why no line follows those in the ring.
    ended: Mutex<Option<Stop>>,
    /// Wakes the writer, which may wait for text.
    writer: Wake,
    /// Whether the loop waits until the writer has taken some.
    wants_room: AtomicBool,
    /// Whether what is told is kept though there is no room.
    hurries: AtomicBool,
    /// Whether some of what was told has no room in the writer's ring yet.
    is_behind: AtomicBool,
    /// Whether nothing more is told.
    is_done: AtomicBool,
    /// Whether the reader of the output went away.
    is_gone: AtomicBool,
    /// Whether the writer has ended.
    is_written: AtomicBool,
}

impl Link {
    pub(crate) fn new() -> Link {
        Link {
            reader: Wake::new(),
            stalls: AtomicBool::new(false),
            ended: Mutex::new(None),
            writer: Wake::new(),
            wants_room: AtomicBool::new(false),
            hurries: AtomicBool::new(false),
            is_behind: AtomicBool::new(false),
            is_done: AtomicBool::new(false),
            is_gone: AtomicBool::new(false),
            is_written: AtomicBool::new(false),
        }
    }

    /// Says that the reader waits for room. It looks once more before it sleeps.
    pub(crate) fn stall(&self) {
        self.stalls.store(true, Ordering::SeqCst);
    }

    /// Lets the reader sleep until there is room.
    pub(crate) fn wait_for_room<R: Wait>(&self, rt: &R) {
        self.reader.sleep(rt);
    }

    /// Wakes the reader if it waits for room.
    pub(crate) fn make_room<R: Wait>(&self, rt: &R) {
        if self.stalls.swap(false, Ordering::SeqCst) {
            self.reader.ring(rt);
        }
    }

    /// Says why no line follows.
    pub(crate) fn end<R: Wait>(&self, rt: &R, stop: Stop) {
        let mut held = self.ended.lock(rt);
        *held = Some(stop);
        mem::drop(held);
    }

    /// Why no line follows, if none does.
    pub(crate) fn ended<R: Wait>(&self, rt: &R) -> Option<Stop> {
        let held = self.ended.lock(rt);
        *held
    }

    /// Wakes the writer.
    pub(crate) fn wake_writer<R: Wait>(&self, rt: &R) {
        self.writer.ring(rt);
    }

    /// Lets the writer sleep until there is text, or nothing follows.
    pub(crate) fn wait_for_text<R: Wait>(&self, rt: &R) {
        self.writer.sleep(rt);
    }

    /// Says that the loop waits for room. It looks once more before it sleeps.
    pub(crate) fn want_room(&self) {
        self.wants_room.store(true, Ordering::SeqCst);
    }

    /// Whether the loop waited for room. From now on it does not.
    pub(crate) fn has_wanted_room(&self) -> bool {
        self.wants_room.swap(false, Ordering::SeqCst)
    }

    /// From now on what is told is kept though there is no room.
    pub(crate) fn hurry(&self) {
        self.hurries.store(true, Ordering::SeqCst);
    }

    pub(crate) fn hurries(&self) -> bool {
        self.hurries.load(Ordering::SeqCst)
    }

    /// Notes whether some of what was told has no room in the ring yet.
    pub(crate) fn note_behind(&self, is_behind: bool) {
        self.is_behind.store(is_behind, Ordering::SeqCst);
    }

    pub(crate) fn is_behind(&self) -> bool {
        self.is_behind.load(Ordering::SeqCst)
    }

    /// Says that nothing more is told.
    pub(crate) fn finish<R: Wait>(&self, rt: &R) {
        if !self.is_done.swap(true, Ordering::SeqCst) {
            self.writer.ring(rt);
        }
    }

    pub(crate) fn is_done(&self) -> bool {
        self.is_done.load(Ordering::SeqCst)
    }

    /// Says that the reader of the output went away.
    pub(crate) fn leave(&self) {
        self.is_gone.store(true, Ordering::SeqCst);
    }

    pub(crate) fn is_gone(&self) -> bool {
        self.is_gone.load(Ordering::SeqCst)
    }

    /// Says that the writer has ended.
    pub(crate) fn note_written(&self) {
        self.is_written.store(true, Ordering::SeqCst);
    }

    pub(crate) fn is_written(&self) -> bool {
        self.is_written.load(Ordering::SeqCst)
    }
}
