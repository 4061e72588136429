//! Text for the error output, or figures, on its way to the writer.

use crate::link::Link;
use live_fleet::MOST_TEXT;
use rtrb::Producer;
use std::sync::{Arc, Wait};

/// The loop's end of a ring whose reader nobody waits for.
#[derive(Drop)]
pub(crate) struct ReportOut {
    pub(crate) ring: Producer<u8>,
    pub(crate) link: Arc<Link>,
}

impl ReportOut {
    /// Says a text if there is room, and leaves it out otherwise.
    pub(crate) fn say<R: Wait>(&mut self, rt: &R, text: &[u8]) {
        if self.ring.push_entire_slice(text).is_ok() {
            self.link.wake_writer(rt);
        }
    }

    /// Says a text, unless another waits to be written.
    pub(crate) fn say_alone<R: Wait>(&mut self, rt: &R, text: &[u8]) {
        if self.ring.slots() >= MOST_TEXT {
            self.say(rt, text);
        }
    }
}
