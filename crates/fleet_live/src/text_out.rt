//! The loop's end of a writer's ring.

ghost use Rattle.std.specs.Prelude.{◌≤◌, vec_len};

use crate::link::Link;
use rtrb::Producer;
use std::sync::Arc;

/// What a conversation is told, on its way to the writer. Its text keeps what waits until the writer has taken it.
#[derive(Drop)]
pub(crate) struct TextOut {
    pub(crate) ring: Producer<u8>,
    pub(crate) link: Arc<Link>,
    /// How many bytes of the text, from the first on, are in the ring.
    pub(crate) ahead: usize,
    /// What comes after the ring where what is told is kept though there is no room, and how many bytes of it are in
    /// the ring.
    pub(crate) over: Vec<u8>,
    pub(crate) over_ahead: usize,
    ghost within_over: { over_ahead ≤ vec_len over },
}
