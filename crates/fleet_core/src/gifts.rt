//! Gives of a core, and the room in its clients' mailboxes.

ghost use Rattle.std.specs.Prelude.{◌≡◌, ◌+◌, ◌<◌, ◌≤◌, ◌^◌, OnOk, OnErr, length, slice_get};
ghost use Rattle.fleet_history.specs.History.{clients, owed, taken_count};
ghost use Rattle.fleet_core.specs.Core.{pending, without_first, widened};

use crate::kernel::Core;
use fleet_book::Notice;
use std::alloc::{AllocError, Allocator};

impl<A: Allocator + Copy> Core<A> {
    pub fn next_notice(&self, client: u32) -> Option<Notice>
        requires { client < clients self.now.history }
        ensures { result ≡ slice_get (pending self.now client).notices 0 }
    {
        self.mailboxes.first(client)
    }

    /// Lets a client's mailbox hold this many more notices and unfinished errands, at most 2^60 in all.
    pub fn widen(&mut self, client: u32, extra: u64) -> Result<(), AllocError>
        requires client { client < clients self.old.history }
        requires small { (pending self.old client).limit + extra ≤ 2 ^ 60 }
        ensures ok { OnOk result (self.new ≡ widened self.old client extra) }
        ensures err { OnErr result (self.new ≡ self.old) }
    {
        self.mailboxes.widen(client, extra)
    }

    /// How many notices and unfinished errands the client's mailbox may hold.
    pub fn room_of(&self, client: u32) -> u64
        requires { client < clients self.now.history }
        ensures { result ≡ (pending self.now client).limit }
    {
        self.mailboxes.limit_of(client)
    }

    /// How many of the client's errands are unfinished.
    pub fn owed(&self, client: u32) -> u64
        requires { client < clients self.now.history }
        ensures { result ≡ owed self.now.history client }
    {
        self.state.owed(client)
    }

    /// How many orders of the client were taken, in all chapters.
    pub fn taken(&self, client: u32) -> u64
        requires { client < clients self.now.history }
        ensures taken { result ≡ taken_count self.now.history client }
        ensures few { result ≤ 2 ^ 57 }
    {
        self.state.taken(client)
    }

    /// The number of notices in the client's mailbox.
    pub fn pending_count(&self, client: u32) -> usize
        requires { client < clients self.now.history }
        ensures { result ≡ length (pending self.now client).notices }
    {
        self.mailboxes.len_of(client)
    }

    pub fn give(&mut self, client: u32) -> Option<Notice>
        requires { client < clients self.old.history }
        ensures notice { result ≡ slice_get (pending self.old client).notices 0 }
        ensures rest { self.new ≡ without_first self.old client }
    {
        self.mailboxes.pop(client)
    }
}
