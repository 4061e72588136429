//! What the clients had not collected.

ghost use Rattle.std.specs.Prelude.{◌≡◌, ◌+◌, ◌<◌, ◌≤◌, ◌++◌, [], ℕ, Some, length, slice_get, vec_len, vec_capacity, IfOk};
ghost use Rattle.fleet_history.specs.History.{clients as client_count};
ghost use Rattle.fleet_core.specs.Core.{World, pending};
ghost use Rattle.fleet_lanes.specs.Ends.{ClientView};
ghost use Rattle.fleet_office.specs.Hall.{handed};
ghost use Rattle.fleet_office.specs.Views.{core, cores, AreOn, AreDistinct};
ghost use Rattle.fleet_office.specs.inside.Leftovers.{HasRoomFor, IsMoved, AreRooms, LeftoversAre, AreWithin, SameBut, HasAtMost};

use crate::hall_state::HallState;
use crate::homing::place_of;
use crate::names::OfficeName;
use fleet_book::Notice;
use fleet_core::Core;
use fleet_lanes::Client;
use std::alloc::{AllocError, Allocator};

/// The notices that are known on the outlet. The room is there.
fn move_outlet<A: Allocator + Copy>(client: &mut Client<A>, out: &mut Vec<Notice, A>)
    requires { vec_len out.old + length client.old.known ≤ vec_capacity out.old }
    ensures items { out.new.items ≡ out.old.items ++ client.old.known }
    ensures capacity { vec_capacity out.new ≡ vec_capacity out.old }
{
    for _ in 0..client.known() {
        out.push_reserved(client.collect_known());
    }
}

/// The notices in the mailbox. The room is there.
fn move_mailbox<A: Allocator + Copy>(core: &mut Core<A>, number: u32, out: &mut Vec<Notice, A>)
    requires known { number < client_count core.old.history }
    requires there { number < length core.old.mailboxes }
    requires room { vec_len out.old + length (pending core.old number).notices ≤ vec_capacity out.old }
    ensures items { out.new.items ≡ out.old.items ++ (pending core.old number).notices }
    ensures core { core.new ≡ handed core.old number [] }
{
    while let Some(notice) = core.give(number) {
        out.push_reserved(notice);
    }
}

/// Moves every notice that the client had not collected to the list at its number.
fn move_all<A: Allocator + Copy>(
    core: &mut Core<A>,
    client: &mut Client<A>,
    rooms: &mut Vec<Vec<Notice, A>, A>,
)
    requires known { client.old.number < client_count core.old.history }
    requires there { client.old.number < length core.old.mailboxes }
    requires room { HasRoomFor rooms.old.items core.old client.old }
    ensures moved { IsMoved rooms.old.items core.old client.old rooms.new.items }
    ensures core { core.new ≡ handed core.old client.old.number [] }
{
    let number = client.number();
    let out = &mut rooms[number as usize];
    move_outlet(client, out);
    move_mailbox(core, number, out);
}

/// Moves all that the clients had not collected into the rooms.
pub(crate) fn fill<A: Allocator + Copy>(
    core: &mut Core<A>,
    clients: &mut [Client<A>],
    rooms: &mut Vec<Vec<Notice, A>, A>,
)
    requires inside { AreWithin (length core.old.mailboxes) clients.old }
    requires known { length core.old.mailboxes ≡ client_count core.old.history }
    requires distinct { AreDistinct (cores clients.old) }
    requires rooms { AreRooms rooms.old.items core.old clients.old }
    ensures rests { LeftoversAre rooms.new.items core.old clients.old }
    ensures core { SameBut core.old core.new }
{
    for k in 0..clients.len() {
        move_all(core, &mut clients[k], rooms);
    }
}

impl<N: OfficeName<A>, A: Allocator + Copy> HallState<N, A> {
    /// How many notices the client with this number had not collected.
    fn uncollected(&self, clients: &[Client<A>], number: u32) -> Result<usize, AllocError>
        requires known { number < length N.rings }
        requires distinct { AreDistinct (cores clients.now) }
        ensures { IfOk result (λ n. HasAtMost n self.now.world clients.now number) }
    {
        let Some(k) = place_of(clients, number, 0) else {
            return Ok(0);
        };
        let pending = self.core.pending_count(number);
        let Some(count) = clients[k].known().checked_add(pending) else {
            return Err(AllocError);
        };
        Ok(count)
    }

    /// An empty list with room for what the client with this number had not collected.
    fn room_of(
        &self,
        alloc: A,
        clients: &[Client<A>],
        number: u32,
    ) -> Result<Vec<Notice, A>, AllocError>
        requires known { number < length N.rings }
        requires distinct { AreDistinct (cores clients.now) }
        ensures items { IfOk result (λ v. v.items ≡ []) }
        ensures room { IfOk result (λ v. HasAtMost (vec_capacity v) self.now.world clients.now number) }
    {
        let count = self.uncollected(clients, number)?;
        Vec::with_capacity(alloc, count)
    }

    /// Room for what each client had not collected, by number.
    pub(crate) fn rooms(
        &self,
        alloc: A,
        clients: &[Client<A>],
    ) -> Result<Vec<Vec<Notice, A>, A>, AllocError>
        requires on { AreOn N.rings (cores clients.now) }
        requires distinct { AreDistinct (cores clients.now) }
        ensures { IfOk result (λ v. AreRooms v.items self.now.world clients.now) }
    {
        let count = self.ring_count();
        let mut rooms = Vec::with_capacity(alloc, count as usize)?;
        for number in 0..count {
            rooms.push_reserved(self.room_of(alloc, clients, number)?);
        }
        Ok(rooms)
    }
}
