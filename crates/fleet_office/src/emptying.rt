//! The orders that are left in the lanes go into the world.

ghost use Rattle.std.specs.Prelude.{◌≡◌, ◌+◌, ◌<◌, ◌≤◌, ◌++◌, ℕ, length, Some, Err, OnOk, OnErr, slice_get};
ghost use Rattle.fleet_core.specs.Core.{HasNoEntries};
ghost use Rattle.fleet_lanes.specs.Ends.{EndView};
ghost use Rattle.fleet_office.specs.Views.{core, cores, AreOn, AreDistinct, AreSettled, IsSettled, IsNumberSettled, KeepsOthers, OthersStay, Moves};
ghost use Rattle.fleet_office.specs.Draining.{used, IsLeft, AreLeft, Widens, TakesNext, DrainsFirst, StopsDraining};
ghost use Rattle.fleet_office.specs.inside.Lanes.{DrainsLane};

use crate::hall_state::HallState;
use crate::homing::place_of;
use crate::names::OfficeName;
use crate::taking::take_left_from;
use fleet_core::TakeFault;
use fleet_lanes::Client;
use std::alloc::Allocator;

impl<N: OfficeName<A>, A: Allocator + Copy> HallState<N, A> {
    /// Compares the client's rings with the hall's ends of them. Returns how many orders are left in the lane.
    fn beside(&mut self, client: &mut Client<A>) -> usize
        requires { slice_get N.rings client.old.number ≡ Some client.old.lane }
        ensures client { core client.new ≡ core client.old }
        ensures world { (self.new.world ≡ self.old.world) × (self.new.total ≡ self.old.total) }
        ensures others { OthersStay client.old.number self.old.ends self.new.ends }
        ensures there { client.old.number < length self.new.ends }
        ensures left { IsLeft self.old.ends (core client.old) result }
        ensures met { (e : EndView A) → slice_get self.new.ends client.old.number ≡ Some e → (e.taken ++ e.known ≡ client.new.sent)
            × (client.new.collected ++ client.new.known ≡ e.given) × (result ≡ length e.known) }
    {
        let c = client.number() as usize;
        let end = &mut self.ends[c];
        end.beside(client);
        end.known()
    }

    /// Takes the next of the orders that are left in the client's lane.
    fn take_left(&mut self, client: u32, left: usize) -> Result<(), TakeFault>
        requires client { client < length self.old.ends }
        requires known { (e : EndView A) → slice_get self.old.ends client ≡ Some e → 0 < length e.known }
        requires some { 0 < left }
        ensures ok { OnOk result (Moves client self.old.ends self.new.ends) }
        ensures next { OnOk result (TakesNext self.old.world client left self.new.world) }
        ensures used { OnOk result (used self.new.world client ≤ used self.old.world client + 2) }
        ensures err { OnErr result (Widens self.old.world client left self.new.world) }
        ensures others { OthersStay client self.old.ends self.new.ends }
        ensures full { result ≡ Err TakeFault.ChapterFull → HasNoEntries self.old.world }
        ensures total { self.new.total ≡ self.old.total }
        ensures boxed { client < length self.old.world.mailboxes }
    {
        // States that what the client uses of its mailbox is little enough to be counted.
        let _ = self.core.chapter();
        take_left_from(
            &mut self.core,
            &mut self.ends[client as usize],
            client,
            left,
        )
    }

    /// Takes every order that is left in the client's lane.
    fn drain(&mut self, client: &mut Client<A>) -> Result<(), TakeFault>
        requires { slice_get N.rings client.old.number ≡ Some client.old.lane }
        ensures client { core client.new ≡ core client.old }
        ensures others { OthersStay client.old.number self.old.ends self.new.ends }
        ensures drains { (n : ℕ) × IsLeft self.old.ends (core client.old) n × DrainsLane self.old.world client.old.number n self.new.world result }
        ensures full { result ≡ Err TakeFault.ChapterFull → HasNoEntries self.new.world }
        ensures total { self.new.total ≡ self.old.total }
        ensures ok { OnOk result (IsSettled self.new.ends client.new) }
    {
        let left = self.beside(client);
        let number = client.number();
        for taken in 0..left {
            self.take_left(number, left - taken)?;
        }
        Ok(())
    }

    /// Takes every order that is left in the lane of the client with this number.
    fn drain_number(&mut self, clients: &mut [Client<A>], number: u32) -> Result<(), TakeFault>
        requires on { AreOn N.rings (cores clients.old) }
        requires distinct { AreDistinct (cores clients.old) }
        ensures clients { cores clients.new ≡ cores clients.old }
        ensures kept { KeepsOthers number clients.old clients.new }
        ensures others { OthersStay number self.old.ends self.new.ends }
        ensures drains { (n : ℕ) × AreLeft self.old.ends (cores clients.old) number n × DrainsLane self.old.world number n self.new.world result }
        ensures full { result ≡ Err TakeFault.ChapterFull → HasNoEntries self.new.world }
        ensures total { self.new.total ≡ self.old.total }
        ensures ok { OnOk result (IsNumberSettled number self.new.ends clients.new) }
    {
        let Some(k) = place_of(clients, number, 0) else {
            return Ok(());
        };
        self.drain(&mut clients[k])
    }

    /// Takes every order that is left in the lanes, client by client.
    pub(crate) fn drain_all(&mut self, clients: &mut [Client<A>]) -> Result<(), TakeFault>
        requires on { AreOn N.rings (cores clients.old) }
        requires distinct { AreDistinct (cores clients.old) }
        ensures clients { cores clients.new ≡ cores clients.old }
        ensures drains { OnOk result (DrainsFirst (length N.rings) self.old.ends (cores clients.old) self.old.world self.new.world) }
        ensures stops { OnErr result (StopsDraining (length N.rings) self.old.ends (cores clients.old) self.old.world self.new.world) }
        ensures full { result ≡ Err TakeFault.ChapterFull → HasNoEntries self.new.world }
        ensures total { self.new.total ≡ self.old.total }
        ensures ok { OnOk result (AreSettled self.new.ends clients.new) }
    {
        for number in 0..self.ring_count() {
            self.drain_number(clients, number)?;
        }
        Ok(())
    }
}
