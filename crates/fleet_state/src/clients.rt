//! The clients of a state: the book, and how many orders were taken and notices made.

ghost use Rattle.std.specs.Prelude.{◌≡◌, ◌+◌, ◌<◌, ◌≤◌, ◌^◌, ◌==◌, ℕ, IfOk, true, length, map, slice_set, count_by};
ghost use Rattle.std.specs.List.{range_with_len};
ghost use Rattle.fleet_book.specs.Counts.{account_of, is_shut, standing, MayEnter};
ghost use Rattle.fleet_book.specs.Rule.{verdict_of};
ghost use Rattle.fleet_grid.specs.Floor.{Floor};
ghost use Rattle.fleet_history.specs.Legal.{IsInOrder};
ghost use Rattle.fleet_state.specs.Clients.{tally_at, with_verdict, with_arrival, client_known};
ghost use Rattle.fleet_state.specs.Opened.{account_in, owed_in, clients_in, tally_in};

use fleet_book::{Account, Book, Facts, Order, Verdict};
use fleet_history::{ClientState, Opening, RobotState};
use fleet_queue::Errand;
use std::alloc::{AllocError, Allocator, Global};
use std::marker::Model;

/// How many of a client's orders were taken, and how many notices were made for it.
#[derive(Clone, Copy, Debug, PartialEq, Eq)]
pub struct Tally {
    pub taken: u64,
    pub noticed: u64,
}

/// The clients, by number. Only `open` and `states` allocate.
#[derive(Drop)]
pub(crate) struct Clients<A: Allocator + Copy = Global> {
    book: Book<A>,
    tallies: Vec<Tally, A>,
}

impl<A: Allocator + Copy> Model for Clients<A> {
    ghost use Rattle.std.specs.Prelude.{◌≡◌, length};
    ghost use Rattle.fleet_state.specs.Clients.{Clients};

    ghost Value = { Clients };

    ghost view = { λ x. record { counts = x.book; tallies = x.tallies.items } };

    ghost invariant = { λ x. length x.book.accounts ≡ length x.tallies.items };
}

/// The counts of each client's orders and notices.
fn tallies_of<A: Allocator + Copy>(
    alloc: A,
    clients: &[ClientState],
) -> Result<Vec<Tally, A>, AllocError>
    ensures { IfOk result (λ tallies. tallies.items ≡ map tally_in clients.now) }
{
    clients
        .iter()
        .map(|client| Tally {
            taken: client.taken,
            noticed: client.noticed,
        })
        .collect(alloc)
}

/// Which robots are shut.
fn shut_of<A: Allocator + Copy>(
    alloc: A,
    robots: &[RobotState<A>],
) -> Result<Vec<bool, A>, AllocError>
    ensures { IfOk result (λ shut. shut.items ≡ map (λ x. x.shut) robots.now) }
{
    robots.iter().map(|robot| robot.shut).collect(alloc)
}

impl<A: Allocator + Copy> Clients<A> {
    /// The clients of an opening.
    pub(crate) fn open(alloc: A, opening: &Opening<A>) -> Result<Self, AllocError>
        requires { (m : Floor) × IsInOrder m opening.now }
        ensures { IfOk result (λ x. x ≡ clients_in opening.now) }
    {
        let clients = opening.clients.as_slice();
        let robots = opening.robots.as_slice();
        let tallies = tallies_of(alloc, clients)?;
        let shut = shut_of(alloc, robots)?;
        let accounts = accounts_of(alloc, clients, robots)?;
        Ok(Clients {
            book: Book::of_accounts(accounts, shut, opening.life),
            tallies,
        })
    }

    /// The number of clients.
    pub(crate) fn len(&self) -> usize
        ensures { result ≡ length self.now.tallies }
    {
        self.tallies.len()
    }

    /// The verdict on an order of the client.
    pub(crate) fn judge(&self, client: u32, order: Order, facts: Facts) -> Verdict
        requires { client < length self.now.tallies }
        ensures { result ≡ verdict_of order (standing self.now.counts client order) facts }
    {
        self.book.judge(client, order, facts)
    }

    /// How many errands of the client are unfinished.
    pub(crate) fn owed(&self, client: u32) -> u64
        requires { client < length self.now.tallies }
        ensures { result ≡ (account_of self.now.counts client).owed }
    {
        self.book.owed(client)
    }

    /// How many orders of the client were taken, and how many notices made.
    pub(crate) fn tally(&self, client: u32) -> Tally
        requires { client < length self.now.tallies }
        ensures { result ≡ tally_at self.now.tallies client }
    {
        self.tallies[client as usize]
    }

    /// What is known of the client.
    pub(crate) fn state(&self, client: u32) -> ClientState
        requires { client < length self.now.tallies }
        ensures { result ≡ client_known self.now client }
    {
        let account = self.book.account(client);
        let tally = self.tallies[client as usize];
        ClientState {
            taken: tally.taken,
            accepted: account.accepted,
            noticed: tally.noticed,
            closed: account.closed,
        }
    }

    /// Whether the robot refuses further errands.
    pub(crate) fn is_shut(&self, robot: u32) -> bool
        ensures { result ≡ is_shut self.now.counts robot }
    {
        self.book.is_shut(robot)
    }

    /// Enters that an order of the client was taken, with this verdict.
    pub(crate) fn take(&mut self, client: u32, verdict: Verdict)
        requires client { client < length self.old.tallies }
        requires may { MayEnter self.old.counts.life verdict (account_of self.old.counts client) }
        requires taken { (tally_at self.old.tallies client).taken + 1 < 2 ^ 64 }
        requires noticed { (tally_at self.old.tallies client).noticed + 1 < 2 ^ 64 }
        ensures { self.new ≡ with_verdict self.old client verdict }
    {
        self.book.enter(client, verdict);
        let tally = &mut self.tallies[client as usize];
        tally.taken += 1;
        tally.noticed += 1;
    }

    /// Enters that an errand of the client arrived.
    pub(crate) fn arrive(&mut self, client: u32)
        requires client { client < length self.old.tallies }
        requires owed { 0 < (account_of self.old.counts client).owed }
        requires noticed { (tally_at self.old.tallies client).noticed + 1 < 2 ^ 64 }
        ensures { self.new ≡ with_arrival self.old client }
    {
        self.book.settle(client);
        let tally = &mut self.tallies[client as usize];
        tally.noticed += 1;
    }

    /// Enters that the robot was shut.
    pub(crate) fn shut_robot(&mut self, robot: u32)
        requires { robot < length self.old.counts.shut }
        ensures counts { self.new.counts ≡ record self.old.counts { shut = slice_set self.old.counts.shut robot true } }
        ensures tallies { self.new.tallies ≡ self.old.tallies }
    {
        self.book.shut_robot(robot);
    }
}

/// The accounts of the clients; the robots' errands are their unfinished ones.
fn accounts_of<A: Allocator + Copy>(
    alloc: A,
    clients: &[ClientState],
    robots: &[RobotState<A>],
) -> Result<Vec<Account, A>, AllocError>
    requires few { length clients.now ≤ 64 }
    requires small { (c : ℕ) → c < length clients.now → owed_in robots.now c ≤ 2 ^ 41 }
    ensures { IfOk result (λ accounts. accounts.items ≡ map (account_in clients.now robots.now) (range_with_len 0 (length clients.now))) }
{
    let mut accounts = Vec::new(alloc);
    for c in 0..clients.len() {
        let client = clients[c];
        accounts.push(Account {
            accepted: client.accepted,
            owed: owed_of(robots, c as u32),
            closed: client.closed,
        })?;
    }
    Ok(accounts)
}

/// How many errands of the robots are the client's.
fn owed_of<A: Allocator + Copy>(robots: &[RobotState<A>], client: u32) -> u64
    requires { owed_in robots.now client ≤ 2 ^ 41 }
    ensures { result ≡ owed_in robots.now client }
{
    let mut owed = 0;
    for robot in robots {
        owed += count_of(robot.errands.as_slice(), client);
    }
    owed
}

/// How many of the errands are the client's.
fn count_of(errands: &[Errand], client: u32) -> u64
    ensures { result ≡ count_by (λ e. e.client == client) errands.now }
{
    errands
        .iter()
        .filter(|errand| errand.client == client)
        .count() as u64
}
