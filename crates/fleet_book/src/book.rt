//! The book: what each client has had accepted and is owed, who is closed, and which robots are shut.

ghost use Rattle.std.specs.Prelude.{◌≡◌, ◌<◌, ◌≤◌, ◌+◌, ◌-◌, ◌^◌, length, replicate, slice_set, slice_index_or, true, false, IfOk};
ghost use Rattle.fleet_book.specs.Limits.{AreValid};
ghost use Rattle.fleet_book.specs.Rule.{verdict_of, go_verdict};
ghost use Rattle.fleet_book.specs.Counts.{blank, account_of, is_shut, standing, with_account, entered, MayEnter, IsNumbered, IsWithin, AreWithin};

use crate::account::Account;
use crate::facts::{Facts, Place};
use crate::limits::Limits;
use crate::order::Order;
use crate::verdict::Verdict;
use std::alloc::{AllocError, Allocator, Global};
use std::marker::Model;

/// The counts by which orders are judged. Clients and robots are numbered from 0. Only `new` allocates.
#[derive(Drop)]
pub struct Book<A: Allocator = Global> {
    accounts: Vec<Account, A>,
    shut: Vec<bool, A>,
    life: u64,
}

impl<A: Allocator> Model for Book<A> {
    ghost use Rattle.std.specs.Prelude.{◌^◌, ◌≤◌};
    ghost use Rattle.fleet_book.specs.Counts.{Counts, AreWithin};

    ghost Value = { Counts };

    ghost view = { λ b. record { accounts = b.accounts.items; shut = b.shut.items; life = b.life } };

    ghost invariant = { λ b. AreWithin b.life b.accounts.items × (b.life ≤ 2 ^ 40) };
}

impl<A: Allocator + Copy> Book<A> {
    /// The book at the opening: nothing accepted, nobody closed, no robot shut.
    pub fn new(alloc: A, clients: u32, robots: u32, limits: Limits) -> Result<Self, AllocError>
        requires { AreValid limits }
        ensures { IfOk result (λ b. b
            ≡ record { accounts = replicate clients blank; shut = replicate robots false; life = limits.life }) }
    {
        Ok(Book {
            accounts: filled(alloc, Account::BLANK, clients)?,
            shut: filled(alloc, false, robots)?,
            life: limits.life,
        })
    }
}

impl<A: Allocator> Book<A> {
    /// The book of these accounts, with these robots shut.
    pub fn of_accounts(accounts: Vec<Account, A>, shut: Vec<bool, A>, life: u64) -> Self
        requires within { AreWithin life accounts.items }
        requires life { life ≤ 2 ^ 40 }
        ensures { result ≡ record { accounts = accounts.items; shut = shut.items; life = life } }
    {
        Book {
            accounts,
            shut,
            life,
        }
    }

    /// The verdict on the client's order. It changes nothing.
    pub fn judge(&self, client: u32, order: Order, facts: Facts) -> Verdict
        requires { client < length self.now.accounts }
        ensures verdict { result ≡ verdict_of order (standing self.now client order) facts }
        ensures numbered { IsNumbered self.now.life (account_of self.now client) result }
    {
        let account = self.account(client);
        if account.closed {
            return Verdict::ClientClosed;
        }
        match order {
            Order::Go { robot, cell: _ } => self.judge_go(account, robot, facts),
            Order::Close => Verdict::Closed,
            Order::Withdraw { number: _ } => match facts.place {
                Place::Absent => Verdict::NoErrand,
                Place::Front => Verdict::TooLate,
                Place::Behind => Verdict::Withdrawn,
            },
        }
    }

    /// The verdict on an errand of a client that is not closed, with the refusals in their order.
    fn judge_go(&self, account: Account, robot: u32, facts: Facts) -> Verdict
        requires open { account.closed ≡ false }
        requires within { (account.accepted ≤ self.now.life) × (self.now.life ≤ 2 ^ 40) }
        ensures verdict { result
            ≡ go_verdict
            record {
              closed = false;
              accepted = account.accepted;
              life = self.now.life;
              shut = is_shut self.now robot;
            }
            facts }
        ensures numbered { IsNumbered self.now.life account result }
    {
        if !facts.robot_known {
            return Verdict::NoRobot;
        }
        if self.is_shut(robot) {
            return Verdict::RobotShut;
        }
        if !facts.in_range {
            return Verdict::NoCell;
        }
        if !facts.floor {
            return Verdict::Blocked;
        }
        if !facts.same_part {
            return Verdict::Unreachable;
        }
        if facts.queue_full {
            return Verdict::QueueFull;
        }
        if account.accepted == self.life {
            return Verdict::LifeSpent;
        }
        Verdict::Accepted(account.accepted + 1)
    }

    /// Counts the verdict on the client's order.
    pub fn enter(&mut self, client: u32, verdict: Verdict)
        requires client { client < length self.old.accounts }
        requires may { MayEnter self.old.life verdict (account_of self.old client) }
        ensures { self.new
            ≡ with_account self.old client (entered verdict (account_of self.old client)) }
    {
        let account = self.account(client);
        match verdict {
            Verdict::Accepted(number) => self.put(
                client,
                Account {
                    accepted: number,
                    owed: account.owed + 1,
                    ..account
                },
            ),
            Verdict::Closed => self.close_client(client),
            Verdict::Withdrawn => self.settle(client),
            _ => {}
        }
    }

    /// Counts one unfinished errand of the client as finished.
    pub fn settle(&mut self, client: u32)
        requires client { client < length self.old.accounts }
        requires owed { 0 < (account_of self.old client).owed }
        ensures { let account = account_of self.old client in
            self.new ≡ with_account self.old client (record account { owed = account.owed - 1 }) }
    {
        let account = self.account(client);
        self.put(
            client,
            Account {
                owed: account.owed - 1,
                ..account
            },
        );
    }

    /// Closes the client.
    pub fn close_client(&mut self, client: u32)
        requires { client < length self.old.accounts }
        ensures { let account = account_of self.old client in
            self.new ≡ with_account self.old client (record account { closed = true }) }
    {
        let account = self.account(client);
        self.put(
            client,
            Account {
                closed: true,
                ..account
            },
        );
    }

    /// Shuts the robot.
    pub fn shut_robot(&mut self, robot: u32)
        requires { robot < length self.old.shut }
        ensures { self.new ≡ record self.old { shut = slice_set self.old.shut robot true } }
    {
        self.shut[robot as usize] = true;
    }

    /// The client's counts.
    pub fn account(&self, client: u32) -> Account
        requires { client < length self.now.accounts }
        ensures value { result ≡ account_of self.now client }
        ensures within { IsWithin self.now.life result × (self.now.life ≤ 2 ^ 40) }
    {
        self.accounts[client as usize]
    }

    /// How many errands of the client were accepted.
    pub fn accepted(&self, client: u32) -> u64
        requires { client < length self.now.accounts }
        ensures value { result ≡ (account_of self.now client).accepted }
        ensures within { (result ≤ self.now.life) × (self.now.life ≤ 2 ^ 40) }
    {
        self.account(client).accepted
    }

    /// How many errands of the client are unfinished.
    pub fn owed(&self, client: u32) -> u64
        requires { client < length self.now.accounts }
        ensures value { result ≡ (account_of self.now client).owed }
        ensures within { result ≤ (account_of self.now client).accepted }
    {
        self.account(client).owed
    }

    /// The number of the client's next accepted errand.
    pub fn next_number(&self, client: u32) -> u64
        requires { client < length self.now.accounts }
        ensures { result ≡ (account_of self.now client).accepted + 1 }
    {
        self.accepted(client) + 1
    }

    /// Whether the client is closed.
    pub fn is_closed(&self, client: u32) -> bool
        requires { client < length self.now.accounts }
        ensures { result ≡ (account_of self.now client).closed }
    {
        self.account(client).closed
    }

    /// Whether there is such a robot, and it takes no further errands.
    pub fn is_shut(&self, robot: u32) -> bool
        ensures { result ≡ is_shut self.now robot }
    {
        match self.shut.get(robot as usize) {
            Some(shut) => *shut,
            None => false,
        }
    }

    /// Replaces the client's counts.
    fn put(&mut self, client: u32, account: Account)
        requires client { client < length self.old.accounts }
        requires within { IsWithin self.old.life account }
        ensures { self.new ≡ with_account self.old client account }
    {
        let place = client as usize;
        self.accounts[place] = account;
    }
}

/// A list of n copies of the item.
fn filled<T: Copy, A: Allocator>(alloc: A, item: T, count: u32) -> Result<Vec<T, A>, AllocError>
    ensures { IfOk result (λ v. v.items ≡ replicate count item) }
{
    let mut items = Vec::with_capacity(alloc, count as usize)?;
    for _ in 0..count {
        items.push_reserved(item);
    }
    Ok(items)
}
