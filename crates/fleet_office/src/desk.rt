//! New lanes and a new ledger.

ghost use Rattle.std.specs.Prelude.{◌≡◌, ◌↔◌, length, IfOk, OnOk, Err};
ghost use Rattle.fleet_book.specs.Limits.{AreValid, IsBetween};
ghost use Rattle.fleet_core.specs.Opening.{AreInRange};
ghost use Rattle.fleet_office.specs.Views.{ArePairs};

use fleet_book::Limits;
use fleet_core::OpenFault;
use fleet_lanes::{Client, HallEnd, lane_pair};
use std::alloc::{AllocError, Allocator, Global};
use std::marker::Model;
use std::sync::ledger::Blank;

/// New lanes and a new ledger, which do not belong to a named office yet.
#[derive(Drop)]
pub struct Desk<A: Allocator + Copy = Global> {
    pub(crate) limits: Limits,
    pub(crate) clients: Vec<Client<A>, A>,
    pub(crate) ends: Vec<HallEnd<A>, A>,
    pub(crate) blank: Blank,
}

impl<A: Allocator + Copy> Model for Desk<A> {
    ghost use Rattle.std.specs.Prelude.{◌≡◌, length};
    ghost use Rattle.fleet_core.specs.Opening.{AreInRange};
    ghost use Rattle.fleet_office.specs.Views.{DeskView, ArePairs};

    ghost Value = { DeskView A };

    ghost view = { λ d. record { limits = d.limits; clients = d.clients.items; ends = d.ends.items; ledger = d.blank.name; parts = d.blank.parts } };

    ghost invariant = { λ d. ArePairs d.clients.items d.ends.items d.limits × (d.blank.parts ≡ 65536) × AreInRange (length d.clients.items) d.limits };
}

impl<A: Allocator + Copy> Desk<A> {
    /// New lanes for 1 to 64 clients, who are numbered from 0, and a ledger of 65,536 parts.
    ///
    /// Refused in this order: `Limits` where a limit, or the number of clients, is out of range; `NoMemory`.
    pub fn new(alloc: A, clients: u32, limits: Limits) -> Result<Desk<A>, OpenFault>
        ensures refused { (result ≡ Err OpenFault.Limits) ↔ (AreInRange clients limits → ⊥) }
        ensures ok { IfOk result (λ d. (length d.clients ≡ clients) × (d.limits ≡ limits) × (d.parts ≡ 65536)
            × ArePairs d.clients d.ends d.limits) }
    {
        if !limits.is_valid() || clients < 1 || clients > 64 {
            return Err(OpenFault::Limits);
        }
        match Desk::make(alloc, clients, limits) {
            Ok(desk) => Ok(desk),
            Err(AllocError) => Err(OpenFault::NoMemory),
        }
    }

    /// The lanes and the ledger, for limits that are in range.
    fn make(alloc: A, count: u32, limits: Limits) -> Result<Desk<A>, AllocError>
        requires { AreInRange count limits }
        ensures ok { IfOk result (λ d. (length d.clients ≡ count) × (d.limits ≡ limits) × (d.parts ≡ 65536)
            × ArePairs d.clients d.ends d.limits) }
    {
        let mut clients = Vec::new(alloc);
        let mut ends = Vec::new(alloc);
        for number in 0..count {
            let (client, end) = lane_pair(alloc, number, limits)?;
            clients.push(client)?;
            ends.push(end)?;
        }
        Ok(Desk {
            limits,
            clients,
            ends,
            blank: Blank::new(65536),
        })
    }
}
