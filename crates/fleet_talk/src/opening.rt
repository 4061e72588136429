//! The opening of a conversation's fleet.

ghost use Rattle.std.specs.Prelude.{◌≡◌, ◌≤◌, ◌↔◌, ℕ, List, [], length, Ok, Err, Some, OnOk, IfOk, IfErr, vec_len};
ghost use Rattle.fleet_bridge.specs.Roominess.{AreRoomyFor};
ghost use Rattle.fleet_text.specs.Kit.{kit_laws};
ghost use Rattle.fleet_core.specs.Hooks.{AreOrderly};
ghost use Rattle.fleet_core.specs.Opening.{CanOpen};
ghost use Rattle.fleet_core.specs.OpeningFaults.{IsNamed, IsRefused};
ghost use Rattle.fleet_world.specs.Keeps.{talk};
ghost use Rattle.fleet_world.specs.Talk.{opened_talk};
ghost use Rattle.fleet_talk.specs.Conversation.{IsUnopened, Takes, clients_in, laws_in, limits_in, opened};
ghost use Rattle.fleet_talk.specs.Door.{AreRefused};
ghost use Rattle.fleet_talk.specs.Fleet.{opened_fleet};
ghost use Rattle.fleet_talk.specs.Heading.{drafted};
ghost use Rattle.fleet_talk.specs.Manners.{IsFresh};
ghost use Rattle.fleet_talk.specs.Refusals.{talk_fault};

use crate::door::{Door, counted, door_for};
use crate::ends::Settings;
use crate::fault::TalkFault;
use crate::ground::{Ground, TALK_LIMITS};
use crate::manner::planned;
use crate::resuming::robots_named;
use fleet_core::OpenFault;
use fleet_grid::Grid;
use fleet_script::Head;
use fleet_text::HookKit;
use fleet_world::{NoTurns, Session};
use std::alloc::{AllocError, Global};

/// Opens the fleet that the head names.
fn open(alloc: Global, grid: Grid, kit: HookKit, head: Head) -> Result<Session, OpenFault>
    // Of each call: only a call with a condition may hand on closures that another crate hands out.
    requires { 0 ≤ vec_len kit.plain.ties }
    ensures refused { (starts : List ℕ) → (drafted head).starts ≡ Some starts → (fault : OpenFault) → IsNamed fault → ((result ≡ Err fault) ↔
        IsRefused grid starts (clients_in (drafted head)) (limits_in (drafted head)) (laws_in (kit_laws kit) (drafted head) starts) fault) }
    ensures can { (starts : List ℕ) → (drafted head).starts ≡ Some starts → OnOk result (
        CanOpen grid starts (clients_in (drafted head)) (limits_in (drafted head)) (laws_in (kit_laws kit) (drafted head) starts)) }
    ensures orderly { (starts : List ℕ) → (drafted head).starts ≡ Some starts → OnOk result (AreOrderly (laws_in (kit_laws kit) (drafted head) starts)) }
    ensures ok { (starts : List ℕ) → (drafted head).starts ≡ Some starts → IfOk result (λ s.
        talk s ≡ opened_talk grid starts (clients_in (drafted head)) (limits_in (drafted head)) (laws_in (kit_laws kit) (drafted head) starts)) }
    ensures floor { IfOk result (λ s. s.world.core.floor ≡ grid) }
    ensures fresh { IfOk result (λ s. IsFresh s.world.core) }
{
    let Head {
        starts,
        clients,
        south,
        turns: _,
        limits,
    } = head;
    let starts = starts.unwrap_or(Vec::new(alloc));
    let hooks = kit.choose(south.unwrap_or(false)).cut(starts.len());
    let clients = clients.unwrap_or(1);
    Session::open(
        alloc,
        grid,
        starts,
        clients,
        limits.limits_over(TALK_LIMITS),
        hooks,
    )
}

/// Opens the fleet that the head names, and its door.
fn open_with_door(
    alloc: Global,
    ground: Ground,
    settings: Settings,
) -> Result<(Session, Door), OpenFault>
    // Of each call: only a call with a condition may hand on closures that another crate hands out.
    requires { 0 ≤ vec_len ground.kit.plain.ties }
    ensures refused { (starts : List ℕ) → (drafted ground.head).starts ≡ Some starts → (fault : OpenFault) → IsNamed fault → result ≡ Err fault →
        IsRefused ground.grid starts (clients_in (drafted ground.head)) (limits_in (drafted ground.head)) (laws_in (kit_laws ground.kit) (drafted ground.head) starts) fault }
    ensures can { (starts : List ℕ) → (drafted ground.head).starts ≡ Some starts → OnOk result (
        CanOpen ground.grid starts (clients_in (drafted ground.head)) (limits_in (drafted ground.head)) (laws_in (kit_laws ground.kit) (drafted ground.head) starts)) }
    ensures orderly { (starts : List ℕ) → (drafted ground.head).starts ≡ Some starts → OnOk result (AreOrderly (laws_in (kit_laws ground.kit) (drafted ground.head) starts)) }
    ensures ok { (starts : List ℕ) → (drafted ground.head).starts ≡ Some starts → IfOk result (λ r.
        talk r.0 ≡ opened_talk ground.grid starts (clients_in (drafted ground.head)) (limits_in (drafted ground.head)) (laws_in (kit_laws ground.kit) (drafted ground.head) starts)) }
    ensures door { (starts : List ℕ) → (drafted ground.head).starts ≡ Some starts → IfOk result (λ r.
        AreRefused settings.roomy ground.grid (length starts) r.1.refused.marks.items) }
    ensures known { IfOk result (λ r. AreRoomyFor r.0.world.core.floor r.1.roominess.items) }
    ensures fresh { IfOk result (λ r. IsFresh r.0.world.core) }
{
    let Ground { grid, kit, head } = ground;
    let robots = counted(robots_named(&head).unwrap_or(0));
    let door = door_for(alloc, settings.roomy, &grid, robots);
    match open(alloc, grid, kit, head) {
        Ok(session) => with_door(session, door),
        Err(fault) => Err(fault),
    }
}

/// A fleet and its door, unless memory ran out for the door.
fn with_door(session: Session, door: Result<Door, AllocError>) -> Result<(Session, Door), OpenFault>
    // Of each call: only a call with a condition may hand on closures.
    requires { 0 ≤ session.world.core.number }
    ensures session { IfOk result (λ r. talk r.0 ≡ talk session) }
    ensures door { IfOk result (λ r. door ≡ Ok r.1) }
    ensures fault { IfErr result (λ fault. fault ≡ OpenFault.NoMemory) }
{
    match door {
        Ok(door) => Ok((session, door)),
        Err(AllocError) => {
            let _left = session.finish();
            Err(OpenFault::NoMemory)
        }
    }
}

/// Why a conversation breaks off when its fleet cannot be opened.
fn opening_fault(fault: OpenFault) -> TalkFault
    ensures { result ≡ talk_fault fault }
{
    match fault {
        OpenFault::NoMemory => TalkFault::NoMemory,
        fault => TalkFault::Opening(fault),
    }
}

/// Why one breaks off whose robots were to take turns.
fn turns_fault(fault: NoTurns) -> TalkFault
    ensures { (fault ≡ NoTurns.NoMemory → result ≡ TalkFault.NoMemory) × (fault ≡ NoTurns.NoRooms → result ≡ TalkFault.NoRooms) }
{
    match fault {
        NoTurns::NoMemory => TalkFault::NoMemory,
        NoTurns::NoRooms => TalkFault::NoRooms,
    }
}

/// Opens the fleet that the head names, and its door; its ticks are planned in the manner of the settings.
pub(crate) fn open_planned(
    alloc: Global,
    ground: Ground,
    settings: Settings,
) -> Result<(Session, Door), TalkFault>
    // Of each call: only a call with a condition may hand on closures that another crate hands out.
    requires { 0 ≤ vec_len ground.kit.plain.ties }
    ensures fault { (starts : List ℕ) → (drafted ground.head).starts ≡ Some starts → IfErr result (
        IsUnopened (kit_laws ground.kit) ground.grid settings.manner starts (drafted ground.head)) }
    ensures can { (starts : List ℕ) → (drafted ground.head).starts ≡ Some starts → OnOk result (
        CanOpen ground.grid starts (clients_in (drafted ground.head)) (limits_in (drafted ground.head)) (laws_in (kit_laws ground.kit) (drafted ground.head) starts)) }
    ensures orderly { (starts : List ℕ) → (drafted ground.head).starts ≡ Some starts → OnOk result (AreOrderly (laws_in (kit_laws ground.kit) (drafted ground.head) starts)) }
    ensures takes { (starts : List ℕ) → (drafted ground.head).starts ≡ Some starts → IfOk result (λ r.
        Takes (record { kit = kit_laws ground.kit; floor = ground.grid; settings = settings; head = drafted ground.head })
        (record { starts = starts; head = drafted ground.head; number = 0; lines = [] }) r.0.world.core.turns) }
    ensures ok { (starts : List ℕ) → (drafted ground.head).starts ≡ Some starts → IfOk result (λ r.
        opened_fleet (talk r.0) ≡ opened (record { kit = kit_laws ground.kit; floor = ground.grid; settings = settings; head = drafted ground.head })
        (record { starts = starts; head = drafted ground.head; number = 0; lines = [] }) r.0.world.core.turns) }
    ensures door { (starts : List ℕ) → (drafted ground.head).starts ≡ Some starts → IfOk result (λ r.
        AreRefused settings.roomy ground.grid (length starts) r.1.refused.marks.items) }
    ensures known { IfOk result (λ r. AreRoomyFor r.0.world.core.floor r.1.roominess.items) }
{
    match open_with_door(alloc, ground, settings) {
        Ok((session, door)) => match planned(session, door, settings.manner) {
            Ok(fleet) => Ok(fleet),
            Err(fault) => Err(turns_fault(fault)),
        },
        Err(fault) => Err(opening_fault(fault)),
    }
}
