//! A fleet that goes on from a chapter that was kept.

ghost use Rattle.std.specs.Prelude.{◌≡◌, ◌≤◌, false, None, Ok, IfOk, IfErr, OnOk, length, vec_len, if◌then◌else◌, unwrap_or};
ghost use Rattle.std.specs.Option.{option_map};
ghost use Rattle.fleet_bridge.specs.Roominess.{AreRoomyFor};
ghost use Rattle.fleet_text.specs.Kit.{kit_laws};
ghost use Rattle.fleet_core.specs.Hooks.{laws_of};
ghost use Rattle.fleet_world.specs.Keeps.{talk};
ghost use Rattle.fleet_talk.specs.Chapters.{chapter_shown};
ghost use Rattle.fleet_talk.specs.Heading.{drafted};
ghost use Rattle.fleet_talk.specs.Resumed.{IsDoorFault, IsResumeFault, IsUnresumed, LetsIn, MayResume, NoneWaits, TakesOn, disagreement, has_stamps, is_other, laws_after, limits_after, resumed_in, world_after};

use crate::door::{Door, UnroomyErrand, counted, door_for, unroomy_errand};
use crate::ends::Settings;
use crate::fault::TalkFault;
use crate::ground::{Ground, TALK_LIMITS};
use crate::manner::planned;
use fleet_book::Limits;
use fleet_core::World;
use fleet_history::{Chapter, Opening};
use fleet_hooks::Hooks;
use fleet_reopen::{ReopenFault, reopen_world};
use fleet_script::Head;
use fleet_text::HookKit;
use fleet_world::{NoTurns, Session};
use std::alloc::{AllocError, Global};

/// Why a conversation does not go on from a chapter, or how it broke off.
#[derive(Clone, Copy, Debug, PartialEq, Eq)]
pub enum ResumeFault {
    /// The header lines name another number of robots than the chapter has.
    Robots,
    /// They name another number of clients.
    Clients,
    /// No world goes on from the chapter, or memory ran out.
    Chapter(ReopenFault),
    /// An errand in a queue goes to a cell that is not roomy, where such errands are refused.
    Errand(UnroomyErrand),
    /// The robots were to take turns, and the rooms of the map did not pass their checks.
    NoRooms,
    /// The fleet went on, and the conversation broke off.
    Talk(TalkFault),
}

impl From<AllocError> for ResumeFault {
    ghost use Rattle.std.specs.Prelude.{◌≡◌};
    ghost use Rattle.fleet_reopen.specs.declared.fault.ReopenFault.TheVariants.{NoMemory};
    ghost use Rattle.fleet_talk.specs.declared.resuming.ResumeFault.TheVariants.{Chapter};

    ghost from_gives = { λ _ f. f ≡ Chapter NoMemory };

    fn from(_error: AllocError) -> ResumeFault {
        ResumeFault::Chapter(ReopenFault::NoMemory)
    }
}

/// Whether a number is said, and is another than this.
fn is_other(said: Option<usize>, is: usize) -> bool
    ensures { result ≡ is_other said is }
{
    match said {
        Some(said) => said != is,
        None => false,
    }
}

/// How many robots the header lines name.
pub(crate) fn robots_named(head: &Head) -> Option<usize>
    ensures { result ≡ option_map (λ cells. length cells) (drafted head.now).starts }
{
    match &head.starts {
        Some(cells) => Some(cells.len()),
        None => None,
    }
}

/// How many clients they name.
fn clients_named(head: &Head) -> Option<usize>
    ensures { result ≡ (drafted head.now).clients }
{
    match head.clients {
        Some(clients) => Some(clients as usize),
        None => None,
    }
}

/// Where header lines disagree with a chapter that has this opening: in the number of robots, or else in that of
/// clients. `None` if they agree.
pub fn disagreement(head: &Head, opening: &Opening) -> Option<ResumeFault>
    ensures { result ≡ disagreement (drafted head.now) opening.now }
{
    if is_other(robots_named(head), opening.robots.len()) {
        Some(ResumeFault::Robots)
    } else if is_other(clients_named(head), opening.clients.len()) {
        Some(ResumeFault::Clients)
    } else {
        None
    }
}

/// The limits of a fleet that goes on from a chapter with this opening: those that header lines name; else, of `queue`
/// and `life`, those of the chapter; else those of any conversation.
pub fn limits_after(head: &Head, opening: &Opening) -> Limits
    ensures { result ≡ limits_after (drafted head.now) opening.now }
{
    let kept = Limits {
        queue: opening.queue,
        life: opening.life,
        ..TALK_LIMITS
    };
    head.limits.limits_over(kept)
}

/// Whether a farewell of some robot may have a stamp other than 0.
fn has_stamps(opening: &Opening) -> bool
    ensures { result ≡ has_stamps opening.now }
{
    opening
        .robots
        .as_slice()
        .iter()
        .any(|robot| robot.farewell_law.high > 0)
}

/// The hooks that header lines choose, for each robot of a chapter with this opening. If they choose none: the plain
/// ones if each farewell of the chapter has the stamp 0, and else the southern ones.
pub fn hooks_after(kit: HookKit, head: &Head, opening: &Opening) -> Hooks
    // Of each call: only a call with a condition may hand on closures that another crate hands out.
    requires { 0 ≤ vec_len kit.plain.ties }
    ensures { laws_of result ≡ laws_after (kit_laws kit) (drafted head.now) opening.now }
{
    let south = head.south.unwrap_or(has_stamps(opening));
    kit.choose(south).cut(opening.robots.len())
}

/// The world of the fleet that goes on from a chapter: that of `reopen_world`, with the limits of `limits_after` and
/// the closures of `hooks_after`.
///
/// Refused in this order: header lines that name another number of robots or of clients than the chapter has, and what
/// `reopen_world` refuses.
pub fn world_after(alloc: Global, ground: Ground, chapter: &Chapter) -> Result<World, ResumeFault>
    // Of each call: only a call with a condition may hand on closures that another crate hands out.
    requires { 0 ≤ vec_len ground.kit.plain.ties }
    ensures ok { IfOk result (λ w. w.core ≡ world_after (kit_laws ground.kit) ground.grid (drafted ground.head) (chapter_shown chapter.now)) }
    ensures may { OnOk result (MayResume (kit_laws ground.kit) ground.grid (drafted ground.head) (chapter_shown chapter.now)) }
    ensures fault { IfErr result (λ fault. IsResumeFault false (kit_laws ground.kit) ground.grid (drafted ground.head) (chapter_shown chapter.now) fault) }
{
    let Ground { grid, kit, head } = ground;
    match disagreement(&head, &chapter.opening) {
        Some(fault) => {
            drop(kit);
            return Err(fault);
        }
        None => {}
    }
    let limits = limits_after(&head, &chapter.opening);
    let hooks = hooks_after(kit, &head, &chapter.opening);
    match reopen_world(alloc, grid, chapter, limits, hooks) {
        Ok(world) => Ok(world),
        Err(fault) => Err(ResumeFault::Chapter(fault)),
    }
}

/// The world that goes on from a chapter, as `world_after` gives it, and its door. Where errands to cells that are not
/// roomy are refused, no errand in its queues goes to one.
///
/// Refused as `world_after` is, and then for the first such errand, by client and by robot.
pub fn world_with_door(
    alloc: Global,
    ground: Ground,
    chapter: &Chapter,
    settings: Settings,
) -> Result<(World, Door), ResumeFault>
    // Of each call: only a call with a condition may hand on closures that another crate hands out.
    requires { 0 ≤ vec_len ground.kit.plain.ties }
    ensures ok { IfOk result (λ r. r.0.core ≡ world_after (kit_laws ground.kit) ground.grid (drafted ground.head) (chapter_shown chapter.now)) }
    ensures may { OnOk result (MayResume (kit_laws ground.kit) ground.grid (drafted ground.head) (chapter_shown chapter.now)) }
    ensures door { IfOk result (λ r. LetsIn (record { kit = kit_laws ground.kit; floor = ground.grid; settings = settings; head = drafted ground.head }) (chapter_shown chapter.now) r.1.refused.marks.items) }
    ensures known { IfOk result (λ r. AreRoomyFor r.0.core.floor r.1.roominess.items) }
    ensures fault { IfErr result (λ fault. IsResumeFault settings.roomy (kit_laws ground.kit) ground.grid (drafted ground.head) (chapter_shown chapter.now) fault) }
{
    let door = door_for(
        alloc,
        settings.roomy,
        &ground.grid,
        counted(chapter.opening.robots.len()),
    );
    let world = match world_after(alloc, ground, chapter) {
        Ok(world) => world,
        Err(fault) => return Err(fault),
    };
    match door_to(alloc, &world, door) {
        Ok(door) => Ok((world, door)),
        Err(fault) => {
            let _left = world.finish();
            Err(fault)
        }
    }
}

/// The door of a world that goes on, unless an errand in its queues goes to a cell to which posts are refused.
fn door_to(
    alloc: Global,
    world: &World,
    door: Result<Door, AllocError>,
) -> Result<Door, ResumeFault>
    ensures ok { IfOk result (λ d. (door ≡ Ok d) × NoneWaits d.refused.marks.items world.now.core) }
    ensures fault { IfErr result (λ fault. IsDoorFault world.now.core door fault) }
{
    let door = door?;
    match unroomy_errand(alloc, world, &door.refused)? {
        Some(errand) => Err(ResumeFault::Errand(errand)),
        None => Ok(door),
    }
}

/// Why a conversation does not go on whose robots were to take turns.
fn turns_fault(fault: NoTurns) -> ResumeFault
    ensures { (fault ≡ NoTurns.NoMemory → result ≡ ResumeFault.Chapter ReopenFault.NoMemory) × (fault ≡ NoTurns.NoRooms → result ≡ ResumeFault.NoRooms) }
{
    match fault {
        NoTurns::NoMemory => ResumeFault::Chapter(ReopenFault::NoMemory),
        NoTurns::NoRooms => ResumeFault::NoRooms,
    }
}

/// Opens the fleet that goes on from a chapter, and its door; its ticks are planned in the manner of the settings.
pub(crate) fn reopen(
    alloc: Global,
    ground: Ground,
    chapter: &Chapter,
    settings: Settings,
) -> Result<(Session, Door), ResumeFault>
    // Of each call: only a call with a condition may hand on closures that another crate hands out.
    requires { 0 ≤ vec_len ground.kit.plain.ties }
    ensures ok { IfOk result (λ r. talk r.0 ≡ resumed_in (record { kit = kit_laws ground.kit; floor = ground.grid; settings = settings; head = drafted ground.head }) (chapter_shown chapter.now) r.0.world.core.turns) }
    ensures takes { IfOk result (λ r. TakesOn (record { kit = kit_laws ground.kit; floor = ground.grid; settings = settings; head = drafted ground.head }) (chapter_shown chapter.now) r.0.world.core.turns) }
    ensures may { OnOk result (MayResume (kit_laws ground.kit) ground.grid (drafted ground.head) (chapter_shown chapter.now)) }
    ensures door { IfOk result (λ r. LetsIn (record { kit = kit_laws ground.kit; floor = ground.grid; settings = settings; head = drafted ground.head }) (chapter_shown chapter.now) r.1.refused.marks.items) }
    ensures known { IfOk result (λ r. AreRoomyFor r.0.world.core.floor r.1.roominess.items) }
    ensures fault { IfErr result (IsUnresumed (record { kit = kit_laws ground.kit; floor = ground.grid; settings = settings; head = drafted ground.head }) (chapter_shown chapter.now)) }
{
    match world_with_door(alloc, ground, chapter, settings) {
        Ok((world, door)) => {
            let session = Session::over(alloc, world)?;
            match planned(session, door, settings.manner) {
                Ok(fleet) => Ok(fleet),
                Err(fault) => Err(turns_fault(fault)),
            }
        }
        Err(fault) => Err(fault),
    }
}
