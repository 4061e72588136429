//! How the ticks of a fleet in real time are planned.

ghost use Rattle.std.specs.Prelude.{◌≡◌, IfErr, IfOk};
ghost use Rattle.fleet_bridge.specs.Roominess.{AreRoomyFor};
ghost use Rattle.fleet_talk.specs.Manners.{AreTaken, IsFresh};
ghost use Rattle.fleet_live.specs.Ended.{IsEnded, turnless};

use fleet_talk::{Door, Manner, TalkFault, planned};
use fleet_world::{NoTurns, Session};

/// Why the robots of a fleet take no turns.
fn turnless(fault: NoTurns) -> TalkFault
    ensures value { result ≡ turnless fault }
    ensures opened { IsEnded result }
{
    match fault {
        NoTurns::NoMemory => TalkFault::NoMemory,
        NoTurns::NoRooms => TalkFault::NoRooms,
    }
}

/// A fleet of which nothing was done, whose ticks are planned in this manner, and its door.
pub(crate) fn planned_fleet(
    session: Session,
    door: Door,
    manner: Manner,
) -> Result<(Session, Door), TalkFault>
    requires fresh { IsFresh session.world.core }
    requires door { AreRoomyFor session.world.core.floor door.roominess.items }
    ensures taken { IfOk result (λ r. AreTaken manner session.world.core r.0.world.core.turns) }
    ensures door { IfOk result (λ r. AreRoomyFor r.0.world.core.floor r.1.roominess.items) }
    ensures opened { IfErr result IsEnded }
{
    match planned(session, door, manner) {
        Ok(fleet) => Ok(fleet),
        Err(fault) => Err(turnless(fault)),
    }
}
