//! The manner in which the ticks of a fleet are planned.

ghost use Rattle.std.specs.Prelude.{◌≡◌, Err, OnOk, OnErr, IfOk};
ghost use Rattle.fleet_world.specs.Keeps.{talk};
ghost use Rattle.fleet_talk.specs.Manners.{AreTaken, IsFresh, in_turns};

use crate::door::Door;
use fleet_world::{NoTurns, Session};
use mover::Manner;

/// Has the ticks of a fleet planned in this manner from now on.
fn choose(session: &mut Session, manner: Manner) -> Result<(), NoTurns>
    requires { IsFresh session.old.world.core }
    ensures taken { OnOk result (AreTaken manner session.old.world.core session.new.world.core.turns) }
    ensures same { OnOk result (talk session.new ≡ in_turns session.new.world.core.turns (talk session.old)) }
    ensures asked { OnErr result (manner ≡ Manner.Turns) }
{
    match manner {
        Manner::Plain => Ok(()),
        Manner::Turns => session.take_turns(),
    }
}

/// A fleet whose ticks are planned in this manner from now on, and its door. The chapter must have no entry, and the robots
/// take no turns.
///
/// Refused if the robots were to take turns, and the rooms of the map do not pass their checks, or memory ran out.
pub fn planned(session: Session, door: Door, manner: Manner) -> Result<(Session, Door), NoTurns>
    requires { IsFresh session.world.core }
    ensures taken { IfOk result (λ r. AreTaken manner session.world.core r.0.world.core.turns) }
    ensures same { IfOk result (λ r. talk r.0 ≡ in_turns r.0.world.core.turns (talk session)) }
    ensures door { IfOk result (λ r. r.1 ≡ door) }
    ensures asked { OnErr result (manner ≡ Manner.Turns) }
{
    let mut session = session;
    match choose(&mut session, manner) {
        Ok(()) => Ok((session, door)),
        Err(fault) => {
            let _left = session.finish();
            Err(fault)
        }
    }
}
