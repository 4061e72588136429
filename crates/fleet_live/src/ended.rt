//! How a fleet ended.

ghost use Rattle.std.specs.Prelude.{◌≡◌, ◌↔◌, IfErr};
ghost use Rattle.fleet_core.specs.OpeningFaults.{IsNamed as IsNamedFault};
ghost use Rattle.fleet_live.specs.Ended.{IsEnded, cause, ended_by, unopened};

use fleet_core::OpenFault;
use fleet_talk::TalkFault;
use live_parts::Stop;

/// Why the fleet was not opened.
pub(crate) fn unopened(fault: OpenFault) -> TalkFault
    ensures value { result ≡ unopened fault }
    ensures named { (why : _) → IsNamedFault why → ((result ≡ TalkFault.Opening why) ↔ (fault ≡ why)) }
{
    match fault {
        OpenFault::NoMemory => TalkFault::NoMemory,
        named => TalkFault::Opening(named),
    }
}

/// How the fleet ended that stopped for this reason.
pub(crate) fn ended(stop: Stop, limited: bool) -> Result<bool, TalkFault>
    ensures value { result ≡ ended_by stop limited }
    ensures opened { IfErr result IsEnded }
{
    match stop {
        Stop::Quit => Ok(limited),
        Stop::Limit => Ok(true),
        Stop::Input => Err(TalkFault::Input),
        Stop::Output => Err(TalkFault::Output),
        Stop::Sink => Err(TalkFault::Sink),
        Stop::NoMemory => Err(TalkFault::NoMemory),
    }
}

/// Why the fleet counts as stopped: what stopped it comes first, then a chapter that was not kept, and then a text of
/// the first conversation that was not written.
pub(crate) fn cause(stop: Stop, kept: Result<(), Stop>, is_written: bool) -> Stop
    ensures { result ≡ cause stop kept is_written }
{
    match (stop, kept) {
        (Stop::Quit | Stop::Limit, Err(fault)) => fault,
        (Stop::Quit | Stop::Limit, Ok(())) if !is_written => Stop::Output,
        (stop, _) => stop,
    }
}
