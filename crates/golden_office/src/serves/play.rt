//! A script served on a yard, with closures that return 0.

ghost use Rattle.std.specs.Prelude.{◌≡◌, ◌<◌, ◌^◌, length};
ghost use Rattle.std.specs.List.{All};
ghost use Rattle.fleet_serve.specs.Posted.{IsLine};

use crate::floor::grid_of;
use crate::serves::came::Came;
use crate::serves::gate::Flags;
use crate::serves::yard::Yard;
use fleet_hooks::{
    ArrivalHook, ArrivalView, Farewell, FarewellView, Hooks, StampLaw, TieHook, TieLaw, TieView,
};
use fleet_script::{Script, ScriptFault, read_script};
use fleet_serve::{ServeFault, Served, first_other, serve};
use std::alloc::{Alloc, AllocError, Global};
use std::mem;
use std::sync::{Arc, Wait};
use std::thread::Threads;

const RANKS: TieLaw = TieLaw {
    low: [0; 4],
    high: [0; 4],
};

const STAMPS: StampLaw = StampLaw { low: 0, high: 0 };

/// Why a script has no result.
#[derive(Clone, Copy)]
pub(crate) enum PlayFault {
    /// The text is no script whose events are posts and collects of its clients.
    NoScript,
    Served(ServeFault),
    NoMemory,
}

impl From<AllocError> for PlayFault {
    ghost use Rattle.std.specs.Prelude.{◌≡◌};
    ghost use Rattle.golden_office.specs.declared.serves.play.PlayFault.TheVariants.{NoMemory};

    ghost from_gives = { λ _ e. e ≡ NoMemory };

    fn from(_error: AllocError) -> PlayFault {
        PlayFault::NoMemory
    }
}

/// Serves a script on a yard with these closures.
fn serve_with<R: Alloc<A = Global> + Threads + Sync + Wait>(
    rt: &R,
    yard: &Yard,
    script: &Script,
    hooks: Hooks,
    flags: &Flags,
) -> Result<Served, ServeFault>
    requires few { length script.now.events.items < 2 ^ 32 }
    requires lines { All (IsLine script.now.clients) script.now.events.items }
{
    match grid_of(rt.alloc(), yard.sides, yard.letters) {
        Ok(grid) => serve(rt, grid, script, hooks, flags),
        Err(fault) => {
            mem::drop(hooks);
            Err(ServeFault::Opening(fault))
        }
    }
}

/// Serves a script on a yard, with closures for its robots that stand where the flags say so, or has no memory for
/// them.
fn serve_hooked<R: Alloc<A = Global> + Threads + Sync + Wait>(
    rt: &R,
    yard: &Yard,
    script: &Script,
    flags: &Arc<Flags>,
) -> Result<Result<Served, ServeFault>, AllocError>
    requires few { length script.now.events.items < 2 ^ 32 }
    requires lines { All (IsLine script.now.clients) script.now.events.items }
{
    let alloc = rt.alloc();
    let mut hooks = Hooks::new(alloc);
    for _robot in &script.starts {
        let own = Arc::try_clone(flags)?;
        let tie = move |_view: TieView| -> u8
            ensures { result ≡ 0 }
        {
            own.stand();
            0
        };
        let arrival = |_view: ArrivalView| -> u32
            ensures { result ≡ 0 }
        { 0 };
        let farewell = |_view: FarewellView| -> u32
            ensures { result ≡ 0 }
        { 0 };
        let tie = TieHook::new(RANKS, Box::new(alloc, tie)?);
        let arrival = ArrivalHook::new(STAMPS, Box::new(alloc, arrival)?);
        let farewell = Farewell::new(STAMPS, Box::new(alloc, farewell)?);
        hooks.push(tie, arrival, farewell)?;
    }
    Ok(serve_with(rt, yard, script, hooks, flags.as_ref()))
}

/// The script that the text is.
fn script_of(alloc: Global, text: &[u8]) -> Result<Script, PlayFault> {
    if text.len() > 16_777_216 {
        return Err(PlayFault::NoScript);
    }
    match read_script(alloc, text) {
        Ok(script) => Ok(script),
        Err(ScriptFault::NoMemory) => Err(PlayFault::NoMemory),
        Err(ScriptFault::Line(_)) => Err(PlayFault::NoScript),
    }
}

/// The result of a script on a yard.
fn came_of<R: Alloc<A = Global> + Threads + Sync + Wait>(
    rt: &R,
    yard: &Yard,
    script: &Script,
    flags: &Arc<Flags>,
) -> Result<Came, PlayFault> {
    if first_other(script).is_some() || script.events.len() >= 1 << 32 {
        return Err(PlayFault::NoScript);
    }
    match serve_hooked(rt, yard, script, flags)? {
        Ok(served) => {
            let came = Came::of(rt.alloc(), yard, script, &served);
            mem::drop(served);
            Ok(came?)
        }
        Err(fault) => Err(PlayFault::Served(fault)),
    }
}

/// The result of the script that the text is, on a yard.
pub(crate) fn play<R: Alloc<A = Global> + Threads + Sync + Wait>(
    rt: &R,
    yard: &Yard,
    text: &[u8],
    flags: &Arc<Flags>,
) -> Result<Came, PlayFault> {
    let script = script_of(rt.alloc(), text)?;
    came_of(rt, yard, &script, flags)
}
