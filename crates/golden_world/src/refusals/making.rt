//! What a world answers to a call, as a line, where it does not want for memory. Each call here gives whether it did
//! not.

ghost use Rattle.std.specs.Prelude.{◌<◌, ◌^◌};

use crate::refusals::calls::Call;
use crate::refusals::clients::Clients;
use fleet_trace::write_trace;
use fleet_world::{Chapter, ChapterFault, Event, ShutFault, TakeFault, TickFault, World};
use std::alloc::{Alloc, AllocError, Allocator, Global};
use std::fmt::Write;
use std::thread::Threads;

/// Takes the client's first order. It stays in its lane where it is refused.
fn take<A: Allocator + Copy>(
    world: &mut World<A>,
    clients: &mut Clients,
    client: u32,
    told: &mut String,
) -> Result<bool, AllocError> {
    if client as usize >= world.clients() {
        writeln!(told, "take {client}: no client")?;
        return Ok(true);
    }
    let Some(order) = clients.next_order(client) else {
        writeln!(told, "take {client}: no order")?;
        return Ok(true);
    };
    match world.take(client, order) {
        Err(TakeFault::NoMemory) => return Ok(false),
        Err(fault) => writeln!(told, "take {client}: {fault:?}")?,
        Ok(verdict) => {
            clients.take(client);
            writeln!(told, "take {client}: {verdict:?}")?;
        }
    }
    Ok(true)
}

fn tick<A: Allocator + Copy, R: Alloc<A = A>>(
    rt: &R,
    world: &mut World<A>,
    told: &mut String,
) -> Result<bool, AllocError> {
    match world.tick(rt) {
        Err(TickFault::NoMemory) => return Ok(false),
        Err(fault) => writeln!(told, "tick: {fault:?}")?,
        Ok(report) => writeln!(told, "tick: {report:?} {:?}", world.placement())?,
    }
    Ok(true)
}

fn shut<A: Allocator + Copy>(
    world: &mut World<A>,
    robot: u32,
    told: &mut String,
) -> Result<bool, AllocError> {
    match world.shut(robot) {
        Err(ShutFault::NoMemory) => return Ok(false),
        Err(fault) => writeln!(told, "shut {robot}: {fault:?}")?,
        Ok(farewell) => writeln!(told, "shut {robot}: {farewell:?}")?,
    }
    Ok(true)
}

/// Gives the client's next notice to its outlet, unless that is full.
fn give<A: Allocator + Copy>(
    world: &mut World<A>,
    clients: &mut Clients,
    client: u32,
    told: &mut String,
) -> Result<(), AllocError> {
    if client as usize >= world.clients() {
        return writeln!(told, "give {client}: no client");
    }
    if clients.outlet_len(client) >= world.core.limits().outlet as usize {
        return writeln!(told, "give {client}: outlet full");
    }
    let notice = world.give(client);
    if let Some(notice) = notice {
        clients.give(client, notice)?;
    }
    writeln!(told, "give {client}: {notice:?}")
}

fn widen<A: Allocator + Copy>(
    world: &mut World<A>,
    client: u32,
    extra: u64,
    told: &mut String,
) -> Result<bool, AllocError> {
    if client as usize >= world.clients() || extra > 1 << 32 {
        writeln!(told, "widen {client}: no client")?;
        return Ok(true);
    }
    if world.core.room_of(client) > 1 << 32 {
        writeln!(told, "widen {client}: wide enough")?;
        return Ok(true);
    }
    match world.widen(client, extra) {
        Err(AllocError) => return Ok(false),
        Ok(()) => writeln!(told, "widen {client} by {extra}")?,
    }
    Ok(true)
}

/// Prints the chapter that ended.
fn tell_chapter<A: Allocator + Copy>(
    alloc: Global,
    chapter: &Chapter<A>,
    told: &mut String,
) -> Result<bool, AllocError> {
    let text = write_trace(alloc, chapter)?;
    writeln!(told, "next chapter: {text}")?;
    Ok(true)
}

fn next_chapter<A: Allocator + Copy>(
    alloc: Global,
    world: &mut World<A>,
    told: &mut String,
) -> Result<bool, AllocError> {
    match world.next_chapter() {
        Err(ChapterFault::NoMemory) => Ok(false),
        Err(fault) => {
            writeln!(told, "next chapter: {fault:?}")?;
            Ok(true)
        }
        Ok(chapter) => tell_chapter(alloc, &chapter, told),
    }
}

/// Keeps fields that no robot aims at any more, up to this many bytes, and prints how many bytes are kept.
fn keep<A: Allocator + Copy>(
    world: &mut World<A>,
    bytes: u64,
    told: &mut String,
) -> Result<(), AllocError>
    // Always met: what has closures is lent from crate to crate only by a call with a condition.
    requires { bytes < 2 ^ 64 }
{
    world.keep(bytes as usize);
    writeln!(told, "keep {bytes}, kept {}", world.core.kept_bytes())
}

/// Searches the fields of the robots' next errands, and prints how many bytes are kept.
fn search_ahead<A: Allocator + Copy + Send + Sync, R: Threads + Sync>(
    rt: &R,
    world: &mut World<A>,
    told: &mut String,
) -> Result<bool, AllocError> {
    match world.search_ahead(rt) {
        Err(AllocError) => return Ok(false),
        Ok(()) => writeln!(told, "search ahead, kept {}", world.core.kept_bytes())?,
    }
    Ok(true)
}

/// Makes a call, and prints what it answered.
pub(crate) fn make<A: Allocator + Copy + Send + Sync, R: Alloc<A = A> + Threads + Sync>(
    alloc: Global,
    rt: &R,
    world: &mut World<A>,
    clients: &mut Clients,
    call: Call,
    told: &mut String,
) -> Result<bool, AllocError> {
    match call {
        Call::Event(Event::Post(client, order)) => {
            clients.post(client, order)?;
            writeln!(told, "post {client}: {order:?}")?;
        }
        Call::Event(Event::Take(client)) => return take(world, clients, client, told),
        Call::Event(Event::Tick) => return tick(rt, world, told),
        Call::Event(Event::Give(client)) => give(world, clients, client, told)?,
        Call::Event(Event::Collect(client)) => {
            let notice = clients.collect(client);
            writeln!(told, "collect {client}: {notice:?}")?;
        }
        Call::Event(Event::Shut(robot)) => return shut(world, robot, told),
        Call::Widen { client, extra } => return widen(world, client, extra, told),
        Call::NextChapter => return next_chapter(alloc, world, told),
        Call::Keep(bytes) => keep(world, bytes, told)?,
        Call::SearchAhead => return search_ahead(rt, world, told),
    }
    Ok(true)
}
