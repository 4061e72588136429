//! The open errands of a client, as lines.

ghost use Rattle.std.specs.Prelude.{◌≡◌, IfOk, string_bytes};
ghost use Rattle.fleet_talk.specs.Listed.{listed_text};

use fleet_core::World;
use fleet_text::{no_client_line, open_text};
use std::alloc::{AllocError, Global};

/// The lines of the open errands of a client, or `no-client` if there is no such client.
pub(crate) fn listed_text(alloc: Global, world: &World, client: u32) -> Result<String, AllocError>
    ensures { IfOk result (λ text. string_bytes text ≡ listed_text world.now.core client) }
{
    if client as usize >= world.clients() {
        return no_client_line(alloc, client);
    }
    let errands = world.open_errands(alloc, client)?;
    open_text(alloc, client, &errands)
}
