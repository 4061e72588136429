//! What a fleet is opened with.

ghost use Rattle.std.specs.Prelude.{◌≡◌, ◌≤◌, vec_len};
ghost use Rattle.fleet_core.specs.Hooks.{laws_of};

use fleet_book::Limits;
use fleet_grid::Grid;
use fleet_hooks::Hooks;

/// What a fleet is opened with.
#[derive(Drop)]
pub(crate) struct Opening {
    pub(crate) clients: u32,
    pub(crate) limits: Limits,
    pub(crate) grid: Grid,
    pub(crate) starts: Vec<u32>,
    pub(crate) hooks: Hooks,
}

impl Opening {
    /// An opening of these parts.
    pub(crate) fn of(
        clients: u32,
        limits: Limits,
        grid: Grid,
        starts: Vec<u32>,
        hooks: Hooks,
    ) -> Opening
        requires { 0 ≤ vec_len hooks.ties }
        ensures clients { result.clients ≡ clients }
        ensures limits { result.limits ≡ limits }
        ensures grid { result.grid ≡ grid }
        ensures starts { result.starts.items ≡ starts.items }
        ensures hooks { laws_of result.hooks ≡ laws_of hooks }
    {
        Opening {
            clients,
            limits,
            grid,
            starts,
            hooks,
        }
    }
}
