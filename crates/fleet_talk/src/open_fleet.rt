//! A fleet that is talked to.

use fleet_world::Session;

/// An open fleet.
#[derive(Drop)]
pub(crate) struct OpenFleet {
    pub(crate) session: Session,
    /// Whether a limit was met since it was opened.
    pub(crate) limited: bool,
}
