//! The fleet that conversations share.

use fleet_world::Session;
use live_parts::Recalls;

/// An open fleet.
#[derive(Drop)]
pub struct OpenFleet {
    pub session: Session,
    /// Whether a limit was met since it was opened.
    pub limited: bool,
    /// What clients were told, to be told again.
    pub recalls: Recalls,
}
