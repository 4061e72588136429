//! What a fleet's handle owns.

use fleet_core::Core;
use fleet_roomy::UnroomyCells;

/// A core, and the cells to which no errand is taken: none, or those that are not roomy for its robots.
#[derive(Drop)]
pub struct Fleet {
    pub core: Core,
    pub refused: UnroomyCells,
}
