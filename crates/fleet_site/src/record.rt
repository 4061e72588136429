//! What is kept of changes.

use fleet_history::Opening;
use fleet_refit::{Change, Dropped, Standing};

/// Changes of a site, and the site after them. The chapter of that number begins with it.
#[derive(Drop)]
pub struct SiteRecord {
    pub chapter: u32,
    /// The checksum of the map on which the chapter is played.
    pub map: u64,
    /// The changes, in their order.
    pub changes: Vec<Change>,
    /// The errands that were dropped, in their order.
    pub dropped: Vec<Dropped>,
    /// How the robot of each number takes part. Those that move have the numbers from 0 on, in this order, in their chapter.
    pub standings: Vec<Standing>,
    /// What is known of all robots, also of those that are held or were taken away.
    pub everyone: Opening,
}
