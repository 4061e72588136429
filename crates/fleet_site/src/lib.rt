//! The records of a site's changes: what users say of a change, the file that keeps changes next to a chapter, and what
//! changes make of a chapter's end.
#![tactic(auto)]

mod after;
mod items;
mod line;
mod making;
mod parts;
mod read;
mod record;
mod sums;
mod write;

pub use line::change_said;
pub use making::{Made, MakeFault, make};
pub use read::{SiteFault, read_site};
pub use record::SiteRecord;
pub use sums::checksum;
pub use write::write_site;
