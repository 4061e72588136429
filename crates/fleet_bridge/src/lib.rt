//! Bridges of a map: edges whose ends no walk joins without crossing them.
#![tactic(auto)]

mod blocks;
mod caps;
mod detours;
mod first;
mod growth;
mod hanging;
mod housed;
mod law;
mod layout;
mod listed;
mod numbers;
mod parts;
mod places;
mod preorder;
mod reach;
mod rooms;
mod roomy;
mod search;
mod settled;
mod sides;
mod tree;
mod walked;

pub use first::first_bridge;
pub use law::{cores_serve, rooms_serve};
pub use listed::bridges;
pub use rooms::{Room, Rooms, rooms_of};
pub use roomy::roominess;
pub use search::is_bridge;
