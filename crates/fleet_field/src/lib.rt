//! Distances to a goal on the floor of a map: one field, several at once, a store of fields that are shared, and a
//! field that is searched only as far as it is asked.
#![tactic(auto)]

mod bits;
mod cache;
mod columns;
mod compass;
mod compasses;
mod doubts;
mod field;
mod flood;
mod fronts;
mod growing;
mod holds;
mod kept;
mod keyed;
mod queue;
mod search;
mod settling;
mod several;
mod spreading;
mod store;
mod target;
mod telling;
mod waiting;
mod ways;
mod work;

pub use cache::FieldCache;
pub use compass::Compass;
pub use field::Field;
pub use growing::GrowingField;
pub use several::fields;
pub use store::FieldStore;
