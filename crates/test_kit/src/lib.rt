//! What tests, golden programs and the benchmark share: an allocator that refuses one allocation, readers and writers
//! that fail, blocks of a text of test cases, pseudo-random numbers, and comparisons, of which wrong versions (edits)
//! are tried here.
#![tactic(auto)]

mod answer;
mod block;
mod bundle;
mod ending;
mod finding;
mod noted;
mod outcome;
mod random;
mod refusing;
mod showing;
mod sink;
mod source;
mod wait;

pub use answer::Answer;
pub use block::{Block, blocks_of, cut_line, split_at};
pub use bundle::Bundle;
pub use ending::Ending;
pub use finding::Finding;
pub use noted::Noted;
pub use outcome::Outcome;
pub use random::Random;
pub use refusing::Refusing;
pub use showing::Showing;
pub use sink::{Full, Room, Sink};
pub use source::Source;
pub use wait::beside_bound;
