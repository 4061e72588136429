//! Worlds that go on from a chapter: next to the world that never ended, and what is refused.

mod ground;
mod onward;
mod refusals;
