//! One step of any number of robots without conflicts, by priority inheritance with backtracking (PIBT, Okumura et al.,
//! AIJ 2022), from what each robot prefers: so any guidance, learned policy or heuristic has a proved shield.
#![tactic(auto)]

mod checks;
mod plan;
mod preferences;
mod refusal;
mod scene;
mod seats;
mod shield;

pub use preferences::Preferences;
pub use refusal::Refusal;
pub use shield::Shield;
