//! Script text: what a fleet begins with and the events that follow, read from its lines; and bundles of a map and a
//! script.
#![tactic(auto)]

mod bundle;
mod head;
mod header;
mod law;
mod lines;
mod numbers;
mod run;
mod runs;
mod script;

pub use bundle::split_bundle;
pub use head::GivenLimits;
pub use header::Head;
pub use law::reading_is_by_grammar;
pub use lines::{EventLine, Repeat, event_line};
pub use numbers::one_small_number;
pub use run::Run;
pub use runs::ScriptRuns;
pub use script::{Script, ScriptFault, read_runs, read_script};
