//! What a fleet in real time is asked, what it says and what it keeps: lines, texts, notices, counts and chapters, as
//! values that no thread shares.
#![tactic(auto)]

mod archive;
mod demand;
mod ends;
mod figures;
mod given;
mod histogram;
mod journal;
mod journaled;
mod law;
mod making;
mod notices;
mod period;
mod recall;
mod recalls;
mod said;
mod size;
mod stop;
mod tally;
mod timing;
mod unkept;
mod verdicts;
mod waits;

pub use archive::Archive;
pub use demand::{Demand, Numbered, Rights, Wanted, demand_of};
pub use ends::{LiveEnds, LiveSettings, Pipes};
pub use figures::Figures;
pub use given::Given;
pub use histogram::{Bucket, Histogram};
pub use journal::Journal;
pub use journaled::Journaled;
pub use law::chapters_are_recalled;
pub use notices::Notices;
pub use period::{next_due, read_period};
pub use recalls::Recalls;
pub use said::{kept_line, unkept_line};
pub use size::ChapterSize;
pub use stop::Stop;
pub use tally::Tally;
pub use timing::Timing;
pub use unkept::Unkept;
pub use waits::WaitReport;
