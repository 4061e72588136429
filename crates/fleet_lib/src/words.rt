//! The command line of the program `fleet`, as `clap` reads it, and the job that it names. Each subcommand has a file
//! of its own (such as `view`), a variant of `Job`, and a line in `program` and in `job_from`.

mod arguments;
mod change;
mod check;
mod convert;
mod execute;
mod explain;
mod job;
mod judge;
mod live;
mod map;
mod program;
mod sim;
mod stats;
mod talk;
mod vehicles;
mod view;

pub use change::ChangeJob;
pub use check::{Check, FormAsked};
pub use command_words::WordFault;
pub use convert::{Convert, Target};
pub use execute::Execute;
pub use explain::Explain;
pub use job::{Job, parse_words};
pub use judge::Judge;
pub use live::Live;
pub use map::MapJob;
pub(crate) use program::VERSION;
pub use sim::SimJob;
pub use stats::{Figures, Stats};
pub use talk::Talk;
pub use vehicles::VehiclesJob;
pub use view::{Shown, View};
