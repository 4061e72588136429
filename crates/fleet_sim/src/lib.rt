//! Lifelong experiments on a map: robots that always have one errand, to cells drawn at random by a seed, and the figures
//! of their runs as a table.
#![tactic(auto)]

mod cell;
mod column;
mod draw;
mod fault;
mod goals;
mod line;
mod mean;
mod run;
mod setting;
mod sim;
mod starts;
mod table;
mod tasks;
mod ties;

pub use cell::Cell;
pub use fault::SimFault;
pub use line::{Line, line_of};
pub use run::{Run, Times};
pub use setting::Setting;
pub use sim::{Ended, Sim};
pub use table::{TableForm, table_text};
pub use tasks::{TasksFault, read_tasks};
pub use ties::{Ties, random_rank};
