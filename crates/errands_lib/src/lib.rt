//! Does what the program `errands` does, with any readers and writers: the answers to the files of a job, with the
//! program's own hooks, and its status.
#![tactic(auto)]

mod answer;
mod command;
mod hooks;
mod inputs;
mod job;
mod judgement;
mod program;
mod service;
mod texts;
mod words;

pub use command_words::WordFault;
pub use fleet_script::{Script, ScriptFault, read_script};
pub use fleet_serve::{Gate, ServeFault, Served, serve};
pub use fleet_text::{HookKit, InputFault, read_whole, write_whole};
pub use hooks::run_with_kit;
pub use inputs::Inputs;
pub use job::{Job, JobFiles, parse_words};
pub use program::{fail, run_plain, run_program};
pub use words::{refuse_words, run_words};
