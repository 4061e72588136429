//! `golden_execution` executes plans as its input says, a call on each line, and prints what each call answers. Its
//! input and its stored output come from a model, `tools/execution/cases`.
#![tactic(auto)]

mod opening;
mod play;
mod print;
mod words;

use std::io;

fn main(rt: HostRuntime) -> io::Result<()> {
    let text = io::read_to_string(rt.alloc(), rt.stdin())?;
    let told = play::play_all(rt.alloc(), &text)?;
    print!(rt; "{told}")
}
