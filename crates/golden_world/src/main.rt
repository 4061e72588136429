//! `golden_world` plays rows through worlds and prints the results, in three parts: what each call of `World` answers
//! and what the world shows after it, what a run shows its closures, and what each call answers if memory runs out.
#![tactic(auto)]

mod answers;
mod refusals;
mod site;
mod views;

use std::alloc::{Alloc, AllocError, Global};
use std::io;
use std::thread::Threads;

/// What each part tells. The rows of refusals stand in the text.
fn tell_all<R: Alloc<A = Global> + Threads + Sync>(
    rt: &R,
    text: &[u8],
) -> Result<String, AllocError> {
    let mut told = String::new(rt.alloc());
    answers::tell(rt, &mut told)?;
    views::tell(rt, &mut told)?;
    refusals::tell(rt, text, &mut told)?;
    Ok(told)
}

fn main(rt: HostRuntime) -> io::Result<()> {
    let text = io::read_to_string(rt.alloc(), rt.stdin())?;
    let told = tell_all(&rt, text.as_bytes())?;
    print!(rt; "{told}")
}
