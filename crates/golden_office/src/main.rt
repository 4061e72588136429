//! `golden_office` prints the results of an office's calls and of its threads, in four parts: cases call by call,
//! clients that work while a turn stands in a closure, a client that is lent to a thread of its own, and scripts that
//! are served.
#![tactic(auto)]

mod floor;
mod lent;
mod numbers;
mod rows;
mod serves;
mod waiting;
mod waits;

use std::alloc::{Alloc, AllocError, Global};
use std::io;
use std::sync::Wait;
use std::thread::Threads;

/// What each part prints.
fn tell_all<R: Alloc<A = Global> + Threads + Sync + Wait + Copy + Send + Drop + 'static>(
    rt: &R,
) -> Result<String, AllocError> {
    let mut told = String::new(rt.alloc());
    rows::tell(rt, &mut told)?;
    waits::tell(rt, &mut told)?;
    lent::tell(rt, &mut told)?;
    serves::tell(rt, &mut told)?;
    Ok(told)
}

fn main(rt: HostRuntime) -> io::Result<()> {
    let told = tell_all(&rt)?;
    print!(rt; "{told}")
}
