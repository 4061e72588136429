//! Two threads at one office.

use crate::office::OfficeOf;
use std::thread::{Threads, join};

/// Calls `work` in two threads at one office, with the argument `first` in one thread and `second` in the other (two
/// tickers, for example), and returns both results. If no thread can be started, the caller's thread does both.
///
/// It is generic in the office's parts, since `rt` can check for each part that it may cross threads, but not for the
/// whole.
pub fn side_by_side<
    X: Send,
    Y: Send,
    T: Send + Drop,
    O: Send + Drop,
    R: Threads + Sync,
    F: Fn(&OfficeOf<X, Y>, T) -> O + Sync,
>(rt: &R, office: &OfficeOf<X, Y>, first: T, second: T, work: &F) -> (O, O)
    requires { F.IsAlwaysCallable work.now }
    ensures first { F.post work.now office.entry first result.0 }
    ensures second { F.post work.now office.entry second result.1 }
{
    join(rt, || work(office, first), || work(office, second))
}
