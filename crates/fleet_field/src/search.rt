//! The search for the levels of the places around a goal, over one label a place. Neighbours differ by one level at
//! most, so that three labels are enough to tell afterwards which of two places is nearer.
//!
//! There are two forms of a visit. Where the ways change seldom, a processor foresees which places are new, and a
//! branch leaves the others out. Where they change often, a visit without any branch takes less time than a branch that
//! is foreseen wrongly.

ghost use Rattle.std.specs.Prelude.{◌≡◌, ℕ, ◌+◌, ◌*◌, ◌<◌, ◌≤◌, List, length, slice_index, take, IfOk};
ghost use Rattle.fleet_field.specs.inside.Labels.{label, IsVisited, IsAround, IsSpread, IsReady, IsSearched};

use crate::fronts::make_room;
use std::alloc::{AllocError, Allocator};
use std::mem;

/// Marks a place that was not reached before, and writes it at the end of the next front. On a ragged map it is always
/// written, and counted only if it is new, so that the processor has no branch to predict.
#[inline(always)]
fn visit<const RAGGED: bool>(
    labels: &mut [u8],
    next: &mut [u32],
    count: usize,
    place: usize,
    mark: u8,
) -> usize
    requires inside { place < length labels.old }
    requires small { length labels.old < 1073741824 }
    requires room { count < length next.old }
    ensures len { length labels.new ≡ length labels.old }
    ensures kept { length next.new ≡ length next.old }
    ensures most { result ≤ count + 1 }
    ensures visited { IsVisited labels.old (take count next.old) place mark labels.new (take result next.new) }
{
    let label = labels[place];
    let is_new = label == 0;
    if !RAGGED && !is_new {
        return count;
    }
    labels[place] = if is_new { mark } else { label };
    next[count] = place as u32;
    if is_new { count + 1 } else { count }
}

/// Visits the four places next to a place of the front.
#[inline(always)]
fn around<const RAGGED: bool>(
    labels: &mut [u8],
    next: &mut [u32],
    count: usize,
    stride: usize,
    place: usize,
    mark: u8,
) -> usize
    requires size { length labels.old < 1073741824 }
    requires step { 0 < stride }
    requires inside { (stride ≤ place) × (place + stride < length labels.old) }
    requires room { count + 4 ≤ length next.old }
    ensures len { length labels.new ≡ length labels.old }
    ensures kept { length next.new ≡ length next.old }
    ensures most { result ≤ count + 4 }
    ensures around { IsAround labels.old (take count next.old) stride place mark labels.new (take result next.new) }
{
    let north = visit::<RAGGED>(labels, next, count, place - stride, mark);
    let east = visit::<RAGGED>(labels, next, north, place + 1, mark);
    let south = visit::<RAGGED>(labels, next, east, place + stride, mark);
    visit::<RAGGED>(labels, next, south, place - 1, mark)
}

/// One level: from the places of `now` to those next to them that were not reached before, and how many these are.
fn leave<const RAGGED: bool>(
    labels: &mut [u8],
    now: &[u32],
    next: &mut [u32],
    stride: usize,
    mark: u8,
) -> usize
    requires size { length labels.old < 1073741824 }
    requires step { 0 < stride }
    requires inside { (k : ℕ) → k < length now.now → (stride ≤ slice_index now.now k) × (slice_index now.now k + stride < length labels.old) }
    requires room { 4 * length now.now ≤ length next.old }
    ensures len { length labels.new ≡ length labels.old }
    ensures kept { length next.new ≡ length next.old }
    ensures most { result ≤ length next.new }
    ensures spread { IsSpread labels.old now.now stride mark labels.new (take result next.new) }
{
    let mut count = 0;
    for place in now {
        count = around::<RAGGED>(labels, next, count, stride, *place as usize, mark);
    }
    count
}

/// One level, in the form that suits the map.
fn spread(
    labels: &mut [u8],
    now: &[u32],
    next: &mut [u32],
    stride: usize,
    mark: u8,
    is_ragged: bool,
) -> usize
    requires size { length labels.old < 1073741824 }
    requires step { 0 < stride }
    requires inside { (k : ℕ) → k < length now.now → (stride ≤ slice_index now.now k) × (slice_index now.now k + stride < length labels.old) }
    requires room { 4 * length now.now ≤ length next.old }
    ensures len { length labels.new ≡ length labels.old }
    ensures kept { length next.new ≡ length next.old }
    ensures most { result ≤ length next.new }
    ensures spread { IsSpread labels.old now.now stride mark labels.new (take result next.new) }
{
    if is_ragged {
        leave::<true>(labels, now, next, stride, mark)
    } else {
        leave::<false>(labels, now, next, stride, mark)
    }
}

/// The label of the level after that of this label.
fn after(mark: u8) -> u8
    requires { (level : ℕ) × (mark ≡ label level) }
    ensures { (level : ℕ) → mark ≡ label level → result ≡ label (level + 1) }
{
    if mark == 3 { 1 } else { mark + 1 }
}

/// The labels of the levels around the goal: a front is left in all directions, and what it reaches is the next front.
/// The fronts' room is kept from level to level.
pub(crate) fn search<A: Allocator + Copy>(
    alloc: A,
    unseen: Vec<u8, A>,
    stride: usize,
    goal: u32,
    is_ragged: bool,
) -> Result<Vec<u8, A>, AllocError>
    requires step { 0 < stride }
    requires ready { (blank : List ℕ) × IsReady blank stride goal unseen.items }
    ensures { IfOk result (λ labels. (blank : List ℕ) → IsReady blank stride goal unseen.items → IsSearched blank stride goal labels.items) }
{
    let mut labels = unseen;
    let mut now = Vec::new(alloc);
    let mut next = Vec::new(alloc);
    let mut mark = 1;
    labels[goal as usize] = mark;
    now.push(goal)?;
    let mut count = 1;
    // There are no more levels than places.
    for _ in 0..labels.len() {
        if count == 0 {
            break;
        }
        mark = after(mark);
        make_room(&mut next, count)?;
        count = spread(
            &mut labels,
            &now[..count],
            &mut next,
            stride,
            mark,
            is_ragged,
        );
        mem::swap(&mut now, &mut next);
    }
    Ok(labels)
}
