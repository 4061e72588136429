//! What closures note of the views that they are shown.

use fleet_hooks::{ArrivalView, FarewellView, TieView};

/// A view, and the robot whose closure is shown it.
#[derive(Clone, Copy)]
pub(crate) enum Shown {
    Tie(u32, TieView),
    Arrival(u32, ArrivalView),
    Farewell(u32, FarewellView),
}

/// The note with one more part.
fn with_part(note: u64, part: u64) -> u64 {
    note.wrapping_mul(1_000_003)
        .wrapping_add(part)
        .wrapping_add(1)
}

/// The note with these parts, in their order.
fn with_parts(note: u64, parts: &[u64]) -> u64 {
    parts.iter().fold(note, |note, part| with_part(note, *part))
}

impl Shown {
    /// The note of all that was shown before, with this view: each field of it, and whose closure was shown it.
    pub(crate) fn noted(self, note: u64) -> u64 {
        match self {
            Shown::Tie(own, view) => with_parts(
                note,
                &[
                    u64::from(own),
                    u64::from(view.robot),
                    u64::from(view.cell),
                    u64::from(view.neighbour),
                    u64::from(view.dir.number()),
                    view.tick,
                ],
            ),
            Shown::Arrival(own, view) => with_parts(
                note,
                &[
                    u64::from(own),
                    u64::from(view.client),
                    view.number,
                    u64::from(view.robot),
                    u64::from(view.cell),
                    view.tick,
                ],
            ),
            Shown::Farewell(own, view) => with_parts(
                note,
                &[
                    u64::from(own),
                    u64::from(view.robot),
                    u64::from(view.cell),
                    view.tick,
                ],
            ),
        }
    }

    /// The stamp of all its fields.
    pub(crate) fn stamp(self) -> u32 {
        (self.noted(0) % 4_294_967_291) as u32
    }
}
