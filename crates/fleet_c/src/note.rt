//! A notice to a client.

ghost use Rattle.std.specs.Prelude.{◌≡◌};
ghost use Rattle.fleet_c.specs.Forms.{note_of};

use crate::judgement::Judgement;
use fleet_book::Notice;

/// A notice: the verdict of an order, or an arrival, where `verdict` is 0.
#[repr(C)]
#[derive(Clone, Copy)]
pub struct Note {
    /// Counts the client's notices, from 1.
    pub seq: u64,
    /// Of a verdict: the client's order, counted from 1. Of an arrival: 0.
    pub order: u64,
    /// The errand's number: of an arrival, and of an order that was accepted. Else 0.
    pub number: u64,
    /// Of an arrival: the tick, counted from 1. Else 0.
    pub tick: u64,
    /// The verdict's code. Of an arrival: 0.
    pub verdict: u32,
    /// The robot of an arrival. Else 0.
    pub robot: u32,
    /// The cell of an arrival. Else 0.
    pub cell: u32,
    /// The stamp of an arrival. Else 0.
    pub stamp: u32,
}

impl Note {
    /// All fields 0.
    const BLANK: Note = Note {
        seq: 0,
        order: 0,
        number: 0,
        tick: 0,
        verdict: 0,
        robot: 0,
        cell: 0,
        stamp: 0,
    };

    /// A notice as the struct that C reads.
    pub(crate) fn of(notice: Notice) -> Note
        ensures { result ≡ note_of notice }
    {
        match notice {
            Notice::Verdict {
                seq,
                order_no,
                verdict,
            } => {
                let Judgement { number, verdict } = Judgement::of(verdict);
                Note {
                    seq,
                    order: order_no,
                    number,
                    verdict,
                    ..Note::BLANK
                }
            }
            Notice::Arrived {
                seq,
                number,
                robot,
                cell,
                tick,
                stamp,
            } => Note {
                seq,
                number,
                tick,
                robot,
                cell,
                stamp,
                ..Note::BLANK
            },
        }
    }
}
