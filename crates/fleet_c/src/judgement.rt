//! The verdict on an order.

ghost use Rattle.std.specs.Prelude.{◌≡◌};
ghost use Rattle.fleet_c.specs.Forms.{judgement_of};

use crate::verdicts::{
    ACCEPTED, BLOCKED, CLIENT_CLOSED, CLOSING, LIFE_SPENT, NO_CELL, NO_ERRAND, QUEUE_FULL,
    ROBOT_SHUT, TOO_LATE, UNKNOWN_ROBOT, UNREACHABLE, WITHDRAWN,
};
use fleet_book::Verdict;

/// The verdict of an order.
#[repr(C)]
#[derive(Clone, Copy)]
pub struct Judgement {
    /// The errand's number among the client's accepted errands, 0 where none was accepted.
    pub number: u64,
    /// Which verdict it is.
    pub verdict: u32,
}

impl Judgement {
    /// A verdict that has no number.
    fn plain(verdict: u32) -> Judgement
        ensures { result ≡ record { number = 0; verdict = verdict } }
    {
        Judgement { number: 0, verdict }
    }

    /// For C.
    pub(crate) fn of(verdict: Verdict) -> Judgement
        ensures { result ≡ judgement_of verdict }
    {
        match verdict {
            Verdict::Accepted(number) => Judgement {
                number,
                verdict: ACCEPTED,
            },
            Verdict::Closed => Judgement::plain(CLOSING),
            Verdict::Withdrawn => Judgement::plain(WITHDRAWN),
            Verdict::ClientClosed => Judgement::plain(CLIENT_CLOSED),
            Verdict::NoRobot => Judgement::plain(UNKNOWN_ROBOT),
            Verdict::RobotShut => Judgement::plain(ROBOT_SHUT),
            Verdict::NoCell => Judgement::plain(NO_CELL),
            Verdict::Blocked => Judgement::plain(BLOCKED),
            Verdict::Unreachable => Judgement::plain(UNREACHABLE),
            Verdict::QueueFull => Judgement::plain(QUEUE_FULL),
            Verdict::LifeSpent => Judgement::plain(LIFE_SPENT),
            Verdict::NoErrand => Judgement::plain(NO_ERRAND),
            Verdict::TooLate => Judgement::plain(TOO_LATE),
        }
    }
}
