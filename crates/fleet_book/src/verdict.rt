//! The verdict on an order.

ghost use Rattle.std.specs.Prelude.{◌≡◌, ◌↔◌, Some};
ghost use Rattle.fleet_book.specs.declared.verdict.Verdict.{Verdict};
ghost use Rattle.fleet_book.specs.Refusals.{refusal_code, refusal_of, verdict_name};

/// The result of judging an order: it is carried out, or refused for a reason.
#[derive(Clone, Copy, Debug, PartialEq, Eq)]
pub enum Verdict {
    /// The errand joins its robot's queue, and has this number among the client's accepted errands.
    Accepted(u64),
    /// The client is closed from now on.
    Closed,
    /// The errand has left its robot's queue.
    Withdrawn,
    /// The client is closed.
    ClientClosed,
    /// There is no robot with this number.
    NoRobot,
    /// The robot takes no further errands.
    RobotShut,
    /// The cell's number is not below height times width.
    NoCell,
    /// The cell is not floor.
    Blocked,
    /// The cell is in another part of the floor than the robot.
    Unreachable,
    /// The robot's queue is full.
    QueueFull,
    /// The client has had all the errands accepted that it may have.
    LifeSpent,
    /// No unfinished errand of the client has this number.
    NoErrand,
    /// The errand is its robot's front.
    TooLate,
}

impl Verdict {
    /// The number of a refusal, 1 to 10 in the order of the variants; `None` if the order was carried out. Outputs and
    /// traces show it.
    pub fn code(self) -> Option<u8>
        ensures { result ≡ refusal_code self }
    {
        match self {
            Verdict::Accepted(_) | Verdict::Closed | Verdict::Withdrawn => None,
            Verdict::ClientClosed => Some(1),
            Verdict::NoRobot => Some(2),
            Verdict::RobotShut => Some(3),
            Verdict::NoCell => Some(4),
            Verdict::Blocked => Some(5),
            Verdict::Unreachable => Some(6),
            Verdict::QueueFull => Some(7),
            Verdict::LifeSpent => Some(8),
            Verdict::NoErrand => Some(9),
            Verdict::TooLate => Some(10),
        }
    }

    /// The refusal of this number; `None` if no refusal has it.
    pub fn of_code(code: u64) -> Option<Verdict>
        ensures refusal { result ≡ refusal_of code }
        ensures inverse { (verdict : Verdict) → (result ≡ Some verdict) ↔ (refusal_code verdict ≡ Some code) }
    {
        match code {
            1 => Some(Verdict::ClientClosed),
            2 => Some(Verdict::NoRobot),
            3 => Some(Verdict::RobotShut),
            4 => Some(Verdict::NoCell),
            5 => Some(Verdict::Blocked),
            6 => Some(Verdict::Unreachable),
            7 => Some(Verdict::QueueFull),
            8 => Some(Verdict::LifeSpent),
            9 => Some(Verdict::NoErrand),
            10 => Some(Verdict::TooLate),
            _ => None,
        }
    }

    /// The name in small letters, as outputs show it: `accepted`, `queue-full`.
    pub fn name(self) -> &'static str
        ensures { result.now ≡ verdict_name self }
    {
        match self {
            Verdict::Accepted(_) => "accepted",
            Verdict::Closed => "closed",
            Verdict::Withdrawn => "withdrawn",
            Verdict::ClientClosed => "client-closed",
            Verdict::NoRobot => "no-robot",
            Verdict::RobotShut => "robot-shut",
            Verdict::NoCell => "no-cell",
            Verdict::Blocked => "blocked",
            Verdict::Unreachable => "unreachable",
            Verdict::QueueFull => "queue-full",
            Verdict::LifeSpent => "life-spent",
            Verdict::NoErrand => "no-errand",
            Verdict::TooLate => "too-late",
        }
    }
}
