//! What is wrong with a trace, as a sentence.

ghost use Rattle.std.specs.Prelude.{◌≡◌, Some};
ghost use Rattle.fleet_explain.specs.Sentences.{form_text, kind_text, rule_text, opening_text, stamp_text, step_text, arrival_text, detail_text, is_nothing, more_text};

use crate::arrival::ArrivalName;
use crate::detail::Detail;
use crate::entry::EntryKind;
use crate::stamp::RobotStamp;
use crate::verdict::VerdictText;
use fleet_check::StepFault;
use fleet_trace::{FormPart, OpeningPart};
use std::fmt::{self, Display};

/// Which part of a JSON value is not in the form of a trace.
#[derive(Clone, Copy)]
pub(crate) struct FormText(pub(crate) FormPart);

impl fmt::Display for FormText {
    ghost output = { λ t. Some (form_text t.0) };

    fn fmt<W: fmt::Write>(&self, f: &mut fmt::Formatter<W>) -> fmt::Result {
        match self.0 {
            FormPart::Value => f.write_str(
                "it is JSON, but no object with a whole number under `version`",
            ),
            FormPart::Members => f.write_str(
                "its keys are not `version`, `chapter`, `opening` and `entries`, and no other",
            ),
            FormPart::Chapter => f.write_str("under `chapter` is no number from 0 to 4294967295"),
            FormPart::Opening => f.write_str(
                "under `opening` is no object with `clients`, `life`, `queue`, `robots` and `tick`, and no other key, each in its form",
            ),
            FormPart::Entries => f.write_str("under `entries` is no array"),
            FormPart::Entry(entry) => write!(
                f,
                "entry {entry} is not in the form of a take, a tick or a shut: `[\"take\",CLIENT,ORDER,VERDICT]`, `[\"tick\",CELLS,ARRIVALS,FAREWELLS]`, `[\"shut\",ROBOT]` or `[\"shut\",ROBOT,STAMP]`"
            ),
        }
    }
}

impl fmt::Display for EntryKind {
    ghost output = { λ k. Some (kind_text k) };

    fn fmt<W: fmt::Write>(&self, f: &mut fmt::Formatter<W>) -> fmt::Result {
        match *self {
            EntryKind::Opening => f.write_str("the opening"),
            EntryKind::Take { client } => write!(f, "a take of client {client}"),
            EntryKind::Tick => f.write_str("a tick"),
            EntryKind::Shut { robot } => write!(f, "a shut of robot {robot}"),
        }
    }
}

/// What is wrong with an entry that breaks this rule.
pub(crate) fn rule_text(rule: u8) -> &'static str
    ensures { result.now ≡ rule_text rule }
{
    match rule {
        1 => "it is not in order",
        2 => "there is no such client",
        3 => "the verdict is not the one that the order gets",
        4 => "the step has a conflict, or leaves the floor",
        5 => "the arrivals are not those that are due",
        6 => "the farewells are not those that are due",
        7 => "a stamp is outside of its robot's law",
        _ => "the robot cannot be shut",
    }
}

/// Which part of an opening is not in order.
#[derive(Clone, Copy)]
struct OpeningText(OpeningPart);

impl fmt::Display for OpeningText {
    ghost output = { λ t. Some (opening_text t.0) };

    fn fmt<W: fmt::Write>(&self, f: &mut fmt::Formatter<W>) -> fmt::Result {
        match self.0 {
            OpeningPart::Robots => f.write_str("there are not 1 to 512 robots"),
            OpeningPart::Clients => f.write_str("there are not 1 to 64 clients"),
            OpeningPart::Queue => f.write_str("`queue` is not from 1 to 65536"),
            OpeningPart::Life => f.write_str("`life` is not from 1 to 1099511627776"),
            OpeningPart::Cells => f.write_str(
                "two robots are on one cell, or a robot is on no floor",
            ),
            OpeningPart::Robot(robot) => write!(
                f,
                "robot {robot} has a law, a wait or an errand that no robot has there"
            ),
            OpeningPart::Client(client) => {
                write!(f, "client {client} has counts that no client has there")
            }
            OpeningPart::Names(client) => write!(
                f,
                "two errands of client {client} have one number, or their numbers do not rise on a robot"
            ),
        }
    }
}

impl fmt::Display for RobotStamp {
    ghost output = { λ s. Some (stamp_text s) };

    fn fmt<W: fmt::Write>(&self, f: &mut fmt::Formatter<W>) -> fmt::Result {
        let (robot, stamp, low, high) = (self.robot, self.stamp, self.low, self.high);
        write!(
            f,
            "robot {robot}'s stamp {stamp} is not from {low} to {high}"
        )
    }
}

/// The first fault of a step.
#[derive(Clone, Copy)]
struct StepText(StepFault);

impl fmt::Display for StepText {
    ghost output = { λ t. Some (step_text t.0) };

    fn fmt<W: fmt::Write>(&self, f: &mut fmt::Formatter<W>) -> fmt::Result {
        match self.0 {
            StepFault::Length => f.write_str("it has not a cell for each robot"),
            StepFault::OffFloor(robot) => write!(f, "robot {robot} comes to no floor"),
            StepFault::NotAdjacent(robot) => {
                write!(
                    f,
                    "robot {robot} comes to a cell that is not next to its own"
                )
            }
            StepFault::NoMemory => f.write_str("out of memory"),
            StepFault::Vertex(first, second) => {
                write!(f, "robots {first} and {second} come to one cell")
            }
            StepFault::Swap(first, second) => {
                write!(f, "robots {first} and {second} exchange their cells")
            }
        }
    }
}

impl fmt::Display for ArrivalName {
    ghost output = { λ d. Some (arrival_text d) };

    fn fmt<W: fmt::Write>(&self, f: &mut fmt::Formatter<W>) -> fmt::Result {
        let (robot, client, number) = (self.robot, self.client, self.number);
        write!(f, "robot {robot}'s with errand {number} of client {client}")
    }
}

impl fmt::Display for Detail {
    ghost output = { λ d. Some (detail_text d) };

    fn fmt<W: fmt::Write>(&self, f: &mut fmt::Formatter<W>) -> fmt::Result {
        match *self {
            Detail::Nothing => Ok(()),
            Detail::Opening(part) => {
                let opening = OpeningText(part);
                write!(f, ": {opening}")
            }
            Detail::Due(verdict) => {
                let due = VerdictText(verdict);
                write!(f, ": `{due}` is due")
            }
            Detail::Step(fault) => {
                let step = StepText(fault);
                write!(f, ": {step}")
            }
            Detail::Missing(name) => write!(f, ": {name} is due, and not shown"),
            Detail::Extra(name) => write!(f, ": {name} is shown, and not due"),
            Detail::MissingFarewell(robot) => {
                write!(f, ": robot {robot}'s is due, and not shown")
            }
            Detail::ExtraFarewell(robot) => { write!(f, ": robot {robot}'s is shown, and not due") }
            Detail::Stamp(stamp) => write!(f, ": {stamp}"),
            Detail::Clients(count) => write!(f, ": the number of clients is {count}"),
            Detail::Robots(count) => write!(f, ": the number of robots is {count}"),
            Detail::ShutBefore => f.write_str(": it is shut already"),
        }
    }
}

/// Whether a detail says nothing.
fn is_nothing(detail: Detail) -> bool
    ensures { result ≡ is_nothing detail }
{
    matches!(detail, Detail::Nothing)
}

/// What more there is to say of an entry that breaks this rule.
#[derive(Clone, Copy)]
pub(crate) struct MoreText(pub(crate) u8, pub(crate) Detail);

impl fmt::Display for MoreText {
    ghost output = { λ t. Some (more_text t.0 t.1) };

    fn fmt<W: fmt::Write>(&self, f: &mut fmt::Formatter<W>) -> fmt::Result {
        if is_nothing(self.1) && (self.0 == 5 || self.0 == 6) {
            f.write_str(": each is shown that is due, but in another order or more than once")
        } else {
            self.1.fmt(f)
        }
    }
}
