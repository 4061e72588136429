//! The words of the program's output.

ghost use Rattle.std.specs.Prelude.{◌≡◌, Some, ◌++◌, OnOk, string_bytes};
ghost use Rattle.fleet_text.specs.Output.{verdict_text, take_fault_text, tick_fault_text, shut_fault_text, notice_text, arrival_line, farewell_text, map_fault_text, open_fault_text, trace_fault_text};

use fleet_book::{Notice, Verdict};
use fleet_history::Arrival;
use fleet_map::MapFault;
use fleet_trace::TraceFault;
use fleet_world::{OpenFault, ShutFault, TakeFault, TickFault};
use std::fmt;

/// A verdict as the program prints it.
#[derive(Clone, Copy)]
pub(crate) struct VerdictText(pub(crate) Verdict);

impl fmt::Display for VerdictText {
    ghost output = { λ v. Some (verdict_text v.0) };

    fn fmt<W: fmt::Write>(&self, f: &mut fmt::Formatter<W>) -> fmt::Result {
        let name = self.0.name();
        match (self.0, self.0.code()) {
            (_, Some(code)) => write!(f, "refused {code} {name}"),
            (Verdict::Accepted(number), None) => write!(f, "accepted {number}"),
            (_, None) => f.write_str(name),
        }
    }
}

/// Why an order was not taken, as the program prints it.
#[derive(Clone, Copy)]
pub(crate) struct TakeFaultText(pub(crate) TakeFault);

impl fmt::Display for TakeFaultText {
    ghost output = { λ t. Some (take_fault_text t.0) };

    fn fmt<W: fmt::Write>(&self, f: &mut fmt::Formatter<W>) -> fmt::Result {
        let text = match self.0 {
            TakeFault::MailboxFull => "1 mailbox-full",
            TakeFault::ChapterFull => "2 chapter-full",
            TakeFault::NoMemory => "3 no-memory",
        };
        f.write_str(text)
    }
}

/// Why no tick was made, as the program prints it.
#[derive(Clone, Copy)]
pub(crate) struct TickFaultText(pub(crate) TickFault);

impl fmt::Display for TickFaultText {
    ghost output = { λ t. Some (tick_fault_text t.0) };

    fn fmt<W: fmt::Write>(&self, f: &mut fmt::Formatter<W>) -> fmt::Result {
        let text = match self.0 {
            TickFault::ClockSpent => "1 clock-spent",
            TickFault::ChapterFull => "2 chapter-full",
            TickFault::NoMemory => "3 no-memory",
        };
        f.write_str(text)
    }
}

/// Why a robot was not shut, as the program prints it.
#[derive(Clone, Copy)]
pub(crate) struct ShutFaultText(pub(crate) ShutFault);

impl fmt::Display for ShutFaultText {
    ghost output = { λ t. Some (shut_fault_text t.0) };

    fn fmt<W: fmt::Write>(&self, f: &mut fmt::Formatter<W>) -> fmt::Result {
        let text = match self.0 {
            ShutFault::NoRobot => "1 no-robot",
            ShutFault::Already => "2 already",
            ShutFault::ChapterFull => "3 chapter-full",
            ShutFault::NoMemory => "4 no-memory",
        };
        f.write_str(text)
    }
}

/// What a notice tells, as the program prints it.
#[derive(Clone, Copy)]
pub(crate) struct NoticeText(pub(crate) Notice);

impl fmt::Display for NoticeText {
    ghost output = { λ n. Some (notice_text n.0) };

    fn fmt<W: fmt::Write>(&self, f: &mut fmt::Formatter<W>) -> fmt::Result {
        match self.0 {
            Notice::Verdict {
                seq,
                order_no,
                verdict,
            } => {
                let verdict = VerdictText(verdict);
                write!(f, "{seq} verdict {order_no} {verdict}")
            }
            Notice::Arrived {
                seq,
                number,
                robot,
                cell,
                tick,
                stamp,
            } => write!(
                f,
                "{seq} arrived {number} robot {robot} cell {cell} tick {tick} stamp {stamp}"
            ),
        }
    }
}

/// The line of an arrival at a cell.
#[derive(Clone, Copy)]
pub(crate) struct ArrivalLine {
    pub(crate) arrival: Arrival,
    pub(crate) cell: u32,
}

impl fmt::Display for ArrivalLine {
    ghost output = { λ l. Some (arrival_line l.arrival l.cell) };

    fn fmt<W: fmt::Write>(&self, f: &mut fmt::Formatter<W>) -> fmt::Result {
        let Arrival {
            robot,
            client,
            number,
            stamp,
        } = self.arrival;
        let cell = self.cell;
        write!(
            f,
            "arrived robot {robot} client {client} number {number} cell {cell} stamp {stamp}\n"
        )
    }
}

/// The line of a farewell.
#[derive(Clone, Copy)]
pub(crate) struct FarewellLine {
    pub(crate) robot: u32,
    pub(crate) stamp: u32,
}

impl fmt::Display for FarewellLine {
    ghost output = { λ l. Some (farewell_text l.robot l.stamp) };

    fn fmt<W: fmt::Write>(&self, f: &mut fmt::Formatter<W>) -> fmt::Result {
        let robot = self.robot;
        let stamp = self.stamp;
        write!(f, "farewell robot {robot} stamp {stamp}\n")
    }
}

/// The fault of a map, as the program names it.
#[derive(Clone, Copy)]
pub(crate) struct MapFaultText(pub(crate) MapFault);

impl fmt::Display for MapFaultText {
    ghost output = { λ t. Some (map_fault_text t.0) };

    fn fmt<W: fmt::Write>(&self, f: &mut fmt::Formatter<W>) -> fmt::Result {
        match self.0 {
            MapFault::Header(line) => write!(f, "header {line}"),
            MapFault::Size => f.write_str("size"),
            MapFault::Row(row) => write!(f, "row {row}"),
            MapFault::Cell(row, col) => write!(f, "cell {row} {col}"),
            MapFault::Trailing(line) => write!(f, "trailing {line}"),
            MapFault::NoMemory => f.write_str("memory"),
        }
    }
}

/// Why a world was not opened, as the program names it.
#[derive(Clone, Copy)]
pub(crate) struct OpenFaultText(pub(crate) OpenFault);

impl fmt::Display for OpenFaultText {
    ghost output = { λ t. Some (open_fault_text t.0) };

    fn fmt<W: fmt::Write>(&self, f: &mut fmt::Formatter<W>) -> fmt::Result {
        let text = match self.0 {
            OpenFault::Limits => "1 limits",
            OpenFault::NoRobots => "2 no-robots",
            OpenFault::Start(_) => "3 start",
            OpenFault::Shared(_, _) => "4 shared",
            OpenFault::Hooks => "5 hooks",
            OpenFault::NoMemory => "6 no-memory",
        };
        f.write_str(text)
    }
}

/// Why a file is no trace, as the program names it.
#[derive(Clone, Copy)]
pub(crate) struct TraceFaultText(pub(crate) TraceFault);

impl fmt::Display for TraceFaultText {
    ghost output = { λ t. Some (trace_fault_text t.0) };

    fn fmt<W: fmt::Write>(&self, f: &mut fmt::Formatter<W>) -> fmt::Result {
        let text = match self.0 {
            TraceFault::NotJson => "1 not-json",
            TraceFault::Version => "2 version",
            TraceFault::Shape => "3 shape",
            TraceFault::NoMemory => "4 no-memory",
        };
        f.write_str(text)
    }
}
