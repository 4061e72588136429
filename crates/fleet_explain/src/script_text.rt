//! What is wrong with a script, as a sentence.

ghost use Rattle.std.specs.Prelude.{Some};
ghost use Rattle.fleet_explain.specs.Keywords.{number_from, wants};
ghost use Rattle.fleet_explain.specs.Sentences.{line_text, cell_text, limit_text, start_text, unserved_text};

use crate::keyword::Keyword;
use crate::limits::LimitFault;
use crate::line::LineFault;
use crate::opening::StartFault;
use std::fmt::{self, Display};

/// One number, with its range.
#[derive(Clone, Copy)]
struct NumberText(u64, u64);

impl fmt::Display for NumberText {
    ghost output = { λ t. Some (number_from t.0 t.1) };

    fn fmt<W: fmt::Write>(&self, f: &mut fmt::Formatter<W>) -> fmt::Result {
        let (least, most) = (self.0, self.1);
        write!(f, "one number from {least} to {most}")
    }
}

/// What comes after the first word of a line.
#[derive(Clone, Copy)]
struct WantsText(Keyword);

impl fmt::Display for WantsText {
    ghost output = { λ t. Some (wants t.0) };

    fn fmt<W: fmt::Write>(&self, f: &mut fmt::Formatter<W>) -> fmt::Result {
        match self.0 {
            Keyword::Robots => f.write_str(
                "1 to 16 start cells (1 to 512 for `talk` and `live`), with blanks between them",
            ),
            Keyword::Clients => NumberText(1, 64).fmt(f),
            Keyword::Ties => f.write_str("`plain` or `south`"),
            Keyword::Turns => NumberText(1, 1_000_000).fmt(f),
            Keyword::Limit(limit) => NumberText(limit.least(), limit.most()).fmt(f),
            Keyword::Post => f.write_str(
                "a client and an order: `go ROBOT CELL`, `close`, or `withdraw NUMBER`",
            ),
            Keyword::Take | Keyword::Give | Keyword::Collect => f.write_str("one client"),
            Keyword::Tick => {
                let ticks = NumberText(1, 1_000_000);
                write!(f, "nothing, or {ticks}")
            }
            Keyword::Shut => f.write_str("one robot"),
        }
    }
}

impl fmt::Display for LineFault {
    ghost output = { λ f. Some (line_text f) };

    fn fmt<W: fmt::Write>(&self, f: &mut fmt::Formatter<W>) -> fmt::Result {
        match *self {
            LineFault::NoRobots => {
                f.write_str(
                    "the script ends without a line `robots CELL ..`, which a conversation of `talk` may give later",
                )
            }
            LineFault::Unknown => f.write_str(
                "its first word begins no line of a script, which are `robots`, `clients`, `ties`, `turns`, the name of a limit, `post`, `take`, `give`, `collect`, `tick`, `shut`, and `#` in the first column",
            ),
            LineFault::Late => f.write_str("it is a header line, and stands after an event line"),
            LineFault::Twice => f.write_str(
                "a line with the same first word stands above it, and one is allowed",
            ),
            LineFault::Form(keyword) => {
                let (name, wants) = (keyword.name(), WantsText(keyword));
                write!(f, "`{name}` expects {wants}")
            }
        }
    }
}

/// A cell, with its row and column on a map of this width.
#[derive(Clone, Copy)]
pub(crate) struct CellText(pub(crate) u32, pub(crate) u32);

impl fmt::Display for CellText {
    ghost output = { λ t. Some (cell_text t.0 t.1) };

    fn fmt<W: fmt::Write>(&self, f: &mut fmt::Formatter<W>) -> fmt::Result {
        let (width, cell) = (self.0.max(1), self.1);
        let (row, column) = (cell / width, cell % width);
        write!(f, "cell {cell} (row {row}, column {column})")
    }
}

/// A limit that is out of its range.
#[derive(Clone, Copy)]
struct LimitText(LimitFault);

impl fmt::Display for LimitText {
    ghost output = { λ t. Some (limit_text t.0) };

    fn fmt<W: fmt::Write>(&self, f: &mut fmt::Formatter<W>) -> fmt::Result {
        let (kind, value) = (self.0.kind, self.0.value);
        let (name, least, most) = (kind.name(), kind.least(), kind.most());
        write!(f, "{name} is {value}, which is not from {least} to {most}")
    }
}

/// Why a fleet cannot begin on a map of this width.
#[derive(Clone, Copy)]
pub(crate) struct StartText(pub(crate) u32, pub(crate) StartFault);

impl fmt::Display for StartText {
    ghost output = { λ t. Some (start_text t.0 t.1) };

    fn fmt<W: fmt::Write>(&self, f: &mut fmt::Formatter<W>) -> fmt::Result {
        match self.1 {
            StartFault::Limit(fault) => {
                let limit = LimitText(fault);
                write!(f, "{limit}")
            }
            StartFault::Robots => f.write_str("there are not 1 to 512 robots"),
            StartFault::OffFloor { robot, cell } => {
                let at = CellText(self.0, cell);
                write!(
                    f,
                    "in its line `robots`, robot {robot} starts on {at}, which is no floor"
                )
            }
            StartFault::Outside { robot, cell, cells } => write!(
                f,
                "in its line `robots`, robot {robot} starts on cell {cell}, which is outside of the map: its cells are below {cells}"
            ),
            StartFault::Shared {
                first,
                second,
                cell,
            } => {
                let at = CellText(self.0, cell);
                write!(
                    f,
                    "in its line `robots`, robots {first} and {second} both start on {at}"
                )
            }
        }
    }
}

/// A line that a serve of this many clients does not take.
#[derive(Clone, Copy)]
pub(crate) struct UnservedText(pub(crate) u32, pub(crate) u32);

impl fmt::Display for UnservedText {
    ghost output = { λ t. Some (unserved_text t.0 t.1) };

    fn fmt<W: fmt::Write>(&self, f: &mut fmt::Formatter<W>) -> fmt::Result {
        let (line, clients) = (self.0, self.1);
        write!(
            f,
            "all in order for `run`; `serve` does not take line {line}, which is no post or collect of a client below {clients}"
        )
    }
}
