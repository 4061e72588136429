//! What is wrong with the header lines of a conversation, as a sentence.

ghost use Rattle.std.specs.Prelude.{Some};
ghost use Rattle.fleet_explain.specs.HeadSentences.{head_fault_text, head_sentence};

use crate::head::{HeadExplanation, HeadLineFault};
use crate::script_text::StartText;
use std::fmt::{self, Display};

impl fmt::Display for HeadLineFault {
    ghost output = { λ f. Some (head_fault_text f) };

    fn fmt<W: fmt::Write>(&self, f: &mut fmt::Formatter<W>) -> fmt::Result {
        match *self {
            HeadLineFault::Long => f.write_str("it is longer than 8192 bytes"),
            HeadLineFault::Event => f.write_str(
                "it is an event line, which belongs in the conversation and not in this file",
            ),
            HeadLineFault::Line(fault) => fault.fmt(f),
        }
    }
}

impl fmt::Display for HeadExplanation {
    ghost output = { λ e. Some (head_sentence e) };

    fn fmt<W: fmt::Write>(&self, f: &mut fmt::Formatter<W>) -> fmt::Result {
        match *self {
            HeadExplanation::Fine => f.write_str("all in order"),
            HeadExplanation::Unplaced => f.write_str(
                "all in order for `talk`, whose conversation has to give a line `robots CELL ..`; `live` needs it here",
            ),
            HeadExplanation::Map(explanation) => explanation.fmt(f),
            HeadExplanation::Line { line, fault } => {
                write!(f, "the header lines: line {line}: {fault}")
            }
            HeadExplanation::Start { fault, width } => {
                let start = StartText(width, fault);
                write!(f, "the header lines: {start}")
            }
        }
    }
}
