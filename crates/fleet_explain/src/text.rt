//! Explanations as sentences.

ghost use Rattle.std.specs.Prelude.{Some};
ghost use Rattle.fleet_explain.specs.Sentences.{map_text, letter_text, sentence};

use crate::explanation::Explanation;
use crate::script_text::{StartText, UnservedText};
use crate::trace_text::{FormText, MoreText, rule_text};
use fleet_map::MapFault;
use std::fmt::{self, Display};

/// Why a text is no map.
#[derive(Clone, Copy)]
struct MapText(MapFault);

impl fmt::Display for MapText {
    ghost output = { λ t. Some (map_text t.0) };

    fn fmt<W: fmt::Write>(&self, f: &mut fmt::Formatter<W>) -> fmt::Result {
        match self.0 {
            MapFault::Header(line) => write!(
                f,
                "line {line} is missing or not in its form: the head is `type WORD`, `height N` and `width N`, and `map`"
            ),
            MapFault::Size => f.write_str("the height or the width is not from 1 to 1024"),
            MapFault::Row(row) => write!(f, "row {row} is missing or not as long as the width"),
            MapFault::Cell(row, _) => {
                write!(f, "row {row} has a byte that is no letter of a map")
            }
            MapFault::Trailing(line) => {
                write!(f, "line {line} comes after the last row and is not blank")
            }
            MapFault::NoMemory => f.write_str("out of memory"),
        }
    }
}

/// A byte of a map: itself if it can be shown, else its number.
#[derive(Clone, Copy)]
struct LetterText(u8);

impl fmt::Display for LetterText {
    ghost output = { λ t. Some (letter_text t.0) };

    fn fmt<W: fmt::Write>(&self, f: &mut fmt::Formatter<W>) -> fmt::Result {
        let byte = self.0;
        if byte < 32 || byte > 126 {
            return write!(f, "byte {byte}");
        }
        let letter = char::from(byte);
        write!(f, "`{letter}`")
    }
}

impl fmt::Display for Explanation {
    ghost output = { λ e. Some (sentence e) };

    fn fmt<W: fmt::Write>(&self, f: &mut fmt::Formatter<W>) -> fmt::Result {
        match *self {
            Explanation::Fine => f.write_str("all in order"),
            Explanation::Map(fault) => {
                let map = MapText(fault);
                write!(f, "the map: {map}")
            }
            Explanation::Letter {
                row,
                column,
                letter,
            } => {
                let letter = LetterText(letter);
                write!(
                    f,
                    "the map: row {row}, column {column} has {letter}, which is no letter of a map"
                )
            }
            Explanation::Script { line, fault } => write!(f, "the script: line {line}: {fault}"),
            Explanation::Unserved { line, clients } => UnservedText(line, clients).fmt(f),
            Explanation::Start { fault, width } => {
                let start = StartText(width, fault);
                write!(f, "the script: {start}")
            }
            Explanation::NotJson(position) => {
                let (line, column) = (position.line, position.column);
                write!(
                    f,
                    "the trace: it is not UTF-8, or not JSON, or nested deeper than 127: its reader stopped at line {line}, column {column}"
                )
            }
            Explanation::Version => f.write_str(
                "the trace: the number under `version` is not 1 or 2",
            ),
            Explanation::Form(part) => {
                let part = FormText(part);
                write!(f, "the trace: {part}")
            }
            Explanation::Illegal {
                at,
                rule,
                kind,
                detail,
            } => {
                let (breaks, more) = (rule_text(rule), MoreText(rule, detail));
                write!(f, "the trace: entry {at}, {kind}: {breaks}{more}")
            }
        }
    }
}
