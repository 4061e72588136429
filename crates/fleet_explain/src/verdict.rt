//! Verdicts as sentences name them.

ghost use Rattle.std.specs.Prelude.{Some};
ghost use Rattle.fleet_explain.specs.Sentences.{verdict_text};

use fleet_book::Verdict;
use std::fmt;

/// A verdict as `errands` prints it.
#[derive(Clone, Copy)]
pub(crate) struct VerdictText(pub(crate) Verdict);

impl fmt::Display for VerdictText {
    ghost output = { λ v. Some (verdict_text v.0) };

    fn fmt<W: fmt::Write>(&self, f: &mut fmt::Formatter<W>) -> fmt::Result {
        let name = self.0.name();
        match (self.0, self.0.code()) {
            (_, Some(code)) => write!(f, "refused {code} {name}"),
            (Verdict::Accepted(number), None) => write!(f, "accepted {number}"),
            (_, None) => f.write_str(name),
        }
    }
}
