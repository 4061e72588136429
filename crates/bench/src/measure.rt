//! The result of a measure, and its line.

use std::{fmt, io};

/// A number of repeats on a map, with the time of the fastest and of all together.
#[derive(Clone, Copy, Debug, PartialEq, Eq)]
pub(crate) struct Measure {
    /// How many times the work was done.
    pub(crate) repeats: u64,
    /// Nanoseconds of the fastest.
    pub(crate) least: u128,
    /// Nanoseconds of all.
    pub(crate) all: u128,
}

impl Measure {
    /// Before the first repeat.
    pub(crate) const NONE: Measure = Measure {
        repeats: 0,
        least: u128::MAX,
        all: 0,
    };

    /// With one more repeat, which took this many nanoseconds.
    pub(crate) fn with(self, nanos: u128) -> Measure {
        Measure {
            repeats: self.repeats.saturating_add(1),
            least: self.least.min(nanos),
            all: self.all.saturating_add(nanos),
        }
    }
}

/// Prints one line of measurements: what was measured (`kernel`), the map, the number of robots (`fleet`), how many
/// things (cells, robots, calls) one repeat works on, how often it was repeated, and the nanoseconds for each thing, in
/// the fastest repeat and on average.
pub(crate) fn print_measure(
    rt: &impl Print,
    kernel: &str,
    map: &str,
    fleet: usize,
    things: u64,
    found: Measure,
) -> io::Result<()> {
    let repeats = found.repeats;
    let least = by_thing(found.least, things);
    let mean = by_thing(found.all, things.saturating_mul(repeats));
    println!(rt;
        "{kernel} map={map} fleet={fleet} things={things} repeats={repeats} least_ns={least} mean_ns={mean}"
    )
}

/// A number of hundredths, printed with two decimals.
#[derive(Clone, Copy)]
struct Hundredths(u128);

impl fmt::Display for Hundredths {
    fn fmt<W: fmt::Write>(&self, f: &mut fmt::Formatter<W>) -> fmt::Result {
        write!(f, "{}.{:02}", self.0 / 100, self.0 % 100)
    }
}

/// The nanoseconds for each thing.
fn by_thing(nanos: u128, things: u64) -> Hundredths {
    Hundredths(nanos.saturating_mul(100) / u128::from(things.max(1)))
}
