//! How often something took how long, in the text form that Prometheus reads.

ghost use Rattle.std.specs.Prelude.{◌≡◌, ◌++◌, OnOk, IfOk, string_bytes};
ghost use Rattle.std.specs.List.{flat_map};
ghost use Rattle.live_parts.specs.Histogram.{bucket_line, histogram_text, noted, noted_in, seconds_text};

use std::alloc::{AllocError, Global};
use std::fmt::Write;

/// How many buckets a histogram has.
const BUCKETS: usize = 16;

/// How often something took no longer than this many microseconds.
#[derive(Clone, Copy, Debug, PartialEq, Eq)]
pub struct Bucket {
    pub most: u64,
    pub count: u64,
}

/// How often something took how long: the buckets, all together, and the sum of the microseconds.
#[derive(Clone, Copy, Debug, PartialEq, Eq)]
pub struct Histogram {
    pub buckets: [Bucket; BUCKETS],
    pub count: u64,
    pub micros: u64,
}

impl Bucket {
    /// With what took this long.
    fn noted(self, micros: u64) -> Bucket
        ensures { result ≡ noted_in micros self }
    {
        let count = if micros <= self.most {
            self.count.saturating_add(1)
        } else {
            self.count
        };
        Bucket { count, ..self }
    }
}

impl Histogram {
    /// Of nothing yet. The bounds are from a tenth of a millisecond to ten seconds.
    pub const NONE: Histogram = Histogram {
        buckets: [
            Bucket {
                most: 100,
                count: 0,
            },
            Bucket {
                most: 250,
                count: 0,
            },
            Bucket {
                most: 500,
                count: 0,
            },
            Bucket {
                most: 1_000,
                count: 0,
            },
            Bucket {
                most: 2_500,
                count: 0,
            },
            Bucket {
                most: 5_000,
                count: 0,
            },
            Bucket {
                most: 10_000,
                count: 0,
            },
            Bucket {
                most: 25_000,
                count: 0,
            },
            Bucket {
                most: 50_000,
                count: 0,
            },
            Bucket {
                most: 100_000,
                count: 0,
            },
            Bucket {
                most: 250_000,
                count: 0,
            },
            Bucket {
                most: 500_000,
                count: 0,
            },
            Bucket {
                most: 1_000_000,
                count: 0,
            },
            Bucket {
                most: 2_500_000,
                count: 0,
            },
            Bucket {
                most: 5_000_000,
                count: 0,
            },
            Bucket {
                most: 10_000_000,
                count: 0,
            },
        ],
        count: 0,
        micros: 0,
    };

    /// Counts what took this long.
    pub fn note(&mut self, micros: u64)
        ensures { self.new ≡ noted micros self.old }
    {
        for place in 0..BUCKETS {
            self.buckets[place] = self.buckets[place].noted(micros);
        }
        self.count = self.count.saturating_add(1);
        self.micros = self.micros.saturating_add(micros);
    }

    /// Adds the lines of a histogram with this name, after what it is.
    pub(crate) fn add_to(
        &self,
        alloc: Global,
        text: &mut String,
        name: &str,
        help: &str,
    ) -> Result<(), AllocError>
        ensures { OnOk result (string_bytes text.new ≡ string_bytes text.old ++ histogram_text name.now help.now self.now) }
    {
        write!(text, "# HELP {name} {help}\n# TYPE {name} histogram\n")?;
        add_buckets(alloc, text, name, &self.buckets)?;
        let (count, micros) = (self.count, self.micros);
        let seconds = seconds_text(alloc, micros)?;
        write!(
            text,
            "{name}_bucket{{le=\"+Inf\"}} {count}\n{name}_sum {seconds}\n{name}_count {count}\n"
        )?;
        Ok(())
    }
}

/// The seconds of these microseconds, with six digits after the point.
pub(crate) fn seconds_text(alloc: Global, micros: u64) -> Result<String, AllocError>
    ensures { IfOk result (λ text. string_bytes text ≡ seconds_text micros) }
{
    let (whole, part) = (micros / 1_000_000, micros % 1_000_000);
    let (a, b, c) = (part / 100_000, part / 10_000 % 10, part / 1_000 % 10);
    let (d, e, f) = (part / 100 % 10, part / 10 % 10, part % 10);
    format!(in alloc; "{whole}.{a}{b}{c}{d}{e}{f}")
}

/// Adds the line of a bucket.
fn add_bucket(
    alloc: Global,
    text: &mut String,
    name: &str,
    bucket: Bucket,
) -> Result<(), AllocError>
    ensures { OnOk result (string_bytes text.new ≡ string_bytes text.old ++ bucket_line name.now bucket) }
{
    let (bound, count) = (seconds_text(alloc, bucket.most)?, bucket.count);
    write!(text, "{name}_bucket{{le=\"{bound}\"}} {count}\n")?;
    Ok(())
}

/// Adds the lines of buckets.
fn add_buckets(
    alloc: Global,
    text: &mut String,
    name: &str,
    buckets: &[Bucket],
) -> Result<(), AllocError>
    ensures { OnOk result (string_bytes text.new ≡ string_bytes text.old ++ flat_map (bucket_line name.now) buckets.now) }
{
    for bucket in buckets {
        add_bucket(alloc, text, name, *bucket)?;
    }
    Ok(())
}
