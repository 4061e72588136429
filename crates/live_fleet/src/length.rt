//! How long the line of a notice is. The functions do nothing: they read the numbers of a notice, whose types say how many
//! digits each has at most.

ghost use Rattle.std.specs.Prelude.{◌≤◌, ◌<◌, ◌^◌, length};
ghost use Rattle.fleet_text.specs.Output.{notice_line};
ghost use Rattle.live_fleet.specs.Length.{number_in};

use fleet_book::{Notice, Verdict};

/// The number of an accepted errand has 64 bits.
fn note_number(verdict: Verdict)
    ensures { number_in verdict < 2 ^ 64 }
{
    match verdict {
        Verdict::Accepted(_) => {}
        _ => {}
    }
}

/// No notice has a longer line than 256 bytes.
pub(crate) fn note_length(client: u32, notice: Notice)
    ensures { length (notice_line client notice) ≤ 256 }
{
    match notice {
        Notice::Verdict { verdict, .. } => note_number(verdict),
        Notice::Arrived { .. } => {}
    }
}
