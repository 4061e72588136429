//! The line of counts each minute, what is said of chapters, and the figures.

use crate::archiving::wall_micros;
use crate::counts::Counts;
use crate::pace::Pace;
use crate::report_out::ReportOut;
use crate::shelf::{Shelf, Standing};
use fleet_core::World;
use live_fleet::Party;
use live_parts::{Figures, Tally, WaitReport};
use std::alloc::{AllocError, Global};
use std::sync::Wait;
use std::thread;
use std::time::{Clock, Duration};

/// How many times the loop looks, every 5 milliseconds, whether reports were written.
const MOST_LOOKS: u32 = 200;

/// Where reports go, and what they need besides the counts.
#[derive(Drop)]
pub(crate) struct Reports {
    pub(crate) errors: ReportOut,
    pub(crate) figures: Option<ReportOut>,
    /// How many errands were open at the start.
    pub(crate) before: u64,
    /// When the fleet began: the microseconds since 1970.
    pub(crate) began_at: u64,
    pub(crate) version: &'static str,
}

/// How long the robots wait. On a map with a bridge there is a limit if all errands have to go to roomy cells.
fn waits_of(party: &Party) -> WaitReport {
    let core = &party.fleet.session.world.core;
    WaitReport {
        longest: core.longest_wait(),
        limit: if party.door.roomy {
            core.roomy_wait_limit(&party.door.roominess)
        } else {
            core.wait_limit()
        },
    }
}

impl Reports {
    pub(crate) fn new<R: Clock>(
        rt: &R,
        world: &World,
        errors: ReportOut,
        figures: Option<ReportOut>,
        version: &'static str,
    ) -> Reports {
        Reports {
            errors,
            figures,
            before: world.core.queues().total,
            began_at: wall_micros(rt),
            version,
        }
    }

    /// If a minute went by since the last line of counts, says the next.
    pub(crate) fn say_counts<R: Wait>(
        &mut self,
        rt: &R,
        alloc: Global,
        pace: &mut Pace,
        counts: &mut Counts,
        party: &Party,
    ) -> Result<(), AllocError> {
        if let Some(seconds) = pace.takes_line() {
            let line = counts.tally.line(alloc, seconds, waits_of(party))?;
            self.errors.say(rt, line.as_bytes());
            counts.tally = Tally::NONE;
        }
        Ok(())
    }

    /// Says what the keeper of chapters has to say.
    pub(crate) fn say_kept<R: Wait>(&mut self, rt: &R, alloc: Global, shelf: &Shelf) {
        let mut text = Vec::new(alloc);
        shelf.take_said(rt, &mut text);
        if !text.is_empty() {
            self.errors.say(rt, &text);
        }
    }

    /// Lets the thread that writes the error output end, and waits until it has written all, a second at most.
    pub(crate) fn finish<R: Clock + Wait>(&self, rt: &R) {
        self.errors.link.finish(rt);
        for _ in 0..MOST_LOOKS {
            if self.errors.link.is_written() {
                return;
            }
            thread::sleep(rt, Duration::from_millis(5));
        }
    }

    /// The figures now.
    fn figures_of(
        &self,
        pace: &Pace,
        counts: &Counts,
        party: &Party,
        standing: Standing,
    ) -> Figures {
        let core = &party.fleet.session.world.core;
        Figures {
            tally: counts.all,
            timing: counts.timing,
            period: pace.period,
            notices: counts.notices,
            waits: waits_of(party),
            queues: core.queues(),
            before: self.before,
            kept: standing.kept,
            waiting: standing.waiting,
            field_bytes: core.kept_bytes(),
            began_at: self.began_at,
            kept_at: standing.kept_at,
            version: self.version,
        }
    }

    /// Says all figures, unless those before them are not written yet.
    pub(crate) fn show<R: Wait>(
        &mut self,
        rt: &R,
        alloc: Global,
        (pace, counts): (&Pace, &Counts),
        party: &Party,
        standing: Standing,
    ) -> Result<(), AllocError> {
        let text = self.figures_of(pace, counts, party, standing).text(alloc)?;
        if let Some(figures) = &mut self.figures {
            figures.say_alone(rt, text.as_bytes());
        }
        Ok(())
    }
}
