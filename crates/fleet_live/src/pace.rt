//! When turns, figures and chapters are due.

ghost use Rattle.std.specs.Prelude.{◌≡◌, ◌<◌, ◌≤◌, ◌+◌, ◌*◌, ◌-◌, ◌%◌, ◌^◌, ◌&&◌, ◌||◌, false, nat_le, nat_lt, is_some, option_map, if◌then◌else◌};
ghost use Rattle.std.specs.Duration.{as_nanos};
ghost use Rattle.live_parts.specs.Notices.{capped};
ghost use Rattle.fleet_live.specs.Pace.{counted_micros, due_of, earlier, line_seconds, next_due, period_length, strikes, struck};

use live_parts::{LiveSettings, next_due};
use std::time::{Clock, Duration, Instant};

/// The greatest number of microseconds that can be counted: 63,000 years.
const MOST_MICROS: u64 = 2_000_000_000_000_000_000;

/// The microseconds of a second, and of a minute.
const SECOND: u64 = 1_000_000;

const MINUTE: u64 = 60_000_000;

/// The microseconds, or the greatest number of them that is counted.
fn capped_micros(micros: u64) -> u64
    ensures value { result ≡ counted_micros micros }
    ensures bound { result < 2 ^ 62 }
{
    if micros < MOST_MICROS {
        micros
    } else {
        MOST_MICROS
    }
}

/// The microseconds of a period, at least one.
fn length_of(period: Option<u32>) -> u64
    ensures value { result ≡ period_length period }
    ensures bound { (0 < result) × (result < 2 ^ 32) }
{
    u64::from(period.unwrap_or(0)).max(1)
}

/// Something that is due at regular intervals, in microseconds.
#[derive(Clone, Copy)]
pub(crate) struct Timer {
    every: u64,
    due: u64,
}

/// The deadlines, in microseconds since the start.
#[derive(Clone, Copy)]
pub(crate) struct Pace {
    start: Instant,
    /// What the clock showed last.
    pub(crate) now: u64,
    /// The time between two turns, if they come by themselves.
    pub(crate) period: Option<u32>,
    /// When the next turn, and the next line of counts, are due.
    turn: u64,
    line: u64,
    figures: Option<Timer>,
    chapter: Option<Timer>,
    /// From this time on a turn lets the chapters that wait be tried again.
    retry: u64,
}

/// The earlier of two times, if there is one.
fn earlier(one: Option<u64>, other: Option<u64>) -> Option<u64>
    ensures { result ≡ earlier one other }
{
    match (one, other) {
        (Some(one), Some(other)) => Some(one.min(other)),
        (Some(one), None) => Some(one),
        (None, other) => other,
    }
}

/// When a timer is due.
fn due_of(timer: Option<Timer>) -> Option<u64>
    ensures { result ≡ due_of timer }
{
    match timer {
        Some(timer) => Some(timer.due),
        None => None,
    }
}

/// Whether a timer is due. If it is, its next time is set.
fn strikes(timer: &mut Option<Timer>, now: u64) -> bool
    ensures strikes { result ≡ strikes timer.old now }
    ensures next { timer.new ≡ struck timer.old now }
{
    match timer {
        Some(timer) if now >= timer.due => {
            timer.due = now.saturating_add(timer.every);
            true
        }
        _ => false,
    }
}

impl Pace {
    /// The deadlines from now on. `None` if the clock cannot be read.
    pub(crate) fn new<R: Clock>(
        rt: &R,
        settings: &LiveSettings,
        has_figures: bool,
    ) -> Option<Pace> {
        let start = Instant::now(rt).ok()?;
        let chapter = match settings.keep_every {
            Some(micros) => Some(Timer {
                every: u64::from(micros),
                due: u64::from(micros),
            }),
            None => None,
        };
        Some(Pace {
            start,
            now: 0,
            period: settings.period,
            turn: u64::from(settings.period.unwrap_or(0)),
            line: MINUTE,
            figures: if has_figures {
                Some(Timer {
                    every: SECOND,
                    due: 0,
                })
            } else {
                None
            },
            chapter,
            retry: 0,
        })
    }

    /// Reads the clock, and returns whether that was possible.
    pub(crate) fn read<R: Clock>(&mut self, rt: &R) -> bool {
        match self.start.elapsed(rt) {
            Ok(time) => {
                self.now = u64::try_from(time.as_micros()).unwrap_or(MOST_MICROS);
                true
            }
            Err(_) => false,
        }
    }

    /// Whether anything is ever due.
    pub(crate) fn is_timed(&self) -> bool
        ensures { result ≡ (is_some self.entry.now.period || is_some self.entry.now.figures || is_some self.entry.now.chapter) }
    {
        self.period.is_some() || self.figures.is_some() || self.chapter.is_some()
    }

    /// Whether a turn is due.
    pub(crate) fn is_turn_due(&self) -> bool
        ensures { result ≡ (is_some self.entry.now.period && nat_le self.entry.now.turn self.entry.now.now) }
    {
        self.period.is_some() && self.now >= self.turn
    }

    /// How long it is until something is due, if anything ever is.
    pub(crate) fn time_left(&self) -> Option<Duration>
        ensures { option_map as_nanos result ≡ option_map (λ due. (due - self.entry.now.now) * 1000) (next_due self.entry.now) }
    {
        let turn = match self.period {
            Some(_) => Some(self.turn),
            None => None,
        };
        let timers = earlier(due_of(self.figures), due_of(self.chapter));
        let due = earlier(turn, timers)?;
        Some(Duration::from_micros(due.saturating_sub(self.now)))
    }

    /// Whether figures are to be shown now. If so, they are due again a second later.
    pub(crate) fn takes_figures(&mut self) -> bool
        ensures takes { result ≡ strikes self.old.figures self.old.now }
        ensures next { self.new ≡ record self.old { figures = struck self.old.figures self.old.now } }
    {
        strikes(&mut self.figures, self.now)
    }

    /// Whether a chapter is to be handed out now. If so, the time of the next one is set.
    pub(crate) fn takes_chapter(&mut self) -> bool
        ensures takes { result ≡ strikes self.old.chapter self.old.now }
        ensures next { self.new ≡ record self.old { chapter = struck self.old.chapter self.old.now } }
    {
        strikes(&mut self.chapter, self.now)
    }

    /// How long after its deadline a turn begins at this time, in microseconds.
    pub(crate) fn lateness(&self, began: u64) -> u64
        ensures { result ≡ began - counted_micros self.entry.now.turn }
    {
        began.saturating_sub(capped_micros(self.turn))
    }

    /// The time between two turns, at least one microsecond.
    pub(crate) fn length(&self) -> u64
        ensures value { result ≡ period_length self.entry.now.period }
        ensures bound { (0 < result) × (result < 2 ^ 32) }
    {
        length_of(self.period)
    }

    /// Sets the deadline after a turn that has just ended: the first that comes a whole number of periods after the one
    /// before and is later than now. Returns the deadline before, and this one.
    pub(crate) fn end_turn(&mut self) -> (u64, u64)
        ensures due { result.0 ≡ counted_micros self.old.turn }
        ensures next { self.new ≡ record self.old { turn = result.1 } }
        ensures later { counted_micros self.old.now < result.1 }
        ensures soon { result.1 ≤ result.0 + (counted_micros self.old.now - result.0) + period_length self.old.period }
        ensures grid { (result.1 - result.0) % period_length self.old.period ≡ 0 }
        ensures after { result.0 + period_length self.old.period ≤ result.1 }
    {
        let due = capped_micros(self.turn);
        self.turn = next_due(due, self.length(), capped_micros(self.now));
        (due, self.turn)
    }

    /// The seconds since the last line of counts, if the next one is due. The one after that is due a minute later.
    pub(crate) fn takes_line(&mut self) -> Option<u64>
        ensures seconds { result ≡ line_seconds self.old }
        ensures next { self.new ≡ record self.old { line = if nat_lt self.old.now self.old.line then self.old.line else capped self.old.now 60000000 } }
    {
        if self.now < self.line {
            return None;
        }
        let seconds = (self.now - self.line) / SECOND;
        self.line = self.now.saturating_add(MINUTE);
        Some(seconds.saturating_add(60))
    }

    /// Whether chapters that wait may be tried again now. If so, they may be again a second later.
    pub(crate) fn takes_retry(&mut self) -> bool
        ensures takes { result ≡ nat_le self.old.retry self.old.now }
        ensures next { self.new ≡ record self.old { retry = if nat_le self.old.retry self.old.now then capped self.old.now 1000000 else self.old.retry } }
    {
        if self.now < self.retry {
            return false;
        }
        self.retry = self.now.saturating_add(SECOND);
        true
    }
}
