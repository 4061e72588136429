//! Where events come from, and where what is said goes.

ghost use Rattle.std.specs.Prelude.{◌≡◌, ◌≤◌, ◌++◌, [], ℕ, List, IfOk, OnOk, length};
ghost use Rattle.std.specs.declared.alloc.Global.{Global};
ghost use Rattle.fleet_talk.specs.Chapters.{ChapterView, chapter_in};
ghost use Rattle.live_fleet.specs.Out.{out_of, text_at};
ghost use Rattle.live_fleet.specs.Party.{Heard, heard_of, stage_of};
ghost use Rattle.live_parts.specs.Kept.{AreSound};
ghost use Rattle.fleet_live.specs.Logged.{HandsLogged, IsReadyAt, LogView};
ghost use Rattle.fleet_live.specs.Loop.{HandsOn, MayHear, heard_by, next_heard};

use live_fleet::{Cue, Outboxes, Party};
use std::alloc::{Alloc, AllocError, Global};
use std::sync::Wait;
use std::thread::Threads;
use std::time::Clock;

/// What a fleet is to hear next. The bytes of a line are next to it.
#[derive(Clone, Copy, Debug, PartialEq, Eq)]
pub enum Asked {
    /// A line of a conversation.
    Line(usize),
    /// There may be room for what a conversation is to be told.
    Room(usize),
    /// What is left of a conversation's answer is to go on.
    Rest(usize),
    /// One of the turns that are left for a conversation is the last.
    Last(usize),
    Turn,
    /// The chapter is due.
    Due,
    /// The chapter of this number was kept, or waits to be.
    Kept(u32),
    End,
}

impl Asked {
    /// The cue with these bytes of a line.
    pub(crate) fn cue(self, line: &[u8]) -> Cue<'_>
        ensures { heard_of result ≡ heard_by self line.now }
    {
        match self {
            Asked::Line(from) => Cue::Line { from, line },
            Asked::Room(to) => Cue::Room { to },
            Asked::Rest(from) => Cue::Rest { from },
            Asked::Last(from) => Cue::Last { from },
            Asked::Turn => Cue::Turn,
            Asked::Due => Cue::Due,
            Asked::Kept(chapter) => Cue::Kept { chapter },
            Asked::End => Cue::End,
        }
    }
}

/// What is to be done next.
#[derive(Clone, Copy, Debug, PartialEq, Eq)]
pub enum Next {
    Hear(Asked),
    /// What was said is to be handed on.
    Hand,
    /// There is time to search fields before they are needed.
    Search,
    /// The fleet has ended, and all was told.
    Over,
}

/// Where events come from.
pub trait Events {
    /// The events that were taken, in their order.
    ghost taken: { Self → List Heard };

    /// What is to be done next; waits until there is something. Of a line that is to be heard the bytes are in `line`.
    fn next<R: Alloc<A = Global> + Clock + Wait>(
        &mut self,
        rt: &R,
        party: &Party,
        out: &Outboxes,
        line: &mut Vec<u8>,
    ) -> Result<Next, AllocError>
        requires number { 0 ≤ party.now.fleet.session.world.core.number }
        ensures taken { IfOk result (λ next. taken self.new ≡ taken self.old ++ next_heard next line.new.items) }
        ensures may { IfOk result (λ next. MayHear (stage_of party.now out.now) next line.new.items) };
}

/// Where what is said goes.
pub trait Listeners {
    /// What was handed on for each conversation, and how many bytes of it are among what still waits for its reader.
    ghost told: { Self → ℕ → List ℕ };

    ghost ahead: { Self → ℕ → ℕ };
    /// The chapters that were handed on.
    ghost kept: { Self → List (ChapterView Global) };
    /// What the journal has, if one is written.
    ghost log: { Self → LogView };

    /// Hands on what was said, as much as its readers have room for, and all chapters. Before that the journal gets all
    /// entries that it has not yet; if that fails, nothing is handed on.
    fn hand<R: Alloc<A = Global> + Clock + Threads + Wait>(
        &mut self,
        rt: &R,
        party: &Party,
        out: &mut Outboxes,
    ) -> Result<(), AllocError>
        requires number { 0 ≤ party.now.fleet.session.world.core.number }
        requires within { (k : ℕ) → ahead self.old k ≤ length (text_at (out_of out.old) k) }
        requires sound { AreSound (out_of out.old).chapters }
        requires ready { (before : List (ChapterView Global)) × IsReadyAt (log self.old) before (stage_of party.now out.old) }
        ensures hands { OnOk result (HandsOn (told self.old) (told self.new) (ahead self.old) (ahead self.new) (kept self.old) (kept self.new) (out_of out.old) (out_of out.new)) }
        ensures none { OnOk result ((out_of out.new).chapters ≡ []) }
        ensures logged { (before : List (ChapterView Global)) → IsReadyAt (log self.old) before (stage_of party.now out.old)
            → HandsLogged result (told self.old) (told self.new) (kept self.old) (kept self.new) (out_of out.old).chapters before (log self.new) (chapter_in party.now.fleet.session.world.core) };
}
