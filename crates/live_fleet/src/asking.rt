//! What is asked of the keeper.

ghost use Rattle.std.specs.Prelude.{◌≡◌, ◌≤◌, ◌<◌, List, Some, OnOk, slice_get, vec_len};
ghost use Rattle.fleet_talk.specs.Said.{under};
ghost use Rattle.live_fleet.specs.declared.speaker.Speaker.{Speaker};
ghost use Rattle.live_fleet.specs.Act.{Act};
ghost use Rattle.live_fleet.specs.Asking.{Grants, ShutsOne, TurnsChapter};
ghost use Rattle.live_fleet.specs.Party.{IsDoorOf, stage_of};
ghost use Rattle.live_parts.specs.declared.demand.Wanted.TheVariants.{Look, Tick};

use crate::answering::kept_mark;
use crate::line::{Place, shut_answer};
use crate::outboxes::Outboxes;
use crate::party::Party;
use crate::rest::Rest;
use crate::stepping::hand_out;
use fleet_talk::look_text;
use fleet_text::chapter_refused_line;
use live_parts::Wanted;
use std::alloc::{Alloc, AllocError, Global};

impl Party {
    /// Shuts a robot, and answers.
    fn ask_shut<R: Alloc<A = Global>>(
        &mut self,
        rt: &R,
        out: &mut Outboxes,
        place: Place<'_>,
        robot: u32,
    ) -> Result<(), AllocError>
        requires number { 0 ≤ self.old.fleet.session.world.core.number }
        requires there { place.to < vec_len self.old.speakers }
        requires texts { vec_len self.old.speakers ≤ vec_len out.old.texts }
        ensures ok { OnOk result ((sp : Speaker) → slice_get self.old.speakers.items place.entry.to ≡ Some sp →
            (acts : List Act) × ShutsOne place.entry.to sp (under place.entry.line.mark) robot (stage_of self.old out.old) acts (stage_of self.new out.new)) }
    {
        let text = shut_answer(rt, &mut self.fleet, out, robot)?;
        self.say(rt.alloc(), out, place, text.as_str())
    }

    /// Hands out the chapter. The answer comes once it is kept; if it is the last, the answer is that.
    fn ask_chapter(
        &mut self,
        alloc: Global,
        out: &mut Outboxes,
        place: Place<'_>,
    ) -> Result<(), AllocError>
        requires number { 0 ≤ self.old.fleet.session.world.core.number }
        requires there { place.to < vec_len self.old.speakers }
        requires texts { vec_len self.old.speakers ≤ vec_len out.old.texts }
        ensures ok { OnOk result ((sp : Speaker) → slice_get self.old.speakers.items place.entry.to ≡ Some sp →
            (acts : List Act) × TurnsChapter place.entry.to sp (under place.entry.line.mark) (stage_of self.old out.old) acts (stage_of self.new out.new)) }
    {
        let mark = kept_mark(alloc, place.line.mark)?;
        let chapter = self.fleet.session.world.chapter();
        let (number, entries) = (chapter.number, chapter.entries.len());
        if hand_out(&mut self.fleet, out)? {
            self.speakers[place.to].rest = Rest::Keeping {
                mark,
                chapter: number,
                entries,
            };
            return Ok(());
        }
        self.say(alloc, out, place, chapter_refused_line())
    }

    /// Begins to make this number of turns.
    fn ask_ticks(
        &mut self,
        alloc: Global,
        out: &Outboxes,
        place: Place<'_>,
        times: u32,
    ) -> Result<(), AllocError>
        requires number { 0 ≤ self.old.fleet.session.world.core.number }
        requires there { place.to < vec_len self.old.speakers }
        ensures ok { OnOk result ((sp : Speaker) → slice_get self.old.speakers.items place.entry.to ≡ Some sp →
            (acts : List Act) × Grants place.entry.to sp (under place.entry.line.mark) (Tick times) (stage_of self.old out.now) acts (stage_of self.new out.now)) }
    {
        // It is read by the contract alone.
        let _out = out;
        let mark = kept_mark(alloc, place.line.mark)?;
        self.speakers[place.to].rest = Rest::Ticking { mark, left: times };
        Ok(())
    }

    /// Says how the fleet stands.
    fn ask_look(
        &mut self,
        alloc: Global,
        out: &mut Outboxes,
        place: Place<'_>,
    ) -> Result<(), AllocError>
        requires number { 0 ≤ self.old.fleet.session.world.core.number }
        requires there { place.to < vec_len self.old.speakers }
        requires texts { vec_len self.old.speakers ≤ vec_len out.old.texts }
        requires door { IsDoorOf (stage_of self.old out.old) }
        ensures ok { OnOk result ((sp : Speaker) → slice_get self.old.speakers.items place.entry.to ≡ Some sp →
            (acts : List Act) × Grants place.entry.to sp (under place.entry.line.mark) Look (stage_of self.old out.old) acts (stage_of self.new out.new)) }
    {
        let session = &self.fleet.session;
        let text = look_text(alloc, &session.world, &self.door.roominess)?;
        self.say(alloc, out, place, text.as_str())
    }

    /// Does what is asked of the keeper.
    pub(crate) fn ask<R: Alloc<A = Global>>(
        &mut self,
        rt: &R,
        out: &mut Outboxes,
        place: Place<'_>,
        wanted: Wanted,
    ) -> Result<(), AllocError>
        requires number { 0 ≤ self.old.fleet.session.world.core.number }
        requires there { place.to < vec_len self.old.speakers }
        requires texts { vec_len self.old.speakers ≤ vec_len out.old.texts }
        requires door { IsDoorOf (stage_of self.old out.old) }
        ensures ok { OnOk result ((sp : Speaker) → slice_get self.old.speakers.items place.entry.to ≡ Some sp →
            (acts : List Act) × Grants place.entry.to sp (under place.entry.line.mark) wanted (stage_of self.old out.old) acts (stage_of self.new out.new)) }
    {
        match wanted {
            Wanted::Shut(robot) => self.ask_shut(rt, out, place, robot),
            Wanted::Look => self.ask_look(rt.alloc(), out, place),
            Wanted::Chapter => self.ask_chapter(rt.alloc(), out, place),
            Wanted::Tick(times) => self.ask_ticks(rt.alloc(), out, place, times),
            // No line asks this of the keeper.
            Wanted::Open(_) | Wanted::Settle => Ok(()),
        }
    }
}
