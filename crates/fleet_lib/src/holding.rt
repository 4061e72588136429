//! A conversation of the program, with its hooks.

ghost use Rattle.std.specs.Prelude.{◌≡◌, ◌≤◌, IfSome, vec_len};
ghost use Rattle.std.specs.Io.Buffered.{reader_remaining};
ghost use Rattle.std.specs.Option.{option_map};
ghost use Rattle.fleet_text.specs.Kit.{kit_laws};
ghost use Rattle.fleet_talk.specs.Chapters.{chapter_shown};
ghost use Rattle.fleet_talk.specs.Heading.{drafted};
ghost use Rattle.fleet_lib.specs.Ended.{EndsWith, IsEnded, broken_off, file_shown, kept_end, terms_of};

use crate::kept::{KeptFault, KeptText, kept_chapter};
use fleet_grid::Grid;
use fleet_history::Chapter;
use fleet_hooks::{ArrivalHook, Farewell, Hooks, TieHook};
use fleet_script::Head;
use fleet_talk::{
    ChapterSink, Ends, Ground, MOST_ROBOTS, ResumeFault, Settings, TalkFault, converse, resume,
};
use fleet_text::HookKit;
use std::alloc::{Alloc, Global};
use std::io::{Read, Write};

/// How a conversation ended whose head named the fleet, as a result of `resume`.
fn broken_off(ended: Result<bool, TalkFault>) -> Result<bool, ResumeFault>
    ensures { result ≡ broken_off ended }
{
    match ended {
        Ok(limited) => Ok(limited),
        Err(fault) => Err(ResumeFault::Talk(fault)),
    }
}

/// Holds a conversation. Its fleet goes on from the chapter, if there is one.
fn hold_on<R: Alloc<A = Global>, I: Read, W: Write, S: ChapterSink>(
    rt: &R,
    ground: Ground,
    kept: Option<Chapter>,
    settings: Settings,
    ends: &mut Ends<I, W, S>,
) -> Result<bool, ResumeFault>
    // Of each call: only a call with a condition may hand on closures.
    requires { 0 ≤ vec_len ground.kit.plain.ties }
    ensures { IfSome (reader_remaining I.remaining ends.old.input) (λ bytes.
        EndsWith (record { kit = kit_laws ground.kit; floor = ground.grid; settings = settings; head = drafted ground.head }) (option_map chapter_shown kept) bytes
        (W.contents ends.old.output) (W.contents ends.new.output) (record { old = S.kept ends.old.sink; new = S.kept ends.new.sink }) result) }
{
    match kept {
        Some(chapter) => resume(rt, ground, chapter, settings, ends),
        None => broken_off(converse(rt, ground, settings, ends)),
    }
}

/// Holds a conversation with the hooks of `errands run`, for as many robots as it may have. Its fleet goes on from the
/// chapter, if there is one.
fn hold_with_hooks<R: Alloc<A = Global>, I: Read, W: Write, S: ChapterSink>(
    rt: &R,
    ground: (Grid, Head),
    kept: Option<Chapter>,
    settings: Settings,
    ends: &mut Ends<I, W, S>,
) -> Result<bool, ResumeFault>
    ensures { IfSome (reader_remaining I.remaining ends.old.input) (λ bytes.
        EndsWith (terms_of ground.0 (drafted ground.1) settings) (option_map chapter_shown kept) bytes
        (W.contents ends.old.output) (W.contents ends.new.output) (record { old = S.kept ends.old.sink; new = S.kept ends.new.sink }) result) }
{
    let alloc = rt.alloc();
    let plain = Hooks::alike(
        alloc,
        MOST_ROBOTS,
        TieHook::fixed([0; 4]),
        ArrivalHook::fixed(0),
        Farewell::fixed(0),
    )?;
    let south = Hooks::alike(
        alloc,
        MOST_ROBOTS,
        TieHook::south_first(),
        ArrivalHook::by_tick(),
        Farewell::by_cell(),
    )?;
    let kit = HookKit { plain, south };
    let (grid, head) = ground;
    hold_on(rt, Ground { grid, kit, head }, kept, settings, ends)
}

/// How a conversation ended, as one whose chapter was to come from a file.
fn kept_end(ended: Result<bool, ResumeFault>) -> Result<bool, KeptFault>
    ensures { result ≡ kept_end ended }
{
    match ended {
        Ok(limited) => Ok(limited),
        Err(fault) => Err(KeptFault::Resume(fault)),
    }
}

/// Holds a conversation. Its fleet goes on from the chapter of a file, if one is given.
pub(crate) fn hold<R: Alloc<A = Global>, I: Read, W: Write, S: ChapterSink>(
    rt: &R,
    ground: (Grid, Head),
    kept: Option<KeptText<'_>>,
    settings: Settings,
    ends: &mut Ends<I, W, S>,
) -> Result<bool, KeptFault>
    ensures { IfSome (reader_remaining I.remaining ends.old.input) (λ bytes.
        IsEnded (terms_of ground.0 (drafted ground.1) settings) (option_map file_shown kept.entry) bytes
        (W.contents ends.old.output) (W.contents ends.new.output) (record { old = S.kept ends.old.sink; new = S.kept ends.new.sink }) result) }
{
    match kept {
        Some(kept) => match kept_chapter(rt.alloc(), kept) {
            Ok(chapter) => kept_end(hold_with_hooks(rt, ground, Some(chapter), settings, ends)),
            Err(fault) => Err(fault),
        },
        None => kept_end(hold_with_hooks(rt, ground, None, settings, ends)),
    }
}
