//! What is said of the end of a conversation.

ghost use Rattle.std.specs.Prelude.{◌≡◌};
ghost use Rattle.std.specs.Option.{option_map};
ghost use Rattle.fleet_lib.specs.Ended.{TellsEnd, TellsFault, TellsKeptFault, TellsLimit, broke, file_shown};

use crate::kept::{KeptFault, complain_of_kept};
use crate::said::fail;
use crate::talk::{TalkTexts, complain, complaint_of};
use fleet_talk::{ResumeFault, TalkFault};
use fleet_text::{Complaint, InputFault};
use std::alloc::Global;
use std::io::Write;

/// Prints on the error writer that a limit was met, if one was. Returns the status.
pub(crate) fn tell_limit<E: Write>(alloc: Global, limited: bool, error: &mut E) -> u8
    ensures { TellsLimit limited (E.contents error.old) (E.contents error.new) result }
{
    if limited {
        complain(alloc, Complaint::Limit, error)
    } else {
        0
    }
}

/// Why a conversation broke off, or its robots could not take turns, if it was not for the chapter.
fn broke(fault: KeptFault) -> Option<TalkFault>
    ensures { result ≡ broke fault }
{
    match fault {
        KeptFault::Resume(ResumeFault::Talk(fault)) => Some(fault),
        KeptFault::Resume(ResumeFault::NoRooms) => Some(TalkFault::NoRooms),
        _ => None,
    }
}

/// Prints why no fleet goes on from the chapter of a file. Returns the status.
fn tell_kept_fault<E: Write>(
    alloc: Global,
    texts: TalkTexts<'_>,
    fault: KeptFault,
    error: &mut E,
) -> u8
    ensures { TellsKeptFault texts.entry.map.now (option_map file_shown texts.entry.kept) fault (E.contents error.old) (E.contents error.new) result }
{
    match texts.kept {
        Some(kept) => complain_of_kept(alloc, texts.map, kept, fault, error),
        None => fail(InputFault::NoMemory, error),
    }
}

/// Prints why a conversation broke off, or was not held. Returns the status.
fn tell_fault<E: Write>(alloc: Global, texts: TalkTexts<'_>, fault: KeptFault, error: &mut E) -> u8
    ensures { TellsFault (broke fault) texts.entry.map.now (option_map file_shown texts.entry.kept) fault (E.contents error.old) (E.contents error.new) result }
{
    match broke(fault) {
        Some(fault) => complain(alloc, complaint_of(fault), error),
        None => tell_kept_fault(alloc, texts, fault, error),
    }
}

/// Prints how a conversation ended, unless it ended well. Returns the status.
pub(crate) fn tell_end<E: Write>(
    alloc: Global,
    texts: TalkTexts<'_>,
    ended: Result<bool, KeptFault>,
    error: &mut E,
) -> u8
    ensures { TellsEnd texts.entry.map.now (option_map file_shown texts.entry.kept) ended (E.contents error.old) (E.contents error.new) result }
{
    match ended {
        Ok(limited) => tell_limit(alloc, limited, error),
        Err(fault) => tell_fault(alloc, texts, fault, error),
    }
}
