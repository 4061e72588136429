//! How a conversation is held, by the words of `talk`.

ghost use Rattle.std.specs.Prelude.{◌≡◌, ◌≢◌, ℕ, Err, Some, None, true, false, IfOk, IsSomeAnd, string_bytes};
ghost use Rattle.std.specs.Option.{option_map};
ghost use Rattle.fleet_text.specs.Transfer.{AppendsPrefix};
ghost use Rattle.fleet_lib.specs.Length.{AsksBytes, word_complaint};
ghost use Rattle.fleet_lib.specs.Planner.{manner_asked};

use crate::chapter_bytes::chapter_bytes_in;
use crate::planner::manner_in;
use crate::words::Talk;
use fleet_talk::Settings;
use fleet_text::write_whole;
use std::io::Write;

/// What is wrong with the words of `talk`.
#[derive(Clone, Copy, Debug, PartialEq, Eq)]
pub enum TalkWordFault {
    /// `--journal` without a folder.
    NoJournal,
    /// `--chapter-bytes` without `--roll`.
    NoRoll,
    /// `--chapter-bytes` with no number from 1 MiB to 1 GiB.
    ChapterBytes,
    /// `--planner` with a word that names no planner.
    Planner,
}

/// How the conversation is held that these words ask for. Refused in this order: a journal where there is no folder for it,
/// a length of chapters where none is handed out unasked, a length that is no number from 1 MiB to 1 GiB, a word that names
/// no planner.
pub fn talk_settings(talk: &Talk) -> Result<Settings, TalkWordFault>
    ensures marks { IfOk result (λ s. s.marks ≡ talk.now.marks) }
    ensures roomy { IfOk result (λ s. s.roomy ≡ talk.now.roomy) }
    ensures stays { IfOk result (λ s. talk.now.roll ≡ false → (s.roll ≡ None) × (talk.now.chapter_bytes ≡ None)) }
    ensures rolls { IfOk result (λ s. talk.now.roll ≡ true → IsSomeAnd s.roll (AsksBytes (option_map (λ w. string_bytes w) talk.now.chapter_bytes))) }
    ensures journal { IfOk result (λ s. talk.now.journal ≡ true → talk.now.traces ≢ None) }
    ensures no_folder { result ≡ Err TalkWordFault.NoJournal → (talk.now.journal ≡ true) × (talk.now.traces ≡ None) }
    ensures no_roll { result ≡ Err TalkWordFault.NoRoll → (talk.now.roll ≡ false) × (talk.now.chapter_bytes ≢ None) }
    ensures planned { IfOk result (λ s. manner_asked (option_map (λ w. string_bytes w) talk.now.planner) ≡ Some s.manner) }
    ensures refused { result ≡ Err TalkWordFault.ChapterBytes → (talk.now.roll ≡ true) × ((n : ℕ) → AsksBytes (option_map (λ w. string_bytes w) talk.now.chapter_bytes) n → ⊥) }
    ensures unknown { result ≡ Err TalkWordFault.Planner → manner_asked (option_map (λ w. string_bytes w) talk.now.planner) ≡ None }
{
    if talk.journal && talk.traces.is_none() {
        return Err(TalkWordFault::NoJournal);
    }
    let roll = if talk.roll {
        match chapter_bytes_in(&talk.chapter_bytes) {
            Some(most) => Some(most),
            None => return Err(TalkWordFault::ChapterBytes),
        }
    } else if talk.chapter_bytes.is_some() {
        return Err(TalkWordFault::NoRoll);
    } else {
        None
    };
    let Some(manner) = manner_in(&talk.planner) else {
        return Err(TalkWordFault::Planner);
    };
    Ok(Settings {
        marks: talk.marks,
        roll,
        roomy: talk.roomy,
        manner,
    })
}

/// Prints what is wrong with the words. Returns the status.
pub fn complain_of_talk<E: Write>(fault: TalkWordFault, error: &mut E) -> u8
    ensures status { result ≡ 2 }
    ensures told { AppendsPrefix (E.contents error.old) (E.contents error.new) (word_complaint fault) }
{
    let text = match fault {
        TalkWordFault::NoJournal => "error: '--journal' needs '--traces <DIR>'\n",
        TalkWordFault::NoRoll => "error: '--chapter-bytes' needs '--roll'\n",
        TalkWordFault::ChapterBytes => "error: invalid value for '--chapter-bytes <N>'\n",
        TalkWordFault::Planner => "error: invalid value for '--planner <NAME>'\n",
    };
    write_whole(error, text.as_bytes());
    2
}
