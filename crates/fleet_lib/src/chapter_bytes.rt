//! How long the text of a chapter may be.

ghost use Rattle.std.specs.Prelude.{ℕ, IfSome, IfNone, string_bytes};
ghost use Rattle.std.specs.Option.{option_map};
ghost use Rattle.fleet_lib.specs.Length.{AsksBytes};

use fleet_map::text::number_up_to;

/// The bytes of a chapter's text that a word asks for: from 1 MiB to 1 GiB, which is the greatest that can be read, and
/// 64 MiB without a word.
pub(crate) fn chapter_bytes_in(word: &Option<String>) -> Option<u64>
    ensures asked { IfSome result (AsksBytes (option_map (λ s. string_bytes s) word.now)) }
    ensures refused { IfNone result ((n : ℕ) → AsksBytes (option_map (λ s. string_bytes s) word.now) n → ⊥) }
{
    match word {
        None => Some(64 << 20),
        Some(word) => {
            let number = number_up_to(word.as_bytes(), (1 << 30) + 1)?;
            if 1 << 20 <= number && number <= 1 << 30 {
                Some(number)
            } else {
                None
            }
        }
    }
}
