//! The words for named pipes.

ghost use Rattle.std.specs.Prelude.{◌≡◌, ◌<◌, ◌∷◌, ◌++◌, IfSome, length};

/// The names of the pipes that a word has: before its first comma, and after it. `None` where there is no comma, or
/// none is named.
pub fn pipe_names(word: &str) -> Option<(&str, &str)>
    ensures { IfSome result (λ names. (0 < length names.0.now) × (0 < length names.1.now) × (word.now ≡ names.0.now ++ 44 ∷ names.1.now)) }
{
    let (input, output) = word.split_once(',')?;
    if input.is_empty() || output.is_empty() {
        return None;
    }
    Some((input, output))
}

/// The names of the pipes of a word, or of none.
fn names_in(word: &str) -> (&str, &str) {
    pipe_names(word).unwrap_or(("", " "))
}

/// Whether a pipe is named twice.
pub(crate) fn names_twice(words: &[String]) -> bool {
    for at in 0..words.len() {
        let (input, output) = names_in(words[at].as_str());
        if input == output {
            return true;
        }
        for other in &words[at + 1..] {
            let (more, back) = names_in(other.as_str());
            if input == more || input == back || output == more || output == back {
                return true;
            }
        }
    }
    false
}
