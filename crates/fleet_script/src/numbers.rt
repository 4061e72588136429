//! The numbers of a script's line.

ghost use Rattle.std.specs.Prelude.{◌≡◌, ◌≤◌, ◌^◌, length, min, map, IfOk, Some};
ghost use Rattle.std.specs.Option.{option_map};
ghost use Rattle.fleet_map.specs.Text.{words_of, number_of};
ghost use Rattle.fleet_script.specs.Numbers.{number_in, one_in, most32};

use fleet_map::text::first_word;

/// The number that a word of digits says, or 2^64 if that is greater.
fn wide_number(word: &[u8]) -> Option<u128>
    ensures { result ≡ option_map (λ n. min n (2 ^ 64)) (number_of word.now) }
{
    if word.is_empty() {
        return None;
    }
    let mut number = 0u128;
    for digit in word {
        if !digit.is_ascii_digit() {
            return None;
        }
        number = (10 * number + u128::from(*digit - b'0')).min(1 << 64);
    }
    Some(number)
}

/// The number that a word of at most 20 digits says, if it is at most `most`.
pub(crate) fn number_of_word(word: &[u8], most: u64) -> Option<u64>
    ensures { result ≡ number_in most word.now }
{
    if word.len() > 20 {
        return None;
    }
    let number = wide_number(word)?;
    if number <= u128::from(most) {
        Some(number as u64)
    } else {
        None
    }
}

pub(crate) fn one_number(words: &[u8], most: u64) -> Option<u64>
    ensures { result ≡ one_in most (words_of words.now) }
{
    let (word, rest) = first_word(words)?;
    match first_word(rest) {
        None => number_of_word(word, most),
        Some(_) => None,
    }
}

/// The number of 32 bits that a word is.
pub(crate) fn small_number(word: &[u8]) -> Option<u32>
    ensures { result ≡ number_in most32 word.now }
{
    let number = number_of_word(word, u64::from(u32::MAX))?;
    Some(number as u32)
}

/// The number of 32 bits that the text says, if the text is exactly one word.
pub fn one_small_number(words: &[u8]) -> Option<u32>
    ensures { result ≡ one_in most32 (words_of words.now) }
{
    let number = one_number(words, u64::from(u32::MAX))?;
    Some(number as u32)
}
