//! The names of the chapters in a folder.

ghost use Rattle.std.specs.Prelude.{◌≡◌, ◌≢◌, ◌<◌, ◌≤◌, ◌^◌, ℕ, [], OnOk, IfOk, IfErr, MatchOption, decimal, map, nat_lt, string_bytes};
ghost use Rattle.std.specs.List.{All, Contains, list_any};
ghost use Rattle.std.specs.List.Sorted.{IsSorted};
ghost use Rattle.std.specs.Ordering.{nat_cmp};
ghost use Rattle.fleet_lib.specs.Names.{AreNumbers, AreReadable, IsLast, IsNamed, IsNamesFault, IsRun, chapter_name};

use fleet_map::text::number_up_to;
use std::alloc::{AllocError, Global};

/// What the name of a file says.
pub enum Named {
    /// It does not begin and end as that of a chapter.
    Other,
    /// It is that of the chapter with this number.
    Chapter(u32),
    /// It begins and ends as that of a chapter, and is that of none.
    Unreadable,
}

/// Why there is no last chapter among the files of a folder.
#[derive(Clone, Copy, Debug, PartialEq, Eq)]
pub enum NamesFault {
    /// The name at this place begins and ends as that of a chapter, and is that of none.
    Unreadable(usize),
    /// The chapter with this number is not there, and an earlier one and a later one are.
    Missing(u32),
    NoMemory,
}

impl From<AllocError> for NamesFault {
    ghost use Rattle.std.specs.Prelude.{◌≡◌};
    ghost use Rattle.fleet_lib.specs.declared.names.NamesFault.TheVariants.{NoMemory};

    ghost from_gives = { λ _ f. f ≡ NoMemory };

    fn from(_error: AllocError) -> NamesFault {
        NamesFault::NoMemory
    }
}

/// The number whose decimal digits these are, without a zero before them.
fn numeral(alloc: Global, word: &[u8]) -> Result<Option<u32>, AllocError>
    ensures { IfOk result (λ found. MatchOption found ((n : ℕ) → n < 2 ^ 32 → word.now ≢ decimal n) (λ n. (n < 2 ^ 32) × (word.now ≡ decimal n))) }
{
    let Some(number) = number_up_to(word, 1 << 32) else {
        return Ok(None);
    };
    if number >= 1 << 32 {
        return Ok(None);
    }
    let text = format!(in alloc; "{number}")?;
    if text.as_bytes() == word {
        Ok(Some(number as u32))
    } else {
        Ok(None)
    }
}

/// What a name says.
fn said_by(alloc: Global, name: &str) -> Result<Named, AllocError>
    ensures { IfOk result (IsNamed name.now) }
{
    let Some(rest) = name.as_bytes().strip_prefix(b"chapter-".as_slice()) else {
        return Ok(Named::Other);
    };
    let Some(middle) = rest.strip_suffix(b".json".as_slice()) else {
        return Ok(Named::Other);
    };
    match numeral(alloc, middle)? {
        Some(number) => Ok(Named::Chapter(number)),
        None => Ok(Named::Unreadable),
    }
}

/// What a name says as that of a chapter.
pub fn chapter_named(alloc: Global, name: &str) -> Result<Named, AllocError>
    ensures { IfOk result (IsNamed name.now) }
{
    said_by(alloc, name)
}

/// What a name says as that of a journal.
pub fn journal_named(alloc: Global, name: &str) -> Result<Named, AllocError> {
    let Some(rest) = name.as_bytes().strip_prefix(b"chapter-".as_slice()) else {
        return Ok(Named::Other);
    };
    let Some(middle) = rest.strip_suffix(b".journal".as_slice()) else {
        return Ok(Named::Other);
    };
    match numeral(alloc, middle)? {
        Some(number) => Ok(Named::Chapter(number)),
        None => Ok(Named::Unreadable),
    }
}

/// What a name says as that of a record of changes.
pub fn site_named(alloc: Global, name: &str) -> Result<Named, AllocError> {
    let Some(rest) = name.as_bytes().strip_prefix(b"site-".as_slice()) else {
        return Ok(Named::Other);
    };
    let Some(middle) = rest.strip_suffix(b".json".as_slice()) else {
        return Ok(Named::Other);
    };
    match numeral(alloc, middle)? {
        Some(number) => Ok(Named::Chapter(number)),
        None => Ok(Named::Unreadable),
    }
}

/// The numbers of the chapters that names name.
fn numbers_in(alloc: Global, names: &[String]) -> Result<Vec<u32>, NamesFault>
    ensures ok { IfOk result (λ numbers. AreNumbers (map (λ s. string_bytes s) names.now) numbers.items) }
    ensures readable { OnOk result (AreReadable (map (λ s. string_bytes s) names.now)) }
    ensures fault { IfErr result (IsNamesFault (map (λ s. string_bytes s) names.now)) }
{
    let mut numbers = Vec::new(alloc);
    for at in 0..names.len() {
        match said_by(alloc, names[at].as_str())? {
            Named::Other => {}
            Named::Chapter(number) => {
                let Ok(()) = numbers.push(number) else {
                    return Err(NamesFault::NoMemory);
                };
            }
            Named::Unreadable => return Err(NamesFault::Unreadable(at)),
        }
    }
    Ok(numbers)
}

/// The greatest number.
fn greatest(numbers: &[u32]) -> Option<u32>
    ensures { MatchOption result (numbers.now ≡ []) (λ most. Contains numbers.now most × All (λ n. n ≤ most) numbers.now) }
{
    let mut most = *numbers.first()?;
    for number in numbers {
        if *number > most {
            most = *number;
        }
    }
    Some(most)
}

/// The least number from which on all are there, up to this one. The numbers are in order.
fn begin_of(numbers: &[u32], last: u32) -> u32
    requires order { IsSorted nat_cmp numbers.now }
    requires there { Contains numbers.now last }
    ensures { IsRun numbers.now result last }
{
    let mut begin = last;
    for at in 0..numbers.len() {
        let number = numbers[numbers.len() - 1 - at];
        if number < begin {
            if begin - number > 1 {
                return begin;
            }
            begin = number;
        }
    }
    begin
}

/// Whether a number is less than this one.
fn has_less(numbers: &[u32], bound: u32) -> bool
    ensures { result ≡ list_any (λ n. nat_lt n bound) numbers.now }
{
    numbers.iter().any(|number| *number < bound)
}

/// The greatest number of a chapter among the names of a folder's files; `None` if no name is that of a chapter.
///
/// Refused in this order: the first name that begins and ends as that of a chapter and is that of none, a chapter that
/// is not there although an earlier one and a later one are (the last of these). Out of memory may come at any point.
pub fn last_chapter(alloc: Global, names: &[String]) -> Result<Option<u32>, NamesFault>
    ensures ok { IfOk result (λ last. MatchOption last ((n : ℕ) → n < 2 ^ 32 → Contains (map (λ s. string_bytes s) names.now) (chapter_name n) → ⊥) (IsLast (map (λ s. string_bytes s) names.now))) }
    ensures readable { OnOk result (AreReadable (map (λ s. string_bytes s) names.now)) }
    ensures fault { IfErr result (IsNamesFault (map (λ s. string_bytes s) names.now)) }
{
    let mut numbers = numbers_in(alloc, names)?;
    numbers.sort_unstable();
    let Some(last) = greatest(&numbers) else {
        return Ok(None);
    };
    let begin = begin_of(&numbers, last);
    if has_less(&numbers, begin) {
        return Err(NamesFault::Missing(begin - 1));
    }
    Ok(Some(last))
}
