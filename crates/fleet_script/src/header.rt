//! The header lines of a script, one by one.

ghost use Rattle.std.specs.Prelude.{◌≡◌, [], ℕ, List, IfOk};
ghost use Rattle.std.specs.Option.{option_map};
ghost use Rattle.fleet_map.specs.Text.{words_of};
ghost use Rattle.fleet_book.specs.declared.event.Event.{Event};
ghost use Rattle.fleet_script.specs.Script.{starts_within, with_header_within, blank_draft};
ghost use Rattle.fleet_script.specs.Shown.{headed, IsTaken};

use crate::head::{GivenLimits, is_south, set_once, turn_count};
use crate::numbers::{one_small_number, small_number};
use fleet_book::Limit;
use fleet_map::text::first_word;
use std::alloc::{AllocError, Allocator, Global};

/// What header lines said so far: `None` if no line said it.
#[derive(Drop)]
pub struct Head<A: Allocator + Copy = Global> {
    /// The start cells of robots 0, 1, ..
    pub starts: Option<Vec<u32, A>>,
    /// The number of clients.
    pub clients: Option<u32>,
    /// Whether the southern closures rank the cells, and not the plain ones.
    pub south: Option<bool>,
    /// How many turns each ticker makes in a serve.
    pub turns: Option<u32>,
    pub limits: GivenLimits,
}

/// The numbers that the words say, if there are 1 to `most` of them.
fn cells<A: Allocator + Copy>(
    alloc: A,
    most: usize,
    words: &[u8],
) -> Result<Option<Vec<u32, A>>, AllocError>
    ensures { IfOk result (λ cells. option_map (λ v. v.items) cells ≡ starts_within most (words_of words.now)) }
{
    let mut cells = Vec::new(alloc);
    let mut rest = words;
    while let Some((word, after)) = first_word(rest) {
        let Some(cell) = small_number(word) else {
            return Ok(None);
        };
        if cells.len() == most {
            return Ok(None);
        }
        cells.push(cell)?;
        rest = after;
    }
    if cells.is_empty() {
        Ok(None)
    } else {
        Ok(Some(cells))
    }
}

impl<A: Allocator + Copy> Head<A> {
    /// A head of no lines. It allocates nothing.
    pub fn new() -> Head<A>
        ensures { headed result [] [] ≡ blank_draft }
    {
        Head {
            starts: None,
            clients: None,
            south: None,
            turns: None,
            limits: GivenLimits::NONE,
        }
    }

    /// Adds a header line, given as its first word (`key`) and its other words. Returns true where it is a header line
    /// and the first with this key, otherwise false, and changes nothing then. A line `robots` may name at most `most`
    /// cells.
    pub fn add_header(
        &mut self,
        alloc: A,
        most: usize,
        key: &[u8],
        words: &[u8],
    ) -> Result<bool, AllocError>
        ensures { (events : List Event) (lines : List ℕ) → IfOk result (λ taken. IsTaken taken
            (with_header_within most (headed self.old events lines) key.now (words_of words.now)) (headed self.old events lines) (headed self.new events lines)) }
    {
        if key == b"robots".as_slice() {
            let starts = cells(alloc, most, words)?;
            Ok(set_once(&mut self.starts, starts).is_some())
        } else if key == b"clients".as_slice() {
            Ok(set_once(&mut self.clients, one_small_number(words)).is_some())
        } else if key == b"ties".as_slice() {
            Ok(set_once(&mut self.south, is_south(words)).is_some())
        } else if key == b"turns".as_slice() {
            Ok(set_once(&mut self.turns, turn_count(words)).is_some())
        } else if let Some(limit) = Limit::named(key) {
            Ok(self.limits.set(limit, words).is_some())
        } else {
            Ok(false)
        }
    }
}
