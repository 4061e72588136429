//! The loop's end of a reader's ring.

ghost use Rattle.std.specs.Prelude.{◌≡◌, ◌++◌, ◌∷◌, [], None, Ok, Some, true, IfOk, OnOk, if◌then◌else◌};
ghost use Rattle.std.specs.List.{position};
ghost use Rattle.fleet_live.specs.Quit.{ends_fleet, quit_from};
ghost use Rattle.fleet_live.specs.Taken.{TakesBytes, is_line_feed};

use crate::link::Link;
use fleet_talk::line_of;
use live_parts::{Demand, Rights, demand_of};
use rtrb::Consumer;
use std::alloc::{AllocError, Global};
use std::sync::{Arc, Wait};

/// How many bytes are taken out of a ring at once.
const PIECE: usize = 4096;

/// While this many bytes wait outside the ring, no more are taken out of it to look for `quit`.
const MOST_BYTES: usize = 65_536;

/// The lines of a conversation that were read and are not heard yet.
#[derive(Drop)]
pub(crate) struct LinesIn {
    pub(crate) ring: Consumer<u8>,
    link: Arc<Link>,
    /// What was taken out of the ring, from the first byte on that belongs to no line that was heard.
    pub(crate) bytes: Vec<u8>,
    piece: Vec<u8>,
    /// How many of the bytes are known to have no line that ends the fleet.
    looked: usize,
    /// Whether one has.
    quits: bool,
}

/// The length of the first line, if it is whole.
fn line_len(bytes: &[u8]) -> Option<usize>
    ensures { result ≡ position is_line_feed bytes.now }
{
    bytes.iter().position(|byte| *byte == b'\n')
}

/// Whether a line, without its line feed, ends the fleet.
fn ends_fleet(rights: Rights, line: &[u8]) -> bool
    ensures { result ≡ ends_fleet rights line.now }
{
    matches!(demand_of(rights, line_of(1, line)), Demand::Quit)
}

/// How many bytes are before the first whole line from this byte on that ends the fleet, or before what is no whole line
/// yet, and whether there is such a line.
fn find_quit(bytes: &[u8], from: usize, rights: Rights) -> (usize, bool)
    ensures { result ≡ quit_from rights bytes.now from }
{
    let mut looked = from.min(bytes.len());
    for _line in 0..bytes.len() {
        let rest = &bytes[looked..];
        let Some(len) = line_len(rest) else {
            return (looked, false);
        };
        if ends_fleet(rights, &rest[..len]) {
            return (looked, true);
        }
        looked += len + 1;
    }
    (looked, false)
}

/// Takes the first line out of bytes, which has this length without its line feed.
#[tactic(auto, using(crate::proofs::Cut::cut_at, crate::proofs::Cut::has_no_feed))]
fn cut_line(bytes: &mut Vec<u8>, len: usize, line: &mut Vec<u8>) -> Result<(), AllocError>
    requires { position is_line_feed bytes.old.items ≡ Some len }
    ensures parts { OnOk result (bytes.old.items ≡ line.new.items ++ 10 ∷ bytes.new.items) }
    ensures whole { OnOk result (position is_line_feed line.new.items ≡ None) }
{
    line.clear();
    line.extend_from_slice(&bytes[..len])?;
    bytes.drain(..len + 1);
    Ok(())
}

impl LinesIn {
    pub(crate) fn new(
        alloc: Global,
        ring: Consumer<u8>,
        link: Arc<Link>,
    ) -> Result<LinesIn, AllocError>
        ensures ring { IfOk result (λ lines. lines.ring ≡ ring) }
        ensures bytes { IfOk result (λ lines. lines.bytes.items ≡ []) }
    {
        Ok(LinesIn {
            ring,
            link,
            bytes: Vec::new(alloc),
            piece: vec![in alloc; 0u8; PIECE]?,
            looked: 0,
            quits: false,
        })
    }

    /// Takes bytes out of the ring, and returns whether there were some.
    fn pull<R: Wait>(&mut self, rt: &R) -> Result<bool, AllocError>
        ensures { OnOk result (TakesBytes self.old self.new []) }
    {
        let count = self
            .ring
            .pop_partial_slice(&mut self.piece)
            .min(self.piece.len());
        if count == 0 {
            return Ok(false);
        }
        self.bytes.extend_from_slice(&self.piece[..count])?;
        self.link.make_room(rt);
        Ok(true)
    }

    /// Takes the next line, without its line feed, if one is there. Returns whether there was one.
    pub(crate) fn take<R: Wait>(&mut self, rt: &R, line: &mut Vec<u8>) -> Result<bool, AllocError>
        ensures line { IfOk result (λ found. TakesBytes self.old self.new (if found then line.new.items ++ 10 ∷ [] else [])) }
        ensures whole { result ≡ Ok true → position is_line_feed line.new.items ≡ None }
    {
        for _ in rt.forever() {
            if let Some(len) = line_len(&self.bytes) {
                cut_line(&mut self.bytes, len, line)?;
                self.looked = self.looked.saturating_sub(len).saturating_sub(1);
                return Ok(true);
            }
            if !self.pull(rt)? {
                return Ok(false);
            }
        }
        unreachable!()
    }

    /// Looks through the lines that were not looked at yet for one that ends the fleet.
    fn look(&mut self, rights: Rights)
        ensures ring { self.new.ring ≡ self.old.ring }
        ensures bytes { self.new.bytes ≡ self.old.bytes }
    {
        let (looked, quits) = find_quit(&self.bytes, self.looked, rights);
        self.looked = looked;
        self.quits |= quits;
    }

    /// Whether a line that ends the fleet was read, among those that are taken out of the ring before they are heard.
    pub(crate) fn has_quit<R: Wait>(&mut self, rt: &R, rights: Rights) -> Result<bool, AllocError>
        ensures { OnOk result (TakesBytes self.old self.new []) }
    {
        for _ in rt.forever() {
            self.look(rights);
            if self.quits || self.bytes.len() >= MOST_BYTES || !self.pull(rt)? {
                return Ok(self.quits);
            }
        }
        unreachable!()
    }
}
