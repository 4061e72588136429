//! How what a conversation is told goes into its writer's ring.

ghost use Rattle.std.specs.Prelude.{◌≡◌, ◌≤◌, [], length, drop, map, OnOk, vec_len};
ghost use Rattle.rtrb.specs.Ring.{sent};
ghost use Rattle.fleet_live.specs.Told.{AreHanded, AreWithin, HandsText, handed};

use crate::link::Link;
use crate::text_out::TextOut;
use live_fleet::MOST_TEXT;
use rtrb::Producer;
use std::alloc::{AllocError, Global};
use std::sync::{Arc, Wait};

/// If this many bytes or more wait for a reader, the loop wants to know when some were taken.
const MUCH: usize = 32_768;

impl TextOut {
    /// Nothing was told, and the ring is new.
    pub(crate) fn new(alloc: Global, ring: Producer<u8>, link: Arc<Link>) -> TextOut
        ensures ahead { result.ahead ≡ 0 }
        ensures told { handed result ≡ sent ring }
    {
        TextOut {
            ring,
            link,
            ahead: 0,
            over: Vec::new(alloc),
            over_ahead: 0,
        }
    }

    /// Takes away from the text what the writer has taken out of the ring.
    fn let_go(&mut self, text: &mut Vec<u8>)
        requires within { self.old.ahead ≤ vec_len text.old }
        ensures told { handed self.new ≡ handed self.old }
        ensures over { self.new.over ≡ self.old.over }
        ensures rest { drop self.new.ahead text.new.items ≡ drop self.old.ahead text.old.items }
        ensures within { self.new.ahead ≤ vec_len text.new }
    {
        let waits = MOST_TEXT.saturating_sub(self.ring.slots());
        let taken = self.ahead.saturating_sub(waits);
        text.drain(..taken);
        self.ahead -= taken;
    }

    /// Puts as much of the text into the ring as there is room for. Returns whether that was any.
    fn send(&mut self, text: &[u8]) -> bool
        requires within { self.old.ahead ≤ length text.now }
        requires none { self.old.over.items ≡ [] }
        ensures { HandsText self.old self.new text.now text.now }
    {
        let (sent, _left) = self.ring.push_partial_slice(&text[self.ahead..]);
        let count = sent.len();
        self.ahead += count;
        count > 0
    }

    /// Forgets what comes after the ring once all of it is in the ring, and notes whether some is not.
    fn note_rest(&mut self)
        ensures handed { handed self.new ≡ handed self.old }
        ensures ahead { self.new.ahead ≡ self.old.ahead }
    {
        if self.over_ahead < self.over.len() {
            self.link.note_behind(true);
            return;
        }
        self.over_ahead = 0;
        self.over.clear();
        self.link.note_behind(false);
    }

    /// Puts as much of what comes after the ring into it as there is room for. Returns whether that was any.
    #[tactic(auto, using(crate::proofs::Sent::sends_rest, crate::proofs::Sent::sends_within))]
    fn send_rest(&mut self) -> bool
        ensures handed { handed self.new ≡ handed self.old }
        ensures ahead { self.new.ahead ≡ self.old.ahead }
    {
        let (sent, _left) = self.ring.push_partial_slice(&self.over[self.over_ahead..]);
        let count = sent.len();
        self.over_ahead += count;
        self.note_rest();
        count > 0
    }

    /// The same of a text that is kept though there is no room. Returns whether anything was put into the ring.
    fn send_over(&mut self, text: &mut Vec<u8>) -> Result<bool, AllocError>
        requires within { self.old.ahead ≤ vec_len text.old }
        ensures { OnOk result (HandsText self.old self.new text.old.items text.new.items) }
    {
        self.over.extend_from_slice(&text[self.ahead..])?;
        text.clear();
        self.ahead = 0;
        Ok(self.send_rest())
    }

    /// Hands on what waits, as much as there is room for, and wakes the writer where that is any.
    pub(crate) fn hand<R: Wait>(
        &mut self,
        rt: &R,
        text: &mut Vec<u8>,
        ends: bool,
    ) -> Result<(), AllocError>
        requires within { self.old.ahead ≤ vec_len text.old }
        ensures { OnOk result (HandsText self.old self.new text.old.items text.new.items) }
    {
        if ends || !self.over.is_empty() || text.len() >= MUCH {
            self.link.want_room();
        }
        self.let_go(text);
        let is_sent = if self.link.hurries() || !self.over.is_empty() {
            self.send_over(text)?
        } else {
            self.send(text)
        };
        if is_sent {
            self.link.wake_writer(rt);
        }
        Ok(())
    }
}

/// Hands on what each conversation is told.
pub(crate) fn hand_texts<R: Wait>(
    rt: &R,
    texts: &mut [TextOut],
    waits: &mut [Vec<u8>],
    ends: bool,
) -> Result<(), AllocError>
    requires within { AreWithin texts.old (map (λ t. t.items) waits.old) }
    ensures handed { OnOk result (AreHanded texts.old texts.new (map (λ t. t.items) waits.old) (map (λ t. t.items) waits.new)) }
{
    let Some((one, more)) = texts.split_first_mut() else {
        return Ok(());
    };
    let Some((text, others)) = waits.split_first_mut() else {
        return Ok(());
    };
    one.hand(rt, text, ends)?;
    hand_texts(rt, more, others, ends)
}
