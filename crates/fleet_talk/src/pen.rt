//! Answers that are not written yet.

ghost use Rattle.std.specs.Prelude.{◌≡◌, ◌++◌, [], ◌∷◌, IsTrue, OnOk, OnErr, false, string_bytes, take, true};
ghost use Rattle.fleet_text.specs.Transfer.{AppendsPrefix};
ghost use Rattle.fleet_talk.specs.Says.{marked, Says};
ghost use Rattle.fleet_talk.specs.Said.{IsAdded, IsKept, under, bad_said, end_said};

use crate::ask::Line;
use crate::ends::Settings;
use crate::marks::add_lines;
use fleet_text::{bad_line, write_whole};
use std::alloc::{AllocError, Global};
use std::io::Write;

/// How much text may wait while there are more lines to answer.
const MOST_TEXT: usize = 65_536;

/// The answers that were said and not written yet.
#[derive(Drop)]
pub(crate) struct Pen {
    pub(crate) settings: Settings,
    pub(crate) out: Vec<u8>,
    /// Whether nothing may be written any more.
    pub(crate) is_mute: bool,
}

impl Pen {
    pub(crate) fn new(alloc: Global, settings: Settings) -> Pen
        ensures settings { result.settings ≡ settings }
        ensures out { result.out.items ≡ [] }
        ensures mute { result.is_mute ≡ false }
    {
        Pen {
            settings,
            out: Vec::new(alloc),
            is_mute: false,
        }
    }

    /// Adds a text with this mark: all of it, or nothing.
    pub(crate) fn say(
        &mut self,
        alloc: Global,
        mark: Option<&[u8]>,
        text: &str,
    ) -> Result<(), AllocError>
        ensures ok { OnOk result (IsAdded self.old self.new (marked (under mark.entry) text.now)) }
        ensures err { OnErr result (IsKept self.old self.new) }
    {
        match mark {
            Some(mark) => {
                let mut lines = Vec::new(alloc);
                add_lines(&mut lines, mark, text.as_bytes())?;
                self.out.extend_from_slice(&lines)
            }
            None => self.out.extend_from_slice(text.as_bytes()),
        }
    }

    /// Adds the answer `bad-line`.
    pub(crate) fn say_bad(&mut self, alloc: Global, line: Line<'_>) -> Result<(), AllocError>
        ensures ok { OnOk result (IsAdded self.old self.new (bad_said line.entry)) }
        ensures err { OnErr result (IsKept self.old self.new) }
    {
        let text = bad_line(alloc, line.number)?;
        self.say(alloc, line.mark, text.as_str())
    }

    /// Adds the line that says that a line was answered, if such lines are asked for.
    pub(crate) fn say_end(&mut self, alloc: Global, line: Line<'_>) -> Result<(), AllocError>
        ensures ok { OnOk result (IsAdded self.old self.new (end_said self.old.settings line.entry)) }
        ensures err { OnErr result (IsKept self.old self.new) }
    {
        if !self.settings.marks {
            return Ok(());
        }
        let number = line.number;
        let text = format!(in alloc; ". {number}\n")?;
        self.say(alloc, line.mark, text.as_str())
    }

    /// Takes back what was said after this many bytes.
    pub(crate) fn take_back(&mut self, said: usize)
        ensures out { self.new.out.items ≡ take said self.old.out.items }
        ensures settings { self.new.settings ≡ self.old.settings }
    {
        self.out.truncate(said);
    }

    /// Whether so much text waits that it should be written.
    pub(crate) fn is_full(&self) -> bool {
        self.out.len() >= MOST_TEXT
    }

    /// Writes all answers, unless nothing may be written, and returns whether the writer took them. After that none waits:
    /// a text that a writer took in part is not written again.
    pub(crate) fn write_out<W: Write>(&mut self, output: &mut W) -> bool
        ensures prefix { AppendsPrefix (W.contents output.old) (W.contents output.new) self.old.out.items }
        ensures whole { IsTrue result → Says (W.contents output.old) (W.contents output.new) self.old.out.items self.new.out.items [] }
        ensures waits { self.new.out.items ≡ [] }
        ensures settings { self.new.settings ≡ self.old.settings }
        ensures mute { self.old.is_mute ≡ true → W.contents output.new ≡ W.contents output.old }
    {
        let written = !self.is_mute && write_whole(output, &self.out);
        self.out.clear();
        written
    }
}
