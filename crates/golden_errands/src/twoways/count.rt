//! What was counted of all traces.

use test_kit::Answer;

/// How many traces had which answer.
#[derive(Clone, Copy, Debug)]
pub(crate) struct Count {
    /// Chapters of worlds that both ways judge legal.
    worlds: u64,
    /// Later chapters alike.
    later: u64,
    /// Damaged traces that both ways judge legal.
    legal: u64,
    /// Damaged traces by the rule that both ways say they break at the same entry.
    broken: [u64; 9],
    /// Damaged traces that are refused by name.
    refused: u64,
    /// Traces with a damaged number that are not JSON any more: none.
    not_json: u64,
    /// Traces on which the two ways differ: none.
    unlike: u64,
}

impl Count {
    /// Nothing yet.
    pub(crate) const NONE: Count = Count {
        worlds: 0,
        later: 0,
        legal: 0,
        broken: [0; 9],
        refused: 0,
        not_json: 0,
        unlike: 0,
    };

    /// Counts a world's chapter.
    pub(crate) fn add_world(&mut self, answer: Answer) {
        match answer {
            Answer::Legal => self.worlds = self.worlds.saturating_add(1),
            _ => self.unlike = self.unlike.saturating_add(1),
        }
    }

    /// Counts a later chapter.
    pub(crate) fn add_later(&mut self, answer: Answer) {
        match answer {
            Answer::Legal => self.later = self.later.saturating_add(1),
            _ => self.unlike = self.unlike.saturating_add(1),
        }
    }

    /// Counts a trace with a damaged number.
    pub(crate) fn add_number(&mut self, answer: Answer) {
        if answer == Answer::NotJson {
            self.not_json = self.not_json.saturating_add(1);
        } else {
            self.add_bytes(answer);
        }
    }

    /// Counts a trace with damaged bytes.
    pub(crate) fn add_bytes(&mut self, answer: Answer) {
        match answer {
            Answer::Legal => self.legal = self.legal.saturating_add(1),
            Answer::Broken { rule, .. } => {
                if let Some(broken) = self.broken.get_mut(rule as usize) {
                    *broken = broken.saturating_add(1);
                }
            }
            Answer::NotJson | Answer::Refused => self.refused = self.refused.saturating_add(1),
            Answer::Unlike => self.unlike = self.unlike.saturating_add(1),
        }
    }

    /// Whether each of the eight rules was broken by some trace.
    fn has_each_rule(&self) -> bool {
        self.broken.iter().skip(1).all(|broken| *broken > 0)
    }

    /// What is told of it, where this many worlds were tried.
    pub(crate) fn text(&self, worlds: u64) -> &'static str {
        if self.unlike > 0 || self.not_json > 0 {
            return "the two ways differ\n";
        }
        if !self.has_each_rule() {
            return "a rule was broken by no trace\n";
        }
        if self.worlds != worlds || self.later != worlds || self.legal == 0 || self.refused == 0 {
            return "a world, a legal or a refused trace is missing\n";
        }
        "each chapter and each later chapter is legal in both ways\n\
         each damaged trace is refused by name, or has one answer in both ways\n\
         each of the eight rules is broken by some trace\n"
    }
}
