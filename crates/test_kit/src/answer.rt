//! The common result of two ways of judging a trace.

ghost use Rattle.std.specs.Prelude.{◌≡◌, ◌↔◌, ℕ, None, Some};
ghost use Rattle.test_kit.specs.declared.answer.Answer.TheVariants.{Legal, Broken};

/// What both ways say.
#[derive(Clone, Copy, Debug, PartialEq, Eq)]
pub enum Answer {
    /// No entry breaks a rule.
    Legal,
    /// The same entry breaks the same rule first.
    Broken {
        /// The number of the entry.
        at: u64,
        /// The number of the rule.
        rule: u8,
    },
    /// The text is no JSON.
    NotJson,
    /// The text has no trace's form, or another version.
    Refused,
    /// They differ.
    Unlike,
}

impl Answer {
    /// What two ways say together. Each names the first entry that breaks a rule, and the rule; `None` if all is legal.
    pub fn of_both(said: Option<(u64, u8)>, told: Option<(u64, u8)>) -> Answer
        ensures legal { (result ≡ Legal) ↔ ((said ≡ None) × (told ≡ None)) }
        ensures broken { (at rule : ℕ) → (result ≡ Broken at rule) ↔
            ((said ≡ Some (at, rule)) × (told ≡ Some (at, rule))) }
    {
        match (said, told) {
            (None, None) => Answer::Legal,
            (Some((at, rule)), Some(first)) if first == (at, rule) => Answer::Broken { at, rule },
            _ => Answer::Unlike,
        }
    }
}
