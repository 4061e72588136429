//! The rows of a text.

use test_kit::{Block, Bundle};

/// A row: its name, and a bundle of a map and a script.
#[derive(Clone, Copy)]
pub(crate) struct Case<'a> {
    pub(crate) name: &'a str,
    pub(crate) map: &'a [u8],
    pub(crate) script: &'a [u8],
}

impl<'a> Case<'a> {
    /// The row of a block; `None` if it has no script.
    pub(crate) fn of(block: Block<'a>) -> Option<Case<'a>> {
        let Bundle { map, script } = Bundle::of(block.text)?;
        Some(Case {
            name: block.name,
            map,
            script,
        })
    }

    /// Whether its script has no comments, which are calls that no run makes.
    pub(crate) fn is_run(&self) -> bool {
        !self.script.contains(&b'#')
    }
}

/// What is played of a row: its calls, or the events of its script.
#[derive(Clone, Copy)]
pub(crate) struct Row<'a, C> {
    pub(crate) case: Case<'a>,
    /// How many robots its script has.
    pub(crate) robots: usize,
    pub(crate) calls: &'a [C],
}
