//! Whole lines of bytes.

ghost use Rattle.std.specs.Prelude.{◌≡◌, [], ◌∷◌, ◌++◌, MatchOption, IfSome};
ghost use Rattle.std.specs.List.{position};
ghost use Rattle.fleet_map.specs.Text.{is_line_feed};
ghost use Rattle.fleet_journal.specs.Lines.{whole_lines};

/// Where the first line feed is.
fn feed_in(bytes: &[u8]) -> Option<usize>
    ensures { result ≡ position is_line_feed bytes.now }
{
    bytes.iter().position(|byte| *byte == b'\n')
}

/// The first whole line without its line feed, and what follows it; `None` if there is no line feed.
#[tactic(auto, using(crate::proofs::WholeLines::first_is, crate::proofs::WholeLines::joined_is, crate::proofs::WholeLines::none_is))]
pub(crate) fn first_whole_line(bytes: &[u8]) -> Option<(&[u8], &[u8])>
    ensures cut { MatchOption result (whole_lines bytes.now ≡ []) (λ x. whole_lines bytes.now ≡ x.0.now ∷ whole_lines x.1.now) }
    ensures joined { IfSome result (λ x. bytes.now ≡ x.0.now ++ 10 ∷ x.1.now) }
{
    match feed_in(bytes) {
        None => None,
        Some(end) => Some((&bytes[..end], &bytes[end + 1..])),
    }
}
