//! What is kept of what clients were told before a fleet was started again. The function does nothing.

ghost use Rattle.std.specs.Prelude.{◌≡◌, ◌+◌, ◌<◌, ◌^◌, ℕ, List, length};
ghost use Rattle.std.specs.declared.alloc.Global.{Global};
ghost use Rattle.fleet_grid.specs.Floor.{Floor};
ghost use Rattle.fleet_history.specs.History.{History, clients};
ghost use Rattle.fleet_history.specs.Legal.{IsLegal};
ghost use Rattle.fleet_history.specs.declared.history.ClientState.{ClientState};
ghost use Rattle.live_parts.specs.Chapters.{AreInARow, told_in, with_chapters};
ghost use Rattle.live_parts.specs.Recalls.{IsCounted, begun, last_of, nothing_told};

/// If the last chapters of a fleet were added, from the last to the first, and the fleet goes on after them, the last of
/// what a client was told in them are kept, as many as are kept at most. 64 bits count what a legal chapter has if they
/// count its ticks.
pub fn chapters_are_recalled()
    ensures kept { (m : Floor) (c most : ℕ) (hs : List (History Global)) (client : ClientState) → AreInARow m c hs client.noticed →
        (begun client (with_chapters most c hs nothing_told)).notices ≡ last_of most (told_in c hs) }
    ensures counted { (m : Floor) (c : ℕ) (h : History Global) → IsLegal m h → c < clients h → h.opening.tick + length h.entries < 2 ^ 63 →
        IsCounted h c }
{}
