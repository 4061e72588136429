//! What each legal history keeps. The function does nothing.

ghost use Rattle.std.specs.Prelude.{ℕ};
ghost use Rattle.fleet_grid.specs.Floor.{Floor};
ghost use Rattle.fleet_history.specs.History.{History};
ghost use Rattle.fleet_history.specs.Laws.{AcceptsNoneClosed, ArrivalsRise, ArrivesInOrder, HasNoConflict};
ghost use Rattle.fleet_history.specs.Legal.{IsLegal};
ghost use Rattle.fleet_history.specs.Numbering.{AreNumbered};

/// In a legal history no step has a conflict; each robot's arrivals are the beginning of its accepted errands; the numbers of a
/// client's arrivals on one robot rise; nothing is accepted after a close, or for a robot that is shut; and each client's notices are
/// numbered one after another.
///
/// `World::finish`, `Office::conclude`, `serve`, the chapters of `converse` and `resume`, and `reopen` say that their histories are
/// legal (`IsLegal`, `IsSound`): so this is said of all of them.
pub fn legal_histories_are_safe<A>()
    ensures conflicts { (m : Floor) (h : History A) → IsLegal m h → HasNoConflict m h }
    ensures arrivals { (m : Floor) (h : History A) → IsLegal m h → ArrivesInOrder h }
    ensures rise { (m : Floor) (h : History A) → IsLegal m h → ArrivalsRise h }
    ensures closes { (m : Floor) (h : History A) → IsLegal m h → AcceptsNoneClosed h }
    ensures numbered { (m : Floor) (h : History A) (c : ℕ) → IsLegal m h → AreNumbered h c }
{}
