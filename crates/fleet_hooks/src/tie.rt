//! What ranks the neighbours of a robot's cell: a closure, fixed ranks, or the southern rule.

ghost use Rattle.std.specs.Prelude.{◌≡◌, ◌≢◌, ℕ, ◌<◌, ◌^◌, is_some, true};
ghost use Rattle.std.specs.Option.{ForSome};
ghost use Rattle.fleet_hooks.specs.Law.{IsTieLaw, IsRank, exact_law, south_first, south_rank};
ghost use Rattle.fleet_hooks.specs.declared.kind.HookKind.{HookKind};

use crate::kind::HookKind;
use crate::law::TieLaw;
use crate::views::TieView;
use fleet_grid::Dir;

/// The way to the south is ranked 0, the others from 1 to 9.
const SOUTH_FIRST: TieLaw = TieLaw {
    low: [1, 1, 0, 1],
    high: [9, 9, 0, 9],
};

type Tie = Box<dyn Fn(TieView) -> u8 + Send>;

/// A closure that ranks within a law.
#[derive(Drop)]
struct RankClosure {
    law: TieLaw,
    run: Tie,
    ghost callable: { Tie.IsAlwaysCallable run },
    ghost lawful: { (view : _) (rank : ℕ) → rank < 2 ^ 8 → Tie.post run view rank → IsRank law view.dir rank },
}

/// Ranks a floor neighbour of a robot's cell, within a law: by a closure, one fixed rank for each direction, or the
/// south first. Of two neighbours that are equally near to the robot's goal, the robot tries the one with the lower
/// rank first.
#[derive(Drop)]
pub struct TieHook {
    /// The bounds of the ranks.
    pub law: TieLaw,
    /// How the ranks are found.
    pub kind: HookKind,
    closure: Option<RankClosure>,
    ghost fits: { IsTieLaw law },
    ghost southern: { kind ≡ HookKind.South → law ≡ south_first },
    ghost own: { is_some closure ≡ true → kind ≡ HookKind.Closure },
    ghost same: { ForSome closure (λ closure. closure.law ≡ law) },
}

impl TieHook {
    /// Keeps a closure that may be called on every view, and whose results are within the law.
    pub fn new(law: TieLaw, run: Box<dyn Fn(TieView) -> u8 + Send>) -> TieHook
        requires fits { IsTieLaw law }
        requires callable { Tie.IsAlwaysCallable run }
        requires lawful { (view : _) (rank : ℕ) → rank < 2 ^ 8 → Tie.post run view rank → IsRank law view.dir rank }
        ensures law { result.law ≡ law }
        ensures kind { result.kind ≡ HookKind.Closure }
    {
        let closure = Some(RankClosure { law, run });
        TieHook {
            law,
            kind: HookKind::Closure,
            closure,
        }
    }

    /// Ranks by the direction alone: `ranks` are those of north, east, south and west. It allocates nothing.
    pub fn fixed(ranks: [u8; 4]) -> TieHook
        ensures law { result.law ≡ exact_law ranks }
        ensures kind { result.kind ≡ HookKind.Fixed }
    {
        let law = TieLaw {
            low: ranks,
            high: ranks,
        };
        TieHook {
            law,
            kind: HookKind::Fixed,
            closure: None,
        }
    }

    /// Ranks the neighbour to the south 0, and the others 1. It allocates nothing.
    pub fn south_first() -> TieHook
        ensures law { result.law ≡ south_first }
        ensures kind { result.kind ≡ HookKind.South }
    {
        TieHook {
            law: SOUTH_FIRST,
            kind: HookKind::South,
            closure: None,
        }
    }

    /// The same hook once more.
    pub(crate) fn again(&self) -> TieHook
        requires { self.now.kind ≢ HookKind.Closure }
        ensures law { result.law ≡ self.now.law }
        ensures kind { result.kind ≡ self.now.kind }
    {
        TieHook {
            law: self.law,
            kind: self.kind,
            closure: None,
        }
    }

    /// The law within which the ranks are.
    pub fn law(&self) -> TieLaw
        ensures value { result ≡ self.now.law }
        ensures fits { IsTieLaw result }
    {
        self.law
    }

    /// The rank of a neighbour.
    pub fn rank(&self, view: TieView) -> u8
        ensures law { IsRank self.now.law view.dir result }
        ensures south { self.now.kind ≡ HookKind.South → result ≡ south_rank view.dir }
    {
        match &self.closure {
            Some(closure) => (closure.run)(view),
            None if self.kind == HookKind::South => south_rank(view.dir),
            None => self.law.low[view.dir.number() as usize],
        }
    }
}

/// The rank by the southern rule of a neighbour in this direction.
fn south_rank(dir: Dir) -> u8
    ensures { result ≡ south_rank dir }
{
    if dir == Dir::South { 0 } else { 1 }
}
