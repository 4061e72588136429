//! What stamps arrivals: a closure, a fixed stamp, or the tick.

ghost use Rattle.std.specs.Prelude.{◌≡◌, ◌≢◌, ℕ, ◌<◌, ◌^◌, ◌%◌, is_some, true};
ghost use Rattle.std.specs.Option.{ForSome};
ghost use Rattle.fleet_hooks.specs.Law.{IsStampLaw, IsStamp, exact_stamp, stamps_to};
ghost use Rattle.fleet_hooks.specs.declared.kind.HookKind.{HookKind};

use crate::kind::HookKind;
use crate::law::StampLaw;
use crate::views::ArrivalView;

/// How many stamps there are by the southern rule.
const STAMPS: u64 = 1000;

type Arrival = Box<dyn Fn(ArrivalView) -> u32 + Send>;

/// A closure that stamps within a law.
#[derive(Drop)]
struct StampClosure {
    law: StampLaw,
    run: Arrival,
    ghost callable: { Arrival.IsAlwaysCallable run },
    ghost lawful: { (view : _) (stamp : ℕ) → stamp < 2 ^ 32 → Arrival.post run view stamp → IsStamp law stamp },
}

/// Gives each arrival of a robot its stamp, within a law: by a closure, one fixed stamp, or the tick modulo 1,000.
#[derive(Drop)]
pub struct ArrivalHook {
    /// The bounds of the stamps.
    pub law: StampLaw,
    /// How the stamps are found.
    pub kind: HookKind,
    closure: Option<StampClosure>,
    ghost fits: { IsStampLaw law },
    ghost southern: { kind ≡ HookKind.South → law ≡ stamps_to 999 },
    ghost own: { is_some closure ≡ true → kind ≡ HookKind.Closure },
    ghost same: { ForSome closure (λ closure. closure.law ≡ law) },
}

impl ArrivalHook {
    /// Keeps a closure that may be called on every view, and whose results are within the law.
    pub fn new(law: StampLaw, run: Box<dyn Fn(ArrivalView) -> u32 + Send>) -> ArrivalHook
        requires fits { IsStampLaw law }
        requires callable { Arrival.IsAlwaysCallable run }
        requires lawful { (view : _) (stamp : ℕ) → stamp < 2 ^ 32 → Arrival.post run view stamp → IsStamp law stamp }
        ensures law { result.law ≡ law }
        ensures kind { result.kind ≡ HookKind.Closure }
    {
        let closure = Some(StampClosure { law, run });
        ArrivalHook {
            law,
            kind: HookKind::Closure,
            closure,
        }
    }

    /// Gives each arrival this stamp. It allocates nothing.
    pub fn fixed(stamp: u32) -> ArrivalHook
        ensures law { result.law ≡ exact_stamp stamp }
        ensures kind { result.kind ≡ HookKind.Fixed }
    {
        let law = StampLaw {
            low: stamp,
            high: stamp,
        };
        ArrivalHook {
            law,
            kind: HookKind::Fixed,
            closure: None,
        }
    }

    /// Stamps each arrival by its tick, modulo 1,000. It allocates nothing.
    pub fn by_tick() -> ArrivalHook
        ensures law { result.law ≡ stamps_to 999 }
        ensures kind { result.kind ≡ HookKind.South }
    {
        ArrivalHook {
            law: StampLaw { low: 0, high: 999 },
            kind: HookKind::South,
            closure: None,
        }
    }

    /// The same hook once more.
    pub(crate) fn again(&self) -> ArrivalHook
        requires { self.now.kind ≢ HookKind.Closure }
        ensures law { result.law ≡ self.now.law }
        ensures kind { result.kind ≡ self.now.kind }
    {
        ArrivalHook {
            law: self.law,
            kind: self.kind,
            closure: None,
        }
    }

    /// The law within which the stamps are.
    pub fn law(&self) -> StampLaw
        ensures value { result ≡ self.now.law }
        ensures fits { IsStampLaw result }
    {
        self.law
    }

    /// The stamp of an arrival.
    pub fn stamp(&self, view: ArrivalView) -> u32
        ensures law { IsStamp self.now.law result }
        ensures south { self.now.kind ≡ HookKind.South → result ≡ view.tick % 1000 }
    {
        match &self.closure {
            Some(closure) => (closure.run)(view),
            None if self.kind == HookKind::South => (view.tick % STAMPS) as u32,
            None => self.law.low,
        }
    }
}
