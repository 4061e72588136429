//! What is called once, when a robot has done its last errand: a closure, a fixed answer, or the robot's cell.

ghost use Rattle.std.specs.Prelude.{◌≡◌, ◌≢◌, ℕ, ◌<◌, ◌^◌, is_some, true};
ghost use Rattle.std.specs.Option.{ForSome};
ghost use Rattle.fleet_hooks.specs.Law.{IsStampLaw, IsStamp, exact_stamp, stamps_to};
ghost use Rattle.fleet_hooks.specs.declared.kind.HookKind.{HookKind};

use crate::kind::HookKind;
use crate::law::StampLaw;
use crate::views::FarewellView;

type Last = Box<dyn FnOnce(FarewellView) -> u32 + Send>;

/// A closure that answers within a law.
#[derive(Drop)]
struct LastClosure {
    law: StampLaw,
    run: Last,
    ghost callable: { Last.IsAlwaysCallable run },
    ghost lawful: { (view : _) (stamp : ℕ) → stamp < 2 ^ 32 → Last.post run view stamp → IsStamp law stamp },
}

/// Gives a robot's farewell its stamp, within a law: by a closure, which is consumed by its one call, one fixed stamp,
/// or the robot's cell.
#[derive(Drop)]
pub struct Farewell {
    /// The bounds of the answer.
    pub law: StampLaw,
    /// How the answer is found.
    pub kind: HookKind,
    closure: Option<LastClosure>,
    ghost fits: { IsStampLaw law },
    ghost southern: { kind ≡ HookKind.South → law ≡ stamps_to 4294967295 },
    ghost own: { is_some closure ≡ true → kind ≡ HookKind.Closure },
    ghost same: { ForSome closure (λ closure. closure.law ≡ law) },
}

impl Farewell {
    /// Keeps a closure that may be called on every view, and whose results are within the law.
    pub fn new(law: StampLaw, run: Box<dyn FnOnce(FarewellView) -> u32 + Send>) -> Farewell
        requires fits { IsStampLaw law }
        requires callable { Last.IsAlwaysCallable run }
        requires lawful { (view : _) (stamp : ℕ) → stamp < 2 ^ 32 → Last.post run view stamp → IsStamp law stamp }
        ensures law { result.law ≡ law }
        ensures kind { result.kind ≡ HookKind.Closure }
    {
        let closure = Some(LastClosure { law, run });
        Farewell {
            law,
            kind: HookKind::Closure,
            closure,
        }
    }

    /// Gives the farewell this answer. It allocates nothing.
    pub fn fixed(answer: u32) -> Farewell
        ensures law { result.law ≡ exact_stamp answer }
        ensures kind { result.kind ≡ HookKind.Fixed }
    {
        let law = StampLaw {
            low: answer,
            high: answer,
        };
        Farewell {
            law,
            kind: HookKind::Fixed,
            closure: None,
        }
    }

    /// Answers the cell on which the robot is. It allocates nothing.
    pub fn by_cell() -> Farewell
        ensures law { result.law ≡ stamps_to 4294967295 }
        ensures kind { result.kind ≡ HookKind.South }
    {
        Farewell {
            law: StampLaw::ANY,
            kind: HookKind::South,
            closure: None,
        }
    }

    /// The same hook once more.
    pub(crate) fn again(&self) -> Farewell
        requires { self.now.kind ≢ HookKind.Closure }
        ensures law { result.law ≡ self.now.law }
        ensures kind { result.kind ≡ self.now.kind }
    {
        Farewell {
            law: self.law,
            kind: self.kind,
            closure: None,
        }
    }

    /// The law within which the stamp is.
    pub fn law(&self) -> StampLaw
        ensures value { result ≡ self.now.law }
        ensures fits { IsStampLaw result }
    {
        self.law
    }

    /// The stamp of the farewell. Consumes the hook.
    pub fn call(self, view: FarewellView) -> u32
        ensures law { IsStamp self.law result }
        ensures south { self.kind ≡ HookKind.South → result ≡ view.cell }
    {
        let Farewell { law, kind, closure } = self;
        match closure {
            Some(closure) => {
                let LastClosure { law: _, run } = closure;
                run(view)
            }
            None if kind == HookKind::South => view.cell,
            None => law.low,
        }
    }
}
