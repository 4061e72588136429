//! What hooks answer, and how often closures are called, which no clause says.

ghost use Rattle.std.specs.Prelude.{◌≡◌, ◌<◌, ◌≤◌, ◌+◌, ℕ};

use fleet_grid::Dir;
use fleet_hooks::{
    ArrivalHook, ArrivalView, Farewell, FarewellView, HookKind, Hooks, StampLaw, TieHook, TieLaw,
    TieView,
};
use std::process::Abort;
use std::sync::Arc;
use std::sync::atomic::{AtomicU64, Ordering};

const SOUTH_FIRST: TieLaw = TieLaw {
    low: [1, 1, 0, 1],
    high: [9, 9, 0, 9],
};

const THOUSAND: StampLaw = StampLaw { low: 0, high: 999 };

const SEVEN: StampLaw = StampLaw { low: 7, high: 7 };

const EIGHT: StampLaw = StampLaw { low: 8, high: 8 };

const SOUTHWARD: TieView = TieView {
    robot: 0,
    cell: 4,
    neighbour: 7,
    dir: Dir::South,
    tick: 1,
};

const EASTWARD: TieView = TieView {
    neighbour: 5,
    dir: Dir::East,
    ..SOUTHWARD
};

const ARRIVAL: ArrivalView = ArrivalView {
    client: 0,
    number: 1,
    robot: 0,
    cell: 1,
    tick: 2026,
};

const LAST: FarewellView = FarewellView {
    robot: 0,
    cell: 7,
    tick: 3,
};

/// The ranks of a step to the south and of one to the east.
fn ranks(hook: &TieHook) -> [u8; 2] {
    [hook.rank(SOUTHWARD), hook.rank(EASTWARD)]
}

fn check_ranks(rt: &impl Abort, hook: &TieHook, calls: &AtomicU64) {
    assert!(rt; hook.law() == SOUTH_FIRST);
    assert!(rt; ranks(hook) == [0, 4]);
    assert!(rt; calls.load(Ordering::SeqCst) == 2);
}

#[test]
fn rank_is_the_closure_s_answer_of_one_call(rt: HostRuntime) {
    let alloc = rt.alloc();
    let calls = Arc::new(alloc, AtomicU64::new(0)).expect(&rt, "memory for a count");
    let counted = Arc::try_clone(&calls).expect(&rt, "one more owner");
    let answer = move |view: TieView| {
        counted.fetch_add(1, Ordering::SeqCst);
        if view.dir == Dir::South { 0 } else { 4 }
    };
    let answer = Box::new(alloc, answer).expect(&rt, "memory for a closure");
    check_ranks(&rt, &TieHook::new(SOUTH_FIRST, answer), &calls);
}

fn check_stamp(rt: &impl Abort, hook: &ArrivalHook, calls: &AtomicU64) {
    assert!(rt; hook.law() == THOUSAND);
    assert!(rt; hook.stamp(ARRIVAL) == 26);
    assert!(rt; calls.load(Ordering::SeqCst) == 1);
}

#[test]
fn stamp_is_the_closure_s_answer_of_one_call(rt: HostRuntime) {
    let alloc = rt.alloc();
    let calls = Arc::new(alloc, AtomicU64::new(0)).expect(&rt, "memory for a count");
    let counted = Arc::try_clone(&calls).expect(&rt, "one more owner");
    let answer = move |view: ArrivalView| {
        counted.fetch_add(1, Ordering::SeqCst);
        (view.tick % 1000) as u32
    };
    let answer = Box::new(alloc, answer).expect(&rt, "memory for a closure");
    check_stamp(&rt, &ArrivalHook::new(THOUSAND, answer), &calls);
}

fn check_farewell(rt: &impl Abort, farewell: Farewell, calls: &AtomicU64) {
    assert!(rt; farewell.law() == StampLaw::ANY);
    assert!(rt; farewell.call(LAST) == 7);
    assert!(rt; calls.load(Ordering::SeqCst) == 1);
}

#[test]
fn farewell_is_the_closure_s_answer_of_its_one_call(rt: HostRuntime) {
    let alloc = rt.alloc();
    let calls = Arc::new(alloc, AtomicU64::new(0)).expect(&rt, "memory for a count");
    let counted = Arc::try_clone(&calls).expect(&rt, "one more owner");
    let answer = move |view: FarewellView| {
        counted.fetch_add(1, Ordering::SeqCst);
        view.cell
    };
    let answer = Box::new(alloc, answer).expect(&rt, "memory for a closure");
    check_farewell(&rt, Farewell::new(StampLaw::ANY, answer), &calls);
}

fn check_kept(rt: &impl Abort, kept: &Hooks) {
    assert!(rt; (kept.ties.len(), kept.arrivals.len(), kept.farewells.len()) == (1, 2, 2));
    assert!(rt; [kept.arrivals[0].law(), kept.arrivals[1].law()] == [SEVEN, EIGHT]);
}

#[test]
fn cut_keeps_the_first_hooks(rt: HostRuntime) {
    let mut hooks = Hooks::new(rt.alloc());
    for stamp in 7..10u32 {
        let (arrival, farewell) = (ArrivalHook::fixed(stamp), Farewell::fixed(stamp));
        hooks
            .push(TieHook::south_first(), arrival, farewell)
            .expect(&rt, "memory for hooks");
    }
    hooks.ties.truncate(1);
    check_kept(&rt, &hooks.cut(2));
}

fn check_southern_ties(rt: &impl Abort, tie: &TieHook) {
    assert!(rt; tie.law() == SOUTH_FIRST && tie.kind == HookKind::South);
    assert!(rt; ranks(tie) == [0, 1]);
}

#[test]
fn southern_rule_by_direction_tick_and_cell(rt: HostRuntime) {
    check_southern_ties(&rt, &TieHook::south_first());
    assert!(rt; ArrivalHook::by_tick().stamp(ARRIVAL) == 26);
    assert!(rt; Farewell::by_cell().call(LAST) == 7);
}

#[test]
fn hooks_that_are_all_alike(rt: HostRuntime) {
    let tie = TieHook::fixed([3; 4]);
    let hooks = Hooks::alike(
        rt.alloc(),
        2,
        tie,
        ArrivalHook::by_tick(),
        Farewell::fixed(8),
    )
    .expect(&rt, "memory for hooks");
    check_alike(&rt, &hooks);
}

fn check_alike(rt: &impl Abort, hooks: &Hooks) {
    assert!(rt;
        (
            hooks.ties.len(),
            hooks.arrivals.len(),
            hooks.farewells.len()
        ) == (2, 2, 2)
    );
    assert!(rt; hooks.arrivals[1].law() == THOUSAND);
}
