//! What the explorer finds among all placements of interrupts, compared with single runs of the reference kernel.
ghost use Rattle.std.specs.Prelude.{◌≤◌};

use crate::file::file_of;
use crate::search::{Search, all_placements};
use explorer::{Found, NoWatch, explore};
use model::{App, HandlerId, Injection, Limits};
use random_apps::Dice;
use std::alloc::Global;
use std::process::Abort;

/// The number of placements that were compared, and the number of ends.
#[derive(Clone, Copy, Debug, Default)]
struct Compared {
    placements: u128,
    ends: usize,
}

/// Whether the least placement found consists of these injections.
fn is_of(found: &Found, injections: &[Injection]) -> bool {
    let least = found.least.as_slice();
    least.len() == injections.len()
        && least.iter().zip(injections).all(|(one, other)| one.step == other.step
            && one.handler == other.handler)
}

/// Whether both found the same.
fn is_same(found: &[Found], wanted: &Search<'_>) -> bool {
    for (one, other) in found.iter().zip(wanted.found.iter()) {
        let is_same_run = one.end == other.end && one.steps == other.steps;
        let is_same_number = one.number == other.number && one.ticks == other.ticks;
        if !is_same_run || !is_same_number || !is_of(one, other.least.as_slice()) {
            return false;
        }
    }
    found.len() == wanted.found.len()
}

/// Compares both for an application, with runs of at most this many steps.
fn compare(
    rt: &impl Abort,
    alloc: Global,
    app: &App,
    steps: u32,
    sources: &[HandlerId],
    most: usize,
    compared: &mut Compared,
)
    requires { most ≤ 3 }
{
    let ticks = app.limits().ticks;
    let limits = Limits::new(ticks, steps).expect(rt, "limits");
    let wanted = all_placements(alloc, app, limits, sources, most).expect(rt, "memory");
    let found = explore(alloc, app, &limits, sources, most, &NoWatch).expect(rt, "memory");
    if !is_same(found.as_slice(), &wanted) {
        let file = file_of(alloc, app).expect(rt, "memory");
        panic!(rt; "other ends of {most} injections in {steps} steps, on this file\n{file}");
    }
    for one in found.iter() {
        compared.placements = compared.placements.saturating_add(one.number);
        compared.ends = compared.ends.saturating_add(1);
    }
}

/// For applications whose tasks raise handlers, and equally often for those whose tasks open critical sections.
fn dice_of(seed: u32) -> Dice {
    if seed % 2 == 0 {
        Dice::raising(seed)
    } else {
        Dice::masking(seed)
    }
}

/// The three handlers, and the tick.
const SOURCES: [HandlerId; 4] = [
    HandlerId { number: 0 },
    HandlerId { number: 1 },
    HandlerId { number: 2 },
    HandlerId { number: 3 },
];

/// One of them alone.
const SECOND: [HandlerId; 1] = [HandlerId { number: 1 }];

#[test]
fn the_explorer_finds_what_the_runs_one_by_one_come_to(rt: HostRuntime) {
    let alloc = rt.alloc();
    let mut compared = Compared::default();
    for seed in 0..40 {
        let app = dice_of(seed).app(alloc).expect(&rt, "memory");
        compare(&rt, alloc, &app, 40, &SOURCES, 1, &mut compared);
        compare(&rt, alloc, &app, 12, &SOURCES, 2, &mut compared);
        compare(&rt, alloc, &app, 10, &SECOND, 3, &mut compared);
    }
    assert!(rt;
        compared.placements > 40_000 && compared.ends > 120,
        "{compared:?}"
    );
}
