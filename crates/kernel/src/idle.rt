//! Idle: it lets a tick pass; or, in an application that is tickless, all up to the next thing to happen.
ghost use Rattle.std.specs.Prelude.{◌≡◌, ◌<◌, ◌≤◌, ◌+◌, ◌^◌, [], None, fold, max, min};
ghost use Rattle.lists.specs.Lists.{Each};
ghost use Rattle.model.specs.State.{State};
ghost use Rattle.model.specs.Handlers.{idle, interrupt, ticks_ahead, ticks_to_interrupt, ticks_to_raised, ticks_to_wake};
ghost use Rattle.model.specs.Switching.{slice, unless_held};
ghost use Rattle.model.specs.Time.{jump};
ghost use Rattle.machine.specs.StandsFor.{Does, Moves, StandsFor};
ghost use Rattle.machine.specs.Can.{Leaves};
ghost use Rattle.kernel.specs.Can.{CanIdle};

use crate::handlers::{interrupt, tick_interrupt};
use crate::quiet::ticks_to_interrupt;
use machine::{Log, Machine};
use model::{App, Limits};

/// The ticks until the first sleeper wakes; no more than these.
fn until_wake(machine: &Machine, most: u64) -> u64
    ensures least { (s : State) → StandsFor machine.now s → result ≡ fold min most (ticks_to_wake s) }
    ensures soon { Each (λ e. machine.now.clock.now + result ≤ e.1) machine.now.clock.delayed_list }
    ensures less { result ≤ most }
    ensures later { Each (λ e. machine.now.clock.now + 1 ≤ e.1) machine.now.clock.delayed_list }
    ensures unslept { 2 ^ 32 ≤ result → machine.now.clock.delayed_list ≡ [] }
{
    match machine.clock.nearest() {
        Some(ticks) => most.min(ticks as u64),
        None => most,
    }
}

/// The ticks until the next base interrupt comes; no more than these.
fn until_interrupt(machine: &Machine, app: &App, most: u64) -> u64
    ensures least { (s : State) → StandsFor machine.now s → result ≡ fold min most (ticks_to_interrupt app.now s) }
    ensures less { result ≤ most }
{
    app.well_formed();
    let before = ticks_to_interrupt(machine, app);
    if before == u32::MAX {
        return most;
    }
    most.min(before as u64 + 1)
}

/// The ticks until the first raised handler comes; no more than these.
fn until_raised(machine: &Machine, most: u64) -> u64
    ensures least { (s : State) → StandsFor machine.now s → result ≡ fold min most (ticks_to_raised s) }
    ensures less { result ≤ most }
{
    match machine.sources.first_raised() {
        None => most,
        Some(tick) => most.min(tick.saturating_sub(machine.clock.elapsed())),
    }
}

/// The ticks until the next thing happens: somebody wakes, a base interrupt or a raised handler comes, or the limit is reached. One at
/// least.
fn ticks_ahead(machine: &Machine, app: &App, limits: &Limits) -> u64
    ensures ahead { (s : State) → StandsFor machine.now s → result ≡ ticks_ahead app.now limits.now s }
    ensures soon { Each (λ e. machine.now.clock.now + result ≤ e.1) machine.now.clock.delayed_list }
    ensures within { result ≤ max 1 limits.now.ticks }
    ensures unslept { 2 ^ 32 ≤ result → machine.now.clock.delayed_list ≡ [] }
{
    let left = limits.ticks.saturating_sub(machine.clock.elapsed());
    let before = until_interrupt(machine, app, until_wake(machine, left));
    until_raised(machine, before).max(1)
}

/// All ticks pass at once up to the next thing to happen.
#[inline(always)]
fn pass_to_next(machine: &mut Machine, app: &App, limits: &Limits)
    requires { CanIdle app.now limits.now machine.old }
    ensures does { Moves machine.old machine.new (λ s. jump (ticks_ahead app.now limits.now s) s) }
    ensures leaves { Leaves machine.old machine.new }
{
    let ticks = ticks_ahead(machine, app, limits);
    if ticks > u32::MAX as u64 {
        machine.jump_unslept(ticks);
    } else {
        machine.jump(ticks as u32);
    }
}

/// Idle lets all these ticks pass at once, with whose last the base interrupts of its tick come, and a switch if one is due.
// Few applications are tickless.
#[inline(never)]
fn jump_ahead<L: Log>(machine: &mut Machine, app: &App, limits: &Limits, log: &mut L)
    requires room { 337 ≤ (L.logged log.old).room }
    requires idle { machine.old.sched.current ≡ None }
    requires can { CanIdle app.now limits.now machine.old }
    ensures { Does 337 machine.old (L.logged log.old) machine.new (L.logged log.new)
        (λ s. unless_held slice (interrupt app.now (jump (ticks_ahead app.now limits.now s) s))) }
{
    pass_to_next(machine, app, limits);
    interrupt(machine, app, log);
    machine.slice(log);
}

/// What idle does in a step.
#[inline(always)]
pub(crate) fn idle<L: Log>(machine: &mut Machine, app: &App, limits: &Limits, log: &mut L)
    requires room { 337 ≤ (L.logged log.old).room }
    requires idle { machine.old.sched.current ≡ None }
    requires can { CanIdle app.now limits.now machine.old }
    ensures { Does 337 machine.old (L.logged log.old) machine.new (L.logged log.new)
        (idle app.now limits.now) }
{
    if app.tickless() {
        jump_ahead(machine, app, limits, log);
        return;
    }
    tick_interrupt(machine, app, log);
}
