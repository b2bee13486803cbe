//! Plans that are made while the reference kernel runs, so that many of their injections fall inside calls.

use model::{App, End, HandlerId, Injection, Limits};
use random_apps::Dice;
use reference_kernel::ReferenceKernel;
use std::alloc::Global;

/// How many injections were made.
#[derive(Clone, Copy, Debug, Default)]
pub(crate) struct Injections {
    pub(crate) all: usize,
    /// Those before a step of a call in Decide, Place, Unlock or Leave.
    pub(crate) inside_calls: usize,
    /// Those of them while an object is locked.
    pub(crate) locked: usize,
    /// Those while the scheduler is suspended.
    pub(crate) suspended: usize,
    /// Those while a critical section is open.
    pub(crate) critical: usize,
    /// Those while the daemon runs; those of them while its call has locked its own queue.
    pub(crate) beside_daemon: usize,
    pub(crate) in_its_window: usize,
    /// Those past the end of the run.
    pub(crate) late: usize,
}

/// Makes a plan.
#[derive(Drop)]
pub(crate) struct Planner {
    dice: Dice,
    /// The number of steps before which handlers may still come.
    left: u32,
    /// Inside calls, while the scheduler is suspended and in critical sections, handlers come before one step in this many.
    /// Otherwise they come before one in three times as many.
    rarity: u32,
    /// Whether ticks are among the injections.
    has_ticks: bool,
    pub(crate) injections: Vec<Injection>,
    pub(crate) made: Injections,
}

impl Planner {
    /// A planner that makes no injections.
    pub(crate) fn idle(alloc: Global) -> Self {
        Planner {
            dice: Dice::new(0),
            left: 0,
            rarity: 1,
            has_ticks: false,
            injections: Vec::new(alloc),
            made: Injections::default(),
        }
    }

    /// A planner that makes one injection, a few, or many.
    pub(crate) fn new(alloc: Global, seed: u32) -> Self {
        let mut dice = Dice::new(seed);
        let left = match dice.roll(4) {
            0 => 1,
            1 => 2 + dice.roll(3),
            _ => 1000,
        };
        let rarity = 1 << dice.roll(6);
        Planner {
            dice,
            left,
            rarity,
            has_ticks: false,
            injections: Vec::new(alloc),
            made: Injections::default(),
        }
    }

    /// A planner that injects ticks too.
    pub(crate) fn of_ticks(alloc: Global, seed: u32) -> Self {
        Planner {
            has_ticks: true,
            ..Planner::new(alloc, seed)
        }
    }

    /// How many interrupts come before the next step. While any are left, at least one comes in two cases. In the first, tasks wait
    /// at both sides of the locked object. In the second, a task of higher priority is suspended while the running task is about
    /// to decide whether it waits.
    fn roll_count(&mut self, reference: &ReferenceKernel) -> u32 {
        let is_held = reference.is_scheduler_suspended() || reference.is_critical();
        let sides = if reference.has_both_at_lock() || reference.has_suspended_above_decision() {
            1
        } else if reference.is_inside_call() || is_held {
            self.rarity
        } else {
            self.rarity.saturating_mul(3)
        };
        let sides = 1.max(sides);
        if self.left == 0 || self.dice.roll(sides) > 0 {
            return 0;
        }
        self.left -= 1;
        1 + self.dice.roll(3)
    }

    /// Counts an injection before the next step of the reference kernel.
    fn count(&mut self, reference: &ReferenceKernel, app: &App) {
        let is_inside_call = reference.is_inside_call();
        let is_locked = reference.is_locked();
        let is_suspended = reference.is_scheduler_suspended();
        let is_critical = reference.is_critical();
        self.made.all = self.made.all.saturating_add(1);
        let inside = &mut self.made.inside_calls;
        *inside = inside.saturating_add(is_inside_call as usize);
        let locked = &mut self.made.locked;
        *locked = locked.saturating_add(is_locked as usize);
        let suspended = &mut self.made.suspended;
        *suspended = suspended.saturating_add(is_suspended as usize);
        let critical = &mut self.made.critical;
        *critical = critical.saturating_add(is_critical as usize);
        self.count_daemon(reference, app);
    }

    /// Counts an injection that comes while the daemon runs.
    fn count_daemon(&mut self, reference: &ReferenceKernel, app: &App) {
        let is_beside = reference.is_daemon_running(app);
        let is_inside = is_beside && reference.is_locked();
        let beside = &mut self.made.beside_daemon;
        *beside = beside.saturating_add(is_beside as usize);
        let inside = &mut self.made.in_its_window;
        *inside = inside.saturating_add(is_inside as usize);
    }

    /// Which interrupt is injected next: a handler. If ticks are among the injections, half of the time it is the tick.
    fn roll_source(&mut self, app: &App) -> HandlerId {
        let tick = app.handlers().len().min(App::MOST_HANDLERS);
        if self.has_ticks && self.dice.roll(2) == 0 {
            return HandlerId { number: tick as u8 };
        }
        HandlerId {
            number: self.dice.roll(3) as u8,
        }
    }

    fn push(&mut self, step: u32, app: &App) -> Option<()> {
        let handler = self.roll_source(app);
        self.injections.push(Injection { step, handler }).ok()
    }

    /// Makes the injections before the next step.
    fn plan_step(&mut self, reference: &ReferenceKernel, app: &App) -> Option<&[Injection]> {
        let old = self.injections.len();
        for _ in 0..self.roll_count(reference) {
            self.push(reference.steps, app)?;
            self.count(reference, app);
        }
        self.injections.as_slice().get(old..)
    }

    /// Makes up to two injections past the end of the run, if more may come.
    fn plan_late(&mut self, steps: u32, app: &App) -> Option<()> {
        let mut step = steps;
        if self.left == 0 {
            return Some(());
        }
        for _ in 0..self.dice.roll(3) {
            step = step.saturating_add(self.dice.roll(3));
            self.push(step, app)?;
            self.made.all = self.made.all.saturating_add(1);
            self.made.late = self.made.late.saturating_add(1);
        }
        Some(())
    }

    /// Runs the reference kernel to its end, and makes the plan along the way; `None` if memory runs out.
    pub(crate) fn run(
        &mut self,
        reference: &mut ReferenceKernel,
        app: &App,
        limits: &Limits,
    ) -> Option<End> {
        for _ in 0..limits.steps {
            if reference.end(app, limits).is_some() {
                break;
            }
            let injections = self.plan_step(reference, app)?;
            reference.step(app, limits, injections);
        }
        self.plan_late(reference.steps, app)?;
        if reference.is_out_of_memory {
            return None;
        }
        reference.end(app, limits)
    }
}
