//! Handlers that raise themselves again and again, as periodic timers do.
//!
//! If such a handler is injected it keeps the phase of that moment for good. So the row meets only
//! rows of the same phase, a period or more after its injection.
use model::{App, IsrOp, PointEntry, Run, SourceOp};
use report::View;

// An application has at most this many handlers.
const HANDLERS: usize = 16;

// Meeting steps near an injection are at least so many steps apart: each costs more than a few steps.
const NARROWEST: u32 = 8;

// They are at most this far apart.
const WIDEST: u32 = 2048;

/// How many steps are between two meeting steps near an injection of each handler, if it raises
/// itself and is injected before each of some steps: about a period. 0 for the others.
#[derive(Clone, Copy)]
pub(crate) struct Timers {
    spacings: [u32; HANDLERS],
}

// After how many ticks this handler comes again by its own ops, if it does; otherwise 0.
fn period_of(app: &App, number: usize) -> u32 {
    let Some(handler) = app.handlers().get(number) else {
        return 0;
    };
    let mut period = 0;
    for op in handler.ops() {
        if let IsrOp::Source(raised, SourceOp::Raise(ticks)) = *op {
            if raised.number as usize == number {
                period = ticks;
            }
        }
    }
    period
}

// Whether the campaign asks for this handler before each of some steps.
fn is_injected(app: &App, number: usize) -> bool {
    for entry in app.points() {
        if let PointEntry::Each(range) = entry {
            if range.handler.number as usize == number {
                return true;
            }
        }
    }
    false
}

// The period of this handler in ticks, if it raises itself and is injected; otherwise 0.
fn injected_period(app: &App, number: usize) -> u32 {
    let period = period_of(app, number);
    if period > 0 && is_injected(app, number) {
        period
    } else {
        0
    }
}

// The least power of two that is no less than a period of this many ticks, in steps of the base
// run; within some bounds.
fn spacing_for(period: u32, base: &Run) -> u32 {
    let steps = (period as u64).saturating_mul(base.steps as u64) / base.ticks.max(1);
    let mut spacing = NARROWEST;
    for _ in 0..8 {
        if spacing < WIDEST && (spacing as u64) < steps {
            spacing *= 2;
        }
    }
    spacing
}

/// Whether a handler is such a timer, if this is written of the campaign's rows. Only if heads alone
/// are written later points come first, so that rows of the same phase are there.
pub(crate) fn has_timers(app: &App, view: &View) -> bool {
    for number in 0..HANDLERS {
        if view.heads && injected_period(app, number) > 0 {
            return true;
        }
    }
    false
}

impl Timers {
    /// Those of an application that has this base run, if this is written of the rows.
    pub(crate) fn of(app: &App, base: &Run, view: &View) -> Timers {
        let mut spacings = [0; HANDLERS];
        for number in 0..HANDLERS {
            let period = injected_period(app, number);
            if view.heads && period > 0 {
                spacings[number] = spacing_for(period, base);
            }
        }
        Timers { spacings }
    }

    /// The widest spacing; 0 if there are none.
    pub(crate) fn widest(&self) -> u32 {
        let mut widest = 0;
        for number in 0..HANDLERS {
            widest = widest.max(self.spacings[number]);
        }
        widest
    }

    /// The spacing of meeting steps after an injection of the handler of this number; 0 if it is no timer.
    pub(crate) fn spacing(&self, number: u8) -> u32 {
        self.spacings.get(number as usize).copied().unwrap_or(0)
    }
}
