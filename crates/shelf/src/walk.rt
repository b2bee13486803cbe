//! A kernel that goes along the base run.
ghost use Rattle.std.specs.Prelude.{◌≡◌, ◌<◌, ◌≤◌, ◌+◌, ◌^◌, ℕ, [], None, OnErr, OnOk, length};
ghost use Rattle.model.specs.Application.{Application, Limits};
ghost use Rattle.model.specs.Handlers.{can_come};
ghost use Rattle.model.specs.Points.{first_handler, first_step};
ghost use Rattle.model.specs.Run.{end_of, events_after, state_after};
ghost use Rattle.machine.specs.Can.{IsUnderWay};
ghost use Rattle.machine.specs.Logged.{all_of};
ghost use Rattle.kernel.specs.Leads.{IsLed};
ghost use Rattle.kernel.specs.Rows.{Extends};
ghost use Rattle.shelf.specs.Walks.{IsWalk};

use crate::simulation::Simulation;
use kernel::{Kernel, go_far};
use model::{App, End, Limits, Memory, Point};

/// A kernel that goes along the base run, from the first injection of one point to that of the
/// next, and how many events that run has reported by then. If points come in order, it does each
/// step of the base run once for all of them.
#[derive(Drop)]
pub struct Walk {
    pub(crate) kernel: Kernel,
    pub(crate) before: usize,
}

impl Walk {
    /// It is before the first step.
    pub fn new(app: &App) -> Walk
        ensures walk { (limits : Limits) → IsWalk app.now limits result }
        ensures steps { result.kernel.steps ≡ 0 }
    {
        Walk {
            kernel: Kernel::boot(app),
            before: 0,
        }
    }

    /// Whether the first interrupt of a point can come, if the walk is before the step of it.
    pub(crate) fn can_come(&self, point: &Point) -> bool
        ensures { (app : Application) (limits : Limits) → IsWalk app limits self.now
            → self.now.kernel.steps ≡ first_step point.now
            → result ≡ can_come (state_after app limits [] (first_step point.now)) (first_handler point.now) }
    {
        self.kernel.can_come(point.first().handler)
    }

    /// Goes along the base run up to this step, which that reaches. The trail gains what it reports on the way. The
    /// meter, which is below 2^62 and the steps that the walk has done, rises by the steps that are done here. The
    /// simulation's own kernel stays as it is.
    pub(crate) fn go_to(
        &mut self,
        app: &App,
        step: u32,
        limits: &Limits,
        simulation: &mut Simulation,
    ) -> Result<(), Memory>
        requires way { IsUnderWay app.now [] limits.now self.old.kernel }
        requires ahead { self.old.kernel.steps ≤ step }
        requires reached { (n : ℕ) → n ≤ step → end_of app.now limits.now (state_after app.now limits.now [] n) ≡ None }
        requires meter { simulation.old.meter < 2 ^ 62 + self.old.kernel.steps }
        ensures before { self.new.before ≡ self.old.before }
        ensures kernel { simulation.new.kernel ≡ simulation.old.kernel }
        ensures way { OnOk result (IsUnderWay app.now [] limits.now self.new.kernel) }
        ensures there { OnOk result (self.new.kernel.steps ≡ step) }
        ensures led { OnOk result (IsLed app.now limits.now self.old.kernel self.new.kernel
            (all_of simulation.old.trail) (all_of simulation.new.trail)) }
        ensures meter { OnOk result (simulation.new.meter + self.old.kernel.steps ≡ simulation.old.meter + step) }
        ensures rises { simulation.old.meter ≤ simulation.new.meter }
        ensures at_most { simulation.new.meter + self.old.kernel.steps ≤ simulation.old.meter + step }
        ensures kept { OnErr result (Extends (all_of simulation.old.trail) (all_of simulation.new.trail)) }
        ensures memory { OnErr result (0 < length (events_after app.now limits.now [] step)) }
    {
        let ending = go_far(
            &mut self.kernel,
            app,
            &[],
            step,
            limits,
            &mut simulation.meter,
            &mut simulation.log,
            &mut simulation.trail,
        )?;
        match ending {
            None => Ok(()),
            Some(ending) => {
                // The base run goes on here.
                let _end: End = ending.end;
                unreachable!()
            }
        }
    }
}
