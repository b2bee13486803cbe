//! A base run with its checkpoints, and rows that begin from it.
ghost use Rattle.std.specs.Prelude.{◌≡◌, nat_lt, ◌<◌, ◌≤◌, ◌+◌, ◌-◌, ◌%◌, ◌^◌, ◌++◌, Bool, false, true, [], min, length, take};
ghost use Rattle.std.specs.Prelude.{None, IfOk, IfSome, OnErr, OnOk};
ghost use Rattle.model.specs.Points.{first_step, last_step};
ghost use Rattle.model.specs.Application.{Application};
ghost use Rattle.model.specs.Run as definition;
ghost use Rattle.model.specs.Run.{IsRow, IsRun, events_after, is_reached};
ghost use Rattle.machine.specs.Logged.{all_of};
ghost use Rattle.machine.specs.Can.{IsUnderWay};
ghost use Rattle.kernel.specs.Rows.{Extends};
ghost use Rattle.shelf.specs.Begun.{HasBegun};
ghost use Rattle.shelf.specs.Rests.{JoinsBase};
ghost use Rattle.shelf.specs.Shelves.{IsShelf, cost_of, way_to};
ghost use Rattle.shelf.specs.Walks.{IsWalk};

use crate::checkpoints::{Checkpoint, put_checkpoints};
use crate::row::{Row, RowBeginning};
use crate::simulation::Simulation;
use crate::walk::Walk;
use kernel::{Kernel, begin_row};
use model::{App, Event, Limits, Memory, Meter, Point, Run};
use std::alloc::Global;
use std::marker::Model;

/// The base run of an application, and the kernel as it was along it: before steps 0, `stride`, 2 `stride` and so on. No row
/// changes it.
#[derive(Drop)]
pub struct Shelf {
    base: Run,
    limits: Limits,
    stride: u32,
    checkpoints: Vec<Checkpoint>,
}

// Clauses see the base run, its limits, and the checkpoints along it.
impl Model for Shelf {
    ghost use Rattle.shelf.specs.Shelves.{Shelved};

    ghost Value = { Shelved };

    ghost view = { λ s. record { base = s.base; limits = s.limits; stride = s.stride; checkpoints = s.checkpoints.items } };
}

impl Shelf {
    /// Runs an application to its end under these limits, without injections, and keeps the kernel as it is before every
    /// `stride`-th step: 1 to 65,536. Each of these snapshots takes some 3 kB, 112 bytes for each task, and four for each item
    /// that the queues of the application can hold.
    ///
    /// `Memory` is returned only if a growth was refused.
    pub fn make(alloc: Global, app: &App, limits: Limits, stride: u32) -> Result<Shelf, Memory>
        requires apart { 0 < stride }
        requires near { stride ≤ 65536 }
        ensures shelf { IfOk result (λ shelf. IsShelf app.now shelf) }
        ensures limits { IfOk result (λ shelf. shelf.limits ≡ limits) }
        ensures stride { IfOk result (λ shelf. shelf.stride ≡ stride) }
    {
        limits.well_formed();
        let mut checkpoints = Vec::new(alloc);
        let base = put_checkpoints(alloc, app, &limits, stride, &mut checkpoints)?;
        Ok(Shelf {
            base,
            limits,
            stride,
            checkpoints,
        })
    }

    /// The base run.
    pub fn base(&self) -> &Run
        ensures { result.now ≡ self.now.base }
    {
        &self.base
    }

    /// The limits of the base run, which are those of the rows.
    pub fn limits(&self) -> Limits
        ensures { result ≡ self.now.limits }
    {
        self.limits
    }

    /// How many steps are between two checkpoints: 1 to 65,536.
    pub fn stride(&self) -> u32
        ensures { result ≡ self.now.stride }
    {
        self.stride
    }

    /// Whether the base run gets beyond the step of the point's first injection.
    pub fn gets_to(&self, point: &Point) -> bool
        ensures { result ≡ nat_lt (first_step point.now) self.now.base.steps }
    {
        point.first_step() < self.base.steps
    }

    /// The base run alone.
    pub fn into_base(self) -> Run
        ensures { result ≡ self.base }
    {
        self.base
    }

    /// How many events the base run has.
    fn count_events(&self) -> usize
        ensures { result ≡ length self.now.base.events }
    {
        self.base.events.len()
    }

    /// How many events the base run had reported at the checkpoint where this kernel is, of this hint, if
    /// it is found to be at one. Each run that reaches this kernel, and into which nothing is
    /// injected from there on, goes on as the base run does after these.
    pub fn known(&self, kernel: &Kernel, hint: u64) -> Option<usize>
        requires apart { 0 < self.now.stride }
        ensures joins { IfSome result (λ before. (app : Application) → IsShelf app self.now
            → JoinsBase app self.now.limits self.now.base kernel.now before) }
    {
        let checkpoint = self
            .checkpoints
            .get((kernel.steps() / self.stride) as usize)?;
        if checkpoint.hint == hint && kernel.is_at(&checkpoint.kernel) {
            Some(checkpoint.before)
        } else {
            None
        }
    }

    /// Makes the kernel that of the checkpoint before the first injection of a point that the base run
    /// reaches, and returns how many events the base run had reported by then.
    fn go_to_checkpoint(&self, app: &App, point: &Point, kernel: &mut Kernel) -> usize
        requires shelf { IsShelf app.now self.now }
        requires reached { first_step point.now < self.now.base.steps }
        ensures way { IsUnderWay app.now [] self.now.limits kernel.new }
        ensures there { kernel.new.steps + first_step point.now % self.now.stride ≡ first_step point.now }
        ensures before { result ≡ length (events_after app.now self.now.limits [] kernel.new.steps) }
    {
        let checkpoint = &self.checkpoints[(point.first_step() / self.stride) as usize];
        kernel.restore(&checkpoint.kernel);
        checkpoint.before
    }

    // Brings a walk to the checkpoint before the first injection of a point that the base run reaches, if that is nearer
    // than the walk, or the walk is past the injection.
    fn come_near(&self, app: &App, point: &Point, walk: &mut Walk)
        requires shelf { IsShelf app.now self.now }
        requires reached { first_step point.now < self.now.base.steps }
        requires walk { IsWalk app.now self.now.limits walk.old }
        ensures walk { IsWalk app.now self.now.limits walk.new }
        ensures near { walk.new.kernel.steps + way_to self.now.stride walk.old.kernel.steps (first_step point.now)
            ≡ first_step point.now }
    {
        let first = point.first_step();
        let steps = walk.kernel.steps();
        if first < steps || first % self.stride < first - steps {
            walk.before = self.go_to_checkpoint(app, point, &mut walk.kernel);
        }
    }

    /// Goes along the base run to the first injection of a point, and returns whether that can come there: then the
    /// point is reached. The walk goes from where it is, or from the nearest checkpoint before the injection, whichever is
    /// nearer. So most points that come in order take few steps that aren't their rows' own. What the base run
    /// reports on the way leaves the trail. The meter, which is below 2^62, rises by the steps on the way. The
    /// simulation's own kernel stays as it is.
    ///
    /// `Err(Memory)` is returned only if a growth was refused, so never if the base run reports nothing before that.
    /// The meter has then risen by no more than the way. The trail then has those events that it had, and some more
    /// after them, and the walk can't be used any more.
    pub fn walk_to(
        &self,
        app: &App,
        point: &Point,
        walk: &mut Walk,
        simulation: &mut Simulation,
    ) -> Result<bool, Memory>
        requires shelf { IsShelf app.now self.now }
        requires reached { first_step point.now < self.now.base.steps }
        requires walk { IsWalk app.now self.now.limits walk.old }
        requires meter { simulation.old.meter < 2 ^ 62 }
        ensures walk { OnOk result (IsWalk app.now self.now.limits walk.new) }
        ensures there { OnOk result (walk.new.kernel.steps ≡ first_step point.now) }
        ensures comes { IfOk result (λ comes. comes ≡ is_reached app.now self.now.limits point.now self.now.base.steps) }
        ensures kernel { simulation.new.kernel ≡ simulation.old.kernel }
        ensures trail { OnOk result (all_of simulation.new.trail ≡ all_of simulation.old.trail) }
        ensures meter { OnOk result
            (simulation.new.meter ≡ simulation.old.meter + way_to self.now.stride walk.old.kernel.steps (first_step point.now)) }
        ensures rises { simulation.old.meter ≤ simulation.new.meter }
        ensures at_most { simulation.new.meter
            ≤ simulation.old.meter + way_to self.now.stride walk.old.kernel.steps (first_step point.now) }
        ensures kept { OnErr result (Extends (all_of simulation.old.trail) (all_of simulation.new.trail)) }
        ensures memory { OnErr result (0 < length (events_after app.now self.now.limits [] (first_step point.now))) }
    {
        self.come_near(app, point, walk);
        // The base run has no more events than fit, so the sum below does.
        let _ = self.count_events();
        let kept = simulation.trail.len();
        walk.go_to(app, point.first_step(), &self.limits, simulation)?;
        walk.before += simulation.trail.len() - kept;
        simulation.trail.truncate(kept);
        Ok(walk.can_come(point))
    }

    /// Begins the row of a point, to whose first injection a walk has come (`walk_to`), and goes along it up to the
    /// step `until`, which is after the last injection or no less than the limit of steps, or to its end before that.
    /// The trail gains the row's events from the first injection on; those before it are the base run's, and the
    /// result says how many they are. What the simulation's kernel and log have doesn't matter. The meter, which is
    /// below 2^63, rises by the row's steps from the injection on.
    ///
    /// `Err(Memory)` is returned only if a growth was refused, so never if the row reports nothing.
    /// The meter has then risen by no more than the row's steps from that injection on.
    /// The trail then has those events that it had, and some more after them.
    pub fn begin_row_after(
        &self,
        app: &App,
        point: &Point,
        until: u32,
        walk: &Walk,
        simulation: &mut Simulation,
    ) -> Result<RowBeginning, Memory>
        requires shelf { IsShelf app.now self.now }
        requires reached { first_step point.now < self.now.base.steps }
        requires beyond { min (last_step point.now + 1) self.now.limits.steps ≤ until }
        requires walk { IsWalk app.now self.now.limits walk.now }
        requires there { walk.now.kernel.steps ≡ first_step point.now }
        requires meter { simulation.old.meter < 2 ^ 62 + first_step point.now }
        ensures there { IfOk result (λ beginning. beginning.end ≡ None → simulation.new.kernel.steps ≡ until) }
        ensures begun { IfOk result (HasBegun app.now point.now self.now.limits simulation.new.kernel
            (all_of simulation.old.trail) (all_of simulation.new.trail)) }
        ensures before { IfOk result (λ beginning. beginning.before
            ≡ length (events_after app.now self.now.limits [] (first_step point.now))) }
        ensures meter { OnOk result
            (simulation.new.meter + first_step point.now ≡ simulation.old.meter + simulation.new.kernel.steps) }
        ensures rises { simulation.old.meter ≤ simulation.new.meter }
        ensures kept { OnErr result (Extends (all_of simulation.old.trail) (all_of simulation.new.trail)) }
        ensures refused { OnErr result ((run : definition.Run) → IsRun app.now point.now self.now.limits run
            → (simulation.new.meter ≤ simulation.old.meter + (run.steps - first_step point.now))
            × (0 < length run.events)) }
    {
        point.well_formed();
        simulation.kernel.set_from(&walk.kernel);
        let end = begin_row(
            &mut simulation.kernel,
            app,
            point,
            until,
            &self.limits,
            &mut simulation.meter,
            &mut simulation.log,
            &mut simulation.trail,
        )?;
        Ok(RowBeginning {
            before: walk.before,
            end,
        })
    }

    // The first `count` events of the base run, and after them these.
    fn with_shared(&self, alloc: Global, count: usize, own: &[Event]) -> Result<Vec<Event>, Memory>
        requires { count ≤ length self.now.base.events }
        ensures events { IfOk result (λ events. events.items ≡ take count self.now.base.events ++ own.now) }
        ensures memory { OnErr result (0 < count + length own.now) }
    {
        let shared = &self.base.events[..count];
        let mut events = Vec::new(alloc);
        events.reserve_exact(shared.len() + own.len())?;
        events.extend_from_slice(shared)?;
        events.extend_from_slice(own)?;
        Ok(events)
    }

    // The row of a point that isn't reached.
    fn missed_row(&self, alloc: Global, point: Point) -> Result<Row, Memory>
        ensures row { IfOk result (λ row. row ≡ record { point = point; reached = false; run = self.now.base }) }
        ensures memory { OnErr result (0 < length self.now.base.events) }
    {
        let events = self.with_shared(alloc, self.count_events(), &[])?;
        Ok(Row {
            point,
            reached: false,
            run: Run {
                events,
                steps: self.base.steps,
                ticks: self.base.ticks,
                end: self.base.end,
            },
        })
    }

    // The row of a point, to whose first injection a walk has come, if it is reached. What the simulation has but its meter doesn't
    // matter.
    fn reached_row(
        &self,
        alloc: Global,
        app: &App,
        point: &Point,
        walk: &Walk,
        simulation: &mut Simulation,
    ) -> Result<Row, Memory>
        requires shelf { IsShelf app.now self.now }
        requires reached { first_step point.now < self.now.base.steps }
        requires walk { IsWalk app.now self.now.limits walk.now }
        requires there { walk.now.kernel.steps ≡ first_step point.now }
        requires meter { simulation.old.meter < 2 ^ 62 + first_step point.now }
        ensures row { IfOk result (λ row. (row.point ≡ point.now) × (row.reached ≡ true)
            × IsRun app.now point.now self.now.limits row.run) }
        ensures meter { IfOk result (λ row. simulation.new.meter + first_step point.now ≡ simulation.old.meter + row.run.steps) }
        ensures past { IfOk result (λ row. first_step point.now < row.run.steps) }
        ensures rises { simulation.old.meter ≤ simulation.new.meter }
        ensures refused { OnErr result ((run : definition.Run) → IsRun app.now point.now self.now.limits run
            → (simulation.new.meter ≤ simulation.old.meter + (run.steps - first_step point.now))
            × (0 < length run.events)) }
    {
        self.limits.well_formed();
        simulation.trail.truncate(0);
        let RowBeginning { before, end } = self.begin_row_after(
            app,
            point,
            u32::MAX,
            walk,
            simulation,
        )?;
        let Some(end) = end else {
            // No run gets so far (profile).
            unreachable!();
        };
        let events = self.with_shared(alloc, before, simulation.trail.events())?;
        Ok(Row {
            point: *point,
            reached: true,
            run: Run {
                events,
                steps: simulation.kernel.steps(),
                ticks: simulation.kernel.ticks(),
                end,
            },
        })
    }

    // The row of a point to whose first injection the base run gets.
    fn row_beyond(
        &self,
        alloc: Global,
        app: &App,
        point: &Point,
        simulation: &mut Simulation,
    ) -> Result<Row, Memory>
        requires shelf { IsShelf app.now self.now }
        requires reached { first_step point.now < self.now.base.steps }
        requires meter { simulation.old.meter < 2 ^ 62 }
        ensures point { IfOk result (λ row. row.point ≡ point.now) }
        ensures row { IfOk result (λ row. IsRow app.now self.now.limits point.now row.reached row.run) }
        ensures meter { IfOk result (λ row. simulation.new.meter
            ≡ simulation.old.meter + cost_of self.now point.now row.reached row.run.steps) }
        ensures rises { simulation.old.meter ≤ simulation.new.meter }
        ensures refused { OnErr result ((reached : Bool) (run : definition.Run)
            → IsRow app.now self.now.limits point.now reached run
            → (simulation.new.meter ≤ simulation.old.meter + cost_of self.now point.now reached run.steps)
            × (0 < length run.events)) }
    {
        point.well_formed();
        let mut walk = Walk::new(app);
        if self.walk_to(app, point, &mut walk, simulation)? {
            self.reached_row(alloc, app, point, &walk, simulation)
        } else {
            self.missed_row(alloc, *point)
        }
    }

    /// The row of a point: the run with all its injections if the base run gets beyond the step of the first and that
    /// can come there, otherwise the base run.
    ///
    /// The meter, which is below 2^62, rises by the steps from the nearest checkpoint before the first injection to the
    /// row's end. If the point isn't reached, it rises by those to the injection, if the base run gets there, and
    /// otherwise by none.
    ///
    /// `Err(Memory)` is returned only if a growth was refused, so never if the row reports nothing. The meter has
    /// then risen by no more than that.
    pub fn run_point(
        &self,
        alloc: Global,
        app: &App,
        point: Point,
        meter: &mut Meter,
    ) -> Result<Row, Memory>
        requires shelf { IsShelf app.now self.now }
        requires meter { meter.old < 2 ^ 62 }
        ensures point { IfOk result (λ row. row.point ≡ point) }
        ensures row { IfOk result (λ row. IsRow app.now self.now.limits point row.reached row.run) }
        ensures meter { IfOk result (λ row. meter.new ≡ meter.old + cost_of self.now point row.reached row.run.steps) }
        ensures rises { meter.old ≤ meter.new }
        ensures refused { OnErr result ((reached : Bool) (run : definition.Run)
            → IsRow app.now self.now.limits point reached run
            → (meter.new ≤ meter.old + cost_of self.now point reached run.steps) × (0 < length run.events)) }
    {
        if !self.gets_to(&point) {
            return self.missed_row(alloc, point);
        }
        let mut simulation = Simulation::new(alloc, app);
        std::mem::swap(meter, &mut simulation.meter);
        let row = self.row_beyond(alloc, app, &point, &mut simulation);
        std::mem::swap(meter, &mut simulation.meter);
        row
    }
}
