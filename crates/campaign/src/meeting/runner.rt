//! Running the rows of a worker, one after another.
ghost use Rattle.std.specs.Prelude.{◌≡◌, ◌<◌, ◌+◌, ◌++◌, ◌∷◌, ◌^◌, [], false, true, length, take, if◌then◌else◌, Some, None, min};
ghost use Rattle.std.specs.Prelude.{IfOk, IfSome, OnOk};
ghost use Rattle.model.specs.Points.{first_step, last_step};
ghost use Rattle.machine.specs.Logged.{all_of};
ghost use Rattle.report.specs.Views.{shows_events};
ghost use Rattle.rows.specs.declared.link.Link.TheVariants as links;
ghost use Rattle.campaign.specs.Running.{ArePassed, HasLegs, HasPassed, HasVisited, IsAheadOf, IsLedOn, IsOnWay, IsPastAll};
ghost use Rattle.campaign.specs.Running.{IsRestOfRow, RunsRow, end_at};
ghost use Rattle.campaign.specs.Setup.{IsSetup, IsWalkOf, is_reached_in};
ghost use Rattle.campaign.specs.Visited.{ArePut, IsNoted};

use crate::meeting::ahead::Ahead;
use crate::meeting::meeting_steps::next_meeting_step;
use crate::meeting::meetings::Meetings;
use crate::meeting::spacing::Spacing;
use crate::meeting::visited_state::{Passed, VisitedState};
use crate::meeting::visited_states::VisitedStates;
use crate::setup::Setup;
use kernel::{Kernel, RestEnding, Snapshot, Trail, go_far};
use model::{App, End, Injection, Limits, Memory, Meter, Point, Run};
use report::View;
use rows::{KeptRow, Leg, Link};
use shelf::{Simulation, Walk};
use std::alloc::Global;

/// What a worker runs its rows with: the simulation, with the trail of all of them, their legs, the
/// visited states, and the kernels that the row on its way has reached.
#[derive(Drop)]
pub(crate) struct Runner {
    alloc: Global,
    pub(crate) simulation: Simulation,
    pub(crate) legs: Vec<Leg>,
    pub(crate) table: VisitedStates,
    passed: Vec<Passed>,
    // Snapshots of visited states that were replaced, whose memory is used again.
    spent: Vec<Box<Snapshot>>,
    meetings: Meetings,
    spacing: Spacing,
}

// The first meeting step of the row of a point. It is after that of the last injection, or after
// each step that a run can reach.
fn first_meeting_step(spacing: &Spacing, point: &Point) -> u32
    ensures { min (last_step point.now) 1000000 < result }
{
    let last = point.last_step().min(Limits::MOST);
    let delay = spacing.delay().min(Limits::MOST);
    next_meeting_step(spacing.steps(), last, last + delay)
}

// How many events a row has that is the base run, as far as the view shows it.
fn shared_by(base: &Run, view: View) -> usize
    ensures { result ≡ (if shows_events view base.now.end then length base.now.events else 0) }
{
    if view.shows_events(base.end) {
        base.events.len()
    } else {
        0
    }
}

// The rest of a row that ended in this way: nothing more.
fn ahead_of(ending: RestEnding, base: &Run) -> Ahead
    ensures { result ≡ record {
      link = links.Base (length base.now.events);
      steps = ending.steps;
      ticks = ending.ticks;
      end = ending.end;
    } }
{
    Ahead {
        link: end_of_base(base),
        steps: ending.steps,
        ticks: ending.ticks,
        end: ending.end,
    }
}

// The end of the base run, after which there are no events.
fn end_of_base(base: &Run) -> Link
    ensures { result ≡ links.Base (length base.now.events) }
{
    Link::Base {
        from: base.events.len(),
    }
}

// A snapshot of the kernel, if there is memory for it: in that of one of these, if it serves.
fn snapshot_of(
    alloc: Global,
    kernel: &Kernel,
    spent: &mut Vec<Box<Snapshot>>,
) -> Option<Box<Snapshot>>
    ensures { IfSome result (λ snapshot. snapshot.value ≡ kernel.now) }
{
    if let Some(mut snapshot) = spent.pop() {
        if kernel.save(&mut snapshot) {
            return Some(snapshot);
        }
    }
    kernel.boxed_snapshot(alloc).ok()
}

impl Runner {
    /// No row is run. Rows will look for visited states in this way.
    pub(crate) fn new(alloc: Global, app: &App, spacing: Spacing) -> Runner
        ensures legs { result.legs.items ≡ [] }
        ensures visited { result.table.visited.items ≡ [] }
    {
        Runner {
            alloc,
            simulation: Simulation::new(alloc, app),
            legs: Vec::new(alloc),
            table: VisitedStates::new(alloc, spacing.closest()),
            passed: Vec::new(alloc),
            spent: Vec::new(alloc),
            meetings: Meetings::new(),
            spacing,
        }
    }

    /// The events of all rows, and their legs, which it has no more.
    pub(crate) fn take_trail_and_legs(&mut self) -> (Trail, Vec<Leg>)
        ensures { result ≡ (self.old.simulation.trail, self.old.legs) }
    {
        let trail = std::mem::replace(&mut self.simulation.trail, Trail::new(self.alloc));
        let legs = std::mem::replace(&mut self.legs, Vec::new(self.alloc));
        (trail, legs)
    }

    // The rest of a row that has reached its end: nothing more.
    fn no_rest(&self, setup: &Setup<'_>, point: &Point, end: End) -> Ahead
        requires way { IsOnWay setup.now point.now self.now }
        requires end { end_at setup.now point.now self.now ≡ Some end }
        ensures { IsRestOfRow setup.now point.now self.now self.now result }
    {
        let limits = setup.shelf.limits();
        limits.well_formed();
        Ahead {
            link: end_of_base(setup.shelf.base()),
            steps: self.simulation.kernel.steps(),
            ticks: self.simulation.kernel.ticks(),
            end,
        }
    }

    // How each row that reaches this kernel goes on, if that is known: since the base run has
    // reached it, or another row.
    fn known_rest(&self, setup: &Setup<'_>, hint: u64) -> Option<Ahead>
        requires setup { IsSetup setup.now }
        ensures { IfSome result (IsAheadOf setup.now self.now self.now) }
    {
        let Some(before) = setup.shelf.known(&self.simulation.kernel, hint) else {
            return self.table.find(&self.simulation.kernel, hint);
        };
        let base = setup.shelf.base();
        Some(Ahead {
            link: Link::Base { from: before },
            steps: base.steps,
            ticks: base.ticks,
            end: base.end,
        })
    }

    // Notes the kernel that the row has reached on its way, if it may leave another visited state and
    // there is memory for it.
    fn note(&mut self, hint: u64)
        ensures kernel { self.new.simulation.kernel ≡ self.old.simulation.kernel }
        ensures trail { self.new.simulation.trail ≡ self.old.simulation.trail }
        ensures meter { self.new.simulation.meter ≡ self.old.simulation.meter }
        ensures legs { self.new.legs ≡ self.old.legs }
        ensures table { self.new.table ≡ self.old.table }
        ensures passed { IsNoted (all_of self.old.simulation.trail) self.old.simulation.kernel
            self.old.passed.items self.new.passed.items }
    {
        if self.passed.len() >= self.spacing.most_visited() {
            return;
        }
        let Some(kernel) = snapshot_of(self.alloc, &self.simulation.kernel, &mut self.spent) else {
            return;
        };
        let from = self.simulation.trail.len();
        if self.passed.push(Passed { kernel, hint, from }).is_err() {
            return;
        }
    }

    // Runs a row to its end. Its last injection comes before the step that it has reached.
    fn run_out(&mut self, setup: &Setup<'_>, injections: &[Injection]) -> Result<Ahead, Memory>
        requires setup { IsSetup setup.now }
        requires past { IsPastAll setup.now injections.now self.old }
        requires passed { HasPassed setup.now self.old }
        requires meter { self.old.simulation.meter < 2 ^ 62 + self.old.simulation.kernel.steps }
        ensures legs { self.new.legs ≡ self.old.legs }
        ensures table { self.new.table ≡ self.old.table }
        ensures led { OnOk result (IsLedOn setup.now self.old self.new) }
        ensures passed { OnOk result (HasPassed setup.now self.new) }
        ensures rest { IfOk result (IsAheadOf setup.now self.old self.new) }
    {
        let limits = setup.shelf.limits();
        limits.well_formed();
        let ending = go_far(
            &mut self.simulation.kernel,
            setup.app,
            injections,
            u32::MAX,
            &limits,
            &mut self.simulation.meter,
            &mut self.simulation.log,
            &mut self.simulation.trail,
        )?;
        match ending {
            Some(ending) => Ok(ahead_of(ending, setup.shelf.base())),
            // No run gets this far (profile).
            None => unreachable!(),
        }
    }

    // Runs a row to a kernel from which the rest of each row is known, or to its end. Its last
    // injection comes before the step that it has reached. At each meeting step on its way it
    // looks for visited states, and notes the kernel.
    fn run_on(
        &mut self,
        setup: &Setup<'_>,
        injections: &[Injection],
        last: u32,
    ) -> Result<Ahead, Memory>
        requires setup { IsSetup setup.now }
        requires past { IsPastAll setup.now injections.now self.old }
        requires goes { end_at setup.now injections.now self.old ≡ None }
        requires passed { HasPassed setup.now self.old }
        requires meter { self.old.simulation.meter < 2 ^ 62 + self.old.simulation.kernel.steps }
        ensures legs { self.new.legs ≡ self.old.legs }
        ensures table { self.new.table ≡ self.old.table }
        ensures led { OnOk result (IsLedOn setup.now self.old self.new) }
        ensures passed { OnOk result (HasPassed setup.now self.new) }
        ensures rest { IfOk result (IsAheadOf setup.now self.old self.new) }
    {
        let limits = setup.shelf.limits();
        limits.well_formed();
        'meeting_steps: loop {
            let until = next_meeting_step(
                self.spacing.steps(),
                last,
                self.simulation.kernel.steps(),
            );
            let ending = go_far(
                &mut self.simulation.kernel,
                setup.app,
                injections,
                until,
                &limits,
                &mut self.simulation.meter,
                &mut self.simulation.log,
                &mut self.simulation.trail,
            )?;
            if let Some(ending) = ending {
                self.meetings.count(false);
                return Ok(ahead_of(ending, setup.shelf.base()));
            }
            let hint = self.simulation.kernel.hint(setup.app);
            if let Some(rest) = self.known_rest(setup, hint) {
                self.meetings.count(true);
                return Ok(rest);
            }
            self.note(hint);
        }
    }

    // The same, from the row's first meeting step on. If it doesn't pay to look for visited states
    // after that, the row is run to its end.
    fn run_from_meeting_step(
        &mut self,
        setup: &Setup<'_>,
        injections: &[Injection],
        last: u32,
    ) -> Result<Ahead, Memory>
        requires setup { IsSetup setup.now }
        requires past { IsPastAll setup.now injections.now self.old }
        requires goes { end_at setup.now injections.now self.old ≡ None }
        requires passed { HasPassed setup.now self.old }
        requires meter { self.old.simulation.meter < 2 ^ 62 + self.old.simulation.kernel.steps }
        ensures legs { self.new.legs ≡ self.old.legs }
        ensures table { self.new.table ≡ self.old.table }
        ensures led { OnOk result (IsLedOn setup.now self.old self.new) }
        ensures passed { OnOk result (HasPassed setup.now self.new) }
        ensures rest { IfOk result (IsAheadOf setup.now self.old self.new) }
    {
        let hint = self.simulation.kernel.hint(setup.app);
        if let Some(rest) = self.known_rest(setup, hint) {
            return Ok(rest);
        }
        self.note(hint);
        if self.meetings.are_likely() {
            self.run_on(setup, injections, last)
        } else {
            self.run_out(setup, injections)
        }
    }

    // The rest of the row of a point that has come this far, or reached this end.
    fn rest(&mut self, setup: &Setup<'_>, point: &Point, end: Option<End>) -> Result<Ahead, Memory>
        requires setup { IsSetup setup.now }
        requires way { IsOnWay setup.now point.now self.old }
        requires beyond { end ≡ None → last_step point.now < self.old.simulation.kernel.steps }
        requires end { end ≡ end_at setup.now point.now self.old }
        requires visited { HasVisited setup.now self.old }
        requires legs { HasLegs setup.now self.old }
        requires passed { self.old.passed.items ≡ [] }
        requires meter { self.old.simulation.meter < 2 ^ 62 + self.old.simulation.kernel.steps }
        ensures legs { self.new.legs ≡ self.old.legs }
        ensures table { self.new.table ≡ self.old.table }
        ensures rest { IfOk result (IsRestOfRow setup.now point.now self.old self.new) }
        ensures passed { IfOk result (ArePassed setup.now self.new) }
    {
        if let Some(end) = end {
            return Ok(self.no_rest(setup, point, end));
        }
        point.well_formed();
        let injections = point.injections();
        let last = point.last_step();
        let rest = self.run_from_meeting_step(setup, injections.as_slice(), last)?;
        Ok(rest)
    }

    // The row of a point that isn't reached: it is the base run.
    fn missed(&self, setup: &Setup<'_>, point: &Point) -> KeptRow
        requires setup { IsSetup setup.now }
        requires missed { is_reached_in setup.now point.now ≡ false }
        requires legs { HasLegs setup.now self.now }
        ensures { RunsRow setup.now point.now self.now self.now result }
    {
        let base = setup.shelf.base();
        KeptRow {
            point: *point,
            reached: false,
            shared: shared_by(base, *setup.view),
            link: end_of_base(base),
            steps: base.steps,
            ticks: base.ticks,
            end: base.end,
        }
    }

    // The row on its way is over, with this rest and the leg of this number. The kernels that it
    // reached are visited states now.
    fn put_visited(&mut self, number: usize, rest: &Ahead, last: u32)
        ensures trail { self.new.simulation.trail ≡ self.old.simulation.trail }
        ensures legs { self.new.legs ≡ self.old.legs }
        ensures visited { ArePut number rest.now self.old.passed.items self.old.table.visited.items self.new.table.visited.items }
    {
        while let Some(passed) = self.passed.pop() {
            let link = Link::Leg {
                number,
                from: passed.from,
            };
            let state = VisitedState {
                step: passed.kernel.steps(),
                kernel: passed.kernel,
                hint: passed.hint,
                rest: Ahead { link, ..*rest },
            };
            let room = self.spacing.room();
            self.table.put(state, last, room, &mut self.spent);
        }
    }

    // The row on its way is over, with this rest after the trail. It gets a leg of its own, from
    // this place on.
    fn close(&mut self, rest: &Ahead, from: usize, last: u32) -> Result<Link, Memory>
        ensures link { IfOk result (λ link. link ≡ links.Leg (length self.old.legs.items) from) }
        ensures trail { self.new.simulation.trail ≡ self.old.simulation.trail }
        ensures legs { OnOk result (self.new.legs.items ≡ self.old.legs.items
            ++ record { to = length (all_of self.old.simulation.trail); next = rest.now.link } ∷ []) }
        ensures visited { OnOk result (ArePut (length self.old.legs.items) rest.now self.old.passed.items
            self.old.table.visited.items self.new.table.visited.items) }
    {
        let number = self.legs.len();
        let leg = Leg {
            to: self.simulation.trail.len(),
            next: rest.link,
        };
        if self.legs.push(leg).is_err() {
            return Err(Memory);
        }
        self.put_visited(number, rest, last);
        Ok(Link::Leg { number, from })
    }

    // The row on its way is over, with this rest, and its events aren't kept. They leave the trail,
    // and it gets no leg: nothing follows the link of a visited state that is put here.
    fn close_without_events(&mut self, rest: &Ahead, from: usize, last: u32)
        ensures trail { all_of self.new.simulation.trail ≡ take from (all_of self.old.simulation.trail) }
        ensures legs { self.new.legs ≡ self.old.legs }
        ensures visited { ArePut (length self.old.legs.items) rest.now self.old.passed.items
            self.old.table.visited.items self.new.table.visited.items }
    {
        self.simulation.trail.truncate(from);
        let number = self.legs.len();
        self.put_visited(number, rest, last);
    }

    // The row of a point that is reached, and to whose first injection the walk has come.
    fn reached(&mut self, setup: &Setup<'_>, point: &Point, walk: &Walk) -> Result<KeptRow, Memory>
        requires setup { IsSetup setup.now }
        requires walk { IsWalkOf setup.now walk.now }
        requires there { walk.now.kernel.steps ≡ first_step point.now }
        requires beyond { first_step point.now < setup.now.shelf.now.base.steps }
        requires reached { is_reached_in setup.now point.now ≡ true }
        requires legs { HasLegs setup.now self.old }
        requires visited { HasVisited setup.now self.old }
        ensures row { IfOk result (RunsRow setup.now point.now self.old self.new) }
        ensures visited { OnOk result (HasVisited setup.now self.new) }
    {
        let shelf = setup.shelf;
        let limits = shelf.limits();
        limits.well_formed();
        let base = shelf.base();
        self.passed.clear();
        self.spacing.begin_row(point);
        let from = self.simulation.trail.len();
        let last = point.last_step();
        let until = first_meeting_step(&self.spacing, point);
        self.simulation.meter = Meter::new();
        let begun = shelf.begin_row_after(setup.app, point, until, walk, &mut self.simulation)?;
        let rest = self.rest(setup, point, begun.end)?;
        let own = self.simulation.kernel.steps().saturating_sub(last);
        self.spacing.count_row(own, self.passed.len());
        if !setup.view.shows_events(rest.end) {
            self.close_without_events(&rest, from, last);
            return Ok(KeptRow {
                point: *point,
                reached: true,
                shared: 0,
                link: end_of_base(base),
                steps: rest.steps,
                ticks: rest.ticks,
                end: rest.end,
            });
        }
        let link = self.close(&rest, from, last)?;
        Ok(KeptRow {
            point: *point,
            reached: true,
            shared: begun.before,
            link,
            steps: rest.steps,
            ticks: rest.ticks,
            end: rest.end,
        })
    }

    // The row of a point to whose first injection the base run gets. The walk goes there.
    fn beyond(
        &mut self,
        setup: &Setup<'_>,
        point: &Point,
        walk: &mut Walk,
    ) -> Result<KeptRow, Memory>
        requires setup { IsSetup setup.now }
        requires walk { IsWalkOf setup.now walk.old }
        requires beyond { first_step point.now < setup.now.shelf.now.base.steps }
        requires legs { HasLegs setup.now self.old }
        requires visited { HasVisited setup.now self.old }
        ensures walk { OnOk result (IsWalkOf setup.now walk.new) }
        ensures row { IfOk result (RunsRow setup.now point.now self.old self.new) }
        ensures visited { OnOk result (HasVisited setup.now self.new) }
    {
        self.simulation.meter = Meter::new();
        let shelf = setup.shelf;
        let comes = shelf.walk_to(setup.app, point, walk, &mut self.simulation)?;
        if comes {
            self.reached(setup, point, walk)
        } else {
            Ok(self.missed(setup, point))
        }
    }

    /// The row of a point, as far as the view shows it. If it shows events, the row's own go to the
    /// trail. The walk goes along the base run to the first injection. At `Err(Memory)` the runner
    /// and the walk can't be used any more.
    pub(crate) fn run(
        &mut self,
        setup: &Setup<'_>,
        point: &Point,
        walk: &mut Walk,
    ) -> Result<KeptRow, Memory>
        requires setup { IsSetup setup.now }
        requires walk { IsWalkOf setup.now walk.old }
        requires legs { HasLegs setup.now self.old }
        requires visited { HasVisited setup.now self.old }
        ensures walk { OnOk result (IsWalkOf setup.now walk.new) }
        ensures row { IfOk result (RunsRow setup.now point.now self.old self.new) }
        ensures visited { OnOk result (HasVisited setup.now self.new) }
    {
        if setup.shelf.gets_to(point) {
            self.beyond(setup, point, walk)
        } else {
            Ok(self.missed(setup, point))
        }
    }
}
