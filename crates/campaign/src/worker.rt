//! A worker, which makes the rows of the blocks that its lane returns.
ghost use Rattle.std.specs.Prelude.{◌≡◌, ◌<◌, ◌≤◌, ◌+◌, ◌^◌, ◌++◌, ◌∷◌, ℕ, [], None, true, length, slice_index, sum, take, drop};
ghost use Rattle.std.specs.Prelude.{IfOk, IfSome, OnOk};
ghost use Rattle.model.specs.Application.{Limits};
ghost use Rattle.shelf.specs.Walks.{IsWalk};
ghost use Rattle.campaign.specs.Running.{HasVisited, KnowsRows, MakesRow, MakesRows};
ghost use Rattle.campaign.specs.Setup.{work_of, IsSetup, IsWalkOf};
ghost use Rattle.campaign.specs.Working.{counted, HasRoom, IsAmong, IsDone, IsJob};

use crate::gate::Gate;
use crate::meeting::{Runner, Spacing, Timers};
use crate::recent::Recent;
use crate::setup::Setup;
use crate::tallying::RowCounts;
use deal::{Lane, Next, TallySeat};
use kernel::Trail;
use model::{App, End, Memory, Point};
use rows::{KeptBlock, KeptRow, KeptRows, Part};
use shelf::Walk;
use std::alloc::Global;
use std::sync::Wait;
use std::sync::atomic::{AtomicU64, Ordering};

/// What a worker is given: its number, its lane and its seat, and the room for its rows. None is
/// made yet.
#[derive(Drop)]
pub(crate) struct Job {
    pub(crate) number: usize,
    pub(crate) lane: Lane,
    pub(crate) seat: TallySeat,
    pub(crate) kept: KeptRows,
}

/// What a worker hands on when it is joined. It is refused if it, or another, found no memory; then
/// its part is of no use.
#[derive(Drop)]
pub(crate) struct Done {
    pub(crate) lane: Lane,
    pub(crate) seat: TallySeat,
    pub(crate) part: Part,
    pub(crate) refused: bool,
}

// What a worker has of its own: what it runs rows with, how far it has gone along the base run, and the rows that it made.
#[derive(Drop)]
struct Worker {
    runner: Box<Runner>,
    walk: Box<Walk>,
    kept: KeptRows,
    blocks: Vec<KeptBlock>,
    recent: Recent,
}

/// Whether the point of a row is reached, and how the row ends.
#[derive(Clone, Copy)]
pub(crate) struct Outcome {
    pub(crate) reached: bool,
    pub(crate) end: End,
}

impl Outcome {
    // That of a row.
    fn of(row: &KeptRow) -> Outcome
        ensures { result ≡ record { reached = row.now.reached; end = row.now.end } }
    {
        Outcome {
            reached: row.reached,
            end: row.end,
        }
    }
}

// The number of the row that is kept of this point, if the one that was made last of it is found.
fn again(kept: &KeptRows, recent: &Recent, point: &Point) -> Option<usize>
    ensures { IfSome result (IsAmong kept.now point.now) }
{
    let number = recent.row(point);
    let row = kept.get(number)?;
    row.point.well_formed();
    point.well_formed();
    if row.point == *point {
        Some(number)
    } else {
        None
    }
}

// A runner in memory of its own, since it is large. Its rows will look for visited states as the shelf and the timers say.
#[inline(never)]
fn boxed_runner(alloc: Global, setup: &Setup<'_>) -> Result<Box<Runner>, Memory>
    ensures legs { IfOk result (λ runner. runner.value.legs.items ≡ []) }
    ensures visited { IfOk result (λ runner. runner.value.table.visited.items ≡ []) }
{
    let timers = Timers::of(setup.app, setup.shelf.base(), setup.view);
    let spacing = Spacing::new(setup.shelf.stride(), timers);
    let runner = Box::new(alloc, Runner::new(alloc, setup.app, spacing))?;
    Ok(runner)
}

// A walk before the first step, in memory of its own.
#[inline(never)]
fn boxed_walk(alloc: Global, app: &App) -> Result<Box<Walk>, Memory>
    ensures { IfOk result (λ walk. (limits : Limits) → IsWalk app.now limits walk.value) }
{
    let walk = Box::new(alloc, Walk::new(app))?;
    Ok(walk)
}

impl Worker {
    // A worker that has made nothing, and has no room for rows yet.
    fn make(alloc: Global, setup: &Setup<'_>) -> Result<Worker, Memory>
        ensures walk { IfOk result (λ worker. (limits : Limits) → IsWalk setup.now.app.now limits worker.walk.value) }
        ensures blocks { IfOk result (λ worker. worker.blocks.items ≡ []) }
        ensures legs { IfOk result (λ worker. worker.runner.value.legs.items ≡ []) }
        ensures visited { IfOk result (λ worker. worker.runner.value.table.visited.items ≡ []) }
    {
        let runner = boxed_runner(alloc, setup)?;
        let walk = boxed_walk(alloc, setup.app)?;
        Ok(Worker {
            runner,
            walk,
            kept: KeptRows::with_room(alloc, 0),
            blocks: Vec::new(alloc),
            recent: Recent::new(),
        })
    }

    // Keeps the row of a point: once more that of the same point before, if it is found, otherwise
    // it is made. Returns its outcome.
    fn keep_row(&mut self, setup: &Setup<'_>, point: &Point) -> Result<Outcome, Memory>
        requires setup { IsSetup setup.now }
        requires walk { IsWalkOf setup.now self.old.walk.value }
        requires known { KnowsRows setup.now self.old }
        ensures walk { OnOk result (IsWalkOf setup.now self.new.walk.value) }
        ensures blocks { self.new.blocks ≡ self.old.blocks }
        ensures row { IfOk result (MakesRow setup.now point.now self.old self.new) }
        ensures visited { OnOk result (HasVisited setup.now self.new.runner.value) }
    {
        if let Some(number) = again(&self.kept, &self.recent, point) {
            let outcome = Outcome::of(self.kept.at(number));
            self.kept.repeat(number)?;
            return Ok(outcome);
        }
        let row = self.runner.run(setup, point, &mut self.walk)?;
        let outcome = Outcome::of(&row);
        self.recent.set(point, self.kept.len());
        self.kept.push(row)?;
        Ok(outcome)
    }

    // Makes the row of a point, and then counts it. At `Err(Memory)` the worker can't be used any
    // more.
    fn add_row(
        &mut self,
        setup: &Setup<'_>,
        counts: &mut RowCounts,
        point: &Point,
    ) -> Result<(), Memory>
        requires setup { IsSetup setup.now }
        requires walk { IsWalkOf setup.now self.old.walk.value }
        requires known { KnowsRows setup.now self.old }
        requires room { (kind : ℕ) → kind < 7 → slice_index counts.old.kinds kind + 1 ≤ 2 ^ 40 }
        ensures walk { OnOk result (IsWalkOf setup.now self.new.walk.value) }
        ensures known { OnOk result (KnowsRows setup.now self.new) }
        ensures blocks { self.new.blocks ≡ self.old.blocks }
        ensures row { OnOk result (MakesRows setup.now (point.now ∷ []) self.old self.new
            (counted setup.now.tally.now counts.old.kinds) (counted setup.now.tally.now counts.new.kinds)) }
    {
        let outcome = self.keep_row(setup, point)?;
        counts.count(outcome.reached, outcome.end);
        Ok(())
    }

    // Makes the rows of a block, which has these points, one by one, and then adds them to the seat.
    fn add_block(
        &mut self,
        setup: &Setup<'_>,
        seat: &mut TallySeat,
        number: usize,
        first: usize,
        count: usize,
    ) -> Result<(), Memory>
        requires setup { IsSetup setup.now }
        requires walk { IsWalkOf setup.now self.old.walk.value }
        requires known { KnowsRows setup.now self.old }
        requires seat { seat.old.sheet ≡ setup.now.tally.now }
        requires points { first + count ≤ length setup.now.points.now }
        requires room { HasRoom count seat.old }
        ensures walk { OnOk result (IsWalkOf setup.now self.new.walk.value) }
        ensures known { OnOk result (KnowsRows setup.now self.new) }
        ensures block { OnOk result (self.new.blocks.items ≡ self.old.blocks.items
            ++ record { number = number; first = length self.old.kept; count = count } ∷ []) }
        ensures rows { OnOk result (MakesRows setup.now (take count (drop first setup.now.points.now))
            self.old self.new seat.old seat.new) }
    {
        let points = &setup.points[first..first + count];
        let block = KeptBlock {
            number,
            first: self.kept.len(),
            count,
        };
        let mut counts = RowCounts::new();
        for point in points {
            self.add_row(setup, &mut counts, point)?;
        }
        counts.add_to(setup.tally, seat);
        if self.blocks.push(block).is_err() {
            return Err(Memory);
        }
        Ok(())
    }
}

// What comes of a job that is refused.
fn refused_job(alloc: Global, job: Job) -> Done
    ensures { result.refused ≡ true }
{
    Done {
        lane: job.lane,
        seat: job.seat,
        part: Part {
            kept: job.kept,
            trail: Trail::new(alloc),
            legs: Vec::new(alloc),
            blocks: Vec::new(alloc),
        },
        refused: true,
    }
}

// Does the job with this worker, which has made nothing: works until all blocks are handed out. If memory is refused it raises
// `stop`; if that is raised, it stops at its next block.
fn work_with<R: Wait, G: Gate>(
    rt: &R,
    setup: &Setup<'_>,
    gate: &G,
    stop: &AtomicU64,
    job: Job,
    made: Worker,
) -> Done
    requires setup { IsSetup setup.now }
    requires points { sum job.lane.game.lengths ≡ length setup.now.points.now }
    requires job { IsJob job.lane.game setup.now.tally.now (length setup.now.points.now) job }
    requires walk { IsWalkOf setup.now made.walk.value }
    requires blocks { made.blocks.items ≡ [] }
    requires legs { made.runner.value.legs.items ≡ [] }
    requires visited { made.runner.value.table.visited.items ≡ [] }
    ensures { IsDone (work_of setup.now job.lane.game.lengths) job result }
{
    let Job {
        number,
        mut lane,
        mut seat,
        kept,
    } = job;
    let mut worker = Worker { kept, ..made };
    let mut refused = true;
    for _ in rt.forever() {
        if stop.load(Ordering::SeqCst) != 0 {
            break;
        }
        match lane.next() {
            Next::Block {
                number: block,
                first,
                length,
            } => {
                let seen = setup.tally.read(&mut seat);
                gate.entered(number, block, &seen);
                if worker
                    .add_block(setup, &mut seat, block, first, length)
                    .is_err()
                {
                    stop.store(1, Ordering::SeqCst);
                    break;
                }
            }
            Next::Again => std::hint::spin_loop(),
            Next::Empty => {
                refused = false;
                break;
            }
        }
    }
    let (trail, legs) = worker.runner.take_trail_and_legs();
    let Worker {
        kept,
        blocks,
        runner: _runner,
        recent: _recent,
        walk: _walk,
    } = worker;
    Done {
        lane,
        seat,
        part: Part {
            kept,
            trail,
            legs,
            blocks,
        },
        refused,
    }
}

/// Works until all blocks are handed out. If memory is refused it raises `stop`; if that is raised,
/// it stops at its next block.
pub(crate) fn work<R: Wait, G: Gate>(
    rt: &R,
    alloc: Global,
    setup: &Setup<'_>,
    gate: &G,
    stop: &AtomicU64,
    job: Job,
) -> Done
    requires setup { IsSetup setup.now }
    requires points { sum job.lane.game.lengths ≡ length setup.now.points.now }
    requires job { IsJob job.lane.game setup.now.tally.now (length setup.now.points.now) job }
    ensures { IsDone (work_of setup.now job.lane.game.lengths) job result }
{
    match Worker::make(alloc, setup) {
        Ok(worker) => work_with(rt, setup, gate, stop, job, worker),
        Err(Memory) => {
            stop.store(1, Ordering::SeqCst);
            refused_job(alloc, job)
        }
    }
}
