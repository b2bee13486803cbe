//! The rows of a campaign, which workers make.
ghost use Rattle.std.specs.Prelude.{◌≡◌, ◌<◌, ◌≤◌, ◌+◌, ℕ, List, length, slice_index, sum, vec_len, All, IfOk};
ghost use Rattle.model.specs.Scripts.{most_points};
ghost use Rattle.model.specs.Campaign.{AreRows, totals_of};
ghost use Rattle.model.specs.Run.{Run};
ghost use Rattle.report.specs.Views.{plain};
ghost use Rattle.deal.specs.Sharing.{Game, fresh_lanes};
ghost use Rattle.deal.specs.Tallies.{Sheet, Tallied, added_in};
ghost use Rattle.campaign.specs.declared.worker.Job as declared;
ghost use Rattle.campaign.specs.Setup.{work_of, AreSeats, IsSetup};
ghost use Rattle.campaign.specs.Working.{AreDone, AreJobs, AreReady, IsDone, IsJob, Work};
ghost use Rattle.campaign.specs.Kinds.{RiseBy};
ghost use Rattle.campaign.specs.Made.{BringsWhole, ComeBack, IsBrought, IsFinished, IsMade, IsReportable, IsWhole};

use crate::gate::Gate;
use crate::setup::Setup;
use crate::tallying::AddedBefore;
use crate::worker::{Done, Job, work};
use crate::worker_results::{Apart, is_refused, jobs_of, take_apart};
use deal::{Deal, Division, Lane, Tally, TallySeat};
use model::{App, Limits, Memory, Point, Run, Totals};
use report::View;
use rows::{Part, Place, Report, Rows, places_of};
use shelf::Shelf;
use std::alloc::Global;
use std::sync::Wait;
use std::sync::atomic::AtomicU64;
use std::thread;
use std::thread::Threads;

/// The rows of a campaign, to which its base run has yet to be added, and the seats that counted
/// them.
#[derive(Drop)]
pub(crate) struct Made {
    pub(crate) parts: Vec<Part>,
    pub(crate) places: Vec<Place>,
    pub(crate) totals: Totals,
    pub(crate) seats: Vec<TallySeat>,
}

// What the workers brought, and the deal that they worked through.
#[derive(Drop)]
struct Brought {
    deal: Deal,
    apart: Apart,
}

// Does the jobs, each in a thread of its own if one can be started, otherwise one after the other.
fn run_all<R: Threads + Wait + Sync, G: Gate + Sync>(
    rt: &R,
    alloc: Global,
    setup: &Setup<'_>,
    gate: &G,
    jobs: Vec<Job>,
) -> Result<Vec<Done>, Memory>
    requires setup { IsSetup setup.now }
    requires points { All (λ (job : declared.Job). sum job.lane.game.lengths ≡ length setup.now.points.now) jobs.items }
    requires jobs { All (λ (job : declared.Job). IsJob job.lane.game setup.now.tally.now (length setup.now.points.now) job) jobs.items }
    ensures { IfOk result (λ dones. (deal : Game) → AreJobs deal setup.now.tally.now (length setup.now.points.now) jobs.items
        → AreDone (work_of setup.now deal.lengths) jobs.items dones.items) }
{
    let stop = AtomicU64::new(0);
    let shared = &stop;
    let each = |job: Job| -> Done
        requires setup { IsSetup setup.now }
        requires points { sum job.lane.game.lengths ≡ length setup.now.points.now }
        requires job { IsJob job.lane.game setup.now.tally.now (length setup.now.points.now) job }
        ensures { IsDone (work_of setup.entry.now job.lane.game.lengths) job result }
    { work(rt, alloc, setup, gate, shared, job) };
    match thread::map_vec(rt, jobs, &each) {
        Ok(dones) => Ok(dones),
        Err(_) => Err(Memory),
    }
}

// Lets workers, each with one of these lanes and a seat, work through what was dealt, and takes apart
// what they bring.
fn work_off<R: Threads + Wait + Sync, G: Gate + Sync>(
    rt: &R,
    alloc: Global,
    setup: &Setup<'_>,
    gate: &G,
    lanes: Vec<Lane>,
    seats: Vec<TallySeat>,
) -> Result<Apart, Memory>
    requires setup { IsSetup setup.now }
    requires lanes { (deal : Game) × (lanes.items ≡ fresh_lanes deal) × (sum deal.lengths ≡ length setup.now.points.now) }
    requires many { vec_len lanes ≡ vec_len seats }
    requires seats { AreSeats setup.now seats.items }
    ensures { IfOk result (λ apart. (deal : Game) → lanes.items ≡ fresh_lanes deal → deal.lanes ≡ vec_len seats
        → IsBrought (work_of setup.now deal.lengths) deal setup.now.tally.now seats.items
        apart.lanes.items apart.seats.items apart.parts.items) }
{
    // Each worker gets room for an eighth more rows than if all made as many, since a faster worker
    // makes more.
    let rows = setup.points.len();
    let share = rows / seats.len();
    let room = rows.min(share.saturating_add(share / 8));
    let jobs = jobs_of(alloc, lanes, seats, room)?;
    let dones = run_all(rt, alloc, setup, gate, jobs)?;
    if is_refused(&dones) {
        return Err(Memory);
    }
    take_apart(alloc, dones)
}

// Deals the blocks among as many workers as there are seats, and lets them work.
fn bring_all<R: Threads + Wait + Sync, G: Gate + Sync>(
    rt: &R,
    alloc: Global,
    setup: &Setup<'_>,
    gate: &G,
    division: Division,
    seats: Vec<TallySeat>,
) -> Result<Brought, Memory>
    requires setup { IsSetup setup.now }
    requires division { sum division ≡ length setup.now.points.now }
    requires seats { AreSeats setup.now seats.items }
    ensures deal { IfOk result (λ brought. brought.deal.lengths ≡ division) }
    ensures brought { IfOk result (λ brought. IsBrought (work_of setup.now division) brought.deal setup.now.tally.now seats.items
        brought.apart.lanes.items brought.apart.seats.items brought.apart.parts.items) }
{
    // If only heads are written the last points come first, since no row is then run far. Otherwise
    // they don't, since a row's events would then lie on many short legs.
    let rising = !setup.view.heads;
    let Ok((deal, lanes)) = Deal::new(alloc, division, seats.len(), rising) else {
        return Err(Memory);
    };
    let apart = work_off(rt, alloc, setup, gate, lanes, seats)?;
    Ok(Brought { deal, apart })
}

// Gathers the rows, this many, by the numbers of their blocks. All lanes came back, and all blocks
// were returned to them, so none is left over. The seats had added so much before.
fn gather_rows(
    alloc: Global,
    brought: Brought,
    blocks: usize,
    before: &AddedBefore,
    rows: u32,
) -> Result<Made, Memory>
    requires blocks { blocks ≡ length brought.deal.lengths }
    requires seats { length brought.apart.seats.items ≤ 64 }
    requires points { (work : Work) × ((base : Run) × IsWhole work base brought.deal
        × BringsWhole work brought.deal brought.apart.lanes.items brought.apart.parts.items) }
    ensures { IfOk result (λ made. (work : Work) (base : Run) (tally : Sheet) (old : List Tallied) → IsWhole work base brought.deal
        → length work.points ≡ rows → ((kind : ℕ) → kind < 7 → slice_index before.now.kinds kind ≡ added_in kind old)
        → IsBrought work brought.deal tally old brought.apart.lanes.items brought.apart.seats.items brought.apart.parts.items
        → IsMade work tally old made) }
{
    let Brought { deal, apart } = brought;
    let Apart {
        lanes,
        seats,
        parts,
    } = apart;
    let _closed = deal.close(lanes);
    let places = places_of(alloc, &parts, blocks)?;
    let totals = before.totals(&seats, rows);
    Ok(Made {
        parts,
        places,
        totals,
        seats,
    })
}

/// Makes the rows of the points, each run from the shelf, as far as the view shows them. There are as
/// many workers as seats, and each takes blocks of the division until all are handed out.
pub(crate) fn make_rows<R: Threads + Wait + Sync, G: Gate + Sync>(
    rt: &R,
    alloc: Global,
    setup: &Setup<'_>,
    gate: &G,
    division: Division,
    seats: Vec<TallySeat>,
) -> Result<Made, Memory>
    requires setup { IsSetup setup.now }
    requires few { length setup.now.points.now ≤ most_points }
    requires division { sum division ≡ length setup.now.points.now }
    requires seats { AreSeats setup.now seats.items }
    ensures { IfOk result (IsMade (work_of setup.now division) setup.now.tally.now seats.items) }
{
    let points = setup.points.len();
    let blocks = division.count();
    let before = AddedBefore::of(&seats);
    gate.begun(points);
    let brought = bring_all(rt, alloc, setup, gate, division, seats);
    gate.ended();
    gather_rows(alloc, brought?, blocks, &before, points as u32)
}

/// A finished campaign: its report, and the seats that came back, to which its rows were added.
#[derive(Drop)]
pub struct Finished {
    pub report: Report,
    pub seats: Vec<TallySeat>,
}

impl Made {
    /// The report of the rows, with their base run, as far as this view shows them. The first row
    /// has this number.
    pub(crate) fn finish(self, view: View, first: usize, base: Run) -> Finished
        requires made { (work : Work) × (tally : Sheet) × (old : List Tallied) × IsReportable work tally old self view first base }
        ensures view { result.report.view ≡ view }
        ensures first { result.report.first ≡ first }
        ensures finished { (work : Work) (tally : Sheet) (old : List Tallied)
            → IsReportable work tally old self view first base → IsFinished work tally old result }
    {
        let Made {
            parts,
            places,
            totals,
            seats,
        } = self;
        let report = Report::new(Rows {
            view,
            first,
            base,
            parts,
            places,
            totals,
        });
        Finished { report, seats }
    }
}

/// Runs an application once for each of these points, under these limits, and reports the rows, all
/// of each: a row's injections come if the base run gets beyond the step of the first; otherwise
/// the row is the base run. There are at most 1,000,000 points, and their handlers are the
/// application's.
///
/// This many workers make the rows, 1 to 64, each in a thread of its own if one can be started;
/// this thread is one of them. A worker takes blocks of the division until all are handed out, and
/// adds the rows of each to its seat when they are made. The gate learns of each block before its
/// first point. The stride says how many steps lie between two states of the base run that are
/// kept.
///
/// `Memory` is returned only if a growth was refused; then the seats are spent. It waits for the
/// workers.
pub fn campaign<R: Threads + Wait + Sync, G: Gate + Sync>(
    rt: &R,
    alloc: Global,
    app: &App,
    points: Vec<Point>,
    limits: Limits,
    stride: u32,
    workers: usize,
    division: Division,
    gate: &G,
    tally: &Tally,
    seats: Vec<TallySeat>,
) -> Result<Finished, Memory>
    requires few { length points.items ≤ most_points }
    requires workers { (0 < workers) × (workers ≤ 64) }
    requires stride { (0 < stride) × (stride ≤ 65536) }
    requires division { sum division ≡ length points.items }
    requires seats { (vec_len seats ≡ workers) × AreReady tally.now (length points.items) seats.items }
    ensures view { IfOk result (λ finished. finished.report.view ≡ plain) }
    ensures first { IfOk result (λ finished. finished.report.first ≡ 0) }
    ensures rows { IfOk result (λ finished. AreRows app.now limits points.items finished.report.rows) }
    ensures back { IfOk result (λ finished. ComeBack tally.now seats.items finished.seats.items) }
    ensures rise { IfOk result (λ finished. RiseBy (totals_of finished.report.rows) seats.items finished.seats.items) }
{
    let shelf = Shelf::make(alloc, app, limits, stride)?;
    let view = View::plain();
    let setup = Setup {
        app,
        shelf: &shelf,
        view: &view,
        points: points.as_slice(),
        tally,
    };
    let made = make_rows(rt, alloc, &setup, gate, division, seats)?;
    Ok(made.finish(view, 0, shelf.into_base()))
}
