//! From the bytes of a file to the report of its campaign, or of a part of it.
ghost use Rattle.std.specs.Prelude.{◌≡◌, ◌<◌, ◌≤◌, ℕ, List, Option, Some, false, length, sum, IfOk, MatchResult};
ghost use Rattle.campaign.specs.Campaigns.{ServesCampaign};
ghost use Rattle.campaign.specs.Faults.{IsCampaignFault};
ghost use Rattle.campaign.specs.Shown.{IsShownOf};
ghost use Rattle.campaign.specs.Serving.{IsFileOf, Known, streams_of};

use crate::all_rows::make_rows;
use crate::file::{ServeFault, app_in, app_of};
use crate::gate::{Gate, NoGate};
use crate::meeting::{Timers, has_timers};
use crate::points::{ExpandFault, expand};
use crate::setup::Setup;
use byte_io::{Sink, Source};
use deal::{Division, Tally};
use model::{App, Memory, Totals};
use report::{Shard, View};
use requests::Options;
use rows::{Report, write_report_in_threads};
use shelf::Shelf;
use std::alloc::Global;
use std::sync::Wait;
use std::thread::Threads;

/// What is asked for of a campaign: what is shown of its rows, which part of them, and how they are
/// made.
#[derive(Clone, Copy)]
pub struct Request {
    /// What is shown of the rows.
    pub view: View,
    /// Which part of them is made.
    pub shard: Shard,
    /// How they are made. The report doesn't depend on it.
    pub options: Options,
}

impl From<ExpandFault> for ServeFault {
    ghost use Rattle.campaign.specs.Faults.{of_expanding};

    ghost from_gives = { λ fault given. given ≡ of_expanding fault };

    fn from(fault: ExpandFault) -> ServeFault {
        match fault {
            ExpandFault::TooManyPoints => ServeFault::TooManyPoints,
            ExpandFault::Memory => ServeFault::Memory,
        }
    }
}

// Each worker has at least this many blocks, if there are points enough: then none waits long for
// the others at the end.
const LEAST_BLOCKS: usize = 8;

// If timers are injected, a block has about as many points as a period has steps, and this many at
// least. Then it has a row of each phase, and these are not run far beyond the block.
const LEAST_OF_TIMERS: u32 = 64;

// How many points a block has: as many as are asked for, or fewer, so that there are some blocks
// for each of this many workers, and that rows of timers are run little further than a period.
fn points_of_a_block(options: Options, points: usize, workers: usize, timers: &Timers) -> usize
    requires { 0 < workers }
    ensures { 0 < result }
{
    let asked = options.block.clamp(1, Options::MOST_BLOCK);
    let most = match timers.widest() {
        0 => asked,
        spacing => asked.min(spacing.max(LEAST_OF_TIMERS)),
    };
    let some = points / workers / LEAST_BLOCKS;
    some.min(most as usize).max(1)
}

// How many threads make the rows, and then spell them.
fn threads_of(options: Options) -> usize
    ensures some { 0 < result }
    ensures few { result ≤ 64 }
{
    options.workers.clamp(1, Options::MOST_WORKERS) as usize
}

// How many steps are between two checkpoints of the base run: as many as are asked for, and eight
// times as many if the report isn't a whole one. There it is of no use that a row goes on as the
// base run does, and not as another row, so most checkpoints would only take memory. If timers are
// injected they are four times as many: a worker goes to the first point of each short block from
// the checkpoint before.
fn steps_between_checkpoints(options: Options, view: View, timers: bool) -> u32
    ensures some { 0 < result }
    ensures near { result ≤ 65536 }
{
    let times = if view == View::plain() {
        1
    } else if timers {
        4
    } else {
        8
    };
    let stride = options.stride.saturating_mul(times);
    stride.clamp(1, Options::MOST_STRIDE)
}

// The points cut into blocks, as the options say.
fn division_of(alloc: Global, setup: &Setup<'_>, options: Options) -> Result<Division, Memory>
    ensures { IfOk result (λ division. sum division ≡ length setup.now.points.now) }
{
    let points = setup.points.len();
    let timers = Timers::of(setup.app, setup.shelf.base(), setup.view);
    let block = points_of_a_block(options, points, threads_of(options), &timers);
    match Division::even(alloc, points, block) {
        Ok(division) => Ok(division),
        Err(_) => Err(Memory),
    }
}

// The report of a part of the application's own points, under its own limits. The rows are counted by a tally of its own.
fn report_of<R: Threads + Wait + Sync, G: Gate + Sync>(
    rt: &R,
    alloc: Global,
    app: &App,
    request: &Request,
    gate: &G,
) -> Result<Report, ServeFault>
    ensures { MatchResult result (IsShownOf app.now request.now.view request.now.shard) (IsCampaignFault app.now) }
{
    let Request {
        view,
        shard,
        options,
    } = *request;
    let stride = steps_between_checkpoints(options, view, has_timers(app, &view));
    let shelf = Shelf::make(alloc, app, app.limits(), stride)?;
    let points = expand(alloc, app, shelf.base())?;
    let first = shard.first(points.len());
    let some = &points[first..shard.next(points.len())];
    let Ok((tally, seats)) = Tally::make(alloc, threads_of(options)) else {
        return Err(ServeFault::Memory);
    };
    let setup = Setup {
        app,
        shelf: &shelf,
        view: &view,
        points: some,
        tally: &tally,
    };
    let division = division_of(alloc, &setup, options)?;
    let made = make_rows(rt, alloc, &setup, gate, division, seats)?;
    let finished = made.finish(view, first, shelf.into_base());
    Ok(finished.report)
}

// Makes the rows of an application, and writes the report of them, as the last thing it does.
fn serve_campaign_of_app<T: Threads + Wait + Sync, W: Sink, G: Gate + Sync>(
    rt: &T,
    alloc: Global,
    app: &App,
    writer: &mut W,
    request: &Request,
    gate: &G,
) -> Result<Totals, ServeFault>
    requires { W.has_failed writer.old ≡ false }
    ensures { (input : Option (List ℕ)) (bytes : List ℕ) → Known input bytes → IsFileOf bytes app.now
        → ServesCampaign request.now.view request.now.shard (streams_of input false
        (W.held writer.old) (W.held writer.new) (W.has_failed writer.new)) result }
{
    let threads = threads_of(request.options);
    let report = report_of(rt, alloc, app, request, gate)?;
    write_report_in_threads(rt, alloc, app, &report, threads, writer)?;
    let totals = report.totals();
    report.free(rt);
    Ok(totals)
}

/// Reads a file, runs the application that it names once for each of its points in this part of
/// them, under its own limits, and writes what the view shows of the rows, and their totals, as the
/// last thing it does: so all rows are made before the first byte goes out. Returns the totals that
/// it wrote: they count all rows of the part, written or not. The report doesn't depend on the
/// options. It waits for its workers.
///
/// At `Write` a beginning of the report is written. At every other error nothing is. `TooManyPoints` comes after every fault of
/// the file; `UnknownHandler` never does.
pub fn serve<T: Threads + Wait + Sync, R: Source, W: Sink>(
    rt: &T,
    alloc: Global,
    reader: &mut R,
    writer: &mut W,
    view: View,
    shard: Shard,
    options: Options,
) -> Result<Totals, ServeFault>
    requires reads { R.has_failed reader.old ≡ false }
    requires writes { W.has_failed writer.old ≡ false }
    ensures { ServesCampaign view shard (streams_of (R.left reader.old) (R.has_failed reader.new)
        (W.held writer.old) (W.held writer.new) (W.has_failed writer.new)) result }
{
    let app = app_of(alloc, reader)?;
    let request = Request {
        view,
        shard,
        options,
    };
    serve_campaign_of_app(rt, alloc, &app, writer, &request, &NoGate)
}

/// The same as `serve`, of the file of these bytes. The gate learns what the workers do.
pub fn serve_of<T: Threads + Wait + Sync, W: Sink, G: Gate + Sync>(
    rt: &T,
    alloc: Global,
    bytes: &[u8],
    writer: &mut W,
    request: &Request,
    gate: &G,
) -> Result<Totals, ServeFault>
    requires { W.has_failed writer.old ≡ false }
    ensures { ServesCampaign request.now.view request.now.shard (streams_of (Some bytes.now) false
        (W.held writer.old) (W.held writer.new) (W.has_failed writer.new)) result }
{
    let app = app_in(alloc, bytes)?;
    serve_campaign_of_app(rt, alloc, &app, writer, request, gate)
}
