//! An application, its runs, its rows and its campaign, each written to standard output.
ghost use Rattle.std.specs.Prelude.{IfOk};
ghost use Rattle.shelf.specs.Shelves.{IsShelf};

use crate::fault::{Fault, of_expanding, of_loading, of_serving};
use byte_io::{FromReader, ToWriter};
use campaign::{NoGate, Options, Report, campaign, expand, serve, write_report_in_threads};
use deal::{Division, Tally};
use model::{App, HandlerId, Meter, Plan, Point, Run};
use report::{Shard, Title, View, write_run};
use script::FromDocument;
use shelf::{Row, Shelf};
use std::alloc::Global;
use std::sync::Wait;
use std::thread::Threads;

/// A task that waits for what a handler sends, and one that marks and waits.
const FILE: &str = "
queue = [{ name = 'q', length = 2 }]
group = [{ name = 'g' }]
variable = [{ name = 'x', initial = 3 }]
handler = [{ name = 'h', ops = ['send q 7', 'mark 9'] }]
interrupt = [{ tick = 1, handler = 'h' }]
task = [
    { name = 'a', priority = 2, script = ['receive q 2', 'mark 1', 'set g 1'] },
    { name = 'b', priority = 1, script = ['repeat 5', 'mark 2', 'mark 3', 'end', 'wait g 1 any clear 9'] },
]
campaign = { points = ['0 h', '7 h', '90 h'] }
";

/// The application.
pub(crate) fn loaded(alloc: Global) -> Result<App, Fault> {
    let document = match toml::table_from_str(alloc, FILE) {
        Ok(document) => document,
        Err(error) if error.is_memory() => return Err(Fault::Memory),
        Err(_) => return Err(Fault::Other),
    };
    match App::from_document(alloc, &document) {
        Ok(app) => Ok(app),
        Err(fault) => Err(of_loading(fault)),
    }
}

/// The base run, by `run`.
pub(crate) fn base_run(alloc: Global, app: &App) -> Result<Run, Fault> {
    let plan = Plan::none(alloc);
    match kernel::run(alloc, app, &plan, app.limits(), &mut Meter::new()) {
        Ok(run) => Ok(run),
        Err(_) => Err(Fault::Memory),
    }
}

/// The shelf, which stores a checkpoint before every fourth step.
pub(crate) fn shelf_of(alloc: Global, app: &App) -> Result<Shelf, Fault>
    ensures { IfOk result (λ shelf. IsShelf app.now shelf) }
{
    match Shelf::make(alloc, app, app.limits(), 4) {
        Ok(shelf) => Ok(shelf),
        Err(_) => Err(Fault::Memory),
    }
}

/// The row from the shelf for an injection of the handler before this step.
pub(crate) fn row_of(alloc: Global, app: &App, shelf: &Shelf, step: u32) -> Result<Row, Fault>
    requires { IsShelf app.now shelf.now }
{
    let point = Point::one(step, HandlerId { number: 0 });
    match shelf.run_point(alloc, app, point, &mut Meter::new()) {
        Ok(row) => Ok(row),
        Err(_) => Err(Fault::Memory),
    }
}

/// The report of the application's campaign, by `expand` and `campaign`, with two workers.
pub(crate) fn report_of<T: Threads + Wait + Sync>(
    threads: &T,
    alloc: Global,
    app: &App,
    base: &Run,
) -> Result<Report, Fault> {
    let points = match expand(alloc, app, base) {
        Ok(points) => points,
        Err(fault) => return Err(of_expanding(fault)),
    };
    let Ok(division) = Division::even(alloc, points.len(), 1) else {
        return Err(Fault::Memory);
    };
    let Ok((tally, seats)) = Tally::make(alloc, 2) else {
        return Err(Fault::Memory);
    };
    let limits = app.limits();
    let made = campaign(
        threads, alloc, app, points, limits, 4, 2, division, &NoGate, &tally, seats,
    );
    match made {
        Ok(finished) => Ok(finished.report),
        Err(_) => Err(Fault::Memory),
    }
}

/// Writes a run.
pub(crate) fn show_run(rt: &HostRuntime, app: &App, title: Title, run: &Run) -> Result<(), Fault> {
    match write_run(&mut ToWriter::new(rt.stdout()), app, title, run) {
        Ok(()) => Ok(()),
        Err(_) => Err(Fault::Other),
    }
}

/// Writes the report of a campaign.
pub(crate) fn show_report<T: Threads + Wait + Sync>(
    rt: &HostRuntime,
    threads: &T,
    app: &App,
    report: &Report,
) -> Result<(), Fault> {
    let mut writer = ToWriter::new(rt.stdout());
    match write_report_in_threads(threads, rt.alloc(), app, report, 1, &mut writer) {
        Ok(()) => Ok(()),
        Err(_) => Err(Fault::Other),
    }
}

/// Serves the file's campaign.
pub(crate) fn served<T: Threads + Wait + Sync>(rt: &HostRuntime, threads: &T) -> Result<(), Fault> {
    let Ok(options) = Options::new(2, 4, 1) else {
        return Err(Fault::Other);
    };
    let mut reader = FromReader::new(FILE.as_bytes());
    let mut writer = ToWriter::new(rt.stdout());
    let served = serve(
        threads,
        rt.alloc(),
        &mut reader,
        &mut writer,
        View::plain(),
        Shard::whole(),
        options,
    );
    match served {
        Ok(_) => Ok(()),
        Err(fault) => Err(of_serving(fault)),
    }
}
