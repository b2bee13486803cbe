//! From the bytes of a file to the text of one run.
ghost use Rattle.std.specs.Prelude.{◌≡◌, ℕ, List, [], Option, Some, false, IfOk, MatchResult};
ghost use Rattle.model.specs.Run.{IsRun, IsRow};
ghost use Rattle.campaign.specs.Faults.{IsRunFault};
ghost use Rattle.campaign.specs.OneRun.{IsAsked, ServesRun};
ghost use Rattle.campaign.specs.Serving.{IsFileOf, Known, streams_of};

use crate::file::{ServeFault, app_in, app_of};
use crate::named::point_named;
use byte_io::{Sink, Source};
use model::{App, End, Limits, Memory, Meter, Plan, Point, Run};
use report::{Title, write_run};
use requests::NamedPoint;
use shelf::Shelf;
use std::alloc::Global;

/// So many steps are between two checkpoints of a shelf from which one row is made.
const FAR: u32 = 65_536;

/// The base run: nothing is injected.
pub(crate) fn base_run(alloc: Global, app: &App, limits: Limits) -> Result<Run, Memory>
    ensures { IfOk result (λ run. IsRun app.now [] limits run) }
{
    let plan = Plan::none(alloc);
    kernel::run(alloc, app, &plan, limits, &mut Meter::new())
}

/// Whether a point is reached, and its row.
///
/// `Memory` is returned only if a growth was refused.
pub fn row_of(alloc: Global, app: &App, point: &Point) -> Result<(bool, Run), Memory>
    ensures { IfOk result (λ row. IsRow app.now app.now.limits point.now row.0 row.1) }
{
    let shelf = Shelf::make(alloc, app, app.limits(), FAR)?;
    let row = shelf.run_point(alloc, app, *point, &mut Meter::new())?;
    Ok((row.reached, row.run))
}

// The run that is asked for, and what its report is of.
fn asked_run(
    alloc: Global,
    app: &App,
    asked: Option<NamedPoint<'_>>,
) -> Result<(Title, Run), ServeFault>
    ensures { MatchResult result (λ run. IsAsked asked.entry app.now run.0 run.1)
        (IsRunFault asked.entry app.now) }
{
    let Some(named) = asked else {
        return Ok((Title::Base, base_run(alloc, app, app.limits())?));
    };
    let point = point_named(app, &named)?;
    let (reached, run) = row_of(alloc, app, &point)?;
    let title = Title::Row {
        number: 0,
        point,
        reached,
    };
    Ok((title, run))
}

// Runs an application as it is asked for, and writes the report of the run, as the last thing it
// does.
fn serve_run_of_app<W: Sink>(
    alloc: Global,
    app: &App,
    writer: &mut W,
    asked: Option<NamedPoint<'_>>,
) -> Result<End, ServeFault>
    requires { W.has_failed writer.old ≡ false }
    ensures { (input : Option (List ℕ)) (bytes : List ℕ) → Known input bytes → IsFileOf bytes app.now
        → ServesRun asked.entry (streams_of input false
        (W.held writer.old) (W.held writer.new) (W.has_failed writer.new)) result }
{
    let (title, run) = asked_run(alloc, app, asked)?;
    write_run(writer, app, title, &run)?;
    Ok(run.end)
}

/// Reads a file, runs the application that it names under its own limits, and writes the report of
/// the run, as the last thing it does: the base run, or if a point is asked for, row 0. Returns how
/// the run that it wrote ends.
///
/// At `Write` a beginning of the report is written. At every other error nothing is. `UnknownHandler` comes after every
/// fault of the file, and before any run.
pub fn serve_run<R: Source, W: Sink>(
    alloc: Global,
    reader: &mut R,
    writer: &mut W,
    asked: Option<NamedPoint<'_>>,
) -> Result<End, ServeFault>
    requires reads { R.has_failed reader.old ≡ false }
    requires writes { W.has_failed writer.old ≡ false }
    ensures { ServesRun asked.entry (streams_of (R.left reader.old) (R.has_failed reader.new)
        (W.held writer.old) (W.held writer.new) (W.has_failed writer.new)) result }
{
    let app = app_of(alloc, reader)?;
    serve_run_of_app(alloc, &app, writer, asked)
}

/// The same of the file of these bytes.
pub fn serve_run_of<W: Sink>(
    alloc: Global,
    bytes: &[u8],
    writer: &mut W,
    asked: Option<NamedPoint<'_>>,
) -> Result<End, ServeFault>
    requires { W.has_failed writer.old ≡ false }
    ensures { ServesRun asked.entry (streams_of (Some bytes.now) false
        (W.held writer.old) (W.held writer.new) (W.has_failed writer.new)) result }
{
    let app = app_in(alloc, bytes)?;
    serve_run_of_app(alloc, &app, writer, asked)
}
