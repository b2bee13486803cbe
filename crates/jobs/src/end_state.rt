//! A run of a file, with its end state.
ghost use Rattle.std.specs.Prelude.{◌≡◌, ℕ, List, [], Some, false, IfOk, MatchResult, if◌then◌else◌};
ghost use Rattle.model.specs.Run.{IsRow, IsRun, state_after};
ghost use Rattle.model.specs.EndStates.{end_state_of};
ghost use Rattle.campaign.specs.Faults.{IsRunFault};
ghost use Rattle.campaign.specs.OneRun.{IsAsked};
ghost use Rattle.campaign.specs.Serving.{IsFileOf, streams_of};
ghost use Rattle.jobs.specs.EndStates.{ServesEndState, end_state_of_run};

use byte_io::Sink;
use campaign::{ServeFault, app_in, point_named, row_of};
use kernel::run_to_end_state;
use model::{App, End, EndState, Memory, Meter, Plan, Point, Run};
use report::{Title, write_run_and_end_state};
use requests::NamedPoint;
use std::alloc::Global;

// The run of this plan, and its end state.
fn ended_run(alloc: Global, app: &App, plan: &Plan) -> Result<(Run, EndState), Memory>
    ensures run { IfOk result (λ ended. IsRun app.now plan.now app.now.limits ended.0) }
    ensures end_state { IfOk result (λ ended.
        ended.1 ≡ end_state_of (state_after app.now app.now.limits plan.now ended.0.steps)) }
{
    run_to_end_state(alloc, app, plan, app.limits(), &mut Meter::new())
}

// The plan of a row: the point's injections if it is reached.
fn plan_of(alloc: Global, point: &Point, reached: bool) -> Result<Plan, Memory>
    ensures { IfOk result (λ plan. plan ≡ (if reached then point.now else [])) }
{
    if reached {
        Plan::of(alloc, point)
    } else {
        Ok(Plan::none(alloc))
    }
}

// Whether the point is reached, its row, and its end state. The row comes once more for that.
fn ended_row(alloc: Global, app: &App, point: &Point) -> Result<(bool, Run, EndState), Memory>
    ensures row { IfOk result (λ row. IsRow app.now app.now.limits point.now row.0 row.1) }
    ensures end_state { IfOk result (λ row.
        row.2 ≡ end_state_of (state_after app.now app.now.limits (if row.0 then point.now else []) row.1.steps)) }
{
    let (reached, _row) = row_of(alloc, app, point)?;
    let plan = plan_of(alloc, point, reached)?;
    let (run, end_state) = ended_run(alloc, app, &plan)?;
    Ok((reached, run, end_state))
}

// The run that is asked for, what its report is of, and its end state.
fn asked_run(
    alloc: Global,
    app: &App,
    asked: Option<NamedPoint<'_>>,
) -> Result<(Title, Run, EndState), ServeFault>
    ensures { MatchResult result
        (λ run. IsAsked asked.entry app.now run.0 run.1 × (run.2 ≡ end_state_of_run app.now run.0 run.1))
        (IsRunFault asked.entry app.now) }
{
    let Some(named) = asked else {
        let nothing = Plan::none(alloc);
        let (run, end_state) = ended_run(alloc, app, &nothing)?;
        return Ok((Title::Base, run, end_state));
    };
    let point = point_named(app, &named)?;
    let (reached, run, end_state) = ended_row(alloc, app, &point)?;
    let title = Title::Row {
        number: 0,
        point,
        reached,
    };
    Ok((title, run, end_state))
}

// Runs an application as it is asked for, and writes the report of the run and its end state, as
// the last thing it does.
fn serve_end_state_of_app<W: Sink>(
    alloc: Global,
    app: &App,
    writer: &mut W,
    asked: Option<NamedPoint<'_>>,
) -> Result<End, ServeFault>
    requires { W.has_failed writer.old ≡ false }
    ensures { (bytes : List ℕ) → IsFileOf bytes app.now
        → ServesEndState asked.entry (streams_of (Some bytes) false
        (W.held writer.old) (W.held writer.new) (W.has_failed writer.new)) result }
{
    let (title, run, end_state) = asked_run(alloc, app, asked)?;
    write_run_and_end_state(writer, app, title, &run, &end_state)?;
    Ok(run.end)
}

/// Serves the run of the file of these bytes that is asked for, and its end state. Returns how it
/// ends.
pub(crate) fn serve_end_state<W: Sink>(
    alloc: Global,
    bytes: &[u8],
    writer: &mut W,
    asked: Option<NamedPoint<'_>>,
) -> Result<End, ServeFault>
    requires { W.has_failed writer.old ≡ false }
    ensures { ServesEndState asked.entry (streams_of (Some bytes.now) false
        (W.held writer.old) (W.held writer.new) (W.has_failed writer.new)) result }
{
    let app = app_in(alloc, bytes)?;
    serve_end_state_of_app(alloc, &app, writer, asked)
}
