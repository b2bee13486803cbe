//! The text of one run, to a sink.
ghost use Rattle.std.specs.Prelude.{◌≡◌, false};
ghost use Rattle.std.specs.Result.{is_err};
ghost use Rattle.byte_io.specs.Bytes.{Writes};
ghost use Rattle.report.specs.Text.{run_text};

use crate::title::Title;
use crate::writer::ReportWriter;
use byte_io::{Sink, WriteFault};
use model::{App, Ending, Run};

/// Writes the report of a run: its head line, which begins with the title, and a line for each event. The run is of this
/// application, and so is the handler of a row's point. At `Err` the writer failed or took none of some bytes, and it has taken
/// a beginning of the report.
pub fn write_run<W: Sink>(
    writer: &mut W,
    app: &App,
    title: Title,
    run: &Run,
) -> Result<(), WriteFault>
    requires { W.has_failed writer.old ≡ false }
    ensures text { Writes (W.held writer.old) (W.held writer.new) result
        (run_text app.now title run.now) }
    ensures failed { W.has_failed writer.new ≡ is_err result }
{
    let ending = Ending {
        steps: run.steps,
        ticks: run.ticks,
        end: run.end,
    };
    let mut report = ReportWriter::new(app);
    report.add_run(writer, title, ending, run.events.as_slice())?;
    report.finish(writer)
}
