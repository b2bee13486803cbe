//! The text of one run after another, to a sink.
ghost use Rattle.std.specs.Prelude.{◌≡◌, ◌≤◌, ◌++◌, [], length, take, drop, false, OnOk};
ghost use Rattle.std.specs.List.{flat_map};
ghost use Rattle.std.specs.Result.{is_err};
ghost use Rattle.byte_io.specs.Bytes.{Writes, Adds};
ghost use Rattle.model.specs.Campaign.{Row};
ghost use Rattle.report.specs.Again.{number_text};
ghost use Rattle.report.specs.Text.{event_text, head_text, row_text, run_text, total_text};

use crate::base_events::BaseEvents;
use crate::lines::Lines;
use crate::text::{
    MAX_HEAD, MAX_LINE, MAX_NUMBER, MAX_TOTALS, push_head, push_row_number, push_totals,
};
use crate::title::Title;
use byte_io::{Page, Sink, WriteFault, add_text, flush, make_room};
use model::{App, Ending, Event, Totals};
use std::marker::Model;

// With what the text of a row begins under the number 0.
const FIRST: usize = b"row 0".len();

/// The report of a campaign or of one run, as it is being written: what is still to go out, and what lines have in common.
///
/// It takes no memory, and is some 75 kB large: make it once for a report. Each call on a writer
/// requires that this has not failed. At `Err` the writer failed or took none of some bytes, it has
/// taken a beginning of what was still to go out and of what was added, and the report can't be
/// used any more.
#[derive(Drop)]
pub struct ReportWriter<'a> {
    page: Page,
    lines: Lines<'a>,
}

// Clauses see the application, and the bytes that are still to go out.
impl<'a> Model for ReportWriter<'a> {
    ghost use Rattle.report.specs.Writing.{Report};

    ghost Value = { Report };

    ghost view = { λ r. record { app = r.lines; page = r.page } };
}

fn add_head<W: Sink>(
    writer: &mut W,
    page: &mut Page,
    app: &App,
    title: Title,
    ending: Ending,
) -> Result<(), WriteFault>
    requires { W.has_failed writer.old ≡ false }
    ensures text { Adds (W.held writer.old) (W.held writer.new) page.old page.new result
        (head_text app.now title ending.steps ending.ticks ending.end) }
    ensures failed { W.has_failed writer.new ≡ is_err result }
{
    make_room(writer, page, MAX_HEAD)?;
    push_head(page, app, title, ending);
    Ok(())
}

// Adds the lines of the events. Room is asked for as many lines at once as surely fit.
fn add_events<W: Sink>(
    writer: &mut W,
    page: &mut Page,
    lines: &mut Lines<'_>,
    events: &[Event],
) -> Result<(), WriteFault>
    requires { W.has_failed writer.old ≡ false }
    ensures app { lines.new ≡ lines.old }
    ensures text { Adds (W.held writer.old) (W.held writer.new) page.old page.new result
        (flat_map (event_text lines.old) events.now) }
    ensures failed { W.has_failed writer.new ≡ is_err result }
{
    let mut rest = events;
    while !rest.is_empty() {
        make_room(writer, page, MAX_LINE)?;
        let count = rest.len().min(page.room() / MAX_LINE);
        let (some, others) = rest.split_at(count);
        lines.push_all(page, some);
        rest = others;
    }
    Ok(())
}

// Adds the lines of a base run's first events, this many; those that are rendered are sent as they
// are.
fn add_shared<W: Sink>(
    writer: &mut W,
    page: &mut Page,
    lines: &mut Lines<'_>,
    base: &BaseEvents<'_>,
    shared: usize,
) -> Result<(), WriteFault>
    requires working { W.has_failed writer.old ≡ false }
    requires app { base.now.app ≡ lines.old }
    requires within { shared ≤ length base.now.events }
    ensures app { lines.new ≡ lines.old }
    ensures text { Adds (W.held writer.old) (W.held writer.new) page.old page.new result
        (flat_map (event_text lines.old) (take shared base.now.events)) }
    ensures failed { W.has_failed writer.new ≡ is_err result }
{
    let (text, count) = base.front(shared);
    add_text(writer, page, text)?;
    add_events(writer, page, lines, &base.events()[count..shared])
}

// Adds the lines of a base run's events from this one on; those that are rendered are sent as they
// are.
fn add_base_from<W: Sink>(
    writer: &mut W,
    page: &mut Page,
    lines: &mut Lines<'_>,
    base: &BaseEvents<'_>,
    from: usize,
) -> Result<(), WriteFault>
    requires working { W.has_failed writer.old ≡ false }
    requires app { base.now.app ≡ lines.old }
    requires within { from ≤ length base.now.events }
    ensures app { lines.new ≡ lines.old }
    ensures text { Adds (W.held writer.old) (W.held writer.new) page.old page.new result
        (flat_map (event_text lines.old) (drop from base.now.events)) }
    ensures failed { W.has_failed writer.new ≡ is_err result }
{
    let tail = base.tail(from);
    add_text(writer, page, tail.text)?;
    add_events(writer, page, lines, tail.behind)
}

fn add_row_number<W: Sink>(writer: &mut W, page: &mut Page, number: u32) -> Result<(), WriteFault>
    requires { W.has_failed writer.old ≡ false }
    ensures text { Adds (W.held writer.old) (W.held writer.new) page.old page.new result (number_text number) }
    ensures failed { W.has_failed writer.new ≡ is_err result }
{
    make_room(writer, page, MAX_NUMBER)?;
    push_row_number(page, number);
    Ok(())
}

// Adds the number of a row, and what comes after it.
fn add_numbered<W: Sink>(
    writer: &mut W,
    page: &mut Page,
    number: u32,
    behind: &[u8],
) -> Result<(), WriteFault>
    requires { W.has_failed writer.old ≡ false }
    ensures text { Adds (W.held writer.old) (W.held writer.new) page.old page.new result (number_text number ++ behind.now) }
    ensures failed { W.has_failed writer.new ≡ is_err result }
{
    add_row_number(writer, page, number)?;
    add_text(writer, page, behind)
}

fn add_total_line<W: Sink>(
    writer: &mut W,
    page: &mut Page,
    totals: &Totals,
) -> Result<(), WriteFault>
    requires { W.has_failed writer.old ≡ false }
    ensures text { Adds (W.held writer.old) (W.held writer.new) page.old page.new result (total_text totals.now) }
    ensures failed { W.has_failed writer.new ≡ is_err result }
{
    make_room(writer, page, MAX_TOTALS)?;
    push_totals(page, totals);
    Ok(())
}

impl<'a> ReportWriter<'a> {
    /// A report of runs of this application; nothing is written yet.
    pub fn new(app: &'a App) -> ReportWriter<'a>
        ensures app { result.app ≡ app.now }
        ensures page { result.page ≡ [] }
    {
        ReportWriter {
            page: Page::new(),
            lines: Lines::new(app),
        }
    }

    /// Adds the report of a run: its head line, which begins with the title, and a line for each event. The run is of this
    /// application, and so is the handler of a row's point.
    pub fn add_run<W: Sink>(
        &mut self,
        writer: &mut W,
        title: Title,
        ending: Ending,
        events: &[Event],
    ) -> Result<(), WriteFault>
        requires { W.has_failed writer.old ≡ false }
        ensures app { self.new.app ≡ self.old.app }
        ensures text { Adds (W.held writer.old) (W.held writer.new) self.old.page self.new.page result
            (run_text self.old.app title
            (record { events = events.now; steps = ending.steps; ticks = ending.ticks; end = ending.end })) }
        ensures failed { W.has_failed writer.new ≡ is_err result }
    {
        add_head(writer, &mut self.page, self.lines.app(), title, ending)?;
        add_events(writer, &mut self.page, &mut self.lines, events)
    }

    /// Adds the head line of a run, which begins with the title.
    pub fn add_head<W: Sink>(
        &mut self,
        writer: &mut W,
        title: Title,
        ending: Ending,
    ) -> Result<(), WriteFault>
        requires { W.has_failed writer.old ≡ false }
        ensures app { self.new.app ≡ self.old.app }
        ensures text { Adds (W.held writer.old) (W.held writer.new) self.old.page self.new.page result
            (head_text self.old.app title ending.steps ending.ticks ending.end) }
        ensures failed { W.has_failed writer.new ≡ is_err result }
    {
        add_head(writer, &mut self.page, self.lines.app(), title, ending)
    }

    /// Begins the report of a row: adds its head line, which begins with the title, and the lines
    /// of this many first events of this base run, which is of the same application.
    pub fn begin_row<W: Sink>(
        &mut self,
        writer: &mut W,
        title: Title,
        ending: Ending,
        base: &BaseEvents<'_>,
        shared: usize,
    ) -> Result<(), WriteFault>
        requires working { W.has_failed writer.old ≡ false }
        requires app { base.now.app ≡ self.old.app }
        requires within { shared ≤ length base.now.events }
        ensures app { self.new.app ≡ self.old.app }
        ensures text { Adds (W.held writer.old) (W.held writer.new) self.old.page self.new.page result
            (head_text self.old.app title ending.steps ending.ticks ending.end
            ++ flat_map (event_text self.old.app) (take shared base.now.events)) }
        ensures failed { W.has_failed writer.new ≡ is_err result }
    {
        add_head(writer, &mut self.page, self.lines.app(), title, ending)?;
        add_shared(writer, &mut self.page, &mut self.lines, base, shared)
    }

    /// Adds the lines of the next events of a run.
    pub fn add_events<W: Sink>(
        &mut self,
        writer: &mut W,
        events: &[Event],
    ) -> Result<(), WriteFault>
        requires { W.has_failed writer.old ≡ false }
        ensures app { self.new.app ≡ self.old.app }
        ensures text { Adds (W.held writer.old) (W.held writer.new) self.old.page self.new.page result
            (flat_map (event_text self.old.app) events.now) }
        ensures failed { W.has_failed writer.new ≡ is_err result }
    {
        add_events(writer, &mut self.page, &mut self.lines, events)
    }

    /// Adds the lines of the events of this base run from this one on: a row that comes back to it ends as it does. It is of the
    /// same application.
    pub fn add_base_from<W: Sink>(
        &mut self,
        writer: &mut W,
        base: &BaseEvents<'_>,
        from: usize,
    ) -> Result<(), WriteFault>
        requires working { W.has_failed writer.old ≡ false }
        requires app { base.now.app ≡ self.old.app }
        requires within { from ≤ length base.now.events }
        ensures app { self.new.app ≡ self.old.app }
        ensures text { Adds (W.held writer.old) (W.held writer.new) self.old.page self.new.page result
            (flat_map (event_text self.old.app) (drop from base.now.events)) }
        ensures failed { W.has_failed writer.new ≡ is_err result }
    {
        add_base_from(writer, &mut self.page, &mut self.lines, base, from)
    }

    /// Adds the report of a row once more, under this number: the text is that of the row under the number 0.
    pub fn add_row_again<W: Sink>(
        &mut self,
        writer: &mut W,
        number: u32,
        text: &[u8],
    ) -> Result<(), WriteFault>
        requires working { W.has_failed writer.old ≡ false }
        requires text { (row : Row) × (text.now ≡ row_text self.old.app 0 row) }
        ensures app { self.new.app ≡ self.old.app }
        ensures text { (row : Row) → text.now ≡ row_text self.old.app 0 row
            → Adds (W.held writer.old) (W.held writer.new) self.old.page self.new.page result (row_text self.old.app number row) }
        ensures failed { W.has_failed writer.new ≡ is_err result }
    {
        add_numbered(writer, &mut self.page, number, &text[FIRST..])
    }

    /// Adds the line that ends the report of a campaign.
    pub fn add_totals<W: Sink>(&mut self, writer: &mut W, totals: &Totals) -> Result<(), WriteFault>
        requires { W.has_failed writer.old ≡ false }
        ensures app { self.new.app ≡ self.old.app }
        ensures text { Adds (W.held writer.old) (W.held writer.new) self.old.page self.new.page result
            (total_text totals.now) }
        ensures failed { W.has_failed writer.new ≡ is_err result }
    {
        add_total_line(writer, &mut self.page, totals)
    }

    /// Forgets what is still to go out. A report that can't be used any more begins anew by it.
    pub fn clear(&mut self)
        ensures app { self.new.app ≡ self.old.app }
        ensures empty { self.new.page ≡ [] }
    {
        self.page.clear();
    }

    /// Sends out what is left.
    pub fn finish<W: Sink>(&mut self, writer: &mut W) -> Result<(), WriteFault>
        requires { W.has_failed writer.old ≡ false }
        ensures app { self.new.app ≡ self.old.app }
        ensures text { Writes (W.held writer.old) (W.held writer.new) result self.old.page }
        ensures empty { OnOk result (self.new.page ≡ []) }
        ensures failed { W.has_failed writer.new ≡ is_err result }
    {
        flush(writer, &mut self.page)
    }
}
