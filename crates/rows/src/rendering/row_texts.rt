//! The texts of rows that come again.
ghost use Rattle.std.specs.Prelude.{◌≡◌, ◌<◌, [], false, length, slice_get, Some, IfSome};
ghost use Rattle.std.specs.Result.{is_err};
ghost use Rattle.byte_io.specs.Buffers.{bytes_of};
ghost use Rattle.byte_io.specs.Bytes.{Writes};
ghost use Rattle.report.specs.Text.{row_text};
ghost use Rattle.rows.specs.declared.rows.Part as declared;
ghost use Rattle.rows.specs.Events.{row_from, AreEventsOf, HaveRow};
ghost use Rattle.rows.specs.Report.{AreKept, IsSound};
ghost use Rattle.rows.specs.Stretches.{AreOfPart, AreOfParts};
ghost use Rattle.rows.specs.Texts.{IsTextOf};

use crate::campaign_report::Rows;
use crate::rendering::part_events::PartEvents;
use crate::rendering::stretches::{Stretches, stretches_of};
use crate::rendering::writing::add_row;
use crate::rows::{KeptRow, Part};
use byte_io::{Buffer, Sink, WriteFault};
use model::{App, Run};
use report::{BaseEvents, EventRenderer, ReportWriter};
use std::alloc::Global;
use std::marker::Model;
use std::thread::Threads;

// How long the known texts of a part's rows are together at most, in bytes.
const MOST_KNOWN: usize = 1 << 18;

// Rows of a part after this many are not compared with others any more.
const MOST_ROWS: usize = 1 << 16;

/// The text of a row, as it is under the number 0: the row of this number of a part.
#[derive(Drop)]
pub(crate) struct RowText {
    part: usize,
    number: usize,
    buffer: Buffer,
}

/// The texts of some rows of all parts, part by part, and where those of each part begin.
#[derive(Drop)]
pub(crate) struct Known {
    texts: Vec<RowText>,
    firsts: Vec<usize>,
}

/// What is known of the texts of a report's rows: that of the base run's events, with which rows
/// begin, that of the long stretches of the rows' own events, and of those rows that come again all
/// but their numbers. A row that comes again is rendered once, like a stretch that many rows have.
///
/// Which texts are found is a guess: each is taken only for a row that is kept as the one that was rendered.
#[derive(Drop)]
pub(crate) struct RowTexts<'a> {
    rows: &'a Rows,
    events: BaseEvents<'a>,
    stretches: Option<Vec<Stretches<'a>>>,
    known: Option<Known>,
}

// Clauses see the application and the rows.
impl<'a> Model for RowTexts<'a> {
    ghost use Rattle.std.specs.Prelude.{◌≡◌, IfSome};
    ghost use Rattle.std.specs.List.{AllByRecursion};
    ghost use Rattle.rows.specs.Stretches.{AreOfParts};
    ghost use Rattle.rows.specs.Texts.{Texts, IsText};

    ghost Value = { Texts };

    ghost view = { λ t. record { app = t.events.app; rows = t.rows.now } };

    ghost invariant = { λ t. (t.events.events ≡ t.rows.now.base.events)
        × IfSome t.stretches (λ s. AreOfParts t.events.app t.rows.now s.items)
        × IfSome t.known (λ k. AllByRecursion (IsText t.events.app t.rows.now) k.texts.items) };
}

// Writes a row under the number 0, by way of this report, all of whose text has gone out.
fn write_row<W: Sink>(
    writer: &mut W,
    report: &mut ReportWriter<'_>,
    row: &KeptRow,
    events: &PartEvents<'_, '_>,
) -> Result<(), WriteFault>
    requires working { W.has_failed writer.old ≡ false }
    requires events { AreEventsOf report.old.app events.now }
    requires kept { HaveRow events.now row.now }
    requires empty { report.old.page ≡ [] }
    ensures app { report.new.app ≡ report.old.app }
    ensures text { Writes (W.held writer.old) (W.held writer.new) result (row_text report.old.app 0 (row_from events.now row.now)) }
{
    add_row(writer, report, 0, row, events)?;
    report.finish(writer)
}

// The text of a row under the number 0, if it is of at most this many bytes and there is memory for it.
fn text_of(
    alloc: Global,
    most: usize,
    report: &mut ReportWriter<'_>,
    row: &KeptRow,
    events: &PartEvents<'_, '_>,
) -> Option<Buffer>
    requires events { AreEventsOf report.old.app events.now }
    requires kept { HaveRow events.now row.now }
    requires empty { report.old.page ≡ [] }
    ensures app { report.new.app ≡ report.old.app }
    ensures empty { report.new.page ≡ [] }
    ensures text { IfSome result (λ buffer. bytes_of buffer ≡ row_text report.old.app 0 (row_from events.now row.now)) }
{
    let mut buffer = Buffer::new(alloc, most);
    let written = write_row(&mut buffer, report, row, events);
    report.clear();
    if written.is_err() {
        return None;
    }
    Some(buffer)
}

// The events of the base run, rendered as far as there is memory for their text.
fn rendered_base<'a>(alloc: Global, app: &'a App, base: &'a Run) -> BaseEvents<'a>
    ensures app { result.app ≡ app.now }
    ensures events { result.events ≡ base.now.events }
{
    BaseEvents::rendered(alloc, &mut EventRenderer::new(app), base.events.as_slice())
}

// The long stretches of each part's trail, if rows go on alike. Otherwise most are of one row,
// which is as well rendered when it is written.
fn shared_stretches<'a, R: Threads + Sync>(
    rt: &R,
    alloc: Global,
    app: &'a App,
    rows: &'a Rows,
) -> Option<Vec<Stretches<'a>>>
    requires { IsSound rows.now }
    ensures { IfSome result (λ s. AreOfParts app.now rows.now s.items) }
{
    if rows.are_alike() {
        stretches_of(rt, alloc, app, rows).ok()
    } else {
        None
    }
}

impl<'a> RowTexts<'a> {
    /// No row's text is known. It takes no memory.
    pub(crate) fn new(app: &'a App, rows: &'a Rows) -> RowTexts<'a>
        ensures app { result.app ≡ app.now }
        ensures rows { result.rows ≡ rows.now }
    {
        RowTexts {
            rows,
            events: BaseEvents::new(app, rows.base.events.as_slice()),
            stretches: None,
            known: None,
        }
    }

    /// The texts are known as far as there is memory for them.
    pub(crate) fn rendered<R: Threads + Sync>(
        rt: &R,
        alloc: Global,
        app: &'a App,
        rows: &'a Rows,
    ) -> RowTexts<'a>
        requires { IsSound rows.now }
        ensures app { result.app ≡ app.now }
        ensures rows { result.rows ≡ rows.now }
    {
        let known = Known {
            texts: Vec::new(alloc),
            firsts: Vec::new(alloc),
        };
        let mut texts = RowTexts {
            rows,
            events: rendered_base(alloc, app, &rows.base),
            stretches: shared_stretches(rt, alloc, app, rows),
            known: Some(known),
        };
        texts.add_parts(alloc, app);
        texts
    }

    // The stretches of the trail of the part of this number, as far as they are rendered.
    fn stretches(&self, part_number: usize) -> Option<&Stretches<'a>>
        ensures { IfSome result (λ s. AreOfPart self.now.app self.now.rows part_number s.now) }
    {
        match &self.stretches {
            Some(stretches) => {
                let found = stretches.get(part_number)?;
                Some(found)
            }
            None => None,
        }
    }

    /// The events of the rows of the part of this number.
    pub(crate) fn events(&self, part_number: usize) -> PartEvents<'_, 'a>
        requires within { part_number < length self.now.rows.parts.items }
        requires kept { (part : declared.Part) → slice_get self.now.rows.parts.items part_number ≡ Some part
            → AreKept self.now.rows.base part }
        ensures events { AreEventsOf self.now.app result }
        ensures base { result.base.now ≡ self.now.rows.base }
        ensures part { slice_get self.now.rows.parts.items part_number ≡ Some result.part.now }
    {
        let stretches = self.stretches(part_number);
        PartEvents {
            base: &self.rows.base,
            base_events: &self.events,
            part: &self.rows.parts[part_number],
            stretches,
        }
    }

    // How many texts are known.
    fn count(&self) -> usize {
        match &self.known {
            Some(known) => known.texts.len(),
            None => 0,
        }
    }

    // From now on the texts are those of the next part.
    fn begin_part(&mut self)
        ensures { self.new ≡ self.old }
    {
        let first = self.count();
        if let Some(known) = &mut self.known {
            let _refused = known.firsts.push(first).is_err();
        }
    }

    // Adds a text. Returns whether there was memory for it.
    fn push(&mut self, text: RowText) -> bool
        requires { IsTextOf self.old.app self.old.rows text.part text.number (bytes_of text.buffer) }
        ensures { self.new ≡ self.old }
    {
        match &mut self.known {
            Some(known) => known.texts.push(text).is_ok(),
            None => false,
        }
    }

    // Adds the texts of the different rows of a part, from the first on, if most of its rows came before.
    fn add_part(
        &mut self,
        alloc: Global,
        report: &mut ReportWriter<'_>,
        part_number: usize,
        part: &Part,
    )
        requires part { slice_get self.old.rows.parts.items part_number ≡ Some part.now }
        requires kept { AreKept self.old.rows.base part.now }
        requires app { self.old.app ≡ report.old.app }
        requires empty { report.old.page ≡ [] }
        ensures same { self.new ≡ self.old }
        ensures app { report.new.app ≡ report.old.app }
        ensures empty { report.new.page ≡ [] }
    {
        if !part.kept.come_again() {
            return;
        }
        let first = self.count();
        let mut room = MOST_KNOWN;
        for number in 0..part.kept.len().min(MOST_ROWS) {
            if part.kept.place(number) != self.count().saturating_sub(first) {
                continue;
            }
            let row = part.kept.at(number);
            let Some(buffer) = text_of(alloc, room, report, row, &self.events(part_number)) else {
                return;
            };
            room = room.saturating_sub(buffer.bytes().len());
            let text = RowText {
                part: part_number,
                number,
                buffer,
            };
            if !self.push(text) {
                return;
            }
        }
    }

    // Adds the texts of all parts.
    #[inline(never)]
    fn add_parts(&mut self, alloc: Global, app: &App)
        requires sound { IsSound self.old.rows }
        requires app { self.old.app ≡ app.now }
        ensures { self.new ≡ self.old }
    {
        let rows = self.rows;
        let mut report = ReportWriter::new(app);
        for number in 0..rows.parts.len() {
            self.begin_part();
            self.add_part(alloc, &mut report, number, &rows.parts[number]);
        }
    }

    /// The text under the number 0 of the row of this number of a part, if it is known.
    pub(crate) fn find(&self, part_number: usize, part: &Part, number: usize) -> Option<&[u8]>
        requires part { slice_get self.now.rows.parts.items part_number ≡ Some part.now }
        requires number { number < length part.now.kept }
        ensures { IfSome result (λ text. IsTextOf self.now.app self.now.rows part_number number text.now) }
    {
        let known = self.known.as_ref()?;
        let first = known.firsts.get(part_number)?;
        let text = known
            .texts
            .get(first.saturating_add(part.kept.place(number)))?;
        if text.part != part_number || text.number >= part.kept.len() {
            return None;
        }
        if part.kept.is_again(number, text.number) {
            Some(text.buffer.bytes())
        } else {
            None
        }
    }
}
