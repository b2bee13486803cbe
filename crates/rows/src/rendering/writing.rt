//! The text of a campaign's report, to a sink.
ghost use Rattle.std.specs.Prelude.{◌≡◌, ◌≤◌, ◌<◌, ◌+◌, false, [], ◌∷◌, length, slice_get, slice_range, Some, IfSome, OnOk};
ghost use Rattle.std.specs.List.{flat_map};
ghost use Rattle.std.specs.Result.{is_err};
ghost use Rattle.byte_io.specs.Bytes.{Adds, Writes};
ghost use Rattle.machine.specs.Logged.{all_of};
ghost use Rattle.model.specs.Scripts.{most_points};
ghost use Rattle.model.specs.Campaign.{totals_of};
ghost use Rattle.model.specs.Run.{Run};
ghost use Rattle.report.specs.Text.{event_text, row_text, total_text};
ghost use Rattle.report.specs.Views.{report_text, row_head, shown_row, shown_rows};
ghost use Rattle.report.specs.declared.title.Title.TheVariants as title;
ghost use Rattle.rows.specs.Events.{row_from, AreEventsOf, HaveRow, IsKnownRow};
ghost use Rattle.rows.specs.Links.{linked_events, IsLink, Store};
ghost use Rattle.rows.specs.Report.{row_of, rows_at, store_of, whole, IsPlace, IsSound};
ghost use Rattle.rows.specs.Pieces.{piece_text, AreFresh, ArePairs, ArePieces, IsPiece, IsRendering};

use crate::campaign_report::{Report, Rows};
use crate::link::{Leg, Link};
use crate::rendering::lanes::{Lanes, lanes_of};
use crate::rendering::part_events::{KnownRow, PartEvents};
use crate::rendering::piece::{Piece, pieces_of};
use crate::rendering::renderer::Rendering;
use crate::rendering::row_texts::RowTexts;
use crate::rendering::side_by_side::write_side_by_side;
use crate::rows::{KeptRow, Place};
use byte_io::{Sink, WriteFault};
use model::{App, Ending};
use report::{ReportWriter, Title, View};
use std::alloc::Global;
use std::sync::Wait;
use std::sync::atomic::AtomicU64;
use std::thread::Threads;

// How long the text of a piece is that a thread renders, in bytes, at least and at most.
const LEAST_PIECE: usize = 1 << 14;

const MOST_PIECE: usize = 1 << 16;

// No text that is longer than this is kept in memory, in bytes.
const MOST_TEXT: usize = 1 << 24;

// Rows of fewer lines than this have no text that is worth writing as it is.
const LEAST_SHARED: usize = 512;

// What the head line of a row begins with.
fn title_of(number: usize, row: &KeptRow) -> Title
    requires { number ≤ most_points }
    ensures { result ≡ title.Row number row.now.point row.now.reached }
{
    Title::Row {
        number: number as u32,
        point: row.point,
        reached: row.reached,
    }
}

// How a row ends.
fn ending_of(row: &KeptRow) -> Ending
    ensures { result ≡ record { steps = row.now.steps; ticks = row.now.ticks; end = row.now.end } }
{
    Ending {
        steps: row.steps,
        ticks: row.ticks,
        end: row.end,
    }
}

// The leg of this number.
fn leg_at(legs: &[Leg], number: usize) -> Leg
    requires { number < length legs.now }
    ensures { slice_get legs.now number ≡ Some result }
{
    legs[number]
}

// Adds the lines of a part's own events between these places, which are on the leg of this number: by
// their text, if that is rendered.
fn add_leg<W: Sink>(
    writer: &mut W,
    text: &mut ReportWriter<'_>,
    events: &PartEvents<'_, '_>,
    number: usize,
    from: usize,
    to: usize,
) -> Result<(), WriteFault>
    requires working { W.has_failed writer.old ≡ false }
    requires events { AreEventsOf text.old.app events.now }
    requires rises { from ≤ to }
    requires within { to ≤ length (all_of events.now.part.now.trail) }
    ensures app { text.new.app ≡ text.old.app }
    ensures text { Adds (W.held writer.old) (W.held writer.new) text.old.page text.new.page result
        (flat_map (event_text text.old.app) (slice_range (all_of events.now.part.now.trail) from to)) }
    ensures failed { W.has_failed writer.new ≡ is_err result }
{
    if let Some(stretches) = events.stretches
        && let Some(found) = stretches.find(number, from, to)
    {
        return text.add_base_from(writer, found.events, found.before);
    }
    text.add_events(writer, &events.part.trail.events()[from..to])
}

// Adds the lines of the events that follow a link of a part.
fn add_linked_events<W: Sink>(
    writer: &mut W,
    text: &mut ReportWriter<'_>,
    first: Link,
    events: &PartEvents<'_, '_>,
) -> Result<(), WriteFault>
    requires working { W.has_failed writer.old ≡ false }
    requires events { AreEventsOf text.old.app events.now }
    requires link { IsLink events.now.base.now.events (store_of events.now.part.now) first }
    ensures app { text.new.app ≡ text.old.app }
    ensures text { Adds (W.held writer.old) (W.held writer.new) text.old.page text.new.page result
        (flat_map (event_text text.old.app) (linked_events events.now.base.now.events (store_of events.now.part.now) first)) }
    ensures failed { W.has_failed writer.new ≡ is_err result }
{
    let mut link = first;
    'legs: loop {
        match link {
            Link::Base { from } => return text.add_base_from(writer, events.base_events, from),
            Link::Leg { number, from } => {
                let leg = leg_at(&events.part.legs, number);
                add_leg(writer, text, events, number, from, leg.to)?;
                link = leg.next;
            }
        }
    }
}

/// Adds a row of this number to a report: its events are this many first ones of the base run, and
/// those that follow its link.
pub(crate) fn add_row<W: Sink>(
    writer: &mut W,
    text: &mut ReportWriter<'_>,
    number: usize,
    row: &KeptRow,
    events: &PartEvents<'_, '_>,
) -> Result<(), WriteFault>
    requires working { W.has_failed writer.old ≡ false }
    requires events { AreEventsOf text.old.app events.now }
    requires few { number ≤ most_points }
    requires kept { HaveRow events.now row.now }
    ensures app { text.new.app ≡ text.old.app }
    ensures text { Adds (W.held writer.old) (W.held writer.new) text.old.page text.new.page result
        (row_text text.old.app number (row_from events.now row.now)) }
    ensures failed { W.has_failed writer.new ≡ is_err result }
{
    let title = title_of(number, row);
    text.begin_row(
        writer,
        title,
        ending_of(row),
        events.base_events,
        row.shared,
    )?;
    add_linked_events(writer, text, row.link, events)
}

// Adds the head line of a row of this number, whatever its events are.
fn add_row_head<W: Sink>(
    writer: &mut W,
    text: &mut ReportWriter<'_>,
    number: usize,
    row: &KeptRow,
) -> Result<(), WriteFault>
    requires working { W.has_failed writer.old ≡ false }
    requires few { number ≤ most_points }
    ensures app { text.new.app ≡ text.old.app }
    ensures text { (base : Run) (store : Store) → Adds (W.held writer.old) (W.held writer.new) text.old.page text.new.page result
        (row_head text.old.app number (row_of base store row.now)) }
    ensures failed { W.has_failed writer.new ≡ is_err result }
{
    text.add_head(writer, title_of(number, row), ending_of(row))
}

// Adds a row of this number to a report.
fn add_kept_row<W: Sink>(
    writer: &mut W,
    text: &mut ReportWriter<'_>,
    number: usize,
    row: &KnownRow<'_>,
    events: &PartEvents<'_, '_>,
) -> Result<(), WriteFault>
    requires working { W.has_failed writer.old ≡ false }
    requires events { AreEventsOf text.old.app events.now }
    requires few { number ≤ most_points }
    requires row { IsKnownRow text.old.app events.now row.now }
    ensures app { text.new.app ≡ text.old.app }
    ensures text { Adds (W.held writer.old) (W.held writer.new) text.old.page text.new.page result
        (row_text text.old.app number (row_from events.now row.now.kept.now)) }
    ensures failed { W.has_failed writer.new ≡ is_err result }
{
    match row.text {
        Some(known) => text.add_row_again(writer, number as u32, known),
        None => add_row(writer, text, number, row.kept, events),
    }
}

// Adds what the view shows of a row of this number.
fn add_shown_row<W: Sink>(
    writer: &mut W,
    text: &mut ReportWriter<'_>,
    view: View,
    number: usize,
    row: &KnownRow<'_>,
    events: &PartEvents<'_, '_>,
) -> Result<(), WriteFault>
    requires working { W.has_failed writer.old ≡ false }
    requires events { AreEventsOf text.old.app events.now }
    requires few { number ≤ most_points }
    requires row { IsKnownRow text.old.app events.now row.now }
    ensures app { text.new.app ≡ text.old.app }
    ensures text { Adds (W.held writer.old) (W.held writer.new) text.old.page text.new.page result
        (shown_row text.old.app view number (row_from events.now row.now.kept.now)) }
    ensures failed { W.has_failed writer.new ≡ is_err result }
{
    if !view.shows(row.kept.end) {
        return Ok(());
    }
    if view.heads {
        return add_row_head(writer, text, number, row.kept);
    }
    add_kept_row(writer, text, number, row, events)
}

// Adds what the view shows of the rows of a place, which are numbered from here.
fn add_place<W: Sink>(
    writer: &mut W,
    text: &mut ReportWriter<'_>,
    rows: &Rows,
    texts: &RowTexts<'_>,
    place: Place,
    number: usize,
) -> Result<(), WriteFault>
    requires working { W.has_failed writer.old ≡ false }
    requires app { texts.now.app ≡ text.old.app }
    requires rows { texts.now.rows ≡ rows.now }
    requires sound { IsSound rows.now }
    requires place { IsPlace rows.now.parts.items place }
    requires few { number + place.count ≤ most_points }
    ensures app { text.new.app ≡ text.old.app }
    ensures text { Adds (W.held writer.old) (W.held writer.new) text.old.page text.new.page result
        (shown_rows text.old.app rows.now.view number (rows_at rows.now.base rows.now.parts.items place)) }
    ensures failed { W.has_failed writer.new ≡ is_err result }
{
    let events = texts.events(place.part);
    let part = events.part;
    // A part has no more rows than fit, so the sums below do.
    let _ = part.kept.len();
    for index in 0..place.count {
        let row_number = place.first + index;
        let row = KnownRow {
            kept: part.kept.at(row_number),
            text: texts.find(place.part, part, row_number),
        };
        add_shown_row(writer, text, rows.view, number + index, &row, &events)?;
    }
    Ok(())
}

// Adds the rows of a piece.
fn add_piece<W: Sink>(
    writer: &mut W,
    text: &mut ReportWriter<'_>,
    rows: &Rows,
    texts: &RowTexts<'_>,
    piece: Piece,
) -> Result<(), WriteFault>
    requires working { W.has_failed writer.old ≡ false }
    requires app { texts.now.app ≡ text.old.app }
    requires rows { texts.now.rows ≡ rows.now }
    requires sound { IsSound rows.now }
    requires piece { IsPiece rows.now piece }
    ensures app { text.new.app ≡ text.old.app }
    ensures text { Adds (W.held writer.old) (W.held writer.new) text.old.page text.new.page result
        (piece_text text.old.app rows.now piece) }
    ensures failed { W.has_failed writer.new ≡ is_err result }
{
    let mut cursor = piece.from;
    let end = cursor.number + piece.count;
    while cursor.number < end {
        let number = cursor.number;
        let place = cursor.take(rows, end - number);
        add_place(writer, text, rows, texts, place, rows.first + number)?;
    }
    Ok(())
}

/// Writes the rows of a piece by way of this report, all of whose text has gone out before the call
/// and after it.
pub(crate) fn write_piece<W: Sink>(
    writer: &mut W,
    text: &mut ReportWriter<'_>,
    rows: &Rows,
    texts: &RowTexts<'_>,
    piece: Piece,
) -> Result<(), WriteFault>
    requires working { W.has_failed writer.old ≡ false }
    requires app { texts.now.app ≡ text.old.app }
    requires rows { texts.now.rows ≡ rows.now }
    requires sound { IsSound rows.now }
    requires piece { IsPiece rows.now piece }
    requires empty { text.old.page ≡ [] }
    ensures app { text.new.app ≡ text.old.app }
    ensures text { Writes (W.held writer.old) (W.held writer.new) result (piece_text text.old.app rows.now piece) }
    ensures empty { OnOk result (text.new.page ≡ []) }
    ensures failed { W.has_failed writer.new ≡ is_err result }
{
    add_piece(writer, text, rows, texts, piece)?;
    text.finish(writer)
}

// Writes the line of the totals of these rows, which ends the report.
fn write_totals<W: Sink>(
    writer: &mut W,
    text: &mut ReportWriter<'_>,
    rows: &Rows,
) -> Result<(), WriteFault>
    requires working { W.has_failed writer.old ≡ false }
    requires sound { IsSound rows.now }
    requires empty { text.old.page ≡ [] }
    ensures text { Writes (W.held writer.old) (W.held writer.new) result (total_text (totals_of (whole rows.now))) }
    ensures failed { W.has_failed writer.new ≡ is_err result }
{
    text.add_totals(writer, &rows.totals)?;
    text.finish(writer)
}

// Writes the rows and the line of their totals. This is known of their texts.
fn write_rows<W: Sink>(
    app: &App,
    rows: &Rows,
    texts: &RowTexts<'_>,
    writer: &mut W,
) -> Result<(), WriteFault>
    requires working { W.has_failed writer.old ≡ false }
    requires app { texts.now.app ≡ app.now }
    requires rows { texts.now.rows ≡ rows.now }
    requires sound { IsSound rows.now }
    ensures text { Writes (W.held writer.old) (W.held writer.new) result
        (report_text app.now rows.now.view rows.now.first (whole rows.now)) }
    ensures failed { W.has_failed writer.new ≡ is_err result }
{
    let mut text = ReportWriter::new(app);
    write_piece(writer, &mut text, rows, texts, Piece::all(rows))?;
    write_totals(writer, &mut text, rows)
}

// The same, by several renderers.
#[inline(never)]
fn write_rows_by<R: Threads + Wait + Sync, W: Sink>(
    rt: &R,
    rendering: &Rendering<'_>,
    lanes: &mut Lanes,
    writer: &mut W,
) -> Result<(), WriteFault>
    requires rendering { IsRendering rendering.now }
    requires pairs { ArePairs (lanes.old.own ∷ lanes.old.others.items) lanes.old.inboxes.items }
    requires fresh { AreFresh (lanes.old.own ∷ lanes.old.others.items) }
    requires pieces { ArePieces rendering.now.rows.now 0 (length (whole rendering.now.rows.now)) rendering.now.pieces.items }
    requires working { W.has_failed writer.old ≡ false }
    ensures text { Writes (W.held writer.old) (W.held writer.new) result
        (report_text rendering.now.app.now rendering.now.rows.now.view rendering.now.rows.now.first
        (whole rendering.now.rows.now)) }
    ensures failed { W.has_failed writer.new ≡ is_err result }
{
    let mut text = ReportWriter::new(rendering.app);
    write_side_by_side(rt, rendering, lanes, writer, &mut text)?;
    write_totals(writer, &mut text, rendering.rows)
}

// Whether most of the text is that of long stretches which many rows have. They are written as they
// are; to hand on copies of them would take longer than all the rest.
fn is_mostly_shared(rows: &Rows) -> bool
    requires { IsSound rows.now }
{
    !rows.view.heads && LEAST_SHARED <= rows.base.events.len() && rows.are_alike()
}

// How long the text of a piece is, in bytes: all that are in memory at a time take some sixteenth
// of the rows' memory at most. A row with its leg takes some 100 bytes, and each of its own events
// 16. They are neither so short that handing them on takes time, nor too long for a processor's own
// cache.
fn length_of_pieces(rows: &Rows, renderers: usize) -> usize
    requires some { 0 < renderers }
    requires sound { IsSound rows.now }
    ensures { 0 < result }
{
    let bytes = rows
        .own_events()
        .saturating_add(rows.count().saturating_mul(6));
    (bytes / renderers / 4).clamp(LEAST_PIECE, MOST_PIECE)
}

// What is known of the texts of the rows; nothing, if only heads are written.
fn texts_of<'a, R: Threads + Sync>(
    rt: &R,
    alloc: Global,
    app: &'a App,
    rows: &'a Rows,
) -> RowTexts<'a>
    requires { IsSound rows.now }
    ensures app { result.app ≡ app.now }
    ensures rows { result.rows ≡ rows.now }
{
    if rows.view.heads {
        RowTexts::new(app, rows)
    } else {
        RowTexts::rendered(rt, alloc, app, rows)
    }
}

// What several threads render rows with, and the pieces that they render; nothing if one thread
// writes all rows, or without memory for them.
fn lanes_and_pieces(alloc: Global, rows: &Rows, threads: usize) -> Option<(Lanes, Vec<Piece>)>
    requires { IsSound rows.now }
    ensures pairs { IfSome result (λ parts. ArePairs (parts.0.own ∷ parts.0.others.items) parts.0.inboxes.items) }
    ensures fresh { IfSome result (λ parts. AreFresh (parts.0.own ∷ parts.0.others.items)) }
    ensures pieces { IfSome result (λ parts. ArePieces rows.now 0 (length (whole rows.now)) parts.1.items) }
{
    if threads < 2 || is_mostly_shared(rows) {
        return None;
    }
    let pieces = pieces_of(alloc, rows, length_of_pieces(rows, threads)).ok()?;
    let lanes = lanes_of(alloc, threads, MOST_TEXT).ok()?;
    Some((lanes, pieces))
}

/// Writes the report of a campaign: its rows as its view shows them, and the line of their totals. The report is of this
/// application. It takes no memory, and the calling thread renders all of it.
///
/// `Err` is returned only if the writer failed or took none of some bytes; it has then taken a beginning of the text.
pub fn write_report<W: Sink>(app: &App, report: &Report, writer: &mut W) -> Result<(), WriteFault>
    requires working { W.has_failed writer.old ≡ false }
    ensures text { Writes (W.held writer.old) (W.held writer.new) result
        (report_text app.now report.now.view report.now.first report.now.rows) }
    ensures failed { W.has_failed writer.new ≡ is_err result }
{
    let rows = report.rows();
    write_rows(app, rows, &RowTexts::new(app, rows), writer)
}

/// Writes what `write_report` writes, sooner. It takes memory for the text of the base run's
/// events, with which rows begin, and for that of rows that come again. This many threads render
/// rows, at most 64; the calling thread is one of them. What it gets no memory for is rendered for
/// each row, on this thread.
pub fn write_report_in_threads<R: Threads + Wait + Sync, W: Sink>(
    rt: &R,
    alloc: Global,
    app: &App,
    report: &Report,
    threads: usize,
    writer: &mut W,
) -> Result<(), WriteFault>
    requires working { W.has_failed writer.old ≡ false }
    requires few { threads ≤ 64 }
    ensures text { Writes (W.held writer.old) (W.held writer.new) result
        (report_text app.now report.now.view report.now.first report.now.rows) }
    ensures failed { W.has_failed writer.new ≡ is_err result }
{
    let rows = report.rows();
    let texts = texts_of(rt, alloc, app, rows);
    let Some((mut lanes, pieces)) = lanes_and_pieces(alloc, rows, threads) else {
        return write_rows(app, rows, &texts, writer);
    };
    let rendering = Rendering {
        app,
        rows,
        texts,
        pieces,
        taken: AtomicU64::new(0),
    };
    write_rows_by(rt, &rendering, &mut lanes, writer)
}
