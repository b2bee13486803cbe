//! The rows of a report, rendered by several threads side by side, and written in their order.
ghost use Rattle.std.specs.Prelude.{◌≡◌, List, [], ◌∷◌, false, OnOk};
ghost use Rattle.std.specs.List.{flat_map};
ghost use Rattle.std.specs.Result.{is_err};
ghost use Rattle.std.specs.Thread.{IsSync};
ghost use Rattle.rtrb.specs.Ring.{SameProducer};
ghost use Rattle.byte_io.specs.Buffers.{bytes_of, buffer_failed};
ghost use Rattle.byte_io.specs.Bytes.{Writes};
ghost use Rattle.rows.specs.declared.rendering.inbox.Inbox as inbox;
ghost use Rattle.rows.specs.declared.rendering.renderer.Rendering as declared;
ghost use Rattle.rows.specs.Pieces.{text_of, AreFresh, ArePairs, GoOn, HasSent, HaveReceived, HaveSent, IsPiece, IsRendering};

use crate::rendering::inbox::{Inbox, give_back, take_from};
use crate::rendering::lanes::Lanes;
use crate::rendering::piece::Piece;
use crate::rendering::renderer::{Rendered, Renderer, Rendering};
use crate::rendering::writing::write_piece;
use byte_io::{Sink, WriteFault, put_all};
use report::ReportWriter;
use std::sync::Wait;
use std::thread;
use std::thread::{Threads, join_mut};

// Writes the text of this piece: what was rendered, or, if the buffer has failed, what this report
// renders now.
fn put<W: Sink>(
    text: &Rendered,
    piece: Piece,
    rendering: &Rendering<'_>,
    writer: &mut W,
    report: &mut ReportWriter<'_>,
) -> Result<(), WriteFault>
    requires rendering { IsRendering rendering.now }
    requires piece { IsPiece rendering.now.rows.now piece }
    requires working { W.has_failed writer.old ≡ false }
    requires app { rendering.now.texts.app ≡ report.old.app }
    requires empty { report.old.page ≡ [] }
    ensures app { report.new.app ≡ report.old.app }
    ensures text { (buffer_failed text.now.buffer ≡ false → bytes_of text.now.buffer ≡ text_of rendering.now piece)
        → Writes (W.held writer.old) (W.held writer.new) result (text_of rendering.now piece) }
    ensures empty { OnOk result (report.new.page ≡ []) }
    ensures failed { W.has_failed writer.new ≡ is_err result }
{
    if text.buffer.has_failed() {
        return write_piece(writer, report, rendering.rows, &rendering.texts, piece);
    }
    put_all(writer, text.buffer.bytes())
}

// Writes the texts of all pieces in their order, as they arrive at the inboxes, and renders pieces as
// long as the next text isn't there. It renders by way of this report, all of whose text has gone
// out, also what a renderer had no memory for.
//
// That what others hand on is right is known only when they are done, so it is a premise here.
fn write_arriving<R: Wait, W: Sink>(
    rt: &R,
    rendering: &Rendering<'_>,
    own: &mut Renderer,
    inboxes: &mut [Inbox],
    writer: &mut W,
    report: &mut ReportWriter<'_>,
) -> Result<(), WriteFault>
    requires rendering { IsRendering rendering.now }
    requires working { W.has_failed writer.old ≡ false }
    requires app { rendering.now.texts.app ≡ report.old.app }
    requires empty { report.old.page ≡ [] }
    ensures ring { SameProducer own.old.rendered own.new.rendered }
    ensures sent { HasSent rendering.now own.old → HasSent rendering.now own.new }
    ensures inboxes { GoOn inboxes.old inboxes.new }
    ensures app { report.new.app ≡ report.old.app }
    ensures text { HaveReceived rendering.now inboxes.new
        → Writes (W.held writer.old) (W.held writer.new) result (flat_map (text_of rendering.now) rendering.now.pieces.items) }
    ensures empty { OnOk result (report.new.page ≡ []) }
    ensures failed { W.has_failed writer.new ≡ is_err result }
{
    let mut number = 0;
    let mut idle: u32 = 0;
    for _ in rt.forever() {
        if number >= rendering.pieces.len() {
            return Ok(());
        }
        match take_from(inboxes, number) {
            Some(arrived) => {
                let piece = rendering.pieces[number];
                put(&arrived.text, piece, rendering, writer, report)?;
                give_back(inboxes, arrived.inbox, arrived.text.buffer);
                number += 1;
                idle = 0;
            }
            None => {
                let busy = own.render_next(rt, rendering, report);
                idle = rendering.rest_unless(rt, busy, idle);
            }
        }
    }
    unreachable!()
}

// Renders pieces until none is left, by each renderer in a thread of its own if one can be started.
fn render_all<R: Threads + Wait + Sync>(
    rt: &R,
    rendering: &Rendering<'_>,
    renderers: &mut [Renderer],
)
    requires rendering { IsRendering rendering.now }
    ensures pairs { (inboxes : List inbox.Inbox) → ArePairs renderers.old inboxes → ArePairs renderers.new inboxes }
    ensures sent { HaveSent rendering.now renderers.old → HaveSent rendering.now renderers.new }
{
    if renderers.is_empty() {
        return;
    }
    let threads = renderers.len();
    let each = |_index: usize, renderer: &mut Renderer|
        requires rendering { IsRendering rendering.now }
        ensures ring { SameProducer renderer.entry.now.rendered renderer.exit.now.rendered }
        ensures sent { HasSent rendering.entry.now renderer.entry.now → HasSent rendering.entry.now renderer.exit.now }
    { renderer.render_all(rt, rendering) };
    thread::for_each_mut(rt, renderers, threads, &each);
}

// Renders pieces in the threads of the other renderers, while the own one renders too, and writes the texts.
fn write_beside<R: Threads + Wait + Sync, W: Sink>(
    rt: &R,
    rendering: &Rendering<'_>,
    lanes: &mut Lanes,
    writer: &mut W,
    report: &mut ReportWriter<'_>,
) -> Result<(), WriteFault>
    requires rendering { IsRendering rendering.now }
    requires working { W.has_failed writer.old ≡ false }
    requires app { rendering.now.texts.app ≡ report.old.app }
    requires empty { report.old.page ≡ [] }
    ensures ring { SameProducer lanes.old.own.rendered lanes.new.own.rendered }
    ensures own { HasSent rendering.now lanes.old.own → HasSent rendering.now lanes.new.own }
    ensures pairs { (inboxes : List inbox.Inbox) → ArePairs lanes.old.others.items inboxes → ArePairs lanes.new.others.items inboxes }
    ensures others { HaveSent rendering.now lanes.old.others.items → HaveSent rendering.now lanes.new.others.items }
    ensures inboxes { GoOn lanes.old.inboxes.items lanes.new.inboxes.items }
    ensures app { report.new.app ≡ report.old.app }
    ensures text { HaveReceived rendering.now lanes.new.inboxes.items
        → Writes (W.held writer.old) (W.held writer.new) result (flat_map (text_of rendering.now) rendering.now.pieces.items) }
    ensures empty { OnOk result (report.new.page ≡ []) }
    ensures failed { W.has_failed writer.new ≡ is_err result }
{
    let own = &mut lanes.own;
    let others = lanes.others.as_mut_slice();
    let inboxes = lanes.inboxes.as_mut_slice();
    let mut theirs = ||
        requires rendering { IsRendering rendering.now }
        requires sync { IsSync R.row }
        ensures pairs { (inboxes : List inbox.Inbox) → ArePairs others.entry.now inboxes → ArePairs others.exit.now inboxes }
        ensures sent { HaveSent rendering.entry.now others.entry.now → HaveSent rendering.entry.now others.exit.now }
    { render_all(rt, rendering, others) };
    let mut mine = || -> Result<(), WriteFault>
        requires rendering { IsRendering rendering.now }
        requires working { W.has_failed writer.now ≡ false }
        requires app { rendering.now.texts.app ≡ report.now.app }
        requires empty { report.now.page ≡ [] }
        ensures ring { SameProducer own.entry.now.rendered own.exit.now.rendered }
        ensures sent { HasSent rendering.entry.now own.entry.now → HasSent rendering.entry.now own.exit.now }
        ensures inboxes { GoOn inboxes.entry.now inboxes.exit.now }
        ensures app { report.exit.now.app ≡ report.entry.now.app }
        ensures text { HaveReceived rendering.entry.now inboxes.exit.now
            → Writes (W.held writer.entry.now) (W.held writer.exit.now) result (flat_map (text_of rendering.entry.now) rendering.entry.now.pieces.items) }
        ensures empty { OnOk result (report.exit.now.page ≡ []) }
        ensures failed { W.has_failed writer.exit.now ≡ is_err result }
    {
        let written = write_arriving(rt, rendering, own, inboxes, writer, report);
        rendering.stop();
        written
    };
    let (_, written) = join_mut(rt, &mut theirs, &mut mine);
    written
}

// What has arrived at the inboxes was handed on.
fn compare(renderers: &mut [Renderer], inboxes: &mut [Inbox])
    requires { ArePairs renderers.old inboxes.old }
    ensures { (rendering : declared.Rendering) → HaveSent rendering renderers.old → HaveReceived rendering inboxes.old }
{
    let Some((renderer, renderers)) = renderers.split_first_mut() else {
        return;
    };
    let Some((inbox, inboxes)) = inboxes.split_first_mut() else {
        return;
    };
    inbox.rendered.slots_beside(&mut renderer.rendered);
    compare(renderers, inboxes);
}

// The same of this renderer and the others.
fn compare_all(own: &mut Renderer, others: &mut [Renderer], inboxes: &mut [Inbox])
    requires { ArePairs (own.old ∷ others.old) inboxes.old }
    ensures { (rendering : declared.Rendering) → HaveSent rendering (own.old ∷ others.old) → HaveReceived rendering inboxes.old }
{
    let Some((inbox, inboxes)) = inboxes.split_first_mut() else {
        return;
    };
    inbox.rendered.slots_beside(&mut own.rendered);
    compare(others, inboxes);
}

/// Writes the texts of all pieces, in their order. The other renderers render in threads of their own
/// if they can be started, and the own one in this thread, which writes. What a renderer has no
/// memory for is rendered by way of this report, all of whose text has gone out. It waits for them.
pub(crate) fn write_side_by_side<R: Threads + Wait + Sync, W: Sink>(
    rt: &R,
    rendering: &Rendering<'_>,
    lanes: &mut Lanes,
    writer: &mut W,
    report: &mut ReportWriter<'_>,
) -> Result<(), WriteFault>
    requires rendering { IsRendering rendering.now }
    requires pairs { ArePairs (lanes.old.own ∷ lanes.old.others.items) lanes.old.inboxes.items }
    requires fresh { AreFresh (lanes.old.own ∷ lanes.old.others.items) }
    requires working { W.has_failed writer.old ≡ false }
    requires app { rendering.now.texts.app ≡ report.old.app }
    requires empty { report.old.page ≡ [] }
    ensures app { report.new.app ≡ report.old.app }
    ensures text { Writes (W.held writer.old) (W.held writer.new) result (flat_map (text_of rendering.now) rendering.now.pieces.items) }
    ensures empty { OnOk result (report.new.page ≡ []) }
    ensures failed { W.has_failed writer.new ≡ is_err result }
{
    let written = write_beside(rt, rendering, lanes, writer, report);
    compare_all(&mut lanes.own, &mut lanes.others, &mut lanes.inboxes);
    written
}
