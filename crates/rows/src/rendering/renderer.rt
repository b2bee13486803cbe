//! Renderers of the pieces of a report, and the texts that they hand on.
ghost use Rattle.std.specs.Prelude.{◌≡◌, ◌∷◌, ◌++◌, []};
ghost use Rattle.rtrb.specs.Ring.{sent, SameProducer};
ghost use Rattle.rows.specs.Pieces.{HasSent, IsRendering};

use crate::campaign_report::Rows;
use crate::rendering::piece::Piece;
use crate::rendering::row_texts::RowTexts;
use crate::rendering::writing::write_piece;
use byte_io::Buffer;
use model::App;
use report::ReportWriter;
use rtrb::{Consumer, Producer, PushError};
use std::sync::Wait;
use std::sync::atomic::{AtomicU64, Ordering};
use std::thread;
use std::time::Duration;

// A thread that finds nothing to do only lets others go on, this many times. Then it sleeps, for
// this many microseconds at most: if the writer is slow, the threads that wait for it keep no
// processor busy.
const MOST_YIELDS: u32 = 1000;

const SLEEP: u64 = 200;

/// What all renderers share: the application, the rows, what is known of their texts, the pieces,
/// and how many of these are taken, from the first on.
#[derive(Drop)]
pub(crate) struct Rendering<'a> {
    pub(crate) app: &'a App,
    pub(crate) rows: &'a Rows,
    pub(crate) texts: RowTexts<'a>,
    pub(crate) pieces: Vec<Piece>,
    pub(crate) taken: AtomicU64,
}

impl<'a> Rendering<'a> {
    /// Whether no piece is left to be taken.
    pub(crate) fn is_over(&self) -> bool {
        self.taken.load(Ordering::SeqCst) as usize >= self.pieces.len()
    }

    /// Lets other threads go on if this one was not busy, and has not been this many times before.
    /// Returns how many times that is now.
    pub(crate) fn rest_unless<R: Wait>(&self, rt: &R, busy: bool, idle: u32) -> u32 {
        if busy {
            return 0;
        }
        if idle < MOST_YIELDS {
            thread::yield_now();
        } else {
            let seen = self.taken.load(Ordering::SeqCst) % (1 << 32);
            self.taken
                .park_timeout(rt, seen as u32, Duration::from_micros(SLEEP));
        }
        idle.saturating_add(1)
    }

    /// From now on no piece is left to be taken.
    pub(crate) fn stop(&self) {
        self.taken.store(self.pieces.len() as u64, Ordering::SeqCst);
    }
}

/// The text of the piece of this number, unless there was no memory for it: then the buffer has failed.
#[derive(Drop)]
pub(crate) struct Rendered {
    pub(crate) number: usize,
    pub(crate) buffer: Buffer,
}

/// Renders pieces one after the other, in buffers that come back from its inbox when their texts are written.
#[derive(Drop)]
pub(crate) struct Renderer {
    pub(crate) empty: Consumer<Buffer>,
    pub(crate) rendered: Producer<Rendered>,
}

// Hands a text on. There is room for all buffers of a renderer, so this doesn't wait.
fn hand_on<R: Wait>(rt: &R, rendered: &mut Producer<Rendered>, text: Rendered)
    ensures ring { SameProducer rendered.old rendered.new }
    ensures sent { sent rendered.new ≡ sent rendered.old ++ text ∷ [] }
{
    let mut text = text;
    for _ in rt.forever() {
        match rendered.push(text) {
            Ok(()) => return,
            Err(PushError::Full(back)) => text = back,
        }
        thread::yield_now();
    }
    unreachable!()
}

impl Renderer {
    /// Takes the next piece, renders it and hands its text on, if a buffer is empty and a piece is
    /// left. It renders by way of this report, all of whose text has gone out before the call and
    /// after it. Returns whether it did.
    pub(crate) fn render_next<R: Wait>(
        &mut self,
        rt: &R,
        rendering: &Rendering<'_>,
        report: &mut ReportWriter<'_>,
    ) -> bool
        requires rendering { IsRendering rendering.now }
        requires app { rendering.now.texts.app ≡ report.old.app }
        requires empty { report.old.page ≡ [] }
        ensures app { report.new.app ≡ report.old.app }
        ensures empty { report.new.page ≡ [] }
        ensures ring { SameProducer self.old.rendered self.new.rendered }
        ensures sent { HasSent rendering.now self.old → HasSent rendering.now self.new }
    {
        let Ok(mut buffer) = self.empty.pop() else {
            return false;
        };
        let number = rendering.taken.fetch_add(1, Ordering::SeqCst) as usize;
        let Some(piece) = rendering.pieces.get(number) else {
            return false;
        };
        buffer.clear();
        // The buffer itself knows whether it has failed.
        let _written = write_piece(
            &mut buffer,
            report,
            rendering.rows,
            &rendering.texts,
            *piece,
        );
        report.clear();
        hand_on(rt, &mut self.rendered, Rendered { number, buffer });
        true
    }

    /// Renders pieces until none is left.
    #[inline(never)]
    pub(crate) fn render_all<R: Wait>(&mut self, rt: &R, rendering: &Rendering<'_>)
        requires rendering { IsRendering rendering.now }
        ensures ring { SameProducer self.old.rendered self.new.rendered }
        ensures sent { HasSent rendering.now self.old → HasSent rendering.now self.new }
    {
        let mut report = ReportWriter::new(rendering.app);
        let mut idle: u32 = 0;
        for _ in rt.forever() {
            if rendering.is_over() {
                return;
            }
            let busy = self.render_next(rt, rendering, &mut report);
            idle = rendering.rest_unless(rt, busy, idle);
        }
    }
}
