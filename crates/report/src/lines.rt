//! The lines of an application's events, into a page that has room for them.
ghost use Rattle.std.specs.Prelude.{◌≡◌, ◌≤◌, ◌+◌, ◌*◌, ◌++◌, length, take, decimal, codes};
ghost use Rattle.std.specs.List.{flat_map};
ghost use Rattle.report.specs.Text.{what_text, event_text};

use crate::labels::Labels;
use crate::tens::Tens;
use crate::text::MAX_LINE;
use byte_io::Page;
use byte_io::place::{put_array, put_numeral};
use model::{App, Event, What};
use std::marker::Model;

/// What lines have in common with the lines before them: most of their digits, and their fronts.
///
/// It takes no memory, and serves all lines of an application, also those of several runs.
#[derive(Drop)]
pub(crate) struct Lines<'a> {
    step: Tens,
    tick: Tens,
    number: Tens,
    labels: Labels<'a>,
}

// Clauses see the application.
impl<'a> Model for Lines<'a> {
    ghost use Rattle.model.specs.Application.{Application};

    ghost Value = { Application };

    ghost view = { λ l. l.labels };
}

// Puts a number that ends a line, and the line's end. A small one is a digit at once, so that the
// digits that are kept stay those of large ones: most results are 0, and others are a time.
#[inline]
fn put_last(bytes: &mut [u8], at: usize, tens: &mut Tens, number: u32) -> usize
    requires { at + 16 ≤ length bytes.old }
    ensures text { take result bytes.new ≡ take at bytes.old ++ decimal number ++ codes "\n" }
    ensures end { result ≤ at + 12 }
{
    if number < 10 {
        put_array(bytes, at, &[b'0' + number as u8, b'\n'])
    } else {
        put_numeral(bytes, at, tens.numeral(number), b'\n')
    }
}

// Puts the result `none`, and the line's end.
#[inline]
fn put_none(bytes: &mut [u8], at: usize) -> usize
    requires { at + 16 ≤ length bytes.old }
    ensures text { take result bytes.new ≡ take at bytes.old ++ codes "none" ++ codes "\n" }
    ensures end { result ≤ at + 12 }
{
    put_array(bytes, at, b"none\n")
}

impl<'a> Lines<'a> {
    /// For lines of the application.
    pub(crate) fn new(app: &'a App) -> Lines<'a>
        ensures { result ≡ app.now }
    {
        Lines {
            step: Tens::new(),
            tick: Tens::new(),
            number: Tens::new(),
            labels: Labels::new(app),
        }
    }

    /// The application.
    pub(crate) fn app(&self) -> &'a App
        ensures { result.now ≡ self.now }
    {
        self.labels.app()
    }

    // Puts what an event reports, and the line's end.
    #[inline]
    fn put_what(&mut self, bytes: &mut [u8], at: usize, what: &What) -> usize
        requires { at + 64 ≤ length bytes.old }
        ensures app { self.new ≡ self.old }
        ensures text { take result bytes.new ≡ take at bytes.old ++ what_text self.old what.now ++ codes "\n" }
        ensures end { result ≤ at + 64 }
    {
        match *what {
            What::Call(task, op_index, answer) => {
                let at = self.labels.put_call(bytes, at, task, op_index);
                put_last(bytes, at, &mut self.number, answer)
            }
            What::CallNone(task, op_index) => {
                let at = self.labels.put_call(bytes, at, task, op_index);
                put_none(bytes, at)
            }
            What::Obeyed(task, clear, bits) => {
                let at = self.labels.put_obeyed(bytes, at, task, clear);
                put_last(bytes, at, &mut self.number, bits)
            }
            What::Mark(task, mark) => {
                let at = self.labels.put_mark(bytes, at, task);
                put_last(bytes, at, &mut self.number, mark)
            }
            What::Isr(handler, op_index, answer) => {
                let at = self.labels.put_isr(bytes, at, handler, op_index);
                put_last(bytes, at, &mut self.number, answer)
            }
            What::IsrNone(handler, op_index) => {
                let at = self.labels.put_isr(bytes, at, handler, op_index);
                put_none(bytes, at)
            }
            What::IsrMark(handler, mark) => {
                let at = self.labels.put_isr_mark(bytes, at, handler);
                put_last(bytes, at, &mut self.number, mark)
            }
            What::Run(None) => put_array(bytes, at, b"run -\n"),
            What::Run(Some(task)) => self.labels.put_run(bytes, at, task),
        }
    }

    // Puts the line of an event.
    #[inline]
    fn put_line(&mut self, bytes: &mut [u8], at: usize, event: &Event) -> usize
        requires { at + MAX_LINE ≤ length bytes.old }
        ensures app { self.new ≡ self.old }
        ensures text { take result bytes.new ≡ take at bytes.old ++ event_text self.old event.now }
        ensures end { result ≤ at + MAX_LINE }
    {
        let step = self.step.numeral(event.step);
        let tick = self.tick.numeral(event.tick);
        let at = put_numeral(bytes, at, step, b' ');
        let at = put_numeral(bytes, at, tick, b' ');
        self.put_what(bytes, at, &event.what)
    }

    // Puts the lines of the events.
    //
    // It is out of line, so that its loop has the processor's registers for itself. The loop goes by the events that are
    // left, since an index beside all of them would take one register more.
    #[inline(never)]
    fn put_all(&mut self, bytes: &mut [u8], at: usize, events: &[Event]) -> usize
        requires { at + length events.now * MAX_LINE ≤ length bytes.old }
        ensures app { self.new ≡ self.old }
        ensures text { take result bytes.new ≡ take at bytes.old ++ flat_map (event_text self.old) events.now }
        ensures end { result ≤ at + length events.now * MAX_LINE }
    {
        let mut end = at;
        let mut rest = events;
        while let [event, others @ ..] = rest {
            end = self.put_line(bytes, end, event);
            rest = others;
        }
        end
    }

    /// Adds the lines of the events.
    pub(crate) fn push_all(&mut self, page: &mut Page, events: &[Event])
        requires { length page.old + length events.now * MAX_LINE ≤ Page.SIZE }
        ensures app { self.new ≡ self.old }
        ensures text { page.new ≡ page.old ++ flat_map (event_text self.old) events.now }
        ensures size { length page.new ≤ length page.old + length events.now * MAX_LINE }
    {
        page.used = self.put_all(&mut page.bytes, page.used, events);
    }
}
