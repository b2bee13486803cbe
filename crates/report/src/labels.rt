//! The fronts of an application's lines, each rendered once.
ghost use Rattle.std.specs.Prelude.{◌≡◌, ◌<◌, ◌≤◌, ◌+◌, ◌++◌, ◌==◌, length, take};
ghost use Rattle.report.specs.Text.{call_front, isr_front, obeyed_front};
ghost use Rattle.report.specs.Fronts.{mark_front, isr_mark_front, run_front};

use crate::label::{Label, OpLabel};
use crate::text::{
    put_call_front, put_isr_front, put_isr_mark_front, put_mark_front, put_obeyed_front,
    put_run_front,
};
use byte_io::place::put_front;
use model::{App, HandlerId, TaskId};
use std::marker::Model;

// How many calls are kept at once, and how many ops of handlers.
const CALLS: usize = 1024;

const ISRS: usize = 128;

// Commands set bits or clear them.
const COMMANDS: usize = 2;

/// The fronts of lines of an application: that of a task that runs and of a task's marks at the task's number, and that of
/// a call, of a handler's op, or of a command that a daemon has done, at a place that several share, so it says which op it is of.
///
/// Each is right at all times. One that isn't there is rendered, and kept. They are where this value
/// is, and take no memory. They are put into bytes at a place, and the place after them is
/// returned, as `byte_io::place` does.
#[derive(Drop)]
pub(crate) struct Labels<'a> {
    app: &'a App,
    runs: [Label; 32],
    marks: [Label; 32],
    calls: [OpLabel; CALLS],
    isrs: [OpLabel; ISRS],
    obeyed: [OpLabel; COMMANDS],
}

// Clauses see the application.
impl<'a> Model for Labels<'a> {
    ghost use Rattle.model.specs.Application.{Application};
    ghost use Rattle.report.specs.Fronts.{AreLabels};

    ghost Value = { Application };

    ghost view = { λ l. l.app.now };

    ghost invariant = { λ l. AreLabels l.app.now l.runs l.marks l.calls l.isrs l.obeyed };
}

// The place of a call's label. Calls of two tasks share none if no script is longer than 32 ops.
#[inline]
fn call_place(task: TaskId, op_index: u16) -> usize
    ensures { result < CALLS }
{
    (task.number as usize * 32 + op_index as usize) % CALLS
}

// The place of the label of a handler's op.
#[inline]
fn isr_place(handler: HandlerId, op_index: u16) -> usize
    ensures { result < ISRS }
{
    (handler.number as usize * 8 + op_index as usize) % ISRS
}

// The place of the label of a command.
#[inline]
fn obeyed_place(clear: bool) -> usize
    ensures place { (result == 1) ≡ clear }
    ensures within { result < COMMANDS }
{
    clear as usize
}

impl<'a> Labels<'a> {
    /// No labels yet.
    pub(crate) fn new(app: &'a App) -> Labels<'a>
        ensures { result ≡ app.now }
    {
        Labels {
            app,
            runs: [Label::none(); 32],
            marks: [Label::none(); 32],
            calls: [OpLabel::none(); CALLS],
            isrs: [OpLabel::none(); ISRS],
            obeyed: [OpLabel::none(); COMMANDS],
        }
    }

    /// The application.
    pub(crate) fn app(&self) -> &'a App
        ensures { result.now ≡ self.now }
    {
        self.app
    }

    /// Puts the whole of what the line of a task that runs says, with its end.
    #[inline]
    pub(crate) fn put_run(&mut self, bytes: &mut [u8], at: usize, task: TaskId) -> usize
        requires { at + 48 ≤ length bytes.old }
        ensures app { self.new ≡ self.old }
        ensures text { take result bytes.new ≡ take at bytes.old ++ run_front self.old task }
        ensures end { result ≤ at + 48 }
    {
        let label = &self.runs[task.number as usize];
        if label.len == 0 {
            self.render_run(bytes, at, task)
        } else {
            put_front(bytes, at, &label.text, label.len as usize)
        }
    }

    /// Puts what the line of a mark says before its number.
    #[inline]
    pub(crate) fn put_mark(&mut self, bytes: &mut [u8], at: usize, task: TaskId) -> usize
        requires { at + 48 ≤ length bytes.old }
        ensures app { self.new ≡ self.old }
        ensures text { take result bytes.new ≡ take at bytes.old ++ mark_front self.old task }
        ensures end { result ≤ at + 48 }
    {
        let label = &self.marks[task.number as usize];
        if label.len == 0 {
            self.render_mark(bytes, at, task)
        } else {
            put_front(bytes, at, &label.text, label.len as usize)
        }
    }

    /// Puts what the line of a call says before its result.
    #[inline]
    pub(crate) fn put_call(
        &mut self,
        bytes: &mut [u8],
        at: usize,
        task: TaskId,
        op_index: u16,
    ) -> usize
        requires { at + 48 ≤ length bytes.old }
        ensures app { self.new ≡ self.old }
        ensures text { take result bytes.new ≡ take at bytes.old ++ call_front self.old task op_index }
        ensures end { result ≤ at + 48 }
    {
        let call = &self.calls[call_place(task, op_index)];
        if call.is_of(task.number, op_index) {
            put_front(bytes, at, &call.label.text, call.label.len as usize)
        } else {
            self.render_call(bytes, at, task, op_index)
        }
    }

    /// Puts what the line of a handler's op says before its result.
    #[inline]
    pub(crate) fn put_isr(
        &mut self,
        bytes: &mut [u8],
        at: usize,
        handler: HandlerId,
        op_index: u16,
    ) -> usize
        requires { at + 48 ≤ length bytes.old }
        ensures app { self.new ≡ self.old }
        ensures text { take result bytes.new ≡ take at bytes.old ++ isr_front self.old handler op_index }
        ensures end { result ≤ at + 48 }
    {
        let isr = &self.isrs[isr_place(handler, op_index)];
        if isr.is_of(handler.number, op_index) {
            put_front(bytes, at, &isr.label.text, isr.label.len as usize)
        } else {
            self.render_isr(bytes, at, handler, op_index)
        }
    }

    /// Puts what the line of a handler's mark says before its number. It isn't kept.
    pub(crate) fn put_isr_mark(&self, bytes: &mut [u8], at: usize, handler: HandlerId) -> usize
        requires { at + 48 ≤ length bytes.old }
        ensures text { take result bytes.new ≡ take at bytes.old ++ isr_mark_front self.now handler }
        ensures end { result ≤ at + 48 }
    {
        put_isr_mark_front(bytes, at, self.app, handler)
    }

    /// Puts what the line of a command that the daemon has done says before its result.
    pub(crate) fn put_obeyed(
        &mut self,
        bytes: &mut [u8],
        at: usize,
        task: TaskId,
        clear: bool,
    ) -> usize
        requires { at + 48 ≤ length bytes.old }
        ensures app { self.new ≡ self.old }
        ensures text { take result bytes.new ≡ take at bytes.old ++ obeyed_front self.old task clear }
        ensures end { result ≤ at + 48 }
    {
        let command = &self.obeyed[obeyed_place(clear)];
        if command.is_of(task.number, 1) {
            put_front(bytes, at, &command.label.text, command.label.len as usize)
        } else {
            self.render_obeyed(bytes, at, task, clear)
        }
    }

    // Renders and keeps the front of a task that runs.
    #[inline(never)]
    fn render_run(&mut self, bytes: &mut [u8], at: usize, task: TaskId) -> usize
        requires { at + 48 ≤ length bytes.old }
        ensures app { self.new ≡ self.old }
        ensures text { take result bytes.new ≡ take at bytes.old ++ run_front self.old task }
        ensures end { result ≤ at + 48 }
    {
        let end = put_run_front(bytes, at, self.app, task);
        self.runs[task.number as usize] = Label::of(&bytes[..end], at);
        end
    }

    // Renders and keeps the front of a task's marks.
    #[inline(never)]
    fn render_mark(&mut self, bytes: &mut [u8], at: usize, task: TaskId) -> usize
        requires { at + 48 ≤ length bytes.old }
        ensures app { self.new ≡ self.old }
        ensures text { take result bytes.new ≡ take at bytes.old ++ mark_front self.old task }
        ensures end { result ≤ at + 48 }
    {
        let end = put_mark_front(bytes, at, self.app, task);
        self.marks[task.number as usize] = Label::of(&bytes[..end], at);
        end
    }

    // Renders and keeps the front of a call.
    #[inline(never)]
    fn render_call(&mut self, bytes: &mut [u8], at: usize, task: TaskId, op_index: u16) -> usize
        requires { at + 48 ≤ length bytes.old }
        ensures app { self.new ≡ self.old }
        ensures text { take result bytes.new ≡ take at bytes.old ++ call_front self.old task op_index }
        ensures end { result ≤ at + 48 }
    {
        let end = put_call_front(bytes, at, self.app, task, op_index);
        let label = Label::of(&bytes[..end], at);
        self.calls[call_place(task, op_index)] = OpLabel {
            owner: task.number,
            op_index,
            label,
        };
        end
    }

    // Renders and keeps the front of a handler's op.
    #[inline(never)]
    fn render_isr(
        &mut self,
        bytes: &mut [u8],
        at: usize,
        handler: HandlerId,
        op_index: u16,
    ) -> usize
        requires { at + 48 ≤ length bytes.old }
        ensures app { self.new ≡ self.old }
        ensures text { take result bytes.new ≡ take at bytes.old ++ isr_front self.old handler op_index }
        ensures end { result ≤ at + 48 }
    {
        let end = put_isr_front(bytes, at, self.app, handler, op_index);
        let label = Label::of(&bytes[..end], at);
        self.isrs[isr_place(handler, op_index)] = OpLabel {
            owner: handler.number,
            op_index,
            label,
        };
        end
    }

    // Renders and keeps the front of a command that the daemon has done. It is printed as the op of index 1.
    #[inline(never)]
    fn render_obeyed(&mut self, bytes: &mut [u8], at: usize, task: TaskId, clear: bool) -> usize
        requires { at + 48 ≤ length bytes.old }
        ensures app { self.new ≡ self.old }
        ensures text { take result bytes.new ≡ take at bytes.old ++ obeyed_front self.old task clear }
        ensures end { result ≤ at + 48 }
    {
        let end = put_obeyed_front(bytes, at, self.app, task, clear);
        let label = Label::of(&bytes[..end], at);
        self.obeyed[obeyed_place(clear)] = OpLabel {
            owner: task.number,
            op_index: 1,
            label,
        };
        end
    }
}
