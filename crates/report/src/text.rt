//! The head line of a run, into a page that has room for it, and the fronts of other lines, into bytes that have.
//!
//! A front is put at a place, and the place after it is returned, as `byte_io::place` does.
ghost use Rattle.std.specs.Prelude.{◌≡◌, ◌≤◌, ◌+◌, ◌++◌, length, take, codes, decimal, if◌then◌else◌};
ghost use Rattle.model.specs.Words.{name_of, handler_name_of, source_name_of};
ghost use Rattle.report.specs.Again.{number_text};
ghost use Rattle.report.specs.Text.{word_at, call_front, obeyed_front, isr_word_at, isr_front, code_of, op_text, isr_op_text, verdict_text, injection_text, point_text, reached_text, title_text, head_text, total_text};
ghost use Rattle.report.specs.Fronts.{mark_front, isr_mark_front, run_front};

use crate::title::Title;
use byte_io::Page;
use byte_io::place::{put_short_number, put_text};
use model::{App, End, Ending, HandlerId, Injection, Misuse, Point, TaskId, Totals};

// The room that the line of an event needs at most. The longest is that of a call: two numbers of 10 digits, two spaces, at most
// 64 bytes of what happened, and a line feed. Texts that are copied whole end at most 88 bytes after the line's beginning.
pub(crate) const MAX_LINE: usize = 128;

// The room that a head line needs at most: its title of at most 116 bytes, its verdict of at most 64, steps of 10 digits, ticks of
// 20, and 19 bytes of words.
pub(crate) const MAX_HEAD: usize = 229;

// The room that the number of a row needs at most, with the word before it.
pub(crate) const MAX_NUMBER: usize = 14;

// The room that the line of totals needs at most: eight numbers of 10 digits, and 69 bytes of words.
pub(crate) const MAX_TOTALS: usize = 149;

/// The name of a task.
pub(crate) fn name(app: &App, task: TaskId) -> &[u8]
    ensures text { result.now ≡ name_of app.now task }
    ensures size { length result.now ≤ 16 }
{
    app.well_formed();
    app.name(task).as_bytes()
}

// The first word of a task's op of this index.
#[tactic(auto, using(crate::proofs::Short::index_and_word_short))]
fn word(app: &App, task: TaskId, op_index: u16) -> &'static [u8]
    ensures text { result.now ≡ word_at app.now task op_index }
    ensures size { length (decimal op_index) + length result.now ≤ 21 }
{
    app.well_formed();
    match app.op(task, op_index) {
        None => b"",
        Some(op) => op.word().as_bytes(),
    }
}

// The name of a handler.
fn handler_name(app: &App, handler: HandlerId) -> &[u8]
    ensures text { result.now ≡ handler_name_of app.now handler }
    ensures size { length result.now ≤ 16 }
{
    app.well_formed();
    app.handler_name(handler).as_bytes()
}

// The name of an interrupt that can be injected.
fn source_name(app: &App, source: HandlerId) -> &[u8]
    ensures text { result.now ≡ source_name_of app.now source }
    ensures size { length result.now ≤ 16 }
{
    app.well_formed();
    app.source_name(source).as_bytes()
}

// The first word of a handler's op of this index.
#[tactic(auto, using(crate::proofs::Short::isr_word_short))]
fn isr_word(app: &App, handler: HandlerId, op_index: u16) -> &'static [u8]
    ensures text { result.now ≡ isr_word_at app.now handler op_index }
    ensures size { length result.now ≤ 18 }
{
    match app.isr_op(handler, op_index) {
        None => b"",
        Some(op) => op.word().as_bytes(),
    }
}

/// Puts what the line of a call says before its result.
pub(crate) fn put_call_front(
    bytes: &mut [u8],
    at: usize,
    app: &App,
    task: TaskId,
    op_index: u16,
) -> usize
    requires { at + 48 ≤ length bytes.old }
    ensures text { take result bytes.new ≡ take at bytes.old ++ call_front app.now task op_index }
    ensures end { result ≤ at + 48 }
{
    let at = put_text(bytes, at, b"call ");
    let at = put_text(bytes, at, name(app, task));
    let at = put_text(bytes, at, b" ");
    let at = put_short_number(bytes, at, op_index);
    let at = put_text(bytes, at, b" ");
    let at = put_text(bytes, at, word(app, task, op_index));
    put_text(bytes, at, b" = ")
}

// The word of a command that clears bits, or sets them.
fn command_word(clear: bool) -> &'static [u8]
    ensures text { result.now ≡ (if clear then codes "clear" else codes "set") }
    ensures size { length result.now ≤ 5 }
{
    if clear { b"clear" } else { b"set" }
}

/// Puts what the line of a command that the daemon has done says before its result.
pub(crate) fn put_obeyed_front(
    bytes: &mut [u8],
    at: usize,
    app: &App,
    task: TaskId,
    clear: bool,
) -> usize
    requires { at + 48 ≤ length bytes.old }
    ensures text { take result bytes.new ≡ take at bytes.old ++ obeyed_front app.now task clear }
    ensures end { result ≤ at + 48 }
{
    let at = put_text(bytes, at, b"call ");
    let at = put_text(bytes, at, name(app, task));
    let at = put_text(bytes, at, b" 1 ");
    let at = put_text(bytes, at, command_word(clear));
    put_text(bytes, at, b" = ")
}

/// Puts what the line of a mark says before its number.
pub(crate) fn put_mark_front(bytes: &mut [u8], at: usize, app: &App, task: TaskId) -> usize
    requires { at + 48 ≤ length bytes.old }
    ensures text { take result bytes.new ≡ take at bytes.old ++ mark_front app.now task }
    ensures end { result ≤ at + 48 }
{
    let at = put_text(bytes, at, b"mark ");
    let at = put_text(bytes, at, name(app, task));
    put_text(bytes, at, b" ")
}

/// Puts what the line of a handler's op says before its result.
pub(crate) fn put_isr_front(
    bytes: &mut [u8],
    at: usize,
    app: &App,
    handler: HandlerId,
    op_index: u16,
) -> usize
    requires { at + 48 ≤ length bytes.old }
    ensures text { take result bytes.new ≡ take at bytes.old ++ isr_front app.now handler op_index }
    ensures end { result ≤ at + 48 }
{
    let at = put_text(bytes, at, b"isr ");
    let at = put_text(bytes, at, handler_name(app, handler));
    let at = put_text(bytes, at, b" ");
    let at = put_short_number(bytes, at, op_index);
    let at = put_text(bytes, at, b" ");
    let at = put_text(bytes, at, isr_word(app, handler, op_index));
    put_text(bytes, at, b" = ")
}

/// Puts what the line of a handler's mark says before its number.
pub(crate) fn put_isr_mark_front(
    bytes: &mut [u8],
    at: usize,
    app: &App,
    handler: HandlerId,
) -> usize
    requires { at + 48 ≤ length bytes.old }
    ensures text { take result bytes.new ≡ take at bytes.old ++ isr_mark_front app.now handler }
    ensures end { result ≤ at + 48 }
{
    let at = put_text(bytes, at, b"mark ");
    let at = put_text(bytes, at, handler_name(app, handler));
    put_text(bytes, at, b" ")
}

/// Puts all that the line of a task that runs says, with its end.
pub(crate) fn put_run_front(bytes: &mut [u8], at: usize, app: &App, task: TaskId) -> usize
    requires { at + 48 ≤ length bytes.old }
    ensures text { take result bytes.new ≡ take at bytes.old ++ run_front app.now task }
    ensures end { result ≤ at + 48 }
{
    let at = put_text(bytes, at, b"run ");
    let at = put_text(bytes, at, name(app, task));
    put_text(bytes, at, b"\n")
}

// The number of a misuse.
fn code_of(misuse: Misuse) -> u32
    ensures { result ≡ code_of misuse }
{
    match misuse {
        Misuse::WhileSuspended => 1,
        Misuse::NotSuspended => 2,
        Misuse::NotHolder => 3,
        Misuse::EndedSuspended => 4,
        Misuse::WhileCritical => 5,
        Misuse::NotCritical => 6,
        Misuse::EndedCritical => 7,
    }
}

// Adds the task and the index of an op: a name of at most 16 bytes, a space, and a number of at most 10 digits.
fn push_op(page: &mut Page, app: &App, task: TaskId, op_index: u16)
    requires { length page.old + 27 ≤ Page.SIZE }
    ensures text { page.new ≡ page.old ++ op_text app.now task op_index }
    ensures size { length page.new ≤ length page.old + 27 }
{
    page.push_text(name(app, task));
    page.push_array(b" ");
    page.push_number(op_index as u32);
}

// Adds the handler and the index of an op: the same of a handler.
fn push_isr_op(page: &mut Page, app: &App, handler: HandlerId, op_index: u16)
    requires { length page.old + 27 ≤ Page.SIZE }
    ensures text { page.new ≡ page.old ++ isr_op_text app.now handler op_index }
    ensures size { length page.new ≤ length page.old + 27 }
{
    page.push_text(handler_name(app, handler));
    page.push_array(b" ");
    page.push_number(op_index as u32);
}

// Adds how a run ends: at most 64 bytes.
pub(crate) fn push_verdict(page: &mut Page, app: &App, end: End)
    requires { length page.old + 64 ≤ Page.SIZE }
    ensures text { page.new ≡ page.old ++ verdict_text app.now end }
    ensures size { length page.new ≤ length page.old + 64 }
{
    match end {
        End::Pass => page.push_array(b"pass"),
        End::Check(task, op_index) => {
            page.push_array(b"check ");
            push_op(page, app, task, op_index);
        }
        End::HandlerCheck(handler, op_index) => {
            page.push_array(b"check ");
            push_isr_op(page, app, handler, op_index);
        }
        End::Misuse(task, op_index, misuse) => {
            page.push_array(b"misuse ");
            push_op(page, app, task, op_index);
            page.push_array(b" ");
            page.push_number(code_of(misuse));
        }
        End::Ticks => page.push_array(b"ticks"),
        End::Steps => page.push_array(b"steps"),
        End::Stuck => page.push_array(b"stuck"),
    }
}

// Adds an injection: a number of at most 10 digits, a space, and a name of at most 16 bytes.
fn push_injection(page: &mut Page, app: &App, injection: Injection)
    requires { length page.old + 27 ≤ Page.SIZE }
    ensures text { page.new ≡ page.old ++ injection_text app.now injection }
    ensures size { length page.new ≤ length page.old + 27 }
{
    page.push_number(injection.step);
    page.push_array(b" ");
    page.push_text(source_name(app, injection.handler));
}

// Adds injections: three at most, with a space between two.
pub(crate) fn push_injections(page: &mut Page, app: &App, injections: &[Injection])
    requires room { length page.old + 83 ≤ Page.SIZE }
    requires few { length injections.now ≤ 3 }
    ensures text { page.new ≡ page.old ++ point_text app.now injections.now }
    ensures size { length page.new ≤ length page.old + 83 }
{
    let Some((first, others)) = injections.split_first() else {
        return;
    };
    push_injection(page, app, *first);
    for other in others {
        page.push_array(b" ");
        push_injection(page, app, *other);
    }
}

// Adds an injection point.
fn push_point(page: &mut Page, app: &App, point: &Point)
    requires { length page.old + 83 ≤ Page.SIZE }
    ensures text { page.new ≡ page.old ++ point_text app.now point.now }
    ensures size { length page.new ≤ length page.old + 83 }
{
    point.well_formed();
    push_injections(page, app, point.injections().as_slice());
}

// Adds what is said of a point that is not reached.
fn push_reached(page: &mut Page, reached: bool)
    requires { length page.old + 13 ≤ Page.SIZE }
    ensures text { page.new ≡ page.old ++ reached_text reached }
    ensures size { length page.new ≤ length page.old + 13 }
{
    if !reached {
        page.push_array(b"not reached, ");
    }
}

fn push_title(page: &mut Page, app: &App, title: Title)
    requires { length page.old + 116 ≤ Page.SIZE }
    ensures text { page.new ≡ page.old ++ title_text app.now title }
    ensures size { length page.new ≤ length page.old + 116 }
{
    match title {
        Title::Base => page.push_array(b"base: "),
        Title::Row {
            number,
            point,
            reached,
        } => {
            page.push_array(b"row ");
            page.push_number(number);
            page.push_array(b" at ");
            push_point(page, app, &point);
            page.push_array(b": ");
            push_reached(page, reached);
        }
    }
}

// Adds the head line of a run.
pub(crate) fn push_head(page: &mut Page, app: &App, title: Title, ending: Ending)
    requires { length page.old + MAX_HEAD ≤ Page.SIZE }
    ensures { page.new ≡ page.old ++ head_text app.now title ending.steps ending.ticks ending.end }
{
    push_title(page, app, title);
    push_verdict(page, app, ending.end);
    page.push_array(b" in ");
    page.push_number(ending.steps);
    page.push_array(b" steps, ");
    page.push_long_number(ending.ticks);
    page.push_array(b" ticks\n");
}

// Adds words, and then a number of at most 10 digits.
fn push_count(page: &mut Page, words: &[u8], count: u32)
    requires { length page.old + length words.now + 10 ≤ Page.SIZE }
    ensures text { page.new ≡ page.old ++ words.now ++ decimal count }
    ensures size { length page.new ≤ length page.old + length words.now + 10 }
{
    page.push_text(words);
    page.push_number(count);
}

/// Adds the number of a row, with which its head line begins.
pub(crate) fn push_row_number(page: &mut Page, number: u32)
    requires { length page.old + MAX_NUMBER ≤ Page.SIZE }
    ensures { page.new ≡ page.old ++ number_text number }
{
    page.push_array(b"row ");
    page.push_number(number);
}

/// Adds the line of totals.
pub(crate) fn push_totals(page: &mut Page, totals: &Totals)
    requires { length page.old + MAX_TOTALS ≤ Page.SIZE }
    ensures { page.new ≡ page.old ++ total_text totals.now }
{
    push_count(page, b"total ", totals.rows);
    push_count(page, b": pass ", totals.pass);
    push_count(page, b", check ", totals.check);
    push_count(page, b", misuse ", totals.misuse);
    push_count(page, b", ticks ", totals.ticks);
    push_count(page, b", steps ", totals.steps);
    push_count(page, b", stuck ", totals.stuck);
    push_count(page, b", not reached ", totals.not_reached);
    page.push_text(b"\n");
}
