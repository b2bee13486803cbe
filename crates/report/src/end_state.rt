//! The lines of the end state of a run.
ghost use Rattle.std.specs.Prelude.{◌≡◌, ◌≤◌, ◌+◌, ◌*◌, ◌++◌, length, false};
ghost use Rattle.std.specs.List.{flat_map};
ghost use Rattle.std.specs.Result.{is_err};
ghost use Rattle.byte_io.specs.Bytes.{Writes};
ghost use Rattle.report.specs.EndStates.{end_state_text, held_line, numbered_lines, situation_text, task_line, until_text, variable_line};
ghost use Rattle.report.specs.Text.{run_text};

use crate::run::write_run;
use crate::text::name;
use crate::title::Title;
use byte_io::{Page, Sink, WriteFault, flush};
use model::{App, EndState, HeldMutex, Run, Situation, TaskId};

fn push_until(page: &mut Page, until: Option<u32>)
    requires { length page.old + 10 ≤ Page.SIZE }
    ensures text { page.new ≡ page.old ++ until_text until }
    ensures size { length page.new ≤ length page.old + 10 }
{
    match until {
        None => page.push_array(b"forever"),
        Some(tick) => page.push_number(tick),
    }
}

// Adds what a task is doing: a word of at most 10 bytes, and at most two numbers of 10 digits with a space between them.
fn push_situation(page: &mut Page, situation: Situation)
    requires { length page.old + 31 ≤ Page.SIZE }
    ensures text { page.new ≡ page.old ++ situation_text situation }
    ensures size { length page.new ≤ length page.old + 31 }
{
    match situation {
        Situation::Runs { op_index } => {
            page.push_array(b"runs ");
            page.push_number(op_index as u32);
        }
        Situation::Ready { op_index } => {
            page.push_array(b"ready ");
            page.push_number(op_index as u32);
        }
        Situation::Awake { op_index } => {
            page.push_array(b"awake ");
            page.push_number(op_index as u32);
        }
        Situation::Waits { op_index, until } => {
            page.push_array(b"waits ");
            page.push_number(op_index as u32);
            page.push_array(b" ");
            push_until(page, until);
        }
        Situation::Sleeps { op_index, until } => {
            page.push_array(b"sleeps ");
            page.push_number(op_index as u32);
            page.push_array(b" ");
            page.push_number(until);
        }
        Situation::Suspended { op_index } => {
            page.push_array(b"suspended ");
            page.push_number(op_index as u32);
        }
        Situation::Ended => page.push_array(b"ended"),
    }
}

// Adds the line of a task: a name of at most 16 bytes, what it is doing, and 8 bytes more.
fn push_task_line(page: &mut Page, app: &App, task: TaskId, situation: Situation)
    requires { length page.old + 55 ≤ Page.SIZE }
    ensures text { page.new ≡ page.old ++ task_line app.now task situation }
    ensures size { length page.new ≤ length page.old + 55 }
{
    page.push_array(b"state ");
    page.push_text(name(app, task));
    page.push_array(b" ");
    push_situation(page, situation);
    page.push_array(b"\n");
}

fn push_task_lines(page: &mut Page, app: &App, situations: &[Situation])
    requires few { length situations.now ≤ 32 }
    requires room { length page.old + 55 * length situations.now ≤ Page.SIZE }
    ensures text { page.new ≡ page.old ++ numbered_lines (task_line app.now) 0 situations.now }
    ensures size { length page.new ≤ length page.old + 55 * length situations.now }
{
    for number in 0..situations.len() {
        let task = TaskId {
            number: number as u8,
        };
        push_task_line(page, app, task, situations[number]);
    }
}

// Adds the line of a mutex: a number of at most 10 digits, a name of at most 16 bytes, and 7 bytes more.
fn push_held_line(page: &mut Page, app: &App, held: HeldMutex)
    requires { length page.old + 33 ≤ Page.SIZE }
    ensures text { page.new ≡ page.old ++ held_line app.now held }
    ensures size { length page.new ≤ length page.old + 33 }
{
    page.push_array(b"held ");
    page.push_number(held.object.number as u32);
    page.push_array(b" ");
    page.push_text(name(app, held.holder));
    page.push_array(b"\n");
}

fn push_held_lines(page: &mut Page, app: &App, held: &[HeldMutex])
    requires { length page.old + 33 * length held.now ≤ Page.SIZE }
    ensures text { page.new ≡ page.old ++ flat_map (held_line app.now) held.now }
    ensures size { length page.new ≤ length page.old + 33 * length held.now }
{
    for mutex in held {
        push_held_line(page, app, *mutex);
    }
}

// Adds the line of a variable: two numbers of at most 10 digits, and 13 bytes more.
fn push_variable_line(page: &mut Page, variable: u32, value: u32)
    requires { length page.old + 33 ≤ Page.SIZE }
    ensures text { page.new ≡ page.old ++ variable_line variable value }
    ensures size { length page.new ≤ length page.old + 33 }
{
    page.push_array(b"variable ");
    page.push_number(variable);
    page.push_array(b" = ");
    page.push_number(value);
    page.push_array(b"\n");
}

fn push_variable_lines(page: &mut Page, variables: &[u32])
    requires few { length variables.now ≤ 32 }
    requires room { length page.old + 33 * length variables.now ≤ Page.SIZE }
    ensures text { page.new ≡ page.old ++ numbered_lines variable_line 0 variables.now }
{
    for number in 0..variables.len() {
        push_variable_line(page, number as u32, variables[number]);
    }
}

// Writes the lines of the end state of a run.
fn write_end_state<W: Sink>(
    writer: &mut W,
    app: &App,
    end_state: &EndState,
) -> Result<(), WriteFault>
    requires { W.has_failed writer.old ≡ false }
    ensures text { Writes (W.held writer.old) (W.held writer.new) result (end_state_text app.now end_state.now) }
    ensures failed { W.has_failed writer.new ≡ is_err result }
{
    let mut page = Page::new();
    push_task_lines(&mut page, app, end_state.situations.as_slice());
    push_held_lines(&mut page, app, end_state.held.as_slice());
    push_variable_lines(&mut page, end_state.variables.as_slice());
    flush(writer, &mut page)
}

/// Writes the report of a run, as `write_run` does, and after it a line for each task, that says
/// what it is doing at the end, one for each mutex that is held then, and one for each variable,
/// that says what it is then.
pub fn write_run_and_end_state<W: Sink>(
    writer: &mut W,
    app: &App,
    title: Title,
    run: &Run,
    end_state: &EndState,
) -> Result<(), WriteFault>
    requires { W.has_failed writer.old ≡ false }
    ensures text { Writes (W.held writer.old) (W.held writer.new) result
        (run_text app.now title run.now ++ end_state_text app.now end_state.now) }
    ensures failed { W.has_failed writer.new ≡ is_err result }
{
    write_run(writer, app, title, run)?;
    write_end_state(writer, app, end_state)
}
