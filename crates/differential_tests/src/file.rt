//! An application as a file, so that it can be run.

use model::{
    Access, AnswerCondition, App, Condition, HandlerDefinition, HandlerId, Injection, Interrupt,
    IsrOp, NotificationClear, NotificationMasks, NotificationWait, NotifyAction, ObjectId,
    ObjectKind, Op, Plan, Point, SourceOp, TaskDefinition, TaskId, Value, ValueOp,
};
use std::alloc::{AllocError, Global};

// A word, with a space before it.
fn push_word(file: &mut String, word: &str) -> Result<(), AllocError> {
    file.push_str(" ")?;
    file.push_str(word)
}

// A number, as a word.
fn push_number(file: &mut String, number: u32) -> Result<(), AllocError> {
    write!(file, " {number}")
}

// The name of an object, of an event group or of a variable, as a word: a letter for its kind, and its number.
fn push_name(file: &mut String, letter: &str, number: u8) -> Result<(), AllocError> {
    push_word(file, letter)?;
    write!(file, "{number}")
}

// A value, as a word.
fn push_value(file: &mut String, value: Value) -> Result<(), AllocError> {
    match value {
        Value::Number(number) => push_number(file, number),
        Value::Answer => push_word(file, "answer"),
        Value::Variable(variable) => push_name(file, "x", variable.number),
    }
}

// The letter of the objects that allow a call.
fn letter_for(access: Access<Value>) -> &'static str {
    if access.is_of_queue() {
        "q"
    } else if access.is_of_semaphore() {
        "s"
    } else {
        "m"
    }
}

// The object of a call, and the item that it puts in, as words.
fn push_access(
    file: &mut String,
    object: ObjectId,
    access: Access<Value>,
) -> Result<(), AllocError> {
    push_name(file, letter_for(access), object.number)?;
    match access {
        Access::Send(item) | Access::SendFront(item) | Access::Overwrite(item) => {
            push_value(file, item)
        }
        Access::Receive | Access::Peek | Access::Take | Access::Give | Access::Lock => Ok(()),
    }
}

// A number, or another word if there is none.
fn push_number_or(file: &mut String, number: Option<u32>, none: &str) -> Result<(), AllocError> {
    match number {
        Some(number) => push_number(file, number),
        None => push_word(file, none),
    }
}

// A value, or `none` if there is none, as a word.
fn push_value_or_none(file: &mut String, value: Option<Value>) -> Result<(), AllocError> {
    match value {
        Some(value) => push_value(file, value),
        None => push_word(file, "none"),
    }
}

// A condition on the last answer, of a script or a handler, as words.
fn push_answer_condition(file: &mut String, condition: AnswerCondition) -> Result<(), AllocError> {
    match condition {
        AnswerCondition::Is(wanted) => push_value_or_none(file, wanted),
        AnswerCondition::IsNot(other) => {
            push_word(file, "not")?;
            push_value_or_none(file, other)
        }
        AnswerCondition::Below(bound) => {
            push_word(file, "below")?;
            push_value(file, bound)
        }
        AnswerCondition::Above(bound) => {
            push_word(file, "above")?;
            push_value(file, bound)
        }
    }
}

// The words of an op on values, after the first word.
fn push_rest_on_values(file: &mut String, op: ValueOp) -> Result<(), AllocError> {
    match op {
        ValueOp::Load(variable) => push_name(file, "x", variable.number),
        ValueOp::Store(variable, value) => {
            push_name(file, "x", variable.number)?;
            push_value(file, value)
        }
        ValueOp::Compute(_, value) => push_value(file, value),
    }
}

// The words of an op on a handler, after the first word.
fn push_rest_on_source(
    file: &mut String,
    app: &App,
    handler: HandlerId,
    op: SourceOp,
) -> Result<(), AllocError> {
    push_word(file, app.handler_name(handler))?;
    match op {
        SourceOp::Raise(ticks) => push_number(file, ticks),
        SourceOp::Arm | SourceOp::Disarm | SourceOp::Cancel => Ok(()),
    }
}

// The bits that a call waits for, as words.
fn push_condition(file: &mut String, condition: Condition) -> Result<(), AllocError> {
    push_number(file, condition.mask)?;
    push_word(file, if condition.all { "all" } else { "any" })?;
    push_word(file, if condition.clear { "clear" } else { "keep" })
}

// What a notify does, as words.
fn push_action(file: &mut String, action: NotifyAction<Value>) -> Result<(), AllocError> {
    push_word(
        file,
        match action {
            NotifyAction::Nothing => "none",
            NotifyAction::SetBits(_) => "bits",
            NotifyAction::Increment => "increment",
            NotifyAction::Overwrite(_) => "overwrite",
            NotifyAction::Keep(_) => "keep",
        },
    )?;
    match action.value() {
        Some(value) => push_value(file, value),
        None => Ok(()),
    }
}

// The words of a notify, after the first word. The notify is an op of a task or of a handler.
fn push_notify(
    file: &mut String,
    app: &App,
    task: TaskId,
    action: NotifyAction<Value>,
) -> Result<(), AllocError> {
    push_word(file, app.name(task))?;
    push_action(file, action)
}

fn push_masks(file: &mut String, masks: NotificationMasks) -> Result<(), AllocError> {
    push_number(file, masks.entry)?;
    push_number(file, masks.exit)
}

// What a call waits for with its notification, as words.
fn push_notification_wait(file: &mut String, wait: NotificationWait) -> Result<(), AllocError> {
    match wait {
        NotificationWait::Take(true) => push_word(file, "clear"),
        NotificationWait::Take(false) => push_word(file, "decrement"),
        NotificationWait::Wait(masks) => push_masks(file, masks),
    }
}

// The words of an op on notifications, after the first word. Any other op has none.
fn push_rest_on_notification(file: &mut String, app: &App, op: &Op) -> Result<(), AllocError> {
    match *op {
        Op::Notify(task, action) => push_notify(file, app, task, action),
        Op::AwaitNotification(wait, ticks) => {
            push_notification_wait(file, wait)?;
            push_number_or(file, ticks, "forever")
        }
        Op::ClearNotification(NotificationClear::Bits(bits)) => push_number(file, bits),
        _ => Ok(()),
    }
}

// The words of an op on an object, after the first word. Any other op has none.
fn push_rest_on_object(file: &mut String, op: &Op) -> Result<(), AllocError> {
    match *op {
        Op::Await(object, access, ticks) => {
            push_access(file, object, access)?;
            push_number_or(file, ticks, "forever")
        }
        Op::Do(object, access) => push_access(file, object, access),
        Op::GiveMutex(object) => push_name(file, "m", object.number),
        Op::MessagesWaiting(object) | Op::SpacesAvailable(object) => {
            push_name(file, "q", object.number)
        }
        _ => Ok(()),
    }
}

// The words of an op on an event group, after the first word. Any other op is on an object, or has none.
fn push_rest_on_group(file: &mut String, op: &Op) -> Result<(), AllocError> {
    match *op {
        Op::SetBits(group, mask) | Op::ClearBits(group, mask) => {
            push_name(file, "e", group.number)?;
            push_number(file, mask)
        }
        Op::GetBits(group) => push_name(file, "e", group.number),
        Op::WaitBits(group, condition, ticks) => {
            push_name(file, "e", group.number)?;
            push_condition(file, condition)?;
            push_number_or(file, ticks, "forever")
        }
        _ => push_rest_on_object(file, op),
    }
}

// The words of any op, after the first word.
fn push_rest(file: &mut String, app: &App, op: &Op) -> Result<(), AllocError> {
    match *op {
        Op::Work(number) | Op::Delay(number) | Op::DelayUntil(number) => push_number(file, number),
        Op::Mark(value) => push_value(file, value),
        Op::Value(op) => push_rest_on_values(file, op),
        Op::Source(handler, op) => push_rest_on_source(file, app, handler, op),
        Op::Repeat(Some(turns)) => push_number(file, turns as u32),
        Op::Repeat(None) => push_word(file, "forever"),
        Op::Expect(condition) | Op::If(condition) => push_answer_condition(file, condition),
        Op::Suspend(task) | Op::Resume(task) => push_word(file, app.name(task)),
        Op::Notify(_, _) | Op::AwaitNotification(_, _) | Op::ClearNotification(_) => {
            push_rest_on_notification(file, app, op)
        }
        _ => push_rest_on_group(file, op),
    }
}

fn push_op(file: &mut String, app: &App, op: &Op) -> Result<(), AllocError> {
    file.push_str("'")?;
    file.push_str(op.word())?;
    push_rest(file, app, op)?;
    file.push_str("', ")
}

// The words of a handler's op, after the first word.
fn push_isr_rest(file: &mut String, app: &App, op: &IsrOp) -> Result<(), AllocError> {
    match *op {
        IsrOp::Mark(value) => push_value(file, value),
        IsrOp::Value(op) => push_rest_on_values(file, op),
        IsrOp::Source(handler, op) => push_rest_on_source(file, app, handler, op),
        IsrOp::Do(object, access) => push_access(file, object, access),
        IsrOp::Resume(task) => push_word(file, app.name(task)),
        IsrOp::Notify(task, action) => push_notify(file, app, task, action),
        IsrOp::GetBits(group) => push_name(file, "e", group.number),
        IsrOp::Command(command) => {
            push_name(file, "e", command.group.number)?;
            push_number(file, command.mask)
        }
        IsrOp::Expect(condition) | IsrOp::If(condition) => push_answer_condition(file, condition),
        IsrOp::Else | IsrOp::EndIf => Ok(()),
    }
}

fn push_isr_op(file: &mut String, app: &App, op: &IsrOp) -> Result<(), AllocError> {
    file.push_str("'")?;
    file.push_str(op.word())?;
    push_isr_rest(file, app, op)?;
    file.push_str("', ")
}

// The object at this index, whose name is a letter and the index. A semaphore that equals a binary one is shown as a binary one.
fn push_object(file: &mut String, index: usize, kind: ObjectKind) -> Result<(), AllocError> {
    match kind {
        ObjectKind::Queue(length) => {
            write!(file, "\n[[queue]]\nname = 'q{index}'\nlength = {length}\n")
        }
        ObjectKind::Semaphore(1, 0) => write!(file, "\n[[binary]]\nname = 's{index}'\n"),
        ObjectKind::Semaphore(max, initial) => write!(
            file,
            "\n[[counting]]\nname = 's{index}'\nmax = {max}\ninitial = {initial}\n"
        ),
        ObjectKind::Mutex => write!(file, "\n[[mutex]]\nname = 'm{index}'\n"),
    }
}

fn push_task(file: &mut String, app: &App, task: &TaskDefinition) -> Result<(), AllocError> {
    let name = task.name();
    let priority = task.priority();
    write!(file, "\n[[task]]\nname = '{name}'\npriority = {priority}\n")?;
    if task.is_endless() {
        file.push_str("endless = true\n")?;
    }
    file.push_str("script = [")?;
    for op in task.ops() {
        push_op(file, app, op)?;
    }
    file.push_str("]\n")
}

// Whether a handler is armed at reset, and its minimum number of ticks between arrivals, if they differ from the defaults.
fn push_arrival(file: &mut String, handler: &HandlerDefinition) -> Result<(), AllocError> {
    if !handler.armed() {
        file.push_str("armed = false\n")?;
    }
    let apart = handler.apart();
    if apart == 0 {
        return Ok(());
    }
    write!(file, "apart = {apart}\n")
}

fn push_handler(
    file: &mut String,
    app: &App,
    handler: &HandlerDefinition,
) -> Result<(), AllocError> {
    let name = handler.name();
    write!(file, "\n[[handler]]\nname = '{name}'\nops = [")?;
    for op in handler.ops() {
        push_isr_op(file, app, op)?;
    }
    file.push_str("]\n")?;
    push_arrival(file, handler)
}

fn push_interrupt(file: &mut String, app: &App, interrupt: &Interrupt) -> Result<(), AllocError> {
    let tick = interrupt.tick;
    let name = app.handler_name(interrupt.handler);
    write!(file, "\n[[interrupt]]\ntick = {tick}\nhandler = '{name}'\n")
}

// When the run begins and ends, and whether the application is tickless.
fn push_head(file: &mut String, app: &App) -> Result<(), AllocError> {
    let start = app.start();
    let limits = app.limits();
    let ticks = limits.ticks;
    let steps = limits.steps;
    write!(
        file,
        "start = {start}\nlimits = {{ ticks = {ticks}, steps = {steps} }}\n"
    )?;
    if app.tickless() {
        file.push_str("tickless = true\n")?;
    }
    Ok(())
}

// All objects but the daemon's queue, which is the last one if there is a daemon.
fn push_objects(file: &mut String, app: &App) -> Result<(), AllocError> {
    let of_daemon = app.daemon().is_some() as usize;
    let of_file = app.objects().len().saturating_sub(of_daemon);
    for (index, kind) in app.objects().iter().take(of_file).enumerate() {
        push_object(file, index, *kind)?;
    }
    for number in 0..app.group_count() {
        write!(file, "\n[[group]]\nname = 'e{number}'\n")?;
    }
    Ok(())
}

fn push_variables(file: &mut String, app: &App) -> Result<(), AllocError> {
    for (index, initial) in app.variables().iter().enumerate() {
        write!(
            file,
            "\n[[variable]]\nname = 'x{index}'\ninitial = {initial}\n"
        )?;
    }
    Ok(())
}

fn push_handlers(file: &mut String, app: &App) -> Result<(), AllocError> {
    for handler in app.handlers() {
        push_handler(file, app, handler)?;
    }
    for interrupt in app.interrupts() {
        push_interrupt(file, app, interrupt)?;
    }
    Ok(())
}

fn push_daemon(file: &mut String, daemon: &TaskDefinition, length: u16) -> Result<(), AllocError> {
    let name = daemon.name();
    let priority = daemon.priority();
    write!(
        file,
        "\n[daemon]\nname = '{name}'\npriority = {priority}\nlength = {length}\n"
    )
}

// The length of the last object, which is the daemon's queue if there is a daemon.
fn command_length(app: &App) -> u16 {
    match app.objects().last() {
        Some(ObjectKind::Queue(length)) => *length,
        _ => 0,
    }
}

// The tasks of the file, and after them the daemon, if there is one.
fn push_tasks(file: &mut String, app: &App) -> Result<(), AllocError> {
    let daemon = app.daemon().map(|task| task.number as usize);
    for (number, task) in app.tasks().iter().enumerate() {
        if daemon == Some(number) {
            push_daemon(file, task, command_length(app))?;
        } else {
            push_task(file, app, task)?;
        }
    }
    Ok(())
}

fn push_app(file: &mut String, app: &App) -> Result<(), AllocError> {
    push_head(file, app)?;
    push_objects(file, app)?;
    push_variables(file, app)?;
    push_handlers(file, app)?;
    push_tasks(file, app)
}

/// A file that describes this application.
pub(crate) fn file_of(alloc: Global, app: &App) -> Result<String, AllocError> {
    let mut file = String::new(alloc);
    push_app(&mut file, app)?;
    Ok(file)
}

fn push_injections(
    text: &mut String,
    app: &App,
    injections: &[Injection],
) -> Result<(), AllocError> {
    for injection in injections {
        push_number(text, injection.step)?;
        push_word(text, app.source_name(injection.handler))?;
    }
    Ok(())
}

/// The injections of a plan, as words.
pub(crate) fn plan_text(alloc: Global, app: &App, plan: &Plan) -> Result<String, AllocError> {
    let mut text = String::new(alloc);
    push_injections(&mut text, app, plan.injections())?;
    Ok(text)
}

/// Points as words, with a comma after each.
pub(crate) fn points_text(
    alloc: Global,
    app: &App,
    points: &[Point],
) -> Result<String, AllocError> {
    let mut text = String::new(alloc);
    for point in points {
        push_injections(&mut text, app, point.injections().as_slice())?;
        text.push_str(",")?;
    }
    Ok(text)
}
