//! How ops are loaded: branches, loops and checks, ops on values, notifications, and ops on handlers. Ops on objects and groups are
//! in `loading`.

use crate::loading::{has_isr_ops, has_ops, loaded};
use model::{
    Access, AnswerCondition, Arithmetic, HandlerId, IsrOp, NotificationClear, NotificationMasks,
    NotificationWait, NotifyAction, ObjectId, Op, SourceOp, TaskId, Value, ValueOp, VariableId,
};

const BRANCHES: &str = "
[[task]]
name = 'a'
priority = 1
endless = true
script = [
    'repeat forever', 'repeat 1000', 'if none', 'break', 'else', 'expect not none', 'end', 'end',
    '  if   below 007 ', 'if not 4294967295', 'end', 'end', 'if above 0', 'expect 4', 'end', 'end',
]

[[task]]
name = 'b'
priority = 1
script = ['expect above 4294967295']
";

#[test]
fn branches_and_endless_tasks_are_loaded(rt: HostRuntime) {
    let app = loaded(&rt, rt.alloc(), BRANCHES);
    let ops = [
        Op::Repeat(None),
        Op::Repeat(Some(1000)),
        Op::If(AnswerCondition::Is(None)),
        Op::Break,
        Op::Else,
        Op::Expect(AnswerCondition::IsNot(None)),
        Op::EndIf,
        Op::End,
        Op::If(AnswerCondition::Below(Value::Number(7))),
        Op::If(AnswerCondition::IsNot(Some(Value::Number(4_294_967_295)))),
        Op::EndIf,
        Op::EndIf,
        Op::If(AnswerCondition::Above(Value::Number(0))),
        Op::Expect(AnswerCondition::Is(Some(Value::Number(4)))),
        Op::EndIf,
        Op::End,
    ];
    has_ops(&rt, &app, &ops);
    assert!(rt; app.is_endless(TaskId { number: 0 }));
    assert!(rt; !app.is_endless(TaskId { number: 1 }));
}

const LOOKING_HANDLERS: &str = "
[[handler]]
name = 'h'
ops = [
    'expect none', 'if   below 007 ', 'if not none', 'mark 1', 'else', 'expect above 4294967295',
    'end', '  else ', 'if 4294967295', 'expect not 0', 'end', 'end',
]

[[handler]]
name = 'deep'
ops = [
    'if 1', 'if 1', 'if 1', 'if 1', 'if 1', 'if 1', 'if 1', 'if 1',
    'end', 'end', 'end', 'end', 'end', 'end', 'end', 'end',
]

[[task]]
name = 'a'
priority = 1
script = ['stamp', '  since ', 'expect below 6']
";

#[test]
fn handlers_that_look_and_tasks_that_measure_time_are_loaded(rt: HostRuntime) {
    let app = loaded(&rt, rt.alloc(), LOOKING_HANDLERS);
    let isr_ops = [
        IsrOp::Expect(AnswerCondition::Is(None)),
        IsrOp::If(AnswerCondition::Below(Value::Number(7))),
        IsrOp::If(AnswerCondition::IsNot(None)),
        IsrOp::Mark(Value::Number(1)),
        IsrOp::Else,
        IsrOp::Expect(AnswerCondition::Above(Value::Number(4_294_967_295))),
        IsrOp::EndIf,
        IsrOp::Else,
        IsrOp::If(AnswerCondition::Is(Some(Value::Number(4_294_967_295)))),
        IsrOp::Expect(AnswerCondition::IsNot(Some(Value::Number(0)))),
        IsrOp::EndIf,
        IsrOp::EndIf,
    ];
    has_isr_ops(&rt, &app, &isr_ops);
    let deep = app.handlers().last().expect(&rt, "a second handler");
    assert!(rt; deep.ops().len() == 16);
    let ops = [
        Op::Stamp,
        Op::Since,
        Op::Expect(AnswerCondition::Below(Value::Number(6))),
    ];
    has_ops(&rt, &app, &ops);
}

// A word of the grammar may be the name of a variable. `answer` is the last answer if a value is expected, and otherwise the
// variable.
const VARIABLES: &str = "
[[queue]]
name = 'q'
length = 1

[[handler]]
name = 'h'
ops = ['load x', 'mark answer', 'send q answer', 'xor answer', '  store  x 007 ', 'if above x', 'end']

[[variable]]
name = 'x'
initial = 4294967295

[[task]]
name = 'a'
priority = 1
script = [
    'load answer', 'store answer answer', 'store x 4294967295', 'add answer', 'sub 1', 'mul x', 'div x',
    'mod 4294967295', 'and 0', 'or x', 'xor 000', 'send q answer forever', 'send_front q answer 0',
    'overwrite q answer', 'mark answer', 'if x', 'end', 'if not x', 'end', 'expect below x', 'expect above answer',
]

[[variable]]
name = 'answer'
";

const X: VariableId = VariableId { number: 0 };

/// The variable that is named `answer`.
const ANSWER: VariableId = VariableId { number: 1 };

/// An op of a task that calculates with the last answer and this value.
fn calculation(kind: Arithmetic, value: Value) -> Op {
    Op::Value(ValueOp::Compute(kind, value))
}

#[test]
fn variables_and_the_ops_of_tasks_on_values_are_loaded(rt: HostRuntime) {
    let app = loaded(&rt, rt.alloc(), VARIABLES);
    let q = ObjectId { number: 0 };
    assert!(rt; app.variables() == [4_294_967_295, 0].as_slice());
    let ops = [
        Op::Value(ValueOp::Load(ANSWER)),
        Op::Value(ValueOp::Store(ANSWER, Value::Answer)),
        Op::Value(ValueOp::Store(X, Value::Number(4_294_967_295))),
        calculation(Arithmetic::Add, Value::Variable(ANSWER)),
        calculation(Arithmetic::Sub, Value::Number(1)),
        calculation(Arithmetic::Mul, Value::Variable(X)),
        calculation(Arithmetic::Div, Value::Variable(X)),
        calculation(Arithmetic::Mod, Value::Number(4_294_967_295)),
        calculation(Arithmetic::And, Value::Number(0)),
        calculation(Arithmetic::Or, Value::Variable(X)),
        calculation(Arithmetic::Xor, Value::Number(0)),
        Op::Await(q, Access::Send(Value::Answer), None),
        Op::Await(q, Access::SendFront(Value::Answer), Some(0)),
        Op::Do(q, Access::Overwrite(Value::Answer)),
        Op::Mark(Value::Answer),
        Op::If(AnswerCondition::Is(Some(Value::Variable(X)))),
        Op::EndIf,
        Op::If(AnswerCondition::IsNot(Some(Value::Variable(X)))),
        Op::EndIf,
        Op::Expect(AnswerCondition::Below(Value::Variable(X))),
        Op::Expect(AnswerCondition::Above(Value::Variable(ANSWER))),
    ];
    has_ops(&rt, &app, &ops);
}

#[test]
fn the_ops_of_handlers_on_values_are_loaded(rt: HostRuntime) {
    let app = loaded(&rt, rt.alloc(), VARIABLES);
    let isr_ops = [
        IsrOp::Value(ValueOp::Load(X)),
        IsrOp::Mark(Value::Answer),
        IsrOp::Do(ObjectId { number: 0 }, Access::Send(Value::Answer)),
        IsrOp::Value(ValueOp::Compute(Arithmetic::Xor, Value::Variable(ANSWER))),
        IsrOp::Value(ValueOp::Store(X, Value::Number(7))),
        IsrOp::If(AnswerCondition::Above(Value::Variable(X))),
        IsrOp::EndIf,
    ];
    has_isr_ops(&rt, &app, &isr_ops);
}

const NOTIFICATIONS: &str = "
[[task]]
name = 'a'
priority = 1
script = [
    'notify none none', 'notify a  bits 4294967295', ' notify bits increment', 'notify a overwrite answer',
    'notify none keep 0007 ', 'notify_take clear forever', 'notify_take  decrement 4294967294',
    'notify_wait 0 4294967295 0', ' notify_wait 6 1 forever', 'notify_clear', 'notify_value_clear 4294967295',
    'notify_value_clear 0',
]

[[task]]
name = 'none'
priority = 2
script = []

[[task]]
name = 'bits'
priority = 2
script = []

[[handler]]
name = 'h'
ops = ['notify none bits 1', ' notify  a increment ', 'notify bits keep answer', 'notify a none', 'notify a overwrite 0']
";

/// A wait for any notification that clears these bits at its start and those at its end.
fn waits(entry: u32, exit: u32, ticks: Option<u32>) -> Op {
    let masks = NotificationMasks { entry, exit };
    Op::AwaitNotification(NotificationWait::Wait(masks), ticks)
}

/// A take of one or of all.
fn takes(clears: bool, ticks: Option<u32>) -> Op {
    Op::AwaitNotification(NotificationWait::Take(clears), ticks)
}

#[test]
fn notifies_waits_for_notifications_and_clears_are_loaded(rt: HostRuntime) {
    let app = loaded(&rt, rt.alloc(), NOTIFICATIONS);
    let a = TaskId { number: 0 };
    let none = TaskId { number: 1 };
    let bits = TaskId { number: 2 };
    let ops = [
        Op::Notify(none, NotifyAction::Nothing),
        Op::Notify(a, NotifyAction::SetBits(Value::Number(4_294_967_295))),
        Op::Notify(bits, NotifyAction::Increment),
        Op::Notify(a, NotifyAction::Overwrite(Value::Answer)),
        Op::Notify(none, NotifyAction::Keep(Value::Number(7))),
        takes(true, None),
        takes(false, Some(4_294_967_294)),
        waits(0, 4_294_967_295, Some(0)),
        waits(6, 1, None),
        Op::ClearNotification(NotificationClear::Pending),
        Op::ClearNotification(NotificationClear::Bits(4_294_967_295)),
        Op::ClearNotification(NotificationClear::Bits(0)),
    ];
    has_ops(&rt, &app, &ops);
    let isr_ops = [
        IsrOp::Notify(none, NotifyAction::SetBits(Value::Number(1))),
        IsrOp::Notify(a, NotifyAction::Increment),
        IsrOp::Notify(bits, NotifyAction::Keep(Value::Answer)),
        IsrOp::Notify(a, NotifyAction::Nothing),
        IsrOp::Notify(a, NotifyAction::Overwrite(Value::Number(0))),
    ];
    has_isr_ops(&rt, &app, &isr_ops);
}

// A handler may name handlers after it, and itself. Here `tick` is the handler of that name.
const DEVICES: &str = "
[[handler]]
name = 'h'
ops = ['raise h 1', ' raise  tick 0001000000 ', 'arm tick', 'disarm h', ' cancel h ']

[[handler]]
name = 'arm'
ops = []
armed = false
apart = 1000000

[[handler]]
name = 'tick'
ops = []
armed = true
apart = 0

[[handler]]
name = 'late'
ops = []
apart = 1

[[handler]]
name = 'deaf'
armed = false
ops = []

[[task]]
name = 'a'
priority = 1
script = ['arm  arm', 'disarm tick', 'raise h 1000000', ' raise arm  007', 'cancel tick']
";

#[test]
fn ops_on_handlers_are_loaded(rt: HostRuntime) {
    let app = loaded(&rt, rt.alloc(), DEVICES);
    let h = HandlerId { number: 0 };
    let arm = HandlerId { number: 1 };
    let tick = HandlerId { number: 2 };
    let ops = [
        Op::Source(arm, SourceOp::Arm),
        Op::Source(tick, SourceOp::Disarm),
        Op::Source(h, SourceOp::Raise(1_000_000)),
        Op::Source(arm, SourceOp::Raise(7)),
        Op::Source(tick, SourceOp::Cancel),
    ];
    has_ops(&rt, &app, &ops);
    let isr_ops = [
        IsrOp::Source(h, SourceOp::Raise(1)),
        IsrOp::Source(tick, SourceOp::Raise(1_000_000)),
        IsrOp::Source(tick, SourceOp::Arm),
        IsrOp::Source(h, SourceOp::Disarm),
        IsrOp::Source(h, SourceOp::Cancel),
    ];
    has_isr_ops(&rt, &app, &isr_ops);
}

#[test]
fn handlers_are_armed_and_come_at_any_time_unless_the_file_says_otherwise(rt: HostRuntime) {
    let app = loaded(&rt, rt.alloc(), DEVICES);
    let arrivals = [
        (true, 0),
        (false, 1_000_000),
        (true, 0),
        (true, 1),
        (false, 0),
    ];
    assert!(rt; app.handlers().len() == arrivals.len());
    for (handler, (armed, apart)) in app.handlers().iter().zip(arrivals) {
        assert!(rt; handler.armed() == armed && handler.apart() == apart);
    }
}
