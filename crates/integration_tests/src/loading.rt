//! How a file is loaded: its objects and groups with the ops on them, its daemon, its limits and its points.

use model::{
    Access, App, Command, Condition, GroupId, HandlerId, IsrOp, ObjectId, ObjectKind, Op, Point,
    PointEntry, PointRange, TaskId, Value,
};
use script::FromDocument;
use std::alloc::Global;
use std::process::Abort;

/// The application that a file describes.
pub(crate) fn loaded(rt: &impl Abort, alloc: Global, file: &str) -> App {
    let document = toml::table_from_str(alloc, file)
        .ok()
        .expect(rt, "a document");
    App::from_document(alloc, &document)
        .ok()
        .expect(rt, "an application")
}

/// Compares the objects of an application.
fn has_objects(rt: &impl Abort, app: &App, objects: &[ObjectKind]) {
    assert!(rt; app.objects() == objects);
}

/// Compares the ops of the application's first task.
pub(crate) fn has_ops(rt: &impl Abort, app: &App, ops: &[Op]) {
    let task = app.tasks().first().expect(rt, "a task");
    assert!(rt; task.ops() == ops);
}

/// Compares the ops of the application's first handler.
pub(crate) fn has_isr_ops(rt: &impl Abort, app: &App, ops: &[IsrOp]) {
    let handler = app.handlers().first().expect(rt, "a handler");
    assert!(rt; handler.ops() == ops);
}

const QUEUES: &str = "
[[queue]]
name = 'one'
length = 1

[[queue]]
name = 'Many_2'
length = 256

[[task]]
name = 'a'
priority = 1
script = [
    'send Many_2 4294967295 4294967294', '  send_front  one 0007 0 ', 'overwrite one 8',
    'receive one forever', 'peek Many_2 1', 'waiting one', 'spaces Many_2',
]
";

#[test]
fn queues_and_the_ops_on_them_are_loaded(rt: HostRuntime) {
    let app = loaded(&rt, rt.alloc(), QUEUES);
    has_objects(&rt, &app, &[ObjectKind::Queue(1), ObjectKind::Queue(256)]);
    let one = ObjectId { number: 0 };
    let many = ObjectId { number: 1 };
    let ops = [
        Op::Await(
            many,
            Access::Send(Value::Number(4_294_967_295)),
            Some(4_294_967_294),
        ),
        Op::Await(one, Access::SendFront(Value::Number(7)), Some(0)),
        Op::Do(one, Access::Overwrite(Value::Number(8))),
        Op::Await(one, Access::Receive, None),
        Op::Await(many, Access::Peek, Some(1)),
        Op::MessagesWaiting(one),
        Op::SpacesAvailable(many),
    ];
    has_ops(&rt, &app, &ops);
}

const SEMAPHORES_AND_MUTEXES: &str = "
[[mutex]]
name = 'm'

[[counting]]
name = 'c'
max = 65535
initial = 7

[[counting]]
name = 'd'
max = 3

[[binary]]
name = 'b'

[[handler]]
name = 'h'
ops = ['give b', 'give  d ']

[[task]]
name = 'a'
priority = 1
script = ['take b 4294967294', 'give c', ' take  d  forever', 'lock m 0', 'unlock m', 'lock m forever']
";

// Binary semaphores come before counting ones, and those before mutexes, whatever their order in the file.
#[test]
fn semaphores_and_mutexes_and_the_ops_on_them_are_loaded(rt: HostRuntime) {
    let app = loaded(&rt, rt.alloc(), SEMAPHORES_AND_MUTEXES);
    let b = ObjectId { number: 0 };
    let c = ObjectId { number: 1 };
    let d = ObjectId { number: 2 };
    let m = ObjectId { number: 3 };
    let kinds = [
        ObjectKind::Semaphore(1, 0),
        ObjectKind::Semaphore(65_535, 7),
        ObjectKind::Semaphore(3, 0),
        ObjectKind::Mutex,
    ];
    has_objects(&rt, &app, &kinds);
    let ops = [
        Op::Await(b, Access::Take, Some(4_294_967_294)),
        Op::Do(c, Access::Give),
        Op::Await(d, Access::Take, None),
        Op::Await(m, Access::Lock, Some(0)),
        Op::GiveMutex(m),
        Op::Await(m, Access::Lock, None),
    ];
    has_ops(&rt, &app, &ops);
    let isr_ops = [IsrOp::Do(b, Access::Give), IsrOp::Do(d, Access::Give)];
    has_isr_ops(&rt, &app, &isr_ops);
}

// A word of the grammar may be a name too.
const GROUPS_AND_SUSPENSION: &str = "
[[task]]
name = 'a'
priority = 1
script = [
    'set g 16777215', 'clear any 0000000001', ' bits  any ', 'wait any 5 any keep forever',
    '  wait g 16777215 all clear 4294967294', 'wait g 1 all keep 0', 'wait any 2 any clear 7',
    'suspend all', 'resume a', 'suspend_all', ' resume_all ', ' enter_critical', 'exit_critical  ',
]

[[task]]
name = 'all'
priority = 2
script = []

[[handler]]
name = 'h'
ops = ['resume all', 'bits  g', ' resume  a', 'bits any']

[[group]]
name = 'g'

[[group]]
name = 'any'
";

/// The bits that a task waits for.
fn bits(mask: u32, all: bool, clear: bool) -> Condition {
    Condition { mask, all, clear }
}

#[test]
fn groups_and_the_ops_on_them_and_those_that_suspend_are_loaded(rt: HostRuntime) {
    let app = loaded(&rt, rt.alloc(), GROUPS_AND_SUSPENSION);
    let g = GroupId { number: 0 };
    let any = GroupId { number: 1 };
    let a = TaskId { number: 0 };
    let all = TaskId { number: 1 };
    assert!(rt; app.group_count() == 2);
    assert!(rt; app.objects().len() == 0);
    let ops = [
        Op::SetBits(g, 16_777_215),
        Op::ClearBits(any, 1),
        Op::GetBits(any),
        Op::WaitBits(any, bits(5, false, false), None),
        Op::WaitBits(g, bits(16_777_215, true, true), Some(4_294_967_294)),
        Op::WaitBits(g, bits(1, true, false), Some(0)),
        Op::WaitBits(any, bits(2, false, true), Some(7)),
        Op::Suspend(all),
        Op::Resume(a),
        Op::SuspendAll,
        Op::ResumeAll,
        Op::EnterCritical,
        Op::ExitCritical,
    ];
    has_ops(&rt, &app, &ops);
    let isr_ops = [
        IsrOp::Resume(all),
        IsrOp::GetBits(g),
        IsrOp::Resume(a),
        IsrOp::GetBits(any),
    ];
    has_isr_ops(&rt, &app, &isr_ops);
}

// The daemon comes after all tasks, and its queue after all objects, wherever it is in the file.
const DAEMON: &str = "
[daemon]
name = 'timer_service'
priority = 31
length = 256

[[mutex]]
name = 'm'

[[queue]]
name = 'q'
length = 1

[[group]]
name = 'f'

[[group]]
name = 'g'

[[handler]]
name = 'h'
ops = ['set g 16777215', '  clear  f 0000000001 ', 'send q 5']

[[task]]
name = 'a'
priority = 1
script = ['set g 1', 'clear g 2']
";

/// A command to set these bits of a group, or to clear them.
fn command(group: GroupId, mask: u32, clear: bool) -> Command {
    Command { group, mask, clear }
}

/// Compares the daemon of an application, and its script.
fn has_daemon(rt: &impl Abort, app: &App, number: u8, name: &str, priority: u8, queue: u8) {
    let daemon = app.tasks().last().expect(rt, "a daemon");
    assert!(rt; app.daemon() == TaskId::new(number));
    assert!(rt; app.tasks().len() == number as usize + 1);
    assert!(rt; daemon.name() == name && daemon.priority() == priority);
    let queue = ObjectId::new(queue).expect(rt, "a queue");
    assert!(rt; app.commands() == queue);
    assert!(rt; daemon.ops() == [Op::NextCommand(queue), Op::Obey].as_slice());
}

#[test]
fn a_daemon_and_the_commands_to_it_are_loaded(rt: HostRuntime) {
    let app = loaded(&rt, rt.alloc(), DAEMON);
    let kinds = [
        ObjectKind::Queue(1),
        ObjectKind::Mutex,
        ObjectKind::Queue(256),
    ];
    has_objects(&rt, &app, &kinds);
    has_daemon(&rt, &app, 1, "timer_service", 31, 2);
    let f = GroupId { number: 0 };
    let g = GroupId { number: 1 };
    let isr_ops = [
        IsrOp::Command(command(g, 16_777_215, false)),
        IsrOp::Command(command(f, 1, true)),
        IsrOp::Do(ObjectId { number: 0 }, Access::Send(Value::Number(5))),
    ];
    has_isr_ops(&rt, &app, &isr_ops);
    has_ops(&rt, &app, &[Op::SetBits(g, 1), Op::ClearBits(g, 2)]);
}

#[test]
fn an_application_without_a_daemon(rt: HostRuntime) {
    let app = loaded(&rt, rt.alloc(), QUEUES);
    assert!(rt; app.daemon().is_none());
}

const TICKLESS: &str = "
tickless = true
limits = { ticks = 281474976710656, steps = 7 }

[[task]]
name = 'a'
priority = 1
script = ['delay 4294967295', 'delay_until 4294967295']
";

#[test]
fn an_application_that_is_tickless(rt: HostRuntime) {
    let app = loaded(&rt, rt.alloc(), TICKLESS);
    let limits = app.limits();
    assert!(rt; app.tickless());
    assert!(rt; limits.ticks == 281_474_976_710_656 && limits.steps == 7);
    let ops = [Op::Delay(4_294_967_295), Op::DelayUntil(4_294_967_295)];
    has_ops(&rt, &app, &ops);
}

const WITH_TICKS: &str = "
tickless = false

[[task]]
name = 'a'
priority = 1
script = []
";

#[test]
fn an_application_that_is_not_tickless(rt: HostRuntime) {
    for file in [WITH_TICKS, QUEUES] {
        let app = loaded(&rt, rt.alloc(), file);
        assert!(rt; !app.tickless() && app.limits().ticks == 1_000_000);
    }
}

#[test]
fn an_application_without_variables(rt: HostRuntime) {
    let app = loaded(&rt, rt.alloc(), QUEUES);
    assert!(rt; app.variables().is_empty());
}

#[test]
fn an_application_without_groups(rt: HostRuntime) {
    let app = loaded(&rt, rt.alloc(), QUEUES);
    assert!(rt; app.group_count() == 0);
}

// The first word of a point decides. A handler named `all` is like any other.
const POINTS: &str = "
[campaign]
points = [
    '0 h', '  00  h ', 'all h', '1000000 all', '0001000000 h', '0 all', 'all all', ' all   h', '5 h', '0 h',
    'all h from 2 to 5', ' all  all from 0 to 0001000000 ', 'all h from 7 to 7',
]

[[handler]]
name = 'h'
ops = []

[[handler]]
name = 'all'
ops = []

[[task]]
name = 'a'
priority = 1
script = ['work 2', 'mark 7']
";

#[test]
fn points_are_loaded(rt: HostRuntime) {
    let app = loaded(&rt, rt.alloc(), POINTS);
    let h = HandlerId { number: 0 };
    let all = HandlerId { number: 1 };
    let at = |step: u32, handler: HandlerId| PointEntry::One(Point::one(step, handler));
    let each = |handler: HandlerId, first: u32, last: u32| {
        PointEntry::Each(PointRange {
            handler,
            first,
            last,
        })
    };
    let points = [
        at(0, h),
        at(0, h),
        each(h, 0, 1_000_000),
        at(1_000_000, all),
        at(1_000_000, h),
        at(0, all),
        each(all, 0, 1_000_000),
        each(h, 0, 1_000_000),
        at(5, h),
        at(0, h),
        each(h, 2, 5),
        each(all, 0, 1_000_000),
        each(h, 7, 7),
    ];
    assert!(rt; app.points() == points.as_slice());
}

#[test]
fn an_application_without_points(rt: HostRuntime) {
    let app = loaded(&rt, rt.alloc(), QUEUES);
    assert!(rt; app.points().len() == 0);
}
