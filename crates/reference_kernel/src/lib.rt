//! The reference kernel: the kernel as its definitions describe it. It has a table of tasks, each with its ticket, and a table of
//! objects. Every query is a search of these tables. It is slow, but it states plainly what the list-based kernel must do.
#![tactic(auto)]

use calls::Side;
use model::{App, End, Event, Injection, Limits, Loop, Op, Phase, TaskId, What};
use notifications::{Notice, NoticeWait};
use shared::Object;
use sources::Source;
use std::alloc::Global;
use tally::count_if;
use values::receives;
use waits_for_bits::BitWait;

mod blocks;
mod calls;
mod daemon;
mod handlers;
mod idle;
mod misuses;
mod mutexes;
mod notifications;
mod scheduling;
mod sections;
mod shared;
mod sources;
mod suspension;
mod tally;
mod time;
mod values;
mod waits_for_bits;

pub use tally::Tally;

/// A wait in progress: its object and side, and the priority that the task had when the wait began.
#[derive(Clone, Copy)]
struct Wait {
    object: u8,
    side: Side,
    priority: u8,
    deadline: Option<u64>,
    ticket: u64,
}

#[derive(Clone, Copy)]
enum Status {
    /// In the ready list, with this ticket.
    Ready(u64),
    /// Woken from this wait while the object is locked. It becomes Ready when the object is unlocked.
    Awake(Wait),
    /// Sleeping, by `delay_until` (periodic) or by `delay`.
    Asleep {
        wake_time: u64,
        ticket: u64,
        is_periodic: bool,
    },
    Waiting(Wait),
    WaitingForBits(BitWait),
    WaitingForNotification(NoticeWait),
    /// In no list. If a `delay_until` was cut off, this is the time until which the task would have slept.
    Suspended(Option<u64>),
    Ended,
}

/// The progress of a call that may wait.
#[derive(Clone, Copy, Default)]
struct Call {
    phase: Phase,
    deadline: Option<u64>,
    /// Whether its last Decide phase began a wait.
    has_waited: bool,
    /// Whether its last wait was for a mutex held by another task of lower base priority.
    has_inherited: bool,
    /// The bits with which a set ended its wait.
    kept: Option<u32>,
}

#[derive(Clone, Copy)]
struct Task {
    base_priority: u8,
    priority: u8,
    op_index: u16,
    used: u32,
    loops: [Loop; 4],
    nesting: usize,
    answer: Option<u32>,
    /// Whether that is an item from a queue.
    has_received: bool,
    previous_wake: u64,
    stamp: u64,
    call: Call,
    status: Status,
}

#[derive(Drop)]
pub struct ReferenceKernel {
    tasks: [Task; 32],
    objects: Vec<Object>,
    /// Which bits of each event group are set.
    groups: [u32; 16],
    /// The notification of each task.
    notices: [Notice; 32],
    /// The value of each variable.
    variables: [u32; 32],
    time: u64,
    pub elapsed: u64,
    current: Option<TaskId>,
    /// Whether a call holds the scheduler.
    is_held: bool,
    /// The number of active `suspend_all`, and the ticks that have come since the first of them.
    suspensions: u32,
    held_ticks: u32,
    /// The number of open critical sections, and the interrupts that were injected meanwhile and are still pending.
    sections: u32,
    pending: [bool; 17],
    /// The rest of the state of each interrupt source: the handlers, and after them the tick.
    sources: [Source; 17],
    /// The object that a call has locked.
    locked: Option<u8>,
    next_ticket: u64,
    pub steps: u32,
    stopped: Option<End>,
    pub events: Vec<Event>,
    pub tally: Tally,
    pub is_out_of_memory: bool,
}

impl ReferenceKernel {
    /// The kernel at reset.
    pub fn boot(alloc: Global, app: &App) -> Self {
        let no_task = Task {
            base_priority: 0,
            priority: 0,
            op_index: 0,
            used: 0,
            loops: [Loop::default(); 4],
            nesting: 0,
            answer: None,
            has_received: false,
            previous_wake: app.start() as u64,
            stamp: app.start() as u64,
            call: Call::default(),
            status: Status::Ended,
        };
        let mut kernel = ReferenceKernel {
            tasks: [no_task; 32],
            objects: Vec::new(alloc),
            groups: [0; 16],
            notices: [Notice::default(); 32],
            variables: [0; 32],
            time: app.start() as u64,
            elapsed: 0,
            current: None,
            is_held: false,
            suspensions: 0,
            held_ticks: 0,
            sections: 0,
            pending: [false; 17],
            sources: [Source::default(); 17],
            locked: None,
            next_ticket: 0,
            steps: 0,
            stopped: None,
            events: Vec::new(alloc),
            tally: Tally::default(),
            is_out_of_memory: false,
        };
        kernel.make_objects(alloc, app);
        kernel.reset_variables(app);
        kernel.reset_sources(app);
        kernel.make_all_ready(app);
        kernel.current = kernel.choice();
        kernel
    }

    fn task(&self, task: TaskId) -> Task {
        self.tasks[task.number as usize]
    }

    fn set(&mut self, task: TaskId, now: Task) {
        self.tasks[task.number as usize] = now;
    }

    fn take_ticket(&mut self) -> u64 {
        self.next_ticket = self.next_ticket.wrapping_add(1);
        self.next_ticket
    }

    fn write(&mut self, what: What) {
        let event = Event {
            step: self.steps,
            tick: self.tick_now(),
            what,
        };
        self.is_out_of_memory |= self.events.push(event).is_err();
    }

    /// Stores the task's new state. The task continues at this op.
    fn go_to(&mut self, app: &App, id: TaskId, op_index: u16, task: Task) {
        let is_past = op_index as usize == app.op_count(id);
        let status = if is_past { Status::Ended } else { task.status };
        self.set(
            id,
            Task {
                op_index,
                used: 0,
                call: Call::default(),
                status,
                ..task
            },
        );
    }

    fn complete(&mut self, app: &App, id: TaskId, task: Task) {
        self.go_to(app, id, task.op_index.wrapping_add(1), task);
    }

    fn answer(&mut self, app: &App, id: TaskId, answer: Option<u32>) {
        let task = self.task(id);
        let what = match answer {
            Some(number) => What::Call(id, task.op_index, number),
            None => What::CallNone(id, task.op_index),
        };
        let has_received = answer.is_some() && receives(app.op(id, task.op_index));
        self.write(what);
        self.complete(
            app,
            id,
            Task {
                answer,
                has_received,
                ..task
            },
        );
    }

    /// A check fails. The first failed check of a step ends the run after that step.
    fn fail(&mut self, check: End) {
        let is_later = self.stopped.is_some();
        count_if(&mut self.tally.later_failures, is_later);
        if !is_later {
            self.stopped = Some(check);
        }
    }

    fn act(&mut self, app: &App, id: TaskId, op: Op) {
        match op {
            Op::Work(units) => self.work(app, id, units),
            Op::Delay(ticks) => self.delay(app, id, ticks),
            Op::DelayUntil(ticks) => self.delay_until(app, id, ticks),
            Op::Yield => {
                self.answer(app, id, Some(0));
                self.yield_now();
            }
            Op::Time => self.answer(app, id, Some(self.tick_now())),
            Op::Mark(value) => {
                let number = self.shown(value, self.task(id).answer);
                self.write(What::Mark(id, number));
                self.complete(app, id, self.task(id));
            }
            Op::Expect(condition) => self.expect(app, id, condition),
            Op::Repeat(turns) => self.open_loop(app, id, turns),
            Op::End => self.close_turn(app, id),
            Op::If(condition) => self.branch(app, id, condition),
            Op::Else => self.skip_other_branch(app, id),
            Op::EndIf => self.complete(app, id, self.task(id)),
            Op::Break => self.leave_loop(app, id),
            Op::Stamp => self.stamp(app, id),
            Op::Since => self.since(app, id),
            Op::Await(object, access, ticks) => {
                self.count_passed_on(id, object.number, access);
                let access = self.asked(access, self.task(id).answer);
                self.go_on_waiting(app, id, object.number, access, ticks);
            }
            Op::Do(object, access) => {
                self.count_passed_on(id, object.number, access);
                let access = self.asked(access, self.task(id).answer);
                self.act_at_once(app, id, object.number, access);
            }
            Op::GiveMutex(object) => self.give_back(app, id, object.number),
            Op::MessagesWaiting(object) => {
                let (items, _) = self.fill(object.number);
                self.answer(app, id, Some(items));
            }
            Op::SpacesAvailable(object) => {
                let (_, room) = self.fill(object.number);
                self.answer(app, id, Some(room));
            }
            Op::SetBits(group, mask) => self.set_bits(app, id, group, mask),
            Op::ClearBits(group, mask) => self.clear_bits(app, id, group, mask),
            Op::GetBits(group) => self.answer(app, id, Some(self.bits(group))),
            Op::WaitBits(group, condition, ticks) => {
                self.wait_for_bits(app, id, group, condition, ticks);
            }
            Op::Notify(other, action) => self.call_notify(app, id, other, action),
            Op::AwaitNotification(wait, ticks) => self.await_notice(app, id, wait, ticks),
            Op::ClearNotification(what) => self.clear_notice(app, id, what),
            Op::Suspend(other) => self.call_suspend(app, id, other),
            Op::Resume(other) => self.call_resume(app, id, other),
            Op::SuspendAll => self.suspend_all(app, id),
            Op::ResumeAll => self.resume_all(app, id),
            Op::EnterCritical => self.enter_critical(app, id),
            Op::ExitCritical => self.exit_critical(app, id),
            Op::Value(op) => self.work_with_values(app, id, op),
            Op::Source(handler, what) => self.act_on_source(app, id, handler, what),
            Op::NextCommand(queue) => self.next_command(app, id, queue.number),
            Op::Obey => self.obey(app, id),
        }
    }

    fn act_current(&mut self, app: &App, limits: &Limits) {
        match self.current {
            None => self.idle(app, limits),
            Some(id) => {
                if let Some(op) = app.op(id, self.task(id).op_index) {
                    self.act_unless_misuse(app, id, op);
                }
            }
        }
    }

    /// Does one step of a run with these limits. The interrupts of these injections come before it.
    pub fn step(&mut self, app: &App, limits: &Limits, injections: &[Injection]) {
        self.come_before_step(app, injections);
        self.act_current(app, limits);
        if self.may_switch() && self.current.is_some_and(|id| !self.is_ready(id)) {
            self.choose();
        }
        self.steps = self.steps.wrapping_add(1);
    }

    fn is_ended(&self, task: TaskId) -> bool {
        matches!(self.task(task).status, Status::Ended)
    }

    /// Whether the run waits for this task's end.
    fn is_awaited(app: &App, task: TaskId) -> bool {
        match app.tasks().get(task.number as usize) {
            None => false,
            Some(definition) => !definition.is_endless(),
        }
    }

    /// Whether every task that the run waits for has reached the end of its script. If there is no such task, no run passes.
    fn are_all_ended(&self, app: &App) -> bool {
        let mut is_any_awaited = false;
        for number in 0..32 {
            let task = TaskId { number };
            let is_awaited = Self::is_awaited(app, task);
            if is_awaited && !self.is_ended(task) {
                return false;
            }
            is_any_awaited |= is_awaited;
        }
        is_any_awaited
    }

    /// Whether an endless task of the file has not reached its end.
    pub fn is_any_endless_left(&self, app: &App) -> bool {
        for number in 0..32 {
            let task = TaskId { number };
            let is_daemon = app.daemon() == Some(task);
            if app.is_endless(task) && !is_daemon && !self.is_ended(task) {
                return true;
            }
        }
        false
    }

    /// Whether the running task is in the middle of a call: its next phase is Decide, Place, Unlock or Leave.
    pub fn is_inside_call(&self) -> bool {
        let phase = match self.current {
            None => Phase::Start,
            Some(task) => self.task(task).call.phase,
        };
        !matches!(phase, Phase::Start | Phase::Try)
    }

    pub fn is_locked(&self) -> bool {
        self.locked.is_some()
    }

    fn is_stuck(&self, app: &App) -> bool {
        self.current.is_none() && !self.will_any_wake() && !self.is_interrupt_to_come(app)
    }

    /// Returns how the run ends before its next step, or `None` if it continues.
    pub fn end(&self, app: &App, limits: &Limits) -> Option<End> {
        if self.stopped.is_some() {
            self.stopped
        } else if self.are_all_ended(app) {
            Some(End::Pass)
        } else if self.elapsed >= limits.ticks {
            Some(End::Ticks)
        } else if self.steps >= limits.steps {
            Some(End::Steps)
        } else if self.is_stuck(app) {
            Some(End::Stuck)
        } else {
            None
        }
    }
}
