//! An application: its objects, its event groups, its variables, its handlers and base interrupts, its tasks, its limits, the time at reset,
//! and the points of its campaign.
ghost use Rattle.std.specs.Prelude.{◌≡◌, ◌<◌, ◌≤◌, true, not, [], length, map, nat_lt};
ghost use Rattle.std.specs.List.{list_any};
ghost use Rattle.model.specs.Application as application;
ghost use Rattle.model.specs.Application.{commands_of, interrupts_at, is_any_awaited, is_endless, op_at, op_count, ops_of, script_of};
ghost use Rattle.model.specs.Blocks.{jump_from};
ghost use Rattle.model.specs.Handlers.{apart_of, is_tick};
ghost use Rattle.model.specs.Words.{name_of, handler_name_of, handler_named, source_name_of, source_named, isr_op_at};
ghost use Rattle.model.specs.Coming.{AreComing};
ghost use Rattle.model.specs.Scripts.{IsWellFormed, most_ops};

use crate::definition::{HandlerDefinition, TaskDefinition};
use crate::ids::{HandlerId, ObjectId, TaskId};
use crate::interrupts::{BaseInterrupts, Interrupt};
use crate::limits::Limits;
use crate::object::ObjectKind;
use crate::op::{IsrOp, Op};
use crate::plan::PointEntry;
use std::marker::Model;

// Whether some task is endless.
fn is_any_endless(tasks: &[TaskDefinition]) -> bool
    ensures { result ≡ list_any (λ (d : application.Definition). d.endless) tasks.now }
{
    for task in tasks {
        if task.is_endless() {
            return true;
        }
    }
    false
}

// Whether some task is not endless.
fn is_any_awaited(tasks: &[TaskDefinition]) -> bool
    ensures { result ≡ list_any (λ (d : application.Definition). not d.endless) tasks.now }
{
    for task in tasks {
        if !task.is_endless() {
            return true;
        }
    }
    false
}

// The first task that is not endless; if each is, the first.
fn first_awaited(tasks: &[TaskDefinition]) -> TaskId {
    for number in 0..32 {
        if let Some(task) = tasks.get(number as usize) {
            if !task.is_endless() {
                return TaskId { number };
            }
        }
    }
    TaskId { number: 0 }
}

/// An application: what a run starts from, and the points of its campaign, which no run depends on. It has 1 to 32
/// tasks, and at most 32 objects, 16 event groups, 32 variables, 16 handlers, 1,024 base interrupts, 4 of them at one tick, and
/// 1,000,000 entries of points (profile).
#[derive(Drop)]
pub struct App {
    start: u32,
    tickless: bool,
    limits: Limits,
    objects: Vec<ObjectKind>,
    group_count: u8,
    variables: Vec<u32>,
    handlers: Vec<HandlerDefinition>,
    interrupts: BaseInterrupts,
    tasks: Vec<TaskDefinition>,
    daemon: Option<TaskId>,
    points: Vec<PointEntry>,
    // whether some task is endless, and whether some is not
    has_endless: bool,
    has_awaited: bool,
    // the first that is not
    first_awaited: TaskId,
}

impl Model for App {
    ghost use Rattle.std.specs.Prelude.{◌≡◌, not};
    ghost use Rattle.std.specs.List.{list_any};
    ghost use Rattle.model.specs.Application.{Application, Definition};
    ghost use Rattle.model.specs.Scripts.{IsWellFormed};

    ghost Value = { Application };

    ghost view = { λ a. record {
      start = a.start;
      tickless = a.tickless;
      limits = a.limits;
      objects = a.objects.items;
      group_count = a.group_count;
      variables = a.variables.items;
      handlers = a.handlers.items;
      interrupts = a.interrupts;
      tasks = a.tasks.items;
      daemon = a.daemon;
      points = a.points.items;
    } };

    ghost invariant = { λ a. IsWellFormed (record {
      start = a.start;
      tickless = a.tickless;
      limits = a.limits;
      objects = a.objects.items;
      group_count = a.group_count;
      variables = a.variables.items;
      handlers = a.handlers.items;
      interrupts = a.interrupts;
      tasks = a.tasks.items;
      daemon = a.daemon;
      points = a.points.items;
    }) × (a.has_endless ≡ list_any (λ (d : Definition). d.endless) a.tasks.items)
        × (a.has_awaited ≡ list_any (λ (d : Definition). not d.endless) a.tasks.items) };
}

impl App {
    /// The most objects, of all kinds together (profile).
    pub const MOST_OBJECTS: usize = 32;

    /// The most event groups (profile).
    pub const MOST_GROUPS: usize = 16;

    /// The most variables (profile).
    pub const MOST_VARIABLES: usize = 32;

    /// The most handlers (profile).
    pub const MOST_HANDLERS: usize = 16;

    /// The most base interrupts (profile).
    pub const MOST_INTERRUPTS: usize = 1024;

    /// The most base interrupts at one elapsed tick (profile).
    pub const MOST_AT_ONCE: usize = 4;

    /// The most entries of points, and the most points that they mean (profile).
    pub const MOST_POINTS: usize = 1_000_000;

    /// An application of these objects, this many event groups, variables that are these at reset, these handlers, base interrupts and tasks, whose time at reset
    /// is `start`, and whose campaign has these points. The daemon, if there is one, is the last task, and its queue the last object.
    /// They are well formed together: each is within the limits, and each op speaks of what is there and allows it.
    pub fn new(
        start: u32,
        tickless: bool,
        limits: Limits,
        objects: Vec<ObjectKind>,
        group_count: u8,
        variables: Vec<u32>,
        handlers: Vec<HandlerDefinition>,
        interrupts: BaseInterrupts,
        tasks: Vec<TaskDefinition>,
        daemon: Option<TaskId>,
        points: Vec<PointEntry>,
    ) -> Self
        requires { IsWellFormed (record {
          start = start;
          tickless = tickless;
          limits = limits;
          objects = objects.items;
          group_count = group_count;
          variables = variables.items;
          handlers = handlers.items;
          interrupts = interrupts;
          tasks = tasks.items;
          daemon = daemon;
          points = points.items;
        }) }
        ensures { result ≡ record {
          start = start;
          tickless = tickless;
          limits = limits;
          objects = objects.items;
          group_count = group_count;
          variables = variables.items;
          handlers = handlers.items;
          interrupts = interrupts;
          tasks = tasks.items;
          daemon = daemon;
          points = points.items;
        } }
    {
        let has_endless = is_any_endless(tasks.as_slice());
        let has_awaited = is_any_awaited(tasks.as_slice());
        let first_awaited = first_awaited(tasks.as_slice());
        App {
            start,
            tickless,
            limits,
            objects,
            group_count,
            variables,
            handlers,
            interrupts,
            tasks,
            daemon,
            points,
            has_endless,
            has_awaited,
            first_awaited,
        }
    }

    /// Does nothing: its contract says what holds of every application.
    pub fn well_formed(&self)
        ensures { IsWellFormed self.now }
    {
        let _ = &self.start;
    }

    /// The time at reset.
    pub fn start(&self) -> u32
        ensures { result ≡ self.now.start }
    {
        self.start
    }

    /// Whether idle lets several ticks pass in a step (`configUSE_TICKLESS_IDLE`).
    #[inline]
    pub fn tickless(&self) -> bool
        ensures { result ≡ self.now.tickless }
    {
        self.tickless
    }

    /// When a run ends at the latest.
    pub fn limits(&self) -> Limits
        ensures { result ≡ self.now.limits }
    {
        self.limits
    }

    /// The objects by their numbers: queues, then binary semaphores, counting ones and mutexes, those of a kind in the order of
    /// the file.
    pub fn objects(&self) -> &[ObjectKind]
        ensures { result.now ≡ self.now.objects }
    {
        self.objects.as_slice()
    }

    /// How many event groups there are, 0 to 16.
    pub fn group_count(&self) -> u8
        ensures { result ≡ self.now.group_count }
    {
        self.group_count
    }

    /// What each variable is at reset, in the order of the file.
    pub fn variables(&self) -> &[u32]
        ensures { result.now ≡ self.now.variables }
    {
        self.variables.as_slice()
    }

    /// The handlers, in the order of the file.
    pub fn handlers(&self) -> &[HandlerDefinition]
        ensures { result.now ≡ self.now.handlers }
    {
        self.handlers.as_slice()
    }

    /// The base interrupts, in the order of the file.
    pub fn interrupts(&self) -> &[Interrupt]
        ensures { result.now ≡ self.now.interrupts }
    {
        self.interrupts.listed()
    }

    /// The base interrupts in the order in which they come: that of their ticks, at one tick that of the file.
    pub fn coming(&self) -> &[Interrupt]
        ensures { AreComing self.now.interrupts result.now }
    {
        self.interrupts.coming()
    }

    /// Whether the base interrupt at the index `next`, in the order in which they come, shows that none comes at an elapsed
    /// tick. It does if it is the next after this tick.
    #[inline]
    pub fn is_none_due(&self, tick: u64, next: usize) -> bool
        ensures { result ≡ true → interrupts_at self.now tick ≡ [] }
    {
        self.interrupts.is_none_due(tick, next)
    }

    /// The base interrupts at an elapsed tick, in the order of the file, and how many come up to this tick. The first of them
    /// is at the index `taken` in the order in which they come; if it isn't, it is found by bisection.
    #[inline]
    pub fn interrupts_at(&self, tick: u64, taken: usize) -> (&[Interrupt], usize)
        ensures due { map (λ (i : application.Interrupt). i.handler) result.0.now ≡ interrupts_at self.now tick }
        ensures few { result.1 ≤ length self.now.interrupts }
    {
        self.interrupts.at(tick, taken)
    }

    /// Whether a base interrupt comes after this elapsed tick.
    pub fn has_interrupt_after(&self, tick: u64) -> bool
        ensures { result ≡ list_any (λ (i : application.Interrupt). nat_lt tick i.tick) self.now.interrupts }
    {
        self.interrupts.has_after(tick)
    }

    /// The tasks, in the order of the file; the daemon is the last.
    pub fn tasks(&self) -> &[TaskDefinition]
        ensures { result.now ≡ self.now.tasks }
    {
        self.tasks.as_slice()
    }

    /// The daemon: the task that sets and clears event bits for handlers.
    pub fn daemon(&self) -> Option<TaskId>
        ensures { result ≡ self.now.daemon }
    {
        self.daemon
    }

    /// The daemon's queue, if there is a daemon: the last object.
    pub fn commands(&self) -> ObjectId
        ensures { result ≡ commands_of self.now }
    {
        ObjectId {
            number: self.objects.len().saturating_sub(1) as u8,
        }
    }

    /// Whether some task is endless.
    #[inline]
    pub fn has_endless(&self) -> bool
        ensures { result ≡ list_any (λ (d : application.Definition). d.endless) self.now.tasks }
    {
        self.has_endless
    }

    /// Whether a run waits for the end of some task.
    #[inline]
    pub fn is_any_awaited(&self) -> bool
        ensures { result ≡ is_any_awaited self.now }
    {
        self.has_awaited
    }

    /// The first task that isn't endless. No contract says so: whoever goes by it asks `is_endless` of it.
    #[inline]
    pub fn first_awaited(&self) -> TaskId {
        self.first_awaited
    }

    /// Whether no run waits for the end of this task; `false` if there is no such task.
    pub fn is_endless(&self, task: TaskId) -> bool
        ensures { result ≡ is_endless self.now task }
    {
        match self.tasks.get(task.number as usize) {
            None => false,
            Some(definition) => definition.is_endless(),
        }
    }

    /// The points of its campaign, in the order of the file.
    pub fn points(&self) -> &[PointEntry]
        ensures { result.now ≡ self.now.points }
    {
        self.points.as_slice()
    }

    /// The op of this index in a task's script; `None` past its end, or if there is no such task.
    pub fn op(&self, task: TaskId, op_index: u16) -> Option<Op>
        ensures { result ≡ op_at self.now task op_index }
    {
        let definition = self.tasks.get(task.number as usize)?;
        definition.ops().get(op_index as usize).copied()
    }

    /// The index of the op that is next if the op of this index of a task's script jumps.
    #[inline]
    pub fn jump_from(&self, task: TaskId, op_index: u16) -> u16
        requires { op_index < most_ops }
        ensures { result ≡ jump_from (script_of self.now task) op_index }
    {
        match self.tasks.get(task.number as usize) {
            None => op_index + 1,
            Some(definition) => definition.script.jump_from(op_index),
        }
    }

    /// How many ops the script of a task has; 0 if there is no such task.
    pub fn op_count(&self, task: TaskId) -> usize
        ensures { result ≡ op_count self.now task }
    {
        match self.tasks.get(task.number as usize) {
            None => 0,
            Some(definition) => definition.ops().len(),
        }
    }

    /// The name of a task; empty if there is no such task.
    pub fn name(&self, task: TaskId) -> &str
        ensures { result.now ≡ name_of self.now task }
    {
        match self.tasks.get(task.number as usize) {
            None => "",
            Some(definition) => definition.name(),
        }
    }

    /// Whether an interrupt source is the tick: its number comes after those of the handlers.
    #[inline(always)]
    pub fn is_tick(&self, source: HandlerId) -> bool
        ensures { result ≡ is_tick self.now source }
    {
        source.number as usize == self.handlers.len()
    }

    /// The ops of a handler; none if there is no such handler.
    pub fn handler_ops(&self, handler: HandlerId) -> &[IsrOp]
        ensures { result.now ≡ ops_of self.now handler }
    {
        match self.handlers.get(handler.number as usize) {
            None => &[],
            Some(definition) => definition.ops(),
        }
    }

    /// How many elapsed ticks a handler comes after its last coming at least, if it is injected: 0 to 1,000,000; 0 if there is no such
    /// handler, or if it is the tick.
    pub fn apart(&self, handler: HandlerId) -> u32
        ensures { result ≡ apart_of self.now handler }
    {
        match self.handlers.get(handler.number as usize) {
            None => 0,
            Some(definition) => definition.apart(),
        }
    }

    /// The op of this index of a handler; `None` past its end, or if there is no such handler.
    pub fn isr_op(&self, handler: HandlerId, op_index: u16) -> Option<IsrOp>
        ensures { result ≡ isr_op_at self.now handler op_index }
    {
        let definition = self.handlers.get(handler.number as usize)?;
        definition.ops().get(op_index as usize).copied()
    }

    /// The name of a handler; empty if there is no such handler.
    pub fn handler_name(&self, handler: HandlerId) -> &str
        ensures { result.now ≡ handler_name_of self.now handler }
    {
        match self.handlers.get(handler.number as usize) {
            None => "",
            Some(definition) => definition.name(),
        }
    }

    /// The name of an interrupt that can be injected: of a handler, or of the tick; empty if there is none of this number.
    pub fn source_name(&self, source: HandlerId) -> &str
        ensures { result.now ≡ source_name_of self.now source }
    {
        if self.is_tick(source) {
            "tick"
        } else {
            self.handler_name(source)
        }
    }

    /// The interrupt of this name: the first handler that has it, or else the tick, whose name is `tick`; `None` if it is neither.
    pub fn source_named(&self, name: &str) -> Option<HandlerId>
        ensures { result ≡ source_named self.now name.now }
    {
        if let Some(handler) = self.handler_named(name) {
            return Some(handler);
        }
        if name == "tick" {
            return HandlerId::new(self.handlers.len() as u8);
        }
        None
    }

    /// The first handler of this name; `None` if none has it.
    pub fn handler_named(&self, name: &str) -> Option<HandlerId>
        ensures { result ≡ handler_named self.now name.now }
    {
        for (index, handler) in self.handlers.iter().enumerate() {
            if handler.name() == name {
                return HandlerId::new(index as u8);
            }
        }
        None
    }
}
