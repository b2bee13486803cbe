//! Small applications, each from a seed.
#![tactic(auto)]

ghost use Rattle.std.specs.Prelude.{◌+◌, ◌<◌, ◌≤◌, ◌≡◌, true, IfSome, length};
ghost use Rattle.std.specs.List.{AllByRecursion};
ghost use Rattle.model.specs.Application.{Definition};
ghost use Rattle.model.specs.Scripts.{InRange, IsScript, IsDefinition, is_wait};
ghost use Rattle.random_apps.specs.Known.{AreKnown, IsKnown};

use blocks::close;
use daemon::daemon_of;
use model::{
    App, BaseInterrupts, Limits, ObjectId, ObjectKind, Op, Script, ScriptBuilder, TaskDefinition,
    TaskId,
};
use std::alloc::Global;

mod blocks;
mod calls;
mod daemon;
mod devices;
mod handler_ops;
mod handlers;
mod kinds;
mod notifications;
mod ops;
mod sections;
mod values;

/// Pseudorandom numbers from a seed.
#[derive(Drop)]
pub struct Dice {
    state: u32,
    theme: Theme,
    /// The number of objects of the file: all but the daemon's queue, which is the last one.
    file_objects: u8,
    /// What the calls of the present task or handler do.
    role: Role,
    /// Whether the present task sleeps first. Its priority is then that of the tasks that don't, or higher.
    is_late: bool,
    /// Which objects are mutexes that the present script has locked and not given back yet.
    held: [bool; 4],
    /// How often the present script has suspended the scheduler and not resumed it yet.
    suspensions: u8,
    /// How many critical sections the present script has opened and not closed yet.
    sections: u8,
    /// Whether the present script or handler has an op that gives it a last answer.
    has_answer: bool,
    /// The number of the present task, and the other task that it last suspended and has not resumed yet.
    present: u8,
    suspended: Option<TaskId>,
    /// Whether tasks sometimes sleep and wait for long. They may if idle lets all of these ticks pass in one step.
    sleeps_long: bool,
    /// Which of the four tasks are endless.
    endless: [bool; 4],
}

/// What the tasks of an application do most of the time.
#[derive(Clone, Copy, PartialEq, Eq)]
enum Theme {
    Any,
    /// They crowd around one or two queues or semaphores, and do little but wait there.
    Crowd,
    /// They contend for mutexes. Those of low priority come first, and work while they hold them.
    Contest,
    /// They wait for bits of event groups, and set them.
    Gathering,
    /// They suspend and resume each other, and the scheduler.
    Suspension,
    /// They act on the last answer: their scripts have branches, and loops with a `break`. Handlers do the same. The tasks also
    /// measure time.
    Decision,
    /// They open and close critical sections, and call on objects in between.
    Section,
    /// They notify each other, and wait for notifications. Handlers notify them.
    Signal,
    /// They load and store variables, calculate, and pass on the last answer. Handlers do the same.
    Calculation,
    /// They arm, disarm, raise and cancel handlers. Handlers do the same. Some handlers are disarmed at reset, or come only so many
    /// ticks apart.
    Device,
}

/// What calls do.
#[derive(Clone, Copy, PartialEq, Eq)]
enum Role {
    Any,
    /// They send to queues, give semaphores, set bits and notify.
    Sends,
    /// They receive from queues, take semaphores, and wait for bits and for notifications.
    Receives,
}

/// Appends the op to a script, if the condition holds.
fn push_if(script: &mut ScriptBuilder, objects: &[ObjectKind], op: Op, is_so: bool)
    requires range { InRange op }
    requires is_known { IsKnown objects.now op }
    requires few { length script.old ≤ 250 }
    requires known { AreKnown objects.now script.old }
    ensures few { length script.new ≤ length script.old + 1 }
    ensures known { AreKnown objects.now script.new }
{
    let _ = objects;
    if is_so {
        let _ = script.push(op);
    }
}

impl Dice {
    fn of_theme(seed: u32, theme: Theme) -> Self {
        Dice {
            state: seed,
            theme,
            file_objects: 0,
            role: Role::Any,
            is_late: false,
            held: [false; 4],
            suspensions: 0,
            sections: 0,
            has_answer: false,
            present: 0,
            suspended: None,
            sleeps_long: false,
            endless: [false; 4],
        }
    }

    /// For applications of all sorts.
    pub fn new(seed: u32) -> Self {
        Dice::of_theme(seed, Theme::Any)
    }

    /// For applications whose tasks crowd around one or two queues or semaphores.
    pub fn crowding(seed: u32) -> Self {
        Dice::of_theme(seed, Theme::Crowd)
    }

    /// For applications whose tasks contend for mutexes.
    pub fn contending(seed: u32) -> Self {
        Dice::of_theme(seed, Theme::Contest)
    }

    /// For applications whose tasks wait for bits of event groups.
    pub fn gathering(seed: u32) -> Self {
        Dice::of_theme(seed, Theme::Gathering)
    }

    /// For applications whose tasks suspend and resume each other, and the scheduler.
    pub fn suspending(seed: u32) -> Self {
        Dice::of_theme(seed, Theme::Suspension)
    }

    /// For applications whose tasks and handlers act on the last answer.
    pub fn deciding(seed: u32) -> Self {
        Dice::of_theme(seed, Theme::Decision)
    }

    /// For applications whose tasks open and close critical sections.
    pub fn masking(seed: u32) -> Self {
        Dice::of_theme(seed, Theme::Section)
    }

    /// For applications whose tasks notify each other, and wait for notifications.
    pub fn signalling(seed: u32) -> Self {
        Dice::of_theme(seed, Theme::Signal)
    }

    /// For applications whose tasks and handlers calculate.
    pub fn calculating(seed: u32) -> Self {
        Dice::of_theme(seed, Theme::Calculation)
    }

    /// For applications whose tasks and handlers arm, disarm and raise handlers.
    pub fn raising(seed: u32) -> Self {
        Dice::of_theme(seed, Theme::Device)
    }

    /// A number below this one.
    pub fn roll(&mut self, sides: u32) -> u32
        requires { 0 < sides }
        ensures { result < sides }
    {
        self.state = self
            .state
            .wrapping_mul(1_664_525)
            .wrapping_add(1_013_904_223);
        (self.state >> 16) % sides
    }

    /// How long a task sleeps: fewer ticks than this, or sometimes for long, if tasks do that.
    fn ticks(&mut self, sides: u32) -> u32
        requires { 0 < sides }
    {
        if self.sleeps_long && self.roll(2) == 0 {
            self.long_ticks()
        } else {
            self.roll(sides)
        }
    }

    /// The same for a task that sleeps in periods, which are at least one tick.
    fn period(&mut self, sides: u32) -> u32
        requires { (0 < sides) × (sides < 4294967295) }
        ensures first { 1 ≤ result }
        ensures last { result ≤ 4294967295 }
    {
        if self.sleeps_long && self.roll(2) == 0 {
            self.long_ticks()
        } else {
            1 + self.roll(sides)
        }
    }

    /// Many ticks: about as many as until a base interrupt, millions, or nearly 2^32.
    fn long_ticks(&mut self) -> u32
        ensures first { 1 ≤ result }
        ensures last { result < 4294967295 }
    {
        match self.roll(4) {
            0..=1 => 100_000 * (1 + self.roll(8)) + self.roll(3),
            2 => 1_000_000 * (1 + self.roll(3)) + self.roll(3),
            _ => 4_294_967_294 - self.roll(6),
        }
    }

    /// How long a call waits: not at all, for some ticks, forever, or for longer than a run of few ticks lasts. If tasks sleep for
    /// long, some waits are as long.
    fn wait(&mut self) -> Option<u32>
        ensures { is_wait result ≡ true }
    {
        if self.sleeps_long && self.roll(3) == 0 {
            return Some(self.long_ticks());
        }
        let first = match self.theme {
            Theme::Any => 0,
            Theme::Crowd => 4,
            Theme::Contest | Theme::Gathering | Theme::Suspension | Theme::Signal => 2,
            Theme::Decision | Theme::Section | Theme::Calculation | Theme::Device => 1,
        };
        match first + self.roll(8 - first) {
            0..=1 => Some(0),
            2..=4 => Some(1 + self.roll(5)),
            5..=6 => None,
            _ => Some(4_294_967_294 - self.roll(3)),
        }
    }

    /// The first op of a late task: it sleeps, or suspends itself if tasks do that.
    #[tactic(auto, using(crate::proofs::Known::knows_task))]
    fn first_op(&mut self, objects: &[ObjectKind]) -> Op
        ensures range { InRange result }
        ensures known { IsKnown objects.now result }
    {
        let _ = objects;
        if self.theme == Theme::Suspension && self.roll(2) == 0 {
            return Op::Suspend(TaskId {
                number: self.present % 4,
            });
        }
        Op::Delay(1 + self.roll(3))
    }

    /// The op at this index.
    fn op_at(&mut self, index: u32, objects: &[ObjectKind]) -> Op
        ensures range { InRange result }
        ensures known { IsKnown objects.now result }
    {
        if index == 0 && self.is_late {
            return self.first_op(objects);
        }
        self.op(objects)
    }

    /// The op that gives back this mutex, if the script still holds it at its end.
    fn last_unlock(&self, objects: &[ObjectKind], number: u8) -> Option<Op>
        ensures range { IfSome result (λ op. InRange op) }
        ensures known { IfSome result (λ op. IsKnown objects.now op) }
    {
        let mutex = ObjectId::new(number)?;
        let kind = objects.get(mutex.number as usize).copied()?;
        let is_held = self.held.get(mutex.number as usize).copied()?;
        match kind {
            ObjectKind::Mutex if is_held => Some(Op::GiveMutex(mutex)),
            _ => None,
        }
    }

    /// Occasionally forgets one suspension of the scheduler, or one open critical section, of the present script.
    fn forget_hold(&mut self) {
        if self.suspensions > 0 && self.roll(12) == 0 {
            self.suspensions = self.suspensions.saturating_sub(1);
        }
        if self.sections > 0 && self.roll(12) == 0 {
            self.sections = self.sections.saturating_sub(1);
        }
    }

    /// Closes the critical sections that a script leaves open, and resumes the scheduler as often as the script has suspended it.
    fn end_holds(&self, script: &mut ScriptBuilder, objects: &[ObjectKind])
        requires few { length script.old ≤ 24 }
        requires known { AreKnown objects.now script.old }
        ensures few { length script.new ≤ 28 }
        ensures known { AreKnown objects.now script.new }
    {
        push_if(script, objects, Op::ExitCritical, self.sections > 0);
        push_if(script, objects, Op::ExitCritical, self.sections > 1);
        push_if(script, objects, Op::ResumeAll, self.suspensions > 0);
        push_if(script, objects, Op::ResumeAll, self.suspensions > 1);
    }

    /// Gives back the mutexes that a script still holds at its end.
    fn unlock_all(&self, script: &mut ScriptBuilder, objects: &[ObjectKind])
        requires few { length script.old ≤ 28 }
        requires known { AreKnown objects.now script.old }
        ensures few { length script.new ≤ 32 }
        ensures known { AreKnown objects.now script.new }
    {
        for number in 0..4_u8 {
            self.unlock_last(script, objects, number);
        }
    }

    /// Gives back the mutex of this number, if it is held.
    fn unlock_last(&self, script: &mut ScriptBuilder, objects: &[ObjectKind], number: u8)
        requires few { length script.old ≤ 31 }
        requires known { AreKnown objects.now script.old }
        ensures few { length script.new ≤ length script.old + 1 }
        ensures known { AreKnown objects.now script.new }
    {
        if let Some(op) = self.last_unlock(objects, number) {
            let _ = script.push(op);
        }
    }

    /// Up to eight ops; 24 if tasks act on the last answer; 16 if they open critical sections, notify, calculate or raise handlers.
    /// An op that isn't allowed in its place is left out. Then the script closes open sections, resumes a suspended scheduler,
    /// gives back held mutexes, and ends open branches and loops.
    fn script(&mut self, alloc: Global, objects: &[ObjectKind]) -> Option<Script>
        ensures script { IfSome result (λ script. IsScript script) }
        ensures known { IfSome result (λ script. AreKnown objects.now script) }
    {
        let mut script = ScriptBuilder::new(alloc);
        let length = self.op_count();
        self.held = [false; 4];
        self.suspensions = 0;
        self.sections = 0;
        self.has_answer = false;
        self.suspended = None;
        for index in 0..length {
            let _ = script.push(self.op_at(index, objects));
        }
        self.forget_hold();
        self.end_holds(&mut script, objects);
        self.unlock_all(&mut script, objects);
        close(&mut script, objects);
        match script.finish(alloc) {
            Ok(script) => Some(script),
            Err(_) => None,
        }
    }

    fn priority(&mut self) -> u8
        ensures { result < 4 }
    {
        match self.theme {
            Theme::Any | Theme::Decision | Theme::Section | Theme::Calculation | Theme::Device =>
                self.roll(3) as u8,
            Theme::Crowd | Theme::Gathering | Theme::Signal if self.is_late => 1
                + self.roll(2) as u8,
            Theme::Crowd | Theme::Gathering | Theme::Signal => 1,
            Theme::Contest | Theme::Suspension if self.is_late => 1 + self.roll(3) as u8,
            Theme::Contest | Theme::Suspension => self.roll(2) as u8,
        }
    }

    fn task(&mut self, alloc: Global, name: &str, objects: &[ObjectKind]) -> Option<TaskDefinition>
        requires { length name.now ≤ 16 }
        ensures task { IfSome result (λ task. IsDefinition task) }
        ensures known { IfSome result (λ task. AreKnown objects.now task.script) }
    {
        let priority = self.priority();
        let script = self.script(alloc, objects)?;
        let name = String::from_str(alloc, name).ok()?;
        Some(TaskDefinition::new(name, priority, self.is_endless(), script))
    }

    /// The roles of the first two tasks, and of the other two. If tasks crowd around queues and semaphores, wait for bits or notify
    /// each other, two of them send, give, set or notify. The other two receive, take or wait.
    fn roles(&mut self) -> (Role, Role) {
        let is_divided = matches!(self.theme, Theme::Crowd | Theme::Gathering | Theme::Signal);
        match self.roll(2) {
            _ if !is_divided => (Role::Any, Role::Any),
            0 => (Role::Sends, Role::Receives),
            _ => (Role::Receives, Role::Sends),
        }
    }

    /// Adds a task of this name.
    fn add_task(
        &mut self,
        tasks: &mut Vec<TaskDefinition>,
        alloc: Global,
        name: &str,
        objects: &[ObjectKind],
    ) -> Option<()>
        requires { length name.now ≤ 16 }
        ensures one { IfSome result (λ _. length tasks.new.items ≡ length tasks.old.items + 1) }
        ensures tasks { IfSome result (λ _.
            AllByRecursion IsDefinition tasks.old.items → AllByRecursion IsDefinition tasks.new.items) }
        ensures known { IfSome result (λ _.
            AllByRecursion (λ (d : Definition). AreKnown objects.now d.script) tasks.old.items
            → AllByRecursion (λ (d : Definition). AreKnown objects.now d.script) tasks.new.items) }
    {
        let task = self.task(alloc, name, objects)?;
        tasks.push(task).ok()
    }

    /// Four tasks of priorities 0 to 3.
    fn tasks(&mut self, alloc: Global, objects: &[ObjectKind]) -> Option<Vec<TaskDefinition>>
        ensures four { IfSome result (λ tasks. length tasks.items ≡ 4) }
        ensures tasks { IfSome result (λ tasks. AllByRecursion IsDefinition tasks.items) }
        ensures known { IfSome result (λ tasks.
            AllByRecursion (λ (d : Definition). AreKnown objects.now d.script) tasks.items) }
    {
        let mut tasks = Vec::new(alloc);
        let (early, late) = self.roles();
        self.role = early;
        self.add_task(&mut tasks, alloc, "a", objects)?;
        self.is_late = self.theme == Theme::Contest;
        self.present = 1;
        self.add_task(&mut tasks, alloc, "b", objects)?;
        self.role = late;
        self.is_late = !matches!(
            self.theme,
            Theme::Any | Theme::Decision | Theme::Section | Theme::Calculation | Theme::Device
        );
        self.present = 2;
        self.add_task(&mut tasks, alloc, "c", objects)?;
        self.present = 3;
        self.add_task(&mut tasks, alloc, "d", objects)?;
        Some(tasks)
    }

    /// The limits of a run of the application. If tasks sleep for long, the tick limit varies: it is small, near a base interrupt,
    /// in the millions, past the wrap of the tick, or close to the greatest one.
    fn limits(&mut self) -> Option<Limits> {
        let ticks = match self.roll(5) {
            1 if self.sleeps_long => 100_000 * (1 + self.roll(9) as u64) + self.roll(4) as u64,
            2 if self.sleeps_long => 1_000_000 * (1 + self.roll(8) as u64) + self.roll(4) as u64,
            3 if self.sleeps_long => 4_294_967_290 * (1 + self.roll(3) as u64)
                + self.roll(12) as u64,
            4 if self.sleeps_long => Limits::MOST_TICKS - self.roll(4) as u64,
            _ => 10 + self.roll(50) as u64,
        };
        Limits::new(ticks, 20 + self.roll(300))
    }

    /// Makes an application with four tasks, three handlers, two event groups, and at least four variables. It has up to four
    /// objects and up to four base interrupts, and starts shortly before the tick wraps. Half of the applications have a daemon.
    /// Half are tickless, and in half of these tasks sleep for long. In some, a few tasks or all of them are endless. There are no
    /// points, as no run depends on them.
    pub fn app(&mut self, alloc: Global) -> Option<App> {
        let has_daemon = self.roll(2) == 0;
        let tickless = self.roll(2) == 0;
        self.sleeps_long = tickless && self.roll(2) == 0;
        self.endless = self.some_endless();
        let objects = self.all_objects(alloc, has_daemon)?;
        let variables = self.variables(alloc)?;
        let tasks = self.all_tasks(alloc, objects.as_slice(), has_daemon)?;
        let start = u32::MAX - self.roll(8);
        let limits = self.limits()?;
        let handlers = self.handlers(alloc, objects.as_slice(), has_daemon)?;
        let listed = self.interrupts(alloc)?;
        let interrupts = BaseInterrupts::new(alloc, listed.as_slice()).ok()?;
        let daemon = daemon_of(has_daemon);
        let points = Vec::new(alloc);
        Some(App::new(
            start, tickless, limits, objects, 2, variables, handlers, interrupts, tasks, daemon,
            points,
        ))
    }
}
