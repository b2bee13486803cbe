//! The clock: its tick, and its two lists of sleepers.
ghost use Rattle.std.specs.Prelude.{◌≡◌, ◌+◌, ◌-◌, ◌*◌, ◌^◌, ◌<◌, ◌≤◌, ◌%◌, [], min, true, false, length, IsTrue, ◌↔◌, Some, ◌≢◌, ℕ, Option, MatchOption, option_map};
ghost use Rattle.lists.specs.Lists.{insert_sorted, without, Each};
ghost use Rattle.model.specs.State.{State, Suspended, printed, status_at, wake_time_of, with_status};
ghost use Rattle.model.specs.Order.{tasks_of};
ghost use Rattle.model.specs.Switching as switching;
ghost use Rattle.model.specs.Switching.{holds_ticks};
ghost use Rattle.model.specs.Time as time;
ghost use Rattle.clock.specs.Timeline.{is_asleep, first_time, Advances, Jumps};
ghost use Rattle.clock.specs.StandsFor.{StandsFor, StandsBefore, before_held, at_next_tick, at_jump};

use crate::due::{Due, first_due, take_due};
use lists::ListId;
use model::TaskId;
use std::marker::Model;
use std::mem;
use task_lists::TaskLists;

/// A moment of a clock, in ticks without bound: the tick at the start, and one more for each tick that has advanced since (profile).
#[derive(Clone, Copy)]
pub struct Mark {
    pub moment: u64,
}

/// How many ticks are held, 0 to 2^62.
#[derive(Clone, Copy, PartialEq, Eq)]
struct HeldTicks {
    number: u64,
}

// Clauses see the number.
impl Model for HeldTicks {
    ghost use Rattle.std.specs.Prelude.{ℕ, ◌≤◌, ◌^◌};

    ghost Value = { ℕ };

    ghost view = { λ held. held.number };

    ghost invariant = { λ held. held.number ≤ 2 ^ 62 };

    ghost inverse = { λ number. record { number = number } };
}

impl HeldTicks {
    /// One more: there are less than 2^62.
    fn one_more(self) -> Self
        requires { self < 2 ^ 62 }
        ensures { result ≡ self + 1 }
    {
        HeldTicks {
            number: self.number + 1,
        }
    }

    /// One less: there is one.
    fn one_less(self) -> Self
        requires { 0 < self }
        ensures { result ≡ self - 1 }
    {
        HeldTicks {
            number: self.number - 1,
        }
    }
}

/// A tick of 32 bits with two lists of sleepers: those until a tick of this turn of the 32 bits,
/// and those until one of the next turn. The lists are swapped when the tick becomes 0.
///
/// These are FreeRTOS's tick count and its two delayed task lists, which are swapped at the wrap
/// too. Sleepers of one wake time wake in the order in which they began to sleep, as there.
#[derive(Drop)]
pub struct Clock {
    lists: TaskLists<2, 34>,
    age: u64,
    /// The ticks that have come and wait to be applied.
    held: HeldTicks,
    tick: u32,
    overflows: u32,
    current: ListId,
    overflow: ListId,
}

// Clauses see time without bound, and each sleeper with its wake time.
impl Model for Clock {
    ghost use Rattle.std.specs.Prelude.{◌+◌, ◌*◌, ◌^◌};
    ghost use Rattle.clock.specs.Timeline.{Timeline, timeline_of, IsClock};

    ghost Value = { Timeline };

    ghost view = { λ c. timeline_of c.lists c.age c.held (2 ^ 32 * c.overflows) c.tick
        c.current.number c.overflow.number };

    ghost invariant = { λ c. IsClock c.lists c.age (2 ^ 32 * c.overflows) c.tick
        c.current.number c.overflow.number };
}

impl Clock {
    /// A clock that shows the tick `start`, 0 to 4294967295; nobody sleeps, and no tick is held.
    pub fn new(start: u32) -> Self
        ensures now { result.now ≡ start }
        ensures age { result.age ≡ 0 }
        ensures held { result.held ≡ 0 }
        ensures nobody { result.delayed_list ≡ [] }
    {
        Clock {
            lists: TaskLists::new(),
            age: 0,
            held: HeldTicks { number: 0 },
            tick: start,
            overflows: 0,
            current: ListId { number: 0 },
            overflow: ListId { number: 1 },
        }
    }

    /// A copy. It takes no memory.
    pub fn copy(&self) -> Self
        ensures { result ≡ self.now }
    {
        Clock {
            lists: self.lists.copy(),
            age: self.age,
            held: self.held,
            tick: self.tick,
            overflows: self.overflows,
            current: self.current,
            overflow: self.overflow,
        }
    }

    /// Becomes a copy of the other, in place. It takes no memory.
    // Saving, restoring and copying share its body.
    #[inline(never)]
    pub fn set_from(&mut self, other: &Self)
        ensures { self.new ≡ other.now }
    {
        self.lists.set_from(&other.lists);
        self.age = other.age;
        self.held = other.held;
        self.tick = other.tick;
        self.overflows = other.overflows;
        self.current = other.current;
        self.overflow = other.overflow;
    }

    /// Whether the other clock shows the same time, holds as many ticks, and has the same sleepers.
    pub fn is_same(&self, other: &Self) -> bool
        ensures { result ≡ true → self.now ≡ other.now }
    {
        self.tick == other.tick
            && self.overflows == other.overflows
            && self.age == other.age
            && self.held == other.held
            && self.current == other.current
            && self.overflow == other.overflow
            && self.lists.is_same(&other.lists)
    }

    /// The time in ticks, without bound: the tick at the start, and one more for each tick that has advanced since.
    pub fn now(&self) -> u64
        ensures now { result ≡ self.now.now }
    {
        self.overflows as u64 * (1 << 32) + self.tick as u64
    }

    /// The moment that is now, to count from.
    pub fn mark(&self) -> Mark
        ensures mark { result.moment ≡ self.now.now }
    {
        Mark { moment: self.now() }
    }

    /// The ticks since a mark of this clock, however many. Held ticks haven't advanced, so they don't count. The mark is not
    /// after now.
    pub fn lag(&self, mark: Mark) -> u64
        requires { mark.moment ≤ self.now.now }
        ensures lag { result ≡ self.now.now - mark.moment }
    {
        self.now() - mark.moment
    }

    /// The ticks since a mark of this clock, or 4294967295 if there are more (profile). Held ticks haven't advanced, so they don't
    /// count. The mark is not after now.
    pub fn elapsed_since(&self, mark: Mark) -> u32
        requires { mark.moment ≤ self.now.now }
        ensures elapsed { result ≡ min (self.now.now - mark.moment) 4294967295 }
    {
        let elapsed = self.lag(mark);
        if elapsed < u32::MAX as u64 {
            elapsed as u32
        } else {
            u32::MAX
        }
    }

    /// The tick that is shown, 0 to 4294967295: the time modulo 2^32, as FreeRTOS's `xTaskGetTickCount` returns it.
    pub fn tick(&self) -> u32
        ensures tick { result ≡ self.now.now % 2 ^ 32 }
    {
        self.tick
    }

    /// The ticks since `new`, without those that are held.
    pub fn age(&self) -> u64
        ensures age { result ≡ self.now.age }
    {
        self.age
    }

    /// The ticks that have come and wait to be applied (`xPendedTicks`).
    pub fn held(&self) -> u64
        ensures held { result ≡ self.now.held }
    {
        self.held.number
    }

    /// Holds a tick that comes while a call or a `suspend_all` holds the scheduler: it waits to be applied, and the time stays
    /// (`xTaskIncrementTick`). Before the call less than 2^62 ticks are held.
    pub fn hold_tick(&mut self)
        requires { self.old.held < 2 ^ 62 }
        ensures held { self.new ≡ record self.old { held = self.old.held + 1 } }
        // In the definitions this tick has come if ticks are held,
        ensures stands { (s : State) → StandsFor self.old s → holds_ticks s ≡ true
            → StandsFor self.new (time.increment_tick s) }
        // also while a task is still to be placed.
        ensures placing { (s : State) (task : ℕ) (deadline : Option ℕ)
            → StandsBefore task deadline self.old s → holds_ticks s ≡ true
            → StandsBefore task deadline self.new (time.increment_tick s) }
    {
        let held = self.held.one_more();
        self.held = held;
    }

    /// Gives back one of the held ticks, of which there is one, as if it hadn't come: `advance` then applies it
    /// (`xTaskResumeAll`).
    pub fn release(&mut self)
        requires { 0 < self.old.held }
        ensures released { self.new ≡ record self.old { held = self.old.held - 1 } }
        // In the definitions the last of them hasn't come.
        ensures stands { (s : State) → StandsFor self.old s → StandsFor self.new (before_held s) }
    {
        let held = self.held.one_less();
        self.held = held;
    }

    /// The ticks since `new`, with those that are held (`hold_tick`).
    pub fn elapsed(&self) -> u64
        ensures elapsed { result ≡ self.now.age + self.now.held }
        ensures stands { (s : State) → StandsFor self.now s → result ≡ s.elapsed }
        ensures countable { result ≤ 2 ^ 63 + 2 ^ 32 }
    {
        self.age + self.held.number
    }

    /// Whether nobody sleeps.
    pub fn is_quiet(&self) -> bool
        ensures quiet { IsTrue result ↔ (self.now.delayed_list ≡ []) }
    {
        self.lists.is_empty(self.current) && self.lists.is_empty(self.overflow)
    }

    /// Whether a task sleeps.
    pub fn is_asleep(&self, task: TaskId) -> bool
        ensures asleep { result ≡ is_asleep self.now task }
    {
        self.lists.contains(task)
    }

    /// The tick that is shown when a task's sleep ends; `None` if it doesn't sleep.
    pub fn wake_tick(&self, task: TaskId) -> Option<u32>
        // In the definitions it wakes by itself at this time, or doesn't.
        ensures stands { (s : State) → StandsFor self.now s
            → result ≡ option_map printed (wake_time_of (status_at s task)) }
    {
        if !self.is_asleep(task) {
            return None;
        }
        Some(self.lists.value(task))
    }

    /// Puts a task that isn't asleep (see `is_asleep`) to sleep for 1 to 4294967295 ticks. It wakes
    /// after those that already sleep until the same time.
    pub fn sleep(&mut self, task: TaskId, ticks: u32)
        requires some { 0 < ticks }
        requires awake { is_asleep self.old task ≡ false }
        ensures now { self.new.now ≡ self.old.now }
        ensures age { self.new.age ≡ self.old.age }
        ensures held { self.new.held ≡ self.old.held }
        ensures delayed { self.new.delayed_list
            ≡ insert_sorted (task, self.old.now + ticks) self.old.delayed_list }
        // For a task that is Ready, this is the definitions' `sleep`.
        ensures stands { (s : State) → StandsFor self.old s → task < length s.tasks
            → IsTrue (switching.is_ready s task)
            → StandsFor self.new (time.sleep task (s.time + ticks) s) }
        // For a task that waits until then already, it is put into its place.
        ensures placed { (s : State) → StandsBefore task (Some (self.old.now + ticks)) self.old s
            → StandsFor self.new s }
    {
        match self.tick.checked_add(ticks) {
            Some(wake_tick) => self
                .lists
                .insert_sorted_from_back(self.current, task, wake_tick),
            None => {
                let wake_tick = self.tick.wrapping_add(ticks);
                self.lists
                    .insert_sorted_from_back(self.overflow, task, wake_tick);
            }
        }
    }

    /// Ends the sleep of a task. One that does not sleep is left as it is.
    #[inline(always)]
    pub fn wake(&mut self, task: TaskId)
        ensures now { self.new.now ≡ self.old.now }
        ensures age { self.new.age ≡ self.old.age }
        ensures held { self.new.held ≡ self.old.held }
        ensures delayed { self.new.delayed_list ≡ without task self.old.delayed_list }
        // In the definitions it becomes Ready,
        ensures stands { (s : State) → StandsFor self.old s → task < length s.tasks
            → StandsFor self.new (switching.make_ready task s) }
        // or Suspended,
        ensures suspended { (s : State) → StandsFor self.old s → task < length s.tasks
            → StandsFor self.new (with_status task Suspended s) }
        // and it is Ready also while another is still to be placed.
        ensures placing { (s : State) (other : ℕ) (deadline : Option ℕ)
            → StandsBefore other deadline self.old s → other ≢ task → task < length s.tasks
            → StandsBefore other deadline self.new (switching.make_ready task s) }
    {
        self.lists.remove(task);
    }

    /// Lets one tick pass, and ends the sleep of the tasks whose wake time has come. It returns them in the order in which they
    /// began to sleep. Before the call the age is below 2^62 ticks.
    pub fn advance(&mut self) -> Due
        requires { self.old.age < 2 ^ 62 }
        ensures advances { Advances self.old self.new result.items }
        // They are those whom the definitions have due then.
        ensures due { (s : State) → StandsFor self.old s
            → result.items ≡ tasks_of (time.due (at_next_tick s)) }
        // Once they are Ready too, the tick has come, if ticks aren't held.
        ensures woken { (s : State) → StandsFor self.old s → holds_ticks s ≡ false
            → StandsFor self.new (time.increment_tick s) }
    {
        let mut due = Due::new();
        self.advance_into(&mut due);
        due
    }

    /// As `advance`, but writes the tasks into the list `due`, in place of what it has.
    pub fn advance_into(&mut self, due: &mut Due)
        requires { self.old.age < 2 ^ 62 }
        ensures advances { Advances self.old self.new due.new.items }
        ensures due { (s : State) → StandsFor self.old s
            → due.new.items ≡ tasks_of (time.due (at_next_tick s)) }
        ensures woken { (s : State) → StandsFor self.old s → holds_ticks s ≡ false
            → StandsFor self.new (time.increment_tick s) }
    {
        due.clear();
        self.age += 1;
        if self.tick == u32::MAX {
            self.tick = 0;
            self.overflows += 1;
            mem::swap(&mut self.current, &mut self.overflow);
        } else {
            self.tick += 1;
        }
        take_due(&mut self.lists, self.current, self.tick, due);
    }

    /// Lets one tick pass if nobody's sleep ends with it, and returns whether that is so; otherwise nothing changes. It makes no
    /// list. Before the call the age is below 2^62 ticks.
    // Most steps are ticks, and a call would cost a tenth of one.
    #[inline(always)]
    pub fn advance_if_none_due(&mut self) -> bool
        requires { self.old.age < 2 ^ 62 }
        ensures none { IsTrue result
            ↔ Each (λ e. self.old.now + 1 < e.1) self.old.delayed_list }
        ensures advances { result ≡ true → Advances self.old self.new [] }
        ensures kept { result ≡ false → self.new ≡ self.old }
        // In the definitions nobody is due then either, and the tick has come.
        ensures due { (s : State) → result ≡ true → StandsFor self.old s
            → [] ≡ tasks_of (time.due (at_next_tick s)) }
        ensures woken { (s : State) → result ≡ true → StandsFor self.old s → holds_ticks s ≡ false
            → StandsFor self.new (time.increment_tick s) }
    {
        if self.tick == u32::MAX {
            if first_due(&self.lists, self.overflow, 0).is_some() {
                return false;
            }
            self.age += 1;
            self.tick = 0;
            self.overflows += 1;
            mem::swap(&mut self.current, &mut self.overflow);
        } else {
            if first_due(&self.lists, self.current, self.tick + 1).is_some() {
                return false;
            }
            self.age += 1;
            self.tick += 1;
        }
        true
    }

    /// The most ticks that can pass, one after another, so that nobody's sleep ends and the tick that is shown doesn't become
    /// 0.
    pub fn quiet_ticks(&self) -> u32
        ensures asleep { Each (λ e. self.now.now + result < e.1) self.now.delayed_list }
        ensures turn { self.now.now % 2 ^ 32 + result < 2 ^ 32 }
        ensures most { (n : ℕ) → Each (λ e. self.now.now + n < e.1) self.now.delayed_list
            → self.now.now % 2 ^ 32 + n < 2 ^ 32 → n ≤ result }
    {
        match self.lists.first(self.current) {
            None => u32::MAX - self.tick,
            Some(first) => self.lists.value(first) - self.tick - 1,
        }
    }

    /// Lets one tick pass, with which nobody's sleep ends and the tick that is shown doesn't become 0 (see `quiet_ticks`).
    pub fn advance_quietly(&mut self)
        requires age { self.old.age < 2 ^ 62 }
        requires asleep { Each (λ e. self.old.now + 1 < e.1) self.old.delayed_list }
        requires turn { self.old.now % 2 ^ 32 + 1 < 2 ^ 32 }
        ensures advances { Advances self.old self.new [] }
        // In the definitions nobody is due then, and the tick has come.
        ensures due { (s : State) → StandsFor self.old s → [] ≡ tasks_of (time.due (at_next_tick s)) }
        ensures woken { (s : State) → StandsFor self.old s → holds_ticks s ≡ false
            → StandsFor self.new (time.increment_tick s) }
    {
        self.age += 1;
        self.tick += 1;
    }

    /// How many ticks it is until the first sleeper wakes, 1 to 4294967295; `None` if nobody sleeps.
    pub fn nearest(&self) -> Option<u32>
        ensures nearest { result
            ≡ option_map (λ time. time - self.now.now) (first_time self.now.delayed_list) }
        // It is at least one, and nobody wakes before.
        ensures ahead { MatchOption result (self.now.delayed_list ≡ [])
            (λ ticks. (0 < ticks) × Each (λ e. self.now.now + ticks ≤ e.1) self.now.delayed_list) }
    {
        if let Some(first) = self.lists.first(self.current) {
            return Some(self.lists.value(first) - self.tick);
        }
        let first = self.lists.first(self.overflow)?;
        Some(u32::MAX - self.tick + self.lists.value(first) + 1)
    }

    /// Lets this many ticks pass at once, 0 to 4294967295, as an idle that has slept through them does (`vTaskStepTick`). Nobody's
    /// sleep ends before the last of them: if `nearest` returns a number, they are no more than that. It ends the sleep of the
    /// tasks whose wake time has come, and returns them in the order in which they began to sleep. Before the call the age is below
    /// 2^62 ticks. Ticks that are held stay held.
    pub fn jump(&mut self, ticks: u32) -> Due
        requires soon { Each (λ e. self.old.now + ticks ≤ e.1) self.old.delayed_list }
        requires age { self.old.age < 2 ^ 62 }
        ensures jumps { Jumps ticks self.old self.new result.items }
        // They are those whom the definitions have due then.
        ensures due { (s : State) → StandsFor self.old s
            → result.items ≡ tasks_of (time.due (at_jump ticks s)) }
        // Once they are Ready too, the ticks have come.
        ensures woken { (s : State) → StandsFor self.old s → StandsFor self.new (time.jump ticks s) }
    {
        let mut due = Due::new();
        self.jump_into(ticks, &mut due);
        due
    }

    /// As `jump`, but writes the tasks into the list `due`, in place of what it has.
    pub fn jump_into(&mut self, ticks: u32, due: &mut Due)
        requires soon { Each (λ e. self.old.now + ticks ≤ e.1) self.old.delayed_list }
        requires age { self.old.age < 2 ^ 62 }
        ensures jumps { Jumps ticks self.old self.new due.new.items }
        ensures due { (s : State) → StandsFor self.old s
            → due.new.items ≡ tasks_of (time.due (at_jump ticks s)) }
        ensures woken { (s : State) → StandsFor self.old s → StandsFor self.new (time.jump ticks s) }
    {
        due.clear();
        self.age += ticks as u64;
        let tick = self.tick.wrapping_add(ticks);
        let wraps = tick < self.tick;
        self.tick = tick;
        if wraps {
            self.overflows += 1;
            mem::swap(&mut self.current, &mut self.overflow);
        }
        take_due(&mut self.lists, self.current, tick, due);
    }

    /// Lets this many ticks pass at once while nobody sleeps, as an idle that has slept through them does (`vTaskStepTick`). After the
    /// call the age is 2^62 ticks at most. Ticks that are held stay held.
    pub fn jump_unslept(&mut self, ticks: u64)
        requires quiet { self.old.delayed_list ≡ [] }
        requires age { self.old.age + ticks ≤ 2 ^ 62 }
        ensures jumps { Jumps ticks self.old self.new [] }
        // In the definitions nobody is due then, and the ticks have come.
        ensures due { (s : State) → StandsFor self.old s → [] ≡ tasks_of (time.due (at_jump ticks s)) }
        ensures woken { (s : State) → StandsFor self.old s → StandsFor self.new (time.jump ticks s) }
    {
        self.age += ticks;
        let tick = self.tick as u64 + ticks;
        self.overflows += (tick / (1 << 32)) as u32;
        self.tick = (tick % (1 << 32)) as u32;
    }
}
