//! A kernel as it once was.
ghost use Rattle.std.specs.Prelude.{◌≡◌, ◌≤◌, List, length, true, IfOk};
ghost use Rattle.model.specs.State.{Source, State};
ghost use Rattle.machine.specs.Fronts.{with_blanks};
ghost use Rattle.machine.specs.StandsFor.{AreBlankFrom, AreSources, Stands};

use crate::front::{fill_from, front_of, is_same_progress, save_front};
use crate::machine::Machine;
use crate::notifications::Notifications;
use crate::progress::Progress;
use crate::sources::Sources;
use crate::variables::Variables;
use clock::Clock;
use groups::Groups;
use model::{End, Memory, WaitList};
use objects::ObjectsSnapshot;
use sched::Sched;
use std::alloc::Global;
use std::marker::Model;

/// A kernel as it was between two steps. It is smaller than a kernel, which has room for the most tasks and items that there can
/// be: a snapshot has room for its application's tasks, and for the items of its queues.
#[derive(Drop)]
pub struct Snapshot {
    // That of the first tasks; no task after them has done anything.
    progress: Vec<Progress>,
    sched: Sched,
    clock: Clock,
    objects: ObjectsSnapshot,
    groups: Groups,
    notifications: Notifications,
    variables: Variables,
    sources: Sources,
    sections: u32,
    wait_list: WaitList,
    next_interrupt: u32,
    steps: u32,
    stopped: Option<End>,
}

// Clauses see the kernel.
impl Model for Snapshot {
    ghost use Rattle.std.specs.Prelude.{◌≤◌, length};
    ghost use Rattle.machine.specs.declared.machine.Machine as declared;
    ghost use Rattle.machine.specs.Fronts.{with_blanks};

    ghost Value = { declared.Machine };

    ghost view = { λ s. record { progress = with_blanks s.progress.items; sched = s.sched; clock = s.clock; objects = s.objects; groups = s.groups; notifications = s.notifications; variables = s.variables; sources = s.sources; sections = s.sections; wait_list = s.wait_list; next_interrupt = s.next_interrupt; steps = s.steps; stopped = s.stopped } };

    ghost invariant = { λ s. length s.progress.items ≤ 32 };
}

impl Snapshot {
    /// How many steps were done, at most 1,000,000 in a run.
    pub fn steps(&self) -> u32
        ensures { result ≡ self.now.steps }
    {
        self.steps
    }

    /// How many first tasks there are, 32 at most; no task after them has done anything.
    pub fn tasks(&self) -> usize
        ensures { AreBlankFrom result self.now.progress }
    {
        self.progress.len()
    }
}

impl Machine {
    /// The kernel as it is now, which is of so many tasks. It takes some 3 kB, and memory of 112 bytes for each task and of four for each
    /// item that the queues can hold.
    ///
    /// `Memory` is returned only if a growth was refused.
    pub fn snapshot(&self, alloc: Global, tasks: usize) -> Result<Snapshot, Memory>
        ensures { IfOk result (λ snapshot. AreBlankFrom tasks self.now.progress → snapshot ≡ self.now) }
    {
        let progress = front_of(alloc, &self.progress, tasks)?;
        let objects = self.objects.snapshot(alloc)?;
        Ok(self.snapshot_with(progress, objects))
    }

    /// As `snapshot`, in a box.
    pub fn boxed_snapshot(&self, alloc: Global, tasks: usize) -> Result<Box<Snapshot>, Memory>
        ensures { IfOk result (λ snapshot. AreBlankFrom tasks self.now.progress → snapshot.value ≡ self.now) }
    {
        let progress = front_of(alloc, &self.progress, tasks)?;
        let objects = self.objects.snapshot(alloc)?;
        let snapshot = Box::new(alloc, self.snapshot_with(progress, objects))?;
        Ok(snapshot)
    }

    /// The kernel as it is now, but with this progress of its first tasks, and with this snapshot of its objects.
    #[inline(always)]
    fn snapshot_with(&self, progress: Vec<Progress>, objects: ObjectsSnapshot) -> Snapshot
        requires few { length progress.items ≤ 32 }
        requires objects { objects ≡ self.now.objects }
        ensures { result ≡ record self.now { progress = with_blanks progress.items } }
    {
        Snapshot {
            progress,
            sched: self.sched.copy(),
            clock: self.clock.copy(),
            objects,
            groups: self.groups.copy(),
            notifications: self.notifications.copy(),
            variables: self.variables.copy(),
            sources: self.sources.copy(),
            sections: self.sections,
            wait_list: self.wait_list,
            next_interrupt: self.next_interrupt,
            steps: self.steps,
            stopped: self.stopped,
        }
    }

    /// Makes a snapshot that of the kernel as it is now, which is of so many tasks, in the memory that it has, and more only if more tasks
    /// have done something. `false` if that is refused, or if the snapshot is of another application; then it is of no more use.
    pub fn save(&self, snapshot: &mut Snapshot, tasks: usize) -> bool
        ensures { result ≡ true → AreBlankFrom tasks self.now.progress → snapshot.new ≡ self.now }
    {
        if save_front(&self.progress, tasks, &mut snapshot.progress).is_err() {
            return false;
        }
        if !self.objects.save(&mut snapshot.objects) {
            return false;
        }
        snapshot.sched.set_from(&self.sched);
        snapshot.clock.set_from(&self.clock);
        snapshot.groups.set_from(&self.groups);
        snapshot.notifications.set_from(&self.notifications);
        snapshot.variables.set_from(&self.variables);
        snapshot.sources.set_from(&self.sources);
        snapshot.sections = self.sections;
        snapshot.wait_list = self.wait_list;
        snapshot.next_interrupt = self.next_interrupt;
        snapshot.steps = self.steps;
        snapshot.stopped = self.stopped;
        true
    }

    /// Becomes the kernel of a snapshot, in place, if none of its tasks after so many has done anything. It takes no memory.
    pub fn restore(&mut self, snapshot: &Snapshot, tasks: usize)
        ensures { AreBlankFrom tasks self.old.progress → self.new ≡ snapshot.now }
    {
        fill_from(&mut self.progress, snapshot.progress.as_slice(), tasks);
        self.sched.set_from(&snapshot.sched);
        self.clock.set_from(&snapshot.clock);
        self.objects.restore(&snapshot.objects);
        self.groups.set_from(&snapshot.groups);
        self.notifications.set_from(&snapshot.notifications);
        self.variables.set_from(&snapshot.variables);
        self.sources.set_from(&snapshot.sources);
        self.sections = snapshot.sections;
        self.wait_list = snapshot.wait_list;
        self.next_interrupt = snapshot.next_interrupt;
        self.steps = snapshot.steps;
        self.stopped = snapshot.stopped;
    }

    /// Whether the kernel, which is of so many tasks, is the same as in this snapshot, whatever its event groups are, and since when
    /// its interrupt sources can come.
    fn is_same_but_groups(&self, snapshot: &Snapshot, tasks: usize) -> bool
        ensures steps { result ≡ true → self.now.steps ≡ snapshot.now.steps }
        ensures same { result ≡ true → AreBlankFrom tasks self.now.progress
            → self.now ≡ record snapshot.now { groups = self.now.groups; sources = self.now.sources } }
        ensures sources { result ≡ true → (xs : List Source)
            → AreSources self.now.clock.age self.now.sources xs → AreSources self.now.clock.age snapshot.now.sources xs }
    {
        if self.steps != snapshot.steps
            || self.next_interrupt != snapshot.next_interrupt
            || self.wait_list != snapshot.wait_list
            || self.sections != snapshot.sections
            || self.stopped != snapshot.stopped
        {
            return false;
        }
        self.clock.is_same(&snapshot.clock)
            && self.variables.is_same(&snapshot.variables)
            && self.notifications.is_same(&snapshot.notifications)
            && self.sources.is_same(&snapshot.sources, self.clock.age())
            && self.sched.is_same(&snapshot.sched)
            && is_same_progress(&self.progress, snapshot.progress.as_slice(), tasks)
            && self.objects.is_at(&snapshot.objects)
    }

    /// Whether the kernel, which is of so many tasks, is as it was in this snapshot: then that represents each state that the kernel
    /// represents. What lists, queues, loops and event groups have kept of entries, items, turns and waits that are gone doesn't count,
    /// nor since when an interrupt source can come again.
    pub fn is_at(&self, snapshot: &Snapshot, tasks: usize) -> bool
        ensures steps { result ≡ true → self.now.steps ≡ snapshot.now.steps }
        ensures stands { result ≡ true → AreBlankFrom tasks self.now.progress
            → (s : State) → Stands self.now s → Stands snapshot.now s }
    {
        if !self.is_same_but_groups(snapshot, tasks) {
            return false;
        }
        self.groups.is_same(&snapshot.groups)
    }
}
