//! Until when a call waits.
ghost use Rattle.std.specs.Prelude.{◌≡◌, ◌≢◌, ◌<◌, ◌+◌, ◌^◌, false, Some};
ghost use Rattle.std.specs.Option.{option_map};
ghost use Rattle.model.specs.State.{State};
ghost use Rattle.model.specs.Waiting.{set_deadline};
ghost use Rattle.clock.specs.Timeline.{is_asleep};
ghost use Rattle.clock.specs.StandsFor.{StandsFor as ClockStandsFor, StandsBefore as ClockStandsBefore};
ghost use Rattle.machine.specs.StandsFor.{Moves, progress_in};
ghost use Rattle.machine.specs.Can.{IsAhead, IsInCall};

use crate::machine::Machine;
use clock::Clock;
use model::TaskId;

/// A task that has begun to wait until this deadline is put among the tasks that wake by themselves.
// Most waits at objects have no limit, so it isn't inlined into what asks for the deadline.
#[inline(never)]
fn sleep_until(clock: &mut Clock, deadline: u64, task: TaskId)
    requires awake { is_asleep clock.old task ≡ false }
    requires ahead { IsAhead clock.old.now (Some deadline) }
    ensures { (s : State) → ClockStandsBefore task (Some deadline) clock.old s → ClockStandsFor clock.new s }
{
    let ticks = deadline - clock.now();
    clock.sleep(task, ticks as u32);
}

/// A task that has begun to wait until a deadline, if there is one, is put among the tasks that wake by
/// themselves.
#[inline(always)]
pub fn place_sleeper(clock: &mut Clock, deadline: Option<u64>, task: TaskId)
    requires awake { is_asleep clock.old task ≡ false }
    requires ahead { IsAhead clock.old.now deadline }
    ensures { (s : State) → ClockStandsBefore task deadline clock.old s → ClockStandsFor clock.new s }
{
    if let Some(deadline) = deadline {
        sleep_until(clock, deadline, task);
    }
}

/// A task has begun to wait for this many ticks, or forever. If not forever, the task is put among the tasks that wake by themselves.
// With the ticks still at hand, the time needn't be asked.
#[inline(always)]
pub fn place_sleeper_for(clock: &mut Clock, ticks: Option<u32>, task: TaskId)
    requires awake { is_asleep clock.old task ≡ false }
    requires some { ticks ≢ Some 0 }
    ensures { (s : State) → ClockStandsBefore task (option_map (λ n. clock.old.now + n) ticks) clock.old s
        → ClockStandsFor clock.new s }
{
    if let Some(ticks) = ticks {
        clock.sleep(task, ticks);
    }
}

impl Machine {
    /// The call of the running task, which begins, may wait for this many ticks from now, or forever.
    // Usually it is forever, and then the time needn't be asked.
    pub fn set_deadline(&mut self, task: TaskId, ticks: Option<u32>)
        requires can { IsInCall self.old task }
        requires time { self.old.clock.now + 2 ^ 32 < 2 ^ 63 }
        ensures does { Moves self.old self.new (set_deadline task ticks) }
        ensures parts { (self.new.sched ≡ self.old.sched) × (self.new.objects ≡ self.old.objects) }
        ensures op_index { (progress_in self.new.progress task).op_index ≡ (progress_in self.old.progress task).op_index }
        ensures clock { self.new.clock ≡ self.old.clock }
        ensures deadline { (progress_in self.new.progress task).call.deadline
            ≡ option_map (λ n. self.old.clock.now + n) ticks }
    {
        match ticks {
            None => self.set_call_deadline(task, None),
            Some(ticks) => {
                let deadline = self.clock.now() + ticks as u64;
                self.set_call_deadline(task, Some(deadline));
            }
        }
    }
}
