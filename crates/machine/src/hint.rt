//! A number by which kernels that may be the same are looked for.
use crate::machine::Machine;
use crate::progress::Progress;

// A hash of a hash so far and one more number.
pub(crate) fn mixed(hash: u64, number: u64) -> u64 {
    (hash ^ number)
        .wrapping_mul(0x9E37_79B9_7F4A_7C15)
        .rotate_left(29)
}

// A number of its own for no number, and for each below 2^64 - 1.
pub(crate) fn numbered(number: Option<u64>) -> u64 {
    match number {
        None => 0,
        Some(number) => number.wrapping_add(1),
    }
}

impl Progress {
    // Whether nothing of its script is done, as if there is no task.
    #[inline(always)]
    fn is_first(&self) -> bool {
        self.op_index as u32 | self.used == 0
    }

    // What distinguishes it from most others.
    #[inline(always)]
    fn hint(&self) -> u64 {
        let place = (self.op_index as u64) << 32 | self.used as u64;
        let times = self.stamp ^ self.previous_wake.rotate_left(32);
        let waits = numbered(self.call.deadline)
            ^ numbered(self.answer.map(u64::from)).rotate_left(32);
        mixed(place, times) ^ waits ^ self.loops.hint().rotate_left(48)
    }
}

impl Machine {
    /// A number that is the same for kernels that are the same (`is_at`), and for most others isn't: it is made only of what `is_at`
    /// compares. It is a hint, and nothing rests on it. It looks at so many of the first tasks, and leaves out one that is at its
    /// first op with nothing done.
    pub fn hint(&self, tasks: usize) -> u64 {
        let runs = self.sched.current().map(|task| task.number as u64);
        let elapsed = mixed(self.clock.now(), self.clock.elapsed());
        let time = elapsed ^ self.clock.quiet_ticks() as u64;
        let counts = self.objects.hint();
        let sources = self.sources.hint(self.clock.age());
        let kept = self.notifications.hint(tasks) ^ sources.rotate_left(16);
        let shared = counts ^ self.variables.hint() ^ kept;
        let mut hash = mixed(mixed(time, shared ^ self.steps as u64), numbered(runs));
        for task in 0..tasks.min(32) {
            if !self.progress[task].is_first() {
                hash = mixed(hash, self.progress[task].hint() ^ task as u64);
            }
        }
        hash
    }
}
