//! What a step reports its events to.
ghost use Rattle.std.specs.Prelude.{◌≡◌, ◌<◌, ◌+◌, ◌++◌, ◌∷◌, []};
ghost use Rattle.machine.specs.Logged.{Logged};

use arrayvec::ArrayVec;
use model::Event;

/// The events that one step reports: there is room for 2048, and no step reports more.
pub type StepLog = ArrayVec<Event, 2048>;

/// What takes the events of a step, one after the other.
pub trait Log {
    // What clauses see of it.
    ghost logged: { Self → Logged };

    /// Takes one more event of this step.
    fn push(&mut self, event: Event)
        requires { 0 < (logged self.old).room }
        ensures told { (logged self.new).told ≡ (logged self.old).told ++ event ∷ [] }
        ensures before { (logged self.new).before ≡ (logged self.old).before }
        ensures room { (logged self.new).room + 1 ≡ (logged self.old).room };
}

// The log of one step alone.
impl Log for ArrayVec<Event, 2048> {
    ghost use Rattle.std.specs.Prelude.{[], ◌-◌, length};

    ghost logged = { λ log. record { before = []; told = log.items; room = 2048 - length log.items } };

    #[inline]
    fn push(&mut self, event: Event) {
        // Taken apart and made again, since the check proves no push of the whole.
        let Event { step, tick, what } = event;
        self.push(Event { step, tick, what });
    }
}
