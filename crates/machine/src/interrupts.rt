//! Interrupt sources: which are pending, which can come, and which come by themselves.
ghost use Rattle.std.specs.Prelude.{◌≡◌, ℕ, false, filter, slice_index_or};
ghost use Rattle.std.specs.List.{range_with_len};
ghost use Rattle.model.specs.Application.{Application};
ghost use Rattle.model.specs.State.{State};
ghost use Rattle.model.specs.Handlers.{apart_of, can_come, note_coming, none_raised_now, pend, pending_of, none_pending, raised_now};
ghost use Rattle.model.specs.Ops.{do_to_source};
ghost use Rattle.machine.specs.Sources.{is_pending};
ghost use Rattle.machine.specs.StandsFor.{Moves, MovesAny, Stands};

use crate::arrivals::DueSources;
use crate::machine::Machine;
use crate::sources::Sources;
use model::{HandlerId, SourceOp};

impl Machine {
    /// Whether this source comes if it is injected now: it is armed, and far enough from its last coming.
    pub fn can_come(&self, source: HandlerId) -> bool
        ensures { (s : State) → Stands self.now s → result ≡ can_come s source }
    {
        let arrival = self.sources.arrival(source);
        arrival.armed && arrival.free_from <= self.clock.elapsed()
    }

    /// A handler comes at this elapsed tick. If it is injected, it comes again only so many ticks later, 0 to 4294967295.
    pub fn note_coming(&mut self, handler: HandlerId, apart: u32)
        ensures does { (app : Application) → apart ≡ apart_of app handler
            → Moves self.old self.new (note_coming app handler) }
        ensures any { (app : Application) → apart ≡ apart_of app handler
            → MovesAny self.old self.new (note_coming app handler) }
        ensures rest { self.new ≡ record self.old { sources = self.new.sources } }
    {
        if apart > 0 {
            let free_from = self.clock.elapsed() + apart as u64;
            let arrival = self.sources.arrival(handler);
            self.sources
                .set_arrival(handler, arrival.free_again(free_from));
        }
    }

    /// An interrupt that is injected while a critical section is open becomes pending, once, if it can come. That is its coming.
    pub fn pend(&mut self, source: HandlerId, apart: u32)
        ensures does { (app : Application) → apart ≡ apart_of app source → MovesAny self.old self.new (pend app source) }
        ensures objects { self.new.objects ≡ self.old.objects }
    {
        if self.can_come(source) {
            self.sources.pend(source);
            self.note_coming(source, apart);
        }
    }

    /// Nothing is pending any more. Returns what was.
    pub fn take_pending(&mut self) -> Sources
        ensures does { MovesAny self.old self.new none_pending }
        ensures were { (s : State) → Stands self.old s
            → pending_of s ≡ filter (λ source. is_pending result source) (range_with_len 0 17) }
        ensures objects { self.new.objects ≡ self.old.objects }
    {
        let pending = self.sources.copy();
        self.sources.clear();
        pending
    }

    /// What an op does to an interrupt source.
    pub fn do_to_source(&mut self, source: HandlerId, op: SourceOp)
        ensures does { Moves self.old self.new (do_to_source source op) }
        ensures any { MovesAny self.old self.new (do_to_source source op) }
        ensures rest { self.new ≡ record self.old { sources = self.new.sources } }
    {
        let arrival = self.sources.arrival(source);
        let now = self.clock.elapsed();
        self.sources.set_arrival(source, arrival.after(op, now));
    }

    /// The sources that come by themselves at this tick do so no more. They are the ones that are due now; none was before.
    pub fn take_raised(&mut self, due: &mut DueSources)
        requires none { (source : ℕ) → slice_index_or due.old source false ≡ false }
        ensures does { Moves self.old self.new none_raised_now }
        ensures any { MovesAny self.old self.new none_raised_now }
        ensures were { (s : State) → Stands self.old s
            → raised_now s ≡ filter (λ source. slice_index_or due.new source false) (range_with_len 0 17) }
        ensures rest { self.new ≡ record self.old { sources = self.new.sources } }
    {
        self.sources.take_due(self.clock.elapsed(), due)
    }
}
