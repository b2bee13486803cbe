//! Laws of critical sections, and of interrupts that are pending during them.
ghost use Rattle.std.specs.Prelude.{◌≡◌, ◌<◌, ℕ, suc, false, true, List, [], ◌∷◌, length};
ghost use Rattle.std.specs.List.{AllByRecursion};
ghost use Rattle.model.specs.declared.event.Event.{Event};
ghost use Rattle.model.specs.Application.{Application, Limits};
ghost use Rattle.model.specs.Scripts.{IsWellFormed};
ghost use Rattle.model.specs.State.{State};
ghost use Rattle.model.specs.Switching.{is_critical};
ghost use Rattle.model.specs.Handlers.{can_come, pend};
ghost use Rattle.model.specs.Step.{step};
ghost use Rattle.model.specs.Invariant.{IsNonePending, IsState};
ghost use Rattle.laws.specs.Sections.{alone, are_critical, is_of_handler, made_pending};

/// A handler that is injected while a critical section is open only becomes pending, and counts as having come. Nothing else of
/// the run changes while a section is open: the same steps are done, and the same events are reported. If the handler can't come,
/// it doesn't even become pending.
pub fn pending_handlers_change_nothing()
    ensures can { (app : Application) → IsWellFormed app → (limits : Limits) (handler steps : ℕ) (s : State) → IsState app s
        → are_critical app limits (suc steps) s ≡ true → can_come s handler ≡ true
        → alone app limits steps (step app limits (handler ∷ []) s) ≡ made_pending app handler (alone app limits (suc steps) s) }
    ensures cannot { (app : Application) → IsWellFormed app → (limits : Limits) (handler steps : ℕ) (s : State) → IsState app s
        → are_critical app limits (suc steps) s ≡ true → can_come s handler ≡ false
        → alone app limits steps (step app limits (handler ∷ []) s) ≡ alone app limits (suc steps) s }
{}

/// It comes before the first step at which no section is open. From there the run continues as if the handler had been injected
/// at that step.
pub fn pending_handlers_come_at_the_exit()
    ensures { (app : Application) (limits : Limits) (handler : ℕ) (s : State) → handler < length s.sources
        → IsNonePending s → is_critical s ≡ false
        → step app limits [] (pend app handler s) ≡ step app limits (handler ∷ []) s }
{}

/// So if a handler is injected inside a section and nothing was pending before, it comes before the first step after the section.
/// The rest of the run is the same as if it had been injected there. This assumes that it can come at both steps or at neither.
pub fn injections_in_a_section_wait()
    ensures { (app : Application) → IsWellFormed app → (limits : Limits) (handler steps : ℕ) (s : State) → IsState app s
        → IsNonePending s → handler < length s.sources → are_critical app limits (suc steps) s ≡ true
        → is_critical (alone app limits (suc steps) s) ≡ false
        → can_come (alone app limits (suc steps) s) handler ≡ can_come s handler
        → step app limits [] (alone app limits steps (step app limits (handler ∷ []) s))
        ≡ step app limits (handler ∷ []) (alone app limits (suc steps) s) }
{}

/// If a handler is already pending, injecting it again changes nothing: it comes only once.
pub fn pending_handlers_come_once()
    ensures { (app : Application) (handler : ℕ) (s : State) → pend app handler (pend app handler s) ≡ pend app handler s }
{}

/// No handler comes earlier: if a critical section is open before a step, none of the step's events is a handler's.
pub fn no_handler_comes_inside()
    ensures { (app : Application) (limits : Limits) (handlers : List ℕ) (s : State) → IsState app s → is_critical s ≡ true
        → AllByRecursion (λ (e : Event). is_of_handler e.what ≡ false) (step app limits handlers s).log }
{}
