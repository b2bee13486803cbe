//! Laws of how far apart the comings of a handler are.
ghost use Rattle.std.specs.Prelude.{◌≡◌, ◌<◌, ◌≤◌, ◌+◌, ℕ, true, List, ◌∷◌, length};
ghost use Rattle.model.specs.declared.plan.Injection.{Injection};
ghost use Rattle.model.specs.Application.{Application, Limits};
ghost use Rattle.model.specs.Handlers.{apart_of, can_come, come, inject, pend, serve_pending};
ghost use Rattle.model.specs.Invariant.{IsNonePending};
ghost use Rattle.model.specs.Run.{injected, state_after};
ghost use Rattle.model.specs.State.{State};
ghost use Rattle.model.specs.Step.{step};
ghost use Rattle.laws.specs.Comings.{HasCome};

/// After a handler has come, as a base interrupt, because it was raised or because it was injected, it can come as an injection
/// only if at least `apart` elapsed ticks have passed since then.
pub fn comings_are_apart()
    ensures comes { (app : Application) (handler : ℕ) (s : State) → handler < length s.sources
        → HasCome app handler s.elapsed (come app handler s) }
    ensures stays { (app : Application) (limits : Limits) (handler tick : ℕ) (sources : List ℕ) (s : State)
        → HasCome app handler tick s → HasCome app handler tick (step app limits sources s) }
    // The same holds for each interrupt that comes or becomes pending before a step, one after another.
    ensures turns { (app : Application) (handler tick source : ℕ) (s : State) → HasCome app handler tick s
        → HasCome app handler tick (inject app source s) × HasCome app handler tick (pend app source s)
        × HasCome app handler tick (serve_pending app s) }
    ensures apart { (app : Application) (handler tick : ℕ) (s : State) → HasCome app handler tick s → can_come s handler ≡ true
        → tick + apart_of app handler ≤ s.elapsed }
    // So two injections of it in a run are at least that far apart. The first of them is the first of its step, and there it
    // comes or becomes pending.
    ensures run { (app : Application) (limits : Limits) (plan : List Injection) (handler m n : ℕ) (others : List ℕ)
        → injected plan m ≡ handler ∷ others → IsNonePending (state_after app limits plan m)
        → can_come (state_after app limits plan m) handler ≡ true → m < n → can_come (state_after app limits plan n) handler ≡ true
        → (state_after app limits plan m).elapsed + apart_of app handler ≤ (state_after app limits plan n).elapsed }
{}
