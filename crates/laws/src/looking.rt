//! Laws of handlers that check their last answer.
ghost use Rattle.std.specs.Prelude.{◌≡◌, ◌+◌, ◌⊎◌, ◌++◌, ℕ, true, false, List, [], ◌∷◌, length, Option, Some, None};
ghost use Rattle.model.specs.declared.answer.AnswerCondition.{AnswerCondition};
ghost use Rattle.model.specs.declared.event.End.{End};
ghost use Rattle.model.specs.declared.event.End.TheVariants.{HandlerCheck};
ghost use Rattle.model.specs.declared.op.IsrOp.{IsrOp};
ghost use Rattle.model.specs.declared.op.IsrOp.TheVariants.{Else, EndIf, Expect, If};
ghost use Rattle.model.specs.Answers.{holds};
ghost use Rattle.model.specs.Application.{Application, Limits};
ghost use Rattle.model.specs.Blocks.{edge_of_isr, isr_edges_of};
ghost use Rattle.model.specs.Handlers.{isr_each};
ghost use Rattle.model.specs.Ops.{fail};
ghost use Rattle.model.specs.Run.{end_of};
ghost use Rattle.model.specs.State.{State};
ghost use Rattle.model.specs.Step.{act_current, before_step};
ghost use Rattle.laws.specs.Branches.{AreWhole, ends_branch};
ghost use Rattle.laws.specs.Looking.{is_misused};

/// A handler's check that holds changes nothing: the ops after it are executed as if it weren't there.
pub fn passed_checks_change_nothing()
    ensures { (app : Application) (handler op_index : ℕ) (condition : AnswerCondition) (answer : Option ℕ) (ops : List IsrOp) (s : State)
        → holds s.variables condition answer ≡ true
        → isr_each app handler op_index 0 answer (Expect condition ∷ ops) s ≡ isr_each app handler (op_index + 1) 0 answer ops s }
{}

/// After a handler's check fails, none of the handler's later ops is executed. The only effect of the failed check is that the
/// run ends with it, unless the run is already ending.
pub fn failed_checks_end_the_handler()
    ensures nothing { (app : Application) (handler op_index : ℕ) (condition : AnswerCondition) (answer : Option ℕ) (ops : List IsrOp)
        (s : State)
        → holds s.variables condition answer ≡ false
        → isr_each app handler op_index 0 answer (Expect condition ∷ ops) s ≡ fail (HandlerCheck handler op_index) s }
    ensures ends { (app : Application) (limits : Limits) (check : End) (s : State) → s.stopped ≡ None
        → end_of app limits (fail check s) ≡ Some check }
{}

/// The first check that fails in a step decides how the run ends. Handlers that come after it don't change this. The step of the
/// running task or of idle changes it only by a misuse.
pub fn first_failed_check_counts()
    ensures handlers { (app : Application) (handlers : List ℕ) (end : End) (s : State) → s.stopped ≡ Some end
        → (before_step app handlers s).stopped ≡ Some end }
    ensures task { (app : Application) (limits : Limits) (running : Option ℕ) (end : End) (s : State) → s.stopped ≡ Some end
        → ((act_current app limits running s).stopped ≡ Some end) ⊎ (is_misused (act_current app limits running s) ≡ true) }
{}

/// Only one of the two branches of a handler's `if` is executed. If its condition holds, the handler continues with the first
/// branch. Otherwise it continues after the `else`, or after the `end` if there is no `else`. An `else`, which the first branch
/// reaches at its end, continues after the `end` of the second branch. Ops that are skipped have no effect.
pub fn handlers_do_one_branch()
    ensures taken { (app : Application) (handler op_index : ℕ) (condition : AnswerCondition) (answer : Option ℕ) (ops : List IsrOp)
        (s : State)
        → holds s.variables condition answer ≡ true
        → isr_each app handler op_index 0 answer (If condition ∷ ops) s ≡ isr_each app handler (op_index + 1) 0 answer ops s }
    ensures skipped { (app : Application) (handler op_index : ℕ) (condition : AnswerCondition) (answer : Option ℕ) (first : List IsrOp)
        (last : IsrOp) (behind : List IsrOp) (s : State) → holds s.variables condition answer ≡ false
        → AreWhole [] (isr_edges_of first) → ends_branch (edge_of_isr last) ≡ true
        → isr_each app handler op_index 0 answer (If condition ∷ first ++ last ∷ behind) s
        ≡ isr_each app handler (op_index + 1 + (length first + 1)) 0 answer behind s }
    ensures other { (app : Application) (handler op_index : ℕ) (answer : Option ℕ) (second behind : List IsrOp) (s : State)
        → AreWhole [] (isr_edges_of second)
        → isr_each app handler op_index 0 answer (Else ∷ second ++ EndIf ∷ behind) s
        ≡ isr_each app handler (op_index + 1 + (length second + 1)) 0 answer behind s }
{}
