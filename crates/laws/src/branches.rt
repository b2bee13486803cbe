//! Laws of branches and loops.
ghost use Rattle.std.specs.Prelude.{◌≡◌, ◌<◌, ◌+◌, ℕ, true, false, List, [], ◌∷◌, length, Some, None};
ghost use Rattle.model.specs.declared.answer.AnswerCondition.{AnswerCondition};
ghost use Rattle.model.specs.declared.block.Block.{Block};
ghost use Rattle.model.specs.declared.loops.Loop.{Loop};
ghost use Rattle.model.specs.declared.op.Op.{Op};
ghost use Rattle.model.specs.declared.op.Op.TheVariants.{Break, Else, End, EndIf, If};
ghost use Rattle.model.specs.Answers.{holds};
ghost use Rattle.model.specs.Application.{Application, op_at, script_of};
ghost use Rattle.model.specs.Blocks.{edge_of, loops_in};
ghost use Rattle.model.specs.State.{State, progress_at};
ghost use Rattle.model.specs.Step.{act, misuse};
ghost use Rattle.laws.specs.Branches.{AllStay, Encloses, IsQuiet, ends_branch, is_of_blocks};

/// Only one of the two branches of an `if` is executed. If its condition holds, the task continues with the first branch.
/// Otherwise it continues after the `else`, or after the `end` if there is no `else`. An `else`, which the first branch reaches
/// at its end, continues after the `end` of the second branch.
pub fn one_branch_is_done()
    ensures taken { (app : Application) (task : ℕ) (condition : AnswerCondition) (s : State) → task < length s.tasks
        → holds s.variables condition (progress_at s task).answer ≡ true
        → (progress_at (act app task (If condition) s) task).op_index ≡ (progress_at s task).op_index + 1 }
    ensures skipped { (app : Application) (task : ℕ) (condition : AnswerCondition) (s : State) (first : List Op) (last : Op)
        → task < length s.tasks → op_at app task (progress_at s task).op_index ≡ Some (If condition)
        → Encloses (script_of app task) (progress_at s task).op_index [] first last → ends_branch (edge_of last) ≡ true
        → holds s.variables condition (progress_at s task).answer ≡ false
        → (progress_at (act app task (If condition) s) task).op_index ≡ (progress_at s task).op_index + 1 + (length first + 1) }
    ensures other { (app : Application) (task : ℕ) (s : State) (second : List Op) → task < length s.tasks
        → op_at app task (progress_at s task).op_index ≡ Some Else
        → Encloses (script_of app task) (progress_at s task).op_index [] second EndIf
        → (progress_at (act app task Else s) task).op_index ≡ (progress_at s task).op_index + 1 + (length second + 1) }
{}

/// An op that opens, ends or leaves a branch or a loop takes no tick, switches to no other task, writes no line and leaves the
/// last answer unchanged. It is allowed while the scheduler is suspended.
pub fn branches_are_quiet()
    ensures quiet { (app : Application) (task : ℕ) (op : Op) (s : State) → is_of_blocks (edge_of op) ≡ true → task < length s.tasks
        → IsQuiet task s (act app task op s) }
    ensures allowed { (s : State) (task : ℕ) (op : Op) → is_of_blocks (edge_of op) ≡ true → misuse s task op ≡ None }
{}

/// The `end` of an endless loop returns to its first op, and the loop continues, whatever the last answer is. Of the ops that
/// open, end or leave branches and loops, only a `break` ends such a loop.
pub fn loops_for_ever_go_on()
    ensures back { (app : Application) (task : ℕ) (s : State) (innermost : Loop) (outer : List Loop) → task < length s.tasks
        → (progress_at s task).loops ≡ innermost ∷ outer → innermost.left ≡ None
        → ((progress_at (act app task End s) task).op_index ≡ innermost.start)
        × ((progress_at (act app task End s) task).loops ≡ innermost ∷ outer) }
    ensures stay { (app : Application) (task : ℕ) (op : Op) (s : State) → is_of_blocks (edge_of op) ≡ true → (op ≡ Break → ⊥)
        → task < length s.tasks → AllStay (progress_at s task).loops (progress_at (act app task op s) task).loops }
{}

/// A `break` ends the innermost loop, even an endless one, and from inside any of its branches: the task continues after the
/// loop's `end`.
pub fn breaks_end_the_innermost_loop()
    ensures next { (app : Application) (task : ℕ) (s : State) (branches : List Block) (rest : List Op) → task < length s.tasks
        → op_at app task (progress_at s task).op_index ≡ Some Break
        → loops_in branches ≡ 0 → Encloses (script_of app task) (progress_at s task).op_index branches rest End
        → (progress_at (act app task Break s) task).op_index ≡ (progress_at s task).op_index + 1 + (length rest + 1) }
    ensures outer { (app : Application) (task : ℕ) (s : State) (innermost : Loop) (outer : List Loop) → task < length s.tasks
        → (progress_at s task).loops ≡ innermost ∷ outer → (progress_at (act app task Break s) task).loops ≡ outer }
{}
