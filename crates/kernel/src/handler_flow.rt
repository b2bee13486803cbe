//! What a handler makes of its last answer: whether an `expect` fails, and where an `if` and an `else` go on.
ghost use Rattle.std.specs.Prelude.{◌≡◌, ◌<◌, ◌≤◌, ◌+◌, ◌^◌, List, ◌∷◌, IfSome, IsNone, length};
ghost use Rattle.model.specs.declared.block.Edge as declared;
ghost use Rattle.model.specs.Blocks.{isr_edges_of, past_branch};
ghost use Rattle.model.specs.Handlers.{is_failed, isr_jump};
ghost use Rattle.model.specs.State.{State};

use model::{Edge, IsrOp};

/// Whether it is an `expect` that fails, or an op that has no value to work with, if the variables and the last answer are these.
#[inline(always)]
pub(crate) fn is_failed(op: &IsrOp, variables: &[u32], last: Option<u32>) -> bool
    ensures { (s : State) → s.variables ≡ variables.now → result ≡ is_failed s op.now last }
{
    match *op {
        IsrOp::Expect(condition) => !condition.holds(variables, last),
        IsrOp::Do(_, access) => access.lacks_item(last),
        IsrOp::Notify(_, action) => action.lacks_value(last),
        IsrOp::Mark(value) => value.is_missing(last),
        IsrOp::Value(op) => op.answer(variables, last).is_none(),
        _ => false,
    }
}

/// Over how many of these ops, which come after it, an op jumps, if the variables and the last answer are these.
#[inline(always)]
pub(crate) fn isr_jump(op: &IsrOp, behind: &[IsrOp], variables: &[u32], last: Option<u32>) -> usize
    requires { length behind.now ≤ 16 }
    ensures { (s : State) → s.variables ≡ variables.now → result ≡ isr_jump s op.now last behind.now }
{
    match *op {
        IsrOp::If(condition) if !condition.holds(variables, last) => past_branch(behind),
        IsrOp::Else => past_branch(behind),
        _ => 0,
    }
}

/// How many `if` are open in a branch after an op that is this to the blocks, if this many are before it; `None` if it ends the
/// branch.
#[inline(always)]
fn inner_behind(inner: usize, edge: Edge) -> Option<usize>
    requires { inner < 2 ^ 63 }
    ensures more { IfSome result (λ behind. (edges : List declared.Edge)
        → past_branch inner (edge ∷ edges) ≡ past_branch behind edges + 1) }
    ensures few { IfSome result (λ behind. behind ≤ inner + 1) }
    ensures ends { IsNone result → (edges : List declared.Edge) → past_branch inner (edge ∷ edges) ≡ 1 }
{
    match edge {
        Edge::OpensIf => Some(inner + 1),
        Edge::OpensElse => { if inner == 0 { None } else { Some(inner) } }
        Edge::EndsIf => inner.checked_sub(1),
        _ => Some(inner),
    }
}

/// How many of these ops there are to the end of the branch in which they begin, its `else` or `end` included.
fn past_branch(ops: &[IsrOp]) -> usize
    requires { length ops.now ≤ 16 }
    ensures { result ≡ past_branch 0 (isr_edges_of ops.now) }
{
    let mut inner: usize = 0;
    for (passed, op) in ops.iter().enumerate() {
        match inner_behind(inner, op.edge()) {
            None => return passed + 1,
            Some(behind) => inner = behind,
        }
    }
    ops.len()
}
