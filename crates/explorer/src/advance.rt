//! From the kernels before a step to those after it.
ghost use Rattle.std.specs.Prelude.{◌≡◌, ◌<◌, ◌≤◌, ◌+◌, ◌*◌, ◌^◌, [], ◌∷◌, OnOk, length};
ghost use Rattle.std.specs.List.{AllByRecursion};
ghost use Rattle.explorer.specs.Frontiers.{number_in};
ghost use Rattle.explorer.specs.Layers.{HasWay};
ghost use Rattle.explorer.specs.Questions.{AreChoices, AreGoingOn, AreKept, AreWithin, GoOnBy, HasGoneOn, IsAtEnd, IsIn};
ghost use Rattle.explorer.specs.Questions.{IsPassed, IsPassedSpent, IsStepped, app_in, batch_of, levels_in, limits_in, nows_in};

use crate::batch::Batch;
use crate::choices::Choice;
use crate::findings::{Found, count_end};
use crate::frontier::Frontier;
use crate::layer::{Layer, Node};
use crate::question::StepBlock;
use crate::settling::{Reported, Stepper, settle};
use kernel::Kernel;
use model::{HandlerId, Memory, Meter};

// Puts a batch where its plans go on from its kernel. Those with injections left go to the live
// kernels. The others go on up to the end of the block, and then to the spent ones.
fn keep(
    block: &StepBlock<'_, '_>,
    batch: Batch,
    kernel: &mut Kernel,
    reported: &mut Reported,
    frontier: &mut Frontier,
) -> Result<(), Memory>
    requires within { AreWithin block.now kernel.old batch }
    requires room { number_in frontier.old + batch.count < 2 ^ 128 }
    ensures takes { OnOk result (AreKept block.now kernel.old batch frontier.old frontier.new) }
    ensures count { OnOk result (number_in frontier.new ≡ number_in frontier.old + batch.count) }
{
    let question = block.question;
    let levels = question.choices.levels.len();
    if batch.least.len() + 1 < levels {
        let here = StepBlock {
            question,
            until: kernel.steps(),
        };
        settle(
            &here,
            batch,
            kernel,
            reported,
            &mut frontier.live,
            &mut frontier.findings,
        )
    } else {
        settle(
            block,
            batch,
            kernel,
            reported,
            &mut frontier.spent,
            &mut frontier.findings,
        )
    }
}

// The plans of a batch go on from its kernel with these handlers before the step, if each can come
// there.
fn step_by(
    block: &StepBlock<'_, '_>,
    batch: &Batch,
    now: &[HandlerId],
    kernel: &mut Kernel,
    reported: &mut Reported,
    frontier: &mut Frontier,
) -> Result<(), Memory>
    requires going { AreGoingOn block.now kernel.old batch.now }
    requires few { length batch.now.least + length now.now ≤ 3 }
    requires room { number_in frontier.old + batch.now.count < 2 ^ 128 }
    ensures takes { OnOk result (GoOnBy block.now kernel.old batch.now (now.now ∷ []) frontier.old frontier.new) }
    ensures count { OnOk result (number_in frontier.new ≤ number_in frontier.old + batch.now.count) }
{
    let app = block.question.app;
    let limits = block.question.limits;
    app.well_formed();
    limits.well_formed();
    let mut meter = Meter::new();
    let step = kernel.steps();
    let came = kernel.step(app, now, limits, &mut meter, &mut reported.log);
    if !came {
        return Ok(());
    }
    let longer = Batch {
        count: batch.count,
        least: batch.least.followed_by(step, now),
    };
    keep(block, longer, kernel, reported, frontier)
}

// From the stepper's base the plans of a batch go on with each of these choices, of one number of
// handlers.
fn step_by_each(
    block: &StepBlock<'_, '_>,
    batch: &Batch,
    level: &[Choice],
    stepper: &mut Stepper,
    frontier: &mut Frontier,
) -> Result<(), Memory>
    requires going { AreGoingOn block.now stepper.old.base batch.now }
    requires few { AllByRecursion (λ now. length batch.now.least + length now ≤ 3) level.now }
    requires room { number_in frontier.old + length level.now * batch.now.count < 2 ^ 128 }
    ensures base { stepper.new.base ≡ stepper.old.base }
    ensures takes { OnOk result (GoOnBy block.now stepper.old.base batch.now level.now frontier.old frontier.new) }
    ensures count { OnOk result (number_in frontier.new ≤ number_in frontier.old + length level.now * batch.now.count) }
{
    for now in level {
        stepper.kernel.set_from(&stepper.base);
        step_by(
            block,
            batch,
            now.as_slice(),
            &mut stepper.kernel,
            &mut stepper.reported,
            frontier,
        )?;
    }
    Ok(())
}

// From the stepper's base the plans of a batch go on with each choice of as many handlers as they
// have left. That no handler comes is the last, since that needs no copy of the kernel.
fn go_on(
    block: &StepBlock<'_, '_>,
    batch: &Batch,
    stepper: &mut Stepper,
    frontier: &mut Frontier,
) -> Result<(), Memory>
    requires going { AreGoingOn block.now stepper.old.base batch.now }
    requires choices { AreChoices block.now.question.now.choices.now }
    requires left { length batch.now.least < levels_in block.now }
    requires room { number_in frontier.old + length (nows_in block.now batch.now.least) * batch.now.count < 2 ^ 128 }
    ensures { OnOk result (GoOnBy block.now stepper.old.base batch.now (nows_in block.now batch.now.least)
        frontier.old frontier.new) }
{
    let choices = block.question.choices;
    let left = choices.levels.len() - batch.least.len();
    let (up_to_most, _) = choices.levels.as_slice().split_at(left);
    let (_, some) = up_to_most.split_at(1);
    for level in some {
        step_by_each(block, batch, level.as_slice(), stepper, frontier)?;
    }
    step_by(
        block,
        batch,
        &[],
        &mut stepper.base,
        &mut stepper.reported,
        frontier,
    )
}

// The plans of a node go on, or are found with their end.
fn pass(
    block: &StepBlock<'_, '_>,
    node: Node,
    stepper: &mut Stepper,
    frontier: &mut Frontier,
) -> Result<(), Memory>
    requires way { HasWay (app_in block.now) (limits_in block.now) node.kernel.value node.least }
    requires choices { AreChoices block.now.question.now.choices.now }
    requires left { length node.least < levels_in block.now }
    requires ahead { node.kernel.value.steps < block.now.until }
    requires room { number_in frontier.old + length (nows_in block.now node.least) * node.count < 2 ^ 128 }
    requires found { number_in frontier.old + node.count < 2 ^ 128 }
    ensures { OnOk result (IsPassed block.now node frontier.old frontier.new) }
{
    let question = block.question;
    stepper.base.restore(&node.kernel);
    frontier.live.keep_memory(node.kernel);
    let batch = Batch {
        count: node.count,
        least: node.least,
    };
    match stepper.base.ended(question.app, question.limits) {
        Some(end) => count_end(
            &mut frontier.findings,
            Found {
                number: batch.count,
                least: batch.least,
                steps: stepper.base.steps(),
                ticks: stepper.base.ticks(),
                end,
            },
        ),
        None => go_on(block, &batch, stepper, frontier),
    }
}

/// From the live kernels before a step of the block to those after it: what ends before it is found, and the rest goes on. Plans
/// that have no injection left then go on up to the end of the block. The other layer has no kernels that are of use, before and
/// after that.
pub(crate) fn advance(
    block: &StepBlock<'_, '_>,
    stepper: &mut Stepper,
    frontier: &mut Frontier,
    layer: &mut Layer,
) -> Result<(), Memory>
    requires choices { AreChoices block.now.question.now.choices.now }
    requires ready { IsIn block.now frontier.old }
    ensures { OnOk result (IsStepped block.now frontier.old frontier.new) }
{
    frontier.take_live(block.question.alloc, layer);
    while let Some(node) = layer.nodes.pop() {
        pass(block, node, stepper, frontier)?;
    }
    Ok(())
}

// The plans of a node, which have no injection left, go on up to the end of the block, or are found with their end.
fn pass_spent(
    block: &StepBlock<'_, '_>,
    node: Node,
    stepper: &mut Stepper,
    frontier: &mut Frontier,
) -> Result<(), Memory>
    requires within { AreWithin block.now node.kernel.value (batch_of node) }
    requires room { number_in frontier.old + node.count < 2 ^ 128 }
    ensures { OnOk result (IsPassedSpent block.now node frontier.old frontier.new) }
{
    stepper.kernel.restore(&node.kernel);
    frontier.spent.keep_memory(node.kernel);
    let batch = Batch {
        count: node.count,
        least: node.least,
    };
    settle(
        block,
        batch,
        &mut stepper.kernel,
        &mut stepper.reported,
        &mut frontier.spent,
        &mut frontier.findings,
    )
}

/// From the spent kernels at this step, the end of the last block, to those at the end of this one. The other layer has no
/// kernels that are of use, before and after that.
pub(crate) fn advance_spent(
    block: &StepBlock<'_, '_>,
    end: u32,
    stepper: &mut Stepper,
    frontier: &mut Frontier,
    layer: &mut Layer,
) -> Result<(), Memory>
    requires ready { IsAtEnd block.now.question.now end frontier.old }
    requires ahead { end ≤ block.now.until }
    ensures { OnOk result (HasGoneOn block.now.question.now end block.now.until frontier.old frontier.new) }
{
    frontier.take_spent(block.question.alloc, layer);
    while let Some(node) = layer.nodes.pop() {
        pass_spent(block, node, stepper, frontier)?;
    }
    Ok(())
}
