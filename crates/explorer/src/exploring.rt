//! All placements of an application.
ghost use Rattle.std.specs.Prelude.{◌<◌, ◌≤◌, ◌^◌, IfOk};
ghost use Rattle.model.specs.Placements.{IsExplored};
ghost use Rattle.explorer.specs.Questions.{AreFewChoices, HasGoneOn, HasTally, IsAtEnd};
ghost use Rattle.explorer.specs.Totals.{placements_in};

use crate::advance::{advance, advance_spent};
use crate::choices::Choices;
use crate::findings::Found;
use crate::frontier::Frontier;
use crate::layer::Layer;
use crate::order::in_order;
use crate::placement::Placement;
use crate::question::{Question, StepBlock};
use crate::settling::Stepper;
use crate::watch::Watch;
use kernel::Kernel;
use model::{App, HandlerId, Limits, Memory};
use std::alloc::Global;

// If the block ends before this step, another one begins. Returns the end of the block with this step.
fn begin_block<W: Watch>(
    block: &StepBlock<'_, '_>,
    step: u32,
    stepper: &mut Stepper,
    frontier: &mut Frontier,
    layer: &mut Layer,
    watch: &W,
) -> Result<u32, Memory>
    requires ready { IsAtEnd block.now.question.now block.now.until frontier.old }
    requires early { step ≤ 1000000 }
    requires ahead { step ≤ block.now.until }
    ensures ahead { IfOk result (λ next. step < next) }
    ensures through { IfOk result (λ next. HasGoneOn block.now.question.now block.now.until next frontier.old frontier.new) }
{
    if step < block.until {
        return Ok(block.until);
    }
    watch.passed(step, frontier.states());
    let question = block.question;
    let next = StepBlock {
        question,
        until: step + frontier.block(question.choices.handlers.len()),
    };
    advance_spent(&next, block.until, stepper, frontier, layer)?;
    Ok(next.until)
}

// What is found of each end among all placements, in any order.
fn all_found<W: Watch>(question: &Question<'_>, watch: &W) -> Result<Vec<Found>, Memory>
    requires choices { AreFewChoices question.now.choices.now }
    ensures { IfOk result (λ found. HasTally question.now found.items) }
{
    let alloc = question.alloc;
    let app = question.app;
    let limits = question.limits;
    app.well_formed();
    limits.well_formed();
    let mut stepper = Stepper::new(alloc, app);
    let mut frontier = Frontier::new(alloc);
    let mut layer = Layer::new(alloc);
    let mut until = 0;
    let first = Kernel::boot(app);
    frontier.live.add(alloc, app, &first, 1, Placement::none())?;
    'steps: for step in 0..limits.steps + 1 {
        if frontier.is_over() {
            return Ok(frontier.findings);
        }
        let block = StepBlock { question, until };
        until = begin_block(&block, step, &mut stepper, &mut frontier, &mut layer, watch)?;
        let block = StepBlock { question, until };
        advance(&block, &mut stepper, &mut frontier, &mut layer)?;
    }
    Ok(frontier.findings)
}

// The same; the watch also learns when it is done, even if memory was refused.
fn found_while_watched<W: Watch>(question: &Question<'_>, watch: &W) -> Result<Vec<Found>, Memory>
    requires choices { AreFewChoices question.now.choices.now }
    ensures { IfOk result (λ found. HasTally question.now found.items) }
{
    let found = all_found(question, watch);
    watch.finished();
    found
}

/// What is found among all placements of at most so many injections (three at most) of these handlers, in the run of an
/// application under these limits: of each end that some placement has how many have it, and the least of them. In which order
/// the handlers are named, and whether twice, makes no difference. There are fewer than 2^128 placements in all. Meanwhile
/// `watch` learns how far this has come.
///
/// `Memory` is returned only if a growth was refused.
pub fn explore<W: Watch>(
    alloc: Global,
    app: &App,
    limits: &Limits,
    handlers: &[HandlerId],
    most: usize,
    watch: &W,
) -> Result<Vec<Found>, Memory>
    requires { most ≤ 3 }
    ensures explored { IfOk result (λ found. IsExplored app.now limits.now handlers.now most found.items) }
    ensures few { IfOk result (λ found. placements_in found.items < 2 ^ 128) }
{
    let choices = Choices::new(alloc, handlers, most)?;
    let question = Question {
        alloc,
        app,
        limits,
        choices: &choices,
    };
    let found = found_while_watched(&question, watch)?;
    in_order(alloc, found)
}
