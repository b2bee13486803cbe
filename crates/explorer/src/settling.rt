//! Runs into which no handler comes any more go on, and end or get to a step.
ghost use Rattle.std.specs.Prelude.{◌≡◌, ◌<◌, ◌+◌, ◌^◌, IfOk, OnOk};
ghost use Rattle.explorer.specs.Frontiers.{GoesFar};
ghost use Rattle.explorer.specs.Layers.{count_of};
ghost use Rattle.explorer.specs.Questions.{AreSettled, AreWithin, app_in, limits_in};
ghost use Rattle.explorer.specs.Totals.{placements_in};

use crate::batch::Batch;
use crate::findings::{Found, count_end};
use crate::layer::Layer;
use crate::question::StepBlock;
use kernel::{Kernel, RestEnding, StepLog, Trail, go_far};
use model::{App, Memory, Meter};
use std::alloc::Global;

/// What steps report: a log for the events of one, and a trail for those of several. Nobody reads them.
#[derive(Drop)]
pub(crate) struct Reported {
    pub(crate) log: StepLog,
    trail: Trail,
}

/// What steps are done with: the kernel of a node, one that goes on from it, and what they report.
#[derive(Drop)]
pub(crate) struct Stepper {
    pub(crate) base: Kernel,
    pub(crate) kernel: Kernel,
    pub(crate) reported: Reported,
}

impl Stepper {
    /// One at reset.
    pub(crate) fn new(alloc: Global, app: &App) -> Stepper {
        Stepper {
            base: Kernel::boot(app),
            kernel: Kernel::boot(app),
            reported: Reported {
                log: StepLog::new(),
                trail: Trail::new(alloc),
            },
        }
    }
}

// The kernel of a batch goes on up to the end of the block, or to the end of its run. All runs with
// such injections do the same. Returns how they end, if they do.
fn go_on_far(
    block: &StepBlock<'_, '_>,
    batch: &Batch,
    kernel: &mut Kernel,
    reported: &mut Reported,
) -> Result<Option<RestEnding>, Memory>
    requires within { AreWithin block.now kernel.old batch.now }
    ensures far { IfOk result (GoesFar (app_in block.now) (limits_in block.now) block.now.until
        kernel.old kernel.new) }
{
    let question = block.question;
    let mut meter = Meter::new();
    reported.trail.truncate(0);
    go_far(
        kernel,
        question.app,
        batch.least.as_slice(),
        block.until,
        question.limits,
        &mut meter,
        &mut reported.log,
        &mut reported.trail,
    )
}

/// The plans of a batch go on from its kernel up to the end of the block, with no more injections.
/// They are put with the kernels there, or, if they end before it, counted with their end.
pub(crate) fn settle(
    block: &StepBlock<'_, '_>,
    batch: Batch,
    kernel: &mut Kernel,
    reported: &mut Reported,
    layer: &mut Layer,
    findings: &mut Vec<Found>,
) -> Result<(), Memory>
    requires within { AreWithin block.now kernel.old batch }
    requires room { count_of layer.old.nodes.items + placements_in findings.old.items + batch.count < 2 ^ 128 }
    ensures settles { OnOk result (AreSettled block.now kernel.old batch
        layer.old.nodes.items layer.new.nodes.items findings.old.items findings.new.items) }
    ensures count { OnOk result (count_of layer.new.nodes.items + placements_in findings.new.items
        ≡ count_of layer.old.nodes.items + placements_in findings.old.items + batch.count) }
{
    let question = block.question;
    let ending = go_on_far(block, &batch, kernel, reported)?;
    let Batch { count, least } = batch;
    match ending {
        Some(ending) => count_end(
            findings,
            Found {
                number: count,
                least,
                steps: ending.steps,
                ticks: ending.ticks,
                end: ending.end,
            },
        ),
        None => layer.add(question.alloc, question.app, kernel, count, least),
    }
}
