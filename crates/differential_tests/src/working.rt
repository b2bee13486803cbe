//! Campaigns made by several workers.
ghost use Rattle.std.specs.Prelude.{◌≡◌, ◌<◌, ◌≤◌, length, sum};
ghost use Rattle.model.specs.Scripts.{most_points};

use campaign::{Finished, Gate, campaign};
use deal::{Division, Tally};
use model::{App, HandlerId, Point};
use std::alloc::Global;
use std::process::Abort;
use std::sync::Wait;
use std::thread::Threads;

/// How the rows of a campaign are made: by this many workers, from checkpoints of the base run that are this many steps apart.
#[derive(Clone, Copy, Debug)]
pub(crate) struct Manner {
    pub(crate) workers: usize,
    pub(crate) stride: u32,

    ghost some_workers: { (0 < workers) × (workers ≤ 64) },
    ghost some_steps: { (0 < stride) × (stride ≤ 65536) },
}

/// Points of the first handler before these steps.
pub(crate) fn points_at(rt: &impl Abort, alloc: Global, steps: &[u32]) -> Vec<Point>
    ensures { length result.items ≤ most_points }
{
    let handler = HandlerId::new(0).expect(rt, "a handler");
    let mut points = Vec::new(alloc);
    for step in steps {
        let point = Point::one(*step, handler);
        points.push(point).ok().expect(rt, "memory");
    }
    assert!(rt; points.len() <= 1_000_000, "few points");
    points
}

/// The division of the points into blocks of these lengths.
pub(crate) fn divided(
    rt: &impl Abort,
    alloc: Global,
    points: &[Point],
    lengths: &[usize],
) -> Division
    ensures { sum result ≡ length points.now }
{
    let lengths = Vec::from_slice(alloc, lengths).ok().expect(rt, "memory");
    match Division::new(points.len(), lengths) {
        Ok(division) => division,
        Err(_) => panic!(rt; "a division"),
    }
}

/// The campaign of an application over these points, with this division and a tally of its own.
pub(crate) fn campaign_in<R: Abort + Threads + Wait + Sync, G: Gate + Sync>(
    rt: &R,
    alloc: Global,
    app: &App,
    points: Vec<Point>,
    manner: Manner,
    division: Division,
    gate: &G,
) -> Finished
    requires few { length points.items ≤ most_points }
    requires division { sum division ≡ length points.items }
{
    let Manner { workers, stride } = manner;
    let Ok((tally, seats)) = Tally::make(alloc, workers) else {
        panic!(rt; "memory");
    };
    let limits = app.limits();
    let finished = campaign(
        rt, alloc, app, points, limits, stride, workers, division, gate, &tally, seats,
    );
    finished.ok().expect(rt, "memory")
}
