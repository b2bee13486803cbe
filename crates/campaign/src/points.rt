//! The points of a file, one by one.
ghost use Rattle.std.specs.Prelude.{◌≡◌, ◌≤◌, ◌<◌, ◌+◌, ◌-◌, ◌^◌, ◌++◌, ◌∷◌, [], length, min, IfOk, IfErr, OnOk, OnErr, MatchOption};
ghost use Rattle.std.specs.List.{flat_map};
ghost use Rattle.model.specs.Scripts.{most_points};
ghost use Rattle.model.specs.Campaign.{points_of, points_in};
ghost use Rattle.model.specs.declared.plan.PointEntry.TheVariants.{Each};
ghost use Rattle.campaign.specs.Points.{IsExpandFault};

use model::{App, Memory, Point, PointEntry, PointRange, Run};
use std::alloc::Global;

/// Why the points of a file are not listed.
#[derive(Clone, Copy)]
pub enum ExpandFault {
    /// There are more than 1,000,000 (profile).
    TooManyPoints,
    /// No memory is left for them.
    Memory,
}

// The step after the last one of a range that a run of this many steps has.
fn end_of(range: PointRange, steps: u32) -> u32
    ensures { result ≡ min steps (range.last + 1) }
{
    if range.last < steps {
        range.last + 1
    } else {
        steps
    }
}

// How many points an entry means, if the base run has this many steps.
fn count_of(entry: &PointEntry, steps: u32) -> usize
    ensures count { result ≡ length (points_of steps entry.now) }
    ensures few { result ≤ 2 ^ 32 }
{
    match entry {
        PointEntry::One(_) => 1,
        PointEntry::Each(range) => end_of(*range, steps).saturating_sub(range.first) as usize,
    }
}

// How many points the entries mean; `None` if these are more than there may be.
fn count_points(entries: &[PointEntry], steps: u32) -> Option<usize>
    ensures { MatchOption result (most_points < length (flat_map (points_of steps) entries.now))
        (λ count. (count ≡ length (flat_map (points_of steps) entries.now)) × (count ≤ most_points)) }
{
    let mut count = 0;
    for entry in entries {
        count += count_of(entry, steps);
        if count > App::MOST_POINTS {
            return None;
        }
    }
    Some(count)
}

// Appends a point.
fn push_point(points: &mut Vec<Point>, point: &Point) -> Result<(), Memory>
    ensures { OnOk result (points.new.items ≡ points.old.items ++ point.now ∷ []) }
{
    points.push(*point)?;
    Ok(())
}

// Appends the points of a range.
fn push_each(points: &mut Vec<Point>, range: PointRange, steps: u32) -> Result<(), Memory>
    ensures { OnOk result (points.new.items ≡ points.old.items ++ points_of steps (Each range)) }
{
    let PointRange { handler, first, .. } = range;
    let end = end_of(range, steps);
    for step in first..end {
        push_point(points, &Point::one(step, handler))?;
    }
    Ok(())
}

// Appends the points of an entry.
fn push_entry(points: &mut Vec<Point>, entry: &PointEntry, steps: u32) -> Result<(), Memory>
    ensures { OnOk result (points.new.items ≡ points.old.items ++ points_of steps entry.now) }
{
    match entry {
        PointEntry::One(point) => push_point(points, point),
        PointEntry::Each(range) => push_each(points, *range, steps),
    }
}

// The points of these entries: there are this many.
fn points_from(
    alloc: Global,
    entries: &[PointEntry],
    steps: u32,
    count: usize,
) -> Result<Vec<Point>, Memory>
    requires { count ≡ length (flat_map (points_of steps) entries.now) }
    ensures points { IfOk result (λ points. points.items ≡ flat_map (points_of steps) entries.now) }
    ensures memory { OnErr result (0 < count) }
{
    let mut points = Vec::new(alloc);
    if count == 0 {
        return Ok(points);
    }
    if points.reserve_exact(count).is_err() {
        return Err(Memory);
    }
    for entry in entries {
        push_entry(&mut points, entry, steps)?;
    }
    Ok(points)
}

/// The points of an application's campaign, in the order of the file: `all` means steps of the base run, which is this
/// one. `TooManyPoints` is found before memory is taken.
pub fn expand(alloc: Global, app: &App, base: &Run) -> Result<Vec<Point>, ExpandFault>
    ensures points { IfOk result (λ points. (points.items ≡ points_in app.now base.now.steps)
        × (length points.items ≤ most_points)) }
    ensures fault { IfErr result (IsExpandFault app.now base.now.steps) }
{
    let Some(count) = count_points(app.points(), base.steps) else {
        return Err(ExpandFault::TooManyPoints);
    };
    match points_from(alloc, app.points(), base.steps, count) {
        Ok(points) => Ok(points),
        Err(Memory) => Err(ExpandFault::Memory),
    }
}
