//! Meeting steps: those at which a row looks for visited states, and leaves one.
ghost use Rattle.std.specs.Prelude.{◌<◌, ◌^◌};

// This many steps are between two meeting steps near an injection, or a few more, if they are widest
// apart (`Spacing`).
const WIDE: u32 = 64;

/// The steps between two meeting steps near an injection at most, if the base run has a checkpoint
/// before each `stride`-th step: the least of the strides doubled that are 64 or more, so that rows
/// meet the base run at its checkpoints; 64 if these are further from each other.
pub(crate) fn spacing_of(stride: u32) -> u32 {
    let mut spacing = stride.clamp(1, WIDE);
    for _ in 0..6 {
        if spacing < WIDE {
            spacing *= 2;
        }
    }
    spacing
}

// The steps between two meeting steps so far after the last injection: a sixteenth to an eighth of
// the way. They are multiples of each other, so a row looks at each step at which a row that was
// injected before it left a visited state.
fn spacing_at(spacing: u32, way: u32) -> u32 {
    let eighths = way / spacing.max(1) / 8;
    if eighths < 2 {
        spacing
    } else {
        spacing << (31 - eighths.leading_zeros())
    }
}

/// Whether a row whose last injection comes before the step `last` may look for visited states at
/// `step`, if this many steps are between two meeting steps that are closest together. If it
/// doesn't, no row with an earlier last injection does.
pub(crate) fn may_look(closest: u32, last: u32, step: u32) -> bool {
    last < step && step % spacing_at(closest, step - last).max(1) == 0
}

/// The next meeting step after this step, of a row whose last injection comes before that step.
pub(crate) fn next_meeting_step(spacing: u32, last: u32, step: u32) -> u32
    requires { step < 2 ^ 31 }
    ensures { step < result }
{
    let spacing = spacing_at(spacing, step.saturating_sub(last)).max(1);
    let next = (step / spacing).saturating_add(1).saturating_mul(spacing);
    next.max(step + 1)
}
