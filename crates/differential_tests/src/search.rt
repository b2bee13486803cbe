//! All placements of interrupts. The reference kernel runs each of them from reset.

use model::{App, End, HandlerId, Injection, Limits};
use reference_kernel::ReferenceKernel;
use std::alloc::Global;

/// A placement, and the number of steps of its run.
#[derive(Drop)]
struct Placed {
    injections: Vec<Injection>,
    steps: u32,
}

/// An end that some placements share: how many they are, and the first of them that was found, with the steps and ticks of its run.
#[derive(Drop)]
pub(crate) struct Shared {
    pub(crate) end: End,
    pub(crate) number: u128,
    pub(crate) least: Vec<Injection>,
    pub(crate) steps: u32,
    pub(crate) ticks: u64,
}

/// A search through the placements of an application. Its runs have these limits.
#[derive(Drop)]
pub(crate) struct Search<'a> {
    alloc: Global,
    app: &'a App,
    limits: Limits,
    /// The placements with the most injections so far, the least first.
    longest: Vec<Placed>,
    pub(crate) found: Vec<Shared>,
}

/// The injections among these that come before this step.
fn at_step(alloc: Global, injections: &[Injection], step: u32) -> Option<Vec<Injection>> {
    let mut here = Vec::new(alloc);
    for injection in injections {
        if injection.step == step {
            here.push(*injection).ok()?;
        }
    }
    Some(here)
}

/// These injections, and one more.
fn with_one(alloc: Global, injections: &[Injection], one: Injection) -> Option<Vec<Injection>> {
    let mut all = Vec::from_slice(alloc, injections).ok()?;
    all.push(one).ok()?;
    Some(all)
}

impl<'a> Search<'a> {
    /// A search that has met only the placement without injections; `None` if memory runs out.
    fn begin(alloc: Global, app: &'a App, limits: Limits) -> Option<Self> {
        let mut search = Search {
            alloc,
            app,
            limits,
            longest: Vec::new(alloc),
            found: Vec::new(alloc),
        };
        let mut first = Vec::new(alloc);
        search.meet(Vec::new(alloc), &mut first)?;
        search.longest = first;
        Some(search)
    }

    /// The reference kernel at the end of the run with these injections.
    fn run(&self, injections: &[Injection]) -> Option<ReferenceKernel> {
        let mut reference = ReferenceKernel::boot(self.alloc, self.app);
        for _ in 0..self.limits.steps {
            if reference.end(self.app, &self.limits).is_some() {
                break;
            }
            let here = at_step(self.alloc, injections, reference.steps)?;
            reference.step(self.app, &self.limits, here.as_slice());
        }
        Some(reference)
    }

    /// Counts a placement by how its run ends.
    fn count(&mut self, injections: &[Injection], reference: &ReferenceKernel) -> Option<()> {
        let end = reference.end(self.app, &self.limits)?;
        for shared in self.found.iter_mut() {
            if shared.end == end {
                shared.number = shared.number.wrapping_add(1);
                return Some(());
            }
        }
        let shared = Shared {
            end,
            number: 1,
            least: Vec::from_slice(self.alloc, injections).ok()?,
            steps: reference.steps,
            ticks: reference.elapsed,
        };
        self.found.push(shared).ok()
    }

    /// Runs these injections. They are a placement if each of them can come in its turn.
    fn meet(&mut self, injections: Vec<Injection>, longer: &mut Vec<Placed>) -> Option<()> {
        let reference = self.run(injections.as_slice())?;
        if reference.tally.disarmed_injections > 0 || reference.tally.early_injections > 0 {
            return Some(());
        }
        self.count(injections.as_slice(), &reference)?;
        let steps = reference.steps;
        longer.push(Placed { injections, steps }).ok()
    }

    /// Meets each placement that consists of these injections and one more before this step.
    fn extend_at(
        &mut self,
        injections: &[Injection],
        step: u32,
        sources: &[HandlerId],
        longer: &mut Vec<Placed>,
    ) -> Option<()> {
        for source in sources {
            let handler = *source;
            let more = with_one(self.alloc, injections, Injection { step, handler })?;
            self.meet(more, longer)?;
        }
        Some(())
    }

    /// Meets each placement that has one injection more than this one, at the step of its last injection or later.
    fn extend(
        &mut self,
        placed: &Placed,
        sources: &[HandlerId],
        longer: &mut Vec<Placed>,
    ) -> Option<()> {
        let first = match placed.injections.as_slice() {
            [] => 0,
            [.., last] => last.step,
        };
        for step in first..placed.steps {
            self.extend_at(placed.injections.as_slice(), step, sources, longer)?;
        }
        Some(())
    }

    /// Meets the placements with one injection more than the longest so far.
    fn go_on(&mut self, sources: &[HandlerId]) -> Option<()> {
        let mut longer = Vec::new(self.alloc);
        let longest = std::mem::replace(&mut self.longest, Vec::new(self.alloc));
        for placed in longest.iter() {
            self.extend(placed, sources, &mut longer)?;
        }
        self.longest = longer;
        Some(())
    }
}

/// How the runs of all placements of at most this many injections of these interrupts end, in the order in which the ends are
/// found. Placements with fewer injections come first, and among those with the same number the lesser. `None` if memory runs out.
pub(crate) fn all_placements<'a>(
    alloc: Global,
    app: &'a App,
    limits: Limits,
    sources: &[HandlerId],
    most: usize,
) -> Option<Search<'a>> {
    let mut search = Search::begin(alloc, app, limits)?;
    for _ in 0..most {
        search.go_on(sources)?;
    }
    Some(search)
}
