//! How far the runs have come.
ghost use Rattle.std.specs.Prelude.{◌≡◌, ◌<◌, ◌≤◌, ◌*◌, [], true};

use crate::findings::Found;
use crate::layer::Layer;
use std::alloc::Global;
use std::mem::swap;

/// The fewest steps of a block.
const SHORTEST: u32 = 8;

/// The most steps of a block.
const LONGEST: u32 = 1024;

/// How far the runs have come: those with injections left to kernels before a step, the others to kernels at the end of a block of
/// steps. What has ended is found.
#[derive(Drop)]
pub(crate) struct Frontier {
    pub(crate) live: Layer,
    pub(crate) spent: Layer,
    pub(crate) findings: Vec<Found>,
}

impl Frontier {
    /// Nothing has begun.
    pub(crate) fn new(alloc: Global) -> Frontier
        ensures live { result.live.nodes.items ≡ [] }
        ensures spent { result.spent.nodes.items ≡ [] }
        ensures found { result.findings.items ≡ [] }
    {
        Frontier {
            live: Layer::new(alloc),
            spent: Layer::new(alloc),
            findings: Vec::new(alloc),
        }
    }

    /// Whether all have ended.
    pub(crate) fn is_over(&self) -> bool
        ensures live { result ≡ true → self.now.live.nodes.items ≡ [] }
        ensures spent { result ≡ true → self.now.spent.nodes.items ≡ [] }
    {
        self.live.is_empty() && self.spent.is_empty()
    }

    /// From how many kernels the runs go on.
    pub(crate) fn states(&self) -> usize {
        self.live.nodes.len().saturating_add(self.spent.nodes.len())
    }

    /// Takes the live kernels, into a layer whose own are of no more use.
    pub(crate) fn take_live(&mut self, alloc: Global, layer: &mut Layer)
        ensures taken { layer.new.nodes ≡ self.old.live.nodes }
        ensures none { self.new.live.nodes.items ≡ [] }
        ensures spent { self.new.spent ≡ self.old.spent }
        ensures found { self.new.findings ≡ self.old.findings }
    {
        layer.clear(alloc, self.live.nodes.len());
        swap(layer, &mut self.live);
        // The memory that is spare is for the kernels that are put next.
        swap(&mut layer.spare, &mut self.live.spare);
    }

    /// Takes the spent kernels, in the same way.
    pub(crate) fn take_spent(&mut self, alloc: Global, layer: &mut Layer)
        ensures taken { layer.new.nodes ≡ self.old.spent.nodes }
        ensures none { self.new.spent.nodes.items ≡ [] }
        ensures live { self.new.live ≡ self.old.live }
        ensures found { self.new.findings ≡ self.old.findings }
    {
        layer.clear(alloc, self.spent.nodes.len());
        swap(layer, &mut self.spent);
        swap(&mut layer.spare, &mut self.spent.spare);
    }

    /// How many steps the next block takes, with this many handlers. Each of its steps makes about
    /// as many spent kernels as there are live ones for each handler, and each of these goes on for
    /// half a block. The old ones are looked for once in a block, which takes the time of some
    /// twenty steps.
    pub(crate) fn block(&self, handlers: usize) -> u32
        ensures some { 0 < result }
        ensures few { result ≤ 2 * LONGEST }
    {
        let made = self.live.nodes.len().saturating_mul(handlers) as u64;
        let work = (self.spent.nodes.len() as u64).saturating_mul(40);
        let mut steps = SHORTEST;
        while steps < LONGEST && made.saturating_mul(steps as u64 * steps as u64) < work {
            steps *= 2;
        }
        steps
    }
}
