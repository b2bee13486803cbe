//! The kernels that runs have reached before a step.
ghost use Rattle.std.specs.Prelude.{◌≡◌, ◌<◌, ◌+◌, ◌^◌, [], true, length, IfOk, IfSome, OnOk};
ghost use Rattle.explorer.specs.Layers.{Gains, count_of};
ghost use Rattle.explorer.specs.Nodes.{IsAlike, IsJoined, IsPut};

use crate::placement::Placement;
use kernel::{Kernel, Snapshot};
use model::{App, Memory};
use std::alloc::Global;

// The number in a place that has no node.
const NO_NODE: u32 = u32::MAX;

// For more kernels than this many the table doesn't grow.
const MOST_KERNELS: usize = 1 << 28;

/// A kernel that runs have reached before a step, with plans of equally many injections: how many
/// they are, and the least of them.
#[derive(Drop)]
pub(crate) struct Node {
    pub(crate) kernel: Box<Snapshot>,
    pub(crate) count: u128,
    pub(crate) least: Placement,
    hint: u64,
    // The number of the node that is looked at after this one.
    after: u32,
}

/// All kernels that runs have reached before a step, and a table of guesses at where to look for
/// one. A wrong guess costs time and memory alone.
#[derive(Drop)]
pub(crate) struct Layer {
    pub(crate) nodes: Vec<Node>,
    heads: Vec<u32>,
    // The memory of kernels that can't be used any more.
    pub(crate) spare: Vec<Box<Snapshot>>,
}

// A table for about this many kernels, in the memory that it has, if that suffices. If there is no
// memory for it, none will be found. Its places are a power of two.
fn clear_table(alloc: Global, heads: &mut Vec<u32>, about: usize) {
    if heads.len() / 2 < about || heads.is_empty() {
        let places = about.min(MOST_KERNELS).next_power_of_two() * 4;
        *heads = vec![in alloc; NO_NODE; places].unwrap_or(Vec::new(alloc));
    } else {
        heads.as_mut_slice().fill(NO_NODE);
    }
}

impl Layer {
    /// One without kernels.
    pub(crate) fn new(alloc: Global) -> Layer
        ensures { result.nodes.items ≡ [] }
    {
        let mut heads = Vec::new(alloc);
        clear_table(alloc, &mut heads, 1);
        Layer {
            nodes: Vec::new(alloc),
            heads,
            spare: Vec::new(alloc),
        }
    }

    /// Drops its kernels, and makes a table for about this many others.
    pub(crate) fn clear(&mut self, alloc: Global, about: usize)
        ensures { self.new.nodes.items ≡ [] }
    {
        self.nodes.clear();
        clear_table(alloc, &mut self.heads, about);
    }

    /// Keeps the memory of a kernel that can't be used any more. The next kernel that is put is written there.
    pub(crate) fn keep_memory(&mut self, kernel: Box<Snapshot>)
        ensures { self.new.nodes ≡ self.old.nodes }
    {
        // If there is no room for it, it is given back.
        let _refused = self.spare.push(kernel).is_err();
    }

    /// Whether there are none.
    pub(crate) fn is_empty(&self) -> bool
        ensures { result ≡ true → self.now.nodes.items ≡ [] }
    {
        self.nodes.is_empty()
    }

    // The place of the table for a hint.
    fn place(&self, hint: u64) -> usize {
        match self.heads.len() {
            0 => 0,
            places => (hint as usize) & (places - 1),
        }
    }

    // The number of a node of this kernel, of this hint, with plans of this many injections, if one
    // is found.
    fn find(&self, kernel: &Kernel, hint: u64, length: usize) -> Option<usize>
        ensures { IfSome result (IsAlike self.now.nodes.items kernel.now length) }
    {
        let mut number = *self.heads.get(self.place(hint))?;
        for _ in 0..self.nodes.len() {
            let node = self.nodes.get(number as usize)?;
            if node.hint == hint && node.least.len() == length && kernel.is_at(&node.kernel) {
                return Some(number as usize);
            }
            number = node.after;
        }
        None
    }

    // Adds this many plans to those of this node; this is the least of them.
    fn join(&mut self, number: usize, count: u128, least: Placement)
        requires within { number < length self.old.nodes.items }
        requires room { count_of self.old.nodes.items + count < 2 ^ 128 }
        ensures { IsJoined self.old.nodes.items self.new.nodes.items number count least }
    {
        let node = &mut self.nodes[number];
        node.count += count;
        if least.is_less(&node.least) {
            node.least = least;
        }
    }

    // A snapshot of the kernel, in spare memory, if there is some.
    fn snapshot(&mut self, alloc: Global, kernel: &Kernel) -> Result<Box<Snapshot>, Memory>
        ensures kernel { IfOk result (λ snapshot. snapshot.value ≡ kernel.now) }
        ensures kept { self.new.nodes ≡ self.old.nodes }
    {
        if let Some(mut snapshot) = self.spare.pop() {
            if kernel.save(&mut snapshot) {
                return Ok(snapshot);
            }
        }
        kernel.boxed_snapshot(alloc)
    }

    // One node more.
    fn put(
        &mut self,
        alloc: Global,
        kernel: &Kernel,
        hint: u64,
        count: u128,
        least: Placement,
    ) -> Result<(), Memory>
        ensures { OnOk result (IsPut self.old.nodes.items self.new.nodes.items kernel.now count least) }
    {
        let place = self.place(hint);
        let number = u32::try_from(self.nodes.len()).unwrap_or(NO_NODE);
        let after = self.heads.get(place).copied().unwrap_or(NO_NODE);
        let snapshot = self.snapshot(alloc, kernel)?;
        self.nodes.push(Node {
            kernel: snapshot,
            count,
            least,
            hint,
            after,
        })?;
        if let Some(head) = self.heads.get_mut(place) {
            *head = number;
        }
        Ok(())
    }

    /// This many more plans reach this kernel, all with equally many injections; this is the least
    /// of them.
    pub(crate) fn add(
        &mut self,
        alloc: Global,
        app: &App,
        kernel: &Kernel,
        count: u128,
        least: Placement,
    ) -> Result<(), Memory>
        requires room { count_of self.old.nodes.items + count < 2 ^ 128 }
        ensures gains { OnOk result (Gains self.old.nodes.items self.new.nodes.items kernel.now count least) }
        ensures count { OnOk result (count_of self.new.nodes.items ≡ count_of self.old.nodes.items + count) }
    {
        let hint = kernel.hint(app);
        let found = self.find(kernel, hint, least.len());
        match found {
            Some(number) => {
                self.join(number, count, least);
                Ok(())
            }
            None => self.put(alloc, kernel, hint, count, least),
        }
    }
}
