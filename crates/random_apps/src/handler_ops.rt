//! Ops of a handler under construction, whose blocks nest.
ghost use Rattle.std.specs.Prelude.{◌≡◌, ◌⊎◌, ◌++◌, ◌∷◌, [], IfSome};
ghost use Rattle.model.specs.Blocks.{Nests, isr_edges_of};

use model::{IsrOp, OpenBlocks};
use std::alloc::Global;
use std::marker::Model;

/// Ops of a handler under construction. Each is allowed in its place, and branches may still be open.
#[derive(Drop)]
pub(super) struct HandlerOps {
    ops: Vec<IsrOp>,
    blocks: OpenBlocks,
}

impl Model for HandlerOps {
    ghost use Rattle.std.specs.Prelude.{◌≡◌, [], List};
    ghost use Rattle.model.specs.declared.op.IsrOp.{IsrOp};
    ghost use Rattle.model.specs.Blocks.{NestsSoFar, blocks_after, isr_edges_of};

    ghost Value = { List IsrOp };

    ghost view = { λ h. h.ops.items };

    ghost invariant = { λ h. (h.blocks ≡ blocks_after [] (isr_edges_of h.ops.items)) × NestsSoFar [] (isr_edges_of h.ops.items) };
}

impl HandlerOps {
    /// No ops.
    pub(super) fn new(alloc: Global) -> Self
        ensures { result ≡ [] }
    {
        HandlerOps {
            ops: Vec::new(alloc),
            blocks: OpenBlocks::new(),
        }
    }

    /// Appends an op, or leaves it out if it isn't allowed.
    pub(super) fn push(&mut self, op: IsrOp)
        ensures { (self.new ≡ self.old ++ op ∷ []) ⊎ (self.new ≡ self.old) }
    {
        let edge = op.edge();
        if !self.blocks.may_stand(edge) {
            return;
        }
        match self.ops.push(op) {
            Ok(()) => self.blocks.pass(edge),
            Err(_) => {}
        }
    }

    /// The ops, if no branch is open.
    pub(super) fn finish(self) -> Option<Vec<IsrOp>>
        ensures same { IfSome result (λ ops. ops.items ≡ self) }
        ensures nests { IfSome result (λ ops. Nests [] (isr_edges_of ops.items)) }
    {
        if self.blocks.is_empty() {
            Some(self.ops)
        } else {
            None
        }
    }
}
