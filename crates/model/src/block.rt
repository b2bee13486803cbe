//! The blocks of a script: loops, and the branches of an `if`.
ghost use Rattle.std.specs.Prelude.{◌≡◌, ◌<◌, List, [], ◌∷◌, length, drop, true, not, nat_lt};
ghost use Rattle.model.specs.declared.block.Block.TheVariants as block;
ghost use Rattle.model.specs.Blocks.{blocks_past, ending, is_if, is_innermost, is_loop, loops_in, may_stand};

use crate::op::Op;
use arrayvec::ArrayVec;
use std::marker::Model;

/// A block that is open (profile).
#[derive(Clone, Copy, Default, PartialEq, Eq)]
pub enum Block {
    /// From a `repeat` on: a loop.
    #[default]
    Loop,
    /// From an `if` on: its first branch.
    If,
    /// From an `else` on: the other branch of an `if`.
    Else,
}

/// What an op is to the blocks of its script.
#[derive(Clone, Copy, PartialEq, Eq)]
pub enum Edge {
    /// It opens a loop.
    OpensLoop,
    /// It ends a loop.
    EndsLoop,
    /// It opens the first branch of an `if`.
    OpensIf,
    /// It ends the first branch of an `if`, and opens the other.
    OpensElse,
    /// It ends an `if`, in its first branch or in the other.
    EndsIf,
    /// It leaves a loop.
    Breaks,
    /// None of these.
    Inside,
}

/// The blocks that are open around an op.
#[derive(Drop)]
pub struct OpenBlocks {
    // the innermost first
    blocks: ArrayVec<Block, 8>,
}

impl Model for OpenBlocks {
    ghost use Rattle.std.specs.Prelude.{List};
    ghost use Rattle.model.specs.declared.block.Block.{Block};

    ghost Value = { List Block };

    ghost view = { λ o. o.blocks.items };
}

impl OpenBlocks {
    /// The most blocks that are open at once, of all kinds together (profile).
    pub const MOST_BLOCKS: usize = 8;

    /// The most loops that are open at once (profile).
    pub const MOST_LOOPS: usize = 4;

    /// The beginning of a script.
    pub fn new() -> Self
        ensures { result ≡ [] }
    {
        OpenBlocks {
            blocks: ArrayVec::new(),
        }
    }

    /// Whether none is open.
    pub fn is_empty(&self) -> bool
        ensures { result ≡ not (nat_lt 0 (length self.now)) }
    {
        self.blocks.as_slice().is_empty()
    }

    // Whether the innermost is a loop.
    fn is_in_loop(&self) -> bool
        ensures { result ≡ is_innermost is_loop self.now }
    {
        matches!(self.blocks.as_slice().first(), Some(Block::Loop))
    }

    // Whether the innermost is the first branch of an `if`.
    fn is_in_if(&self) -> bool
        ensures { result ≡ is_innermost is_if self.now }
    {
        matches!(self.blocks.as_slice().first(), Some(Block::If))
    }

    // Whether the innermost is a branch of an `if`.
    fn is_in_branch(&self) -> bool
        ensures { result ≡ is_innermost (λ b. not (is_loop b)) self.now }
    {
        matches!(
            self.blocks.as_slice().first(),
            Some(Block::If | Block::Else)
        )
    }

    // How many are loops.
    fn loops(&self) -> usize
        ensures { result ≡ loops_in self.now }
    {
        let mut loops = 0;
        for block in self.blocks.as_slice() {
            if matches!(block, Block::Loop) {
                loops += 1;
            }
        }
        loops
    }

    /// Whether an op is allowed there: it opens no ninth block and no fifth loop, and ends and leaves only what is open (profile).
    pub fn may_stand(&self, edge: Edge) -> bool
        ensures { result ≡ may_stand edge self.now }
    {
        let has_room = self.blocks.as_slice().len() < Self::MOST_BLOCKS;
        match edge {
            Edge::OpensLoop => self.loops() < Self::MOST_LOOPS && has_room,
            Edge::EndsLoop => self.is_in_loop(),
            Edge::OpensIf => has_room,
            Edge::OpensElse => self.is_in_if(),
            Edge::EndsIf => self.is_in_branch(),
            Edge::Breaks => self.loops() > 0,
            Edge::Inside => true,
        }
    }

    /// Those that are open after the op, which is allowed there.
    pub fn pass(&mut self, edge: Edge)
        requires { may_stand edge self.old ≡ true }
        ensures { self.new ≡ blocks_past edge self.old }
    {
        match edge {
            Edge::OpensLoop => self.blocks.insert(0, Block::Loop),
            Edge::OpensIf => self.blocks.insert(0, Block::If),
            Edge::EndsLoop | Edge::EndsIf => self.leave(),
            Edge::OpensElse => self.go_to_else(),
            Edge::Breaks | Edge::Inside => {}
        }
    }

    // The innermost is over.
    fn leave(&mut self)
        ensures { self.new ≡ drop 1 self.old }
    {
        let _ = self.blocks.pop_at(0);
    }

    // The innermost is over, and the other branch of its `if` begins.
    fn go_to_else(&mut self)
        requires { is_innermost is_if self.old ≡ true }
        ensures { self.new ≡ block.Else ∷ drop 1 self.old }
    {
        if let Some(innermost) = self.blocks.get_mut(0) {
            *innermost = Block::Else;
        }
    }

    /// An op whose text is this one's; an `end` becomes that of the innermost block.
    pub fn ending(&self, op: Op) -> Op
        ensures { result ≡ ending self.now op }
    {
        match op {
            Op::End if self.is_in_branch() => Op::EndIf,
            _ => op,
        }
    }
}
