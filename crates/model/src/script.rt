//! Scripts whose blocks are well nested, built op by op.
ghost use Rattle.std.specs.Prelude.{◌≡◌, true, false, ◌<◌, ◌≤◌, ◌↔◌, ◌++◌, ◌∷◌, [], length, OnOk, OnErr, IfOk};
ghost use Rattle.model.specs.Scripts.{IsScript, InRange, is_mask, is_wait, most_ops};
ghost use Rattle.model.specs.Blocks.{edges_of, ending, jump_from, jumped_over, jumps_from, may_come, open_behind, past_branch, past_loop};

use crate::block::{Edge, OpenBlocks};
use crate::op::Op;
use std::alloc::{AllocError, Global};
use std::marker::Model;

/// The script of a task: at most 256 ops, each in its range, its blocks closed, at most eight deep and of loops at most four
/// (profile).
#[derive(Drop)]
pub struct Script {
    ops: Vec<Op>,
    // the op that each goes on at if it jumps
    jumps: Vec<u16>,
}

impl Model for Script {
    ghost use Rattle.std.specs.Prelude.{◌≡◌, List};
    ghost use Rattle.model.specs.declared.op.Op.{Op};
    ghost use Rattle.model.specs.Blocks.{edges_of, jumps_from};

    ghost Value = { List Op };

    ghost view = { λ s. s.ops.items };

    ghost invariant = { λ s. s.jumps.items ≡ jumps_from 0 (edges_of s.ops.items) };
}

impl Script {
    /// The most ops of a script (profile).
    pub const MOST_OPS: usize = 256;

    /// The ops, in order.
    pub fn ops(&self) -> &[Op]
        ensures { result.now ≡ self.now }
    {
        self.ops.as_slice()
    }

    /// The index of the op that is next if the op of this index jumps.
    #[inline]
    pub fn jump_from(&self, op_index: u16) -> u16
        requires { op_index < most_ops }
        ensures { result ≡ jump_from self.now op_index }
    {
        match self.jumps.get(op_index as usize) {
            Some(next) => *next,
            None => op_index + 1,
        }
    }
}

// How many ops there are to the end of the branch in which these begin, its `else` or `end` included.
fn past_branch(ops: &[Op]) -> u16
    requires { length ops.now ≤ most_ops }
    ensures value { result ≡ past_branch 0 (edges_of ops.now) }
    ensures bound { result ≤ length ops.now }
{
    let mut inner: u16 = 0;
    let mut passed: u16 = 0;
    for op in ops {
        passed += 1;
        match op.edge() {
            Edge::OpensIf => inner += 1,
            Edge::OpensElse if inner == 0 => return passed,
            Edge::EndsIf if inner == 0 => return passed,
            Edge::EndsIf => inner -= 1,
            _ => {}
        }
    }
    passed
}

// How many there are to the end of the loop in which these begin, its `end` included.
fn past_loop(ops: &[Op]) -> u16
    requires { length ops.now ≤ most_ops }
    ensures value { result ≡ past_loop 0 (edges_of ops.now) }
    ensures bound { result ≤ length ops.now }
{
    let mut inner: u16 = 0;
    let mut passed: u16 = 0;
    for op in ops {
        passed += 1;
        match op.edge() {
            Edge::OpensLoop => inner += 1,
            Edge::EndsLoop if inner == 0 => return passed,
            Edge::EndsLoop => inner -= 1,
            _ => {}
        }
    }
    passed
}

// Over how many ops this one jumps, if these come after it.
fn jumped_over(op: &Op, behind: &[Op]) -> u16
    requires { length behind.now ≤ most_ops }
    ensures value { result ≡ jumped_over (edges_of (op.now ∷ behind.now)) }
    ensures bound { result ≤ length behind.now }
{
    match op.edge() {
        Edge::OpensIf | Edge::OpensElse => past_branch(behind),
        Edge::Breaks => past_loop(behind),
        _ => 0,
    }
}

// The op that each of these ops goes on at if it jumps.
fn jumps_of(alloc: Global, ops: &[Op]) -> Result<Vec<u16>, AllocError>
    requires { length ops.now ≤ most_ops }
    ensures { IfOk result (λ v. v.items ≡ jumps_from 0 (edges_of ops.now)) }
{
    let mut jumps = Vec::new(alloc);
    for (index, op) in ops.iter().enumerate() {
        let next = index + 1;
        jumps.push(next as u16 + jumped_over(op, &ops[next..]))?;
    }
    Ok(jumps)
}

/// Whether a call may wait for this many ticks, or forever.
fn is_wait(ticks: Option<u32>) -> bool
    ensures { result ≡ is_wait ticks }
{
    match ticks {
        None => true,
        Some(ticks) => ticks <= Op::MOST_WAIT,
    }
}

/// Whether these are some bits of an event group.
fn is_mask(mask: u32) -> bool
    ensures { result ≡ is_mask mask }
{
    1 <= mask && mask <= Op::MOST_BITS
}

impl Op {
    ghost use Rattle.std.specs.Prelude.{◌≡◌};
    ghost use Rattle.model.specs.Scripts.{is_in_range};

    /// The most ticks of a `work` (profile).
    pub const MOST_WORK: u32 = 1_000_000;

    /// The most turns of a loop (profile).
    pub const MOST_TURNS: u16 = 1000;

    /// The most ticks of a wait that isn't forever: one less than `portMAX_DELAY`.
    pub const MOST_WAIT: u32 = u32::MAX - 1;

    /// The greatest set of bits: an event group has 24 (as with ticks of 32 bits in FreeRTOS).
    pub const MOST_BITS: u32 = 16_777_215;

    /// Whether its numbers are in their ranges.
    pub fn is_in_range(&self) -> bool
        ensures { result ≡ is_in_range self.now }
    {
        match self {
            Op::Work(ticks) => 1 <= *ticks && *ticks <= Self::MOST_WORK,
            Op::DelayUntil(ticks) => 1 <= *ticks,
            Op::Repeat(Some(turns)) => 1 <= *turns && *turns <= Self::MOST_TURNS,
            Op::Await(_, _, ticks) => is_wait(*ticks),
            Op::SetBits(_, mask) | Op::ClearBits(_, mask) => is_mask(*mask),
            Op::WaitBits(_, condition, ticks) => is_mask(condition.mask) && is_wait(*ticks),
            Op::AwaitNotification(_, ticks) => is_wait(*ticks),
            Op::Value(op) => op.is_defined(),
            Op::Source(_, op) => op.is_in_range(),
            _ => true,
        }
    }
}

/// Why an op can't be appended, or a script isn't whole.
#[derive(Clone, Copy)]
pub enum NestingFault {
    /// The op is not allowed there, or a block is left open.
    BadNesting,
    /// No memory for it.
    Memory,
}

/// A script in the making.
#[derive(Drop)]
pub struct ScriptBuilder {
    ops: Vec<Op>,
    blocks: OpenBlocks,
}

impl Model for ScriptBuilder {
    ghost use Rattle.std.specs.Prelude.{◌≡◌, [], List};
    ghost use Rattle.model.specs.declared.op.Op.{Op};
    ghost use Rattle.model.specs.Blocks.{blocks_after, edges_of};
    ghost use Rattle.model.specs.Scripts.{IsPrefix};

    ghost Value = { List Op };

    ghost view = { λ b. b.ops.items };

    ghost invariant = { λ b. (b.blocks ≡ blocks_after [] (edges_of b.ops.items)) × IsPrefix b.ops.items };
}

impl ScriptBuilder {
    /// A script without ops.
    pub fn new(alloc: Global) -> Self
        ensures { result ≡ [] }
    {
        ScriptBuilder {
            ops: Vec::new(alloc),
            blocks: OpenBlocks::new(),
        }
    }

    /// Appends an op, whose numbers are in their ranges, to fewer than 256; an `end` ends the innermost block. At an `Err` the
    /// script is as it was: `BadNesting` if the op is not allowed there, whatever memory is left, and `Memory` only if it is.
    pub fn push(&mut self, op: Op) -> Result<(), NestingFault>
        requires range { InRange op }
        requires room { length self.old < 256 }
        ensures ok { OnOk result (self.new ≡ self.old ++ ending (open_behind self.old) op ∷ []) }
        ensures stands { OnOk result (may_come op self.old ≡ true) }
        ensures err { OnErr result (self.new ≡ self.old) }
        ensures refused { (result ≡ Err NestingFault.BadNesting) ↔ (may_come op self.old ≡ false) }
    {
        let op = self.blocks.ending(op);
        if !self.blocks.may_stand(op.edge()) {
            return Err(NestingFault::BadNesting);
        }
        match self.ops.push(op) {
            Ok(()) => {
                self.blocks.pass(op.edge());
                Ok(())
            }
            Err(_) => Err(NestingFault::Memory),
        }
    }

    /// The script, if every block is closed; otherwise `BadNesting`, whatever memory is left.
    pub fn finish(self, alloc: Global) -> Result<Script, NestingFault>
        ensures closed { OnOk result (open_behind self ≡ []) }
        ensures script { IfOk result (λ script. (script ≡ self) × IsScript script) }
        ensures refused { (result ≡ Err NestingFault.BadNesting) ↔ (0 < length (open_behind self)) }
    {
        if !self.blocks.is_empty() {
            return Err(NestingFault::BadNesting);
        }
        match jumps_of(alloc, self.ops.as_slice()) {
            Ok(jumps) => Ok(Script {
                ops: self.ops,
                jumps,
            }),
            Err(_) => Err(NestingFault::Memory),
        }
    }
}
