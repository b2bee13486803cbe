//! Pass two: the ops of handlers and of tasks.
ghost use Rattle.std.specs.Prelude.{◌≡◌, ◌≤◌, ◌<◌, ◌++◌, ◌∷◌, [], true, map, length, IfOk, OnOk};
ghost use Rattle.std.specs.List.{AllByRecursion};
ghost use Rattle.toml.specs.View.{view};
ghost use Rattle.model.specs.Application.{Definition};
ghost use Rattle.model.specs.Blocks.{Nests, edges_of, ending, may_come, open_behind};
ghost use Rattle.model.specs.Scripts.{InRange, IsScript, IsDefinition, most_tasks, most_ops, most_handlers, most_handler_ops};
ghost use Rattle.script.specs.Faults.{Judges};
ghost use Rattle.script.specs.Entries.{object_view, isr_view, raw_view, entries_view};
ghost use Rattle.script.specs.Ops.{IsLimited, allows, handler_ops, op_in, op_fault, blocks_with, script_fault, ops_named, script_named, handler_ops_fault, scripts_fault, with_isr_ops, with_script};

use crate::entries::NamedEntries;
use crate::fault::{Fault, FaultKind};
use crate::named_object::NamedObject;
use crate::place::{Key, Place, Section};
use crate::raw_handler::RawHandler;
use crate::raw_task::RawTask;
use grammar::{AnyName, Finding, isr_op_of, op_of};
use model::{
    Access, Edge, HandlerDefinition, IsrOp, NestingFault, ObjectId, Op, OpenBlocks, Script,
    ScriptBuilder, TaskDefinition,
};
use std::alloc::{AllocError, Global};
use toml::Value;

/// An op of a text: a task's, or a handler's.
pub(crate) trait TextOp: Copy {
    ghost use Rattle.std.specs.Prelude.{◌≡◌, map};
    ghost use Rattle.grammar.specs.Grammar.{words_of};
    ghost use Rattle.script.specs.Entries.{object_view};
    ghost use Rattle.script.specs.Ops.{Ops, edge_in};

    // What distinguishes it from the other kind.
    ghost ops: { Ops Self };

    /// The op that a text spells, if names are read in this way.
    fn of_text<F: Finding>(text: &[u8], finding: &F) -> Option<Self>
        ensures { result ≡ ops.of_words (F.naming finding.now) (words_of text.now) };

    /// Whether it is a command for the daemon.
    fn is_command(&self) -> bool
        ensures { result ≡ ops.is_command self.now };

    /// Whether the object that it names allows it.
    fn is_allowed(&self, objects: &[NamedObject<'_>]) -> bool
        ensures { result ≡ ops.is_allowed (map object_view objects.now) self.now };

    /// What it is to the blocks of its script, if these are open.
    fn edge_in(&self, blocks: &OpenBlocks) -> Edge
        ensures { result ≡ edge_in ops blocks.now self.now };
}

// Whether the object of this number allows a call.
fn allows(objects: &[NamedObject<'_>], object: ObjectId, access: Access<model::Value>) -> bool
    ensures { result ≡ allows (map object_view objects.now) object access }
{
    match objects.get(object.number as usize) {
        Some(named) => named.kind.fits(access),
        None => false,
    }
}

impl TextOp for Op {
    ghost use Rattle.script.specs.Ops.{task_ops};

    ghost ops = { task_ops };

    fn of_text<F: Finding>(text: &[u8], finding: &F) -> Option<Op> {
        op_of(text, finding)
    }

    fn is_command(&self) -> bool {
        false
    }

    fn is_allowed(&self, objects: &[NamedObject<'_>]) -> bool {
        match *self {
            Op::Do(object, access) => allows(objects, object, access),
            _ => true,
        }
    }

    fn edge_in(&self, blocks: &OpenBlocks) -> Edge {
        blocks.ending(*self).edge()
    }
}

impl TextOp for IsrOp {
    ghost use Rattle.script.specs.Ops.{handler_ops};

    ghost ops = { handler_ops };

    fn of_text<F: Finding>(text: &[u8], finding: &F) -> Option<IsrOp> {
        isr_op_of(text, finding)
    }

    fn is_command(&self) -> bool {
        match self {
            IsrOp::Command(_) => true,
            _ => false,
        }
    }

    fn is_allowed(&self, objects: &[NamedObject<'_>]) -> bool {
        match *self {
            IsrOp::Do(object, access) => allows(objects, object, access),
            _ => true,
        }
    }

    fn edge_in(&self, _blocks: &OpenBlocks) -> Edge {
        self.edge()
    }
}

// ---- the checks, which take no memory

// The op that a value spells, if names are read in this way.
fn op_in<O: TextOp, F: Finding>(value: &Value, finding: &F) -> Option<O>
    ensures { result ≡ op_in O.ops (F.naming finding.now) (view value.now) }
{
    O::of_text(value.as_str()?.as_bytes(), finding)
}

// Goes past the op that a value spells, if these blocks are open. Its names are those of entries,
// which allow it; there is a daemon if it is a command; and it is allowed there.
fn pass_op<O: TextOp>(
    entries: &NamedEntries<'_>,
    blocks: &mut OpenBlocks,
    value: &Value,
    place: Place,
) -> Result<(), Fault>
    ensures checks { Judges result
        (op_fault O.ops (entries_view entries.now) blocks.old place (view value.now)) tt }
    ensures passed { OnOk result (blocks.new ≡ blocks_with O.ops (entries_view entries.now) blocks.old (view value.now)) }
{
    if op_in::<O, AnyName>(value, &AnyName).is_none() {
        return Err(FaultKind::BadOp.at(place));
    }
    let Some(op) = op_in::<O, NamedEntries<'_>>(value, entries) else {
        return Err(FaultKind::UnknownName.at(place));
    };
    if op.is_command() && entries.lacks_daemon() {
        return Err(FaultKind::NoDaemon.at(place));
    }
    if !op.is_allowed(entries.objects.as_slice()) {
        return Err(FaultKind::OverwriteLength.at(place));
    }
    let edge = op.edge_in(blocks);
    if !blocks.may_stand(edge) {
        return Err(FaultKind::BadNesting.at(place));
    }
    blocks.pass(edge);
    Ok(())
}

// Checks the ops that these texts spell.
fn check_script<O: TextOp>(
    entries: &NamedEntries<'_>,
    texts: &[Value],
    place: Place,
) -> Result<(), Fault>
    ensures { Judges result
        (script_fault O.ops (entries_view entries.now) place (map view texts.now)) tt }
{
    let mut blocks = OpenBlocks::new();
    for (index, text) in texts.iter().enumerate() {
        pass_op::<O>(entries, &mut blocks, text, place.element(index))?;
    }
    if !blocks.is_empty() {
        return Err(FaultKind::BadNesting.at(place.element(texts.len())));
    }
    Ok(())
}

/// Checks the ops of the handlers.
#[tactic(auto, unfolding(crate::specs::Ops::handler_ops_fault))]
pub(crate) fn check_handlers(entries: &NamedEntries<'_>) -> Result<(), Fault>
    ensures { Judges result (handler_ops_fault (entries_view entries.now)) tt }
{
    for (entry, handler) in entries.handlers.as_slice().iter().enumerate() {
        let place = Place::entry(Section::Handler, entry).key(Key::Ops);
        check_script::<IsrOp>(entries, handler.ops, place)?;
    }
    Ok(())
}

/// Checks the scripts of the tasks.
#[tactic(auto, unfolding(crate::specs::Ops::scripts_fault))]
pub(crate) fn check_scripts(entries: &NamedEntries<'_>) -> Result<(), Fault>
    ensures { Judges result (scripts_fault (entries_view entries.now)) tt }
{
    for (entry, task) in entries.tasks.as_slice().iter().enumerate() {
        let place = Place::entry(Section::Task, entry).key(Key::Script);
        check_script::<Op>(entries, task.script, place)?;
    }
    Ok(())
}

// ---- the ops, once they are checked, so that only memory may be wanting

// The ops of a handler that these texts spell.
fn ops_of(
    alloc: Global,
    entries: &NamedEntries<'_>,
    texts: &[Value],
) -> Result<Vec<IsrOp>, AllocError>
    requires { length texts.now ≤ most_handler_ops }
    ensures ops { IfOk result (λ v. v.items
        ≡ ops_named handler_ops (entries_view entries.now) (map view texts.now)) }
    ensures few { IfOk result (λ v. length v.items ≤ most_handler_ops) }
{
    let mut ops = Vec::new(alloc);
    for text in texts {
        let Some(op) = op_in::<IsrOp, NamedEntries<'_>>(text, entries) else {
            continue;
        };
        ops.push(op)?;
    }
    Ok(ops)
}

// A handler with its ops.
fn handler_of(
    alloc: Global,
    entries: &NamedEntries<'_>,
    handler: &RawHandler<'_>,
) -> Result<HandlerDefinition, AllocError>
    ensures handler { IfOk result (λ h. h ≡ with_isr_ops (entries_view entries.now) (isr_view handler.now)) }
    ensures formed { IfOk result IsLimited }
{
    let ops = ops_of(alloc, entries, handler.ops)?;
    let name = String::from_str(alloc, handler.name)?;
    Ok(HandlerDefinition::new(name, ops).arriving(handler.armed, handler.apart))
}

/// The handlers with their ops.
pub(crate) fn handlers_of(
    alloc: Global,
    entries: &NamedEntries<'_>,
) -> Result<Vec<HandlerDefinition>, AllocError>
    ensures handlers { IfOk result (λ v. v.items
        ≡ map (with_isr_ops (entries_view entries.now)) (entries_view entries.now).handlers) }
    ensures formed { IfOk result (λ v. AllByRecursion IsLimited v.items) }
    ensures few { IfOk result (λ v. length v.items ≤ most_handlers) }
{
    let mut definitions = Vec::new(alloc);
    for handler in entries.handlers.as_slice() {
        let definition = handler_of(alloc, entries, handler)?;
        definitions.push(definition)?;
    }
    Ok(definitions)
}

/// Appends an op, which may come next.
pub(crate) fn push(builder: &mut ScriptBuilder, op: Op) -> Result<(), AllocError>
    requires range { InRange op }
    requires room { length builder.old < most_ops }
    requires stands { may_come op builder.old ≡ true }
    ensures { OnOk result (builder.new ≡ builder.old ++ ending (open_behind builder.old) op ∷ []) }
{
    match builder.push(op) {
        Ok(()) => Ok(()),
        Err(NestingFault::Memory) => Err(AllocError),
        Err(NestingFault::BadNesting) => unreachable!(),
    }
}

/// The script, whose blocks are closed.
pub(crate) fn finish(builder: ScriptBuilder, alloc: Global) -> Result<Script, AllocError>
    requires closed { open_behind builder ≡ [] }
    ensures script { IfOk result (λ script. script ≡ builder) }
    ensures formed { IfOk result IsScript }
{
    match builder.finish(alloc) {
        Ok(script) => Ok(script),
        Err(NestingFault::Memory) => Err(AllocError),
        Err(NestingFault::BadNesting) => unreachable!(),
    }
}

// The script that these texts spell, whose blocks are closed.
fn script_of(
    alloc: Global,
    entries: &NamedEntries<'_>,
    texts: &[Value],
) -> Result<Script, AllocError>
    requires few { length texts.now ≤ most_ops }
    requires nests { Nests [] (edges_of (script_named (entries_view entries.now) (map view texts.now))) }
    ensures script { IfOk result (λ script. script
        ≡ script_named (entries_view entries.now) (map view texts.now)) }
    ensures formed { IfOk result IsScript }
{
    let mut builder = ScriptBuilder::new(alloc);
    for text in texts {
        let Some(op) = op_in::<Op, NamedEntries<'_>>(text, entries) else {
            continue;
        };
        push(&mut builder, op)?;
    }
    finish(builder, alloc)
}

// A task with its script, whose blocks are closed.
fn task_of(
    alloc: Global,
    entries: &NamedEntries<'_>,
    task: &RawTask<'_>,
) -> Result<TaskDefinition, AllocError>
    requires { Nests [] (edges_of (script_named (entries_view entries.now) (map view task.now.script.now))) }
    ensures task { IfOk result (λ t. t ≡ with_script (entries_view entries.now) (raw_view task.now)) }
    ensures formed { IfOk result IsDefinition }
{
    let script = script_of(alloc, entries, task.script)?;
    let name = String::from_str(alloc, task.name)?;
    Ok(TaskDefinition::new(name, task.priority, task.endless, script))
}

/// The tasks with their scripts, whose blocks are closed.
pub(crate) fn tasks_of(
    alloc: Global,
    entries: &NamedEntries<'_>,
) -> Result<Vec<TaskDefinition>, AllocError>
    requires { AllByRecursion (λ (t : Definition). Nests [] (edges_of t.script))
        (map (with_script (entries_view entries.now)) (entries_view entries.now).tasks) }
    ensures tasks { IfOk result (λ v. v.items
        ≡ map (with_script (entries_view entries.now)) (entries_view entries.now).tasks) }
    ensures formed { IfOk result (λ v. AllByRecursion IsDefinition v.items) }
    ensures few { IfOk result (λ v. length v.items ≤ most_tasks) }
{
    let mut definitions = Vec::new(alloc);
    for task in entries.tasks.as_slice() {
        let definition = task_of(alloc, entries, task)?;
        definitions.push(definition)?;
    }
    Ok(definitions)
}
