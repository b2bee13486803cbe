//! The texts of the ops of handlers.
ghost use Rattle.std.specs.Prelude.{◌≡◌, ◌++◌, drop, None, Some, MatchOption, if◌then◌else◌};
ghost use Rattle.model.specs.declared.op.Op.{Op};
ghost use Rattle.model.specs.declared.op.Op.TheVariants.{Do, Notify};
ghost use Rattle.model.specs.declared.op.Op.TheVariants as op;
ghost use Rattle.model.specs.declared.op.Access.TheVariants.{Send, SendFront};
ghost use Rattle.model.specs.declared.op.IsrOp.TheVariants as isr;
ghost use Rattle.model.specs.declared.op.IsrOp.{IsrOp};
ghost use Rattle.grammar.specs.declared.object_sort.ObjectSort.TheVariants.{Queue};
ghost use Rattle.grammar.specs.Grammar.{words_of, Done, ObjectName, source_forms, GivenValue, value_forms, CommandForm, isr_forms, read, read_by, is_isr_in_range, isr_op_of};

use crate::finding::Finding;
use crate::object_sort::ObjectSort;
use crate::op_text::{notified, sending, value_op_after};
use crate::words::{Words, given, is};
use model::{Access, Command, IsrOp, Op, SourceOp, Value};

// The op of a handler that is a call on the object of this sort that the next word names.
fn isr_do_op<F: Finding>(
    access: Access<Value>,
    sort: ObjectSort,
    words: &mut Words<'_>,
    finding: &F,
) -> Option<IsrOp>
    // What is still to be read is whether the text ends here.
    ensures { let form = ObjectName sort (λ object. Done (isr.Do object access)) in MatchOption result
        (read (F.naming finding.now) form words.old ≡ None)
        (λ op. read (F.naming finding.now) form words.old ≡ read (F.naming finding.now) (Done op) words.new) }
{
    Some(IsrOp::Do(words.object(sort, finding)?, access))
}

// The op of a handler that sends a value to the front or the back of a queue. The next word names the queue, and the one
// after it the value.
fn isr_send_op<F: Finding>(to_front: bool, words: &mut Words<'_>, finding: &F) -> Option<IsrOp>
    // What is still to be read is whether the text ends here.
    ensures { let form = ObjectName Queue (λ queue. GivenValue (λ v.
        Done (isr.Do queue (if to_front then SendFront v else Send v)))) in MatchOption result
        (read (F.naming finding.now) form words.old ≡ None)
        (λ op. read (F.naming finding.now) form words.old ≡ read (F.naming finding.now) (Done op) words.new) }
{
    let queue = words.object(ObjectSort::Queue, finding)?;
    let item = given(words.number_unless("answer")?);
    Some(IsrOp::Do(queue, sending(to_front, item)))
}

// The op of a handler that has the daemon set or clear bits of a group. The next word names the group, and the one after it
// the bits.
fn command_op<F: Finding>(clear: bool, words: &mut Words<'_>, finding: &F) -> Option<IsrOp>
    // What is still to be read is whether the text ends here.
    ensures { MatchOption result
        (read (F.naming finding.now) (CommandForm clear) words.old ≡ None)
        (λ op. read (F.naming finding.now) (CommandForm clear) words.old ≡ read (F.naming finding.now) (Done op) words.new) }
{
    let group = words.group(finding)?;
    let mask = words.number()?;
    Some(IsrOp::Command(Command { group, mask, clear }))
}

// The op of a handler of this word by the forms of handlers and all after them. Its arguments are the next words.
fn isr_source_op_after<F: Finding>(word: &[u8], words: &mut Words<'_>, finding: &F) -> Option<IsrOp>
    // What is still to be read is whether the text ends here.
    ensures { let these = source_forms isr.Source ++ value_forms isr.Value in MatchOption result
        (read_by (F.naming finding.now) these word.now words.old ≡ None)
        (λ op. read_by (F.naming finding.now) these word.now words.old
        ≡ read (F.naming finding.now) (Done op) words.new) }
{
    if is(word, "arm") {
        Some(IsrOp::Source(words.handler(finding)?, SourceOp::Arm))
    } else if is(word, "disarm") {
        Some(IsrOp::Source(words.handler(finding)?, SourceOp::Disarm))
    } else if is(word, "raise") {
        let handler = words.handler(finding)?;
        Some(IsrOp::Source(handler, SourceOp::Raise(words.number()?)))
    } else if is(word, "cancel") {
        Some(IsrOp::Source(words.handler(finding)?, SourceOp::Cancel))
    } else {
        Some(IsrOp::Value(value_op_after(word, words, finding)?))
    }
}

// The op of a handler of this word that is none of the first nine, whose arguments are the next words.
fn later_isr_op_after<F: Finding>(word: &[u8], words: &mut Words<'_>, finding: &F) -> Option<IsrOp>
    // What is still to be read is whether the text ends here.
    ensures { MatchOption result
        (read_by (F.naming finding.now) (drop 9 isr_forms) word.now words.old ≡ None)
        (λ op. read_by (F.naming finding.now) (drop 9 isr_forms) word.now words.old
        ≡ read (F.naming finding.now) (Done op) words.new) }
{
    if is(word, "bits") {
        Some(IsrOp::GetBits(words.group(finding)?))
    } else if is(word, "notify") {
        let (task, action) = notified(words, finding)?;
        Some(IsrOp::Notify(task, action))
    } else if is(word, "mark") {
        Some(IsrOp::Mark(given(words.number_unless("answer")?)))
    } else if is(word, "expect") {
        Some(IsrOp::Expect(words.condition(finding)?))
    } else if is(word, "if") {
        Some(IsrOp::If(words.condition(finding)?))
    } else if is(word, "else") {
        Some(IsrOp::Else)
    } else if is(word, "end") {
        Some(IsrOp::EndIf)
    } else {
        isr_source_op_after(word, words, finding)
    }
}

// The op of a handler of this word that is none of the five on a queue, whose arguments are the next words.
fn other_isr_op_after<F: Finding>(word: &[u8], words: &mut Words<'_>, finding: &F) -> Option<IsrOp>
    // What is still to be read is whether the text ends here.
    ensures { MatchOption result
        (read_by (F.naming finding.now) (drop 5 isr_forms) word.now words.old ≡ None)
        (λ op. read_by (F.naming finding.now) (drop 5 isr_forms) word.now words.old
        ≡ read (F.naming finding.now) (Done op) words.new) }
{
    if is(word, "give") {
        isr_do_op(Access::Give, ObjectSort::Semaphore, words, finding)
    } else if is(word, "resume") {
        Some(IsrOp::Resume(words.task(finding)?))
    } else if is(word, "set") {
        command_op(false, words, finding)
    } else if is(word, "clear") {
        command_op(true, words, finding)
    } else {
        later_isr_op_after(word, words, finding)
    }
}

// The op of a handler of this word, whose arguments are the next words.
fn isr_op_after<F: Finding>(word: &[u8], words: &mut Words<'_>, finding: &F) -> Option<IsrOp>
    // What is still to be read is whether the text ends here.
    ensures { MatchOption result
        (read_by (F.naming finding.now) isr_forms word.now words.old ≡ None)
        (λ op. read_by (F.naming finding.now) isr_forms word.now words.old
        ≡ read (F.naming finding.now) (Done op) words.new) }
{
    if is(word, "send") {
        isr_send_op(false, words, finding)
    } else if is(word, "send_front") {
        isr_send_op(true, words, finding)
    } else if is(word, "overwrite") {
        let queue = words.object(ObjectSort::Queue, finding)?;
        let item = given(words.number_unless("answer")?);
        Some(IsrOp::Do(queue, Access::Overwrite(item)))
    } else if is(word, "receive") {
        isr_do_op(Access::Receive, ObjectSort::Queue, words, finding)
    } else if is(word, "peek") {
        isr_do_op(Access::Peek, ObjectSort::Queue, words, finding)
    } else {
        other_isr_op_after(word, words, finding)
    }
}

// Whether the numbers of a handler's op are in their ranges.
fn is_isr_in_range(op: &IsrOp) -> bool
    ensures { result ≡ is_isr_in_range op.now }
{
    match *op {
        IsrOp::Command(command) => 1 <= command.mask && command.mask <= Op::MOST_BITS,
        IsrOp::Value(op) => op.is_defined(),
        IsrOp::Source(_, op) => op.is_in_range(),
        _ => true,
    }
}

/// The op of a handler that a text spells, if names are read in this way; `None` if it spells none.
pub fn isr_op_of<F: Finding>(text: &[u8], finding: &F) -> Option<IsrOp>
    ensures { result ≡ isr_op_of (F.naming finding.now) (words_of text.now) }
{
    let mut words = Words::new(text);
    let word = words.next()?;
    let op = isr_op_after(word, &mut words, finding)?;
    if words.is_at_end() && is_isr_in_range(&op) {
        Some(op)
    } else {
        None
    }
}
