//! Which text spells which op.
ghost use Rattle.std.specs.Prelude.{◌≡◌, ◌++◌, List, ℕ, drop, None, Some, IfSome, MatchOption, option_and_then, if◌then◌else◌};
ghost use Rattle.model.specs.declared.op.Op.{Op};
ghost use Rattle.model.specs.declared.op.Op.TheVariants.{Await, Do, SetBits, ClearBits, WaitBits, Notify};
ghost use Rattle.model.specs.declared.op.Op.TheVariants as op;
ghost use Rattle.model.specs.declared.value.ValueOp.TheVariants.{Compute};
ghost use Rattle.model.specs.declared.op.Access.TheVariants.{Send, SendFront};
ghost use Rattle.model.specs.declared.op.IsrOp.TheVariants as isr;
ghost use Rattle.model.specs.declared.op.IsrOp.{IsrOp};
ghost use Rattle.model.specs.Scripts.{InRange};
ghost use Rattle.grammar.specs.declared.object_sort.ObjectSort.TheVariants.{Queue};
ghost use Rattle.grammar.specs.Grammar.{Naming, words_of, Done, Number, ObjectName, GroupName, Bits, WaitTime, forms, block_forms, queue_forms, semaphore_forms, group_forms, notification_forms, suspension_forms, source_forms, GivenValue, Action, TaskName, Operand, value_forms, read, read_by, if_in_range, op_of, isr_op_of, Spells, SpellsIsr};

use crate::finding::Finding;
use crate::object_sort::ObjectSort;
use crate::words::{Words, given, is};
use model::{
    Access, Arithmetic, Condition, IsrOp, NotificationClear, NotificationMasks, NotificationWait,
    NotifyAction, Op, SourceOp, TaskId, Value, ValueOp,
};

// The call that sends an item to the front or the back of a queue.
pub(crate) fn sending(to_front: bool, item: Value) -> Access<Value>
    ensures { result ≡ (if to_front then SendFront item else Send item) }
{
    if to_front {
        Access::SendFront(item)
    } else {
        Access::Send(item)
    }
}

// The op of a call on the object of this sort that the next word names.
fn do_op<F: Finding>(
    access: Access<Value>,
    sort: ObjectSort,
    words: &mut Words<'_>,
    finding: &F,
) -> Option<Op>
    // What is still to be read is whether the text ends here.
    ensures { let form = ObjectName sort (λ object. Done (Do object access)) in MatchOption result
        (read (F.naming finding.now) form words.old ≡ None)
        (λ op. read (F.naming finding.now) form words.old ≡ read (F.naming finding.now) (Done op) words.new) }
{
    Some(Op::Do(words.object(sort, finding)?, access))
}

// The op of a call that waits at the object of this sort that the next word names, for as long as the word after it says.
fn await_op<F: Finding>(
    access: Access<Value>,
    sort: ObjectSort,
    words: &mut Words<'_>,
    finding: &F,
) -> Option<Op>
    // What is still to be read is whether the text ends here.
    ensures { let form = ObjectName sort (λ object. WaitTime (λ ticks. Done (Await object access ticks))) in MatchOption result
        (read (F.naming finding.now) form words.old ≡ None)
        (λ op. read (F.naming finding.now) form words.old ≡ read (F.naming finding.now) (Done op) words.new) }
{
    let object = words.object(sort, finding)?;
    let ticks = words.number_unless("forever")?;
    Some(Op::Await(object, access, ticks))
}

// The op that sends a value to the front or the back of a queue. The next word names the queue, the one after it the
// value, and the third says how long the op waits.
fn send_op<F: Finding>(to_front: bool, words: &mut Words<'_>, finding: &F) -> Option<Op>
    // What is still to be read is whether the text ends here.
    ensures { let form = ObjectName Queue (λ queue. GivenValue (λ v. WaitTime (λ ticks.
        Done (Await queue (if to_front then SendFront v else Send v) ticks)))) in MatchOption result
        (read (F.naming finding.now) form words.old ≡ None)
        (λ op. read (F.naming finding.now) form words.old ≡ read (F.naming finding.now) (Done op) words.new) }
{
    let queue = words.object(ObjectSort::Queue, finding)?;
    let item = given(words.number_unless("answer")?);
    let ticks = words.number_unless("forever")?;
    Some(Op::Await(queue, sending(to_front, item), ticks))
}

// The op that sets or clears the bits that the word after the next says of the group that the next word names.
fn change_op<F: Finding>(to_set: bool, words: &mut Words<'_>, finding: &F) -> Option<Op>
    // What is still to be read is whether the text ends here.
    ensures { let form = GroupName (λ group. Number (λ mask.
        Done (if to_set then SetBits group mask else ClearBits group mask))) in MatchOption result
        (read (F.naming finding.now) form words.old ≡ None)
        (λ op. read (F.naming finding.now) form words.old ≡ read (F.naming finding.now) (Done op) words.new) }
{
    let group = words.group(finding)?;
    let mask = words.number()?;
    if to_set {
        Some(Op::SetBits(group, mask))
    } else {
        Some(Op::ClearBits(group, mask))
    }
}

// The op that waits for bits of the group that the next word names, as the words after it say.
fn wait_op<F: Finding>(words: &mut Words<'_>, finding: &F) -> Option<Op>
    // What is still to be read is whether the text ends here.
    ensures { let form = GroupName (λ group. Bits (λ condition. WaitTime (λ ticks. Done (WaitBits group condition ticks)))) in MatchOption result
        (read (F.naming finding.now) form words.old ≡ None)
        (λ op. read (F.naming finding.now) form words.old ≡ read (F.naming finding.now) (Done op) words.new) }
{
    let group = words.group(finding)?;
    let mask = words.number()?;
    let all = words.choice("any", "all")?;
    let clear = words.choice("keep", "clear")?;
    let condition = Condition { mask, all, clear };
    Some(Op::WaitBits(group, condition, words.number_unless("forever")?))
}

// The task that the next word names, and what a notify does to its notification value, as the words after it say.
pub(crate) fn notified<F: Finding>(
    words: &mut Words<'_>,
    finding: &F,
) -> Option<(TaskId, NotifyAction<Value>)>
    // What is still to be read is whether the text ends here.
    ensures task { let form = TaskName (λ task. Action (λ action. Done (Notify task action))) in MatchOption result
        (read (F.naming finding.now) form words.old ≡ None)
        (λ n. read (F.naming finding.now) form words.old ≡ read (F.naming finding.now) (Done (Notify n.0 n.1)) words.new) }
    ensures handler { let form = TaskName (λ task. Action (λ action. Done (isr.Notify task action))) in MatchOption result
        (read (F.naming finding.now) form words.old ≡ None)
        (λ n. read (F.naming finding.now) form words.old ≡ read (F.naming finding.now) (Done (isr.Notify n.0 n.1)) words.new) }
{
    let task = words.task(finding)?;
    match words.action()? {
        NotifyAction::Nothing => Some((task, NotifyAction::Nothing)),
        NotifyAction::SetBits(()) => {
            let bits = given(words.number_unless("answer")?);
            Some((task, NotifyAction::SetBits(bits)))
        }
        NotifyAction::Increment => Some((task, NotifyAction::Increment)),
        NotifyAction::Overwrite(()) => {
            let new_value = given(words.number_unless("answer")?);
            Some((task, NotifyAction::Overwrite(new_value)))
        }
        NotifyAction::Keep(()) => {
            let new_value = given(words.number_unless("answer")?);
            Some((task, NotifyAction::Keep(new_value)))
        }
    }
}

// The op that calculates with the operand that the next word writes.
fn compute_op<F: Finding>(kind: Arithmetic, words: &mut Words<'_>, finding: &F) -> Option<ValueOp>
    // What is still to be read is whether the text ends here.
    ensures task { let form = Operand (λ v. Done (op.Value (Compute kind v))) in MatchOption result
        (read (F.naming finding.now) form words.old ≡ None)
        (λ values. read (F.naming finding.now) form words.old ≡ read (F.naming finding.now) (Done (op.Value values)) words.new) }
    ensures handler { let form = Operand (λ v. Done (isr.Value (Compute kind v))) in MatchOption result
        (read (F.naming finding.now) form words.old ≡ None)
        (λ values. read (F.naming finding.now) form words.old ≡ read (F.naming finding.now) (Done (isr.Value values)) words.new) }
{
    Some(ValueOp::Compute(kind, words.operand(finding)?))
}

// The op of this word that calculates, whose arguments are the next words.
fn arithmetic_op_after<F: Finding>(
    word: &[u8],
    words: &mut Words<'_>,
    finding: &F,
) -> Option<ValueOp>
    // What is still to be read is whether the text ends here.
    ensures task { let these = drop 2 (value_forms op.Value) in MatchOption result
        (read_by (F.naming finding.now) these word.now words.old ≡ None)
        (λ values. read_by (F.naming finding.now) these word.now words.old
        ≡ read (F.naming finding.now) (Done (op.Value values)) words.new) }
    ensures handler { let these = drop 2 (value_forms isr.Value) in MatchOption result
        (read_by (F.naming finding.now) these word.now words.old ≡ None)
        (λ values. read_by (F.naming finding.now) these word.now words.old
        ≡ read (F.naming finding.now) (Done (isr.Value values)) words.new) }
{
    if is(word, "add") {
        compute_op(Arithmetic::Add, words, finding)
    } else if is(word, "sub") {
        compute_op(Arithmetic::Sub, words, finding)
    } else if is(word, "mul") {
        compute_op(Arithmetic::Mul, words, finding)
    } else if is(word, "div") {
        compute_op(Arithmetic::Div, words, finding)
    } else if is(word, "mod") {
        compute_op(Arithmetic::Mod, words, finding)
    } else if is(word, "and") {
        compute_op(Arithmetic::And, words, finding)
    } else if is(word, "or") {
        compute_op(Arithmetic::Or, words, finding)
    } else if is(word, "xor") {
        compute_op(Arithmetic::Xor, words, finding)
    } else {
        None
    }
}

// The op on values of this word, whose arguments are the next words.
pub(crate) fn value_op_after<F: Finding>(
    word: &[u8],
    words: &mut Words<'_>,
    finding: &F,
) -> Option<ValueOp>
    // What is still to be read is whether the text ends here.
    ensures task { MatchOption result
        (read_by (F.naming finding.now) (value_forms op.Value) word.now words.old ≡ None)
        (λ values. read_by (F.naming finding.now) (value_forms op.Value) word.now words.old
        ≡ read (F.naming finding.now) (Done (op.Value values)) words.new) }
    ensures handler { MatchOption result
        (read_by (F.naming finding.now) (value_forms isr.Value) word.now words.old ≡ None)
        (λ values. read_by (F.naming finding.now) (value_forms isr.Value) word.now words.old
        ≡ read (F.naming finding.now) (Done (isr.Value values)) words.new) }
{
    if is(word, "load") {
        Some(ValueOp::Load(words.variable(finding)?))
    } else if is(word, "store") {
        let variable = words.variable(finding)?;
        let value = given(words.number_unless("answer")?);
        Some(ValueOp::Store(variable, value))
    } else {
        arithmetic_op_after(word, words, finding)
    }
}

// The op of this word by the forms of handlers and all after them. Its arguments are the next words.
fn source_op_after<F: Finding>(word: &[u8], words: &mut Words<'_>, finding: &F) -> Option<Op>
    // What is still to be read is whether the text ends here.
    ensures { let these = source_forms op.Source ++ value_forms op.Value in MatchOption result
        (read_by (F.naming finding.now) these word.now words.old ≡ None)
        (λ op. read_by (F.naming finding.now) these word.now words.old
        ≡ read (F.naming finding.now) (Done op) words.new) }
{
    if is(word, "arm") {
        Some(Op::Source(words.handler(finding)?, SourceOp::Arm))
    } else if is(word, "disarm") {
        Some(Op::Source(words.handler(finding)?, SourceOp::Disarm))
    } else if is(word, "raise") {
        let handler = words.handler(finding)?;
        Some(Op::Source(handler, SourceOp::Raise(words.number()?)))
    } else if is(word, "cancel") {
        Some(Op::Source(words.handler(finding)?, SourceOp::Cancel))
    } else {
        Some(Op::Value(value_op_after(word, words, finding)?))
    }
}

// The op of this word by the forms of suspending and resuming and of critical sections, and all
// after them. Its arguments are the next words.
fn suspension_op_after<F: Finding>(word: &[u8], words: &mut Words<'_>, finding: &F) -> Option<Op>
    // What is still to be read is whether the text ends here.
    ensures { let these = suspension_forms ++ source_forms op.Source ++ value_forms op.Value in MatchOption result
        (read_by (F.naming finding.now) these word.now words.old ≡ None)
        (λ op. read_by (F.naming finding.now) these word.now words.old
        ≡ read (F.naming finding.now) (Done op) words.new) }
{
    if is(word, "suspend") {
        Some(Op::Suspend(words.task(finding)?))
    } else if is(word, "resume") {
        Some(Op::Resume(words.task(finding)?))
    } else if is(word, "suspend_all") {
        Some(Op::SuspendAll)
    } else if is(word, "resume_all") {
        Some(Op::ResumeAll)
    } else if is(word, "enter_critical") {
        Some(Op::EnterCritical)
    } else if is(word, "exit_critical") {
        Some(Op::ExitCritical)
    } else {
        source_op_after(word, words, finding)
    }
}

// The op of this word by the forms of notifications and all after them. Its arguments are the next
// words.
fn notification_op_after<F: Finding>(word: &[u8], words: &mut Words<'_>, finding: &F) -> Option<Op>
    // What is still to be read is whether the text ends here.
    ensures { let these = notification_forms ++ suspension_forms ++ source_forms op.Source ++ value_forms op.Value in MatchOption result
        (read_by (F.naming finding.now) these word.now words.old ≡ None)
        (λ op. read_by (F.naming finding.now) these word.now words.old
        ≡ read (F.naming finding.now) (Done op) words.new) }
{
    if is(word, "notify") {
        let (task, action) = notified(words, finding)?;
        Some(Op::Notify(task, action))
    } else if is(word, "notify_take") {
        let clears = words.choice("decrement", "clear")?;
        let ticks = words.number_unless("forever")?;
        Some(Op::AwaitNotification(NotificationWait::Take(clears), ticks))
    } else if is(word, "notify_wait") {
        let entry = words.number()?;
        let exit = words.number()?;
        let ticks = words.number_unless("forever")?;
        let wait = NotificationWait::Wait(NotificationMasks { entry, exit });
        Some(Op::AwaitNotification(wait, ticks))
    } else if is(word, "notify_clear") {
        Some(Op::ClearNotification(NotificationClear::Pending))
    } else if is(word, "notify_value_clear") {
        Some(Op::ClearNotification(NotificationClear::Bits(words.number()?)))
    } else {
        suspension_op_after(word, words, finding)
    }
}

// The op of this word by the forms of event groups and all after them. Its arguments are the next
// words.
fn group_op_after<F: Finding>(word: &[u8], words: &mut Words<'_>, finding: &F) -> Option<Op>
    // What is still to be read is whether the text ends here.
    ensures { let these = group_forms ++ notification_forms ++ suspension_forms ++ source_forms op.Source ++ value_forms op.Value in MatchOption result
        (read_by (F.naming finding.now) these word.now words.old ≡ None)
        (λ op. read_by (F.naming finding.now) these word.now words.old
        ≡ read (F.naming finding.now) (Done op) words.new) }
{
    if is(word, "set") {
        change_op(true, words, finding)
    } else if is(word, "clear") {
        change_op(false, words, finding)
    } else if is(word, "bits") {
        Some(Op::GetBits(words.group(finding)?))
    } else if is(word, "wait") {
        wait_op(words, finding)
    } else {
        notification_op_after(word, words, finding)
    }
}

// The op of this word by the forms of semaphores and mutexes and all after them. Its arguments are
// the next words.
fn semaphore_op_after<F: Finding>(word: &[u8], words: &mut Words<'_>, finding: &F) -> Option<Op>
    // What is still to be read is whether the text ends here.
    ensures { let these = semaphore_forms ++ group_forms ++ notification_forms ++ suspension_forms ++ source_forms op.Source ++ value_forms op.Value in MatchOption result
        (read_by (F.naming finding.now) these word.now words.old ≡ None)
        (λ op. read_by (F.naming finding.now) these word.now words.old
        ≡ read (F.naming finding.now) (Done op) words.new) }
{
    if is(word, "take") {
        await_op(Access::Take, ObjectSort::Semaphore, words, finding)
    } else if is(word, "give") {
        do_op(Access::Give, ObjectSort::Semaphore, words, finding)
    } else if is(word, "lock") {
        await_op(Access::Lock, ObjectSort::Mutex, words, finding)
    } else if is(word, "unlock") {
        let mutex = words.object(ObjectSort::Mutex, finding)?;
        Some(Op::GiveMutex(mutex))
    } else {
        group_op_after(word, words, finding)
    }
}

// The op of this word by the forms of queues that send nothing and all after them. Its arguments
// are the next words.
fn reading_op_after<F: Finding>(word: &[u8], words: &mut Words<'_>, finding: &F) -> Option<Op>
    // What is still to be read is whether the text ends here.
    ensures { let these = drop 3 queue_forms ++ semaphore_forms ++ group_forms ++ notification_forms ++ suspension_forms ++ source_forms op.Source ++ value_forms op.Value in MatchOption result
        (read_by (F.naming finding.now) these word.now words.old ≡ None)
        (λ op. read_by (F.naming finding.now) these word.now words.old
        ≡ read (F.naming finding.now) (Done op) words.new) }
{
    if is(word, "receive") {
        await_op(Access::Receive, ObjectSort::Queue, words, finding)
    } else if is(word, "peek") {
        await_op(Access::Peek, ObjectSort::Queue, words, finding)
    } else if is(word, "waiting") {
        Some(Op::MessagesWaiting(words.object(ObjectSort::Queue, finding)?))
    } else if is(word, "spaces") {
        Some(Op::SpacesAvailable(words.object(ObjectSort::Queue, finding)?))
    } else {
        semaphore_op_after(word, words, finding)
    }
}

// The op of this word by the forms of queues and all after them. Its arguments are the next words.
fn queue_op_after<F: Finding>(word: &[u8], words: &mut Words<'_>, finding: &F) -> Option<Op>
    // What is still to be read is whether the text ends here.
    ensures { let these = queue_forms ++ semaphore_forms ++ group_forms ++ notification_forms ++ suspension_forms ++ source_forms op.Source ++ value_forms op.Value in MatchOption result
        (read_by (F.naming finding.now) these word.now words.old ≡ None)
        (λ op. read_by (F.naming finding.now) these word.now words.old
        ≡ read (F.naming finding.now) (Done op) words.new) }
{
    if is(word, "send") {
        send_op(false, words, finding)
    } else if is(word, "send_front") {
        send_op(true, words, finding)
    } else if is(word, "overwrite") {
        let queue = words.object(ObjectSort::Queue, finding)?;
        let item = given(words.number_unless("answer")?);
        Some(Op::Do(queue, Access::Overwrite(item)))
    } else {
        reading_op_after(word, words, finding)
    }
}

// The op of this word by the forms of blocks and all after them. Its arguments are the next words.
fn block_op_after<F: Finding>(word: &[u8], words: &mut Words<'_>, finding: &F) -> Option<Op>
    // What is still to be read is whether the text ends here; a number past what the code can hold is out of range.
    ensures { let these = block_forms ++ queue_forms ++ semaphore_forms ++ group_forms ++ notification_forms ++ suspension_forms ++ source_forms op.Source ++ value_forms op.Value in MatchOption result
        (option_and_then if_in_range (read_by (F.naming finding.now) these word.now words.old) ≡ None)
        (λ op. read_by (F.naming finding.now) these word.now words.old
        ≡ read (F.naming finding.now) (Done op) words.new) }
{
    if is(word, "repeat") {
        match words.number_unless("forever")? {
            Some(turns) => Some(Op::Repeat(Some(u16::try_from(turns).ok()?))),
            None => Some(Op::Repeat(None)),
        }
    } else if is(word, "if") {
        Some(Op::If(words.condition(finding)?))
    } else if is(word, "else") {
        Some(Op::Else)
    } else if is(word, "end") {
        Some(Op::End)
    } else if is(word, "break") {
        Some(Op::Break)
    } else {
        queue_op_after(word, words, finding)
    }
}

// The op of this word that is none of the first four, whose arguments are the next words.
fn later_op_after<F: Finding>(word: &[u8], words: &mut Words<'_>, finding: &F) -> Option<Op>
    // What is still to be read is whether the text ends here; a number past what the code can hold is out of range.
    ensures { MatchOption result
        (option_and_then if_in_range (read_by (F.naming finding.now) (drop 4 forms) word.now words.old) ≡ None)
        (λ op. read_by (F.naming finding.now) (drop 4 forms) word.now words.old
        ≡ read (F.naming finding.now) (Done op) words.new) }
{
    if is(word, "time") {
        Some(Op::Time)
    } else if is(word, "stamp") {
        Some(Op::Stamp)
    } else if is(word, "since") {
        Some(Op::Since)
    } else if is(word, "mark") {
        Some(Op::Mark(given(words.number_unless("answer")?)))
    } else if is(word, "expect") {
        Some(Op::Expect(words.condition(finding)?))
    } else {
        block_op_after(word, words, finding)
    }
}

// The op of this word, whose arguments are the next words.
fn op_after<F: Finding>(word: &[u8], words: &mut Words<'_>, finding: &F) -> Option<Op>
    // What is still to be read is whether the text ends here; a number past what the code can hold is out of range.
    ensures { MatchOption result
        (option_and_then if_in_range (read_by (F.naming finding.now) forms word.now words.old) ≡ None)
        (λ op. read_by (F.naming finding.now) forms word.now words.old
        ≡ read (F.naming finding.now) (Done op) words.new) }
{
    if is(word, "work") {
        Some(Op::Work(words.number()?))
    } else if is(word, "delay") {
        Some(Op::Delay(words.number()?))
    } else if is(word, "delay_until") {
        Some(Op::DelayUntil(words.number()?))
    } else if is(word, "yield") {
        Some(Op::Yield)
    } else {
        later_op_after(word, words, finding)
    }
}

/// The op that a text spells, if names are read in this way; `None` if it spells none.
pub fn op_of<F: Finding>(text: &[u8], finding: &F) -> Option<Op>
    ensures op { result ≡ op_of (F.naming finding.now) (words_of text.now) }
    ensures range { IfSome result InRange }
{
    let mut words = Words::new(text);
    let word = words.next()?;
    let op = op_after(word, &mut words, finding)?;
    if words.is_at_end() && op.is_in_range() {
        Some(op)
    } else {
        None
    }
}

/// However names are read, what the reader of ops takes is what the grammar spells.
pub fn op_grammar()
    ensures sound { (named : Naming) (ws : List (List ℕ)) (op : Op)
        → op_of named ws ≡ Some op → Spells named op ws }
    ensures complete { (named : Naming) (ws : List (List ℕ)) (op : Op)
        → Spells named op ws → op_of named ws ≡ Some op }
    ensures isr_sound { (named : Naming) (ws : List (List ℕ)) (op : IsrOp)
        → isr_op_of named ws ≡ Some op → SpellsIsr named op ws }
    ensures isr_complete { (named : Naming) (ws : List (List ℕ)) (op : IsrOp)
        → SpellsIsr named op ws → isr_op_of named ws ≡ Some op }
{}
