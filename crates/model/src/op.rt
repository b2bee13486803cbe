//! The ops of a task's script, and those of a handler.
use crate::answer::AnswerCondition;
use crate::block::Edge;
use crate::call::Condition;
use crate::ids::{GroupId, HandlerId, ObjectId, TaskId};
use crate::notification::{NotificationClear, NotificationWait, NotifyAction};
use crate::source::SourceOp;
use crate::value::{Value, ValueOp};

/// What a call asks of an object. The items that it puts there are values in a script, and numbers in the kernel.
#[derive(Clone, Copy, PartialEq, Eq)]
pub enum Access<Item> {
    /// Puts an item last (`xQueueSend`).
    Send(Item),
    /// Puts an item first (`xQueueSendToFront`).
    SendFront(Item),
    /// Puts an item in place of the one of a queue of length 1 (`xQueueOverwrite`).
    Overwrite(Item),
    /// Takes the first item (`xQueueReceive`).
    Receive,
    /// Returns the first item and leaves it (`xQueuePeek`).
    Peek,
    /// Takes one from the count of a semaphore (`xSemaphoreTake`).
    Take,
    /// Adds one to the count of a semaphore (`xSemaphoreGive`).
    Give,
    /// Makes the caller the holder of a mutex (`xSemaphoreTake` of a mutex).
    Lock,
}

impl<Item: Copy> Access<Item> {
    ghost use Rattle.std.specs.Prelude.{◌≡◌};
    ghost use Rattle.model.specs.Values.{item_in};
    ghost use Rattle.model.specs.Words.{word_of_access};
    ghost use Rattle.model.specs.Scripts.{is_of_mutex, is_of_queue, is_of_semaphore};

    /// The item that the call puts into a queue, if it puts one.
    #[inline]
    pub fn item(self) -> Option<Item>
        ensures { result ≡ item_in self }
    {
        match self {
            Access::Send(item) | Access::SendFront(item) | Access::Overwrite(item) => Some(item),
            Access::Receive | Access::Peek | Access::Take | Access::Give | Access::Lock => None,
        }
    }

    /// The first word of the call's text.
    pub fn word(self) -> &'static str
        ensures { result.now ≡ word_of_access self }
    {
        match self {
            Access::Send(_) => "send",
            Access::SendFront(_) => "send_front",
            Access::Overwrite(_) => "overwrite",
            Access::Receive => "receive",
            Access::Peek => "peek",
            Access::Take => "take",
            Access::Give => "give",
            Access::Lock => "lock",
        }
    }

    /// Whether it is a call on a queue.
    pub fn is_of_queue(self) -> bool
        ensures { result ≡ is_of_queue self }
    {
        match self {
            Access::Send(_)
            | Access::SendFront(_)
            | Access::Overwrite(_)
            | Access::Receive
            | Access::Peek => true,
            Access::Take | Access::Give | Access::Lock => false,
        }
    }

    /// Whether it is a call on a semaphore.
    pub fn is_of_semaphore(self) -> bool
        ensures { result ≡ is_of_semaphore self }
    {
        matches!(self, Access::Take | Access::Give)
    }

    /// Whether it is a call on a mutex.
    pub fn is_of_mutex(self) -> bool
        ensures { result ≡ is_of_mutex self }
    {
        matches!(self, Access::Lock)
    }
}

impl Access<Value> {
    ghost use Rattle.std.specs.Prelude.{◌≡◌};
    ghost use Rattle.model.specs.Values.{lacks_item, with_number};

    /// Whether the item that the call puts into a queue is the last answer, and that is `none`.
    #[inline]
    pub fn lacks_item(self, answer: Option<u32>) -> bool
        ensures { result ≡ lacks_item answer self }
    {
        match self.item() {
            Some(item) => item.is_missing(answer),
            None => false,
        }
    }

    /// The call with a number for its value, by these variables and this last answer.
    #[inline(always)]
    pub fn with_number(self, variables: &[u32], answer: Option<u32>) -> Access<u32>
        ensures { result ≡ with_number variables.now answer self }
    {
        match self {
            Access::Send(item) => Access::Send(item.number(variables, answer)),
            Access::SendFront(item) => Access::SendFront(item.number(variables, answer)),
            Access::Overwrite(item) => Access::Overwrite(item.number(variables, answer)),
            Access::Receive => Access::Receive,
            Access::Peek => Access::Peek,
            Access::Take => Access::Take,
            Access::Give => Access::Give,
            Access::Lock => Access::Lock,
        }
    }
}

/// What a handler has the daemon do to the bits of an event group (`xEventGroupSetBitsFromISR`, `xEventGroupClearBitsFromISR`).
#[derive(Clone, Copy, PartialEq, Eq)]
pub struct Command {
    /// The event group.
    pub group: GroupId,
    /// The bits, 1 to 16,777,215.
    pub mask: u32,
    /// Whether they are cleared, or set.
    pub clear: bool,
}

impl Command {
    ghost use Rattle.std.specs.Prelude.{◌≡◌, ◌<◌};
    ghost use Rattle.model.specs.Daemon.{command_of, item_of};
    ghost use Rattle.model.specs.Words.{word_of_command};

    /// The first word of its text.
    pub fn word(self) -> &'static str
        ensures { result.now ≡ word_of_command self }
    {
        if self.clear { "clear" } else { "set" }
    }

    /// The item that it is in the daemon's queue. The mask is below 2^24.
    pub fn item(self) -> u32
        requires { self.mask < 16777216 }
        ensures value { result ≡ item_of self }
        ensures same { command_of result ≡ self }
    {
        let kind = if self.clear { 16 } else { 0 };
        self.mask + 16777216 * (self.group.number as u32 + kind)
    }

    /// The command that this item is.
    pub fn of_item(item: u32) -> Self
        ensures { result ≡ command_of item }
    {
        Command {
            group: GroupId {
                number: (item / 16777216 % 16) as u8,
            },
            mask: item % 16777216,
            clear: item >= 268435456,
        }
    }
}

/// An op of a task's script. The numbers are those of the op's text, in the ranges of docs/FORMATS.md.
#[derive(Clone, Copy, PartialEq, Eq)]
pub enum Op {
    /// Computes for this many ticks, 1 to 1,000,000 (profile).
    Work(u32),
    /// Sleeps for this many ticks, 0 to 4,294,967,295 (`vTaskDelay`); for 0 it gives way to its equals and doesn't sleep.
    Delay(u32),
    /// Sleeps until this many ticks after the time from which it counts, 1 to 4,294,967,295 (`xTaskDelayUntil`); goes on at
    /// once if that is not in the future (profile: FreeRTOS yields to equals then).
    DelayUntil(u32),
    /// Gives way to the tasks of equal priority (`taskYIELD`).
    Yield,
    /// Returns the printed tick (`xTaskGetTickCount`).
    Time,
    /// Writes a mark line with this number, 0 to 4,294,967,295 (profile).
    Mark(Value),
    /// Ends the run if this doesn't hold of the last answer (profile).
    Expect(AnswerCondition),
    /// Opens a loop of this many turns, 1 to 1,000; `None` is forever: only a `break` ends it (profile).
    Repeat(Option<u16>),
    /// Ends a turn of the innermost loop (profile).
    End,
    /// Goes on if this holds of the last answer, and otherwise after its `else`, or after its `end` if it has none (profile).
    If(AnswerCondition),
    /// Goes on after the `end` of its `if` (profile).
    Else,
    /// Ends an `if`, and does nothing (profile). Its word is that of `End`.
    EndIf,
    /// Leaves the innermost loop (profile).
    Break,
    /// Notes the time, from which `since` counts (profile).
    Stamp,
    /// Returns how many ticks have passed since the last `stamp`, at first since reset, at most 4,294,967,295 (profile).
    Since,
    /// A call that waits until the object allows it, at most for this many ticks, 0 to 4,294,967,294; `None` is forever
    /// (`portMAX_DELAY`). It is one of send, send_front, receive, peek, take and lock.
    Await(ObjectId, Access<Value>, Option<u32>),
    /// A call that doesn't wait: overwrite or give.
    Do(ObjectId, Access<Value>),
    /// Gives a mutex back, which the task holds (`xSemaphoreGive` of a mutex).
    GiveMutex(ObjectId),
    /// Returns how many items are in a queue (`uxQueueMessagesWaiting`).
    MessagesWaiting(ObjectId),
    /// Returns for how many more items a queue has room (`uxQueueSpacesAvailable`).
    SpacesAvailable(ObjectId),
    /// Sets these bits of an event group, 1 to 16,777,215; returns those that are set after it (`xEventGroupSetBits`).
    SetBits(GroupId, u32),
    /// Clears these bits of an event group, 1 to 16,777,215; returns those that were set before it (`xEventGroupClearBits`).
    ClearBits(GroupId, u32),
    /// Returns which bits of an event group are set (`xEventGroupGetBits`).
    GetBits(GroupId),
    /// Waits until bits of an event group are set, at most for this many ticks, 0 to 4,294,967,294; `None` is forever
    /// (`xEventGroupWaitBits`).
    WaitBits(GroupId, Condition, Option<u32>),
    /// Notifies a task, perhaps itself (`xTaskNotify`, `xTaskNotifyGive`): its notification value changes so, a notification is pending,
    /// and a task that waits for one is Ready.
    Notify(TaskId, NotifyAction<Value>),
    /// Waits for a notification, at most for this many ticks, 0 to 4,294,967,294; `None` is forever (`ulTaskNotifyTake`,
    /// `xTaskNotifyWait`).
    AwaitNotification(NotificationWait, Option<u32>),
    /// Clears something of its own notification (`xTaskNotifyStateClear`, `ulTaskNotifyValueClear`).
    ClearNotification(NotificationClear),
    /// Suspends a task, perhaps itself (`vTaskSuspend`).
    Suspend(TaskId),
    /// Resumes a suspended task (`vTaskResume`).
    Resume(TaskId),
    /// Suspends the scheduler, once more (`vTaskSuspendAll`).
    SuspendAll,
    /// Takes one `suspend_all` back (`xTaskResumeAll`).
    ResumeAll,
    /// Opens a critical section, once more (`taskENTER_CRITICAL`): until it is closed, no handler comes and nothing switches.
    EnterCritical,
    /// Closes one (`taskEXIT_CRITICAL`).
    ExitCritical,
    /// Loads or stores a variable, or calculates with the last answer (profile).
    Value(ValueOp),
    /// Arms, disarms, raises or cancels an interrupt handler (profile).
    Source(HandlerId, SourceOp),
    /// Waits for the next command of this queue: an op of the daemon, which no file has.
    NextCommand(ObjectId),
    /// Does the command that was received: an op of the daemon, which no file has.
    Obey,
}

impl Op {
    ghost use Rattle.std.specs.Prelude.{◌≡◌};
    ghost use Rattle.model.specs.Words.{word_of};
    ghost use Rattle.model.specs.Blocks.{edge_of};

    /// What it is to the blocks of its script.
    #[inline]
    pub fn edge(&self) -> Edge
        ensures { result ≡ edge_of self.now }
    {
        match self {
            Op::Repeat(_) => Edge::OpensLoop,
            Op::End => Edge::EndsLoop,
            Op::If(_) => Edge::OpensIf,
            Op::Else => Edge::OpensElse,
            Op::EndIf => Edge::EndsIf,
            Op::Break => Edge::Breaks,
            _ => Edge::Inside,
        }
    }

    /// The first word of the op's text.
    pub fn word(&self) -> &'static str
        ensures { result.now ≡ word_of self.now }
    {
        match *self {
            Op::Work(_) => "work",
            Op::Delay(_) => "delay",
            Op::DelayUntil(_) => "delay_until",
            Op::Yield => "yield",
            Op::Time => "time",
            Op::Mark(_) => "mark",
            Op::Expect(_) => "expect",
            Op::Repeat(_) => "repeat",
            Op::End | Op::EndIf => "end",
            Op::If(_) => "if",
            Op::Else => "else",
            Op::Break => "break",
            Op::Stamp => "stamp",
            Op::Since => "since",
            Op::Await(_, access, _) | Op::Do(_, access) => access.word(),
            Op::GiveMutex(_) => "unlock",
            Op::MessagesWaiting(_) => "waiting",
            Op::SpacesAvailable(_) => "spaces",
            Op::SetBits(_, _) => "set",
            Op::ClearBits(_, _) => "clear",
            Op::GetBits(_) => "bits",
            Op::WaitBits(_, _, _) => "wait",
            Op::Notify(_, _) => "notify",
            Op::AwaitNotification(wait, _) => wait.word(),
            Op::ClearNotification(clear) => clear.word(),
            Op::Suspend(_) => "suspend",
            Op::Resume(_) => "resume",
            Op::SuspendAll => "suspend_all",
            Op::ResumeAll => "resume_all",
            Op::EnterCritical => "enter_critical",
            Op::ExitCritical => "exit_critical",
            Op::Value(op) => op.word(),
            Op::Source(_, op) => op.word(),
            Op::NextCommand(_) | Op::Obey => "",
        }
    }
}

/// An op of an interrupt handler, which never waits.
#[derive(Clone, Copy, PartialEq, Eq)]
pub enum IsrOp {
    /// A call on an object, done if it is possible: send, send_front, overwrite, receive, peek or give (`xQueueSendFromISR`,
    /// `xSemaphoreGiveFromISR` and the like).
    Do(ObjectId, Access<Value>),
    /// Sends a command to the daemon's queue, if it has room (`xEventGroupSetBitsFromISR`, `xEventGroupClearBitsFromISR`).
    Command(Command),
    /// Resumes a suspended task (`xTaskResumeFromISR`).
    Resume(TaskId),
    /// Returns which bits of an event group are set (`xEventGroupGetBitsFromISR`).
    GetBits(GroupId),
    /// Notifies a task (`xTaskNotifyFromISR`, `vTaskNotifyGiveFromISR`).
    Notify(TaskId, NotifyAction<Value>),
    /// Writes a mark line with this number, 0 to 4,294,967,295 (profile).
    Mark(Value),
    /// Ends the handler, and the run after the step, if this doesn't hold of the handler's last answer (profile).
    Expect(AnswerCondition),
    /// Goes on if this holds of that answer, and otherwise after its `else`, or after its `end` if it has none (profile).
    If(AnswerCondition),
    /// Goes on after the `end` of its `if` (profile).
    Else,
    /// Ends an `if`, and does nothing (profile).
    EndIf,
    /// Loads or stores a variable, or calculates with the answer of the handler's op before (profile).
    Value(ValueOp),
    /// Arms, disarms, raises or cancels an interrupt handler, perhaps itself (profile).
    Source(HandlerId, SourceOp),
}

impl IsrOp {
    ghost use Rattle.std.specs.Prelude.{◌≡◌};
    ghost use Rattle.model.specs.Words.{word_of_isr};
    ghost use Rattle.model.specs.Blocks.{edge_of_isr};

    /// What it is to the blocks of its handler.
    pub fn edge(&self) -> Edge
        ensures { result ≡ edge_of_isr self.now }
    {
        match self {
            IsrOp::If(_) => Edge::OpensIf,
            IsrOp::Else => Edge::OpensElse,
            IsrOp::EndIf => Edge::EndsIf,
            _ => Edge::Inside,
        }
    }

    /// The first word of the op's text.
    pub fn word(&self) -> &'static str
        ensures { result.now ≡ word_of_isr self.now }
    {
        match *self {
            IsrOp::Do(_, access) => access.word(),
            IsrOp::Command(command) => command.word(),
            IsrOp::Resume(_) => "resume",
            IsrOp::GetBits(_) => "bits",
            IsrOp::Notify(_, _) => "notify",
            IsrOp::Mark(_) => "mark",
            IsrOp::Expect(_) => "expect",
            IsrOp::If(_) => "if",
            IsrOp::Else => "else",
            IsrOp::EndIf => "end",
            IsrOp::Value(op) => op.word(),
            IsrOp::Source(_, op) => op.word(),
        }
    }
}
