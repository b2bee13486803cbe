//! Handlers, and base interrupts.
ghost use Rattle.std.specs.Prelude.{◌+◌, ◌≤◌, ◌≡◌, [], IsTrue, Some, IfSome, length};
ghost use Rattle.std.specs.List.{AllByRecursion, slice_get};
ghost use Rattle.model.specs.declared.object.ObjectKind.TheVariants as of_kind;
ghost use Rattle.model.specs.Blocks.{Nests, isr_edges_of};
ghost use Rattle.random_apps.specs.Known.{AreInterrupts, IsKnownCondition, IsKnownHandler, IsKnownIsr, IsKnownIsrWith};

use super::handler_ops::HandlerOps;
use super::{Dice, Role, Theme};
use model::{
    Access, AnswerCondition, Command, HandlerDefinition, HandlerId, Interrupt, IsrOp, ObjectId,
    ObjectKind,
};
use std::alloc::Global;

/// Ends the open branches.
fn close(ops: &mut HandlerOps, objects: &[ObjectKind], has_daemon: bool)
    requires few { length ops.old ≤ 8 }
    requires known { AllByRecursion (IsKnownIsrWith has_daemon objects.now) ops.old }
    ensures few { length ops.new ≤ 16 }
    ensures known { AllByRecursion (IsKnownIsrWith has_daemon objects.now) ops.new }
{
    let _ = objects;
    for _ in 0..8_u8 {
        ops.push(IsrOp::EndIf);
    }
}

impl Dice {
    /// A call of a handler on this queue, which has this length.
    fn isr_queue_call(&mut self, objects: &[ObjectKind], queue: ObjectId, length: u16) -> IsrOp
        requires { slice_get objects.now queue ≡ Some (of_kind.Queue length) }
        ensures { IsKnownIsr objects.now result }
    {
        let _ = objects;
        if length == 1 && self.roll(4) == 0 {
            return IsrOp::Do(queue, Access::Overwrite(self.value(9)));
        }
        IsrOp::Do(queue, self.queue_access(length))
    }

    /// A call of a handler on this object, if there is one.
    fn isr_call_on(
        &mut self,
        objects: &[ObjectKind],
        object: ObjectId,
        kind: ObjectKind,
    ) -> Option<IsrOp>
        requires { slice_get objects.now object ≡ Some kind }
        ensures { IfSome result (λ op. IsKnownIsr objects.now op) }
    {
        match kind {
            ObjectKind::Queue(length) => Some(self.isr_queue_call(objects, object, length)),
            ObjectKind::Semaphore(_, _) => Some(IsrOp::Do(object, Access::Give)),
            ObjectKind::Mutex => None,
        }
    }

    /// A call of a handler on some object, if there is one.
    fn isr_call(&mut self, objects: &[ObjectKind]) -> Option<IsrOp>
        ensures { IfSome result (λ op. IsKnownIsr objects.now op) }
    {
        let object = self.object_number()?;
        let kind = objects.get(object.number as usize).copied()?;
        self.isr_call_on(objects, object, kind)
    }

    /// An op of a handler that resumes a task or reads the bits of a group. In applications of all sorts it may also notify a task.
    #[tactic(auto, using(crate::proofs::Known::knows_group, crate::proofs::Known::knows_task))]
    fn isr_resume(&mut self, objects: &[ObjectKind]) -> IsrOp
        ensures { IsKnownIsr objects.now result }
    {
        match self.roll(4) {
            0 => IsrOp::GetBits(self.group()),
            1 if self.theme == Theme::Any => self.isr_notify(objects),
            _ => IsrOp::Resume(self.some_task()),
        }
    }

    /// Whether the next op of a handler is about a task or a group: never if tasks crowd around objects or contend for mutexes,
    /// often if tasks are suspended.
    fn resumes(&mut self) -> bool {
        match self.theme {
            Theme::Crowd | Theme::Contest => false,
            Theme::Any
            | Theme::Gathering
            | Theme::Decision
            | Theme::Section
            | Theme::Signal
            | Theme::Calculation
            | Theme::Device => self.roll(4) == 0,
            Theme::Suspension => self.roll(2) == 0,
        }
    }

    /// A command to the daemon to set bits, or to clear some.
    #[tactic(auto, using(crate::proofs::Known::known_command))]
    fn isr_command(&mut self, objects: &[ObjectKind], has_daemon: bool) -> IsrOp
        requires { IsTrue has_daemon }
        ensures { IsKnownIsrWith has_daemon objects.now result }
    {
        let _ = objects;
        IsrOp::Command(Command {
            group: self.group(),
            mask: self.mask(),
            clear: self.roll(4) == 0,
        })
    }

    /// Whether the next op of a handler is a command, if there is a daemon: usually if tasks wait for bits, seldom if they crowd
    /// around objects or contend for mutexes.
    fn commands(&mut self) -> bool {
        match self.theme {
            Theme::Crowd | Theme::Contest => self.roll(8) == 0,
            Theme::Any
            | Theme::Suspension
            | Theme::Decision
            | Theme::Section
            | Theme::Signal
            | Theme::Calculation
            | Theme::Device => self.roll(3) == 0,
            Theme::Gathering => self.roll(3) > 0,
        }
    }

    /// Whether the next op of a handler checks its last answer: often if tasks act on the last answer too, and seldom in
    /// applications of all sorts.
    fn looks(&mut self) -> bool {
        match self.theme {
            Theme::Decision => self.roll(5) < 3,
            Theme::Any | Theme::Section | Theme::Device => self.roll(10) == 0,
            Theme::Signal | Theme::Calculation => self.roll(4) == 0,
            Theme::Crowd | Theme::Contest | Theme::Gathering | Theme::Suspension => false,
        }
    }

    /// What a handler expects of its last answer: usually something that holds.
    #[tactic(auto, using(crate::proofs::Known::known_is_not, crate::proofs::Known::known_some))]
    fn expectation(&mut self) -> AnswerCondition
        ensures { IsKnownCondition result }
    {
        if self.roll(3) == 0 {
            return self.answer_condition();
        }
        let number = 9 + self.roll(3);
        AnswerCondition::IsNot(Some(self.operand(number)))
    }

    /// An op of a handler that checks its last answer: it opens or ends a branch, or expects something.
    #[tactic(auto, using(crate::proofs::Known::known_isr_if, crate::proofs::Known::known_isr_expect))]
    fn looking_op(&mut self, objects: &[ObjectKind]) -> IsrOp
        ensures { IsKnownIsr objects.now result }
    {
        let _ = objects;
        match self.roll(12) {
            0..=4 => IsrOp::If(self.answer_condition()),
            5..=6 => IsrOp::Else,
            7..=9 => IsrOp::EndIf,
            _ => IsrOp::Expect(self.expectation()),
        }
    }

    fn isr_op(&mut self, objects: &[ObjectKind], has_daemon: bool) -> IsrOp
        ensures { IsKnownIsrWith has_daemon objects.now result }
    {
        if self.looks() {
            return self.looking_op(objects);
        }
        if self.calculates() {
            return self.isr_value_op(objects);
        }
        if self.notifies() {
            return self.isr_notify(objects);
        }
        if self.raises() {
            return self.isr_source_op(objects);
        }
        if has_daemon && self.commands() {
            return self.isr_command(objects, has_daemon);
        }
        if self.resumes() {
            return self.isr_resume(objects);
        }
        if self.roll(8) > 0 {
            if let Some(op) = self.isr_call(objects) {
                self.has_answer = true;
                return op;
            }
        }
        IsrOp::Mark(self.value(10))
    }

    /// The number of ops that a handler may have before its end.
    fn isr_op_count(&mut self) -> u32
        ensures { result ≤ 8 }
    {
        match self.theme {
            Theme::Decision | Theme::Signal | Theme::Calculation => self.roll(9),
            _ => self.roll(6),
        }
    }

    /// Up to five ops of a handler, or eight if it acts on the last answer, notifies or calculates. An op that isn't allowed in its
    /// place is left out. Then the open branches end.
    fn isr_ops(
        &mut self,
        alloc: Global,
        objects: &[ObjectKind],
        has_daemon: bool,
    ) -> Option<Vec<IsrOp>>
        ensures few { IfSome result (λ ops. length ops.items ≤ 16) }
        ensures nests { IfSome result (λ ops. Nests [] (isr_edges_of ops.items)) }
        ensures known { IfSome result (λ ops. AllByRecursion (IsKnownIsrWith has_daemon objects.now) ops.items) }
    {
        let mut ops = HandlerOps::new(alloc);
        let length = self.isr_op_count();
        for _ in 0..length {
            ops.push(self.isr_op(objects, has_daemon));
        }
        close(&mut ops, objects, has_daemon);
        ops.finish()
    }

    /// A handler. It may be disarmed at reset, and it may come only so many ticks apart.
    fn handler(
        &mut self,
        alloc: Global,
        name: &str,
        objects: &[ObjectKind],
        has_daemon: bool,
    ) -> Option<HandlerDefinition>
        requires { length name.now ≤ 16 }
        ensures { IfSome result (λ handler. IsKnownHandler has_daemon objects.now handler) }
    {
        self.role = Role::Any;
        self.has_answer = false;
        let ops = self.isr_ops(alloc, objects, has_daemon)?;
        let name = String::from_str(alloc, name).ok()?;
        let (armed, apart) = self.arrival();
        Some(HandlerDefinition::new(name, ops).arriving(armed, apart))
    }

    /// Adds a handler of this name.
    fn add_handler(
        &mut self,
        handlers: &mut Vec<HandlerDefinition>,
        alloc: Global,
        name: &str,
        objects: &[ObjectKind],
        has_daemon: bool,
    ) -> Option<()>
        requires { length name.now ≤ 16 }
        ensures one { IfSome result (λ _. length handlers.new.items ≡ length handlers.old.items + 1) }
        ensures known { IfSome result (λ _.
            AllByRecursion (IsKnownHandler has_daemon objects.now) handlers.old.items
            → AllByRecursion (IsKnownHandler has_daemon objects.now) handlers.new.items) }
    {
        let handler = self.handler(alloc, name, objects, has_daemon)?;
        handlers.push(handler).ok()
    }

    /// Three handlers.
    pub(super) fn handlers(
        &mut self,
        alloc: Global,
        objects: &[ObjectKind],
        has_daemon: bool,
    ) -> Option<Vec<HandlerDefinition>>
        ensures three { IfSome result (λ handlers. length handlers.items ≡ 3) }
        ensures known { IfSome result (λ handlers.
            AllByRecursion (IsKnownHandler has_daemon objects.now) handlers.items) }
    {
        let mut handlers = Vec::new(alloc);
        self.add_handler(&mut handlers, alloc, "f", objects, has_daemon)?;
        self.add_handler(&mut handlers, alloc, "g", objects, has_daemon)?;
        self.add_handler(&mut handlers, alloc, "h", objects, has_daemon)?;
        Some(handlers)
    }

    /// How many ticks after the previous base interrupt the next one comes: few, or often many if tasks sleep for long.
    fn ticks_between(&mut self) -> u32
        ensures { result ≤ 200000 }
    {
        if self.sleeps_long && self.roll(3) > 0 {
            100_000 * self.roll(3)
        } else {
            self.roll(6)
        }
    }

    /// Up to four base interrupts of three handlers, some of them at one tick.
    #[tactic(auto, using(crate::proofs::Known::one_more, crate::proofs::Known::none_yet, crate::proofs::Known::up_to_later))]
    pub(super) fn interrupts(&mut self, alloc: Global) -> Option<Vec<Interrupt>>
        ensures few { IfSome result (λ interrupts. length interrupts.items ≤ 4) }
        ensures formed { IfSome result (λ interrupts. AreInterrupts 800001 interrupts.items) }
    {
        let mut interrupts = Vec::new(alloc);
        let mut tick = 1;
        let length = self.roll(5);
        for _ in 0..length {
            tick += self.ticks_between();
            let handler = HandlerId {
                number: self.roll(3) as u8,
            };
            interrupts.push(Interrupt { tick, handler }).ok()?;
        }
        Some(interrupts)
    }
}
