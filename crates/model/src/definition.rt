//! Tasks and handlers as the file has them.
ghost use Rattle.std.specs.Prelude.{◌≡◌, ◌<◌, ◌≤◌, true, length, string_bytes};
ghost use Rattle.model.specs.Scripts.{IsScript, IsDefinition, most_handler_ops, most_name_bytes, most_apart};

use crate::op::{IsrOp, Op};
use crate::script::Script;
use std::marker::Model;

/// A task as the file has it: a name, a priority as FreeRTOS has them, and a script (profile).
#[derive(Drop)]
pub struct TaskDefinition {
    name: String,
    priority: u8,
    endless: bool,
    pub(crate) script: Script,
}

impl Model for TaskDefinition {
    ghost use Rattle.std.specs.Prelude.{string_bytes};
    ghost use Rattle.model.specs.Application.{Definition};

    ghost Value = { Definition };

    ghost view = { λ t. record {
      name = string_bytes t.name;
      priority = t.priority;
      endless = t.endless;
      script = t.script;
    } };
}

impl TaskDefinition {
    /// A task of this name (at most 16 bytes), priority (0 to 31, a larger number is a higher priority) and script. No run waits for
    /// the end of one that is endless.
    pub fn new(name: String, priority: u8, endless: bool, script: Script) -> Self
        requires name { length (string_bytes name) ≤ 16 }
        requires priority { priority < 32 }
        requires script { IsScript script }
        ensures value { result ≡ record { name = string_bytes name; priority = priority; endless = endless; script = script } }
        ensures formed { IsDefinition result }
    {
        TaskDefinition {
            name,
            priority,
            endless,
            script,
        }
    }

    /// The name.
    pub fn name(&self) -> &str
        ensures { result.now ≡ self.now.name }
    {
        self.name.as_str()
    }

    /// The priority, 0 to 31.
    pub fn priority(&self) -> u8
        ensures { result ≡ self.now.priority }
    {
        self.priority
    }

    /// Whether no run waits for its end.
    pub fn is_endless(&self) -> bool
        ensures { result ≡ self.now.endless }
    {
        self.endless
    }

    /// The ops of the script.
    pub fn ops(&self) -> &[Op]
        ensures { result.now ≡ self.now.script }
    {
        self.script.ops()
    }
}

/// An interrupt handler as the file has it: a name, and ops (profile).
#[derive(Drop)]
pub struct HandlerDefinition {
    name: String,
    ops: Vec<IsrOp>,
    armed: bool,
    apart: u32,
}

impl Model for HandlerDefinition {
    ghost use Rattle.std.specs.Prelude.{string_bytes};
    ghost use Rattle.model.specs.Application.{Handler};

    ghost Value = { Handler };

    ghost view = { λ h. record {
      name = string_bytes h.name;
      ops = h.ops.items;
      armed = h.armed;
      apart = h.apart;
    } };
}

impl HandlerDefinition {
    /// The most ops of a handler (profile).
    pub const MOST_OPS: usize = 16;

    /// The most ticks that a handler may come after its last coming at least (profile).
    pub const MOST_APART: u32 = 1_000_000;

    /// A handler of this name (at most 16 bytes) and these ops (at most 16). It is armed at reset, and can come at any time.
    pub fn new(name: String, ops: Vec<IsrOp>) -> Self
        requires name { length (string_bytes name) ≤ most_name_bytes }
        requires few { length ops.items ≤ most_handler_ops }
        ensures { result ≡ record { name = string_bytes name; ops = ops.items; armed = true; apart = 0 } }
    {
        HandlerDefinition {
            name,
            ops,
            armed: true,
            apart: 0,
        }
    }

    /// The same handler, but armed at reset or not, and so many elapsed ticks from its last coming at least (at most 1,000,000).
    pub fn arriving(self, armed: bool, apart: u32) -> Self
        requires near { apart ≤ most_apart }
        ensures { result ≡ record self { armed = armed; apart = apart } }
    {
        HandlerDefinition {
            name: self.name,
            ops: self.ops,
            armed,
            apart,
        }
    }

    /// Whether it is armed at reset.
    pub fn armed(&self) -> bool
        ensures { result ≡ self.now.armed }
    {
        self.armed
    }

    /// How many elapsed ticks it comes after its last coming at least.
    pub fn apart(&self) -> u32
        ensures { result ≡ self.now.apart }
    {
        self.apart
    }

    /// The name.
    pub fn name(&self) -> &str
        ensures { result.now ≡ self.now.name }
    {
        self.name.as_str()
    }

    /// The ops, in order.
    pub fn ops(&self) -> &[IsrOp]
        ensures { result.now ≡ self.now.ops }
    {
        self.ops.as_slice()
    }
}
