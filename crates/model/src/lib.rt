//! What an application is, and what the kernel does with it: the types that all crates share, and the definitions
//! of the kernel that their contracts cite (`specs/`).
#![tactic(auto)]

mod answer;
mod app;
mod block;
mod call;
mod definition;
mod end_state;
mod event;
mod ids;
mod interrupts;
mod limits;
mod loops;
mod notification;
mod object;
mod op;
mod plan;
mod run;
mod script;
mod source;
mod totals;
mod value;

pub use answer::AnswerCondition;
pub use app::App;
pub use block::{Block, Edge, OpenBlocks};
pub use call::{CallProgress, Condition, Phase, WaitList};
pub use definition::{HandlerDefinition, TaskDefinition};
pub use end_state::{EndState, HeldMutex, Situation};
pub use event::{End, Event, Misuse, What};
pub use ids::{GroupId, HandlerId, ObjectId, TaskId, VariableId};
pub use interrupts::{BaseInterrupts, Interrupt};
pub use limits::{Limits, Meter};
pub use loops::Loop;
pub use notification::{
    Notification, NotificationClear, NotificationMasks, NotificationWait, NotifyAction,
};
pub use object::ObjectKind;
pub use op::{Access, Command, IsrOp, Op};
pub use plan::{BadPlan, BadPoint, Injection, Injections, Plan, Point, PointEntry, PointRange};
pub use run::{Ending, Memory, Run};
pub use script::{NestingFault, Script, ScriptBuilder};
pub use source::SourceOp;
pub use totals::Totals;
pub use value::{Arithmetic, Value, ValueOp};
