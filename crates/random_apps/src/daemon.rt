//! The daemon, and its queue.
ghost use Rattle.std.specs.Prelude.{◌+◌, ◌≤◌, ◌≡◌, IfSome, length};
ghost use Rattle.std.specs.List.{AllByRecursion};
ghost use Rattle.model.specs.Scripts.{IsObjectKind};
ghost use Rattle.random_apps.specs.Known.{AreTasks, EndsWithQueue, IsCommandQueue, IsDaemonOf, daemon_number};

use super::Dice;
use model::{ObjectId, ObjectKind, Op, ScriptBuilder, TaskDefinition, TaskId};
use std::alloc::Global;

/// The number of the daemon, if there is one: it comes after four tasks.
pub(super) fn daemon_of(has_daemon: bool) -> Option<TaskId>
    ensures { result ≡ daemon_number has_daemon }
{
    if has_daemon {
        Some(TaskId { number: 4 })
    } else {
        None
    }
}

impl Dice {
    /// A short queue for commands.
    fn command_queue(&mut self) -> ObjectKind
        ensures formed { IsObjectKind result }
        ensures queue { IsCommandQueue result }
    {
        ObjectKind::Queue(1 + self.roll(4) as u16)
    }

    /// The objects of the file, and after them the daemon's queue, if there is a daemon.
    #[tactic(auto, using(crate::proofs::WithDaemon::no_queue, crate::proofs::WithDaemon::queue_pushed))]
    pub(super) fn all_objects(&mut self, alloc: Global, has_daemon: bool) -> Option<Vec<ObjectKind>>
        ensures few { IfSome result (λ objects. length objects.items ≤ 5) }
        ensures kinds { IfSome result (λ objects. AllByRecursion IsObjectKind objects.items) }
        ensures queue { IfSome result (λ objects. EndsWithQueue has_daemon objects.items) }
    {
        let mut objects = self.objects(alloc)?;
        self.file_objects = objects.len() as u8;
        if !has_daemon {
            return Some(objects);
        }
        objects.push(self.command_queue()).ok()?;
        Some(objects)
    }

    /// The daemon. Its queue is the last of these objects. Its priority may be any, from that of the lowest tasks to above all of
    /// them.
    fn daemon(&mut self, alloc: Global, objects: &[ObjectKind]) -> Option<TaskDefinition>
        requires { length objects.now ≤ 5 }
        ensures { IfSome result (λ daemon. IsDaemonOf objects.now daemon) }
    {
        let queue = ObjectId::new(objects.len().saturating_sub(1) as u8)?;
        let mut script = ScriptBuilder::new(alloc);
        script.push(Op::NextCommand(queue)).ok()?;
        script.push(Op::Obey).ok()?;
        let script = script.finish(alloc).ok()?;
        let name = String::from_str(alloc, "z").ok()?;
        let priority = self.roll(5) as u8;
        Some(TaskDefinition::new(name, priority, true, script))
    }

    /// The tasks of the file, and after them the daemon, if there is one.
    #[tactic(auto, using(crate::proofs::WithDaemon::no_daemon))]
    pub(super) fn all_tasks(
        &mut self,
        alloc: Global,
        objects: &[ObjectKind],
        has_daemon: bool,
    ) -> Option<Vec<TaskDefinition>>
        requires { length objects.now ≤ 5 }
        ensures { IfSome result (λ tasks. AreTasks has_daemon objects.now tasks.items) }
    {
        let mut tasks = self.tasks(alloc, objects)?;
        if !has_daemon {
            return Some(tasks);
        }
        let daemon = self.daemon(alloc, objects)?;
        tasks.push(daemon).ok()?;
        Some(tasks)
    }
}
