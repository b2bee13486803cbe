//! The daemon: the task that sets and clears event bits for handlers.

use super::{ReferenceKernel, Task, count_if};
use model::{Access, App, Command, GroupId, Phase, TaskId, What};

/// A command as an item of the daemon's queue: the mask in the low bits, above it the group, and above that whether it clears.
fn item_of(command: Command) -> u32 {
    let kind = if command.clear { 16 } else { 0 };
    command.mask | (command.group.number as u32 + kind) << 24
}

impl ReferenceKernel {
    // ---- the handlers

    fn count_command(&mut self, queue: u8, has_room: bool) {
        let is_locked = self.locked == Some(queue);
        count_if(&mut self.tally.commands, has_room);
        count_if(&mut self.tally.refused_commands, !has_room);
        count_if(&mut self.tally.window_commands, has_room && is_locked);
    }

    /// Sends a handler's command to the daemon's queue, if there is room.
    pub(super) fn send_command(&mut self, app: &App, command: Command) -> Option<u32> {
        let queue = app.commands().number;
        let answer = self.attempt(None, queue, Access::Send(item_of(command)));
        self.count_command(queue, answer == Some(1));
        answer
    }

    // ---- the next command

    /// Takes a command if there is one, which is no event: it becomes the daemon's last answer. Otherwise the daemon decides to
    /// wait for one.
    fn take_command(&mut self, app: &App, id: TaskId, queue: u8) {
        if self.is_possible(queue, Access::Receive) {
            let answer = self.fulfil(Some(id), queue, Access::Receive);
            self.complete(
                app,
                id,
                Task {
                    answer,
                    ..self.task(id)
                },
            );
            self.preempt();
        } else {
            self.set_phase(id, Phase::Decide);
        }
    }

    /// The daemon waits for its next command, in the phases of a receive that waits forever.
    pub(super) fn next_command(&mut self, app: &App, id: TaskId, queue: u8) {
        match self.task(id).call.phase {
            Phase::Start | Phase::Try => self.take_command(app, id, queue),
            _ => self.go_on_waiting(app, id, queue, Access::Receive, None),
        }
    }

    // ---- doing it

    /// Ends the command with this answer. The daemon then asks for the next one.
    fn end_command(&mut self, app: &App, id: TaskId, clear: bool, bits: u32) {
        self.write(What::Obeyed(id, clear, bits));
        let answer = Some(bits);
        self.go_to(
            app,
            id,
            0,
            Task {
                answer,
                ..self.task(id)
            },
        );
    }

    /// Clears bits. The answer is the bits that were set before.
    fn clear_by_daemon(&mut self, app: &App, id: TaskId, group: GroupId, mask: u32) {
        let bits = self.bits(group);
        self.put(group, bits & !mask);
        count_if(&mut self.tally.clears_by_daemon, true);
        self.end_command(app, id, true, bits);
    }

    /// Ends the hold in which bits were set. The answer is the present bits.
    fn end_set_by_daemon(&mut self, app: &App, id: TaskId, group: GroupId) {
        self.end_hold();
        count_if(&mut self.tally.sets_by_daemon, true);
        self.end_command(app, id, false, self.bits(group));
        self.preempt();
    }

    /// The daemon carries out the command that it has received, as a task does its op. It clears bits in one step, and sets them in
    /// two.
    pub(super) fn obey(&mut self, app: &App, id: TaskId) {
        let task = self.task(id);
        let command = Command::of_item(task.answer.unwrap_or(0));
        match task.call.phase {
            Phase::Start if command.clear => {
                self.clear_by_daemon(app, id, command.group, command.mask);
            }
            Phase::Start => self.begin_set(id, command.group, command.mask),
            _ => self.end_set_by_daemon(app, id, command.group),
        }
    }

    /// Whether the daemon runs.
    pub fn is_daemon_running(&self, app: &App) -> bool {
        self.current.is_some() && self.current == app.daemon()
    }
}
