//! The entries of a document that have names.
ghost use Rattle.std.specs.Prelude.{◌≡◌, ◌≤◌, ◌<◌, [], false, None, nat_le, length, is_none, IfSome};
ghost use Rattle.std.specs.List.{list_any};
ghost use Rattle.std.specs.Str.{bytes_eq};
ghost use Rattle.model.specs.Scripts.{most_groups, most_tasks};
ghost use Rattle.script.specs.Entries.{daemon_of, entries_view, names_of};

use crate::named::{Named, has_name};
use crate::named_daemon::NamedDaemon;
use crate::named_group::{Groups, NamedGroup};
use crate::named_object::{NamedObject, Objects};
use crate::named_variable::{NamedVariable, Variables};
use crate::raw_handler::{RawHandler, RawHandlers};
use crate::raw_task::{MOST_TASKS, RawTask, RawTasks};
use arrayvec::ArrayVec;
use model::{ObjectId, TaskId};

/// The entries of a document that have names, as far as they have been read. The ops of handlers and tasks are still texts.
#[derive(Drop)]
pub(crate) struct NamedEntries<'a> {
    pub(crate) objects: Objects<'a>,
    pub(crate) groups: Groups<'a>,
    pub(crate) variables: Variables<'a>,
    pub(crate) handlers: RawHandlers<'a>,
    pub(crate) tasks: RawTasks<'a>,
    pub(crate) daemon: Option<NamedDaemon<'a>>,
}

impl Named for NamedObject<'_> {
    ghost use Rattle.script.specs.Entries.{ObjectEntry, object_view};

    ghost Shown = { ObjectEntry };

    ghost shown = { object_view };

    ghost name_of = { λ o. o.name };

    fn name(&self) -> &str {
        self.name
    }
}

impl Named for NamedGroup<'_> {
    ghost use Rattle.script.specs.Entries.{GroupEntry, group_view};

    ghost Shown = { GroupEntry };

    ghost shown = { group_view };

    ghost name_of = { λ g. g.name };

    fn name(&self) -> &str {
        self.name
    }
}

impl Named for NamedVariable<'_> {
    ghost use Rattle.script.specs.Entries.{VariableEntry, variable_view};

    ghost Shown = { VariableEntry };

    ghost shown = { variable_view };

    ghost name_of = { λ v. v.name };

    fn name(&self) -> &str {
        self.name
    }
}

impl Named for RawHandler<'_> {
    ghost use Rattle.script.specs.Entries.{RawIsr, isr_view};

    ghost Shown = { RawIsr };

    ghost shown = { isr_view };

    ghost name_of = { λ h. h.name };

    fn name(&self) -> &str {
        self.name
    }
}

impl Named for RawTask<'_> {
    ghost use Rattle.script.specs.Entries.{Raw, raw_view};

    ghost Shown = { Raw };

    ghost shown = { raw_view };

    ghost name_of = { λ t. t.name };

    fn name(&self) -> &str {
        self.name
    }
}

impl NamedEntries<'_> {
    /// No entries.
    pub(crate) fn none() -> Self
        ensures objects { result.objects.items ≡ [] }
        ensures groups { result.groups.items ≡ [] }
        ensures variables { result.variables.items ≡ [] }
        ensures handlers { result.handlers.items ≡ [] }
        ensures tasks { result.tasks.items ≡ [] }
        ensures daemon { result.daemon ≡ None }
    {
        NamedEntries {
            objects: ArrayVec::new(),
            groups: ArrayVec::new(),
            variables: ArrayVec::new(),
            handlers: ArrayVec::new(),
            tasks: ArrayVec::new(),
            daemon: None,
        }
    }

    /// Whether one of them but the daemon has this name.
    pub(crate) fn has_name(&self, name: &str) -> bool
        ensures { result ≡ list_any (bytes_eq name.now) (names_of (entries_view self.now)) }
    {
        if has_name(self.objects.as_slice(), name) {
            return true;
        }
        if has_name(self.groups.as_slice(), name) {
            return true;
        }
        if has_name(self.variables.as_slice(), name) {
            return true;
        }
        if has_name(self.handlers.as_slice(), name) {
            return true;
        }
        has_name(self.tasks.as_slice(), name)
    }

    /// Whether there is no daemon.
    pub(crate) fn lacks_daemon(&self) -> bool
        ensures { result ≡ is_none (entries_view self.now).daemon }
    {
        match &self.daemon {
            None => true,
            Some(_) => false,
        }
    }

    /// Whether there are as many tasks as there may be.
    pub(crate) fn is_full(&self) -> bool
        ensures full { result ≡ nat_le most_tasks (length (entries_view self.now).tasks) }
        ensures room { result ≡ false → length self.now.tasks.items < most_tasks }
    {
        self.tasks.as_slice().len() >= MOST_TASKS
    }

    /// The number of the daemon, which is the task after the others. There is room for it.
    pub(crate) fn daemon_number(&self) -> Option<TaskId>
        requires { IfSome self.now.daemon (λ d. length self.now.tasks.items < most_tasks) }
        ensures { result ≡ daemon_of (entries_view self.now) }
    {
        match &self.daemon {
            None => None,
            Some(_) => Some(TaskId {
                number: self.tasks.as_slice().len() as u8,
            }),
        }
    }

    /// The number of the daemon's queue, which is the object after the others.
    pub(crate) fn commands(&self) -> ObjectId
        ensures { result ≡ length (entries_view self.now).objects }
    {
        ObjectId {
            number: self.objects.as_slice().len() as u8,
        }
    }

    /// How many event groups they are.
    pub(crate) fn group_count(&self) -> u8
        ensures count { result ≡ length (entries_view self.now).groups }
        ensures few { result ≤ most_groups }
    {
        self.groups.as_slice().len() as u8
    }
}
