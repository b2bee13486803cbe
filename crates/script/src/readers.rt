//! The event groups, the variables, the handlers and the tasks of a document.
ghost use Rattle.std.specs.Prelude.{◌≤◌, ◌<◌, map, length, IfOk, IfSome};
ghost use Rattle.toml.specs.View.{table_view};
ghost use Rattle.model.specs.Scripts.{most_tasks};
ghost use Rattle.script.specs.Faults.{Judges, seen};
ghost use Rattle.script.specs.Entries.{group_view, variable_view, isr_view, raw_view, entries_view};
ghost use Rattle.script.specs.Sections.{groups_fault, groups_named, variables_fault, variables_named, handlers_fault, handlers_named, tasks_fault, tasks_named};
ghost use Rattle.script.specs.Load.{entries_fault, entries_of};

use crate::daemon::daemon;
use crate::entries::NamedEntries;
use crate::fault::{Fault, FaultKind};
use crate::named_group::{Groups, NamedGroup};
use crate::named_variable::{NamedVariable, Variables};
use crate::objects::objects;
use crate::place::{Key, Place, Section};
use crate::raw_handler::{RawHandler, RawHandlers};
use crate::raw_task::{RawTask, RawTasks};
use crate::sections::{EntryReader, whole_section};
use crate::values::{at_key, new_name, optional_boolean, optional_number, required_number, texts};
use model::{HandlerDefinition, Script};
use toml::Table;

// The highest priority (profile).
pub(crate) const HIGHEST_PRIORITY: u32 = 31;

// Each reads the entries of a section after the entries of earlier sections.
#[derive(Drop)]
struct GroupReader<'e>(&'e NamedEntries<'e>);

#[derive(Drop)]
struct VariableReader<'e>(&'e NamedEntries<'e>);

#[derive(Drop)]
struct HandlerReader<'e>(&'e NamedEntries<'e>);

#[derive(Drop)]
struct TaskReader<'e>(&'e NamedEntries<'e>);

impl<'a> EntryReader<'a> for GroupReader<'_> {
    type Entry = NamedGroup<'a>;

    ghost use Rattle.script.specs.Entries.{GroupEntry, group_view, entries_view};
    ghost use Rattle.script.specs.Sections.{group_keys, group_named};

    ghost Shown = { GroupEntry };

    ghost shown = { group_view };

    ghost keys = { λ r. group_keys (entries_view r.0.now) };

    ghost named = { λ _. group_named };

    fn read(
        &self,
        table: &'a Table,
        place: Place,
        before: &[NamedGroup<'a>],
    ) -> Result<NamedGroup<'a>, Fault> {
        let name = new_name(table, place, self.0, before)?;
        Ok(NamedGroup { name })
    }
}

impl<'a> EntryReader<'a> for VariableReader<'_> {
    type Entry = NamedVariable<'a>;

    ghost use Rattle.script.specs.Entries.{VariableEntry, variable_view, entries_view};
    ghost use Rattle.script.specs.Sections.{variable_keys, variable_named};

    ghost Shown = { VariableEntry };

    ghost shown = { variable_view };

    ghost keys = { λ r. variable_keys (entries_view r.0.now) };

    ghost named = { λ _. variable_named };

    fn read(
        &self,
        table: &'a Table,
        place: Place,
        before: &[NamedVariable<'a>],
    ) -> Result<NamedVariable<'a>, Fault> {
        let name = new_name(table, place, self.0, before)?;
        let value = at_key(table, Key::Initial);
        let initial = optional_number(value, place.key(Key::Initial), 0, u32::MAX, 0)?;
        Ok(NamedVariable { name, initial })
    }
}

impl<'a> EntryReader<'a> for HandlerReader<'_> {
    type Entry = RawHandler<'a>;

    ghost use Rattle.script.specs.Entries.{RawIsr, isr_view, entries_view};
    ghost use Rattle.script.specs.Sections.{handler_keys, handler_named};

    ghost Shown = { RawIsr };

    ghost shown = { isr_view };

    ghost keys = { λ r. handler_keys (entries_view r.0.now) };

    ghost named = { λ _. handler_named };

    fn read(
        &self,
        table: &'a Table,
        place: Place,
        before: &[RawHandler<'a>],
    ) -> Result<RawHandler<'a>, Fault> {
        let name = new_name(table, place, self.0, before)?;
        let ops = texts(table, place, Key::Ops, HandlerDefinition::MOST_OPS)?;
        let value = at_key(table, Key::Armed);
        let armed = optional_boolean(value, place.key(Key::Armed), true)?;
        let value = at_key(table, Key::Apart);
        let most = HandlerDefinition::MOST_APART;
        let apart = optional_number(value, place.key(Key::Apart), 0, most, 0)?;
        Ok(RawHandler {
            name,
            ops,
            armed,
            apart,
        })
    }
}

impl<'a> EntryReader<'a> for TaskReader<'_> {
    type Entry = RawTask<'a>;

    ghost use Rattle.script.specs.Entries.{Raw, raw_view, entries_view};
    ghost use Rattle.script.specs.Sections.{task_keys, task_named};

    ghost Shown = { Raw };

    ghost shown = { raw_view };

    ghost keys = { λ r. task_keys (entries_view r.0.now) };

    ghost named = { λ _. task_named };

    fn read(
        &self,
        table: &'a Table,
        place: Place,
        before: &[RawTask<'a>],
    ) -> Result<RawTask<'a>, Fault> {
        let name = new_name(table, place, self.0, before)?;
        let priority = required_number(table, place, Key::Priority, 0, HIGHEST_PRIORITY)?;
        let value = at_key(table, Key::Endless);
        let endless = optional_boolean(value, place.key(Key::Endless), false)?;
        let script = texts(table, place, Key::Script, Script::MOST_OPS)?;
        Ok(RawTask {
            name,
            priority: priority as u8,
            endless,
            script,
        })
    }
}

#[tactic(auto, unfolding(crate::specs::Sections::groups_fault, crate::specs::Sections::groups_named))]
fn groups<'a>(document: &'a Table, earlier: &NamedEntries<'_>) -> Result<Groups<'a>, Fault>
    ensures { Judges (seen (λ v. map group_view v.items) result)
        (groups_fault (entries_view earlier.now) (table_view document.now)) (groups_named (table_view document.now)) }
{
    whole_section(&GroupReader(earlier), Section::Group, document)
}

#[tactic(auto, unfolding(crate::specs::Sections::variables_fault, crate::specs::Sections::variables_named))]
fn variables<'a>(document: &'a Table, earlier: &NamedEntries<'_>) -> Result<Variables<'a>, Fault>
    ensures { Judges (seen (λ v. map variable_view v.items) result)
        (variables_fault (entries_view earlier.now) (table_view document.now)) (variables_named (table_view document.now)) }
{
    whole_section(&VariableReader(earlier), Section::Variable, document)
}

#[tactic(auto, unfolding(crate::specs::Sections::handlers_fault, crate::specs::Sections::handlers_named))]
fn handlers<'a>(document: &'a Table, earlier: &NamedEntries<'_>) -> Result<RawHandlers<'a>, Fault>
    ensures { Judges (seen (λ v. map isr_view v.items) result)
        (handlers_fault (entries_view earlier.now) (table_view document.now)) (handlers_named (table_view document.now)) }
{
    whole_section(&HandlerReader(earlier), Section::Handler, document)
}

#[tactic(auto, unfolding(crate::specs::Sections::tasks_fault, crate::specs::Sections::tasks_named))]
fn tasks<'a>(document: &'a Table, earlier: &NamedEntries<'_>) -> Result<RawTasks<'a>, Fault>
    ensures { Judges (seen (λ v. map raw_view v.items) result)
        (tasks_fault (entries_view earlier.now) (table_view document.now)) (tasks_named (table_view document.now)) }
{
    whole_section(&TaskReader(earlier), Section::Task, document)
}

/// The entries of a document that have names; at least one of them is a task. There is room for one
/// more if there is a daemon.
#[tactic(auto, unfolding(crate::specs::Load::entries_fault, crate::specs::Load::entries_of))]
pub(crate) fn named_entries(document: &Table) -> Result<NamedEntries<'_>, Fault>
    ensures checks { Judges (seen entries_view result)
        (entries_fault (table_view document.now)) (entries_of (table_view document.now)) }
    ensures some { IfOk result (λ entries. 1 ≤ length entries.tasks.items) }
    ensures room { IfOk result (λ entries. IfSome entries.daemon (λ d. length entries.tasks.items < most_tasks)) }
{
    let mut entries = NamedEntries::none();
    entries.objects = objects(document)?;
    entries.groups = groups(document, &entries)?;
    entries.variables = variables(document, &entries)?;
    entries.handlers = handlers(document, &entries)?;
    entries.tasks = tasks(document, &entries)?;
    if entries.tasks.is_empty() {
        return Err(FaultKind::Missing.at(Place::section(Section::Task)));
    }
    entries.daemon = daemon(document, &entries)?;
    Ok(entries)
}
