//! The daemon of a document, which sets and clears event bits for handlers.
ghost use Rattle.std.specs.Prelude.{◌≡◌, ◌≤◌, ◌<◌, ◌+◌, ◌∷◌, [], Some, map, length, is_some, option_map, IfOk, IfSome, if◌then◌else◌};
ghost use Rattle.std.specs.List.{AllByRecursion};
ghost use Rattle.toml.specs.View.{table_view};
ghost use Rattle.model.specs.Application.{Definition};
ghost use Rattle.model.specs.declared.op.Op.TheVariants.{NextCommand, Obey};
ghost use Rattle.model.specs.Blocks.{Nests, edges_of};
ghost use Rattle.model.specs.Scripts.{IsDefinition, IsObjectKind, IsScript, most_name_bytes, most_objects, most_tasks};
ghost use Rattle.script.specs.declared.place.Key.TheVariants as key;
ghost use Rattle.script.specs.Faults.{Judges, seen, required};
ghost use Rattle.script.specs.Values.{name_fault, name_named};
ghost use Rattle.script.specs.Entries.{all_objects, daemon_of, daemon_view, entries_view, names_of};
ghost use Rattle.script.specs.Sections.{daemon_entry, daemon_fault, daemon_keys, daemon_named};
ghost use Rattle.script.specs.Ops.{all_tasks, daemon_task, with_script};

use crate::entries::NamedEntries;
use crate::fault::{Fault, FaultKind};
use crate::named_daemon::NamedDaemon;
use crate::objects::{MOST_ITEMS, kinds_of};
use crate::ops::{finish, push, tasks_of};
use crate::place::{Key, Place, Section};
use crate::raw_task::RawTask;
use crate::readers::HIGHEST_PRIORITY;
use crate::values::{at_section, new_name, required_number};
use model::{ObjectId, ObjectKind, Op, Script, ScriptBuilder, TaskDefinition};
use std::alloc::{AllocError, Global};
use toml::Table;

// ---- its section

// The name of the daemon, which none of the entries has.
fn name<'a>(table: &'a Table, place: Place, earlier: &NamedEntries<'_>) -> Result<&'a str, Fault>
    ensures checks { Judges (seen (λ name. name.now) result)
        (required place key.Name (name_fault (names_of (entries_view earlier.now))) (table_view table.now))
        (name_named (Some (table_view table.now))) }
    ensures length { IfOk result (λ name. length name.now ≤ most_name_bytes) }
{
    let no_others: &[RawTask<'_>] = &[];
    new_name(table, place, earlier, no_others)
}

// The daemon of these keys.
fn daemon_at<'a>(
    table: &'a Table,
    place: Place,
    earlier: &NamedEntries<'_>,
) -> Result<NamedDaemon<'a>, Fault>
    ensures { Judges (seen daemon_view result)
        (daemon_keys (entries_view earlier.now) place (table_view table.now))
        (daemon_entry (Some (table_view table.now))) }
{
    let name = name(table, place, earlier)?;
    let priority = required_number(table, place, Key::Priority, 0, HIGHEST_PRIORITY)?;
    let size = required_number(table, place, Key::Length, 1, MOST_ITEMS)?;
    Ok(NamedDaemon {
        name,
        priority: priority as u8,
        size: size as u16,
    })
}

/// The daemon of a document, which may be left out. It is a task, so there is room for one among the tasks.
#[tactic(auto, unfolding(crate::specs::Sections::daemon_fault, crate::specs::Sections::daemon_named))]
pub(crate) fn daemon<'a>(
    document: &'a Table,
    earlier: &NamedEntries<'_>,
) -> Result<Option<NamedDaemon<'a>>, Fault>
    ensures checks { Judges (seen (option_map daemon_view) result)
        (daemon_fault (entries_view earlier.now) (table_view document.now)) (daemon_named (table_view document.now)) }
    ensures room { IfOk result (λ daemon. IfSome daemon (λ d. length earlier.now.tasks.items < most_tasks)) }
{
    let Some(value) = at_section(document, Section::Daemon) else {
        return Ok(None);
    };
    let place = Place::section(Section::Daemon);
    let Some(table) = value.as_table() else {
        return Err(FaultKind::WrongKind.at(place));
    };
    if earlier.is_full() {
        return Err(FaultKind::TooMany.at(place));
    }
    Ok(Some(daemon_at(table, place, earlier)?))
}

// ---- what it adds to the application, so that only memory may be wanting

/// The objects, and after them the daemon's queue, if there is a daemon.
pub(crate) fn all_objects(
    alloc: Global,
    entries: &NamedEntries<'_>,
) -> Result<Vec<ObjectKind>, AllocError>
    ensures objects { IfOk result (λ v. v.items ≡ all_objects (entries_view entries.now)) }
    ensures formed { IfOk result (λ v. AllByRecursion IsObjectKind v.items) }
    ensures few { IfOk result (λ v. length v.items
        ≤ most_objects + (if is_some (daemon_of (entries_view entries.now)) then 1 else 0)) }
{
    let mut kinds = kinds_of(alloc, entries.objects.as_slice())?;
    if let Some(daemon) = &entries.daemon {
        kinds.push(ObjectKind::Queue(daemon.size))?;
    }
    Ok(kinds)
}

// Its script: it asks for a command of this queue, and does it.
fn script(alloc: Global, commands: ObjectId) -> Result<Script, AllocError>
    ensures script { IfOk result (λ script. script ≡ NextCommand commands ∷ Obey ∷ []) }
    ensures formed { IfOk result IsScript }
{
    let mut builder = ScriptBuilder::new(alloc);
    push(&mut builder, Op::NextCommand(commands))?;
    push(&mut builder, Op::Obey)?;
    finish(builder, alloc)
}

// The daemon as a task, whose queue has this number.
fn task(
    alloc: Global,
    daemon: &NamedDaemon<'_>,
    commands: ObjectId,
) -> Result<TaskDefinition, AllocError>
    ensures task { IfOk result (λ t. t ∷ [] ≡ daemon_task commands (Some (daemon_view daemon.now))) }
    ensures formed { IfOk result IsDefinition }
{
    let script = script(alloc, commands)?;
    let name = String::from_str(alloc, daemon.name)?;
    Ok(TaskDefinition::new(name, daemon.priority, true, script))
}

/// The tasks with their scripts, whose blocks are closed, and after them the daemon, if there is
/// one.
pub(crate) fn all_tasks(
    alloc: Global,
    entries: &NamedEntries<'_>,
) -> Result<Vec<TaskDefinition>, AllocError>
    requires nest { AllByRecursion (λ (t : Definition). Nests [] (edges_of t.script))
        (map (with_script (entries_view entries.now)) (entries_view entries.now).tasks) }
    requires room { IfSome entries.now.daemon (λ d. length entries.now.tasks.items < most_tasks) }
    ensures tasks { IfOk result (λ v. v.items ≡ all_tasks (entries_view entries.now)) }
    ensures formed { IfOk result (λ v. AllByRecursion IsDefinition v.items) }
    ensures few { IfOk result (λ v. length v.items ≤ most_tasks) }
{
    let mut tasks = tasks_of(alloc, entries)?;
    if let Some(daemon) = &entries.daemon {
        tasks.push(task(alloc, daemon, entries.commands())?)?;
    }
    Ok(tasks)
}
