//! An application from a document.
ghost use Rattle.std.specs.Prelude.{◌≡◌, ◌≤◌, ◌<◌, ◌+◌, ◌∷◌, [], Option, map, length, is_some, option_and_then, IfOk, IfSome, if◌then◌else◌};
ghost use Rattle.std.specs.List.{AllByRecursion};
ghost use Rattle.toml.specs.Data.{Members};
ghost use Rattle.toml.specs.View.{table_view};
ghost use Rattle.script.specs.declared.fault.Fault.{Fault};
ghost use Rattle.script.specs.declared.place.Section.TheVariants as section;
ghost use Rattle.model.specs.Application.{Definition};
ghost use Rattle.model.specs.Blocks.{Nests, edges_of};
ghost use Rattle.model.specs.Scripts.{IsObjectKind, IsDefinition, most_objects, most_variables, most_handlers, most_tasks, most_ticks};
ghost use Rattle.script.specs.Faults.{Judges, Loads, first_fault};
ghost use Rattle.script.specs.Entries.{all_objects, daemon_of, initial_values, isr_names, source_names, entries_view};
ghost use Rattle.script.specs.Sections.{data_at};
ghost use Rattle.script.specs.Ops.{IsLimited, all_tasks, handler_ops_fault, scripts_fault, with_isr_ops, with_script};
ghost use Rattle.script.specs.Interrupts.{interrupts_fault, interrupts_named};
ghost use Rattle.script.specs.Points.{campaign_fault, campaign_named};
ghost use Rattle.script.specs.Load.{most_limit, limits_fault, limits_named, load_fault, app_named};

use crate::daemon::{all_objects, all_tasks};
use crate::entries::NamedEntries;
use crate::fault::{Fault, FaultKind, LoadError};
use crate::interrupts::interrupts;
use crate::named_variable::initial_values;
use crate::ops::{check_handlers, check_scripts, handlers_of};
use crate::place::{Key, Place, Section};
use crate::points::points;
use crate::readers::named_entries;
use crate::values::{at_key, at_section, optional_boolean, optional_long_number, optional_number};
use model::{
    App, BaseInterrupts, HandlerDefinition, Interrupt, Limits, ObjectKind, TaskDefinition,
};
use std::alloc::{AllocError, Global};
use toml::Table;

// The most ticks that a document may ask for.
fn most_ticks(tickless: bool) -> u64
    ensures value { result ≡ (if tickless then most_ticks else most_limit) }
    ensures range { (most_limit ≤ result) × (result ≤ most_ticks) }
{
    if tickless {
        Limits::MOST_TICKS
    } else {
        Limits::MOST as u64
    }
}

// The limits of a document that is tickless or not.
fn limits(document: &Table, tickless: bool) -> Result<Limits, Fault>
    ensures { Judges result
        (option_and_then (limits_fault tickless) (data_at section.Limits (table_view document.now)))
        (limits_named (data_at section.Limits (table_view document.now))) }
{
    let Some(value) = at_section(document, Section::Limits) else {
        return Ok(Limits {
            ticks: Limits::MOST as u64,
            steps: Limits::MOST,
        });
    };
    let place = Place::section(Section::Limits);
    let Some(table) = value.as_table() else {
        return Err(FaultKind::WrongKind.at(place));
    };
    let value = at_key(table, Key::Ticks);
    let (most, default) = (most_ticks(tickless), Limits::MOST as u64);
    let ticks = optional_long_number(value, place.key(Key::Ticks), 1, most, default)?;
    let value = at_key(table, Key::Steps);
    let steps = optional_number(value, place.key(Key::Steps), 1, Limits::MOST, Limits::MOST)?;
    Ok(Limits { ticks, steps })
}

// The parts of an application that its entries and its interrupts give.
#[derive(Drop)]
struct Parts {
    objects: Vec<ObjectKind>,
    variables: Vec<u32>,
    handlers: Vec<HandlerDefinition>,
    interrupts: BaseInterrupts,
    tasks: Vec<TaskDefinition>,
}

// The parts that these entries, whose blocks are closed, and interrupts give. Only memory may be wanting.
fn parts_of(
    alloc: Global,
    entries: &NamedEntries<'_>,
    listed: &[Interrupt],
) -> Result<Parts, AllocError>
    requires nest { AllByRecursion (λ (t : Definition). Nests [] (edges_of t.script))
        (map (with_script (entries_view entries.now)) (entries_view entries.now).tasks) }
    requires room { IfSome entries.now.daemon (λ d. length entries.now.tasks.items < most_tasks) }
    ensures objects { IfOk result (λ parts.
        (parts.objects.items ≡ all_objects (entries_view entries.now))
        × AllByRecursion IsObjectKind parts.objects.items
        × (length parts.objects.items ≤ most_objects + (if is_some (daemon_of (entries_view entries.now)) then 1 else 0))) }
    ensures variables { IfOk result (λ parts.
        (parts.variables.items ≡ initial_values (entries_view entries.now)) × (length parts.variables.items ≤ most_variables)) }
    ensures handlers { IfOk result (λ parts.
        (parts.handlers.items ≡ map (with_isr_ops (entries_view entries.now)) (entries_view entries.now).handlers)
        × AllByRecursion IsLimited parts.handlers.items
        × (length parts.handlers.items ≤ most_handlers)) }
    ensures interrupts { IfOk result (λ parts. parts.interrupts ≡ listed.now) }
    ensures tasks { IfOk result (λ parts.
        (parts.tasks.items ≡ all_tasks (entries_view entries.now))
        × AllByRecursion IsDefinition parts.tasks.items × (length parts.tasks.items ≤ most_tasks)) }
{
    let objects = all_objects(alloc, entries)?;
    let variables = initial_values(alloc, entries.variables.as_slice())?;
    let handlers = handlers_of(alloc, entries)?;
    let interrupts = BaseInterrupts::new(alloc, listed)?;
    let tasks = all_tasks(alloc, entries)?;
    Ok(Parts {
        objects,
        variables,
        handlers,
        interrupts,
        tasks,
    })
}

// The application of these entries, or the fault of its ops, its interrupts or its points.
fn app_of(
    alloc: Global,
    document: &Table,
    start: u32,
    tickless: bool,
    limits: Limits,
    entries: &NamedEntries<'_>,
) -> Result<App, LoadError>
    requires some { 1 ≤ length entries.now.tasks.items }
    requires room { IfSome entries.now.daemon (λ d. length entries.now.tasks.items < most_tasks) }
    ensures { Loads result
        (first_fault (handler_ops_fault (entries_view entries.now) ∷ scripts_fault (entries_view entries.now)
        ∷ interrupts_fault (isr_names (entries_view entries.now)) (table_view document.now)
        ∷ campaign_fault (source_names (entries_view entries.now)) (table_view document.now) ∷ []))
        (record {
          start = start;
          tickless = tickless;
          limits = limits;
          objects = all_objects (entries_view entries.now);
          group_count = length (entries_view entries.now).groups;
          variables = initial_values (entries_view entries.now);
          handlers = map (with_isr_ops (entries_view entries.now)) (entries_view entries.now).handlers;
          interrupts = interrupts_named (isr_names (entries_view entries.now)) (table_view document.now);
          tasks = all_tasks (entries_view entries.now);
          daemon = daemon_of (entries_view entries.now);
          points = campaign_named (source_names (entries_view entries.now)) (table_view document.now);
        }) }
{
    check_handlers(entries)?;
    check_scripts(entries)?;
    let listed = interrupts(document, entries)?;
    let points = points(alloc, document, entries)?;
    // No check fails, so that only memory may be wanting.
    let parts = parts_of(alloc, entries, listed.as_slice())?;
    Ok(App::new(
        start,
        tickless,
        limits,
        parts.objects,
        entries.group_count(),
        parts.variables,
        parts.handlers,
        parts.interrupts,
        parts.tasks,
        entries.daemon_number(),
        points,
    ))
}

/// What a document describes.
pub trait FromDocument: Sized {
    // The fault of the first check of a document that fails.
    ghost fault_in: { Members → Option Fault };

    // What a document names in which no check fails.
    ghost named_by: { Members → Self };

    /// What the document names, or the fault of the first of its checks that fails, whatever memory
    /// is left; `Memory` only if no check fails.
    fn from_document(alloc: Global, document: &Table) -> Result<Self, LoadError>
        ensures { Loads result
            (fault_in (table_view document.now)) (named_by (table_view document.now)) };
}

impl FromDocument for App {
    ghost fault_in = { load_fault };

    ghost named_by = { app_named };

    fn from_document(alloc: Global, document: &Table) -> Result<App, LoadError> {
        let value = at_section(document, Section::Start);
        let start = optional_number(value, Place::section(Section::Start), 0, u32::MAX, 0)?;
        let value = at_section(document, Section::Tickless);
        let tickless = optional_boolean(value, Place::section(Section::Tickless), false)?;
        let limits = limits(document, tickless)?;
        let entries = named_entries(document)?;
        app_of(alloc, document, start, tickless, limits, &entries)
    }
}
