//! From the bytes of a file to the report of what is found among all placements.
ghost use Rattle.std.specs.Prelude.{◌≡◌, ◌<◌, ◌^◌, ℕ, List, [], ◌∷◌, ◌++◌, Some, None, IfOk, IfErr, OnOk, MatchResult};
ghost use Rattle.std.specs.Prelude.{false, length, map, option_map};
ghost use Rattle.std.specs.List.{flat_map, list_all};
ghost use Rattle.std.specs.Result.{is_err};
ghost use Rattle.byte_io.specs.Bytes.{Adds, Writes};
ghost use Rattle.model.specs.Campaign.{is_pass};
ghost use Rattle.model.specs.Placements as definitions;
ghost use Rattle.model.specs.Words.{source_named};
ghost use Rattle.report.specs.Found.{exploration_text, found_text};
ghost use Rattle.explorer.specs.Totals.{placements_in};
ghost use Rattle.campaign.specs.Serving.{IsFileOf, streams_of};
ghost use Rattle.jobs.specs.Explorations.{AreAsked, IsExploringFault, IsFoundIn, IsNamingFault, ServesExploration};

use crate::host::Host;
use byte_io::{Page, Sink, WriteFault, flush};
use campaign::{ServeFault, app_in};
use explorer::{Found, Watch, explore, placements_in};
use model::{App, End, Ending, HandlerId, Memory};
use report::{add_found, add_placements_total};
use requests::MostInjections;
use std::alloc::Global;

// All handlers of an application.
fn all_handlers(alloc: Global, app: &App) -> Result<Vec<HandlerId>, Memory>
    ensures { IfOk result (λ handlers. AreAsked None app.now handlers.items) }
{
    app.well_formed();
    let mut handlers = Vec::new(alloc);
    for number in 0..app.handlers().len() {
        handlers.push(HandlerId {
            number: number as u8,
        })?;
    }
    Ok(handlers)
}

// Adds the interrupt of the name that comes after those of the others.
fn add_handler(app: &App, name: &str, handlers: &mut Vec<HandlerId>) -> Result<(), ServeFault>
    ensures named { OnOk result (map Some handlers.new.items ≡ map Some handlers.old.items ++ source_named app.now name.now ∷ []) }
    ensures fault { IfErr result (IsNamingFault app.now name.now (length handlers.old.items)) }
{
    let Some(handler) = app.source_named(name) else {
        return Err(ServeFault::UnknownHandler(handlers.len()));
    };
    match handlers.push(handler) {
        Ok(()) => Ok(()),
        Err(_) => Err(ServeFault::Memory),
    }
}

// The interrupts of these names, which are joined by commas.
fn handlers_named(alloc: Global, app: &App, list: &str) -> Result<Vec<HandlerId>, ServeFault>
    ensures { MatchResult result (λ handlers. AreAsked (Some list.now) app.now handlers.items)
        (IsExploringFault (Some list.now) app.now) }
{
    let mut handlers = Vec::new(alloc);
    let mut rest = list;
    while let Some((name, others)) = rest.split_once(',') {
        add_handler(app, name, &mut handlers)?;
        rest = others;
    }
    add_handler(app, rest, &mut handlers)?;
    Ok(handlers)
}

// The handlers of these names, if a list of them is named, otherwise all of an application.
fn handlers_asked(
    alloc: Global,
    app: &App,
    list: Option<&str>,
) -> Result<Vec<HandlerId>, ServeFault>
    ensures { MatchResult result (λ handlers. AreAsked (option_map (λ list. list.now) list.entry) app.now handlers.items)
        (IsExploringFault (option_map (λ list. list.now) list.entry) app.now) }
{
    match list {
        Some(list) => handlers_named(alloc, app, list),
        None => Ok(all_handlers(alloc, app)?),
    }
}

// What is found of an application, under its own limits.
fn found_in<G: Watch>(
    alloc: Global,
    app: &App,
    most: MostInjections,
    list: Option<&str>,
    gate: &G,
) -> Result<Vec<Found>, ServeFault>
    ensures found { MatchResult result (λ found. IsFoundIn most (option_map (λ list. list.now) list.entry) app.now found.items)
        (IsExploringFault (option_map (λ list. list.now) list.entry) app.now) }
    ensures few { IfOk result (λ found. placements_in found.items < 2 ^ 128) }
{
    let handlers = handlers_asked(alloc, app, list)?;
    let found = explore(
        alloc,
        app,
        &app.limits(),
        handlers.as_slice(),
        most.count(),
        gate,
    )?;
    Ok(found)
}

// Adds the lines of what is found.
fn add_all<W: Sink>(
    writer: &mut W,
    page: &mut Page,
    app: &App,
    found: &[Found],
) -> Result<(), WriteFault>
    requires { W.has_failed writer.old ≡ false }
    ensures text { Adds (W.held writer.old) (W.held writer.new) page.old page.new result (flat_map (found_text app.now) found.now) }
    ensures failed { W.has_failed writer.new ≡ is_err result }
{
    for one in found {
        let ending = Ending {
            steps: one.steps,
            ticks: one.ticks,
            end: one.end,
        };
        add_found(writer, page, app, one.number, one.least.as_slice(), ending)?;
    }
    Ok(())
}

// Writes the report of what is found.
fn write_found<W: Sink>(writer: &mut W, app: &App, found: &[Found]) -> Result<(), WriteFault>
    requires working { W.has_failed writer.old ≡ false }
    requires few { placements_in found.now < 2 ^ 128 }
    ensures text { Writes (W.held writer.old) (W.held writer.new) result
        (exploration_text app.now (placements_in found.now) found.now) }
    ensures failed { W.has_failed writer.new ≡ is_err result }
{
    let mut page = Page::new();
    add_all(writer, &mut page, app, found)?;
    add_placements_total(writer, &mut page, placements_in(found))?;
    flush(writer, &mut page)
}

// Whether everything that is found is that runs pass.
fn all_pass(found: &[Found]) -> bool
    ensures { result ≡ list_all (λ (f : definitions.Found). is_pass f.least.end) found.now }
{
    found.iter().all(|one| matches!(one.end, End::Pass))
}

// Explores an application, and writes the report of what is found, as its last deed. Returns whether each placement passes.
fn serve_exploration_of_app<W: Sink, G: Watch>(
    alloc: Global,
    app: &App,
    writer: &mut W,
    most: MostInjections,
    list: Option<&str>,
    gate: &G,
) -> Result<bool, ServeFault>
    requires { W.has_failed writer.old ≡ false }
    ensures { (bytes : List ℕ) → IsFileOf bytes app.now
        → ServesExploration most (option_map (λ list. list.now) list.entry) (streams_of (Some bytes) false
        (W.held writer.old) (W.held writer.new) (W.has_failed writer.new)) result }
{
    let found = found_in(alloc, app, most, list, gate)?;
    write_found(writer, app, found.as_slice())?;
    Ok(all_pass(found.as_slice()))
}

/// Explores the application of the file of these bytes: finds how the runs with all placements of
/// at most this many injections of these handlers end, and writes the report. Returns whether each
/// placement passes.
///
/// It is out of line, since other jobs are to take no stack for its kernel.
#[inline(never)]
pub(crate) fn serve_exploration<T, W: Sink, G: Watch>(
    host: &Host<'_, T, G>,
    most: MostInjections,
    list: Option<&str>,
    bytes: &[u8],
    writer: &mut W,
) -> Result<bool, ServeFault>
    requires { W.has_failed writer.old ≡ false }
    ensures { ServesExploration most (option_map (λ list. list.now) list.entry) (streams_of (Some bytes.now) false
        (W.held writer.old) (W.held writer.new) (W.has_failed writer.new)) result }
{
    let app = app_in(host.alloc, bytes)?;
    serve_exploration_of_app(host.alloc, &app, writer, most, list, host.gate)
}
