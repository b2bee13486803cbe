//! Each call that takes memory, and its result. If memory is refused, the call is made once more with the same values.
//!
//! `tests/allocation_failures` runs this with the first growth refused, then the second, and so on. The output must be the same
//! each time: a call returns `Memory` and leaves its arguments as they were, or its result is the same as with ample memory.
#![tactic(auto)]

ghost use Rattle.shelf.specs.Shelves.{IsShelf};

mod again;
mod dealing;
mod fault;
mod runs;

use crate::again::{
    app_again, base_again, blocks_again, counts_again, next_again, report_again, row_again,
    serve_again, shelf_again,
};
use crate::fault::Fault;
use crate::runs::{show_report, show_run};
use deal::{Counts, Next};
use model::{App, Run};
use report::Title;
use shelf::Shelf;
use std::process::ExitCode;
use std::sync::Wait;
use std::thread::Threads;

fn row(rt: &HostRuntime, app: &App, shelf: &Shelf, step: u32) -> Result<(), Fault>
    requires { IsShelf app.now shelf.now }
{
    let row = row_again(rt.alloc(), app, shelf, step)?;
    let title = Title::Row {
        number: step,
        point: row.point,
        reached: row.reached,
    };
    show_run(rt, app, title, &row.run)
}

// Rows from one shelf, of points that are reached and of points that aren't.
fn rows(rt: &HostRuntime, app: &App) -> Result<(), Fault> {
    let shelf = shelf_again(rt.alloc(), app)?;
    for step in [0, 7, 90] {
        row(rt, app, &shelf, step)?;
    }
    Ok(())
}

fn campaigns<T: Threads + Wait + Sync>(
    rt: &HostRuntime,
    threads: &T,
    app: &App,
    base: &Run,
) -> Result<(), Fault> {
    let report = report_again(threads, rt.alloc(), app, base)?;
    show_report(rt, threads, app, &report)?;
    serve_again(rt, threads)
}

fn show_deals(rt: &HostRuntime, blocks: usize, next: Next, counts: Counts) -> Result<(), Fault> {
    match println!(rt; "{blocks} blocks, {next:?}, {counts:?}") {
        Ok(()) => Ok(()),
        Err(_) => Err(Fault::Other),
    }
}

fn deals(rt: &HostRuntime) -> Result<(), Fault> {
    let blocks = blocks_again(rt.alloc())?;
    let next = next_again(rt.alloc())?;
    let counts = counts_again(rt.alloc())?;
    show_deals(rt, blocks, next, counts)
}

fn all<T: Threads + Wait + Sync>(rt: &HostRuntime, threads: &T) -> Result<(), Fault> {
    let app = app_again(rt.alloc())?;
    let base = base_again(rt.alloc(), &app)?;
    show_run(rt, &app, Title::Base, &base)?;
    rows(rt, &app)?;
    campaigns(rt, threads, &app, &base)?;
    deals(rt)
}

fn main(rt: HostRuntime) -> ExitCode {
    match all(&rt, &rt) {
        Ok(()) => ExitCode::from(0),
        Err(Fault::Memory) => ExitCode::from(4),
        Err(Fault::Other) => ExitCode::from(1),
    }
}
