//! Each call on its own. It is made once more if memory was refused.
ghost use Rattle.std.specs.Prelude.{IfOk};
ghost use Rattle.shelf.specs.Shelves.{IsShelf};

use crate::dealing::{counted, dealt, divided};
use crate::fault::Fault;
use crate::runs::{base_run, loaded, report_of, row_of, served, shelf_of};
use campaign::Report;
use deal::{Counts, Next};
use model::{App, Run};
use shelf::{Row, Shelf};
use std::alloc::Global;
use std::sync::Wait;
use std::thread::Threads;

// The result of a call. If memory is refused the first time, it is the result of the second try.
macro_rules! again {
    ($call:expr) => {
        match $call {
            Err(Fault::Memory) => $call,
            given => given,
        }
    };
}

pub(crate) fn app_again(alloc: Global) -> Result<App, Fault> {
    again!(loaded(alloc))
}

pub(crate) fn base_again(alloc: Global, app: &App) -> Result<Run, Fault> {
    again!(base_run(alloc, app))
}

pub(crate) fn shelf_again(alloc: Global, app: &App) -> Result<Shelf, Fault>
    ensures { IfOk result (λ shelf. IsShelf app.now shelf) }
{
    again!(shelf_of(alloc, app))
}

pub(crate) fn row_again(alloc: Global, app: &App, shelf: &Shelf, step: u32) -> Result<Row, Fault>
    requires { IsShelf app.now shelf.now }
{
    again!(row_of(alloc, app, shelf, step))
}

pub(crate) fn report_again<T: Threads + Wait + Sync>(
    threads: &T,
    alloc: Global,
    app: &App,
    base: &Run,
) -> Result<Report, Fault> {
    again!(report_of(threads, alloc, app, base))
}

pub(crate) fn serve_again<T: Threads + Wait + Sync>(
    rt: &HostRuntime,
    threads: &T,
) -> Result<(), Fault> {
    again!(served(rt, threads))
}

/// The number of blocks of the division.
pub(crate) fn blocks_again(alloc: Global) -> Result<usize, Fault> {
    let division = again!(divided(alloc))?;
    Ok(division.count())
}

pub(crate) fn next_again(alloc: Global) -> Result<Next, Fault> {
    again!(dealt(alloc))
}

pub(crate) fn counts_again(alloc: Global) -> Result<Counts, Fault> {
    again!(counted(alloc))
}
