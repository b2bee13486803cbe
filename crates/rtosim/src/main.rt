//! The program `rtosim`: runs an application file, and writes the trace of its run, the report of its campaign, or how the runs of all
//! placements end.
#![tactic(auto)]

ghost use Rattle.std.specs.Prelude.{◌<◌};

mod counter;

use crate::counter::Counter;
use byte_io::{Messages, Output, ToWriter};
use campaign::ServeFault;
use jobs::{Host, obey, refuse};
use std::cell::Cell;
use std::io;
use std::num::NonZeroUsize;
use std::process::ExitCode;
use std::thread::{Threads, available_parallelism};

// This many bytes of stack any job takes at most, and some more: those of exploring.
const ANY_JOB: usize = 880_640;

// And a campaign.
const CAMPAIGN: usize = 634_880;

// And a run that nothing else is asked of.
const RUN: usize = 323_584;

// The status if the reader of standard output left (profile): 128 and the number of SIGPIPE, as a shell reports a program that this
// signal ended.
const READER_LEFT: u8 = 141;

// Takes this many bytes of stack, and gives them back: they stay the program's. So if a limit on all memory leaves no room for
// them, the program ends before it has done anything, and otherwise the stack need not grow later. Returns 0 or 1, by what lies at
// `place`.
#[inline(never)]
fn take_stack<const SIZE: usize>(place: usize) -> u8
    requires some { 0 < SIZE }
{
    let mut stack = [0_u8; SIZE];
    stack[place % SIZE] = 1;
    stack[place / 2 % SIZE]
}

// Takes the stack that these words may ask for: no more, since each page that is taken makes the start longer.
#[inline(never)]
fn take_stack_for(words: &[String]) -> u8 {
    let mut has_options = false;
    for word in words {
        has_options |= word.starts_with("--");
    }
    let job = match words.get(1) {
        Some(word) => word.as_str(),
        None => "",
    };
    if job == "campaign" {
        take_stack::<CAMPAIGN>(words.len())
    } else if job == "run" && !has_options {
        take_stack::<RUN>(words.len())
    } else {
        take_stack::<ANY_JOB>(words.len())
    }
}

fn arguments(rt: &HostRuntime) -> io::Result<Vec<String>> {
    Ok(std::env::args(rt)?.collect(rt.alloc())?)
}

// Prints that the words can't be read, and returns the status.
#[cold]
fn refuse_words(rt: &HostRuntime, error: &io::Error) -> u8 {
    if error.kind() == io::ErrorKind::OutOfMemory {
        return refuse(&mut ToWriter::new(rt.stderr()), ServeFault::Memory);
    }
    // A word is not UTF-8.
    let _ = rt.eprintln("rtosim: a word is not UTF-8");
    2
}

// How many processors the program may use, if a word may ask for that: the system reads files for
// the answer.
fn processors(rt: &impl Threads, words: &[String]) -> Option<NonZeroUsize> {
    for word in words {
        if word.ends_with("auto") {
            return available_parallelism(rt).ok();
        }
    }
    None
}

fn main(rt: HostRuntime) -> ExitCode {
    let arguments = match arguments(&rt) {
        Ok(arguments) => arguments,
        Err(error) => return ExitCode::from(refuse_words(&rt, &error)),
    };
    if take_stack_for(arguments.as_slice()) > 1 {
        // This never comes, but the stack is not left out for it.
        return ExitCode::from(4);
    }
    let reader_left = Cell::new(false);
    let host = Host {
        rt: &rt,
        alloc: rt.alloc(),
        gate: &Counter::new(&rt),
    };
    let status = obey(
        &host,
        arguments.as_slice(),
        processors(&rt, arguments.as_slice()),
        &mut Output::new(rt.stdout(), &reader_left),
        &mut Messages::new(rt.stderr(), &reader_left),
    );
    if reader_left.get() {
        return ExitCode::from(READER_LEFT);
    }
    ExitCode::from(status)
}
