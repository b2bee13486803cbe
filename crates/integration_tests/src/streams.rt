//! Jobs over readers and writers that are narrow, or fail at once or in mid-stream.

use crate::sinks::{Breaking, Holder, check_text};
use crate::unwatched::Unwatched;
use campaign::Options;
use jobs::{Job, MostInjections, act};
use report::{Shard, View};
use std::alloc::Global;
use std::process::Abort;
use std::sync::Wait;
use std::thread::Threads;

// A valid file. It ends in a comment, so it may be given several times in a row.
const ONE_MARK: &str = "task = [{ name = 'a', priority = 1, script = ['mark 5'] }] # ";

const ONE_MARK_REPORT: &str = "base: pass in 1 steps, 0 ticks\n0 0 mark a 5\n0 0 run -\n";

// A file whose report has several pages, and the bytes of that report.
const MANY_MARKS: &str =
    "task = [{ name = 'a', priority = 1, script = ['repeat 1000', 'mark 1', 'mark 2', 'mark 3', 'mark 4', 'mark 5', 'mark 6', 'end'] }]";

const MANY_MARKS_SIZE: usize = 95_097;

/// The job that writes the whole report of the campaign of this file.
fn campaign_of(file: &str) -> Job<'_> {
    Job::Campaign {
        file,
        view: View::plain(),
        shard: Shard::whole(),
        options: Options::default(),
        quiet: true,
    }
}

/// The job that writes the base run of this file.
fn base_run_of(file: &str) -> Job<'_> {
    Job::Run {
        file,
        point: None,
        state: false,
    }
}

// A campaign of two rows, and its report.
const TWO_ROWS: &str = "
handler = [{ name = 'h', ops = ['mark 5'] }]
task = [{ name = 'a', priority = 1, script = ['mark 1', 'expect 0'] }]
campaign = { points = ['all h'] }
";

const TWO_ROWS_REPORT: &str = "row 0 at 0 h: check a 1 in 2 steps, 0 ticks
0 0 mark h 5
0 0 mark a 1
row 1 at 1 h: check a 1 in 2 steps, 0 ticks
0 0 mark a 1
1 0 mark h 5
total 2: pass 0, check 2, misuse 0, ticks 0, steps 0, stuck 0, not reached 0
";

/// Runs a job over sinks that take one byte per call. Compares its status, what it writes and what it reports.
fn check_byte_by_byte<R: Abort + Threads + Wait + Sync>(
    rt: &R,
    alloc: Global,
    job: &Job<'_>,
    file: &str,
    status: u8,
    texts: (&str, &str),
) {
    let mut reader = file.as_bytes();
    let mut written = Holder::wide(alloc, 1);
    let mut told = Holder::wide(alloc, 1);
    let found = act(
        rt,
        alloc,
        job,
        &mut reader,
        &mut written,
        &mut told,
        &Unwatched,
    );
    assert!(rt; found == status);
    check_text(rt, alloc, "written", written.bytes(), texts.0);
    check_text(rt, alloc, "told", told.bytes(), texts.1);
}

// How the runs of `TWO_ROWS` with up to two interrupts end.
const TWO_ROWS_EXPLORED: &str = "check a 1: 6 placements, least is none in 2 steps, 0 ticks
total 6
";

/// The job that explores a file with up to two injections of these handlers.
fn exploration_of<R: Abort>(rt: &R, handlers: &'static str) -> Job<'static> {
    let Some(injections) = MostInjections::new(2) else {
        panic!(rt; "no number");
    };
    Job::Explore {
        file: "app.toml",
        injections,
        handlers: Some(handlers),
    }
}

#[test]
fn sinks_that_take_a_byte_a_call(rt: HostRuntime) {
    let alloc = rt.alloc();
    let job = Job::Run {
        file: "app.toml",
        point: None,
        state: false,
    };
    check_byte_by_byte(&rt, alloc, &job, ONE_MARK, 0, (ONE_MARK_REPORT, ""));
    let line = "rtosim: 1 Missing: task\n";
    check_byte_by_byte(&rt, alloc, &job, "", 3, ("", line));
    let job = campaign_of("app.toml");
    check_byte_by_byte(&rt, alloc, &job, TWO_ROWS, 1, (TWO_ROWS_REPORT, ""));
    let job = exploration_of(&rt, "h");
    check_byte_by_byte(&rt, alloc, &job, TWO_ROWS, 1, (TWO_ROWS_EXPLORED, ""));
    let job = exploration_of(&rt, "h,g\u{7}");
    let line = "rtosim: unknown handler g\\u{07}\n";
    check_byte_by_byte(&rt, alloc, &job, TWO_ROWS, 2, ("", line));
}

/// Runs a valid file over a writer that has room for this many bytes of its report. Returns what was written.
fn check_full_writer<R: Abort + Threads + Wait + Sync>(
    rt: &R,
    alloc: Global,
    file: &str,
    room: usize,
    is_polite: bool,
) -> Holder {
    let job = base_run_of("app.toml");
    let mut reader = file.as_bytes();
    let mut written = Holder::new(alloc, 4096, room, is_polite);
    let mut told = Holder::wide(alloc, 4096);
    let status = act(
        rt,
        alloc,
        &job,
        &mut reader,
        &mut written,
        &mut told,
        &Unwatched,
    );
    assert!(rt; status == 5, "with room for {room}");
    let line = "rtosim: cannot write\n";
    check_text(rt, alloc, "a full writer", told.bytes(), line);
    written
}

#[test]
fn a_full_writer_has_the_beginning(rt: HostRuntime) {
    let report = ONE_MARK_REPORT.as_bytes();
    for room in 0..report.len() {
        for is_polite in [false, true] {
            let written = check_full_writer(&rt, rt.alloc(), ONE_MARK, room, is_polite);
            assert!(rt; written.bytes() == &report[..room]);
        }
    }
}

#[test]
fn a_writer_is_full_after_some_pages(rt: HostRuntime) {
    for room in [32_767, 32_768, 32_769, 80_000, MANY_MARKS_SIZE - 1] {
        let written = check_full_writer(&rt, rt.alloc(), MANY_MARKS, room, false);
        assert!(rt; written.bytes().len() == room);
    }
}

/// Runs a file whose reader fails after this many reads, over a sink of faults with this much room.
fn check_broken_reader<R: Abort + Threads + Wait + Sync>(
    rt: &R,
    alloc: Global,
    calls: u32,
    room: usize,
) {
    let job = base_run_of("a folder");
    let mut reader = Breaking::new(ONE_MARK.as_bytes(), calls);
    let mut written = Holder::wide(alloc, 4096);
    let mut told = Holder::new(alloc, 4096, room, false);
    let status = act(
        rt,
        alloc,
        &job,
        &mut reader,
        &mut written,
        &mut told,
        &Unwatched,
    );
    let line = b"rtosim: cannot read a folder\n".as_slice();
    assert!(rt; status == 3);
    assert!(rt; written.bytes() == b"".as_slice());
    assert!(rt; told.bytes() == &line[..line.len().min(room)]);
}

#[test]
fn a_reader_that_fails_writes_nothing(rt: HostRuntime) {
    for calls in 0..3 {
        check_broken_reader(&rt, rt.alloc(), calls, 100);
        check_broken_reader(&rt, rt.alloc(), calls, 10);
    }
}
