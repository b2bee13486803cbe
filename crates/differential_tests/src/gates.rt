//! What the gate of a campaign learns, and when.
ghost use Rattle.std.specs.Prelude.{◌<◌, ◌≤◌};

use crate::working::{Manner, campaign_in, divided, points_at};
use campaign::Gate;
use deal::Counts;
use random_apps::Dice;
use std::alloc::Global;
use std::process::Abort;
use std::sync::Wait;
use std::sync::atomic::{AtomicU64, Ordering};
use std::thread::Threads;

// How many times a gate checks at most whether another block was entered.
const TURNS: u64 = 100_000_000;

// The number of kinds that are ends.
const ENDS: usize = 6;

/// Keeps block 0 waiting until another block is entered. Stores how many rows were counted when the last block was entered.
#[derive(Drop)]
struct Meeting {
    other: usize,
    entered: AtomicU64,
    met: AtomicU64,
    last_seen: AtomicU64,
}

impl Meeting {
    fn new(other: usize) -> Meeting {
        Meeting {
            other,
            entered: AtomicU64::new(0),
            met: AtomicU64::new(0),
            last_seen: AtomicU64::new(0),
        }
    }

    fn has_met(&self) -> bool {
        self.met.load(Ordering::SeqCst) == 1
    }

    fn wait(&self) {
        for _ in 0..TURNS {
            if self.entered.load(Ordering::SeqCst) == 1 {
                self.met.store(1, Ordering::SeqCst);
                break;
            }
            std::hint::spin_loop();
        }
    }
}

// The number of rows that are counted.
fn rows_in(seen: &Counts) -> u64 {
    let mut rows = 0u64;
    for count in &seen.kinds[..ENDS] {
        rows = rows.saturating_add(*count);
    }
    rows
}

impl Gate for Meeting {
    fn entered(&self, _worker: usize, block: usize, seen: &Counts) {
        self.last_seen.store(rows_in(seen), Ordering::SeqCst);
        if block == self.other {
            self.entered.store(1, Ordering::SeqCst);
        }
        if block == 0 {
            self.wait();
        }
    }
}

/// Keeps each worker in its first block until every worker is in one.
#[derive(Drop)]
struct Assembling {
    workers: u64,
    // A bit for each worker that has entered a block.
    present: AtomicU64,
    // The number of workers that have seen all workers present.
    met: AtomicU64,
}

impl Assembling {
    fn new(workers: u64) -> Assembling {
        Assembling {
            workers,
            present: AtomicU64::new(0),
            met: AtomicU64::new(0),
        }
    }

    fn have_all_met(&self) -> bool {
        self.met.load(Ordering::SeqCst) == self.workers
    }

    fn wait(&self) {
        for _ in 0..TURNS {
            let present = self.present.load(Ordering::SeqCst).count_ones();
            if u64::from(present) == self.workers {
                self.met.fetch_add(1, Ordering::SeqCst);
                break;
            }
            std::hint::spin_loop();
        }
    }
}

impl Gate for Assembling {
    fn entered(&self, worker: usize, _block: usize, _seen: &Counts) {
        let bit = 1u64 << (worker % 64);
        if self.present.fetch_or(bit, Ordering::SeqCst) & bit == 0 {
            self.wait();
        }
    }
}

// The steps of the points.
const STEPS: [u32; 7] = [0, 2, 2, 3, 5, 6, 7];

// Runs the campaign of an application over seven points, in blocks of these lengths. Checks how many rows it has and how many seats
// come back.
fn run<R: Abort + Threads + Wait + Sync, G: Gate + Sync>(
    rt: &R,
    alloc: Global,
    lengths: &[usize],
    manner: Manner,
    gate: &G,
) {
    let app = Dice::crowding(1).app(alloc).expect(rt, "memory");
    let points = points_at(rt, alloc, &STEPS);
    let division = divided(rt, alloc, &points, lengths);
    let finished = campaign_in(rt, alloc, &app, points, manner, division, gate);
    assert!(rt; finished.report.totals().rows == 7);
    assert!(rt; finished.seats.len() == manner.workers);
}

const TWO_WORKERS: Manner = Manner {
    workers: 2,
    stride: 64,
};

const ONE_WORKER: Manner = Manner {
    workers: 1,
    stride: 64,
};

#[test]
fn two_workers_are_in_two_blocks_at_once(rt: HostRuntime) {
    let gate = Meeting::new(1);
    run(&rt, rt.alloc(), &[3, 4], TWO_WORKERS, &gate);
    assert!(rt; gate.has_met());
}

// Each of this many workers is in a block while all the others are.
fn workers_assemble<R: Abort + Threads + Wait + Sync>(rt: &R, alloc: Global, workers: usize)
    requires some { 0 < workers }
    requires few { workers ≤ 64 }
{
    let gate = Assembling::new(workers as u64);
    let manner = Manner {
        workers,
        stride: 64,
    };
    run(rt, alloc, &[1, 1, 1, 1, 1, 1, 1], manner, &gate);
    assert!(rt; gate.have_all_met(), "{workers} workers");
}

#[test]
fn all_workers_are_in_their_first_blocks_at_once(rt: HostRuntime) {
    workers_assemble(&rt, rt.alloc(), 2);
    workers_assemble(&rt, rt.alloc(), 3);
    workers_assemble(&rt, rt.alloc(), 4);
}

#[test]
fn a_block_of_a_lane_that_is_kept_goes_to_another(rt: HostRuntime) {
    let gate = Meeting::new(2);
    run(&rt, rt.alloc(), &[1, 1, 1, 1, 1, 1, 1], TWO_WORKERS, &gate);
    assert!(rt; gate.has_met());
}

#[test]
fn rows_are_counted_when_they_are_made(rt: HostRuntime) {
    let gate = Meeting::new(0);
    run(&rt, rt.alloc(), &[3, 4], ONE_WORKER, &gate);
    assert!(rt; gate.last_seen.load(Ordering::SeqCst) == 3);
}
