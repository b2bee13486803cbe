//! How far a campaign has come, or exploring, on a terminal.
use campaign::Gate;
use deal::Counts;
use explorer::Watch;
use std::io::IsTerminal;
use std::sync::atomic::{AtomicU64, Ordering};
use std::time::Instant;

// How many milliseconds a job takes before it is shown.
const FIRST: u64 = 1_000;

// How many milliseconds each showing stays at least.
const NEXT: u64 = 100;

// How many of the kinds are ends.
const ENDS: usize = 6;

/// A line on standard error, if that is a terminal: how many rows of a campaign are made, of how many; or how many steps the explored runs
/// have done, and how many states are kept. Nothing of it stays when the job ends. The first worker of a campaign shows it, before a block.
#[derive(Drop)]
pub(crate) struct Counter<'a> {
    rt: &'a HostRuntime,
    /// When it was made; `None` if standard error is no terminal, or there is no clock.
    start: Option<Instant>,
    /// How many rows there will be.
    all: AtomicU64,
    /// How many milliseconds after the start it was shown last; 0 if it isn't shown.
    shown: AtomicU64,
}

impl<'a> Counter<'a> {
    pub(crate) fn new(rt: &'a HostRuntime) -> Counter<'a> {
        let start = if rt.stderr().is_terminal() {
            Instant::now(rt).ok()
        } else {
            None
        };
        Counter {
            rt,
            start,
            all: AtomicU64::new(0),
            shown: AtomicU64::new(0),
        }
    }

    // The milliseconds since the start; `None` if nothing must be shown.
    fn elapsed(&self) -> Option<u64> {
        let start = self.start?;
        let now = Instant::now(self.rt).ok()?;
        let elapsed = now.saturating_duration_since(start);
        Some(
            elapsed
                .as_secs()
                .saturating_mul(1_000)
                .saturating_add(elapsed.subsec_millis() as u64),
        )
    }

    // The milliseconds since the start, if it is time to show something.
    fn due(&self) -> Option<u64> {
        let now = self.elapsed()?;
        let shown = self.shown.load(Ordering::SeqCst);
        let due = if shown == 0 {
            FIRST
        } else {
            shown.saturating_add(NEXT)
        };
        if now < due {
            return None;
        }
        Some(now)
    }

    // Nothing of the line stays.
    fn clear(&self) {
        if self.shown.load(Ordering::SeqCst) > 0 {
            let _ = eprint!(self.rt; "\r\x1b[K");
            self.shown.store(0, Ordering::SeqCst);
        }
    }
}

// How many rows are made: those of each end.
fn rows_in(seen: &Counts) -> u64 {
    let mut rows = 0_u64;
    for count in &seen.kinds[..ENDS] {
        rows = rows.saturating_add(*count);
    }
    rows
}

impl Gate for Counter<'_> {
    fn begun(&self, points: usize) {
        self.all.store(points as u64, Ordering::SeqCst);
    }

    fn entered(&self, worker: usize, _block: usize, seen: &Counts) {
        if worker > 0 {
            return;
        }
        let Some(now) = self.due() else {
            return;
        };
        let rows = rows_in(seen);
        let all = self.all.load(Ordering::SeqCst);
        let _ = eprint!(self.rt; "\rrtosim: {rows} of {all} rows");
        self.shown.store(now, Ordering::SeqCst);
    }

    fn ended(&self) {
        self.clear();
    }
}

impl Watch for Counter<'_> {
    fn passed(&self, steps: u32, states: usize) {
        let Some(now) = self.due() else {
            return;
        };
        let _ = eprint!(self.rt; "\r\x1b[Krtosim: {steps} steps done, states kept: {states}");
        self.shown.store(now, Ordering::SeqCst);
    }

    fn finished(&self) {
        self.clear();
    }
}
