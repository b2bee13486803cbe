//! The tally of a campaign, read while the rows are made.
ghost use Rattle.std.specs.Prelude.{◌≡◌};

use crate::working::{divided, points_at};
use campaign::{Gate, campaign};
use deal::{Counts, Tally, TallySeat};
use model::Totals;
use random_apps::Dice;
use std::process::Abort;
use std::sync::{Mutex, Wait};

/// A tally with a seat that adds nothing, and whether a count was ever seen to fall.
#[derive(Drop)]
struct Reader<'a> {
    tally: &'a Tally,
    seat: TallySeat,
    last: Counts,
    looks: u64,
    has_fallen: bool,

    ghost of_tally: { seat.sheet ≡ tally.now },
}

impl Reader<'_> {
    fn look(&mut self) {
        let seen = self.tally.read(&mut self.seat);
        for (before, now) in self.last.kinds.iter().zip(&seen.kinds) {
            self.has_fallen |= now < before;
        }
        self.last = seen;
        self.looks = self.looks.saturating_add(1);
    }
}

/// The reader, which every worker uses when it enters a block.
#[derive(Drop)]
struct Shared<'a> {
    reader: Mutex<Reader<'a>>,
}

/// Reads the tally before each block.
#[derive(Drop)]
struct Watching<'a, R> {
    rt: &'a R,
    shared: Shared<'a>,
}

impl<R: Wait + Sync> Gate for Watching<'_, R> {
    fn entered(&self, _worker: usize, _block: usize, _seen: &Counts) {
        self.shared.reader.lock(self.rt).look();
    }
}

/// The totals, kind by kind.
fn kinds_of(totals: Totals) -> [u64; 7] {
    [
        totals.pass as u64,
        totals.check as u64,
        totals.misuse as u64,
        totals.ticks as u64,
        totals.steps as u64,
        totals.stuck as u64,
        totals.not_reached as u64,
    ]
}

#[test]
fn counts_that_a_third_seat_reads_never_fall(rt: HostRuntime) {
    let alloc = rt.alloc();
    let app = Dice::crowding(1).app(alloc).expect(&rt, "memory");
    let points = points_at(&rt, alloc, &[0, 2, 2, 3, 5, 6, 7]);
    let division = divided(&rt, alloc, &points, &[1, 1, 1, 1, 1, 1, 1]);
    let Ok((tally, mut seats)) = Tally::make(alloc, 3) else {
        panic!(rt; "memory");
    };
    let Some(seat) = seats.pop() else {
        panic!(rt; "a third seat");
    };
    let reader = Mutex::new(Reader {
        tally: &tally,
        seat,
        last: Counts { kinds: [0; 7] },
        looks: 0,
        has_fallen: false,
    });
    let shared = Shared { reader };
    let gate = Watching { rt: &rt, shared };
    let limits = app.limits();
    let finished = campaign(
        &rt, alloc, &app, points, limits, 64, 2, division, &gate, &tally, seats,
    );
    let totals = finished.ok().expect(&rt, "memory").report.totals();
    let mut reader = gate.shared.reader.into_inner();
    reader.look();
    assert!(rt; !reader.has_fallen && reader.looks == 8);
    assert!(rt; reader.last.kinds == kinds_of(totals));
}
