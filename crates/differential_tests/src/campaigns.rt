//! Campaigns compared with single runs, on many random applications.
ghost use Rattle.std.specs.Prelude.{◌≡◌, ◌<◌, ◌≤◌, length, sum};
ghost use Rattle.model.specs.Scripts.{most_points};

use crate::file::{file_of, points_text};
use crate::random::loaded;
use crate::working::{Manner, campaign_in, divided, points_at};
use byte_io::ToWriter;
use campaign::{NoGate, write_report, write_report_in_threads};
use deal::Division;
use model::{App, End, HandlerId, Injection, Memory, Meter, Plan, Point, Run};
use random_apps::Dice;
use reference_kernel::ReferenceKernel;
use report::{Title, write_run};
use std::alloc::Global;
use std::process::Abort;
use std::sync::Wait;
use std::thread::Threads;

/// How many rows there are of each kind.
#[derive(Clone, Copy, Debug, Default)]
struct Seen {
    rows: u32,
    pass: u32,
    check: u32,
    misuse: u32,
    ticks: u32,
    steps: u32,
    stuck: u32,
    missed: u32,
}

impl Seen {
    fn count(&mut self, reached: bool, end: End) {
        let count = match end {
            End::Pass => &mut self.pass,
            End::Check(_, _) | End::HandlerCheck(_, _) => &mut self.check,
            End::Misuse(_, _, _) => &mut self.misuse,
            End::Ticks => &mut self.ticks,
            End::Steps => &mut self.steps,
            End::Stuck => &mut self.stuck,
        };
        *count = count.saturating_add(1);
        self.rows = self.rows.saturating_add(1);
        self.missed = self.missed.saturating_add(!reached as u32);
    }

    // Adds what another has seen. Only the counts that the test checks at the end are added.
    fn add(&mut self, other: &Seen) {
        self.rows = self.rows.saturating_add(other.rows);
        self.pass = self.pass.saturating_add(other.pass);
        self.stuck = self.stuck.saturating_add(other.stuck);
        self.missed = self.missed.saturating_add(other.missed);
    }

    /// The line of totals.
    fn line(&self, alloc: Global) -> Option<String> {
        format!(in alloc;
            "total {}: pass {}, check {}, misuse {}, ticks {}, steps {}, stuck {}, not reached {}\n",
            self.rows,
            self.pass,
            self.check,
            self.misuse,
            self.ticks,
            self.steps,
            self.stuck,
            self.missed
        )
        .ok()
    }
}

/// One of the three handlers, before this step.
fn injection_at(dice: &mut Dice, step: u32) -> Option<Injection> {
    let number = u8::try_from(dice.roll(3)).ok()?;
    let handler = HandlerId::new(number)?;
    Some(Injection { step, handler })
}

/// The number of injections of a point: half of the time one, otherwise several.
fn count_of(dice: &mut Dice) -> u32 {
    match dice.roll(4) {
        0 => 3,
        1 => 2,
        _ => 1,
    }
}

/// The number of steps between two injections of a point: none, a few, or more than rows run before they are compared.
fn distance_of(dice: &mut Dice) -> u32 {
    match dice.roll(4) {
        0 => 0,
        1 => dice.roll(100),
        _ => dice.roll(8),
    }
}

/// A point of the three handlers, occasionally past the end of a run of this many steps.
fn point_of(dice: &mut Dice, alloc: Global, steps: u32) -> Option<Point> {
    let mut injections = Vec::new(alloc);
    let mut step = dice.roll(steps.saturating_add(3).max(1));
    for _ in 0..count_of(dice) {
        injections.push(injection_at(dice, step)?).ok()?;
        step = step.saturating_add(distance_of(dice));
    }
    Point::new(injections.as_slice()).ok()
}

/// Twelve such points, in no particular order.
fn points_of(dice: &mut Dice, alloc: Global, steps: u32) -> Option<Vec<Point>> {
    let mut points = Vec::new(alloc);
    for _ in 0..12_u8 {
        points.push(point_of(dice, alloc, steps)?).ok()?;
    }
    Some(points)
}

/// Runs this plan on its own.
fn alone(rt: &impl Abort, alloc: Global, app: &App, plan: &Plan) -> Run {
    kernel::run(alloc, app, plan, app.limits(), &mut Meter::new()).expect(rt, "memory")
}

/// Whether a point is reached: the base run goes past the step of its first injection, and that injection can come there.
fn is_reached(alloc: Global, app: &App, point: &Point) -> bool {
    let limits = app.limits();
    let first = point.first();
    let mut reference = ReferenceKernel::boot(alloc, app);
    for _ in 0..first.step {
        if reference.end(app, &limits).is_some() {
            return false;
        }
        reference.step(app, &limits, &[]);
    }
    reference.end(app, &limits).is_none() && reference.can_come(first.handler)
}

/// The text of the row of a point, which is run on its own.
fn row_of(
    rt: &impl Abort,
    alloc: Global,
    app: &App,
    number: usize,
    point: &Point,
    seen: &mut Seen,
) -> Vec<u8> {
    let reached = is_reached(alloc, app, point);
    let plan = if reached {
        Plan::of(alloc, point).ok().expect(rt, "memory")
    } else {
        Plan::none(alloc)
    };
    let run = alone(rt, alloc, app, &plan);
    let title = Title::Row {
        number: u32::try_from(number).ok().expect(rt, "a number"),
        point: *point,
        reached,
    };
    let mut text = Vec::new(alloc);
    write_run(&mut ToWriter::new(&mut text), app, title, &run)
        .ok()
        .expect(rt, "memory");
    seen.count(reached, run.end);
    text
}

/// The number of steps between two checkpoints of the base run.
fn stride_of(dice: &mut Dice) -> u32
    ensures some { 0 < result }
    ensures few { result ≤ 65536 }
{
    match dice.roll(5) {
        0 => 1,
        1 => 2,
        2 => 7,
        3 => 64,
        _ => 65_536,
    }
}

/// The number of workers, from one to 64.
fn workers_of(dice: &mut Dice) -> usize
    ensures some { 0 < result }
    ensures few { result ≤ 64 }
{
    match dice.roll(8) {
        0 => 64,
        1 => 5,
        2 => 4,
        3 => 3,
        4 | 5 => 2,
        _ => 1,
    }
}

/// A random manner.
fn manner_of(dice: &mut Dice) -> Manner {
    let stride = stride_of(dice);
    let workers = workers_of(dice);
    Manner { workers, stride }
}

/// The report of the campaign over these points, made in this manner.
fn report_of<R: Abort + Threads + Wait + Sync>(
    rt: &R,
    alloc: Global,
    app: &App,
    points: &[Point],
    manner: Manner,
    division: Division,
) -> Vec<u8>
    requires few { length points.now ≤ most_points }
    requires division { sum division ≡ length points.now }
{
    let points = Vec::from_slice(alloc, points).ok().expect(rt, "memory");
    let finished = campaign_in(rt, alloc, app, points, manner, division, &NoGate);
    let mut text = Vec::new(alloc);
    let mut writer = ToWriter::new(&mut text);
    write_report_in_threads(rt, alloc, app, &finished.report, 1, &mut writer)
        .ok()
        .expect(rt, "memory");
    let mut plain = Vec::new(alloc);
    write_report(app, &finished.report, &mut ToWriter::new(&mut plain))
        .ok()
        .expect(rt, "memory");
    assert!(rt; plain.as_slice() == text.as_slice());
    text
}

/// The same, in blocks of this length.
fn report_in_blocks<R: Abort + Threads + Wait + Sync>(
    rt: &R,
    alloc: Global,
    app: &App,
    points: &[Point],
    manner: Manner,
    block: usize,
) -> Vec<u8>
    requires { 0 < block }
{
    assert!(rt; points.len() <= 1_000_000, "few points");
    match Division::even(alloc, points.len(), block) {
        Ok(division) => report_of(rt, alloc, app, points, manner, division),
        Err(_) => panic!(rt; "memory"),
    }
}

/// The number of steps of the base run.
fn base_steps(rt: &impl Abort, alloc: Global, app: &App) -> u32 {
    alone(rt, alloc, app, &Plan::none(alloc)).steps
}

/// The report over these points, with each row run on its own.
fn rows_alone(
    rt: &impl Abort,
    alloc: Global,
    app: &App,
    points: &[Point],
    all: &mut Seen,
) -> Vec<u8> {
    let mut seen = Seen::default();
    let mut text = Vec::new(alloc);
    for (number, point) in points.iter().enumerate() {
        let row = row_of(rt, alloc, app, number, point, &mut seen);
        text.extend_from_slice(row.as_slice())
            .ok()
            .expect(rt, "memory");
    }
    all.add(&seen);
    let line = seen.line(alloc).expect(rt, "memory");
    text.extend_from_slice(line.as_bytes())
        .ok()
        .expect(rt, "memory");
    text
}

/// Fails the test, and shows the application as a file.
fn fail(rt: &impl Abort, alloc: Global, seed: u32, app: &App, points: &[Point], manner: Manner) {
    let file = file_of(alloc, app).expect(rt, "memory");
    let told = points_text(alloc, app, points).expect(rt, "memory");
    panic!(rt; "seed {seed}, {manner:?}: another report, of points{told} on this file\n{file}");
}

/// For applications whose tasks crowd around objects or raise handlers, and half as often for those whose tasks act on the last
/// answer, open critical sections, calculate, or notify each other.
fn dice_of(seed: u32) -> Dice {
    match seed % 8 {
        0 => Dice::deciding(seed),
        2 => Dice::masking(seed),
        4 => Dice::calculating(seed),
        6 => Dice::signalling(seed),
        3 | 7 => Dice::raising(seed),
        _ => Dice::crowding(seed),
    }
}

/// Compares the campaign of an application with its rows, run one by one.
fn compare<R: Abort + Threads + Wait + Sync>(rt: &R, alloc: Global, seed: u32, seen: &mut Seen) {
    let mut dice = dice_of(seed);
    let app = dice.app(alloc).expect(rt, "memory");
    let steps = base_steps(rt, alloc, &app);
    let points = points_of(&mut dice, alloc, steps).expect(rt, "memory");
    let wanted = rows_alone(rt, alloc, &app, &points, seen);
    let manner = manner_of(&mut dice);
    let block = 1 + seed as usize % 5;
    let written = report_in_blocks(rt, alloc, &app, &points, manner, block);
    if written.as_slice() != wanted.as_slice() {
        fail(rt, alloc, seed, &app, &points, manner);
    }
}

#[test]
fn a_campaign_is_its_rows_one_by_one(rt: HostRuntime) {
    let mut seen = Seen::default();
    for seed in 0..2_000 {
        compare(&rt, rt.alloc(), seed, &mut seen);
    }
    assert!(rt; seen.rows == 24_000 && seen.missed > 1_000, "{seen:?}");
    assert!(rt; seen.stuck > 500 && seen.pass > 500, "{seen:?}");
}

// A task that waits for one tick at an empty queue, and a handler that sends to the queue and receives the item again.
const ONE_RECEIVE: &str = "
queue = [{ name = 'q', length = 1 }]
handler = [{ name = 'h', ops = ['send q 7', 'receive q'] }]
task = [{ name = 'a', priority = 1, script = ['receive q 1'] }]
";

const MANNERS: [Manner; 6] = [
    Manner {
        workers: 1,
        stride: 1,
    },
    Manner {
        workers: 1,
        stride: 1_000,
    },
    Manner {
        workers: 2,
        stride: 1,
    },
    Manner {
        workers: 2,
        stride: 1_000,
    },
    Manner {
        workers: 64,
        stride: 1,
    },
    Manner {
        workers: 64,
        stride: 1_000,
    },
];

const STEPS: [u32; 7] = [0, 2, 2, 3, 5, 6, 7];

const DIVISIONS: [&[usize]; 3] = [&[7], &[1, 1, 1, 1, 1, 1, 1], &[3, 4]];

/// Compares the report, made in this manner over blocks of these lengths, with the expected one.
fn compare_made<R: Abort + Threads + Wait + Sync>(
    rt: &R,
    alloc: Global,
    app: &App,
    lengths: &[usize],
    manner: Manner,
    wanted: &[u8],
) {
    let points = points_at(rt, alloc, &STEPS);
    let division = divided(rt, alloc, &points, lengths);
    let written = report_of(rt, alloc, app, &points, manner, division);
    assert!(rt; written.as_slice() == wanted, "{lengths:?} {manner:?}");
}

#[test]
fn a_report_is_the_same_however_it_is_made(rt: HostRuntime) {
    let alloc = rt.alloc();
    let app = loaded(&rt, alloc, ONE_RECEIVE);
    let points = points_at(&rt, alloc, &STEPS);
    let wanted = rows_alone(&rt, alloc, &app, &points, &mut Seen::default());
    for lengths in DIVISIONS {
        for manner in MANNERS {
            compare_made(&rt, alloc, &app, lengths, manner, &wanted);
        }
    }
}
