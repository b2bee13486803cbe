//! Rows that begin from the nearest checkpoint before their point, or from a walk along the base run.
ghost use Rattle.std.specs.Prelude.{◌<◌, ◌≤◌};

use crate::loading::loaded;
use model::{App, HandlerId, Injection, Meter, Point};
use shelf::{Row, Shelf, Simulation, Walk};
use std::alloc::Global;
use std::process::Abort;

/// A receive that waits a tick, and a handler that sends and takes the item again.
const RECEIVE: &str = "
queue = [{ name = 'q', length = 1 }]
handler = [{ name = 'h', ops = ['send q 7', 'receive q'] }]
task = [{ name = 'a', priority = 1, script = ['receive q 1'] }]
";

/// What the row of a point costs, with a checkpoint before every step that is a multiple of `stride`.
#[derive(Clone, Copy)]
struct Cost {
    stride: u32,
    step: u32,
    is_reached: bool,
    /// The number of steps of the row.
    steps: u32,
    /// The number of these steps that are run.
    run: u64,
}

const COSTS: [Cost; 8] = [
    Cost {
        stride: 1,
        step: 5,
        is_reached: true,
        steps: 12,
        run: 7,
    },
    Cost {
        stride: 4,
        step: 0,
        is_reached: true,
        steps: 7,
        run: 7,
    },
    Cost {
        stride: 4,
        step: 2,
        is_reached: true,
        steps: 12,
        run: 12,
    },
    Cost {
        stride: 4,
        step: 5,
        is_reached: true,
        steps: 12,
        run: 8,
    },
    Cost {
        stride: 4,
        step: 6,
        is_reached: true,
        steps: 7,
        run: 3,
    },
    Cost {
        stride: 4,
        step: 7,
        is_reached: false,
        steps: 7,
        run: 0,
    },
    Cost {
        stride: 1000,
        step: 5,
        is_reached: true,
        steps: 12,
        run: 12,
    },
    Cost {
        stride: 65_536,
        step: 7,
        is_reached: false,
        steps: 7,
        run: 0,
    },
];

/// The row of a point, and how many steps were run for it.
fn row_of(rt: &impl Abort, alloc: Global, app: &App, stride: u32, point: Point) -> (Row, u64)
    requires some { 0 < stride }
    requires few { stride ≤ 65536 }
{
    let shelf = Shelf::make(alloc, app, app.limits(), stride).expect(rt, "memory");
    let mut meter = Meter::new();
    let row = shelf
        .run_point(alloc, app, point, &mut meter)
        .expect(rt, "memory");
    (row, meter.steps())
}

/// The row of the first handler before this step, and how many steps were run for it.
fn row_from(rt: &impl Abort, alloc: Global, app: &App, stride: u32, step: u32) -> (Row, u64)
    requires some { 0 < stride }
    requires few { stride ≤ 65536 }
{
    let point = Point::one(step, HandlerId { number: 0 });
    row_of(rt, alloc, app, stride, point)
}

/// The same for the first handler before both of these steps.
fn row_of_two(rt: &impl Abort, alloc: Global, app: &App, stride: u32, steps: [u32; 2]) -> (Row, u64)
    requires some { 0 < stride }
    requires few { stride ≤ 65536 }
{
    let handler = HandlerId { number: 0 };
    let injections = [
        Injection {
            step: steps[0],
            handler,
        },
        Injection {
            step: steps[1],
            handler,
        },
    ];
    let point = Point::new(&injections).ok().expect(rt, "a point");
    row_of(rt, alloc, app, stride, point)
}

/// The number of events that the base run had reported by the checkpoint before step 6, if the row of the first handler before this
/// step reaches it.
fn known_at_six(rt: &impl Abort, alloc: Global, app: &App, step: u32) -> Option<usize>
    requires { step < 6 }
{
    let shelf = Shelf::make(alloc, app, app.limits(), 6).expect(rt, "memory");
    let point = Point::one(step, HandlerId { number: 0 });
    if !shelf.gets_to(&point) {
        return None;
    }
    let mut walk = Walk::new(app);
    let mut simulation = Simulation::new(alloc, app);
    let comes = shelf
        .walk_to(app, &point, &mut walk, &mut simulation)
        .expect(rt, "memory");
    assert!(rt; comes);
    shelf
        .begin_row_after(app, &point, 6, &walk, &mut simulation)
        .expect(rt, "memory");
    let kernel = &simulation.kernel;
    shelf.known(kernel, kernel.hint(app))
}

#[test]
fn a_row_costs_the_steps_from_the_checkpoint_before_its_point(rt: HostRuntime) {
    let app = loaded(&rt, rt.alloc(), RECEIVE);
    for cost in COSTS.iter() {
        let stride = cost.stride.clamp(1, 65_536);
        let (row, run) = row_from(&rt, rt.alloc(), &app, stride, cost.step);
        assert!(rt; run == cost.run, "stride {stride}");
        assert!(rt; row.reached == cost.is_reached, "stride {stride}");
        assert!(rt; row.run.steps == cost.steps, "stride {stride}");
    }
}

#[test]
fn a_row_is_the_same_from_each_stride(rt: HostRuntime) {
    let app = loaded(&rt, rt.alloc(), RECEIVE);
    for step in 0..8_u32 {
        let (wanted, _) = row_from(&rt, rt.alloc(), &app, 1000, step);
        for stride in 1..9_u32 {
            let (row, _) = row_from(&rt, rt.alloc(), &app, stride, step);
            assert!(rt; row.run.events.as_slice() == wanted.run.events.as_slice());
            assert!(rt; row.run.end == wanted.run.end);
        }
    }
}

// The second injection comes past the end of the base run, which has seven steps, and before the end of the row. The cost of a row
// depends on the first injection.
#[test]
fn a_row_of_two_injections(rt: HostRuntime) {
    let app = loaded(&rt, rt.alloc(), RECEIVE);
    for stride in 1..9_u32 {
        let (row, run) = row_of_two(&rt, rt.alloc(), &app, stride, [3, 10]);
        let checkpoint = 3 / stride * stride;
        assert!(rt; row.reached && row.run.steps == 17, "stride {stride}");
        assert!(rt; run == u64::from(17 - checkpoint), "stride {stride}");
    }
}

#[test]
fn a_row_whose_first_injection_is_at_the_end_is_the_base_run(rt: HostRuntime) {
    let app = loaded(&rt, rt.alloc(), RECEIVE);
    let (row, run) = row_of_two(&rt, rt.alloc(), &app, 4, [7, 8]);
    assert!(rt; !row.reached && row.run.steps == 7 && run == 0);
}

// Before the task waits, the handler has no lasting effect, since it takes back what it has sent. After that, it wakes the task.
#[test]
fn a_row_is_known_where_it_joins_the_base_run(rt: HostRuntime) {
    let app = loaded(&rt, rt.alloc(), RECEIVE);
    for step in 0..6_u32 {
        let wanted = if step < 2 { Some(2) } else { None };
        assert!(rt;
            known_at_six(&rt, rt.alloc(), &app, step) == wanted,
            "step {step}"
        );
    }
}
