//! Variables, and values that are passed on.

use crate::loading::loaded;
use crate::sinks::{Holder, check_text};
use crate::unwatched::Unwatched;
use jobs::{Job, act};
use model::{End, Memory, Meter, Plan, Run};
use std::alloc::Global;
use std::process::Abort;

// A handler sends numbers that it calculates. A task passes on what it receives, and another adds it up.
const PASSED_ON: &str = "
variable = [{ name = 'next', initial = 4294967295 }, { name = 'sum' }, { name = 'most', initial = 5 }]
queue = [{ name = 'in', length = 2 }, { name = 'out', length = 1 }]
handler = [{ name = 'rx', ops = [
    'load next', 'send in answer', 'expect 1', 'load next', 'add 2', 'store next answer',
    'if below most', 'mark answer', 'end',
] }]
interrupt = [{ tick = 1, handler = 'rx' }, { tick = 2, handler = 'rx' }]
task = [
    { name = 'relay', priority = 2, script = ['repeat 2', 'receive in forever', 'send out answer 0', 'end'] },
    { name = 'adder', priority = 1, script = [
        'repeat forever', 'receive out 9', 'if none', 'break', 'end',
        'add sum', 'store sum answer', 'mark answer', 'end',
        'load sum', 'div most', 'expect below most', 'sub 1', 'store most answer',
    ] },
]
";

const PASSED_ON_REPORT: &str = "base: pass in 64 steps, 11 ticks
5 0 run adder
11 0 run -
12 1 isr rx 0 load = 4294967295
12 1 isr rx 1 send = 1
12 1 isr rx 3 load = 4294967295
12 1 isr rx 4 add = 1
12 1 isr rx 5 store = 1
12 1 mark rx 1
12 1 run relay
13 1 call relay 1 receive = 4294967295
14 1 call relay 2 send = 1
20 1 run adder
21 1 call adder 1 receive = 4294967295
23 1 call adder 5 add = 4294967295
24 1 call adder 6 store = 4294967295
25 1 mark adder 4294967295
31 1 run -
32 2 isr rx 0 load = 1
32 2 isr rx 1 send = 1
32 2 isr rx 3 load = 1
32 2 isr rx 4 add = 3
32 2 isr rx 5 store = 3
32 2 mark rx 3
32 2 run relay
33 2 call relay 1 receive = 1
34 2 call relay 2 send = 1
35 2 run adder
36 2 call adder 1 receive = 1
38 2 call adder 5 add = 0
39 2 call adder 6 store = 0
40 2 mark adder 0
46 2 run -
55 11 run adder
56 11 call adder 1 receive = none
59 11 call adder 9 load = 0
60 11 call adder 10 div = 0
62 11 call adder 12 sub = 4294967295
63 11 call adder 13 store = 4294967295
63 11 run -
state relay ended
state adder ended
variable 0 = 3
variable 1 = 0
variable 2 = 4294967295
";

#[test]
fn a_value_that_was_received_is_passed_on(rt: HostRuntime) {
    let alloc = rt.alloc();
    let job = Job::Run {
        file: "app.toml",
        point: None,
        state: true,
    };
    let mut reader = PASSED_ON.as_bytes();
    let mut written = Holder::wide(alloc, 4096);
    let mut told = Holder::wide(alloc, 4096);
    let status = act(
        &rt,
        alloc,
        &job,
        &mut reader,
        &mut written,
        &mut told,
        &Unwatched,
    );
    assert!(rt; status == 0);
    check_text(&rt, alloc, "written", written.bytes(), PASSED_ON_REPORT);
    check_text(&rt, alloc, "told", told.bytes(), "");
}

// The first op has no last answer to store. The variable keeps its value.
const WITHOUT_VALUE: &str = "
variable = [{ name = 'x', initial = 7 }]
task = [{ name = 'a', priority = 1, script = ['store x answer', 'mark 1'] }]
";

/// The base run of a file.
fn base_run(rt: &impl Abort, alloc: Global, file: &str) -> Result<Run, Memory> {
    let app = loaded(rt, alloc, file);
    kernel::run(
        alloc,
        &app,
        &Plan::none(alloc),
        app.limits(),
        &mut Meter::new(),
    )
}

#[test]
fn an_op_without_a_value_is_a_failed_check(rt: HostRuntime) {
    let run = base_run(&rt, rt.alloc(), WITHOUT_VALUE).expect(&rt, "memory");
    let is_check = matches!(run.end, End::Check(_, 0));
    assert!(rt; is_check && run.steps == 1 && run.events.is_empty());
}
