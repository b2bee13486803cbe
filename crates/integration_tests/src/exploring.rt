//! All placements of interrupts in a run.
use crate::loading::loaded;
use explorer::{NoWatch, explore};
use model::{End, HandlerId};

/// A run of two steps, and a handler that changes nothing.
const TWO_STEPS: &str = "
handler = [{ name = 'h', ops = ['mark 9'] }]
task = [{ name = 'a', priority = 1, script = ['work 1', 'mark 1'] }]
";

/// A handler that expects room in a queue of one item, and comes by itself at tick 1.
const FULL_QUEUE: &str = "
queue = [{ name = 'q', length = 1 }]
handler = [{ name = 'rx', ops = ['send q 7', 'expect 1'] }]
task = [{ name = 'd', priority = 1, script = ['receive q 2', 'delay 1', 'receive q 0'] }]
interrupt = [{ tick = 1, handler = 'rx' }]
";

// The number of non-decreasing lists of at most this many steps, out of two steps.
#[test]
fn placements_in_a_run_of_two_steps(rt: HostRuntime) {
    let app = loaded(&rt, rt.alloc(), TWO_STEPS);
    let handlers = [HandlerId { number: 0 }];
    let numbers: [u128; 4] = [1, 3, 6, 10];
    for most in 0..4_usize {
        let found = explore(rt.alloc(), &app, &app.limits(), &handlers, most, &NoWatch).expect(
            &rt, "memory",
        );
        assert!(rt; found.len() == 1, "at most {most}");
        for one in found.iter() {
            assert!(rt; one.end == End::Pass, "at most {most}");
            assert!(rt; one.number == numbers[most], "at most {most}");
            assert!(rt; one.least.len() == 0, "at most {most}");
        }
    }
}

// With up to two interrupts, one finds the queue full in 41 placements. The least of these is a single interrupt before step 6.
#[test]
fn placements_of_an_interrupt_that_finds_a_full_queue(rt: HostRuntime) {
    let app = loaded(&rt, rt.alloc(), FULL_QUEUE);
    let handlers = [HandlerId { number: 0 }];
    let found = explore(rt.alloc(), &app, &app.limits(), &handlers, 2, &NoWatch).expect(
        &rt, "memory",
    );
    let (numbers, steps): ([u128; 2], [u32; 2]) = ([10, 41], [10, 7]);
    assert!(rt; found.len() == 2);
    for (index, one) in found.iter().enumerate() {
        assert!(rt; index < 2);
        assert!(rt; one.number == numbers[index] && one.steps == steps[index]);
        assert!(rt; (one.end == End::Pass) == (index == 0));
        assert!(rt; one.least.len() == index);
        for injection in one.least.as_slice() {
            assert!(rt; injection.step == 6 && injection.handler.number == 0);
        }
    }
}
