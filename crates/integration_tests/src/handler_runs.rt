//! Plans, and runs with several injections.
ghost use Rattle.std.specs.Prelude.{◌<◌};

use crate::loading::loaded;
use crate::sinks::check_text;
use model::{App, BadPlan, Event, HandlerId, Injection, Meter, Plan, What};
use std::alloc::{AllocError, Global};
use std::process::Abort;

// A caller that is woken unsuccessfully, a task of the same priority that works, and a task of higher priority that waits at
// another queue.
const THREE_INJECTIONS: &str = r"
queue = [{ name = 'p', length = 1 }, { name = 'q', length = 1 }]
handler = [
    { name = 'in_vain', ops = ['send q 1', 'receive q'] },
    { name = 'send_q', ops = ['send q 2'] },
    { name = 'send_p', ops = ['send p 3'] },
]
task = [
    { name = 'above', priority = 2, script = ['receive p forever'] },
    { name = 'caller', priority = 1, script = ['receive q forever'] },
    { name = 'equal', priority = 1, script = ['work 3'] },
]
";

/// The plan of these steps and handlers.
fn plan_of(
    rt: &impl Abort,
    alloc: Global,
    app: &App,
    injections: &[(u32, &str)],
) -> Result<Plan, AllocError> {
    let mut plan = Vec::new(alloc);
    for (step, name) in injections {
        let handler = app.handler_named(name).expect(rt, "a handler");
        plan.push(Injection {
            step: *step,
            handler,
        })?;
    }
    Ok(Plan::new(plan).ok().expect(rt, "a plan"))
}

/// Each step after which another task or idle runs, and its name.
fn switches(alloc: Global, app: &App, events: &[Event]) -> Result<String, AllocError> {
    let mut text = String::new(alloc);
    for event in events {
        if let What::Run(runner) = event.what {
            let name = match runner {
                None => "-",
                Some(task) => app.name(task),
            };
            let line = format!(in alloc; "{} {name}\n", event.step)?;
            text.push_str(line.as_str())?;
        }
    }
    Ok(text)
}

const SWITCHES: &str = "4 caller
9 equal
11 caller
15 above
16 equal
17 caller
18 -
";

// The caller's second hold follows no wait. So it yields to its equal when the task of higher priority runs, and comes last.
#[test]
fn a_call_that_waited_before_and_need_not_now_gives_way(rt: HostRuntime) -> Result<(), AllocError> {
    let alloc = rt.alloc();
    let app = loaded(&rt, alloc, THREE_INJECTIONS);
    let injections = [(11, "in_vain"), (13, "send_q"), (14, "send_p")];
    let plan = plan_of(&rt, alloc, &app, &injections)?;
    let run = kernel::run(alloc, &app, &plan, app.limits(), &mut Meter::new());
    let run = run.expect(&rt, "memory");
    let seen = switches(alloc, &app, run.events.as_slice())?;
    let name = "three injections";
    check_text(&rt, alloc, name, seen.as_bytes(), SWITCHES);
    Ok(())
}

// Each handler marks 16 numbers, and each number is marked once.
const MARKS: u32 = 16;

const INJECTED: u32 = 3;

const AT_THE_TICK: u32 = 4;

/// A file whose first step is a tick, at which four handlers come. Three other handlers can be injected.
fn marking_handlers(alloc: Global) -> Result<String, AllocError> {
    let mut text = String::new(alloc);
    for handler in 0..INJECTED + AT_THE_TICK {
        let first = format!(in alloc; "[[handler]]\nname = 'h{handler}'\nops = [")?;
        text.push_str(first.as_str())?;
        push_marks(alloc, handler, &mut text)?;
        text.push_str("]\n")?;
    }
    for handler in INJECTED..INJECTED + AT_THE_TICK {
        let entry = format!(in alloc; "[[interrupt]]\ntick = 1\nhandler = 'h{handler}'\n")?;
        text.push_str(entry.as_str())?;
    }
    text.push_str("[[task]]\nname = 'a'\npriority = 1\nscript = ['work 1', 'work 1']\n")?;
    Ok(text)
}

/// Appends the ops of a handler, which is one of seven.
fn push_marks(alloc: Global, handler: u32, text: &mut String) -> Result<(), AllocError>
    requires { handler < 7 }
{
    for op in 0..MARKS {
        let number = handler * MARKS + op;
        let entry = format!(in alloc; "'mark {number}', ")?;
        text.push_str(entry.as_str())?;
    }
    Ok(())
}

#[test]
fn a_step_of_112_marks(rt: HostRuntime) -> Result<(), AllocError> {
    let alloc = rt.alloc();
    let file = marking_handlers(alloc)?;
    let app = loaded(&rt, alloc, file.as_str());
    let plan = plan_of(&rt, alloc, &app, &[(0, "h0"), (0, "h1"), (0, "h2")])?;
    let run = kernel::run(alloc, &app, &plan, app.limits(), &mut Meter::new());
    let run = run.expect(&rt, "memory");
    let mut expected = 0;
    for event in &run.events {
        if let What::IsrMark(_, number) = event.what {
            assert!(&rt; event.step == 0 && number == expected, "{number} is marked");
            assert!(&rt; event.tick == u32::from(expected >= INJECTED * MARKS));
            expected = number.saturating_add(1);
        }
    }
    assert!(&rt; expected == (INJECTED + AT_THE_TICK) * MARKS);
    Ok(())
}

/// Why the injections at these steps are not a plan; `None` if they are one.
fn refusal_of(rt: &impl Abort, alloc: Global, steps: &[u32]) -> Option<BadPlan> {
    let mut plan = Vec::new(alloc);
    for step in steps {
        let injection = Injection {
            step: *step,
            handler: HandlerId { number: 0 },
        };
        plan.push(injection).expect(rt, "memory");
    }
    Plan::new(plan).err()
}

#[test]
fn plans_that_are_refused(rt: HostRuntime) {
    let alloc = rt.alloc();
    assert!(&rt; refusal_of(&rt, alloc, &[]).is_none());
    assert!(&rt; refusal_of(&rt, alloc, &[2, 2, 2]).is_none());
    assert!(&rt; refusal_of(&rt, alloc, &[2, 2, 2, 3, 3, 3]).is_none());
    assert!(&rt; matches!(refusal_of(&rt, alloc, &[3, 2]), Some(BadPlan::Falling)));
    assert!(&rt;
        matches!(
            refusal_of(&rt, alloc, &[2, 2, 2, 2]),
            Some(BadPlan::Crowded)
        )
    );
    assert!(&rt;
        matches!(
            refusal_of(&rt, alloc, &[1, 2, 2, 2, 2, 3]),
            Some(BadPlan::Crowded)
        )
    );
    // If both faults apply, `Falling` is returned.
    assert!(&rt;
        matches!(
            refusal_of(&rt, alloc, &[2, 2, 2, 2, 1]),
            Some(BadPlan::Falling)
        )
    );
}
