// The bounds of an application, from its ceilings.

ghost use Rattle.std.specs.Prelude.{◌≡◌, ◌≤◌, ◌∷◌, [], ◌++◌, length, map, option_map, IfOk, OnOk, if◌then◌else◌};
ghost use Rattle.rt_ids.specs.declared.limits.TheConstants.{TASKS};
ghost use Rattle.rt_app.specs.View.{body_of, task_of, app_of};
ghost use Rattle.rt_app.specs.Bodies.{thread_members, task_members, members};
ghost use Rattle.rt_app.specs.Ceiling as tables;
ghost use Rattle.rt_app.specs.Level.{is_armed};
ghost use Rattle.rt_app.specs.Stack as stack;
ghost use Rattle.rt_app.specs.Bounds as bounds;
ghost use Rattle.rt_app.specs.Limits.{KeepsLimits};
ghost use Rattle.rt_app.specs.Acceptance.{IsSound};
ghost use Rattle.rt_frames.specs.Inside.Flags.{HasFlags};
ghost use Rattle.rt_frames.specs.Inside.Bounded.{saturated_bound, member_bound, wait_of};

use crate::armed::armed_flags;
use crate::flags::Flags;
use crate::frame::{frame_words, thread_words};
use crate::measure::Measure;
use crate::stack::{handler_flags, stack_bytes};
use crate::waiting::wait_within;
use rt_app::costs::PRIORITIES;
use rt_app::{App, Body, BodyBound, Bounds, Ceilings, Task, Wait};
use rt_ids::{BodyId, NoMemory, TaskId};
use std::alloc::Global;

/// What a body takes that has so many arguments.
fn body_bound(measure: &Measure, id: BodyId, args: u8, body: &Body) -> BodyBound
    ensures { result ≡ saturated_bound measure.now id args (body_of body.now) }
{
    BodyBound {
        body: id,
        frame: frame_words(args, body),
        cost: measure.body(body),
    }
}

/// Appends what `init` or `idle` takes, where it is declared.
fn push_thread(
    bodies: &mut Vec<BodyBound>,
    measure: &Measure,
    id: BodyId,
    body: &Option<Body>,
) -> Result<(), NoMemory>
    ensures { let own = map (member_bound measure.now) (thread_members id (option_map body_of body.now)) in
        OnOk result (bodies.new.items ≡ bodies.old.items ++ own) }
{
    match body {
        None => Ok(()),
        Some(body) => {
            bodies.push(body_bound(measure, id, 0, body))?;
            Ok(())
        }
    }
}

/// Appends what the tasks take.
fn push_tasks(
    bodies: &mut Vec<BodyBound>,
    measure: &Measure,
    tasks: &[Task],
) -> Result<(), NoMemory>
    requires { length tasks.now ≤ TASKS }
    ensures { let own = map (member_bound measure.now) (task_members 0 (map task_of tasks.now)) in
        OnOk result (bodies.new.items ≡ bodies.old.items ++ own) }
{
    for number in 0..tasks.len() {
        let task = &tasks[number];
        let id = BodyId::Task(TaskId(number as u8));
        bodies.push(body_bound(measure, id, task.args, &task.body))?;
    }
    Ok(())
}

/// What each declared body takes.
fn body_bounds(alloc: Global, app: &App, measure: &Measure) -> Result<Vec<BodyBound>, NoMemory>
    requires { length (app_of app.now).tasks ≤ TASKS }
    ensures { IfOk result (λ bodies. bodies.items ≡ map (member_bound measure.now) (members (app_of app.now))) }
{
    let mut bodies = Vec::new(alloc);
    push_thread(&mut bodies, measure, BodyId::Init, &app.init)?;
    push_thread(&mut bodies, measure, BodyId::Idle, &app.idle)?;
    push_tasks(&mut bodies, measure, &app.tasks)?;
    Ok(bodies)
}

/// Appends the wait of a priority, where it has a handler.
fn push_wait(
    waits: &mut Vec<Wait>,
    app: &App,
    ceilings: &Ceilings,
    measure: &Measure,
    armed: &Flags,
    priority: u8,
    has_handler: bool,
) -> Result<(), NoMemory>
    requires few { length (app_of app.now).tasks ≤ TASKS }
    requires armed { HasFlags armed.now (is_armed (app_of app.now)) }
    requires ceilings { ceilings.now ≡ tables.ceilings (app_of app.now) }
    requires sound { IsSound (app_of app.now) }
    ensures { let priorities = (if has_handler then priority ∷ [] else []) in
        let own = map (wait_of (app_of app.now) measure.now ceilings.now) priorities in
        OnOk result (waits.new.items ≡ waits.old.items ++ own) }
{
    if has_handler {
        waits.push(Wait {
            priority,
            steps: wait_within(app, ceilings, measure, armed, priority),
        })?;
    }
    Ok(())
}

/// How long jobs wait, of each priority that has a handler.
fn waits_of(
    alloc: Global,
    app: &App,
    ceilings: &Ceilings,
    measure: &Measure,
    armed: &Flags,
    handlers: &Flags,
) -> Result<Vec<Wait>, NoMemory>
    requires few { length (app_of app.now).tasks ≤ TASKS }
    requires armed { HasFlags armed.now (is_armed (app_of app.now)) }
    requires ceilings { ceilings.now ≡ tables.ceilings (app_of app.now) }
    requires sound { IsSound (app_of app.now) }
    requires handled { HasFlags handlers.now (stack.has_handler (app_of app.now)) }
    ensures { let all = app_of app.now in
        IfOk result (λ waits. waits.items ≡ map (wait_of all measure.now ceilings.now) (stack.handler_priorities all)) }
{
    let mut waits = Vec::new(alloc);
    for priority in 0..PRIORITIES {
        let has_handler = handlers[usize::from(priority)];
        push_wait(
            &mut waits,
            app,
            ceilings,
            measure,
            armed,
            priority as u8,
            has_handler,
        )?;
    }
    Ok(waits)
}

/// The numbers that hold of every run of an application that can be run, from its ceilings.
pub fn bounds(alloc: Global, app: &App, ceil: &Ceilings) -> Result<Bounds, NoMemory>
    requires limits { KeepsLimits (app_of app.now) }
    requires sound { IsSound (app_of app.now) }
    requires ceilings { ceil.now ≡ tables.ceilings (app_of app.now) }
    ensures { IfOk result (λ b. b ≡ bounds.bounds (app_of app.now)) }
{
    let armed = armed_flags(app);
    let measure = Measure::cost_of_armed(app, &armed);
    let handlers = handler_flags(app);
    let bodies = body_bounds(alloc, app, &measure)?;
    let waits = waits_of(alloc, app, ceil, &measure, &armed, &handlers)?;
    Ok(Bounds {
        bodies,
        waits,
        thread_words: thread_words(app),
        stack_bytes: stack_bytes(app, &handlers),
    })
}
