// The tables of an image: interrupts, bodies, the stack.

ghost use Rattle.std.specs.Prelude.{◌≡◌, ℕ, ◌<◌, [], length, map, slice_get, Some, false, IfOk};
ghost use Rattle.std.specs.List.{zip};
ghost use Rattle.rt_app.specs.Handlers.{Runs, Dispatches, Times, Service, dispatcher_of, task_services, services};
ghost use Rattle.rt_app.specs.Level.{is_software, levels};
ghost use Rattle.rt_app.specs.Names.{names_of};
ghost use Rattle.rt_app.specs.Stack.{thread_words, stack_bytes};
ghost use Rattle.rt_app.specs.View.{app_of, task_of};
ghost use Rattle.rt_gen_queue.specs.Called.{rows_for};
ghost use Rattle.rt_build.specs.Entries as spec;
ghost use Rattle.rt_build.specs.Inside.Plan.{IsAcceptedPlan};
ghost use Rattle.rt_build.specs.Inside.Code.{HasEntries, entries_of};
ghost use Rattle.rt_build.specs.Inside.Tables.{HasHandlers, untimed_services, irq_row};

use crate::bodies::{body_rows, start_of};
use crate::code::Code;
use rt_app::costs::{DISPATCHER_WORDS, TIMER_WORDS};
use rt_app::{IrqDecl, Mono, Plan, Task};
use rt_code::{BodyRow, Handler, IrqRow};
use rt_frames::bounds;
use rt_ids::{Name, Names, NoMemory, Prio};
use std::alloc::Global;

/// What stands beside the code and the cells of an image.
#[derive(Drop)]
pub(crate) struct ImageTables {
    pub(crate) stack: Stack,
    pub(crate) irqs: Vec<IrqRow>,
    /// Of the bodies that dispatchers call.
    pub(crate) bodies: Vec<BodyRow>,
    pub(crate) names: Names,
}

/// What the stack of an application takes.
#[derive(Clone, Copy)]
pub(crate) struct Stack {
    /// The words of the thread's frame.
    pub(crate) thread_words: u32,
    pub(crate) bytes: u32,
}

/// What its stack takes.
fn stack_of(alloc: Global, plan: &Plan<'_>) -> Result<Stack, NoMemory>
    requires { IsAcceptedPlan plan.now }
    ensures words { IfOk result (λ stack. stack.thread_words ≡ thread_words (app_of plan.now.app.now)) }
    ensures bytes { IfOk result (λ stack. stack.bytes ≡ stack_bytes (app_of plan.now.app.now)) }
{
    let bounds = bounds(alloc, plan.app, &plan.ceil)?;
    Ok(Stack {
        thread_words: bounds.thread_words,
        bytes: bounds.stack_bytes,
    })
}

/// How the interrupt that a task binds serves it.
fn handler(plan: &Plan<'_>, code: &Code, number: usize, task: &Task) -> Handler
    requires plan { IsAcceptedPlan plan.now }
    requires entries { HasEntries (app_of plan.now.app.now) code.now }
    requires task { slice_get (app_of plan.now.app.now).tasks number ≡ Some (task_of task.now) }
    requires hardware { is_software (task_of task.now) ≡ false }
    ensures { let served : Service = record { irq = 0; handler = Runs number; priority = task.now.priority } in
        result ≡ spec.handler_row (app_of plan.now.app.now) (entries_of (app_of plan.now.app.now) code.now) served }
{
    let start = start_of(plan, code, number);
    Handler {
        value: Prio(task.priority).hw(plan.app.bits),
        entry: start.entry,
        frame: start.frame,
    }
}

/// How the dispatcher of the level at an index serves it.
fn dispatcher(plan: &Plan<'_>, code: &Code, index: usize, level: u8) -> Handler
    requires plan { IsAcceptedPlan plan.now }
    requires entries { HasEntries (app_of plan.now.app.now) code.now }
    requires level { slice_get (levels (app_of plan.now.app.now)) index ≡ Some level }
    ensures { let served : Service = record { irq = 0; handler = Dispatches level; priority = level } in
        result ≡ spec.handler_row (app_of plan.now.app.now) (entries_of (app_of plan.now.app.now) code.now) served }
{
    Handler {
        value: Prio(level).hw(plan.app.bits),
        entry: code.dispatchers[index],
        frame: DISPATCHER_WORDS,
    }
}

/// How the timer handler serves it.
fn timer(plan: &Plan<'_>, code: &Code, mono: Mono) -> Handler
    requires plan { IsAcceptedPlan plan.now }
    requires timed { (app_of plan.now.app.now).mono ≡ Some mono }
    ensures { let served : Service = record { irq = 0; handler = Times; priority = mono.priority } in
        result ≡ spec.handler_row (app_of plan.now.app.now) (entries_of (app_of plan.now.app.now) code.now) served }
{
    Handler {
        value: Prio(mono.priority).hw(plan.app.bits),
        entry: code.timer,
        frame: TIMER_WORDS,
    }
}

/// The interrupt of the dispatcher of the level at an index: that of the highest level is named first.
fn dispatcher_irq(plan: &Plan<'_>, index: usize) -> u8
    requires plan { IsAcceptedPlan plan.now }
    requires of_app { index < length (levels (app_of plan.now.app.now)) }
    ensures { (p : ℕ) → slice_get (levels (app_of plan.now.app.now)) index ≡ Some p →
        dispatcher_of (app_of plan.now.app.now) p ≡ Some result }
{
    let above = plan.ceil.ready.len() - 1 - index;
    plan.app.dispatchers[above].irq
}

/// Tells of each interrupt that a task binds how it serves the task.
fn serve_tasks(plan: &Plan<'_>, code: &Code, handlers: &mut [Option<Handler>])
    requires plan { IsAcceptedPlan plan.now }
    requires entries { HasEntries (app_of plan.now.app.now) code.now }
    requires none { let app = app_of plan.now.app.now in
        HasHandlers app (entries_of app code.now) [] handlers.old }
    ensures { let app = app_of plan.now.app.now in
        HasHandlers app (entries_of app code.now) (task_services 0 app.tasks) handlers.new }
{
    for (number, task) in plan.app.tasks.iter().enumerate() {
        if let Some(irq) = task.binds {
            handlers[usize::from(irq)] = Some(handler(plan, code, number, task));
        }
    }
}

/// Tells of each interrupt that has a level's dispatcher how it serves the level.
fn serve_levels(plan: &Plan<'_>, code: &Code, handlers: &mut [Option<Handler>])
    requires plan { IsAcceptedPlan plan.now }
    requires entries { HasEntries (app_of plan.now.app.now) code.now }
    requires tasks { let app = app_of plan.now.app.now in
        HasHandlers app (entries_of app code.now) (task_services 0 app.tasks) handlers.old }
    ensures { let app = app_of plan.now.app.now in
        HasHandlers app (entries_of app code.now) (untimed_services app) handlers.new }
{
    for (index, row) in plan.ceil.ready.iter().enumerate() {
        let irq = dispatcher_irq(plan, index);
        handlers[usize::from(irq)] = Some(dispatcher(plan, code, index, row.level));
    }
}

/// Tells of the interrupt of the monotonic, where there is one, how it is served.
fn serve_timer(plan: &Plan<'_>, code: &Code, handlers: &mut [Option<Handler>])
    requires plan { IsAcceptedPlan plan.now }
    requires others { let app = app_of plan.now.app.now in
        HasHandlers app (entries_of app code.now) (untimed_services app) handlers.old }
    ensures { let app = app_of plan.now.app.now in
        HasHandlers app (entries_of app code.now) (services app) handlers.new }
{
    if let Some(mono) = plan.app.mono {
        handlers[usize::from(mono.irq)] = Some(timer(plan, code, mono));
    }
}

/// How each declared interrupt is served, where it is.
fn handlers(alloc: Global, plan: &Plan<'_>, code: &Code) -> Result<Vec<Option<Handler>>, NoMemory>
    requires plan { IsAcceptedPlan plan.now }
    requires entries { HasEntries (app_of plan.now.app.now) code.now }
    ensures { let app = app_of plan.now.app.now in
        IfOk result (λ handlers. HasHandlers app (entries_of app code.now) (services app) handlers.items) }
{
    let mut handlers = vec![in alloc; None; plan.app.irqs.len()]?;
    serve_tasks(plan, code, &mut handlers);
    serve_levels(plan, code, &mut handlers);
    serve_timer(plan, code, &mut handlers);
    Ok(handlers)
}

/// The row of a declared interrupt.
fn irq_row(alloc: Global, irq: &IrqDecl, handler: Option<Handler>) -> Result<IrqRow, NoMemory>
    ensures { IfOk result (λ row. row ≡ irq_row irq.now handler) }
{
    Ok(IrqRow {
        name: Name::of(alloc, irq.name.bytes())?,
        number: irq.number,
        handler,
    })
}

/// The rows of declared interrupts that are served so.
fn irq_rows(
    alloc: Global,
    irqs: &[IrqDecl],
    handlers: &[Option<Handler>],
) -> Result<Vec<IrqRow>, NoMemory>
    ensures { IfOk result (λ rows. rows.items
        ≡ map (λ (irq, handler). irq_row irq handler) (zip irqs.now handlers.now)) }
{
    let mut rows = Vec::new(alloc);
    for (irq, handler) in irqs.iter().zip(handlers) {
        rows.push(irq_row(alloc, irq, *handler)?)?;
    }
    Ok(rows)
}

/// The rows of the declared interrupts of an application of this code.
fn rows(alloc: Global, plan: &Plan<'_>, code: &Code) -> Result<Vec<IrqRow>, NoMemory>
    requires plan { IsAcceptedPlan plan.now }
    requires entries { HasEntries (app_of plan.now.app.now) code.now }
    ensures { let app = app_of plan.now.app.now in
        IfOk result (λ rows. rows.items ≡ spec.irq_rows app (entries_of app code.now) 0 app.irqs) }
{
    let handlers = handlers(alloc, plan, code)?;
    irq_rows(alloc, &plan.app.irqs, &handlers)
}

/// The tables of an application of this code.
pub(crate) fn tables_of(
    alloc: Global,
    plan: &Plan<'_>,
    code: &Code,
) -> Result<ImageTables, NoMemory>
    requires plan { IsAcceptedPlan plan.now }
    requires entries { HasEntries (app_of plan.now.app.now) code.now }
    ensures words { IfOk result (λ tables. tables.stack.thread_words ≡ thread_words (app_of plan.now.app.now)) }
    ensures bytes { IfOk result (λ tables. tables.stack.bytes ≡ stack_bytes (app_of plan.now.app.now)) }
    ensures irqs { let app = app_of plan.now.app.now in
        IfOk result (λ tables. tables.irqs.items ≡ spec.irq_rows app (entries_of app code.now) 0 app.irqs) }
    ensures bodies { let app = app_of plan.now.app.now in
        IfOk result (λ tables. tables.bodies.items ≡ rows_for (entries_of app code.now).task 0 app.tasks) }
    ensures names { IfOk result (λ tables. tables.names ≡ names_of (app_of plan.now.app.now)) }
{
    let stack = stack_of(alloc, plan)?;
    let irqs = rows(alloc, plan, code)?;
    let bodies = body_rows(alloc, plan, code)?;
    let names = plan.app.names(alloc)?;
    Ok(ImageTables {
        stack,
        irqs,
        bodies,
        names,
    })
}
