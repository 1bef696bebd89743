// Whether an application is of the form of `times` or of `deepest`.

ghost use Rattle.std.specs.Prelude.{◌≡◌, ◌&&◌, option_map, not};
ghost use Rattle.std.specs.List.{list_all};
ghost use Rattle.rt_app.specs.View.{statement_of, block_of, body_of, task_of, app_of};
ghost use Rattle.rt_app.specs.Level as level;
ghost use Rattle.rt_app.specs.Handlers as handlers;
ghost use Rattle.rt_app.specs.Bodies.{members};
ghost use Rattle.rt_app.specs.Forms as forms;

use crate::cost::body_cost;
use rt_app::costs::BRIEF_INIT_COST;
use rt_app::{App, Body, Stmt, Task};
use rt_ids::BodyId;

/// Whether a statement holds no `pend`.
#[cycle(block)]
fn statement_holds_no_pend(stmt: &Stmt) -> bool
    ensures { result ≡ forms.statement_holds_no_pend (statement_of stmt.now) }
{
    match stmt {
        Stmt::Bind(_variable, _value) => true,
        Stmt::Assign(_atom, _expr, _at) => true,
        Stmt::Branch(_condition, first, second) => holds_no_pend(first) && holds_no_pend(second),
        Stmt::Repeat(_variable, _first, _last, turn) => holds_no_pend(turn),
        Stmt::Locked(_resource, inner, _at) => holds_no_pend(inner),
        Stmt::Emit(_expr) => true,
        Stmt::Pend(_irq) => false,
        Stmt::Call(_spawn) => true,
    }
}

/// Whether statements hold no `pend`.
#[cycle(block)]
fn holds_no_pend(stmts: &[Stmt]) -> bool
    ensures { result ≡ forms.holds_no_pend (block_of stmts.now) }
{
    for stmt in stmts {
        if !statement_holds_no_pend(stmt) {
            return false;
        }
    }
    true
}

/// Whether `init` or `idle` holds no `pend`, where it is declared.
fn body_holds_no_pend(body: &Option<Body>) -> bool
    ensures { result ≡ forms.body_holds_no_pend (option_map body_of body.now) }
{
    match body {
        None => true,
        Some(body) => holds_no_pend(&body.block),
    }
}

/// Whether tasks hold no `pend`.
fn tasks_hold_no_pend(tasks: &[Task]) -> bool
    ensures { result ≡ list_all (λ t. forms.holds_no_pend (task_of t).body.block) tasks.now }
{
    tasks.iter().all(|task| holds_no_pend(&task.body.block))
}

/// Whether neither `init` nor `idle` holds a `pend`.
fn threads_hold_no_pend(app: &App) -> bool
    ensures { let all = app_of app.now in
        result ≡ (forms.body_holds_no_pend all.init && forms.body_holds_no_pend all.idle) }
{
    body_holds_no_pend(&app.init) && body_holds_no_pend(&app.idle)
}

/// Whether no body holds a `pend`.
fn bodies_hold_no_pend(app: &App) -> bool
    ensures { result ≡ list_all (λ m. forms.holds_no_pend m.body.block) (members (app_of app.now)) }
{
    threads_hold_no_pend(app) && tasks_hold_no_pend(&app.tasks)
}

/// Whether each task binds an interrupt.
fn bind_all(tasks: &[Task]) -> bool
    ensures { result ≡ list_all (λ t. not (level.is_software (task_of t))) tasks.now }
{
    tasks.iter().all(|task| !task.is_software())
}

/// Whether an application has hardware tasks alone, and no monotonic.
fn has_hardware_alone(app: &App) -> bool
    ensures { let all = app_of app.now in result ≡ (forms.has_no_software all && handlers.has_no_monotonic all) }
{
    bind_all(&app.tasks) && app.mono.is_none()
}

/// Whether an application has hardware tasks alone, no monotonic, and no `pend` in any of its bodies: the form that
/// response times are given for.
pub fn has_response_times(app: &App) -> bool
    ensures { result ≡ forms.has_response_times (app_of app.now) }
{
    has_hardware_alone(app) && bodies_hold_no_pend(app)
}

/// Whether an `init` holds no `pend` and costs few core steps.
fn has_brief_init(app: &App) -> bool
    ensures { let all = app_of app.now in
        result ≡ (forms.body_holds_no_pend all.init && forms.is_brief all) }
{
    body_holds_no_pend(&app.init) && body_cost(app, BodyId::Init) <= BRIEF_INIT_COST
}

/// Whether an application has hardware tasks alone, no monotonic, and an `init` without a `pend` that costs few core
/// steps: the form that a script to the stack bound is written for.
pub fn has_deepest_script(app: &App) -> bool
    ensures { result ≡ forms.has_deepest_script (app_of app.now) }
{
    has_hardware_alone(app) && has_brief_init(app)
}
