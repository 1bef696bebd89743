// What a request asks for at a handler of the order.

ghost use Rattle.std.specs.Prelude.{◌≡◌, length, map, option_map, replicate, None, IfOk};
ghost use Rattle.rt_app.specs.View.{spawn_of, value_of, statement_of, block_of, body_of, app_of};
ghost use Rattle.rt_respond.specs.Handlers as order;
ghost use Rattle.rt_respond.specs.Work as spec;
ghost use Rattle.rt_respond.specs.Inside.Works as inner;

use crate::handler::{Handler, Quantity, Release, is_at, takes, weight};
use crate::number::{greater_of, plus, times};
use rt_app::{App, Body, Spawn, Stmt, Value};
use rt_ids::NoMemory;
use std::alloc::Global;

/// What handlers ask for at one of them.
#[derive(Clone, Copy)]
pub(crate) struct Works<'a> {
    pub(crate) handlers: &'a [Handler],
    /// Of each handler, in order.
    pub(crate) works: &'a [Option<u64>],
}

/// What a release asks for; nothing where it has no handler.
pub(crate) fn release_asks(all: &Works, release: &Release) -> Option<u64>
    ensures { result ≡ inner.table_asks all.now.handlers.now all.now.works.now release.now }
{
    for index in 0..all.handlers.len().min(all.works.len()) {
        if takes(release, &all.handlers[index]) {
            return all.works[index];
        }
    }
    Some(0)
}

/// What a spawn releases.
fn spawn_sends(all: &Works, spawn: &Spawn) -> Option<u64>
    ensures { let asks = inner.table_asks all.now.handlers.now all.now.works.now in
        result ≡ spec.spawn_sends asks (spawn_of spawn.now) }
{
    match spawn {
        Spawn::Soon(task, _args, _at) => release_asks(all, &Release::Message(*task)),
        Spawn::After(_word, _delay, _task, _args, _at) => Some(0),
        Spawn::Cancel(_word, _task, _handle, _at) => Some(0),
        Spawn::Move(_word, _delay, _task, _handle, _at) => Some(0),
    }
}

/// What the value of a `let` releases.
fn value_sends(all: &Works, value: &Value) -> Option<u64>
    ensures { let asks = inner.table_asks all.now.handlers.now all.now.works.now in
        result ≡ spec.value_sends asks (value_of value.now) }
{
    match value {
        Value::Calc(_expr) => Some(0),
        Value::Now(_at) => Some(0),
        Value::Call(spawn) => spawn_sends(all, spawn),
    }
}

/// What a statement releases at most.
#[cycle(block)]
pub(crate) fn statement_sends(all: &Works, stmt: &Stmt) -> Option<u64>
    ensures { let asks = inner.table_asks all.now.handlers.now all.now.works.now in
        result ≡ spec.statement_sends asks (statement_of stmt.now) }
{
    match stmt {
        Stmt::Bind(_variable, value) => value_sends(all, value),
        Stmt::Assign(_atom, _expr, _at) => Some(0),
        Stmt::Branch(_condition, first, second) => {
            greater_of(block_sends(all, first), block_sends(all, second))
        }
        Stmt::Repeat(_variable, first, last, turn) => {
            times(
                u64::from(last.saturating_sub(*first)),
                block_sends(all, turn),
            )
        }
        Stmt::Locked(_resource, inner, _at) => block_sends(all, inner),
        Stmt::Emit(_expr) => Some(0),
        Stmt::Pend(irq) => release_asks(all, &Release::Request(*irq)),
        Stmt::Call(spawn) => spawn_sends(all, spawn),
    }
}

/// What statements release at most, one after the other.
#[cycle(block)]
pub(crate) fn block_sends(all: &Works, stmts: &[Stmt]) -> Option<u64>
    ensures { let asks = inner.table_asks all.now.handlers.now all.now.works.now in
        result ≡ spec.block_sends asks (block_of stmts.now) }
{
    let mut sum = Some(0);
    for stmt in stmts {
        sum = plus(sum, statement_sends(all, stmt));
    }
    sum
}

/// What `init` releases, where it is declared.
pub(crate) fn body_sends(all: &Works, body: &Option<Body>) -> Option<u64>
    ensures { let asks = inner.table_asks all.now.handlers.now all.now.works.now in
        result ≡ spec.body_sends asks (option_map body_of body.now) }
{
    match body {
        None => Some(0),
        Some(body) => block_sends(all, &body.block),
    }
}

/// What the block of a handler releases at most.
pub(crate) fn handler_sends(app: &App, all: &Works, handler: &Handler) -> Option<u64>
    ensures { let asks = inner.table_asks all.now.handlers.now all.now.works.now in
        result ≡ spec.block_sends asks (order.handled_block (app_of app.now) handler.now) }
{
    match app.task(handler.task) {
        None => Some(0),
        Some(task) => block_sends(all, &task.body.block),
    }
}

/// The work of a request of a handler, where a release asks for what the table says.
fn next_work(
    app: &App,
    this: &Handler,
    counted: &Quantity,
    all: &Works,
    handler: &Handler,
) -> Option<u64>
    requires { all.now.handlers.now ≡ order.handlers (app_of app.now) }
    ensures { result ≡ inner.next_work (app_of app.now) counted.now this.now all.now.works.now handler.now }
{
    if is_at(this, handler) {
        let own = Some(weight(counted, handler));
        plus(own, handler_sends(app, all, handler))
    } else {
        Some(0)
    }
}

/// The works of all handlers after a round more.
fn next_works(
    alloc: Global,
    app: &App,
    this: &Handler,
    counted: &Quantity,
    all: &Works,
) -> Result<Vec<Option<u64>>, NoMemory>
    requires { all.now.handlers.now ≡ order.handlers (app_of app.now) }
    ensures { let of = inner.next_work (app_of app.now) counted.now this.now all.now.works.now in
        IfOk result (λ works. works.items ≡ map of (order.handlers (app_of app.now))) }
{
    let mut works = Vec::new(alloc);
    for handler in all.handlers {
        works.push(next_work(app, this, counted, all, handler))?;
    }
    Ok(works)
}

/// Of each handler no number.
fn no_works(alloc: Global, handlers: &[Handler]) -> Result<Vec<Option<u64>>, NoMemory>
    ensures { IfOk result (λ works. works.items ≡ replicate (length handlers.now) None) }
{
    let mut works = Vec::new(alloc);
    for _handler in handlers {
        works.push(None)?;
    }
    Ok(works)
}

/// What a request of each handler asks for at this one, in order. The time grows with the square of the number of
/// handlers, and with the text.
pub(crate) fn works_at(
    alloc: Global,
    app: &App,
    handlers: &[Handler],
    this: &Handler,
    counted: &Quantity,
) -> Result<Vec<Option<u64>>, NoMemory>
    requires { handlers.now ≡ order.handlers (app_of app.now) }
    ensures { IfOk result (λ works.
        works.items ≡ map (spec.work (app_of app.now) counted.now this.now) (order.handlers (app_of app.now))) }
{
    let mut works = no_works(alloc, handlers)?;
    for _round in 0..handlers.len() {
        works = next_works(
            alloc,
            app,
            this,
            counted,
            &Works {
                handlers,
                works: &works,
            },
        )?;
    }
    Ok(works)
}
