// The frame of a body: its parts, and where each begins.

ghost use Rattle.std.specs.Prelude.{◌≡◌, ◌+◌, ◌≤◌, map, max, option_map, true, if◌then◌else◌};
ghost use Rattle.rt_app.specs.View.{expression_of, spawn_of, value_of, statement_of, block_of, body_of, app_of};
ghost use Rattle.rt_ids.specs.Lists.{greatest};
ghost use Rattle.rt_app.specs.Frame as frame;
ghost use Rattle.rt_app.specs.Stack as stack;
ghost use Rattle.rt_app.specs.Limits.{KeepsBodyLimits};
ghost use Rattle.rt_ids.specs.declared.limits.TheConstants.{ARGUMENTS};
ghost use Rattle.rt_frames.specs.Inside.Saturated.{saturated_number};
ghost use Rattle.rt_frames.specs.Inside.FrameParts.{both, expression_parts, spawn_parts, value_parts, statement_parts};
ghost use Rattle.rt_frames.specs.Inside.FrameParts.{block_parts};

use rt_app::costs::{SPAWN_WORDS, TIMER_QUEUE_WORDS};
use rt_app::{App, Body, Expr, Spawn, Stmt, Value};

/// What statements need of a frame, in words. A sum stops at the greatest number of 32 bits.
#[derive(Clone, Copy)]
pub(crate) struct Parts {
    /// The variables that they bring in.
    pub(crate) variables: u32,
    /// The greatest depth of their expressions, and 0 where there is none.
    pub(crate) depth: u32,
    /// Whether there is a `for`.
    pub(crate) has_loop: bool,
    /// The greatest number of resources that are locked at once.
    pub(crate) locks: u32,
    /// The words for the spawns.
    pub(crate) spawns: u32,
}

/// Of no statement.
const NOTHING: Parts = Parts {
    variables: 0,
    depth: 0,
    has_loop: false,
    locks: 0,
    spawns: 0,
};

/// Of statements, one after the other.
fn both(first: Parts, second: Parts) -> Parts
    ensures { result ≡ both first second }
{
    Parts {
        variables: first.variables.saturating_add(second.variables),
        depth: first.depth.max(second.depth),
        has_loop: first.has_loop || second.has_loop,
        locks: first.locks.max(second.locks),
        spawns: first.spawns.max(second.spawns),
    }
}

/// The depth of an expression, up to the greatest number of 32 bits.
fn depth(expr: &Expr) -> u32
    ensures { result ≡ saturated_number (frame.expression_depth (expression_of expr.now)) }
{
    match expr {
        Expr::Num(_number) => 1,
        Expr::Read(_atom, _at) => 1,
        Expr::Oper(_op, left, right) => depth(left).max(depth(right)).saturating_add(1),
    }
}

/// The greatest depth of expressions, and 0 where there is none.
fn greatest_depth(exprs: &[Expr]) -> u32
    ensures { result ≡ saturated_number (greatest (map frame.expression_depth (map expression_of exprs.now))) }
{
    let mut most: u32 = 0;
    for expr in exprs {
        most = most.max(depth(expr));
    }
    most
}

/// Of an expression.
fn expression(expr: &Expr) -> Parts
    ensures { result ≡ expression_parts (expression_of expr.now) }
{
    Parts {
        depth: depth(expr),
        ..NOTHING
    }
}

/// Of a spawn.
fn spawn(spawn: &Spawn) -> Parts
    ensures { result ≡ spawn_parts (spawn_of spawn.now) }
{
    match spawn {
        Spawn::Soon(_task, args, _at) => Parts {
            depth: greatest_depth(args),
            spawns: SPAWN_WORDS,
            ..NOTHING
        },
        Spawn::After(_word, delay, _task, args, _at) => Parts {
            depth: depth(delay).max(greatest_depth(args)),
            spawns: TIMER_QUEUE_WORDS,
            ..NOTHING
        },
        Spawn::Cancel(_word, _task, handle, _at) => Parts {
            depth: depth(handle),
            spawns: TIMER_QUEUE_WORDS,
            ..NOTHING
        },
        Spawn::Move(_word, delay, _task, handle, _at) => Parts {
            depth: depth(delay).max(depth(handle)),
            spawns: TIMER_QUEUE_WORDS,
            ..NOTHING
        },
    }
}

/// Of a value that a variable is bound to.
fn value(value: &Value) -> Parts
    ensures { result ≡ value_parts (value_of value.now) }
{
    match value {
        Value::Calc(expr) => expression(expr),
        Value::Now(_at) => NOTHING,
        Value::Call(call) => spawn(call),
    }
}

/// With one more variable.
fn with_variable(parts: Parts) -> Parts
    ensures { result ≡ record parts { variables = saturated_number (parts.variables + 1) } }
{
    Parts {
        variables: parts.variables.saturating_add(1),
        ..parts
    }
}

/// Of a `for` with this turn.
fn with_loop(turn: Parts) -> Parts
    ensures { result ≡ record turn { variables = saturated_number (turn.variables + 1); has_loop = true } }
{
    Parts {
        has_loop: true,
        ..with_variable(turn)
    }
}

/// Of a section with these statements.
fn with_lock(inner: Parts) -> Parts
    ensures { result ≡ record inner { locks = saturated_number (inner.locks + 1) } }
{
    Parts {
        locks: inner.locks.saturating_add(1),
        ..inner
    }
}

/// Of a statement.
#[cycle(block)]
fn statement(stmt: &Stmt) -> Parts
    ensures { result ≡ statement_parts (statement_of stmt.now) }
{
    match stmt {
        Stmt::Bind(_variable, bound) => with_variable(value(bound)),
        Stmt::Assign(_atom, expr, _at) => expression(expr),
        Stmt::Branch(condition, first, second) => {
            both(expression(condition), both(block(first), block(second)))
        }
        Stmt::Repeat(_variable, _first, _last, turn) => with_loop(block(turn)),
        Stmt::Locked(_resource, inner, _at) => with_lock(block(inner)),
        Stmt::Emit(expr) => expression(expr),
        Stmt::Pend(_irq) => NOTHING,
        Stmt::Call(call) => spawn(call),
    }
}

/// Of statements.
#[cycle(block)]
fn block(stmts: &[Stmt]) -> Parts
    ensures { result ≡ block_parts (block_of stmts.now) }
{
    let mut parts = NOTHING;
    for stmt in stmts {
        parts = both(parts, statement(stmt));
    }
    parts
}

/// The words where expressions are evaluated; a loop alone needs one for its test.
fn expression_words(parts: &Parts) -> u32
    ensures { result ≡ max parts.now.depth (if parts.now.has_loop then 1 else 0) }
{
    parts.depth.max(u32::from(parts.has_loop))
}

/// Where the parts of a body's frame begin. Its variables come first, the arguments before the others.
#[derive(Clone, Copy)]
pub struct Slots {
    /// The first slot where expressions are evaluated.
    pub expressions: u32,
    /// The first slot that keeps a mask.
    pub masks: u32,
    /// The first slot of a spawn.
    pub spawns: u32,
}

impl Slots {
    /// Those of a body with so many arguments.
    pub fn of(args: u8, body: &Body) -> Slots
        requires few { args ≤ ARGUMENTS }
        requires limits { KeepsBodyLimits (body_of body.now) }
        ensures expressions { result.expressions ≡ frame.first_expression_slot args (body_of body.now) }
        ensures masks { result.masks ≡ frame.first_lock_slot args (body_of body.now) }
        ensures spawns { result.spawns ≡ frame.first_spawn_slot args (body_of body.now) }
    {
        let parts = block(&body.block);
        let expressions = u32::from(args).saturating_add(parts.variables);
        let masks = expressions.saturating_add(expression_words(&parts));
        Slots {
            expressions,
            masks,
            spawns: masks.saturating_add(parts.locks),
        }
    }
}

/// The words of a body's frame, with so many arguments, up to the greatest number of 32 bits.
pub(crate) fn frame_words(args: u8, body: &Body) -> u32
    ensures { result ≡ saturated_number (frame.frame_words args (body_of body.now)) }
{
    let parts = block(&body.block);
    let variables = u32::from(args).saturating_add(parts.variables);
    let evaluated = variables.saturating_add(expression_words(&parts));
    let locked = evaluated.saturating_add(parts.locks);
    let words = locked.saturating_add(parts.spawns);
    words.saturating_add(words % 2)
}

/// The words of the frame of `init` or `idle`, and none where it is not declared.
pub(crate) fn thread_frame(body: &Option<Body>) -> u32
    ensures { result ≡ saturated_number (stack.thread_frame (option_map body_of body.now)) }
{
    match body {
        None => 0,
        Some(body) => frame_words(0, body),
    }
}

/// The words of the frame of the thread, which runs `init` and then `idle`, up to the greatest number of 32 bits.
pub(crate) fn thread_words(app: &App) -> u32
    ensures { result ≡ saturated_number (stack.thread_words (app_of app.now)) }
{
    thread_frame(&app.init).max(thread_frame(&app.idle))
}
