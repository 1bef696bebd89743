// A sum over the statements of a body: of steps, or of instructions.

ghost use Rattle.std.specs.Prelude.{◌≡◌, ◌+◌, ◌*◌, ◌≤◌, map};
ghost use Rattle.rt_app.specs.View.{expression_of, spawn_of, value_of, statement_of, block_of, body_of, app_of};
ghost use Rattle.rt_app.specs.Level.{is_armed};
ghost use Rattle.rt_app.specs.Cost as cost;
ghost use Rattle.rt_app.specs.BodyCost as whole;
ghost use Rattle.rt_app.specs.declared.costs.TheConstants.{HANDLE_COST, HANDLE_MESSAGE_COST};
ghost use Rattle.rt_frames.specs.Inside.Flags.{HasFlags};

use crate::armed::{MOST_ARMED, armed_flags, armed_messages};
use crate::flags::Flags;
use rt_app::costs::{
    HANDLE_COST, HANDLE_MESSAGE_COST, LOOP_COST, MESSAGE_COST, SIZED_MESSAGES, SPAWN_AFTER_COST,
    SPAWN_COST, TURN_COST,
};
use rt_app::{App, Body, Expr, Spawn, Stmt, Value};
use rt_ids::limits::BODY_COST;
use std::marker::Model;

/// What a sum over a body counts: core steps, or instructions.
#[derive(Clone, Copy)]
pub struct Measure {
    /// The messages that may be armed at once.
    messages: u32,
    /// Whether code is counted, both blocks of a branch and one turn of a loop, and not steps.
    is_size: bool,
}

impl Model for Measure {
    ghost use Rattle.rt_app.specs.Cost.{Measure};
    ghost use Rattle.std.specs.Prelude.{◌≤◌};
    ghost use Rattle.rt_frames.specs.declared.armed.TheConstants.{MOST_ARMED};

    ghost Value = { Measure };

    ghost invariant = { λ m. m.messages ≤ MOST_ARMED };

    ghost view = { λ m. record { messages = m.messages; is_size = m.is_size } };

    ghost inverse = { λ m. record { messages = m.messages; is_size = m.is_size } };
}

/// A sum, stopped one above the greatest cost that a body may have.
fn capped_cost(sum: u32) -> u32
    ensures { result ≡ cost.capped_cost sum }
{
    sum.min(BODY_COST + 1)
}

/// Of a lock and its section, around a block of this sum.
fn lock_cost(inner: u32) -> u32
    ensures { result ≡ cost.lock_cost inner }
{
    capped_cost(inner.saturating_add(2))
}

/// The core steps of an expression, which are its instructions too.
fn expression_cost(expr: &Expr) -> u32
    ensures { result ≡ cost.expression_cost (expression_of expr.now) }
{
    match expr {
        Expr::Num(_number) => 1,
        Expr::Read(_atom, _at) => 1,
        Expr::Oper(_op, left, right) => {
            let operands = expression_cost(left).saturating_add(expression_cost(right));
            capped_cost(operands.saturating_add(1))
        }
    }
}

/// The core steps of expressions, one after the other.
fn expressions_cost(exprs: &[Expr]) -> u32
    ensures { result ≡ cost.expressions_cost (map expression_of exprs.now) }
{
    let mut sum: u32 = 0;
    for expr in exprs {
        sum = capped_cost(sum.saturating_add(expression_cost(expr)));
    }
    sum
}

impl Measure {
    /// Core steps of bodies of this application, whose armed tasks these are.
    pub(crate) fn cost_of_armed(app: &App, armed: &Flags) -> Measure
        requires { HasFlags armed.now (is_armed (app_of app.now)) }
        ensures { result ≡ whole.cost_measure (app_of app.now) }
    {
        Measure {
            messages: armed_messages(app, armed),
            is_size: false,
        }
    }

    /// Core steps of bodies of this application.
    pub fn cost(app: &App) -> Measure
        ensures { result ≡ whole.cost_measure (app_of app.now) }
    {
        Measure::cost_of_armed(app, &armed_flags(app))
    }

    /// Instructions of bodies of this application.
    pub fn size(app: &App) -> Measure
        ensures { result ≡ whole.size_measure (app_of app.now) }
    {
        Measure {
            messages: armed_messages(app, &armed_flags(app)).min(SIZED_MESSAGES),
            is_size: true,
        }
    }

    /// The messages that may be armed at once, as it counts them.
    pub fn messages(&self) -> u32
        ensures value { result ≡ self.now.messages }
        ensures few { result ≤ MOST_ARMED }
    {
        self.messages
    }

    /// Of a `cancel` or a `reschedule_after`, its expressions aside.
    fn by_handle(&self) -> u32
        ensures { result ≡ HANDLE_COST + HANDLE_MESSAGE_COST * self.now.messages }
    {
        HANDLE_COST + HANDLE_MESSAGE_COST * self.messages
    }

    /// Of a spawn.
    fn spawn(&self, spawn: &Spawn) -> u32
        ensures { result ≡ cost.spawn_cost self.now (spawn_of spawn.now) }
    {
        match spawn {
            Spawn::Soon(_task, args, _at) => {
                capped_cost(SPAWN_COST.saturating_add(expressions_cost(args)))
            }
            Spawn::After(_word, delay, _task, args, _at) => {
                let queue = MESSAGE_COST.saturating_mul(self.messages);
                let own = SPAWN_AFTER_COST.saturating_add(queue);
                let delayed = own.saturating_add(expression_cost(delay));
                capped_cost(delayed.saturating_add(expressions_cost(args)))
            }
            Spawn::Cancel(_word, _task, handle, _at) => {
                capped_cost(self.by_handle().saturating_add(expression_cost(handle)))
            }
            Spawn::Move(_word, delay, _task, handle, _at) => {
                let delayed = self.by_handle().saturating_add(expression_cost(delay));
                capped_cost(delayed.saturating_add(expression_cost(handle)))
            }
        }
    }

    /// Of the binding of a variable to this value.
    fn bind(&self, value: &Value) -> u32
        ensures { result ≡ cost.bind_cost self.now (value_of value.now) }
    {
        match value {
            Value::Calc(expr) => capped_cost(expression_cost(expr).saturating_add(1)),
            Value::Now(_at) => 2,
            Value::Call(spawn) => capped_cost(self.spawn(spawn).saturating_add(1)),
        }
    }

    /// Of the blocks of a branch: of both where code is counted, else of the longer one.
    fn blocks(&self, first: u32, second: u32) -> u32
        ensures { result ≡ cost.capped_cost (cost.branch_cost self.now first second) }
    {
        if self.is_size {
            capped_cost(first.saturating_add(second))
        } else {
            capped_cost(first.max(second))
        }
    }

    /// Of a branch by this condition, to blocks of these sums.
    fn branch(&self, condition: &Expr, first: u32, second: u32) -> u32
        ensures { let test = cost.expression_cost (expression_of condition.now) in
            result ≡ cost.capped_cost (test + 2 + cost.branch_cost self.now first second) }
    {
        let test = expression_cost(condition).saturating_add(2);
        capped_cost(test.saturating_add(self.blocks(first, second)))
    }

    /// The turns of a loop from a number up to another, as they are counted.
    fn turns(&self, first: u32, last: u32) -> u32
        ensures { result ≡ cost.counted_turns self.now first last }
    {
        if self.is_size {
            1
        } else {
            last.saturating_sub(first)
        }
    }

    /// Of a loop from a number up to another, whose turn has a block of this sum.
    fn repeat(&self, first: u32, last: u32, turn: u32) -> u32
        ensures { result ≡ cost.capped_cost (LOOP_COST + cost.counted_turns self.now first last * (turn + TURN_COST)) }
    {
        let one = turn.saturating_add(TURN_COST);
        let all = self.turns(first, last).saturating_mul(one);
        capped_cost(LOOP_COST.saturating_add(all))
    }

    /// Of a statement.
    #[cycle(block)]
    pub fn statement(&self, stmt: &Stmt) -> u32
        ensures { result ≡ cost.statement_cost self.now (statement_of stmt.now) }
    {
        match stmt {
            Stmt::Bind(_variable, value) => self.bind(value),
            Stmt::Assign(_atom, expr, _at) => capped_cost(expression_cost(expr).saturating_add(1)),
            Stmt::Branch(condition, first, second) => {
                self.branch(condition, self.block(first), self.block(second))
            }
            Stmt::Repeat(_variable, first, last, turn) => {
                self.repeat(*first, *last, self.block(turn))
            }
            Stmt::Locked(_resource, inner, _at) => lock_cost(self.block(inner)),
            Stmt::Emit(expr) => capped_cost(expression_cost(expr).saturating_add(1)),
            Stmt::Pend(_irq) => 1,
            Stmt::Call(spawn) => self.spawn(spawn),
        }
    }

    /// Of statements, one after the other.
    #[cycle(block)]
    fn block(&self, stmts: &[Stmt]) -> u32
        ensures { result ≡ cost.block_cost self.now (block_of stmts.now) }
    {
        let mut sum: u32 = 0;
        for stmt in stmts {
            sum = capped_cost(sum.saturating_add(self.statement(stmt)));
        }
        sum
    }

    /// Of a body, with its end.
    pub fn body(&self, body: &Body) -> u32
        ensures { result ≡ whole.body_cost self.now (body_of body.now) }
    {
        capped_cost(self.block(&body.block).saturating_add(1))
    }
}
