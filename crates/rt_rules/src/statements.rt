// The rules on statements: locks, writes, spawns.

#![tactic(auto, using(crate::proofs::Fold::first_of_append))]

ghost use Rattle.std.specs.Prelude.{◌≡◌, [], ◌++◌, flat_map, map, is_none, OnOk};
ghost use Rattle.rt_app.specs.View.{app_of, expression_of, spawn_of, value_of, statement_of, block_of};
ghost use Rattle.rt_app.specs.Use.{Reads, Writes, Locks, reads, spawn_uses};
ghost use Rattle.rt_app.specs.Use.{value_uses};
ghost use Rattle.rt_app.specs.Use.{statement_uses, uses};
ghost use Rattle.rt_app.specs.Bodies.{members};
ghost use Rattle.rt_app.specs.Statements.{is_bad_spawn, is_bad_message, use_breaks, breaks};
ghost use Rattle.rt_app.specs.Violation.{when};
ghost use Rattle.rt_ids.specs.declared.rule.Rule.TheVariants as rule;
ghost use Rattle.rt_rules.specs.Inside.First.{first_of};
ghost use Rattle.rt_rules.specs.Inside.Locked.{locked_resources};
ghost use Rattle.rt_rules.specs.Inside.Uses.{first_use};
ghost use Rattle.rt_rules.specs.Inside.View.{member_of};

use crate::first::First;
use crate::judge::{Judge, is_inside_itself};
use crate::locked::Locked;
use crate::member::Member;
use rt_app::{App, Atom, Expr, Spawn, Stmt, Value};
use rt_ids::{NoMemory, ResId, Rule, TaskId};
use std::alloc::Global;

/// Offers a read of a shared resource outside its lock.
fn judge_read(first: &mut First, judge: &Judge<'_>, locked: &Locked<'_>, atom: &Atom, at: u32)
    ensures { first.new ≡ first_of first.old
        (use_breaks (app_of judge.now.app.now) (member_of judge.now.member) (locked_resources locked.now)
        (Reads atom.now at)) }
{
    first.offer_when(judge.is_outside(locked, atom), Rule::OutsideLock, at);
}

/// Offers a write of a shared resource outside its lock, or of what can only be read.
fn judge_write(first: &mut First, judge: &Judge<'_>, locked: &Locked<'_>, atom: &Atom, at: u32)
    ensures { first.new ≡ first_of first.old
        (use_breaks (app_of judge.now.app.now) (member_of judge.now.member) (locked_resources locked.now)
        (Writes atom.now at)) }
{
    first.offer_when(judge.is_outside(locked, atom), Rule::OutsideLock, at);
    first.offer_when(judge.is_fixed(atom), Rule::NotWritable, at);
}

/// Offers a lock that is not the body's to take, or inside one of the same resource.
fn judge_lock(first: &mut First, judge: &Judge<'_>, locked: &Locked<'_>, resource: ResId, at: u32)
    ensures { first.new ≡ first_of first.old
        (use_breaks (app_of judge.now.app.now) (member_of judge.now.member) (locked_resources locked.now)
        (Locks resource at)) }
{
    first.offer_when(judge.is_misplaced_lock(resource), Rule::OutsideLock, at);
    first.offer_when(
        is_inside_itself(locked, resource),
        Rule::LockedInsideItself,
        at,
    );
}

/// Offers a spawn that its task does not take.
fn judge_target(first: &mut First, judge: &Judge<'_>, task: TaskId, args: &[Expr], at: u32)
    ensures { first.new ≡ first_of first.old
        (when (is_bad_spawn (app_of judge.now.app.now) task (map expression_of args.now)) rule.NotSoftware at) }
{
    first.offer_when(judge.is_bad_spawn(task, args), Rule::NotSoftware, at);
}

/// Offers a word that goes to a message by its handle: one without a monotonic, and one of a hardware task.
fn judge_message(first: &mut First, judge: &Judge<'_>, word: u32, task: TaskId, at: u32)
    ensures { first.new ≡ first_of first.old
        (when (is_none (app_of judge.now.app.now).mono) rule.NoMonotonic word
        ++ when (is_bad_message (app_of judge.now.app.now) task) rule.NotSoftware at) }
{
    first.offer_when(judge.is_timeless(), Rule::NoMonotonic, word);
    first.offer_when(judge.is_bad_message(task), Rule::NotSoftware, at);
}

/// Offers the uses of an expression.
fn judge_expression(first: &mut First, judge: &Judge<'_>, locked: &Locked<'_>, expr: &Expr)
    ensures { first.new ≡ first_use (app_of judge.now.app.now) (member_of judge.now.member) first.old
        (reads (locked_resources locked.now) (expression_of expr.now)) }
{
    match expr {
        Expr::Num(_) => {}
        Expr::Read(atom, at) => judge_read(first, judge, locked, atom, *at),
        Expr::Oper(_, left, right) => {
            judge_expression(first, judge, locked, left);
            judge_expression(first, judge, locked, right);
        }
    }
}

/// Offers the uses of expressions.
fn judge_expressions(first: &mut First, judge: &Judge<'_>, locked: &Locked<'_>, exprs: &[Expr])
    ensures { first.new ≡ first_use (app_of judge.now.app.now) (member_of judge.now.member) first.old
        (flat_map (reads (locked_resources locked.now)) (map expression_of exprs.now)) }
{
    for expr in exprs {
        judge_expression(first, judge, locked, expr);
    }
}

/// Offers the uses of a spawn.
fn judge_spawn(first: &mut First, judge: &Judge<'_>, locked: &Locked<'_>, spawn: &Spawn)
    ensures { first.new ≡ first_use (app_of judge.now.app.now) (member_of judge.now.member) first.old
        (spawn_uses (locked_resources locked.now) (spawn_of spawn.now)) }
{
    match spawn {
        Spawn::Soon(task, args, at) => {
            judge_target(first, judge, *task, args, *at);
            judge_expressions(first, judge, locked, args);
        }
        Spawn::After(word, delay, task, args, at) => {
            first.offer_when(judge.is_timeless(), Rule::NoMonotonic, *word);
            judge_target(first, judge, *task, args, *at);
            judge_expression(first, judge, locked, delay);
            judge_expressions(first, judge, locked, args);
        }
        Spawn::Cancel(word, task, handle, at) => {
            judge_message(first, judge, *word, *task, *at);
            judge_expression(first, judge, locked, handle);
        }
        Spawn::Move(word, delay, task, handle, at) => {
            judge_message(first, judge, *word, *task, *at);
            judge_expression(first, judge, locked, delay);
            judge_expression(first, judge, locked, handle);
        }
    }
}

/// Offers the uses of what a variable is bound to.
fn judge_value(first: &mut First, judge: &Judge<'_>, locked: &Locked<'_>, value: &Value)
    ensures { first.new ≡ first_use (app_of judge.now.app.now) (member_of judge.now.member) first.old
        (value_uses (locked_resources locked.now) (value_of value.now)) }
{
    match value {
        Value::Calc(expr) => judge_expression(first, judge, locked, expr),
        Value::Now(at) => first.offer_when(judge.is_timeless(), Rule::NoMonotonic, *at),
        Value::Call(spawn) => judge_spawn(first, judge, locked, spawn),
    }
}

/// Offers the uses of a statement.
#[cycle(block)]
fn judge_statement(first: &mut First, judge: &Judge<'_>, locked: &Locked<'_>, stmt: &Stmt)
    ensures { first.new ≡ first_use (app_of judge.now.app.now) (member_of judge.now.member) first.old
        (statement_uses (locked_resources locked.now) (statement_of stmt.now)) }
{
    match stmt {
        Stmt::Bind(_variable, value) => judge_value(first, judge, locked, value),
        Stmt::Assign(atom, expr, at) => {
            judge_write(first, judge, locked, atom, *at);
            judge_expression(first, judge, locked, expr);
        }
        Stmt::Branch(condition, yes, no) => {
            judge_expression(first, judge, locked, condition);
            judge_block(first, judge, locked, yes);
            judge_block(first, judge, locked, no);
        }
        Stmt::Repeat(_variable, _first, _last, turn) => judge_block(first, judge, locked, turn),
        Stmt::Locked(resource, inner, at) => {
            judge_lock(first, judge, locked, *resource, *at);
            judge_block(first, judge, &Locked::Inside(*resource, &*locked), inner);
        }
        Stmt::Emit(expr) => judge_expression(first, judge, locked, expr),
        Stmt::Pend(_irq) => {}
        Stmt::Call(spawn) => judge_spawn(first, judge, locked, spawn),
    }
}

/// Offers the uses of a block.
#[cycle(block)]
fn judge_block(first: &mut First, judge: &Judge<'_>, locked: &Locked<'_>, stmts: &[Stmt])
    ensures { first.new ≡ first_use (app_of judge.now.app.now) (member_of judge.now.member) first.old
        (uses (locked_resources locked.now) (block_of stmts.now)) }
{
    for stmt in stmts {
        judge_statement(first, judge, locked, stmt);
    }
}

/// Offers what the statements of a body break.
fn judge_body(
    alloc: Global,
    first: &mut First,
    app: &App,
    member: &Member<'_>,
) -> Result<(), NoMemory>
    ensures { OnOk result (first.new
        ≡ first_of first.old (flat_map (breaks (app_of app.now) (member_of member.now))
        (uses [] (block_of member.now.body.now.block.items)))) }
{
    let judge = Judge::of(alloc, app, member)?;
    judge_block(first, &judge, &Locked::Nothing, &member.body.block);
    Ok(())
}

/// Offers what the statements of bodies break.
pub(crate) fn judge_statements(
    alloc: Global,
    first: &mut First,
    app: &App,
    members: &[Member<'_>],
) -> Result<(), NoMemory>
    ensures { OnOk result (first.new
        ≡ first_of first.old (flat_map (λ m. flat_map (breaks (app_of app.now) m) (uses [] m.body.block))
        (map member_of members.now))) }
{
    for member in members {
        judge_body(alloc, first, app, member)?;
    }
    Ok(())
}
