// Prints statements and blocks.

ghost use Rattle.std.specs.Prelude.{◌≡◌, ◌++◌, codes, map, IfOk, OnOk};
ghost use Rattle.rt_ast.specs.View.{expression_of, spawn_of, value_of, statement_of, block_of};
ghost use Rattle.rt_ast.specs.CanonicalExpression.{name_text, expression_text};
ghost use Rattle.rt_ast.specs.CanonicalBlock.{deeper, call_text, spawn_text, value_text, statement_text, block_text};
ghost use Rattle.rt_ast.specs.CanonicalBlock.{else_text, lines_text, branch_head, repeat_head, lock_head};

use crate::expr::push_expression;
use crate::list::push_expressions;
use crate::text::push_name;
use rt_ast::{Expr, Ident, Spawn, Stmt, Value};
use rt_ids::{NoMemory, push_bytes, push_number};
use std::alloc::Global;

/// Appends a task and its arguments.
fn push_call(out: &mut Vec<u8>, task: &Ident, args: &[Expr]) -> Result<(), NoMemory>
    ensures { OnOk result (out.new.items ≡ out.old.items ++ call_text task.now (map expression_of args.now)) }
{
    push_name(out, task)?;
    push_bytes(out, b"(")?;
    push_expressions(out, args)?;
    push_bytes(out, b")")
}

/// Appends a word with an open parenthesis, and a delay after it.
fn push_delay(out: &mut Vec<u8>, word: &[u8], delay: &Expr) -> Result<(), NoMemory>
    ensures { OnOk result (out.new.items
        ≡ out.old.items ++ (word.now ++ expression_text (expression_of delay.now) ++ codes ") ")) }
{
    push_bytes(out, word)?;
    push_expression(out, delay)?;
    push_bytes(out, b") ")
}

/// Appends a task and the handle of a message of it.
fn push_handle(out: &mut Vec<u8>, task: &Ident, handle: &Expr) -> Result<(), NoMemory>
    ensures { OnOk result (out.new.items
        ≡ out.old.items ++ (name_text task.now ++ codes "(" ++ expression_text (expression_of handle.now)
        ++ codes ")")) }
{
    push_name(out, task)?;
    push_bytes(out, b"(")?;
    push_expression(out, handle)?;
    push_bytes(out, b")")
}

/// Appends a spawn, or what its handle takes back or puts off, without the semicolon.
fn push_spawn(out: &mut Vec<u8>, spawn: &Spawn) -> Result<(), NoMemory>
    ensures { OnOk result (out.new.items ≡ out.old.items ++ spawn_text (spawn_of spawn.now)) }
{
    match spawn {
        Spawn::Soon(task, args) => {
            push_bytes(out, b"spawn ")?;
            push_call(out, task, args)
        }
        Spawn::After(_at, delay, task, args) => {
            push_delay(out, b"spawn_after(", delay)?;
            push_call(out, task, args)
        }
        Spawn::Cancel(_at, task, handle) => {
            push_bytes(out, b"cancel ")?;
            push_handle(out, task, handle)
        }
        Spawn::Move(_at, delay, task, handle) => {
            push_delay(out, b"reschedule_after(", delay)?;
            push_handle(out, task, handle)
        }
    }
}

/// Appends what a variable is bound to.
fn push_value(out: &mut Vec<u8>, value: &Value) -> Result<(), NoMemory>
    ensures { OnOk result (out.new.items ≡ out.old.items ++ value_text (value_of value.now)) }
{
    match value {
        Value::Calc(expr) => push_expression(out, expr),
        Value::Now(_at) => push_bytes(out, b"now"),
        Value::Call(spawn) => push_spawn(out, spawn),
    }
}

/// The margin of what a block of this margin holds.
fn deeper_margin(alloc: Global, margin: &[u8]) -> Result<Vec<u8>, NoMemory>
    ensures { IfOk result (λ within. within.items ≡ deeper margin.now) }
{
    let mut within = Vec::from_slice(alloc, margin)?;
    push_bytes(&mut within, b"    ")?;
    Ok(within)
}

/// Appends the binding of a variable.
fn push_bind(out: &mut Vec<u8>, name: &Ident, value: &Value) -> Result<(), NoMemory>
    ensures { OnOk result (out.new.items
        ≡ out.old.items ++ (codes "let " ++ name_text name.now ++ codes " = " ++ value_text (value_of value.now)
        ++ codes ";")) }
{
    push_bytes(out, b"let ")?;
    push_name(out, name)?;
    push_bytes(out, b" = ")?;
    push_value(out, value)?;
    push_bytes(out, b";")
}

/// Appends an assignment.
fn push_assign(out: &mut Vec<u8>, name: &Ident, expr: &Expr) -> Result<(), NoMemory>
    ensures { OnOk result (out.new.items
        ≡ out.old.items ++ (name_text name.now ++ codes " = " ++ expression_text (expression_of expr.now)
        ++ codes ";")) }
{
    push_name(out, name)?;
    push_bytes(out, b" = ")?;
    push_expression(out, expr)?;
    push_bytes(out, b";")
}

/// Appends the emission of a value.
fn push_emit(out: &mut Vec<u8>, expr: &Expr) -> Result<(), NoMemory>
    ensures { OnOk result (out.new.items
        ≡ out.old.items ++ (codes "emit " ++ expression_text (expression_of expr.now) ++ codes ";")) }
{
    push_bytes(out, b"emit ")?;
    push_expression(out, expr)?;
    push_bytes(out, b";")
}

/// Appends the head of a branch.
fn push_if(out: &mut Vec<u8>, cond: &Expr) -> Result<(), NoMemory>
    ensures { OnOk result (out.new.items ≡ out.old.items ++ branch_head (expression_of cond.now)) }
{
    push_bytes(out, b"if ")?;
    push_expression(out, cond)?;
    push_bytes(out, b" ")
}

/// Appends the head of a `for`.
fn push_repeat(out: &mut Vec<u8>, name: &Ident, first: u32, last: u32) -> Result<(), NoMemory>
    ensures { OnOk result (out.new.items ≡ out.old.items ++ repeat_head name.now first last) }
{
    push_bytes(out, b"for ")?;
    push_name(out, name)?;
    push_bytes(out, b" in ")?;
    push_number(out, first)?;
    push_bytes(out, b"..")?;
    push_number(out, last)?;
    push_bytes(out, b" ")
}

/// Appends the head of a `lock`.
fn push_lock(out: &mut Vec<u8>, name: &Ident) -> Result<(), NoMemory>
    ensures { OnOk result (out.new.items ≡ out.old.items ++ lock_head name.now) }
{
    push_bytes(out, b"lock ")?;
    push_name(out, name)?;
    push_bytes(out, b" ")
}

/// Appends a statement with this margin.
#[cycle(block)]
fn push_statement(
    alloc: Global,
    out: &mut Vec<u8>,
    margin: &[u8],
    stmt: &Stmt,
) -> Result<(), NoMemory>
    ensures { OnOk result (out.new.items ≡ out.old.items ++ statement_text margin.now (statement_of stmt.now)) }
{
    match stmt {
        Stmt::Bind(name, value) => push_bind(out, name, value),
        Stmt::Assign(name, expr) => push_assign(out, name, expr),
        Stmt::Branch(cond, first, second) => {
            push_if(out, cond)?;
            push_block(alloc, out, margin, first)?;
            push_else(alloc, out, margin, second)
        }
        Stmt::Repeat(name, first, last, turn) => {
            push_repeat(out, name, *first, *last)?;
            push_block(alloc, out, margin, turn)
        }
        Stmt::Locked(name, inner) => {
            push_lock(out, name)?;
            push_block(alloc, out, margin, inner)
        }
        Stmt::Emit(expr) => push_emit(out, expr),
        Stmt::Pend(irq) => {
            push_bytes(out, b"pend ")?;
            push_name(out, irq)?;
            push_bytes(out, b";")
        }
        Stmt::Call(spawn) => {
            push_spawn(out, spawn)?;
            push_bytes(out, b";")
        }
    }
}

/// Appends a block in braces, the closing one after this margin.
#[cycle(block)]
pub(crate) fn push_block(
    alloc: Global,
    out: &mut Vec<u8>,
    margin: &[u8],
    stmts: &[Stmt],
) -> Result<(), NoMemory>
    ensures { OnOk result (out.new.items ≡ out.old.items ++ block_text margin.now (block_of stmts.now)) }
{
    if stmts.is_empty() {
        return push_bytes(out, b"{}");
    }
    let within = deeper_margin(alloc, margin)?;
    push_bytes(out, b"{\n")?;
    push_lines(alloc, out, &within, stmts)?;
    push_bytes(out, margin)?;
    push_bytes(out, b"}")
}

/// Appends the second block of a branch, where it is not empty.
#[cycle(block)]
fn push_else(
    alloc: Global,
    out: &mut Vec<u8>,
    margin: &[u8],
    stmts: &[Stmt],
) -> Result<(), NoMemory>
    ensures { OnOk result (out.new.items ≡ out.old.items ++ else_text margin.now (block_of stmts.now)) }
{
    if stmts.is_empty() {
        return Ok(());
    }
    push_bytes(out, b" else ")?;
    push_block(alloc, out, margin, stmts)
}

/// Appends statements, a line each after this margin.
#[cycle(block)]
fn push_lines(
    alloc: Global,
    out: &mut Vec<u8>,
    margin: &[u8],
    stmts: &[Stmt],
) -> Result<(), NoMemory>
    ensures { OnOk result (out.new.items ≡ out.old.items ++ lines_text margin.now (block_of stmts.now)) }
{
    for stmt in stmts {
        push_bytes(out, margin)?;
        push_statement(alloc, out, margin, stmt)?;
        push_bytes(out, b"\n")?;
    }
    Ok(())
}
