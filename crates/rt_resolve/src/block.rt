// Resolves the names of statements, with the variables that are in scope there.

ghost use Rattle.std.specs.Prelude.{◌≡◌, ◌+◌, ◌≤◌, ◌++◌, IfOk, OnOk};
ghost use Rattle.rt_ast.specs.Tree as source;
ghost use Rattle.rt_ast.specs.View as written;
ghost use Rattle.rt_app.specs.View as built;
ghost use Rattle.rt_app.specs.Tree as tree;
ghost use Rattle.rt_resolve.specs.Scope as named;
ghost use Rattle.rt_resolve.specs.Resolving as meant;
ghost use Rattle.rt_resolve.specs.Misnamed as wrong;
ghost use Rattle.rt_resolve.specs.Inside.NamesView.{names_of, IsCounted};

use crate::expression::{resolve_atom, resolve_expression, resolve_spawn, resolve_value};
use crate::faults::{number_or_fault, push_when};
use crate::lookup::{irq_named, is_taken, shared_resource_named};
use crate::scope::Names;
use rt_app::Violation;
use rt_ast::{Expr, Ident, Stmt, Value};
use rt_ids::{NoMemory, ResId, Rule};
use std::alloc::Global;

/// Appends the fault of a variable whose name is taken.
pub(crate) fn push_if_taken(
    faults: &mut Vec<Violation>,
    names: &Names,
    x: &Ident,
) -> Result<(), NoMemory>
    requires { IsCounted (names_of names.now).app }
    ensures { OnOk result (faults.new.items ≡ faults.old.items ++ wrong.if_taken (names_of names.now) x.now) }
{
    push_when(
        faults,
        is_taken(names, x.name.bytes()),
        Rule::DeclaredTwice,
        x.at,
    )
}

/// The binding of the next variable, `next`.
fn resolve_bind<'a>(
    alloc: Global,
    faults: &mut Vec<Violation>,
    names: &mut Names<'a>,
    next: &mut u16,
    x: &'a Ident,
    value: &Value,
) -> Result<rt_app::Stmt, NoMemory>
    requires counted { IsCounted (names_of names.old).app }
    requires room { next.old + 1 ≤ 65535 }
    ensures tree { IfOk result (λ s. built.statement_of s ≡
        tree.Bind next.old (meant.value (names_of names.old) (written.value_of value.now))) }
    ensures faults { OnOk result (faults.new.items ≡
        faults.old.items ++ (wrong.value_faults (names_of names.old) (written.value_of value.now)
        ++ wrong.if_taken (names_of names.old) x.now)) }
    ensures names { OnOk result (names_of names.new ≡ named.with_variable (names_of names.old) x.now next.old) }
    ensures next { OnOk result (next.new ≡ next.old + 1) }
{
    let value = resolve_value(alloc, faults, names, value)?;
    push_if_taken(faults, names, x)?;
    let number = *next;
    *next += 1;
    names.variables.declare(x.name.bytes(), number)?;
    Ok(rt_app::Stmt::Bind(number, value))
}

/// An assignment.
fn resolve_assign(
    alloc: Global,
    faults: &mut Vec<Violation>,
    names: &Names,
    x: &Ident,
    expr: &Expr,
) -> Result<rt_app::Stmt, NoMemory>
    requires { IsCounted (names_of names.now).app }
    ensures tree { IfOk result (λ s. built.statement_of s ≡
        tree.Assign (named.atom_named (names_of names.now) x.now.name)
        (meant.expression (names_of names.now) (written.expression_of expr.now)) x.now.at) }
    ensures faults { OnOk result (faults.new.items ≡
        faults.old.items ++ (wrong.if_unknown (named.meaning (names_of names.now) x.now.name) x.now.at
        ++ wrong.expression_faults (names_of names.now) (written.expression_of expr.now))) }
{
    let atom = resolve_atom(faults, names, x)?;
    let expr = resolve_expression(alloc, faults, names, expr)?;
    Ok(rt_app::Stmt::Assign(atom, expr, x.at))
}

/// The pend of an interrupt.
fn resolve_pend(
    faults: &mut Vec<Violation>,
    names: &Names,
    x: &Ident,
) -> Result<rt_app::Stmt, NoMemory>
    requires { IsCounted (names_of names.now).app }
    ensures tree { IfOk result (λ s. built.statement_of s ≡
        tree.Pend (named.or_unknown (named.irq_named (names_of names.now).app x.now.name))) }
    ensures faults { OnOk result (faults.new.items ≡
        faults.old.items ++ wrong.if_unknown (named.irq_named (names_of names.now).app x.now.name) x.now.at) }
{
    let irq = number_or_fault(faults, irq_named(names.app, x.name.bytes()), x.at)?;
    Ok(rt_app::Stmt::Pend(irq))
}

/// A statement; `next` is the number of the next variable.
#[cycle(block)]
fn resolve_statement<'a>(
    alloc: Global,
    faults: &mut Vec<Violation>,
    names: &mut Names<'a>,
    next: &mut u16,
    stmt: &'a Stmt,
) -> Result<rt_app::Stmt, NoMemory>
    requires counted { IsCounted (names_of names.old).app }
    requires room { next.old + meant.binders_in (written.statement_of stmt.now) ≤ 65535 }
    ensures tree { IfOk result (λ s. built.statement_of s ≡
        meant.statement (names_of names.old) next.old (written.statement_of stmt.now)) }
    ensures faults { OnOk result (faults.new.items ≡
        faults.old.items ++ wrong.statement_faults (names_of names.old) next.old (written.statement_of stmt.now)) }
    ensures names { OnOk result (names_of names.new ≡
        meant.names_after (names_of names.old) next.old (written.statement_of stmt.now)) }
    ensures next { OnOk result (next.new ≡ next.old + meant.binders_in (written.statement_of stmt.now)) }
{
    match stmt {
        Stmt::Bind(x, value) => resolve_bind(alloc, faults, names, next, x, value),
        Stmt::Assign(x, expr) => resolve_assign(alloc, faults, names, x, expr),
        Stmt::Branch(condition, first, second) => {
            resolve_branch(alloc, faults, names, next, condition, first, second)
        }
        Stmt::Repeat(x, first, last, turn) => {
            resolve_repeat(alloc, faults, names, next, x, *first, *last, turn)
        }
        Stmt::Locked(x, inner) => resolve_lock(alloc, faults, names, next, x, inner),
        Stmt::Emit(expr) => {
            let expr = resolve_expression(alloc, faults, names, expr)?;
            Ok(rt_app::Stmt::Emit(expr))
        }
        Stmt::Pend(x) => resolve_pend(faults, names, x),
        Stmt::Call(spawn) => {
            let spawn = resolve_spawn(alloc, faults, names, spawn)?;
            Ok(rt_app::Stmt::Call(spawn))
        }
    }
}

/// The choice between two blocks; `next` is the number of the next variable.
#[cycle(block)]
fn resolve_branch<'a>(
    alloc: Global,
    faults: &mut Vec<Violation>,
    names: &mut Names<'a>,
    next: &mut u16,
    condition: &Expr,
    first: &'a [Stmt],
    second: &'a [Stmt],
) -> Result<rt_app::Stmt, NoMemory>
    requires counted { IsCounted (names_of names.old).app }
    requires room { next.old +
        (meant.binders (written.block_of first.now) + meant.binders (written.block_of second.now)) ≤ 65535 }
    ensures tree { IfOk result (λ s. built.statement_of s ≡
        meant.statement (names_of names.old) next.old (source.Branch (written.expression_of condition.now)
        (written.block_of first.now) (written.block_of second.now))) }
    ensures faults { OnOk result (faults.new.items ≡
        faults.old.items
        ++ wrong.statement_faults (names_of names.old) next.old (source.Branch (written.expression_of condition.now)
        (written.block_of first.now) (written.block_of second.now))) }
    ensures names { OnOk result (names_of names.new ≡ names_of names.old) }
    ensures next { OnOk result (next.new ≡
        next.old + (meant.binders (written.block_of first.now) + meant.binders (written.block_of second.now))) }
{
    let condition = resolve_expression(alloc, faults, names, condition)?;
    let first = resolve_block(alloc, faults, names, next, first)?;
    let second = resolve_block(alloc, faults, names, next, second)?;
    Ok(rt_app::Stmt::branch(condition, first, second))
}

/// A `for`; `next` is the number of its variable.
#[cycle(block)]
fn resolve_repeat<'a>(
    alloc: Global,
    faults: &mut Vec<Violation>,
    names: &mut Names<'a>,
    next: &mut u16,
    x: &'a Ident,
    first: u32,
    last: u32,
    turn: &'a [Stmt],
) -> Result<rt_app::Stmt, NoMemory>
    requires counted { IsCounted (names_of names.old).app }
    requires room { next.old + (1 + meant.binders (written.block_of turn.now)) ≤ 65535 }
    ensures tree { IfOk result (λ s. built.statement_of s ≡
        meant.statement (names_of names.old) next.old (source.Repeat x.now first last (written.block_of turn.now))) }
    ensures faults { OnOk result (faults.new.items ≡
        faults.old.items ++ wrong.statement_faults (names_of names.old) next.old
        (source.Repeat x.now first last (written.block_of turn.now))) }
    ensures names { OnOk result (names_of names.new ≡ names_of names.old) }
    ensures next { OnOk result (next.new ≡ next.old + (1 + meant.binders (written.block_of turn.now))) }
{
    push_if_taken(faults, names, x)?;
    let number = *next;
    *next += 1;
    let outer = names.variables.enter();
    names.variables.declare(x.name.bytes(), number)?;
    let turn = resolve_block(alloc, faults, names, next, turn)?;
    names.variables.leave(outer);
    Ok(rt_app::Stmt::repeat(number, first, last, turn))
}

/// A section; `next` is the number of the next variable.
#[cycle(block)]
fn resolve_lock<'a>(
    alloc: Global,
    faults: &mut Vec<Violation>,
    names: &mut Names<'a>,
    next: &mut u16,
    x: &Ident,
    inner: &'a [Stmt],
) -> Result<rt_app::Stmt, NoMemory>
    requires counted { IsCounted (names_of names.old).app }
    requires room { next.old + meant.binders (written.block_of inner.now) ≤ 65535 }
    ensures tree { IfOk result (λ s. built.statement_of s ≡
        meant.statement (names_of names.old) next.old (source.Locked x.now (written.block_of inner.now))) }
    ensures faults { OnOk result (faults.new.items ≡ faults.old.items
        ++ wrong.statement_faults (names_of names.old) next.old (source.Locked x.now (written.block_of inner.now))) }
    ensures names { OnOk result (names_of names.new ≡ names_of names.old) }
    ensures next { OnOk result (next.new ≡ next.old + meant.binders (written.block_of inner.now)) }
{
    let resource = number_or_fault(
        faults,
        shared_resource_named(names.app, x.name.bytes()),
        x.at,
    )?;
    let inner = resolve_block(alloc, faults, names, next, inner)?;
    Ok(rt_app::Stmt::lock(ResId(resource), inner, x.at))
}

/// The statements of a block, whose variables are in scope to its end; `next` is the number of the next variable.
#[cycle(block)]
pub(crate) fn resolve_block<'a>(
    alloc: Global,
    faults: &mut Vec<Violation>,
    names: &mut Names<'a>,
    next: &mut u16,
    stmts: &'a [Stmt],
) -> Result<Vec<rt_app::Stmt>, NoMemory>
    requires counted { IsCounted (names_of names.old).app }
    requires room { next.old + meant.binders (written.block_of stmts.now) ≤ 65535 }
    ensures tree { IfOk result (λ b. built.block_of b.items ≡
        meant.block (named.inside (names_of names.old)) next.old (written.block_of stmts.now)) }
    ensures faults { OnOk result (faults.new.items ≡ faults.old.items
        ++ wrong.block_faults (named.inside (names_of names.old)) next.old (written.block_of stmts.now)) }
    ensures names { OnOk result (names_of names.new ≡ names_of names.old) }
    ensures next { OnOk result (next.new ≡ next.old + meant.binders (written.block_of stmts.now)) }
{
    let outer = names.variables.enter();
    let mut block = Vec::new(alloc);
    for stmt in stmts {
        block.push(resolve_statement(alloc, faults, names, next, stmt)?)?;
    }
    names.variables.leave(outer);
    Ok(block)
}
