// Resolves the names of expressions and of spawns.

ghost use Rattle.std.specs.Prelude.{◌≡◌, ◌++◌, map, flat_map, IfOk, OnOk};
ghost use Rattle.rt_ast.specs.View as written;
ghost use Rattle.rt_app.specs.View as built;
ghost use Rattle.rt_resolve.specs.Scope as named;
ghost use Rattle.rt_resolve.specs.Resolving as meant;
ghost use Rattle.rt_resolve.specs.Misnamed as wrong;
ghost use Rattle.rt_resolve.specs.Inside.NamesView.{names_of, IsCounted};

use crate::faults::{number_or_fault, push_when};
use crate::lookup::{meaning, or_unknown_atom, task_named};
use crate::scope::Names;
use rt_app::{Atom, Violation};
use rt_ast::{Expr, Ident, Spawn, Value};
use rt_ids::{NoMemory, Rule, TaskId};
use std::alloc::Global;

/// What a name in an expression or an assignment stands for.
pub(crate) fn resolve_atom(
    faults: &mut Vec<Violation>,
    names: &Names,
    x: &Ident,
) -> Result<Atom, NoMemory>
    requires { IsCounted (names_of names.now).app }
    ensures atom { IfOk result (λ a. a ≡ named.atom_named (names_of names.now) x.now.name) }
    ensures faults { OnOk result (faults.new.items ≡
        faults.old.items ++ wrong.if_unknown (named.meaning (names_of names.now) x.now.name) x.now.at) }
{
    let found = meaning(names, x.name.bytes());
    push_when(faults, found.is_none(), Rule::UnknownName, x.at)?;
    Ok(or_unknown_atom(found))
}

/// An expression.
pub(crate) fn resolve_expression(
    alloc: Global,
    faults: &mut Vec<Violation>,
    names: &Names,
    expr: &Expr,
) -> Result<rt_app::Expr, NoMemory>
    requires { IsCounted (names_of names.now).app }
    ensures tree { IfOk result (λ e. built.expression_of e ≡
        meant.expression (names_of names.now) (written.expression_of expr.now)) }
    ensures faults { OnOk result (faults.new.items ≡
        faults.old.items ++ wrong.expression_faults (names_of names.now) (written.expression_of expr.now)) }
{
    match expr {
        Expr::Num(number) => Ok(rt_app::Expr::Num(*number)),
        Expr::Read(x) => {
            let atom = resolve_atom(faults, names, x)?;
            Ok(rt_app::Expr::Read(atom, x.at))
        }
        Expr::Oper(op, left, right) => {
            let left = resolve_expression(alloc, faults, names, left)?;
            let right = resolve_expression(alloc, faults, names, right)?;
            let left = Box::new(alloc, left)?;
            let right = Box::new(alloc, right)?;
            Ok(rt_app::Expr::Oper(*op, left, right))
        }
    }
}

/// Expressions, in order.
fn resolve_expressions(
    alloc: Global,
    faults: &mut Vec<Violation>,
    names: &Names,
    exprs: &[Expr],
) -> Result<Vec<rt_app::Expr>, NoMemory>
    requires { IsCounted (names_of names.now).app }
    ensures trees { IfOk result (λ es. map built.expression_of es.items ≡
        map (meant.expression (names_of names.now)) (map written.expression_of exprs.now)) }
    ensures faults { OnOk result (faults.new.items ≡ faults.old.items
        ++ flat_map (wrong.expression_faults (names_of names.now)) (map written.expression_of exprs.now)) }
{
    let mut resolved = Vec::new(alloc);
    for expr in exprs {
        resolved.push(resolve_expression(alloc, faults, names, expr)?)?;
    }
    Ok(resolved)
}

/// The index of a task.
fn resolve_task(faults: &mut Vec<Violation>, names: &Names, x: &Ident) -> Result<TaskId, NoMemory>
    requires { IsCounted (names_of names.now).app }
    ensures task { IfOk result (λ t. t ≡ named.or_unknown (named.task_named (names_of names.now).app x.now.name)) }
    ensures faults { OnOk result (faults.new.items ≡
        faults.old.items ++ wrong.if_unknown (named.task_named (names_of names.now).app x.now.name) x.now.at) }
{
    let number = number_or_fault(faults, task_named(names.app, x.name.bytes()), x.at)?;
    Ok(TaskId(number))
}

/// A spawn.
pub(crate) fn resolve_spawn(
    alloc: Global,
    faults: &mut Vec<Violation>,
    names: &Names,
    spawn: &Spawn,
) -> Result<rt_app::Spawn, NoMemory>
    requires { IsCounted (names_of names.now).app }
    ensures tree { IfOk result (λ s. built.spawn_of s ≡ meant.spawn (names_of names.now) (written.spawn_of spawn.now)) }
    ensures faults { OnOk result (faults.new.items ≡
        faults.old.items ++ wrong.spawn_faults (names_of names.now) (written.spawn_of spawn.now)) }
{
    match spawn {
        Spawn::Soon(x, args) => {
            let task = resolve_task(faults, names, x)?;
            let args = resolve_expressions(alloc, faults, names, args)?;
            Ok(rt_app::Spawn::Soon(task, args, x.at))
        }
        Spawn::After(word, delay, x, args) => {
            let delay = resolve_expression(alloc, faults, names, delay)?;
            let task = resolve_task(faults, names, x)?;
            let args = resolve_expressions(alloc, faults, names, args)?;
            Ok(rt_app::Spawn::After(*word, delay, task, args, x.at))
        }
        Spawn::Cancel(word, x, handle) => {
            let task = resolve_task(faults, names, x)?;
            let handle = resolve_expression(alloc, faults, names, handle)?;
            Ok(rt_app::Spawn::Cancel(*word, task, handle, x.at))
        }
        Spawn::Move(word, delay, x, handle) => {
            let delay = resolve_expression(alloc, faults, names, delay)?;
            let task = resolve_task(faults, names, x)?;
            let handle = resolve_expression(alloc, faults, names, handle)?;
            Ok(rt_app::Spawn::Move(*word, delay, task, handle, x.at))
        }
    }
}

/// What a variable is bound to.
pub(crate) fn resolve_value(
    alloc: Global,
    faults: &mut Vec<Violation>,
    names: &Names,
    value: &Value,
) -> Result<rt_app::Value, NoMemory>
    requires { IsCounted (names_of names.now).app }
    ensures tree { IfOk result (λ v. built.value_of v ≡ meant.value (names_of names.now) (written.value_of value.now)) }
    ensures faults { OnOk result (faults.new.items ≡
        faults.old.items ++ wrong.value_faults (names_of names.now) (written.value_of value.now)) }
{
    match value {
        Value::Calc(expr) => {
            let expr = resolve_expression(alloc, faults, names, expr)?;
            Ok(rt_app::Value::Calc(expr))
        }
        Value::Now(at) => Ok(rt_app::Value::Now(*at)),
        Value::Call(spawn) => {
            let spawn = resolve_spawn(alloc, faults, names, spawn)?;
            Ok(rt_app::Value::Call(spawn))
        }
    }
}
