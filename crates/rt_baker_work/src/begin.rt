// How bodies begin.

ghost use Rattle.std.specs.Prelude.{◌≡◌, ◌+◌, ◌≤◌, ◌++◌, [], OnOk, option_map, replicate};
ghost use Rattle.rt_app.specs.Tree as tree;
ghost use Rattle.rt_app.specs.View.{statement_of, block_of, body_of, app_of};
ghost use Rattle.rt_app.specs.Variables.{variables, variables_in};
ghost use Rattle.rt_baker_work.specs.Store as store;
ghost use Rattle.rt_baker_work.specs.Todo.{enter_body, task_body};
ghost use Rattle.rt_baker_work.specs.Work.{Becomes};
ghost use Rattle.rt_baker_work.specs.Inside.Weights.{bodies_weight, weights};

use crate::message::Message;
use crate::work::Work;
use rt_app::{App, Body, Stmt};
use rt_ids::NoMemory;
use std::alloc::Global;

/// The variables that a statement brings in begin as 0.
#[cycle(zeros)]
fn statement_zeros(stmt: &Stmt, vars: &mut Vec<u32>) -> Result<(), NoMemory>
    ensures { OnOk result (vars.new.items ≡ vars.old.items ++ replicate (variables_in (statement_of stmt.now)) 0) }
{
    match stmt {
        Stmt::Bind(_variable, _bound) => {
            vars.push(0)?;
            Ok(())
        }
        Stmt::Assign(_atom, _expr, _at) => Ok(()),
        Stmt::Branch(_condition, first, second) => {
            zeros(first.as_slice(), vars)?;
            zeros(second.as_slice(), vars)?;
            Ok(())
        }
        Stmt::Repeat(_variable, _first, _last, turn) => {
            vars.push(0)?;
            zeros(turn.as_slice(), vars)?;
            Ok(())
        }
        Stmt::Locked(_resource, inner, _at) => {
            zeros(inner.as_slice(), vars)?;
            Ok(())
        }
        Stmt::Emit(_expr) => Ok(()),
        Stmt::Pend(_irq) => Ok(()),
        Stmt::Call(_call) => Ok(()),
    }
}

/// The variables that statements bring in begin as 0.
#[cycle(zeros)]
pub(crate) fn zeros(stmts: &[Stmt], vars: &mut Vec<u32>) -> Result<(), NoMemory>
    ensures { OnOk result (vars.new.items ≡ vars.old.items ++ replicate (variables (block_of stmts.now)) 0) }
{
    for stmt in stmts {
        statement_zeros(stmt, vars)?;
    }
    Ok(())
}

/// The body of a message's task begins, where it is declared.
pub(crate) fn begin<'a>(app: &'a App, message: Message, work: &mut Work<'a>) -> Result<(), NoMemory>
    ensures same { let app = app_of app.now in
        OnOk result ((s : store.Store) → Becomes app (enter_body app (task_body app message.task) message.args)
        work.old s work.new s) }
    ensures lighter { let app = app_of app.now in
        OnOk result (weights app work.new.todos ≤ weights app work.old.todos + bodies_weight app.tasks) }
{
    let number = message.task();
    match app.task(number) {
        None => Ok(()),
        Some(task) => {
            work.begin(task.body.block.as_slice(), message.into_args())?;
            Ok(())
        }
    }
}

/// A body without arguments begins, where it is declared.
pub fn begin_body<'a>(
    alloc: Global,
    body: &'a Option<Body>,
    work: &mut Work<'a>,
) -> Result<(), NoMemory>
    ensures { OnOk result ((app : tree.App) (s : store.Store) → Becomes app
        (enter_body app (option_map body_of body.now)
        []) work.old s work.new s) }
{
    match body {
        None => Ok(()),
        Some(body) => {
            work.begin(body.block.as_slice(), Vec::new(alloc))?;
            Ok(())
        }
    }
}
