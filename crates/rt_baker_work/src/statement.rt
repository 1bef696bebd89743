// What a statement leaves to do.

ghost use Rattle.std.specs.Prelude.{◌≡◌, ◌==◌, if◌then◌else◌, ◌∷◌, [], ◌++◌, ◌+◌, ◌-◌, ◌*◌, ◌≤◌, OnOk, IfOk, map};
ghost use Rattle.rt_ids.specs.declared.ids.Section.TheVariants as section;
ghost use Rattle.rt_app.specs.declared.costs.TheConstants.{FREE_COST};
ghost use Rattle.rt_app.specs.View.{expression_of, spawn_of, value_of, statement_of, block_of, app_of};
ghost use Rattle.rt_app.specs.Meaning.{value_in, bind, assign, turns_from, run, run_block};
ghost use Rattle.rt_baker_work.specs.Code.{IsCode};
ghost use Rattle.rt_baker_work.specs.Store.{contents};
ghost use Rattle.rt_baker_work.specs.Work.{Becomes};
ghost use Rattle.rt_baker_work.specs.Inside.Pushes.{make_spawn};
ghost use Rattle.rt_baker_work.specs.Inside.Weights.{block_weight, statement_weight, weights};

use crate::action::Action;
use crate::code::Code;
use crate::lookup::number;
use crate::message::Message;
use crate::store::Store;
use crate::todo::{Reading, Todo};
use crate::value::value;
use crate::work::Work;
use rt_app::costs::FREE_COST;
use rt_app::{App, Atom, Expr, Spawn, Stmt, Value};
use rt_ids::{NoMemory, ResId, Section, TaskId};
use std::alloc::Global;

/// The values of expressions.
fn values(alloc: Global, exprs: &[Expr], vars: &[u32], store: &Store) -> Result<Vec<u32>, NoMemory>
    ensures { IfOk result (λ v. v.items ≡ map (value_in vars.now (contents store.now)) (map expression_of exprs.now)) }
{
    let mut values = Vec::new(alloc);
    for expr in exprs {
        values.push(value(expr, vars, store))?;
    }
    Ok(values)
}

/// A message to a task, with the values of these expressions.
fn message(
    alloc: Global,
    task: TaskId,
    args: &[Expr],
    vars: &[u32],
    store: &Store,
) -> Result<Message, NoMemory>
    ensures { IfOk result (λ m. m ≡ record {
      task = task;
      args = map (value_in vars.now (contents store.now)) (map
          expression_of args.now);
    }) }
{
    let carried = values(alloc, args, vars, store)?;
    Ok(Message {
        task,
        args: carried,
    })
}

/// The section of the places of a message's task is entered, to send the message.
fn ask<'a>(
    variable: Option<u16>,
    delay: Option<u32>,
    message: Message,
    work: &mut Work<'a>,
) -> Result<(), NoMemory>
    ensures { OnOk result (work.new ≡ record work.old {
      todos = work.old.todos ++ Todo.Place variable delay message
          ∷ Todo.Act (Action.Enter (section.Free message.task) FREE_COST) ∷ [];
    }) }
{
    let task = message.task;
    work.push(Todo::Place(variable, delay, message))?;
    work.push(Todo::Act(Action::Enter(Section::Free(task), FREE_COST)))?;
    Ok(())
}

/// The section of the armed messages is entered, to do this there by a handle.
fn address<'a>(code: &Code<'a>, todo: Todo<'a>, work: &mut Work<'a>) -> Result<(), NoMemory>
    ensures { OnOk result (work.new ≡ record work.old {
      todos = work.old.todos ++ todo.entry ∷ Todo.Act (Action.Enter section.Timer code.now.handle_section) ∷ [];
    }) }
{
    work.push(todo)?;
    work.push(Todo::Act(Action::Enter(Section::Timer, code.handle_section)))?;
    Ok(())
}

/// A spawn begins. A variable, where there is one, comes to hold what it gives.
fn spawn<'a>(
    code: &Code<'a>,
    spawn: &'a Spawn,
    variable: Option<u16>,
    work: &mut Work<'a>,
    store: &Store,
) -> Result<(), NoMemory>
    requires { IsCode code.now }
    ensures same { OnOk result (Becomes (app_of code.now.app.now)
        (make_spawn (app_of code.now.app.now) variable (spawn_of
        spawn.now)) work.old store.now work.new store.now) }
    ensures lighter { let app = app_of code.now.app.now in
        OnOk result (weights app work.new.todos ≤ weights app work.old.todos + 2) }
{
    match spawn {
        Spawn::Soon(task, args, _at) => {
            let sent = message(code.alloc, *task, args.as_slice(), work.vars(), store)?;
            ask(variable, None, sent, work)?;
            Ok(())
        }
        Spawn::After(_word, delay, task, args, _at) => {
            let ticks = value(delay, work.vars(), store);
            let sent = message(code.alloc, *task, args.as_slice(), work.vars(), store)?;
            ask(variable, Some(ticks), sent, work)?;
            Ok(())
        }
        Spawn::Cancel(_word, task, handle, _at) => {
            let told = value(handle, work.vars(), store);
            address(code, Todo::Cancel(variable, *task, told), work)?;
            Ok(())
        }
        Spawn::Move(_word, delay, task, handle, _at) => {
            let ticks = value(delay, work.vars(), store);
            let told = value(handle, work.vars(), store);
            address(code, Todo::Move(variable, ticks, *task, told), work)?;
            Ok(())
        }
    }
}

/// A variable is bound to a value.
fn bind<'a>(
    code: &Code<'a>,
    variable: u16,
    bound: &'a Value,
    work: &mut Work<'a>,
    store: &Store,
) -> Result<(), NoMemory>
    requires { IsCode code.now }
    ensures same { OnOk result (Becomes (app_of code.now.app.now) (bind (app_of code.now.app.now) variable (value_of
        bound.now)) work.old store.now work.new store.now) }
    ensures lighter { let app = app_of code.now.app.now in
        OnOk result (weights app work.new.todos ≤ weights app work.old.todos + 2) }
{
    match bound {
        Value::Calc(expr) => {
            let number = value(expr, work.vars(), store);
            work.set(variable, number);
            Ok(())
        }
        Value::Now(_at) => {
            work.push(Todo::Clock(Reading::Bind(variable)))?;
            Ok(())
        }
        Value::Call(call) => {
            spawn(code, call, Some(variable), work, store)?;
            Ok(())
        }
    }
}

/// A name comes to stand for a value.
fn assign<'a>(app: &App, atom: Atom, value: u32, work: &mut Work<'a>, store: &mut Store)
    ensures same { Becomes (app_of app.now) (assign atom value) work.old store.old work.new store.new }
    ensures lighter { weights (app_of app.now) work.new.todos ≤ weights (app_of app.now) work.old.todos }
    ensures counts { store.new.timed ≡ store.old.timed }
{
    match atom {
        Atom::Var(variable) => work.set(variable, value),
        Atom::Shared(resource) => store.set_shared(resource, value),
        Atom::Local(local) => store.set_local(local, value),
    }
}

/// A turn of a loop begins, or the loop is over. Its variable comes to hold the next number.
pub(crate) fn turn<'a>(
    app: &App,
    variable: u16,
    next: u32,
    last: u32,
    stmts: &'a [Stmt],
    work: &mut Work<'a>,
    store: &Store,
) -> Result<(), NoMemory>
    ensures same { OnOk result (Becomes (app_of app.now) (turns_from (last - next) variable next (run_block (app_of
        app.now) (block_of stmts.now))) work.old store.now work.new store.now) }
    ensures lighter { let app = app_of app.now in
        OnOk result (weights app work.new.todos ≤ weights app work.old.todos
        + (last - next) * (block_weight (block_of stmts.now) + 1)) }
{
    if next >= last {
        work.set(variable, next);
        return Ok(());
    }
    work.push(Todo::Turns(variable, next + 1, last, stmts))?;
    work.push(Todo::Run(stmts))?;
    work.set(variable, next);
    Ok(())
}

/// A section of a resource, which takes so many core steps at most, begins round statements.
fn lock<'a>(
    resource: ResId,
    inner: &'a [Stmt],
    cost: u32,
    work: &mut Work<'a>,
) -> Result<(), NoMemory>
    ensures { OnOk result (work.new ≡ record work.old {
      todos = work.old.todos ++ Todo.Act (Action.Leave
          (section.Res resource)) ∷ Todo.Run inner.entry ∷ Todo.Act (Action.Enter (section.Res resource) cost) ∷ [];
    }) }
{
    work.push(Todo::Act(Action::Leave(Section::Res(resource))))?;
    work.push(Todo::Run(inner))?;
    work.push(Todo::Act(Action::Enter(Section::Res(resource), cost)))?;
    Ok(())
}

/// The first block where the value is not 0, else the second.
fn branch<'a>(
    value: u32,
    first: &'a [Stmt],
    second: &'a [Stmt],
    work: &mut Work<'a>,
) -> Result<(), NoMemory>
    ensures { OnOk result (work.new ≡ record work.old {
      todos = work.old.todos ++ Todo.Run (if value == 0 then
          second.entry else first.entry) ∷ [];
    }) }
{
    if value == 0 {
        work.push(Todo::Run(second))?;
        return Ok(());
    }
    work.push(Todo::Run(first))?;
    Ok(())
}

/// A statement begins.
pub(crate) fn statement<'a>(
    code: &Code<'a>,
    stmt: &'a Stmt,
    work: &mut Work<'a>,
    store: &mut Store,
) -> Result<(), NoMemory>
    requires { IsCode code.now }
    ensures same { OnOk result (Becomes (app_of code.now.app.now) (run (app_of code.now.app.now) (statement_of
        stmt.now)) work.old store.old work.new store.new) }
    ensures lighter { let app = app_of code.now.app.now in
        OnOk result (weights app work.new.todos ≤ weights app work.old.todos + statement_weight (statement_of
        stmt.now)) }
    ensures counts { OnOk result (store.new.timed ≡ store.old.timed) }
{
    match stmt {
        Stmt::Bind(variable, bound) => {
            bind(code, *variable, bound, work, store)?;
            Ok(())
        }
        Stmt::Assign(atom, expr, _at) => {
            let assigned = value(expr, work.vars(), store);
            assign(code.app, *atom, assigned, work, store);
            Ok(())
        }
        Stmt::Branch(condition, first, second) => {
            let chosen = value(condition, work.vars(), store);
            branch(chosen, first.as_slice(), second.as_slice(), work)?;
            Ok(())
        }
        Stmt::Repeat(variable, first, last, stmts) => {
            work.push(Todo::Turns(*variable, *first, *last, stmts.as_slice()))?;
            Ok(())
        }
        Stmt::Locked(resource, inner, _at) => {
            lock(
                *resource,
                inner.as_slice(),
                code.measure.statement(stmt),
                work,
            )?;
            Ok(())
        }
        Stmt::Emit(expr) => {
            let emitted = value(expr, work.vars(), store);
            work.push(Todo::Act(Action::Emit(emitted)))?;
            Ok(())
        }
        Stmt::Pend(irq) => {
            work.push(Todo::Act(Action::Post(number(code.app, *irq))))?;
            Ok(())
        }
        Stmt::Call(call) => {
            spawn(code, call, None, work, store)?;
            Ok(())
        }
    }
}
