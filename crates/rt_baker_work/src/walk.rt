// Goes on to the next thing that others can see.

ghost use Rattle.std.specs.Prelude.{◌≡◌, ◌+◌, ◌-◌, ◌<◌, ◌≤◌, ◌^◌, OnOk};
ghost use Rattle.rt_app.specs.View.{block_of, app_of};
ghost use Rattle.rt_app.specs.Meaning.{run_block};
ghost use Rattle.rt_baker_work.specs.Code.{IsCode};
ghost use Rattle.rt_baker_work.specs.Todo.{meaning};
ghost use Rattle.rt_baker_work.specs.Work.{Becomes, IsSettled};
ghost use Rattle.rt_baker_work.specs.Inside.Weights.{block_weight, weight, weights};

use crate::begin::begin;
use crate::code::Code;
use crate::dispatch::dispatch;
use crate::handles::{cancel, put_off, told_handle};
use crate::sending::place;
use crate::statement::{statement, turn};
use crate::store::Store;
use crate::timer::fire;
use crate::todo::Todo;
use crate::work::Work;
use rt_app::Stmt;
use rt_ids::NoMemory;

/// The first of these statements begins, where there is one.
fn block<'a>(
    code: &Code<'a>,
    stmts: &'a [Stmt],
    work: &mut Work<'a>,
    store: &mut Store,
) -> Result<(), NoMemory>
    requires { IsCode code.now }
    ensures same { OnOk result (Becomes (app_of code.now.app.now) (run_block (app_of code.now.app.now) (block_of
        stmts.now)) work.old store.old work.new store.new) }
    ensures lighter { let app = app_of code.now.app.now in
        OnOk result (weights app work.new.todos ≤ weights app work.old.todos
        + (block_weight (block_of stmts.now) - 1)) }
    ensures counts { OnOk result (store.new.timed ≡ store.old.timed) }
{
    match stmts.split_first() {
        None => Ok(()),
        Some((first, rest)) => {
            work.push(Todo::Run(rest))?;
            statement(code, first, work, store)?;
            Ok(())
        }
    }
}

/// A thing to do is done where nobody sees it, and is to be done next where others can.
fn take_up<'a>(
    code: &Code<'a>,
    todo: Todo<'a>,
    work: &mut Work<'a>,
    store: &mut Store,
) -> Result<(), NoMemory>
    requires code { IsCode code.now }
    requires room { store.old.timed.given < 2 ^ 32 }
    ensures same { OnOk result (Becomes (app_of code.now.app.now) (meaning (app_of code.now.app.now) todo.entry)
        work.old store.old work.new store.new) }
    ensures lighter { let app = app_of code.now.app.now in
        OnOk result (weights app work.new.todos ≤ weights app work.old.todos + (weight app todo.entry - 1)) }
    ensures counts { OnOk result (store.new.timed ≡ store.old.timed) }
{
    match todo {
        Todo::Run(stmts) => {
            block(code, stmts, work, store)?;
            Ok(())
        }
        Todo::Turns(variable, next, last, stmts) => {
            turn(code.app, variable, next, last, stmts, work, store)?;
            Ok(())
        }
        Todo::Set(variable, value) => {
            work.set(variable, value);
            Ok(())
        }
        Todo::Place(variable, delay, message) => {
            place(code, variable, delay, message, work, store)?;
            Ok(())
        }
        Todo::Dispatch(level) => {
            dispatch(code, level, work, store)?;
            Ok(())
        }
        Todo::Begin(message) => {
            begin(code.app, message, work)?;
            Ok(())
        }
        Todo::Due(time) => {
            fire(code, time, work, store)?;
            Ok(())
        }
        Todo::Handle(variable) => {
            told_handle(variable, work, store);
            Ok(())
        }
        Todo::Cancel(variable, task, handle) => {
            cancel(variable, task, handle, work, store)?;
            Ok(())
        }
        Todo::Move(variable, delay, task, handle) => {
            put_off(variable, delay, task, handle, work, store)?;
            Ok(())
        }
        Todo::Act(action) => {
            work.push(Todo::Act(action))?;
            Ok(())
        }
        Todo::Clock(reading) => {
            work.push(Todo::Clock(reading))?;
            Ok(())
        }
    }
}

/// What there is to do is done up to the next thing that others can see.
pub fn settle<'a>(code: &Code<'a>, work: &mut Work<'a>, store: &mut Store) -> Result<(), NoMemory>
    requires code { IsCode code.now }
    requires room { store.old.timed.given < 2 ^ 32 }
    ensures same { OnOk result (Becomes (app_of code.now.app.now) (λ later. later) work.old store.old work.new
        store.new) }
    ensures settled { OnOk result (IsSettled work.new.todos) }
{
    while let Some(todo) = work.pop() {
        if todo.is_seen() {
            work.push(todo)?;
            return Ok(());
        }
        take_up(code, todo, work, store)?;
    }
    Ok(())
}
