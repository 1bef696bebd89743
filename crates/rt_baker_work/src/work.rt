// What is left to do for a job, and the calls on it.

ghost use Rattle.std.specs.Prelude.{◌≡◌, ◌∷◌, [], ◌++◌, OnOk, slice_set, MatchOption, option_map, replicate};
ghost use Rattle.rt_app.specs.View.{block_of};
ghost use Rattle.rt_app.specs.Variables.{variables};
ghost use Rattle.rt_baker_work.specs.Work.{next_todo};

use crate::begin::zeros;
use crate::todo::Todo;
use rt_app::Stmt;
use rt_ids::NoMemory;
use std::alloc::Global;
use std::marker::Model;

/// What is left to do for a job. Contracts see the things to do, the next one last, and the variables.
#[derive(Drop)]
pub struct Work<'a> {
    todos: Vec<Todo<'a>>,
    vars: Vec<u32>,
}

impl<'a> Model for Work<'a> {
    ghost use Rattle.rt_baker_work.specs.Work.{Work};
    ghost use Rattle.rt_app.specs.contracts.stmt.Stmt as stmt;
    ghost use Rattle.std.specs.Coded.{codes};

    ghost Value = { Work };

    ghost coded = { Prim.hlevel (codes, stmt.the_row.coded) };

    ghost view = { λ w. record { todos = w.todos.items; vars = w.vars.items } };
}

impl<'a> Work<'a> {
    /// Nothing to do.
    pub fn new(alloc: Global) -> Work<'a>
        ensures { result ≡ record { todos = []; vars = [] } }
    {
        Work {
            todos: Vec::new(alloc),
            vars: Vec::new(alloc),
        }
    }

    /// Does a thing next.
    pub(crate) fn push(&mut self, todo: Todo<'a>) -> Result<(), NoMemory>
        ensures { OnOk result (self.new ≡ record self.old { todos = self.old.todos ++ todo.entry ∷ [] }) }
    {
        self.todos.push(todo)?;
        Ok(())
    }

    /// A body begins, with these arguments.
    pub fn begin(&mut self, block: &'a [Stmt], args: Vec<u32>) -> Result<(), NoMemory>
        ensures { OnOk result (self.new ≡ record {
          todos = self.old.todos ++ Todo.Run block.entry ∷ [];
          vars = args.items ++ replicate (variables (block_of block.entry.now)) 0;
        }) }
    {
        self.vars = args;
        zeros(block, &mut self.vars)?;
        self.todos.push(Todo::Run(block))?;
        Ok(())
    }

    /// Takes the next thing.
    pub fn pop(&mut self) -> Option<Todo<'a>>
        ensures { MatchOption result ((self.old.todos ≡ []) × (self.new ≡ self.old)) (λ todo. self.old ≡ record
            self.new { todos = self.new.todos ++ todo ∷ [] }) }
    {
        self.todos.pop()
    }

    /// The next thing, where there is one.
    pub fn next(&self) -> Option<&Todo<'a>>
        ensures { option_map (λ todo. todo.now) result ≡ next_todo self.now.todos }
    {
        self.todos.last()
    }

    /// The variables of the body.
    pub(crate) fn vars(&self) -> &[u32]
        ensures { result.now ≡ self.now.vars }
    {
        self.vars.as_slice()
    }

    /// A variable comes to hold a number.
    pub(crate) fn set(&mut self, variable: u16, value: u32)
        ensures { self.new ≡ record self.old { vars = slice_set self.old.vars variable value } }
    {
        let index = usize::from(variable);
        if index < self.vars.len() {
            self.vars[index] = value;
        }
    }
}
