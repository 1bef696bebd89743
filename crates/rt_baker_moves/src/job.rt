// A started job.

ghost use Rattle.std.specs.Prelude.{◌≡◌, ◌-◌, [], OnOk, MatchOption, map};
ghost use Rattle.rt_actions.specs.Action.{Clocks};
ghost use Rattle.rt_app.specs.View.{app_of};
ghost use Rattle.rt_baker_work.specs.Actions.{action_of};
ghost use Rattle.rt_baker_work.specs.Code.{IsCode};
ghost use Rattle.rt_baker_work.specs.Store.{MayTakeOne};
ghost use Rattle.rt_baker_moves.specs.Job.{role_of};
ghost use Rattle.rt_baker_moves.specs.Inside.Acts.{kept_after_action, IsPerformed};
ghost use Rattle.rt_baker_moves.specs.Inside.Moves.{kept_after_steps, with_next};

use rt_baker_work::store::drop_first;
use rt_baker_work::walk::settle;
use rt_baker_work::{Action, Code, Store, Todo, Work};
use rt_ids::{NoMemory, Section};
use std::alloc::Global;
use std::marker::Model;

/// Who a job is: the handling of the interrupt of this number, or the thread.
#[derive(Clone, Copy)]
pub(crate) enum Role {
    Init,
    Idle,
    /// `idle` is absent.
    Waiting,
    Serving(u16),
}

/// A started job.
#[derive(Drop)]
pub(crate) struct Job<'a> {
    pub(crate) role: Role,
    pub(crate) priority: u32,
    pub(crate) work: Work<'a>,
    /// The core steps that its body or handler has left.
    pub(crate) left: u64,
    /// The open sections, innermost first.
    pub(crate) sections: Vec<Section>,
    /// The core steps that each has left.
    pub(crate) lefts: Vec<u64>,
}

impl<'a> Model for Job<'a> {
    ghost use Rattle.rt_baker_moves.specs.Job.{AuditorJob, role_of};
    ghost use Rattle.rt_app.specs.contracts.stmt.Stmt as stmt;
    ghost use Rattle.std.specs.Coded.{codes};

    ghost Value = { AuditorJob };

    ghost coded = { Prim.hlevel (codes, stmt.the_row.coded) };

    ghost view = { λ j. record {
      role = role_of j.role;
      priority = j.priority;
      work = j.work;
      left = j.left;
      sections = j.sections.items;
      lefts = j.lefts.items;
    } };
}

/// So much is taken from each of these numbers, down to 0.
fn lessen(numbers: &mut Vec<u64>, by: u64)
    ensures { numbers.new.items ≡ map (λ n. n - by) numbers.old.items }
{
    for i in 0..numbers.len() {
        numbers[i] = numbers[i].saturating_sub(by);
    }
}

impl<'a> Job<'a> {
    /// A job as it begins, which may take so many core steps.
    pub(crate) fn new(
        alloc: Global,
        role: Role,
        priority: u32,
        left: u64,
        work: Work<'a>,
    ) -> Job<'a>
        ensures { result ≡ record {
          role = role_of role;
          priority = priority;
          work = work.entry;
          left = left;
          sections = [];
          lefts = [];
        } }
    {
        Job {
            role,
            priority,
            work,
            left,
            sections: Vec::new(alloc),
            lefts: Vec::new(alloc),
        }
    }

    /// So many core steps are spent.
    pub(crate) fn spend(&mut self, steps: u64)
        ensures { self.new ≡ kept_after_steps steps self.old }
    {
        self.left = self.left.saturating_sub(steps);
        lessen(&mut self.lefts, steps);
    }

    /// Takes the next thing to do off its work.
    pub(crate) fn next(&mut self) -> Option<Todo<'a>>
        ensures { MatchOption result ((self.old.work.todos ≡ []) × (self.new ≡ self.old)) (λ todo. self.old ≡ with_next
            todo self.new) }
    {
        self.work.pop()
    }

    /// An action takes a step, and opens or closes a section.
    fn track(&mut self, action: &Action) -> Result<(), NoMemory>
        ensures { OnOk result (self.new ≡ kept_after_action (action_of action.now) self.old) }
    {
        self.spend(1);
        match action {
            Action::Enter(section, cost) => {
                self.sections.insert(0, *section)?;
                self.lefts.insert(0, u64::from(*cost).saturating_sub(1))?;
                Ok(())
            }
            Action::Leave(_section) => {
                drop_first(&mut self.sections);
                drop_first(&mut self.lefts);
                Ok(())
            }
            _other => Ok(()),
        }
    }

    /// The job does an action of its work, and goes on as far as its next.
    pub(crate) fn perform(
        &mut self,
        code: &Code<'a>,
        action: Action,
        store: &mut Store,
    ) -> Result<(), NoMemory>
        requires code { IsCode code.now }
        requires room { MayTakeOne store.old }
        ensures { OnOk result (IsPerformed (app_of code.now.app.now) (action_of action) self.old store.old self.new
            store.new) }
    {
        self.track(&action)?;
        store.effect(action)?;
        settle(code, &mut self.work, store)?;
        Ok(())
    }

    /// The job has read the clock, and goes on as far as its next action.
    pub(crate) fn pass(&mut self, code: &Code<'a>, store: &mut Store) -> Result<(), NoMemory>
        requires code { IsCode code.now }
        requires room { MayTakeOne store.old }
        ensures { OnOk result (IsPerformed (app_of code.now.app.now) Clocks self.old store.old self.new store.new) }
    {
        self.spend(1);
        settle(code, &mut self.work, store)?;
        Ok(())
    }
}
