// A judge that keeps no item: it hears them one after another.

ghost use Rattle.std.specs.Prelude.{◌≡◌, ◌++◌, ◌∷◌, [], List, OnOk, IfOk, length};
ghost use Rattle.rt_trace.specs.declared.item.Item as traced;
ghost use Rattle.rt_app.specs.Stack as stack;
ghost use Rattle.rt_app.specs.Tree.{App};
ghost use Rattle.rt_app.specs.View.{app_of};
ghost use Rattle.rt_baker_moves.specs.Machine.{IsMachine};
ghost use Rattle.rt_baker.specs.Audit.{IsVerdict};
ghost use Rattle.rt_baker.specs.Judge.{HasJudged, MayTake};

use crate::done::Done;
use crate::items::{judge_item, judge_total};
use crate::verdict::Verdict;
use rt_baker_moves::{Machine, State};
use rt_frames::bounds;
use rt_ids::NoMemory;
use rt_trace::Item;

/// Baker's machine on the items of a trace, one after another. It keeps no item, so a trace can be judged while it is
/// read.
#[derive(Drop)]
pub struct Judge<'a> {
    /// The state after the items that are right.
    state: State<'a>,
    /// The bytes of the stack.
    stack: u32,
    /// The core steps that are done after the items that are right.
    done: Done,
    /// How many items came.
    items: u32,
    /// The index of the first wrong item, from 0, once one came.
    wrong: Option<u32>,
}

/// The bytes of the stack.
pub fn stack_bytes(machine: &Machine<'_>) -> Result<u32, NoMemory>
    requires { IsMachine machine.now }
    ensures { IfOk result (λ bytes. bytes ≡ stack.stack_bytes (app_of machine.now.code.now.app.now)) }
{
    let bounds = bounds(machine.code.alloc, machine.code.app, machine.ceilings)?;
    Ok(bounds.stack_bytes)
}

impl<'a> Judge<'a> {
    /// A judge to whom no item came yet.
    pub fn new(machine: &Machine<'a>) -> Result<Judge<'a>, NoMemory>
        requires { IsMachine machine.now }
        ensures { IfOk result (λ judge. HasJudged (app_of machine.now.code.now.app.now) [] judge) }
    {
        let stack = stack_bytes(machine)?;
        let state = State::first(machine.code)?;
        Ok(Judge {
            state,
            stack,
            done: Done::none(),
            items: 0,
            wrong: None,
        })
    }

    /// The next item is judged. After a wrong one it is only counted. On an `Err` nothing is known of the judge from
    /// then on.
    pub fn take(&mut self, machine: &Machine<'a>, item: &Item) -> Result<(), NoMemory>
        requires machine { IsMachine machine.now }
        requires judged { MayTake (app_of machine.now.code.now.app.now) self.old }
        ensures { let app = app_of machine.now.code.now.app.now in
            OnOk result ((items : List traced.Item) → HasJudged app items self.old
            → HasJudged app (items ++ item.now ∷ []) self.new) }
    {
        let index = self.items;
        self.items = index + 1;
        if self.wrong.is_some() {
            return Ok(());
        }
        match judge_item(&mut self.state, machine, self.stack, self.done, item)? {
            None => {
                self.wrong = Some(index);
                Ok(())
            }
            Some(done) => {
                self.done = done;
                Ok(())
            }
        }
    }

    /// The verdict on the items that came, as a trace that states this total of core steps, or none. Silent steps come
    /// up to it, so no item may come from then on.
    pub fn verdict(&mut self, machine: &Machine<'a>, total: Option<u64>) -> Verdict
        requires { IsMachine machine.now }
        ensures { let app = app_of machine.now.code.now.app.now in
            (items : List traced.Item) → HasJudged app items self.old
            → IsVerdict app (record { items = items; total = total }) result }
    {
        match self.wrong {
            Some(index) => Verdict::No(u64::from(index) + 1),
            None => {
                if judge_total(&mut self.state, machine, self.done, total) {
                    return Verdict::Yes;
                }
                Verdict::No(u64::from(self.items) + 1)
            }
        }
    }

    /// How many items came.
    pub fn count(&self) -> u64
        ensures { (app : App) (items : List traced.Item) → HasJudged app items self.now → result ≡ length items }
    {
        u64::from(self.items)
    }
}
