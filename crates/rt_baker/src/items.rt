// Judges one item, and the total.

ghost use Rattle.std.specs.Prelude.{◌≡◌, IsTrue, IsFalse, IfOk};
ghost use Rattle.rt_app.specs.Tree.{App};
ghost use Rattle.rt_app.specs.Stack.{stack_bytes};
ghost use Rattle.rt_app.specs.View.{app_of};
ghost use Rattle.rt_laws.specs.Run.{IsWithinStack};
ghost use Rattle.rt_baker_moves.specs.Machine.{IsMachine};
ghost use Rattle.rt_baker.specs.Judge.{steps_done};
ghost use Rattle.rt_baker.specs.Judging.{MayGoOn, ItemComes, ItemJudged, TotalJudged};

use crate::coming::{come, pass_steps};
use crate::done::Done;
use rt_baker_moves::{Machine, State};
use rt_ids::NoMemory;
use rt_trace::{Item, What};

/// Whether the depth that a take states is within so many bytes of stack.
fn is_within(what: &What, stack: u32) -> bool
    ensures within { IsTrue result → (app : App) → stack ≡ stack_bytes app → IsWithinStack app what.now }
    ensures beyond { IsFalse result → (app : App) → stack ≡ stack_bytes app → IsWithinStack app what.now → ⊥ }
{
    match what {
        What::Take(_irq, depth) => *depth <= stack,
        _other => true,
    }
}

/// An item comes after silent steps up to its number, where they may come. The steps that are done then.
fn come_after<'a>(
    state: &mut State<'a>,
    machine: &Machine<'a>,
    done: Done,
    item: &Item,
) -> Result<Option<Done>, NoMemory>
    requires machine { IsMachine machine.now }
    requires early { MayGoOn (app_of machine.now.code.now.app.now) state.old }
    ensures { IfOk result (λ behind. ItemComes (app_of machine.now.code.now.app.now) behind state.old state.new
        (steps_done done) item.now) }
{
    match done.until(item.step) {
        None => Ok(None),
        Some(steps) => {
            if !pass_steps(state, machine, steps) {
                return Ok(None);
            }
            let behind = Done::behind(item, state.is_owing());
            let came = come(state, machine, &item.what)?;
            if !came {
                return Ok(None);
            }
            Ok(Some(behind))
        }
    }
}

/// An item comes, where it may and is within so many stack bytes. The steps that are done then.
pub fn judge_item<'a>(
    state: &mut State<'a>,
    machine: &Machine<'a>,
    stack: u32,
    done: Done,
    item: &Item,
) -> Result<Option<Done>, NoMemory>
    requires machine { IsMachine machine.now }
    requires stack { stack ≡ stack_bytes (app_of machine.now.code.now.app.now) }
    requires early { MayGoOn (app_of machine.now.code.now.app.now) state.old }
    ensures { IfOk result (λ behind. ItemJudged (app_of machine.now.code.now.app.now) behind state.old state.new
        (steps_done done) item.now) }
{
    if !is_within(&item.what, stack) {
        return Ok(None);
    }
    let behind = come_after(state, machine, done, item)?;
    Ok(behind)
}

/// Whether a trace may end with so many core steps, where it states a total.
pub fn judge_total<'a>(
    state: &mut State<'a>,
    machine: &Machine<'a>,
    done: Done,
    total: Option<u64>,
) -> bool
    requires { IsMachine machine.now }
    ensures { TotalJudged (app_of machine.now.code.now.app.now) result state.old (steps_done done) total }
{
    match total {
        None => true,
        Some(total) => match done.until(total) {
            None => false,
            Some(steps) => pass_steps(state, machine, steps),
        },
    }
}
