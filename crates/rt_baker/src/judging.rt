// Judges a trace in memory.

ghost use Rattle.std.specs.Prelude.{◌-◌, ◌<◌, ◌^◌, IfOk, length};
ghost use Rattle.rt_app.specs.View.{app_of};
ghost use Rattle.rt_app.specs.Accepted.{IsAccepted};
ghost use Rattle.rt_baker_moves.specs.Machine.{IsMachine};
ghost use Rattle.rt_baker.specs.Audit.{IsVerdict};

use crate::judge::Judge;
use crate::verdict::Verdict;
use rt_app::App;
use rt_baker_moves::{Machine, Tables};
use rt_ids::NoMemory;
use rt_trace::Trace;
use std::alloc::Global;

/// Judges the items of a trace, one after another, and then its total.
fn judge_trace(machine: &Machine<'_>, trace: &Trace) -> Result<Verdict, NoMemory>
    requires machine { IsMachine machine.now }
    requires few { length trace.now.items < 2 ^ 32 - 1 }
    ensures { IfOk result (IsVerdict (app_of machine.now.code.now.app.now) trace.now) }
{
    let items = trace.items();
    let mut judge = Judge::new(machine)?;
    for item in items {
        judge.take(machine, item)?;
    }
    Ok(judge.verdict(machine, trace.total()))
}

/// Judges a trace, whatever made it, by Baker's machine on an application: whether it is a run, with silent steps as
/// its step numbers say, and each depth is within the stack bound. If not, it names the first wrong item.
pub fn audit(alloc: Global, app: &App, trace: &Trace) -> Result<Verdict, NoMemory>
    requires accepted { IsAccepted (app_of app.now) }
    requires few { length trace.now.items < 2 ^ 32 - 1 }
    ensures { IfOk result (IsVerdict (app_of app.now) trace.now) }
{
    let tables = Tables::new(alloc, app)?;
    let code = tables.code(alloc, app);
    let machine = tables.machine(&code);
    let verdict = judge_trace(&machine, trace)?;
    Ok(verdict)
}
