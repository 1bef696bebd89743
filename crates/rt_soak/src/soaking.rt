// The one public call: makes the runs in threads, and adds up.

ghost use Rattle.std.specs.Prelude.{◌≡◌, ℕ, ◌<◌, ◌≤◌, map, IfOk, vec_len, slice_index_or};
ghost use Rattle.rt_app.specs.Accepted.{IsAccepted};
ghost use Rattle.rt_app.specs.View.{app_of};
ghost use Rattle.rt_soak.specs.Soak.{IsSoak};
ghost use Rattle.rt_soak.specs.Inside.Sharing.{IsShare};
ghost use Rattle.rt_soak.specs.declared.soaking.TheConstants.{MOST_RUNS, MOST_WORKERS};

use crate::run::{Run, total};
use crate::share::{Plan, share};
use rt_app::{App, IrqDecl};
use rt_core::Core;
use rt_count::Summary;
use rt_ids::{Irq, NoMemory};
use rt_sim::prepare;
use std::alloc::Global;
use std::thread;
use std::thread::Threads;

/// Runs of a soak at most.
pub const MOST_RUNS: u32 = 10_000;

/// Workers of a soak at most.
pub const MOST_WORKERS: u8 = 64;

/// The numbers of declared interrupts, in order.
fn numbers_of(alloc: Global, irqs: &[IrqDecl]) -> Result<Vec<Irq>, NoMemory>
    ensures { IfOk result (λ numbers. numbers.items ≡ map (λ d. d.number) irqs.now) }
{
    let mut numbers = Vec::with_capacity(alloc, irqs.len())?;
    for irq in irqs {
        numbers.push(irq.number)?;
    }
    Ok(numbers)
}

/// The runs of all workers, a part for each.
fn shares<R: Threads + Sync>(
    rt: &R,
    alloc: Global,
    core: &Core,
    irqs: &[Irq],
    plan: Plan,
) -> Result<Vec<Result<Vec<Run>, NoMemory>>, NoMemory>
    requires count { plan.count ≤ MOST_RUNS }
    requires workers { plan.workers ≤ MOST_WORKERS }
    ensures all { IfOk result (λ parts. vec_len parts ≡ plan.workers) }
    ensures each { IfOk result (λ parts. (w : ℕ) (d : _) → w < plan.workers
        → IsShare core.now.image irqs.now plan.number plan.count plan.workers w (slice_index_or parts.items w d)) }
{
    let workers = usize::from(plan.workers);
    let parts = thread::map_indices(
        rt,
        alloc,
        workers,
        &|worker| { share(alloc, core, irqs, plan, worker) },
    )?;
    Ok(parts)
}

/// Makes so many runs of an application, each from reset under a script of its own, and counts what they show. Run i,
/// from 0, has the script that is generated from the number with the stream i. The runs are shared out to workers, each
/// in a thread of its own where one can be made; the answer does not depend on how many there are. Where a worker wants
/// memory there is no answer.
pub fn soak<R: Threads + Sync>(
    rt: &R,
    alloc: Global,
    app: &App,
    number: u64,
    count: u32,
    workers: u8,
) -> Result<Summary, NoMemory>
    requires accepted { IsAccepted (app_of app.now) }
    requires some { 1 ≤ count }
    requires few { count ≤ MOST_RUNS }
    requires worker { 1 ≤ workers }
    requires workers { workers ≤ MOST_WORKERS }
    ensures { IfOk result (λ summary. IsSoak (app_of app.now) number count summary) }
{
    let core = prepare(alloc, app)?;
    let irqs = numbers_of(alloc, &app.irqs)?;
    let plan = Plan {
        number,
        count,
        workers,
    };
    let parts = shares(rt, alloc, &core, &irqs, plan)?;
    total(&parts)
}
