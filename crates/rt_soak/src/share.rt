// Which worker makes which runs.

ghost use Rattle.std.specs.Prelude.{◌≡◌, ◌+◌, ◌<◌, ◌≤◌, length, IfOk};
ghost use Rattle.std.specs.List.{AllByRecursion};
ghost use Rattle.rt_soak.specs.Inside.Sharing.{first_run, run_of, AreRuns};
ghost use Rattle.rt_soak.specs.Inside.Totals.{IsSmall};
ghost use Rattle.rt_soak.specs.declared.soaking.TheConstants.{MOST_RUNS, MOST_WORKERS};

use crate::run::Run;
use rt_core::Core;
use rt_count::count_run;
use rt_ids::{Irq, NoMemory};
use rt_script::generated;
use std::alloc::Global;

/// Which runs are to be made, and by how many workers.
#[derive(Clone, Copy)]
pub(crate) struct Plan {
    /// The number that the scripts are generated from.
    pub number: u64,
    /// How many runs.
    pub count: u32,
    pub workers: u8,
}

impl Plan {
    /// The number of the first run of a worker; for the number of workers itself, the number of all runs.
    fn first_of(&self, worker: usize) -> u32
        requires count { self.now.count ≤ MOST_RUNS }
        requires workers { self.now.workers ≤ MOST_WORKERS }
        requires some { 0 < self.now.workers }
        requires worker { worker ≤ self.now.workers }
        ensures { result ≡ first_run self.now.count self.now.workers worker }
    {
        (worker as u32 * self.count) / u32::from(self.workers)
    }
}

/// One run, from reset, on a core that may have run before.
fn one_run(
    alloc: Global,
    core: &mut Core,
    irqs: &[Irq],
    number: u64,
    run: u32,
) -> Result<Run, NoMemory>
    ensures run { IfOk result (λ made. made ≡ run_of core.old.image irqs.now number run) }
    ensures small { IfOk result IsSmall }
    ensures image { core.new.image ≡ core.old.image }
{
    let script = generated(alloc, number, u64::from(run), irqs)?;
    core.reset(alloc)?;
    let summary = count_run(core, &script);
    Ok(Run {
        number: run,
        summary,
    })
}

/// The runs from one number up to another, in order, on one core with the image of the given one.
fn runs_between(
    alloc: Global,
    core: &Core,
    irqs: &[Irq],
    number: u64,
    first: u32,
    end: u32,
) -> Result<Vec<Run>, NoMemory>
    requires rising { first ≤ end }
    requires few { end ≤ MOST_RUNS }
    ensures runs { IfOk result (λ runs. AreRuns core.now.image irqs.now number first end runs.items) }
    ensures small { IfOk result (λ runs. AllByRecursion IsSmall runs.items) }
    ensures few { IfOk result (λ runs. length runs.items ≤ MOST_RUNS) }
{
    let mut own = core.fresh(alloc)?;
    let mut runs = Vec::with_capacity(alloc, (end - first) as usize)?;
    for run in first..end {
        runs.push(one_run(alloc, &mut own, irqs, number, run)?)?;
    }
    Ok(runs)
}

/// The runs of a worker, in order.
#[inline(never)]
pub(crate) fn share(
    alloc: Global,
    core: &Core,
    irqs: &[Irq],
    plan: Plan,
    worker: usize,
) -> Result<Vec<Run>, NoMemory>
    requires count { plan.count ≤ MOST_RUNS }
    requires workers { plan.workers ≤ MOST_WORKERS }
    requires worker { worker < plan.workers }
    ensures runs { IfOk result (λ runs. AreRuns core.now.image irqs.now plan.number
        (first_run plan.count plan.workers worker) (first_run plan.count plan.workers (worker + 1)) runs.items) }
    ensures small { IfOk result (λ runs. AllByRecursion IsSmall runs.items) }
    ensures few { IfOk result (λ runs. length runs.items ≤ MOST_RUNS) }
{
    let first = plan.first_of(worker);
    let end = plan.first_of(worker + 1);
    runs_between(alloc, core, irqs, plan.number, first, end)
}
