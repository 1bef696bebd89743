// A run of a soak, and the sum of all.

ghost use Rattle.std.specs.Prelude.{◌≡◌, ◌+◌, ◌<◌, ◌≤◌, ◌^◌, [], length, flat_map, IfOk, OnErr};
ghost use Rattle.std.specs.List.{AllByRecursion};
ghost use Rattle.rt_count.specs.Summary.{summary_of};
ghost use Rattle.rt_soak.specs.Inside.Totals.{IsSmall, IsBounded, IsThere, AreFew, runs_in, summary_with_runs};
ghost use Rattle.rt_soak.specs.declared.soaking.TheConstants.{MOST_WORKERS};

use rt_count::Summary;
use rt_ids::NoMemory;

/// A run, by its number from 0, with what it shows.
#[derive(Clone, Copy)]
pub(crate) struct Run {
    pub number: u32,
    pub summary: Summary,
}

/// Counts runs behind others, in order.
fn add_runs(summary: &mut Summary, runs: &[Run])
    requires bounded { IsBounded summary.old }
    requires room { summary.old.runs + length runs.now < 2 ^ 32 }
    requires small { AllByRecursion IsSmall runs.now }
    ensures total { summary.new ≡ summary_with_runs summary.old runs.now }
    ensures bounded { IsBounded summary.new }
    ensures runs { summary.new.runs ≡ summary.old.runs + length runs.now }
{
    for run in runs {
        summary.join(&run.summary);
    }
}

/// Counts the runs of all workers, in order. Where one of them wanted memory there is no answer.
pub(crate) fn total(parts: &[Result<Vec<Run>, NoMemory>]) -> Result<Summary, NoMemory>
    requires few { length parts.now ≤ MOST_WORKERS }
    requires each { AllByRecursion AreFew parts.now }
    ensures there { IfOk result (λ s. AllByRecursion IsThere parts.now) }
    ensures total { IfOk result (λ s. s ≡ summary_with_runs (summary_of 0 []) (flat_map runs_in parts.now)) }

    // It takes no memory itself.
    ensures wanted { OnErr result (¬ AllByRecursion IsThere parts.now) }
{
    let mut summary = Summary::of_silent_runs(0);
    for part in parts {
        match part {
            Ok(runs) => add_runs(&mut summary, runs),
            Err(NoMemory) => return Err(NoMemory),
        }
    }
    Ok(summary)
}
