// The rules on priorities, dispatchers and hardware tasks.

#![tactic(auto, using(crate::proofs::Fold::first_of_append))]

ghost use Rattle.std.specs.Prelude.{◌≡◌, map, flat_map};
ghost use Rattle.rt_app.specs.View.{task_of, app_of};
ghost use Rattle.rt_app.specs.Declarations.{is_priority, mono_priority, task_priority, priorities, dispatchers};
ghost use Rattle.rt_app.specs.Declarations.{is_mixed};
ghost use Rattle.rt_app.specs.Violation.{when};
ghost use Rattle.rt_ids.specs.declared.rule.Rule.TheVariants as rule;
ghost use Rattle.rt_rules.specs.Inside.First.{first_of};

use crate::first::First;
use rt_app::{App, Mono, Task};
use rt_frames::level_count;
use rt_ids::Rule;

/// Priority bits that tell all values of a byte apart.
const BYTE_BITS: u8 = 8;

/// Whether it is a priority where so many bits are implemented: from 1 to 2^bits.
fn is_priority(bits: u8, priority: u8) -> bool
    ensures { result ≡ is_priority bits priority }
{
    1 <= priority && u16::from(priority) <= 1u16 << bits.min(BYTE_BITS)
}

/// Offers the priority of the monotonic, where it is none.
fn judge_mono(first: &mut First, bits: u8, mono: &Option<Mono>)
    ensures { first.new ≡ first_of first.old (mono_priority bits mono.now) }
{
    if let Some(mono) = mono {
        let broken = !is_priority(bits, mono.priority);
        first.offer_when(broken, Rule::PriorityOutOfRange, mono.priority_at);
    }
}

/// Offers the priorities of tasks that are none.
fn judge_tasks(first: &mut First, bits: u8, tasks: &[Task])
    ensures { first.new ≡ first_of first.old (flat_map (task_priority bits) (map task_of tasks.now)) }
{
    for task in tasks {
        let broken = !is_priority(bits, task.priority);
        first.offer_when(broken, Rule::PriorityOutOfRange, task.priority_at);
    }
}

/// Offers the priorities that are out of range.
pub(crate) fn judge_priorities(first: &mut First, app: &App)
    ensures { first.new ≡ first_of first.old (priorities (app_of app.now)) }
{
    judge_mono(first, app.bits, &app.mono);
    judge_tasks(first, app.bits, &app.tasks);
}

/// Offers that there are fewer dispatchers than levels of software tasks.
pub(crate) fn judge_dispatchers(first: &mut First, app: &App)
    ensures { first.new ≡ first_of first.old (dispatchers (app_of app.now)) }
{
    let broken = app.dispatchers.len() < level_count(app);
    first.offer_when(broken, Rule::TooFewDispatchers, app.name_at);
}

/// Whether a hardware task has what only software tasks have.
fn is_mixed(task: &Task) -> bool
    ensures { result ≡ is_mixed (task_of task.now) }
{
    task.binds.is_some() && (task.has_capacity || 0 < task.args)
}

/// Offers the hardware tasks that have a capacity or arguments.
pub(crate) fn judge_hardware_tasks(first: &mut First, tasks: &[Task])
    ensures { first.new ≡ first_of first.old
        (flat_map (λ t. when (is_mixed t) rule.NotSoftware t.at) (map task_of tasks.now)) }
{
    for task in tasks {
        first.offer_when(is_mixed(task), Rule::NotSoftware, task.at);
    }
}
