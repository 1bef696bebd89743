// The rules on interrupts: each serves one thing, and has a number of its own.

#![tactic(auto, using(crate::proofs::Fold::first_of_append))]

ghost use Rattle.std.specs.Prelude.{◌≡◌, ◌++◌, [], map, flat_map, IfOk, OnOk};
ghost use Rattle.rt_app.specs.View.{task_of, app_of};
ghost use Rattle.rt_app.specs.Declarations.{use_of, mono_use, bound_use, interrupt_uses, number_uses, used_twice};
ghost use Rattle.rt_app.specs.Declarations.{interrupts};
ghost use Rattle.rt_rules.specs.Inside.First.{first_of};

use crate::first::First;
use crate::numbers::Numbers;
use rt_app::{App, Dispatcher, Mono, Task, UNKNOWN};
use rt_ids::{NoMemory, Rule};
use std::alloc::Global;
use std::marker::Model;

/// A number that is used for something, and where.
#[derive(Clone, Copy)]
pub(crate) struct Used {
    number: u16,
    at: u32,
}

impl Model for Used {
    ghost use Rattle.rt_app.specs.Declarations.{Used};

    ghost Value = { Used };

    ghost view = { λ u. record { number = u.number; at = u.at } };

    ghost inverse = { λ u. record { number = u.number; at = u.at } };
}

/// Appends the use of an interrupt, where it is known.
fn push_use(uses: &mut Vec<Used>, irq: u8, at: u32) -> Result<(), NoMemory>
    ensures { OnOk result (uses.new.items ≡ uses.old.items ++ use_of irq at) }
{
    if irq != UNKNOWN {
        uses.push(Used {
            number: u16::from(irq),
            at,
        })?;
    }
    Ok(())
}

/// Appends the interrupts that are dispatchers.
fn push_dispatchers(uses: &mut Vec<Used>, dispatchers: &[Dispatcher]) -> Result<(), NoMemory>
    ensures { OnOk result (uses.new.items ≡ uses.old.items ++ flat_map (λ d. use_of d.irq d.at) dispatchers.now) }
{
    for dispatcher in dispatchers {
        push_use(uses, dispatcher.irq, dispatcher.at)?;
    }
    Ok(())
}

/// Appends the interrupt of the monotonic.
fn push_mono(uses: &mut Vec<Used>, mono: &Option<Mono>) -> Result<(), NoMemory>
    ensures { OnOk result (uses.new.items ≡ uses.old.items ++ mono_use mono.now) }
{
    match mono {
        Some(mono) => push_use(uses, mono.irq, mono.at),
        None => Ok(()),
    }
}

/// Appends the interrupt that a task binds, where it binds one.
fn push_bound(uses: &mut Vec<Used>, task: &Task) -> Result<(), NoMemory>
    ensures { OnOk result (uses.new.items ≡ uses.old.items ++ bound_use task.now.binds task.now.binds_at) }
{
    match task.binds {
        Some(irq) => push_use(uses, irq, task.binds_at),
        None => Ok(()),
    }
}

/// Appends the interrupts that tasks bind.
fn push_tasks(uses: &mut Vec<Used>, tasks: &[Task]) -> Result<(), NoMemory>
    ensures { OnOk result (uses.new.items
        ≡ uses.old.items ++ flat_map (λ t. bound_use t.binds t.binds_at) (map task_of tasks.now)) }
{
    for task in tasks {
        push_bound(uses, task)?;
    }
    Ok(())
}

/// What interrupts are used for.
fn interrupt_uses(alloc: Global, app: &App) -> Result<Vec<Used>, NoMemory>
    ensures { IfOk result (λ uses. uses.items ≡ interrupt_uses (app_of app.now)) }
{
    let mut uses = Vec::new(alloc);
    push_dispatchers(&mut uses, &app.dispatchers)?;
    push_mono(&mut uses, &app.mono)?;
    push_tasks(&mut uses, &app.tasks)?;
    Ok(uses)
}

/// The numbers of the declared interrupts.
fn number_uses(alloc: Global, app: &App) -> Result<Vec<Used>, NoMemory>
    ensures { IfOk result (λ uses. uses.items ≡ number_uses (app_of app.now)) }
{
    let mut uses = Vec::new(alloc);
    for irq in &app.irqs {
        uses.push(Used {
            number: irq.number.get(),
            at: irq.number_at,
        })?;
    }
    Ok(uses)
}

/// Offers the uses of a number that was used before.
fn judge_uses(alloc: Global, first: &mut First, uses: &[Used]) -> Result<(), NoMemory>
    ensures { OnOk result (first.new ≡ first_of first.old (used_twice [] uses.now)) }
{
    let mut used = Numbers::new(alloc);
    for item in uses {
        first.offer_when(used.has(item.number), Rule::InterruptUsedTwice, item.at);
        used.insert(item.number)?;
    }
    Ok(())
}

/// Offers the interrupts that are used for two things, and the numbers that two interrupts have.
pub(crate) fn judge_interrupts(alloc: Global, first: &mut First, app: &App) -> Result<(), NoMemory>
    ensures { OnOk result (first.new ≡ first_of first.old (interrupts (app_of app.now))) }
{
    judge_uses(alloc, first, &interrupt_uses(alloc, app)?)?;
    judge_uses(alloc, first, &number_uses(alloc, app)?)
}
