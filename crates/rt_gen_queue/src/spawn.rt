// Generates the code of a spawn.

ghost use Rattle.std.specs.Prelude.{◌≡◌, ◌+◌, ◌<◌, ◌≤◌, ◌^◌, ◌⊎◌, ◌++◌, true, length, drop, slice_get};
ghost use Rattle.std.specs.Prelude.{IfOk, OnOk, OnErr};
ghost use Rattle.std.specs.List.{AllByRecursion};
ghost use Rattle.rt_ids.specs.Lists.{is_some_and};
ghost use Rattle.rt_app.specs.Accepted.{IsAccepted};
ghost use Rattle.rt_app.specs.Level.{is_software};
ghost use Rattle.rt_app.specs.Names.{names_of};
ghost use Rattle.rt_app.specs.Plan.{IsPlan};
ghost use Rattle.rt_app.specs.View.{app_of};
ghost use Rattle.rt_app.specs.declared.costs.TheConstants.{SPAWN_COST};
ghost use Rattle.rt_gen_queue.specs.Line.{IsNameable};
ghost use Rattle.rt_gen_queue.specs.SpawnLines.{spawn_lines};
ghost use Rattle.rt_gen_queue.specs.SpawnCode.{spawn_code};
ghost use Rattle.rt_gen_queue.specs.Making.{Appends};

use crate::lines::{Lines, append_lines};
use crate::parts::{end_lines, fill, place, ready};
use crate::target::{Target, find_target};
use rt_app::Plan;
use rt_app::costs::SPAWN_WORDS;
use rt_code::Line;
use rt_ids::{NoMemory, TaskId};
use std::alloc::Global;

/// Lines of a spawn, beside one for each argument.
const SPAWN_LINES: u32 = 28;

/// The address after the lines of a spawn, by the address where they begin. A slot or an address that does not fit in
/// 32 bits counts as want of memory.
fn next_end(target: &Target, slot: u32, entry: u32) -> Result<u32, NoMemory>
    ensures end { IfOk result (λ end. end ≡ entry + (28 + target.now.args)) }
    ensures slots { OnOk result (slot + SPAWN_WORDS < 2 ^ 32) }
    ensures cause { OnErr result ((2 ^ 32 ≤ slot + SPAWN_WORDS) ⊎ (2 ^ 32 ≤ entry + (28 + target.now.args))) }
{
    if slot > u32::MAX - SPAWN_WORDS {
        return Err(NoMemory);
    }
    entry
        .checked_add(SPAWN_LINES + u32::from(target.args))
        .ok_or(NoMemory)
}

/// Appends all lines of a spawn, the first of which will be at an address.
fn append_spawn(
    target: &Target,
    threshold: u8,
    slot: u32,
    entry: u32,
    lines: &mut Lines,
) -> Result<(), NoMemory>
    requires few { target.now.args ≤ 4 }
    ensures { OnOk result (Appends lines.old lines.new (spawn_lines target.now threshold slot entry)) }
{
    let end = next_end(target, slot, entry)?;
    lines.append(&place(target, threshold, slot, end - 2))?;
    fill(target, slot, lines)?;
    lines.append(&ready(target, threshold, slot))?;
    lines.append(&end_lines(target, threshold, slot, end))
}

/// Appends the code of a spawn of a software task, at a static preemption threshold, whose arguments are in the slots
/// from `slot` on, and whose first line will be at the address `entry`. It takes a place of the task, stores the
/// arguments, puts the message into the ready queue of the task's level and pends the level's dispatcher; the answer
/// comes into the first slot: 1, or 0 where no place is left. It writes the 16 slots from there on alone. Its lines
/// name only what the application declares, and there are at most 128 of them. An error leaves the code as it was.
/// `NoMemory` is also the answer where a slot or an address would not fit in 32 bits.
pub fn gen_spawn(
    alloc: Global,
    plan: &Plan<'_>,
    task: TaskId,
    threshold: u8,
    slot: u32,
    entry: u32,
    code: &mut Vec<Line>,
) -> Result<(), NoMemory>
    requires accepted { IsAccepted (app_of plan.now.app.now) }
    requires planned { IsPlan plan.now }
    requires software { is_some_and is_software (slice_get (app_of plan.now.app.now).tasks task) ≡ true }
    ensures code { OnOk result (code.new.items ≡ code.old.items
        ++ spawn_code (app_of plan.now.app.now) task threshold slot entry) }
    ensures size { OnOk result (length code.new.items ≤ length code.old.items + SPAWN_COST) }
    ensures lines { OnOk result (AllByRecursion (IsNameable (names_of (app_of plan.now.app.now)))
        (drop (length code.old.items) code.new.items)) }
    ensures left { OnErr result (code.new.items ≡ code.old.items) }
{
    let target = find_target(plan, task);
    let mut lines = Lines::new(alloc, entry);
    append_spawn(&target, threshold, slot, entry, &mut lines)?;
    append_lines(code, lines.as_slice())
}
