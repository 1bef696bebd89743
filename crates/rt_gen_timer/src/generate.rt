// Generates the code of the three calls.

ghost use Rattle.std.specs.Prelude.{◌≡◌, ◌+◌, ◌*◌, ◌<◌, ◌≤◌, ◌^◌, ◌⊎◌, ◌++◌, true, length, drop, slice_get, IsSome};
ghost use Rattle.std.specs.Prelude.{IfOk};
ghost use Rattle.std.specs.Prelude.{OnOk, OnErr};
ghost use Rattle.std.specs.List.{AllByRecursion};
ghost use Rattle.rt_ids.specs.Lists.{is_some_and};
ghost use Rattle.rt_ids.specs.declared.limits.TheConstants.{CAPACITY, TASKS};
ghost use Rattle.rt_app.specs.Accepted.{IsAccepted};
ghost use Rattle.rt_app.specs.Level.{is_software};
ghost use Rattle.rt_app.specs.Names.{names_of};
ghost use Rattle.rt_app.specs.Plan.{IsPlan};
ghost use Rattle.rt_app.specs.View.{app_of};
ghost use Rattle.rt_app.specs.declared.costs.TheConstants.{SPAWN_AFTER_COST, HANDLE_COST, TIMER_QUEUE_WORDS};
ghost use Rattle.rt_gen_queue.specs.Line.{IsNameable};
ghost use Rattle.rt_gen_timer.specs.TimerCode as spec;
ghost use Rattle.rt_gen_timer.specs.Inside.Calls as calls;
ghost use Rattle.rt_gen_timer.specs.declared.generate.TheConstants.{CALL_ROOM};

use crate::armed::armed_task;
use crate::call::{TimerCall, push_call};
use crate::emitter::Emitter;
use crate::queue::queue_of;
use rt_app::Plan;
use rt_app::costs::TIMER_QUEUE_WORDS;
use rt_code::Line;
use rt_frames::ArmedRows;
use rt_gen_queue::Lines;
use rt_ids::{NoMemory, TaskId};
use std::alloc::Global;

/// Addresses that a call's lines need at most, and those of a task in the handler: the longest, of a `cancel`, are 91.
pub(crate) const CALL_ROOM: u32 = 128;

/// What writes the code of an application's calls from a slot on. A slot or an address that does not fit in 32 bits
/// counts as want of memory.
pub(crate) fn emitter_of(
    plan: &Plan<'_>,
    rows: &ArmedRows<'_>,
    slot: u32,
    entry: u32,
) -> Result<Emitter, NoMemory>
    requires accepted { IsAccepted (app_of plan.now.app.now) }
    requires planned { IsPlan plan.now }
    requires rows { rows.now ≡ plan.now.app.now }
    requires timed { IsSome (app_of plan.now.app.now).mono }
    ensures queue { IfOk result (λ emitter. emitter.queue ≡ spec.queue_of (app_of plan.now.app.now)) }
    ensures slot { IfOk result (λ emitter. emitter.slot ≡ slot) }
    ensures few { IfOk result (λ emitter. emitter.queue.messages ≤ CAPACITY * TASKS) }
    ensures slots { OnOk result (slot + TIMER_QUEUE_WORDS < 2 ^ 32) }
    ensures room { OnOk result (entry + CALL_ROOM < 2 ^ 32) }
    ensures cause { OnErr result ((2 ^ 32 ≤ slot + TIMER_QUEUE_WORDS) ⊎ (2 ^ 32 ≤ entry + CALL_ROOM)) }
{
    if slot.checked_add(TIMER_QUEUE_WORDS).is_none() || entry.checked_add(CALL_ROOM).is_none() {
        return Err(NoMemory);
    }
    let mono = plan.app.mono.unwrap();
    let queue = queue_of(plan, rows, mono);
    Ok(Emitter { queue, slot })
}

/// Appends the code of a call to code, at a static preemption threshold; its first line will be at the address `entry`.
/// An error leaves the code as it was.
fn append_call(
    alloc: Global,
    plan: &Plan<'_>,
    rows: &ArmedRows<'_>,
    call: &TimerCall,
    threshold: u8,
    slot: u32,
    entry: u32,
    code: &mut Vec<Line>,
) -> Result<(), NoMemory>
    requires accepted { IsAccepted (app_of plan.now.app.now) }
    requires planned { IsPlan plan.now }
    requires rows { rows.now ≡ plan.now.app.now }
    requires timed { IsSome (app_of plan.now.app.now).mono }
    requires software { let tasks = (app_of plan.now.app.now).tasks in
        is_some_and is_software (slice_get tasks (calls.message_task call.now)) ≡ true }
    ensures code { OnOk result (code.new.items ≡ code.old.items
        ++ calls.code_of (app_of plan.now.app.now) call.now threshold slot entry) }
    ensures size { OnOk result (length code.new.items ≤ length code.old.items + calls.cost_of call.now) }
    ensures lines { OnOk result (AllByRecursion (IsNameable (names_of (app_of plan.now.app.now)))
        (drop (length code.old.items) code.new.items)) }
    ensures left { OnErr result (code.new.items ≡ code.old.items) }
{
    let emitter = emitter_of(plan, rows, slot, entry)?;
    let armed = armed_task(plan, rows, call.task());
    let mut lines = Lines::new(alloc, entry);
    push_call(&emitter, &armed, call, threshold, entry, &mut lines)?;
    code.extend_from_slice(lines.as_slice())?;
    Ok(())
}

/// Appends the code of a `spawn_after` of a software task, at a static preemption threshold, to code; its first line
/// will be at the address `entry`. The delay and then the arguments are in the slots from `slot` on. It takes a place
/// of the task and arms its message; the answer comes into the first slot: the message's handle, or 0 where no place is
/// left. It writes the 24 slots from there on alone. Its lines name only what the application declares, and there are
/// at most 192 of them. An error leaves the code as it was. `NoMemory` is also the answer where a slot or an address
/// would not fit in 32 bits.
pub fn gen_after(
    alloc: Global,
    plan: &Plan<'_>,
    rows: &ArmedRows<'_>,
    task: TaskId,
    threshold: u8,
    slot: u32,
    entry: u32,
    code: &mut Vec<Line>,
) -> Result<(), NoMemory>
    requires accepted { IsAccepted (app_of plan.now.app.now) }
    requires planned { IsPlan plan.now }
    requires rows { rows.now ≡ plan.now.app.now }
    requires timed { IsSome (app_of plan.now.app.now).mono }
    requires software { is_some_and is_software (slice_get (app_of plan.now.app.now).tasks task) ≡ true }
    ensures code { OnOk result (code.new.items ≡ code.old.items
        ++ spec.after_code (app_of plan.now.app.now) task threshold slot entry) }
    ensures size { OnOk result (length code.new.items ≤ length code.old.items + SPAWN_AFTER_COST) }
    ensures lines { OnOk result (AllByRecursion (IsNameable (names_of (app_of plan.now.app.now)))
        (drop (length code.old.items) code.new.items)) }
    ensures left { OnErr result (code.new.items ≡ code.old.items) }
{
    let call = TimerCall::After(task);
    append_call(alloc, plan, rows, &call, threshold, slot, entry, code)
}

/// Appends the code of a `cancel` of a message of a software task, at a static preemption threshold, to code; its first
/// line will be at the address `entry`. The handle is in a slot, into which the answer comes: 0 where an armed message
/// of the task had the handle and was taken back, else 1. It writes the 24 slots from there on alone. Its lines name
/// only what the application declares, and there are at most 256 of them. An error leaves the code as it was.
/// `NoMemory` is also the answer where a slot or an address would not fit in 32 bits.
pub fn gen_cancel(
    alloc: Global,
    plan: &Plan<'_>,
    rows: &ArmedRows<'_>,
    task: TaskId,
    threshold: u8,
    slot: u32,
    entry: u32,
    code: &mut Vec<Line>,
) -> Result<(), NoMemory>
    requires accepted { IsAccepted (app_of plan.now.app.now) }
    requires planned { IsPlan plan.now }
    requires rows { rows.now ≡ plan.now.app.now }
    requires timed { IsSome (app_of plan.now.app.now).mono }
    requires software { is_some_and is_software (slice_get (app_of plan.now.app.now).tasks task) ≡ true }
    ensures code { OnOk result (code.new.items ≡ code.old.items
        ++ spec.cancel_code (app_of plan.now.app.now) task threshold slot entry) }
    ensures size { OnOk result (length code.new.items ≤ length code.old.items + HANDLE_COST) }
    ensures lines { OnOk result (AllByRecursion (IsNameable (names_of (app_of plan.now.app.now)))
        (drop (length code.old.items) code.new.items)) }
    ensures left { OnErr result (code.new.items ≡ code.old.items) }
{
    let call = TimerCall::Cancel(task);
    append_call(alloc, plan, rows, &call, threshold, slot, entry, code)
}

/// Appends the code of a `reschedule_after` of a message of a software task, at a static preemption threshold, to code;
/// its first line will be at the address `entry`. The delay and then the handle are in the slots from `slot` on. The
/// answer comes into the first: 0 where an armed message of the task had the handle and waits anew, else 1. It writes
/// the 24 slots from there on alone. Its lines name only what the application declares, and there are at most 256 of
/// them. An error leaves the code as it was. `NoMemory` is also the answer where a slot or an address would not fit in
/// 32 bits.
pub fn gen_move(
    alloc: Global,
    plan: &Plan<'_>,
    rows: &ArmedRows<'_>,
    task: TaskId,
    threshold: u8,
    slot: u32,
    entry: u32,
    code: &mut Vec<Line>,
) -> Result<(), NoMemory>
    requires accepted { IsAccepted (app_of plan.now.app.now) }
    requires planned { IsPlan plan.now }
    requires rows { rows.now ≡ plan.now.app.now }
    requires timed { IsSome (app_of plan.now.app.now).mono }
    requires software { is_some_and is_software (slice_get (app_of plan.now.app.now).tasks task) ≡ true }
    ensures code { OnOk result (code.new.items ≡ code.old.items
        ++ spec.move_code (app_of plan.now.app.now) task threshold slot entry) }
    ensures size { OnOk result (length code.new.items ≤ length code.old.items + HANDLE_COST) }
    ensures lines { OnOk result (AllByRecursion (IsNameable (names_of (app_of plan.now.app.now)))
        (drop (length code.old.items) code.new.items)) }
    ensures left { OnErr result (code.new.items ≡ code.old.items) }
{
    let call = TimerCall::Move(task);
    append_call(alloc, plan, rows, &call, threshold, slot, entry, code)
}
