// The lines of a dispatcher, and how many there are.

ghost use Rattle.std.specs.Prelude.{◌≡◌, ◌+◌, ◌^◌, ◌≤◌, ◌<◌, OnErr, OnOk};
ghost use Rattle.rt_gen_queue.specs.Making.{Appends, Extends};
ghost use Rattle.rt_gen_disp.specs.Code as spec;
ghost use Rattle.rt_gen_disp.specs.declared.lines.TheConstants.{TAKING_OFFSET, TASK_ROOM};

use crate::called::Called;
use crate::slots::{INDEX, LEFT, MASK, ONE, OTHER, PLACE, TASK, WORD};
use rt_code::{Instr, Line, Note};
use rt_gen_queue::{Lines, ReadyQueue};
use rt_ids::limits::CAPACITY;
use rt_ids::{NoMemory, Op, Prio, Section};

/// How far after the first line a dispatcher returns, where nothing is ready.
pub(crate) const EMPTY_OFFSET: u32 = 4;

/// How far after the first line it takes the oldest message.
const TAKING_OFFSET: u32 = 6;

/// Lines that look whether a message is of a task, up to where its arguments are loaded.
const TEST_LINES: u32 = 5;

/// Lines of a task, beside one for each argument.
pub(crate) const CHOICE_LINES: u32 = 17;

/// Addresses that a task's lines need at most: 17 lines and at most 255 for arguments are fewer than 300.
pub(crate) const TASK_ROOM: u32 = 300;

/// The lines before the tasks, the first of which will be at this address.
pub(crate) fn push_front(queue: &ReadyQueue, entry: u32, lines: &mut Lines) -> Result<(), NoMemory>
    requires room { entry + TAKING_OFFSET < 2 ^ 32 }
    ensures lines { OnOk result (Appends lines.old lines.new (spec.front_lines queue.now entry)) }
    ensures left { OnErr result (lines.new ≡ lines.old) }
{
    let head = u32::from(queue.at);
    let count = head + 1;
    let (guard, level) = (queue.guard, queue.level);
    lines.append(&[
        guard.enter_line(Section::Ready(Prio(level)), level, MASK),
        (Instr::Load(LEFT, count), None),
        (Instr::JumpZ(LEFT, entry + EMPTY_OFFSET), None),
        (Instr::Jump(entry + TAKING_OFFSET), None),
        guard.leave_line(Section::Ready(Prio(level)), level, MASK),
        (Instr::Ret, None),
        (Instr::Load(INDEX, head), None),
        (Instr::LoadAt(WORD, head + 2, INDEX), None),
        (Instr::Set(ONE, 1), None),
        (Instr::Calc(Op::Sub, LEFT, LEFT, ONE), None),
        (Instr::Store(count, LEFT), None),
        (Instr::Calc(Op::Add, INDEX, INDEX, ONE), None),
        (Instr::Set(OTHER, queue.room), None),
        (Instr::Calc(Op::Rem, INDEX, INDEX, OTHER), None),
        (Instr::Store(head, INDEX), None),
        (Instr::Set(OTHER, CAPACITY), None),
        (Instr::Calc(Op::Div, TASK, WORD, OTHER), None),
        (Instr::Calc(Op::Rem, PLACE, WORD, OTHER), None),
    ])
}

/// Where a dispatcher goes with a message that is of no task of its level, after the test of the last one.
#[derive(Clone, Copy)]
pub struct Exit {
    pub address: u32,
    /// The number of the last task of the level.
    pub last: usize,
}

impl Exit {
    /// Where the test of a task leads, with the address after the task's lines.
    pub(crate) fn next_for(self, number: usize, behind: u32) -> u32
        ensures { result ≡ spec.next_for self number behind }
    {
        if number == self.last {
            self.address
        } else {
            behind
        }
    }
}

/// The lines that look whether the message is of a task, up to where its arguments are loaded.
fn push_test(called: &Called, next: u32, lines: &mut Lines) -> Result<(), NoMemory>
    ensures lines { OnOk result (Appends lines.old lines.new (spec.test_lines called.now next)) }
    ensures left { OnErr result (lines.new ≡ lines.old) }
{
    let args = u32::from(called.args);
    lines.append(&[
        (Instr::Set(OTHER, u32::from(called.task.0)), None),
        (Instr::Calc(Op::Eq, OTHER, TASK, OTHER), None),
        (Instr::JumpZ(OTHER, next), None),
        (Instr::Set(OTHER, args), None),
        (Instr::Calc(Op::Mul, OTHER, PLACE, OTHER), None),
    ])
}

/// The lines that load its arguments.
fn push_arguments(called: &Called, lines: &mut Lines) -> Result<(), NoMemory>
    ensures lines { OnOk result (Appends lines.old lines.new
        (spec.argument_lines called.now.inputs called.now.args)) }
    ensures left { OnErr result (Extends lines.old lines.new) }
{
    let inputs = u32::from(called.inputs);
    for argument in 0..u32::from(called.args) {
        lines.push(Instr::LoadAt(argument, inputs + argument, OTHER))?;
    }
    Ok(())
}

/// The lines from the start of the message on.
fn push_start(
    queue: &ReadyQueue,
    called: &Called,
    at: u32,
    lines: &mut Lines,
) -> Result<(), NoMemory>
    requires room { at + 3 < 2 ^ 32 }
    ensures lines { OnOk result (Appends lines.old lines.new (spec.start_lines queue.now called.now at)) }
    ensures left { OnErr result (lines.new ≡ lines.old) }
{
    let (free, level) = (u32::from(called.free), queue.level);
    let (ready, places) = (queue.guard, called.guard);
    lines.append(&[
        (Instr::Mark, Some(Note::Start(called.task, 0))),
        (Instr::JumpZ(LEFT, at + 3), None),
        (Instr::Post(queue.irq), None),
        ready.leave_line(Section::Ready(Prio(level)), level, MASK),
        places.enter_line(Section::Free(called.task), level, MASK),
        (Instr::Load(INDEX, free), None),
        (Instr::StoreAt(free + 1, INDEX, PLACE), None),
        (Instr::Calc(Op::Add, INDEX, INDEX, ONE), None),
        (Instr::Store(free, INDEX), Some(Note::Free(called.task))),
        places.leave_line(Section::Free(called.task), level, MASK),
        (Instr::Call(called.row, 0), None),
        (Instr::Ret, None),
    ])
}

/// The lines of a task, the first of which will be at an address; its test leads to another.
pub(crate) fn push_choice(
    queue: &ReadyQueue,
    called: &Called,
    next: u32,
    at: u32,
    lines: &mut Lines,
) -> Result<(), NoMemory>
    requires few { called.now.args ≤ 4 }
    requires room { at + TASK_ROOM < 2 ^ 32 }
    ensures lines { OnOk result (Appends lines.old lines.new (spec.choice_lines queue.now called.now next at)) }
    ensures left { OnErr result (Extends lines.old lines.new) }
{
    push_test(called, next, lines)?;
    push_arguments(called, lines)?;
    push_start(
        queue,
        called,
        at + (TEST_LINES + u32::from(called.args)),
        lines,
    )
}
