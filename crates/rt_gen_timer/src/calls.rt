// The lines of a `cancel` and a `reschedule_after`.

ghost use Rattle.std.specs.Prelude.{◌+◌, ◌*◌, ◌<◌, ◌≤◌, ◌^◌, OnOk};
ghost use Rattle.rt_ids.specs.declared.limits.TheConstants.{CAPACITY, TASKS};
ghost use Rattle.rt_app.specs.declared.costs.TheConstants.{TIMER_QUEUE_WORDS};
ghost use Rattle.rt_gen_queue.specs.Making.{Appends};
ghost use Rattle.rt_gen_timer.specs.TimerLines as spec;

use crate::armed::ArmedTask;
use crate::emitter::Emitter;
use crate::heap::{SIFT_DOWN, SIFT_UP};
use crate::section::{ALARM, TIME};
use crate::slots::{
    ANSWER, ARGUMENTS, COUNT, HAND, HOLE, INSTANT, NUMBER, ONE, OTHER, PLACE, RIGHT, TWO,
};
use crate::template::{Column, QueuePart, Template};
use rt_code::{Instr, Note};
use rt_gen_queue::Lines;
use rt_ids::{NoMemory, Op};

/// Lines of a `cancel`.
const CANCEL_LINES: u32 = 91;

/// Lines of a `reschedule_after`.
const MOVE_LINES: u32 = 87;

/// Those of them that put the found message to another instant.
const PUT_OFF_LINES: u32 = 59;

/// The constants 1 and 2, the next number, and the next handle, which is the answer.
const NEXT: [Template; 8] = [
    Template::Set(ONE, 1),
    Template::Set(TWO, 2),
    Template::Load(NUMBER, Column::Armings),
    Template::Calc(Op::Add, OTHER, NUMBER, ONE),
    Template::Store(Column::Armings, OTHER),
    Template::Load(ANSWER, Column::HandleCount),
    Template::Calc(Op::Add, ANSWER, ANSWER, ONE),
    Template::Store(Column::HandleCount, ANSWER),
];

/// The row of a message comes in hand, from its word and the offset that is in hand; the heap is one longer, with the
/// hole at its end; and the columns of the row are written.
const ROW: [Template; 7] = [
    Template::Calc(Op::Sub, HAND, PLACE, HAND),
    Template::Load(HOLE, Column::Count),
    Template::Calc(Op::Add, COUNT, HOLE, ONE),
    Template::Store(Column::Count, COUNT),
    Template::StoreAt(Column::Instants, HAND, INSTANT),
    Template::StoreAt(Column::Numbers, HAND, NUMBER),
    Template::StoreAt(Column::Handles, HAND, ANSWER),
];

/// The row in hand gets another instant and the next number.
const AGAIN: [Template; 5] = [
    Template::Load(NUMBER, Column::Armings),
    Template::Calc(Op::Add, OTHER, NUMBER, ONE),
    Template::Store(Column::Armings, OTHER),
    Template::StoreAt(Column::Instants, HAND, INSTANT),
    Template::StoreAt(Column::Numbers, HAND, NUMBER),
];

/// The constants 1 and 2, and the hole after the last message.
const BEHIND: [Template; 4] = [
    Template::Set(ONE, 1),
    Template::Set(TWO, 2),
    Template::Load(COUNT, Column::Count),
    Template::Copy(HOLE, COUNT),
];

impl Emitter {
    /// Appends the lines by which the message whose word is in a slot is armed.
    pub(crate) fn push_arm(
        &self,
        armed: &ArmedTask,
        threshold: u8,
        at: u32,
        lines: &mut Lines,
    ) -> Result<(), NoMemory>
        requires few { self.now.queue.messages ≤ CAPACITY * TASKS }
        requires slots { self.now.slot + TIMER_QUEUE_WORDS < 2 ^ 32 }
        requires room { at + 46 < 2 ^ 32 }
        requires before { armed.now.first ≤ CAPACITY * armed.now.target.task }
        ensures { OnOk result (Appends lines.old lines.new
            (spec.arm_lines self.now.queue self.now.slot threshold armed.now at)) }
    {
        let offset = armed.word_offset();
        let note = Note::Arm(armed.target.task, self.slot + INSTANT);
        self.push(
            &[
                QueuePart::Enter(threshold),
                QueuePart::Code(&TIME, at + 1),
                QueuePart::Code(&NEXT, at),
                QueuePart::Code(&[Template::Set(HAND, offset)], at),
                QueuePart::Code(&ROW, at),
                QueuePart::Code(&SIFT_UP, at + 23),
                QueuePart::Settle(note),
                QueuePart::Code(&ALARM, at + 39),
                QueuePart::Leave(threshold),
            ],
            lines,
        )
    }

    /// Appends the lines that open the section and look for the message of a task whose handle is in a slot, or lead to
    /// an address, counted from their first, where there is none.
    fn push_find(
        &self,
        armed: &ArmedTask,
        threshold: u8,
        handle: u32,
        missing: u32,
        at: u32,
        lines: &mut Lines,
    ) -> Result<(), NoMemory>
        requires few { self.now.queue.messages ≤ CAPACITY * TASKS }
        requires rows { armed.now.rows ≤ CAPACITY }
        requires first { armed.now.first ≤ CAPACITY * TASKS }
        requires there { handle < TIMER_QUEUE_WORDS }
        requires slots { self.now.slot + TIMER_QUEUE_WORDS < 2 ^ 32 }
        ensures { OnOk result (Appends lines.old lines.new
            (spec.find_lines self.now.queue self.now.slot threshold armed.now handle (at + missing) at)) }
    {
        let first = armed.first;
        let search = [
            Template::JumpZero(HOLE, missing),
            Template::Calc(Op::Sub, HOLE, HOLE, ONE),
            Template::LoadAt(PLACE, Column::Heap, HOLE),
            Template::LoadAt(OTHER, Column::Handles, PLACE),
            Template::Calc(Op::Eq, OTHER, OTHER, handle),
            Template::JumpZero(OTHER, 5),
        ];
        let own = [
            Template::Set(OTHER, first + armed.rows),
            Template::Calc(Op::Lt, OTHER, PLACE, OTHER),
            Template::Set(RIGHT, first),
            Template::Calc(Op::Lt, RIGHT, PLACE, RIGHT),
            Template::Calc(Op::Lt, OTHER, RIGHT, OTHER),
            Template::JumpZero(OTHER, missing),
        ];
        self.push(
            &[
                QueuePart::Enter(threshold),
                QueuePart::Code(&BEHIND, at),
                QueuePart::Code(&search, at),
                QueuePart::Code(&own, at),
            ],
            lines,
        )
    }

    /// Appends the lines of a `cancel`.
    pub(crate) fn push_cancel(
        &self,
        armed: &ArmedTask,
        threshold: u8,
        at: u32,
        lines: &mut Lines,
    ) -> Result<(), NoMemory>
        requires few { self.now.queue.messages ≤ CAPACITY * TASKS }
        requires rows { armed.now.rows ≤ CAPACITY }
        requires first { armed.now.first ≤ CAPACITY * TASKS }
        requires slots { self.now.slot + TIMER_QUEUE_WORDS < 2 ^ 32 }
        requires room { at + CANCEL_LINES < 2 ^ 32 }
        ensures { OnOk result (Appends lines.old lines.new
            (spec.cancel_lines self.now.queue self.now.slot threshold armed.now at)) }
    {
        let note = Note::Cancel(armed.target.task, self.slot + ANSWER);
        let place = [
            Template::Set(OTHER, armed.first),
            Template::Calc(Op::Sub, PLACE, PLACE, OTHER),
        ];
        self.push_find(armed, threshold, ANSWER, 89, at, lines)?;
        self.push_remove(at + 17, lines)?;
        self.push(
            &[
                QueuePart::Lines(&[(Instr::Mark, Some(note))]),
                QueuePart::Code(&ALARM, at + 72),
                QueuePart::Leave(threshold),
                QueuePart::Code(&place, at),
                QueuePart::Lines(&self.free(&armed.target, threshold)),
                QueuePart::Code(
                    &[Template::Set(ANSWER, 0), Template::Jump(CANCEL_LINES)],
                    at,
                ),
                QueuePart::Leave(threshold),
                QueuePart::Code(&[Template::Set(ANSWER, 1)], at),
            ],
            lines,
        )
    }

    /// Appends the lines of a `reschedule_after` that put the found message to another instant.
    fn push_put_off(&self, armed: &ArmedTask, at: u32, lines: &mut Lines) -> Result<(), NoMemory>
        requires few { self.now.queue.messages ≤ CAPACITY * TASKS }
        requires slots { self.now.slot + TIMER_QUEUE_WORDS < 2 ^ 32 }
        requires room { at + PUT_OFF_LINES < 2 ^ 32 }
        ensures { OnOk result (Appends lines.old lines.new
            (spec.put_off_lines self.now.queue self.now.slot armed.now at)) }
    {
        let (handle, instant) = (self.slot + ARGUMENTS, self.slot + INSTANT);
        self.push(
            &[
                QueuePart::Code(&[Template::Copy(HAND, PLACE)], at),
                QueuePart::Code(&TIME, at + 1),
                QueuePart::Code(&AGAIN, at),
                QueuePart::Code(&SIFT_UP, at + 12),
                QueuePart::Code(&SIFT_DOWN, at + 27),
                QueuePart::Settle(Note::Move(armed.target.task, handle, instant)),
            ],
            lines,
        )
    }

    /// Appends the lines of a `reschedule_after`.
    pub(crate) fn push_move(
        &self,
        armed: &ArmedTask,
        threshold: u8,
        at: u32,
        lines: &mut Lines,
    ) -> Result<(), NoMemory>
        requires few { self.now.queue.messages ≤ CAPACITY * TASKS }
        requires rows { armed.now.rows ≤ CAPACITY }
        requires first { armed.now.first ≤ CAPACITY * TASKS }
        requires slots { self.now.slot + TIMER_QUEUE_WORDS < 2 ^ 32 }
        requires room { at + MOVE_LINES < 2 ^ 32 }
        ensures { OnOk result (Appends lines.old lines.new
            (spec.move_lines self.now.queue self.now.slot threshold armed.now at)) }
    {
        self.push_find(armed, threshold, ARGUMENTS, 85, at, lines)?;
        self.push_put_off(armed, at + 17, lines)?;
        self.push(
            &[
                QueuePart::Code(&ALARM, at + 76),
                QueuePart::Leave(threshold),
                QueuePart::Code(&[Template::Set(ANSWER, 0), Template::Jump(MOVE_LINES)], at),
                QueuePart::Leave(threshold),
                QueuePart::Code(&[Template::Set(ANSWER, 1)], at),
            ],
            lines,
        )
    }
}
