// The parts that the sections of the timer queue share, as templates.

ghost use Rattle.std.specs.Prelude.{◌≡◌, ◌+◌, ◌*◌, ◌<◌, ◌≤◌, ◌^◌, OnOk};
ghost use Rattle.rt_ids.specs.declared.limits.TheConstants.{CAPACITY, TASKS};
ghost use Rattle.rt_app.specs.declared.costs.TheConstants.{TIMER_QUEUE_WORDS};
ghost use Rattle.rt_gen_queue.specs.Making.{Appends};
ghost use Rattle.rt_gen_timer.specs.TimerLines as spec;

use crate::emitter::Emitter;
use crate::heap::{SIFT_DOWN, SIFT_UP};
use crate::slots::{ANSWER, COUNT, HAND, HOLE, INSTANT, MASK, NUMBER, ONE, OTHER, PLACE, RIGHT};
use crate::template::{Column, QueuePart, Template};
use rt_code::{Instr, Line, Note};
use rt_gen_queue::Lines;
use rt_gen_queue::target::Target;
use rt_ids::limits::LONGEST_DELAY;
use rt_ids::{NoMemory, Op, Section};

/// The alarm is set to the least armed instant.
pub(crate) const ALARM: [Template; 6] = [
    Template::JumpZero(COUNT, 5),
    Template::Load(OTHER, Column::Heap),
    Template::LoadAt(OTHER, Column::Instants, OTHER),
    Template::Alarm(OTHER),
    Template::Jump(6),
    Template::NoAlarm,
];

/// A delay is added to the time. A delay above the longest counts as the longest.
pub(crate) const TIME: [Template; 6] = [
    Template::Clock(INSTANT),
    Template::Set(OTHER, LONGEST_DELAY),
    Template::Calc(Op::Gt, RIGHT, ANSWER, OTHER),
    Template::JumpZero(RIGHT, 5),
    Template::Copy(ANSWER, OTHER),
    Template::Calc(Op::Add, INSTANT, INSTANT, ANSWER),
];

/// There is one message fewer, and the last one comes in hand; or a jump past the lines of its removal, where it is the
/// one at the hole.
const LAST: [Template; 7] = [
    Template::Calc(Op::Sub, COUNT, COUNT, ONE),
    Template::Store(Column::Count, COUNT),
    Template::Calc(Op::Sub, OTHER, COUNT, HOLE),
    Template::JumpZero(OTHER, 54),
    Template::LoadAt(HAND, Column::Heap, COUNT),
    Template::LoadAt(INSTANT, Column::Instants, HAND),
    Template::LoadAt(NUMBER, Column::Numbers, HAND),
];

/// The row in hand comes to the hole.
const FILL: [Template; 1] = [Template::StoreAt(Column::Heap, HOLE, HAND)];

impl Emitter {
    /// Appends the lines by which the message at the hole leaves the heap.
    pub(crate) fn push_remove(&self, at: u32, lines: &mut Lines) -> Result<(), NoMemory>
        requires few { self.now.queue.messages ≤ CAPACITY * TASKS }
        requires slots { self.now.slot + TIMER_QUEUE_WORDS < 2 ^ 32 }
        requires room { at + 54 < 2 ^ 32 }
        ensures { OnOk result (Appends lines.old lines.new
            (spec.remove_lines self.now.queue self.now.slot at)) }
    {
        self.push(
            &[
                QueuePart::Code(&LAST, at),
                QueuePart::Code(&SIFT_UP, at + 7),
                QueuePart::Code(&SIFT_DOWN, at + 22),
                QueuePart::Code(&FILL, at),
            ],
            lines,
        )
    }

    /// The lines by which the place in a slot becomes free again.
    pub(crate) fn free(&self, target: &Target, threshold: u8) -> [Line; 6]
        requires slots { self.now.slot + TIMER_QUEUE_WORDS < 2 ^ 32 }
        ensures { result ≡ spec.free_lines self.now.queue self.now.slot threshold target.now }
    {
        let (task, guard) = (target.task, target.guard);
        let free = u32::from(target.free);
        let (count, place) = (self.slot + COUNT, self.slot + PLACE);
        let (one, mask) = (self.slot + ONE, self.slot + MASK);
        [
            guard.enter_line(Section::Free(task), threshold, mask),
            (Instr::Load(count, free), None),
            (Instr::StoreAt(free + 1, count, place), None),
            (Instr::Calc(Op::Add, count, count, one), None),
            (Instr::Store(free, count), Some(Note::Free(task))),
            guard.leave_line(Section::Free(task), threshold, mask),
        ]
    }
}
