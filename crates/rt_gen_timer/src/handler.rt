// The lines of the timer handler.

ghost use Rattle.std.specs.Prelude.{◌+◌, ◌*◌, ◌<◌, ◌≤◌, ◌^◌, OnOk};
ghost use Rattle.rt_ids.specs.declared.limits.TheConstants.{CAPACITY, TASKS};
ghost use Rattle.rt_app.specs.declared.costs.TheConstants.{TIMER_QUEUE_WORDS};
ghost use Rattle.rt_gen_queue.specs.Making.{Appends};
ghost use Rattle.rt_gen_timer.specs.TimerLines as spec;

use crate::armed::ArmedTask;
use crate::emitter::Emitter;
use crate::section::ALARM;
use crate::slots::{ANSWER, ARGUMENTS, COUNT, HOLE, INSTANT, ONE, OTHER, PLACE, TWO};
use crate::template::{Column, QueuePart, Template};
use rt_code::{Instr, Note};
use rt_gen_queue::Lines;
use rt_gen_queue::parts::ready;
use rt_ids::{NoMemory, Op};

/// The first line of the timer handler where no message is due, counted from its first.
pub(crate) const IDLE_OFFSET: u32 = 10;

/// Its first line where one is due.
const DUE_OFFSET: u32 = 18;

/// The lines of a task.
pub(crate) const CHOICE_LINES: u32 = 26;

/// The lines before the tasks.
pub(crate) const FRONT_LINES: u32 = 73;

/// After the line that opens the section: a jump where nothing is armed, and another where a message is due.
const DUE: [Template; 9] = [
    Template::Set(ONE, 1),
    Template::Set(TWO, 2),
    Template::Clock(ANSWER),
    Template::Load(COUNT, Column::Count),
    Template::JumpZero(COUNT, IDLE_OFFSET),
    Template::Load(PLACE, Column::Heap),
    Template::LoadAt(INSTANT, Column::Instants, PLACE),
    Template::Calc(Op::Lt, OTHER, ANSWER, INSTANT),
    Template::JumpZero(OTHER, DUE_OFFSET),
];

impl Emitter {
    /// Appends the lines of the timer handler before the tasks.
    pub(crate) fn push_front(
        &self,
        threshold: u8,
        at: u32,
        lines: &mut Lines,
    ) -> Result<(), NoMemory>
        requires few { self.now.queue.messages ≤ CAPACITY * TASKS }
        requires slots { self.now.slot + TIMER_QUEUE_WORDS < 2 ^ 32 }
        requires room { at + FRONT_LINES < 2 ^ 32 }
        ensures { OnOk result (Appends lines.old lines.new
            (spec.front_lines self.now.queue self.now.slot threshold at)) }
    {
        self.push(
            &[
                QueuePart::Enter(threshold),
                QueuePart::Code(&DUE, at),
                QueuePart::Code(&ALARM, at + IDLE_OFFSET),
                QueuePart::Leave(threshold),
                QueuePart::Code(&[Template::Ret, Template::Set(HOLE, 0)], at),
            ],
            lines,
        )?;
        self.push_remove(at + (DUE_OFFSET + 1), lines)
    }

    /// Appends the lines by which a message of a task becomes ready, with the test whether it is of the task.
    pub(crate) fn push_choice(
        &self,
        armed: &ArmedTask,
        threshold: u8,
        at: u32,
        lines: &mut Lines,
    ) -> Result<(), NoMemory>
        requires few { self.now.queue.messages ≤ CAPACITY * TASKS }
        requires slots { self.now.slot + TIMER_QUEUE_WORDS < 2 ^ 32 }
        requires room { at + CHOICE_LINES < 2 ^ 32 }
        requires first { armed.now.first ≤ CAPACITY * TASKS }
        requires rows { armed.now.rows ≤ CAPACITY }
        requires before { armed.now.first ≤ CAPACITY * armed.now.target.task }
        ensures { OnOk result (Appends lines.old lines.new
            (spec.choice_lines self.now.queue self.now.slot threshold armed.now at)) }
    {
        let offset = armed.word_offset();
        let word = [
            Template::Set(OTHER, armed.first + armed.rows),
            Template::Calc(Op::Lt, OTHER, PLACE, OTHER),
            Template::JumpZero(OTHER, CHOICE_LINES),
            Template::Set(OTHER, offset),
            Template::Calc(Op::Add, PLACE, PLACE, OTHER),
        ];
        self.push(
            &[
                QueuePart::Code(&word, at),
                QueuePart::Lines(&[(Instr::Mark, Some(Note::Fire(armed.target.task)))]),
                QueuePart::Code(&ALARM, at + 6),
                QueuePart::Leave(threshold),
                QueuePart::Lines(&ready(&armed.target, threshold, self.slot + ARGUMENTS)),
                QueuePart::Code(&[Template::Ret], at),
            ],
            lines,
        )
    }
}
