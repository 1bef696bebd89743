// The lines of a `spawn_after`.

ghost use Rattle.std.specs.Prelude.{◌≡◌, ◌+◌, ◌*◌, ◌<◌, ◌≤◌, ◌^◌, OnOk};
ghost use Rattle.rt_ids.specs.declared.limits.TheConstants.{CAPACITY, TASKS};
ghost use Rattle.rt_app.specs.declared.costs.TheConstants.{TIMER_QUEUE_WORDS};
ghost use Rattle.rt_gen_queue.specs.Making.{Appends};
ghost use Rattle.rt_gen_timer.specs.TimerLines as spec;

use crate::armed::ArmedTask;
use crate::emitter::Emitter;
use crate::slots::{ANSWER, ARGUMENTS, MASK};
use rt_code::{Instr, Line, Note};
use rt_gen_queue::Lines;
use rt_gen_queue::parts::{fill, place};
use rt_ids::{NoMemory, Section};

impl Emitter {
    /// The lines after a message that is armed, with the answer 0 where no place is left.
    fn full(&self, armed: &ArmedTask, threshold: u8, end: u32) -> [Line; 3]
        requires slots { self.now.slot + TIMER_QUEUE_WORDS < 2 ^ 32 }
        ensures { result ≡ spec.full_lines self.now.queue self.now.slot threshold armed.now end }
    {
        let (task, guard) = (armed.target.task, armed.target.guard);
        [
            (Instr::Jump(end), None),
            (Instr::Set(self.slot + ANSWER, 0), Some(Note::Full(task))),
            guard.leave_line(Section::Free(task), threshold, self.slot + MASK),
        ]
    }

    /// Appends the lines of a `spawn_after`.
    pub(crate) fn push_after(
        &self,
        armed: &ArmedTask,
        threshold: u8,
        at: u32,
        lines: &mut Lines,
    ) -> Result<(), NoMemory>
        requires few { self.now.queue.messages ≤ CAPACITY * TASKS }
        requires slots { self.now.slot + TIMER_QUEUE_WORDS < 2 ^ 32 }
        requires room { at + 65 < 2 ^ 32 }
        requires arguments { armed.now.target.args ≤ 4 }
        requires before { armed.now.first ≤ CAPACITY * armed.now.target.task }
        ensures { OnOk result (Appends lines.old lines.new
            (spec.after_lines self.now.queue self.now.slot threshold armed.now at)) }
    {
        let args = u32::from(armed.target.args);
        let first = self.slot + ARGUMENTS;
        let full = at + (59 + args);
        lines.append(&place(&armed.target, threshold, first, full))?;
        fill(&armed.target, first, lines)?;
        self.push_arm(armed, threshold, at + (12 + args), lines)?;
        lines.append(&self.full(armed, threshold, full + 2))
    }
}
