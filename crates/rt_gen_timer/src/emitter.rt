// Writes templates as instructions, once it is known where queue, slots and code are.

ghost use Rattle.std.specs.Prelude.{◌≡◌, true, ◌+◌, ◌*◌, ◌<◌, ◌≤◌, ◌^◌, IfNone, IfSome, OnOk};
ghost use Rattle.std.specs.List.{list_all};
ghost use Rattle.rt_ids.specs.declared.limits.TheConstants.{CAPACITY, TASKS};
ghost use Rattle.rt_app.specs.declared.costs.TheConstants.{TIMER_QUEUE_WORDS};
ghost use Rattle.rt_gen_queue.specs.Making.{Appends};
ghost use Rattle.rt_gen_timer.specs.Inside.Templates as spec;

use crate::queue::TimerQueue;
use crate::slots::{HAND, HOLE, MASK};
use crate::template::{Column, QueuePart, Template};
use rt_code::Instr;
use rt_gen_queue::Lines;
use rt_ids::{NoMemory, Section};

/// What writes code for a timer queue, in 24 slots of a frame.
#[derive(Clone, Copy)]
pub(crate) struct Emitter {
    pub(crate) queue: TimerQueue,
    /// The first of the slots.
    pub(crate) slot: u32,
}

impl Emitter {
    /// The instruction of a template, whose jump counts from an address. There is none where the address to which it
    /// jumps does not fit in 32 bits.
    fn instr(&self, template: &Template, at: u32) -> Option<Instr>
        requires few { self.now.queue.messages ≤ CAPACITY * TASKS }
        requires slots { self.now.slot + TIMER_QUEUE_WORDS < 2 ^ 32 }
        requires fits { spec.fits template.now ≡ true }
        ensures instr { IfSome result (λ instr. instr ≡ spec.instr_of self.now at template.now) }
        ensures cause { IfNone result (2 ^ 32 ≤ at + spec.distance_of template.now) }
    {
        let (queue, slot) = (self.queue, self.slot);
        Some(match *template {
            Template::Set(to, value) => Instr::Set(slot + to, value),
            Template::Copy(to, from) => Instr::Copy(slot + to, slot + from),
            Template::Calc(op, to, left, right) => {
                Instr::Calc(op, slot + to, slot + left, slot + right)
            }
            Template::Load(to, column) => Instr::Load(slot + to, queue.cell(column)),
            Template::Store(column, from) => Instr::Store(queue.cell(column), slot + from),
            Template::LoadAt(to, column, index) => {
                Instr::LoadAt(slot + to, queue.cell(column), slot + index)
            }
            Template::StoreAt(column, index, from) => {
                Instr::StoreAt(queue.cell(column), slot + index, slot + from)
            }
            Template::Jump(to) => Instr::Jump(at.checked_add(to)?),
            Template::Again => Instr::Jump(at),
            Template::JumpZero(tested, to) => Instr::JumpZ(slot + tested, at.checked_add(to)?),
            Template::Clock(to) => Instr::Clock(slot + to),
            Template::Alarm(instant) => Instr::Alarm(slot + instant, queue.irq),
            Template::NoAlarm => Instr::NoAlarm,
            Template::Ret => Instr::Ret,
        })
    }

    /// Appends the lines of templates, whose jumps count from an address.
    fn push_code(&self, code: &[Template], at: u32, lines: &mut Lines) -> Result<(), NoMemory>
        requires few { self.now.queue.messages ≤ CAPACITY * TASKS }
        requires slots { self.now.slot + TIMER_QUEUE_WORDS < 2 ^ 32 }
        requires fit { list_all spec.fits code.now ≡ true }
        ensures { OnOk result (Appends lines.old lines.new (spec.code_of self.now at code.now)) }
    {
        for template in code {
            lines.push(self.instr(template, at).ok_or(NoMemory)?)?;
        }
        Ok(())
    }

    /// Appends the lines of a part.
    fn push_part(&self, part: &QueuePart<'_, '_>, lines: &mut Lines) -> Result<(), NoMemory>
        requires few { self.now.queue.messages ≤ CAPACITY * TASKS }
        requires slots { self.now.slot + TIMER_QUEUE_WORDS < 2 ^ 32 }
        requires fits { spec.part_fits part.now ≡ true }
        ensures { OnOk result (Appends lines.old lines.new (spec.lines_of self.now part.now)) }
    {
        let (slot, guard) = (self.slot, self.queue.guard);
        match *part {
            QueuePart::Code(code, at) => self.push_code(code, at, lines),
            QueuePart::Enter(threshold) => {
                lines.append(&[guard.enter_line(Section::Timer, threshold, slot + MASK)])
            }
            QueuePart::Leave(threshold) => {
                lines.append(&[guard.leave_line(Section::Timer, threshold, slot + MASK)])
            }
            QueuePart::Settle(note) => {
                let heap = self.queue.cell(Column::Heap);
                lines.push_noted(Instr::StoreAt(heap, slot + HOLE, slot + HAND), note)
            }
            QueuePart::Lines(others) => lines.append(others),
        }
    }

    /// Appends the lines of parts, one after the other.
    pub(crate) fn push(
        &self,
        parts: &[QueuePart<'_, '_>],
        lines: &mut Lines,
    ) -> Result<(), NoMemory>
        requires few { self.now.queue.messages ≤ CAPACITY * TASKS }
        requires slots { self.now.slot + TIMER_QUEUE_WORDS < 2 ^ 32 }
        requires fit { list_all spec.part_fits parts.now ≡ true }
        ensures { OnOk result (Appends lines.old lines.new (spec.all_lines self.now parts.now)) }
    {
        for part in parts {
            self.push_part(part, lines)?;
        }
        Ok(())
    }
}
