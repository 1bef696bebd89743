// How a section of a ceiling opens and closes: a mark, BASEPRI or PRIMASK.

ghost use Rattle.std.specs.Prelude.{◌≡◌, ◌≤◌, ◌^◌};
ghost use Rattle.rt_code.specs.Masking as masking;
ghost use Rattle.rt_gen_queue.specs.Guards.{guard_of_ceiling, kind_of, enter_line, leave_line};

use rt_code::{Instr, Line, Note};
use rt_ids::limits::THREAD_VALUE;
use rt_ids::{Prio, Section};

/// How the sections of a ceiling hold others off.
#[derive(Clone, Copy)]
pub struct Guard {
    /// The priority ceiling of what the sections guard.
    pub ceiling: u8,
    /// The priority value of the ceiling: 0 is that of the highest priority, and 256 that of the thread.
    pub value: u16,
}

impl Guard {
    /// The guard of a ceiling, with so many bits of priorities.
    pub fn of(bits: u8, ceiling: u8) -> Guard
        requires few_bits { 3 ≤ bits }
        requires many_bits { bits ≤ 7 }
        requires greatest { ceiling ≤ 2 ^ bits }
        ensures { result ≡ guard_of_ceiling bits ceiling }
    {
        let value = if ceiling == 0 {
            THREAD_VALUE
        } else {
            u16::from(Prio(ceiling).hw(bits))
        };
        Guard { ceiling, value }
    }

    /// The instruction that opens a section, at a preemption threshold that what runs holds off already, with a slot
    /// for what the mask was.
    pub fn opening_instr(self, threshold: u8, slot: u32) -> Instr
        ensures { result ≡ masking.opening_instr self.value (kind_of self threshold slot) }
    {
        if self.ceiling <= threshold {
            Instr::Mark
        } else if self.value == 0 {
            Instr::Mask(slot)
        } else {
            Instr::Raise(slot, u32::from(self.value))
        }
    }

    /// The instruction that closes it.
    pub fn closing_instr(self, threshold: u8, slot: u32) -> Instr
        ensures { result ≡ masking.closing_instr (kind_of self threshold slot) }
    {
        if self.ceiling <= threshold {
            Instr::Mark
        } else if self.value == 0 {
            Instr::Unmask(slot)
        } else {
            Instr::Restore(slot)
        }
    }

    /// The line that opens a section at a preemption threshold, with a slot for what the mask was.
    pub fn enter_line(self, section: Section, threshold: u8, slot: u32) -> Line
        ensures { result ≡ enter_line section self threshold slot }
    {
        (
            self.opening_instr(threshold, slot),
            Some(Note::Enter(section)),
        )
    }

    /// The line that closes it.
    pub fn leave_line(self, section: Section, threshold: u8, slot: u32) -> Line
        ensures { result ≡ leave_line section self threshold slot }
    {
        (
            self.closing_instr(threshold, slot),
            Some(Note::Leave(section)),
        )
    }
}
