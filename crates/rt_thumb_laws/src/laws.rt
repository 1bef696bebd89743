// The laws; each is a function whose contract states it.

ghost use Rattle.rt_thumb_laws.specs.Interrupting.{EntriesWriteTheirFrame, ReturnsGiveBack};
ghost use Rattle.rt_thumb_laws.specs.Late.{BarriersEndIt, LateIsPlain, LeaveIsGivenByWrites};
ghost use Rattle.rt_thumb_laws.specs.Late.{NothingElseDependsOnIt, WhatIsLetInMayBeLate};
ghost use Rattle.rt_thumb_laws.specs.Registers.{EventsKeepRegisters, InstructionsKeepRegisters};
ghost use Rattle.rt_thumb_laws.specs.Registers.{RegistersSetExecution, RegistersSetPriorities};
ghost use Rattle.rt_thumb_laws.specs.Taking.{NothingPreemptsATick, TheFirstIsTaken, TicksComeFirst};
ghost use Rattle.rt_thumb_laws.specs.Taking.{WhatIsTakenPreempts};
ghost use Rattle.rt_thumb_laws.specs.Undisturbed.{NothingDisturbs};

/// Whatever the handler of an exception did, its return gives back what its entry interrupted, and is no fault.
pub fn returns_give_back()
    ensures { ReturnsGiveBack }
{}

/// An exception's entry writes its frame below the stack pointer, at a multiple of 8, and nothing else.
pub fn entries_write_their_frame()
    ensures { EntriesWriteTheirFrame }
{}

/// The exception that is taken is, of those that may be, the one of the highest priority, and of equal ones the one of
/// the lowest number; none is taken only where none may be. It preempts all that are active.
pub fn the_first_is_taken()
    ensures first { TheFirstIsTaken }
    ensures preempts { WhatIsTakenPreempts }
{}

/// SysTick at the highest priority is taken before all others, and while it is active none is taken.
pub fn ticks_come_first()
    ensures first { TicksComeFirst }
    ensures alone { NothingPreemptsATick }
{}

/// Every instruction but a store to one of them leaves the interrupt controller's registers, and so does every event,
/// where the stack lies below them; and what the registers say of priorities is the same then.
pub fn registers_are_kept()
    ensures instructions { InstructionsKeepRegisters }
    ensures events { EventsKeepRegisters }
    ensures priorities { RegistersSetPriorities }
    ensures execution { RegistersSetExecution }
{}

/// To go late is to go where no exception is to be taken, and nothing but the leave to be late depends on that leave.
pub fn late_is_plain()
    ensures plain { LateIsPlain }
    ensures nothing_else { NothingElseDependsOnIt }
{}

/// The leave to be late comes with a write that lowers the execution priority, or pends or enables an interrupt, and
/// ends at the next barrier, entry or return. Where an instruction lets an exception be taken it gives that leave.
pub fn leave_is_given_by_writes()
    ensures given { LeaveIsGivenByWrites }
    ensures ends { BarriersEndIt }
    ensures let_in { WhatIsLetInMayBeLate }
{}

/// What runs at the execution priority 0 is led to the same state whatever comes in between, and that is pending then.
pub fn what_runs_at_top_is_undisturbed()
    ensures { NothingDisturbs }
{}
