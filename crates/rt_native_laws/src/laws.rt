// The laws, by kinds of instructions.

ghost use Rattle.rt_native_laws.specs.Above.{PrivateKeepsAbove, StepsKeepAbove, TicksKeepAbove};
ghost use Rattle.rt_native_laws.specs.Above.{WordsStay, WordsStayInPrivate, WordsStayInSteps};
ghost use Rattle.rt_native_laws.specs.Alike.{StepsAreAlike};
ghost use Rattle.rt_native_laws.specs.Arriving.{ArrivalsKeepPhases, ChangesKeepPhases, PendingTicksKeepPhases};
ghost use Rattle.rt_native_laws.specs.Deep.{PhasesAreWithinFrames, StackIsNoDeeper};
ghost use Rattle.rt_native_laws.specs.Filed.{FilesArePrograms, FlashHasAProgram};
ghost use Rattle.rt_native_laws.specs.FromReset.{NativeSimulatesFromReset, ResetLeadsBehind};
ghost use Rattle.rt_native_laws.specs.Functions.{EntryCallsFirst, FunctionsPutWords};
ghost use Rattle.rt_native_laws.specs.Inputs.{EntryReadsInputs, ReadingGoesOn, ReadingIsKept};
ghost use Rattle.rt_native_laws.specs.EachKind.{EachKindGoesOn};
ghost use Rattle.rt_native_laws.specs.Existing.{FilesCanBeHeld};
ghost use Rattle.rt_native_laws.specs.Laws.{SetIsDone, CopyIsDone, CalculationIsDone, JumpIsDone, JumpIfZeroIsDone};
ghost use Rattle.rt_native_laws.specs.Laws.{MarkIsDone, WaitIsDone, LoadIsDone, StoreIsDone, LoadAtIsDone};
ghost use Rattle.rt_native_laws.specs.Laws.{StoreAtIsDone, EmitIsDone, ClockIsDone, RaiseIsDone, RestoreIsDone};
ghost use Rattle.rt_native_laws.specs.Laws.{MaskIsDone, UnmaskIsDone, ServeIsDone, PostIsDone, NoAlarmIsDone};
ghost use Rattle.rt_native_laws.specs.Laws.{RetIsDone, BackIsDone, CallIsDone, AlarmIsDone, PrivateIsUnseen};
ghost use Rattle.rt_native_laws.specs.Laws.{PrivateIsUndisturbed, WordsAreKept};
ghost use Rattle.rt_native_laws.specs.Going.{OneEventIsOneStepOrNone, MarkIsNoEvent, WhatIsLateIsNothing};
ghost use Rattle.rt_native_laws.specs.Leaving.{BackGoesOn, CallBegins, RetGoesOn, ReturnResumes};
ghost use Rattle.rt_native_laws.specs.Linked.{LinkedCodeIsThere, LinkedEntriesLead, LinkedServiceLies};
ghost use Rattle.rt_native_laws.specs.Loading.{LoadedCodeIsThere, LoadedEntriesLead};
ghost use Rattle.rt_native_laws.specs.Opening.{OpeningIsDone};
ghost use Rattle.rt_native_laws.specs.Owing.{CeilingsHoldOff, HappeningsAreAlike, NoneAboveSetsAlarms};
ghost use Rattle.rt_native_laws.specs.Owing.{TailsOweSo, TicksInTails, TicksLeaveOwed, TicksPay};
ghost use Rattle.rt_native_laws.specs.Phases.{ToComeIsKept, DoneIsKept, EnteringIsKept, CallingIsKept};
ghost use Rattle.rt_native_laws.specs.Relating.{EntriesLeadOn, InstructionsLeadOn, LateInstructionsLeadOn};
ghost use Rattle.rt_native_laws.specs.Relating.{ChangesLeadOn, PendingTicksLeadOn, RequestsLeadOn};
ghost use Rattle.rt_native_laws.specs.Resetting.{ResetHasTwoParts, ResetLeads};
ghost use Rattle.rt_native_laws.specs.Saving.{EntryPushesBelow, EntryIsUndone};
ghost use Rattle.rt_native_laws.specs.Simulating.{NativeSimulates};
ghost use Rattle.rt_native_laws.specs.Tail.{AlarmIsStored, TailGoesOn, TailIsKept, TailsAreNoFault};
ghost use Rattle.rt_native_laws.specs.Throughout.{EveryListIsSimulated};
ghost use Rattle.rt_native_laws.specs.Ticking.{TickIsServed};
ghost use Rattle.rt_native_laws.specs.WithFunctions.{LinkedSimulates, LinkedSimulatesFromReset};
ghost use Rattle.rt_native_laws.specs.Waiting.{PhasesShow, WaitingIsKept, EntryAddsAJob, EntryBegins};
ghost use Rattle.rt_native_laws.specs.GoingInCall.{CallGoesOn, CallIsKept, CallIsNoFault, EntryBeginsCall};
ghost use Rattle.rt_native_laws.specs.GoingInCall.{FunctionGoesOn, ReturnsToCall};

/// The code of `set`, of `copy` and of the operations does what they do, and nobody else sees anything of it.
pub fn moves_are_done()
    ensures set { SetIsDone }
    ensures copy { CopyIsDone }
    ensures calculation { CalculationIsDone }
{}

/// The code of `jump`, `jumpz`, `mark` and `wait` does what they do, and nobody else sees anything of it.
pub fn jumps_are_done()
    ensures jump { JumpIsDone }
    ensures jump_if_zero { JumpIfZeroIsDone }
    ensures mark { MarkIsDone }
    ensures wait { WaitIsDone }
{}

/// The code of `load`, `store`, `loadat`, `storeat`, `emit` and `clock` does what they do, and of each others see one
/// machine instruction.
pub fn accesses_are_done()
    ensures load { LoadIsDone }
    ensures store { StoreIsDone }
    ensures load_at { LoadAtIsDone }
    ensures store_at { StoreAtIsDone }
    ensures emit { EmitIsDone }
    ensures clock { ClockIsDone }
{}

/// The code of `raise`, `restore`, `mask`, `unmask` and `serve` does what they do, and of each others see one machine
/// instruction.
pub fn masks_are_done()
    ensures raise { RaiseIsDone }
    ensures restore { RestoreIsDone }
    ensures mask { MaskIsDone }
    ensures unmask { UnmaskIsDone }
    ensures serve { ServeIsDone }
{}

/// The code of `post` and `noalarm` does what they do, and of each others see one machine instruction.
pub fn requests_are_done()
    ensures post { PostIsDone }
    ensures no_alarm { NoAlarmIsDone }
{}

/// The code of `call` and `back` does what they do, and others see nothing of it but a frame that comes into being.
pub fn calls_are_done()
    ensures call { CallIsDone }
    ensures back { BackIsDone }
{}

/// The code of `ret` gives up the handler's frame, and then the processor returns from the exception.
pub fn returns_are_done()
    ensures { RetIsDone }
{}

/// The code of `alarm` does what it does, run with no exception taken in its tail.
pub fn alarms_are_done()
    ensures { AlarmIsDone }
{}

/// What runs first as an interrupt is taken makes room for its handler's frame, and leads to the handler's code.
pub fn openings_are_done()
    ensures { OpeningIsDone }
{}

/// The handler of ticks is a tick of the core.
pub fn ticks_are_served()
    ensures { TickIsServed }
{}

/// What is executed privately is seen by nobody else, and is not disturbed by what others do.
pub fn private_is_unseen()
    ensures unseen { PrivateIsUnseen }
    ensures undisturbed { PrivateIsUndisturbed }
{}

/// An instruction leaves words of 32 bits in registers and memory.
pub fn words_are_kept()
    ensures { WordsAreKept }
{}

/// Exception entry pushes eight words, and exception return gives an interrupted job back what they saved.
pub fn entries_are_undone()
    ensures pushed { EntryPushesBelow }
    ensures undone { EntryIsUndone }
{}

/// What others do leaves each job in its phase.
pub fn phases_are_kept()
    ensures to_come { ToComeIsKept }
    ensures done { DoneIsKept }
    ensures entering { EnteringIsKept }
    ensures calling { CallingIsKept }
{}

/// A machine instruction of the job that runs, where no exception is taken before it, is one step of the core or
/// nothing to it, but for the reading of inputs and the tail of an `alarm`; where one might have been taken already it
/// is nothing.
pub fn events_are_steps()
    ensures one { OneEventIsOneStepOrNone }
    ensures mark { MarkIsNoEvent }
    ensures late { WhatIsLateIsNothing }
{}

/// Jobs that were interrupted are in their phases, whatever runs above them; and an entry adds what runs to them.
pub fn jobs_wait()
    ensures shown { PhasesShow }
    ensures kept { WaitingIsKept }
    ensures added { EntryAddsAJob }
    ensures begins { EntryBegins }
{}

/// A machine instruction of an `alarm` is nothing to the core, or the store by which the core has done it; behind the
/// store it is nothing.
pub fn alarms_are_steps()
    ensures stored { AlarmIsStored }
    ensures tail { TailGoesOn }
    ensures kept { TailIsKept }
    ensures no_fault { TailsAreNoFault }
{}

/// As an interrupt is taken whose handler has inputs, each word that a device's register has comes into its cell.
pub fn inputs_are_read()
    ensures begins { EntryReadsInputs }
    ensures goes { ReadingGoesOn }
    ensures kept { ReadingIsKept }
{}

/// A function of C runs first as an interrupt is taken, where it keeps to the procedure call standard and is harmless
/// to what is ours: behind it the handler's inputs are read, and its frame comes into being, as without it.
pub fn functions_come_first()
    ensures first { EntryCallsFirst }
    ensures words { FunctionsPutWords }
{}

/// A job that calls its function of C may be interrupted anywhere: each machine instruction leads it on in its call,
/// the function's too, and what others do leaves it there, where it goes on as the handler returns.
pub fn calls_go_on()
    ensures begins { EntryBeginsCall }
    ensures goes { CallGoesOn }
    ensures no_fault { CallIsNoFault }
    ensures function { FunctionGoesOn }
    ensures kept { CallIsKept }
    ensures resumes { ReturnsToCall }
{}

/// Where a program lies in flash, each instruction's code is at its place, and entries lead to what runs first.
pub fn loaded_code_is_there()
    ensures code { LoadedCodeIsThere }
    ensures entries { LoadedEntriesLead }
{}

/// A linker writes the calls of functions alone: the image's code is at its places, entries lead to the calls, and
/// ticks and reset are served as without.
pub fn linked_code_is_there()
    ensures code { LinkedCodeIsThere }
    ensures entries { LinkedEntriesLead }
    ensures service { LinkedServiceLies }
{}

/// The rest of reset's code, behind what sets interrupts, leads to the core after reset, whatever comes meanwhile.
pub fn reset_leads()
    ensures parts { ResetHasTwoParts }
    ensures leads { ResetLeads }
{}

/// A machine instruction of `back` or `ret` is nothing to the core, or its step, and the first one of `call` its step;
/// and an exception return leads to what waited last.
pub fn jobs_leave()
    ensures call { CallBegins }
    ensures back { BackGoesOn }
    ensures ret { RetGoesOn }
    ensures resumes { ReturnResumes }
{}

/// At each machine instruction the stack is no deeper than the model's.
pub fn stack_is_no_deeper()
    ensures frames { PhasesAreWithinFrames }
    ensures depth { StackIsNoDeeper }
{}

/// What runs leaves alone what lies above it, and words are words.
pub fn others_are_left()
    ensures private { PrivateKeepsAbove }
    ensures steps { StepsKeepAbove }
    ensures ticks { TicksKeepAbove }
    ensures words { WordsStay }
    ensures private_words { WordsStayInPrivate }
    ensures step_words { WordsStayInSteps }
{}

/// A machine instruction of the job that runs is no fault, and nothing to the core, its step, or the return of its
/// `ret`: of every kind of instruction but `alarm` and `mark`, and from every phase but the reading of inputs.
pub fn each_kind_goes_on()
    ensures { EachKindGoesOn }
{}

/// A request that comes, of a device or of SysTick, leaves the job that runs in its phase, at the core that has it too;
/// and so does a device that changes its register.
pub fn requests_come()
    ensures arrivals { ArrivalsKeepPhases }
    ensures ticks { PendingTicksKeepPhases }
    ensures changes { ChangesKeepPhases }
{}

/// A machine instruction, where no exception is taken before it, is no fault; and behind it the processor is where the
/// image is, as it was before.
pub fn instructions_lead_on()
    ensures next { InstructionsLeadOn }
    ensures late { LateInstructionsLeadOn }
{}

/// A request comes to the processor and to the image, and both are where they were. So they are as a device changes its
/// register.
pub fn requests_lead_on()
    ensures requests { RequestsLeadOn }
    ensures ticks { PendingTicksLeadOn }
    ensures changes { ChangesLeadOn }
{}

/// An interrupt is taken, and the processor is where the image is then.
pub fn entries_lead_on()
    ensures { EntriesLeadOn }
{}

/// Behind reset native code does what its image does, event after event.
pub fn native_simulates()
    ensures { NativeSimulates }
{}

/// So does the program of an object that is linked with functions of C, beside functions that are harmless and keep to
/// the procedure call standard: at each event, and at each machine instruction of a function, which may be interrupted;
/// behind reset, and from reset on.
pub fn linked_simulates()
    ensures behind { LinkedSimulates }
    ensures reset { LinkedSimulatesFromReset }
{}

/// An alarm that has come changes no step of others, who set none and do not take its interrupt.
pub fn alarms_change_no_other_step()
    ensures { StepsAreAlike }
{}

/// While an alarm is owed others are held off by its ceiling, and what happens leads both moments on alike; a tick at
/// which it is due pays.
pub fn alarms_are_owed()
    ensures held_off { CeilingsHoldOff }
    ensures above { NoneAboveSetsAlarms }
    ensures alike { HappeningsAreAlike }
    ensures pay { TicksPay }
    ensures owed { TicksLeaveOwed }
    ensures so { TailsOweSo }
    ensures ticks { TicksInTails }
{}

/// From reset on, whatever interrupts arrive, the code of reset leads to where native code does what its image does;
/// and from there on it does.
pub fn native_simulates_from_reset()
    ensures leads { ResetLeadsBehind }
    ensures simulates { NativeSimulatesFromReset }
{}

/// From reset on, whatever list of events comes: as long as the code of reset runs there is no fault, others see
/// nothing, and the stack is within the thread's frame; and behind it native code does what its image does.
pub fn every_list_is_simulated()
    ensures { EveryListIsSimulated }
{}

/// Whatever lies in flash, there is a program that is that. Where it is the file of an image, a processor that begins
/// after reset begins with the program of the image.
pub fn files_are_programs()
    ensures has { FlashHasAProgram }
    ensures files { FilesArePrograms }
{}

/// There is a processor whose memory holds an image's file, as reset leaves it.
pub fn files_can_be_held()
    ensures { FilesCanBeHeld }
{}
