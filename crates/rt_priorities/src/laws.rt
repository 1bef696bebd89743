// The laws; each is a function whose contract states it.

ghost use Rattle.rt_priorities.specs.Agreeing.{ExecutionPrioritiesAgree, TheyTakeTheSame};
ghost use Rattle.rt_priorities.specs.Controller.{ControllerSetsExecution, TakesWhatIsPicked};
ghost use Rattle.rt_priorities.specs.Keeping.{ArrivalsKeepAgreeing, EntriesKeepAgreeing, OthersKeepAgreeing};
ghost use Rattle.rt_priorities.specs.Keeping.{ReturnsKeepAgreeing};
ghost use Rattle.rt_priorities.specs.Loading.{TextIsLoaded};
ghost use Rattle.rt_priorities.specs.Setting.{ResetBeginsSo, ResetSetsUp};
ghost use Rattle.rt_priorities.specs.Ticking.{TicksAreOneEvent};
ghost use Rattle.rt_priorities.specs.Vectors.{EntriesLead, TicksLead};

/// A processor that says the same of interrupts as a core has its execution priority, and takes what it takes.
pub fn they_take_the_same()
    ensures execution { ExecutionPrioritiesAgree }
    ensures taken { TheyTakeTheSame }
{}

/// They go on agreeing, whatever both do: as an interrupt is entered, as its handler returns, as one arrives, and
/// otherwise as long as the registers of the interrupt controller and the active handlers stay.
pub fn they_keep_agreeing()
    ensures entries { EntriesKeepAgreeing }
    ensures returns { ReturnsKeepAgreeing }
    ensures arrivals { ArrivalsKeepAgreeing }
    ensures others { OthersKeepAgreeing }
{}

/// A processor that says the same as the interrupt controller of the model's code takes what that picks.
pub fn it_takes_what_is_picked()
    ensures execution { ControllerSetsExecution }
    ensures taken { TakesWhatIsPicked }
{}

/// After the first part of the code of reset the processor agrees with the core after reset, whatever comes meanwhile.
pub fn reset_sets_up()
    ensures sets_up { ResetSetsUp }
    ensures begins { ResetBeginsSo }
{}

/// From its entry to its return a tick is one event, whatever comes in between: the processor agrees with the core
/// after its tick, and what was interrupted goes on as it was.
pub fn ticks_are_one_event()
    ensures { TicksAreOneEvent }
{}

/// Where a program lies in flash, an interrupt's entry leads to what runs first as it is taken, and SysTick's to the
/// code of a tick.
pub fn entries_lead_to_their_code()
    ensures interrupts { EntriesLead }
    ensures ticks { TicksLead }
{}

/// Where the text of a program lies in flash, what the processor finds there is the program of the image.
pub fn text_is_loaded()
    ensures { TextIsLoaded }
{}
