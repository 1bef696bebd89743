// What a core step is made of.

ghost use Rattle.std.specs.Prelude.{◌≡◌, ◌≢◌, ℕ, suc, ◌+◌, ◌-◌, ◌<◌, ◌≤◌, ◌^◌, true, Option, Some, None, option_map};
ghost use Rattle.std.specs.Prelude.{slice_get, Ok, IfOk, IfErr, OnErr};
ghost use Rattle.rt_code.specs.Effect.{effect};
ghost use Rattle.rt_code.specs.Processor.{Traps, Leads};
ghost use Rattle.rt_code.specs.declared.processor.Request.TheVariants as request;
ghost use Rattle.rt_core.specs.Core as spec;
ghost use Rattle.rt_core.specs.Priority as priority;
ghost use Rattle.rt_core.specs.Outcome.{Outcome, Trapped, settle};
ghost use Rattle.rt_core.specs.Note as notes;
ghost use Rattle.rt_core.specs.Stepping as stepping;
ghost use Rattle.rt_core.specs.Reaching.{Reaches, StepsToItem};
ghost use Rattle.rt_core.specs.Inside.Came.{IsOutcome, effect_of, note_at};
ghost use Rattle.rt_core.specs.Inside.Begun.{outcome_of_rest};

use crate::alarm::Alarm;
use crate::execution::{changes_a_mask, execution_of};
use crate::machine::Core;
use rt_code::{Instr, Note, Request, Trap};
use rt_ids::{Irq, Section};
use rt_trace::{Args, What};

/// The number of the first external interrupt's exception.
const FIRST_EXCEPTION: u32 = 16;

/// The steps that are taken before the core looks whether it waits.
const STEPS_AT_ONCE: u32 = 64;

/// How far a core step has come.
#[derive(Clone, Copy)]
enum Begun {
    /// It is done, and gives nothing.
    Silent,
    /// An interrupt is to be taken.
    Entry(Irq),
    /// An instruction is done that asks nothing of the core; the item of its note is to be given.
    Noted,
    /// An instruction has had its own effect, or has trapped; what it asks is to be done.
    Asked,
}

impl Core {
    /// The interrupt that is taken next.
    fn irq_to_take(&self) -> Option<Irq>
        ensures { result ≡ option_map (λ row. row.number) (priority.pick self.now.image self.now.core) }
    {
        self.nvic.pick(self.execution)
    }

    /// The exception number of what runs, and 0 for the thread.
    fn exception_number(&self) -> u32
        ensures { result ≡ spec.exception_number self.now.core.below }
    {
        match self.nvic.last_entered() {
            Some(irq) => FIRST_EXCEPTION + u32::from(irq.get()),
            None => 0,
        }
    }

    /// Exception entry.
    fn exception_entry(&mut self, irq: Irq) -> Result<Option<What>, Trap>
        requires { option_map (λ row. row.number) (priority.pick self.old.image self.old.core) ≡ Some irq }
        ensures outcome { IsOutcome result self.new.core
            (stepping.attempt self.old.image self.old.core (priority.pick self.old.image self.old.core)) }
        ensures rest { self.new ≡ record self.old { core = self.new.core } }
    {
        let Some(handler) = self.program.handler(irq) else {
            return Ok(None);
        };
        let number = self.exception_number();
        if !self
            .frames
            .enter(number, self.registers.address, handler.frame)
        {
            return Err(Trap::Stack);
        }
        self.nvic.enter(irq);
        self.registers.address = handler.entry;
        self.execution = execution_of(&self.nvic, &self.registers);
        Ok(Some(What::Take(irq, self.frames.depth())))
    }

    /// Exception return.
    fn exception_return(&mut self) -> Result<Option<What>, Trap>
        ensures outcome { IsOutcome result self.new.core (stepping.answer self.old.image self.old.core request.Return) }
        ensures rest { self.new ≡ record self.old { core = self.new.core } }
    {
        let Some(address) = self.frames.leave() else {
            return Err(Trap::Stack);
        };
        self.registers.address = address;
        let irq = self.nvic.leave();
        self.execution = execution_of(&self.nvic, &self.registers);
        Ok(Some(What::Ret(irq)))
    }

    /// A call of a body.
    fn call(&mut self, row: u32, from: u32) -> Result<Option<What>, Trap>
        requires { self.old.core.processor.address + 1 < 2 ^ 32 }
        ensures outcome { IsOutcome result self.new.core
            (stepping.answer self.old.image self.old.core (request.Call row from)) }
        ensures rest { self.new ≡ record self.old { core = self.new.core } }
    {
        if !self.frames.may_call() {
            return Err(Trap::Stack);
        }
        let Some(body) = self.program.body(row) else {
            return Err(Trap::Jump);
        };
        let entry = body.entry;
        let next = self.registers.address + 1;
        if !self.frames.call(body, from, next) {
            return Err(Trap::Stack);
        }
        self.registers.address = entry;
        Ok(None)
    }

    /// A body's return.
    fn back(&mut self) -> Result<Option<What>, Trap>
        ensures outcome { IsOutcome result self.new.core (stepping.answer self.old.image self.old.core request.Back) }
        ensures rest { self.new ≡ record self.old { core = self.new.core } }
    {
        let Some(address) = self.frames.back() else {
            return Err(Trap::Stack);
        };
        self.registers.address = address;
        Ok(None)
    }

    /// Sets the alarm to an instant, for an interrupt, which becomes pending at once where the instant has come.
    fn set_alarm(&mut self, instant: u32, irq: Irq) -> Result<Option<What>, Trap>
        ensures outcome { IsOutcome result self.new.core
            (stepping.answer self.old.image self.old.core (request.Alarm instant irq)) }
        ensures rest { self.new ≡ record self.old { core = self.new.core } }
    {
        if instant <= self.time {
            self.nvic.post(irq);
            self.alarm = None;
            return Ok(Some(What::Alarm));
        }
        self.alarm = Some(Alarm { instant, irq });
        Ok(Some(What::AlarmSet))
    }

    /// What an instruction asks of the core.
    fn answer(&mut self, asked: Request) -> Result<Option<What>, Trap>
        requires { (row from : ℕ) → asked ≡ request.Call row from → self.old.core.processor.address + 1 < 2 ^ 32 }
        ensures outcome { IsOutcome result self.new.core (stepping.answer self.old.image self.old.core asked) }
        ensures rest { self.new ≡ record self.old { core = self.new.core } }
    {
        match asked {
            Request::Nothing => Ok(None),
            Request::Emit(value) => Ok(Some(What::Emit(value))),
            Request::Post(irq) => {
                self.nvic.post(irq);
                Ok(Some(What::Post(irq)))
            }
            Request::Clock(time) => Ok(Some(What::Clock(time))),
            Request::Alarm(instant, irq) => self.set_alarm(instant, irq),
            Request::NoAlarm => {
                self.alarm = None;
                Ok(Some(What::AlarmSet))
            }
            Request::Call(row, from) => self.call(row, from),
            Request::Back => self.back(),
            Request::Return => self.exception_return(),
        }
    }

    /// The value that a leave of a section shows.
    fn left_value(&self, section: &Section) -> Option<u32>
        ensures { result ≡ notes.left_value self.now.image self.now.core section.now }
    {
        match section {
            Section::Res(resource) => {
                let cell = self.program.resource_cell(*resource)?;
                self.cells.get(cell).copied()
            }
            Section::Free(_) | Section::Ready(_) | Section::Timer => None,
        }
    }

    /// So many slots from one on, at most four, where they are in the frame.
    fn slots_from(&self, from: u32, count: u8) -> Option<Args>
        requires { count < 5 }
        ensures { result ≡ notes.slots_from self.now.core from count }
    {
        if count == 0 {
            return Some(Args::of(&[]));
        }
        let from = from as usize;
        let slots = self.frames.slots();
        let end = from + usize::from(count);
        if end > slots.len() {
            return None;
        }
        Some(Args::of(&slots[from..end]))
    }

    /// The word of a slot, where it is in the frame.
    fn slot(&self, slot: u32) -> Option<u32>
        ensures { result ≡ slice_get self.now.core.processor.slots slot }
    {
        self.frames.slots().get(slot as usize).copied()
    }

    /// The item of a note, and None where a slot that it names is not in the frame.
    #[inline(always)]
    fn item_of_note(&self, note: Note) -> Option<What>
        ensures { result ≡ notes.item_of_note self.now.image self.now.core note }
    {
        match note {
            Note::Enter(section) => Some(What::Enter(section)),
            Note::Leave(section) => {
                let value = self.left_value(&section);
                Some(What::Leave(section, value))
            }
            Note::Placed(task) => Some(What::Placed(task)),
            Note::Full(task) => Some(What::Full(task)),
            Note::Ready(task) => Some(What::Ready(task)),
            Note::Start(task, from) => {
                let count = self.program.argument_count(task);
                let args = self.slots_from(from, count)?;
                Some(What::Start(task, args))
            }
            Note::Free(task) => Some(What::Free(task)),
            Note::Arm(task, slot) => {
                let instant = self.slot(slot)?;
                Some(What::Arm(task, instant))
            }
            Note::Fire(task) => Some(What::Fire(task)),
            Note::Cancel(task, slot) => {
                let handle = self.slot(slot)?;
                Some(What::Cancel(task, handle))
            }
            Note::Move(task, slot, from) => {
                let handle = self.slot(slot)?;
                let instant = self.slot(from)?;
                Some(What::Move(task, handle, instant))
            }
            Note::End(body) => Some(What::End(body)),
        }
    }

    /// The instruction's own effect. A trap changes nothing.
    fn execute(&mut self, instr: Instr) -> Result<Request, Trap>
        requires { self.old.core.processor.address + 1 < 2 ^ 32 }
        ensures ok { IfOk result (λ asked. effect instr self.old.core.time self.old.core.processor
            ≡ Leads self.new.core.processor asked) }
        ensures err { IfErr result (λ trap. effect instr self.old.core.time self.old.core.processor ≡ Traps trap) }
        ensures unchanged { OnErr result (self.new ≡ self.old) }
        ensures rest { self.new ≡ record self.old {
          core = record self.old.core {
            processor =
                self.new.core.processor;
          };
        } }
    {
        let asked = self
            .frames
            .execute(instr, self.time, &mut self.registers, &mut self.cells)?;
        if changes_a_mask(&instr) {
            self.execution = execution_of(&self.nvic, &self.registers);
        }
        Ok(asked)
    }

    /// What comes of an instruction that had its own effect: the item is that of the instruction itself, else of the
    /// note.
    fn finish(
        &mut self,
        came: Result<Request, Trap>,
        note: Option<Note>,
    ) -> Result<Option<What>, Trap>
        requires { (row from : ℕ) → came ≡ Ok (request.Call row from)
            → self.old.core.processor.address + 1 < 2 ^ 32 }
        ensures outcome { IsOutcome result self.new.core
            (stepping.go_on self.old.image self.old.core note (effect_of self.old.core.processor came)) }
        ensures rest { self.new ≡ record self.old { core = self.new.core } }
    {
        let asked = came?;
        let shown = self.answer(asked)?;
        match (note, shown) {
            (Some(note), None) => Ok(Some(self.item_of_note(note).ok_or(Trap::Stack)?)),
            (_, shown) => Ok(shown),
        }
    }

    /// A trap stops the core and shows its number.
    #[inline(never)]
    fn stop(&mut self, trap: Trap) -> Option<What>
        ensures settled { settle (Trapped self.old.core trap) ≡ (self.new.core, result) }
        ensures rest { self.new ≡ record self.old { core = self.new.core } }
    {
        self.stopped = true;
        Some(What::Trap(trap.number()))
    }

    /// The item of what came of a step.
    fn settle(&mut self, came: Result<Option<What>, Trap>) -> Option<What>
        ensures settled { (outcome : Outcome) → IsOutcome came self.old.core outcome → settle outcome
            ≡ (self.new.core, result) }
        ensures rest { self.new ≡ record self.old { core = self.new.core } }
    {
        match came {
            Ok(shown) => shown,
            Err(trap) => self.stop(trap),
        }
    }

    /// The entry of an interrupt as a step.
    #[inline(never)]
    fn take(&mut self, irq: Irq) -> Option<What>
        requires { option_map (λ row. row.number) (priority.pick self.old.image self.old.core) ≡ Some irq }
        ensures settled { settle
            (stepping.attempt self.old.image self.old.core (priority.pick self.old.image self.old.core))
            ≡ (self.new.core, result) }
        ensures rest { self.new ≡ record self.old { core = self.new.core } }
    {
        let came = self.exception_entry(irq);
        self.settle(came)
    }

    /// The note on the instruction at a code address.
    fn note_at(&self, address: u32) -> Option<Note>
        ensures { result ≡ note_at self.now.image address }
    {
        match self.program.line(address) {
            Some((_, note)) => note,
            None => None,
        }
    }

    /// What came of the instruction at a code address, with its note, as a step.
    #[inline(never)]
    fn conclude(&mut self, came: &Result<Request, Trap>, address: u32) -> Option<What>
        requires { (row from : ℕ) → came.now ≡ Ok (request.Call row from)
            → self.old.core.processor.address + 1 < 2 ^ 32 }
        ensures settled { settle (stepping.go_on self.old.image self.old.core (note_at self.old.image address)
            (effect_of self.old.core.processor came.now)) ≡ (self.new.core, result) }
        ensures rest { self.new ≡ record self.old { core = self.new.core } }
    {
        let note = self.note_at(address);
        let came = self.finish(*came, note);
        self.settle(came)
    }

    /// The item of the note at a code address, where there is one, as a step.
    #[inline(never)]
    fn tell(&mut self, address: u32) -> Option<What>
        ensures settled { settle (stepping.go_on self.old.image self.old.core (note_at self.old.image address)
            (Leads self.old.core.processor request.Nothing)) ≡ (self.new.core, result) }
        ensures rest { self.new ≡ record self.old { core = self.new.core } }
    {
        let Some(note) = self.note_at(address) else {
            return None;
        };
        match self.item_of_note(note) {
            Some(what) => Some(what),
            None => self.stop(Trap::Stack),
        }
    }

    /// The instruction at the code address. Where what it asks is to be done, it writes what came of it.
    #[inline(always)]
    fn go(&mut self, came: &mut Result<Request, Trap>) -> Begun
        ensures begun { stepping.run self.old.image self.old.core
            (slice_get self.old.image.code self.old.core.processor.address)
            ≡ outcome_of_rest self.old.image self.new.core self.old.core.processor.address result came.new }
        ensures inside { (irq : ℕ) → result ≢ Begun.Entry irq }
        ensures next { result ≡ Begun.Asked → (row from : ℕ) → came.new ≡ Ok (request.Call row from)
            → self.new.core.processor.address + 1 < 2 ^ 32 }
        ensures rest { self.new ≡ record self.old { core = self.new.core } }
    {
        let Some((instr, note)) = self.program.line(self.registers.address) else {
            *came = Err(Trap::Jump);
            return Begun::Asked;
        };
        let asked = self.execute(instr);
        match (asked, note) {
            (Ok(Request::Nothing), None) => Begun::Silent,
            (Ok(Request::Nothing), Some(_)) => Begun::Noted,
            _ => {
                *came = asked;
                Begun::Asked
            }
        }
    }

    /// Begins a core step: what is left of it is to be completed.
    #[inline(always)]
    fn begin(&mut self, came: &mut Result<Request, Trap>) -> Begun
        ensures begun { stepping.step self.old.image self.old.core
            ≡ settle (outcome_of_rest self.old.image self.new.core self.old.core.processor.address result came.new) }
        ensures entry { (irq : ℕ) → result ≡ Begun.Entry irq
            → option_map (λ row. row.number) (priority.pick self.new.image self.new.core) ≡ Some irq }
        ensures next { result ≡ Begun.Asked → (row from : ℕ) → came.new ≡ Ok (request.Call row from)
            → self.new.core.processor.address + 1 < 2 ^ 32 }
        ensures rest { self.new ≡ record self.old { core = self.new.core } }
    {
        if self.stopped {
            return Begun::Silent;
        }
        if let Some(irq) = self.irq_to_take() {
            return Begun::Entry(irq);
        }
        self.go(came)
    }

    /// Silent core steps, and behind them one that is begun and not done: at least one, and at most as many as are
    /// left. It counts down those that are left, writes the code address at which the last of them began and what its
    /// instruction answered, and leaves the number of steps in the core as it was.
    #[inline(never)]
    fn advance(
        &mut self,
        left: &mut u32,
        address: &mut u32,
        came: &mut Result<Request, Trap>,
    ) -> Begun
        requires some { 0 < left.old }
        ensures reached { (after : spec.Core) (shown : Option What)
            → settle (outcome_of_rest self.new.image self.new.core address.new result came.new) ≡ (after, shown)
            → Reaches self.old.image self.old.core after (left.old - left.new) shown }
        ensures fewer { left.new < left.old }
        ensures all { result ≡ Begun.Silent → left.new ≡ 0 }
        ensures entry { (irq : ℕ) → result ≡ Begun.Entry irq
            → option_map (λ row. row.number) (priority.pick self.new.image self.new.core) ≡ Some irq }
        ensures next { result ≡ Begun.Asked → (row from : ℕ) → came.new ≡ Ok (request.Call row from)
            → self.new.core.processor.address + 1 < 2 ^ 32 }
        ensures rest { self.new ≡ record self.old { core = self.new.core } }
    {
        loop {
            *left -= 1;
            *address = self.registers.address;
            let begun = self.begin(came);
            if *left == 0 || !matches!(begun, Begun::Silent) {
                return begun;
            }
        }
    }

    /// Completes a core step that has begun at a code address, by what its instruction answered.
    #[inline(never)]
    fn complete(&mut self, begun: Begun, came: &Result<Request, Trap>, address: u32) -> Option<What>
        requires entry { (irq : ℕ) → begun ≡ Begun.Entry irq
            → option_map (λ row. row.number) (priority.pick self.old.image self.old.core) ≡ Some irq }
        requires next { begun ≡ Begun.Asked → (row from : ℕ) → came.now ≡ Ok (request.Call row from)
            → self.old.core.processor.address + 1 < 2 ^ 32 }
        ensures settled { settle (outcome_of_rest self.old.image self.old.core address begun came.now)
            ≡ (self.new.core, result) }
        ensures rest { self.new ≡ record self.old { core = self.new.core } }
    {
        match begun {
            Begun::Silent => None,
            Begun::Entry(irq) => self.take(irq),
            Begun::Noted => self.tell(address),
            Begun::Asked => self.conclude(came, address),
        }
    }

    /// Core steps up to the first that is not silent, at most as many as are left, which it counts down. It answers the
    /// item of the last of them, where it gives one.
    #[inline(always)]
    fn go_some(&mut self, left: &mut u32) -> Option<What>
        requires some { 0 < left.old }
        ensures reached { Reaches self.old.image self.old.core self.new.core (left.old - left.new) result }
        ensures fewer { left.new < left.old }
        ensures rest { self.new ≡ record self.old { core = self.new.core } }
    {
        let mut address = 0;
        let mut came = Ok(Request::Nothing);
        let begun = self.advance(left, &mut address, &mut came);
        if matches!(begun, Begun::Silent) {
            return None;
        }
        self.complete(begun, &came, address)
    }

    /// Whether the core waits for an interrupt: it is at a `wait` without a note, and none is to be taken. Its step is
    /// silent then and changes nothing.
    #[inline(always)]
    fn waits(&self) -> bool
        ensures { result ≡ true → stepping.step self.now.image self.now.core ≡ (self.now.core, None) }
    {
        matches!(
            self.program.line(self.registers.address),
            Some((Instr::Wait, None))
        ) && self.irq_to_take().is_none()
    }

    /// Core steps up to the first that gives an item, at most as many as are left. It counts down those that are left,
    /// and leaves their number in the core as it was. Where the core waits, all that are left are done at once.
    fn go_to_item(&mut self, left: &mut u32) -> Option<What>
        ensures reached { Reaches self.old.image self.old.core self.new.core (left.old - left.new) result }
        ensures within { left.new ≤ left.old }
        ensures all { result ≡ None → left.new ≡ 0 }
        ensures rest { self.new ≡ record self.old { core = self.new.core } }
    {
        while *left > 0 {
            if self.waits() {
                *left = 0;
                return None;
            }
            let most = (*left).min(STEPS_AT_ONCE);
            let mut some = most;
            let shown = self.go_some(&mut some);
            *left -= most - some;
            if shown.is_some() {
                return shown;
            }
        }
        None
    }

    /// Core steps up to the first that gives an item, at most so many. It answers the item, and None where none of so
    /// many gives one.
    #[inline(never)]
    pub fn steps_to_item(&mut self, most: u32) -> Option<What>
        requires { self.old.steps + most ≤ 2 ^ 31 }
        ensures { StepsToItem most self.old self.new result }
    {
        let mut left = most;
        let shown = self.go_to_item(&mut left);
        self.steps += u64::from(most - left);
        shown
    }

    /// One core step: the entry of the interrupt that is to be taken, else one instruction. It answers the item that
    /// the step gives, and None where it gives none. A trap gives its item and stops the core, and every later step is
    /// silent.
    #[inline(always)]
    pub fn step(&mut self) -> Option<What>
        requires { self.old.steps < 2 ^ 31 }
        ensures item { result ≡ (stepping.step self.old.image self.old.core).1 }
        ensures state { self.new ≡ record self.old {
          core = (stepping.step self.old.image self.old.core).0;
          steps = suc self.old.steps;
        } }
    {
        self.steps += 1;
        if self.waits() {
            return None;
        }
        let mut left = 1;
        self.go_some(&mut left)
    }
}
