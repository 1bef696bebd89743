// The frames on a core's stack: exception entry and return, calls of bodies.

ghost use Rattle.std.specs.Prelude.{◌≡◌, ℕ, ◌+◌, ◌*◌, ◌/◌, ◌%◌, ◌^◌, ◌<◌, ◌≤◌, IsTrue, IfOk, Some, None, false};
ghost use Rattle.std.specs.Prelude.{length};
ghost use Rattle.rt_ids.specs.declared.exception.TheConstants.{BASIC_FRAME_WORDS};
ghost use Rattle.rt_code.specs.Processor.{processor, HasEffect};
ghost use Rattle.rt_code.specs.Effect.{effect};
ghost use Rattle.rt_context.specs.declared.sizes.TheConstants.{CONTEXTS, STACK_WORDS};
ghost use Rattle.rt_context.specs.Frames as spec;
ghost use Rattle.rt_context.specs.Moves as moves;

use crate::sizes::CONTEXTS;
use crate::{body, exception};
use arrayvec::ArrayVec;
use rt_code::{BodyRow, Instr, Registers, Request, Trap, execute};
use rt_ids::NoMemory;
use rt_stack::Region;
use std::alloc::Global;
use std::marker::Model;

/// The frames on the stack of a core, in one region of words. All its room is made with it, so that no later call takes
/// memory. Contracts see the frames.
#[derive(Drop)]
pub struct Frames {
    region: Region,
    /// The words that exception entry pushes.
    entry: u32,
    /// Words of the running frame.
    frame: u32,
    /// Where a called body runs, the words of the frame of the handler that called it.
    caller: Option<u32>,
    /// The same of what each active handler interrupted, the last taken behind.
    callers: ArrayVec<Option<u32>, CONTEXTS>,
}

impl Model for Frames {
    ghost use Rattle.rt_context.specs.Frames.{Frames};

    ghost Value = { Frames };

    ghost use Rattle.rt_context.specs.Inside.Parts.{frames, IsRepresented};

    ghost view = { frames };

    ghost invariant = { IsRepresented };
}

impl Frames {
    /// The thread's frame of so many words of 0, alone in a stack of so many bytes. Exception entry will push so many
    /// words: those of the basic frame, or more.
    pub fn new(
        alloc: Global,
        stack_bytes: u32,
        entry: u32,
        thread_words: u32,
    ) -> Result<Frames, NoMemory>
        requires pairs { stack_bytes % 8 ≡ 0 }
        requires small { stack_bytes ≤ 2 ^ 20 }
        requires fits { 4 * thread_words ≤ stack_bytes }
        requires basic { BASIC_FRAME_WORDS ≤ entry }
        ensures { IfOk result (λ made. made ≡ moves.thread (stack_bytes / 4) entry thread_words) }
    {
        let mut region = Region::new(alloc, stack_bytes)?;
        region.push(thread_words);
        Ok(Frames {
            region,
            entry,
            frame: thread_words,
            caller: None,
            callers: ArrayVec::new(),
        })
    }

    /// The thread's frame of so many words of 0 is alone again.
    pub fn reset(&mut self, thread_words: u32)
        requires fits { thread_words ≤ self.old.size }
        ensures { self.new ≡ moves.thread self.old.size self.old.entry thread_words }
    {
        self.region.pop(self.region.used_words());
        self.region.push(thread_words);
        self.frame = thread_words;
        self.caller = None;
        self.callers.clear();
    }

    /// The stack bytes in use.
    pub fn depth(&self) -> u32
        ensures bytes { result ≡ spec.depth self.now }
        ensures within { result ≤ 4 * self.now.size }
    {
        4 * self.region.used_words()
    }

    /// The words of the running frame.
    pub fn slots(&self) -> &[u32]
        ensures { result.now ≡ self.now.slots }
    {
        self.region.top_ref(self.frame)
    }

    /// All words in use, the lowest first.
    pub fn words(&self) -> &[u32]
        ensures { result.now ≡ spec.words self.now }
    {
        let used = self.region.used_words();
        self.region.top_ref(used)
    }

    /// Whether a handler's own code runs, with a slot for the return address of a call.
    pub fn may_call(&self) -> bool
        ensures { result ≡ moves.may_call self.now }
    {
        self.caller.is_none() && !self.callers.is_empty() && self.frame > 0
    }

    /// Exception entry: pushes the architecture's frame for what is interrupted, the exception of a number at a code
    /// address, and a frame of so many words of 0. It answers whether they fit; where they do not, nothing is pushed.
    pub fn enter(&mut self, number: u32, address: u32, words: u32) -> bool
        requires few { length self.old.below < CONTEXTS }
        ensures fits { result ≡ moves.has_room self.old (self.old.entry + words) }
        ensures entered { IsTrue result → self.new ≡ moves.frames_after_entry self.old number address words }
        ensures unchanged { result ≡ false → self.new ≡ self.old }
    {
        if !self.has_room(self.entry.saturating_add(words)) {
            return false;
        }
        exception::push(&mut self.region, self.entry, self.frame, number, address);
        self.region.push(words);
        self.callers.push(self.caller);
        self.caller = None;
        self.frame = words;
        true
    }

    /// Exception return: pops the handler's frame and the architecture's, and answers the address that runs on. It
    /// answers None exactly in a called body and in the thread, and changes nothing then.
    pub fn leave(&mut self) -> Option<u32>
        ensures left { (address : ℕ) → result ≡ Some address → moves.frames_after_return self.old
            ≡ Some (self.new, address) }
        ensures none { result ≡ None → (moves.frames_after_return self.old ≡ None) × (self.new ≡ self.old) }
    {
        if self.caller.is_some() {
            return None;
        }
        let caller = self.callers.pop()?;
        let interrupted = exception::leave(&mut self.region, self.entry, self.frame);
        self.frame = interrupted.frame;
        self.caller = caller;
        Some(interrupted.address)
    }

    /// Whether so many words more have room.
    fn has_room(&self, words: u32) -> bool
        ensures fits { result ≡ moves.has_room self.now words }
        ensures small { self.now.size ≤ STACK_WORDS }
    {
        self.region.fits(words)
    }

    /// Whether a body's arguments are in the running frame, from a slot on, and in the body's, and that has room.
    fn call_fits(&self, row: &BodyRow, from: u32) -> bool
        ensures { result ≡ moves.call_fits self.now row.now from }
    {
        let args = u32::from(row.args);
        body::arguments_fit(self.frame, from, args) && args <= row.frame && self.has_room(row.frame)
    }

    /// A call of the body of a row, whose arguments stand in the slots from one on; it will return to the address. It
    /// answers whether the arguments are in both frames and the body's frame fits; where not, nothing changes.
    pub fn call(&mut self, row: BodyRow, from: u32, address: u32) -> bool
        requires may { IsTrue (moves.may_call self.old) }
        ensures fits { result ≡ moves.call_fits self.old row from }
        ensures called { IsTrue result → self.new ≡ moves.frames_after_call self.old row from address }
        ensures unchanged { result ≡ false → self.new ≡ self.old }
    {
        if !self.call_fits(&row, from) {
            return false;
        }
        let caller = self.frame;
        let args = u32::from(row.args);
        body::push(&mut self.region, caller, row.frame, from, args, address);
        self.caller = Some(caller);
        self.frame = row.frame;
        true
    }

    /// Return from a called body: pops its frame, and answers the return address. It answers None exactly where no
    /// called body runs, and changes nothing then.
    pub fn back(&mut self) -> Option<u32>
        ensures back { (address : ℕ) → result ≡ Some address → moves.back self.old ≡ Some (self.new, address) }
        ensures none { result ≡ None → (moves.back self.old ≡ None) × (self.new ≡ self.old) }
    {
        let caller = self.caller?;
        self.region.pop(self.frame);
        self.frame = caller;
        self.caller = None;
        Some(self.region.top_ref(caller)[caller as usize - 1])
    }

    /// Executes an instruction on the running frame, at a time in ticks since reset.
    pub fn execute(
        &mut self,
        instr: Instr,
        time: u32,
        registers: &mut Registers,
        cells: &mut [u32],
    ) -> Result<Request, Trap>
        requires next { registers.old.address + 1 < 2 ^ 32 }
        ensures effect { HasEffect result (processor registers.old self.old.slots cells.old)
            (processor registers.new self.new.slots cells.new)
            (effect instr time (processor registers.old self.old.slots cells.old)) }
        ensures rest { self.new ≡ record self.old { slots = self.new.slots } }
        ensures words { length self.new.slots ≡ length self.old.slots }
    {
        let slots = self.region.top(self.frame);
        execute(instr, time, registers, slots, cells)
    }
}
