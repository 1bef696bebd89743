// The core: an image, and one call for each event.

ghost use Rattle.std.specs.Prelude.{◌≡◌, ℕ, ◌+◌, ◌*◌, ◌<◌, ◌≤◌, ◌^◌, [], ◌∷◌, length, map, replicate, false, IfOk};
ghost use Rattle.std.specs.Prelude.{OnOk, OnErr};
ghost use Rattle.std.specs.Prelude.{if◌then◌else◌};
ghost use Rattle.std.specs.Int.{bit_at};
ghost use Rattle.rt_ids.specs.declared.limits.TheConstants.{IRQ_NUMBERS};
ghost use Rattle.rt_ids.specs.Event.{Arrive, Tick};
ghost use Rattle.rt_ids.specs.Arrivals.{arrivals};
ghost use Rattle.rt_code.specs.Runnable.{IsRunnable};
ghost use Rattle.rt_trace.specs.Label.{Ticked, Rang};
ghost use Rattle.rt_core.specs.Core as spec;
ghost use Rattle.rt_core.specs.Machine.{IsFresh};
ghost use Rattle.rt_core.specs.Trace as trace;
ghost use Rattle.rt_core.specs.Transfer.{core_after_word};
ghost use Rattle.rt_core.specs.Inside.Parts.{HasPriorities};
ghost use Rattle.rt_core.specs.Inside.Enabling.{HasPrioritiesBelow};

use crate::alarm::Alarm;
use crate::execution::execution_of;
use rt_code::{Image, Registers};
use rt_context::Frames;
use rt_ids::limits::IRQ_NUMBERS;
use rt_ids::{CellRow, Irq, NoMemory};
use rt_image_tables::Program;
use rt_nvic::Nvic;
use std::alloc::Global;
use std::marker::Model;

/// A core with an image. Contracts see the image, the state of the core, and how many core steps it has taken. All
/// memory is taken when it is made.
pub struct Core {
    pub(crate) program: Program,
    pub(crate) time: u32,
    pub(crate) alarm: Option<Alarm>,
    pub(crate) nvic: Nvic,
    /// The execution priority: 0 to 256.
    pub(crate) execution: u16,
    pub(crate) frames: Frames,
    pub(crate) registers: Registers,
    pub(crate) cells: Vec<u32>,
    pub(crate) stopped: bool,
    pub(crate) steps: u64,
}

impl Model for Core {
    ghost use Rattle.rt_core.specs.Machine.{Machine};

    ghost Value = { Machine };

    ghost use Rattle.rt_core.specs.Inside.Parts.{machine, IsSound};

    ghost view = { machine };

    ghost invariant = { IsSound };
}

impl Drop for Core {
    fn drop(self) {
        let Core {
            program: _,
            time: _,
            alarm: _,
            nvic: _,
            execution: _,
            frames: _,
            registers: _,
            cells: _,
            stopped: _,
            steps: _,
        } = self;
    }
}

/// The first values of cells.
fn first_values(alloc: Global, rows: &[CellRow]) -> Result<Vec<u32>, NoMemory>
    ensures { IfOk result (λ cells. cells.items ≡ map (λ row. row.first) rows.now) }
{
    let mut cells = Vec::with_capacity(alloc, rows.len())?;
    for row in rows {
        cells.push(row.first)?;
    }
    Ok(cells)
}

/// Enables the interrupt of a number, where the image does.
fn enable(nvic: &mut Nvic, program: &Program, number: u16)
    requires { number < IRQ_NUMBERS }
    ensures pending { nvic.new.pending ≡ nvic.old.pending }
    ensures active { nvic.new.active ≡ nvic.old.active }
    ensures priorities { HasPrioritiesBelow number program.now nvic.old
        → HasPrioritiesBelow (number + 1) program.now nvic.new }
{
    let Some(irq) = Irq::new(number) else {
        unreachable!()
    };
    if let Some(handler) = program.handler(irq) {
        nvic.enable(irq, handler.value);
    }
}

/// A controller with the priority values of an image, and nothing pending or active.
fn controller(program: &Program) -> Nvic
    ensures priorities { HasPriorities program.now result }
    ensures pending { result.pending ≡ replicate IRQ_NUMBERS false }
    ensures active { result.active ≡ [] }
{
    let mut nvic = Nvic::new();
    for number in 0..IRQ_NUMBERS {
        enable(&mut nvic, program, number);
    }
    nvic
}

impl Core {
    /// A core after reset, with PRIMASK 1: the time is 0, nothing is pending, and no event has come.
    pub fn new(alloc: Global, image: Image) -> Result<Core, NoMemory>
        requires { IsRunnable image }
        ensures image { IfOk result (λ made. made.image ≡ image) }
        ensures fresh { IfOk result (λ made. IsFresh made) }
    {
        let cells = first_values(alloc, &image.cells)?;
        let frames = Frames::new(
            alloc,
            image.stack_bytes,
            image.entry_words(),
            image.thread_words,
        )?;
        let program = Program::new(alloc, image)?;
        let nvic = controller(&program);
        let registers = Registers {
            address: 0,
            basepri: 0,
            primask: true,
        };
        let execution = execution_of(&nvic, &registers);
        Ok(Core {
            program,
            time: 0,
            alarm: None,
            nvic,
            execution,
            frames,
            registers,
            cells,
            stopped: false,
            steps: 0,
        })
    }

    /// A core after reset with an image that is the same.
    pub fn fresh(&self, alloc: Global) -> Result<Core, NoMemory>
        ensures image { IfOk result (λ made. made.image ≡ self.now.image) }
        ensures fresh { IfOk result (λ made. IsFresh made) }
    {
        let _ = &self.stopped;
        let image = self.program.copy_of_image(alloc)?;
        Core::new(alloc, image)
    }

    /// A core after reset once more, with the same image. Where there is no memory it stays as it was.
    pub fn reset(&mut self, alloc: Global) -> Result<(), NoMemory>
        ensures image { OnOk result (self.new.image ≡ self.old.image) }
        ensures fresh { OnOk result (IsFresh self.new) }
        ensures err { OnErr result (self.new ≡ self.old) }
    {
        let image = self.program.image();
        let thread_words = image.thread_words;
        self.cells = first_values(alloc, &image.cells)?;
        self.frames.reset(thread_words);
        self.nvic.reset();
        self.registers = Registers {
            address: 0,
            basepri: 0,
            primask: true,
        };
        self.execution = execution_of(&self.nvic, &self.registers);
        self.time = 0;
        self.alarm = None;
        self.stopped = false;
        self.steps = 0;
        Ok(())
    }

    /// An interrupt request arrives for each set bit of a word, the lowest first: bit b of word k is the interrupt 32 k
    /// + b.
    pub fn arrive(&mut self, k: u8, bits: u32)
        requires { (bit : ℕ) → bit < 32 → bit_at bits bit ≡ 1 → 32 * k + bit < IRQ_NUMBERS }
        ensures { self.new ≡ record self.old {
          core = trace.core_after self.old.image self.old.core
              (map Arrive (arrivals k bits));
        } }
    {
        self.nvic.arrive(k, bits);
    }

    /// A device puts a word into a cell.
    pub fn put(&mut self, cell: u16, word: u32)
        requires { cell < length self.old.core.processor.cells }
        ensures { self.new ≡ record self.old { core = core_after_word self.old.core cell word } }
    {
        self.cells[usize::from(cell)] = word;
    }

    /// The time rises by one. It answers whether the alarm came.
    #[tactic(auto, unfolding(crate::specs::Trace::happen))]
    pub fn tick(&mut self) -> bool
        requires { self.old.core.time < 2 ^ 31 }
        ensures state { self.new ≡ record self.old { core = (trace.happen self.old.image self.old.core Tick).0 } }
        ensures shown { (trace.happen self.old.image self.old.core Tick).1
            ≡ Ticked ∷ (if result then Rang ∷ [] else []) }
    {
        self.time += 1;
        let Some(alarm) = self.alarm else {
            return false;
        };
        if alarm.instant > self.time {
            return false;
        }
        self.nvic.post(alarm.irq);
        self.alarm = None;
        true
    }

    /// The stack bytes in use.
    pub fn depth(&self) -> u32
        ensures bytes { result ≡ spec.depth self.now.image self.now.core }
        ensures within { result ≤ self.now.image.stack_bytes }
    {
        let _ = &self.stopped;
        self.frames.depth()
    }

    /// The words of the stack region in use, the lowest first: the frames, with the architecture's frame at each
    /// exception entry.
    pub fn stack(&self) -> &[u32]
        ensures { result.now ≡ spec.stack_words self.now.image self.now.core }
    {
        let _ = &self.stopped;
        self.frames.words()
    }

    /// How many core steps it has taken.
    pub fn steps(&self) -> u64
        ensures { result ≡ self.now.steps }
    {
        self.steps
    }

    /// The image.
    pub fn image(&self) -> &Image
        ensures { result.now ≡ self.now.image }
    {
        self.program.image()
    }
}
