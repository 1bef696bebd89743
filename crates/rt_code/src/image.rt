// An image: code, rows of interrupts and bodies, cells.

ghost use Rattle.std.specs.Prelude.{◌≡◌, ◌≤◌};
ghost use Rattle.rt_ids.specs.declared.exception.TheConstants.{BASIC_FRAME_WORDS};
ghost use Rattle.rt_code.specs.Image.{entry_words};

use crate::instr::Line;
use rt_ids::{CellRow, Irq, Name, Names, TaskId, entry_words};
use std::marker::Model;

/// How an interrupt is served.
#[derive(Clone, Copy, Debug, PartialEq, Eq)]
pub struct Handler {
    /// The value that the interrupt controller holds as its priority: a smaller value is a higher priority.
    pub value: u8,
    /// The code address of its first instruction.
    pub entry: u32,
    /// The words of its frame.
    pub frame: u32,
}

/// A declared interrupt of an image.
#[derive(Drop)]
pub struct IrqRow {
    pub name: Name,
    pub number: Irq,
    /// None where the interrupt is not enabled.
    pub handler: Option<Handler>,
}

/// The body of a software task, as code calls it.
#[derive(Clone, Copy, Debug, PartialEq, Eq)]
pub struct BodyRow {
    pub task: TaskId,
    /// The code address of its first instruction.
    pub entry: u32,
    /// The words of its frame.
    pub frame: u32,
    /// How many arguments it takes.
    pub args: u8,
}

/// Compiled code and the tables that a core needs to run it. Contracts see a record of lists.
pub struct Image {
    /// Implemented priority bits.
    pub bits: u8,
    /// Whether the core has the floating-point extension.
    pub fpu: bool,
    /// The size of the stack region, in bytes.
    pub stack_bytes: u32,
    /// The words of the thread's frame.
    pub thread_words: u32,
    /// The cells of memory, by number.
    pub cells: Vec<CellRow>,
    /// The declared interrupts, in order of declaration.
    pub irqs: Vec<IrqRow>,
    /// The bodies of software tasks, by the number that `call` takes.
    pub bodies: Vec<BodyRow>,
    /// The instructions by address, each with its note.
    pub code: Vec<Line>,
    /// The names that its text is written with.
    pub names: Names,
}

impl Model for Image {
    ghost use Rattle.rt_code.specs.Image.{Image};

    ghost Value = { Image };

    ghost view = { λ image. record {
      bits = image.bits;
      fpu = image.fpu;
      stack_bytes = image.stack_bytes;
      thread_words = image.thread_words;
      cells = image.cells.items;
      irqs = image.irqs.items;
      bodies = image.bodies.items;
      code = image.code.items;
      names = image.names;
    } };
}

impl Drop for Image {
    fn drop(self) {
        let Image {
            bits: _,
            fpu: _,
            stack_bytes: _,
            thread_words: _,
            cells: _,
            irqs: _,
            bodies: _,
            code: _,
            names: _,
        } = self;
    }
}

impl Image {
    /// The words that exception entry pushes.
    pub fn entry_words(&self) -> u32
        ensures value { result ≡ entry_words self.now }
        ensures basic { BASIC_FRAME_WORDS ≤ result }
    {
        entry_words(self.fpu)
    }
}
