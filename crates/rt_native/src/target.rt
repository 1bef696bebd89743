// What a program is made for, and why it cannot be made.

ghost use Rattle.std.specs.Prelude.{◌≡◌};

use rt_ids::{Irq, NoMemory};
use std::alloc::AllocFailed;
use std::marker::Model;

/// A part of the address space.
#[derive(Clone, Copy)]
pub struct Region {
    /// The address of its first byte.
    pub address: u32,
    /// How many bytes it has.
    pub size: u32,
}

/// A cell that is read from a device as an interrupt is taken.
#[derive(Clone, Copy)]
pub struct Input {
    pub irq: Irq,
    /// The cell, by its number.
    pub cell: u32,
    /// The address of the device's register.
    pub address: u32,
}

/// What a program is made for. Contracts see a record with lists.
pub struct Target {
    /// Where code and first values lie.
    pub flash: Region,
    /// Where the stack and the cells lie.
    pub ram: Region,
    /// The address of the word that `emit` writes.
    pub port: u32,
    /// One less than the cycles of a tick, where SysTick gives the ticks.
    pub tick: Option<u32>,
    /// The cells that are read from a device as an interrupt is taken.
    pub inputs: Vec<Input>,
    /// The interrupts as which a function of C is called first: `IRQ_in` of the interrupt's name, which takes and gives
    /// nothing.
    pub calls: Vec<Irq>,
}

impl Model for Target {
    ghost use Rattle.rt_native.specs.Target.{Target};

    ghost Value = { Target };

    ghost view = { λ target. record {
      flash = target.flash;
      ram = target.ram;
      port = target.port;
      tick = target.tick;
      inputs = target.inputs.items;
      calls = target.calls.items;
    } };
}

impl Drop for Target {
    fn drop(self) {
        let Target {
            flash: _,
            ram: _,
            port: _,
            tick: _,
            inputs: _,
            calls: _,
        } = self;
    }
}

/// Why there is no program. Of several causes the first here is told.
#[derive(Clone, Copy)]
pub enum Unfit {
    /// An enabled interrupt is past the lines of the core.
    Line,
    /// The stack and the cells do not fit into RAM.
    Ram,
    /// The code and the first values do not fit into flash.
    Flash,
    /// A branch does not reach its target.
    Reach,
    /// The file would have 4 GiB or more, or be an object with too many symbols.
    File,
    /// Memory was wanted and not there.
    NoMemory,
}

impl From<NoMemory> for Unfit {
    ghost use Rattle.rt_native.specs.declared.target.Unfit.TheVariants.{NoMemory};

    ghost from_gives = { λ _ why. why ≡ NoMemory };

    fn from(_error: NoMemory) -> Unfit {
        Unfit::NoMemory
    }
}

impl<T: Drop> From<AllocFailed<T>> for Unfit {
    ghost use Rattle.rt_native.specs.declared.target.Unfit.TheVariants.{NoMemory};

    ghost from_gives = { λ _ why. why ≡ NoMemory };

    fn from(_error: AllocFailed<T>) -> Unfit {
        Unfit::NoMemory
    }
}
