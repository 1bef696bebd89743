// A board: the local resources that a device writes.

ghost use Rattle.std.specs.Prelude.{◌≡◌, OnOk, OnErr};
ghost use Rattle.rt_board.specs.Board.{no_board, is_written, with_input};

use rt_ids::{NoMemory, TaskId};
use std::alloc::Global;
use std::marker::Model;

/// A local resource that a device writes.
#[derive(Clone, Copy)]
pub struct Input {
    /// The task that lists it.
    pub task: TaskId,
    /// The resource, by its index in the order of declaration.
    pub local: u8,
}

/// What a board has: the local resources that a device writes, in the order of the text. Contracts see a record with
/// their list.
#[derive(Drop)]
pub struct Board {
    inputs: Vec<Input>,
}

impl Model for Board {
    ghost use Rattle.rt_board.specs.Board.{Board};

    ghost Value = { Board };

    ghost view = { λ board. record { inputs = board.inputs.items } };
}

impl Board {
    /// A board without devices.
    pub fn new(alloc: Global) -> Board
        ensures { result ≡ no_board }
    {
        Board {
            inputs: Vec::new(alloc),
        }
    }

    /// The local resources that a device writes, in order.
    pub fn inputs(&self) -> &[Input]
        ensures { result.now ≡ self.now.inputs }
    {
        self.inputs.as_slice()
    }

    /// Whether a device writes the local resource of this index.
    pub fn writes(&self, local: u8) -> bool
        ensures { result ≡ is_written self.now local }
    {
        self.inputs.iter().any(|input| input.local == local)
    }

    /// One more local resource that a device writes.
    pub(crate) fn push(&mut self, input: Input) -> Result<(), NoMemory>
        ensures pushed { OnOk result (self.new ≡ with_input self.old input) }
        ensures unchanged { OnErr result (self.new ≡ self.old) }
    {
        self.inputs.push(input)?;
        Ok(())
    }
}
