// What a text of a board tells.

ghost use Rattle.std.specs.Prelude.{◌≡◌, OnOk, OnErr};
ghost use Rattle.rt_target.specs.Setup as spec;

use crate::fact::Fact;
use rt_board::Board;
use rt_ids::NoMemory;
use std::alloc::Global;
use std::marker::Model;

/// What a text of a board tells: the local resources that devices write, and what lines say of the chip. Contracts see
/// a record with both.
pub struct Setup {
    pub(crate) board: Board,
    facts: Vec<Fact>,
}

impl Model for Setup {
    ghost use Rattle.rt_target.specs.Setup.{Setup};

    ghost Value = { Setup };

    ghost view = { λ setup. record { board = setup.board; facts = setup.facts.items } };
}

impl Drop for Setup {
    fn drop(self) {
        let Setup { board: _, facts: _ } = self;
    }
}

impl Setup {
    /// Nothing is told.
    pub fn new(alloc: Global) -> Setup
        ensures { result ≡ spec.no_setup }
    {
        Setup {
            board: Board::new(alloc),
            facts: Vec::new(alloc),
        }
    }

    /// The local resources that devices write.
    pub fn board(&self) -> &Board
        ensures { result.now ≡ self.now.board }
    {
        &self.board
    }

    /// What lines say of the chip, in order.
    pub fn facts(&self) -> &[Fact]
        ensures { result.now ≡ self.now.facts }
    {
        self.facts.as_slice()
    }

    /// The local resources that devices write, alone.
    pub fn into_board(self) -> Board
        ensures { result ≡ self.board }
    {
        let Setup { board, facts: _ } = self;
        board
    }

    /// One more line says something of the chip.
    pub(crate) fn push(&mut self, fact: Fact) -> Result<(), NoMemory>
        ensures pushed { OnOk result (self.new ≡ spec.with_fact self.old fact) }
        ensures unchanged { OnErr result (self.new ≡ self.old) }
    {
        self.facts.push(fact)?;
        Ok(())
    }
}
