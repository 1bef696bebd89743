// A device, which pends interrupts in a thread of its own.

ghost use Rattle.std.specs.Prelude.{◌≡◌, ◌+◌, ◌-◌, ◌^◌, ◌<◌, length, replicate};
ghost use Rattle.std.specs.List.{AllByRecursion};
ghost use Rattle.rt_words.specs.{Row.bit_in_row, Object.IsPending};
ghost use Rattle.rt_devices.specs.Work.{requests, Works};

use crate::gate::Gate;
use rt_ids::Irq;
use rt_words::{Line, Words};

/// A device, which pends interrupts in a thread of its own, by its line of the pending words.
#[derive(Drop)]
pub struct Device {
    /// Its line of the words.
    pub line: Line,
    /// The number by which a gate knows it.
    pub number: u8,
    /// The interrupts that it pends, each so many times, in order.
    pub script: Vec<(Irq, u32)>,
}

impl Device {
    // Pends an interrupt so many times. The first of these is pend `first` of this device, from 0. The gate is told of
    // each pend by its number; no clause says so, since a gate's calls leave nothing that a clause could name.
    fn pend_often<G: Gate>(&mut self, words: &Words, gate: &G, irq: Irq, count: u32, first: u64)
        requires words { self.old.line.words ≡ words.now }
        requires may { IsPending words.now.may (bit_in_row self.old.line.there irq) }
        requires room { length self.old.line.calls + count < 2 ^ 32 - 1 }
        requires first { first < 2 ^ 32 }
        ensures { Works (replicate count irq) self.old self.new }
    {
        for done in 0..count {
            gate.before_pend(self.number, first + u64::from(done));
            self.line.pend(words, irq);
        }
    }

    /// Makes every pend of its script, in order. The gate is told of pend `n` of this call, from 0, before it is made.
    pub fn work<G: Gate>(&mut self, words: &Words, gate: &G)
        requires words { self.old.line.words ≡ words.now }
        requires may { AllByRecursion
            (λ entry. IsPending words.now.may (bit_in_row self.old.line.there entry.0)) self.old.script.items }
        requires room { length self.old.line.calls + length (requests self.old.script.items) < 2 ^ 32 - 1 }
        ensures { Works (requests self.old.script.items) self.old self.new }
    {
        let mut first = 0;
        for entry in 0..self.script.len() {
            let (irq, count) = self.script[entry];
            self.pend_often(words, gate, irq, count, first);
            first += u64::from(count);
        }
    }
}
