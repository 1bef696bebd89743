// What the registers of devices hold while a script runs.
ghost use Rattle.std.specs.Prelude.{◌≡◌, ℕ};
ghost use Rattle.rt_inputs.specs.Inputs.{no_words, with_word};
ghost use Rattle.rt_inputs.specs.Inside.Ran.{held_in};

use std::marker::Model;

/// How many local resources an index of 8 bits tells apart.
const INDICES: usize = 256;

/// The words that the registers of devices hold, by the local resource that each is for. Contracts see their list.
#[derive(Drop)]
pub struct Registers {
    words: [u32; INDICES],
}

impl Model for Registers {
    ghost use Rattle.std.specs.Prelude.{ℕ, List};

    ghost Value = { List ℕ };

    ghost view = { λ registers. registers.words };
}

impl Registers {
    /// Registers before the first word.
    pub fn new() -> Registers
        ensures { held_in result ≡ no_words }
    {
        Registers {
            words: [0; INDICES],
        }
    }

    /// The word of a local resource.
    pub(crate) fn word(&self, local: u8) -> u32
        ensures { result ≡ held_in self.now local }
    {
        self.words[usize::from(local)]
    }

    /// From here on the register of a local resource holds a word.
    pub(crate) fn give(&mut self, local: u8, word: u32)
        ensures { held_in self.new ≡ with_word (held_in self.old) local word }
    {
        self.words[usize::from(local)] = word;
    }
}
