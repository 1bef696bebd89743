// Devices that give words, in threads of their own.
ghost use Rattle.std.specs.Prelude.{◌≡◌, ◌+◌, ◌-◌, ◌^◌, ◌<◌, length};
ghost use Rattle.rt_given.specs.Words.{given_words, words_asked};
ghost use Rattle.rt_live_inputs.specs.Giving.{Gave, words_in};

use rt_devices::Gate;
use rt_given::{GivenLine, Source};
use rt_values::{Giver, Mailbox};

/// A device, which gives words together with requests in a thread of its own, through a mailbox.
#[derive(Drop)]
pub struct GivingDevice {
    /// Its side of the mailbox.
    pub giver: Giver,
    /// The number by which a gate knows it.
    pub number: u8,
    /// The lines of which it gives the words, in order.
    pub lines: Vec<GivenLine>,
}

impl GivingDevice {
    // Gives so many words of a source. The first of these is give `first` of this device, from 0. The gate is told of
    // each give by its number; no clause says so, since a gate's calls leave nothing that a clause could name.
    fn give_words<G: Gate>(
        &mut self,
        mailbox: &Mailbox,
        gate: &G,
        source: &mut Source,
        count: u32,
        first: u64,
    )
        requires mailbox { self.old.giver.mailbox ≡ mailbox.now }
        requires room { length self.old.giver.calls + count < 2 ^ 32 - 1 }
        requires first { first < 2 ^ 32 }
        ensures { Gave (given_words count source.old) self.old self.new }
    {
        for done in 0..count {
            gate.before_pend(self.number, first + u64::from(done));
            let word = source.next();
            self.giver.give(mailbox, word);
        }
    }

    // Gives the words of a line, and answers how many they are.
    fn give_line<G: Gate>(
        &mut self,
        mailbox: &Mailbox,
        gate: &G,
        line: &GivenLine,
        first: u64,
    ) -> u64
        requires mailbox { self.old.giver.mailbox ≡ mailbox.now }
        requires room { length self.old.giver.calls + length (words_asked line.now) < 2 ^ 32 - 1 }
        requires first { first < 2 ^ 32 }
        ensures gave { Gave (words_asked line.now) self.old self.new }
        ensures many { result ≡ length (words_asked line.now) }
    {
        let Some(mut source) = Source::of(line) else {
            return 0;
        };
        self.give_words(mailbox, gate, &mut source, line.count(), first);
        u64::from(line.count())
    }

    /// Gives the words of all its lines, in order. The gate is told of give `n` of this call, from 0, before it is
    /// made.
    pub fn work<G: Gate>(&mut self, mailbox: &Mailbox, gate: &G)
        requires mailbox { self.old.giver.mailbox ≡ mailbox.now }
        requires room { length self.old.giver.calls + length (words_in self.old.lines.items) < 2 ^ 32 - 1 }
        ensures { Gave (words_in self.old.lines.items) self.old self.new }
    {
        let mut first = 0;
        for index in 0..self.lines.len() {
            let line = self.lines[index];
            first += self.give_line(mailbox, gate, &line, first);
        }
    }
}
