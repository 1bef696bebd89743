// Whence the words of a device come.
ghost use Rattle.std.specs.Prelude.{◌≡◌};
ghost use Rattle.rt_script.specs.Generated.{generator_of};
ghost use Rattle.rt_given.specs.Words as spec;
ghost use Rattle.rt_given.specs.declared.source.Source.TheVariants.{Drawing};

use crate::line::GivenLine;
use rand_core::utils::NextWord;
use rand_pcg::Lcg64Xsh32;

/// Whence the words of a line of a device come. Each call of `next` gives the next one.
#[derive(Drop)]
pub enum Source {
    /// The next word is this one, and those behind it count up, modulo 2^32.
    Counting(u32),
    /// The next word is drawn from this generator.
    Drawing(Lcg64Xsh32),
}

impl Source {
    /// The words that a generator draws for the device of a number. The generator, O'Neill's PCG XSH RR 64/32, starts
    /// at `seed`, with the device's number as its sequence.
    pub fn drawing(device: u8, seed: u32) -> Source
        ensures { result ≡ Drawing (generator_of seed device) }
    {
        Source::Drawing(Lcg64Xsh32::new(u64::from(seed), u64::from(device)))
    }

    /// The source of a line that asks for requests with words.
    pub fn of(line: &GivenLine) -> Option<Source>
        ensures { result ≡ spec.source_of line.now }
    {
        match line {
            GivenLine::Counts(_, _, _, _, first) => Some(Source::Counting(*first)),
            GivenLine::Draws(device, _, _, _, seed) => Some(Source::drawing(*device, *seed)),
            _ => None,
        }
    }

    /// The next word.
    pub fn next(&mut self) -> u32
        ensures word { result ≡ spec.next_word self.old }
        ensures behind { self.new ≡ spec.next_source self.old }
    {
        match self {
            Source::Counting(next) => {
                let word = *next;
                *next = word.wrapping_add(1);
                word
            }
            Source::Drawing(generator) => generator.next_word(),
        }
    }
}
