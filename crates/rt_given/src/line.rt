// What a line of a script beside devices asks for.

ghost use Rattle.std.specs.Prelude.{◌≡◌};
ghost use Rattle.rt_given.specs.Given.{asks, count_of};

use rt_ids::Irq;
use rt_script::Line;

/// What a line of a script beside devices asks for: what a script's line does, or a word that a device holds.
#[derive(Clone, Copy)]
pub enum GivenLine {
    /// So many core steps.
    Steps(u32),
    /// So many ticks of the system timer.
    Ticks(u32),
    /// So many requests of an interrupt.
    Pends(Irq, u32),
    /// So many requests of an interrupt by the device of a number, 0 to 15.
    Device(u8, Irq, u32),
    /// So many requests of an interrupt by the device of a number, each with a word for a local resource, by its index
    /// in the order of declaration. The words count up from the last number, modulo 2^32.
    Counts(u8, Irq, u32, u8, u32),
    /// The same with words that a generator draws, which starts at the last number.
    Draws(u8, Irq, u32, u8, u32),
    /// From here on the device of a local resource, by its index in the order of declaration, holds a word.
    Gives(u8, u32),
}

impl GivenLine {
    /// What a script's line asks for.
    pub(crate) fn asking(line: Line) -> GivenLine
        ensures { result ≡ asks line }
    {
        match line {
            Line::Steps(count) => GivenLine::Steps(count),
            Line::Ticks(count) => GivenLine::Ticks(count),
            Line::Pends(irq, count) => GivenLine::Pends(irq, count),
            Line::Device(device, irq, count) => GivenLine::Device(device, irq, count),
        }
    }

    /// How many events it stands for.
    pub fn count(&self) -> u32
        ensures { result ≡ count_of self.now }
    {
        match self {
            GivenLine::Steps(count) | GivenLine::Ticks(count) => *count,
            GivenLine::Pends(_, count) | GivenLine::Device(_, _, count) => *count,
            GivenLine::Counts(_, _, count, _, _) | GivenLine::Draws(_, _, count, _, _) => *count,
            GivenLine::Gives(_, _) => 0,
        }
    }
}
