// A line of a script.

ghost use Rattle.std.specs.Prelude.{◌≡◌};
ghost use Rattle.rt_script.specs.Script as spec;

use rt_ids::Irq;

/// What a line of a script asks for.
#[derive(Clone, Copy, PartialEq, Eq)]
pub enum Line {
    /// So many core steps.
    Steps(u32),
    /// So many ticks of the system timer.
    Ticks(u32),
    /// So many requests of an interrupt.
    Pends(Irq, u32),
    /// So many requests of an interrupt by the device of a number, 0 to 15.
    Device(u8, Irq, u32),
}

impl Line {
    /// How many events it stands for.
    pub fn count(&self) -> u32
        ensures { result ≡ spec.count_of self.now }
    {
        match self {
            Line::Steps(count) | Line::Ticks(count) => *count,
            Line::Pends(_, count) | Line::Device(_, _, count) => *count,
        }
    }
}
