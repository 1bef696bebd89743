// Which events of a script come to which core.

ghost use Rattle.std.specs.Prelude.{◌≡◌};
ghost use Rattle.rt_live.specs.Shares.{takes};

use rt_script::Line;

/// Which events of a script come to a core.
#[derive(Clone, Copy, Debug, PartialEq, Eq)]
pub enum Share {
    /// All but the requests of the devices, which run beside the core.
    BesideDevices,
    /// All, devices' requests at their lines: the first core of a pair.
    First,
    /// Steps and ticks alone: the second core of a pair.
    Second,
}

impl Share {
    /// Whether the events of a line come to the core.
    pub(crate) fn takes(self, asked: &Line) -> bool
        ensures { result ≡ takes self asked.now }
    {
        match (self, asked) {
            (Share::BesideDevices | Share::Second, Line::Device(..)) => false,
            (Share::Second, Line::Pends(..)) => false,
            _ => true,
        }
    }

    /// The number by which a gate knows the core in a pair.
    pub(crate) fn number(self) -> u8 {
        match self {
            Share::Second => 2,
            _ => 1,
        }
    }
}
