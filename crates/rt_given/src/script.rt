// A script beside devices.

ghost use Rattle.std.specs.Prelude.{◌≡◌, ◌+◌, [], ◌∷◌, ◌++◌, true, false, Ok, nat_le, IfOk, OnErr};
ghost use Rattle.rt_ids.specs.declared.limits.TheConstants.{SCRIPT_EVENTS};
ghost use Rattle.rt_script.specs.Script.{IsScript, count};
ghost use Rattle.rt_given.specs.Given.{asked, count_of, HasDeviceInRange};

use crate::line::GivenLine;
use rt_ids::NoMemory;
use rt_ids::limits::SCRIPT_EVENTS;
use std::alloc::Global;
use std::marker::Model;

/// A script beside devices: its lines that ask for something are a script. Contracts see the list of lines.
#[derive(Drop)]
pub struct GivenScript {
    lines: Vec<GivenLine>,
    /// The events of the lines.
    events: u32,
}

impl Model for GivenScript {
    ghost use Rattle.std.specs.Prelude.{List};
    ghost use Rattle.rt_given.specs.declared.line.GivenLine.{GivenLine};

    ghost Value = { List GivenLine };

    ghost view = { λ script. script.lines.items };

    ghost use Rattle.rt_script.specs.Inside.Counted.{HasEventCount};
    ghost use Rattle.rt_given.specs.Given.{asked};

    ghost invariant = { λ script. HasEventCount (asked script.lines.items) script.events };
}

impl GivenScript {
    /// A script without lines.
    pub fn new(alloc: Global) -> GivenScript
        ensures { result ≡ [] }
    {
        GivenScript {
            lines: Vec::new(alloc),
            events: 0,
        }
    }

    /// Its lines, in order.
    pub fn lines(&self) -> &[GivenLine]
        ensures lines { result.now ≡ self.now }
        ensures script { IsScript (asked self.now) }
    {
        self.lines.as_slice()
    }

    /// Adds a line, where the events are not too many then. It answers whether they are not.
    pub(crate) fn push(&mut self, line: GivenLine) -> Result<bool, NoMemory>
        requires { HasDeviceInRange line }
        ensures fits { IfOk result (λ fits.
            fits ≡ nat_le (count (asked self.old) + count_of line) SCRIPT_EVENTS) }
        ensures pushed { result ≡ Ok true → self.new ≡ self.old ++ line ∷ [] }
        ensures unchanged { result ≡ Ok false → self.new ≡ self.old }
        ensures wanting { OnErr result (self.new ≡ self.old) }
    {
        let count = line.count();
        if count > SCRIPT_EVENTS - self.events {
            return Ok(false);
        }
        self.lines.push(line)?;
        self.events += count;
        Ok(true)
    }
}
