// A script: its lines, and how many events they are.

ghost use Rattle.std.specs.Prelude.{◌≡◌, ◌≤◌, ◌+◌, [], ◌∷◌, ◌++◌, true, false, Ok, nat_le, IfOk, OnErr};
ghost use Rattle.rt_ids.specs.declared.limits.TheConstants.{SCRIPT_EVENTS};
ghost use Rattle.rt_script.specs.Script as spec;

use crate::line::Line;
use rt_ids::NoMemory;
use rt_ids::limits::SCRIPT_EVENTS;
use std::alloc::Global;
use std::marker::Model;

/// A script: lines that are at most 1,000,000 events once they are expanded. The numbers of its devices are 0 to
/// 15. Contracts see the list of lines.
#[derive(Drop)]
pub struct Script {
    lines: Vec<Line>,
    /// The events of the lines.
    events: u32,
}

impl Model for Script {
    ghost use Rattle.std.specs.Prelude.{List};
    ghost use Rattle.rt_script.specs.declared.line.Line.{Line};

    ghost Value = { List Line };

    ghost view = { λ script. script.lines.items };

    ghost use Rattle.rt_script.specs.Inside.Counted.{HasEventCount};

    ghost invariant = { λ script. HasEventCount script.lines.items script.events };
}

impl Script {
    /// A script without lines.
    pub fn new(alloc: Global) -> Script
        ensures { result ≡ [] }
    {
        Script {
            lines: Vec::new(alloc),
            events: 0,
        }
    }

    /// Its lines, in order.
    pub fn lines(&self) -> &[Line]
        ensures lines { result.now ≡ self.now }
        ensures script { spec.IsScript self.now }
    {
        self.lines.as_slice()
    }

    /// How many events its lines are.
    pub fn events(&self) -> u32
        ensures count { result ≡ spec.count self.now }
        ensures few { result ≤ SCRIPT_EVENTS }
    {
        self.events
    }

    /// Adds a line, where the events are not too many then. It answers whether they are not.
    pub fn push(&mut self, line: Line) -> Result<bool, NoMemory>
        requires { spec.HasDeviceInRange line }
        ensures fits { IfOk result (λ fits. fits ≡ nat_le (spec.count self.old + spec.count_of line) SCRIPT_EVENTS) }
        ensures pushed { result ≡ Ok true → self.new ≡ self.old ++ line ∷ [] }
        ensures unchanged { result ≡ Ok false → self.new ≡ self.old }
        ensures wanting { OnErr result (self.new ≡ self.old) }
    {
        let count = line.count();
        if count > SCRIPT_EVENTS - self.events {
            return Ok(false);
        }
        self.lines.push(line)?;
        self.events += count;
        Ok(true)
    }
}
