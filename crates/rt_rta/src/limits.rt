// Limits on requests.

ghost use Rattle.std.specs.Prelude.{◌≡◌, [], ◌∷◌, ◌++◌, OnOk, OnErr};
ghost use Rattle.rt_rta.specs.Limits.{every_of};

use rt_ids::{Irq, NoMemory};
use std::alloc::Global;
use std::marker::Model;

/// How often an interrupt is requested at most.
#[derive(Clone, Copy, PartialEq, Eq)]
pub struct Limit {
    pub irq: Irq,
    /// The least distance between two requests, in core steps.
    pub every: u32,
}

/// How often interrupts are requested at most; one without a limit is never requested. Contracts see the list of
/// limits.
#[derive(Drop)]
pub struct Limits {
    rows: Vec<Limit>,
}

impl Model for Limits {
    ghost use Rattle.std.specs.Prelude.{List};
    ghost use Rattle.rt_rta.specs.declared.limits.Limit.{Limit};

    ghost Value = { List Limit };

    ghost view = { λ limits. limits.rows.items };
}

impl Limits {
    /// No limits.
    pub fn new(alloc: Global) -> Limits
        ensures { result ≡ [] }
    {
        Limits {
            rows: Vec::new(alloc),
        }
    }

    /// The limits, in order.
    pub fn rows(&self) -> &[Limit]
        ensures { result.now ≡ self.now }
    {
        self.rows.as_slice()
    }

    /// One limit more.
    pub fn push(&mut self, limit: Limit) -> Result<(), NoMemory>
        ensures pushed { OnOk result (self.new ≡ self.old ++ limit ∷ []) }
        ensures unchanged { OnErr result (self.new ≡ self.old) }
    {
        self.rows.push(limit)?;
        Ok(())
    }

    /// The least distance between requests of an interrupt, in core steps, where it has a limit.
    pub fn every(&self, irq: Irq) -> Option<u32>
        ensures { result ≡ every_of self.now irq }
    {
        let row = self.rows.iter().find(|limit| limit.irq == irq);
        row.map(|limit| limit.every)
    }
}
