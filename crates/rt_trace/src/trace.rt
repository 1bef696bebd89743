// A trace in memory: its items and its total.

ghost use Rattle.std.specs.Prelude.{◌≡◌};

use crate::item::Item;
use std::marker::Model;

/// A trace: items, and how many core steps there are in all, where that is told. Contracts see a record of the list
/// and the number.
#[derive(Drop)]
pub struct Trace {
    items: Vec<Item>,
    total: Option<u64>,
}

impl Model for Trace {
    ghost use Rattle.rt_trace.specs.Trace.{Trace};

    ghost Value = { Trace };

    ghost view = { λ trace. record { items = trace.items.items; total = trace.total } };
}

impl Trace {
    /// A trace of these items, and this total.
    pub fn new(items: Vec<Item>, total: Option<u64>) -> Trace
        ensures { result ≡ record { items = items.items; total = total } }
    {
        Trace { items, total }
    }

    /// The items, in order.
    pub fn items(&self) -> &[Item]
        ensures { result.now ≡ self.now.items }
    {
        self.items.as_slice()
    }

    /// The number of core steps in all, where it is told.
    pub fn total(&self) -> Option<u64>
        ensures { result ≡ self.now.total }
    {
        self.total
    }
}
