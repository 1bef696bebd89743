// The ceilings of an application, as a structure.

use std::marker::Model;

/// The ceiling of a ready queue.
#[derive(Clone, Copy, PartialEq, Eq)]
pub struct ReadyCeiling {
    /// The level of the software tasks whose messages it holds.
    pub level: u8,
    pub ceiling: u8,
}

/// The ceilings of all that critical sections guard: priorities, of which a section that guards it holds off all up
/// to and with its ceiling.
#[derive(Drop)]
pub struct Ceilings {
    /// Of the shared resources, in order of declaration.
    pub shared: Vec<u8>,
    /// Of the free places of the tasks, in order of declaration; a hardware task has none.
    pub free: Vec<Option<u8>>,
    /// Of the ready queues, by rising level.
    pub ready: Vec<ReadyCeiling>,
    /// Of the timer queue, where there is a monotonic.
    pub timer: Option<u8>,
}

impl Model for Ceilings {
    ghost use Rattle.rt_app.specs.Ceiling.{Ceilings};

    ghost Value = { Ceilings };

    ghost view = { λ c. record {
      shared = c.shared.items;
      free = c.free.items;
      ready = c.ready.items;
      timer = c.timer;
    } };
}
