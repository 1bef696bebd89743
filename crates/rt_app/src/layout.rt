// Where the cells of an application lie in memory, as a structure.

use rt_ids::CellRow;
use std::marker::Model;

/// The cells of memory, and the numbers of the first cells that code for queues needs, 0 where there is none.
#[derive(Drop)]
pub struct Layout {
    /// By number: the cells of resources, of local resources, of the queues of software tasks, of ready queues.
    pub cells: Vec<CellRow>,
    /// By task: the first of the arguments of its places.
    pub inputs: Vec<u16>,
    /// By task: how many of its places are free, before the places themselves.
    pub free: Vec<u16>,
    /// By rising level of software tasks: the head of its ready queue.
    pub ready: Vec<u16>,
    /// The first cell of the timer queue.
    pub timer: u16,
}

impl Model for Layout {
    ghost use Rattle.rt_app.specs.Layout.{Layout};

    ghost Value = { Layout };

    ghost view = { λ l. record {
      cells = l.cells.items;
      inputs = l.inputs.items;
      free = l.free.items;
      ready = l.ready.items;
      timer = l.timer;
    } };
}
