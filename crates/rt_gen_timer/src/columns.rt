// The columns of the timer queue, by name.

ghost use Rattle.std.specs.Prelude.{◌≡◌, ◌≤◌, ◌*◌};
ghost use Rattle.rt_ids.specs.declared.limits.TheConstants.{CAPACITY, TASKS};
ghost use Rattle.rt_gen_timer.specs.Inside.Templates.{cell_of};

use crate::queue::TimerQueue;
use crate::template::Column;

impl TimerQueue {
    /// The first cell of a column, or the cell of a count.
    pub(crate) fn cell(&self, column: Column) -> u32
        requires few { self.now.messages ≤ CAPACITY * TASKS }
        ensures { result ≡ cell_of self.now column }
    {
        let (first, messages) = (u32::from(self.at), self.messages);
        match column {
            Column::Count => first,
            Column::Armings => first + 1,
            Column::HandleCount => first + 2,
            Column::Instants => first + 3,
            Column::Numbers => first + 3 + messages,
            Column::Handles => first + 3 + messages + messages,
            Column::Heap => first + 3 + messages + messages + messages,
        }
    }
}
