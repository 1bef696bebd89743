// An instruction for a timer queue before its addresses are known.

use rt_code::{Line, Note};
use rt_ids::Op;

/// A column of the timer queue, or one of the counts before the columns.
#[derive(Clone, Copy)]
pub(crate) enum Column {
    /// The number of armed messages.
    Count,
    /// The number of armings so far.
    Armings,
    /// The number of handles given so far.
    HandleCount,
    /// The instants, by row.
    Instants,
    /// The numbers of last armings, by row.
    Numbers,
    /// The handles, by row.
    Handles,
    /// The heap, which holds rows.
    Heap,
}

/// An instruction for a timer queue, before it is known where the queue, the slots and the code are: a slot is counted
/// from the first of the 24, a cell is the first one of a column, and a jump counts from an address, the same for all
/// templates of a part.
#[derive(Clone, Copy)]
pub(crate) enum Template {
    /// A slot gets a value.
    Set(u32, u32),
    /// A slot gets the value of another.
    Copy(u32, u32),
    /// A slot gets the result of an operation on two others.
    Calc(Op, u32, u32, u32),
    /// A slot gets the value of a cell.
    Load(u32, Column),
    /// A cell gets the value of a slot.
    Store(Column, u32),
    /// A slot gets the cell of a column at the index in another slot.
    LoadAt(u32, Column, u32),
    /// The cell of a column at the index in a slot gets another slot's value.
    StoreAt(Column, u32, u32),
    /// A jump.
    Jump(u32),
    /// A jump to the address from which jumps count.
    Again,
    /// A jump where a slot is 0.
    JumpZero(u32, u32),
    /// A slot gets the time.
    Clock(u32),
    /// The alarm is set to the instant in a slot.
    Alarm(u32),
    /// The alarm is set to none.
    NoAlarm,
    /// The handler returns.
    Ret,
}

/// A part of the code for a timer queue.
#[derive(Clone, Copy)]
pub(crate) enum QueuePart<'a, 'b> {
    /// The lines of templates, with the address from which their jumps count.
    Code(&'a [Template], u32),
    /// The line that opens the section of the timer queue, at a preemption threshold that what runs holds off already.
    Enter(u8),
    /// The line that closes it.
    Leave(u8),
    /// The line that stores the row in hand at the hole, with a note.
    Settle(Note),
    /// Lines as they are.
    Lines(&'b [Line]),
}
