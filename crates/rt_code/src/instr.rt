// Instructions, notes and lines of code.

use rt_ids::{BodyId, Irq, Op, Section, TaskId};

/// An instruction. A slot is a word of the running frame, from 0; a cell is a word of memory, from 0; a code address
/// counts instructions.
#[derive(Clone, Copy, Debug, PartialEq, Eq)]
pub enum Instr {
    /// `set D V`: slot D becomes the value V.
    Set(u32, u32),
    /// `copy D S`: slot D becomes slot S.
    Copy(u32, u32),
    /// `OP D A B`: slot D becomes what the operation gives on slots A and B.
    Calc(Op, u32, u32, u32),
    /// `load D C`: slot D becomes cell C.
    Load(u32, u32),
    /// `store C S`: cell C becomes slot S.
    Store(u32, u32),
    /// `loadat D C S`: slot D becomes the cell C + slot S.
    LoadAt(u32, u32, u32),
    /// `storeat C S A`: the cell C + slot S becomes slot A.
    StoreAt(u32, u32, u32),
    /// `jump L`: goes to the address L.
    Jump(u32),
    /// `jumpz S L`: goes to the address L where slot S is 0.
    JumpZ(u32, u32),
    /// `emit S`: gives the item that emits slot S.
    Emit(u32),
    /// `post I`: the interrupt becomes pending, and gives its item.
    Post(Irq),
    /// `clock D`: slot D becomes the time, which gives its item.
    Clock(u32),
    /// `alarm S I`: sets the alarm to the instant in slot S, for the interrupt I.
    Alarm(u32, Irq),
    /// `noalarm`: sets the alarm to none.
    NoAlarm,
    /// `raise D V`: slot D becomes BASEPRI, and BASEPRI becomes V.
    Raise(u32, u32),
    /// `restore S`: BASEPRI becomes slot S.
    Restore(u32),
    /// `mask D`: slot D becomes PRIMASK, and PRIMASK becomes 1.
    Mask(u32),
    /// `unmask S`: PRIMASK becomes slot S, which is 0 or 1.
    Unmask(u32),
    /// `mark`: nothing; a note stands on it.
    Mark,
    /// `serve`: PRIMASK becomes 0.
    Serve,
    /// `wait`: nothing; the code address stays.
    Wait,
    /// `call B S`: calls the body of row B with the arguments in the slots from S on.
    Call(u32, u32),
    /// `back`: returns from a called body.
    Back,
    /// `ret`: returns from the handler, and gives its item.
    Ret,
}

/// A note on an instruction: the item that it gives once it is done. It is read only where the instruction gives no
/// item of its own; where a slot that it names is not in the frame, the core traps.
#[derive(Clone, Copy, Debug, PartialEq, Eq)]
pub enum Note {
    /// `enter X`: a section is entered.
    Enter(Section),
    /// `leave X`: a section is left; a resource's with the value of its cell.
    Leave(Section),
    /// `ok T`: a place of a task is taken.
    Placed(TaskId),
    /// `full T`: all places of a task are out.
    Full(TaskId),
    /// `ready T`: a message goes to the ready queue.
    Ready(TaskId),
    /// `start T S`: a message starts, with its arguments in the slots from S on.
    Start(TaskId, u32),
    /// `free T`: a place of a task is given back.
    Free(TaskId),
    /// `arm T S`: a message goes to the timer queue, for the instant in slot S.
    Arm(TaskId, u32),
    /// `fire T`: a due message leaves the timer queue.
    Fire(TaskId),
    /// `cancel T S`: the message whose handle is in slot S leaves the timer queue.
    Cancel(TaskId, u32),
    /// `move T S A`: the message whose handle is in slot S waits for the instant in slot A.
    Move(TaskId, u32, u32),
    /// `end X`: a body ends.
    End(BodyId),
}

/// A line of code: an instruction, and the note on it, where there is one.
pub type Line = (Instr, Option<Note>);
