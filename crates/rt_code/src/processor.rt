// What instructions work on, what they ask of the core, and why they trap.

ghost use Rattle.std.specs.Prelude.{◌≡◌};
ghost use Rattle.rt_code.specs.Trap.{trap_number};

use rt_ids::Irq;

/// The registers of the processor that instructions name.
#[derive(Clone, Copy, PartialEq, Eq)]
pub struct Registers {
    /// The code address.
    pub address: u32,
    /// Priority values from this one on are masked, and none where it is 0.
    pub basepri: u32,
    /// Whether all interrupts are masked.
    pub primask: bool,
}

/// What an instruction asks of the rest of the core, once it has had its own effect.
#[derive(Clone, Copy, Debug, PartialEq, Eq)]
pub enum Request {
    /// Nothing: the instruction is done, and gives no item itself.
    Nothing,
    /// The item that emits this value.
    Emit(u32),
    /// That an interrupt becomes pending.
    Post(Irq),
    /// The item of the time that was read.
    Clock(u32),
    /// That the alarm is set to an instant, for an interrupt.
    Alarm(u32, Irq),
    /// That the alarm is set to none.
    NoAlarm,
    /// That the body of a row is called, with its arguments in the slots from one on.
    Call(u32, u32),
    /// That the called body returns.
    Back,
    /// That the handler returns.
    Return,
}

/// Why the core stops.
#[derive(Clone, Copy, Debug, PartialEq, Eq)]
pub enum Trap {
    /// A cell that is not there.
    Address,
    /// A slot that is not in the frame; a frame that does not fit the stack; arguments that are not in both frames; a
    /// call outside a handler's own code, or in a frame without a slot; a return of a body that was not called, or of a
    /// handler where none runs or a called body does; or a value above 1 for PRIMASK.
    Stack,
    /// An instruction or a body that is not there.
    Jump,
}

impl Trap {
    /// Its number: 1 to 3.
    pub fn number(self) -> u8
        ensures { result ≡ trap_number self }
    {
        match self {
            Trap::Address => 1,
            Trap::Stack => 2,
            Trap::Jump => 3,
        }
    }
}
