/// A limit of application texts.
#[derive(Clone, Copy, Debug, PartialEq, Eq)]
pub enum Limit {
    /// 64 tasks.
    Tasks,
    /// 64 shared resources.
    Shared,
    /// 64 local resources.
    Locals,
    /// 240 declared interrupts.
    Interrupts,
    /// Interrupt numbers from 0 to 495.
    Interrupt,
    /// From 3 to 7 priority bits.
    Bits,
    /// 4 arguments of a task.
    Arguments,
    /// Capacities from 1 to 16.
    Capacity,
    /// 32 bytes of a name.
    Name,
    /// Numbers of 32 bits.
    Number,
    /// 16 blocks inside each other, the body included.
    Nesting,
    /// 64 open parentheses of one expression.
    Parentheses,
    /// An expression of depth 16, where a name or a number is 1 deep.
    Depth,
    /// 1,000 statements of a body, those of inner blocks included.
    Statements,
    /// 1,000 turns of a `for`.
    Turns,
}
