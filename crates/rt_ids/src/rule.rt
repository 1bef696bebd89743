/// A rule of applications, in the order of the numbers of their refusals.
#[derive(Clone, Copy, PartialEq, Eq)]
pub enum Rule {
    /// A name is not declared, or a local resource is used by a body that does not list it.
    UnknownName,
    /// A name is declared or listed a second time, or a variable has a name that is taken.
    DeclaredTwice,
    /// A priority is not from 1 to 2^bits.
    PriorityOutOfRange,
    /// An interrupt is used for two things, or a number for two interrupts.
    InterruptUsedTwice,
    /// There are fewer dispatchers than levels of software tasks.
    TooFewDispatchers,
    /// Two bodies list one local resource.
    LocalInTwoTasks,
    /// A shared resource is used where it is not the body's to use.
    OutsideLock,
    /// A resource is locked where it is locked already.
    LockedInsideItself,
    /// A resource is read by some bodies without a lock, and is not so by others.
    SharedAndExclusive,
    /// A resource that is used without a lock is listed at two priorities.
    LockFreeAtTwoPriorities,
    /// A spawn of a hardware task or with a wrong number of arguments, or a hardware task with what only software tasks
    /// have.
    NotSoftware,
    /// Time is used and there is no monotonic.
    NoMonotonic,
    /// A body takes too many steps, or the code has too many instructions with it.
    TooLongBody,
    /// An assignment to what can only be read.
    NotWritable,
}
