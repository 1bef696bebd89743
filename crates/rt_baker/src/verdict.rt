/// What an audit says of a trace.
#[derive(Clone, Copy, PartialEq, Eq)]
pub enum Verdict {
    /// It is a run of Baker's machine, within the stack bound.
    Yes,
    /// It is not, and the first item that is wrong has this number, from 1. Where only the total is wrong, the number
    /// is one more than there are items.
    No(u64),
}
