use crate::call::Call;
use std::collections::LinkedList;

// What a seat at a mailbox knows. No value of it is made.
pub struct View {
    // Whether it may give.
    pub gives: bool,
    // Whether it may take.
    pub takes: bool,
    // All gives so far, where it may give.
    pub given: LinkedList<Call>,
    // All takes so far, where it may take.
    pub taken: LinkedList<Call>,
    // A beginning of the history, which it has seen.
    pub seen: LinkedList<Call>,
    // Its takes since it took in another seat.
    pub last: LinkedList<Call>,
}
