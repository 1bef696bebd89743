// What clauses know of a gathered line.

use crate::call::{Call, Entry};
use std::collections::LinkedList;

/// A gathered line: its number and its calls. Contracts name its values; no program makes one.
pub struct Part {
    pub line: u8,
    pub calls: LinkedList<Call>,
}

// What a seat at the words knows. No value of it is made.
pub struct View {
    // The line's number: 255 of the first line, and of one that was gathered.
    pub line: u8,
    // Its own calls.
    pub calls: LinkedList<Call>,
    // The numbers of the lines that it made, newest first.
    pub made: LinkedList<u8>,
    // The lines that it gathered, newest first.
    pub gathered: LinkedList<Part>,
    // How many calls it had when it last made or gathered a line.
    pub since: u64,
    // The bits that may be pended.
    pub may: LinkedList<u32>,
    // A beginning of the history of all lines, which it has seen.
    pub seen: LinkedList<Entry>,
}
