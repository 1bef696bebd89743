// The bounds of the types that every crate speaks of.

use crate::part::print_line;
use rt_ids::{Irq, Op, Prio, Status};
use std::io;

/// The values of priorities at the least and the greatest priority of few, of usual and of many bits.
const PRIORITIES: [(u8, u8); 6] = [(1, 3), (8, 3), (2, 4), (16, 4), (1, 7), (128, 7)];

/// Operations at operands where they could fail or go out of range.
const OPERATIONS: [(Op, u32, u32); 6] = [
    (Op::Div, 7, 0),
    (Op::Rem, 7, 0),
    (Op::Shl, 1, 31),
    (Op::Shl, 1, 32),
    (Op::Add, u32::MAX, 1),
    (Op::Sub, 0, 1),
];

/// The value of a priority where there are so many bits.
fn value(priority: u8, bits: u8) -> Option<u8> {
    if (3..=7).contains(&bits) && 1 <= priority && priority <= 1 << bits {
        Some(Prio(priority).hw(bits))
    } else {
        None
    }
}

/// Prints values of priorities.
fn print_priorities(rt: &impl Print) -> io::Result<()> {
    for (priority, bits) in PRIORITIES {
        print_line(
            rt,
            "a priority, bits, and its value",
            &(priority, bits, value(priority, bits)),
        )?;
    }
    Ok(())
}

/// Prints what operations give.
fn print_operations(rt: &impl Print) -> io::Result<()> {
    for (op, a, b) in OPERATIONS {
        print_line(
            rt,
            "an operation, two numbers, and what it gives",
            &(op, a, b, op.apply(a, b)),
        )?;
    }
    Ok(())
}

/// Prints the greatest number of an interrupt and the one behind it, values of priorities, the numbers of the first and
/// of the last status, and what operations give.
pub fn print_bounds(rt: &impl Print) -> io::Result<()> {
    print_line(
        rt,
        "interrupts 495 and 496",
        &[Irq::new(495), Irq::new(496)],
    )?;
    print_priorities(rt)?;
    let statuses = [Status::Done, Status::App, Status::Memory];
    print_line(rt, "statuses", &statuses)?;
    print_line(rt, "their numbers", &statuses.map(|status| status.number()))?;
    print_operations(rt)
}
