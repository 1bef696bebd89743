// The parts of a spawn's code: a place is taken, filled, and made ready.

ghost use Rattle.std.specs.Prelude.{◌≡◌, ◌∷◌, [], ◌+◌, ◌<◌, ◌≤◌, ◌^◌, OnOk, OnErr};
ghost use Rattle.rt_app.specs.declared.costs.TheConstants.{SPAWN_WORDS};
ghost use Rattle.rt_code.specs.declared.instr.Instr.TheVariants as instr;
ghost use Rattle.rt_gen_queue.specs.Line.{plain};
ghost use Rattle.rt_gen_queue.specs.SpawnLines as spec;
ghost use Rattle.rt_gen_queue.specs.Making.{Appends, Extends};
ghost use Rattle.rt_gen_queue.specs.declared.slots.TheConstants.{PLACE, WORK};

use crate::lines::Lines;
use crate::slots::{COUNT, INDEX, MASK, PLACE, WORK};
use crate::target::Target;
use rt_code::{Instr, Line, Note};
use rt_ids::limits::CAPACITY;
use rt_ids::{NoMemory, Op, Prio, Section};

/// The lines that take a place of the task, in a body at a preemption threshold, or lead to the address `full` where
/// none is left. The place comes into the seventh of the slots from `slot` on; the fifth, the eighth and the ninth are
/// used too.
pub fn place(target: &Target, threshold: u8, slot: u32, full: u32) -> [Line; 8]
    requires slots { slot + SPAWN_WORDS < 2 ^ 32 }
    ensures { result ≡ spec.place_lines target.now threshold slot full }
{
    let guard = target.guard;
    let free = u32::from(target.free);
    let (count, place) = (slot + COUNT, slot + PLACE);
    let (one, mask) = (slot + WORK, slot + MASK);
    [
        guard.enter_line(Section::Free(target.task), threshold, mask),
        (Instr::Load(count, free), None),
        (Instr::JumpZ(count, full), None),
        (Instr::Set(one, 1), None),
        (Instr::Calc(Op::Sub, count, count, one), None),
        (Instr::Store(free, count), None),
        (
            Instr::LoadAt(place, free + 1, count),
            Some(Note::Placed(target.task)),
        ),
        guard.leave_line(Section::Free(target.task), threshold, mask),
    ]
}

/// The lines that put a number into the eighth of the slots from `slot` on, and then into another slot the result of an
/// operation on the place in the seventh and that number.
fn with_place(op: Op, to: u32, number: u32, slot: u32) -> [Line; 2]
    requires slots { slot + SPAWN_WORDS < 2 ^ 32 }
    ensures { result ≡ plain (instr.Set (slot + WORK) number)
        ∷ plain (instr.Calc op to (slot + PLACE) (slot + WORK)) ∷ [] }
{
    [
        (Instr::Set(slot + WORK, number), None),
        (Instr::Calc(op, to, slot + PLACE, slot + WORK), None),
    ]
}

/// Appends the lines that store the arguments in the cells of the place.
fn store(target: &Target, slot: u32, lines: &mut Lines) -> Result<(), NoMemory>
    requires slots { slot + SPAWN_WORDS < 2 ^ 32 }
    requires few { target.now.args ≤ 4 }
    ensures lines { OnOk result (Appends lines.old lines.new
        (spec.store_code target.now.args target.now.inputs slot 0)) }
    ensures left { OnErr result (Extends lines.old lines.new) }
{
    let inputs = u32::from(target.inputs);
    let offset = slot + WORK;
    for argument in 0..u32::from(target.args) {
        lines.push(Instr::StoreAt(inputs + argument, offset, slot + argument))?;
    }
    Ok(())
}

/// Appends the lines that store the arguments, which are in the slots from `slot` on, in the cells of the place in the
/// seventh of these, and leave the word of its message there. The eighth is used too. An error says that memory is used
/// up; then some of the lines may have been appended, and those before are as they were.
pub fn fill(target: &Target, slot: u32, lines: &mut Lines) -> Result<(), NoMemory>
    requires slots { slot + SPAWN_WORDS < 2 ^ 32 }
    requires few { target.now.args ≤ 4 }
    ensures lines { OnOk result (Appends lines.old lines.new (spec.fill_lines target.now slot)) }
    ensures left { OnErr result (Extends lines.old lines.new) }
{
    let args = u32::from(target.args);
    let places = CAPACITY * u32::from(target.task.0);
    lines.append(&with_place(Op::Mul, slot + WORK, args, slot))?;
    store(target, slot, lines)?;
    lines.append(&with_place(Op::Add, slot + PLACE, places, slot))
}

/// The lines that put the message whose word is in the seventh of the slots from `slot` on into the ring of its level,
/// and pend the level's dispatcher, in a body at a preemption threshold. The fifth to the ninth slot are used.
pub fn ready(target: &Target, threshold: u8, slot: u32) -> [Line; 12]
    requires slots { slot + SPAWN_WORDS < 2 ^ 32 }
    ensures { result ≡ spec.ready_lines target.now threshold slot }
{
    let level = target.queue.level;
    let guard = target.queue.guard;
    let head = u32::from(target.queue.at);
    let (count, index, word) = (slot + COUNT, slot + INDEX, slot + PLACE);
    let (size, mask) = (slot + WORK, slot + MASK);
    [
        guard.enter_line(Section::Ready(Prio(level)), threshold, mask),
        (Instr::Load(count, head + 1), None),
        (Instr::Load(index, head), None),
        (Instr::Calc(Op::Add, index, index, count), None),
        (Instr::Set(size, target.queue.room), None),
        (Instr::Calc(Op::Rem, index, index, size), None),
        (Instr::StoreAt(head + 2, index, word), None),
        (Instr::Set(size, 1), None),
        (Instr::Calc(Op::Add, count, count, size), None),
        (
            Instr::Store(head + 1, count),
            Some(Note::Ready(target.task)),
        ),
        (Instr::Post(target.queue.irq), None),
        guard.leave_line(Section::Ready(Prio(level)), threshold, mask),
    ]
}

/// The lines of the two answers, the first of which leads to an address.
pub(crate) fn end_lines(target: &Target, threshold: u8, slot: u32, end: u32) -> [Line; 4]
    requires slots { slot + SPAWN_WORDS < 2 ^ 32 }
    ensures { result ≡ spec.end_lines target.now threshold slot end }
{
    [
        (Instr::Set(slot, 1), None),
        (Instr::Jump(end), None),
        (Instr::Set(slot, 0), Some(Note::Full(target.task))),
        target
            .guard
            .leave_line(Section::Free(target.task), threshold, slot + MASK),
    ]
}
