// The text of an answer.

ghost use Rattle.std.specs.Prelude.{◌≡◌, ◌++◌, flat_map, IfOk, OnOk};
ghost use Rattle.rt_why.specs.Text as spec;

use crate::point::Point;
use crate::pushing::{push_outside, push_point, push_row_name};
use crate::witness::{NotePart, OperandPart, Uncovered, Unguarded, Why, Witness};
use rt_code::Image;
use rt_ids::{NoMemory, push_bytes};
use rt_judge::execution_priority::{execution_priority, lowered_value, owner_value};
use rt_judge::exits::line_at;
use rt_judge::nesting::kind_of;
use rt_listing::{push_count, push_spaced};
use std::alloc::Global;

/// The word of a part of the fourth rule.
fn operand_word(part: OperandPart) -> &'static [u8]
    ensures { result.now ≡ spec.operand_word part }
{
    match part {
        OperandPart::Support => b"support",
        OperandPart::Slots => b"slots",
        OperandPart::Cell => b"cell",
        OperandPart::End => b"end",
    }
}

/// The word of a part of the fifth rule.
fn note_word(part: NotePart) -> &'static [u8]
    ensures { result.now ≡ spec.note_word part }
{
    match part {
        NotePart::Place => b"place",
        NotePart::Note => b"note",
        NotePart::Saved => b"saved",
        NotePart::Mask => b"mask",
    }
}

/// Appends two rows of one number.
fn push_numbers(out: &mut Vec<u8>, image: &Image, one: usize, other: usize) -> Result<(), NoMemory>
    ensures { OnOk result (out.new.items ≡ out.old.items ++ spec.numbers_text image.now one other) }
{
    push_bytes(out, b"numbers ")?;
    push_row_name(out, image, one)?;
    push_bytes(out, b" ")?;
    push_row_name(out, image, other)?;
    push_bytes(out, b"\n")
}

/// Appends a row whose priority value has other bits.
fn push_value(out: &mut Vec<u8>, image: &Image, index: usize) -> Result<(), NoMemory>
    ensures { OnOk result (out.new.items ≡ out.old.items ++ spec.value_text image.now index) }
{
    push_bytes(out, b"value ")?;
    push_row_name(out, image, index)?;
    push_bytes(out, b"\n")
}

/// Appends a fault of the stack and its size.
fn push_stack(out: &mut Vec<u8>, image: &Image, word: &[u8]) -> Result<(), NoMemory>
    ensures { OnOk result (out.new.items ≡ out.old.items ++ spec.stack_text image.now word.now) }
{
    push_bytes(out, word)?;
    push_spaced(out, image.stack_bytes)?;
    push_bytes(out, b"\n")
}

/// Appends a stack that is too small, and what is needed.
fn push_need(out: &mut Vec<u8>, image: &Image, need: u64) -> Result<(), NoMemory>
    ensures { OnOk result (out.new.items ≡ out.old.items ++ spec.need_text image.now need) }
{
    push_bytes(out, b"stack")?;
    push_spaced(out, image.stack_bytes)?;
    push_count(out, need as usize)?;
    push_bytes(out, b"\n")
}

/// Appends a word in a line of its own, and a point.
fn push_part(out: &mut Vec<u8>, image: &Image, word: &[u8], point: &Point) -> Result<(), NoMemory>
    ensures { OnOk result (out.new.items ≡ out.old.items ++ spec.part_text image.now word.now point.now) }
{
    push_bytes(out, word)?;
    push_bytes(out, b"\n")?;
    push_point(out, image, b"point", point)
}

/// The value of the execution priority behind the instruction at a point, where that enters a section.
fn value_behind(image: &Image, point: &Point) -> u32
    ensures { result ≡ spec.value_behind image.now point.now }
{
    let value = execution_priority(image, point.owner, &point.inside);
    match line_at(image, point.address) {
        Some(line) => lowered_value(kind_of(line.0), value),
        None => value,
    }
}

/// Appends two points that enter a section, of which the first does not hold off the other.
fn push_weak(out: &mut Vec<u8>, image: &Image, one: &Point, other: &Point) -> Result<(), NoMemory>
    ensures { OnOk result (out.new.items ≡ out.old.items ++ spec.weak_text image.now one.now other.now) }
{
    push_bytes(out, b"weak")?;
    push_spaced(out, value_behind(image, one))?;
    push_spaced(out, owner_value(image, other.owner))?;
    push_bytes(out, b"\n")?;
    push_point(out, image, b"point", one)?;
    push_point(out, image, b"other", other)
}

/// Appends the name of a cell.
fn push_cell_name(out: &mut Vec<u8>, image: &Image, cell: usize) -> Result<(), NoMemory>
    ensures { OnOk result (out.new.items ≡ out.old.items ++ spec.cell_name image.now cell) }
{
    match image.cells.get(cell) {
        Some(row) => push_bytes(out, row.name.bytes()),
        None => Ok(()),
    }
}

/// Appends a cell by its number and its name.
fn push_cell(out: &mut Vec<u8>, image: &Image, cell: usize) -> Result<(), NoMemory>
    ensures { OnOk result (out.new.items ≡ out.old.items ++ spec.cell_text image.now cell) }
{
    push_bytes(out, b"guard")?;
    push_count(out, cell)?;
    push_bytes(out, b" ")?;
    push_cell_name(out, image, cell)?;
    push_bytes(out, b"\n")
}

/// Appends the points outside sections, section by section.
fn push_all_outside(out: &mut Vec<u8>, image: &Image, outside: &[Uncovered]) -> Result<(), NoMemory>
    ensures { OnOk result (out.new.items ≡ out.old.items ++ flat_map (spec.outside_text image.now) outside.now) }
{
    for o in outside {
        push_outside(out, image, o)?;
    }
    Ok(())
}

/// Appends a cell that no section guards.
fn push_guard(out: &mut Vec<u8>, image: &Image, unguarded: &Unguarded) -> Result<(), NoMemory>
    ensures { OnOk result (out.new.items ≡ out.old.items ++ spec.guard_text image.now unguarded.now) }
{
    push_cell(out, image, unguarded.cell)?;
    push_point(out, image, b"store", &unguarded.storer)?;
    push_point(out, image, b"point", &unguarded.one)?;
    push_point(out, image, b"other", &unguarded.other)?;
    push_all_outside(out, image, &unguarded.outside)
}

/// Appends two points of one owner and address.
fn push_ways(out: &mut Vec<u8>, image: &Image, one: &Point, other: &Point) -> Result<(), NoMemory>
    ensures { OnOk result (out.new.items ≡ out.old.items ++ spec.ways_text image.now one.now other.now) }
{
    push_part(out, image, b"ways", one)?;
    push_point(out, image, b"other", other)
}

/// Appends a witness.
fn push_witness(out: &mut Vec<u8>, image: &Image, witness: &Witness) -> Result<(), NoMemory>
    ensures { OnOk result (out.new.items ≡ out.old.items ++ spec.witness_text image.now witness.now) }
{
    match witness {
        Witness::Ways(one, other) => push_ways(out, image, one, other),
        Witness::Depth(point) => push_part(out, image, b"depth", point),
        Witness::Numbers(one, other) => push_numbers(out, image, *one, *other),
        Witness::Value(index) => push_value(out, image, *index),
        Witness::Pairs => push_stack(out, image, b"pairs"),
        Witness::Large => push_stack(out, image, b"large"),
        Witness::Stack(need) => push_need(out, image, *need),
        Witness::Past(point) => push_part(out, image, b"past", point),
        Witness::Operand(point, part) => push_part(out, image, operand_word(*part), point),
        Witness::Noted(point, part) => push_part(out, image, note_word(*part), point),
        Witness::Again(point) => push_part(out, image, b"again", point),
        Witness::Weak(one, other) => push_weak(out, image, one, other),
        Witness::Guard(unguarded) => push_guard(out, image, unguarded),
    }
}

/// The text of an answer: `yes`, or `no` with the number of the rule and lines that tell the witness.
pub fn why_text(alloc: Global, image: &Image, why: &Why) -> Result<Vec<u8>, NoMemory>
    ensures { IfOk result (λ text. text.items ≡ spec.why_text image.now why.now) }
{
    let mut out = Vec::new(alloc);
    match why {
        Why::Yes => push_bytes(&mut out, b"yes\n")?,
        Why::No(witness) => {
            push_bytes(&mut out, b"no")?;
            push_spaced(&mut out, u32::from(witness.rule().number()))?;
            push_bytes(&mut out, b"\n")?;
            push_witness(&mut out, image, witness)?;
        }
    }
    Ok(out)
}
