// Which part of the fourth or the fifth rule a point fails.

ghost use Rattle.std.specs.Prelude.{◌≡◌, IfOk};
ghost use Rattle.rt_points.specs.Limits.{IsWithinLimits};
ghost use Rattle.rt_points.specs.Rules.{NestsInOneWay, IsOperable, OperatesWell, IsNotedWell, NotesWell};
ghost use Rattle.rt_points.specs.declared.rule.Rule.TheVariants as rule;
ghost use Rattle.rt_why.specs.Witness as spec;

use crate::marks::Marks;
use crate::point::Point;
use crate::search::point_near;
use crate::wanted::Wanted;
use crate::witness::{NotePart, OperandPart, Witness};
use rt_code::{Image, Line};
use rt_ids::NoMemory;
use rt_judge::execution_priority::frame_of;
use rt_judge::exits::line_at;
use rt_judge::notes::{has_its_note, is_unsaved, stands_on};
use rt_judge::operands::{has_its_cell, has_its_slots, is_supported};
use std::alloc::Global;

/// The first part of the fourth rule that an instruction fails at a point, where it fails one.
fn failed_operand(image: &Image, point: &Point, line: &Line) -> OperandPart
    requires { ¬ IsOperable image.now point.now line.now.0 }
    ensures { ¬ spec.KeepsOperand image.now point.now line.now.0 result }
{
    if !is_supported(&line.0) {
        OperandPart::Support
    } else if !has_its_slots(&line.0, frame_of(image, point.owner)) {
        OperandPart::Slots
    } else if !has_its_cell(&line.0, image.cells.len()) {
        OperandPart::Cell
    } else {
        OperandPart::End
    }
}

/// The first part of the fifth rule that an instruction and its note fail at a point, where they fail one.
fn failed_note(image: &Image, point: &Point, line: &Line) -> NotePart
    requires { ¬ IsNotedWell image.now point.now line.now.0 line.now.1 }
    ensures { ¬ spec.KeepsNote image.now point.now line.now.0 line.now.1 result }
{
    let opened = point.inside.as_slice();
    if !stands_on(point.owner, opened, &line.1, &line.0) {
        NotePart::Place
    } else if !has_its_note(&line.0, &line.1) {
        NotePart::Note
    } else if !is_unsaved(opened, &line.0) {
        NotePart::Saved
    } else {
        NotePart::Mask
    }
}

/// The witness that the fourth rule is broken.
pub fn operands_witness(alloc: Global, image: &Image, marks: &Marks) -> Result<Witness, NoMemory>
    requires limits { IsWithinLimits image.now }
    requires nests { NestsInOneWay image.now }
    requires broken { ¬ OperatesWell image.now }
    ensures { IfOk result (λ w. spec.IsWitness image.now w × (spec.rule_of w ≡ rule.Operands)) }
{
    let point = point_near(alloc, image, marks.inoperable, &Wanted::Inoperable)?;
    match line_at(image, point.address) {
        Some(line) => {
            let part = failed_operand(image, &point, &line);
            Ok(Witness::Operand(point, part))
        }
        None => unreachable!(),
    }
}

/// The witness that the fifth rule is broken.
pub fn notes_witness(alloc: Global, image: &Image, marks: &Marks) -> Result<Witness, NoMemory>
    requires limits { IsWithinLimits image.now }
    requires nests { NestsInOneWay image.now }
    requires broken { ¬ NotesWell image.now }
    ensures { IfOk result (λ w. spec.IsWitness image.now w × (spec.rule_of w ≡ rule.Notes)) }
{
    let point = point_near(alloc, image, marks.misnoted, &Wanted::Misnoted)?;
    match line_at(image, point.address) {
        Some(line) => {
            let part = failed_note(image, &point, &line);
            Ok(Witness::Noted(point, part))
        }
        None => unreachable!(),
    }
}
