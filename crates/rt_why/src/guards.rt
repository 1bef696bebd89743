// The witness of the seventh rule.

ghost use Rattle.std.specs.Prelude.{◌≡◌, ℕ, not, position, IfOk};
ghost use Rattle.std.specs.List.{AllByRecursion};
ghost use Rattle.rt_ids.specs.declared.ids.Section.{Section as SectionView};
ghost use Rattle.rt_points.specs.Leading.{IsPoint};
ghost use Rattle.rt_points.specs.Limits.{IsWithinLimits};
ghost use Rattle.rt_points.specs.Rules.{NestsInOneWay, GuardsCells, OperatesWell};
ghost use Rattle.rt_points.specs.Point.{Point as PointView};
ghost use Rattle.rt_points.specs.declared.rule.Rule.TheVariants as rule;
ghost use Rattle.rt_judge.specs.Inside.Looks.{Looked};
ghost use Rattle.rt_judge.specs.Inside.Touching.{is_row_guarded};
ghost use Rattle.rt_why.specs.Inside.Wanted.{IsUnwanted};
ghost use Rattle.rt_why.specs.Witness as spec;

use crate::marks::{CellMark, Marks};
use crate::point::Point;
use crate::telling::{point_among, telling_points};
use crate::wanted::Wanted;
use crate::witness::{Uncovered, Unguarded, Witness};
use rt_code::Image;
use rt_ids::NoMemory;
use rt_judge::execution_priority::owner_value;
use rt_judge::findings::Findings;
use rt_judge::touching::{Touching, is_row_guarded};
use rt_points::Opened;
use std::alloc::Global;

/// The number of the first cell that is not guarded.
fn unguarded(rows: &[Option<Touching>]) -> Option<usize>
    ensures { result ≡ position (λ row. not (is_row_guarded row)) rows.now }
{
    rows.iter().position(|row| !is_row_guarded(row))
}

/// For each of these sections a point outside `init` at which the cell is touched and it is not open: the first of
/// these points that is one, else any.
fn points_outside(
    alloc: Global,
    image: &Image,
    points: &[Point],
    cell: usize,
    opened: &[Opened],
) -> Result<Vec<Uncovered>, NoMemory>
    requires limits { IsWithinLimits image.now }
    requires nests { NestsInOneWay image.now }
    requires points { AllByRecursion (IsPoint image.now) points.now }
    requires unguarded { (x : SectionView) → ¬ ((p : PointView) → IsPoint image.now p
        → IsUnwanted image.now (Wanted.Outside cell x) p) }
    ensures { IfOk result (λ outside. spec.AreOutside image.now cell opened.now outside.items) }
{
    let mut outside = Vec::new(alloc);
    for o in opened {
        let point = point_among(alloc, image, points, &Wanted::Outside(cell, o.section))?;
        outside.push(Uncovered {
            section: o.section,
            point,
        })?;
    }
    Ok(outside)
}

/// The witness of a cell that is not guarded.
fn cell_witness(
    alloc: Global,
    image: &Image,
    marks: &[CellMark],
    cell: usize,
) -> Result<Unguarded, NoMemory>
    requires limits { IsWithinLimits image.now }
    requires nests { NestsInOneWay image.now }
    requires stored { ¬ ((p : PointView) → IsPoint image.now p → IsUnwanted image.now (Wanted.Store cell) p) }
    requires touched { ¬ ((p : PointView) → IsPoint image.now p → IsUnwanted image.now (Wanted.Touch cell) p) }
    requires differ { (value : ℕ) → ¬ ((p : PointView) → IsPoint image.now p
        → IsUnwanted image.now (Wanted.Other cell value) p) }
    requires unguarded { (x : SectionView) → ¬ ((p : PointView) → IsPoint image.now p
        → IsUnwanted image.now (Wanted.Outside cell x) p) }
    ensures { IfOk result (λ unguarded. spec.IsUnguarded image.now unguarded × (unguarded.cell ≡ cell)) }
{
    let points = telling_points(alloc, image, marks, cell)?;
    let storer = point_among(alloc, image, &points, &Wanted::Store(cell))?;
    let one = point_among(alloc, image, &points, &Wanted::Touch(cell))?;
    let other = point_among(
        alloc,
        image,
        &points,
        &Wanted::Other(cell, owner_value(image, one.owner)),
    )?;
    let outside = points_outside(alloc, image, &points, cell, &one.inside)?;
    Ok(Unguarded {
        cell,
        storer,
        one,
        other,
        outside,
    })
}

/// The witness that the seventh rule is broken.
pub fn guards_witness(
    alloc: Global,
    image: &Image,
    findings: &Findings,
    marks: &Marks,
) -> Result<Witness, NoMemory>
    requires limits { IsWithinLimits image.now }
    requires looked { Looked image.now findings.now }
    requires operates { OperatesWell image.now }
    requires broken { ¬ GuardsCells image.now }
    ensures { IfOk result (λ w. spec.IsWitness image.now w × (spec.rule_of w ≡ rule.Guards)) }
{
    match unguarded(&findings.cells.rows) {
        Some(cell) => Ok(Witness::Guard(cell_witness(alloc, image, &marks.cells, cell)?)),
        None => unreachable!(),
    }
}
