// Points that tell who touches a cell.

ghost use Rattle.std.specs.Prelude.{IfOk, OnOk, IsTrue};
ghost use Rattle.std.specs.List.{AllByRecursion};
ghost use Rattle.rt_points.specs.Leading.{IsPoint};
ghost use Rattle.rt_points.specs.Limits.{IsWithinLimits};
ghost use Rattle.rt_points.specs.Point.{Point as PointOf};
ghost use Rattle.rt_points.specs.Rules.{NestsInOneWay};
ghost use Rattle.rt_why.specs.Inside.Wanted.{IsWanted, IsUnwanted};

use crate::marks::CellMark;
use crate::point::Point;
use crate::search::{Outcome, point_wanted, search_owner};
use crate::wanted::{Wanted, is_wanted};
use rt_code::Image;
use rt_ids::NoMemory;
use rt_judge::exits::line_at;
use rt_judge::touching::{Cells, Touching, is_row_guarded};
use rt_points::MOST_OPEN;
use std::alloc::Global;

/// The most points that tell who touches a cell: the first touch, a store, one by an owner of another priority value,
/// and one for each section that is open at the first.
const MOST_TELLING: usize = MOST_OPEN + 3;

/// Who touches a cell at these points, None where nobody does.
fn known_of(
    alloc: Global,
    image: &Image,
    cell: usize,
    points: &[Point],
) -> Result<Option<Touching>, NoMemory> {
    let mut cells = Cells::new(alloc, image.cells.len())?;
    for point in points {
        if let Some(line) = line_at(image, point.address) {
            cells.take(alloc, image, point.owner, &line, &point.inside)?;
        }
    }
    match cells.rows.get_mut(cell) {
        Some(row) => Ok(row.take()),
        None => Ok(None),
    }
}

/// What tells more of who touches a cell than these points, None where they show that nothing guards it.
fn more_wanted(
    alloc: Global,
    image: &Image,
    cell: usize,
    points: &[Point],
) -> Result<Option<Wanted>, NoMemory> {
    let known = known_of(alloc, image, cell, points)?;
    if !is_row_guarded(&known) {
        return Ok(None);
    }
    match known {
        Some(touching) => Ok(Some(Wanted::More(cell, touching))),
        None => Ok(Some(Wanted::Touch(cell))),
    }
}

/// Adds points of an owner that tell more of who touches a cell.
fn add_telling(
    alloc: Global,
    image: &Image,
    mark: &CellMark,
    points: &mut Vec<Point>,
) -> Result<(), NoMemory>
    requires limits { IsWithinLimits image.now }
    requires points { AllByRecursion (IsPoint image.now) points.old.items }
    ensures { OnOk result (AllByRecursion (IsPoint image.now) points.new.items) }
{
    for _ in 0..MOST_TELLING {
        let Some(wanted) = more_wanted(alloc, image, mark.cell, points)? else {
            return Ok(());
        };
        match search_owner(alloc, image, mark.owner, &wanted)? {
            Outcome::Found(point) => points.push(point)?,
            Outcome::Nothing | Outcome::Split(_) => return Ok(()),
        }
    }
    Ok(())
}

/// Points at which a cell is touched outside `init`, each of which tells more of who touches it than those before: all
/// are at the code of owners that are marked.
pub fn telling_points(
    alloc: Global,
    image: &Image,
    marks: &[CellMark],
    cell: usize,
) -> Result<Vec<Point>, NoMemory>
    requires { IsWithinLimits image.now }
    ensures { IfOk result (λ points. AllByRecursion (IsPoint image.now) points.items) }
{
    let mut points = Vec::new(alloc);
    for mark in marks {
        if mark.cell == cell {
            add_telling(alloc, image, mark, &mut points)?;
        }
    }
    Ok(points)
}

/// Whether a point is looked for.
fn is_point_wanted(image: &Image, point: &Point, wanted: &Wanted) -> bool
    ensures { IsTrue result → IsWanted image.now wanted.now point.now }
{
    is_wanted(image, point.owner, point.address, &point.inside, wanted)
}

/// The point that is looked for: the first of these, else any.
pub fn point_among(
    alloc: Global,
    image: &Image,
    points: &[Point],
    wanted: &Wanted,
) -> Result<Point, NoMemory>
    requires limits { IsWithinLimits image.now }
    requires nests { NestsInOneWay image.now }
    requires points { AllByRecursion (IsPoint image.now) points.now }
    requires there { ¬ ((p : PointOf) → IsPoint image.now p → IsUnwanted image.now wanted.now p) }
    ensures { IfOk result (λ p. IsPoint image.now p × IsWanted image.now wanted.now p) }
{
    for point in points {
        if is_point_wanted(image, point, wanted) {
            return Point::new(alloc, point.owner, point.address, &point.inside);
        }
    }
    point_wanted(alloc, image, wanted)
}
